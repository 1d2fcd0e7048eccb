//! Stored responses under the texts of their targets, within limits. The modules below change the
//! map of texts, by layers: `list` (one target), `map` (one text), `bounds` and `sweep` (the whole
//! map). Where the bodies are is the store's matter.
ghost use Rattle.std.specs.Prelude.{◌≡◌, ◌≤◌, ◌+◌, ◌==◌, ℕ, List, [], ◌∷◌, length, string_capacity, nat_eq};
ghost use Rattle.std.specs.Prelude.{map, option_map, option_copied, IsTrue, IfOk, OnOk, OnErr};
ghost use Rattle.std.specs.List.{find, sum_by};
ghost use Rattle.http_cache_store.specs.Store.{without, renewed, has_id, AreNewestOf, KeepsOthers};
ghost use Rattle.http_cache_store.specs.Store.{RemovesThese, removed_count, IsSwept};
ghost use Rattle.http_cache_store.specs.Target.{text_of};
ghost use Rattle.http_cache_memory_store.specs.Size.{FitTogether, HasRoom, IsAllowed, IsSmall};
ghost use Rattle.http_cache_memory_store.specs.Index.{is_last_used, AreTextsWithin, HasUnder, IsHeld, HasFirst};
ghost use Rattle.http_cache_memory_store.specs.Removal.{HasSameIds, TellsRemoved};

pub(crate) mod bounds;
pub(crate) mod limit;
pub(crate) mod list;
pub(crate) mod map;
pub(crate) mod size;
pub(crate) mod sweep;

use crate::entry::{Entry, Removed};
use crate::index::bounds::keep_limits;
pub use crate::index::limit::Limits;
use crate::index::list::{Kept, find_id};
use crate::index::map::{
    first_stored, promote, put_stored, remove_ids, remove_texts, renew, stored_of, tidy,
};
use crate::index::size::Amount;
use crate::index::sweep::{is_sweep_due, make_room, sweep_all, sweep_others_if};
use http_cache_store::{ResponseId, Target};
use jiff::Timestamp;
use lru::LruCache;
use std::alloc::{AllocError, Global};
use std::hash::RandomState;

/// Stored responses under the texts of their targets, newest first.
///
/// After every call what is stored is within the limits. A target that was used last and exceeds a
/// limit by itself loses its oldest responses. Then whole targets are evicted, the one that was
/// used longest ago first.
#[derive(Drop)]
pub struct Index<E: Entry + Drop> {
    alloc: Global,
    pub(crate) limits: Limits,
    // The stored responses under the texts of their targets. The text that was used last is first.
    pub(crate) kept: Kept<E>,
    // The amount of `kept`.
    pub(crate) held: Amount,
    // It has room for the longest text in `kept`, so that `sweep` allocates nothing.
    buffer: String,
    // The number of responses that were put since all were swept.
    unswept: usize,
    ghost has_room: { AreTextsWithin (string_capacity buffer) kept.entries },
    ghost counted: { IsHeld E.cost held kept },
    ghost allowed: { IsAllowed limits held },
}

impl<E: Entry + Drop> Index<E> {
    ghost use Rattle.http_cache_memory_store.specs.Held.{entries_in, stored_in, limits_of};

    /// Returns an empty index. The secret keys of `hasher` keep look-ups fast for hostile targets.
    ///
    /// # Errors
    ///
    /// `AllocError` if there is not enough memory.
    pub fn new(alloc: Global, hasher: RandomState, limits: Limits) -> Result<Index<E>, AllocError>
        ensures empty { IfOk result (λ index. entries_in index ≡ []) }
        ensures limits { IfOk result (λ index. limits_of index ≡ limits) }
    {
        Ok(Index {
            alloc,
            limits,
            kept: LruCache::unbounded_with_hasher(alloc, hasher)?,
            held: Amount::none(),
            buffer: String::new(alloc),
            unswept: 0,
        })
    }

    /// Returns the limits. What is stored is within them.
    pub fn limits(&self) -> Limits
        ensures limits { result ≡ limits_of self.now }
        ensures responses { length (entries_in self.now) ≤ result.responses }
        ensures bytes { sum_by E.cost (entries_in self.now) ≤ result.bytes }
    {
        self.limits
    }

    /// Returns the number of stored responses.
    pub fn len(&self) -> usize
        ensures { result ≡ length (entries_in self.now) }
    {
        self.amount().responses as usize
    }

    /// Returns whether no response is stored.
    pub fn is_empty(&self) -> bool
        ensures value { result ≡ (length (entries_in self.now) == 0) }
        ensures none { IsTrue result → (text : List ℕ) → stored_in E.seen self.now text ≡ [] }
    {
        self.held.responses == 0
    }

    /// Returns what all responses count for the limit of bytes.
    pub fn size(&self) -> u64
        ensures { result ≡ sum_by E.cost (entries_in self.now) }
    {
        self.amount().bytes as u64
    }

    // Returns how much is stored. Both numbers are below 2^64.
    fn amount(&self) -> Amount
        ensures held { result ≡ self.now.held }
        ensures small { IsSmall result }
    {
        let _responses = self.limits.responses;
        let _bytes = self.limits.bytes;
        self.held
    }

    /// Makes a text the one that was used last.
    pub fn promote(&mut self, text: &str)
        ensures stored { stored_in E.seen self.new ≡ stored_in E.seen self.old }
        ensures first { is_last_used E.seen self.new.kept.entries text.now }
        ensures limits { limits_of self.new ≡ limits_of self.old }
        ensures ids { HasSameIds E.seen (entries_in self.old) (entries_in self.new) }
    {
        promote(&mut self.kept, text);
    }

    /// Returns what is stored under a text if it was used last, and otherwise nothing.
    pub fn last_used(&self, text: &str) -> &[E]
        ensures { is_last_used E.seen self.now.kept.entries text.now
            → map E.seen result.now ≡ stored_in E.seen self.now text.now }
    {
        first_stored(&self.kept, text)
    }

    /// Returns what is stored under a text.
    pub fn under(&self, text: &str) -> &[E]
        ensures { map E.seen result.now ≡ stored_in E.seen self.now text.now }
    {
        stored_of(&self.kept, text)
    }

    /// Returns the response under a text that has the id.
    pub fn get(&self, text: &str, id: ResponseId) -> Option<&E>
        ensures { option_map E.seen (option_copied result)
            ≡ find (λ r. nat_eq r.id id.0) (stored_in E.seen self.now text.now) }
    {
        find_id(stored_of(&self.kept, text), id)
    }

    /// Stores a response as the newest under a text, removes the superseded ones, and evicts what
    /// exceeds the limits.
    ///
    /// Nothing is evicted while there is room for one more response. What can't be used again at
    /// `now` is evicted first, under other texts. It is looked for once for as many calls as an
    /// eighth of the targets.
    ///
    /// # Errors
    ///
    /// `AllocError` if there is not enough memory. What is stored is then as it was.
    pub fn put<G: Removed>(
        &mut self,
        text: &str,
        superseded: &[ResponseId],
        entry: E,
        now: Timestamp,
        gone: &mut G,
    ) -> Result<(), AllocError>
        requires { FitTogether E.cost (limits_of self.old) (entry ∷ []) }
        ensures put { OnOk result (HasFirst (E.seen entry)
            (without superseded.now (stored_in E.seen self.old text.now))
            (stored_in E.seen self.new text.now)) }
        ensures variants { OnOk result
            (length (stored_in E.seen self.new text.now) ≤ (limits_of self.new).variants) }
        ensures others { KeepsOthers (stored_in E.seen self.old) (stored_in E.seen self.new)
            text.now }
        ensures whole { OnOk result (HasRoom E.cost (limits_of self.old) (entries_in self.old)
            (length (stored_in E.seen self.old text.now)) (E.cost entry)
            → HasUnder text.now
            (E.seen entry ∷ without superseded.now (stored_in E.seen self.old text.now))
            (stored_in E.seen self.old) (stored_in E.seen self.new)) }
        ensures kept { OnErr result (stored_in E.seen self.new ≡ stored_in E.seen self.old) }
        ensures limits { limits_of self.new ≡ limits_of self.old }
        ensures told { OnOk result (TellsRemoved E.seen (entry ∷ entries_in self.old)
            (entries_in self.new) (G.told gone.old) (G.told gone.new)) }
        ensures none_told { OnErr result (G.told gone.new ≡ G.told gone.old) }
        ensures ids { OnErr result
            (HasSameIds E.seen (entries_in self.old) (entries_in self.new)) }
    {
        // The amount comes with the proof that there is room to count one more response.
        let _amount = self.amount();
        make_room(&mut self.buffer, text.len())?;
        put_stored(
            &mut self.kept,
            self.alloc,
            &mut self.held,
            text,
            superseded,
            entry,
            gone,
        )?;
        let is_full = !self.limits.allow(self.held);
        let is_due = is_sweep_due(&mut self.unswept, is_full, self.kept.len());
        sweep_others_if(
            is_due,
            &mut self.kept,
            &mut self.held,
            &mut self.buffer,
            text,
            now,
            gone,
        );
        keep_limits(&mut self.kept, &mut self.held, &self.limits, text, 1, gone);
        Ok(())
    }

    /// Replaces the head of the response under a text that has the id, and returns whether there is
    /// one. Evicts what exceeds the limits then.
    pub fn renew<G: Removed>(
        &mut self,
        text: &str,
        id: ResponseId,
        head: E::Head,
        gone: &mut G,
    ) -> bool
        ensures renewed { AreNewestOf (stored_in E.seen self.new text.now)
            (renewed id.0 (E.exchange head) (stored_in E.seen self.old text.now)) }
        ensures was_stored { result ≡ has_id id.0 (stored_in E.seen self.old text.now) }
        ensures others { KeepsOthers (stored_in E.seen self.old) (stored_in E.seen self.new)
            text.now }
        ensures limits { limits_of self.new ≡ limits_of self.old }
        ensures told { TellsRemoved E.seen (entries_in self.old) (entries_in self.new)
            (G.told gone.old) (G.told gone.new) }
    {
        // The amount comes with the proof that there is room to count a longer head.
        let _amount = self.amount();
        if !renew(&mut self.kept, &mut self.held, text, id, head) {
            return false;
        }
        keep_limits(&mut self.kept, &mut self.held, &self.limits, text, 0, gone);
        true
    }

    /// Removes responses under a text by their ids.
    pub fn remove_ids<G: Removed>(&mut self, text: &str, ids: &[ResponseId], gone: &mut G)
        ensures removed { HasUnder text.now
            (without ids.now (stored_in E.seen self.old text.now))
            (stored_in E.seen self.old) (stored_in E.seen self.new) }
        ensures limits { limits_of self.new ≡ limits_of self.old }
        ensures told { TellsRemoved E.seen (entries_in self.old) (entries_in self.new)
            (G.told gone.old) (G.told gone.new) }
    {
        remove_ids(&mut self.kept, &mut self.held, text, ids, gone);
        tidy(&mut self.kept, text);
    }

    /// Removes all that is stored for some targets, and returns the number of removed responses.
    pub fn remove_targets<G: Removed>(&mut self, targets: &[Target], gone: &mut G) -> usize
        ensures count { result ≡ removed_count (stored_in E.seen self.old)
            (map text_of targets.now) }
        ensures removed { RemovesThese (map text_of targets.now)
            (stored_in E.seen self.old) (stored_in E.seen self.new) }
        ensures limits { limits_of self.new ≡ limits_of self.old }
        ensures told { TellsRemoved E.seen (entries_in self.old) (entries_in self.new)
            (G.told gone.old) (G.told gone.new) }
    {
        // The amount comes with the proof that the count fits.
        let _amount = self.amount();
        remove_texts(&mut self.kept, &mut self.held, targets, gone)
    }

    /// Removes what can't be used again at `now` or later, and returns the number of removed
    /// responses. Allocates nothing.
    pub fn sweep<G: Removed>(&mut self, now: Timestamp, gone: &mut G) -> usize
        ensures swept { IsSwept now.nanosecond (stored_in E.seen self.old)
            (stored_in E.seen self.new) }
        ensures removed { length (entries_in self.old) ≡ length (entries_in self.new) + result }
        ensures limits { limits_of self.new ≡ limits_of self.old }
        ensures told { TellsRemoved E.seen (entries_in self.old) (entries_in self.new)
            (G.told gone.old) (G.told gone.new) }
    {
        let before = self.amount().responses;
        sweep_all(&mut self.kept, &mut self.held, &mut self.buffer, now, gone);
        (before - self.held.responses) as usize
    }
}

//! The stored responses of one target, newest first. No function here knows the target's text.
//!
//! Each call that may drop a response is in a separate function, since the prover looks into all
//! that a dropped response holds.
ghost use Rattle.std.specs.Prelude.{◌≡◌, ◌-◌, ◌<◌, ◌≤◌, ◌∷◌, [], ℕ, false, length, map, take, not, nat_eq, vec_len, vec_capacity, option_copied, position, slice_get, Some, IsOk, IfOk, OnOk, OnErr};
ghost use Rattle.std.specs.List.{filter, find, list_any};
ghost use Rattle.http_cache_store.specs.Worth.{can_be_used_again};
ghost use Rattle.http_cache_store.specs.Store.{without, renewed, has_id};
ghost use Rattle.http_cache_memory_store.specs.Size.{IsAmountOf, IsOfList, FitTogether};
ghost use Rattle.http_cache_memory_store.specs.Index.{AreLeft, IsRenewedAt};
ghost use Rattle.http_cache_memory_store.specs.Removal.{HasSameIds, TellsRemoved};

use crate::entry::{Entry, Removed};
use crate::index::limit::Limits;
use crate::index::size::{Amount, total_cost};
use http_cache_store::ResponseId;
use jiff::Timestamp;
use lru::LruCache;
use std::alloc::{AllocError, Global};
use std::hash::RandomState;

#[derive(Drop)]
pub(crate) struct StoredList<E: Drop> {
    pub(crate) entries: Vec<E>,
}

/// The lists under the texts of their targets. The text that was used last is first.
pub(crate) type Kept<E> = LruCache<String, StoredList<E>, RandomState>;

fn is_among(ids: &[ResponseId], id: ResponseId) -> bool
    ensures { result ≡ list_any (λ one. nat_eq id.0 one.0) ids.now }
{
    ids.iter().any(|one| id == *one)
}

fn drop_ids<E: Entry + Drop>(entries: &mut Vec<E>, ids: &[ResponseId])
    ensures stored { entries.new.items
        ≡ filter (λ e. not (list_any (λ one. nat_eq (E.seen e).id one.0) ids.now))
        entries.old.items }
    ensures length { vec_len entries.new ≤ vec_len entries.old }
    ensures capacity { vec_capacity entries.new ≡ vec_capacity entries.old }
{
    entries.retain(|entry| !is_among(ids, entry.id()));
}

fn drop_unusable<E: Entry + Drop>(entries: &mut Vec<E>, now: Timestamp)
    ensures { entries.new.items
        ≡ filter (λ e. can_be_used_again (E.seen e).exchange now.nanosecond) entries.old.items }
{
    entries.retain(|entry| entry.can_be_used_again(now));
}

// Tells of those that have one of the ids.
fn tell_ids<E: Entry, G: Removed>(entries: &[E], ids: &[ResponseId], gone: &mut G)
    ensures { TellsRemoved E.seen entries.now
        (filter (λ e. not (list_any (λ one. nat_eq (E.seen e).id one.0) ids.now)) entries.now)
        (G.told gone.old) (G.told gone.new) }
{
    for entry in entries {
        if is_among(ids, entry.id()) {
            gone.removed(entry.id());
        }
    }
}

// Tells of those that can't be used again.
fn tell_unusable<E: Entry, G: Removed>(entries: &[E], now: Timestamp, gone: &mut G)
    ensures { TellsRemoved E.seen entries.now
        (filter (λ e. can_be_used_again (E.seen e).exchange now.nanosecond) entries.now)
        (G.told gone.old) (G.told gone.new) }
{
    for entry in entries {
        if !entry.can_be_used_again(now) {
            gone.removed(entry.id());
        }
    }
}

fn drop_oldest<E: Entry + Drop, G: Removed>(entries: &mut Vec<E>, gone: &mut G)
    requires { 0 < length entries.old.items }
    ensures left { entries.new.items ≡ take (length entries.old.items - 1) entries.old.items }
    ensures told { TellsRemoved E.seen entries.old.items entries.new.items
        (G.told gone.old) (G.told gone.new) }
{
    if let Some(entry) = entries.pop() {
        gone.removed(entry.id());
        drop(entry);
    }
}

// Drops the oldest responses until the rest is within the limits by itself. The newest `stay`
// responses stay.
fn drop_until<E: Entry + Drop, G: Removed>(
    entries: &mut Vec<E>,
    stay: usize,
    limits: &Limits,
    gone: &mut G,
)
    ensures left { AreLeft stay entries.old.items entries.new.items }
    ensures fits { FitTogether E.cost limits.now (take stay entries.old.items)
        → FitTogether E.cost limits.now entries.new.items }
    ensures whole { FitTogether E.cost limits.now entries.old.items
        → entries.new.items ≡ entries.old.items }
    ensures told { TellsRemoved E.seen entries.old.items entries.new.items
        (G.told gone.old) (G.told gone.new) }
{
    while entries.len() > stay && !limits.fit_together(entries.as_slice()) {
        drop_oldest(entries, gone);
    }
}

fn push_newest<E: Drop>(entries: &mut Vec<E>, entry: E) -> Result<(), AllocError>
    ensures ok { OnOk result (entries.new.items ≡ entry ∷ entries.old.items) }
    ensures kept { OnErr result (entries.new.items ≡ entries.old.items) }
    ensures succeeds { vec_len entries.old < vec_capacity entries.old → IsOk result }
{
    match entries.insert(0, entry) {
        Ok(()) => Ok(()),
        Err(_) => Err(AllocError),
    }
}

pub(crate) fn list_of_one<E: Drop>(alloc: Global, entry: E) -> Result<StoredList<E>, AllocError>
    ensures { IfOk result (λ list. list.entries.items ≡ entry ∷ []) }
{
    let mut entries = Vec::new(alloc);
    push_newest(&mut entries, entry)?;
    Ok(StoredList { entries })
}

/// Returns the first response that has the id.
pub(crate) fn find_id<E: Entry>(entries: &[E], id: ResponseId) -> Option<&E>
    ensures { option_copied result ≡ find (λ e. nat_eq (E.seen e).id id.0) entries.now }
{
    entries.iter().find(|entry| entry.id() == id)
}

fn index_of<E: Entry>(entries: &[E], id: ResponseId) -> Option<usize>
    ensures { result ≡ position (λ e. nat_eq (E.seen e).id id.0) entries.now }
{
    entries.iter().position(|entry| entry.id() == id)
}

fn renew_at<E: Entry>(entries: &mut Vec<E>, at: usize, head: E::Head)
    requires { at < length entries.old.items }
    ensures { IsRenewedAt E.seen at (E.exchange head) entries.old.items entries.new.items }
{
    entries[at].renew(head);
}

impl<E: Entry + Drop> StoredList<E> {
    ghost use Rattle.http_cache_memory_store.specs.Index.{all_seen};
    ghost use Rattle.http_cache_memory_store.specs.Removal.{HasSameIds, TellsRemoved};
    ghost use Rattle.http_cache_store.specs.Store.{usable};

    /// Returns the amount of the listed responses.
    pub(crate) fn amount(&self) -> Amount
        ensures amount { IsAmountOf E.cost result self.now.entries.items }
        ensures list { IsOfList result }
    {
        Amount {
            responses: self.entries.len() as u128,
            bytes: total_cost(self.entries.as_slice()),
        }
    }

    /// Removes the responses that have one of the ids.
    pub(crate) fn remove<G: Removed>(&mut self, ids: &[ResponseId], gone: &mut G)
        ensures stored { all_seen E.seen self.new ≡ without ids.now (all_seen E.seen self.old) }
        ensures entries { self.new.entries.items
            ≡ filter (λ e. not (list_any (λ one. nat_eq (E.seen e).id one.0) ids.now))
            self.old.entries.items }
        ensures length { vec_len self.new.entries ≤ vec_len self.old.entries }
        ensures capacity { vec_capacity self.new.entries ≡ vec_capacity self.old.entries }
        ensures told { TellsRemoved E.seen self.old.entries.items self.new.entries.items
            (G.told gone.old) (G.told gone.new) }
    {
        tell_ids(self.entries.as_slice(), ids, gone);
        drop_ids(&mut self.entries, ids);
    }

    /// Removes the responses that can't be used again at `now`.
    pub(crate) fn sweep<G: Removed>(&mut self, now: Timestamp, gone: &mut G)
        ensures stored { all_seen E.seen self.new
            ≡ usable now.nanosecond (all_seen E.seen self.old) }
        ensures entries { self.new.entries.items
            ≡ filter (λ e. can_be_used_again (E.seen e).exchange now.nanosecond)
            self.old.entries.items }
        ensures told { TellsRemoved E.seen self.old.entries.items self.new.entries.items
            (G.told gone.old) (G.told gone.new) }
    {
        tell_unusable(self.entries.as_slice(), now, gone);
        drop_unusable(&mut self.entries, now);
    }

    /// Stores a response as the newest, and removes the superseded ones.
    pub(crate) fn put_first<G: Removed>(
        &mut self,
        superseded: &[ResponseId],
        entry: E,
        gone: &mut G,
    ) -> Result<(), AllocError>
        ensures ok { OnOk result (all_seen E.seen self.new
            ≡ E.seen entry ∷ without superseded.now (all_seen E.seen self.old)) }
        ensures newest { OnOk result (slice_get self.new.entries.items 0 ≡ Some entry) }
        ensures entries { OnOk result (self.new.entries.items ≡ entry
            ∷ filter (λ e. not (list_any (λ one. nat_eq (E.seen e).id one.0) superseded.now))
            self.old.entries.items) }
        ensures kept { OnErr result (self.new.entries.items ≡ self.old.entries.items) }
        ensures told { OnOk result (TellsRemoved E.seen (entry ∷ self.old.entries.items)
            self.new.entries.items (G.told gone.old) (G.told gone.new)) }
        ensures none_told { OnErr result (G.told gone.new ≡ G.told gone.old) }
    {
        self.entries.reserve(1)?;
        self.remove(superseded, gone);
        push_newest(&mut self.entries, entry)
    }

    /// Replaces the head of the first response that has the id, and returns whether there is one.
    pub(crate) fn renew(&mut self, id: ResponseId, head: E::Head) -> bool
        ensures stored { all_seen E.seen self.new
            ≡ renewed id.0 (E.exchange head) (all_seen E.seen self.old) }
        ensures was_stored { result ≡ has_id id.0 (all_seen E.seen self.old) }
        ensures kept { result ≡ false → self.new.entries.items ≡ self.old.entries.items }
        ensures ids { HasSameIds E.seen self.old.entries.items self.new.entries.items }
    {
        let Some(at) = index_of(self.entries.as_slice(), id) else {
            drop(head);
            return false;
        };
        renew_at(&mut self.entries, at, head);
        true
    }

    /// Removes the oldest responses until the rest is within the limits by itself. The newest
    /// `stay` responses stay.
    pub(crate) fn shorten<G: Removed>(&mut self, stay: usize, limits: &Limits, gone: &mut G)
        ensures left { AreLeft stay self.old.entries.items self.new.entries.items }
        ensures fits { FitTogether E.cost limits.now (take stay self.old.entries.items)
            → FitTogether E.cost limits.now self.new.entries.items }
        ensures whole { FitTogether E.cost limits.now self.old.entries.items
            → self.new.entries.items ≡ self.old.entries.items }
        ensures told { TellsRemoved E.seen self.old.entries.items self.new.entries.items
            (G.told gone.old) (G.told gone.new) }
    {
        drop_until(&mut self.entries, stay, limits, gone);
    }

    /// Tells of all responses.
    pub(crate) fn tell<G: Removed>(&self, gone: &mut G)
        ensures { TellsRemoved E.seen self.now.entries.items []
            (G.told gone.old) (G.told gone.new) }
    {
        for entry in self.entries.as_slice() {
            gone.removed(entry.id());
        }
    }
}

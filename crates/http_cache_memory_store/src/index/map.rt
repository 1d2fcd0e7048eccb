//! Changes of the map from texts to lists. Each function calls the map once, and its contract says
//! what is stored under every text. None of them knows limits; `held` stays the amount of what is
//! stored.
//!
//! Look-ups are by `&str`, since std's lemmas on texts are about it.
ghost use Rattle.std.specs.Prelude.{◌≡◌, ◌∷◌, ◌++◌, [], true, false, Some, None, ◌+◌, ◌≤◌, OnOk, OnErr, IsTrue, slice_get, string_bytes, map, length, take};
ghost use Rattle.std.specs.List.{sum_by};
ghost use Rattle.std.specs.Map.{lookup};
ghost use Rattle.http_cache_store.specs.Store.{without, renewed, has_id, RemovesThese, removed_count};
ghost use Rattle.http_cache_store.specs.Target.{text_of};
ghost use Rattle.lru.specs.LruCache.{promoted};
ghost use Rattle.http_cache_memory_store.specs.Index.{all_entries, all_seen, entries_under, stored_under, is_last_used, is_text, HasUnder, IsOnTop, KeepsTexts, KeepsTextsBut, IsHeld, IsFirstText};
ghost use Rattle.http_cache_memory_store.specs.Removal.{HasSameIds, TellsRemoved};
ghost use Rattle.http_cache_memory_store.specs.Size.{IsAtMost, IsSmall};
ghost use Rattle.http_cache_memory_store.specs.declared.index.size.Amount.{Amount as Held};

use crate::entry::{Entry, Removed};
use crate::index::list::{Kept, StoredList, list_of_one};
use crate::index::size::Amount;
use http_cache_store::{ResponseId, Target};
use std::alloc::{AllocError, Global};

/// Makes a text the one that was used last.
pub(crate) fn promote<E: Entry + Drop>(kept: &mut Kept<E>, text: &str)
    ensures stored { stored_under E.seen kept.new.entries ≡ stored_under E.seen kept.old.entries }
    ensures first { is_last_used E.seen kept.new.entries text.now }
    ensures moved { kept.new.entries ≡ promoted (is_text text.now) kept.old.entries }
    ensures texts { KeepsTexts kept.old.entries kept.new.entries }
    ensures held { (held : Held) → IsHeld E.cost held kept.old → IsHeld E.cost held kept.new }
    ensures ids { HasSameIds E.seen (all_entries kept.old.entries)
        (all_entries kept.new.entries) }
{
    let _is_kept = kept.promote(text);
}

/// Returns what is stored under a text if it was used last, and otherwise nothing.
pub(crate) fn first_stored<'a, E: Entry + Drop>(kept: &'a Kept<E>, text: &str) -> &'a [E]
    ensures { is_last_used E.seen kept.now.entries text.now
        → map E.seen result.now ≡ stored_under E.seen kept.now.entries text.now }
{
    let Some((last, list)) = kept.peek_mru() else {
        return &[];
    };
    if text == last.as_str() {
        list.entries.as_slice()
    } else {
        &[]
    }
}

/// Returns what is stored under a text.
pub(crate) fn stored_of<'a, E: Entry + Drop>(kept: &'a Kept<E>, text: &str) -> &'a [E]
    ensures { result.now ≡ entries_under kept.now.entries text.now }
{
    match kept.peek(text) {
        Some(list) => list.entries.as_slice(),
        None => &[],
    }
}

/// Removes all that is stored under a text, and returns the number of removed responses.
pub(crate) fn remove_text<E: Entry + Drop, G: Removed>(
    kept: &mut Kept<E>,
    held: &mut Amount,
    text: &str,
    gone: &mut G,
) -> usize
    requires { IsHeld E.cost held.old kept.old }
    ensures count { result ≡ length (stored_under E.seen kept.old.entries text.now) }
    ensures counted { held.old.responses ≡ held.new.responses + result }
    ensures stored { HasUnder text.now [] (stored_under E.seen kept.old.entries)
        (stored_under E.seen kept.new.entries) }
    ensures texts { KeepsTexts kept.old.entries kept.new.entries }
    ensures held { IsHeld E.cost held.new kept.new }
    ensures less { IsAtMost held.new held.old }
    ensures told { TellsRemoved E.seen (all_entries kept.old.entries) (all_entries kept.new.entries)
        (G.told gone.old) (G.told gone.new) }
{
    // The length comes with the proof that all keys are different.
    let _length = kept.len();
    match kept.pop(text) {
        Some(list) => {
            let count = list.entries.len();
            held.reduce(list.amount(), Amount::none());
            list.tell(gone);
            drop(list);
            count
        }
        None => 0,
    }
}

/// Removes all that is stored under the texts of some targets, and returns the number of removed
/// responses.
pub(crate) fn remove_texts<E: Entry + Drop, G: Removed>(
    kept: &mut Kept<E>,
    held: &mut Amount,
    targets: &[Target],
    gone: &mut G,
) -> usize
    requires held { IsHeld E.cost held.old kept.old }
    requires small { IsSmall held.old }
    ensures count { result ≡ removed_count (stored_under E.seen kept.old.entries)
        (map text_of targets.now) }
    ensures stored { RemovesThese (map text_of targets.now) (stored_under E.seen kept.old.entries)
        (stored_under E.seen kept.new.entries) }
    ensures texts { KeepsTexts kept.old.entries kept.new.entries }
    ensures held { IsHeld E.cost held.new kept.new }
    ensures less { IsAtMost held.new held.old }
    ensures told { TellsRemoved E.seen (all_entries kept.old.entries) (all_entries kept.new.entries)
        (G.told gone.old) (G.told gone.new) }
{
    let mut count = 0usize;
    for target in targets {
        count += remove_text(kept, held, target.as_str(), gone);
    }
    count
}

fn is_spent<E: Entry + Drop>(kept: &Kept<E>, text: &str) -> bool
    ensures { result ≡ true → entries_under kept.now.entries text.now ≡ [] }
{
    match kept.peek(text) {
        Some(list) => list.entries.is_empty(),
        None => false,
    }
}

/// Removes a text if its list is empty, so that it doesn't count as used.
pub(crate) fn tidy<E: Entry + Drop>(kept: &mut Kept<E>, text: &str)
    ensures stored { stored_under E.seen kept.new.entries ≡ stored_under E.seen kept.old.entries }
    ensures texts { KeepsTexts kept.old.entries kept.new.entries }
    ensures held { (held : Held) → IsHeld E.cost held kept.old → IsHeld E.cost held kept.new }
    ensures ids { HasSameIds E.seen (all_entries kept.old.entries)
        (all_entries kept.new.entries) }
{
    // The length comes with the proof that all keys are different.
    let _length = kept.len();
    if is_spent(kept, text) {
        drop(kept.pop(text));
    }
}

/// Removes responses under a text by their ids.
pub(crate) fn remove_ids<E: Entry + Drop, G: Removed>(
    kept: &mut Kept<E>,
    held: &mut Amount,
    text: &str,
    ids: &[ResponseId],
    gone: &mut G,
)
    requires { IsHeld E.cost held.old kept.old }
    ensures stored { HasUnder text.now
        (without ids.now (stored_under E.seen kept.old.entries text.now))
        (stored_under E.seen kept.old.entries) (stored_under E.seen kept.new.entries) }
    ensures texts { KeepsTexts kept.old.entries kept.new.entries }
    ensures held { IsHeld E.cost held.new kept.new }
    ensures less { IsAtMost held.new held.old }
    ensures told { TellsRemoved E.seen (all_entries kept.old.entries) (all_entries kept.new.entries)
        (G.told gone.old) (G.told gone.new) }
{
    match kept.get_mut(text) {
        Some(list) => {
            let before = list.amount();
            list.remove(ids, gone);
            held.reduce(before, list.amount());
        }
        None => {}
    }
}

/// Replaces the head of the first response that has the id, and returns whether there is one. The
/// text becomes the one that was used last.
pub(crate) fn renew<E: Entry + Drop>(
    kept: &mut Kept<E>,
    held: &mut Amount,
    text: &str,
    id: ResponseId,
    head: E::Head,
) -> bool
    requires held { IsHeld E.cost held.old kept.old }
    requires small { IsSmall held.old }
    ensures stored { HasUnder text.now
        (renewed id.0 (E.exchange head) (stored_under E.seen kept.old.entries text.now))
        (stored_under E.seen kept.old.entries) (stored_under E.seen kept.new.entries) }
    ensures first { IsTrue result → IsFirstText text.now kept.new.entries }
    ensures held { IsHeld E.cost held.new kept.new }
    ensures refused { result ≡ false → IsAtMost held.new held.old }
    ensures was_stored { result ≡ has_id id.0 (stored_under E.seen kept.old.entries text.now) }
    ensures texts { KeepsTexts kept.old.entries kept.new.entries }
    ensures ids { HasSameIds E.seen (all_entries kept.old.entries)
        (all_entries kept.new.entries) }
{
    match kept.get_mut(text) {
        Some(list) => {
            let before = list.amount();
            let was_stored = list.renew(id, head);
            held.change(before, list.amount());
            was_stored
        }
        None => {
            drop(head);
            false
        }
    }
}

fn put_key<E: Entry + Drop>(
    kept: &mut Kept<E>,
    held: &mut Amount,
    key: String,
    list: StoredList<E>,
) -> Result<(), AllocError>
    requires none { lookup (is_text (string_bytes key)) kept.old.entries ≡ None }
    requires held { IsHeld E.cost held.old kept.old }
    requires small { IsSmall held.old }
    ensures ok { OnOk result (IsOnTop E.seen (string_bytes key) (all_seen E.seen list)
        kept.old.entries kept.new.entries) }
    ensures list { OnOk result
        (entries_under kept.new.entries (string_bytes key) ≡ list.entries.items) }
    ensures kept { OnErr result (kept.new ≡ kept.old) }
    ensures texts { KeepsTextsBut (string_bytes key) kept.old.entries kept.new.entries }
    ensures held { IsHeld E.cost held.new kept.new }
    ensures less { OnErr result (IsAtMost held.new held.old) }
    ensures added { OnOk result (held.new.responses ≡ held.old.responses + length list.entries.items) }
    ensures more { OnOk result
        (held.new.bytes ≡ held.old.bytes + sum_by E.cost list.entries.items) }
    ensures ids { OnOk result (HasSameIds E.seen
        (list.entries.items ++ all_entries kept.old.entries) (all_entries kept.new.entries)) }
{
    // The length comes with the proof that the map has room for one more key.
    let _length = kept.len();
    let added = list.amount();
    match kept.put(key, list) {
        Ok(old) => drop(old),
        Err(_) => return Err(AllocError),
    }
    held.change(Amount::none(), added);
    Ok(())
}

fn put_new<E: Entry + Drop>(
    kept: &mut Kept<E>,
    alloc: Global,
    held: &mut Amount,
    text: &str,
    entry: E,
) -> Result<(), AllocError>
    requires none { lookup (is_text text.now) kept.old.entries ≡ None }
    requires held { IsHeld E.cost held.old kept.old }
    requires small { IsSmall held.old }
    ensures ok { OnOk result (IsOnTop E.seen text.now (E.seen entry ∷ [])
        kept.old.entries kept.new.entries) }
    ensures list { OnOk result (entries_under kept.new.entries text.now ≡ entry ∷ []) }
    ensures kept { OnErr result (kept.new ≡ kept.old) }
    ensures texts { KeepsTextsBut text.now kept.old.entries kept.new.entries }
    ensures held { IsHeld E.cost held.new kept.new }
    ensures less { OnErr result (IsAtMost held.new held.old) }
    ensures grows { OnOk result (held.new.responses ≤ held.old.responses + 1) }
    ensures more { OnOk result (held.new.bytes ≤ held.old.bytes + E.cost entry) }
    ensures ids { OnOk result (HasSameIds E.seen (entry ∷ all_entries kept.old.entries)
        (all_entries kept.new.entries)) }
{
    let list = list_of_one(alloc, entry)?;
    let key = String::from_str(alloc, text)?;
    put_key(kept, held, key, list)
}

/// Stores a response as the newest under a text, and removes the superseded ones. The text becomes
/// the one that was used last.
pub(crate) fn put_stored<E: Entry + Drop, G: Removed>(
    kept: &mut Kept<E>,
    alloc: Global,
    held: &mut Amount,
    text: &str,
    superseded: &[ResponseId],
    entry: E,
    gone: &mut G,
) -> Result<(), AllocError>
    requires held { IsHeld E.cost held.old kept.old }
    requires small { IsSmall held.old }
    ensures ok { OnOk result (IsOnTop E.seen text.now
        (E.seen entry ∷ without superseded.now (stored_under E.seen kept.old.entries text.now))
        kept.old.entries kept.new.entries) }
    ensures newest { OnOk result
        (slice_get (entries_under kept.new.entries text.now) 0 ≡ Some entry) }
    ensures kept { OnErr result
        (stored_under E.seen kept.new.entries ≡ stored_under E.seen kept.old.entries) }
    ensures texts { KeepsTextsBut text.now kept.old.entries kept.new.entries }
    ensures held { IsHeld E.cost held.new kept.new }
    ensures less { OnErr result (IsAtMost held.new held.old) }
    ensures grows { OnOk result (held.new.responses ≤ held.old.responses + 1) }
    ensures more { OnOk result (held.new.bytes ≤ held.old.bytes + E.cost entry) }
    ensures told { OnOk result (TellsRemoved E.seen (entry ∷ all_entries kept.old.entries)
        (all_entries kept.new.entries) (G.told gone.old) (G.told gone.new)) }
    ensures none_told { OnErr result (G.told gone.new ≡ G.told gone.old) }
    ensures ids { OnErr result (HasSameIds E.seen (all_entries kept.old.entries)
        (all_entries kept.new.entries)) }
{
    if !kept.contains(text) {
        return put_new(kept, alloc, held, text, entry);
    }
    match kept.get_mut(text) {
        Some(list) => {
            let before = list.amount();
            let put = list.put_first(superseded, entry, gone);
            held.change(before, list.amount());
            put
        }
        None => unreachable!(),
    }
}

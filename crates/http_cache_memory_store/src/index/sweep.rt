//! Removes what can't be used again under every text, in one round over the map.
//!
//! The map lends a list only by its key. So each turn copies the key of the last entry into a
//! buffer, sweeps that entry and makes it the first. The round restores the order.
ghost use Rattle.std.specs.Prelude.{◌≡◌, ◌⊎◌, ◌<◌, ◌≤◌, ◌-◌, [], true, false, length, slice_get, string_bytes, string_capacity, IfSome, OnOk, OnErr};
ghost use Rattle.http_cache_store.specs.Store.{IsSwept, KeepsOthers};
ghost use Rattle.http_cache_memory_store.specs.Index.{all_entries, stored_under, AreTextsWithin, IsLastText, IsTurned, IsTurnedOrRemoved, IsFirstDropped, IsHeld};
ghost use Rattle.http_cache_memory_store.specs.Index.{AreOldestSwept, IsFirstText, KeepsFirst, OthersAreSwept};
ghost use Rattle.http_cache_memory_store.specs.Removal.{HasSameIds, TellsRemoved};
ghost use Rattle.http_cache_memory_store.specs.Size.{IsAtMost};
ghost use Rattle.http_cache_memory_store.specs.declared.index.size.Amount.{Amount as Held};

use crate::entry::{Entry, Removed};
use crate::index::list::Kept;
use crate::index::map::promote;
use crate::index::size::Amount;
use jiff::Timestamp;
use std::alloc::AllocError;

/// Empties a buffer, and makes room in it for a text of `length` bytes.
///
/// # Errors
///
/// `AllocError` if there is not enough memory.
pub(crate) fn make_room(buffer: &mut String, length: usize) -> Result<(), AllocError>
    ensures room { OnOk result (length ≤ string_capacity buffer.new) }
    ensures capacity { string_capacity buffer.old ≤ string_capacity buffer.new }
{
    buffer.clear();
    buffer.reserve(length)
}

fn copy_text(buffer: &mut String, text: &str)
    requires { length text.now ≤ string_capacity buffer.old }
    ensures bytes { string_bytes buffer.new ≡ text.now }
    ensures capacity { string_capacity buffer.old ≤ string_capacity buffer.new }
{
    buffer.clear();
    match buffer.push_str(text) {
        Ok(()) => {}
        Err(_) => unreachable!(),
    }
}

// Copies the text that was used longest ago.
fn copy_last<E: Entry + Drop>(kept: &Kept<E>, buffer: &mut String)
    requires some { 0 < length kept.now.entries }
    requires room { AreTextsWithin (string_capacity buffer.old) kept.now.entries }
    ensures last { IsLastText kept.now.entries (string_bytes buffer.new) }
    ensures capacity { string_capacity buffer.old ≤ string_capacity buffer.new }
{
    match kept.peek_lru() {
        Some((text, _list)) => copy_text(buffer, text.as_str()),
        None => unreachable!(),
    }
}

// Sweeps the list of the text that was used longest ago, and makes it the one that was used last.
fn turn<E: Entry + Drop, G: Removed>(
    kept: &mut Kept<E>,
    held: &mut Amount,
    text: &str,
    now: Timestamp,
    gone: &mut G,
)
    requires last { IsLastText kept.old.entries text.now }
    requires held { IsHeld E.cost held.old kept.old }
    ensures turned { IsTurned E.seen now.nanosecond kept.old.entries kept.new.entries }
    ensures held { IsHeld E.cost held.new kept.new }
    ensures less { IsAtMost held.new held.old }
    ensures told { TellsRemoved E.seen (all_entries kept.old.entries) (all_entries kept.new.entries)
        (G.told gone.old) (G.told gone.new) }
{
    // The length comes with the proof that all keys are different.
    let _length = kept.len();
    match kept.get_mut(text) {
        Some(list) => {
            let before = list.amount();
            list.sweep(now, gone);
            held.reduce(before, list.amount());
        }
        None => unreachable!(),
    }
}

fn is_first_spent<E: Entry + Drop>(kept: &Kept<E>) -> bool
    ensures { result ≡ true → IfSome (slice_get kept.now.entries 0) (λ e. e.1.entries.items ≡ []) }
{
    match kept.peek_mru() {
        Some((_text, list)) => list.entries.is_empty(),
        None => false,
    }
}

// Removes the text that was used last if its list is empty.
fn tidy_first<E: Entry + Drop>(kept: &mut Kept<E>)
    ensures entries { (kept.new.entries ≡ kept.old.entries)
        ⊎ IsFirstDropped E.seen kept.old.entries kept.new.entries }
    ensures held { (held : Held) → IsHeld E.cost held kept.old → IsHeld E.cost held kept.new }
    ensures ids { HasSameIds E.seen (all_entries kept.old.entries)
        (all_entries kept.new.entries) }
{
    if is_first_spent(kept) {
        drop(kept.pop_mru());
    }
}

// Sweeps the last entry, and removes it if its list is then empty.
fn sweep_last<E: Entry + Drop, G: Removed>(
    kept: &mut Kept<E>,
    held: &mut Amount,
    buffer: &mut String,
    now: Timestamp,
    gone: &mut G,
)
    requires some { 0 < length kept.old.entries }
    requires room { AreTextsWithin (string_capacity buffer.old) kept.old.entries }
    requires held { IsHeld E.cost held.old kept.old }
    ensures held { IsHeld E.cost held.new kept.new }
    ensures less { IsAtMost held.new held.old }
    ensures turned { IsTurnedOrRemoved E.seen now.nanosecond kept.old.entries kept.new.entries }
    ensures capacity { string_capacity buffer.old ≤ string_capacity buffer.new }
    ensures told { TellsRemoved E.seen (all_entries kept.old.entries) (all_entries kept.new.entries)
        (G.told gone.old) (G.told gone.new) }
{
    copy_last(kept, buffer);
    turn(kept, held, buffer.as_str(), now, gone);
    tidy_first(kept);
}

// Sweeps the `count` texts that were used longest ago. Allocates nothing, since the buffer has room
// for each text.
fn sweep_oldest<E: Entry + Drop, G: Removed>(
    kept: &mut Kept<E>,
    held: &mut Amount,
    buffer: &mut String,
    count: usize,
    now: Timestamp,
    gone: &mut G,
)
    requires count { count ≤ length kept.old.entries }
    requires room { AreTextsWithin (string_capacity buffer.old) kept.old.entries }
    requires held { IsHeld E.cost held.old kept.old }
    ensures held { IsHeld E.cost held.new kept.new }
    ensures less { IsAtMost held.new held.old }
    ensures swept { AreOldestSwept E.seen now.nanosecond (length kept.old.entries - count)
        kept.old.entries kept.new.entries }
    ensures room { AreTextsWithin (string_capacity buffer.new) kept.new.entries }
    ensures told { TellsRemoved E.seen (all_entries kept.old.entries) (all_entries kept.new.entries)
        (G.told gone.old) (G.told gone.new) }
{
    // The length comes with the proof that all keys are different.
    let _length = kept.len();
    for _swept in 0..count {
        sweep_last(kept, held, buffer, now, gone);
    }
}

/// Removes what can't be used again at `now` under every text. Allocates nothing.
pub(crate) fn sweep_all<E: Entry + Drop, G: Removed>(
    kept: &mut Kept<E>,
    held: &mut Amount,
    buffer: &mut String,
    now: Timestamp,
    gone: &mut G,
)
    requires room { AreTextsWithin (string_capacity buffer.old) kept.old.entries }
    requires held { IsHeld E.cost held.old kept.old }
    ensures held { IsHeld E.cost held.new kept.new }
    ensures less { IsAtMost held.new held.old }
    ensures swept { IsSwept now.nanosecond (stored_under E.seen kept.old.entries)
        (stored_under E.seen kept.new.entries) }
    ensures room { AreTextsWithin (string_capacity buffer.new) kept.new.entries }
    ensures told { TellsRemoved E.seen (all_entries kept.old.entries) (all_entries kept.new.entries)
        (G.told gone.old) (G.told gone.new) }
{
    let count = kept.len();
    sweep_oldest(kept, held, buffer, count, now, gone);
}

/// Removes what can't be used again at `now` under every text but the first one, which stays the
/// first. Allocates nothing.
pub(crate) fn sweep_others<E: Entry + Drop, G: Removed>(
    kept: &mut Kept<E>,
    held: &mut Amount,
    buffer: &mut String,
    text: &str,
    now: Timestamp,
    gone: &mut G,
)
    requires first { IsFirstText text.now kept.old.entries }
    requires room { AreTextsWithin (string_capacity buffer.old) kept.old.entries }
    requires held { IsHeld E.cost held.old kept.old }
    ensures held { IsHeld E.cost held.new kept.new }
    ensures less { IsAtMost held.new held.old }
    ensures first { KeepsFirst text.now kept.old.entries kept.new.entries }
    ensures others { OthersAreSwept now.nanosecond text.now (stored_under E.seen kept.old.entries)
        (stored_under E.seen kept.new.entries) }
    ensures room { AreTextsWithin (string_capacity buffer.new) kept.new.entries }
    ensures told { TellsRemoved E.seen (all_entries kept.old.entries) (all_entries kept.new.entries)
        (G.told gone.old) (G.told gone.new) }
{
    let count = kept.len();
    sweep_oldest(kept, held, buffer, count - 1, now, gone);
    promote(kept, text);
}

/// Counts one more put response, and returns whether there were enough since the last sweep to pay
/// for another one.
pub(crate) fn is_sweep_due(unswept: &mut usize, is_full: bool, texts: usize) -> bool
    ensures { is_full ≡ false → result ≡ false }
{
    *unswept = unswept.saturating_add(1);
    if is_full && *unswept > texts / 8 {
        *unswept = 0;
        return true;
    }
    false
}

/// Sweeps all texts but the first one if a sweep is due.
pub(crate) fn sweep_others_if<E: Entry + Drop, G: Removed>(
    is_due: bool,
    kept: &mut Kept<E>,
    held: &mut Amount,
    buffer: &mut String,
    text: &str,
    now: Timestamp,
    gone: &mut G,
)
    requires first { IsFirstText text.now kept.old.entries }
    requires room { AreTextsWithin (string_capacity buffer.old) kept.old.entries }
    requires held { IsHeld E.cost held.old kept.old }
    ensures held { IsHeld E.cost held.new kept.new }
    ensures first { KeepsFirst text.now kept.old.entries kept.new.entries }
    ensures others { KeepsOthers (stored_under E.seen kept.old.entries)
        (stored_under E.seen kept.new.entries) text.now }
    ensures room { AreTextsWithin (string_capacity buffer.new) kept.new.entries }
    ensures unswept { is_due ≡ false → (kept.new ≡ kept.old) × (held.new ≡ held.old) }
    ensures told { TellsRemoved E.seen (all_entries kept.old.entries) (all_entries kept.new.entries)
        (G.told gone.old) (G.told gone.new) }
{
    if is_due {
        sweep_others(kept, held, buffer, text, now, gone);
    }
}

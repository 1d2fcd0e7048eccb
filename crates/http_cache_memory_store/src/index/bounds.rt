//! Evicts what exceeds the limits. If the target that was used last exceeds a limit by itself, its
//! oldest responses are evicted first. Then the targets that were used longest ago are.
ghost use Rattle.std.specs.Prelude.{◌≡◌, ◌≤◌, ◌-◌, ◌⊎◌, length, take};
ghost use Rattle.http_cache_memory_store.specs.Size.{IsAtMost, IsAllowed};
ghost use Rattle.http_cache_memory_store.specs.Index.{all_entries, stored_under, AreFewer, KeepsTexts, IsFront, IsBounded, IsHeld, IsFirstText, IsFirstShortened, CanStay};
ghost use Rattle.http_cache_memory_store.specs.Removal.{TellsRemoved};

use crate::entry::{Entry, Removed};
use crate::index::limit::Limits;
use crate::index::list::Kept;
use crate::index::map::tidy;
use crate::index::size::Amount;

// Removes the text that was used longest ago.
fn evict_one<E: Entry + Drop, G: Removed>(kept: &mut Kept<E>, held: &mut Amount, gone: &mut G)
    requires { IsHeld E.cost held.old kept.old }
    ensures entries { kept.new.entries ≡ take (length kept.old.entries - 1) kept.old.entries }
    ensures held { IsHeld E.cost held.new kept.new }
    ensures less { IsAtMost held.new held.old }
    ensures told { TellsRemoved E.seen (all_entries kept.old.entries) (all_entries kept.new.entries)
        (G.told gone.old) (G.told gone.new) }
{
    match kept.pop_lru() {
        Some((text, list)) => {
            held.reduce(list.amount(), Amount::none());
            list.tell(gone);
            drop(list);
            drop(text);
        }
        None => {}
    }
}

// Removes the texts that were used longest ago until the rest is within the limits. The text that
// was used last stays.
fn evict<E: Entry + Drop, G: Removed>(
    kept: &mut Kept<E>,
    held: &mut Amount,
    limits: &Limits,
    gone: &mut G,
)
    requires { IsHeld E.cost held.old kept.old }
    ensures front { IsFront kept.old.entries kept.new.entries }
    ensures held { IsHeld E.cost held.new kept.new }
    ensures less { IsAtMost held.new held.old }
    ensures allowed { (length kept.new.entries ≤ 1) ⊎ IsAllowed limits.now held.new }
    ensures whole { IsAllowed limits.now held.old → kept.new.entries ≡ kept.old.entries }
    ensures told { TellsRemoved E.seen (all_entries kept.old.entries) (all_entries kept.new.entries)
        (G.told gone.old) (G.told gone.new) }
{
    while kept.len() > 1 && !limits.allow(*held) {
        evict_one(kept, held, gone);
    }
}

// Removes the oldest responses under a text until they are within the limits by themselves. The
// newest `stay` responses stay.
fn shorten<E: Entry + Drop, G: Removed>(
    kept: &mut Kept<E>,
    held: &mut Amount,
    limits: &Limits,
    text: &str,
    stay: usize,
    gone: &mut G,
)
    requires first { IsFirstText text.now kept.old.entries }
    requires held { IsHeld E.cost held.old kept.old }
    requires stay { CanStay E.cost limits.now stay text.now kept.old.entries }
    ensures shortened { IsFirstShortened E.cost limits.now text.now stay
        kept.old.entries kept.new.entries }
    ensures held { IsHeld E.cost held.new kept.new }
    ensures less { IsAtMost held.new held.old }
    ensures texts { KeepsTexts kept.old.entries kept.new.entries }
    ensures told { TellsRemoved E.seen (all_entries kept.old.entries) (all_entries kept.new.entries)
        (G.told gone.old) (G.told gone.new) }
{
    match kept.get_mut(text) {
        Some(list) => {
            let before = list.amount();
            list.shorten(stay, limits, gone);
            held.reduce(before, list.amount());
        }
        None => unreachable!(),
    }
}

/// Evicts what exceeds the limits. The newest `stay` responses of the text that was used last stay.
pub(crate) fn keep_limits<E: Entry + Drop, G: Removed>(
    kept: &mut Kept<E>,
    held: &mut Amount,
    limits: &Limits,
    text: &str,
    stay: usize,
    gone: &mut G,
)
    requires first { IsFirstText text.now kept.old.entries }
    requires held { IsHeld E.cost held.old kept.old }
    requires stay { CanStay E.cost limits.now stay text.now kept.old.entries }
    ensures kept { IsBounded E.seen text.now stay kept.old.entries kept.new.entries }
    ensures fewer { AreFewer (stored_under E.seen kept.old.entries)
        (stored_under E.seen kept.new.entries) }
    ensures texts { KeepsTexts kept.old.entries kept.new.entries }
    ensures held { IsHeld E.cost held.new kept.new }
    ensures allowed { IsAllowed limits.now held.new }
    ensures variants { length (stored_under E.seen kept.new.entries text.now)
        ≤ limits.now.variants }
    ensures whole { IsAllowed limits.now held.old
        → length (stored_under E.seen kept.old.entries text.now) ≤ limits.now.variants
        → stored_under E.seen kept.new.entries ≡ stored_under E.seen kept.old.entries }
    ensures told { TellsRemoved E.seen (all_entries kept.old.entries) (all_entries kept.new.entries)
        (G.told gone.old) (G.told gone.new) }
{
    shorten(kept, held, limits, text, stay, gone);
    evict(kept, held, limits, gone);
    tidy(kept, text);
}

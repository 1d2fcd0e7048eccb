//! How much an index holds: the number of responses and what they count.
ghost use Rattle.std.specs.Prelude.{◌≡◌, ◌≤◌, ◌*◌, ◌-◌, ◌^◌, length};
ghost use Rattle.std.specs.List.{sum_by};
ghost use Rattle.http_cache_memory_store.specs.Size.{replaced, IsAtMost, IsSmall, IsOfList};

use crate::entry::Entry;

/// A number of stored responses and of their bytes. Both fields have room for the limits plus one
/// list.
#[derive(Clone, Copy)]
pub(crate) struct Amount {
    pub(crate) responses: u128,
    pub(crate) bytes: u128,
}

impl Amount {
    pub(crate) fn none() -> Amount
        ensures { result ≡ record { responses = 0; bytes = 0 } }
    {
        Amount {
            responses: 0,
            bytes: 0,
        }
    }

    /// Subtracts the amount of a list, and adds the smaller amount that is left of it.
    pub(crate) fn reduce(&mut self, before: Amount, after: Amount)
        requires held { IsAtMost before self.old }
        requires less { IsAtMost after before }
        ensures { self.new ≡ replaced self.old before after }
    {
        self.responses -= before.responses - after.responses;
        self.bytes -= before.bytes - after.bytes;
    }

    /// Subtracts the amount of a list, and adds its new amount.
    pub(crate) fn change(&mut self, before: Amount, after: Amount)
        requires held { IsAtMost before self.old }
        requires small { IsSmall self.old }
        requires list { IsOfList after }
        ensures { self.new ≡ replaced self.old before after }
    {
        self.responses = self.responses - before.responses + after.responses;
        self.bytes = self.bytes - before.bytes + after.bytes;
    }
}

/// Returns what all these responses count.
pub(crate) fn total_cost<E: Entry>(entries: &[E]) -> u128
    ensures sum { result ≡ sum_by E.cost entries.now }
    ensures fits { result ≤ length entries.now * (2 ^ 64 - 1) }
{
    let mut cost = 0u128;
    for entry in entries {
        cost += u128::from(entry.cost());
    }
    cost
}

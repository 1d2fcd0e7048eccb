//! The limits of an index.
ghost use Rattle.std.specs.Prelude.{◌≡◌, ◌↔◌, IsTrue};
ghost use Rattle.http_cache_memory_store.specs.Size.{FitsAlone, FitTogether, IsAllowed};

use crate::entry::Entry;
use crate::index::size::{Amount, total_cost};

/// The most that a store stores.
#[derive(Clone, Copy, Debug, PartialEq, Eq)]
pub struct Limits {
    /// The number of stored responses.
    pub responses: usize,
    /// What all responses count: in memory the bytes that they take, on a disc those of their
    /// files.
    pub bytes: u64,
    /// The bytes of one body. A response with a longer body isn't stored.
    pub body: u64,
    /// The number of stored responses of one target.
    pub variants: usize,
}

impl Default for Limits {
    fn default() -> Limits {
        Limits {
            responses: 10_000,
            bytes: 64 << 20,
            body: 8 << 20,
            variants: 32,
        }
    }
}

impl Limits {
    /// Returns whether a response is within the limits if nothing else is stored.
    pub fn fit(&self, cost: u64, body: u64) -> bool
        ensures { IsTrue result ↔ FitsAlone self.now cost body }
    {
        self.responses > 0 && self.variants > 0 && body <= self.body && cost <= self.bytes
    }

    /// Returns whether the responses of one target are within the limits if nothing else is stored.
    pub(crate) fn fit_together<E: Entry>(&self, entries: &[E]) -> bool
        ensures { IsTrue result ↔ FitTogether E.cost self.now entries.now }
    {
        entries.len() <= self.variants
            && entries.len() <= self.responses
            && total_cost(entries) <= u128::from(self.bytes)
    }

    /// Returns whether the amount is within the limits.
    pub(crate) fn allow(&self, held: Amount) -> bool
        ensures { IsTrue result ↔ IsAllowed self.now held }
    {
        held.responses <= self.responses as u128 && held.bytes <= u128::from(self.bytes)
    }
}

//! What an index asks of the responses that it holds, and of what it tells of those that it
//! removes.
ghost use Rattle.std.specs.Prelude.{◌≡◌, ◌++◌, ◌∷◌, [], ℕ, List};
ghost use Rattle.http_cache_store.specs.declared.store.ResponseId.{ResponseId as Id};
ghost use Rattle.http_cache_store.specs.Store.{StoredSeen};
ghost use Rattle.http_cache_store.specs.Worth.{can_be_used_again};
ghost use Rattle.http_cache_memory_store.specs.Removal.{AreListed};

use crate::told::Told;
use http_cache_store::ResponseId;
use jiff::Timestamp;
use std::alloc::Global;

/// A stored response as an index holds it: its head, and its body or where the body is.
pub trait Entry {
    ghost use Rattle.http_cache_store.specs.Store.{with_exchange};
    ghost use Rattle.http_cache_policy.specs.Exchange.{Exchange};

    /// What a renewal replaces.
    type Head: Drop;

    // What is seen of the response.
    ghost seen: { Self → StoredSeen };

    // What it counts for the limit of bytes.
    ghost cost: { Self → ℕ };

    // What is seen of a new head.
    ghost exchange: { Self.Head → Exchange };

    /// Returns the id of the response.
    fn id(&self) -> ResponseId
        ensures { result.0 ≡ (seen self.now).id };

    /// Returns what the response counts for the limit of bytes.
    fn cost(&self) -> u64
        ensures { result ≡ cost self.now };

    /// Returns whether it can answer some request at `now` or later.
    fn can_be_used_again(&self, now: Timestamp) -> bool
        ensures { result ≡ can_be_used_again (seen self.now).exchange now.nanosecond };

    /// Replaces the head.
    fn renew(&mut self, head: Self::Head)
        ensures { seen self.new ≡ with_exchange (exchange head) (seen self.old) };
}

/// What an index reports of each response that it removes.
pub trait Removed {
    // The ids that were told of so far.
    ghost told: { Self → List Id };

    /// A response is removed, or is about to be in the same call.
    fn removed(&mut self, id: ResponseId)
        ensures { told self.new ≡ told self.old ++ id ∷ [] };
}

/// Lists nothing of what is removed.
#[derive(Drop)]
pub struct Unlisted {
    told: Told<ResponseId>,
}

impl Unlisted {
    /// Returns a value with nothing reported yet.
    pub fn new() -> Unlisted {
        Unlisted { told: Told::new() }
    }
}

impl Removed for Unlisted {
    ghost told = { λ unlisted. unlisted.told.items };

    fn removed(&mut self, id: ResponseId) {
        self.told = self.told.and(&id);
    }
}

/// The ids of removed responses. An id is missing if there was no memory to list it.
#[derive(Drop)]
pub struct Evicted {
    pub(crate) ids: Vec<ResponseId>,
    // Whether no id is missing.
    pub(crate) is_whole: bool,
    pub(crate) told: Told<ResponseId>,
    ghost listed: { AreListed is_whole ids.items told.items },
}

impl Evicted {
    /// Returns an empty list.
    pub(crate) fn new(alloc: Global) -> Evicted
        ensures { result.told.items ≡ [] }
    {
        Evicted {
            ids: Vec::new(alloc),
            is_whole: true,
            told: Told::new(),
        }
    }

    /// Empties the list.
    pub(crate) fn clear(&mut self)
        ensures { self.new.told.items ≡ [] }
    {
        self.ids.clear();
        self.is_whole = true;
        self.told = Told::new();
    }
}

impl Removed for Evicted {
    ghost told = { λ evicted. evicted.told.items };

    fn removed(&mut self, id: ResponseId) {
        let is_listed = self.ids.push(id).is_ok();
        self.is_whole &= is_listed;
        self.told = self.told.and(&id);
    }
}

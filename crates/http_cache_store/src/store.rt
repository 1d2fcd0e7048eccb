//! The trait of a store, stored responses and their ids, and the errors.
//!
//! No code here knows how responses are stored. Every clause is about ghost members: what is stored
//! for each target's text, what is seen of a body, and the next id. So a client is proved once for
//! all stores.
ghost use Rattle.std.specs.Prelude.{◌≡◌, false, None, ℕ, List, map, IfOk, OnOk, IsErrOf};
ghost use Rattle.http_cache_policy.specs.Exchange.{Exchange};
ghost use Rattle.http_cache_store.specs.declared.store.StoreError.TheVariants.{Memory};

use crate::target::Target;
use bytes::Bytes;
use http_cache_policy::policy::CachePolicy;
use jiff::Timestamp;
use std::alloc::{AllocError, AllocFailed, Global};
use thiserror::Error;

/// The id of a stored response. A store assigns each id once and in rising order: of two responses
/// the newer one has the greater id.
#[derive(Clone, Copy, Debug, PartialEq, Eq, PartialOrd, Ord, Hash)]
pub struct ResponseId(u64);

impl ResponseId {
    /// Returns the id with a number. Only a store makes ids.
    pub fn new(number: u64) -> ResponseId
        ensures { result.0 ≡ number }
    {
        ResponseId(number)
    }

    /// Returns the number of the id, which a store may write to a file.
    pub fn number(self) -> u64
        ensures { result ≡ self.0 }
    {
        self.0
    }
}

/// A stored response, as a look-up finds it.
#[derive(Debug, Drop)]
pub struct StoredResponse {
    /// The id that `put` returned.
    pub id: ResponseId,
    /// The request, the head of the response, and the times of both.
    pub policy: CachePolicy,
    /// The body, if the store has it in memory. Otherwise `Store::body` reads it.
    pub body: Option<Bytes>,
}

/// The reason why a call of a store failed.
#[derive(Clone, Copy, Debug, PartialEq, Eq, Error)]
pub enum StoreError {
    /// There is not enough memory. What is stored is then as it was.
    #[error("out of memory")]
    Memory,
    /// The store's storage failed, for instance its disc. What is stored for the target is then as
    /// it was, or some of it is gone.
    #[error("the store failed")]
    Failed,
}

impl From<AllocError> for StoreError {
    ghost from_gives = { λ _ e. e ≡ Memory };

    fn from(_e: AllocError) -> StoreError {
        StoreError::Memory
    }
}

impl<T: Drop> From<AllocFailed<T>> for StoreError {
    ghost from_gives = { λ _ e. e ≡ Memory };

    fn from(_e: AllocFailed<T>) -> StoreError {
        StoreError::Memory
    }
}

/// A store of responses (RFC 9111, section 2). It has a list of stored responses for each target,
/// newest first, and a next id, which is above every stored id.
///
/// Removing never fails, whatever becomes of the storage. Storing may fail, and a body may turn out
/// to be lost. A call for one target changes no other target, except that `put` and `renew` may
/// evict others because of a limit, and that each change removes what is lost.
///
/// A client makes at most one changing call for each request, as its last step. So a request
/// changes all or nothing if each call of the store does.
///
/// To store responses elsewhere than `http_cache_memory_store::MemoryStore` does, implement this
/// trait: define the ghost members over the fields, and prove each method and the law at the end.
pub trait Store {
    ghost use Rattle.http_cache_store.specs.Store.{StoredSeen, ShowsAll, IsInserted, renewed, without, has_id, IsTakenFor, LosesAtMost};
    ghost use Rattle.http_cache_store.specs.Store.{AreNewestOf, KeepsOthers, KeepsAllOthers, KeepsAll, LosesSome, RemovesThese, removed_count, IsSwept, AreIdsBelow};
    ghost use Rattle.http_cache_store.specs.Target.{text_of};

    // What is seen of a body. Two bodies of which the same is seen are taken for each other.
    ghost mark: { List ℕ → List ℕ };

    // What is stored for the text of a target, newest first.
    ghost stored: { Self → List ℕ → List StoredSeen };

    // What the next change leaves of it: all but the responses whose bodies are lost.
    ghost lasting: { Self → List ℕ → List StoredSeen };

    // The id that `put` returns next.
    ghost next_id: { Self → ℕ };

    // The last look-up was of the target that has this text.
    ghost is_read: { Self → List ℕ → Type 0 };

    // A call on this store may return `Failed`.
    ghost can_fail: { Self → Type 0 };

    /// Reads what is stored for a target, so that `found` shows it. Counts as a use of the target.
    ///
    /// # Errors
    ///
    /// `Memory` if there is not enough memory, and `Failed` if the storage can't be read.
    fn look_up(&mut self, alloc: Global, target: &Target) -> Result<(), StoreError>
        ensures kept { KeepsAll (stored self.old) (next_id self.old)
            (stored self.new) (next_id self.new) }
        ensures lasting { lasting self.new ≡ lasting self.old }
        ensures read { OnOk result (is_read self.new (text_of target.now)) }
        ensures can_fail { IsErrOf result StoreError.Failed → can_fail self.old };

    /// Returns what the last look-up read, newest first. For a target other than the one looked up,
    /// the list may be empty.
    fn found(&self, target: &Target) -> &[StoredResponse]
        ensures { is_read self.now (text_of target.now)
            → ShowsAll mark result.now (stored self.now (text_of target.now)) };

    /// Returns the body of the response with an id, or `None` if no such response is stored or its
    /// body is lost. The next change removes a response whose body is lost.
    ///
    /// # Errors
    ///
    /// `Memory` if there is not enough memory, and `Failed` if the body can't be read now, for
    /// instance because too many files are open.
    fn body(
        &mut self,
        alloc: Global,
        target: &Target,
        id: ResponseId,
    ) -> Result<Option<Bytes>, StoreError>
        ensures body { IfOk result (IsTakenFor mark id.0 (stored self.old (text_of target.now))) }
        ensures kept { KeepsAll (stored self.old) (next_id self.old)
            (stored self.new) (next_id self.new) }
        ensures lost { IfOk result (λ body. body ≡ None
            → has_id id.0 (lasting self.new (text_of target.now)) ≡ false) }
        ensures lasting { LosesAtMost (text_of target.now) id
            (lasting self.old) (lasting self.new) }
        ensures can_fail { IsErrOf result StoreError.Failed → can_fail self.old };

    /// Stores a response as the newest of a target, and returns its id. In the same step removes
    /// the responses that it supersedes (RFC 9111, section 4.3.3).
    ///
    /// Returns `None`, and doesn't store it, if the response alone exceeds a limit of the store or
    /// no id is left. The superseded responses are removed even then. To keep its limits the store
    /// evicts what can't be used again, the target's oldest responses, and whole other targets.
    ///
    /// # Errors
    ///
    /// `Memory` if there is not enough memory. `Failed` if the response can't be written; the
    /// superseded responses are then removed.
    fn put(
        &mut self,
        target: &Target,
        superseded: &[ResponseId],
        policy: CachePolicy,
        body: Bytes,
    ) -> Result<Option<ResponseId>, StoreError>
        ensures put { IfOk result (IsInserted
            (without superseded.now (lasting self.old (text_of target.now)))
            (stored self.new (text_of target.now)) (next_id self.old) (next_id self.new)
            policy (mark body)) }
        ensures others { OnOk result
            (KeepsOthers (lasting self.old) (stored self.new) (text_of target.now)) }
        ensures failed { IsErrOf result StoreError.Failed
            → LosesSome (text_of target.now) (lasting self.old) (stored self.new) }
        ensures can_fail { IsErrOf result StoreError.Failed → can_fail self.old }
        ensures kept { IsErrOf result StoreError.Memory
            → KeepsAll (stored self.old) (next_id self.old) (stored self.new) (next_id self.new) };

    /// Replaces the policy of the response with an id, for instance after a 304 (RFC 9111, section
    /// 4.3.4), and returns whether there is one. In the same step removes superseded responses.
    ///
    /// The response keeps its id and its body. Eviction is as in `put`.
    ///
    /// # Errors
    ///
    /// `Memory` if there is not enough memory. `Failed` if the change can't be written; the
    /// response and the superseded ones are then removed.
    fn renew(
        &mut self,
        target: &Target,
        superseded: &[ResponseId],
        id: ResponseId,
        policy: CachePolicy,
    ) -> Result<bool, StoreError>
        ensures renewed { OnOk result (AreNewestOf (stored self.new (text_of target.now))
            (renewed id.0 policy
            (without superseded.now (lasting self.old (text_of target.now))))) }
        ensures was_stored { IfOk result (λ was_stored. was_stored
            ≡ has_id id.0 (without superseded.now (lasting self.old (text_of target.now)))) }
        ensures next { next_id self.new ≡ next_id self.old }
        ensures others { OnOk result
            (KeepsOthers (lasting self.old) (stored self.new) (text_of target.now)) }
        ensures failed { IsErrOf result StoreError.Failed
            → LosesSome (text_of target.now) (lasting self.old) (stored self.new) }
        ensures can_fail { IsErrOf result StoreError.Failed → can_fail self.old }
        ensures kept { IsErrOf result StoreError.Memory
            → KeepsAll (stored self.old) (next_id self.old) (stored self.new) (next_id self.new) };

    /// Removes responses of a target by their ids. Ignores an id that isn't stored.
    fn remove(&mut self, target: &Target, ids: &[ResponseId])
        ensures removed { stored self.new (text_of target.now)
            ≡ without ids.now (lasting self.old (text_of target.now)) }
        ensures next { next_id self.new ≡ next_id self.old }
        ensures others { KeepsAllOthers (lasting self.old) (stored self.new) (text_of target.now) }
        ensures lasting { KeepsAllOthers (lasting self.old) (lasting self.new) (text_of target.now) };

    /// Removes all that is stored for some targets in one step, for instance if an unsafe method
    /// invalidates them (RFC 9111, section 4.4). Returns the number of removed responses.
    fn remove_targets(&mut self, targets: &[Target]) -> usize
        ensures count { result ≡ removed_count (lasting self.old) (map text_of targets.now) }
        ensures removed { RemovesThese (map text_of targets.now)
            (lasting self.old) (stored self.new) }
        ensures next { next_id self.new ≡ next_id self.old };

    /// Removes exactly the responses that can't be used again at `now` or later, and returns their
    /// number. `http_cache_store::worth::can_be_used_again` is the rule.
    fn sweep(&mut self, now: Timestamp) -> usize
        ensures swept { IsSwept now.nanosecond (lasting self.old) (stored self.new) }
        ensures next { next_id self.new ≡ next_id self.old };

    // Each stored id is below the next one, and below those of the target's newer responses, so no
    // two are equal. As `put` returns the next id and raises it, no id is assigned twice.
    ghost ids_below: { (s : Self) (text : List ℕ) → AreIdsBelow (next_id s) (stored s text) };
}

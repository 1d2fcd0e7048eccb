//! The store in memory. Its map, lists and limits are an `Index` of stored responses; here are the
//! ids, the limit of one body, and what was evicted.
ghost use Rattle.std.specs.Prelude.{◌≡◌, ◌≤◌, ◌<◌, ◌==◌, ◌↔◌, ℕ, List, [], false, length};
ghost use Rattle.std.specs.Prelude.{IsTrue, IfOk, IsErrOf};
ghost use Rattle.std.specs.List.{sum_by};
ghost use Rattle.http_cache_memory_store.specs.Size.{FitsAlone, response_cost};
ghost use Rattle.http_cache_memory_store.specs.Stored.{seen_of, cost_of};
ghost use Rattle.http_cache_memory_store.specs.Stored.{AreFitting, AreAllFitting, AreBelow, AreBelow-prop};
ghost use Rattle.http_cache_memory_store.specs.Index.{all_entries, stored_under};
ghost use Rattle.http_cache_memory_store.specs.Removal.{AreOnceBelow};

use crate::entry::{Evicted, Unlisted};
use crate::index::{Index, Limits};
use crate::response::response_cost;
use bytes::Bytes;
use http_cache_policy::policy::CachePolicy;
use http_cache_store::{ResponseId, Store, StoreError, StoredResponse, Target};
use jiff::Timestamp;
use std::alloc::{AllocError, Global};
use std::hash::RandomState;

// Returns the body, which a store in memory always has.
fn body_of(stored: &StoredResponse) -> Result<Bytes, AllocError>
    ensures { IfOk result (λ body. body ≡ (seen_of stored.now).mark) }
{
    match &stored.body {
        Some(body) => body.clone(),
        None => Ok(Bytes::new()),
    }
}

/// Stored responses in memory, which are lost when the process ends.
///
/// After every call what is stored is within the limits. A target that was used last and exceeds a
/// limit by itself loses its oldest responses. Then whole targets are evicted, the one that was
/// used longest ago first. A new response that alone exceeds a limit isn't stored.
///
/// Only `put` and `body` return errors, if there is not enough memory.
///
///     let limits = Limits {
///         body: 3,
///         ..Limits::default()
///     };
///     let mut store = MemoryStore::new(alloc, RandomState::new(&rt)?, limits)?;
#[derive(Drop)]
pub struct MemoryStore {
    pub(crate) index: Index<StoredResponse>,
    pub(crate) next_id: u64,
    // What the last `put` or `renew` removed.
    pub(crate) evicted: Evicted,
    ghost ids_below: { AreBelow next_id index.kept.entries } by { AreBelow-prop next_id index.kept.entries },
    ghost fitting: { AreAllFitting index.limits (stored_under seen_of index.kept.entries) },
    ghost once: { AreOnceBelow seen_of next_id (all_entries index.kept.entries) },
}

impl MemoryStore {
    ghost use Rattle.http_cache_memory_store.specs.Contents.{contents, limits_of, evicted_in, lists_all};

    /// Returns an empty store. The secret keys of `hasher` keep look-ups fast for hostile targets.
    ///
    /// # Errors
    ///
    /// `AllocError` if there is not enough memory.
    pub fn new(
        alloc: Global,
        hasher: RandomState,
        limits: Limits,
    ) -> Result<MemoryStore, AllocError>
        ensures empty { IfOk result (λ store. (text : List ℕ)
            → ⟦<MemoryStore as Store>⟧.stored store text ≡ []) }
        ensures next { IfOk result (λ store. ⟦<MemoryStore as Store>⟧.next_id store ≡ 0) }
        ensures limits { IfOk result (λ store. limits_of store ≡ limits) }
    {
        Ok(MemoryStore {
            index: Index::new(alloc, hasher, limits)?,
            next_id: 0,
            evicted: Evicted::new(alloc),
        })
    }

    /// Returns the limits of the store. What is stored is within them.
    pub fn limits(&self) -> Limits
        ensures limits { result ≡ limits_of self.now }
        ensures responses { length (contents self.now) ≤ result.responses }
        ensures bytes { sum_by cost_of (contents self.now) ≤ result.bytes }
        ensures fitting { (text : List ℕ)
            → AreFitting result (⟦<MemoryStore as Store>⟧.stored self.now text) }
    {
        self.index.limits()
    }

    /// Returns the number of stored responses.
    pub fn len(&self) -> usize
        ensures { result ≡ length (contents self.now) }
    {
        self.index.len()
    }

    /// Returns whether no response is stored.
    pub fn is_empty(&self) -> bool
        ensures value { result ≡ (length (contents self.now) == 0) }
        ensures none { IsTrue result → (text : List ℕ)
            → ⟦<MemoryStore as Store>⟧.stored self.now text ≡ [] }
    {
        self.index.is_empty()
    }

    /// Returns the number of bytes that all responses count.
    pub fn size(&self) -> u64
        ensures { result ≡ sum_by cost_of (contents self.now) }
    {
        self.index.size()
    }

    /// Returns the ids of the responses that the last `put` or `renew` removed: those that it
    /// superseded, and those that it evicted because of a limit. An id is missing if there was no
    /// memory to list it.
    pub fn evicted(&self) -> &[ResponseId]
        ensures { result.now ≡ evicted_in self.now }
    {
        self.evicted.ids.as_slice()
    }

    /// Returns whether `evicted` lists all that the last `put` or `renew` removed, so that no id is
    /// missing.
    pub fn lists_all_evicted(&self) -> bool
        ensures { result ≡ lists_all self.now }
    {
        self.evicted.is_whole
    }

    // Returns whether a response may be stored now.
    fn takes(&self, policy: &CachePolicy, body: &Bytes) -> bool
        ensures takes { IsTrue result ↔ (self.now.next_id < u64.MAX)
            × FitsAlone (limits_of self.now) (response_cost policy.now body.now) (length body.now) }
        ensures last { result ≡ false
            → FitsAlone (limits_of self.now) (response_cost policy.now body.now) (length body.now)
            → self.now.next_id ≡ u64.MAX }
    {
        let limits = self.index.limits();
        self.next_id < u64::MAX && limits.fit(response_cost(policy, body), body.len() as u64)
    }
}

impl Store for MemoryStore {
    ghost use Rattle.std.specs.Prelude.{◌≡◌, ◌+◌, None, true, length};
    ghost use Rattle.std.specs.Prelude.{IfOk, OnOk, OnErr, OnSome, IsOk, IsErrOf};
    ghost use Rattle.http_cache_store.specs.Store.{AreNewestOf, IsSwept, IsInserted, KeepsAll, KeepsOthers};
    ghost use Rattle.http_cache_store.specs.Store.{has_id, renewed, without};
    ghost use Rattle.http_cache_store.specs.Target.{text_of};
    ghost use Rattle.http_cache_memory_store.specs.Index.{stored_under, is_last_used, HasUnder};
    ghost use Rattle.http_cache_memory_store.specs.Size.{FitsAlone, HasRoom, response_cost};
    ghost use Rattle.http_cache_memory_store.specs.Stored.{seen_of, cost_of, put_first};
    ghost use Rattle.http_cache_memory_store.specs.Contents.{contents, limits_of, evicted_in, lists_all};
    ghost use Rattle.http_cache_memory_store.specs.Removal.{AreGone, AreAllGone};

    ghost mark = { λ body. body };

    ghost stored = { λ s. stored_under seen_of s.index.kept.entries };

    // No body is ever lost.
    ghost lasting = { λ s. stored_under seen_of s.index.kept.entries };

    ghost next_id = { λ s. s.next_id };

    // The target was used last, or nothing is stored for it.
    ghost is_read = { λ s. is_last_used seen_of s.index.kept.entries };

    ghost can_fail = { λ _. ⊥ };

    ghost ids_below = { λ s. s.ids_below };

    fn look_up(&mut self, _alloc: Global, target: &Target) -> Result<(), StoreError> {
        self.index.promote(target.as_str());
        Ok(())
    }

    fn found(&self, target: &Target) -> &[StoredResponse] {
        self.index.last_used(target.as_str())
    }

    fn body(
        &mut self,
        _alloc: Global,
        target: &Target,
        id: ResponseId,
    ) -> Result<Option<Bytes>, StoreError> {
        match self.index.get(target.as_str(), id) {
            Some(stored) => Ok(Some(body_of(stored)?)),
            None => Ok(None),
        }
    }

    // Beyond the trait's clauses, these say when a response isn't stored, that only memory can be
    // missing, that nothing is evicted while there is room, and what `evicted` lists then.
    fn put(
        &mut self,
        target: &Target,
        superseded: &[ResponseId],
        policy: CachePolicy,
        body: Bytes,
    ) -> Result<Option<ResponseId>, StoreError>
        ensures put { IfOk result (IsInserted
            (without superseded.now
            (⟦<MemoryStore as Store>⟧.stored self.old (text_of target.now)))
            (⟦<MemoryStore as Store>⟧.stored self.new (text_of target.now))
            (⟦<MemoryStore as Store>⟧.next_id self.old) (⟦<MemoryStore as Store>⟧.next_id self.new)
            policy body) }
        ensures others { OnOk result (KeepsOthers (⟦<MemoryStore as Store>⟧.stored self.old)
            (⟦<MemoryStore as Store>⟧.stored self.new) (text_of target.now)) }
        ensures failed { ¬ (IsErrOf result StoreError.Failed) }
        ensures kept { OnErr result (KeepsAll
            (⟦<MemoryStore as Store>⟧.stored self.old) (⟦<MemoryStore as Store>⟧.next_id self.old)
            (⟦<MemoryStore as Store>⟧.stored self.new) (⟦<MemoryStore as Store>⟧.next_id self.new)) }
        ensures refused { IfOk result (λ id. id ≡ None
            → FitsAlone (limits_of self.old) (response_cost policy body) (length body)
            → ⟦<MemoryStore as Store>⟧.next_id self.old ≡ u64.MAX) }
        ensures room { IfOk result (λ id. OnSome id (HasRoom cost_of (limits_of self.old)
            (contents self.old) (length (⟦<MemoryStore as Store>⟧.stored self.old
            (text_of target.now))) (response_cost policy body)
            → HasUnder (text_of target.now)
            (put_first (⟦<MemoryStore as Store>⟧.next_id self.old) policy body superseded.now
            (⟦<MemoryStore as Store>⟧.stored self.old (text_of target.now)))
            (⟦<MemoryStore as Store>⟧.stored self.old)
            (⟦<MemoryStore as Store>⟧.stored self.new))) }
        ensures evicted { AreGone seen_of (evicted_in self.new)
            (contents self.old) (contents self.new) }
        ensures all_evicted { lists_all self.new ≡ true → AreAllGone seen_of (evicted_in self.new)
            (contents self.old) (contents self.new) }
    {
        self.evicted.clear();
        if !self.takes(&policy, &body) {
            self.index
                .remove_ids(target.as_str(), superseded, &mut self.evicted);
            return Ok(None);
        }
        let id = ResponseId::new(self.next_id);
        let now = policy.stored_response_time();
        let stored = StoredResponse {
            id,
            policy,
            body: Some(body),
        };
        let text = target.as_str();
        self.index
            .put(text, superseded, stored, now, &mut self.evicted)?;
        self.next_id += 1;
        Ok(Some(id))
    }

    fn renew(
        &mut self,
        target: &Target,
        superseded: &[ResponseId],
        id: ResponseId,
        policy: CachePolicy,
    ) -> Result<bool, StoreError>
        ensures renewed { OnOk result (AreNewestOf
            (⟦<MemoryStore as Store>⟧.stored self.new (text_of target.now))
            (renewed id.0 policy (without superseded.now
            (⟦<MemoryStore as Store>⟧.stored self.old (text_of target.now))))) }
        ensures was_stored { IfOk result (λ was_stored. was_stored
            ≡ has_id id.0 (without superseded.now
            (⟦<MemoryStore as Store>⟧.stored self.old (text_of target.now)))) }
        ensures next { ⟦<MemoryStore as Store>⟧.next_id self.new
            ≡ ⟦<MemoryStore as Store>⟧.next_id self.old }
        ensures others { OnOk result (KeepsOthers (⟦<MemoryStore as Store>⟧.stored self.old)
            (⟦<MemoryStore as Store>⟧.stored self.new) (text_of target.now)) }
        ensures succeeds { IsOk result }
        ensures evicted { AreGone seen_of (evicted_in self.new)
            (contents self.old) (contents self.new) }
        ensures all_evicted { lists_all self.new ≡ true → AreAllGone seen_of (evicted_in self.new)
            (contents self.old) (contents self.new) }
    {
        let text = target.as_str();
        self.evicted.clear();
        self.index.remove_ids(text, superseded, &mut self.evicted);
        Ok(self.index.renew(text, id, policy, &mut self.evicted))
    }

    fn remove(&mut self, target: &Target, ids: &[ResponseId]) {
        self.index
            .remove_ids(target.as_str(), ids, &mut Unlisted::new());
    }

    fn remove_targets(&mut self, targets: &[Target]) -> usize {
        self.index.remove_targets(targets, &mut Unlisted::new())
    }

    // Beyond the trait's clauses, the result counts the removed responses.
    fn sweep(&mut self, now: Timestamp) -> usize
        ensures removed { length (contents self.old) ≡ length (contents self.new) + result }
        ensures swept { IsSwept now.nanosecond
            (⟦<MemoryStore as Store>⟧.stored self.old) (⟦<MemoryStore as Store>⟧.stored self.new) }
        ensures next { ⟦<MemoryStore as Store>⟧.next_id self.new
            ≡ ⟦<MemoryStore as Store>⟧.next_id self.old }
    {
        self.index.sweep(now, &mut Unlisted::new())
    }
}

//! The caching client: its store, its name in Cache-Status and its options.
ghost use Rattle.std.specs.Prelude.{◌≡◌, ◌≢◌, ◌⊎◌, ℕ, List, None, false, true, map, string_bytes, IfOk, IfSome};
ghost use Rattle.std.specs.Prelude.{OnErr, OnOk, IsErrOf};
ghost use Rattle.http_cache_store.specs.Store.{KeepsAll, KeepsMost, KeepsAllOthers, LosesSome};
ghost use Rattle.http_cache_store.specs.Store.{RemovesThese, removed_count, IsSwept};
ghost use Rattle.http_cache_store.specs.Target.{text_of};
ghost use Rattle.http_cache_decisions.specs.Plan.{Stores, IsChangeOf};
ghost use Rattle.http_cache_client.specs.Contact.{IsBodyFor, IsLost, MayFail};
ghost use Rattle.http_cache_client.specs.Keep.{LosesOne};
ghost use Rattle.http_cache_client.specs.Make.{IsMade, HasFailed};

use bytes::Bytes;
use http_cache_decisions::plan::{Change, Settled};
use http_cache_decisions::reply::Reply;
use http_cache_policy::policy::CacheOptions;
use http_cache_store::{Store, StoreError, Target};
use jiff::Timestamp;
use std::alloc::{AllocError, Global};

/// A caching client over a store of stored responses (RFC 9111).
///
/// It looks up only GET and HEAD without a body, and stores only their responses (RFC 9111,
/// sections 2 to 4). It forwards every other request as it is. A response to an unsafe request can
/// remove what is stored (RFC 9111, section 4.4). It stores no partial content (206) and collapses
/// no requests.
// It has no Model, since a function from texts to stored responses has no code.
#[derive(Drop)]
pub struct Client<S: Drop> {
    pub(crate) name: String,
    pub(crate) options: CacheOptions,
    pub(crate) store: S,
}

impl<S: Store + Drop> Client<S> {
    /// Returns a client over a store. `options.shared` says whether it serves several users.
    pub fn new(store: S, options: CacheOptions, name: String) -> Client<S>
        ensures { result.store ≡ store }
    {
        Client {
            name,
            options,
            store,
        }
    }

    /// Returns the client's name in Cache-Status (RFC 9211, section 2).
    pub fn name(&self) -> &str
        ensures { result.now ≡ string_bytes self.now.name }
    {
        self.name.as_str()
    }

    /// Returns the store.
    pub fn store(&self) -> &S
        ensures { result.now ≡ self.now.store }
    {
        &self.store
    }

    /// Returns the store, and drops the client.
    pub fn into_store(self) -> S
        ensures { result ≡ self.store }
    {
        let Client { store, .. } = self;
        store
    }

    /// Removes the stored responses that can't be used again at `now`, and returns their number.
    ///
    /// A response can't be used again if it varies by `*` (RFC 9111, section 4.1), or if it is
    /// stale and can neither be validated nor served stale (RFC 9111, section 4.2.4).
    pub fn sweep(&mut self, now: Timestamp) -> usize
        ensures swept { IsSwept now.nanosecond (S.lasting self.old.store) (S.stored self.new.store) }
        ensures given_once { S.next_id self.new.store ≡ S.next_id self.old.store }
    {
        self.store.sweep(now)
    }

    /// Removes all stored responses of some targets in one step, as a purge does, and returns their
    /// number.
    pub fn remove(&mut self, targets: &[Target]) -> usize
        ensures removed { RemovesThese (map text_of targets.now)
            (S.lasting self.old.store) (S.stored self.new.store) }
        ensures count { result ≡ removed_count (S.lasting self.old.store) (map text_of targets.now) }
        ensures given_once { S.next_id self.new.store ≡ S.next_id self.old.store }
    {
        self.store.remove_targets(targets)
    }

    // Reads what is stored for a target. Returns false if the store failed.
    pub(crate) fn read(&mut self, alloc: Global, target: &Target) -> Result<bool, AllocError>
        ensures options { self.new.options ≡ self.old.options }
        ensures kept { KeepsAll (S.stored self.old.store) (S.next_id self.old.store)
            (S.stored self.new.store) (S.next_id self.new.store) }
        ensures lasting { S.lasting self.new.store ≡ S.lasting self.old.store }
        ensures read { IfOk result (λ is_read. is_read ≡ true
            → S.is_read self.new.store (text_of target.now)) }
        ensures failed { IfOk result (λ is_read. is_read ≡ false → S.can_fail self.old.store) }
    {
        match self.store.look_up(alloc, target) {
            Ok(()) => Ok(true),
            Err(StoreError::Memory) => Err(AllocError),
            Err(StoreError::Failed) => Ok(false),
        }
    }

    // Returns the body to send with a stored response, or None if the store has lost it.
    pub(crate) fn body_of(
        &mut self,
        alloc: Global,
        target: &Target,
        reply: &mut Reply,
    ) -> Result<Option<Bytes>, AllocError>
        ensures options { self.new.options ≡ self.old.options }
        ensures kept { KeepsAll (S.stored self.old.store) (S.next_id self.old.store)
            (S.stored self.new.store) (S.next_id self.new.store) }
        ensures lasting { KeepsAllOthers (S.lasting self.old.store) (S.lasting self.new.store)
            (text_of target.now) }
        ensures loses { LosesOne (text_of target.now)
            (S.lasting self.old.store) (S.lasting self.new.store) }
        ensures head { reply.new.head ≡ reply.old.head }
        ensures body { IfOk result (λ body. IfSome body
            (IsBodyFor S.mark (S.stored self.old.store (text_of target.now)) reply.old)) }
        ensures lost { IfOk result (λ body. body ≡ None → IsLost (MayFail S.can_fail)
            (S.lasting self.new.store (text_of target.now)) reply.old.id.0) }
    {
        if !reply.needs_body {
            return Ok(Some(Bytes::new()));
        }
        if let Some(body) = reply.body.take() {
            return Ok(Some(body));
        }
        match self.store.body(alloc, target, reply.id) {
            Ok(body) => Ok(body),
            Err(StoreError::Memory) => Err(AllocError),
            Err(StoreError::Failed) => Ok(None),
        }
    }

    // Makes a change in one call of the store.
    fn make(&mut self, change: Change) -> Result<Settled, StoreError>
        ensures options { self.new.options ≡ self.old.options }
        ensures made { OnOk result (IsMade S.mark (S.stored self.old.store)
            (S.lasting self.old.store) (S.next_id self.old.store)
            (S.stored self.new.store) (S.next_id self.new.store) change) }
        ensures lost { IsErrOf result StoreError.Failed
            → HasFailed (S.lasting self.old.store) (S.stored self.new.store) change }
        ensures kept { IsErrOf result StoreError.Memory
            → KeepsAll (S.stored self.old.store) (S.next_id self.old.store)
            (S.stored self.new.store) (S.next_id self.new.store) }
        ensures failed { IsErrOf result StoreError.Failed → (own : List ℕ) → IsChangeOf own change
            → LosesSome own (S.lasting self.old.store) (S.stored self.new.store) }
        ensures can_fail { IsErrOf result StoreError.Failed → S.can_fail self.old.store }
        ensures settled { IfOk result (λ settled. settled ≢ Settled.Failed) }
        ensures stored { Stores change ⊎ (S.next_id self.new.store ≡ S.next_id self.old.store) }
        ensures others { (own : List ℕ) → IsChangeOf own change
            → KeepsMost (S.stored self.old.store) (S.lasting self.old.store)
            (S.stored self.new.store) own }
        ensures unchanged { change ≡ Change.Nothing
            → KeepsAll (S.stored self.old.store) (S.next_id self.old.store)
            (S.stored self.new.store) (S.next_id self.new.store) }
    {
        match change {
            Change::Nothing => Ok(Settled::NotStored),
            Change::Put {
                target,
                superseded,
                policy,
                body,
            } => {
                let id = self
                    .store
                    .put(&target, superseded.as_slice(), policy, body)?;
                Ok(if id.is_some() {
                    Settled::Stored
                } else {
                    Settled::NotStored
                })
            }
            Change::Renew {
                target,
                superseded,
                id,
                policy,
            } => {
                let is_there = self
                    .store
                    .renew(&target, superseded.as_slice(), id, policy)?;
                Ok(if is_there {
                    Settled::Stored
                } else {
                    Settled::NotStored
                })
            }
            Change::Remove { target, ids } => {
                self.store.remove(&target, ids.as_slice());
                Ok(Settled::NotStored)
            }
            Change::RemoveTargets(targets) => {
                self.store.remove_targets(targets.as_slice());
                Ok(Settled::NotStored)
            }
        }
    }

    // Makes a change as the last step of a call. A store that failed stores nothing new.
    pub(crate) fn commit(&mut self, change: Change) -> Result<Settled, AllocError>
        ensures options { self.new.options ≡ self.old.options }
        ensures made { IfOk result (λ settled. settled ≢ Settled.Failed
            → IsMade S.mark (S.stored self.old.store) (S.lasting self.old.store)
            (S.next_id self.old.store) (S.stored self.new.store) (S.next_id self.new.store)
            change) }
        ensures lost { IfOk result (λ settled. settled ≡ Settled.Failed
            → HasFailed (S.lasting self.old.store) (S.stored self.new.store) change) }
        ensures can_fail { IfOk result (λ settled. settled ≡ Settled.Failed
            → S.can_fail self.old.store) }
        ensures kept { OnErr result (KeepsAll (S.stored self.old.store) (S.next_id self.old.store)
            (S.stored self.new.store) (S.next_id self.new.store)) }
        ensures failed { IfOk result (λ settled. settled ≡ Settled.Failed
            → (own : List ℕ) → IsChangeOf own change
            → LosesSome own (S.lasting self.old.store) (S.stored self.new.store)) }
        ensures stored { Stores change ⊎ (S.next_id self.new.store ≡ S.next_id self.old.store) }
        ensures others { (own : List ℕ) → IsChangeOf own change
            → KeepsMost (S.stored self.old.store) (S.lasting self.old.store)
            (S.stored self.new.store) own }
        ensures unchanged { change ≡ Change.Nothing
            → KeepsAll (S.stored self.old.store) (S.next_id self.old.store)
            (S.stored self.new.store) (S.next_id self.new.store) }
    {
        match self.make(change) {
            Ok(settled) => Ok(settled),
            Err(StoreError::Memory) => Err(AllocError),
            Err(StoreError::Failed) => Ok(Settled::Failed),
        }
    }
}

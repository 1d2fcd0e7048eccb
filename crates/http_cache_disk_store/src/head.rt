//! A stored response as it is in memory: its head in its compact form, and where its body is.
ghost use Rattle.std.specs.Prelude.{◌≡◌, ◌+◌, IfOk};
ghost use Rattle.http_cache_rules.specs.Exchange.{Exchange, exchange_in};
ghost use Rattle.http_cache_policy.specs.Kept.{kept_exchange};
ghost use Rattle.http_cache_json.specs.ReadBack.{IsReadBack};
ghost use Rattle.http_cache_compact.specs.Compact.{IsCompactOf};
ghost use Rattle.http_cache_disk_store.specs.Packed.{IsPackedOf};
ghost use Rattle.http_cache_disk_store.specs.Cost.{capped};

use crate::mark::Mark;
use http_cache_compact::{Kept, compact_of, parts_from_compact};
use http_cache_fields::CacheError;
use http_cache_memory_store::entry::Entry;
use http_cache_policy::policy::{CachePolicy, StoredParts};
use http_cache_store::ResponseId;
use http_cache_store::worth::usable_until;
use http_uri::Uri;
use jiff::Timestamp;
use std::alloc::{AllocError, Global};
use std::snapshot::Snapshot;

// What a file takes besides its bytes, at most: the rest of its last block, and its entry in the
// directory.
const FILE: u64 = 4096;

/// Where a body is, and what is seen of it.
#[derive(Clone, Copy)]
pub(crate) struct Place {
    /// The length of what is before the body in its file.
    pub(crate) at: u64,
    /// The length and the sum of the body.
    pub(crate) mark: Mark,
}

impl Place {
    /// Returns the length of the file of the body.
    pub(crate) fn file_length(&self) -> u64
        ensures { result ≡ capped (self.now.at + self.now.mark.length) }
    {
        self.at.saturating_add(self.mark.length)
    }
}

/// A head: a policy in its compact form, and what is read of it often.
#[derive(Drop)]
pub(crate) struct Packed {
    /// The compact form.
    pub(crate) bytes: Vec<u8>,
    // The target, since the compact form has only what is printed of it.
    target: Uri,
    /// The time from which on the response can't be used again.
    pub(crate) until: Option<Timestamp>,
    /// The length of the file that has only the head, or 0 if there is none.
    pub(crate) file: u64,
    // The policy as clauses see it, which takes no memory.
    exchange: Snapshot<CachePolicy>,
    ghost is_packed: { ∥ IsPackedOf exchange.value bytes.items target until ∥₁ },
}

fn bytes_of(alloc: Global, policy: &CachePolicy) -> Result<Vec<u8>, AllocError>
    ensures read { IfOk result (λ bytes. (e : Exchange)
        → IsCompactOf bytes.items e → IsReadBack policy.now e) }
    ensures settled { kept_exchange policy.now ≡ policy.now }
{
    let kept = Kept {
        target: policy.stored_target(),
        method: policy.stored_method(),
        status: policy.stored_status(),
        request_headers: policy.stored_request_headers(),
        response_headers: policy.stored_headers(),
        options: policy.stored_options(),
        response_time: policy.stored_response_time(),
    };
    let mut bytes = compact_of(alloc, &kept)?;
    bytes.shrink_to_fit();
    Ok(bytes)
}

fn copy_of(target: &Uri) -> Result<Uri, AllocError>
    ensures { IfOk result (λ copy. copy ≡ target.now) }
{
    target.clone()
}

fn with_target(parts: StoredParts, target: Uri) -> StoredParts
    ensures { exchange_in result ≡ record (exchange_in parts) { target = target } }
{
    StoredParts { target, ..parts }
}

impl Packed {
    ghost use Rattle.http_cache_disk_store.specs.Disk.{exchange_of};

    /// Returns the head of a policy, which is in a file of its own of a length, or 0.
    pub(crate) fn of(alloc: Global, policy: &CachePolicy, file: u64) -> Result<Packed, AllocError>
        ensures { IfOk result (λ packed. (exchange_of packed ≡ policy.now) × (packed.file ≡ file)) }
    {
        Ok(Packed {
            bytes: bytes_of(alloc, policy)?,
            target: copy_of(policy.stored_target())?,
            until: usable_until(policy),
            file,
            exchange: Snapshot::of(policy),
        })
    }

    /// Returns the head of a policy that isn't needed any more. Only here a policy is dropped after
    /// it was packed, since the prover looks into all that a policy holds.
    pub(crate) fn from_policy(
        alloc: Global,
        policy: CachePolicy,
        file: u64,
    ) -> Result<Packed, AllocError>
        ensures { IfOk result (λ packed. (exchange_of packed ≡ policy) × (packed.file ≡ file)) }
    {
        Packed::of(alloc, &policy, file)
    }

    /// Returns the head in a file of its own of a length.
    pub(crate) fn in_file(mut self, file: u64) -> Packed
        ensures { (exchange_of result ≡ exchange_of self) × (result.file ≡ file) }
    {
        self.file = file;
        self
    }

    /// Returns the policy.
    ///
    /// # Errors
    ///
    /// `Memory` if there is not enough memory.
    pub(crate) fn policy(&self, alloc: Global) -> Result<CachePolicy, CacheError>
        ensures { IfOk result (λ policy. policy ≡ exchange_of self.now) }
    {
        let target = copy_of(&self.target)?;
        let parts = parts_from_compact(alloc, self.bytes.as_slice())?;
        CachePolicy::from_details(alloc, with_target(parts, target))
    }
}

/// A stored response in memory.
#[derive(Drop)]
pub(crate) struct Head {
    pub(crate) id: ResponseId,
    pub(crate) packed: Packed,
    pub(crate) place: Place,
}

impl Entry for Head {
    ghost use Rattle.http_cache_disk_store.specs.Disk.{seen_of, cost_of, exchange_of};

    type Head = Packed;

    ghost seen = { seen_of };

    ghost cost = { cost_of };

    ghost exchange = { exchange_of };

    fn id(&self) -> ResponseId {
        self.id
    }

    // Counts its files, and what each takes besides.
    fn cost(&self) -> u64 {
        let own = self.place.file_length().saturating_add(FILE);
        if self.packed.file == 0 {
            return own;
        }
        own.saturating_add(self.packed.file).saturating_add(FILE)
    }

    fn can_be_used_again(&self, now: Timestamp) -> bool {
        match self.packed.until {
            Some(until) => now < until,
            None => true,
        }
    }

    fn renew(&mut self, head: Packed) {
        self.packed = head;
    }
}

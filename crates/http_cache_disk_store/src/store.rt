//! The store in a directory. Each change is made in memory whatever becomes of the disc; only a new
//! response has to be on the disc first.
ghost use Rattle.std.specs.Prelude.{◌≡◌, ◌<◌, ℕ, List, [], ◌∷◌, None, Some, false, All, map};
ghost use Rattle.std.specs.Prelude.{nat_eq, IsTrue, IfOk, IfSome, OnOk, OnErr, IsErrOf};
ghost use Rattle.std.specs.List.{list_any};
ghost use Rattle.http_cache_store.specs.Store.{IsInserted, IsShownAs, KeepsAll, KeepsOthers};
ghost use Rattle.http_cache_store.specs.Store.{LosesSome, ShowsAll, has_id, stored_mark, without};
ghost use Rattle.http_cache_memory_store.specs.Index.{all_entries, HasUnder};
ghost use Rattle.http_cache_memory_store.specs.Size.{FitTogether};
ghost use Rattle.http_cache_disk_store.specs.Sum.{mark_seen, mark_text};
ghost use Rattle.http_cache_disk_store.specs.Disk.{AreApart, AreBelow, AreBelow-prop, IsLostToo};
ghost use Rattle.http_cache_disk_store.specs.Disk.{cost_of, exchange_of, is_lost};
ghost use Rattle.http_cache_disk_store.specs.Disk.{UnlinksExactly, UnlinksRemoved};
ghost use Rattle.http_cache_disk_store.specs.Disk.{is_shown, lanes_in, lasting_in, seen_of, stored_in};

use crate::disc::Disc;
use crate::error::{DiskError, Fault};
use crate::form::{place_after, write};
use crate::head::{Head, Packed, Place};
use crate::load::{Found, open};
use crate::lock::TryLock;
use crate::mark::mark_of;
use crate::name::Name;
use bytes::Bytes;
use http_cache_fields::CacheError;
use http_cache_memory_store::Limits;
use http_cache_memory_store::entry::{Entry, Removed};
use http_cache_memory_store::index::Index;
use http_cache_memory_store::told::Told;
use http_cache_policy::policy::CachePolicy;
use http_cache_store::{ResponseId, Store, StoreError, StoredResponse, Target};
use jiff::Timestamp;
use std::alloc::{AllocError, Global};
use std::hash::RandomState;
use std::rt::Files;

/// How a directory is used.
#[derive(Clone, Copy, Debug, PartialEq, Eq)]
pub struct DiskOptions {
    /// The limits. `bytes` counts what the files take, and 4,096 bytes for each besides.
    pub limits: Limits,
    /// Whether each change waits until it outlives a power failure.
    pub is_synced: bool,
}

// What the last look-up read: the stored responses of the target with a text.
#[derive(Drop)]
struct LookedUp {
    text: String,
    responses: Vec<StoredResponse>,
}

// A response whose body is lost.
#[derive(Drop)]
struct Lost {
    text: String,
    id: ResponseId,
}

/// Stored responses in a directory, with a file for each.
///
/// The heads are in memory, and a body is read when it is asked for; if it hasn't the length and
/// the sum that were recorded, the response is lost. Removing a response never fails: it is removed
/// from memory, and then its file is unlinked, or emptied. If both fail, the store is failing until
/// a sweep succeeds in it, and the next process that opens the directory drops all files.
///
/// One process at a time uses a directory. If the process ends without `close`, the next one finds
/// what it stored; after the system was started again, it drops all files.
#[derive(Drop)]
pub struct DiskStore<F: Files + Drop> {
    alloc: Global,
    disc: Disc<F>,
    index: Index<Head>,
    next_id: u64,
    looked_up: Option<LookedUp>,
    // What the next change removes.
    lost: Vec<Lost>,
    // The head that is written.
    buffer: Vec<u8>,
    found: Found,
    damaged: u64,
    ghost ids_below: { AreBelow next_id index.kept.entries } by { AreBelow-prop next_id index.kept.entries },
    ghost lost_below: { All (λ one. one.id.0 < next_id) lost.items },
    ghost apart: { AreApart next_id (all_entries index.kept.entries) disc.told.items },
}

fn failed(fault: Fault) -> StoreError {
    match fault {
        Fault::Memory => StoreError::Memory,
        Fault::Lost | Fault::Refused => StoreError::Failed,
    }
}

fn read_response(alloc: Global, head: &Head) -> Result<StoredResponse, StoreError>
    ensures { IfOk result (λ read. IsShownAs mark_seen read (seen_of head.now)) }
{
    match head.packed.policy(alloc) {
        Ok(policy) => Ok(StoredResponse {
            id: head.id,
            policy,
            body: None,
        }),
        Err(CacheError::Memory) => Err(StoreError::Memory),
        Err(_) => Err(StoreError::Failed),
    }
}

fn read_responses(alloc: Global, heads: &[Head]) -> Result<Vec<StoredResponse>, StoreError>
    ensures { IfOk result (λ read. ShowsAll mark_seen read.items (map seen_of heads.now)) }
{
    let mut responses = Vec::with_capacity(alloc, heads.len())?;
    for head in heads {
        responses.push(read_response(alloc, head)?)?;
    }
    Ok(responses)
}

// Reads what is stored for the target with a text.
fn look_up(alloc: Global, text: &str, heads: &[Head]) -> Result<Option<LookedUp>, StoreError>
    ensures { IfOk result (λ read. is_shown read text.now (map seen_of heads.now)) }
{
    if heads.is_empty() {
        return Ok(None);
    }
    Ok(Some(LookedUp {
        responses: read_responses(alloc, heads)?,
        text: String::from_str(alloc, text)?,
    }))
}

// Replaces what was looked up. Only here it is dropped, since the prover looks into all that a
// dropped response holds.
fn set_looked_up(looked_up: &mut Option<LookedUp>, read: Option<LookedUp>)
    ensures { looked_up.new ≡ read }
{
    *looked_up = read;
}

// Removes the lost responses.
fn remove_lost<G: Removed>(index: &mut Index<Head>, lost: &[Lost], gone: &mut G)
    ensures stored { stored_in index.new.kept.entries
        ≡ lasting_in lost.now index.old.kept.entries }
    ensures told { UnlinksRemoved index.old.kept.entries index.new.kept.entries
        (G.told gone.old) (G.told gone.new) }
{
    for one in lost {
        let ids = [one.id];
        index.remove_ids(one.text.as_str(), &ids, gone);
    }
}

fn is_among(ids: &[ResponseId], id: ResponseId) -> bool
    ensures { result ≡ list_any (λ one. nat_eq id.0 one.0) ids.now }
{
    ids.iter().any(|one| id == *one)
}

fn has_lost(lost: &[Lost], text: &str, id: ResponseId) -> bool
    ensures { result ≡ is_lost lost.now text.now id.0 }
{
    lost.iter()
        .any(|one| id == one.id && text == one.text.as_str())
}

// Adds a lost response to the others.
fn lose(alloc: Global, lost: &mut Vec<Lost>, text: &str, id: ResponseId) -> Result<(), AllocError>
    ensures lost { OnOk result (IsLostToo text.now id.0 lost.old.items lost.new.items) }
    ensures kept { OnErr result (lost.new.items ≡ lost.old.items) }
{
    let text = String::from_str(alloc, text)?;
    lost.push(Lost { text, id })?;
    Ok(())
}

// Writes a file with a head and a body. A new head beside its response has none.
fn write_file<F: Files + Drop>(
    disc: &mut Disc<F>,
    buffer: &mut Vec<u8>,
    name: Name,
    text: &str,
    superseded: &[ResponseId],
    head: &Head,
    body: &[u8],
) -> Result<(), Fault>
where
    F::File: TryLock,
    ensures { disc.new.told ≡ disc.old.told }
{
    write(buffer, text, superseded, head)?;
    disc.write(name, head.id, buffer.as_slice(), body)
}

// Writes the new head of a response beside its body, and returns what replaces the old one.
fn write_renewed<F: Files + Drop>(
    disc: &mut Disc<F>,
    buffer: &mut Vec<u8>,
    text: &str,
    superseded: &[ResponseId],
    head: Head,
) -> Result<Packed, Fault>
where
    F::File: TryLock,
    ensures exchange { IfOk result (λ written. exchange_of written ≡ exchange_of head.packed) }
    ensures told { disc.new.told ≡ disc.old.told }
{
    let name = Name::Head(head.id.number());
    write_file(disc, buffer, name, text, superseded, &head, &[])?;
    Ok(head.packed.in_file(buffer.len() as u64))
}

impl DiskStore<HostRuntime> {
    /// Opens a directory of the system, or makes it, and reads the heads of its files.
    ///
    /// # Errors
    ///
    /// `DiskError` says why it can't be used. Damaged files are removed, and are no error.
    pub fn open(
        rt: &HostRuntime,
        path: &str,
        options: DiskOptions,
    ) -> Result<DiskStore<HostRuntime>, DiskError> {
        let Ok(hasher) = RandomState::new(rt) else {
            return Err(DiskError::NoKeys);
        };
        DiskStore::over(*rt, rt.alloc(), hasher, path, options)
    }
}

impl<F: Files + Drop> DiskStore<F>
where
    F::File: TryLock,
{
    /// Opens a directory as `open` does, over any files.
    ///
    /// # Errors
    ///
    /// As `open`.
    pub fn over(
        files: F,
        alloc: Global,
        hasher: RandomState,
        path: &str,
        options: DiskOptions,
    ) -> Result<DiskStore<F>, DiskError> {
        let mut index = Index::new(alloc, hasher, options.limits)?;
        let (mut disc, is_trusted) = Disc::hold(files, alloc, path, options.is_synced)?;
        let (found, next_id) = open(alloc, &mut disc, &mut index, is_trusted)?;
        // The account begins once the directory was read.
        let account = Told::new();
        disc.told = account;
        Ok(DiskStore {
            alloc,
            disc,
            index,
            next_id,
            looked_up: None,
            lost: Vec::new(alloc),
            buffer: Vec::new(alloc),
            found,
            damaged: found.damaged,
        })
    }

    /// Closes the directory, so that its files are trusted after the system was started again.
    ///
    /// # Errors
    ///
    /// `Stuck` if files of removed responses are still there. `Disc` if the system refused a call.
    pub fn close(self) -> Result<(), DiskError> {
        let DiskStore { mut disc, .. } = self;
        disc.close()
    }

    /// Returns the number of stored responses.
    pub fn len(&self) -> usize {
        self.index.len()
    }

    /// Returns whether no response is stored.
    pub fn is_empty(&self) -> bool {
        self.index.is_empty()
    }

    /// Returns what the files take, with 4,096 bytes for each besides.
    pub fn size(&self) -> u64 {
        self.index.size()
    }

    /// Returns what was found when the directory was opened.
    pub fn found(&self) -> Found {
        self.found
    }

    /// Returns how many responses were lost because a file of theirs isn't as it was written.
    pub fn damaged(&self) -> u64 {
        self.damaged
    }

    /// Returns whether a removed response may be there when the directory is opened, because the
    /// system refused to remove its file. The next process then drops all files.
    pub fn is_failing(&self) -> bool {
        self.disc.is_failing()
    }

    /// Returns how many responses were removed whose files are still there.
    pub fn stuck(&self) -> u64 {
        self.disc.stuck()
    }

    // Removes what is lost, and forgets what was looked up.
    fn begin(&mut self)
        ensures stored { stored_in self.new.index.kept.entries
            ≡ lasting_in self.old.lost.items self.old.index.kept.entries }
        ensures lost { self.new.lost.items ≡ [] }
        ensures next { self.new.next_id ≡ self.old.next_id }
        ensures unlinked { UnlinksRemoved self.old.index.kept.entries self.new.index.kept.entries
            self.old.disc.told.items self.new.disc.told.items }
    {
        set_looked_up(&mut self.looked_up, None);
        remove_lost(&mut self.index, self.lost.as_slice(), &mut self.disc);
        self.lost.clear();
    }

    // Removes what is lost, and responses by their ids. Their files may come back until the disc
    // has settled.
    fn drop_ids(&mut self, text: &str, ids: &[ResponseId])
        ensures removed { HasUnder text.now
            (without ids.now (lasting_in self.old.lost.items self.old.index.kept.entries text.now))
            (lasting_in self.old.lost.items self.old.index.kept.entries)
            (stored_in self.new.index.kept.entries) }
        ensures lost { self.new.lost.items ≡ [] }
        ensures next { self.new.next_id ≡ self.old.next_id }
        ensures unlinked { UnlinksRemoved self.old.index.kept.entries self.new.index.kept.entries
            self.old.disc.told.items self.new.disc.told.items }
    {
        self.begin();
        self.index.remove_ids(text, ids, &mut self.disc);
    }

    fn remove_ids(&mut self, text: &str, ids: &[ResponseId])
        ensures removed { HasUnder text.now
            (without ids.now (lasting_in self.old.lost.items self.old.index.kept.entries text.now))
            (lasting_in self.old.lost.items self.old.index.kept.entries)
            (stored_in self.new.index.kept.entries) }
        ensures lost { self.new.lost.items ≡ [] }
        ensures next { self.new.next_id ≡ self.old.next_id }
        ensures unlinked { UnlinksRemoved self.old.index.kept.entries self.new.index.kept.entries
            self.old.disc.told.items self.new.disc.told.items }
    {
        self.drop_ids(text, ids);
        self.disc.settle();
    }

    // Removes superseded responses and the one that supersedes them.
    fn remove_both(&mut self, text: &str, superseded: &[ResponseId], id: ResponseId)
        ensures lost { LosesSome text.now
            (lasting_in self.old.lost.items self.old.index.kept.entries)
            (stored_in self.new.index.kept.entries) }
        ensures next { self.new.next_id ≡ self.old.next_id }
        ensures unlinked { UnlinksRemoved self.old.index.kept.entries self.new.index.kept.entries
            self.old.disc.told.items self.new.disc.told.items }
    {
        self.drop_ids(text, superseded);
        self.remove_ids(text, &[id]);
    }

    // Removes what would have been superseded, if a response can't be written. Removes nothing if
    // memory was missing.
    fn give_up(&mut self, text: &str, ids: &[ResponseId], fault: Fault) -> StoreError
        ensures failed { result ≡ StoreError.Failed → LosesSome text.now
            (lasting_in self.old.lost.items self.old.index.kept.entries)
            (stored_in self.new.index.kept.entries) }
        ensures kept { result ≡ StoreError.Memory → KeepsAll
            (stored_in self.old.index.kept.entries) self.old.next_id
            (stored_in self.new.index.kept.entries) self.new.next_id }
        ensures next { self.new.next_id ≡ self.old.next_id }
        ensures unlinked { UnlinksRemoved self.old.index.kept.entries self.new.index.kept.entries
            self.old.disc.told.items self.new.disc.told.items }
    {
        if matches!(fault, Fault::Memory) {
            return StoreError::Memory;
        }
        self.remove_ids(text, ids);
        StoreError::Failed
    }

    // Returns where the body of a response is, unless it is lost.
    fn place_of(&self, text: &str, id: ResponseId) -> Option<Place>
        ensures none { result ≡ None → has_id id.0
            (lasting_in self.now.lost.items self.now.index.kept.entries text.now) ≡ false }
        ensures mark { IfSome result (λ place.
            stored_mark id.0 (stored_in self.now.index.kept.entries text.now)
            ≡ Some (mark_text place.mark.length (lanes_in place.mark.sum))) }
        ensures past { IfSome result (λ _. id.0 < self.now.next_id) }
    {
        if has_lost(self.lost.as_slice(), text, id) {
            return None;
        }
        let head = self.index.get(text, id)?;
        Some(head.place)
    }

    // Returns where the body of a response is, unless it is lost or superseded.
    fn place_left(&self, text: &str, superseded: &[ResponseId], id: ResponseId) -> Option<Place>
        ensures { result ≡ None → has_id id.0 (without superseded.now
            (lasting_in self.now.lost.items self.now.index.kept.entries text.now)) ≡ false }
    {
        if is_among(superseded, id) {
            return None;
        }
        self.place_of(text, id)
    }

    // Returns whether there is an id for a response, and it is within the limits if nothing else is
    // stored.
    fn fits(&self, head: &Head) -> bool
        ensures { IsTrue result → (self.now.next_id < u64.MAX)
            × FitTogether cost_of self.now.index.limits (head.now ∷ []) }
    {
        self.next_id < u64::MAX && self.index.limits().fit(head.cost(), head.place.mark.length)
    }

    // Stores a response, whose packed head is in no file of its own.
    fn store(
        &mut self,
        text: &str,
        superseded: &[ResponseId],
        packed: Packed,
        body: &[u8],
        now: Timestamp,
    ) -> Result<Option<ResponseId>, StoreError>
        ensures put { IfOk result (IsInserted (without superseded.now
            (lasting_in self.old.lost.items self.old.index.kept.entries text.now))
            (stored_in self.new.index.kept.entries text.now) self.old.next_id self.new.next_id
            (exchange_of packed) (mark_seen body.now)) }
        ensures others { OnOk result (KeepsOthers
            (lasting_in self.old.lost.items self.old.index.kept.entries)
            (stored_in self.new.index.kept.entries) text.now) }
        ensures failed { IsErrOf result StoreError.Failed → LosesSome text.now
            (lasting_in self.old.lost.items self.old.index.kept.entries)
            (stored_in self.new.index.kept.entries) }
        ensures kept { IsErrOf result StoreError.Memory → KeepsAll
            (stored_in self.old.index.kept.entries) self.old.next_id
            (stored_in self.new.index.kept.entries) self.new.next_id }
        ensures unlinked { UnlinksExactly (all_entries self.old.index.kept.entries)
            (all_entries self.new.index.kept.entries)
            self.old.disc.told.items self.new.disc.told.items }
    {
        let id = ResponseId::new(self.next_id);
        let bytes = packed.bytes.as_slice();
        let place = place_after(text, bytes, superseded, mark_of(body));
        let head = Head { id, packed, place };
        if !self.fits(&head) {
            drop(head);
            self.remove_ids(text, superseded);
            return Ok(None);
        }
        let name = Name::Response(id.number());
        let (disc, buffer) = (&mut self.disc, &mut self.buffer);
        if let Err(fault) = write_file(disc, buffer, name, text, superseded, &head, body) {
            drop(head);
            return Err(self.give_up(text, superseded, fault));
        }
        match self.index.put(text, superseded, head, now, &mut self.disc) {
            Ok(()) => {
                self.next_id += 1;
                self.begin();
                self.disc.settle();
                Ok(Some(id))
            }
            Err(_) => {
                self.disc.discard(id);
                Err(StoreError::Memory)
            }
        }
    }
}

impl<F: Files + Drop> Store for DiskStore<F>
where
    F::File: TryLock,
{
    ghost use Rattle.http_cache_disk_store.specs.Contents.{heads_in, unlinked_in};
    ghost use Rattle.http_cache_disk_store.specs.Disk.{stored_in, lasting_in, is_read_in, UnlinksExactly};
    ghost use Rattle.http_cache_store.specs.Store.{KeepsAllOthers, RemovesThese, removed_count};
    ghost use Rattle.http_cache_store.specs.Store.{IsSwept, without};
    ghost use Rattle.http_cache_store.specs.Target.{text_of};
    ghost use Rattle.std.specs.Prelude.{◌≡◌, map};
    ghost use Rattle.http_cache_disk_store.specs.Sum.{mark_seen};
    ghost use Rattle.std.specs.Prelude.{⊤};

    ghost mark = { mark_seen };

    ghost stored = { λ s. stored_in s.index.kept.entries };

    ghost lasting = { λ s. lasting_in s.lost.items s.index.kept.entries };

    ghost next_id = { λ s. s.next_id };

    ghost is_read = { λ s. is_read_in s.looked_up s.index.kept.entries };

    ghost can_fail = { λ _. ⊤ };

    ghost ids_below = { λ s. s.ids_below };

    fn look_up(&mut self, alloc: Global, target: &Target) -> Result<(), StoreError> {
        let text = target.as_str();
        set_looked_up(&mut self.looked_up, None);
        self.index.promote(text);
        let read = look_up(alloc, text, self.index.under(text))?;
        set_looked_up(&mut self.looked_up, read);
        Ok(())
    }

    fn found(&self, target: &Target) -> &[StoredResponse] {
        match &self.looked_up {
            Some(read) if read.text.as_str() == target.as_str() => read.responses.as_slice(),
            _ => &[],
        }
    }

    fn body(
        &mut self,
        _alloc: Global,
        target: &Target,
        id: ResponseId,
    ) -> Result<Option<Bytes>, StoreError> {
        let text = target.as_str();
        let Some(place) = self.place_of(text, id) else {
            return Ok(None);
        };
        match self
            .disc
            .folder
            .read_body(id.number(), place.at, place.mark)
        {
            Ok(body) => Ok(Some(body)),
            Err(Fault::Lost) => {
                lose(self.alloc, &mut self.lost, text, id)?;
                self.damaged = self.damaged.saturating_add(1);
                Ok(None)
            }
            Err(fault) => Err(failed(fault)),
        }
    }

    fn put(
        &mut self,
        target: &Target,
        superseded: &[ResponseId],
        policy: CachePolicy,
        body: Bytes,
    ) -> Result<Option<ResponseId>, StoreError> {
        let text = target.as_str();
        let now = policy.stored_response_time();
        let packed = Packed::from_policy(self.alloc, policy, 0)?;
        let stored = self.store(text, superseded, packed, body.as_slice(), now);
        drop(body);
        stored
    }

    fn renew(
        &mut self,
        target: &Target,
        superseded: &[ResponseId],
        id: ResponseId,
        policy: CachePolicy,
    ) -> Result<bool, StoreError> {
        let text = target.as_str();
        let Some(place) = self.place_left(text, superseded, id) else {
            drop(policy);
            self.remove_ids(text, superseded);
            return Ok(false);
        };
        let packed = Packed::from_policy(self.alloc, policy, 0)?;
        let head = Head { id, packed, place };
        match write_renewed(&mut self.disc, &mut self.buffer, text, superseded, head) {
            Ok(packed) => {
                self.drop_ids(text, superseded);
                let is_renewed = self.index.renew(text, id, packed, &mut self.disc);
                self.disc.settle();
                Ok(is_renewed)
            }
            Err(Fault::Memory) => Err(StoreError::Memory),
            Err(_) => {
                self.remove_both(text, superseded, id);
                Err(StoreError::Failed)
            }
        }
    }

    // Beyond the trait's clauses, each call that removes says whose files are to be removed.
    fn remove(&mut self, target: &Target, ids: &[ResponseId])
        ensures removed { ⟦<DiskStore<F> as Store>⟧.stored self.new (text_of target.now)
            ≡ without ids.now (⟦<DiskStore<F> as Store>⟧.lasting self.old (text_of target.now)) }
        ensures next { ⟦<DiskStore<F> as Store>⟧.next_id self.new
            ≡ ⟦<DiskStore<F> as Store>⟧.next_id self.old }
        ensures others { KeepsAllOthers (⟦<DiskStore<F> as Store>⟧.lasting self.old)
            (⟦<DiskStore<F> as Store>⟧.stored self.new) (text_of target.now) }
        ensures lasting { KeepsAllOthers (⟦<DiskStore<F> as Store>⟧.lasting self.old)
            (⟦<DiskStore<F> as Store>⟧.lasting self.new) (text_of target.now) }
        ensures unlinked { UnlinksExactly (heads_in self.old) (heads_in self.new)
            (unlinked_in self.old) (unlinked_in self.new) }
    {
        self.remove_ids(target.as_str(), ids);
    }

    fn remove_targets(&mut self, targets: &[Target]) -> usize
        ensures count { result ≡ removed_count (⟦<DiskStore<F> as Store>⟧.lasting self.old)
            (map text_of targets.now) }
        ensures removed { RemovesThese (map text_of targets.now)
            (⟦<DiskStore<F> as Store>⟧.lasting self.old) (⟦<DiskStore<F> as Store>⟧.stored self.new) }
        ensures next { ⟦<DiskStore<F> as Store>⟧.next_id self.new
            ≡ ⟦<DiskStore<F> as Store>⟧.next_id self.old }
        ensures unlinked { UnlinksExactly (heads_in self.old) (heads_in self.new)
            (unlinked_in self.old) (unlinked_in self.new) }
    {
        self.begin();
        let removed = self.index.remove_targets(targets, &mut self.disc);
        self.disc.settle();
        removed
    }

    fn sweep(&mut self, now: Timestamp) -> usize
        ensures swept { IsSwept now.nanosecond (⟦<DiskStore<F> as Store>⟧.lasting self.old)
            (⟦<DiskStore<F> as Store>⟧.stored self.new) }
        ensures next { ⟦<DiskStore<F> as Store>⟧.next_id self.new
            ≡ ⟦<DiskStore<F> as Store>⟧.next_id self.old }
        ensures unlinked { UnlinksExactly (heads_in self.old) (heads_in self.new)
            (unlinked_in self.old) (unlinked_in self.new) }
    {
        self.begin();
        self.disc.retry();
        let removed = self.index.sweep(now, &mut self.disc);
        self.disc.settle();
        removed
    }
}

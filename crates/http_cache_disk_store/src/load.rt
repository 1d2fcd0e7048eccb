//! Reads the heads of all files when the directory is opened. A file that isn't as it was written
//! costs its response only.
ghost use Rattle.std.specs.Prelude.{◌≡◌, ◌+◌, ℕ, IfOk, IfSome, OnOk};
ghost use Rattle.http_cache_disk_store.specs.Disk.{HaveIdsBelow};

use crate::disc::Disc;
use crate::error::{DiskError, Fault};
use crate::folder::Folder;
use crate::form::{Lengths, PREAMBLE, ReadHead, lengths_in, read_head};
use crate::head::Head;
use crate::lock::TryLock;
use crate::name::Name;
use http_cache_memory_store::entry::{Entry, Removed};
use http_cache_memory_store::index::Index;
use http_cache_store::ResponseId;
use jiff::Timestamp;
use std::alloc::Global;
use std::rt::Files;

/// What was found in the directory when it was opened.
#[derive(Clone, Copy, Debug, Default, PartialEq, Eq)]
pub struct Found {
    /// The number of responses that were read.
    pub read: u64,
    /// The number of responses that were removed because a file of theirs isn't as it was written.
    pub damaged: u64,
    /// The number of responses that were removed because the directory wasn't closed before the
    /// system was started again, or because a removed one might be among them.
    pub distrusted: u64,
}

// The responses that a response superseded. They are removed after all are read.
#[derive(Drop)]
struct Superseded {
    text: String,
    ids: Vec<ResponseId>,
}

/// Reads the files of a directory.
#[derive(Drop)]
pub(crate) struct Loader<'a, F: Files + Drop> {
    alloc: Global,
    disc: &'a mut Disc<F>,
    // The ids of responses that have a head in a file of its own, rising.
    apart: &'a [u64],
    superseded: Vec<Superseded>,
    buffer: Vec<u8>,
    found: Found,
    next_id: u64,
}

fn greatest(ids: &[ResponseId]) -> u64 {
    let mut most = 0;
    for id in ids {
        most = most.max(id.number().saturating_add(1));
    }
    most
}

// Reads the bytes of a head into a buffer. Returns its lengths if it is of this form.
fn read_bytes<F: Files + Drop>(
    folder: &mut Folder<F>,
    name: Name,
    id: u64,
    buffer: &mut Vec<u8>,
) -> Result<Option<Lengths>, Fault> {
    folder.read_first(name, id, buffer)?;
    let Some(lengths) = lengths_in(buffer.as_slice()) else {
        return Ok(None);
    };
    if lengths.head > buffer.len() {
        folder.read(0, lengths.head, buffer)?;
    }
    buffer.truncate(lengths.head);
    Ok(Some(lengths))
}

// Returns whether the files of a response have the lengths that its head says.
fn is_whole<F: Files + Drop>(
    folder: &mut Folder<F>,
    id: u64,
    lengths: &Lengths,
    is_apart: bool,
) -> Result<bool, Fault> {
    let place = &lengths.place;
    let whole = folder.length(Name::Response(id), id)? == place.file_length();
    if !is_apart {
        return Ok(whole && place.at == lengths.head as u64);
    }
    let head = folder.length(Name::Head(id), id)?;
    Ok(whole && place.at >= PREAMBLE as u64 && head == lengths.head as u64)
}

// Reads the head of a response. Returns None if it isn't as it was written.
fn read_one<F: Files + Drop>(
    alloc: Global,
    folder: &mut Folder<F>,
    id: u64,
    is_apart: bool,
    buffer: &mut Vec<u8>,
) -> Result<Option<ReadHead>, Fault>
    ensures { IfOk result (λ read. IfSome read (λ r. r.head.id.0 ≡ id)) }
{
    let name = if is_apart {
        Name::Head(id)
    } else {
        Name::Response(id)
    };
    let Some(lengths) = read_bytes(folder, name, id, buffer)? else {
        return Ok(None);
    };
    if !is_whole(folder, id, &lengths, is_apart)? {
        return Ok(None);
    }
    Ok(read_head(alloc, id, buffer.as_slice(), is_apart)?)
}

impl<'a, F: Files + Drop> Loader<'a, F>
where
    F::File: TryLock,
{
    // Takes a response, unless it alone exceeds a limit.
    fn keep(&mut self, index: &mut Index<Head>, text: &str, head: Head) -> Result<(), DiskError>
        ensures { OnOk result (HaveIdsBelow head.id.0 index.old.kept.entries
            → HaveIdsBelow (head.id.0 + 1) index.new.kept.entries) }
    {
        let length = head.place.mark.length;
        if !index.limits().fit(head.cost(), length) {
            self.disc.removed(head.id);
            drop(head);
            return Ok(());
        }
        index.put(text, &[], head, Timestamp::MIN, self.disc)?;
        self.found.read = self.found.read.saturating_add(1);
        Ok(())
    }

    fn take(&mut self, index: &mut Index<Head>, read: ReadHead) -> Result<(), DiskError>
        ensures { OnOk result (HaveIdsBelow read.head.id.0 index.old.kept.entries
            → HaveIdsBelow (read.head.id.0 + 1) index.new.kept.entries) }
    {
        let ReadHead {
            text,
            head,
            superseded,
        } = read;
        self.next_id = self.next_id.max(greatest(superseded.as_slice()));
        self.keep(index, text.as_str(), head)?;
        if !superseded.is_empty() {
            self.superseded.push(Superseded {
                text,
                ids: superseded,
            })?;
        }
        Ok(())
    }

    fn lose(&mut self, id: u64) {
        self.disc.removed(ResponseId::new(id));
        self.found.damaged = self.found.damaged.saturating_add(1);
    }

    fn load_one(&mut self, index: &mut Index<Head>, id: u64) -> Result<(), DiskError>
        ensures { OnOk result (HaveIdsBelow id index.old.kept.entries
            → HaveIdsBelow (id + 1) index.new.kept.entries) }
    {
        let is_apart = self.apart.binary_search(&id).is_ok();
        let folder = &mut self.disc.folder;
        match read_one(self.alloc, folder, id, is_apart, &mut self.buffer) {
            Ok(Some(read)) => self.take(index, read),
            Ok(None) | Err(Fault::Lost) => {
                self.lose(id);
                Ok(())
            }
            Err(Fault::Memory) => Err(DiskError::Memory),
            Err(Fault::Refused) => Err(DiskError::Unreadable(id)),
        }
    }

    // Reads the response with an id that is at least `below`. Returns the number below which all
    // ids are then. No response is written with the greatest id, and none has two files.
    fn load_next(&mut self, index: &mut Index<Head>, id: u64, below: u64) -> Result<u64, DiskError>
        ensures { IfOk result (λ next. HaveIdsBelow below index.old.kept.entries
            → HaveIdsBelow next index.new.kept.entries) }
    {
        if id == u64::MAX {
            self.lose(id);
            return Ok(below);
        }
        if id < below {
            return Ok(below);
        }
        self.load_one(index, id)?;
        Ok(id + 1)
    }

    // Returns a number below which all ids are.
    fn load_all(&mut self, index: &mut Index<Head>, ids: &[u64]) -> Result<u64, DiskError>
        ensures { IfOk result (λ next. HaveIdsBelow 0 index.old.kept.entries
            → HaveIdsBelow next index.new.kept.entries) }
    {
        let mut below = 0;
        for id in ids {
            below = self.load_next(index, *id, below)?;
        }
        Ok(below)
    }

    fn remove_superseded(&mut self, index: &mut Index<Head>)
        ensures { (next : ℕ) → HaveIdsBelow next index.old.kept.entries
            → HaveIdsBelow next index.new.kept.entries }
    {
        for one in self.superseded.as_slice() {
            let ids = one.ids.as_slice();
            index.remove_ids(one.text.as_str(), ids, self.disc);
        }
    }

    // Removes heads whose responses are gone.
    fn remove_orphans(&mut self, ids: &[u64]) {
        for id in self.apart {
            if ids.binary_search(id).is_err() {
                self.disc.removed(ResponseId::new(*id));
            }
        }
    }

    fn remove_all(&mut self, ids: &[u64]) {
        for id in ids {
            self.disc.removed(ResponseId::new(*id));
            self.found.distrusted = self.found.distrusted.saturating_add(1);
        }
    }
}

// Reads the files of a directory into an empty index. If the directory can't be trusted, removes
// them instead. Returns what was found, and the next id.
fn load<F: Files + Drop>(
    alloc: Global,
    disc: &mut Disc<F>,
    index: &mut Index<Head>,
    is_trusted: bool,
) -> Result<(Found, u64), DiskError>
where
    F::File: TryLock,
    ensures { IfOk result (λ loaded. HaveIdsBelow 0 index.old.kept.entries
        → HaveIdsBelow loaded.1 index.new.kept.entries) }
{
    let listed = disc.folder.list()?;
    let ids = listed.responses.as_slice();
    let mut loader = Loader {
        alloc,
        disc,
        apart: listed.heads.as_slice(),
        superseded: Vec::new(alloc),
        buffer: Vec::new(alloc),
        found: Found::default(),
        next_id: listed.next_id,
    };
    loader.remove_orphans(ids);
    let mut below = 0;
    if is_trusted {
        below = loader.load_all(index, ids)?;
        loader.remove_superseded(index);
    } else {
        loader.remove_all(ids);
    }
    Ok((loader.found, loader.next_id.max(below)))
}

/// Reads the files of a directory as `load` does, and says that a process uses it. Owns nothing, so
/// that nothing is dropped at its errors.
pub(crate) fn open<F: Files + Drop>(
    alloc: Global,
    disc: &mut Disc<F>,
    index: &mut Index<Head>,
    is_trusted: bool,
) -> Result<(Found, u64), DiskError>
where
    F::File: TryLock,
    ensures { IfOk result (λ loaded. HaveIdsBelow 0 index.old.kept.entries
        → HaveIdsBelow loaded.1 index.new.kept.entries) }
{
    if is_trusted {
        disc.open()?;
        return load(alloc, disc, index, true);
    }
    let loaded = load(alloc, disc, index, false)?;
    disc.begin()?;
    Ok(loaded)
}

//! The calls of the system on files of the directory. A file is written under a temporary name, and
//! one rename makes it what it is to be.
ghost use Rattle.std.specs.Prelude.{◌≡◌, IfOk};
ghost use Rattle.http_cache_disk_store.specs.Sum.{mark_seen, mark_text};
ghost use Rattle.http_cache_disk_store.specs.Disk.{lanes_in};

use crate::error::{DiskError, Fault};
use crate::mark::{Mark, mark_of};
use crate::name::{LOCK, Name, ending_of, name_of};
use bytes::Bytes;
use std::alloc::{AllocError, Global};
use std::fmt::Write as FmtWrite;
use std::fs::{DirBuilder, DirEntry, File, OpenFile, OpenOptions, Permissions};
use std::io::{ErrorKind, Read, Seek, SeekFrom, Write};
use std::os::unix::fs::{DirBuilderExt, OpenOptionsExt, PermissionsExt};
use std::rt::Files;
use std::{fs, io};

const BOOT: &str = "/proc/sys/kernel/random/boot_id";

// The beginning of a sqlite file.
const SQLITE: &[u8] = b"SQLite format 3";

// The greatest part of a file that is read at once without knowing its length.
const FIRST: usize = 4096;

// The length of the longest name of a file, with the slash before it.
const LONGEST_NAME: usize = 32;

/// The directory.
#[derive(Drop)]
pub(crate) struct Folder<F: Drop> {
    alloc: Global,
    files: F,
    path: String,
    // The paths of two files. They have room, so that removing a file allocates nothing.
    own: String,
    other: String,
}

/// What is in a directory.
#[derive(Drop)]
pub(crate) struct Listed {
    /// The ids of files with responses, rising.
    pub(crate) responses: Vec<u64>,
    /// The ids of files with only a head, rising.
    pub(crate) heads: Vec<u64>,
    // The ids of files that were being written.
    unfinished: Vec<u64>,
    /// The id that no name has, and no lower one either.
    pub(crate) next_id: u64,
    // Whether the directory has to be empty, since it has no lock.
    is_empty: bool,
}

impl Listed {
    fn new(alloc: Global, is_empty: bool) -> Listed {
        Listed {
            responses: Vec::new(alloc),
            heads: Vec::new(alloc),
            unfinished: Vec::new(alloc),
            next_id: 0,
            is_empty,
        }
    }

    fn add(&mut self, name: Name, is_file: bool) -> Result<(), AllocError> {
        if let Name::Response(id) | Name::Head(id) = name {
            self.next_id = self.next_id.max(id.saturating_add(1));
        }
        if !is_file {
            return Ok(());
        }
        match name {
            Name::Response(id) => self.responses.push(id)?,
            Name::Head(id) => self.heads.push(id)?,
            Name::Unfinished(id) => self.unfinished.push(id)?,
            Name::Lock | Name::Foreign => {}
        }
        Ok(())
    }

    // Adds an entry. Leaves out a file of another program, about which the system isn't asked.
    fn add_entry<R: Files + Drop>(
        &mut self,
        alloc: Global,
        entry: io::Result<DirEntry<R, Global>>,
    ) -> Result<(), DiskError> {
        let entry = entry?;
        if self.is_empty {
            let name = String::from_str(alloc, entry.file_name())?;
            return Err(DiskError::Foreign(name));
        }
        let name = name_of(entry.file_name());
        let is_file = !matches!(name, Name::Foreign) && entry.file_type()?.is_file();
        Ok(self.add(name, is_file)?)
    }
}

// Writes the path of a file into a buffer.
fn set_path(buffer: &mut String, path: &str, id: u64, ending: &str) -> Result<(), AllocError> {
    buffer.clear();
    buffer.push_str(path)?;
    match write!(buffer, "/{id:016x}{ending}") {
        Ok(()) => Ok(()),
        Err(_) => Err(AllocError),
    }
}

// Returns why a path is no directory.
fn why_no_directory<F: Files>(files: &F, path: &str) -> DiskError {
    let mut start = [0_u8; 15];
    let Ok(mut file) = File::open(files, path) else {
        return DiskError::NoDirectory;
    };
    match file.read_exact(&mut start) {
        Ok(()) if start.as_slice() == SQLITE => DiskError::Earlier,
        _ => DiskError::NoDirectory,
    }
}

// Makes the directory, if it isn't there.
fn make<F: Files>(files: &F, path: &str) -> Result<(), DiskError> {
    match DirBuilder::new().mode(0o700).create(files, path) {
        Ok(()) => Ok(()),
        Err(e) if e.kind() == ErrorKind::AlreadyExists => {
            if fs::metadata(files, path)?.is_dir() {
                Ok(())
            } else {
                Err(why_no_directory(files, path))
            }
        }
        Err(e) => Err(e.into()),
    }
}

// Lists what a directory has. Only here a directory is read, since the prover looks into all that
// is dropped when a reader of one ends.
fn list_all<F: Files>(
    files: &F,
    alloc: Global,
    path: &str,
    listed: &mut Listed,
) -> Result<(), DiskError> {
    for entry in fs::read_dir(&(files, alloc), path)? {
        listed.add_entry(alloc, entry)?;
    }
    Ok(())
}

// Takes over a directory that has no lock yet. It has to be empty.
fn take_over<F: Files>(files: &F, alloc: Global, path: &str) -> Result<(), DiskError> {
    list_all(files, alloc, path, &mut Listed::new(alloc, true))?;
    fs::set_permissions(files, path, Permissions::from_mode(0o700))?;
    Ok(())
}

// Returns the open lock of a directory, which is made if it isn't there.
fn open_lock<F: Files>(files: &F, alloc: Global, path: &str) -> Result<F::File, DiskError> {
    make(files, path)?;
    let lock = format!(in alloc; "{path}/{LOCK}")?;
    if !fs::exists(files, lock.as_str())? {
        take_over(files, alloc, path)?;
    }
    let mut how = OpenOptions::new();
    how.read(true).write(true).create(true).mode(0o600);
    Ok(how.open(files, lock.as_str())?)
}

/// Returns the number of this run of the system, which is empty if it isn't known.
pub(crate) fn boot_of<F: Files>(files: &F, alloc: Global) -> Result<String, DiskError> {
    let mut text = String::new(alloc);
    let Ok(mut file) = File::open(files, BOOT) else {
        return Ok(text);
    };
    let mut bytes = [0_u8; 64];
    let Ok(length) = file.read(&mut bytes) else {
        return Ok(text);
    };
    if let Some(read) = bytes.get(..length)
        && let Ok(number) = std::str::from_utf8(read)
    {
        text.push_str(number.trim_ascii())?;
    }
    Ok(text)
}

impl<F: Files + Drop> Folder<F> {
    /// Returns the directory, which is made if it isn't there, and its open lock.
    ///
    /// # Errors
    ///
    /// `NoDirectory`, `Earlier` or `Foreign` if something else is there.
    pub(crate) fn open(
        files: F,
        alloc: Global,
        path: &str,
    ) -> Result<(Folder<F>, F::File), DiskError> {
        let lock = open_lock(&files, alloc, path)?;
        let room = path.len().saturating_add(LONGEST_NAME);
        let folder = Folder {
            alloc,
            files,
            path: String::from_str(alloc, path)?,
            own: String::with_capacity(alloc, room)?,
            other: String::with_capacity(alloc, room)?,
        };
        Ok((folder, lock))
    }

    /// Syncs the directory, so that what was renamed and removed stays so if the power fails.
    pub(crate) fn sync(&self) -> Result<(), DiskError> {
        File::open(&self.files, self.path.as_str())?.sync_all()?;
        Ok(())
    }

    /// Lists all responses and heads. Removes what wasn't finished, and leaves files of other
    /// programs alone.
    pub(crate) fn list(&mut self) -> Result<Listed, DiskError> {
        let mut listed = Listed::new(self.alloc, false);
        list_all(&self.files, self.alloc, self.path.as_str(), &mut listed)?;
        for id in listed.unfinished.as_slice() {
            self.discard(*id);
        }
        listed.responses.sort_unstable();
        listed.heads.sort_unstable();
        Ok(listed)
    }

    fn fill(&mut self, head: &[u8], body: &[u8], is_synced: bool) -> Result<(), Fault> {
        let mut how = OpenOptions::new();
        how.write(true).create(true).truncate(true).mode(0o600);
        let mut file = how.open(&self.files, self.other.as_str())?;
        file.write_all(head)?;
        file.write_all(body)?;
        if is_synced {
            file.sync_data()?;
        }
        Ok(())
    }

    // Removes the file that was being written.
    fn discard(&mut self, id: u64) {
        let ending = ending_of(Name::Unfinished(id));
        if set_path(&mut self.other, self.path.as_str(), id, ending).is_ok() {
            let _gone = fs::remove_file(&self.files, self.other.as_str());
        }
    }

    fn replace(&mut self, head: &[u8], body: &[u8], is_synced: bool) -> Result<(), Fault> {
        self.fill(head, body, is_synced)?;
        fs::rename(&self.files, self.other.as_str(), self.own.as_str())?;
        Ok(())
    }

    /// Writes a file that is all of two parts. Either it is whole then, or nothing has changed but a
    /// temporary file.
    pub(crate) fn write(
        &mut self,
        name: Name,
        id: u64,
        head: &[u8],
        body: &[u8],
        is_synced: bool,
    ) -> Result<(), Fault> {
        let unfinished = ending_of(Name::Unfinished(id));
        set_path(&mut self.own, self.path.as_str(), id, ending_of(name))?;
        set_path(&mut self.other, self.path.as_str(), id, unfinished)?;
        let replaced = self.replace(head, body, is_synced);
        if replaced.is_err() {
            self.discard(id);
        }
        replaced
    }

    fn empty(&self) -> bool {
        let opened = OpenOptions::new()
            .write(true)
            .open(&self.files, self.own.as_str());
        match opened {
            Ok(file) => file.set_len(0).is_ok(),
            Err(e) => e.kind() == ErrorKind::NotFound,
        }
    }

    fn unlink(&mut self, name: Name, id: u64) -> bool {
        if set_path(&mut self.own, self.path.as_str(), id, ending_of(name)).is_err() {
            return false;
        }
        match fs::remove_file(&self.files, self.own.as_str()) {
            Ok(()) => true,
            Err(e) => e.kind() == ErrorKind::NotFound || self.empty(),
        }
    }

    /// Removes the files of a response, and returns whether it is gone. A file that can't be
    /// removed is emptied, so that it is no response when the directory is opened. A head without
    /// its response is none either.
    pub(crate) fn remove(&mut self, id: u64) -> bool {
        let is_gone = self.unlink(Name::Response(id), id);
        let _is_head_gone = self.unlink(Name::Head(id), id);
        is_gone
    }

    /// Returns the length of a file.
    pub(crate) fn length(&mut self, name: Name, id: u64) -> Result<u64, Fault> {
        set_path(&mut self.own, self.path.as_str(), id, ending_of(name))?;
        Ok(fs::symlink_metadata(&self.files, self.own.as_str())?.len())
    }

    /// Reads the first bytes of a file into an empty buffer: 4,096, or as many as there are.
    pub(crate) fn read_first(
        &mut self,
        name: Name,
        id: u64,
        buffer: &mut Vec<u8>,
    ) -> Result<(), Fault> {
        let length = self.length(name, id)?;
        let first = usize::try_from(length).unwrap_or(FIRST).min(FIRST);
        self.read(0, first, buffer)
    }

    /// Reads as many bytes of the file whose length or first bytes were read last.
    pub(crate) fn read(&self, at: u64, length: usize, buffer: &mut Vec<u8>) -> Result<(), Fault> {
        let mut file = File::open(&self.files, self.own.as_str())?;
        if at > 0 {
            file.seek(SeekFrom::Start(at))?;
        }
        buffer.clear();
        buffer.resize(length, 0)?;
        file.read_exact(buffer.as_mut_slice())?;
        Ok(())
    }

    /// Reads a body.
    ///
    /// # Errors
    ///
    /// `Lost` if it isn't one of the length and the sum that are known.
    pub(crate) fn read_body(&mut self, id: u64, at: u64, mark: Mark) -> Result<Bytes, Fault>
        ensures { IfOk result (λ body. mark_seen body
            ≡ mark_text mark.length (lanes_in mark.sum)) }
    {
        let Ok(length) = usize::try_from(mark.length) else {
            return Err(Fault::Lost);
        };
        set_path(&mut self.own, self.path.as_str(), id, "")?;
        let mut bytes = Vec::new(self.alloc);
        self.read(at, length, &mut bytes)?;
        if mark_of(bytes.as_slice()) != mark {
            return Err(Fault::Lost);
        }
        Ok(Bytes::from_vec(bytes)?)
    }
}

//! The file that a process holds while it uses the directory. It says how the directory was left,
//! and in which run of the system.
use crate::error::DiskError;
use std::alloc::{AllocError, Global};
use std::fs::{File, OpenFile, TryLockError};
use std::io;
use std::io::{Read, Seek, SeekFrom, Write};

const FORM: &str = "http_cache_disk_store 1";

// No lock of ours is longer.
const MOST: u64 = 256;

/// A file that one process at a time can hold.
pub trait TryLock {
    /// Holds the file while it is open. Returns false if another process holds it.
    ///
    /// # Errors
    ///
    /// The error of the system.
    fn try_hold(&self) -> io::Result<bool>;
}

impl TryLock for File {
    fn try_hold(&self) -> io::Result<bool> {
        match self.try_lock() {
            Ok(()) => Ok(true),
            Err(TryLockError::WouldBlock) => Ok(false),
            Err(TryLockError::Error(e)) => Err(e),
        }
    }
}

/// How a directory is left.
#[derive(Clone, Copy)]
pub(crate) enum Left {
    /// A process uses it, or was killed.
    Opened,
    /// The same, and each change has reached the disc before it was acknowledged.
    Synced,
    /// It was closed.
    Closed,
    /// A file that was removed may still be there.
    Failed,
}

fn word_for(left: Left) -> &'static str {
    match left {
        Left::Opened => "opened",
        Left::Synced => "synced",
        Left::Closed => "closed",
        Left::Failed => "failed",
    }
}

// Returns whether a text says how the directory was left, in any run of the system.
fn says(alloc: Global, text: &[u8], left: Left) -> Result<bool, AllocError> {
    let word = word_for(left);
    let front = format!(in alloc; "{FORM} {word} ")?;
    Ok(text.starts_with(front.as_bytes()) && text.ends_with(b"\n"))
}

fn text_for(alloc: Global, left: Left, boot: &str) -> Result<String, AllocError> {
    let word = word_for(left);
    format!(in alloc; "{FORM} {word} {boot}\n")
}

/// The lock, held.
#[derive(Drop)]
pub(crate) struct Lock<L: Drop> {
    alloc: Global,
    file: L,
    // The number of this run of the system, or nothing if it isn't known.
    boot: String,
}

impl<L: Read + Write + Seek + OpenFile + TryLock + Drop> Lock<L> {
    /// Holds a file.
    pub(crate) fn hold(alloc: Global, file: L, boot: String) -> Result<Lock<L>, DiskError> {
        if !file.try_hold()? {
            return Err(DiskError::Busy);
        }
        Ok(Lock { alloc, file, boot })
    }

    fn read(&mut self) -> Result<Vec<u8>, DiskError> {
        let mut text = Vec::new(self.alloc);
        if OpenFile::metadata(&self.file)?.len() > MOST {
            return Err(DiskError::Version);
        }
        self.file.seek(SeekFrom::Start(0))?;
        self.file.read_to_end(&mut text)?;
        Ok(text)
    }

    /// Returns whether what the directory has can be trusted. It can if the directory was closed,
    /// if each change reached the disc, or if the system has run since it was opened: then
    /// everything that was done is there.
    ///
    /// # Errors
    ///
    /// `Version` if the text is no lock of this version.
    pub(crate) fn is_trusted(&mut self) -> Result<bool, DiskError> {
        let text = self.read()?;
        let text = text.as_slice();
        if text.is_empty() {
            return Ok(false);
        }
        if !text.starts_with(FORM.as_bytes()) {
            return Err(DiskError::Version);
        }
        let opened = text_for(self.alloc, Left::Opened, self.boot.as_str())?;
        let is_same_run = !self.boot.as_str().is_empty() && text == opened.as_bytes();
        Ok(
            is_same_run
                || says(self.alloc, text, Left::Closed)?
                || says(self.alloc, text, Left::Synced)?,
        )
    }

    /// Writes how the directory is left. The text reaches the disc before this returns.
    pub(crate) fn say(&mut self, left: Left) -> Result<(), DiskError> {
        let text = text_for(self.alloc, left, self.boot.as_str())?;
        self.file.seek(SeekFrom::Start(0))?;
        self.file.write_all(text.as_bytes())?;
        self.file.set_len(text.len() as u64)?;
        self.file.sync_all()?;
        Ok(())
    }
}

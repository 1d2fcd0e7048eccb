//! The directory with its lock: files are written and removed, and those that can be neither
//! removed nor emptied are remembered.
ghost use Rattle.std.specs.Prelude.{◌≡◌};

use crate::error::{DiskError, Fault};
use crate::folder::{Folder, boot_of};
use crate::lock::{Left, Lock, TryLock};
use crate::name::Name;
use http_cache_memory_store::entry::Removed;
use http_cache_memory_store::told::Told;
use http_cache_store::ResponseId;
use std::alloc::Global;
use std::rt::Files;

/// The directory, and what became of the calls on it.
#[derive(Drop)]
pub(crate) struct Disc<F: Files + Drop> {
    pub(crate) folder: Folder<F>,
    pub(crate) lock: Lock<F::File>,
    // The responses whose files are still there.
    stuck: Vec<u64>,
    // The number of such responses that aren't in `stuck`: there was no memory, or another response
    // may have the id.
    unlisted: u64,
    // Whether each change waits until it outlives a power failure.
    is_synced: bool,
    // Whether the last change couldn't be made to outlive it.
    is_unsynced: bool,
    // The stored responses whose files were to be removed since the directory was read.
    pub(crate) told: Told<ResponseId>,
}

impl<F: Files + Drop> Disc<F>
where
    F::File: TryLock,
{
    /// Holds a directory, which is made if it isn't there. Returns too whether what it has can be
    /// trusted.
    pub(crate) fn hold(
        files: F,
        alloc: Global,
        path: &str,
        is_synced: bool,
    ) -> Result<(Disc<F>, bool), DiskError> {
        let boot = boot_of(&files, alloc)?;
        let (folder, lock) = Folder::open(files, alloc, path)?;
        let mut lock = Lock::hold(alloc, lock, boot)?;
        let is_trusted = lock.is_trusted()?;
        let disc = Disc {
            folder,
            lock,
            stuck: Vec::with_capacity(alloc, 64)?,
            unlisted: 0,
            is_synced,
            is_unsynced: false,
            told: Told::new(),
        };
        Ok((disc, is_trusted))
    }

    /// Says that a process uses the directory after all that it had was removed.
    pub(crate) fn begin(&mut self) -> Result<(), DiskError> {
        if self.is_failing() {
            return Err(DiskError::Stuck);
        }
        self.open()
    }

    /// Returns how many responses were removed whose files are still there.
    pub(crate) fn stuck(&self) -> u64 {
        (self.stuck.len() as u64).saturating_add(self.unlisted)
    }

    /// Returns whether something that was removed may be there when the directory is opened.
    pub(crate) fn is_failing(&self) -> bool {
        self.stuck() > 0 || self.is_unsynced
    }

    /// Writes a file that is all of two parts, and returns whether it was written.
    pub(crate) fn write(
        &mut self,
        name: Name,
        id: ResponseId,
        head: &[u8],
        body: &[u8],
    ) -> Result<(), Fault>
        ensures told { self.new.told ≡ self.old.told }
    {
        self.folder
            .write(name, id.number(), head, body, self.is_synced)
    }

    /// Waits until what was changed outlives a power failure, if that is wanted.
    pub(crate) fn settle(&mut self)
        ensures told { self.new.told ≡ self.old.told }
    {
        if !self.is_synced {
            return;
        }
        let was_unsynced = self.is_unsynced;
        self.is_unsynced = self.folder.sync().is_err();
        if self.is_unsynced {
            let _said = self.lock.say(Left::Failed);
        } else if was_unsynced {
            self.recover();
        }
    }

    /// Says that a process uses the directory, unless it is failing.
    fn recover(&mut self)
        ensures told { self.new.told ≡ self.old.told }
    {
        if !self.is_failing() {
            let _said = self.open();
        }
    }

    /// Says that a process uses the directory. If each change is synced, so is what is there.
    pub(crate) fn open(&mut self) -> Result<(), DiskError>
        ensures told { self.new.told ≡ self.old.told }
    {
        if self.is_synced {
            self.folder.sync()?;
            return self.lock.say(Left::Synced);
        }
        self.lock.say(Left::Opened)
    }

    // Remembers that the files of a removed response are still there. The directory says so too, so
    // that the next process drops everything.
    fn remember(&mut self, id: u64)
        ensures told { self.new.told ≡ self.old.told }
    {
        if self.stuck.push(id).is_err() {
            self.unlisted = self.unlisted.saturating_add(1);
        }
        let _said = self.lock.say(Left::Failed);
    }

    // Tries again to remove one, and returns whether it is gone.
    fn retry_one(&mut self) -> bool
        ensures told { self.new.told ≡ self.old.told }
    {
        let Some(id) = self.stuck.pop() else {
            return false;
        };
        if self.folder.remove(id) {
            return true;
        }
        if self.stuck.push(id).is_err() {
            self.unlisted = self.unlisted.saturating_add(1);
        }
        false
    }

    /// Removes the file of a response that couldn't be stored. If that fails, it isn't tried again,
    /// since the next response has the same id.
    pub(crate) fn discard(&mut self, id: ResponseId)
        ensures told { self.new.told ≡ self.old.told }
    {
        if !self.folder.remove(id.number()) {
            self.unlisted = self.unlisted.saturating_add(1);
            let _said = self.lock.say(Left::Failed);
        }
    }

    /// Tries again to remove what is stuck.
    pub(crate) fn retry(&mut self)
        ensures told { self.new.told ≡ self.old.told }
    {
        let was_stuck = self.stuck() > 0;
        for _ in 0..self.stuck.len() {
            if !self.retry_one() {
                break;
            }
        }
        if was_stuck {
            self.recover();
        }
    }

    /// Says that all is as it should be, as the last step of a process.
    pub(crate) fn close(&mut self) -> Result<(), DiskError> {
        self.retry();
        if self.stuck() > 0 {
            return Err(DiskError::Stuck);
        }
        self.folder.sync()?;
        self.lock.say(Left::Closed)
    }
}

impl<F: Files + Drop> Removed for Disc<F>
where
    F::File: TryLock,
{
    ghost told = { λ disc. disc.told.items };

    fn removed(&mut self, id: ResponseId) {
        if !self.folder.remove(id.number()) {
            self.remember(id.number());
        }
        self.told = self.told.and(&id);
    }
}

//! Files of the system of which a given call fails.
//!
//! Every call on the directory, on a file or on an open file is counted. A write that fails writes
//! half of its bytes first.
use http_cache_disk_store::TryLock;
use std::alloc::Allocator;
use std::cell::Cell;
use std::fs::{File, Metadata, OpenFile, OpenOptions, Permissions};
use std::io;
use std::io::{Error, Read, Seek, SeekFrom, Write};
use std::rt::Files;

/// Which calls fail.
#[derive(Drop)]
pub struct Plan {
    calls: Cell<u64>,
    first: Cell<u64>,
    is_lasting: Cell<bool>,
    code: Cell<i32>,
}

impl Plan {
    /// Returns a plan by which no call fails.
    pub fn new() -> Plan {
        Plan {
            calls: Cell::new(0),
            first: Cell::new(0),
            is_lasting: Cell::new(false),
            code: Cell::new(5),
        }
    }

    /// Lets the call with this number fail, counted from now, and all later ones if `is_lasting`.
    /// With 0 no call fails.
    pub fn set(&self, first: u64, is_lasting: bool, code: i32) {
        self.calls.set(0);
        self.first.set(first);
        self.is_lasting.set(is_lasting);
        self.code.set(code);
    }

    /// Lets no further call fail.
    pub fn end(&self) {
        self.first.set(0);
    }

    /// Returns how many calls there were since `set`.
    pub fn calls(&self) -> u64 {
        self.calls.get()
    }

    // Counts a call, and returns its error if it has to fail.
    fn call(&self) -> io::Result<()> {
        let number = self.calls.get().saturating_add(1);
        self.calls.set(number);
        let first = self.first.get();
        if first > 0 && (number == first || (self.is_lasting.get() && number > first)) {
            return Err(Error::from_raw_os_error(self.code.get()));
        }
        Ok(())
    }
}

/// The files of the system under a plan.
#[derive(Clone, Copy)]
pub struct Planned<'a> {
    pub rt: HostRuntime,
    pub plan: &'a Plan,
}

/// An open file under a plan.
#[derive(Drop)]
pub struct PlannedFile<'a> {
    file: File,
    plan: &'a Plan,
}

impl<'a> Files for Planned<'a> {
    type File = PlannedFile<'a>;

    type Dir = <HostRuntime as Files>::Dir;

    fn open_file(&self, how: &OpenOptions, path: &str) -> io::Result<PlannedFile<'a>> {
        self.plan.call()?;
        Ok(PlannedFile {
            file: self.rt.open_file(how, path)?,
            plan: self.plan,
        })
    }

    fn open_dir(&self, path: &str) -> io::Result<<HostRuntime as Files>::Dir> {
        self.plan.call()?;
        self.rt.open_dir(path)
    }

    fn metadata(&self, path: &str) -> io::Result<Metadata> {
        self.plan.call()?;
        self.rt.metadata(path)
    }

    fn symlink_metadata(&self, path: &str) -> io::Result<Metadata> {
        self.plan.call()?;
        self.rt.symlink_metadata(path)
    }

    fn copy(&self, from: &str, to: &str) -> io::Result<u64> {
        self.plan.call()?;
        self.rt.copy(from, to)
    }

    fn rename(&self, from: &str, to: &str) -> io::Result<()> {
        self.plan.call()?;
        self.rt.rename(from, to)
    }

    fn remove_file(&self, path: &str) -> io::Result<()> {
        self.plan.call()?;
        self.rt.remove_file(path)
    }

    fn create_dir(&self, path: &str) -> io::Result<()> {
        self.plan.call()?;
        self.rt.create_dir(path)
    }

    fn create_dir_with_mode(&self, path: &str, mode: u32) -> io::Result<()> {
        self.plan.call()?;
        self.rt.create_dir_with_mode(path, mode)
    }

    fn set_permissions(&self, path: &str, perm: Permissions) -> io::Result<()> {
        self.plan.call()?;
        self.rt.set_permissions(path, perm)
    }

    fn remove_dir(&self, path: &str) -> io::Result<()> {
        self.plan.call()?;
        self.rt.remove_dir(path)
    }

    fn remove_dir_all<B: Allocator>(&self, alloc: B, path: &str) -> io::Result<()> {
        self.plan.call()?;
        self.rt.remove_dir_all(alloc, path)
    }
}

impl Read for PlannedFile<'_> {
    fn read(&mut self, buf: &mut [u8]) -> io::Result<usize> {
        self.plan.call()?;
        self.file.read(buf)
    }
}

impl Write for PlannedFile<'_> {
    fn write(&mut self, buf: &[u8]) -> io::Result<usize> {
        if let Err(e) = self.plan.call() {
            let (half, _) = buf.split_at(buf.len() / 2);
            let _written = self.file.write(half);
            return Err(e);
        }
        self.file.write(buf)
    }

    fn flush(&mut self) -> io::Result<()> {
        Ok(())
    }
}

impl Seek for PlannedFile<'_> {
    fn seek(&mut self, to: SeekFrom) -> io::Result<u64> {
        self.plan.call()?;
        self.file.seek(to)
    }
}

impl OpenFile for PlannedFile<'_> {
    fn metadata(&self) -> io::Result<Metadata> {
        self.plan.call()?;
        self.file.metadata()
    }

    fn set_len(&self, size: u64) -> io::Result<()> {
        self.plan.call()?;
        self.file.set_len(size)
    }

    fn sync_all(&self) -> io::Result<()> {
        self.plan.call()?;
        self.file.sync_all()
    }

    fn sync_data(&self) -> io::Result<()> {
        self.plan.call()?;
        self.file.sync_data()
    }
}

impl TryLock for PlannedFile<'_> {
    fn try_hold(&self) -> io::Result<bool> {
        self.plan.call()?;
        self.file.try_hold()
    }
}

//! The reasons why a directory can't be used, or a call on it failed.
use std::alloc::{AllocError, AllocFailed};
use std::io;
use std::io::ErrorKind;
use thiserror::Error;

// The number of the system for a device that can't be read.
const EIO: i32 = 5;

/// The reason why a directory can't be used.
#[derive(Debug, Drop, Error)]
pub enum DiskError {
    /// There is not enough memory.
    #[error("out of memory")]
    Memory,
    /// Another process uses the directory.
    #[error("another process uses the directory")]
    Busy,
    /// There is a file in place of the directory.
    #[error("a file, and no directory")]
    NoDirectory,
    /// There is a sqlite file of an earlier version in place of the directory.
    #[error("a sqlite file, as earlier versions used; remove it, and name a directory")]
    Earlier,
    /// The directory has a file of another program, with this name, and none of a store.
    #[error("the directory of another program, with the file {0}")]
    Foreign(String),
    /// The directory is of a version that isn't known here.
    #[error("the directory of another version, or of another program with a file named lock")]
    Version,
    /// The system has no random bytes.
    #[error("the system has no random bytes")]
    NoKeys,
    /// The file of the response with this number can't be read now.
    #[error("file {0:016x} can't be read")]
    Unreadable(u64),
    /// Some files could be neither removed nor emptied.
    #[error("some files can't be removed")]
    Stuck,
    /// The system refused a call.
    #[error("{0}")]
    Disc(io::Error),
}

impl From<AllocError> for DiskError {
    fn from(_e: AllocError) -> DiskError {
        DiskError::Memory
    }
}

impl<T: Drop> From<AllocFailed<T>> for DiskError {
    fn from(_e: AllocFailed<T>) -> DiskError {
        DiskError::Memory
    }
}

impl From<io::Error> for DiskError {
    fn from(e: io::Error) -> DiskError {
        match e.kind() {
            ErrorKind::OutOfMemory => DiskError::Memory,
            _ => DiskError::Disc(e),
        }
    }
}

/// The reason why a file can't be read or written.
#[derive(Clone, Copy)]
pub(crate) enum Fault {
    /// There is not enough memory.
    Memory,
    /// The file isn't there or can't be read, and will not be.
    Lost,
    /// The system refused the call. A later one may succeed.
    Refused,
}

impl From<AllocError> for Fault {
    fn from(_e: AllocError) -> Fault {
        Fault::Memory
    }
}

impl<T: Drop> From<AllocFailed<T>> for Fault {
    fn from(_e: AllocFailed<T>) -> Fault {
        Fault::Memory
    }
}

impl From<io::Error> for Fault {
    fn from(e: io::Error) -> Fault {
        match e.kind() {
            ErrorKind::OutOfMemory => Fault::Memory,
            ErrorKind::NotFound | ErrorKind::UnexpectedEof => Fault::Lost,
            _ if e.raw_os_error() == Some(EIO) => Fault::Lost,
            _ => Fault::Refused,
        }
    }
}

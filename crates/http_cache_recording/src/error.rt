//! Why a recording can't be read.
ghost use Rattle.std.specs.Prelude.{◌≡◌};
ghost use Rattle.http_cache_recording.specs.declared.error.ReadingError.TheVariants.{Memory};

use std::alloc::{AllocError, AllocFailed};
use thiserror::Error;

/// Why a recording can't be read.
#[derive(Clone, Copy, Debug, PartialEq, Eq, Error)]
pub enum ReadingError {
    /// The allocator is out of memory.
    #[error("recording: out of memory")]
    Memory,
    /// There are no bytes.
    #[error("recording: empty")]
    Empty,
    /// The bytes are compressed by gzip or zlib.
    #[error("recording: compressed; unpack it first, as by gunzip")]
    Compressed,
    /// The bytes are text in UTF-16.
    #[error("recording: UTF-16; save it as UTF-8 first")]
    Utf16,
    /// The bytes are no JSON text in UTF-8.
    #[error("recording: not JSON at line {line}, column {column}")]
    NotJson {
        /// The line at which the text stops being JSON, from 1.
        line: usize,
        /// The byte of that line at which it stops, from 1; the last one if the text ends early.
        column: usize,
    },
    /// The text nests more than 127 lists and objects.
    #[error("recording: nested too deeply at line {line}, column {column}")]
    TooDeep {
        /// The line at which it nests too deeply, from 1.
        line: usize,
        /// The byte of that line, from 1.
        column: usize,
    },
    /// A number is too great to be read.
    #[error("recording: a number out of range at line {line}, column {column}")]
    NumberOutOfRange {
        /// The line of the number, from 1.
        line: usize,
        /// The byte of that line, from 1.
        column: usize,
    },
    /// The text has no list of entries.
    #[error("recording: no list of entries at log.entries, nor at entries")]
    NoEntries,
}

impl From<AllocError> for ReadingError {
    ghost from_gives = { λ _ e. e ≡ Memory };

    fn from(_e: AllocError) -> ReadingError {
        ReadingError::Memory
    }
}

impl<T: Drop> From<AllocFailed<T>> for ReadingError {
    ghost from_gives = { λ _ e. e ≡ Memory };

    fn from(_e: AllocFailed<T>) -> ReadingError {
        ReadingError::Memory
    }
}

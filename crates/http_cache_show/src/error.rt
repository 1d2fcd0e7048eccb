//! The reasons why a recording isn't audited.
use http_cache_recording::ReadingError;
use http_cache_recording::heads::HeadsError;
use std::alloc::AllocError;
use thiserror::Error;

/// A value, unless there is not enough memory for it.
pub type Fallible<T> = Result<T, AllocError>;

/// The reason why a recording isn't audited.
#[derive(Debug, Drop, Error)]
pub enum AuditError {
    /// The reader failed.
    #[error("recording: not readable")]
    NotReadable,
    /// The input is longer than a gibibyte.
    #[error("recording: longer than 1 GiB")]
    TooLong,
    /// The input is no recording.
    #[error("{0}")]
    Recording(ReadingError),
    /// The input begins like heads of responses, and can't be read as such.
    #[error("heads: {0}")]
    Heads(HeadsError),
    /// There is not enough memory.
    #[error("out of memory")]
    Memory,
    /// The writer failed.
    #[error("output: not written")]
    NotWritten,
}

impl AuditError {
    /// Returns the exit status: 2 if the input is at fault, 3 if memory or the output is.
    pub fn exit_status(&self) -> u8 {
        match self {
            AuditError::Recording(ReadingError::Memory)
            | AuditError::Heads(HeadsError::Memory)
            | AuditError::Memory
            | AuditError::NotWritten => 3,
            AuditError::NotReadable
            | AuditError::TooLong
            | AuditError::Recording(_)
            | AuditError::Heads(_) => 2,
        }
    }
}

//! Why a head can't be read or written.
ghost use Rattle.std.specs.Prelude.{◌≡◌};
ghost use Rattle.http_heads.specs.declared.error.HeadError.TheVariants.{Memory};

use std::alloc::AllocError;
use thiserror::Error;

/// Why a head can't be read or written.
#[derive(Clone, Copy, Debug, PartialEq, Eq, Error)]
pub enum HeadError {
    /// The allocator is out of memory.
    #[error("out of memory")]
    Memory,
    /// The bytes aren't the head of a message, or more bytes follow it.
    #[error("not the head of a message")]
    Malformed,
    /// The head has more names or values than a header map can hold.
    #[error("header map full")]
    HeaderMapFull,
}

impl From<AllocError> for HeadError {
    ghost from_gives = { λ _ e. e ≡ Memory };

    fn from(_e: AllocError) -> HeadError {
        HeadError::Memory
    }
}

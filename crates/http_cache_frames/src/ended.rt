//! The ways in which serving frames ends.
ghost use Rattle.std.specs.Prelude.{◌≡◌};
ghost use Rattle.http_cache_frames.specs.declared.ended.Ended.TheVariants.{NoMemory};

use crate::front::NoFrame;
use std::alloc::AllocError;

/// The way in which serving frames ended.
#[derive(Clone, Copy, Debug, PartialEq, Eq)]
pub enum Ended {
    /// By `quit`, or by the end of the input after a whole frame.
    Well,
    /// By input that is no frame.
    Broken(NoFrame),
    /// By input that can't be read.
    NotReadable,
    /// By output that can't be written.
    NotWritten,
    /// By a lack of memory for a frame, or for a reply after a change.
    NoMemory,
}

impl From<AllocError> for Ended {
    ghost from_gives = { λ _ e. e ≡ NoMemory };

    fn from(_e: AllocError) -> Ended {
        Ended::NoMemory
    }
}

//! The reasons why a frame isn't answered as it asks.
use http_cache_fields::CacheError;
use http_cache_frames::Reason;
use http_heads::HeadError;
use std::alloc::AllocError;

/// The reason why a frame isn't answered as it asks.
#[derive(Clone, Copy, Debug, PartialEq, Eq)]
pub enum Fault {
    /// The frame is refused, and nothing is changed.
    Refused(Reason),
    /// There is no memory for a reply after something was changed.
    Lost,
}

impl From<AllocError> for Fault {
    fn from(_e: AllocError) -> Fault {
        Fault::Refused(Reason::Memory)
    }
}

impl From<CacheError> for Fault {
    fn from(e: CacheError) -> Fault {
        Fault::Refused(match e {
            CacheError::HeaderMapFull => Reason::FullHead,
            _ => Reason::Memory,
        })
    }
}

impl From<HeadError> for Fault {
    fn from(e: HeadError) -> Fault {
        Fault::Refused(match e {
            HeadError::Memory => Reason::Memory,
            HeadError::Malformed => Reason::MalformedHead,
            HeadError::HeaderMapFull => Reason::FullHead,
        })
    }
}

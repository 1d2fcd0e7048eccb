//! The ways in which the process ends.
use http_cache_frames::Ended;
use std::alloc::AllocError;

/// The way in which the process ends.
#[derive(Clone, Copy, Debug, PartialEq, Eq)]
pub enum End {
    /// Serving frames ended.
    Served(Ended),
    /// The system has no random bytes.
    NoKeys,
    /// The directory can't be used. Standard error has the reason.
    NotOpened,
    /// The directory can't be closed. Standard error has the reason.
    NotClosed,
}

impl From<AllocError> for End {
    fn from(_e: AllocError) -> End {
        End::Served(Ended::NoMemory)
    }
}

impl End {
    /// Returns the exit status.
    pub fn exit_status(self) -> u8 {
        match self {
            End::Served(Ended::Well) => 0,
            End::Served(Ended::Broken(_)) => 2,
            End::Served(Ended::NotReadable) | End::NoKeys => 3,
            End::Served(Ended::NotWritten) => 4,
            End::Served(Ended::NoMemory) => 5,
            End::NotOpened | End::NotClosed => 6,
        }
    }

    /// Returns the line for standard error, if there is one.
    pub fn text(self) -> Option<&'static str> {
        match self {
            End::Served(Ended::Well | Ended::NotWritten) | End::NotOpened | End::NotClosed => None,
            End::Served(Ended::Broken(cause)) => Some(cause.reason().text()),
            End::Served(Ended::NotReadable) => Some("standard input can't be read"),
            End::Served(Ended::NoMemory) => Some("out of memory"),
            End::NoKeys => Some("the system has no random bytes"),
        }
    }
}

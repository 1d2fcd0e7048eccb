//! The interface through which the client sends requests.
ghost use Rattle.std.specs.Prelude.{ℕ, ℤ, List, Option, Some, None, IfOk, OnErr};
ghost use Rattle.http.specs.declared.request.Request.{Request};
ghost use Rattle.http.specs.declared.response.Response.{Response};

use bytes::Bytes;
use http::{Request, Response};
use jiff::Timestamp;
use std::error::Error;
use std::fmt;
use std::fmt::Debug;

/// The reason why a request has no response.
#[derive(Debug, PartialEq, Eq, Drop)]
pub enum FetchError<E> {
    /// There is not enough memory, and nothing was sent. What is stored is unchanged.
    Memory,
    /// A request was sent, but there was not enough memory for its response.
    Lost,
    /// The origin server sent no response, and no stored response may be used instead.
    Origin(E),
}

impl<E: fmt::Display> fmt::Display for FetchError<E> {
    fn fmt<W: fmt::Write>(&self, f: &mut fmt::Formatter<W>) -> fmt::Result {
        match self {
            FetchError::Memory => write!(f, "out of memory"),
            FetchError::Lost => write!(f, "out of memory after a request was sent"),
            FetchError::Origin(cause) => write!(f, "no response: {cause}"),
        }
    }
}

impl<E: Debug + fmt::Display + Drop> Error for FetchError<E> {}

/// Sends requests to the origin server, or to the next cache on the way to it.
pub trait Origin {
    /// The reason why there is no response.
    type Error;

    // The origin is sent the request in the first state, and the second state follows. The outcome
    // is the response with the time of its receipt, or None.
    ghost sent: { Self → Request (List ℕ) → Option (Response (List ℕ) × ℤ) → Self → Type 0 };

    /// Sends a request, and returns its response with the time at which it was received.
    fn send(
        &mut self,
        request: &Request<Bytes>,
    ) -> Result<(Response<Bytes>, Timestamp), Self::Error>
        ensures response { IfOk result (λ received. sent self.old request.now
            (Some (received.0, received.1.nanosecond)) self.new) }
        ensures no_response { OnErr result (sent self.old request.now None self.new) };
}

//! The steps of a run, and their outcomes.
use crate::before::BeforeRequest;
use http::response;
use jiff::Timestamp;

/// The next step with a stored response.
#[derive(Debug, Drop)]
pub enum Step<Req, Res> {
    /// A request is made at a time.
    Ask {
        /// The request.
        request: Req,
        /// The time of the request.
        moment: Timestamp,
    },
    /// A response to a request is received at a time.
    Receive {
        /// The request.
        request: Req,
        /// Its response.
        response: Res,
        /// The time at which the response was received.
        moment: Timestamp,
    },
    /// The policy is written as a JSON value and read back.
    Restart,
}

/// The outcome of a step.
#[derive(Drop)]
pub enum Outcome {
    /// The answer to a request.
    Asked(BeforeRequest),
    /// The stored body is still valid, under this head.
    NotModified(response::Parts),
    /// A new response with this head replaces the stored one.
    Modified(response::Parts),
    /// The policy was read back.
    Restarted,
}

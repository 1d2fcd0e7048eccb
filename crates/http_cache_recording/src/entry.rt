//! The entries of a recording.
use http::{HeaderMap, Method, response};
use jiff::Timestamp;

/// An entry of a recording.
#[derive(Drop)]
pub struct Recorded {
    /// What may be printed of the entry. Nothing in it is a credential.
    pub printed: Printed,
    /// What the entry says, or why it isn't audited.
    pub reading: Reading,
}

/// What may be printed of an entry. Each text has only printable ASCII: other bytes are
/// percent-encoded.
#[derive(Drop)]
pub struct Printed {
    /// The method, if it is a text that isn't empty.
    pub method: Option<String>,
    /// The target, in the form by which targets are compared.
    ///
    /// For an entry that isn't audited, the beginning of its url, after user and password.
    pub url: Option<String>,
    /// The status, or 0.
    pub status: u64,
    /// The browser's name for its own cache that answered, such as `disk` or `firefox`.
    pub browser: Option<String>,
    /// The browser's error, if it is a text that isn't empty.
    pub error: Option<String>,
    /// The bytes that were sent over the network for the response.
    pub sent: u64,
    /// The bytes of its status line and headers, or 0 if they aren't recorded.
    pub head: u64,
    /// The recording's name for the page for which it was loaded.
    pub page: Option<String>,
}

/// The content of an entry, or why it isn't audited.
#[derive(Drop)]
pub enum Reading {
    /// A request, and the response to it.
    Entry(Entry),
    /// Why the entry isn't audited, such as `scheme data` or `no request`.
    Skipped(String),
}

/// A request, and the response to it.
#[derive(Drop)]
pub struct Entry {
    /// How the request is counted.
    pub kind: Kind,
    /// The time at which the request was sent.
    pub started: Timestamp,
    /// The time at which the response was received.
    pub received: Timestamp,
    /// The method of the request.
    pub method: Method,
    /// The headers of the request, without Host.
    pub headers: HeaderMap,
    /// The response, and its origin.
    pub answer: Answer,
    /// The body of the response, if it was recorded.
    pub body: Option<Body>,
}

/// How a request is counted: the first of these that applies.
#[derive(Clone, Copy, PartialEq, Eq)]
pub enum Kind {
    /// The browser made the redirection: the response has `Non-Authoritative-Reason`.
    Internal,
    /// A CORS preflight.
    Preflight,
    /// The method is neither GET nor HEAD, so the request is forwarded.
    Passed,
    /// The request asks for a range, or received one.
    Range,
    /// No whole response was received.
    Failed,
    /// A store could have answered the request.
    Asked,
}

/// The response to a request, and its origin.
#[derive(Drop)]
pub enum Answer {
    /// No response, or only a part of one.
    Failed,
    /// A response from the browser's own cache.
    Cached(response::Parts),
    /// A response from the network.
    Received(response::Parts),
}

/// The recorded body of a response.
#[derive(Drop)]
pub struct Body {
    /// Its text, which isn't empty.
    pub text: String,
    /// The encoding of the bytes in the text, such as `base64`, if it is recorded.
    pub encoding: Option<String>,
}

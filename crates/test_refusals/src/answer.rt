//! Compares what a call returns with what it should return. Nothing here allocates.
//!
//! Only `judged` owns what a call returns, whatever its type, which keeps the proofs of its callers
//! short.
use http::{HeaderMap, request, response};
use http_cache_semantics::chain::Outcome;
use http_cache_semantics::directives::CacheControl;
use http_cache_semantics::{AfterResponse, BeforeRequest, CachePolicy, Choice, NextPolicy};
use jiff::Timestamp;
use std::time::Duration;

/// A result of a call.
pub trait Answer {
    /// The description of the right result.
    type Wanted: Copy;

    /// Returns whether the result is right.
    fn is(&self, wanted: Self::Wanted) -> bool;
}

/// Returns whether a call returned the right result, or its error.
pub fn judged<T: Answer + Drop, E>(answer: Result<T, E>, wanted: T::Wanted) -> Result<bool, E> {
    Ok(answer?.is(wanted))
}

/// The right values of a policy, so many nanoseconds after its response was received.
#[derive(Clone, Copy)]
pub struct Ages {
    /// The nanoseconds.
    pub nanos: u64,
    /// Whether the response may be stored.
    pub is_storable: bool,
    /// The age in nanoseconds.
    pub age: u64,
    /// The remaining lifetime in nanoseconds.
    pub left: u64,
}

/// Returns the time so many nanoseconds after 2024-01-01T00:00:00Z, when the responses were
/// received.
pub fn after(nanos: u64) -> Timestamp {
    let nanos = 1_704_067_200_000_000_000i128.saturating_add(i128::from(nanos));
    Timestamp::from_nanosecond(nanos).unwrap_or(Timestamp::UNIX_EPOCH)
}

impl Answer for CachePolicy {
    type Wanted = Ages;

    fn is(&self, wanted: Ages) -> bool {
        let now = after(wanted.nanos);
        self.is_storable() == wanted.is_storable
            && self.age(now) == Duration::from_nanos(wanted.age)
            && self.time_to_live(now) == Duration::from_nanos(wanted.left)
    }
}

// The last of four caches in a row.
impl Answer for Vec<CachePolicy> {
    type Wanted = Ages;

    fn is(&self, wanted: Ages) -> bool {
        match self.as_slice() {
            [_, _, _, last] => last.is(wanted),
            _ => false,
        }
    }
}

impl Answer for NextPolicy {
    type Wanted = Ages;

    fn is(&self, wanted: Ages) -> bool {
        self.not_modified && self.policy.is(wanted)
    }
}

impl Answer for String {
    type Wanted = &'static str;

    fn is(&self, wanted: &'static str) -> bool {
        self.as_str() == wanted
    }
}

impl Answer for Option<String> {
    type Wanted = &'static str;

    fn is(&self, wanted: &'static str) -> bool {
        match self {
            Some(text) => text.as_str() == wanted,
            None => false,
        }
    }
}

fn has_directive(read: &CacheControl, line: &str) -> bool {
    match line.split_once('=') {
        Some((name, value)) => read.get(name) == Some(Some(value)),
        None => read.get(line) == Some(None),
    }
}

// The directives on the lines of a text, and no others.
impl Answer for CacheControl {
    type Wanted = &'static str;

    fn is(&self, wanted: &'static str) -> bool {
        self.len() == wanted.lines().count() && wanted.lines().all(|line| has_directive(self, line))
    }
}

fn has_line(headers: &HeaderMap, line: &str) -> bool {
    match line.split_once(": ") {
        Some((name, value)) => {
            let mut values = headers.get_all(name).iter();
            values.any(|it| it.as_bytes() == value.as_bytes())
        }
        None => false,
    }
}

// It has no other lines.
fn has_lines(headers: &HeaderMap, lines: &str) -> bool {
    headers.len() == lines.lines().count() && lines.lines().all(|line| has_line(headers, line))
}

impl Answer for HeaderMap {
    type Wanted = &'static str;

    fn is(&self, wanted: &'static str) -> bool {
        has_lines(self, wanted)
    }
}

fn first_line(text: &str) -> (&str, &str) {
    text.split_once('\n').unwrap_or((text, ""))
}

// The text begins with a word and the status, and then has the lines of the headers.
fn is_response(parts: &response::Parts, word: &str, wanted: &str) -> bool {
    let (first, lines) = first_line(wanted);
    match first.rsplit_once(' ') {
        Some((kind, status)) => {
            kind == word && status == parts.status.as_str() && has_lines(&parts.headers, lines)
        }
        None => false,
    }
}

// The text begins with a word, and then has the lines of the headers. The request is a GET for
// `/a`.
fn is_request(parts: &request::Parts, word: &str, wanted: &str) -> bool {
    let (first, lines) = first_line(wanted);
    first == word
        && parts.method.as_str() == "GET"
        && parts.uri.path() == "/a"
        && has_lines(&parts.headers, lines)
}

impl Answer for response::Parts {
    type Wanted = &'static str;

    fn is(&self, wanted: &'static str) -> bool {
        is_response(self, "sent", wanted)
    }
}

fn stale_word(matches: bool) -> &'static str {
    if matches { "stale" } else { "unmatched" }
}

impl Answer for BeforeRequest {
    type Wanted = &'static str;

    fn is(&self, wanted: &'static str) -> bool {
        match self {
            BeforeRequest::Fresh(parts) => is_response(parts, "fresh", wanted),
            BeforeRequest::Stale { request, matches } => {
                is_request(request, stale_word(*matches), wanted)
            }
        }
    }
}

impl Answer for AfterResponse {
    type Wanted = (Ages, &'static str);

    fn is(&self, wanted: (Ages, &'static str)) -> bool {
        match self {
            AfterResponse::NotModified(policy, parts) => {
                policy.is(wanted.0) && is_response(parts, "not modified", wanted.1)
            }
            AfterResponse::Modified(policy, parts) => {
                policy.is(wanted.0) && is_response(parts, "modified", wanted.1)
            }
        }
    }
}

// An index, and the lines of the answer.
impl Answer for Choice {
    type Wanted = (usize, &'static str);

    fn is(&self, wanted: (usize, &'static str)) -> bool {
        match self {
            Choice::Fresh { place, parts } => {
                *place == wanted.0 && is_response(parts, "fresh", wanted.1)
            }
            Choice::Validate { place, request } => {
                *place == wanted.0 && is_request(request, "stale", wanted.1)
            }
            Choice::Nothing => wanted.1 == "nothing",
        }
    }
}

impl Answer for Outcome {
    type Wanted = &'static str;

    fn is(&self, wanted: &'static str) -> bool {
        match self {
            Outcome::Asked(answer) => answer.is(wanted),
            Outcome::NotModified(parts) => is_response(parts, "not modified", wanted),
            Outcome::Modified(parts) => is_response(parts, "modified", wanted),
            Outcome::Restarted => wanted == "restarted",
        }
    }
}

impl Answer for Vec<Outcome> {
    type Wanted = &'static [&'static str];

    fn is(&self, wanted: &'static [&'static str]) -> bool {
        self.len() == wanted.len()
            && self
                .iter()
                .zip(wanted)
                .all(|(outcome, wanted)| outcome.is(*wanted))
    }
}

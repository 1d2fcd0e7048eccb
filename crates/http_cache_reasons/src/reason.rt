//! Why a stored response isn't used for a request without validation.
use http_cache_rules::freshness::Freshness;
use std::fmt;
use std::time::Duration;

/// Why a stored response isn't used without validation: the first of these reasons that applies.
#[derive(Clone, Copy, Debug, PartialEq, Eq)]
pub enum Reason<'a> {
    /// The request has another target URI.
    Target,
    /// The request has another Host, or one of the two requests has none.
    Host,
    /// One of the two methods is GET, and the other HEAD.
    OtherOfGetAndHead,
    /// The request has another method.
    Method,
    /// The request has another first value under this name of Vary, or Vary has `*` (RFC 7234,
    /// section 4.1).
    Vary(&'a str),
    /// The request has `no-cache` (RFC 7234, section 5.2.1.4).
    NoCache,
    /// The request's first Pragma has `no-cache` (RFC 7234, section 5.4).
    Pragma,
    /// The age exceeds the seconds of the request's `max-age` (RFC 7234, section 5.2.1.1).
    MaxAge(u64),
    /// The remaining lifetime is less than the request's `min-fresh` (RFC 7234, section 5.2.1.3).
    MinFresh(u64),
    /// The response is stale, and `max-stale` doesn't allow it (RFC 7234, section 4.2.4).
    Stale(StaleReason),
}

/// Why `max-stale` doesn't allow a stale response: the first of these reasons that applies.
#[derive(Clone, Copy, Debug, PartialEq, Eq)]
pub enum StaleReason {
    /// The request has no `max-stale`.
    NotAsked,
    /// The response may not be stored.
    NotStorable,
    /// The response has `must-revalidate` (RFC 7234, section 5.2.2.1).
    MustRevalidate,
    /// The response has `no-cache` (RFC 7234, section 5.2.2.2).
    NoCache,
    /// The response has been stale for at least these seconds of `max-stale` (RFC 7234, section
    /// 5.2.1.2).
    TooStale(u64),
}

/// Whether a stored response is used without validation at a time, and why not.
///
/// Its text has the age in whole seconds and the source of the lifetime: `stale: age 12 s,
/// max-age=10`.
#[derive(Clone, Copy, Debug, PartialEq, Eq)]
pub struct Explanation<'a> {
    /// Why the response isn't used, or `None` for a hit.
    pub reason: Option<Reason<'a>>,
    /// The age of the response at that time.
    pub age: Duration,
    /// The freshness lifetime and its source.
    pub freshness: Freshness,
}

impl fmt::Display for StaleReason {
    ghost use Rattle.std.specs.Prelude.{Some};
    ghost use Rattle.http_cache_reasons.specs.ReasonText.{stale_text};

    ghost output = { λ why. Some (stale_text why) };

    fn fmt<W: fmt::Write>(&self, f: &mut fmt::Formatter<W>) -> fmt::Result {
        match self {
            StaleReason::NotAsked => write!(f, "stale"),
            StaleReason::NotStorable => write!(f, "stale, max-stale but not storable"),
            StaleReason::MustRevalidate => write!(f, "stale, max-stale but must-revalidate"),
            StaleReason::NoCache => write!(f, "stale, max-stale but no-cache"),
            StaleReason::TooStale(seconds) => write!(f, "stale past max-stale={seconds}"),
        }
    }
}

impl fmt::Display for Reason<'_> {
    ghost use Rattle.std.specs.Prelude.{Some};
    ghost use Rattle.http_cache_reasons.specs.Reason.{reason_seen};
    ghost use Rattle.http_cache_reasons.specs.ReasonText.{reason_text};

    ghost output = { λ reason. Some (reason_text (reason_seen reason)) };

    fn fmt<W: fmt::Write>(&self, f: &mut fmt::Formatter<W>) -> fmt::Result {
        match self {
            Reason::Target => write!(f, "other target"),
            Reason::Host => write!(f, "other Host"),
            Reason::OtherOfGetAndHead => write!(f, "other one of GET and HEAD"),
            Reason::Method => write!(f, "other method"),
            Reason::Vary(name) => write!(f, "Vary {name}"),
            Reason::NoCache => write!(f, "request no-cache"),
            Reason::Pragma => write!(f, "request Pragma no-cache"),
            Reason::MaxAge(seconds) => write!(f, "request max-age={seconds}"),
            Reason::MinFresh(seconds) => write!(f, "request min-fresh={seconds}"),
            Reason::Stale(why) => write!(f, "{why}"),
        }
    }
}

impl fmt::Display for Explanation<'_> {
    ghost use Rattle.std.specs.Prelude.{Some};
    ghost use Rattle.http_cache_reasons.specs.Reason.{explanation_seen};
    ghost use Rattle.http_cache_reasons.specs.ReasonText.{explanation_text};

    ghost output = { λ x. Some (explanation_text (explanation_seen x)) };

    fn fmt<W: fmt::Write>(&self, f: &mut fmt::Formatter<W>) -> fmt::Result {
        let age = self.age.as_secs();
        let freshness = self.freshness;
        match self.reason {
            None => write!(f, "hit: age {age} s, {freshness}"),
            Some(reason) => write!(f, "{reason}: age {age} s, {freshness}"),
        }
    }
}

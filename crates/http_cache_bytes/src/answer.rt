//! Decides what a cache does with a request, and explains it.
ghost use Rattle.std.specs.Prelude.{◌≡◌, ◌≢◌, ◌⊎◌, Err, IfOk, IsErrOf, IsOkUnless, string_bytes};
ghost use Rattle.http_heads.specs.Heads.{IsNoRequest, OverfillsRequest};
ghost use Rattle.http_cache_semantics.specs.Messages.{request_seen};
ghost use Rattle.http_cache_semantics.specs.Explain.{explanation};
ghost use Rattle.http_cache_semantics.specs.CacheStatus.{cache_status};
ghost use Rattle.http_cache_semantics.specs.Refused.{RefusesAnswer, HasUndatedAnswer};
ghost use Rattle.http_cache_bytes.specs.Cause.{ForRequest, ForAsked, IsUnasked};
ghost use Rattle.http_cache_bytes.specs.Answer.{IsSentFor, IsAnswerTo};

use crate::form::policy_in;
use crate::heads::request_in;
use http::request;
use http_cache_semantics::{BeforeRequest, CacheError, CachePolicy};
use http_heads::{bytes_of_request, bytes_of_response};
use jiff::Timestamp;
use std::alloc::Global;
use std::hash::RandomState;

/// What a cache does with a request.
#[derive(Clone, Copy, Debug, PartialEq, Eq)]
pub enum Verdict {
    /// The stored response is sent.
    Fresh,
    /// The stored response is validated at the origin server.
    Validate,
    /// The request is forwarded, since the stored response doesn't match it.
    Forward,
}

/// What a cache does with a request, and the head that it sends.
#[derive(Drop)]
pub struct Answer {
    /// What the cache does.
    pub verdict: Verdict,
    /// The head that the cache sends: of the response if it is fresh, else of the request to send.
    pub head: Vec<u8>,
}

fn bytes_of_answer(alloc: Global, answer: &BeforeRequest) -> Result<Answer, CacheError>
    ensures sent { IfOk result (IsSentFor answer.now) }
    ensures only_memory { IsOkUnless result CacheError.Memory }
{
    Ok(match answer {
        BeforeRequest::Fresh(parts) => Answer {
            verdict: Verdict::Fresh,
            head: bytes_of_response(alloc, parts)?,
        },
        BeforeRequest::Stale { request, matches } => Answer {
            verdict: if *matches {
                Verdict::Validate
            } else {
                Verdict::Forward
            },
            head: bytes_of_request(alloc, request)?,
        },
    })
}

fn answer_to(
    alloc: Global,
    policy: &CachePolicy,
    request: &request::Parts,
    now: Timestamp,
) -> Result<Answer, CacheError>
    ensures answer { IfOk result
        (IsAnswerTo policy.now (request_seen request.now) now.nanosecond) }
    ensures full { IsErrOf result CacheError.HeaderMapFull
        → RefusesAnswer policy.now (request_seen request.now) now.nanosecond }
    ensures unprintable { IsErrOf result CacheError.DateNotPrintable
        → HasUndatedAnswer policy.now (request_seen request.now) now.nanosecond }
    ensures readable { result ≢ Err CacheError.Malformed }
{
    let answer = policy.before_request(alloc, request, now)?;
    bytes_of_answer(alloc, &answer)
}

fn ask(
    alloc: Global,
    keys: RandomState,
    policy: &CachePolicy,
    request: &[u8],
    now: Timestamp,
) -> Result<Answer, CacheError>
    ensures answer { IfOk result (λ answer. ForRequest request.now (λ asked.
        IsAnswerTo policy.now asked now.nanosecond answer)) }
    ensures malformed { IsErrOf result CacheError.Malformed → IsNoRequest request.now }
    ensures full { IsErrOf result CacheError.HeaderMapFull → OverfillsRequest request.now
        ⊎ ForRequest request.now (λ asked. RefusesAnswer policy.now asked now.nanosecond) }
    ensures unprintable { IsErrOf result CacheError.DateNotPrintable
        → ForRequest request.now (λ asked. HasUndatedAnswer policy.now asked now.nanosecond) }
{
    let request = request_in(alloc, keys, request)?;
    answer_to(alloc, policy, &request, now)
}

/// Returns what a cache with a stored response does with a request at `now`, and the head that it
/// sends (RFC 7234, section 4).
///
/// # Errors
///
/// - `Malformed` if `stored` is no stored form or `request` no head of a request.
/// - `HeaderMapFull` if a header map can't hold the fields of the request, or of what is sent.
/// - `DateNotPrintable` if the response is fresh and `now` is before 1900.
/// - `Memory` if there is not enough memory.
pub fn before(
    alloc: Global,
    keys: RandomState,
    stored: &[u8],
    request: &[u8],
    now: Timestamp,
) -> Result<Answer, CacheError>
    ensures answer { IfOk result (λ answer. ForAsked stored.now request.now (λ e asked.
        IsAnswerTo e asked now.nanosecond answer)) }
    ensures malformed { IsErrOf result CacheError.Malformed → IsUnasked stored.now request.now }
    ensures full { IsErrOf result CacheError.HeaderMapFull → OverfillsRequest request.now
        ⊎ ForAsked stored.now request.now (λ e asked. RefusesAnswer e asked now.nanosecond) }
    ensures unprintable { IsErrOf result CacheError.DateNotPrintable
        → ForAsked stored.now request.now (λ e asked. HasUndatedAnswer e asked now.nanosecond) }
{
    let policy = policy_in(alloc, stored)?;
    ask(alloc, keys, &policy, request, now)
}

fn explain_to(
    alloc: Global,
    keys: RandomState,
    policy: &CachePolicy,
    request: &[u8],
    now: Timestamp,
    name: &str,
) -> Result<String, CacheError>
    ensures member { IfOk result (λ text. ForRequest request.now (λ asked. string_bytes text
        ≡ cache_status name.now (explanation policy.now asked now.nanosecond))) }
    ensures malformed { IsErrOf result CacheError.Malformed → IsNoRequest request.now }
    ensures full { IsErrOf result CacheError.HeaderMapFull → OverfillsRequest request.now }
    ensures printable { result ≢ Err CacheError.DateNotPrintable }
{
    let request = request_in(alloc, keys, request)?;
    policy.explain(&request, now).cache_status(alloc, name)
}

/// Returns the member of Cache-Status that says why a cache uses the stored response for a request
/// at `now`, or why not (RFC 9211, section 2).
///
/// # Errors
///
/// - `Malformed` if `stored` is no stored form or `request` no head of a request.
/// - `HeaderMapFull` if a header map can't hold the fields of the request.
/// - `Memory` if there is not enough memory.
pub fn explain(
    alloc: Global,
    keys: RandomState,
    stored: &[u8],
    request: &[u8],
    now: Timestamp,
    name: &str,
) -> Result<String, CacheError>
    ensures member { IfOk result (λ text. ForAsked stored.now request.now (λ e asked.
        string_bytes text ≡ cache_status name.now (explanation e asked now.nanosecond))) }
    ensures malformed { IsErrOf result CacheError.Malformed → IsUnasked stored.now request.now }
    ensures full { IsErrOf result CacheError.HeaderMapFull → OverfillsRequest request.now }
    ensures printable { result ≢ Err CacheError.DateNotPrintable }
{
    let policy = policy_in(alloc, stored)?;
    explain_to(alloc, keys, &policy, request, now, name)
}

//! Decides what is stored and sent after the origin server has responded.
ghost use Rattle.std.specs.Prelude.{◌≡◌, ◌≢◌, ◌⊎◌, Err, IfOk, IsErrOf, IsOkUnless};
ghost use Rattle.http_heads.specs.Heads.{IsNoResponse, OverfillsResponse};
ghost use Rattle.http_heads.specs.Texts.{response_text};
ghost use Rattle.http_cache_semantics.specs.Messages.{request_seen, response_seen};
ghost use Rattle.http_cache_semantics.specs.Fresh.{RefusesFreshHeaders, HasNoDate};
ghost use Rattle.http_cache_semantics.specs.Answer.{is_not_modified, policy_in, parts_in};
ghost use Rattle.http_cache_semantics.specs.Kept.{kept_exchange};
ghost use Rattle.http_cache_semantics.specs.Update.{next_exchange};
ghost use Rattle.http_cache_bytes.specs.Cause.{ForResponse, ForExchange, ForReceived, IsNoExchange, OverfillsExchange};
ghost use Rattle.http_cache_bytes.specs.Form.{IsNoForm, IsStoredFor};
ghost use Rattle.http_cache_bytes.specs.Next.{IsNextFor};

use crate::form::{Form, Stored, policy_in, stored_of};
use crate::heads::{request_in, response_in};
use http::{request, response};
use http_cache_semantics::{AfterResponse, CacheError, CachePolicy};
use http_heads::bytes_of_response;
use jiff::Timestamp;
use std::alloc::Global;
use std::hash::RandomState;

/// What is stored after the origin server has responded, and the head for the client.
#[derive(Drop)]
pub struct Next {
    /// Whether the stored body is still the body of the response.
    pub not_modified: bool,
    /// The policy to store.
    pub stored: Stored,
    /// The head of the response for the client.
    pub head: Vec<u8>,
}

fn next_of(
    alloc: Global,
    form: Form,
    not_modified: bool,
    policy: &CachePolicy,
    parts: &response::Parts,
) -> Result<Next, CacheError>
    requires { kept_exchange policy.now ≡ policy.now }
    ensures next { IfOk result (λ next. (next.not_modified ≡ not_modified)
        × IsStoredFor policy.now next.stored × (next.head.items ≡ response_text parts.now)) }
    ensures only_memory { IsOkUnless result CacheError.Memory }
{
    let stored = stored_of(alloc, form, policy)?;
    let head = bytes_of_response(alloc, parts)?;
    Ok(Next {
        not_modified,
        stored,
        head,
    })
}

fn bytes_of_next(alloc: Global, form: Form, answer: &AfterResponse) -> Result<Next, CacheError>
    requires { kept_exchange (policy_in answer.now) ≡ policy_in answer.now }
    ensures next { IfOk result (λ next. (next.not_modified ≡ is_not_modified answer.now)
        × IsStoredFor (policy_in answer.now) next.stored
        × (next.head.items ≡ response_text (parts_in answer.now))) }
    ensures only_memory { IsOkUnless result CacheError.Memory }
{
    match answer {
        AfterResponse::NotModified(next, parts) => next_of(alloc, form, true, next, parts),
        AfterResponse::Modified(next, parts) => next_of(alloc, form, false, next, parts),
    }
}

fn received(
    alloc: Global,
    form: Form,
    policy: &CachePolicy,
    request: &request::Parts,
    response: &response::Parts,
    now: Timestamp,
) -> Result<Next, CacheError>
    ensures next { IfOk result (IsNextFor policy.now (request_seen request.now)
        (response_seen response.now) now.nanosecond) }
    ensures full { IsErrOf result CacheError.HeaderMapFull
        → RefusesFreshHeaders (next_exchange policy.now (request_seen request.now)
        (response_seen response.now) now.nanosecond) now.nanosecond }
    ensures unprintable { IsErrOf result CacheError.DateNotPrintable
        → HasNoDate (next_exchange policy.now (request_seen request.now)
        (response_seen response.now) now.nanosecond) now.nanosecond }
    ensures readable { result ≢ Err CacheError.Malformed }
{
    let answer = policy.after_response(alloc, request, response, now)?;
    bytes_of_next(alloc, form, &answer)
}

fn receive(
    alloc: Global,
    keys: RandomState,
    form: Form,
    policy: &CachePolicy,
    request: &request::Parts,
    response: &[u8],
    now: Timestamp,
) -> Result<Next, CacheError>
    ensures next { IfOk result (λ next. ForResponse response.now (λ answered.
        IsNextFor policy.now (request_seen request.now) answered now.nanosecond next)) }
    ensures malformed { IsErrOf result CacheError.Malformed → IsNoResponse response.now }
    ensures full { IsErrOf result CacheError.HeaderMapFull → OverfillsResponse response.now
        ⊎ ForResponse response.now (λ answered. RefusesFreshHeaders (next_exchange policy.now
        (request_seen request.now) answered now.nanosecond) now.nanosecond) }
    ensures unprintable { IsErrOf result CacheError.DateNotPrintable
        → ForResponse response.now (λ answered. HasNoDate (next_exchange policy.now
        (request_seen request.now) answered now.nanosecond) now.nanosecond) }
{
    let response = response_in(alloc, keys, response)?;
    received(alloc, form, policy, request, &response, now)
}

fn receive_for(
    alloc: Global,
    keys: RandomState,
    form: Form,
    policy: &CachePolicy,
    request: &[u8],
    response: &[u8],
    now: Timestamp,
) -> Result<Next, CacheError>
    ensures next { IfOk result (λ next. ForExchange request.now response.now (λ asked answered.
        IsNextFor policy.now asked answered now.nanosecond next)) }
    ensures malformed { IsErrOf result CacheError.Malformed
        → IsNoExchange request.now response.now }
    ensures full { IsErrOf result CacheError.HeaderMapFull
        → OverfillsExchange request.now response.now
        ⊎ ForExchange request.now response.now (λ asked answered. RefusesFreshHeaders
        (next_exchange policy.now asked answered now.nanosecond) now.nanosecond) }
    ensures unprintable { IsErrOf result CacheError.DateNotPrintable
        → ForExchange request.now response.now (λ asked answered. HasNoDate
        (next_exchange policy.now asked answered now.nanosecond) now.nanosecond) }
{
    let request = request_in(alloc, keys, request)?;
    receive(alloc, keys, form, policy, &request, response, now)
}

/// Returns what to store after the origin server has responded to a request at `now`, and the head
/// for the client (RFC 7234, section 4.3.4).
///
/// # Errors
///
/// - `Malformed` if `stored` is no stored form, `request` no head of a request or `response` no
///   head of a response.
/// - `HeaderMapFull` if a header map can't hold the fields of a head or of what is sent.
/// - `DateNotPrintable` if `now` is before 1900.
/// - `Memory` if there is not enough memory.
pub fn after(
    alloc: Global,
    keys: RandomState,
    form: Form,
    stored: &[u8],
    request: &[u8],
    response: &[u8],
    now: Timestamp,
) -> Result<Next, CacheError>
    ensures next { IfOk result (λ next. ForReceived stored.now request.now response.now
        (λ e asked answered. IsNextFor e asked answered now.nanosecond next)) }
    ensures malformed { IsErrOf result CacheError.Malformed
        → IsNoForm stored.now ⊎ IsNoExchange request.now response.now }
    ensures full { IsErrOf result CacheError.HeaderMapFull
        → OverfillsExchange request.now response.now
        ⊎ ForReceived stored.now request.now response.now (λ e asked answered.
        RefusesFreshHeaders (next_exchange e asked answered now.nanosecond) now.nanosecond) }
    ensures unprintable { IsErrOf result CacheError.DateNotPrintable
        → ForReceived stored.now request.now response.now (λ e asked answered.
        HasNoDate (next_exchange e asked answered now.nanosecond) now.nanosecond) }
{
    let policy = policy_in(alloc, stored)?;
    receive_for(alloc, keys, form, &policy, request, response, now)
}

//! What a client reports of an answer in Cache-Status (RFC 9211).
ghost use Rattle.std.specs.Prelude.{◌≡◌, ◌++◌, ℕ, List, IfOk, OnOk, codes, string_bytes};
ghost use Rattle.http.specs.Response.{head_of, body_of};
ghost use Rattle.http_cache_fields.specs.Headers.{Headers, headers_of, values};
ghost use Rattle.http_cache_reasons.specs.Member.{member_seen};
ghost use Rattle.http_cache_decisions.specs.Report.{IsMarkedBy, IsMarked, IsMarkedAs, IsReported};
ghost use Rattle.http_cache_decisions.specs.Report.{earlier_member, earlier_members, cache_status};

use crate::memory::or_out_of_memory;
use bytes::Bytes;
use http::header::{CACHE_STATUS, HeaderValueError};
use http::{HeaderMap, HeaderValue, Response, StatusCode, response};
use http_cache_fields::CacheError;
use http_cache_fields::headers::{contains_key, insert, replace};
use http_cache_policy::explain::{CacheOutcome, Explanation, Forward, Member, TimeLeft};
use std::alloc::{AllocError, Global};

/// The reason why a request is sent, for Cache-Status.
#[derive(Debug, Drop)]
pub struct Why {
    /// The value of `fwd` (RFC 9211, section 2.2).
    pub forward: Forward,
    /// The detail, if there is one.
    pub detail: Option<String>,
}

impl Why {
    /// Returns a reason without a detail.
    pub fn of(forward: Forward) -> Why {
        Why {
            forward,
            detail: None,
        }
    }
}

/// Returns the client's member for a hit.
pub fn hit<'a>(cache: &'a str, left: TimeLeft, detail: Option<&'a str>) -> Member<'a> {
    Member {
        cache,
        outcome: CacheOutcome::Hit,
        forward_status: None,
        stored: false,
        left: Some(left),
        detail,
    }
}

/// Returns the client's member for a response that it makes itself.
pub fn generated<'a>(cache: &'a str, detail: &'a str) -> Member<'a> {
    Member {
        cache,
        outcome: CacheOutcome::Generated,
        forward_status: None,
        stored: false,
        left: None,
        detail: Some(detail),
    }
}

/// Returns the client's member for a request that was sent.
pub fn forwarded<'a>(cache: &'a str, why: &'a Why, status: Option<StatusCode>) -> Member<'a> {
    Member {
        cache,
        outcome: CacheOutcome::Forwarded(why.forward),
        forward_status: status,
        stored: false,
        left: None,
        detail: why.detail.as_deref(),
    }
}

/// Returns why a request is sent, from the explanation of a stored response.
pub fn why_of(alloc: Global, said: &Explanation<'_>) -> Result<Why, AllocError> {
    let forward = match said.outcome() {
        CacheOutcome::Forwarded(forward) => forward,
        CacheOutcome::Hit | CacheOutcome::Generated => Forward::Miss,
    };
    Ok(Why {
        forward,
        detail: or_out_of_memory(said.detail(alloc))?,
    })
}

/// Returns the reason for a request that is sent because the store failed.
pub fn store_failed(alloc: Global) -> Result<Why, AllocError> {
    Ok(Why {
        forward: Forward::Bypass,
        detail: Some(String::from_str(alloc, "store failed")?),
    })
}

// Appends the members on a line of Cache-Status, and a comma.
fn push_member(text: &mut String, value: &HeaderValue) -> Result<(), AllocError>
    ensures { OnOk result (string_bytes text.new
        ≡ string_bytes text.old ++ earlier_member value.now.bytes) }
{
    let Ok(line) = value.to_str() else {
        return Ok(());
    };
    if line.is_empty() {
        return Ok(());
    }
    text.push_str(line)?;
    text.push_str(", ")?;
    Ok(())
}

// Returns the members of earlier caches, each followed by a comma.
fn earlier_members(alloc: Global, headers: &HeaderMap) -> Result<String, AllocError>
    ensures { IfOk result (λ text. string_bytes text
        ≡ earlier_members (values (headers_of headers.now) (codes "cache-status"))) }
{
    let mut text = String::new(alloc);
    for value in headers.get_all(CACHE_STATUS).iter() {
        push_member(&mut text, value)?;
    }
    Ok(text)
}

fn value_of(cache_status: String) -> Result<HeaderValue, AllocError>
    ensures { IfOk result (λ value. value.bytes ≡ string_bytes cache_status) }
{
    match HeaderValue::from_string(cache_status) {
        Ok(value) => Ok(value),
        Err(HeaderValueError::OutOfMemory | HeaderValueError::Invalid) => Err(AllocError),
    }
}

/// Returns Cache-Status on one line, with the member last (RFC 9211, section 2).
pub fn cache_status_of(
    alloc: Global,
    headers: &HeaderMap,
    member: &Member<'_>,
) -> Result<HeaderValue, AllocError>
    ensures { IfOk result (λ value. value.bytes
        ≡ cache_status (headers_of headers.now) (member_seen member.now)) }
{
    let text = or_out_of_memory(member.text(alloc))?;
    let mut cache_status = earlier_members(alloc, headers)?;
    if cache_status.is_empty() {
        return value_of(text);
    }
    cache_status.push_str(text.as_str())?;
    value_of(cache_status)
}

// Replaces all lines of Cache-Status by one. A full map stays without it.
fn set_cache_status(headers: &mut HeaderMap, cache_status: HeaderValue) -> Result<(), AllocError>
    ensures { OnOk result (IsMarkedBy (headers_of headers.old) cache_status.bytes
        (headers_of headers.new)) }
{
    match insert(headers, CACHE_STATUS, cache_status) {
        Err(CacheError::Memory) => Err(AllocError),
        _ => Ok(()),
    }
}

/// Returns the head with this Cache-Status, in place of all of its lines. A full head stays without
/// it.
pub fn marked(
    mut head: response::Parts,
    cache_status: HeaderValue,
) -> Result<response::Parts, AllocError>
    ensures { IfOk result (IsMarkedAs cache_status.bytes head) }
{
    set_cache_status(&mut head.headers, cache_status)?;
    Ok(head)
}

/// Replaces the value of an existing Cache-Status, which needs no memory.
pub fn replace_cache_status(headers: &mut HeaderMap, cache_status: HeaderValue)
    ensures { (h : Headers) (text : List ℕ) → IsMarkedBy h text (headers_of headers.old)
        → IsMarkedBy h cache_status.bytes (headers_of headers.new) }
{
    if contains_key(headers, CACHE_STATUS) {
        replace(headers, CACHE_STATUS, cache_status);
    }
}

/// Returns a response with a head, a body and a member of Cache-Status.
#[inline(always)]
pub fn answer_of(
    alloc: Global,
    head: response::Parts,
    body: Bytes,
    member: &Member<'_>,
) -> Result<Response<Bytes>, AllocError>
    ensures status { IfOk result (λ answer. (head_of answer).status ≡ head.status) }
    ensures head { IfOk result (λ answer. IsMarked head (head_of answer)) }
    ensures reported { IfOk result (λ answer.
        IsReported (member_seen member.now) head (head_of answer)) }
    ensures body { IfOk result (λ answer. body_of answer ≡ body) }
{
    let cache_status = cache_status_of(alloc, &head.headers, member)?;
    let head = marked(head, cache_status)?;
    Ok(Response::from_parts(head, body))
}

//! A received response on its way to the client.
ghost use Rattle.std.specs.Prelude.{◌≡◌, Bool, ℤ, IfOk};
ghost use Rattle.http.specs.declared.response.Response.{Response};
ghost use Rattle.http_cache_decisions.specs.declared.body.Body.{Body};
ghost use Rattle.http_cache_decisions.specs.Receipt.{IsAnswerWith, IsDatedHead, IsSentAs, sent_body};

use crate::body::Body;
use crate::head::add_date;
use crate::memory::or_out_of_memory;
use crate::plan::Settled;
use crate::reply::not_modified;
use crate::report::{cache_status_of, marked, replace_cache_status};
use bytes::Bytes;
use http::{HeaderMap, HeaderValue, Response, response};
use http_cache_policy::explain::Member;
use jiff::Timestamp;
use std::alloc::{AllocError, Global};

/// The values of Cache-Status for the outcomes of a change.
#[derive(Drop)]
pub struct CacheStatuses {
    /// For a response that is stored.
    pub stored: HeaderValue,
    /// For a store that failed.
    pub failed: HeaderValue,
}

fn cache_statuses_of(
    alloc: Global,
    headers: &HeaderMap,
    member: &Member<'_>,
) -> Result<CacheStatuses, AllocError> {
    let stored = Member {
        stored: true,
        ..*member
    };
    let failed = Member {
        left: None,
        detail: Some("store failed"),
        ..*member
    };
    Ok(CacheStatuses {
        stored: cache_status_of(alloc, headers, &stored)?,
        failed: cache_status_of(alloc, headers, &failed)?,
    })
}

// Returns the value of Cache-Status for the outcome of a change, or None if the value that is
// already there is right.
fn cache_status_for(
    cache_statuses: CacheStatuses,
    settled: Settled,
    says_stored: bool,
) -> Option<HeaderValue> {
    let CacheStatuses { stored, failed } = cache_statuses;
    match settled {
        Settled::Stored if says_stored => Some(stored),
        Settled::Failed => Some(failed),
        Settled::Stored | Settled::NotStored => None,
    }
}

// Returns the head with a Date.
fn dated(
    alloc: Global,
    mut head: response::Parts,
    received: Timestamp,
) -> Result<response::Parts, AllocError>
    ensures { IfOk result (IsDatedHead received.nanosecond head) }
{
    or_out_of_memory(add_date(alloc, &mut head.headers, received))?;
    Ok(head)
}

// Returns what is sent of a received response: the 304 in its place if the client has it already.
fn sent_of(
    head: response::Parts,
    body: Body,
    is_known: bool,
) -> Result<(response::Parts, Body), AllocError>
    ensures head { IfOk result (λ sent. IsSentAs is_known head sent.0) }
    ensures body { IfOk result (λ sent. sent.1 ≡ sent_body is_known body) }
{
    if is_known {
        let sent = not_modified(&head)?;
        return Ok((sent, Body::Here(Bytes::new())));
    }
    Ok((head, body))
}

/// Returns the answer by a received response, and its Cache-Status for each outcome of storing it.
/// The answer has a Date, and is a 304 if it makes the client's own condition false.
pub fn prepared(
    alloc: Global,
    response: Response<Body>,
    member: &Member<'_>,
    is_known: bool,
    received: Timestamp,
) -> Result<(Response<Body>, CacheStatuses), AllocError>
    ensures { IfOk result (λ made.
        IsAnswerWith is_known received.nanosecond response made.0) }
{
    let (head, body) = response.into_parts();
    let dated = dated(alloc, head, received)?;
    let (sent, body) = sent_of(dated, body, is_known)?;
    let cache_status = cache_status_of(alloc, &sent.headers, member)?;
    let cache_statuses = cache_statuses_of(alloc, &sent.headers, member)?;
    let head = marked(sent, cache_status)?;
    Ok((Response::from_parts(head, body), cache_statuses))
}

/// Returns an answer with the value of Cache-Status for the outcome of its change.
pub fn settled_answer(
    answer: Response<Body>,
    cache_statuses: CacheStatuses,
    settled: Settled,
    says_stored: bool,
) -> Response<Body>
    ensures { (is_known : Bool) (received : ℤ) (response : Response Body)
        → IsAnswerWith is_known received response answer
        → IsAnswerWith is_known received response result }
{
    match cache_status_for(cache_statuses, settled, says_stored) {
        Some(cache_status) => {
            let (mut head, body) = answer.into_parts();
            replace_cache_status(&mut head.headers, cache_status);
            Response::from_parts(head, body)
        }
        None => answer,
    }
}

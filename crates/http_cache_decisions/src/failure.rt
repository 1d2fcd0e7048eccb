//! Decides what to do if the origin server failed.
ghost use Rattle.std.specs.Prelude.{◌≡◌, IfOk, IfSome};
ghost use Rattle.http.specs.Request.{head_of};
ghost use Rattle.http_cache_fields.specs.Headers.{headers_of};
ghost use Rattle.http_cache_decisions.specs.Plan.{is_failure};
ghost use Rattle.http_cache_decisions.specs.Asking.{incoming_seen};
ghost use Rattle.http_cache_decisions.specs.Judge.{may_be_used_on_error};
ghost use Rattle.http_cache_decisions.specs.Reply.{IsConditionalReply};
ghost use Rattle.http_cache_decisions.specs.Failure.{IsStaleReply, is_server_error};

use crate::asking::Incoming;
use crate::renewal::of_id;
use crate::reply::Reply;
use http::StatusCode;
use http_cache_store::{ResponseId, StoredResponse};
use jiff::Timestamp;
use std::alloc::{AllocError, Global};

/// Returns whether the status allows a stale response instead (RFC 5861, section 4).
pub fn is_failure(status: StatusCode) -> bool
    ensures { result ≡ is_failure status }
{
    matches!(status.as_u16(), 500 | 502 | 503 | 504)
}

/// Returns whether the status is a 5xx.
pub fn is_server_error(status: StatusCode) -> bool
    ensures { result ≡ is_server_error status }
{
    status.is_server_error()
}

/// Returns whether a stored response may be used after a failure of the origin server (RFC 5861,
/// section 4).
pub fn is_usable_on_error(one: &StoredResponse, incoming: &Incoming<'_>, now: Timestamp) -> bool
    ensures { result
        ≡ may_be_used_on_error (incoming_seen incoming.now) now.nanosecond one.now.policy }
{
    let asking = incoming.asking(one.policy.stored_method());
    one.policy.stale_use(&asking, now).if_error
}

/// Returns the answer that a stored response yields after a failure of the origin server, if
/// `stale_use` allows it (RFC 5861, section 4).
pub fn stale_reply(
    alloc: Global,
    stored: &[StoredResponse],
    id: ResponseId,
    incoming: &Incoming<'_>,
    now: Timestamp,
) -> Result<Option<Reply>, AllocError>
    ensures conditional { IfOk result (IsConditionalReply
        (headers_of (head_of incoming.now.request.now).headers)) }
    ensures stale { IfOk result (IsStaleReply incoming.now id stored.now now.nanosecond) }
{
    let Some(one) = of_id(stored, id) else {
        return Ok(None);
    };
    if is_usable_on_error(one, incoming, now) {
        return Reply::of(alloc, one, incoming, now);
    }
    Ok(None)
}

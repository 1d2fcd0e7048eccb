//! A stored response on its way to the client.
ghost use Rattle.std.specs.Prelude.{◌≡◌, ℕ, ℤ, List, Option, None, IfOk, true, option_copied, if◌then◌else◌};
ghost use Rattle.http.specs.Request.{head_of};
ghost use Rattle.http.specs.declared.request.Request.{Request};
ghost use Rattle.http_cache_fields.specs.Headers.{headers_of, ChangesUnder};
ghost use Rattle.http_cache_rules.specs.Conditions.{is_conditional};
ghost use Rattle.http_cache_rules.specs.Freshness.{lifetime};
ghost use Rattle.http_cache_reasons.specs.CacheStatus.{time_left};
ghost use Rattle.http_cache_policy.specs.Age.{age_at};
ghost use Rattle.http_cache_policy.specs.Exchange.{Exchange};
ghost use Rattle.http_cache_policy.specs.ResponseAt.{IsResponseAt};
ghost use Rattle.http_cache_decisions.specs.Reply.{IsConditionalReply, IsReply, IsReplyIfAny};
ghost use Rattle.http_cache_decisions.specs.Reply.{AreOf304, is_field_of_304, kept_in_304, is_known};

use crate::asking::Incoming;
use bytes::Bytes;
use http::header::{IF_MODIFIED_SINCE, IF_NONE_MATCH};
use http::{HeaderMap, HeaderName, StatusCode, response};
use http_cache_fields::CacheError;
use http_cache_fields::headers::{contains_key, copy_of_map, remove};
use http_cache_policy::explain::TimeLeft;
use http_cache_policy::policy::CachePolicy;
use http_cache_store::{ResponseId, StoredResponse};
use jiff::Timestamp;
use std::alloc::{AllocError, Global};

/// The answer by a stored response.
#[derive(Drop)]
pub struct Reply {
    /// The id of the stored response.
    pub id: ResponseId,
    /// The head to send.
    pub head: response::Parts,
    /// Whether the stored body is sent too.
    pub needs_body: bool,
    /// The stored body, if it is sent and in memory.
    pub body: Option<Bytes>,
    /// The remaining lifetime.
    pub left: TimeLeft,
}

// The fields of a 304 (RFC 9110, section 15.4.5; RFC 9111, section 4.3.2).
#[tactic(auto, unfolding(crate::specs::Reply::is_field_of_304))]
fn is_field_of_304(name: &HeaderName) -> bool
    ensures { result ≡ is_field_of_304 name.now }
{
    matches!(
        name.as_str(),
        "age"
            | "cache-control"
            | "cache-status"
            | "content-location"
            | "date"
            | "etag"
            | "expires"
            | "last-modified"
            | "vary"
    )
}

fn keep_for_304(map: &mut HeaderMap, name: &HeaderName)
    ensures { ChangesUnder name.now (kept_in_304 name.now)
        (headers_of map.old) (headers_of map.new) }
{
    if is_field_of_304(name) {
        return;
    }
    remove(map, name);
}

fn headers_of_304(headers: &HeaderMap) -> Result<HeaderMap, AllocError>
    ensures { IfOk result (λ out. AreOf304 (headers_of headers.now) (headers_of out)) }
{
    let mut out = copy_of_map(headers)?;
    for name in headers.keys() {
        keep_for_304(&mut out, name);
    }
    Ok(out)
}

/// Returns the head of a 304 that replaces another head.
pub fn not_modified(head: &response::Parts) -> Result<response::Parts, AllocError>
    ensures status { IfOk result (λ parts. parts.status ≡ 304) }
    ensures version { IfOk result (λ parts. parts.version ≡ head.now.version) }
    ensures fields { IfOk result (λ parts.
        AreOf304 (headers_of head.now.headers) (headers_of parts.headers)) }
{
    Ok(response::Parts {
        status: StatusCode::NOT_MODIFIED,
        version: head.version,
        headers: headers_of_304(&head.headers)?,
    })
}

// Returns whether the request's own condition is false (RFC 9111, section 4.3.2).
fn is_known(policy: &CachePolicy, incoming: &Incoming<'_>) -> bool
    ensures value { result ≡ is_known incoming.now.request.now policy.now }
    ensures conditional { result ≡ true
        → is_conditional (headers_of (head_of incoming.now.request.now).headers) ≡ true }
{
    // Most requests have no condition, and need no look at the stored validators.
    let headers = incoming.request().headers();
    (contains_key(headers, IF_NONE_MATCH) || contains_key(headers, IF_MODIFIED_SINCE))
        && policy.is_not_modified_for(incoming.request())
}

/// Returns the remaining lifetime of a stored response.
pub fn left_of(policy: &CachePolicy, now: Timestamp) -> TimeLeft
    ensures { result ≡ time_left (lifetime policy.now) (age_at policy.now now.nanosecond) }
{
    TimeLeft::of(policy.freshness().lifetime, policy.age(now))
}

fn body_at_hand(body: Option<&Bytes>, needs_body: bool) -> Result<Option<Bytes>, AllocError>
    ensures { IfOk result (λ copy. copy ≡ (if needs_body then option_copied body.entry else None)) }
{
    match body {
        Some(body) if needs_body => Ok(Some(body.clone()?)),
        _ => Ok(None),
    }
}

impl Reply {
    // Returns the 304 instead. It isn't inlined, so that a hit reserves no stack for its values.
    #[inline(never)]
    fn not_modified(self) -> Result<Reply, AllocError>
        ensures status { IfOk result (λ reply. reply.head.status ≡ 304) }
        ensures reply { (request : Request (List ℕ)) (e : Exchange) (body : Option (List ℕ)) (now : ℤ)
            → is_known request e ≡ true → IsResponseAt e now self.head
            → self.left ≡ time_left (lifetime e) (age_at e now)
            → IfOk result (IsReply request self.id.0 e body now) }
    {
        let Reply { id, head, left, .. } = self;
        Ok(Reply {
            id,
            head: not_modified(&head)?,
            needs_body: false,
            body: None,
            left,
        })
    }

    /// Returns the answer by a policy at `now`, or `None` if it can't be sent.
    ///
    /// It is a 304 if the stored response makes the client's own condition false (RFC 9110, section
    /// 13.2.2). Otherwise it is the stored response as `CachePolicy::response_at` returns it, with
    /// the body unless the method is HEAD (RFC 9110, section 9.3.2). It can't be sent if it has no
    /// room for Age or is itself a 304.
    pub fn of_policy(
        alloc: Global,
        id: ResponseId,
        policy: &CachePolicy,
        body: Option<&Bytes>,
        incoming: &Incoming<'_>,
        now: Timestamp,
    ) -> Result<Option<Reply>, AllocError>
        ensures conditional { IfOk result
            (IsConditionalReply (headers_of (head_of incoming.now.request.now).headers)) }
        ensures reply { IfOk result (IsReplyIfAny incoming.now.request.now id.0 policy.now
            (option_copied body.entry) now.nanosecond) }
    {
        if policy.stored_status() == StatusCode::NOT_MODIFIED {
            return Ok(None);
        }
        let needs_body = !incoming.is_head();
        let body = body_at_hand(body, needs_body)?;
        let head = match policy.response_at(alloc, now) {
            Ok(head) => head,
            Err(CacheError::Memory) => return Err(AllocError),
            Err(_) => return Ok(None),
        };
        let reply = Reply {
            id,
            head,
            needs_body,
            body,
            left: left_of(policy, now),
        };
        if is_known(policy, incoming) {
            return Ok(Some(reply.not_modified()?));
        }
        Ok(Some(reply))
    }

    /// Returns the answer by a stored response at `now`, with its body if that is sent and in
    /// memory.
    pub fn of(
        alloc: Global,
        stored: &StoredResponse,
        incoming: &Incoming<'_>,
        now: Timestamp,
    ) -> Result<Option<Reply>, AllocError>
        ensures conditional { IfOk result
            (IsConditionalReply (headers_of (head_of incoming.now.request.now).headers)) }
        ensures reply { IfOk result (IsReplyIfAny incoming.now.request.now stored.now.id.0
            stored.now.policy stored.now.body now.nanosecond) }
    {
        let body = stored.body.as_ref();
        Reply::of_policy(alloc, stored.id, &stored.policy, body, incoming, now)
    }
}

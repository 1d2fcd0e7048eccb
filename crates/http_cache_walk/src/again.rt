//! Decides what a full response means when a stored one was to be validated.
ghost use Rattle.std.specs.Prelude.{◌≡◌, option_map};
ghost use Rattle.http_cache_fields.specs.Headers.{headers_of};
ghost use Rattle.http_cache_semantics.specs.Messages.{response_seen};
ghost use Rattle.http_cache_recording.specs.Entry.{body_seen, entry_seen};
ghost use Rattle.http_cache_walk.specs.Again.{opaque, is_same_body, are_same_bodies, is_same_tag};
ghost use Rattle.http_cache_walk.specs.Again.{is_same_date, is_same_validator, is_same};
ghost use Rattle.http_cache_walk.specs.Again.{is_conditional_on, has_its_validator, again_of};
ghost use Rattle.http_cache_walk.specs.Again.{again_by_own};

use crate::row::Again;
use http::header::{ETAG, IF_NONE_MATCH, LAST_MODIFIED};
use http::{HeaderMap, StatusCode, response};
use http_cache_fields::headers::{contains_key, first_text};
use http_cache_recording::{Body, Entry};
use http_cache_rules::conditions::has_stored_already;
use http_cache_semantics::CachePolicy;
use jiff::Timestamp;

/// Returns an entity tag without its mark of weakness (RFC 9110, section 8.8.3.2).
pub fn opaque(tag: &str) -> &[u8]
    ensures { result.now ≡ opaque tag.now }
{
    let bytes = tag.as_bytes();
    match bytes.strip_prefix(b"W/") {
        Some(rest) => rest,
        None => bytes,
    }
}

// Only bodies in one encoding can be compared.
#[tactic(auto, unfolding(crate::specs::Again::is_same_body))]
fn is_same_body(a: &Body, b: &Body) -> Option<bool>
    ensures { result ≡ is_same_body (body_seen a.now) (body_seen b.now) }
{
    if a.encoding.as_deref() == b.encoding.as_deref() {
        Some(a.text.as_str() == b.text.as_str())
    } else {
        None
    }
}

/// Returns whether two bodies are equal, if both were recorded in one encoding.
#[tactic(auto, unfolding(crate::specs::Again::are_same_bodies))]
pub fn are_same_bodies(a: Option<&Body>, b: Option<&Body>) -> Option<bool>
    ensures { result ≡ are_same_bodies (option_map (λ x. body_seen x.now) a.entry)
        (option_map (λ x. body_seen x.now) b.entry) }
{
    is_same_body(a?, b?)
}

#[tactic(auto, unfolding(crate::specs::Again::is_same_tag))]
fn is_same_tag(a: &HeaderMap, b: &HeaderMap) -> Option<bool>
    ensures { result ≡ is_same_tag (headers_of a.now) (headers_of b.now) }
{
    let (a, b) = (first_text(a, ETAG)?, first_text(b, ETAG)?);
    Some(opaque(a) == opaque(b))
}

#[tactic(auto, unfolding(crate::specs::Again::is_same_date))]
fn is_same_date(a: &HeaderMap, b: &HeaderMap) -> Option<bool>
    ensures { result ≡ is_same_date (headers_of a.now) (headers_of b.now) }
{
    Some(first_text(a, LAST_MODIFIED)? == first_text(b, LAST_MODIFIED)?)
}

/// Returns whether two responses have equal validators, if that can be known.
pub fn is_same_validator(a: &HeaderMap, b: &HeaderMap) -> Option<bool>
    ensures { result ≡ is_same_validator (headers_of a.now) (headers_of b.now) }
{
    match is_same_tag(a, b) {
        Some(same) => Some(same),
        None => is_same_date(a, b),
    }
}

// The status decides before the body, and the body before the validators.
#[tactic(auto, unfolding(crate::specs::Again::is_same))]
fn is_same(
    policy: &CachePolicy,
    body: Option<&Body>,
    response: &response::Parts,
    received: Option<&Body>,
) -> Option<bool>
    ensures { result ≡ is_same policy.now (option_map (λ b. body_seen b.now) body.entry)
        (response_seen response.now) (option_map (λ b. body_seen b.now) received.entry) }
{
    if response.status.as_u16() >= 500 {
        return None;
    }
    if response.status.as_u16() != policy.stored_status().as_u16() {
        return Some(false);
    }
    match are_same_bodies(body, received) {
        Some(same) => Some(same),
        None => is_same_validator(policy.stored_headers(), &response.headers),
    }
}

// RFC 9110, section 13.2.2.
#[tactic(auto, unfolding(crate::specs::Again::is_conditional_on))]
fn is_conditional_on(request: &HeaderMap, headers: &HeaderMap, received: Timestamp) -> bool
    ensures { result ≡ is_conditional_on (headers_of request.now) (headers_of headers.now)
        received.nanosecond }
{
    (contains_key(request, IF_NONE_MATCH) || contains_key(headers, LAST_MODIFIED))
        && has_stored_already(headers, received, request)
}

/// Returns what a full response means when a stored one was to be validated.
#[tactic(auto, unfolding(crate::specs::Again::again_of))]
pub(crate) fn again_of(
    policy: &CachePolicy,
    body: Option<&Body>,
    entry: &Entry,
    response: &response::Parts,
) -> Again
    ensures { result ≡ again_of policy.now (option_map (λ b. body_seen b.now) body.entry)
        (entry_seen entry.now) (response_seen response.now) }
{
    match is_same(policy, body, response, entry.body.as_ref()) {
        None => Again::Unknown,
        Some(false) => Again::Changed,
        Some(true) => if is_conditional_on(
            &entry.headers,
            policy.stored_headers(),
            policy.stored_response_time(),
        ) {
            Again::InFull
        } else {
            Again::Unasked
        },
    }
}

fn has_its_validator(request: &HeaderMap, headers: &HeaderMap) -> bool
    ensures { result ≡ has_its_validator (headers_of request.now) (headers_of headers.now) }
{
    if contains_key(request, IF_NONE_MATCH) {
        contains_key(headers, ETAG)
    } else {
        contains_key(headers, LAST_MODIFIED)
    }
}

/// Returns what a full response to the client's own condition means, by its validators.
#[tactic(auto, unfolding(crate::specs::Again::again_by_own))]
pub(crate) fn again_by_own(
    request: &HeaderMap,
    response: &response::Parts,
    received: Timestamp,
) -> Again
    ensures { result ≡ again_by_own (headers_of request.now) (response_seen response.now)
        received.nanosecond }
{
    let status = response.status.as_u16();
    if status >= 500 {
        Again::Unknown
    } else if status != 200 {
        Again::Changed
    } else if is_conditional_on(request, &response.headers, received) {
        Again::InFull
    } else if has_its_validator(request, &response.headers) {
        Again::Changed
    } else {
        Again::Unknown
    }
}

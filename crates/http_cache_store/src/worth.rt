//! Decides whether a stored response can be used again.
ghost use Rattle.std.specs.Prelude.{◌≡◌, ◌↔◌, ◌<ℤ◌, ℤ, true, false, IfSome};
ghost use Rattle.jiff.specs.Words.{IsTimestampNanos};
ghost use Rattle.http_cache_fields.specs.Headers.{headers_of};
ghost use Rattle.http_cache_policy.specs.Age.{is_stale_at};
ghost use Rattle.http_cache_store.specs.Worth.{has_validator, varies_by_all, can_be_used_again};

use http::HeaderMap;
use http::header::{ETAG, LAST_MODIFIED, VARY};
use http_cache_fields::headers::contains_key;
use http_cache_fields::pieces::pieces_under;
use http_cache_policy::policy::CachePolicy;
use jiff::Timestamp;

/// Returns whether a stored response can be validated: it has ETag or Last-Modified (RFC 9111,
/// section 4.3.1).
pub fn has_validator(stored: &HeaderMap) -> bool
    ensures { result ≡ has_validator (headers_of stored.now) }
{
    contains_key(stored, ETAG) || contains_key(stored, LAST_MODIFIED)
}

// Returns whether Vary says `*`, which no request matches (RFC 9111, section 4.1).
fn varies_by_all(stored: &HeaderMap) -> bool
    ensures { result ≡ varies_by_all (headers_of stored.now) }
{
    pieces_under(stored, VARY).any(|name| name == "*")
}

/// Returns whether a stored response can answer some request at `now` or later. Allocates nothing.
///
/// It can if Vary doesn't say `*` (RFC 9111, section 4.1) and it is fresh, has a validator, or may
/// be used stale (RFC 9111, section 4.2.4).
#[tactic(auto, unfolding(crate::specs::Worth::can_be_used_again))]
pub fn can_be_used_again(policy: &CachePolicy, now: Timestamp) -> bool
    ensures { result ≡ can_be_used_again policy.now now.nanosecond }
{
    let stored = policy.stored_headers();
    !varies_by_all(stored)
        && (!policy.is_stale(now) || has_validator(stored) || !policy.forbids_stale())
}

// Returns the time from which on a stored response is stale, or `None` if it never is.
fn fresh_until(policy: &CachePolicy) -> Option<Timestamp>
    ensures always { result ≡ None → (now : ℤ) → IsTimestampNanos now
        → is_stale_at policy.now now ≡ false }
    ensures until { IfSome result (λ until. (now : ℤ) → IsTimestampNanos now
        → ((is_stale_at policy.now now ≡ false) ↔ (now <ℤ until.nanosecond))) }
{
    let received = policy.stored_response_time();
    let lifetime = policy.freshness().lifetime;
    // The seconds come with the proof that the lifetime is at most the greatest duration.
    let _seconds = lifetime.as_secs();
    let left = lifetime.saturating_sub(policy.age(received));
    if left.is_zero() {
        return Some(Timestamp::MIN);
    }
    received.checked_add(left).ok()
}

/// Returns the time from which on a stored response can't be used again, or `None` if it always
/// can.
///
/// `can_be_used_again` is true exactly at the times before it.
#[tactic(auto, unfolding(crate::specs::Worth::can_be_used_again))]
pub fn usable_until(policy: &CachePolicy) -> Option<Timestamp>
    ensures always { result ≡ None → (now : ℤ) → IsTimestampNanos now
        → can_be_used_again policy.now now ≡ true }
    ensures until { IfSome result (λ until. (now : ℤ) → IsTimestampNanos now
        → ((can_be_used_again policy.now now ≡ true) ↔ (now <ℤ until.nanosecond))) }
{
    let stored = policy.stored_headers();
    if varies_by_all(stored) {
        return Some(Timestamp::MIN);
    }
    if has_validator(stored) || !policy.forbids_stale() {
        return None;
    }
    fresh_until(policy)
}

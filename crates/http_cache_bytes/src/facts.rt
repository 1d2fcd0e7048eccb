//! Facts about a stored response: its age, its lifetime and its allowed uses.
ghost use Rattle.std.specs.Prelude.{◌≡◌, ◌≢◌, Err, IfOk, IsErrOf, IsOkUnless};
ghost use Rattle.std.specs.Duration.{as_nanos};
ghost use Rattle.http_heads.specs.Heads.{IsNoRequest, OverfillsRequest, IsNoResponse, OverfillsResponse};
ghost use Rattle.http_cache_semantics.specs.Messages.{request_seen};
ghost use Rattle.http_cache_bytes.specs.Facts.{AreFactsOf, AreUsesOf};
ghost use Rattle.http_cache_semantics.specs.Age.{age_at, time_to_live_at};
ghost use Rattle.http_cache_semantics.specs.Freshness.{freshness_seen, freshness};
ghost use Rattle.http_cache_semantics.specs.Lookup.{joined_request, may_be_used};
ghost use Rattle.http_cache_semantics.specs.NotModified.{is_not_modified_for};
ghost use Rattle.http_cache_semantics.specs.StaleUse.{stale_use};
ghost use Rattle.http_cache_semantics.specs.Storability.{storability};
ghost use Rattle.http_cache_semantics.specs.Update.{selects};
ghost use Rattle.http_cache_semantics.specs.Verdict.{is_fresh_for};
ghost use Rattle.http_cache_bytes.specs.Cause.{ForPolicy, ForRequest, ForResponse, ForAsked, ForConfirmed, IsUnasked, IsUnconfirmed};
ghost use Rattle.http_cache_bytes.specs.Form.{IsNoForm};

use crate::form::policy_in;
use crate::heads::{request_in, response_in};
use http::request;
use http_cache_semantics::explain::{Freshness, Storability};
use http_cache_semantics::{CacheError, CachePolicy, JoinedRequest, StaleUse};
use jiff::Timestamp;
use std::alloc::Global;
use std::hash::RandomState;
use std::time::Duration;

// The facts that don't depend on a request, at a time.
#[derive(Clone, Copy)]
struct Facts {
    storability: Storability,
    freshness: Freshness,
    age: Duration,
    time_to_live: Duration,
}

// The facts that depend on a request, at a time.
#[derive(Clone, Copy)]
struct Uses {
    fresh: bool,
    stale: StaleUse,
    not_modified: bool,
}

fn facts_of(policy: &CachePolicy, now: Timestamp) -> Facts
    ensures { AreFactsOf policy.now now.nanosecond result }
{
    Facts {
        storability: policy.storability(),
        freshness: policy.freshness(),
        age: policy.age(now),
        time_to_live: policy.time_to_live(now),
    }
}

fn facts_in(alloc: Global, stored: &[u8], now: Timestamp) -> Result<Facts, CacheError>
    ensures value { IfOk result (λ f. ForPolicy stored.now (λ e. AreFactsOf e now.nanosecond f)) }
    ensures malformed { IsErrOf result CacheError.Malformed → IsNoForm stored.now }
    ensures never_full { result ≢ Err CacheError.HeaderMapFull }
    ensures printable { result ≢ Err CacheError.DateNotPrintable }
{
    let policy = policy_in(alloc, stored)?;
    Ok(facts_of(&policy, now))
}

fn uses_of(policy: &CachePolicy, request: &request::Parts, now: Timestamp) -> Uses
    ensures { AreUsesOf policy.now (request_seen request.now) now.nanosecond result }
{
    Uses {
        fresh: policy.fresh_at(request, now),
        stale: policy.stale_use(request, now),
        not_modified: policy.is_not_modified_for(request),
    }
}

fn uses_for(
    alloc: Global,
    keys: RandomState,
    policy: &CachePolicy,
    request: &[u8],
    now: Timestamp,
) -> Result<Uses, CacheError>
    ensures value { IfOk result (λ u. ForRequest request.now
        (λ asked. AreUsesOf policy.now asked now.nanosecond u)) }
    ensures malformed { IsErrOf result CacheError.Malformed → IsNoRequest request.now }
    ensures full { IsErrOf result CacheError.HeaderMapFull → OverfillsRequest request.now }
    ensures printable { result ≢ Err CacheError.DateNotPrintable }
{
    let request = request_in(alloc, keys, request)?;
    Ok(uses_of(policy, &request, now))
}

fn uses_in(
    alloc: Global,
    keys: RandomState,
    stored: &[u8],
    request: &[u8],
    now: Timestamp,
) -> Result<Uses, CacheError>
    ensures value { IfOk result (λ u. ForAsked stored.now request.now
        (λ e asked. AreUsesOf e asked now.nanosecond u)) }
    ensures malformed { IsErrOf result CacheError.Malformed → IsUnasked stored.now request.now }
    ensures full { IsErrOf result CacheError.HeaderMapFull → OverfillsRequest request.now }
    ensures printable { result ≢ Err CacheError.DateNotPrintable }
{
    let policy = policy_in(alloc, stored)?;
    uses_for(alloc, keys, &policy, request, now)
}

/// Returns what allows the response to be stored, or every condition that forbids it (RFC 7234,
/// section 3).
///
/// # Errors
///
/// `Malformed` if `stored` is no stored form, and `Memory` if there is not enough memory.
pub fn storability(alloc: Global, stored: &[u8]) -> Result<Storability, CacheError>
    ensures value { IfOk result (λ s. ForPolicy stored.now (λ e. s ≡ storability e)) }
    ensures malformed { IsErrOf result CacheError.Malformed → IsNoForm stored.now }
    ensures never_full { result ≢ Err CacheError.HeaderMapFull }
    ensures printable { result ≢ Err CacheError.DateNotPrintable }
{
    let facts = facts_in(alloc, stored, Timestamp::UNIX_EPOCH)?;
    Ok(facts.storability)
}

/// Returns the freshness lifetime of the stored response, and what decides it (RFC 7234, section
/// 4.2.1).
///
/// # Errors
///
/// `Malformed` if `stored` is no stored form, and `Memory` if there is not enough memory.
pub fn freshness(alloc: Global, stored: &[u8]) -> Result<Freshness, CacheError>
    ensures value { IfOk result (λ f. ForPolicy stored.now (λ e. freshness_seen f ≡ freshness e)) }
    ensures malformed { IsErrOf result CacheError.Malformed → IsNoForm stored.now }
    ensures never_full { result ≢ Err CacheError.HeaderMapFull }
    ensures printable { result ≢ Err CacheError.DateNotPrintable }
{
    let facts = facts_in(alloc, stored, Timestamp::UNIX_EPOCH)?;
    Ok(facts.freshness)
}

/// Returns how long the stored response has been in caches at `now` (RFC 7234, section 4.2.3).
///
/// # Errors
///
/// `Malformed` if `stored` is no stored form, and `Memory` if there is not enough memory.
pub fn age(alloc: Global, stored: &[u8], now: Timestamp) -> Result<Duration, CacheError>
    ensures value { IfOk result (λ d. ForPolicy stored.now
        (λ e. as_nanos d ≡ age_at e now.nanosecond)) }
    ensures malformed { IsErrOf result CacheError.Malformed → IsNoForm stored.now }
    ensures never_full { result ≢ Err CacheError.HeaderMapFull }
    ensures printable { result ≢ Err CacheError.DateNotPrintable }
{
    let facts = facts_in(alloc, stored, now)?;
    Ok(facts.age)
}

/// Returns how much of the freshness lifetime is left at `now`, or zero (RFC 7234, section 4.2).
///
/// # Errors
///
/// `Malformed` if `stored` is no stored form, and `Memory` if there is not enough memory.
pub fn time_to_live(alloc: Global, stored: &[u8], now: Timestamp) -> Result<Duration, CacheError>
    ensures value { IfOk result (λ d. ForPolicy stored.now
        (λ e. as_nanos d ≡ time_to_live_at e now.nanosecond)) }
    ensures malformed { IsErrOf result CacheError.Malformed → IsNoForm stored.now }
    ensures never_full { result ≢ Err CacheError.HeaderMapFull }
    ensures printable { result ≢ Err CacheError.DateNotPrintable }
{
    let facts = facts_in(alloc, stored, now)?;
    Ok(facts.time_to_live)
}

/// Returns whether the stored response may be used for a request at `now` without validation (RFC
/// 7234, section 4).
///
/// # Errors
///
/// - `Malformed` if `stored` is no stored form or `request` no head of a request.
/// - `HeaderMapFull` if a header map can't hold the fields of the request.
/// - `Memory` if there is not enough memory.
pub fn fresh_at(
    alloc: Global,
    keys: RandomState,
    stored: &[u8],
    request: &[u8],
    now: Timestamp,
) -> Result<bool, CacheError>
    ensures value { IfOk result (λ b. ForAsked stored.now request.now
        (λ e asked. b ≡ is_fresh_for e asked now.nanosecond)) }
    ensures malformed { IsErrOf result CacheError.Malformed → IsUnasked stored.now request.now }
    ensures full { IsErrOf result CacheError.HeaderMapFull → OverfillsRequest request.now }
    ensures printable { result ≢ Err CacheError.DateNotPrintable }
{
    let uses = uses_in(alloc, keys, stored, request, now)?;
    Ok(uses.fresh)
}

fn is_usable_by(
    alloc: Global,
    policy: &CachePolicy,
    request: &request::Parts,
    now: Timestamp,
) -> Result<bool, CacheError>
    ensures value { IfOk result (λ b. b
        ≡ may_be_used policy.now (joined_request (request_seen request.now)) now.nanosecond) }
    ensures only_memory { IsOkUnless result CacheError.Memory }
{
    let joined = JoinedRequest::new(alloc, request)?;
    Ok(policy.may_be_used(&joined, now))
}

fn is_usable_for(
    alloc: Global,
    keys: RandomState,
    policy: &CachePolicy,
    request: &[u8],
    now: Timestamp,
) -> Result<bool, CacheError>
    ensures value { IfOk result (λ b. ForRequest request.now
        (λ asked. b ≡ may_be_used policy.now (joined_request asked) now.nanosecond)) }
    ensures malformed { IsErrOf result CacheError.Malformed → IsNoRequest request.now }
    ensures full { IsErrOf result CacheError.HeaderMapFull → OverfillsRequest request.now }
    ensures printable { result ≢ Err CacheError.DateNotPrintable }
{
    let request = request_in(alloc, keys, request)?;
    is_usable_by(alloc, policy, &request, now)
}

/// Returns whether the stored response may be used for a request, as a cache looks it up, at `now`
/// without validation (RFC 9111, sections 4 and 4.2.4).
///
/// All lines of a field count, a HEAD is answered by what is stored for GET, and a stale response
/// isn't used if it forbids that, whatever `max-stale` says.
///
/// # Errors
///
/// As for `fresh_at`.
pub fn may_be_used(
    alloc: Global,
    keys: RandomState,
    stored: &[u8],
    request: &[u8],
    now: Timestamp,
) -> Result<bool, CacheError>
    ensures value { IfOk result (λ b. ForAsked stored.now request.now
        (λ e asked. b ≡ may_be_used e (joined_request asked) now.nanosecond)) }
    ensures malformed { IsErrOf result CacheError.Malformed → IsUnasked stored.now request.now }
    ensures full { IsErrOf result CacheError.HeaderMapFull → OverfillsRequest request.now }
    ensures printable { result ≢ Err CacheError.DateNotPrintable }
{
    let policy = policy_in(alloc, stored)?;
    is_usable_for(alloc, keys, &policy, request, now)
}

/// Returns which uses of the stored response are allowed for a request at `now` once it is stale
/// (RFC 5861, sections 3 and 4).
///
/// # Errors
///
/// As for `fresh_at`.
pub fn stale_use(
    alloc: Global,
    keys: RandomState,
    stored: &[u8],
    request: &[u8],
    now: Timestamp,
) -> Result<StaleUse, CacheError>
    ensures value { IfOk result (λ u. ForAsked stored.now request.now
        (λ e asked. u ≡ stale_use e asked now.nanosecond)) }
    ensures malformed { IsErrOf result CacheError.Malformed → IsUnasked stored.now request.now }
    ensures full { IsErrOf result CacheError.HeaderMapFull → OverfillsRequest request.now }
    ensures printable { result ≢ Err CacheError.DateNotPrintable }
{
    let uses = uses_in(alloc, keys, stored, request, now)?;
    Ok(uses.stale)
}

/// Returns whether a 304 answers the request's own conditions, if the stored response may be used
/// (RFC 9110, section 13.2.2).
///
/// # Errors
///
/// As for `fresh_at`.
pub fn is_not_modified_for(
    alloc: Global,
    keys: RandomState,
    stored: &[u8],
    request: &[u8],
) -> Result<bool, CacheError>
    ensures value { IfOk result (λ b. ForAsked stored.now request.now
        (λ e asked. b ≡ is_not_modified_for e asked)) }
    ensures malformed { IsErrOf result CacheError.Malformed → IsUnasked stored.now request.now }
    ensures full { IsErrOf result CacheError.HeaderMapFull → OverfillsRequest request.now }
    ensures printable { result ≢ Err CacheError.DateNotPrintable }
{
    let uses = uses_in(alloc, keys, stored, request, Timestamp::UNIX_EPOCH)?;
    Ok(uses.not_modified)
}

fn confirms(
    alloc: Global,
    keys: RandomState,
    policy: &CachePolicy,
    response: &[u8],
) -> Result<bool, CacheError>
    ensures value { IfOk result (λ b. ForResponse response.now
        (λ answered. b ≡ selects policy.now answered)) }
    ensures malformed { IsErrOf result CacheError.Malformed → IsNoResponse response.now }
    ensures full { IsErrOf result CacheError.HeaderMapFull → OverfillsResponse response.now }
    ensures printable { result ≢ Err CacheError.DateNotPrintable }
{
    let response = response_in(alloc, keys, response)?;
    Ok(policy.is_confirmed_by(&response))
}

/// Returns whether a response is a 304 that selects the stored response (RFC 9111, section 4.3.4).
///
/// # Errors
///
/// - `Malformed` if `stored` is no stored form or `response` no head of a response.
/// - `HeaderMapFull` if a header map can't hold the fields of the response.
/// - `Memory` if there is not enough memory.
pub fn is_confirmed_by(
    alloc: Global,
    keys: RandomState,
    stored: &[u8],
    response: &[u8],
) -> Result<bool, CacheError>
    ensures value { IfOk result (λ b. ForConfirmed stored.now response.now
        (λ e answered. b ≡ selects e answered)) }
    ensures malformed { IsErrOf result CacheError.Malformed
        → IsUnconfirmed stored.now response.now }
    ensures full { IsErrOf result CacheError.HeaderMapFull → OverfillsResponse response.now }
    ensures printable { result ≢ Err CacheError.DateNotPrintable }
{
    let policy = policy_in(alloc, stored)?;
    confirms(alloc, keys, &policy, response)
}

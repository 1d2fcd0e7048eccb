//! Facts about a stored response: its age, its lifetime and its allowed uses.
ghost use Rattle.std.specs.Prelude.{◌≡◌, ℕ, List};
ghost use Rattle.http_heads.specs.Heads.{OverfillsRequest, OverfillsResponse};
ghost use Rattle.http_cache_semantics.specs.Age.{age_at, time_to_live_at};
ghost use Rattle.http_cache_semantics.specs.Freshness.{freshness};
ghost use Rattle.http_cache_semantics.specs.Lookup.{joined_request, may_be_used};
ghost use Rattle.http_cache_semantics.specs.NotModified.{is_not_modified_for};
ghost use Rattle.http_cache_semantics.specs.StaleUse.{stale_use};
ghost use Rattle.http_cache_semantics.specs.Storability.{storability};
ghost use Rattle.http_cache_semantics.specs.Update.{selects};
ghost use Rattle.http_cache_semantics.specs.Verdict.{is_fresh_for};
ghost use Rattle.http_cache_bytes.specs.Cause.{ForPolicy, ForAsked, ForConfirmed, IsUnasked, IsUnconfirmed};
ghost use Rattle.http_cache_bytes.specs.Form.{IsNoForm};
ghost use Rattle.http_cache_c.specs.Arguments.{nanosecond_in, IsTime, nanos_of};
ghost use Rattle.http_cache_c.specs.Codes.{malformed, full, undated, too_small, bad_argument, IsDone, bool_code};
ghost use Rattle.http_cache_c.specs.Codes.{source_code, stale_use_code, storability_code, obstacle_bits};

use crate::arguments::{HcsCache, HcsDuration, HcsTime, duration_of, keys_of, time_of};
use crate::codes::{
    BAD_ARGUMENT, NO_MEMORY, bits_of_storability, code_of, code_of_bool, code_of_source,
    code_of_stale_use, code_of_storability,
};
use http_cache_bytes::{
    age, fresh_at, freshness, is_confirmed_by, is_not_modified_for, may_be_used, stale_use,
    storability, time_to_live,
};
use std::alloc::Global;

/// Returns a code from 1 on for what allows the response to be stored, or 0 if it may not be
/// stored. In the latter case `obstacles` has a bit for each condition that forbids it, and else it
/// is 0.
#[unsafe(no_mangle)]
pub extern "C" fn hcs_storability(alloc: Global, stored: &[u8], obstacles: &mut u32) -> i32
    ensures value { IsDone result → ForPolicy stored.now
        (λ e. result ≡ storability_code (storability e)) }
    ensures obstacles { IsDone result → ForPolicy stored.now
        (λ e. obstacles.new ≡ obstacle_bits (storability e)) }
    ensures malformed { result ≡ malformed → IsNoForm stored.now }
    ensures others { ¬ (result ≡ full) × ¬ (result ≡ undated) × ¬ (result ≡ too_small)
        × ¬ (result ≡ bad_argument) }
    ensures kept { ¬ (IsDone result) → obstacles.new ≡ obstacles.old }
{
    match storability(alloc, stored) {
        Ok(found) => {
            *obstacles = bits_of_storability(found);
            code_of_storability(found)
        }
        Err(e) => code_of(e),
    }
}

/// Writes the freshness lifetime, and returns the code of what decides it.
#[unsafe(no_mangle)]
pub extern "C" fn hcs_freshness(alloc: Global, stored: &[u8], lifetime: &mut HcsDuration) -> i32
    ensures value { IsDone result → ForPolicy stored.now
        (λ e. (result ≡ source_code (freshness e).0) × (nanos_of lifetime.new ≡ (freshness e).1)) }
    ensures malformed { result ≡ malformed → IsNoForm stored.now }
    ensures others { ¬ (result ≡ full) × ¬ (result ≡ undated) × ¬ (result ≡ too_small)
        × ¬ (result ≡ bad_argument) }
    ensures kept { ¬ (IsDone result) → lifetime.new ≡ lifetime.old }
{
    match freshness(alloc, stored) {
        Ok(found) => {
            *lifetime = duration_of(found.lifetime);
            code_of_source(found.source)
        }
        Err(e) => code_of(e),
    }
}

/// Writes the age of the stored response, and returns 0.
#[unsafe(no_mangle)]
pub extern "C" fn hcs_age(alloc: Global, stored: &[u8], now: &HcsTime, out: &mut HcsDuration) -> i32
    ensures value { IsDone result → ForPolicy stored.now
        (λ e. nanos_of out.new ≡ age_at e (nanosecond_in now.now)) }
    ensures malformed { result ≡ malformed → IsNoForm stored.now }
    ensures bad_argument { result ≡ bad_argument → ¬ (IsTime now.now) }
    ensures others { ¬ (result ≡ full) × ¬ (result ≡ undated) × ¬ (result ≡ too_small) }
    ensures kept { ¬ (IsDone result) → out.new ≡ out.old }
{
    let Some(now) = time_of(now) else {
        return BAD_ARGUMENT;
    };
    match age(alloc, stored, now) {
        Ok(found) => {
            *out = duration_of(found);
            0
        }
        Err(e) => code_of(e),
    }
}

/// Writes what is left of the freshness lifetime, or zero, and returns 0.
#[unsafe(no_mangle)]
pub extern "C" fn hcs_time_to_live(
    alloc: Global,
    stored: &[u8],
    now: &HcsTime,
    out: &mut HcsDuration,
) -> i32
    ensures value { IsDone result → ForPolicy stored.now
        (λ e. nanos_of out.new ≡ time_to_live_at e (nanosecond_in now.now)) }
    ensures malformed { result ≡ malformed → IsNoForm stored.now }
    ensures bad_argument { result ≡ bad_argument → ¬ (IsTime now.now) }
    ensures others { ¬ (result ≡ full) × ¬ (result ≡ undated) × ¬ (result ≡ too_small) }
    ensures kept { ¬ (IsDone result) → out.new ≡ out.old }
{
    let Some(now) = time_of(now) else {
        return BAD_ARGUMENT;
    };
    match time_to_live(alloc, stored, now) {
        Ok(found) => {
            *out = duration_of(found);
            0
        }
        Err(e) => code_of(e),
    }
}

/// Returns 1 if the stored response may be used for the request without validation, else 0.
#[unsafe(no_mangle)]
pub extern "C" fn hcs_fresh_at(
    alloc: Global,
    cache: &HcsCache,
    stored: &[u8],
    request: &[u8],
    now: &HcsTime,
) -> i32
    ensures value { IsDone result → ForAsked stored.now request.now
        (λ e asked. result ≡ bool_code (is_fresh_for e asked (nanosecond_in now.now))) }
    ensures malformed { result ≡ malformed → IsUnasked stored.now request.now }
    ensures full { result ≡ full → OverfillsRequest request.now }
    ensures bad_argument { result ≡ bad_argument → ¬ (IsTime now.now) }
    ensures others { ¬ (result ≡ undated) × ¬ (result ≡ too_small) }
{
    let Some(now) = time_of(now) else {
        return BAD_ARGUMENT;
    };
    let Some(keys) = keys_of(cache) else {
        return NO_MEMORY;
    };
    match fresh_at(alloc, keys, stored, request, now) {
        Ok(found) => code_of_bool(found),
        Err(e) => code_of(e),
    }
}

/// Returns 1 if the stored response may be used for the request, as a cache looks it up, without
/// validation, else 0.
#[unsafe(no_mangle)]
pub extern "C" fn hcs_may_be_used(
    alloc: Global,
    cache: &HcsCache,
    stored: &[u8],
    request: &[u8],
    now: &HcsTime,
) -> i32
    ensures value { IsDone result → ForAsked stored.now request.now (λ e asked.
        result ≡ bool_code (may_be_used e (joined_request asked) (nanosecond_in now.now))) }
    ensures malformed { result ≡ malformed → IsUnasked stored.now request.now }
    ensures full { result ≡ full → OverfillsRequest request.now }
    ensures bad_argument { result ≡ bad_argument → ¬ (IsTime now.now) }
    ensures others { ¬ (result ≡ undated) × ¬ (result ≡ too_small) }
{
    let Some(now) = time_of(now) else {
        return BAD_ARGUMENT;
    };
    let Some(keys) = keys_of(cache) else {
        return NO_MEMORY;
    };
    match may_be_used(alloc, keys, stored, request, now) {
        Ok(found) => code_of_bool(found),
        Err(e) => code_of(e),
    }
}

/// Returns which uses of the stored response are allowed for the request once it is stale: 1 while
/// it is validated, 2 if the origin server fails, 3 for both, 0 for neither.
#[unsafe(no_mangle)]
pub extern "C" fn hcs_stale_use(
    alloc: Global,
    cache: &HcsCache,
    stored: &[u8],
    request: &[u8],
    now: &HcsTime,
) -> i32
    ensures value { IsDone result → ForAsked stored.now request.now
        (λ e asked. result ≡ stale_use_code (stale_use e asked (nanosecond_in now.now))) }
    ensures malformed { result ≡ malformed → IsUnasked stored.now request.now }
    ensures full { result ≡ full → OverfillsRequest request.now }
    ensures bad_argument { result ≡ bad_argument → ¬ (IsTime now.now) }
    ensures others { ¬ (result ≡ undated) × ¬ (result ≡ too_small) }
{
    let Some(now) = time_of(now) else {
        return BAD_ARGUMENT;
    };
    let Some(keys) = keys_of(cache) else {
        return NO_MEMORY;
    };
    match stale_use(alloc, keys, stored, request, now) {
        Ok(found) => code_of_stale_use(found),
        Err(e) => code_of(e),
    }
}

/// Returns 1 if a 304 answers the request's own conditions, else 0.
#[unsafe(no_mangle)]
pub extern "C" fn hcs_is_not_modified_for(
    alloc: Global,
    cache: &HcsCache,
    stored: &[u8],
    request: &[u8],
) -> i32
    ensures value { IsDone result → ForAsked stored.now request.now
        (λ e asked. result ≡ bool_code (is_not_modified_for e asked)) }
    ensures malformed { result ≡ malformed → IsUnasked stored.now request.now }
    ensures full { result ≡ full → OverfillsRequest request.now }
    ensures others { ¬ (result ≡ undated) × ¬ (result ≡ too_small) × ¬ (result ≡ bad_argument) }
{
    let Some(keys) = keys_of(cache) else {
        return NO_MEMORY;
    };
    match is_not_modified_for(alloc, keys, stored, request) {
        Ok(found) => code_of_bool(found),
        Err(e) => code_of(e),
    }
}

/// Returns 1 if the response is a 304 that selects the stored response, else 0.
#[unsafe(no_mangle)]
pub extern "C" fn hcs_is_confirmed_by(
    alloc: Global,
    cache: &HcsCache,
    stored: &[u8],
    response: &[u8],
) -> i32
    ensures value { IsDone result → ForConfirmed stored.now response.now
        (λ e answered. result ≡ bool_code (selects e answered)) }
    ensures malformed { result ≡ malformed → IsUnconfirmed stored.now response.now }
    ensures full { result ≡ full → OverfillsResponse response.now }
    ensures others { ¬ (result ≡ undated) × ¬ (result ≡ too_small) × ¬ (result ≡ bad_argument) }
{
    let Some(keys) = keys_of(cache) else {
        return NO_MEMORY;
    };
    match is_confirmed_by(alloc, keys, stored, response) {
        Ok(found) => code_of_bool(found),
        Err(e) => code_of(e),
    }
}

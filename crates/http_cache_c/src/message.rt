//! Heads of responses that are made from others.
ghost use Rattle.std.specs.Prelude.{◌≡◌, ◌⊎◌, ℕ, List, pos};
ghost use Rattle.http_heads.specs.Heads.{IsNoResponse, OverfillsResponse};
ghost use Rattle.http_cache_semantics.specs.ResponseAt.{RefusesAge};
ghost use Rattle.http_cache_semantics.specs.Updated.{updating_fields, updated_values, HasNoRoom};
ghost use Rattle.http_cache_bytes.specs.Cause.{ForPolicy, ForResponse, ForBoth};
ghost use Rattle.http_cache_bytes.specs.Form.{IsNoForm};
ghost use Rattle.http_cache_bytes.specs.Message.{IsHeadAt, IsJoined, IsUpdated};
ghost use Rattle.http_cache_c.specs.Arguments.{nanosecond_in, IsTime};
ghost use Rattle.http_cache_c.specs.Buffer.{IsHanded, LacksRoom};
ghost use Rattle.http_cache_c.specs.Codes.{malformed, full, undated, too_small, bad_argument, IsDone};

use crate::arguments::{HcsCache, HcsTime, keys_of, time_of};
use crate::buffer::hand;
use crate::codes::{BAD_ARGUMENT, NO_MEMORY, code_of};
use http_cache_bytes::{joined, response_at, updated};
use std::alloc::Global;

/// Writes the head of the stored response as it may be sent, fresh or not, and returns 0.
#[unsafe(no_mangle)]
pub extern "C" fn hcs_response_at(
    alloc: Global,
    stored: &[u8],
    now: &HcsTime,
    out: &mut [u8],
    needed: &mut usize,
) -> i32
    ensures head { IsDone result → (head : List ℕ)
        × ForPolicy stored.now (λ e. IsHeadAt e (nanosecond_in now.now) head)
        × IsHanded (pos 0) head result needed.new out.old out.new }
    ensures malformed { result ≡ malformed → IsNoForm stored.now }
    ensures full { result ≡ full → ForPolicy stored.now RefusesAge }
    ensures never_undated { ¬ (result ≡ undated) }
    ensures too_small { result ≡ too_small → (head : List ℕ)
        × ForPolicy stored.now (λ e. IsHeadAt e (nanosecond_in now.now) head)
        × LacksRoom head needed.new out.old }
    ensures bad_argument { result ≡ bad_argument → ¬ (IsTime now.now) }
    ensures kept { ¬ (IsDone result) → out.new ≡ out.old }
    ensures none_needed { ¬ (IsDone result) → ¬ (result ≡ too_small) → needed.new ≡ 0 }
{
    *needed = 0;
    let Some(now) = time_of(now) else {
        return BAD_ARGUMENT;
    };
    match response_at(alloc, stored, now) {
        Ok(head) => hand(0, head.as_slice(), out, needed),
        Err(e) => code_of(e),
    }
}

/// Writes the head of a response with one field line for each name, and returns 0.
#[unsafe(no_mangle)]
pub extern "C" fn hcs_joined(
    alloc: Global,
    cache: &HcsCache,
    response: &[u8],
    out: &mut [u8],
    needed: &mut usize,
) -> i32
    ensures head { IsDone result → (head : List ℕ)
        × ForResponse response.now (λ r. IsJoined r head)
        × IsHanded (pos 0) head result needed.new out.old out.new }
    ensures malformed { result ≡ malformed → IsNoResponse response.now }
    ensures full { result ≡ full → OverfillsResponse response.now }
    ensures others { ¬ (result ≡ undated) × ¬ (result ≡ bad_argument) }
    ensures too_small { result ≡ too_small → (head : List ℕ)
        × ForResponse response.now (λ r. IsJoined r head)
        × LacksRoom head needed.new out.old }
    ensures kept { ¬ (IsDone result) → out.new ≡ out.old }
    ensures none_needed { ¬ (IsDone result) → ¬ (result ≡ too_small) → needed.new ≡ 0 }
{
    *needed = 0;
    let Some(keys) = keys_of(cache) else {
        return NO_MEMORY;
    };
    match joined(alloc, keys, response) {
        Ok(head) => hand(0, head.as_slice(), out, needed),
        Err(e) => code_of(e),
    }
}

/// Writes the head of a stored response with the fields of a 304, and returns 0.
#[unsafe(no_mangle)]
pub extern "C" fn hcs_updated(
    alloc: Global,
    cache: &HcsCache,
    stored: &[u8],
    received: &[u8],
    out: &mut [u8],
    needed: &mut usize,
) -> i32
    ensures head { IsDone result → (head : List ℕ)
        × ForBoth stored.now received.now (λ r s. IsUpdated r s head)
        × IsHanded (pos 0) head result needed.new out.old out.new }
    ensures malformed { result ≡ malformed → IsNoResponse stored.now ⊎ IsNoResponse received.now }
    ensures full { result ≡ full → OverfillsResponse stored.now ⊎ (OverfillsResponse received.now
        ⊎ ForBoth stored.now received.now
        (λ r s. HasNoRoom (updated_values r.headers (updating_fields s.headers)))) }
    ensures others { ¬ (result ≡ undated) × ¬ (result ≡ bad_argument) }
    ensures too_small { result ≡ too_small → (head : List ℕ)
        × ForBoth stored.now received.now (λ r s. IsUpdated r s head)
        × LacksRoom head needed.new out.old }
    ensures kept { ¬ (IsDone result) → out.new ≡ out.old }
    ensures none_needed { ¬ (IsDone result) → ¬ (result ≡ too_small) → needed.new ≡ 0 }
{
    *needed = 0;
    let Some(keys) = keys_of(cache) else {
        return NO_MEMORY;
    };
    match updated(alloc, keys, stored, received) {
        Ok(head) => hand(0, head.as_slice(), out, needed),
        Err(e) => code_of(e),
    }
}

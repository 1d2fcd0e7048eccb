//! New policies, and what a cache does with a request.
ghost use Rattle.std.specs.Prelude.{◌≡◌, ◌⊎◌, List, ℕ, pos, IsUtf8};
ghost use Rattle.http_heads.specs.Heads.{OverfillsRequest};
ghost use Rattle.http_cache_semantics.specs.CacheStatus.{cache_status};
ghost use Rattle.http_cache_semantics.specs.Exchange.{Exchange};
ghost use Rattle.http_cache_semantics.specs.Explain.{explanation};
ghost use Rattle.http_cache_semantics.specs.Refused.{RefusesAnswer, HasUndatedAnswer};
ghost use Rattle.http_cache_bytes.specs.Answer.{IsAnswerTo};
ghost use Rattle.http_cache_bytes.specs.Cause.{ForAsked, IsUnasked, IsNoExchange, OverfillsExchange};
ghost use Rattle.http_cache_bytes.specs.Form.{IsPolicyOf, IsStoredFor};
ghost use Rattle.http_cache_bytes.specs.declared.answer.Answer.{Answer};
ghost use Rattle.http_cache_bytes.specs.declared.form.Stored.{Stored};
ghost use Rattle.http_cache_c.specs.Arguments.{nanosecond_in, IsTime, options_in, AreOptions, IsForm};
ghost use Rattle.http_cache_c.specs.Buffer.{IsHanded, LacksRoom};
ghost use Rattle.http_cache_c.specs.Codes.{malformed, full, undated, too_small, bad_argument, IsDone};
ghost use Rattle.http_cache_c.specs.Results.{IsStoredOut, IsAnswerOut};

use crate::arguments::{HcsCache, HcsTime, form_of, keys_of, options_of, time_of};
use crate::buffer::hand;
use crate::codes::{BAD_ARGUMENT, NO_MEMORY, code_of, code_of_bool, code_of_verdict};
use http_cache_bytes::{before, explain, new};
use std::alloc::Global;

/// Writes the stored form of the policy of a response. Returns 1 if the response may be stored,
/// else 0.
#[unsafe(no_mangle)]
pub extern "C" fn hcs_new(
    alloc: Global,
    cache: &HcsCache,
    request: &[u8],
    response: &[u8],
    received: &HcsTime,
    out: &mut [u8],
    needed: &mut usize,
) -> i32
    ensures stored { IsDone result → (s : Stored) × (e : Exchange)
        × IsPolicyOf request.now response.now (options_in cache.now) (nanosecond_in received.now) e
        × IsStoredFor e s × IsStoredOut s result needed.new out.old out.new }
    ensures malformed { result ≡ malformed → IsNoExchange request.now response.now }
    ensures full { result ≡ full → OverfillsExchange request.now response.now }
    ensures never_undated { ¬ (result ≡ undated) }
    ensures too_small { result ≡ too_small → (s : Stored) × (e : Exchange)
        × IsPolicyOf request.now response.now (options_in cache.now) (nanosecond_in received.now) e
        × IsStoredFor e s × LacksRoom s.form.items needed.new out.old }
    ensures bad_argument { result ≡ bad_argument
        → ¬ (AreOptions cache.now × IsForm cache.now × IsTime received.now) }
    ensures kept { ¬ (IsDone result) → out.new ≡ out.old }
    ensures none_needed { ¬ (IsDone result) → ¬ (result ≡ too_small) → needed.new ≡ 0 }
{
    *needed = 0;
    let Some(options) = options_of(cache) else {
        return BAD_ARGUMENT;
    };
    let Some(received) = time_of(received) else {
        return BAD_ARGUMENT;
    };
    let Some(keys) = keys_of(cache) else {
        return NO_MEMORY;
    };
    let Some(form) = form_of(cache) else {
        return BAD_ARGUMENT;
    };
    match new(alloc, keys, form, request, response, options, received) {
        Ok(stored) => hand(
            code_of_bool(stored.storable),
            stored.form.as_slice(),
            out,
            needed,
        ),
        Err(e) => code_of(e),
    }
}

/// Writes the head that a cache sends for a request. Returns 0 if the stored response is fresh, 1
/// if it is validated, 2 if the request is forwarded.
#[unsafe(no_mangle)]
pub extern "C" fn hcs_before(
    alloc: Global,
    cache: &HcsCache,
    stored: &[u8],
    request: &[u8],
    now: &HcsTime,
    out: &mut [u8],
    needed: &mut usize,
) -> i32
    ensures answer { IsDone result → (a : Answer) × ForAsked stored.now request.now
        (λ e asked. IsAnswerTo e asked (nanosecond_in now.now) a)
        × IsAnswerOut a result needed.new out.old out.new }
    ensures malformed { result ≡ malformed → IsUnasked stored.now request.now }
    ensures full { result ≡ full → OverfillsRequest request.now
        ⊎ ForAsked stored.now request.now (λ e asked. RefusesAnswer e asked (nanosecond_in now.now)) }
    ensures undated { result ≡ undated → ForAsked stored.now request.now
        (λ e asked. HasUndatedAnswer e asked (nanosecond_in now.now)) }
    ensures too_small { result ≡ too_small → (a : Answer) × ForAsked stored.now request.now
        (λ e asked. IsAnswerTo e asked (nanosecond_in now.now) a)
        × LacksRoom a.head.items needed.new out.old }
    ensures bad_argument { result ≡ bad_argument → ¬ (IsTime now.now) }
    ensures kept { ¬ (IsDone result) → out.new ≡ out.old }
    ensures none_needed { ¬ (IsDone result) → ¬ (result ≡ too_small) → needed.new ≡ 0 }
{
    *needed = 0;
    let Some(now) = time_of(now) else {
        return BAD_ARGUMENT;
    };
    let Some(keys) = keys_of(cache) else {
        return NO_MEMORY;
    };
    match before(alloc, keys, stored, request, now) {
        Ok(answer) => hand(
            code_of_verdict(answer.verdict),
            answer.head.as_slice(),
            out,
            needed,
        ),
        Err(e) => code_of(e),
    }
}

/// Writes the member of Cache-Status, and returns 0.
#[unsafe(no_mangle)]
pub extern "C" fn hcs_explain(
    alloc: Global,
    cache: &HcsCache,
    stored: &[u8],
    request: &[u8],
    now: &HcsTime,
    name: &[u8],
    out: &mut [u8],
    needed: &mut usize,
) -> i32
    ensures member { IsDone result → (text : List ℕ) × ForAsked stored.now request.now
        (λ e asked. text ≡ cache_status name.now (explanation e asked (nanosecond_in now.now)))
        × IsHanded (pos 0) text result needed.new out.old out.new }
    ensures malformed { result ≡ malformed → IsUnasked stored.now request.now }
    ensures full { result ≡ full → OverfillsRequest request.now }
    ensures never_undated { ¬ (result ≡ undated) }
    ensures too_small { result ≡ too_small → (text : List ℕ) × ForAsked stored.now request.now
        (λ e asked. text ≡ cache_status name.now (explanation e asked (nanosecond_in now.now)))
        × LacksRoom text needed.new out.old }
    ensures bad_argument { result ≡ bad_argument → ¬ (IsTime now.now × IsUtf8 name.now) }
    ensures kept { ¬ (IsDone result) → out.new ≡ out.old }
    ensures none_needed { ¬ (IsDone result) → ¬ (result ≡ too_small) → needed.new ≡ 0 }
{
    *needed = 0;
    let Some(now) = time_of(now) else {
        return BAD_ARGUMENT;
    };
    let Ok(name) = std::str::from_utf8(name) else {
        return BAD_ARGUMENT;
    };
    let Some(keys) = keys_of(cache) else {
        return NO_MEMORY;
    };
    match explain(alloc, keys, stored, request, now, name) {
        Ok(text) => hand(0, text.as_str().as_bytes(), out, needed),
        Err(e) => code_of(e),
    }
}

//! What is stored and sent after the origin server has responded.
ghost use Rattle.std.specs.Prelude.{◌≡◌, ◌⊎◌};
ghost use Rattle.http_cache_semantics.specs.Fresh.{RefusesFreshHeaders, HasNoDate};
ghost use Rattle.http_cache_semantics.specs.Update.{next_exchange};
ghost use Rattle.http_cache_bytes.specs.Cause.{ForReceived, IsNoExchange, OverfillsExchange};
ghost use Rattle.http_cache_bytes.specs.Form.{IsNoForm};
ghost use Rattle.http_cache_bytes.specs.Next.{IsNextFor};
ghost use Rattle.http_cache_bytes.specs.declared.next.Next.{Next};
ghost use Rattle.http_cache_c.specs.Arguments.{nanosecond_in, IsTime, IsForm};
ghost use Rattle.http_cache_c.specs.Codes.{malformed, full, undated, too_small, bad_argument, IsDone};
ghost use Rattle.http_cache_c.specs.Results.{IsNextOut, LacksRoomForNext};

use crate::arguments::{HcsCache, HcsTime, form_of, keys_of, time_of};
use crate::buffer::write_both;
use crate::codes::{BAD_ARGUMENT, NO_MEMORY, TOO_SMALL, code_of, code_of_next};
use http_cache_bytes::{Next, after};
use std::alloc::Global;

// Writes both the stored form and the head if there is room for them, else nothing.
fn hand_next(
    next: &Next,
    form: &mut [u8],
    form_needed: &mut usize,
    out: &mut [u8],
    needed: &mut usize,
) -> i32
    ensures done { IsDone result → IsNextOut next.now result form_needed.new form.old form.new
        needed.new out.old out.new }
    ensures failed { ¬ (IsDone result) → result ≡ too_small }
    ensures small { ¬ (IsDone result)
        → LacksRoomForNext next.now form_needed.new form.old needed.new out.old }
    ensures form_kept { ¬ (IsDone result) → form.new ≡ form.old }
    ensures kept { ¬ (IsDone result) → out.new ≡ out.old }
{
    let is_written = write_both(
        next.stored.form.as_slice(),
        form,
        form_needed,
        next.head.as_slice(),
        out,
        needed,
    );
    if is_written {
        code_of_next(next)
    } else {
        TOO_SMALL
    }
}

/// Writes the next stored form and the head for the client, after the origin server has responded.
/// Returns 0 if the stored body stays, 1 if the received body replaces it, 2 if it does and the
/// response may not be stored.
#[unsafe(no_mangle)]
pub extern "C" fn hcs_after(
    alloc: Global,
    cache: &HcsCache,
    stored: &[u8],
    request: &[u8],
    response: &[u8],
    now: &HcsTime,
    form: &mut [u8],
    form_needed: &mut usize,
    out: &mut [u8],
    needed: &mut usize,
) -> i32
    ensures next { IsDone result → (n : Next) × ForReceived stored.now request.now response.now
        (λ e asked answered. IsNextFor e asked answered (nanosecond_in now.now) n)
        × IsNextOut n result form_needed.new form.old form.new needed.new out.old out.new }
    ensures malformed { result ≡ malformed
        → IsNoForm stored.now ⊎ IsNoExchange request.now response.now }
    ensures full { result ≡ full → OverfillsExchange request.now response.now
        ⊎ ForReceived stored.now request.now response.now (λ e asked answered. RefusesFreshHeaders
        (next_exchange e asked answered (nanosecond_in now.now)) (nanosecond_in now.now)) }
    ensures undated { result ≡ undated → ForReceived stored.now request.now response.now
        (λ e asked answered. HasNoDate
        (next_exchange e asked answered (nanosecond_in now.now)) (nanosecond_in now.now)) }
    ensures too_small { result ≡ too_small
        → (n : Next) × ForReceived stored.now request.now response.now
        (λ e asked answered. IsNextFor e asked answered (nanosecond_in now.now) n)
        × LacksRoomForNext n form_needed.new form.old needed.new out.old }
    ensures bad_argument { result ≡ bad_argument → ¬ (IsForm cache.now × IsTime now.now) }
    ensures form_kept { ¬ (IsDone result) → form.new ≡ form.old }
    ensures kept { ¬ (IsDone result) → out.new ≡ out.old }
    ensures none_needed { ¬ (IsDone result) → ¬ (result ≡ too_small)
        → (form_needed.new ≡ 0) × (needed.new ≡ 0) }
{
    *form_needed = 0;
    *needed = 0;
    let Some(now) = time_of(now) else {
        return BAD_ARGUMENT;
    };
    let Some(keys) = keys_of(cache) else {
        return NO_MEMORY;
    };
    let Some(written) = form_of(cache) else {
        return BAD_ARGUMENT;
    };
    match after(alloc, keys, written, stored, request, response, now) {
        Ok(next) => hand_next(&next, form, form_needed, out, needed),
        Err(e) => code_of(e),
    }
}

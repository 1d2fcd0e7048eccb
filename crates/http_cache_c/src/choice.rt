//! Which of several stored responses a cache uses for a request.
ghost use Rattle.std.specs.Prelude.{◌≡◌, ◌⊎◌, Option, length};
ghost use Rattle.http_heads.specs.Heads.{IsNoRequest, OverfillsRequest};
ghost use Rattle.http_cache_semantics.specs.Refused.{RefusesAnswer, HasUndatedAnswer};
ghost use Rattle.http_cache_semantics.specs.Variants.{IsOfChosen};
ghost use Rattle.http_cache_bytes.specs.Choice.{AreNoPolicies, ForVariants, IsChosenFor};
ghost use Rattle.http_cache_bytes.specs.declared.choice.Chosen.{Chosen};
ghost use Rattle.http_cache_c.specs.Arguments.{nanosecond_in, IsTime};
ghost use Rattle.http_cache_c.specs.Codes.{malformed, full, undated, too_small, bad_argument, IsDone};
ghost use Rattle.http_cache_c.specs.Results.{IsChosenOut, LacksRoomForChosen};

use crate::arguments::{HcsCache, HcsTime, keys_of, time_of};
use crate::buffer::hand;
use crate::codes::{BAD_ARGUMENT, NO_MEMORY, code_of, code_of_verdict};
use http_cache_bytes::{Chosen, Verdict, choose};
use std::alloc::Global;

// Writes the index and the head of the chosen response. If there is none, the index becomes the
// number of stored responses.
fn hand_chosen(
    chosen: &Option<Chosen>,
    count: usize,
    index: &mut usize,
    out: &mut [u8],
    needed: &mut usize,
) -> i32
    ensures done { IsDone result
        → IsChosenOut chosen.now count result index.new needed.new out.old out.new }
    ensures failed { ¬ (IsDone result) → result ≡ too_small }
    ensures small { ¬ (IsDone result)
        → LacksRoomForChosen chosen.now index.new needed.new out.old }
    ensures kept { ¬ (IsDone result) → out.new ≡ out.old }
{
    let Some(chosen) = chosen else {
        *index = count;
        *needed = 0;
        return code_of_verdict(Verdict::Forward);
    };
    *index = chosen.index;
    let answer = &chosen.answer;
    hand(
        code_of_verdict(answer.verdict),
        answer.head.as_slice(),
        out,
        needed,
    )
}

/// Writes which of several stored responses a cache uses for a request, and the head that it sends.
/// Returns 0 if the response is fresh, 1 if it is validated, 2 if the request is forwarded.
#[unsafe(no_mangle)]
pub extern "C" fn hcs_choose(
    alloc: Global,
    cache: &HcsCache,
    forms: &[u8],
    lengths: &[usize],
    request: &[u8],
    now: &HcsTime,
    index: &mut usize,
    out: &mut [u8],
    needed: &mut usize,
) -> i32
    ensures choice { IsDone result → (chosen : Option Chosen)
        × ForVariants forms.now lengths.now request.now
        (λ es asked. IsChosenFor es asked (nanosecond_in now.now) chosen)
        × IsChosenOut chosen (length lengths.now) result index.new needed.new out.old out.new }
    ensures malformed { result ≡ malformed
        → AreNoPolicies forms.now lengths.now ⊎ IsNoRequest request.now }
    ensures full { result ≡ full → OverfillsRequest request.now
        ⊎ ForVariants forms.now lengths.now request.now (λ es asked. IsOfChosen es asked
        (nanosecond_in now.now) (λ e. RefusesAnswer e asked (nanosecond_in now.now))) }
    ensures undated { result ≡ undated
        → ForVariants forms.now lengths.now request.now (λ es asked. IsOfChosen es asked
        (nanosecond_in now.now) (λ e. HasUndatedAnswer e asked (nanosecond_in now.now))) }
    ensures too_small { result ≡ too_small → (chosen : Option Chosen)
        × ForVariants forms.now lengths.now request.now
        (λ es asked. IsChosenFor es asked (nanosecond_in now.now) chosen)
        × LacksRoomForChosen chosen index.new needed.new out.old }
    ensures bad_argument { result ≡ bad_argument → ¬ (IsTime now.now) }
    ensures kept { ¬ (IsDone result) → out.new ≡ out.old }
    ensures none_needed { ¬ (IsDone result) → ¬ (result ≡ too_small) → needed.new ≡ 0 }
{
    *index = 0;
    *needed = 0;
    let Some(now) = time_of(now) else {
        return BAD_ARGUMENT;
    };
    let Some(keys) = keys_of(cache) else {
        return NO_MEMORY;
    };
    match choose(alloc, keys, forms, lengths, request, now) {
        Ok(chosen) => hand_chosen(&chosen, lengths.len(), index, out, needed),
        Err(e) => code_of(e),
    }
}

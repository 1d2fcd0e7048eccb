//! Reads the numbers of a recording.
ghost use Rattle.std.specs.Prelude.{◌≡◌, ◌<◌, ◌^◌, option_map, IfSome};
ghost use Rattle.serde_json.specs.View.{view, number_view};
ghost use Rattle.http_cache_recording.specs.Number.{whole_of_number, whole};

use serde_json::{Number, Value};
use std::num::saturating_f64_to_u64;

// A negative number has none.
fn whole_of_number(number: &Number) -> Option<u64>
    ensures { result ≡ whole_of_number (number_view number.now) }
{
    if let Some(n) = number.as_u64() {
        return Some(n);
    }
    if number.is_i64() {
        return None;
    }
    let x = number.as_f64()?;
    if x.is_sign_negative() {
        None
    } else {
        Some(saturating_f64_to_u64(x))
    }
}

/// Returns a number without its fraction, if it is from 0 to 2^53 - 1.
#[tactic(auto, unfolding(crate::specs::Number::whole))]
pub(crate) fn whole(value: Option<&Value>) -> Option<u64>
    ensures value { result ≡ whole (option_map (λ v. view v.now) value.entry) }
    ensures small { IfSome result (λ n. n < 2 ^ 53) }
{
    let n = whole_of_number(value?.as_number()?)?;
    if n < 1 << 53 { Some(n) } else { None }
}

//! Reads options and times from JSON values without allocation, and writes them.
ghost use Rattle.std.specs.Prelude.{◌≡◌, option_map, IfOk, pos, unsigned_abs};
ghost use Rattle.std.specs.Int.{int_rem_euclid};
ghost use Rattle.std.specs.Duration.{as_nanos};
ghost use Rattle.serde_json.specs.View.{view};
ghost use Rattle.http_cache_rules.specs.Options.{options_of};
ghost use Rattle.http_cache_json.specs.FormData.{options_data, moment_data, AreInRange};
ghost use Rattle.jiff_core.specs.Timestamp.{IsTimestampNanos};
ghost use Rattle.http_cache_json.specs.Form.{has_members, pair_of, wholes_of};
ghost use Rattle.http_cache_json.specs.Form.{moment_of, fraction_of, duration_of};
ghost use Rattle.http_cache_json.specs.Form.{options_of_data};

use http_cache_rules::options::{CacheOptions, Fraction};
use jiff::Timestamp;
use serde_json::{Value, json};
use std::alloc::{AllocError, Global};
use std::time::Duration;

/// Returns whether the value is an object of that many members.
pub fn has_members(value: &Value, count: usize) -> bool
    ensures { result ≡ has_members count (view value.now) }
{
    match value.as_object() {
        Some(members) => members.len() == count,
        None => false,
    }
}

/// Returns the two values of a list of two.
#[tactic(auto, using(crate::proofs::FormLemmas::two_of_fewer, crate::proofs::FormLemmas::two_of_more))]
pub fn pair(value: &Value) -> Option<(&Value, &Value)>
    ensures { option_map (λ p. (view p.0.now, view p.1.now)) result ≡ pair_of (view value.now) }
{
    match value.as_array()?.as_slice() {
        [a, b] => Some((a, b)),
        _ => None,
    }
}

#[tactic(auto, unfolding(crate::specs::Form::wholes_of))]
fn wholes(value: &Value) -> Option<(u64, u64)>
    ensures { result ≡ wholes_of (view value.now) }
{
    let (a, b) = pair(value)?;
    Some((a.as_u64()?, b.as_u64()?))
}

/// Returns the time of a list of a second and the nanoseconds after it.
#[tactic(auto, unfolding(crate::specs::Form::moment_of))]
pub fn moment_from_value(value: &Value) -> Option<Timestamp>
    ensures { option_map (λ t. t.nanosecond) result ≡ moment_of (view value.now) }
{
    let (second, nanosecond) = pair(value)?;
    let second = second.as_i64()?;
    let nanosecond = nanosecond.as_u64()?;
    if nanosecond >= 1_000_000_000 {
        return None;
    }
    Timestamp::from_nanosecond(second as i128 * 1_000_000_000 + nanosecond as i128).ok()
}

#[tactic(auto, unfolding(crate::specs::Form::fraction_of))]
fn fraction_from_value(value: &Value) -> Option<Fraction>
    ensures { result ≡ fraction_of (view value.now) }
{
    let (numerator, denominator) = wholes(value)?;
    if numerator > u32::MAX as u64 || denominator > u32::MAX as u64 {
        return None;
    }
    Fraction::new(numerator as u32, denominator as u32)
}

#[tactic(auto, unfolding(crate::specs::Form::duration_of))]
fn duration_from_value(value: &Value) -> Option<Duration>
    ensures { option_map as_nanos result ≡ duration_of (view value.now) }
{
    let (seconds, nanoseconds) = wholes(value)?;
    if nanoseconds >= 1_000_000_000 {
        return None;
    }
    Some(Duration::new(seconds, nanoseconds as u32))
}

/// Returns the options of an object with only these four members.
#[tactic(auto, unfolding(crate::specs::Form::options_of_data))]
pub fn options_from_value(value: &Value) -> Option<CacheOptions>
    ensures { option_map options_of result ≡ options_of_data (view value.now) }
{
    if !has_members(value, 4) {
        return None;
    }
    let shared = value.get("shared")?.as_bool()?;
    let cache_heuristic = fraction_from_value(value.get("cache_heuristic")?)?;
    let least = duration_from_value(value.get("immutable_min_time_to_live")?)?;
    let ignore_cargo_cult = value.get("ignore_cargo_cult")?.as_bool()?;
    Some(CacheOptions {
        shared,
        cache_heuristic,
        immutable_min_time_to_live: least,
        ignore_cargo_cult,
    })
}

/// Returns the value that is written for options.
#[tactic(auto, unfolding(crate::specs::FormData::options_data))]
pub fn value_of_options(alloc: Global, options: &CacheOptions) -> Result<Value, AllocError>
    ensures value { IfOk result (λ v. view v ≡ options_data (options_of options.now)) }
    ensures in_range { IfOk result (λ _. AreInRange (options_of options.now)) }
{
    let fraction = options.cache_heuristic;
    let least = options.immutable_min_time_to_live;
    json!(in alloc; {
        "cache_heuristic": [fraction.numerator(), fraction.denominator()],
        "ignore_cargo_cult": options.ignore_cargo_cult,
        "immutable_min_time_to_live": [least.as_secs(), least.subsec_nanos()],
        "shared": options.shared
    })
}

fn nanoseconds_of_second(moment: Timestamp) -> u32
    ensures { result ≡ unsigned_abs (int_rem_euclid moment.nanosecond (pos 1_000_000_000)) }
{
    moment.as_nanosecond().rem_euclid(1_000_000_000) as u32
}

/// Returns the value that is written for a time.
#[tactic(auto, unfolding(crate::specs::FormData::moment_data))]
pub fn value_of_moment(alloc: Global, moment: Timestamp) -> Result<Value, AllocError>
    ensures value { IfOk result (λ v. view v ≡ moment_data moment.nanosecond) }
    ensures in_range { IfOk result (λ _. IsTimestampNanos moment.nanosecond) }
{
    let second = moment.to_plain().floor_second();
    json!(in alloc; [second, nanoseconds_of_second(moment)])
}

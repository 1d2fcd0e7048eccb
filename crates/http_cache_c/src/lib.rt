//! The library's calls for C, as c/http_cache_semantics.h declares them. Each export calls the
//! function of `http_cache_bytes` with its name, and writes the result to the caller's buffers.
#![tactic(auto)]

ghost use Rattle.std.specs.Prelude.{◌≡◌};
ghost use Rattle.http_cache_semantics.specs.Options.{default_options};
ghost use Rattle.http_cache_c.specs.Arguments.{options_in, AreOptions};

mod answer;
mod arguments;
mod buffer;
mod choice;
mod codes;
mod facts;
mod message;
mod next;

pub use answer::{hcs_before, hcs_explain, hcs_new};
pub use arguments::{HcsCache, HcsDuration, HcsTime};
pub use choice::hcs_choose;
pub use facts::{
    hcs_age, hcs_fresh_at, hcs_freshness, hcs_is_confirmed_by, hcs_is_not_modified_for,
    hcs_may_be_used, hcs_stale_use, hcs_storability, hcs_time_to_live,
};
pub use message::{hcs_joined, hcs_response_at, hcs_updated};
pub use next::hcs_after;

/// Returns the version: a byte each for major, minor and patch.
#[unsafe(no_mangle)]
pub extern "C" fn hcs_version() -> u32 {
    0x00_0c_00
}

/// Writes the default options, with a secret of 0.
#[unsafe(no_mangle)]
pub extern "C" fn hcs_defaults(cache: &mut HcsCache)
    ensures options { options_in cache.new ≡ default_options }
    ensures valid { AreOptions cache.new }
    ensures secret { (cache.new.secret ≡ 0) × (cache.new.more_secret ≡ 0) }
    ensures form { cache.new.form ≡ 0 }
{
    *cache = HcsCache {
        secret: 0,
        more_secret: 0,
        immutable_seconds: 86_400,
        immutable_nanoseconds: 0,
        heuristic_numerator: 1,
        heuristic_denominator: 10,
        shared: 1,
        ignore_cargo_cult: 0,
        form: 0,
    };
}

//! Reads and writes the structs that C passes.
ghost use Rattle.std.specs.Prelude.{◌≡◌, IfSome, IfNone};
ghost use Rattle.std.specs.Duration.{as_nanos};
ghost use Rattle.http_cache_semantics.specs.Options.{options_of};
ghost use Rattle.http_cache_c.specs.Arguments.{nanosecond_in, IsTime, options_in, AreOptions, IsForm, nanos_of};

use http_cache_bytes::Form;
use http_cache_semantics::CacheOptions;
use http_cache_semantics::policy::Fraction;
use jiff::Timestamp;
use std::hash::RandomState;
use std::io;
use std::random::RandomSource;
use std::time::Duration;

/// The options of a cache, and its secret.
#[repr(C)]
#[derive(Clone, Copy)]
pub struct HcsCache {
    /// Random bits, chosen once for each process, against header names that collide.
    pub secret: u64,
    /// More random bits.
    pub more_secret: u64,
    /// The whole seconds of the least lifetime of a response that says `immutable`.
    pub immutable_seconds: u64,
    /// The nanoseconds after them, below 1,000,000,000.
    pub immutable_nanoseconds: u32,
    /// The numerator of the fraction of the time since Last-Modified that a response stays fresh.
    pub heuristic_numerator: u32,
    /// The denominator of that fraction, which isn't 0.
    pub heuristic_denominator: u32,
    /// Not 0 for a shared cache.
    pub shared: u8,
    /// Not 0 if cargo-cult directives are ignored.
    pub ignore_cargo_cult: u8,
    /// The form in which policies are written: 0 for the compact form, 1 for JSON.
    pub form: u8,
}

/// A time.
#[repr(C)]
#[derive(Clone, Copy)]
pub struct HcsTime {
    /// The whole seconds since 1970, rounded down.
    pub seconds: i64,
    /// The nanoseconds after them, below 1,000,000,000.
    pub nanoseconds: u32,
}

/// A duration.
#[repr(C)]
#[derive(Clone, Copy)]
pub struct HcsDuration {
    /// The whole seconds.
    pub seconds: u64,
    /// The nanoseconds after them, below 1,000,000,000.
    pub nanoseconds: u32,
}

#[derive(Drop)]
struct Secret {
    low: u64,
    high: u64,
}

impl RandomSource for Secret {
    fn fill_bytes(&self, buf: &mut [u8]) -> io::Result<()> {
        let secret = u128::from(self.high) << 64 | u128::from(self.low);
        let bytes = secret.to_le_bytes();
        for (to, from) in buf.iter_mut().zip(bytes.iter()) {
            *to = *from;
        }
        Ok(())
    }
}

/// Returns the keys of header maps, which exist, since a `Secret` always has bytes.
pub(crate) fn keys_of(cache: &HcsCache) -> Option<RandomState> {
    let secret = Secret {
        low: cache.secret,
        high: cache.more_secret,
    };
    RandomState::new(&secret).ok()
}

/// Returns the time, if it is in range.
pub(crate) fn time_of(time: &HcsTime) -> Option<Timestamp>
    ensures some { IfSome result (λ t. t.nanosecond ≡ nanosecond_in time.now) }
    ensures none { IfNone result (¬ (IsTime time.now)) }
{
    if time.nanoseconds >= 1_000_000_000 {
        return None;
    }
    let nanosecond = time.seconds as i128 * 1_000_000_000 + time.nanoseconds as i128;
    Timestamp::from_nanosecond(nanosecond).ok()
}

/// Returns the options, if they are in range.
pub(crate) fn options_of(cache: &HcsCache) -> Option<CacheOptions>
    ensures some { IfSome result (λ o. options_of o ≡ options_in cache.now) }
    ensures none { IfNone result (¬ (AreOptions cache.now)) }
{
    if cache.immutable_nanoseconds >= 1_000_000_000 {
        return None;
    }
    let cache_heuristic = Fraction::new(cache.heuristic_numerator, cache.heuristic_denominator)?;
    let immutable_min_time_to_live = Duration::new(
        cache.immutable_seconds,
        cache.immutable_nanoseconds,
    );
    Some(CacheOptions {
        shared: cache.shared != 0,
        cache_heuristic,
        immutable_min_time_to_live,
        ignore_cargo_cult: cache.ignore_cargo_cult != 0,
    })
}

pub(crate) fn duration_of(duration: Duration) -> HcsDuration
    ensures { nanos_of result ≡ as_nanos duration }
{
    HcsDuration {
        seconds: duration.as_secs(),
        nanoseconds: duration.subsec_nanos(),
    }
}

/// Returns the form in which policies are written, if the number is valid.
pub(crate) fn form_of(cache: &HcsCache) -> Option<Form>
    ensures none { IfNone result (¬ (IsForm cache.now)) }
{
    match cache.form {
        0 => Some(Form::Compact),
        1 => Some(Form::Json),
        _ => None,
    }
}

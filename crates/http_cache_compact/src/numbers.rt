//! Numbers of the compact form.
ghost use Rattle.std.specs.Prelude.{◌≡◌, ◌+◌, ◌≤◌, true, false, length, IfSome, IfNone, OnSome, option_map};
ghost use Rattle.http_cache_rules.specs.Options.{options_of};
ghost use Rattle.http_cache_compact.specs.Compact.{number_2, number_4, number_8, are_options, options_at, time_of};

use http_cache_rules::options::{CacheOptions, Fraction};
use jiff::Timestamp;
use std::time::Duration;

/// Returns the number of 2 bytes at an index.
#[tactic(auto, unfolding(crate::specs::Compact::number_2))]
pub(crate) fn number_2(bytes: &[u8], at: usize) -> u16
    requires { at + 2 ≤ length bytes.now }
    ensures { result ≡ number_2 bytes.now at }
{
    u16::from_be_bytes([bytes[at], bytes[at + 1]])
}

/// Returns the number of 4 bytes at an index.
#[tactic(auto, unfolding(crate::specs::Compact::number_4))]
pub(crate) fn number_4(bytes: &[u8], at: usize) -> u32
    requires { at + 4 ≤ length bytes.now }
    ensures { result ≡ number_4 bytes.now at }
{
    u32::from_be_bytes([bytes[at], bytes[at + 1], bytes[at + 2], bytes[at + 3]])
}

/// Returns the number of 8 bytes at an index.
#[tactic(auto, unfolding(crate::specs::Compact::number_8))]
pub(crate) fn number_8(bytes: &[u8], at: usize) -> u64
    requires { at + 8 ≤ length bytes.now }
    ensures { result ≡ number_8 bytes.now at }
{
    u64::from_be_bytes([
        bytes[at],
        bytes[at + 1],
        bytes[at + 2],
        bytes[at + 3],
        bytes[at + 4],
        bytes[at + 5],
        bytes[at + 6],
        bytes[at + 7],
    ])
}

/// Returns the options, if their numbers are in range.
pub(crate) fn options_in(bytes: &[u8]) -> Option<CacheOptions>
    requires { 52 ≤ length bytes.now }
    ensures some { IfSome result (λ o. options_of o ≡ options_at bytes.now) }
    ensures valid { OnSome result (are_options bytes.now ≡ true) }
    ensures none { IfNone result (are_options bytes.now ≡ false) }
{
    let flags = bytes[1];
    let nanoseconds = number_4(bytes, 18);
    if flags >= 4 || nanoseconds >= 1_000_000_000 {
        return None;
    }
    let cache_heuristic = Fraction::new(number_4(bytes, 2), number_4(bytes, 6))?;
    Some(CacheOptions {
        shared: flags % 2 == 1,
        cache_heuristic,
        immutable_min_time_to_live: Duration::new(number_8(bytes, 10), nanoseconds),
        ignore_cargo_cult: flags >= 2,
    })
}

/// Returns the response time, if it is in range.
#[tactic(auto, unfolding(crate::specs::Compact::time_of))]
pub(crate) fn time_in(bytes: &[u8]) -> Option<Timestamp>
    requires { 52 ≤ length bytes.now }
    ensures { option_map (λ t. t.nanosecond) result ≡ time_of bytes.now }
{
    let nanosecond = number_4(bytes, 30);
    if nanosecond >= 1_000_000_000 {
        return None;
    }
    let second = number_8(bytes, 22).cast_signed();
    Timestamp::from_nanosecond(second as i128 * 1_000_000_000 + nanosecond as i128).ok()
}

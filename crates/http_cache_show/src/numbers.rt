//! Numbers for people: kilobytes, durations and percentages, rounded half up.
ghost use Rattle.std.specs.Prelude.{◌<◌};

use crate::error::Fallible;
use std::alloc::Global;

/// Returns an amount in units, rounded half up.
pub fn rounded(amount: u64, unit: u64) -> u64
    requires { 1 < unit }
{
    let rest = amount % unit;
    amount / unit + (rest >= unit - rest) as u64
}

/// Returns a number as a text.
pub fn number_text(alloc: Global, number: u64) -> Fallible<String> {
    format!(in alloc; "{number}")
}

/// Returns bytes in thousands, rounded half up.
pub fn thousands(bytes: u64) -> u64 {
    rounded(bytes, 1_000)
}

/// Returns bytes in kilobytes (of 1000 bytes) with one decimal.
pub fn kilobytes(alloc: Global, bytes: u64) -> Fallible<String> {
    let tenths = rounded(bytes, 100);
    format!(in alloc; "{}.{} kB", tenths / 10, tenths % 10)
}

/// Returns seconds in days, hours or minutes, or below three minutes in seconds.
pub fn duration(alloc: Global, seconds: u64) -> Fallible<String> {
    let (amount, unit) = match seconds {
        0..180 => (seconds, "s"),
        180..3_600 => (rounded(seconds, 60), "min"),
        3_600..86_400 => (rounded(seconds, 3_600), "h"),
        _ => (rounded(seconds, 86_400), "d"),
    };
    format!(in alloc; "{amount} {unit}")
}

/// Returns the percentage of a part, rounded half up. It is 0 if `all` is 0.
pub fn percent(part: u64, all: u64) -> u64 {
    if all == 0 {
        return 0;
    }
    let percent = (part as u128 * 200 + all as u128) / (all as u128 * 2);
    percent.min(u64::MAX as u128) as u64
}

/// Returns the percentage of a part, at most 100.
pub fn part_of(part: u64, all: u64) -> u64 {
    percent(part, all).min(100)
}

//! The codes that a call returns.
ghost use Rattle.std.specs.Prelude.{◌≡◌};
ghost use Rattle.http_cache_c.specs.Codes.{IsDone, malformed, full, undated, too_small, bad_argument, verdict_code, bool_code, next_code};
ghost use Rattle.http_cache_c.specs.Codes.{source_code, stale_use_code, storability_code, permission_code, bit, obstacle_bits};

use http_cache_bytes::{Next, Verdict};
use http_cache_semantics::explain::{LifetimeSource, Obstacles, Permission, Storability};
use http_cache_semantics::{CacheError, StaleUse};

/// There is not enough memory.
pub(crate) const NO_MEMORY: i32 = -1;

/// A stored form or a head can't be read.
pub(crate) const MALFORMED: i32 = -2;

/// A header map has no room.
pub(crate) const FULL: i32 = -3;

/// A date can't be printed.
pub(crate) const UNDATED: i32 = -4;

/// A buffer is too small.
pub(crate) const TOO_SMALL: i32 = -5;

/// An argument is out of its range.
pub(crate) const BAD_ARGUMENT: i32 = -6;

pub(crate) fn code_of(e: CacheError) -> i32
    ensures negative { ¬ (IsDone result) }
    ensures malformed { result ≡ malformed → e ≡ CacheError.Malformed }
    ensures full { result ≡ full → e ≡ CacheError.HeaderMapFull }
    ensures undated { result ≡ undated → e ≡ CacheError.DateNotPrintable }
    ensures others { ¬ (result ≡ too_small) × ¬ (result ≡ bad_argument) }
{
    match e {
        CacheError::Memory => NO_MEMORY,
        CacheError::Malformed => MALFORMED,
        CacheError::HeaderMapFull => FULL,
        CacheError::DateNotPrintable => UNDATED,
    }
}

pub(crate) fn code_of_verdict(verdict: Verdict) -> i32
    ensures { result ≡ verdict_code verdict }
{
    match verdict {
        Verdict::Fresh => 0,
        Verdict::Validate => 1,
        Verdict::Forward => 2,
    }
}

pub(crate) fn code_of_bool(holds: bool) -> i32
    ensures { result ≡ bool_code holds }
{
    if holds { 1 } else { 0 }
}

pub(crate) fn code_of_next(next: &Next) -> i32
    ensures code { result ≡ next_code next.now }
    ensures done { IsDone result }
{
    if next.not_modified {
        0
    } else if next.stored.storable {
        1
    } else {
        2
    }
}

pub(crate) fn code_of_source(source: LifetimeSource) -> i32
    ensures { result ≡ source_code source }
{
    match source {
        LifetimeSource::NotStorable => 0,
        LifetimeSource::NoCache => 1,
        LifetimeSource::OwnCookies => 2,
        LifetimeSource::VaryAny => 3,
        LifetimeSource::ProxyRevalidate => 4,
        LifetimeSource::SMaxage => 5,
        LifetimeSource::MaxAge => 6,
        LifetimeSource::UnreadableExpires => 7,
        LifetimeSource::PastExpires => 8,
        LifetimeSource::Expires => 9,
        LifetimeSource::LastModified => 10,
        LifetimeSource::Immutable => 11,
        LifetimeSource::Nothing => 12,
    }
}

pub(crate) fn code_of_stale_use(allowed: StaleUse) -> i32
    ensures { result ≡ stale_use_code allowed }
{
    if allowed.while_revalidate {
        if allowed.if_error { 3 } else { 1 }
    } else if allowed.if_error {
        2
    } else {
        0
    }
}

fn code_of_permission(permission: Permission) -> i32
    ensures { result ≡ permission_code permission }
{
    match permission {
        Permission::Expires => 1,
        Permission::MaxAge => 2,
        Permission::SMaxage => 3,
        Permission::Public => 4,
        Permission::Status => 5,
    }
}

/// Returns the code of what allows a response to be stored, or 0.
pub(crate) fn code_of_storability(storability: Storability) -> i32
    ensures { result ≡ storability_code storability }
{
    match storability {
        Storability::Allowed(permission) => code_of_permission(permission),
        Storability::Forbidden(_) => 0,
    }
}

fn bit(holds: bool, value: u32) -> u32
    ensures { result ≡ bit holds value }
{
    if holds { value } else { 0 }
}

fn bits_of_obstacles(obstacles: Obstacles) -> u32
    ensures { result ≡ obstacle_bits (Storability.Forbidden obstacles) }
{
    bit(obstacles.request_no_store, 1)
        + bit(obstacles.method, 2)
        + bit(obstacles.status, 4)
        + bit(obstacles.response_no_store, 8)
        + bit(obstacles.private, 16)
        + bit(obstacles.authorization, 32)
        + bit(obstacles.no_permission, 64)
}

/// Returns a bit for each condition that forbids storing a response.
pub(crate) fn bits_of_storability(storability: Storability) -> u32
    ensures { result ≡ obstacle_bits storability }
{
    match storability {
        Storability::Allowed(_) => 0,
        Storability::Forbidden(obstacles) => bits_of_obstacles(obstacles),
    }
}

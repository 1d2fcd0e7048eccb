//! Makes the Cache-Status member of an explanation, before the request is forwarded (RFC 9211,
//! section 2).
ghost use Rattle.std.specs.Prelude.{◌≡◌, false, None, string_bytes, option_map, IfOk, IsOkUnless};
ghost use Rattle.std.specs.Duration.{as_nanos};
ghost use Rattle.http_cache_reasons.specs.Reason.{reason_seen, explanation_seen};
ghost use Rattle.http_cache_reasons.specs.StructuredField.{IsItem};
ghost use Rattle.http_cache_reasons.specs.Member.{member_seen};
ghost use Rattle.http_cache_reasons.specs.CacheStatus.{forward, outcome, time_left, stale_detail, detail};
ghost use Rattle.http_cache_reasons.specs.CacheStatus.{reported_detail, cache_status};

use crate::member::{CacheOutcome, Forward, Member, TimeLeft};
use crate::reason::{Explanation, Reason, StaleReason};
use http_cache_fields::CacheError;
use std::alloc::{AllocError, Global};
use std::time::Duration;

const NANOS_A_SECOND: u128 = 1_000_000_000;

// RFC 9211, section 2.2.
fn forward_for(reason: Reason<'_>, is_used_up: bool) -> Forward
    ensures { result ≡ forward is_used_up (reason_seen reason.entry) }
{
    match reason {
        Reason::Target | Reason::Host => Forward::UriMiss,
        Reason::OtherOfGetAndHead => Forward::Miss,
        Reason::Method => Forward::Method,
        Reason::Vary(_) => Forward::VaryMiss,
        Reason::NoCache | Reason::Pragma | Reason::MaxAge(_) | Reason::MinFresh(_) => {
            if is_used_up {
                Forward::Stale
            } else {
                Forward::Request
            }
        }
        Reason::Stale(_) => Forward::Stale,
    }
}

fn stale_detail(alloc: Global, why: StaleReason) -> Result<Option<String>, AllocError>
    ensures { IfOk result (λ reported. option_map string_bytes reported ≡ stale_detail why) }
{
    let text = match why {
        StaleReason::NotAsked => return Ok(None),
        StaleReason::NotStorable => String::from_str(alloc, "not storable")?,
        StaleReason::MustRevalidate => String::from_str(alloc, "must-revalidate")?,
        StaleReason::NoCache => String::from_str(alloc, "no-cache")?,
        StaleReason::TooStale(seconds) => format!(in alloc; "max-stale={seconds}")?,
    };
    Ok(Some(text))
}

fn detail_of(alloc: Global, reason: Reason<'_>) -> Result<Option<String>, AllocError>
    ensures { IfOk result (λ reported. option_map string_bytes reported
        ≡ detail (reason_seen reason.entry)) }
{
    let text = match reason {
        Reason::Target | Reason::OtherOfGetAndHead | Reason::Method => return Ok(None),
        Reason::Host => String::from_str(alloc, "host")?,
        Reason::Vary(name) => String::from_str(alloc, name)?,
        Reason::NoCache => String::from_str(alloc, "no-cache")?,
        Reason::Pragma => String::from_str(alloc, "pragma")?,
        Reason::MaxAge(seconds) => format!(in alloc; "max-age={seconds}")?,
        Reason::MinFresh(seconds) => format!(in alloc; "min-fresh={seconds}")?,
        Reason::Stale(why) => return stale_detail(alloc, why),
    };
    Ok(Some(text))
}

// Nothing is received or stored yet.
fn member_before<'b>(
    cache: &'b str,
    outcome: CacheOutcome,
    left: Option<TimeLeft>,
    detail: Option<&'b str>,
) -> Member<'b>
    ensures { member_seen result ≡ record {
      cache = cache.now;
      outcome = outcome;
      forward_status = None;
      stored = false;
      left = left;
      detail = option_map (λ t. t.now) detail.entry;
    } }
{
    Member {
        cache,
        outcome,
        forward_status: None,
        stored: false,
        left,
        detail,
    }
}

impl TimeLeft {
    /// Returns what remains of a lifetime at an age (RFC 9211, section 2.4).
    ///
    /// For a stored response pass `freshness().lifetime` and `age(now)`.
    pub fn of(lifetime: Duration, age: Duration) -> TimeLeft
        ensures value { result ≡ time_left (as_nanos lifetime) (as_nanos age) }
    {
        let lifetime = lifetime.as_nanos();
        let age = age.as_nanos();
        if age <= lifetime {
            return TimeLeft::Left((lifetime - age) / NANOS_A_SECOND);
        }
        TimeLeft::Past((age - lifetime + (NANOS_A_SECOND - 1)) / NANOS_A_SECOND)
    }
}

impl<'a> Explanation<'a> {
    /// Returns a hit, or why the request is forwarded (RFC 9211, sections 2.1 and 2.2).
    ///
    /// If the stored response matches and its lifetime is used up, that is `Forward::Stale`,
    /// whatever the request asks.
    pub fn outcome(&self) -> CacheOutcome
        ensures value { result ≡ outcome (explanation_seen self.now) }
    {
        let Some(reason) = self.reason else {
            return CacheOutcome::Hit;
        };
        let is_used_up = self.freshness.lifetime.as_nanos() <= self.age.as_nanos();
        CacheOutcome::Forwarded(forward_for(reason, is_used_up))
    }

    /// Returns what remains of the stored response's lifetime (RFC 9211, section 2.4).
    pub fn time_left(&self) -> TimeLeft
        ensures value { result
            ≡ time_left (explanation_seen self.now).freshness.1 (explanation_seen self.now).age }
    {
        TimeLeft::of(self.freshness.lifetime, self.age)
    }

    /// Returns the field or directive that the reason is about, such as `no-cache`, `max-age=5` or
    /// a name of Vary, if there is one (RFC 9211, section 2.8). The only error is
    /// `CacheError::Memory`.
    pub fn detail(&self, alloc: Global) -> Result<Option<String>, CacheError>
        ensures value { IfOk result (λ text. option_map string_bytes text
            ≡ reported_detail (explanation_seen self.now)) }
        ensures only_memory { IsOkUnless result CacheError.Memory }
    {
        let Some(reason) = self.reason else {
            return Ok(None);
        };
        Ok(detail_of(alloc, reason)?)
    }

    /// Returns the Cache-Status member of a cache before it forwards the request, such as
    /// `ExampleCache; hit; ttl=30` or `ExampleCache; fwd=stale` (RFC 9211, section 2).
    ///
    /// Only a hit has `ttl`, which is about the response that carries the member. Make a `Member`
    /// for what is known later. The name is a token if it can be one, otherwise a string with `?`
    /// for each byte that a string can't have. A `ttl` of more than 15 digits is left out. The only
    /// error is `CacheError::Memory`.
    pub fn cache_status(&self, alloc: Global, cache: &str) -> Result<String, CacheError>
        ensures value { IfOk result (λ text. string_bytes text
            ≡ cache_status cache.now (explanation_seen self.now)) }
        ensures grammar { IfOk result (λ text. IsItem (string_bytes text)) }
        ensures only_memory { IsOkUnless result CacheError.Memory }
    {
        let outcome = self.outcome();
        let text = self.detail(alloc)?;
        let left = match outcome {
            CacheOutcome::Hit => Some(self.time_left()),
            _ => None,
        };
        member_before(cache, outcome, left, text.as_deref()).text(alloc)
    }
}

//! Decides whether a stored response may be used without validation (RFC 7234, section 4).
ghost use Rattle.std.specs.Prelude.{◌≡◌, ◌*◌, ℤ, true, false, codes, List};
ghost use Rattle.std.specs.Duration.{as_nanos};
ghost use Rattle.http_cache_fields.specs.Headers.{headers_of};
ghost use Rattle.http_cache_fields.specs.Directives.{Directive, has};
ghost use Rattle.http_cache_rules.specs.Asks.{Asks, asks_of, asked_directives, requested_by};
ghost use Rattle.http_cache_policy.specs.Exchange.{stored_directives};
ghost use Rattle.http_cache_rules.specs.Storability.{is_storable};
ghost use Rattle.http_cache_policy.specs.Age.{age_at};
ghost use Rattle.http_cache_policy.specs.Match.{request_matches};
ghost use Rattle.http_cache_policy.specs.Verdict.{satisfies, is_fresh_for};
ghost use Rattle.http_cache_policy.specs.Bound.{lesser, is_below, bound_by_lifetime, bound_by_max_age};
ghost use Rattle.http_cache_policy.specs.Bound.{bound_by_min_fresh, bound, is_fresh_by_bound};

use crate::policy::{CachePolicy, RequestLike};
use http::HeaderMap;
use http_cache_fields::pragma::pragma_forbids;
use http_cache_rules::asks::{RequestDirectives, directives_of_request};
use jiff::Timestamp;
use std::time::Duration;

/// Returns seconds as nanoseconds.
pub(crate) fn nanos(seconds: u64) -> u128
    ensures { result ≡ seconds * 1_000_000_000 }
{
    u128::from(seconds) * 1_000_000_000
}

// None is no bound.
fn lesser(one: Option<u128>, other: Option<u128>) -> Option<u128>
    ensures { result ≡ lesser one other }
{
    match (one, other) {
        (Some(one), Some(other)) => Some(one.min(other)),
        (Some(one), None) => Some(one),
        (None, other) => other,
    }
}

/// Returns whether an age is below a bound, if there is one.
pub(crate) fn is_below(bound: Option<u128>, age: u128) -> bool
    ensures { result ≡ is_below bound age }
{
    match bound {
        Some(bound) => age < bound,
        None => true,
    }
}

// The age may reach max-age, hence a nanosecond more (RFC 7234, section 5.2.1.1).
fn bound_by_max_age(asked: &RequestDirectives) -> Option<u128>
    ensures { (ds : List Directive) → asked.now ≡ requested_by ds → result ≡ bound_by_max_age ds }
{
    Some(nanos(asked.max_age.number()?) + 1)
}

impl CachePolicy {
    /// Returns whether the stored response may be used for a request at `now` without validation
    /// (RFC 7234, section 4).
    ///
    /// It is true exactly if `before_request` returns `Fresh`, apart from its errors. A response
    /// that may not be stored, or has `no-cache`, may never be used.
    pub fn fresh_at<Req: RequestLike>(&self, req: &Req, now: Timestamp) -> bool
        ensures verdict { result ≡ is_fresh_for self.now (Req.seen req.now) now.nanosecond }
        ensures bound { result ≡ is_fresh_by_bound self.now (Req.seen req.now) now.nanosecond }
        ensures matches { result ≡ true → request_matches self.now (Req.seen req.now) ≡ true }
        ensures storable { result ≡ true → (is_storable self.now ≡ true)
            × (has (stored_directives self.now) (codes "no-cache") ≡ false) }
    {
        self.matches_request(req)
            && self.satisfies_without_revalidation(req.headers(), self.age(now))
    }

    /// Returns whether a matching request accepts the response at the age without validation.
    pub(crate) fn satisfies_without_revalidation(&self, headers: &HeaderMap, age: Duration) -> bool
        ensures { (now : ℤ) → as_nanos age ≡ age_at self.now now
            → result ≡ satisfies self.now (asks_of (headers_of headers.now)) now }
    {
        let asked = directives_of_request(headers);
        !(asked.no_cache || pragma_forbids(headers)) && is_below(self.bound(&asked), age.as_nanos())
    }

    /// Returns the bound below which the age must be, if there is one.
    pub(crate) fn bound(&self, asked: &RequestDirectives) -> Option<u128>
        ensures { (asks : Asks) → asked.now ≡ requested_by (asked_directives asks)
            → result ≡ bound self.now asks }
    {
        let others = lesser(bound_by_max_age(asked), self.bound_by_min_fresh(asked));
        lesser(self.bound_by_lifetime(asked), others)
    }

    // `max-stale` extends the lifetime (RFC 7234, section 4.2.4).
    fn bound_by_lifetime(&self, asked: &RequestDirectives) -> Option<u128>
        ensures { (ds : List Directive) → asked.now ≡ requested_by ds
            → result ≡ bound_by_lifetime self.now ds }
    {
        let lifetime = self.lifetime().as_nanos();
        if !asked.max_stale.is_said() || !self.lets_stale_out() {
            return Some(lifetime);
        }
        Some(lifetime + nanos(asked.max_stale.number()?))
    }

    // Below it, `min-fresh` is left of the lifetime (RFC 7234, section 5.2.1.3).
    fn bound_by_min_fresh(&self, asked: &RequestDirectives) -> Option<u128>
        ensures { (ds : List Directive) → asked.now ≡ requested_by ds
            → result ≡ bound_by_min_fresh self.now ds }
    {
        let least = asked.min_fresh.number()?;
        if least == 0 {
            return None;
        }
        Some((self.lifetime().as_nanos() + 1).saturating_sub(nanos(least)))
    }
}

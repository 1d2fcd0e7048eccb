//! Decides which stale use the origin server and the request allow (RFC 5861). Nothing here
//! allocates.
ghost use Rattle.std.specs.Prelude.{◌≡◌, ◌≤ℤ◌, ◌*◌, ℤ, true, false, List};
ghost use Rattle.http_cache_fields.specs.Headers.{headers_of};
ghost use Rattle.http_cache_fields.specs.Directives.{Directive};
ghost use Rattle.http_cache_rules.specs.Asks.{asks_of, asked_directives};
ghost use Rattle.http_cache_rules.specs.Asks.{requested_by, has_no_cache};
ghost use Rattle.http_cache_rules.specs.Asks.{is_young_enough, lasts_long_enough};
ghost use Rattle.http_cache_rules.specs.DeltaSeconds.{number_in};
ghost use Rattle.http_cache_policy.specs.Age.{is_stale_at};
ghost use Rattle.http_cache_policy.specs.Verdict.{is_fresh_for};
ghost use Rattle.http_cache_policy.specs.StaleUse.{forbids_stale, is_open_to_stale, is_within};
ghost use Rattle.http_cache_policy.specs.StaleUse.{lets_while_revalidate, lets_if_error, stale_use};

use crate::before::verdict::{is_below, nanos};
use crate::policy::{CachePolicy, RequestLike};
use http::HeaderMap;
use http_cache_fields::pragma::pragma_forbids;
use http_cache_rules::asks::{RequestDirectives, directives_of_request};
use http_cache_rules::delta_seconds::DeltaSeconds;
use http_cache_rules::lifetime::has_own_cookies;
use jiff::Timestamp;

/// The allowed uses of a stale response.
#[derive(Clone, Copy, Debug, PartialEq, Eq)]
pub struct StaleUse {
    /// Whether it may be used while it is validated (RFC 5861, section 3).
    pub while_revalidate: bool,
    /// Whether it may be used if the origin server can't be reached or responds with an error (RFC
    /// 5861, section 4).
    pub if_error: bool,
}

const NEITHER: StaleUse = StaleUse {
    while_revalidate: false,
    if_error: false,
};

fn asks_validation(asked: &RequestDirectives, headers: &HeaderMap) -> bool
    ensures { asked.now ≡ requested_by (asked_directives (asks_of (headers_of headers.now)))
        → result ≡ has_no_cache (asks_of (headers_of headers.now)) }
{
    asked.no_cache || pragma_forbids(headers)
}

// RFC 9111, section 5.2.1.1.
fn is_young_enough(asked: &RequestDirectives, age: u128) -> bool
    ensures { (ds : List Directive) → asked.now ≡ requested_by ds
        → result ≡ is_young_enough ds age }
{
    match asked.max_age.number() {
        Some(most) => age <= nanos(most),
        None => true,
    }
}

// RFC 9111, section 5.2.1.3.
fn lasts_long_enough(asked: &RequestDirectives, left: u128) -> bool
    ensures { (ds : List Directive) → asked.now ≡ requested_by ds
        → result ≡ lasts_long_enough ds left }
{
    match asked.min_fresh.number() {
        Some(least) => nanos(least) <= left,
        None => true,
    }
}

impl CachePolicy {
    /// Returns which stale use of the response is allowed for a request at `now` (RFC 5861,
    /// sections 3 and 4).
    ///
    /// Both uses require that the request matches, and that the response is storable, stale and not
    /// allowed by `max-stale`. Neither message may have `no-cache`, nor the response
    /// `must-revalidate`. In a shared cache it may have neither `proxy-revalidate` nor `s-maxage`,
    /// nor Set-Cookie without `public` or `immutable`. The age has to be below the lifetime plus
    /// the seconds of `stale-while-revalidate` or `stale-if-error`. `while_revalidate` also
    /// requires that the request's `max-age` and `min-fresh` are met.
    pub fn stale_use<Req: RequestLike>(&self, req: &Req, now: Timestamp) -> StaleUse
        ensures value { result ≡ stale_use self.now (Req.seen req.now) now.nanosecond }
        ensures not_while_fresh { is_fresh_for self.now (Req.seen req.now) now.nanosecond ≡ true
            → (result.while_revalidate ≡ false) × (result.if_error ≡ false) }
        ensures while_revalidate_earlier { result.while_revalidate ≡ true
            → (moment : ℤ) → moment ≤ℤ now.nanosecond → is_stale_at self.now moment ≡ true
            → is_fresh_for self.now (Req.seen req.now) moment ≡ false
            → (stale_use self.now (Req.seen req.now) moment).while_revalidate ≡ true }
        ensures if_error_earlier { result.if_error ≡ true
            → (moment : ℤ) → moment ≤ℤ now.nanosecond → is_stale_at self.now moment ≡ true
            → is_fresh_for self.now (Req.seen req.now) moment ≡ false
            → (stale_use self.now (Req.seen req.now) moment).if_error ≡ true }
    {
        if !self.is_open_to_stale(req, now) {
            return NEITHER;
        }
        let headers = req.headers();
        let asked = directives_of_request(headers);
        let age = self.age(now).as_nanos();
        if asks_validation(&asked, headers) || is_below(self.bound(&asked), age) {
            return NEITHER;
        }
        StaleUse {
            while_revalidate: self.lets_while_revalidate(&asked, age),
            if_error: self.lets_if_error(&asked, age),
        }
    }

    fn is_open_to_stale<Req: RequestLike>(&self, req: &Req, now: Timestamp) -> bool
        ensures { result ≡ is_open_to_stale self.now (Req.seen req.now) now.nanosecond }
    {
        self.is_storable()
            && self.is_stale(now)
            && self.matches_request(req)
            && !self.forbids_stale()
    }

    /// Returns whether the stored response forbids stale use, whatever the request asks (RFC 9111,
    /// section 4.2.4).
    ///
    /// `must-revalidate` and `no-cache` forbid it, and in a shared cache `proxy-revalidate`,
    /// `s-maxage`, and Set-Cookie without `public` or `immutable`. `before_request` obeys a
    /// request's `max-stale` all the same, as the Rust crate does, unless the response has
    /// `must-revalidate` or `no-cache`. A shared cache that follows RFC 9111 asks this too.
    pub fn forbids_stale(&self) -> bool
        ensures { result ≡ forbids_stale self.now }
    {
        let said = self.directives();
        said.must_revalidate
            || said.no_cache
            || (self.stored_options().shared
                && (said.proxy_revalidate
                    || said.s_maxage.is_said()
                    || has_own_cookies(self.stored_headers(), said)))
    }

    fn is_within(&self, more: DeltaSeconds, age: u128) -> bool
        ensures { result ≡ is_within self.now (number_in more) age }
    {
        match more.number() {
            Some(seconds) => age < self.lifetime().as_nanos() + nanos(seconds),
            None => false,
        }
    }

    // RFC 5861, section 3.
    fn lets_while_revalidate(&self, asked: &RequestDirectives, age: u128) -> bool
        ensures { (ds : List Directive) → asked.now ≡ requested_by ds
            → result ≡ lets_while_revalidate self.now ds age }
    {
        self.is_within(self.directives().stale_while_revalidate, age)
            && is_young_enough(asked, age)
            && lasts_long_enough(asked, self.lifetime().as_nanos().saturating_sub(age))
    }

    // RFC 5861, section 4.
    fn lets_if_error(&self, asked: &RequestDirectives, age: u128) -> bool
        ensures { (ds : List Directive) → asked.now ≡ requested_by ds
            → result ≡ lets_if_error self.now ds age }
    {
        self.is_within(self.directives().stale_if_error, age)
            || self.is_within(asked.stale_if_error, age)
    }
}

//! Explains why a stored response isn't used for a request, and why it may be stored or not.
ghost use Rattle.std.specs.Prelude.{◌≡◌, ◌∷◌, [], ℤ, true, false, not, List, codes, is_none, option_map};
ghost use Rattle.std.specs.Option.{option_map_or};
ghost use Rattle.http_cache_fields.specs.Headers.{headers_of};
ghost use Rattle.http_cache_fields.specs.Directives.{Directive, has};
ghost use Rattle.http_cache_rules.specs.Storability.{is_storable};
ghost use Rattle.http_cache_rules.specs.Storability.{storability, is_allowed};
ghost use Rattle.http_cache_rules.specs.FirstRow.{first_said};
ghost use Rattle.http_cache_rules.specs.Asks.{asks_of, asked_directives};
ghost use Rattle.http_cache_rules.specs.Asks.{requested_by, is_young_enough};
ghost use Rattle.http_cache_rules.specs.Asks.{lasts_long_enough, takes_stale};
ghost use Rattle.http_cache_reasons.specs.Reason.{reason_seen, is_mismatch, explanation_seen};
ghost use Rattle.http_cache_policy.specs.Match.{request_matches};
ghost use Rattle.http_cache_policy.specs.Verdict.{is_fresh_for};
ghost use Rattle.http_cache_policy.specs.Explain.{mismatch_rows, asked_rows, stale_rows, seconds_under};
ghost use Rattle.http_cache_policy.specs.Explain.{reason, explanation};
ghost use Rattle.http_cache_policy.specs.Explain.{is_get_or_head, method_reason};

use crate::before::verdict::nanos;
use crate::policy::{CachePolicy, RequestLike};
use http::header::{HOST, VARY};
use http::{HeaderMap, Method};
use http_cache_fields::headers::{has_same_first, has_same_first_under};
use http_cache_fields::pieces::pieces_under;
use http_cache_fields::pragma::pragma_forbids;
pub use http_cache_reasons::member::{CacheOutcome, Forward, Member, TimeLeft};
pub use http_cache_reasons::reason::{Explanation, Reason, StaleReason};
use http_cache_rules::asks::{RequestDirectives, directives_of_request};
pub use http_cache_rules::freshness::{Freshness, LifetimeSource};
use http_cache_rules::storability::storability_of;
pub use http_cache_rules::storability::{Obstacles, Permission, Storability};
use jiff::Timestamp;

impl CachePolicy {
    ghost use Rattle.std.specs.Prelude.{option_copied};
    ghost use Rattle.std.specs.List.{find};
    ghost use Rattle.http_cache_reasons.specs.Reason.{is_stale};
    ghost use Rattle.http_cache_policy.specs.Age.{age_at};
    ghost use Rattle.http_cache_policy.specs.Match.{varied_names};
    ghost use Rattle.http_cache_policy.specs.Explain.{differs_under};

    /// Returns the rule that allows to store the response, or every condition that forbids it (RFC
    /// 7234, section 3).
    pub fn storability(&self) -> Storability
        ensures value { result ≡ storability self.now }
        ensures storable { is_allowed result ≡ is_storable self.now }
    {
        storability_of(self.parts(), self.request_no_store(), self.directives())
    }

    /// Returns whether the stored response is used at `now` without validation, or why it isn't.
    ///
    /// The reason is the first that applies, in the order of `Reason`: the target, Host, the
    /// method, Vary's names, `no-cache`, Pragma, `max-age`, `min-fresh`, staleness. The method is a
    /// reason only for the stored target. Nothing is allocated.
    pub fn explain<Req: RequestLike>(&self, req: &Req, now: Timestamp) -> Explanation<'_>
        ensures value { explanation_seen result
            ≡ explanation self.now (Req.seen req.now) now.nanosecond }
        ensures hit { is_none result.reason
            ≡ is_fresh_for self.now (Req.seen req.now) now.nanosecond }
        ensures mismatch { option_map_or is_mismatch (option_map reason_seen result.reason) false
            ≡ not (request_matches self.now (Req.seen req.now)) }
    {
        let age = self.age(now);
        Explanation {
            reason: self.reason(req, age.as_nanos()),
            age,
            freshness: self.freshness(),
        }
    }

    fn reason<Req: RequestLike>(&self, req: &Req, age: u128) -> Option<Reason<'_>>
        ensures { (now : ℤ) → age ≡ age_at self.now now
            → option_map reason_seen result ≡ reason self.now (Req.seen req.now) now }
    {
        if let Some(reason) = self.mismatch(req) {
            return Some(reason);
        }
        let headers = req.headers();
        let asked = directives_of_request(headers);
        if let Some(reason) = self.unmet(headers, &asked, age) {
            return Some(reason);
        }
        let why = self.why_stale(&asked, age)?;
        Some(Reason::Stale(why))
    }

    // RFC 7234, sections 4 and 4.1.
    fn mismatch<Req: RequestLike>(&self, req: &Req) -> Option<Reason<'_>>
        ensures { option_map reason_seen result
            ≡ first_said (mismatch_rows self.now (Req.seen req.now)) }
    {
        if !req.is_same_uri(self.stored_target()) {
            return Some(Reason::Target);
        }
        if !has_same_first(self.stored_request_headers(), req.headers(), &HOST) {
            return Some(Reason::Host);
        }
        if *self.stored_method() != *req.method() {
            return Some(other_method(self.stored_method(), req.method()));
        }
        let name = self.differing_name(req.headers())?;
        Some(Reason::Vary(name))
    }

    fn differing_name(&self, headers: &HeaderMap) -> Option<&str>
        ensures { option_copied result
            ≡ find (differs_under self.now.request_headers (headers_of headers.now))
            (varied_names self.now) }
    {
        pieces_under(self.stored_headers(), VARY).find(|name| {
            *name == "*" || !has_same_first_under(self.stored_request_headers(), headers, name)
        })
    }

    // RFC 7234, sections 5.2.1 and 5.4.
    fn unmet(&self, headers: &HeaderMap, asked: &RequestDirectives, age: u128) -> Option<Reason<'_>>
        ensures { asked.now ≡ requested_by (asked_directives (asks_of (headers_of headers.now)))
            → option_map reason_seen result
            ≡ first_said (asked_rows self.now (asks_of (headers_of headers.now)) age) }
    {
        if asked.no_cache {
            return Some(Reason::NoCache);
        }
        if pragma_forbids(headers) {
            return Some(Reason::Pragma);
        }
        if let Some(most) = exceeded_age(asked, age) {
            return Some(Reason::MaxAge(most));
        }
        let least = missed_rest(asked, self.lifetime().as_nanos().saturating_sub(age))?;
        Some(Reason::MinFresh(least))
    }

    // RFC 7234, sections 4.2.4 and 5.2.1.2.
    fn why_stale(&self, asked: &RequestDirectives, age: u128) -> Option<StaleReason>
        ensures { (ds : List Directive) → asked.now ≡ requested_by ds
            → option_map is_stale result ≡ first_said (stale_rows self.now ds age) }
    {
        let lifetime = self.lifetime().as_nanos();
        if age < lifetime {
            return None;
        }
        if !asked.max_stale.is_said() {
            return Some(StaleReason::NotAsked);
        }
        if !self.is_storable() {
            return Some(StaleReason::NotStorable);
        }
        if self.directives().must_revalidate {
            return Some(StaleReason::MustRevalidate);
        }
        if self.directives().no_cache {
            return Some(StaleReason::NoCache);
        }
        let most = exceeded_staleness(asked, age - lifetime)?;
        Some(StaleReason::TooStale(most))
    }
}

fn is_get_or_head(method: &Method) -> bool
    ensures { result ≡ is_get_or_head method.now }
{
    *method == Method::GET || *method == Method::HEAD
}

// RFC 9211, section 2.2.
fn other_method(stored: &Method, asked: &Method) -> Reason<'static>
    ensures { reason_seen result ≡ method_reason stored.now asked.now }
{
    if is_get_or_head(stored) && is_get_or_head(asked) {
        Reason::OtherOfGetAndHead
    } else {
        Reason::Method
    }
}

// RFC 7234, section 5.2.1.1.
fn exceeded_age(asked: &RequestDirectives, age: u128) -> Option<u64>
    ensures { (ds : List Directive) → asked.now ≡ requested_by ds
        → result ≡ first_said
        ((not (is_young_enough ds age), seconds_under ds (codes "max-age")) ∷ []) }
{
    let most = asked.max_age.number()?;
    if age <= nanos(most) {
        return None;
    }
    Some(most)
}

// RFC 7234, section 5.2.1.3.
fn missed_rest(asked: &RequestDirectives, left: u128) -> Option<u64>
    ensures { (ds : List Directive) → asked.now ≡ requested_by ds
        → result ≡ first_said
        ((not (lasts_long_enough ds left), seconds_under ds (codes "min-fresh")) ∷ []) }
{
    let least = asked.min_fresh.number()?;
    if nanos(least) <= left {
        return None;
    }
    Some(least)
}

// RFC 7234, section 5.2.1.2.
fn exceeded_staleness(asked: &RequestDirectives, staleness: u128) -> Option<u64>
    ensures { (ds : List Directive) → asked.now ≡ requested_by ds
        → has ds (codes "max-stale") ≡ true
        → result ≡ first_said
        ((not (takes_stale ds staleness), seconds_under ds (codes "max-stale")) ∷ []) }
{
    let most = asked.max_stale.number()?;
    if staleness < nanos(most) {
        return None;
    }
    Some(most)
}

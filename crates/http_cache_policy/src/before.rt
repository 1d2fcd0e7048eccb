//! Answers a request from a stored response, or makes the request to the origin server.
ghost use Rattle.std.specs.Prelude.{◌≡◌, ◌≢◌, ◌≤ℤ◌, ℤ, true, false, bytes_eq, codes, IfOk, IsErrOf};
ghost use Rattle.http_cache_fields.specs.Headers.{headers_of};
ghost use Rattle.http_cache_fields.specs.Directives.{has};
ghost use Rattle.http_cache_policy.specs.Exchange.{stored_directives};
ghost use Rattle.http_cache_rules.specs.Storability.{is_storable};
ghost use Rattle.http_cache_policy.specs.Match.{request_matches, IsForStored};
ghost use Rattle.http_cache_policy.specs.Verdict.{is_fresh_for};
ghost use Rattle.http_cache_policy.specs.Bound.{is_fresh_by_bound};
ghost use Rattle.http_cache_policy.specs.Fresh.{IsFreshParts, HasOneAgeAndDate};
ghost use Rattle.http_cache_policy.specs.Stale.{IsStaleRequest};
ghost use Rattle.http_cache_policy.specs.Run.{IsAnswer};
ghost use Rattle.http_cache_policy.specs.Refused.{RefusesAnswer, HasUndatedAnswer};

mod conditions;
mod fresh;
mod matching;
mod origin;
pub(crate) mod verdict;

use crate::policy::{CachePolicy, RequestLike};
use http::{Method, request, response};
use http_cache_fields::CacheError;
use jiff::Timestamp;
use std::alloc::Global;

/// The cache's answer to a request.
#[derive(Drop)]
pub enum BeforeRequest {
    /// The stored response may be used without validation, with this head.
    Fresh(response::Parts),
    /// The request has to be forwarded to the origin server.
    Stale {
        /// The request that validates the stored response, with the stored target and method.
        ///
        /// If `matches` is false, it isn't for the response that the incoming request asks for, so
        /// forward the incoming request instead.
        request: request::Parts,
        /// Whether the stored response answers the request, once it is validated.
        matches: bool,
    },
}

impl BeforeRequest {
    ghost use Rattle.http_cache_policy.specs.Answer.{is_fresh};

    /// Returns whether the answer is `Fresh`.
    pub fn satisfies_without_revalidation(&self) -> bool
        ensures { result ≡ is_fresh self.now }
    {
        matches!(self, BeforeRequest::Fresh(_))
    }
}

fn is_head(method: &Method) -> bool
    ensures { result ≡ bytes_eq method.now (codes "HEAD") }
{
    method.as_str() == "HEAD"
}

impl CachePolicy {
    ghost use Rattle.http_cache_policy.specs.Answer.{is_fresh, WhereFresh, WhereStale};

    /// Returns whether the stored response may be used at `now` without validation, and what to
    /// send (RFC 7234, section 4).
    ///
    /// # Errors
    ///
    /// `HeaderMapFull` if `warning`, `age` or `date` of a fresh answer, or `if-none-match` or
    /// `if-modified-since` of a request, has no room. `DateNotPrintable` for a fresh answer before
    /// 1900. `Memory`.
    #[tactic(auto, unfolding(crate::specs::Verdict::is_fresh_for, crate::specs::Refused::RefusesAnswer))]
    #[inline(always)]
    pub fn before_request<Req: RequestLike>(
        &self,
        alloc: Global,
        req: &Req,
        now: Timestamp,
    ) -> Result<BeforeRequest, CacheError>
        ensures verdict { IfOk result (λ answer.
            is_fresh answer ≡ is_fresh_for self.now (Req.seen req.now) now.nanosecond) }
        ensures bound { IfOk result (λ answer.
            is_fresh answer ≡ is_fresh_by_bound self.now (Req.seen req.now) now.nanosecond) }
        ensures earlier { IfOk result (λ answer. is_fresh answer ≡ true
            → (moment : ℤ) → moment ≤ℤ now.nanosecond
            → is_fresh_for self.now (Req.seen req.now) moment ≡ true) }
        ensures later { IfOk result (λ answer. is_fresh answer ≡ false
            → (moment : ℤ) → now.nanosecond ≤ℤ moment
            → is_fresh_for self.now (Req.seen req.now) moment ≡ false) }
        ensures storable { IfOk result (λ answer. is_fresh answer ≡ true
            → (is_storable self.now ≡ true)
            × (has (stored_directives self.now) (codes "no-cache") ≡ false)) }
        ensures fresh { IfOk result (WhereFresh (IsFreshParts self.now now.nanosecond)) }
        ensures one_age_and_date { IfOk result (WhereFresh (λ parts.
            HasOneAgeAndDate self.now now.nanosecond (headers_of parts.headers))) }
        ensures stale { IfOk result (WhereStale (λ request _.
            IsStaleRequest self.now (Req.seen req.now) request)) }
        ensures answer { IfOk result
            (IsAnswer self.now (Req.seen req.now) now.nanosecond) }
        ensures for_stored { request_matches self.now (Req.seen req.now) ≡ true
            → IsForStored self.now (Req.seen req.now) }
        ensures matches { IfOk result (WhereStale (λ _ matched.
            matched ≡ request_matches self.now (Req.seen req.now))) }
        ensures full { IsErrOf result CacheError.HeaderMapFull
            → RefusesAnswer self.now (Req.seen req.now) now.nanosecond }
        ensures unprintable { IsErrOf result CacheError.DateNotPrintable
            → HasUndatedAnswer self.now (Req.seen req.now) now.nanosecond }
        ensures no_other { result ≢ Err CacheError.Malformed }
    {
        let matches = self.matches_request(req);
        if matches {
            let age = self.age(now);
            if self.satisfies_without_revalidation(req.headers(), age) {
                return Ok(BeforeRequest::Fresh(self.cached_response(alloc, now, age)?));
            }
        }
        let validates = matches || is_head(req.method());
        let request = self.request_for_origin(alloc, req.headers(), validates)?;
        Ok(BeforeRequest::Stale { request, matches })
    }
}

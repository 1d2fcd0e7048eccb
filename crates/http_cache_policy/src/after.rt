//! Decides what is stored after the origin server has responded (RFC 7234, section 4.3.4).
ghost use Rattle.std.specs.Prelude.{◌≡◌, ◌≢◌, ℕ, List, true, length, IfOk, IsErrOf, IsOkUnless};
ghost use Rattle.http_cache_fields.specs.Headers.{headers_of, values, IsAbsent};
ghost use Rattle.http_cache_rules.specs.Renewed.{is_of_body};
ghost use Rattle.http_cache_policy.specs.Fresh.{IsFreshParts, HasOneAgeAndDate, RefusesFreshHeaders, HasNoDate};
ghost use Rattle.http_cache_policy.specs.Answer.{is_not_modified, policy_in, parts_in};
ghost use Rattle.http_cache_policy.specs.Update.{selects, updated_response, next_where, next_exchange};

use crate::policy::{CachePolicy, RequestLike, ResponseLike};
use http::{HeaderMap, response};
use http_cache_fields::CacheError;
use http_cache_fields::headers::copy_of_map;
use http_cache_rules::parts::StoredParts;
use http_cache_rules::selection::is_selected;
use http_cache_rules::update::renewed_headers;
use jiff::Timestamp;
use std::alloc::{AllocError, Global};

/// The policy to store after a validation, and the head of the response for the client.
#[derive(Drop)]
pub enum AfterResponse {
    /// The stored body is still valid, under these headers.
    NotModified(CachePolicy, response::Parts),
    /// The new response's body replaces the stored one. Ask the policy's `is_storable` whether it
    /// may be stored.
    Modified(CachePolicy, response::Parts),
}

/// The policy to store after a validation, from `next_policy`.
#[derive(Drop)]
pub struct NextPolicy {
    /// Whether the stored body is still valid.
    pub not_modified: bool,
    /// The policy from then on. Ask its `is_storable` whether it may be stored.
    pub policy: CachePolicy,
}

fn answer_with(
    alloc: Global,
    selected: bool,
    policy: CachePolicy,
    now: Timestamp,
) -> Result<AfterResponse, CacheError>
    ensures selected { IfOk result (λ answer. is_not_modified answer ≡ selected) }
    ensures policy { IfOk result (λ answer. policy_in answer ≡ policy) }
    ensures parts { IfOk result (λ answer. IsFreshParts policy now.nanosecond (parts_in answer)) }
    ensures full { IsErrOf result CacheError.HeaderMapFull
        → RefusesFreshHeaders policy now.nanosecond }
    ensures unprintable { IsErrOf result CacheError.DateNotPrintable
        → HasNoDate policy now.nanosecond }
    ensures no_other { result ≢ Err CacheError.Malformed }
{
    let parts = policy.cached_response(alloc, now, policy.age(now))?;
    Ok(if selected {
        AfterResponse::NotModified(policy, parts)
    } else {
        AfterResponse::Modified(policy, parts)
    })
}

impl CachePolicy {
    /// Returns the policy after a response to the request, and the head for the client (RFC 7234,
    /// section 4.3.4).
    ///
    /// `NotModified` is returned exactly if the response is a 304 whose validators select the
    /// stored response. The request has to match: make a new policy for the response to any other.
    ///
    /// # Errors
    ///
    /// `HeaderMapFull` if `warning`, `age` or `date` has no room in the headers, `DateNotPrintable`
    /// before 1900, and `Memory`.
    pub fn after_response<Req: RequestLike, Res: ResponseLike>(
        &self,
        alloc: Global,
        request: &Req,
        response: &Res,
        response_time: Timestamp,
    ) -> Result<AfterResponse, CacheError>
        ensures selected { IfOk result (λ answer.
            is_not_modified answer ≡ selects self.now (Res.seen response.now)) }
        ensures policy { IfOk result (λ answer. policy_in answer ≡ next_exchange self.now
            (Req.seen request.now) (Res.seen response.now) response_time.nanosecond) }
        ensures parts { IfOk result (λ answer.
            IsFreshParts (policy_in answer) response_time.nanosecond (parts_in answer)) }
        ensures one_age_and_date { IfOk result (λ answer. HasOneAgeAndDate (policy_in answer)
            response_time.nanosecond (headers_of (parts_in answer).headers)) }
        ensures keeps_status { IfOk result (λ answer. is_not_modified answer ≡ true
            → (policy_in answer).status ≡ self.now.status) }
        ensures adds_no_name { IfOk result (λ answer. is_not_modified answer ≡ true
            → (name : List ℕ) → IsAbsent self.now.response_headers name
            → IsAbsent (policy_in answer).response_headers name) }
        ensures keeps_body { IfOk result (λ answer. is_not_modified answer ≡ true
            → (name : List ℕ) → is_of_body name ≡ true
            → length (values self.now.response_headers name) ≡ 1
            → values (policy_in answer).response_headers name
            ≡ values self.now.response_headers name) }
        ensures full { IsErrOf result CacheError.HeaderMapFull
            → RefusesFreshHeaders (next_exchange self.now (Req.seen request.now)
            (Res.seen response.now) response_time.nanosecond) response_time.nanosecond }
        ensures unprintable { IsErrOf result CacheError.DateNotPrintable
            → HasNoDate (next_exchange self.now (Req.seen request.now)
            (Res.seen response.now) response_time.nanosecond) response_time.nanosecond }
        ensures no_other { result ≢ Err CacheError.Malformed }
    {
        let selected = self.is_confirmed_by(response);
        let policy = self.policy_after(alloc, selected, request, response, response_time)?;
        answer_with(alloc, selected, policy, response_time)
    }

    /// Returns the policy that `after_response` stores, without headers for a client (RFC 7234,
    /// section 4.3.4).
    ///
    /// It suits a store or an audit, which send nothing. The only error is `Memory`.
    pub fn next_policy<Req: RequestLike, Res: ResponseLike>(
        &self,
        alloc: Global,
        request: &Req,
        response: &Res,
        response_time: Timestamp,
    ) -> Result<NextPolicy, CacheError>
        ensures selected { IfOk result (λ next.
            next.not_modified ≡ selects self.now (Res.seen response.now)) }
        ensures policy { IfOk result (λ next. next.policy ≡ next_exchange self.now
            (Req.seen request.now) (Res.seen response.now) response_time.nanosecond) }
        ensures only_memory { IsOkUnless result CacheError.Memory }
    {
        let not_modified = self.is_confirmed_by(response);
        let policy = self.policy_after(alloc, not_modified, request, response, response_time)?;
        Ok(NextPolicy {
            not_modified,
            policy,
        })
    }

    /// Returns whether a response is a 304 that selects the stored one (RFC 9111, section 4.3.4).
    ///
    /// `after_response` and `next_policy` decide by it.
    pub fn is_confirmed_by<Res: ResponseLike>(&self, response: &Res) -> bool
        ensures { result ≡ selects self.now (Res.seen response.now) }
    {
        is_selected(self.stored_headers(), response.status(), response.headers())
    }

    fn headers_after<Res: ResponseLike>(
        &self,
        selected: bool,
        response: &Res,
    ) -> Result<HeaderMap, AllocError>
        ensures { IfOk result (λ headers. headers_of headers
            ≡ (updated_response selected self.now (Res.seen response.now)).headers) }
    {
        if selected {
            renewed_headers(self.stored_headers(), response.headers())
        } else {
            copy_of_map(response.headers())
        }
    }

    #[tactic(auto, unfolding(crate::specs::Update::next_where))]
    fn policy_after<Req: RequestLike, Res: ResponseLike>(
        &self,
        alloc: Global,
        selected: bool,
        request: &Req,
        response: &Res,
        response_time: Timestamp,
    ) -> Result<CachePolicy, CacheError>
        ensures value { IfOk result (λ policy. policy ≡ next_where selected self.now
            (Req.seen request.now) (Res.seen response.now) response_time.nanosecond) }
        ensures only_memory { IsOkUnless result CacheError.Memory }
    {
        let parts = StoredParts {
            target: request.uri(alloc)?,
            method: request.method().clone()?,
            status: if selected {
                self.stored_status()
            } else {
                response.status()
            },
            request_headers: copy_of_map(request.headers())?,
            response_headers: self.headers_after(selected, response)?,
            options: self.stored_options(),
            response_time,
        };
        CachePolicy::from_details(alloc, parts)
    }
}

//! Policies, their options, and what they return. Each function returns what its call returns, as
//! the prover would take seconds for a policy or an answer that is owned here.
use http::{request, response};
use http_cache_semantics::policy::Fraction;
use http_cache_semantics::stored::{moment_from_value, options_from_value};
use http_cache_semantics::{
    AfterResponse, BeforeRequest, CacheError, CacheOptions, CachePolicy, RequestLike, ResponseLike,
    after, before, policy,
};
use jiff::Timestamp;
use serde_json::Value;
use std::alloc::Global;
use std::fmt::Debug;
use std::time::Duration;

fn is_debug<T: Debug>(_value: &T) {}

fn is_copy<T: Copy + Clone + Debug>(_value: &T) {}

fn default<T: Copy + Clone + Debug + Default>() -> T {
    T::default()
}

fn fraction(numerator: u32, denominator: u32) -> Option<Fraction> {
    Fraction::new(numerator, denominator)
}

fn parts(fraction: &policy::Fraction) -> (u32, u32) {
    is_copy(fraction);
    (fraction.numerator(), fraction.denominator())
}

fn options(cache_heuristic: Fraction, minimum: Duration) -> policy::CacheOptions {
    CacheOptions {
        shared: true,
        cache_heuristic,
        immutable_min_time_to_live: minimum,
        ignore_cargo_cult: false,
    }
}

fn defaults() -> CacheOptions {
    default()
}

fn new<Req: RequestLike, Res: ResponseLike>(
    alloc: Global,
    req: &Req,
    res: &Res,
    response_time: Timestamp,
) -> Result<policy::CachePolicy, CacheError> {
    CachePolicy::new(alloc, req, res, response_time)
}

fn new_options<Req: RequestLike, Res: ResponseLike>(
    alloc: Global,
    req: &Req,
    res: &Res,
    response_time: Timestamp,
    opts: CacheOptions,
) -> Result<CachePolicy, CacheError> {
    CachePolicy::new_options(alloc, req, res, response_time, opts)
}

fn copy(alloc: Global, policy: &CachePolicy) -> Result<CachePolicy, CacheError> {
    is_debug(policy);
    policy.try_clone(alloc)
}

fn facts(policy: &CachePolicy, now: Timestamp) -> (bool, Duration, Duration, bool) {
    let left = policy.time_to_live(now);
    (
        policy.is_storable(),
        policy.age(now),
        left,
        policy.is_stale(now),
    )
}

fn before<Req: RequestLike>(
    alloc: Global,
    policy: &CachePolicy,
    req: &Req,
    now: Timestamp,
) -> Result<before::BeforeRequest, CacheError> {
    policy.before_request(alloc, req, now)
}

fn uses<Req: RequestLike>(policy: &CachePolicy, req: &Req, now: Timestamp) -> (bool, bool) {
    (policy.matches_request(req), policy.fresh_at(req, now))
}

fn sent(answer: &BeforeRequest) -> (Option<&response::Parts>, Option<&request::Parts>, bool) {
    let fresh = answer.satisfies_without_revalidation();
    match answer {
        BeforeRequest::Fresh(parts) => (Some(parts), None, fresh),
        BeforeRequest::Stale { request, matches } => (None, Some(request), *matches),
    }
}

fn after<Req: RequestLike, Res: ResponseLike>(
    alloc: Global,
    policy: &CachePolicy,
    request: &Req,
    response: &Res,
    response_time: Timestamp,
) -> Result<after::AfterResponse, CacheError> {
    policy.after_response(alloc, request, response, response_time)
}

fn next(answer: &AfterResponse) -> (&CachePolicy, &response::Parts) {
    match answer {
        AfterResponse::NotModified(policy, parts) => (policy, parts),
        AfterResponse::Modified(policy, parts) => (policy, parts),
    }
}

fn to_value(alloc: Global, policy: &CachePolicy) -> Result<Value, CacheError> {
    policy.to_value(alloc)
}

fn from_value(alloc: Global, value: &Value) -> Result<CachePolicy, CacheError> {
    CachePolicy::from_value(alloc, value)
}

fn members(value: &Value) -> (Option<CacheOptions>, Option<Timestamp>) {
    (options_from_value(value), moment_from_value(value))
}

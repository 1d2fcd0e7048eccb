//! The calls that are timed.
use cache_script::Script;
use http::{request, response};
use http_cache_semantics::{
    AfterResponse, BeforeRequest, CacheError, CachePolicy, Choice, Variants,
};
use jiff::Timestamp;
use std::alloc::Global;

/// A call on the exchange of a script.
#[derive(Clone, Copy)]
pub enum TimedCall<'a> {
    NewOptions,
    /// `new_options`, then `is_storable` and `time_to_live` at this time.
    MakeAndAsk(Timestamp),
    TryClone,
    FreshAt(&'a request::Parts, Timestamp),
    BeforeRequest(&'a request::Parts, Timestamp),
    AfterResponse(&'a request::Parts, &'a response::Parts, Timestamp),
}

impl TimedCall<'_> {
    /// Returns the name of the call.
    pub fn name(&self) -> &'static str {
        match self {
            TimedCall::NewOptions => "new_options",
            TimedCall::MakeAndAsk(_) => "new_options, is_storable, time_to_live",
            TimedCall::TryClone => "try_clone",
            TimedCall::FreshAt(..) => "fresh_at",
            TimedCall::BeforeRequest(..) => "before_request",
            TimedCall::AfterResponse(..) => "after_response",
        }
    }
}

// The weights of the results are summed, so that no call can be optimized away.
trait Weight {
    fn weight(&self) -> u64;
}

impl Weight for CachePolicy {
    fn weight(&self) -> u64 {
        u64::from(self.is_storable())
    }
}

impl Weight for BeforeRequest {
    fn weight(&self) -> u64 {
        match self {
            BeforeRequest::Fresh(parts) => parts.headers.len() as u64,
            BeforeRequest::Stale { request, .. } => request.headers.len() as u64,
        }
    }
}

impl Weight for AfterResponse {
    fn weight(&self) -> u64 {
        match self {
            AfterResponse::NotModified(_, parts) => parts.headers.len() as u64,
            AfterResponse::Modified(_, parts) => parts.headers.len() as u64,
        }
    }
}

impl Weight for Choice {
    fn weight(&self) -> u64 {
        match self {
            Choice::Fresh { place, .. } | Choice::Validate { place, .. } => *place as u64,
            Choice::Nothing => 1,
        }
    }
}

fn weight_of<T: Weight + Drop>(made: Result<T, CacheError>) -> Result<u64, CacheError> {
    Ok(made?.weight())
}

fn asked(made: Result<CachePolicy, CacheError>, now: Timestamp) -> Result<u64, CacheError> {
    let policy = made?;
    Ok(u64::from(policy.is_storable()).wrapping_add(policy.time_to_live(now).as_secs()))
}

#[inline(never)]
fn once(
    alloc: Global,
    script: &Script,
    policy: &CachePolicy,
    call: &TimedCall<'_>,
) -> Result<u64, CacheError> {
    match call {
        TimedCall::NewOptions => weight_of(script.policy(alloc)),
        TimedCall::MakeAndAsk(now) => asked(script.policy(alloc), *now),
        TimedCall::TryClone => weight_of(policy.try_clone(alloc)),
        TimedCall::FreshAt(request, now) => Ok(u64::from(policy.fresh_at(*request, *now))),
        TimedCall::BeforeRequest(request, now) => {
            weight_of(policy.before_request(alloc, *request, *now))
        }
        TimedCall::AfterResponse(request, response, now) => {
            weight_of(policy.after_response(alloc, *request, *response, *now))
        }
    }
}

/// Makes a call so many times, and returns the sum of the results' weights, or `None` if one fails.
pub fn repeat(
    alloc: Global,
    script: &Script,
    policy: &CachePolicy,
    call: &TimedCall<'_>,
    count: u64,
) -> Option<u64> {
    let mut sum = 0u64;
    for _ in 0..count {
        sum = sum.wrapping_add(once(alloc, script, policy, call).ok()?);
    }
    Some(sum)
}

// A value that wasn't added is dropped.
fn is_added<T: Drop>(added: Result<(), (T, CacheError)>) -> Result<(), CacheError> {
    match added {
        Ok(()) => Ok(()),
        Err((_, e)) => Err(e),
    }
}

fn add(variants: &mut Variants, policy: Result<CachePolicy, CacheError>) -> Result<(), CacheError> {
    is_added(variants.add(policy?))
}

/// Returns so many copies of a policy.
pub fn copies_of(alloc: Global, policy: &CachePolicy, len: u64) -> Result<Variants, CacheError> {
    let mut variants = Variants::new(alloc);
    for _ in 0..len {
        add(&mut variants, policy.try_clone(alloc))?;
    }
    Ok(variants)
}

#[inline(never)]
fn choice_weight(
    alloc: Global,
    variants: &Variants,
    request: &request::Parts,
    now: Timestamp,
) -> Result<u64, CacheError> {
    weight_of(variants.choose(alloc, request, now))
}

/// Chooses so many times, and returns the sum of the choices' weights, or `None` if one fails.
pub fn repeat_choice(
    alloc: Global,
    variants: &Variants,
    request: &request::Parts,
    now: Timestamp,
    count: u64,
) -> Option<u64> {
    let mut sum = 0u64;
    for _ in 0..count {
        sum = sum.wrapping_add(choice_weight(alloc, variants, request, now).ok()?);
    }
    Some(sum)
}

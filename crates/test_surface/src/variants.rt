//! Several stored responses under one key.
use http::{request, response};
use http_cache_semantics::variants::{Choice, Variants};
use http_cache_semantics::{CacheError, CachePolicy, RequestLike};
use jiff::Timestamp;
use std::alloc::Global;

fn new(alloc: Global) -> Variants {
    Variants::new(alloc)
}

fn size(variants: &Variants) -> usize {
    variants.len()
}

fn at(variants: &Variants, place: usize) -> Option<&CachePolicy> {
    variants.policy_at(place)
}

fn add(variants: &mut Variants, policy: CachePolicy) -> Result<(), (CachePolicy, CacheError)> {
    variants.add(policy)
}

fn remove(variants: &mut Variants, place: usize) -> Option<CachePolicy> {
    variants.remove(place)
}

fn choose<Req: RequestLike>(
    alloc: Global,
    variants: &Variants,
    req: &Req,
    now: Timestamp,
) -> Result<Choice, CacheError> {
    variants.choose(alloc, req, now)
}

fn fresh(choice: &Choice) -> Option<(usize, &response::Parts)> {
    match choice {
        Choice::Fresh { place, parts } => Some((*place, parts)),
        Choice::Validate { .. } | Choice::Nothing => None,
    }
}

fn stale(choice: &Choice) -> Option<(usize, &request::Parts)> {
    match choice {
        Choice::Validate { place, request } => Some((*place, request)),
        Choice::Fresh { .. } | Choice::Nothing => None,
    }
}

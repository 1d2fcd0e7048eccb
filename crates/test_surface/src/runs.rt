//! Chains of caches, and runs of steps.
use http::response;
use http_cache_semantics::chain::{Outcome, Step, chain, replay};
use http_cache_semantics::{
    BeforeRequest, CacheError, CacheOptions, CachePolicy, RequestLike, ResponseLike,
};
use jiff::Timestamp;
use std::alloc::Global;

fn caches<Req: RequestLike, Res: ResponseLike>(
    alloc: Global,
    req: &Req,
    res: &Res,
    opts: CacheOptions,
    received: Timestamp,
    moments: &[Timestamp],
) -> Result<Vec<CachePolicy>, CacheError> {
    chain(alloc, req, res, opts, received, moments)
}

fn outcomes<Req: RequestLike, Res: ResponseLike>(
    alloc: Global,
    policy: &CachePolicy,
    steps: &[Step<Req, Res>],
) -> Result<Vec<Outcome>, CacheError> {
    replay(alloc, policy, steps)
}

fn step<Req, Res>(step: &Step<Req, Res>) -> Option<(&Req, Option<&Res>, Timestamp)> {
    match step {
        Step::Ask { request, moment } => Some((request, None, *moment)),
        Step::Receive {
            request,
            response,
            moment,
        } => Some((request, Some(response), *moment)),
        Step::Restart => None,
    }
}

fn asked(outcome: &Outcome) -> Option<&BeforeRequest> {
    match outcome {
        Outcome::Asked(answer) => Some(answer),
        Outcome::NotModified(_) | Outcome::Modified(_) | Outcome::Restarted => None,
    }
}

fn received(outcome: &Outcome) -> Option<&response::Parts> {
    match outcome {
        Outcome::NotModified(parts) => Some(parts),
        Outcome::Modified(parts) => Some(parts),
        Outcome::Asked(_) | Outcome::Restarted => None,
    }
}

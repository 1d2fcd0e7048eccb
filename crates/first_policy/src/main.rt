//! Requests a page three times, by direct calls of the library: a cache of one response.
#![tactic(auto)]

use http::{Request, Response, request, response};
use http_cache_semantics::{AfterResponse, BeforeRequest, CachePolicy};
use jiff::Timestamp;
use std::alloc::Global;

const START: i64 = 1_704_067_200;

// Replaces the origin server: a page that is fresh for ten seconds.
fn page(alloc: Global) -> http::Result<Response<()>> {
    Response::builder(alloc)
        .header("cache-control", "max-age=10")
        .header("etag", "\"v1\"")
        .body(())
}

// Replaces the network: the page hasn't changed.
fn send(rt: &HostRuntime, request: &request::Parts) -> anyhow::Result<Response<()>> {
    println!(rt; "asks for {}", request.uri.path())?;
    let unchanged = Response::builder(rt.alloc())
        .status(304)
        .header("etag", "\"v1\"")
        .body(())?;
    Ok(unchanged)
}

// The body would be sent after this head.
fn serve(rt: &HostRuntime, head: &response::Parts, body: &str) -> anyhow::Result<()> {
    println!(rt; "the {body} body, with status {}", head.status.as_u16())?;
    Ok(())
}

// Makes the policy of the page. If it is storable, it would be stored beside the body.
fn first(rt: &HostRuntime, request: &Request<()>, sent: Timestamp) -> anyhow::Result<CachePolicy> {
    let response = page(rt.alloc())?;
    let policy = CachePolicy::new(rt.alloc(), request, &response, sent)?;
    println!(rt; "storable: {}", policy.is_storable())?;
    Ok(policy)
}

// Validates the stored response, answers, and returns the policy from then on.
fn validated(
    rt: &HostRuntime,
    policy: &CachePolicy,
    request: &Request<()>,
    due: &request::Parts,
    now: Timestamp,
) -> anyhow::Result<CachePolicy> {
    let received = send(rt, due)?;
    match policy.after_response(rt.alloc(), request, &received, now)? {
        AfterResponse::NotModified(next, head) => {
            serve(rt, &head, "stored")?;
            Ok(next)
        }
        // It replaces the stored response, if `next` is storable.
        AfterResponse::Modified(next, head) => {
            serve(rt, &head, "received")?;
            Ok(next)
        }
    }
}

// Answers a request, and returns the policy from then on.
fn answer(
    rt: &HostRuntime,
    policy: CachePolicy,
    request: &Request<()>,
    now: Timestamp,
) -> anyhow::Result<CachePolicy> {
    match policy.before_request(rt.alloc(), request, now)? {
        BeforeRequest::Fresh(head) => serve(rt, &head, "stored")?,
        BeforeRequest::Stale {
            request: due,
            matches: true,
        } => return validated(rt, &policy, request, &due, now),
        // The policy is of another request: send this one itself, not `due`.
        BeforeRequest::Stale { matches: false, .. } => return first(rt, request, now),
    }
    Ok(policy)
}

fn main(rt: HostRuntime) -> anyhow::Result<()> {
    let request = Request::get(rt.alloc(), "https://example.com/page").body(())?;
    let mut policy = first(&rt, &request, Timestamp::from_second(START)?)?;
    for seconds in [5, 15, 20] {
        let now = Timestamp::from_second(START + seconds)?;
        policy = answer(&rt, policy, &request, now)?;
    }
    Ok(())
}

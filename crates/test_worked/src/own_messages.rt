//! Tests requests and responses of other types than the library's.
use http::{HeaderMap, Method, StatusCode, Uri, request, response};
use http_cache_semantics::chain::chain;
use http_cache_semantics::{
    BeforeRequest, CacheError, CacheOptions, CachePolicy, RequestLike, ResponseLike,
};
use jiff::Timestamp;
use std::alloc::Global;
use std::cell::Cell;
use std::process::Abort;
use std::test::Fail;
use test_cases::fixtures::{after, policy, request, response, with};

// It takes each target for its own, or none. It counts the requests for a copy of its target, and
// may be out of memory for one.
#[derive(Drop)]
struct Own {
    parts: request::Parts,
    takes_all: bool,
    is_tight: bool,
    copies: Cell<u32>,
}

impl RequestLike for Own {
    ghost use Rattle.http_cache_semantics.specs.Headers.{headers_of};

    ghost seen = { λ p. record {
      target = p.parts.uri;
      is_same_target = λ _. p.takes_all;
      method = p.parts.method;
      headers = headers_of p.parts.headers;
    } };

    fn uri(&self, _alloc: Global) -> Result<Uri, CacheError> {
        self.copies.set(self.copies.get().saturating_add(1));
        if self.is_tight {
            return Err(CacheError::Memory);
        }
        self.parts.uri.clone().map_err(|_| CacheError::Memory)
    }

    fn is_same_uri(&self, _other: &Uri) -> bool {
        self.takes_all
    }

    fn method(&self) -> &Method {
        &self.parts.method
    }

    fn headers(&self) -> &HeaderMap {
        &self.parts.headers
    }
}

// It has no more than a cache reads.
#[derive(Drop)]
struct Bare {
    status: StatusCode,
    headers: HeaderMap,
}

impl ResponseLike for Bare {
    ghost use Rattle.http_cache_semantics.specs.Headers.{headers_of};

    ghost seen = { λ b. record { status = b.status; headers = headers_of b.headers } };

    fn status(&self) -> StatusCode {
        self.status
    }

    fn headers(&self) -> &HeaderMap {
        &self.headers
    }
}

const LINES: &str = "Cache-Control: max-age=10";

fn own_request(alloc: Global, lines: &str, takes_all: bool, is_tight: bool) -> Result<Own, Fail> {
    Ok(Own {
        parts: request(alloc, "GET", lines)?,
        takes_all,
        is_tight,
        copies: Cell::new(0),
    })
}

// Whether the answer is fresh, and whether the request matches.
fn decision(answer: &BeforeRequest) -> (bool, bool) {
    match answer {
        BeforeRequest::Fresh(_) => (true, true),
        BeforeRequest::Stale { matches, .. } => (false, *matches),
    }
}

fn decision_on(
    alloc: Global,
    policy: &CachePolicy,
    request: &Own,
    now: Timestamp,
) -> Result<(bool, bool), Fail> {
    let answer = policy.before_request(alloc, request, now);
    with(answer.map_err(Fail::from), |answer| Ok(decision(answer)))
}

// The calls that allocate nothing have to agree.
fn asked(alloc: Global, policy: &CachePolicy, request: &Own) -> Result<(bool, bool), Fail> {
    let now = after(0)?;
    let decision = decision_on(alloc, policy, request, now)?;
    let without = (
        policy.fresh_at(request, now),
        policy.matches_request(request),
    );
    if decision != without {
        return Err("told in two ways")?;
    }
    Ok(decision)
}

fn asked_for_copies(
    alloc: Global,
    policy: &CachePolicy,
    request: &Own,
) -> Result<((bool, bool), u32), Fail> {
    Ok((asked(alloc, policy, request)?, request.copies.get()))
}

// The request has no memory for a copy of its target, and isn't asked for one.
fn asks(alloc: Global, lines: &str, takes_all: bool) -> Result<((bool, bool), u32), Fail> {
    with(policy(alloc, LINES), |policy| {
        let request = own_request(alloc, lines, takes_all, true);
        with(request, |request| asked_for_copies(alloc, policy, request))
    })
}

#[test]
fn targets_are_compared_by_the_request(rt: HostRuntime) -> Result<(), Fail> {
    assert_eq!(rt; asks(rt.alloc(), "", false)?.0, (false, false));
    assert_eq!(rt; asks(rt.alloc(), "", true)?.0, (true, true));
    Ok(())
}

#[test]
fn no_copy_of_the_target_of_what_asks(rt: HostRuntime) -> Result<(), Fail> {
    assert_eq!(rt; asks(rt.alloc(), "", true)?, ((true, true), 0));
    let stale = asks(rt.alloc(), "Cache-Control: no-cache", true)?;
    assert_eq!(rt; stale, ((false, true), 0));
    assert_eq!(rt; asks(rt.alloc(), "Host: b", true)?, ((false, false), 0));
    Ok(())
}

// The chain has one time.
fn caches(
    alloc: Global,
    request: &Own,
    response: &response::Parts,
    first: Timestamp,
    second: Timestamp,
) -> Result<usize, Fail> {
    let opts = CacheOptions::default();
    let policies = chain(alloc, request, response, opts, first, &[second]);
    with(policies.map_err(Fail::from), |policies| Ok(policies.len()))
}

fn reached(alloc: Global, request: &Own) -> Result<usize, Fail> {
    let (first, second) = (after(0)?, after(1_000_000_000)?);
    with(
        response(alloc, "200", LINES),
        |response| caches(alloc, request, response, first, second),
    )
}

fn reaches(alloc: Global, takes_all: bool) -> Result<usize, Fail> {
    with(
        own_request(alloc, "", takes_all, false),
        |request| reached(alloc, request),
    )
}

#[test]
fn a_chain_ends_where_no_target_matches(rt: HostRuntime) -> Result<(), Fail> {
    assert_eq!(rt; reaches(rt.alloc(), false)?, 1);
    assert_eq!(rt; reaches(rt.alloc(), true)?, 2);
    Ok(())
}

fn stored(alloc: Global, request: &Own, now: Timestamp) -> Result<Option<CacheError>, Fail> {
    let response = Bare {
        status: StatusCode::OK,
        headers: HeaderMap::new(alloc),
    };
    with(
        Ok(response),
        |response| Ok(CachePolicy::new(alloc, request, response, now).err()),
    )
}

// It also returns how often a copy of the target is requested.
fn stores(alloc: Global, is_tight: bool) -> Result<(Option<CacheError>, u32), Fail> {
    let now = after(0)?;
    let request = own_request(alloc, "", true, is_tight);
    with(
        request,
        |request| Ok((stored(alloc, request, now)?, request.copies.get())),
    )
}

#[test]
fn one_copy_of_the_target_of_what_is_stored(rt: HostRuntime) -> Result<(), Fail> {
    assert_eq!(rt; stores(rt.alloc(), false)?, (None, 1));
    assert_eq!(rt; stores(rt.alloc(), true)?, (Some(CacheError::Memory), 1));
    Ok(())
}

// The request has no memory for a copy of its target.
fn renewed(alloc: Global, request: &Own) -> Result<Option<CacheError>, Fail> {
    let now = after(0)?;
    with(policy(alloc, LINES), |policy| {
        with(response(alloc, "200", LINES), |response| {
            Ok(policy.after_response(alloc, request, response, now).err())
        })
    })
}

#[test]
fn no_renewal_without_a_copy_of_the_target(rt: HostRuntime) -> Result<(), Fail> {
    let alloc = rt.alloc();
    let refused = with(
        own_request(alloc, "", true, true),
        |request| renewed(alloc, request),
    )?;
    assert_eq!(rt; refused, Some(CacheError::Memory));
    Ok(())
}

//! Builds a chain of caches, each of which receives the answer of the one before.
ghost use Rattle.std.specs.Prelude.{◌≡◌, ◌≢◌, List, Err, true, false, IfOk, IsErrOf, MatchOption};
ghost use Rattle.http_cache_rules.specs.Options.{options_of};
ghost use Rattle.http_cache_policy.specs.Exchange.{Exchange};
ghost use Rattle.http_cache_policy.specs.Verdict.{is_fresh_for};
ghost use Rattle.http_cache_policy.specs.Refused.{RefusesAnswer, HasUndatedAnswer};
ghost use Rattle.http_cache_semantics.specs.Chain.{nanoseconds, first_kept, IsHandedOn, IsChain, IsFor, Meets};
ghost use Rattle.http_cache_semantics.specs.ChainLaws.{ForEach, NeverGoDown, HasReceived, IsAgedLike, IsExplicit};
ghost use Rattle.http_cache_semantics.specs.ChainLaws.{SaysLike, ExpiresLike};

use http_cache_fields::CacheError;
use http_cache_policy::before::BeforeRequest;
use http_cache_policy::policy::{CacheOptions, CachePolicy, RequestLike, ResponseLike};
pub use http_cache_policy::run::replay;
pub use http_cache_policy::steps::{Outcome, Step};
use jiff::Timestamp;
use std::alloc::Global;

// None if the answer isn't fresh.
fn hand_on<Req: RequestLike>(
    alloc: Global,
    policy: &CachePolicy,
    req: &Req,
    opts: &CacheOptions,
    moment: Timestamp,
) -> Result<Option<CachePolicy>, CacheError>
    requires { IsFor (Req.seen req.now) (options_of opts.now) policy.now }
    ensures next { IfOk result (λ next. MatchOption next
        (is_fresh_for policy.now (Req.seen req.now) moment.nanosecond ≡ false)
        (λ n. (is_fresh_for policy.now (Req.seen req.now) moment.nanosecond ≡ true)
        × IsHandedOn policy.now moment.nanosecond n)) }
    ensures room { IfOk result (λ _.
        ¬ (RefusesAnswer policy.now (Req.seen req.now) moment.nanosecond)) }
    ensures dated { IfOk result (λ _.
        ¬ (HasUndatedAnswer policy.now (Req.seen req.now) moment.nanosecond)) }
    ensures full { IsErrOf result CacheError.HeaderMapFull
        → RefusesAnswer policy.now (Req.seen req.now) moment.nanosecond }
    ensures unprintable { IsErrOf result CacheError.DateNotPrintable
        → HasUndatedAnswer policy.now (Req.seen req.now) moment.nanosecond }
    ensures no_other { result ≢ Err CacheError.Malformed }
{
    match policy.before_request(alloc, req, moment)? {
        BeforeRequest::Fresh(parts) => {
            let next = CachePolicy::new_options(alloc, req, &parts, moment, *opts)?;
            Ok(Some(next))
        }
        BeforeRequest::Stale { .. } => Ok(None),
    }
}

/// Returns the policies of a chain of caches for one request, one for each cache that is reached.
///
/// The first cache receives the response. At each time the request asks the last cache, by
/// `before_request`. If its answer is `Fresh`, the next cache receives it then; otherwise the chain
/// ends.
///
/// Each cache receives the first Age plus the whole seconds of each hop, up to 64 bits (RFC 7234,
/// section 4.2.3). If the times never decrease, its response is no older than the first one from
/// the receipt on. It is less than a second younger for each hop.
///
/// The first lifetime is explicit if `s-maxage` or `max-age` decides it, and Cache-Control has one
/// value and isn't listed by Connection. Each response then has equal directives and an equal
/// lifetime. If the times never decrease, it expires no sooner than the first one, and at most a
/// second later for each hop.
///
/// # Errors
///
/// `HeaderMapFull` and `DateNotPrintable` if `before_request` returns them at a cache that is
/// reached, even for the last one's request to the origin server, and `Memory`.
pub fn chain<Req: RequestLike, Res: ResponseLike>(
    alloc: Global,
    req: &Req,
    res: &Res,
    opts: CacheOptions,
    received: Timestamp,
    moments: &[Timestamp],
) -> Result<Vec<CachePolicy>, CacheError>
    ensures policies { IfOk result (λ policies. IsChain (Req.seen req.now)
        (first_kept (Req.seen req.now) (Res.seen res.now) (options_of opts) received.nanosecond)
        (nanoseconds moments.now) policies.items) }
    ensures alone { IfOk result (λ policies. (others : List Exchange) → IsChain (Req.seen req.now)
        (first_kept (Req.seen req.now) (Res.seen res.now) (options_of opts) received.nanosecond)
        (nanoseconds moments.now) others → others ≡ policies.items) }
    ensures received { IfOk result (λ policies.
        ForEach policies.items (HasReceived (nanoseconds moments.now))) }
    ensures ages { IfOk result (λ policies.
        NeverGoDown received.nanosecond (nanoseconds moments.now)
        → ForEach policies.items IsAgedLike) }
    ensures steady { IfOk result (λ policies.
        ForEach policies.items (λ first index e. IsExplicit first → SaysLike first e)) }
    ensures lifetimes { IfOk result (λ policies.
        NeverGoDown received.nanosecond (nanoseconds moments.now)
        → ForEach policies.items (λ first index e. IsExplicit first → ExpiresLike first index e)) }
    ensures room { IfOk result (λ _. ¬ (Meets RefusesAnswer (Req.seen req.now)
        (first_kept (Req.seen req.now) (Res.seen res.now) (options_of opts) received.nanosecond)
        (nanoseconds moments.now))) }
    ensures dated { IfOk result (λ _. ¬ (Meets HasUndatedAnswer (Req.seen req.now)
        (first_kept (Req.seen req.now) (Res.seen res.now) (options_of opts) received.nanosecond)
        (nanoseconds moments.now))) }
    ensures full { IsErrOf result CacheError.HeaderMapFull
        → Meets RefusesAnswer (Req.seen req.now)
        (first_kept (Req.seen req.now) (Res.seen res.now) (options_of opts) received.nanosecond)
        (nanoseconds moments.now) }
    ensures unprintable { IsErrOf result CacheError.DateNotPrintable
        → Meets HasUndatedAnswer (Req.seen req.now)
        (first_kept (Req.seen req.now) (Res.seen res.now) (options_of opts) received.nanosecond)
        (nanoseconds moments.now) }
    ensures no_other { result ≢ Err CacheError.Malformed }
{
    let mut policies = Vec::new(alloc);
    policies.push(CachePolicy::new_options(alloc, req, res, received, opts)?)?;
    for moment in moments {
        let last = policies.len() - 1;
        let Some(next) = hand_on(alloc, &policies[last], req, &opts, *moment)? else {
            return Ok(policies);
        };
        policies.push(next)?;
    }
    Ok(policies)
}

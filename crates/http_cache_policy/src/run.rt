//! Runs a list of steps on a policy.
ghost use Rattle.std.specs.Prelude.{◌≡◌, ◌≢◌, Err, false, map, IfOk, IsErrOf};
ghost use Rattle.http_cache_policy.specs.Exchange.{Exchange};
ghost use Rattle.http_cache_policy.specs.Answer.{is_not_modified, policy_in, parts_in};
ghost use Rattle.http_cache_policy.specs.Steps.{receives, restarts, step_seen, outcome_seen};
ghost use Rattle.http_cache_policy.specs.Run.{IsReceived, IsStepOf, IsOnlyRun};
ghost use Rattle.http_cache_policy.specs.RunStops.{RefusesStep, HasUndatedStep, HasLostTarget, LosesTarget};
ghost use Rattle.http_cache_policy.specs.RunStops.{HasNoOutcome, StopsFor};
ghost use Rattle.http_cache_policy.specs.Renewal.{IsRenewalOf, IsRenewedThrough, is_replacement, has_replacement};

use crate::after::AfterResponse;
use crate::policy::{CachePolicy, RequestLike, ResponseLike};
use crate::steps::{Outcome, Step};
use http_cache_fields::CacheError;
use jiff::Timestamp;
use std::alloc::Global;

// It is done in one function, since the prover examines each policy that is dropped.
fn set_policy(policy: &mut CachePolicy, next: CachePolicy)
    ensures { policy.new ≡ next }
{
    *policy = next;
}

fn take_over(policy: &mut CachePolicy, answer: AfterResponse) -> Outcome
    ensures policy { policy.new ≡ policy_in answer }
    ensures outcome { IsReceived (λ not_modified parts.
        (not_modified ≡ is_not_modified answer) × (parts ≡ parts_in answer)) result }
{
    match answer {
        AfterResponse::NotModified(next, parts) => {
            set_policy(policy, next);
            Outcome::NotModified(parts)
        }
        AfterResponse::Modified(next, parts) => {
            set_policy(policy, next);
            Outcome::Modified(parts)
        }
    }
}

fn receive<Req: RequestLike, Res: ResponseLike>(
    alloc: Global,
    policy: &mut CachePolicy,
    request: &Req,
    response: &Res,
    moment: Timestamp,
) -> Result<Outcome, CacheError>
    ensures step { IfOk result (λ outcome. IsStepOf policy.old
        (receives (Req.seen request.now) (Res.seen response.now) moment.nanosecond)
        outcome policy.new) }
    ensures renews { IfOk result (λ outcome. is_replacement (outcome_seen outcome) ≡ false
        → IsRenewalOf policy.old policy.new) }
    ensures full { IsErrOf result CacheError.HeaderMapFull → RefusesStep policy.old
        (receives (Req.seen request.now) (Res.seen response.now) moment.nanosecond) }
    ensures unprintable { IsErrOf result CacheError.DateNotPrintable → HasUndatedStep policy.old
        (receives (Req.seen request.now) (Res.seen response.now) moment.nanosecond) }
    ensures no_other { result ≢ Err CacheError.Malformed }
{
    let answer = policy.after_response(alloc, request, response, moment)?;
    Ok(take_over(policy, answer))
}

fn restart(alloc: Global, policy: &mut CachePolicy) -> Result<Outcome, CacheError>
    ensures step { IfOk result (λ outcome. IsStepOf policy.old restarts outcome policy.new) }
    ensures renews { IfOk result (λ _. IsRenewalOf policy.old policy.new) }
    ensures lost { IsErrOf result CacheError.Malformed → HasLostTarget policy.old }
    ensures stops { IsErrOf result CacheError.Malformed → HasNoOutcome policy.old restarts }
    ensures never_full { result ≢ Err CacheError.HeaderMapFull }
    ensures always_printable { result ≢ Err CacheError.DateNotPrintable }
{
    let value = policy.to_value(alloc)?;
    set_policy(policy, CachePolicy::from_value(alloc, &value)?);
    Ok(Outcome::Restarted)
}

// After an `Err` the policy is unchanged.
fn take_step<Req: RequestLike, Res: ResponseLike>(
    alloc: Global,
    policy: &mut CachePolicy,
    step: &Step<Req, Res>,
) -> Result<Outcome, CacheError>
    ensures step { IfOk result (λ outcome.
        IsStepOf policy.old (step_seen Req.seen Res.seen step.now) outcome policy.new) }
    ensures renews { IfOk result (λ outcome. is_replacement (outcome_seen outcome) ≡ false
        → IsRenewalOf policy.old policy.new) }
    ensures full { IsErrOf result CacheError.HeaderMapFull
        → RefusesStep policy.old (step_seen Req.seen Res.seen step.now) }
    ensures unprintable { IsErrOf result CacheError.DateNotPrintable
        → HasUndatedStep policy.old (step_seen Req.seen Res.seen step.now) }
    ensures lost { IsErrOf result CacheError.Malformed
        → LosesTarget policy.old (step_seen Req.seen Res.seen step.now) }
    ensures stops { IsErrOf result CacheError.Malformed
        → HasNoOutcome policy.old (step_seen Req.seen Res.seen step.now) }
{
    match step {
        Step::Ask { request, moment } => {
            Ok(Outcome::Asked(policy.before_request(alloc, request, *moment)?))
        }
        Step::Receive {
            request,
            response,
            moment,
        } => receive(alloc, policy, request, response, *moment),
        Step::Restart => restart(alloc, policy),
    }
}

/// Returns the outcomes of a list of steps, in order.
///
/// A request is answered by `before_request`. A response is taken by `after_response`, whose policy
/// is used from then on. A restart writes the policy by `to_value` and continues with what
/// `from_value` reads.
///
/// # Errors
///
/// The first step that fails ends the run with its error: `HeaderMapFull`, `DateNotPrintable`,
/// `Malformed` at a restart whose printed target can't be read, or `Memory`.
pub fn replay<Req: RequestLike, Res: ResponseLike>(
    alloc: Global,
    policy: &CachePolicy,
    steps: &[Step<Req, Res>],
) -> Result<Vec<Outcome>, CacheError>
    ensures run { IfOk result (λ outcomes. (last : Exchange) × IsOnlyRun policy.now
        (map (step_seen Req.seen Res.seen) steps.now) outcomes.items last) }
    ensures renewed { IfOk result (λ outcomes. has_replacement outcomes.items ≡ false
        → IsRenewedThrough policy.now (map (step_seen Req.seen Res.seen) steps.now)
        outcomes.items) }
    ensures full { IsErrOf result CacheError.HeaderMapFull
        → StopsFor RefusesStep policy.now (map (step_seen Req.seen Res.seen) steps.now) }
    ensures unprintable { IsErrOf result CacheError.DateNotPrintable
        → StopsFor HasUndatedStep policy.now (map (step_seen Req.seen Res.seen) steps.now) }
    ensures malformed { IsErrOf result CacheError.Malformed
        → StopsFor LosesTarget policy.now (map (step_seen Req.seen Res.seen) steps.now) }
{
    let mut current = policy.try_clone(alloc)?;
    let mut outcomes = Vec::new(alloc);
    for step in steps {
        let outcome = take_step(alloc, &mut current, step)?;
        outcomes.push(outcome)?;
    }
    Ok(outcomes)
}

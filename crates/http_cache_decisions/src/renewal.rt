//! Stored responses that a 304 confirms (RFC 9111, section 4.3.4).
ghost use Rattle.std.specs.Prelude.{◌≡◌, ◌≢◌, ◌⊎◌, ◌∷◌, [], OnOk, None, false, IfErr, IfOk, IfSome, option_copied};
ghost use Rattle.http_cache_rules.specs.Options.{options_of};
ghost use Rattle.http_cache_decisions.specs.Plan.{HasCondition, IsChangeOf, Stores};
ghost use Rattle.http_cache_store.specs.Target.{text_of};
ghost use Rattle.http_cache_decisions.specs.Judge.{of_id};
ghost use Rattle.http_cache_decisions.specs.Renewal.{CannotBeRenewed, IsRenewal, IsRenewalOf};
ghost use Rattle.http_cache_decisions.specs.Renewal.{IsRenewedBy, IsRenewedPolicy};
ghost use Rattle.http_cache_decisions.specs.Reply.{CannotBeSent};

use crate::head::stored_head;
use crate::needed::NeededRequest;
use crate::plan::{Arrived, Change, Plan};
use crate::reply::Reply;
use crate::storing::is_worth_storing;
use http::{Version, response};
use http_cache_fields::CacheError;
use http_cache_policy::policy::{CacheOptions, CachePolicy};
use http_cache_rules::updated::updated_headers;
use http_cache_store::{ResponseId, StoredResponse, Target};
use jiff::Timestamp;
use std::alloc::{AllocError, Global};

/// Returns the stored response that has the id.
pub fn of_id(stored: &[StoredResponse], id: ResponseId) -> Option<&StoredResponse>
    ensures { option_copied result ≡ of_id id stored.now }
{
    stored.iter().find(|one| one.id == id)
}

/// Returns the new policy of a stored response after a 304. It has the received fields, even with
/// new names (RFC 9111, sections 3.2 and 4.3.4). Its response time is the time at which the
/// validation was sent.
pub fn renewed(
    alloc: Global,
    policy: &CachePolicy,
    arrived: &Arrived<'_>,
    options: &CacheOptions,
) -> Result<CachePolicy, CacheError>
    ensures policy { IfOk result
        (IsRenewedPolicy arrived.now policy.now (options_of options.now)) }
    ensures unfit { IfErr result (λ e. (e ≡ CacheError.Memory)
        ⊎ CannotBeRenewed arrived.now policy.now) }
{
    let times = arrived.times;
    let received = stored_head(alloc, &arrived.head.headers, times.sent, times.received)?;
    let headers = match updated_headers(policy.stored_headers(), &received) {
        Ok(headers) => headers,
        Err(cause) => return Err(cause),
    };
    let head = response::Parts {
        status: policy.stored_status(),
        version: Version::HTTP_11,
        headers,
    };
    let asking = arrived.incoming.asking(policy.stored_method());
    let needed = NeededRequest::new(&asking, &head.headers)?;
    let renewed = CachePolicy::new_options(alloc, &needed, &head, times.sent, *options)?;
    Ok(renewed)
}

/// Returns an error if the cause is out of memory.
pub(crate) fn unless_memory(cause: CacheError) -> Result<(), AllocError>
    ensures { OnOk result (cause ≢ CacheError.Memory) }
{
    match cause {
        CacheError::Memory => Err(AllocError),
        CacheError::HeaderMapFull | CacheError::DateNotPrintable | CacheError::Malformed => Ok(()),
    }
}

/// The answer by a stored response that a 304 confirmed, and what to do with that response.
#[derive(Drop)]
pub struct Renewal {
    /// The answer.
    pub reply: Reply,
    /// The change of the stored response.
    pub plan: Plan,
}

/// Returns the change that gives a stored response a new policy, and removes the superseded ones.
/// If it isn't worth storing with that policy, the change removes `all`.
pub(crate) fn renewed_by(
    target: Target,
    superseded: Vec<ResponseId>,
    all: Vec<ResponseId>,
    id: ResponseId,
    policy: CachePolicy,
    now: Timestamp,
) -> Change
    ensures by { IsRenewedBy superseded.items all.items id policy now.nanosecond result }
    ensures stored { ¬ (Stores result) }
    ensures target { IsChangeOf (text_of target) result }
{
    if is_worth_storing(&policy, now) {
        drop(all);
        return Change::Renew {
            target,
            superseded,
            id,
            policy,
        };
    }
    drop(policy);
    drop(superseded);
    Change::Remove { target, ids: all }
}

// Returns the plan with the change of a renewed response.
fn renewal_plan(
    alloc: Global,
    target: Target,
    id: ResponseId,
    ids: Vec<ResponseId>,
    policy: CachePolicy,
    now: Timestamp,
) -> Plan
    ensures by { IsRenewedBy [] ids.items id policy now.nanosecond result.change }
    ensures stored { ¬ (Stores result.change) }
    ensures known { result.is_known ≡ false }
    ensures target { IsChangeOf (text_of target) result.change }
{
    let change = renewed_by(target, Vec::new(alloc), ids, id, policy, now);
    let says_stored = matches!(change, Change::Renew { .. });
    Plan {
        says_stored,
        ..Plan::of(change)
    }
}

// Returns the renewal by a policy. Fallible steps borrow it, so that it is dropped only here.
fn renewal_by(
    alloc: Global,
    target: Target,
    one: &StoredResponse,
    ids: Vec<ResponseId>,
    policy: CachePolicy,
    arrived: &Arrived<'_>,
    options: &CacheOptions,
) -> Result<Option<Renewal>, AllocError>
    requires policy { IsRenewedPolicy arrived.now one.now.policy (options_of options.now) policy }
    requires ids { ids.items ≡ one.now.id ∷ [] }
    ensures renewal { IfOk result (λ renewal. IfSome renewal
        (IsRenewal arrived.now one.now (options_of options.now))) }
    ensures unsent { IfOk result (λ renewal. renewal ≡ None → CannotBeSent policy) }
    ensures stored { IfOk result (λ renewal. IfSome renewal (λ r. ¬ (Stores r.plan.change))) }
    ensures conditional { IfOk result (λ renewal. IfSome renewal (λ r.
        r.reply.head.status ≡ 304 → HasCondition arrived.now.incoming.now.request.now)) }
    ensures target { IfOk result (λ renewal. IfSome renewal
        (λ r. IsChangeOf (text_of target) r.plan.change)) }
{
    let now = arrived.times.received;
    match Reply::of_policy(alloc, one.id, &policy, None, arrived.incoming, now) {
        Ok(Some(reply)) => Ok(Some(Renewal {
            reply,
            plan: renewal_plan(alloc, target, one.id, ids, policy, now),
        })),
        Ok(None) => {
            drop(policy);
            Ok(None)
        }
        Err(cause) => {
            drop(policy);
            Err(cause)
        }
    }
}

/// Returns the renewal of a stored response by a 304 (RFC 9111, section 4.3.4). Returns `None` if
/// the 304 doesn't confirm it or it can't be renewed.
pub fn renewal_of(
    alloc: Global,
    target: &Target,
    stored: &[StoredResponse],
    id: ResponseId,
    arrived: &Arrived<'_>,
    options: &CacheOptions,
) -> Result<Option<Renewal>, AllocError>
    ensures renewal { IfOk result
        (IsRenewalOf arrived.now (options_of options.now) id stored.now) }
    ensures stored { IfOk result (λ renewal. IfSome renewal (λ r. ¬ (Stores r.plan.change))) }
    ensures conditional { IfOk result (λ renewal. IfSome renewal (λ r.
        r.reply.head.status ≡ 304 → HasCondition arrived.now.incoming.now.request.now)) }
    ensures target { IfOk result (λ renewal. IfSome renewal
        (λ r. IsChangeOf (text_of target.now) r.plan.change)) }
{
    let Some(one) = of_id(stored, id) else {
        return Ok(None);
    };
    if !one.policy.is_confirmed_by(arrived.head) {
        return Ok(None);
    }
    let target = target.try_clone()?;
    let ids = vec![in alloc; one.id]?;
    match renewed(alloc, &one.policy, arrived, options) {
        Ok(policy) => {
            let renewal = renewal_by(alloc, target, one, ids, policy, arrived, options)?;
            Ok(renewal)
        }
        Err(cause) => {
            unless_memory(cause)?;
            Ok(None)
        }
    }
}

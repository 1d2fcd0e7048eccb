//! Decides what to store of a received response. It reads what the store showed, and plans one
//! change of the store as the last step.
//!
//! Nothing fails once a policy is made, so a policy is dropped at few places.
ghost use Rattle.std.specs.Prelude.{◌≡◌, ◌≢◌, ◌⊎◌, true, false, not, if◌then◌else◌, None};
ghost use Rattle.std.specs.Prelude.{IsSome, IfSome, IfOk, IfErr};
ghost use Rattle.http_cache_rules.specs.Options.{options_of};
ghost use Rattle.http_cache_decisions.specs.Plan.{Stores, IsChangeOf, IsElsewhere, IsWhole};
ghost use Rattle.http_cache_decisions.specs.Plan.{IsPolicyOf, IsUnfitFor, IsCopyOf, IsPlannedBy};
ghost use Rattle.http_cache_decisions.specs.Plan.{IsPlan, IsKnownPlan};
ghost use Rattle.http_cache_decisions.specs.Plan.{is_id, is_superseded, superseded_ids};
ghost use Rattle.http_cache_decisions.specs.Plan.{is_passed_on, is_cut, is_put, IsLeft, CanSendPut};
ghost use Rattle.http_cache_decisions.specs.Reply.{is_known};
ghost use Rattle.http_cache_decisions.specs.Storing.{is_worth_storing, IsRefused};
ghost use Rattle.http_cache_store.specs.Target.{text_of};

use crate::asking::Incoming;
use crate::body::Body;
use crate::complete::is_complete;
use crate::head::{add_cache_status, stored_head};
use crate::needed::NeededRequest;
use crate::reply::left_of;
use crate::storing::is_worth_storing;
use bytes::Bytes;
use http::{StatusCode, Version, response};
use http_cache_fields::CacheError;
use http_cache_policy::explain::TimeLeft;
use http_cache_policy::policy::{CacheOptions, CachePolicy};
use http_cache_store::worth::can_be_used_again;
use http_cache_store::{ResponseId, StoredResponse, Target};
use jiff::Timestamp;
use std::alloc::{AllocError, Global};

/// A change of the store.
#[derive(Drop)]
pub enum Change {
    /// No change.
    Nothing,
    /// Stores a response, and removes the superseded ones.
    Put {
        /// The target of the response.
        target: Target,
        /// The ids of the superseded responses.
        superseded: Vec<ResponseId>,
        /// The request and the head of the response.
        policy: CachePolicy,
        /// The body.
        body: Bytes,
    },
    /// Replaces the policy of a stored response, and removes the superseded ones.
    Renew {
        /// The target of the responses.
        target: Target,
        /// The ids of the superseded responses.
        superseded: Vec<ResponseId>,
        /// The id of the response.
        id: ResponseId,
        /// Its new policy.
        policy: CachePolicy,
    },
    /// Removes stored responses.
    Remove {
        /// The target of the responses.
        target: Target,
        /// Their ids.
        ids: Vec<ResponseId>,
    },
    /// Removes all that is stored for these targets.
    RemoveTargets(Vec<Target>),
}

/// The outcome of a change of the store.
#[derive(Clone, Copy, Debug, PartialEq, Eq)]
pub enum Settled {
    /// A response is stored.
    Stored,
    /// No response is stored.
    NotStored,
    /// The store failed, and stores nothing new.
    Failed,
}

/// What to do with a received response.
#[derive(Drop)]
pub struct Plan {
    /// The change of the store.
    pub change: Change,
    /// The remaining lifetime of the stored response.
    pub left: Option<TimeLeft>,
    /// The remaining lifetime of a response that is stored once its body is whole.
    pub left_if_whole: Option<TimeLeft>,
    /// The reason why it isn't stored, unless its own fields say so.
    pub detail: Option<&'static str>,
    /// Whether Cache-Status says `stored` if the store takes the response.
    pub says_stored: bool,
    /// Whether the response makes the client's own condition false.
    pub is_known: bool,
}

/// The times of a request and its response.
#[derive(Clone, Copy, Debug, PartialEq, Eq)]
pub struct Times {
    /// The time at which the request was sent.
    pub sent: Timestamp,
    /// The time at which the response was received.
    pub received: Timestamp,
}

/// A response that was received for a request.
#[derive(Clone, Copy)]
pub struct Arrived<'a> {
    /// The request.
    pub incoming: &'a Incoming<'a>,
    /// The head of the response.
    pub head: &'a response::Parts,
    /// Its body.
    pub body: &'a Body,
    /// The stored response that it replaces.
    pub id: Option<ResponseId>,
    /// The times of the request and the response.
    pub times: &'a Times,
}

impl Plan {
    /// Returns a plan with a change that stores nothing of the received response.
    pub fn of(change: Change) -> Plan
        ensures change { result.change ≡ change }
        ensures known { result.is_known ≡ false }
    {
        Plan {
            change,
            left: None,
            left_if_whole: None,
            detail: None,
            says_stored: false,
            is_known: false,
        }
    }

    /// Returns a plan that changes nothing, with an optional reason for Cache-Status.
    pub fn nothing(detail: Option<&'static str>) -> Plan
        ensures change { result.change ≡ Change.Nothing }
        ensures known { result.is_known ≡ false }
    {
        Plan {
            change: Change::Nothing,
            left: None,
            left_if_whole: None,
            detail,
            says_stored: false,
            is_known: false,
        }
    }
}

pub(crate) fn is_id(replaced: Option<ResponseId>, id: ResponseId) -> bool
    ensures { result ≡ is_id replaced id }
{
    match replaced {
        Some(one) => one == id,
        None => false,
    }
}

// Returns whether the received response supersedes a stored one. It does if they have one method,
// and it replaces the stored one or its request matches; or if the stored one can't be used again.
fn is_superseded(stored: &StoredResponse, arrived: &Arrived<'_>) -> bool
    ensures { result ≡ is_superseded arrived.now stored.now }
{
    let asking = arrived.incoming.as_received();
    let is_same_method = *stored.policy.stored_method() == *arrived.incoming.request().method();
    let is_replaced = is_id(arrived.id, stored.id);
    is_same_method && (is_replaced || stored.policy.matches_request(&asking))
        || !can_be_used_again(&stored.policy, arrived.times.received)
}

#[tactic(auto, using(crate::proofs::PlanLemmas::images_kept, crate::proofs::PlanLemmas::images_left))]
fn superseded(
    alloc: Global,
    stored: &[StoredResponse],
    arrived: &Arrived<'_>,
) -> Result<Vec<ResponseId>, AllocError>
    ensures { IfOk result (λ ids. ids.items ≡ superseded_ids arrived.now stored.now) }
{
    let mut ids = Vec::new(alloc);
    for one in stored {
        if is_superseded(one, arrived) {
            ids.push(one.id)?;
        }
    }
    Ok(ids)
}

// Returns a policy whose response time is the time at which the request was sent.
fn policy_of(
    alloc: Global,
    arrived: &Arrived<'_>,
    options: &CacheOptions,
) -> Result<CachePolicy, CacheError>
    ensures policy { IfOk result (IsPolicyOf arrived.now (options_of options.now)) }
    ensures unfit { IfErr result (λ e. (e ≡ CacheError.Memory) ⊎ IsUnfitFor arrived.now e) }
{
    let times = arrived.times;
    let mut headers = stored_head(alloc, &arrived.head.headers, times.sent, times.received)?;
    add_cache_status(&mut headers)?;
    let head = response::Parts {
        status: arrived.head.status,
        version: Version::HTTP_11,
        headers,
    };
    let asking = arrived.incoming.as_received();
    let needed = NeededRequest::new(&asking, &head.headers)?;
    let policy = CachePolicy::new_options(alloc, &needed, &head, times.sent, *options)?;
    Ok(policy)
}

// Returns the remaining lifetime of a response that is worth storing.
fn left_if_worth_storing(policy: &CachePolicy, now: Timestamp) -> Option<TimeLeft>
    ensures worth { IsSome result → is_worth_storing policy.now now.nanosecond ≡ true }
    ensures refused { result ≡ None → IsRefused policy.now now.nanosecond }
    ensures left { IfSome result (IsLeft policy.now now.nanosecond) }
{
    if is_worth_storing(policy, now) {
        Some(left_of(policy, now))
    } else {
        None
    }
}

// Plans what to do with a response whose body is in memory.
fn plan_for(
    target: Target,
    superseded: Vec<ResponseId>,
    policy: CachePolicy,
    body: Option<Bytes>,
    arrived: &Arrived<'_>,
) -> Plan
    requires whole { IsSome body → IsWhole arrived.now }
    requires body { IsCopyOf arrived.now.body.now body }
    ensures whole { Stores result.change → IsWhole arrived.now }
    ensures planned { IsPlannedBy arrived.now superseded.items policy result.change }
    ensures known { IsKnownPlan arrived.now result }
    ensures value { result.is_known ≡ is_known arrived.now.incoming.now.request.now policy }
    ensures said { result.says_stored ≡ is_put result.change }
    ensures left { result.left ≡ (if is_put result.change then result.left_if_whole else None) }
    ensures left_if_whole { IfSome result.left_if_whole
        (IsLeft policy arrived.now.times.now.received.nanosecond) }
    ensures target { IsChangeOf (text_of target) result.change }
{
    let now = arrived.times.received;
    let is_known = policy.is_not_modified_for(arrived.incoming.request());
    let left_if_whole = left_if_worth_storing(&policy, now);
    match body {
        Some(body) if left_if_whole.is_some() => Plan {
            change: Change::Put {
                target,
                superseded,
                policy,
                body,
            },
            left: left_if_whole,
            left_if_whole,
            detail: None,
            says_stored: true,
            is_known,
        },
        body => {
            drop(body);
            drop(policy);
            Plan {
                change: Change::Remove {
                    target,
                    ids: superseded,
                },
                left: None,
                left_if_whole,
                detail: None,
                says_stored: false,
                is_known,
            }
        }
    }
}

// Returns a copy of the body if it is in memory.
fn copy_of_body(body: &Body) -> Result<Option<Bytes>, AllocError>
    ensures here { IfOk result (λ copy. IsSome copy → ¬ (IsElsewhere body.now)) }
    ensures body { IfOk result (IsCopyOf body.now) }
{
    match body {
        Body::Here(bytes) => Ok(Some(bytes.clone()?)),
        Body::Elsewhere(_) => Ok(None),
    }
}

// Returns whether the body is complete, if it is in memory (RFC 9111, section 3.3).
fn is_whole(arrived: &Arrived<'_>) -> bool
    ensures whole { result ≡ true → ¬ (IsElsewhere arrived.now.body.now) → IsWhole arrived.now }
    ensures cut { result ≡ not (is_cut arrived.now) }
{
    match arrived.body {
        Body::Here(bytes) => is_complete(
            arrived.incoming.request().method(),
            arrived.head.status,
            &arrived.head.headers,
            bytes.len() as u64,
        ),
        Body::Elsewhere(_) => true,
    }
}

// Returns whether a status is that of a confirmation or of a part of a response.
fn is_passed_on(status: StatusCode) -> bool
    ensures { result ≡ is_passed_on status }
{
    status == StatusCode::NOT_MODIFIED || status == StatusCode::PARTIAL_CONTENT
}

// Returns the plan for a response of which no policy can be made.
fn unfit(cause: CacheError) -> Result<Plan, AllocError>
    ensures change { IfOk result (λ plan. plan.change ≡ Change.Nothing) }
    ensures known { IfOk result (λ plan. plan.is_known ≡ false) }
    ensures not_memory { IfOk result (λ _. cause ≢ CacheError.Memory) }
{
    match cause {
        CacheError::Memory => Err(AllocError),
        CacheError::DateNotPrintable => Ok(Plan::nothing(Some("time before 1900"))),
        CacheError::HeaderMapFull => Ok(Plan::nothing(Some("too many fields"))),
        CacheError::Malformed => Ok(Plan::nothing(Some("field named by Connection"))),
    }
}

/// Returns the plan for the response to a request that is looked up. It is stored if it was
/// received whole and may be stored (RFC 9111, sections 3 and 3.3).
///
/// Stored responses that match the request or can't be used again are removed, even if the new one
/// isn't stored. Nothing is removed for a 206, a 304, an incomplete response, or one of which no
/// policy can be made.
pub fn plan_of(
    alloc: Global,
    target: Target,
    stored: &[StoredResponse],
    arrived: &Arrived<'_>,
    options: &CacheOptions,
) -> Result<Plan, AllocError>
    ensures whole { IfOk result (λ plan. Stores plan.change → IsWhole arrived.now) }
    ensures known { IfOk result (IsKnownPlan arrived.now) }
    ensures target { IfOk result (λ plan. IsChangeOf (text_of target) plan.change) }
    ensures plan { IfOk result (IsPlan arrived.now stored.now (options_of options.now)) }
    ensures sendable { IfOk result (λ plan. CanSendPut plan.change) }
{
    if is_passed_on(arrived.head.status) {
        return Ok(Plan::nothing(None));
    }
    if !is_whole(arrived) {
        return Ok(Plan::nothing(Some("incomplete")));
    }
    let superseded = superseded(alloc, stored, arrived)?;
    let body = copy_of_body(arrived.body)?;
    match policy_of(alloc, arrived, options) {
        Ok(policy) => Ok(plan_for(target, superseded, policy, body, arrived)),
        Err(cause) => unfit(cause),
    }
}

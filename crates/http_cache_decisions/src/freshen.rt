//! What a response to HEAD makes of the responses that are stored for GET (RFC 9111, section
//! 4.3.5).
ghost use Rattle.std.specs.Prelude.{◌≡◌, ◌⊎◌, IfOk, IfSome, option_copied};
ghost use Rattle.http_cache_fields.specs.Headers.{headers_of};
ghost use Rattle.http_cache_rules.specs.Options.{options_of};
ghost use Rattle.http_cache_store.specs.Target.{text_of};
ghost use Rattle.http_cache_decisions.specs.Freshen.{differs, differs_under, confirmed_of, outdated_ids};
ghost use Rattle.http_cache_decisions.specs.Freshen.{IsFreshened, IsRenewedByHead, concerns_get};
ghost use Rattle.http_cache_decisions.specs.Freshen.{is_compared, is_for_get, is_same, is_outdated};
ghost use Rattle.http_cache_decisions.specs.Plan.{IsChangeOf, Stores};
ghost use Rattle.http_cache_decisions.specs.Renewal.{CannotBeRenewed};

use crate::plan::{Arrived, Change, is_id};
use crate::renewal::{renewed, renewed_by, unless_memory};
use http::header::{CONTENT_LENGTH, ETAG, LAST_MODIFIED};
use http::{HeaderMap, HeaderName, Method, StatusCode};
use http_cache_fields::headers::{contains_key, has_same_first};
use http_cache_policy::policy::CacheOptions;
use http_cache_store::worth::has_validator;
use http_cache_store::{ResponseId, StoredResponse, Target};
use std::alloc::{AllocError, Global};

fn differs_under(stored: &HeaderMap, received: &HeaderMap, name: HeaderName) -> bool
    ensures { result ≡ differs_under (headers_of stored.now) (headers_of received.now) name }
{
    contains_key(received, &name) && !has_same_first(stored, received, &name)
}

// Returns whether a received validator or length differs from the stored one.
fn differs(stored: &HeaderMap, received: &HeaderMap) -> bool
    ensures { result ≡ differs (headers_of stored.now) (headers_of received.now) }
{
    differs_under(stored, received, ETAG)
        || differs_under(stored, received, LAST_MODIFIED)
        || differs_under(stored, received, CONTENT_LENGTH)
}

fn is_for_get(stored: &StoredResponse, arrived: &Arrived<'_>) -> bool
    ensures { result ≡ is_for_get arrived.now stored.now }
{
    let asking = arrived.incoming.as_received();
    *stored.policy.stored_method() == Method::GET && stored.policy.answers_once_validated(&asking)
}

// Returns whether a response to HEAD confirms a stored one. Only a validator confirms anything.
fn is_same(stored: &StoredResponse, arrived: &Arrived<'_>) -> bool
    ensures { result ≡ is_same arrived.now stored.now }
{
    let received = &arrived.head.headers;
    is_for_get(stored, arrived)
        && has_validator(received)
        && !differs(stored.policy.stored_headers(), received)
}

fn is_compared(stored: &StoredResponse, arrived: &Arrived<'_>) -> bool
    ensures { result ≡ is_compared arrived.now stored.now }
{
    let received = &arrived.head.headers;
    is_for_get(stored, arrived)
        && (has_validator(received) || differs(stored.policy.stored_headers(), received))
}

fn confirmed_of<'a>(
    stored: &'a [StoredResponse],
    arrived: &Arrived<'_>,
) -> Option<&'a StoredResponse>
    ensures { option_copied result ≡ confirmed_of arrived.now stored.now }
{
    stored.iter().find(|one| is_same(one, arrived))
}

fn is_outdated(same: Option<ResponseId>, stored: &StoredResponse, arrived: &Arrived<'_>) -> bool
    ensures { result ≡ is_outdated arrived.now same stored.now }
{
    is_compared(stored, arrived) && !is_id(same, stored.id)
}

// Returns the ids of the responses that differ from the received one, and of older ones that it
// confirms too.
#[tactic(auto, using(crate::proofs::PlanLemmas::images_kept, crate::proofs::PlanLemmas::images_left))]
fn outdated_ids(
    alloc: Global,
    same: Option<ResponseId>,
    stored: &[StoredResponse],
    arrived: &Arrived<'_>,
) -> Result<Vec<ResponseId>, AllocError>
    ensures { IfOk result (λ ids. ids.items ≡ outdated_ids arrived.now same stored.now) }
{
    let mut ids = Vec::new(alloc);
    for one in stored {
        if is_outdated(same, one, arrived) {
            ids.push(one.id)?;
        }
    }
    Ok(ids)
}

// Returns the change that renews a stored response and removes the outdated ones.
fn renewal(
    alloc: Global,
    target: Target,
    stored: &StoredResponse,
    outdated: Vec<ResponseId>,
    arrived: &Arrived<'_>,
    options: &CacheOptions,
) -> Result<Change, AllocError>
    ensures by { IfOk result (λ change. IsRenewedByHead arrived.now stored.now outdated.items
        (options_of options.now) change
        ⊎ (CannotBeRenewed arrived.now stored.now.policy × (change ≡ Change.Nothing))) }
    ensures stored { IfOk result (λ change. ¬ (Stores change)) }
    ensures target { IfOk result (IsChangeOf (text_of target)) }
{
    let mut all = Vec::from_slice(alloc, outdated.as_slice())?;
    all.push(stored.id)?;
    match renewed(alloc, &stored.policy, arrived, options) {
        Ok(policy) => {
            let now = arrived.times.received;
            Ok(renewed_by(target, outdated, all, stored.id, policy, now))
        }
        Err(cause) => {
            unless_memory(cause)?;
            Ok(Change::Nothing)
        }
    }
}

fn concerns_get(arrived: &Arrived<'_>) -> bool
    ensures { result ≡ concerns_get arrived.now }
{
    arrived.incoming.is_head() && arrived.head.status == StatusCode::OK
}

/// Returns how a response to HEAD changes what is stored for GET (RFC 9111, section 4.3.5). It
/// renews what it confirms, and removes what differs. Returns `None` if it concerns nothing.
pub fn freshened(
    alloc: Global,
    target: &Target,
    stored: &[StoredResponse],
    arrived: &Arrived<'_>,
    options: &CacheOptions,
) -> Result<Option<Change>, AllocError>
    ensures freshened { IfOk result
        (IsFreshened arrived.now (options_of options.now) stored.now) }
    ensures stored { IfOk result (λ change. IfSome change (λ c. ¬ (Stores c))) }
    ensures target { IfOk result (λ change. IfSome change (IsChangeOf (text_of target.now))) }
{
    if !concerns_get(arrived) {
        return Ok(None);
    }
    let target = target.try_clone()?;
    match confirmed_of(stored, arrived) {
        Some(one) => {
            let outdated = outdated_ids(alloc, Some(one.id), stored, arrived)?;
            let change = renewal(alloc, target, one, outdated, arrived, options)?;
            Ok(Some(change))
        }
        None => {
            let outdated = outdated_ids(alloc, None, stored, arrived)?;
            if outdated.is_empty() {
                return Ok(None);
            }
            Ok(Some(Change::Remove {
                target,
                ids: outdated,
            }))
        }
    }
}

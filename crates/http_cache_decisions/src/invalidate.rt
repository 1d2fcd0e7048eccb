//! Decides what the response to an unsafe request removes.
ghost use Rattle.std.specs.Prelude.{◌≡◌, true, false, ℕ, List, Option, IfOk};
ghost use Rattle.std.specs.Prelude.{◌++◌, map, OnOk, option_copied};
ghost use Rattle.http_cache_store.specs.Target.{text_of};
ghost use Rattle.http_cache_decisions.specs.Invalidate.{is_no_error, invalidates, RemovesInvalidated};
ghost use Rattle.http_cache_decisions.specs.Invalidate.{IsNamedInField, list_of};
ghost use Rattle.http_cache_decisions.specs.Plan.{Stores, IsChangeOf, is_failure};

use crate::plan::Change;
use bytes::Bytes;
use http::header::{CONTENT_LOCATION, LOCATION};
use http::{Request, StatusCode, response};
use http_cache_fields::headers::first_text;
use http_cache_store::Target;
use std::alloc::{AllocError, Global};

// Returns whether a status is a 2xx or 3xx (RFC 9111, section 4.4).
fn is_no_error(status: StatusCode) -> bool
    ensures value { result ≡ is_no_error status }
    ensures failure { is_failure status ≡ true → result ≡ false }
{
    status.is_success() || status.is_redirection()
}

// Adds the target of a reference that has the request's origin.
fn add_named(
    alloc: Global,
    targets: &mut Vec<Target>,
    request: &Request<Bytes>,
    reference: Option<&str>,
) -> Result<(), AllocError>
    ensures { OnOk result ((named : Option (List ℕ))
        × IsNamedInField request.now (option_copied reference.entry) named
        × (map text_of targets.new.items ≡ map text_of targets.old.items ++ list_of named)) }
{
    let Some(reference) = reference else {
        return Ok(());
    };
    match Target::named(alloc, request.uri(), request.headers(), reference)? {
        Some(named) => Ok(targets.push(named)?),
        None => Ok(()),
    }
}

/// Returns the change by the response to a request that isn't looked up. A response without an
/// error to an unsafe request removes all that is stored for its targets: its own, and those at the
/// same origin in Location and Content-Location (RFC 9111, section 4.4).
pub fn invalidated(
    alloc: Global,
    request: &Request<Bytes>,
    head: &response::Parts,
) -> Result<Change, AllocError>
    ensures removed { invalidates request.now head.now.status ≡ true
        → IfOk result (RemovesInvalidated request.now head.now) }
    ensures nothing { invalidates request.now head.now.status ≡ false
        → IfOk result (λ change. change ≡ Change.Nothing) }
    ensures stored { IfOk result (λ change. ¬ (Stores change)) }
    ensures target { (own : List ℕ) → IfOk result (IsChangeOf own) }
    ensures failure { is_failure head.now.status ≡ true
        → IfOk result (λ change. change ≡ Change.Nothing) }
{
    if request.method().is_safe() || !is_no_error(head.status) {
        return Ok(Change::Nothing);
    }
    let mut targets = Vec::new(alloc);
    targets.push(Target::of(alloc, request.uri(), request.headers())?)?;
    let location = first_text(&head.headers, LOCATION);
    add_named(alloc, &mut targets, request, location)?;
    let content_location = first_text(&head.headers, CONTENT_LOCATION);
    add_named(alloc, &mut targets, request, content_location)?;
    Ok(Change::RemoveTargets(targets))
}

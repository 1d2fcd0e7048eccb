//! Decides which stored response of a target answers a request.
ghost use Rattle.std.specs.Prelude.{◌≡◌, option_copied};
ghost use Rattle.http_cache_decisions.specs.Asking.{asking_seen, incoming_seen};
ghost use Rattle.http_cache_decisions.specs.Judge.{IsSelected, IsSelectedOf, answering, usable};

use crate::asking::{Asking, Incoming};
use http_cache_policy::explain::{Explanation, Reason, StaleReason};
use http_cache_store::StoredResponse;
use jiff::Timestamp;

/// The result of a search among the stored responses.
#[derive(Clone, Copy)]
pub enum Selected<'a> {
    /// A response that may be used without validation.
    Fresh(&'a StoredResponse),
    /// A response that answers the request once it is validated, and why it has to be.
    Matching(&'a StoredResponse, Explanation<'a>),
    /// No usable response; why the newest one isn't.
    Other(Explanation<'a>),
    /// No stored response at all.
    Nothing,
}

// Returns why a stored response may not be used without validation. A stale one that forbids such
// use never may (RFC 9111, section 4.2.4), although the library lets `max-stale` override s-maxage
// and proxy-revalidate. It has no detail: the response forbids it, not the request.
fn explained<'a>(
    stored: &'a StoredResponse,
    incoming: &'a Incoming<'a>,
    now: Timestamp,
) -> Explanation<'a> {
    let policy = &stored.policy;
    let asking = incoming.asking(policy.stored_method());
    let said = policy.explain(&asking, now);
    let is_stale = said.freshness.lifetime <= said.age;
    if said.reason.is_none() && is_stale && policy.forbids_stale() {
        return Explanation {
            reason: Some(Reason::Stale(StaleReason::NotAsked)),
            ..said
        };
    }
    said
}

fn usable<'a>(
    stored: &'a [StoredResponse],
    asking: &Asking<'_>,
    now: Timestamp,
) -> Option<&'a StoredResponse>
    ensures { option_copied result
        ≡ usable (asking_seen asking.now.incoming.now asking.now.method.now) now.nanosecond stored.now }
{
    stored
        .iter()
        .find(|one| one.policy.may_be_used(asking, now))
}

fn answering<'a>(stored: &'a [StoredResponse], asking: &Asking<'_>) -> Option<&'a StoredResponse>
    ensures { option_copied result
        ≡ answering (asking_seen asking.now.incoming.now asking.now.method.now) stored.now }
{
    stored
        .iter()
        .find(|one| one.policy.answers_once_validated(asking))
}

/// Returns the newest stored response that may be used, else the newest one that answers once it is
/// validated, else why there is none (RFC 9111, sections 4 and 4.1).
pub fn select<'a>(
    stored: &'a [StoredResponse],
    incoming: &'a Incoming<'a>,
    now: Timestamp,
) -> Selected<'a>
    ensures selected { IsSelected (incoming_seen incoming.now) now.nanosecond stored.now result }
    ensures among { IsSelectedOf stored.now result }
{
    let asking = incoming.as_received();
    if let Some(one) = usable(stored, &asking, now) {
        return Selected::Fresh(one);
    }
    if let Some(one) = answering(stored, &asking) {
        return Selected::Matching(one, explained(one, incoming, now));
    }
    match stored.first() {
        Some(one) => Selected::Other(explained(one, incoming, now)),
        None => Selected::Nothing,
    }
}

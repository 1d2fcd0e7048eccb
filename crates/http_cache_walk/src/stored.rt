//! The responses that are stored for one target and method, the newest first.
ghost use Rattle.std.specs.Prelude.{◌≡◌, ◌+◌, ◌<◌, ◌∷◌, length, map, option_map, remove, slice_get, string_bytes, take, is_none, is_some, true, Some, position};
ghost use Rattle.std.specs.Prelude.{IfOk, IfSome, OnOk, option_and_then};
ghost use Rattle.std.specs.List.{list_any};
ghost use Rattle.http_cache_fields.specs.Headers.{headers_of, first_text};
ghost use Rattle.http_cache_semantics.specs.Messages.{response_seen};
ghost use Rattle.http_cache_semantics.specs.Options.{options_of};
ghost use Rattle.http_cache_semantics.specs.Reason.{reason_seen};
ghost use Rattle.http_cache_semantics.specs.Update.{selects};
ghost use Rattle.http_cache_walk.specs.Row.{used_seen, received_seen, kept_seen};
ghost use Rattle.http_cache_walk.specs.Lifetime.{kept_of};
ghost use Rattle.http_cache_walk.specs.Order.{sent_seen};
ghost use Rattle.http_cache_walk.specs.Assume.{assumed_seen, request_of};
ghost use Rattle.http_cache_walk.specs.Stored.{stored_seen, demand_of, compared_to, answer_to, answer, choose, used_of, validator_of};
ghost use Rattle.http_cache_walk.specs.Stored.{differing, varies_by_all, stays, left_by, put_first, exchange_for};
ghost use Rattle.http_cache_walk.specs.Stored.{forbidden_by, keeps_all, receive_full, updated_one, receive_304, selected};
ghost use Rattle.http_cache_walk.specs.Stored.{receive_own_304, is_of_all};

use crate::assume::AssumedRequest;
use crate::lifetime::{kept_of, lifetime_of};
use crate::order::Sent;
use crate::row::{Demand, Kept, Received, Used};
use http::header::{ETAG, LAST_MODIFIED, VARY};
use http::{HeaderMap, response};
use http_cache_fields::headers::{first_text, has_same_first_under};
use http_cache_fields::pieces::pieces_under;
use http_cache_semantics::explain::{Obstacles, Reason, Storability};
use http_cache_semantics::{CacheError, CacheOptions, CachePolicy};
use http_header::HeaderName;
use jiff::Timestamp;
use std::alloc::{AllocError, Global};

/// The most responses for one target and method.
const VARIANTS: usize = 64;

/// A stored response.
#[derive(Drop)]
pub(crate) struct Stored {
    /// Its policy.
    pub policy: CachePolicy,
    /// The names whose values in its request are unknown.
    pub unknown: Vec<HeaderName>,
    /// The index of the entry with its full response, or of the one that showed it.
    pub from: usize,
    /// The bytes that were sent for the full response, if it was sent in the recording.
    pub sent: Option<u64>,
}

/// How a stored response answers a request.
#[derive(Clone, Copy)]
pub(crate) struct Chosen {
    /// The index among the stored responses.
    pub index: usize,
    /// Whether it answers without validation.
    pub is_fresh: bool,
    /// What else the request asks for.
    pub demand: Option<Demand>,
}

fn demand_for(reason: Option<Reason<'_>>) -> Option<Demand>
    ensures { result ≡ option_and_then demand_of (option_map reason_seen reason.entry) }
{
    match reason? {
        Reason::NoCache | Reason::Pragma => Some(Demand::NoCache),
        Reason::MaxAge(_) | Reason::MinFresh(_) => Some(Demand::Limit),
        _ => None,
    }
}

fn has_first(headers: &HeaderMap, name: HeaderName) -> bool
    ensures { result ≡ is_some (first_text (headers_of headers.now) name) }
{
    first_text(headers, name).is_some()
}

/// Returns the field by which a response can be validated (RFC 9110, section 8.8).
#[tactic(auto, unfolding(crate::specs::Stored::validator_of))]
pub(crate) fn validator_of(headers: &HeaderMap) -> Option<&'static str>
    ensures { option_map (λ w. w.now) result ≡ validator_of (headers_of headers.now) }
{
    if has_first(headers, ETAG) {
        return Some("etag");
    }
    if has_first(headers, LAST_MODIFIED) {
        Some("last-modified")
    } else {
        None
    }
}

/// Returns whether a response varies by everything.
#[tactic(auto, unfolding(crate::specs::Stored::varies_by_all))]
pub(crate) fn varies_by_all(headers: &HeaderMap) -> bool
    ensures { result ≡ varies_by_all (headers_of headers.now) }
{
    pieces_under(headers, VARY).any(|name| name == "*")
}

impl Stored {
    fn compared<'b>(
        &self,
        alloc: Global,
        asked: &AssumedRequest<'b>,
    ) -> Result<AssumedRequest<'b>, AllocError>
        ensures { IfOk result (λ a. assumed_seen a
            ≡ compared_to (stored_seen self.now) (assumed_seen asked.now)) }
    {
        asked.compared(
            alloc,
            self.policy.stored_request_headers(),
            self.unknown.as_slice(),
        )
    }

    fn answer_to(&self, asked: &AssumedRequest<'_>, index: usize, now: Timestamp) -> Option<Chosen>
        ensures value { result ≡ answer_to (stored_seen self.now) (request_of (assumed_seen asked.now))
            index now.nanosecond }
        ensures at { IfSome result (λ chosen. chosen.index ≡ index) }
    {
        if self.policy.may_be_used(asked, now) {
            return Some(Chosen {
                index,
                is_fresh: true,
                demand: None,
            });
        }
        if !self.policy.answers_once_validated(asked) {
            return None;
        }
        Some(Chosen {
            index,
            is_fresh: false,
            demand: demand_for(self.policy.explain(asked, now).reason),
        })
    }

    // A request without unknown values is compared as it is.
    #[tactic(auto, unfolding(crate::specs::Stored::answer))]
    fn answer(
        &self,
        alloc: Global,
        asked: &AssumedRequest<'_>,
        index: usize,
        now: Timestamp,
    ) -> Result<Option<Chosen>, AllocError>
        ensures value { IfOk result (λ c. c
            ≡ answer (stored_seen self.now) (assumed_seen asked.now) index now.nanosecond) }
        ensures at { IfOk result (λ c. IfSome c (λ chosen. chosen.index ≡ index)) }
    {
        if self.unknown.is_empty() && asked.unknown.is_empty() {
            return Ok(self.answer_to(asked, index, now));
        }
        let asked = self.compared(alloc, asked)?;
        Ok(self.answer_to(&asked, index, now))
    }

    /// Returns what is reported of the response if it answers a request.
    pub(crate) fn used(&self, alloc: Global, now: Timestamp) -> Result<Used, AllocError>
        ensures { IfOk result (λ used. used_seen used ≡ used_of (stored_seen self.now) now.nanosecond) }
    {
        Ok(Used {
            from: self.from,
            saved: self.sent,
            age: self.policy.age(now).as_secs(),
            time_to_live: self.policy.time_to_live(now).as_secs(),
            lifetime: lifetime_of(alloc, &self.policy)?,
            is_stale: self.policy.is_stale(now),
        })
    }

    /// Returns the names in Vary whose values differ from a request's, in lower case.
    #[tactic(auto, unfolding(crate::specs::Stored::differing))]
    pub(crate) fn differing(
        &self,
        alloc: Global,
        asked: &AssumedRequest<'_>,
    ) -> Result<Vec<String>, AllocError>
        ensures { IfOk result (λ names. map string_bytes names.items
            ≡ differing (stored_seen self.now) (assumed_seen asked.now)) }
    {
        let asked = self.compared(alloc, asked)?;
        let stored = self.policy.stored_request_headers();
        let mut names = Vec::new(alloc);
        for name in pieces_under(self.policy.stored_headers(), VARY) {
            if name == "*" || !has_same_first_under(stored, &asked.headers, name) {
                let mut name = String::from_str(alloc, name)?;
                name.make_ascii_lowercase();
                names.push(name)?;
            }
        }
        Ok(names)
    }
}

/// Returns the stored response at an index.
pub(crate) fn stored_at(list: &[Stored], index: usize) -> &Stored
    requires { index < length list.now }
    ensures { slice_get (map stored_seen list.now) index ≡ Some (stored_seen result.now) }
{
    &list[index]
}

/// Returns the first stored response that may be used without validation, or else the first that
/// answers the request once it is validated (RFC 9111, section 4).
pub(crate) fn choose(
    alloc: Global,
    stored: &[Stored],
    asked: &AssumedRequest<'_>,
    now: Timestamp,
) -> Result<Option<Chosen>, AllocError>
    ensures value { IfOk result (λ c. c
        ≡ choose (map stored_seen stored.now) (assumed_seen asked.now) now.nanosecond) }
    ensures within { IfOk result (λ c. IfSome c (λ chosen. chosen.index < length stored.now)) }
{
    let mut first = None;
    for index in 0..stored.len() {
        let Some(chosen) = stored_at(stored, index).answer(alloc, asked, index, now)? else {
            continue;
        };
        if chosen.is_fresh {
            return Ok(Some(chosen));
        }
        first = first.or(Some(chosen));
    }
    Ok(first)
}

fn obstacles_of(policy: &CachePolicy) -> Option<Obstacles>
    ensures { result ≡ forbidden_by policy.now }
{
    match policy.storability() {
        Storability::Allowed(_) => None,
        Storability::Forbidden(obstacles) => Some(obstacles),
    }
}

/// Returns the policy of a response.
pub(crate) fn policy_of(
    alloc: Global,
    asked: &AssumedRequest<'_>,
    response: &response::Parts,
    received: Timestamp,
    options: CacheOptions,
) -> Result<CachePolicy, AllocError>
    ensures { IfOk result (λ policy. policy ≡ exchange_for (options_of options)
        (assumed_seen asked.now) (response_seen response.now) received.nanosecond) }
{
    match CachePolicy::new_options(alloc, asked, response, received, options) {
        Ok(policy) => Ok(policy),
        Err(CacheError::Memory) => Err(AllocError),
        Err(_) => unreachable!(),
    }
}

fn put_in_front(list: &mut Vec<Stored>, one: Stored) -> Result<(), AllocError>
    ensures { OnOk result (list.new.items ≡ one ∷ list.old.items) }
{
    match list.insert(0, one) {
        Ok(()) => Ok(()),
        Err(_) => Err(AllocError),
    }
}

fn take_out(list: &mut Vec<Stored>, index: usize)
    requires { index < length list.old.items }
    ensures items { list.new.items ≡ remove list.old.items index }
    ensures seen { map stored_seen list.new.items
        ≡ remove (map stored_seen list.old.items) index }
    ensures len { length list.new.items + 1 ≡ length list.old.items }
{
    drop(list.remove(index));
}

fn put_first(list: &mut Vec<Stored>, one: Stored) -> Result<(), AllocError>
    ensures { OnOk result (map stored_seen list.new.items
        ≡ put_first (stored_seen one) (map stored_seen list.old.items)) }
{
    list.truncate(VARIANTS - 1);
    put_in_front(list, one)?;
    Ok(())
}

/// Puts a response before the stored ones, if it may be stored. Only the newest 64 are kept.
pub(crate) fn store(list: &mut Vec<Stored>, one: Stored) -> Result<Option<Obstacles>, AllocError>
    ensures obstacles { IfOk result (λ found. found ≡ forbidden_by one.policy) }
    ensures stored { IfOk result (λ found. is_none found ≡ true → map stored_seen list.new.items
        ≡ put_first (stored_seen one) (map stored_seen list.old.items)) }
    ensures kept { IfOk result (λ found. is_some found ≡ true
        → list.new.items ≡ list.old.items) }
{
    if let Some(obstacles) = obstacles_of(&one.policy) {
        return Ok(Some(obstacles));
    }
    put_first(list, one)?;
    Ok(None)
}

fn any_is_of_all(kept: &[Stored]) -> bool
    ensures { result ≡ list_any is_of_all (map stored_seen kept.now) }
{
    kept.iter()
        .any(|other| varies_by_all(other.policy.stored_headers()))
}

// Of those that vary by everything, only the newest stays.
#[tactic(auto, unfolding(crate::specs::Stored::stays))]
fn stays(
    alloc: Global,
    kept: &[Stored],
    one: &Stored,
    asked: &AssumedRequest<'_>,
    now: Timestamp,
) -> Result<bool, AllocError>
    ensures { IfOk result (λ yes. yes ≡ stays (assumed_seen asked.now) now.nanosecond
        (map stored_seen kept.now) (stored_seen one.now)) }
{
    if varies_by_all(one.policy.stored_headers()) {
        return Ok(!any_is_of_all(kept));
    }
    Ok(one.answer(alloc, asked, 0, now)?.is_none())
}

fn make_room(
    alloc: Global,
    list: &mut Vec<Stored>,
    asked: &AssumedRequest<'_>,
    now: Timestamp,
) -> Result<(), AllocError>
    ensures { OnOk result (map stored_seen list.new.items
        ≡ left_by (assumed_seen asked.now) now.nanosecond (map stored_seen list.old.items)) }
{
    let mut index = 0;
    while index < list.len() {
        let one = stored_at(list.as_slice(), index);
        if stays(alloc, &list[..index], one, asked, now)? {
            index += 1;
        } else {
            take_out(list, index);
        }
    }
    Ok(())
}

// The origin server has an error (RFC 9111, section 4.3.3), or the request has `no-store`.
fn keeps_all(status: u16, obstacles: Option<&Obstacles>) -> bool
    ensures { result ≡ keeps_all status (option_map (λ o. o.now) obstacles.entry) }
{
    status >= 500
        || match obstacles {
            Some(obstacles) => obstacles.request_no_store,
            None => false,
        }
}

/// Receives a full response.
#[tactic(auto, unfolding(crate::specs::Stored::receive_full))]
pub(crate) fn receive_full(
    alloc: Global,
    list: &mut Vec<Stored>,
    sent: &Sent<'_>,
    asked: &AssumedRequest<'_>,
    response: &response::Parts,
    options: CacheOptions,
) -> Result<Received, AllocError>
    ensures { IfOk result (λ received. (map stored_seen list.new.items, received_seen received)
        ≡ receive_full (options_of options) (sent_seen sent.now) (assumed_seen asked.now)
        (response_seen response.now) (map stored_seen list.old.items)) }
{
    let now = sent.entry.received;
    let policy = policy_of(alloc, asked, response, now, options)?;
    let obstacles = obstacles_of(&policy);
    if !keeps_all(response.status.as_u16(), obstacles.as_ref()) {
        make_room(alloc, list, asked, now)?;
    }
    if let Some(obstacles) = obstacles {
        return Ok(Received::NotStorable(obstacles));
    }
    let kept = kept_of(alloc, &policy, now)?;
    let one = Stored {
        policy,
        unknown: Vec::new(alloc),
        from: sent.index,
        sent: Some(sent.recorded.printed.sent),
    };
    put_first(list, one)?;
    Ok(Received::Stored(kept))
}

// RFC 9111, section 4.3.4.
fn updated(
    alloc: Global,
    one: &Stored,
    asked: &AssumedRequest<'_>,
    response: &response::Parts,
    now: Timestamp,
) -> Result<Stored, AllocError>
    ensures { IfOk result (λ next. stored_seen next ≡ updated_one (assumed_seen asked.now)
        (response_seen response.now) now.nanosecond (stored_seen one.now)) }
{
    match one.policy.next_policy(alloc, asked, response, now) {
        Ok(next) => Ok(Stored {
            policy: next.policy,
            unknown: Vec::new(alloc),
            from: one.from,
            sent: one.sent,
        }),
        Err(CacheError::Memory) => Err(AllocError),
        Err(_) => unreachable!(),
    }
}

fn put_updated(
    alloc: Global,
    list: &mut Vec<Stored>,
    next: Stored,
    now: Timestamp,
) -> Result<Kept, AllocError>
    ensures kept { IfOk result (λ kept. kept_seen kept ≡ kept_of next.policy now.nanosecond) }
    ensures stored { OnOk result (map stored_seen list.new.items
        ≡ put_first (stored_seen next) (map stored_seen list.old.items)) }
{
    let kept = kept_of(alloc, &next.policy, now)?;
    put_first(list, next)?;
    Ok(kept)
}

/// Receives a 304 for the validated response, which is updated and put first, or is removed.
#[tactic(auto, unfolding(crate::specs::Stored::receive_304))]
pub(crate) fn receive_304(
    alloc: Global,
    list: &mut Vec<Stored>,
    index: usize,
    asked: &AssumedRequest<'_>,
    response: &response::Parts,
    now: Timestamp,
) -> Result<Received, AllocError>
    requires { index < length list.old.items }
    ensures { IfOk result (λ received. IfSome (slice_get (map stored_seen list.old.items) index)
        (λ s. (map stored_seen list.new.items, received_seen received) ≡ receive_304
        (assumed_seen asked.now) (response_seen response.now) now.nanosecond index s
        (map stored_seen list.old.items))) }
{
    let one = stored_at(list.as_slice(), index);
    if !one.policy.is_confirmed_by(response) {
        take_out(list, index);
        return Ok(Received::NotSelected);
    }
    let next = updated(alloc, one, asked, response, now)?;
    take_out(list, index);
    Ok(Received::Updated(put_updated(alloc, list, next, now)?))
}

fn first_selected(list: &[Stored], response: &response::Parts) -> Option<usize>
    ensures value { result ≡ position (λ s. selects s.exchange (response_seen response.now))
        (map stored_seen list.now) }
    ensures within { IfSome result (λ index. index < length list.now) }
{
    list.iter()
        .position(|one| one.policy.is_confirmed_by(response))
}

#[tactic(auto, unfolding(crate::specs::Stored::selected))]
fn selected(list: &[Stored], response: &response::Parts) -> Option<usize>
    ensures value { result ≡ selected (response_seen response.now) (map stored_seen list.now) }
    ensures within { IfSome result (λ index. index < length list.now) }
{
    if validator_of(&response.headers).is_none() {
        return None;
    }
    first_selected(list, response)
}

/// Receives a 304 to the client's own condition. The first response that it selects is updated and
/// put first; its old form stays too, unless it varies by everything.
#[tactic(auto, unfolding(crate::specs::Stored::receive_own_304))]
pub(crate) fn receive_own_304(
    alloc: Global,
    list: &mut Vec<Stored>,
    asked: &AssumedRequest<'_>,
    response: &response::Parts,
    now: Timestamp,
) -> Result<Received, AllocError>
    ensures { IfOk result (λ received. (map stored_seen list.new.items, received_seen received)
        ≡ receive_own_304 (assumed_seen asked.now) (response_seen response.now) now.nanosecond
        (map stored_seen list.old.items)) }
{
    let Some(index) = selected(list.as_slice(), response) else {
        return Ok(Received::NothingStored);
    };
    let one = stored_at(list.as_slice(), index);
    let next = updated(alloc, one, asked, response, now)?;
    if varies_by_all(one.policy.stored_headers()) {
        take_out(list, index);
    }
    Ok(Received::UpdatedOther(put_updated(alloc, list, next, now)?))
}

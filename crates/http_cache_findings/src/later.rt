//! The costs of later visits, and the urls that they request.
ghost use Rattle.std.specs.Prelude.{◌≡◌, map, IfOk};
ghost use Rattle.http_cache_semantics.specs.Options.{options_of};
ghost use Rattle.http_cache_recording.specs.Entry.{recorded_seen};
ghost use Rattle.http_cache_findings.specs.Visit.{span_seen};
ghost use Rattle.http_cache_findings.specs.Later.{AreVisits, IsLater, sum_in};

use crate::advice::Advice;
use crate::changes::Change;
use crate::cost::{response_at, text_at};
use crate::counts::Counts;
use crate::facts::Facts;
use crate::picks::advice_for;
use crate::urls::{Life, Url};
use crate::visit::{Repeat, Span, visit};
use http::Uri;
use http_cache_recording::Recorded;
use http_cache_semantics::CacheOptions;
use std::alloc::{AllocError, Global};

/// The costs of a visit an hour, a day, a week and thirty days after the recording.
#[derive(Drop)]
pub struct Visits {
    /// An hour later.
    pub hour: Counts,
    /// A day later.
    pub day: Counts,
    /// A week later.
    pub week: Counts,
    /// Thirty days later.
    pub month: Counts,
}

fn visit_after(
    alloc: Global,
    recorded: &mut Vec<Recorded>,
    repeats: &[Repeat],
    span: &Span,
    delay: u64,
    target: &Uri,
    options: &CacheOptions,
) -> Result<Counts, AllocError>
    ensures visit { IfOk result (IsLater (map recorded_seen recorded.old.items) repeats.now
        (span_seen span.now) (options_of options.now) target.now delay) }
    ensures kept { recorded.new.items ≡ recorded.old.items }
{
    let (span, options) = (*span, *options);
    visit(alloc, recorded, repeats, span.shift(delay), target, options)
}

/// Returns the costs of visits that make these requests an hour, a day, a week and thirty days
/// after the recording. The recording is the same afterwards.
pub fn visits_of(
    alloc: Global,
    recorded: &mut Vec<Recorded>,
    repeats: &[Repeat],
    span: Span,
    target: &Uri,
    options: CacheOptions,
) -> Result<Visits, AllocError>
    ensures visits { IfOk result (AreVisits (map recorded_seen recorded.old.items) repeats.now
        (span_seen span) (options_of options) target.now) }
    ensures kept { recorded.new.items ≡ recorded.old.items }
{
    let (span, options) = (&span, &options);
    let hour = visit_after(alloc, recorded, repeats, span, 3_600, target, options)?;
    let day = visit_after(alloc, recorded, repeats, span, 86_400, target, options)?;
    let week = visit_after(alloc, recorded, repeats, span, 604_800, target, options)?;
    let month = visit_after(alloc, recorded, repeats, span, 2_592_000, target, options)?;
    Ok(Visits {
        hour,
        day,
        week,
        month,
    })
}

/// Returns whether the full response of a url is sent again.
pub fn is_again(visit: &Counts, url: &str) -> Result<bool, AllocError> {
    Ok(visit.total_of("again", url)? > 0)
}

/// Returns whether a 304 confirms what is stored for a url.
pub fn is_confirmed(visit: &Counts, url: &str) -> Result<bool, AllocError> {
    Ok(visit.total_of("confirmed", url)? > 0)
}

/// Returns whether a 304 confirms what is stored for a url, at each of its requests.
pub fn is_only_confirmed(visit: &Counts, url: &str) -> Result<bool, AllocError> {
    Ok(is_confirmed(visit, url)? && !is_again(visit, url)?)
}

fn asks(visit: &Counts, url: &str) -> Result<bool, AllocError> {
    Ok(is_again(visit, url)? || is_confirmed(visit, url)?)
}

/// Returns whether one of the visits requests a url.
pub fn any_asks(visits: &Visits, url: &str) -> Result<bool, AllocError> {
    Ok(
        asks(&visits.hour, url)?
            || asks(&visits.day, url)?
            || asks(&visits.week, url)?
            || asks(&visits.month, url)?,
    )
}

/// Returns a sum of the whole visit.
pub fn sum_in(visit: &Counts, name: &str) -> Result<u64, AllocError>
    ensures { IfOk result (λ n. n ≡ sum_in visit.now name.now) }
{
    visit.total_of("visit", name)
}

/// Returns the status of an entry, or 0.
pub fn status_at(recorded: &[Recorded], index: usize) -> u16 {
    match response_at(recorded, index) {
        Some(response) => response.status.as_u16(),
        None => 0,
    }
}

/// Returns how many bytes were sent for an entry.
pub fn size_at(recorded: &[Recorded], index: usize) -> u64 {
    match recorded.get(index) {
        Some(one) => one.printed.sent,
        None => 0,
    }
}

/// Returns whether headers state the lifetime.
pub fn is_given(life: Life) -> bool {
    matches!(life, Life::Given(_))
}

/// Returns whether a url is among those to change first.
pub fn is_changed(changes: &[Change], url: &Url) -> bool {
    changes.iter().any(|change| change.pick.entry == url.entry)
}

// Returns the least bytes of a listed url.
fn least_of_listed(sums: &Counts) -> Result<u64, AllocError> {
    Ok(sums.total_of("sent", "first_load")? / 1_000)
}

/// Returns whether a later visit requests a url of the first load that states a lifetime, and that is
/// large enough or fails.
pub fn is_asked_later(
    recorded: &[Recorded],
    visits: &Visits,
    sums: &Counts,
    url: &Url,
) -> Result<bool, AllocError> {
    if !url.known.is_first || !is_given(url.life) {
        return Ok(false);
    }
    let is_large = size_at(recorded, url.full) >= least_of_listed(sums)?;
    let fails = status_at(recorded, url.full) >= 400;
    Ok((is_large || fails) && any_asks(visits, text_at(recorded, url.entry))?)
}

// Returns whether a visit asks for less with what is advised.
fn asks_less(now: &Counts, then: &Counts, url: &str) -> Result<bool, AllocError> {
    let (bytes, bytes_then) = (now.total_of("bytes", url)?, then.total_of("bytes", url)?);
    let confirmed = now.total_of("confirmed", url)?;
    let confirmed_then = then.total_of("confirmed", url)?;
    Ok(bytes_then < bytes || (bytes_then == bytes && confirmed_then < confirmed))
}

fn any_asks_less(now: &Visits, then: &Visits, url: &str) -> Result<bool, AllocError> {
    Ok(
        asks_less(&now.hour, &then.hour, url)?
            || asks_less(&now.day, &then.day, url)?
            || asks_less(&now.week, &then.week, url)?
            || asks_less(&now.month, &then.month, url)?,
    )
}

// Returns whether a url is listed: it isn't changed first, and a later visit requests it or asks for
// less with what is advised.
fn is_listed(
    recorded: &[Recorded],
    now: &Visits,
    then: &Visits,
    changes: &[Change],
    sums: &Counts,
    url: &Url,
) -> Result<bool, AllocError> {
    Ok(
        !is_changed(changes, url)
            && (is_asked_later(recorded, now, sums, url)?
                || any_asks_less(now, then, text_at(recorded, url.entry))?),
    )
}

/// Returns for each url whether the section on later visits lists it.
pub fn listed_of(
    alloc: Global,
    recorded: &[Recorded],
    now: &Visits,
    then: &Visits,
    changes: &[Change],
    sums: &Counts,
    urls: &[Url],
) -> Result<Vec<bool>, AllocError> {
    let mut all = Vec::with_capacity(alloc, urls.len())?;
    for url in urls {
        all.push(is_listed(recorded, now, then, changes, sums, url)?)?;
    }
    Ok(all)
}

/// Returns what a url that later visits request is advised to send, if a visit then asks for less.
pub fn saving_advice(
    recorded: &[Recorded],
    now: &Visits,
    then: &Visits,
    facts: &Facts,
    url: &Url,
) -> Result<Option<Advice>, AllocError> {
    if any_asks_less(now, then, text_at(recorded, url.entry))? {
        advice_for(recorded, url, facts)
    } else {
        Ok(None)
    }
}

//! Finds what caches do with each response of which only the head was read, what later visits
//! request, and what to send instead.
//!
//! Each response is a recording of its own, so that its visits count from its own time.

use crate::advice::Advice;
use crate::cost::text_at;
use crate::counts::Counts;
use crate::facts::{Facts, after_of, facts_of};
use crate::faults::faults_of;
use crate::findings::{Act, Fault, HeadFindings, Storing};
use crate::gather::acts_of;
use crate::later::{Visits, is_again, is_confirmed, visits_of};
use crate::picks::{Pick, advice_for, remedy_of};
use crate::split::{cache_of, storing_at};
use crate::urls::Url;
use crate::visit::Span;
use http::Uri;
use http_cache_recording::Recorded;
use http_cache_semantics::CacheOptions;
use http_cache_walk::order::target_of;
use http_cache_walk::settings::no_target;
use http_cache_walk::walk::rows_of;
use std::alloc::{AllocError, Global};

// Returns what a cache does with the only response of a recording.
fn storing_by(
    alloc: Global,
    recorded: &[Recorded],
    target: &Uri,
    cache: CacheOptions,
) -> Result<Storing, AllocError> {
    let rows = rows_of(alloc, recorded, target, cache)?;
    storing_at(alloc, rows.as_slice(), 0)
}

// Returns the weight of a visit's requests. A full response weighs more than three 304s.
fn weight(visit: &Counts, url: &str) -> Result<u64, AllocError> {
    let (again, confirmed) = (is_again(visit, url)?, is_confirmed(visit, url)?);
    Ok(if again {
        4
    } else if confirmed {
        1
    } else {
        0
    })
}

// Returns the weight of three visits.
fn weights(visits: &Visits, url: &str) -> Result<u64, AllocError> {
    let hour = weight(&visits.hour, url)?;
    let day = weight(&visits.day, url)?;
    let week = weight(&visits.week, url)?;
    Ok(hour.saturating_add(day).saturating_add(week))
}

fn asks_less(after: &Visits, visits: &Visits, url: &str) -> Result<bool, AllocError> {
    let (after, before) = (weights(after, url)?, weights(visits, url)?);
    Ok(after < before)
}

// Returns the costs of visits if a url follows its advice.
fn visits_with(
    alloc: Global,
    recorded: Vec<Recorded>,
    target: &Uri,
    options: &CacheOptions,
    facts: &Facts,
    span: &Span,
    url: &Url,
    advice: Advice,
) -> Result<Visits, AllocError> {
    let mut remedies = Vec::with_capacity(alloc, 1)?;
    remedies.push(remedy_of(alloc, recorded.as_slice(), Pick::only(url, advice))?)?;
    let remedies = remedies.as_slice();
    let (after, _) = after_of(alloc, recorded, target, options, remedies, facts, span)?;
    Ok(after.visits)
}

// Returns what to send, if the visits then request less.
fn saving_advice(
    alloc: Global,
    recorded: Vec<Recorded>,
    target: &Uri,
    options: &CacheOptions,
    facts: &Facts,
    span: &Span,
    url: &Url,
    visits: &Visits,
) -> Result<Option<Advice>, AllocError> {
    let Some(advice) = advice_for(recorded.as_slice(), url, facts)? else {
        return Ok(None);
    };
    let name = String::from_str(alloc, text_at(recorded.as_slice(), url.entry))?;
    let after = visits_with(alloc, recorded, target, options, facts, span, url, advice)?;
    Ok(if asks_less(&after, visits, name.as_str())? {
        Some(advice)
    } else {
        None
    })
}

// What visits do with a response, what looks wrong in it, and what to send.
type Seen = (Vec<Act>, Vec<Fault>, Option<Advice>);

fn seen_of(
    alloc: Global,
    recorded: Vec<Recorded>,
    target: &Uri,
    options: &CacheOptions,
    facts: &Facts,
    url: &Url,
    span: &Span,
) -> Result<Seen, AllocError> {
    let mut recorded = recorded;
    let (repeats, when) = (facts.repeats.as_slice(), *span);
    let visits = visits_of(alloc, &mut recorded, repeats, when, target, *options)?;
    let acts = acts_of(alloc, &visits, text_at(recorded.as_slice(), url.entry))?;
    let faults = faults_of(alloc, recorded.as_slice(), url)?;
    let advice = saving_advice(alloc, recorded, target, options, facts, span, url, &visits)?;
    Ok((acts, faults, advice))
}

// Returns what is seen of the only response of a recording, if a store could answer for it.
fn seen_by(
    alloc: Global,
    recorded: Vec<Recorded>,
    target: &Uri,
    options: &CacheOptions,
) -> Result<Seen, AllocError> {
    let facts = facts_of(alloc, recorded.as_slice(), target, *options)?;
    match (facts.urls.as_slice().first(), &facts.span) {
        (Some(url), Some(span)) => seen_of(alloc, recorded, target, options, &facts, url, span),
        _ => Ok((Vec::new(alloc), Vec::new(alloc), None)),
    }
}

fn head_findings(
    alloc: Global,
    recorded: Recorded,
    target: &Uri,
    options: &CacheOptions,
) -> Result<HeadFindings, AllocError> {
    let url = String::from_str(alloc, target_of(&recorded))?;
    let (status, bytes) = (recorded.printed.status, recorded.printed.sent);
    let mut only = Vec::with_capacity(alloc, 1)?;
    only.push(recorded)?;
    let browser = storing_by(alloc, only.as_slice(), target, cache_of(options, false))?;
    let cdn = storing_by(alloc, only.as_slice(), target, cache_of(options, true))?;
    let (acts, faults, advice) = seen_by(alloc, only, target, options)?;
    Ok(HeadFindings {
        url,
        status,
        bytes,
        browser,
        cdn,
        acts,
        faults,
        advice,
    })
}

/// Returns what is found in each response: what a browser's cache and a CDN's do with it, and what
/// later visits request. Then it has what looks wrong, and what to send if visits an hour, a day and
/// a week later then request less.
pub fn head_findings_of(
    alloc: Global,
    recorded: Vec<Recorded>,
    options: &CacheOptions,
) -> Result<Vec<HeadFindings>, AllocError> {
    let target = no_target(alloc)?;
    let mut all = Vec::with_capacity(alloc, recorded.len())?;
    for one in recorded {
        all.push(head_findings(alloc, one, &target, options)?)?;
    }
    Ok(all)
}

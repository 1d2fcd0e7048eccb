//! The urls that have an advice, the sums by which they are ordered, and the costs of all requests.
ghost use Rattle.std.specs.Prelude.{◌≡◌, ◌++◌, [], ◌∷◌, map, IfOk, IfSome, OnOk, option_map};
ghost use Rattle.std.specs.List.{All};
ghost use Rattle.std.specs.Option.{option_map_or, option_to_list};
ghost use Rattle.http_cache_recording.specs.Entry.{recorded_seen};
ghost use Rattle.http_cache_walk.specs.Row.{row_seen};
ghost use Rattle.http_cache_findings.specs.Counts.{CountsAlso, HoldsCounts, label_of, total_in};
ghost use Rattle.http_cache_findings.specs.Queries.{base_of as url_base_of};
ghost use Rattle.http_cache_findings.specs.Remedy.{remedy_seen};
ghost use Rattle.http_cache_findings.specs.Picks.{known_with, known_at};
ghost use Rattle.http_cache_findings.specs.Picks.{IsFitWith, IsFitFor, IsFitPick, IsFitRemedy, has_credentials};
ghost use Rattle.http_cache_findings.specs.Picks.{known_after, cost_name, base_name, byte_additions, url_cost, url_costs_at, url_costs};

use crate::advice::{Advice, Shown, advice_of};
use crate::cost::{Known, cost_of, is_asked_reading, known_at, recorded_at, response_of, text_at};
use crate::counts::Counts;
use crate::facts::Facts;
use crate::later::{Visits, is_asked_later};
use crate::lint::seconds_in;
use crate::queries::base_of as url_base;
use crate::remedy::{Remedy, is_still_in_full};
use crate::urls::{Life, Url};
use http::HeaderMap;
use http_cache_fields::headers::contains_key;
use http_cache_recording::{Reading, Recorded};
use http_cache_walk::lifetime::first_named;
use http_cache_walk::order::target_of;
use http_cache_walk::row::Row;
use std::alloc::{AllocError, Global};

/// The sums by which urls are ordered.
#[derive(Clone, Copy)]
pub enum Base {
    /// The sums of the later loads.
    Later,
    /// The sums of a later visit.
    Visit,
}

/// A url whose headers may be changed.
#[derive(Clone, Copy)]
pub struct Pick {
    /// The entry of its first request.
    pub entry: usize,
    /// The entry with its full response.
    pub full: usize,
    /// What to send.
    pub advice: Advice,
    /// Whether many bytes are sent for it when the page is loaded again.
    pub is_much: bool,
    /// The bytes that are sent for it then.
    pub bytes: u64,
    /// The number of its requests for which they are sent.
    pub requests: u64,
}

impl Pick {
    /// Returns the pick of a url that is on its own.
    pub fn only(url: &Url, advice: Advice) -> Pick {
        Pick {
            entry: url.entry,
            full: url.full,
            advice,
            is_much: true,
            bytes: 0,
            requests: 0,
        }
    }
}

fn max_of(a: Option<u64>, b: Option<u64>) -> Option<u64> {
    match (a, b) {
        (Some(a), Some(b)) => Some(a.max(b)),
        (None, b) => b,
        (a, None) => a,
    }
}

// Returns the seconds of the first directive with a name, if they can be read.
fn seconds_under(headers: &HeaderMap, name: &str) -> Option<u64> {
    seconds_in(first_named(headers, name)?)
}

fn given_by(life: Life) -> Option<u64> {
    match life {
        Life::Given(seconds) | Life::Guessed(seconds) => Some(seconds),
        Life::NoCache => Some(0),
        Life::Unknown | Life::NotStored => None,
    }
}

// Returns the greatest lifetime that a response states for any cache, or that each cache guesses.
fn stated_by(headers: &HeaderMap, life: Life) -> Option<u64> {
    let own = seconds_under(headers, "max-age");
    let shared = seconds_under(headers, "s-maxage");
    max_of(given_by(life), max_of(own, shared))
}

fn is_by_worker(full: &Recorded) -> bool {
    match &full.reading {
        Reading::Entry(entry) => contains_key(&entry.headers, "service-worker"),
        Reading::Skipped(_) => false,
    }
}

// Returns the advice for a full response, if that is a 200.
fn advice_by(full: &Recorded, url: &Url, is_shared: bool, with_credentials: bool) -> Option<Advice>
    ensures { IfSome result (IsFitWith (recorded_seen full.now) with_credentials) }
{
    let response = response_of(full)?;
    if response.status.as_u16() != 200 {
        return None;
    }
    let shown = Shown {
        is_shared,
        with_credentials,
        by_worker: is_by_worker(full),
        in_full: url.known.in_full,
        stated: stated_by(&response.headers, url.life),
    };
    advice_of(&response.headers, target_of(full), shown)
}

fn has_credentials(recorded: &[Recorded], sums: &Counts, entry: usize) -> Result<bool, AllocError>
    ensures { IfOk result (λ has. has
        ≡ has_credentials (map recorded_seen recorded.now) sums.now entry) }
{
    Ok(sums.total_of("with_credentials", text_at(recorded, entry))? > 0)
}

/// Returns what a url is advised to send, if anything.
pub fn advice_for(
    recorded: &[Recorded],
    url: &Url,
    facts: &Facts,
) -> Result<Option<Advice>, AllocError>
    ensures { IfOk result (λ found. IfSome found (IsFitFor (map recorded_seen recorded.now)
        facts.now.sums url.now.entry url.now.full)) }
{
    let with_credentials = has_credentials(recorded, &facts.sums, url.entry)?;
    Ok(match recorded_at(recorded, url.full) {
        Some(full) => advice_by(full, url, facts.is_shared, with_credentials),
        None => None,
    })
}

impl Base {
    fn bytes_in(self, sums: &Counts, visits: &Visits, url: &str) -> Result<u64, AllocError> {
        match self {
            Base::Later => sums.total_of("later_bytes", url),
            Base::Visit => visits.day.total_of("bytes", url),
        }
    }

    // Returns the number of a url's requests for which bytes are sent.
    fn requests_in(self, sums: &Counts, visits: &Visits, url: &str) -> Result<u64, AllocError> {
        match self {
            Base::Later => sums.total_of("later_requests", url),
            Base::Visit => {
                let again = visits.day.total_of("again", url)?;
                let confirmed = visits.day.total_of("confirmed", url)?;
                Ok(again.saturating_add(confirmed))
            }
        }
    }
}

/// Returns the sums by which urls are ordered: those of a visit if there is no later load.
pub fn base_of(sums: &Counts) -> Result<Base, AllocError> {
    Ok(if sums.total_of("loads", "later_loads")? == 0 {
        Base::Visit
    } else {
        Base::Later
    })
}

/// Returns all bytes of the later loads, or of the visit a day later.
pub fn all_by(base: Base, sums: &Counts, visits: &Visits) -> Result<u64, AllocError> {
    match base {
        Base::Later => sums.total_of("asked", "later_loads"),
        Base::Visit => visits.day.total_of("visit", "bytes"),
    }
}

// Returns whether bytes are sent, and at least one percent of all.
fn is_much(bytes: u64, all: u64) -> bool {
    bytes > 0 && bytes as u128 * 100 >= all as u128
}

fn pick_by(
    recorded: &[Recorded],
    url: &Url,
    advice: Advice,
    base: Base,
    sums: &Counts,
    visits: &Visits,
) -> Result<Pick, AllocError>
    ensures { IfOk result (λ p. p.entry ≡ url.now.entry × p.full ≡ url.now.full
        × p.advice ≡ advice) }
{
    let text = text_at(recorded, url.entry);
    let bytes = base.bytes_in(sums, visits, text)?;
    let all = all_by(base, sums, visits)?;
    Ok(Pick {
        entry: url.entry,
        full: url.full,
        advice,
        is_much: is_much(bytes, all),
        bytes,
        requests: base.requests_in(sums, visits, text)?,
    })
}

// Returns whether the recording shows a body, of which bytes can be saved.
fn is_sent(url: &Url) -> bool {
    match url.known.size {
        Some(size) => size.bytes > size.head,
        None => false,
    }
}

// Returns the pick of a url, if it has an advice, and many bytes are sent for it when the page is
// loaded again, or the section on later visits lists it.
fn pick_of(
    recorded: &[Recorded],
    url: &Url,
    facts: &Facts,
    base: Base,
    visits: &Visits,
) -> Result<Option<Pick>, AllocError>
    ensures { IfOk result (λ found. IfSome found (IsFitPick (map recorded_seen recorded.now)
        facts.now.sums)) }
{
    let Some(advice) = advice_for(recorded, url, facts)? else {
        return Ok(None);
    };
    let pick = pick_by(recorded, url, advice, base, &facts.sums, visits)?;
    let is_asked = is_asked_later(recorded, visits, &facts.sums, url)?;
    if is_sent(url) && (pick.is_much || is_asked) {
        Ok(Some(pick))
    } else {
        Ok(None)
    }
}

/// Returns what the url of a pick is advised to send.
pub fn remedy_of(alloc: Global, recorded: &[Recorded], pick: Pick) -> Result<Remedy, AllocError>
    ensures { IfOk result (λ m. m.pick ≡ pick) }
{
    Ok(Remedy {
        url: String::from_str(alloc, text_at(recorded, pick.entry))?,
        pick,
    })
}

/// Returns what urls are advised to send, in the order of their first requests: those for which many
/// bytes are sent when the page is loaded again, and those that the section on later visits lists.
pub fn remedies_of(
    alloc: Global,
    recorded: &[Recorded],
    facts: &Facts,
    base: Base,
    visits: &Visits,
) -> Result<Vec<Remedy>, AllocError>
    ensures { IfOk result (λ all. All (IsFitRemedy (map recorded_seen recorded.now) facts.now.sums)
        all.items) }
{
    let mut all = Vec::new(alloc);
    for url in facts.urls.as_slice() {
        if let Some(pick) = pick_of(recorded, url, facts, base, visits)? {
            all.push(remedy_of(alloc, recorded, pick)?)?;
        }
    }
    Ok(all)
}

fn known_with(remedies: &[Remedy], row: &Row<'_>, known: Known) -> Known
    ensures { result ≡ known_with (map remedy_seen remedies.now) (row_seen row.now) known }
{
    let in_full = is_still_in_full(remedies, target_of(row.recorded), known.in_full);
    Known { in_full, ..known }
}

fn push_known(
    all: &mut Vec<Known>,
    remedies: &[Remedy],
    row: &Row<'_>,
    known: Option<Known>,
) -> Result<(), AllocError>
    ensures { OnOk result (all.new.items ≡ all.old.items ++ option_to_list (option_map
        (known_with (map remedy_seen remedies.now) (row_seen row.now)) known)) }
{
    match known {
        Some(known) => Ok(all.push(known_with(remedies, row, known))?),
        None => Ok(()),
    }
}

/// Returns the facts about each row if urls follow their advice.
pub fn known_after(
    alloc: Global,
    rows: &[Row<'_>],
    known: &[Known],
    remedies: &[Remedy],
) -> Result<Vec<Known>, AllocError>
    ensures { IfOk result (λ all. all.items
        ≡ known_after (map remedy_seen remedies.now) (map row_seen rows.now) known.now) }
{
    let mut all = Vec::new(alloc);
    for index in 0..rows.len() {
        push_known(&mut all, remedies, &rows[index], known_at(known, index))?;
    }
    Ok(all)
}

fn cost_name(is_first: bool) -> &'static str
    ensures { result.now ≡ cost_name is_first }
{
    if is_first { "first_cost" } else { "later_cost" }
}

fn base_name(is_first: bool) -> &'static str
    ensures { result.now ≡ base_name is_first }
{
    if is_first { "first_base" } else { "later_base" }
}

fn add_base(counts: &mut Counts, is_first: bool, url: &str, bytes: u64) -> Result<(), AllocError>
    ensures { OnOk result (CountsAlso ((label_of (base_name is_first) (url_base_of url.now), bytes) ∷ [])
        counts.old counts.new) }
{
    counts.add(base_name(is_first), url_base(url), bytes)
}

// Adds the cost of a request for its url, and for all urls with its base.
fn add_bytes(counts: &mut Counts, is_first: bool, url: &str, bytes: u64) -> Result<(), AllocError>
    ensures { OnOk result (CountsAlso (byte_additions is_first url.now bytes)
        counts.old counts.new) }
{
    counts.add(cost_name(is_first), url, bytes)?;
    add_base(counts, is_first, url, bytes)?;
    Ok(())
}

#[tactic(auto, using(crate::proofs::CountsLemmas::also_none))]
fn add_cost(
    counts: &mut Counts,
    recorded: &[Recorded],
    row: &Row<'_>,
    known: &Known,
) -> Result<(), AllocError>
    ensures { OnOk result (CountsAlso (url_cost (map recorded_seen recorded.now) (row_seen row.now)
        known.now) counts.old counts.new) }
{
    if !is_asked_reading(&row.recorded.reading) {
        return Ok(());
    }
    let cost = cost_of(recorded, known, row);
    add_bytes(counts, known.is_first, target_of(row.recorded), cost.bytes)
}

#[tactic(auto, using(crate::proofs::CountsLemmas::also_none))]
fn add_cost_at(
    counts: &mut Counts,
    recorded: &[Recorded],
    row: &Row<'_>,
    known: Option<Known>,
) -> Result<(), AllocError>
    ensures { OnOk result (CountsAlso (option_map_or (url_cost (map recorded_seen recorded.now)
        (row_seen row.now)) known []) counts.old counts.new) }
{
    match known {
        Some(known) => add_cost(counts, recorded, row, &known),
        None => Ok(()),
    }
}

/// Returns the costs of each url's requests, and of all with its base, in the first load and in
/// later ones. They depend on the facts about each row.
pub fn url_costs(
    alloc: Global,
    recorded: &[Recorded],
    rows: &[Row<'_>],
    known: &[Known],
) -> Result<Counts, AllocError>
    ensures { IfOk result (HoldsCounts (url_costs (map recorded_seen recorded.now) known.now
        (map row_seen rows.now))) }
{
    let mut counts = Counts::new(alloc);
    for index in 0..rows.len() {
        add_cost_at(&mut counts, recorded, &rows[index], known_at(known, index))?;
    }
    Ok(counts)
}

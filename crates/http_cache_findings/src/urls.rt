//! The facts that a report has about each url, and the sums of a recording's loads.
ghost use Rattle.std.specs.Prelude.{◌≡◌, ◌++◌, [], length, map, IfOk, OnOk, option_map};
ghost use Rattle.std.specs.Option.{option_map_or};
ghost use Rattle.http_cache_fields.specs.Headers.{headers_of};
ghost use Rattle.http_cache_recording.specs.Entry.{recorded_seen};
ghost use Rattle.http_cache_walk.specs.Row.{row_seen, lifetime_seen};
ghost use Rattle.http_cache_findings.specs.Counts.{CountsAlso, HoldsCounts, is_forced};
ghost use Rattle.http_cache_findings.specs.Cost.{load_name};
ghost use Rattle.http_cache_findings.specs.Urls.{apart_text, apart_additions, saved_by, hit_additions, no_cache_additions, are_with_credentials, has_credentials, credential_additions};
ghost use Rattle.http_cache_findings.specs.Urls.{is_sent_later, sent_additions, asked_additions, kind_additions, row_additions, sums_of};
ghost use Rattle.http_cache_findings.specs.Urls.{life_by, life_of_used, life_of, url_at, urls_in, url_if};

use crate::by_url::{is_asked_row, is_hit, urls_of};
use crate::copies::entry_of;
use crate::cost::{Known, known_at, used_in};
use crate::counts::Counts;
use crate::visit::full_of;
use http::HeaderMap;
use http::header::{AUTHORIZATION, COOKIE};
use http_cache_fields::headers::contains_key;
use http_cache_recording::{Kind, Reading, Recorded};
use http_cache_walk::order::target_of;
use http_cache_walk::row::{Lifetime, Received, Row};
use std::alloc::{AllocError, Global};

/// How long a response stays fresh.
#[derive(Clone, Copy)]
pub enum Life {
    /// The recording doesn't show it.
    Unknown,
    /// The response isn't stored.
    NotStored,
    /// The response is validated at each use.
    NoCache,
    /// A number of seconds, guessed from Last-Modified.
    Guessed(u64),
    /// A number of seconds that the headers state.
    Given(u64),
}

/// The facts about a url.
#[derive(Clone, Copy)]
pub struct Url {
    /// The index of the row of its first request that a store could have answered.
    pub row: usize,
    /// The index of the entry of that request.
    pub entry: usize,
    /// The index of the entry with its full response.
    pub full: usize,
    /// What the recording shows of that response.
    pub known: Known,
    /// How long it stays fresh.
    pub life: Life,
}

fn load_name(is_first: bool) -> &'static str
    ensures { result.now ≡ load_name is_first }
{
    if is_first {
        "first_load"
    } else {
        "later_loads"
    }
}

/// Returns the words for an entry that no store could have answered.
pub fn apart_text(recorded: &Recorded) -> &str
    ensures { result.now ≡ apart_text (recorded_seen recorded.now) }
{
    match &recorded.reading {
        Reading::Skipped(reason) => reason.as_str(),
        Reading::Entry(entry) => match entry.kind {
            Kind::Internal => "redirected by the browser",
            Kind::Preflight => "preflights",
            Kind::Passed => recorded.printed.method.as_deref().unwrap_or(""),
            Kind::Range => "by Range",
            Kind::Failed => "failed or aborted",
            Kind::Asked => "",
        },
    }
}

fn add_apart(counts: &mut Counts, recorded: &Recorded) -> Result<(), AllocError>
    ensures { OnOk result (CountsAlso (apart_additions (recorded_seen recorded.now))
        counts.old counts.new) }
{
    let text = apart_text(recorded);
    counts.add("apart", text, 1)?;
    counts.add("apart_bytes", text, recorded.printed.sent)?;
    Ok(())
}

/// Returns what the stored response of a hit saved.
pub fn saved_by(row: &Row<'_>) -> u64
    ensures { result ≡ saved_by (row_seen row.now) }
{
    if !is_hit(row) {
        return 0;
    }
    match used_in(row) {
        Some(used) => used.saved.unwrap_or(0),
        None => 0,
    }
}

fn add_hit(counts: &mut Counts, row: &Row<'_>) -> Result<(), AllocError>
    ensures { OnOk result (CountsAlso (hit_additions (row_seen row.now)) counts.old counts.new) }
{
    counts.add_if(row.repeated, "counts", "repeated", 1)?;
    counts.add_if(is_hit(row), "verdicts", "fresh", 1)?;
    counts.add("bytes", "saved", saved_by(row))?;
    Ok(())
}

fn is_forced(row: &Row<'_>) -> bool
    ensures { result ≡ is_forced (row_seen row.now) }
{
    row.no_cache && row.repeated
}

// Counts what shows that the cache was off.
fn add_no_cache(counts: &mut Counts, row: &Row<'_>) -> Result<(), AllocError>
    ensures { OnOk result (CountsAlso (no_cache_additions (row_seen row.now))
        counts.old counts.new) }
{
    counts.add("kinds", "asked", 1)?;
    counts.add_if(row.no_cache, "counts", "no_cache", 1)?;
    counts.add_if(is_forced(row), "counts", "no_cache_repeated", 1)?;
    Ok(())
}

fn are_with_credentials(headers: &HeaderMap) -> bool
    ensures { result ≡ are_with_credentials (headers_of headers.now) }
{
    contains_key(headers, COOKIE) || contains_key(headers, AUTHORIZATION)
}

// Returns whether a request had Cookie or Authorization.
fn has_credentials(row: &Row<'_>) -> bool
    ensures { result ≡ has_credentials (row_seen row.now) }
{
    match entry_of(row.recorded) {
        Some(entry) => are_with_credentials(&entry.headers),
        None => false,
    }
}

fn add_credentials(counts: &mut Counts, row: &Row<'_>) -> Result<(), AllocError>
    ensures { OnOk result (CountsAlso (credential_additions (row_seen row.now))
        counts.old counts.new) }
{
    let url = target_of(row.recorded);
    counts.add_if(has_credentials(row), "with_credentials", url, 1)
}

fn is_sent_later(is_first: bool, sent: u64) -> bool
    ensures { result ≡ is_sent_later is_first sent }
{
    !is_first && sent > 0
}

fn add_sent(counts: &mut Counts, row: &Row<'_>, is_first: bool) -> Result<(), AllocError>
    ensures { OnOk result (CountsAlso (sent_additions (row_seen row.now) is_first)
        counts.old counts.new) }
{
    let (url, sent) = (target_of(row.recorded), row.recorded.printed.sent);
    counts.add("asked", load_name(is_first), sent)?;
    counts.add_if(!is_first, "later_bytes", url, sent)?;
    counts.add_if(is_sent_later(is_first, sent), "later_requests", url, 1)?;
    Ok(())
}

// Counts a request that a store could have answered.
fn add_asked(counts: &mut Counts, row: &Row<'_>, is_first: bool) -> Result<(), AllocError>
    ensures { OnOk result (CountsAlso (asked_additions (row_seen row.now) is_first)
        counts.old counts.new) }
{
    add_sent(counts, row, is_first)?;
    add_hit(counts, row)?;
    add_no_cache(counts, row)?;
    add_credentials(counts, row)?;
    Ok(())
}

fn add_by_kind(counts: &mut Counts, row: &Row<'_>, is_first: bool) -> Result<(), AllocError>
    ensures { OnOk result (CountsAlso (kind_additions (row_seen row.now) is_first)
        counts.old counts.new) }
{
    if is_asked_row(row) {
        add_asked(counts, row, is_first)
    } else {
        add_apart(counts, row.recorded)
    }
}

fn add_row(counts: &mut Counts, row: &Row<'_>, is_first: bool) -> Result<(), AllocError>
    ensures { OnOk result (CountsAlso (row_additions (row_seen row.now) is_first)
        counts.old counts.new) }
{
    counts.add("sent", load_name(is_first), row.recorded.printed.sent)?;
    counts.add("loads", load_name(is_first), 1)?;
    add_by_kind(counts, row, is_first)?;
    Ok(())
}

#[tactic(auto, using(crate::proofs::CountsLemmas::also_none))]
fn add_row_at(counts: &mut Counts, row: &Row<'_>, known: Option<Known>) -> Result<(), AllocError>
    ensures { OnOk result (CountsAlso (option_map_or
        (λ (k : Known). row_additions (row_seen row.now) k.is_first) known [])
        counts.old counts.new) }
{
    match known {
        Some(known) => add_row(counts, row, known.is_first),
        None => Ok(()),
    }
}

/// Returns the sums of a recording, by its rows and the facts about each.
pub fn sums_of(alloc: Global, rows: &[Row<'_>], known: &[Known]) -> Result<Counts, AllocError>
    ensures { IfOk result (HoldsCounts (sums_of (map row_seen rows.now) known.now)) }
{
    let mut counts = Counts::new(alloc);
    for index in 0..rows.len() {
        add_row_at(&mut counts, &rows[index], known_at(known, index))?;
    }
    Ok(counts)
}

fn life_by(lifetime: &Lifetime) -> Life
    ensures { result ≡ life_by (lifetime_seen lifetime.now) }
{
    match lifetime.by {
        "no-cache" => Life::NoCache,
        "last-modified" => Life::Guessed(lifetime.seconds),
        _ => Life::Given(lifetime.seconds),
    }
}

fn life_of_used(row: &Row<'_>) -> Life
    ensures { result ≡ life_of_used (row_seen row.now) }
{
    match used_in(row) {
        Some(used) => life_by(&used.lifetime),
        None => Life::Unknown,
    }
}

/// Returns how long the response of a row stays fresh.
pub fn life_of(row: &Row<'_>) -> Life
    ensures { result ≡ life_of (row_seen row.now) }
{
    let Some(verdict) = &row.verdict else {
        return Life::Unknown;
    };
    match &verdict.received {
        Received::Stored(kept) | Received::Updated(kept) | Received::UpdatedOther(kept) => {
            life_by(&kept.lifetime)
        }
        Received::NotStorable(_) => Life::NotStored,
        _ => life_of_used(row),
    }
}

fn push_url(
    all: &mut Vec<Url>,
    len: usize,
    index: usize,
    row: Option<&Row<'_>>,
    known: Option<Known>,
) -> Result<(), AllocError>
    ensures { OnOk result (all.new.items ≡ all.old.items
        ++ url_if len index (option_map (λ r. row_seen r.now) row.entry) known) }
{
    if let (Some(row), Some(known)) = (row, known) {
        all.push(Url {
            row: index,
            entry: row.index,
            full: full_of(len, row),
            known,
            life: life_of(row),
        })?;
    }
    Ok(())
}

fn push_at(
    all: &mut Vec<Url>,
    len: usize,
    rows: &[Row<'_>],
    known: &[Known],
    index: usize,
) -> Result<(), AllocError>
    ensures { OnOk result (all.new.items ≡ all.old.items
        ++ url_at len (map row_seen rows.now) known.now index) }
{
    push_url(all, len, index, rows.get(index), known_at(known, index))
}

/// Returns the urls that a store could have answered for, in the order of their first requests.
pub fn urls_in(
    alloc: Global,
    recorded: &[Recorded],
    rows: &[Row<'_>],
    known: &[Known],
) -> Result<Vec<Url>, AllocError>
    ensures { IfOk result (λ all. all.items
        ≡ urls_in (length recorded.now) (map row_seen rows.now) known.now) }
{
    let (_, firsts) = urls_of(alloc, rows)?;
    let mut all = Vec::with_capacity(alloc, firsts.len())?;
    for index in firsts.as_slice() {
        push_at(&mut all, recorded.len(), rows, known, *index)?;
    }
    Ok(all)
}

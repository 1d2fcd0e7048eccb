//! Finds queries that change while the response doesn't.
ghost use Rattle.std.specs.Prelude.{◌≡◌, map, IfOk, OnOk, option_map, string_bytes};
ghost use Rattle.http_cache_semantics.specs.Messages.{response_seen};
ghost use Rattle.http_cache_recording.specs.Entry.{recorded_seen, reading_seen, body_seen};
ghost use Rattle.http_cache_walk.specs.Row.{row_seen};
ghost use Rattle.http_cache_walk.specs.Walk.{body_in};
ghost use Rattle.http_cache_findings.specs.Counts.{CountsAlso, HoldsCounts, total_in};
ghost use Rattle.http_cache_findings.specs.Cost.{text_at};
ghost use Rattle.http_cache_findings.specs.Queries.{base_of, has_query, tag_of, tag_in, mark_of, mark_at, marked};
ghost use Rattle.http_cache_findings.specs.Queries.{mark_additions, base_additions, query_additions, bases_at, bases_of};
ghost use Rattle.http_cache_findings.specs.Queries.{is_one_body, is_changing, changing_by, changing_of};

use crate::cost::{response_of, text_at};
use crate::counts::Counts;
use crate::urls::Url;
use crate::visit::full_of;
use http::header::{ETAG, LAST_MODIFIED};
use http::response;
use http_cache_fields::headers::first_text;
use http_cache_recording::{Body, Reading, Recorded};
use http_cache_walk::order::{shown_url, target_of};
use http_cache_walk::row::Row;
use std::alloc::{AllocError, Global};

/// Returns a url up to its query.
pub fn base_of(url: &str) -> &str
    ensures { result.now ≡ base_of url.now }
{
    shown_url(url, true)
}

/// Returns the url of an entry, without its query if that is left out.
pub fn url_at(
    alloc: Global,
    recorded: &[Recorded],
    index: usize,
    hides_query: bool,
) -> Result<String, AllocError> {
    String::from_str(alloc, shown_url(text_at(recorded, index), hides_query))
}

fn has_query(url: &str) -> bool
    ensures { result ≡ has_query url.now }
{
    base_of(url).len() < url.len()
}

fn tag_of(response: &response::Parts) -> Option<&str>
    ensures { option_map (λ t. t.now) result ≡ tag_of (response_seen response.now) }
{
    match first_text(&response.headers, ETAG) {
        Some(tag) => Some(tag),
        None => first_text(&response.headers, LAST_MODIFIED),
    }
}

fn body_in(recorded: &Recorded) -> Option<&Body>
    ensures { option_map (λ b. body_seen b.now) result ≡ body_in (reading_seen recorded.now.reading) }
{
    match &recorded.reading {
        Reading::Entry(entry) => entry.body.as_ref(),
        Reading::Skipped(_) => None,
    }
}

fn tag_in(recorded: &Recorded) -> Option<&str>
    ensures { option_map (λ t. t.now) result ≡ tag_in (recorded_seen recorded.now) }
{
    match response_of(recorded) {
        Some(response) => tag_of(response),
        None => None,
    }
}

// Returns what distinguishes a response: its recorded body, else its ETag or Last-Modified.
fn mark_of(recorded: &Recorded) -> Option<&str>
    ensures { option_map (λ t. t.now) result ≡ mark_of (recorded_seen recorded.now) }
{
    match body_in(recorded) {
        Some(body) => Some(body.text.as_str()),
        None => tag_in(recorded),
    }
}

fn mark_at(recorded: &[Recorded], index: usize) -> Option<&str>
    ensures { option_map (λ t. t.now) result ≡ mark_at (map recorded_seen recorded.now) index }
{
    match recorded.get(index) {
        Some(one) => mark_of(one),
        None => None,
    }
}

// Joins a base and a mark in one text.
fn marked(alloc: Global, base: &str, mark: &str) -> Result<String, AllocError>
    ensures { IfOk result (λ text. string_bytes text ≡ marked base.now mark.now) }
{
    format!(in alloc; "{base}\n{mark}")
}

#[tactic(auto, using(crate::proofs::CountsLemmas::also_none))]
fn add_mark(
    alloc: Global,
    counts: &mut Counts,
    base: &str,
    mark: Option<&str>,
) -> Result<(), AllocError>
    ensures { OnOk result (CountsAlso (mark_additions base.now (option_map (λ t. t.now) mark.entry))
        counts.old counts.new) }
{
    match mark {
        Some(mark) => {
            let text = marked(alloc, base, mark)?;
            counts.add("marked", text.as_str(), 1)
        }
        None => Ok(()),
    }
}

fn add_base(
    alloc: Global,
    counts: &mut Counts,
    base: &str,
    mark: Option<&str>,
) -> Result<(), AllocError>
    ensures { OnOk result (CountsAlso (base_additions base.now (option_map (λ t. t.now) mark.entry))
        counts.old counts.new) }
{
    counts.add("base", base, 1)?;
    add_mark(alloc, counts, base, mark)?;
    Ok(())
}

// Counts a url with a query under its base, and under that with its mark.
#[tactic(auto, using(crate::proofs::CountsLemmas::also_none))]
fn add_query(
    alloc: Global,
    counts: &mut Counts,
    url: &str,
    mark: Option<&str>,
) -> Result<(), AllocError>
    ensures { OnOk result (CountsAlso (query_additions url.now (option_map (λ t. t.now) mark.entry))
        counts.old counts.new) }
{
    if has_query(url) {
        add_base(alloc, counts, base_of(url), mark)
    } else {
        Ok(())
    }
}

fn add_url(
    alloc: Global,
    counts: &mut Counts,
    recorded: &[Recorded],
    url: &Url,
) -> Result<(), AllocError>
    ensures { OnOk result (CountsAlso (bases_at (map recorded_seen recorded.now) url.now)
        counts.old counts.new) }
{
    let mark = mark_at(recorded, url.full);
    add_query(alloc, counts, text_at(recorded, url.entry), mark)
}

/// Returns the number of urls with each base, and the number of these with one response.
pub fn bases_of(alloc: Global, recorded: &[Recorded], urls: &[Url]) -> Result<Counts, AllocError>
    ensures { IfOk result (HoldsCounts (bases_of (map recorded_seen recorded.now) urls.now)) }
{
    let mut counts = Counts::new(alloc);
    for url in urls {
        add_url(alloc, &mut counts, recorded, url)?;
    }
    Ok(counts)
}

fn is_one_body(alloc: Global, bases: &Counts, base: &str, mark: &str) -> Result<bool, AllocError>
    ensures { IfOk result (λ holds. holds ≡ is_one_body (total_in bases.now) base.now mark.now) }
{
    let text = marked(alloc, base, mark)?;
    let urls = bases.total_of("base", base)?;
    let same = bases.total_of("marked", text.as_str())?;
    Ok(urls > 1 && same == urls)
}

/// Returns whether a url is one of several that differ only in their query, and have one response.
pub fn is_changing(
    alloc: Global,
    bases: &Counts,
    url: &str,
    mark: Option<&str>,
) -> Result<bool, AllocError>
    ensures { IfOk result (λ holds. holds
        ≡ is_changing (total_in bases.now) url.now (option_map (λ t. t.now) mark.entry)) }
{
    match mark {
        Some(mark) if has_query(url) => is_one_body(alloc, bases, base_of(url), mark),
        _ => Ok(false),
    }
}

fn changing_by(
    alloc: Global,
    bases: &Counts,
    recorded: &[Recorded],
    row: &Row<'_>,
) -> Result<bool, AllocError>
    ensures { IfOk result (λ holds. holds ≡ changing_by (total_in bases.now)
        (map recorded_seen recorded.now) (row_seen row.now)) }
{
    let mark = mark_at(recorded, full_of(recorded.len(), row));
    is_changing(alloc, bases, target_of(row.recorded), mark)
}

/// Returns for each row whether its query changes while the response doesn't.
pub fn changing_of(
    alloc: Global,
    bases: &Counts,
    recorded: &[Recorded],
    rows: &[Row<'_>],
) -> Result<Vec<bool>, AllocError>
    ensures { IfOk result (λ all. all.items ≡ changing_of (total_in bases.now)
        (map recorded_seen recorded.now) (map row_seen rows.now)) }
{
    let mut all = Vec::with_capacity(alloc, rows.len())?;
    for row in rows {
        all.push(changing_by(alloc, bases, recorded, row)?)?;
    }
    Ok(all)
}

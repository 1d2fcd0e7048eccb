//! Computes what the requests of a walk cost over the network. The recorded walk shows the sizes of
//! full responses, so that walks with changed headers can be compared.
ghost use Rattle.std.specs.Prelude.{◌≡◌, [], map, option_map, option_and_then, slice_get, IfOk, OnOk};
ghost use Rattle.std.specs.List.{flat_map, find};
ghost use Rattle.std.specs.Option.{option_map_or};
ghost use Rattle.http_cache_semantics.specs.Messages.{response_seen};
ghost use Rattle.http_cache_recording.specs.Entry.{recorded_seen, reading_seen, body_seen};
ghost use Rattle.http_cache_walk.specs.Row.{row_seen, used_seen};
ghost use Rattle.http_cache_walk.specs.Walk.{body_in};
ghost use Rattle.http_cache_findings.specs.Counts.{HoldsCounts, CountsAlso, total_in, label_of};
ghost use Rattle.http_cache_walk.specs.Order.{target_of};
ghost use Rattle.http_cache_findings.specs.Cost.{first_seen, page_of, has_page, is_other, is_of_other, sent_at, first_page};
ghost use Rattle.http_cache_findings.specs.Cost.{first_load, is_before, is_of_first, is_full_reading, size_of_used, size_of};
ghost use Rattle.http_cache_findings.specs.Cost.{used_in, ends_in_full, full_additions, known_by, known_of, response_of};
ghost use Rattle.http_cache_findings.specs.Cost.{is_same_response, is_304, is_used_again, is_confirmed, head_sent, all_sent};
ghost use Rattle.http_cache_findings.specs.Cost.{cost_by, cost_of, load_name, sum_additions, is_asked_reading};
ghost use Rattle.http_cache_findings.specs.Cost.{cost_additions, all_costs, text_at};

use crate::counts::{Counts, is_asked, is_in_full};
use http::response;
use http_cache_recording::{Answer, Body, Reading, Recorded};
use http_cache_walk::again::{are_same_bodies, is_same_validator};
use http_cache_walk::order::target_of;
use http_cache_walk::row::{Outcome, Row, Used};
use jiff::Timestamp;
use std::alloc::{AllocError, Global};

/// The size of a full response, in bytes.
#[derive(Clone, Copy)]
pub struct Size {
    /// All of the response.
    pub bytes: u64,
    /// Its status line and headers.
    pub head: u64,
}

/// What the recording shows of the full response to a request.
#[derive(Clone, Copy)]
pub struct Known {
    /// Its size, if it was sent in the recording.
    pub size: Option<Size>,
    /// Whether the request is in the first load.
    pub is_first: bool,
    /// Whether the origin server sent all of it to a condition that it meets.
    pub in_full: bool,
}

/// The cost of a request over the network.
#[derive(Clone, Copy)]
pub struct Cost {
    /// The known bytes.
    pub bytes: u64,
    /// 1 if a 304 answers the request.
    pub confirmed: u64,
    /// 1 if the size of the full response is unknown.
    pub unknown: u64,
}

/// The first load of a recording.
#[derive(Clone, Copy)]
pub struct FirstLoad<'a> {
    /// Its page, if the recording lists pages.
    pub page: Option<&'a str>,
    /// The time of the first request for another page.
    pub ended: Option<Timestamp>,
}

fn page_of<'a>(row: &'a Row<'_>) -> Option<&'a str>
    ensures { option_map (λ t. t.now) result ≡ page_of (row_seen row.now) }
{
    row.recorded.printed.page.as_deref()
}

fn has_page(row: &Row<'_>) -> bool
    ensures { result ≡ has_page (row_seen row.now) }
{
    page_of(row).is_some()
}

fn is_other(a: Option<&str>, b: Option<&str>) -> bool
    ensures { result ≡ is_other (option_map (λ t. t.now) a.entry) (option_map (λ t. t.now) b.entry) }
{
    match (a, b) {
        (Some(a), Some(b)) => a != b,
        _ => false,
    }
}

fn is_of_other(page: Option<&str>, row: &Row<'_>) -> bool
    ensures { result ≡ is_of_other (option_map (λ t. t.now) page.entry) (row_seen row.now) }
{
    is_other(page_of(row), page)
}

fn sent_at(row: &Row<'_>) -> Option<Timestamp>
    ensures { option_map (λ t. t.nanosecond) result ≡ sent_at (row_seen row.now) }
{
    match &row.recorded.reading {
        Reading::Entry(entry) => Some(entry.started),
        Reading::Skipped(_) => None,
    }
}

fn first_with_page<'a, 'b>(rows: &'a [Row<'b>]) -> Option<&'a Row<'b>>
    ensures { option_map (λ r. row_seen r.now) result ≡ find has_page (map row_seen rows.now) }
{
    rows.iter().find(|row| has_page(row))
}

fn first_page<'a>(rows: &'a [Row<'_>]) -> Option<&'a str>
    ensures { option_map (λ t. t.now) result ≡ first_page (map row_seen rows.now) }
{
    match first_with_page(rows) {
        Some(row) => page_of(row),
        None => None,
    }
}

fn first_of_other<'a, 'b>(rows: &'a [Row<'b>], page: Option<&str>) -> Option<&'a Row<'b>>
    ensures { option_map (λ r. row_seen r.now) result
        ≡ find (is_of_other (option_map (λ t. t.now) page.entry)) (map row_seen rows.now) }
{
    rows.iter().find(|row| is_of_other(page, row))
}

fn other_sent_at(rows: &[Row<'_>], page: Option<&str>) -> Option<Timestamp>
    ensures { option_map (λ t. t.nanosecond) result ≡ option_and_then sent_at
        (find (is_of_other (option_map (λ t. t.now) page.entry)) (map row_seen rows.now)) }
{
    match first_of_other(rows, page) {
        Some(row) => sent_at(row),
        None => None,
    }
}

/// Returns the first load: the page of the first row that has one, and when another began.
#[tactic(auto, unfolding(crate::specs::Cost::first_load))]
pub fn first_load<'a>(rows: &'a [Row<'_>]) -> FirstLoad<'a>
    ensures { first_seen result ≡ first_load (map row_seen rows.now) }
{
    let page = first_page(rows);
    FirstLoad {
        page,
        ended: other_sent_at(rows, page),
    }
}

fn is_before(at: Option<Timestamp>, ended: Option<Timestamp>) -> bool
    ensures { result ≡ is_before (option_map (λ t. t.nanosecond) at)
        (option_map (λ t. t.nanosecond) ended) }
{
    match (at, ended) {
        (Some(at), Some(ended)) => at < ended,
        _ => true,
    }
}

/// Returns whether a request is in the first load, by its page, or else by its time.
#[tactic(auto, unfolding(crate::specs::Cost::is_of_first))]
pub fn is_of_first(first: &FirstLoad<'_>, row: &Row<'_>) -> bool
    ensures { result ≡ is_of_first (first_seen first.now) (row_seen row.now) }
{
    if has_page(row) {
        !is_of_other(first.page, row)
    } else {
        is_before(sent_at(row), first.ended)
    }
}

/// Returns whether an entry has a full response from the network.
pub fn is_full(recorded: &Recorded) -> bool
    ensures { result ≡ is_full_reading (reading_seen recorded.now.reading) }
{
    let Reading::Entry(entry) = &recorded.reading else {
        return false;
    };
    match &entry.answer {
        Answer::Received(response) => response.status.as_u16() != 304,
        _ => false,
    }
}

fn size_of_used(recorded: &[Recorded], used: &Used) -> Option<Size>
    ensures { result ≡ size_of_used (map recorded_seen recorded.now) (used_seen used.now) }
{
    let bytes = used.saved?;
    let head = recorded.get(used.from)?.printed.head;
    Some(Size { bytes, head })
}

/// Returns the stored response that answers a request, or that is validated.
pub fn used_in<'a>(row: &'a Row<'_>) -> Option<&'a Used>
    ensures { option_map (λ u. used_seen u.now) result ≡ used_in (row_seen row.now) }
{
    row.verdict.as_ref()?.used.as_ref()
}

// The request's own full response, or the stored one's.
#[tactic(auto, unfolding(crate::specs::Cost::size_of))]
fn size_of(recorded: &[Recorded], row: &Row<'_>) -> Option<Size>
    ensures { result ≡ size_of (map recorded_seen recorded.now) (row_seen row.now) }
{
    if is_full(row.recorded) {
        return Some(Size {
            bytes: row.recorded.printed.sent,
            head: row.recorded.printed.head,
        });
    }
    size_of_used(recorded, used_in(row)?)
}

/// Returns whether the origin server sent a full response to a condition that it meets.
pub fn ends_in_full(row: &Row<'_>) -> bool
    ensures { result ≡ ends_in_full (row_seen row.now) }
{
    match &row.verdict {
        Some(verdict) => is_in_full(verdict.again),
        None => false,
    }
}

fn in_full(alloc: Global, rows: &[Row<'_>]) -> Result<Counts, AllocError>
    ensures { IfOk result (HoldsCounts (flat_map full_additions (map row_seen rows.now))) }
{
    let mut counts = Counts::new(alloc);
    for row in rows {
        counts.add_if(ends_in_full(row), "in_full", target_of(row.recorded), 1)?;
    }
    Ok(counts)
}

fn known_by(
    recorded: &[Recorded],
    first: &FirstLoad<'_>,
    in_full: &Counts,
    row: &Row<'_>,
) -> Result<Known, AllocError>
    ensures { IfOk result (λ known. known ≡ known_by (map recorded_seen recorded.now)
        (first_seen first.now) (total_in in_full.now) (row_seen row.now)) }
{
    let count = in_full.total_of("in_full", target_of(row.recorded))?;
    Ok(Known {
        size: size_of(recorded, row),
        is_first: is_of_first(first, row),
        in_full: count > 0,
    })
}

/// Returns what the recording shows of the full response to each request.
pub fn known_of(
    alloc: Global,
    recorded: &[Recorded],
    rows: &[Row<'_>],
) -> Result<Vec<Known>, AllocError>
    ensures { IfOk result (λ all. all.items
        ≡ known_of (map recorded_seen recorded.now) (map row_seen rows.now)) }
{
    let first = first_load(rows);
    let in_full = in_full(alloc, rows)?;
    let mut all = Vec::with_capacity(alloc, rows.len())?;
    for row in rows {
        all.push(known_by(recorded, &first, &in_full, row)?)?;
    }
    Ok(all)
}

/// Returns the url of an entry, or an empty text if there is no such entry.
pub fn text_at(recorded: &[Recorded], index: usize) -> &str
    ensures { result.now ≡ text_at (map recorded_seen recorded.now) index }
{
    match recorded.get(index) {
        Some(one) => target_of(one),
        None => "",
    }
}

/// Returns the response of an entry, if it has one.
pub fn response_of(recorded: &Recorded) -> Option<&response::Parts>
    ensures { option_map (λ r. response_seen r.now) result
        ≡ response_of (reading_seen recorded.now.reading) }
{
    let Reading::Entry(entry) = &recorded.reading else {
        return None;
    };
    match &entry.answer {
        Answer::Failed => None,
        Answer::Cached(response) | Answer::Received(response) => Some(response),
    }
}

/// Returns the entry at an index.
pub fn recorded_at(recorded: &[Recorded], index: usize) -> Option<&Recorded>
    ensures { option_map (λ r. recorded_seen r.now) result
        ≡ slice_get (map recorded_seen recorded.now) index }
{
    recorded.get(index)
}

/// Returns the response of the entry at an index.
pub fn response_at(recorded: &[Recorded], index: usize) -> Option<&response::Parts> {
    response_of(recorded.get(index)?)
}

fn body_of(recorded: &Recorded) -> Option<&Body>
    ensures { option_map (λ b. body_seen b.now) result ≡ body_in (reading_seen recorded.now.reading) }
{
    match &recorded.reading {
        Reading::Entry(entry) => entry.body.as_ref(),
        Reading::Skipped(_) => None,
    }
}

// By validators, or else by the bodies.
#[tactic(auto, unfolding(crate::specs::Cost::is_same_response))]
fn is_same_response(a: &Recorded, b: &Recorded) -> bool
    ensures { result ≡ is_same_response (reading_seen a.now.reading) (reading_seen b.now.reading) }
{
    let (Some(x), Some(y)) = (response_of(a), response_of(b)) else {
        return false;
    };
    if x.status.as_u16() != y.status.as_u16() {
        return false;
    }
    match is_same_validator(&x.headers, &y.headers) {
        Some(same) => same,
        None => are_same_bodies(body_of(a), body_of(b)).unwrap_or(false),
    }
}

#[tactic(auto, unfolding(crate::specs::Cost::is_304))]
fn is_304(recorded: &Recorded) -> bool
    ensures { result ≡ is_304 (reading_seen recorded.now.reading) }
{
    match response_of(recorded) {
        Some(response) => response.status.as_u16() == 304,
        None => false,
    }
}

fn is_used_again(recorded: &[Recorded], row: &Row<'_>, used: &Used) -> bool
    ensures { result ≡ is_used_again (map recorded_seen recorded.now) (row_seen row.now)
        (used_seen used.now) }
{
    match recorded.get(used.from) {
        Some(stored) => is_same_response(stored, row.recorded),
        None => false,
    }
}

#[tactic(auto, unfolding(crate::specs::Cost::is_confirmed))]
fn is_confirmed(recorded: &[Recorded], known: &Known, row: &Row<'_>) -> bool
    ensures { result ≡ is_confirmed (map recorded_seen recorded.now) known.now (row_seen row.now) }
{
    if is_304(row.recorded) {
        return true;
    }
    match used_in(row) {
        Some(used) => !known.in_full && is_used_again(recorded, row, used),
        None => false,
    }
}

fn head_sent(size: Option<Size>) -> Cost
    ensures { result ≡ head_sent size }
{
    let bytes = match size {
        Some(size) => size.head,
        None => 0,
    };
    Cost {
        bytes,
        confirmed: 1,
        unknown: 0,
    }
}

fn all_sent(size: Option<Size>) -> Cost
    ensures { result ≡ all_sent size }
{
    let (bytes, unknown) = match size {
        Some(size) => (size.bytes, 0),
        None => (0, 1),
    };
    Cost {
        bytes,
        confirmed: 0,
        unknown,
    }
}

fn cost_by(outcome: Outcome, is_confirmed: bool, size: Option<Size>) -> Cost
    ensures { result ≡ cost_by outcome is_confirmed size }
{
    match outcome {
        Outcome::Apart | Outcome::Fresh => Cost {
            bytes: 0,
            confirmed: 0,
            unknown: 0,
        },
        Outcome::Validate if is_confirmed => head_sent(size),
        _ => all_sent(size),
    }
}

/// Returns the cost of a request: nothing for a fresh response, a head for a confirmed one,
/// otherwise all.
#[tactic(auto, unfolding(crate::specs::Cost::cost_of))]
pub fn cost_of(recorded: &[Recorded], known: &Known, row: &Row<'_>) -> Cost
    ensures { result ≡ cost_of (map recorded_seen recorded.now) known.now (row_seen row.now) }
{
    let outcome = match &row.verdict {
        Some(verdict) => verdict.outcome,
        None => Outcome::Apart,
    };
    cost_by(outcome, is_confirmed(recorded, known, row), known.size)
}

fn load_name(is_first: bool) -> &'static str
    ensures { result.now ≡ load_name is_first }
{
    if is_first {
        "first_load"
    } else {
        "later_loads"
    }
}

/// Returns whether a store could have answered the request.
pub fn is_asked_reading(reading: &Reading) -> bool
    ensures { result ≡ is_asked_reading (reading_seen reading.now) }
{
    match reading {
        Reading::Entry(entry) => is_asked(entry.kind),
        Reading::Skipped(_) => false,
    }
}

fn add_sums(counts: &mut Counts, load: &str, cost: Cost) -> Result<(), AllocError>
    ensures { OnOk result (CountsAlso (sum_additions load.now cost) counts.old counts.new) }
{
    counts.add(load, "bytes", cost.bytes)?;
    counts.add(load, "confirmed", cost.confirmed)?;
    counts.add(load, "unknown", cost.unknown)?;
    Ok(())
}

#[tactic(auto, unfolding(crate::specs::Cost::cost_additions), using(crate::proofs::CountsLemmas::also_none))]
fn add_cost(
    counts: &mut Counts,
    recorded: &[Recorded],
    row: &Row<'_>,
    known: &Known,
) -> Result<(), AllocError>
    ensures { OnOk result (CountsAlso (cost_additions (map recorded_seen recorded.now)
        (row_seen row.now) known.now) counts.old counts.new) }
{
    if !is_asked_reading(&row.recorded.reading) {
        return Ok(());
    }
    let cost = cost_of(recorded, known, row);
    add_sums(counts, load_name(known.is_first), cost)
}

/// Returns what is known of the full response for the row at an index.
pub fn known_at(known: &[Known], index: usize) -> Option<Known>
    ensures { result ≡ slice_get known.now index }
{
    known.get(index).copied()
}

#[tactic(auto, using(crate::proofs::CountsLemmas::also_none))]
fn add_cost_at(
    counts: &mut Counts,
    recorded: &[Recorded],
    row: &Row<'_>,
    known: Option<Known>,
) -> Result<(), AllocError>
    ensures { OnOk result (CountsAlso (option_map_or (cost_additions (map recorded_seen recorded.now)
        (row_seen row.now)) known []) counts.old counts.new) }
{
    match known {
        Some(known) => add_cost(counts, recorded, row, &known),
        None => Ok(()),
    }
}

/// Returns the costs of the rows of a walk, by what is known of each.
pub fn all_costs(
    alloc: Global,
    recorded: &[Recorded],
    known: &[Known],
    rows: &[Row<'_>],
) -> Result<Counts, AllocError>
    ensures { IfOk result (HoldsCounts (all_costs (map recorded_seen recorded.now) known.now
        (map row_seen rows.now))) }
{
    let mut counts = Counts::new(alloc);
    for index in 0..rows.len() {
        add_cost_at(&mut counts, recorded, &rows[index], known_at(known, index))?;
    }
    Ok(counts)
}

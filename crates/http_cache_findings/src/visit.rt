//! The costs of a later visit, which repeats the requests of the first load after the recording.
//! The same cache answers them, in a second walk over the recording with the copies at its end.
ghost use Rattle.std.specs.Prelude.{◌≡◌, ◌++◌, ◌-ℤ◌, ◌+ℤ◌, ◌*◌, pos, length, map, option_map, IfOk, OnOk};
ghost use Rattle.std.specs.List.{flat_map, find};
ghost use Rattle.std.specs.Option.{option_to_list};
ghost use Rattle.http_cache_semantics.specs.Options.{options_of};
ghost use Rattle.http_cache_recording.specs.Entry.{recorded_seen};
ghost use Rattle.http_cache_walk.specs.Row.{row_seen};
ghost use Rattle.http_cache_findings.specs.Counts.{HoldsCounts, CountsAlso};
ghost use Rattle.http_cache_findings.specs.Cost.{first_seen, sent_at};
ghost use Rattle.http_cache_findings.specs.Visit.{full_of, is_repeated, other_query_at, repeat_by, repeat_of, repeats_of};
ghost use Rattle.http_cache_findings.specs.Visit.{is_first_entry, first_sent, received_in, later, last_received, span_seen, span_of};
ghost use Rattle.http_cache_findings.specs.Visit.{is_sent, is_again, amount_additions, amounts, sums};
ghost use Rattle.http_cache_findings.specs.Visit.{repeat_additions, repeat_in, row_additions, AreVisitCounts, IsVisit};

use crate::copies::{copies_of, entry_of};
use crate::cost::{
    Cost, FirstLoad, Known, cost_of, first_load, is_asked_reading, is_full, is_of_first, known_at,
    text_at, used_in,
};
use crate::counts::Counts;
use http::Uri;
use http_cache_recording::Recorded;
use http_cache_semantics::CacheOptions;
use http_cache_walk::order::target_of;
use http_cache_walk::row::{Outcome, Row};
use http_cache_walk::walk::rows_of;
use jiff::Timestamp;
use std::alloc::{AllocError, Global};

/// A request of the first load that a later visit repeats.
#[derive(Clone, Copy)]
pub struct Repeat {
    /// The index of the request in the recording.
    pub entry: usize,
    /// The index of the entry with its full response.
    pub full: usize,
    /// What the recording shows of that response.
    pub known: Known,
    /// Whether its query will have changed, so that nothing is stored for it.
    pub other_query: bool,
}

/// The beginning of the first load, and the end of the recording.
#[derive(Clone, Copy)]
pub struct Span {
    /// The time at which the first request of the first load was sent.
    pub begun: Timestamp,
    /// The time at which the last response was received.
    pub ended: Timestamp,
}

/// Returns the index of the entry with the full response to a request: its own, or the stored
/// response's.
pub fn full_of(len: usize, row: &Row<'_>) -> usize
    ensures { result ≡ full_of len (row_seen row.now) }
{
    if is_full(row.recorded) {
        return row.index;
    }
    match used_in(row) {
        Some(used) if used.from < len => used.from,
        _ => row.index,
    }
}

fn is_repeated(row: &Row<'_>, known: &Known) -> bool
    ensures { result ≡ is_repeated (row_seen row.now) known.now }
{
    known.is_first && is_asked_reading(&row.recorded.reading)
}

fn repeat_by(len: usize, row: &Row<'_>, known: Known, other_query: bool) -> Option<Repeat>
    ensures { result ≡ repeat_by len (row_seen row.now) other_query known }
{
    if !is_repeated(row, &known) {
        return None;
    }
    Some(Repeat {
        entry: row.index,
        full: full_of(len, row),
        known,
        other_query,
    })
}

fn repeat_of(len: usize, row: &Row<'_>, known: Option<Known>, other_query: bool) -> Option<Repeat>
    ensures { result ≡ repeat_of len (row_seen row.now) known other_query }
{
    match known {
        Some(known) => repeat_by(len, row, known, other_query),
        None => None,
    }
}

fn other_query_at(changing: &[bool], index: usize) -> bool
    ensures { result ≡ other_query_at changing.now index }
{
    changing.get(index).copied().unwrap_or(false)
}

fn push_some(all: &mut Vec<Repeat>, repeat: Option<Repeat>) -> Result<(), AllocError>
    ensures { OnOk result (all.new.items ≡ all.old.items ++ option_to_list repeat) }
{
    match repeat {
        Some(repeat) => Ok(all.push(repeat)?),
        None => Ok(()),
    }
}

/// Returns the requests of the first load that a store could have answered, in the order of the
/// rows. `changing` says for each row whether its query changes until the later visit.
pub fn repeats_of(
    alloc: Global,
    recorded: &[Recorded],
    rows: &[Row<'_>],
    known: &[Known],
    changing: &[bool],
) -> Result<Vec<Repeat>, AllocError>
    ensures { IfOk result (λ repeats. repeats.items
        ≡ repeats_of (length recorded.now) known.now changing.now (map row_seen rows.now)) }
{
    let mut all = Vec::new(alloc);
    for index in 0..rows.len() {
        let (one, other_query) = (known_at(known, index), other_query_at(changing, index));
        push_some(
            &mut all,
            repeat_of(recorded.len(), &rows[index], one, other_query),
        )?;
    }
    Ok(all)
}

fn is_first_entry(first: &FirstLoad<'_>, row: &Row<'_>) -> bool
    ensures { result ≡ is_first_entry (first_seen first.now) (row_seen row.now) }
{
    is_of_first(first, row) && entry_of(row.recorded).is_some()
}

fn first_entry<'a, 'b>(rows: &'a [Row<'b>], first: &FirstLoad<'_>) -> Option<&'a Row<'b>>
    ensures { option_map (λ r. row_seen r.now) result
        ≡ find (is_first_entry (first_seen first.now)) (map row_seen rows.now) }
{
    rows.iter().find(|row| is_first_entry(first, row))
}

fn sent_at(row: &Row<'_>) -> Option<Timestamp>
    ensures { option_map (λ t. t.nanosecond) result ≡ sent_at (row_seen row.now) }
{
    match entry_of(row.recorded) {
        Some(entry) => Some(entry.started),
        None => None,
    }
}

/// Returns when the first request of the first load was sent, if it has one. The rows have the
/// order in which their requests were sent.
pub fn first_sent(rows: &[Row<'_>]) -> Option<Timestamp>
    ensures { option_map (λ t. t.nanosecond) result ≡ first_sent (map row_seen rows.now) }
{
    let first = first_load(rows);
    match first_entry(rows, &first) {
        Some(row) => sent_at(row),
        None => None,
    }
}

fn received_in(recorded: &Recorded) -> Option<Timestamp>
    ensures { option_map (λ t. t.nanosecond) result ≡ received_in (recorded_seen recorded.now) }
{
    match entry_of(recorded) {
        Some(entry) => Some(entry.received),
        None => None,
    }
}

fn later(a: Option<Timestamp>, b: Option<Timestamp>) -> Option<Timestamp>
    ensures { option_map (λ t. t.nanosecond) result
        ≡ later (option_map (λ t. t.nanosecond) a) (option_map (λ t. t.nanosecond) b) }
{
    match (a, b) {
        (Some(a), Some(b)) => if b < a { Some(a) } else { Some(b) },
        (None, b) => b,
        (a, None) => a,
    }
}

/// Returns when the last response was received, if there is one.
pub fn last_received(recorded: &[Recorded]) -> Option<Timestamp>
    ensures { option_map (λ t. t.nanosecond) result
        ≡ last_received (map recorded_seen recorded.now) }
{
    let mut last = None;
    for one in recorded {
        last = later(last, received_in(one));
    }
    last
}

/// Returns when the first load began and the recording ended, if the first load has an entry.
pub fn span_of(recorded: &[Recorded], rows: &[Row<'_>]) -> Option<Span>
    ensures { option_map span_seen result
        ≡ span_of (map recorded_seen recorded.now) (map row_seen rows.now) }
{
    match (first_sent(rows), last_received(recorded)) {
        (Some(begun), Some(ended)) => Some(Span { begun, ended }),
        _ => None,
    }
}

impl Span {
    /// Returns by how many nanoseconds the first load is moved for a visit `delay` seconds after
    /// the recording ended.
    pub fn shift(self, delay: u64) -> i128
        ensures { result ≡ (self.ended.nanosecond -ℤ self.begun.nanosecond)
            +ℤ pos (delay * 1_000_000_000) }
    {
        let recorded = self.ended.as_nanosecond() - self.begun.as_nanosecond();
        recorded + delay as i128 * 1_000_000_000
    }
}

// Returns whether a request with an outcome is sent to the origin server.
fn is_sent(outcome: Outcome) -> bool
    ensures { result ≡ is_sent outcome }
{
    !matches!(outcome, Outcome::Apart | Outcome::Fresh)
}

// Returns whether the full response to a request is sent again.
fn is_again(row: &Row<'_>, cost: Cost) -> bool
    ensures { result ≡ is_again (row_seen row.now) cost }
{
    match &row.verdict {
        Some(verdict) => is_sent(verdict.outcome) && cost.confirmed == 0,
        None => false,
    }
}

// Adds an amount for a url, and for the whole visit.
fn add_amount(counts: &mut Counts, name: &str, url: &str, amount: u64) -> Result<(), AllocError>
    ensures { OnOk result (CountsAlso (amount_additions name.now url.now amount)
        counts.old counts.new) }
{
    counts.add_if(amount > 0, name, url, amount)?;
    counts.add_if(amount > 0, "visit", name, amount)?;
    Ok(())
}

fn add_amounts(counts: &mut Counts, url: &str, cost: Cost) -> Result<(), AllocError>
    ensures { OnOk result (CountsAlso (amounts url.now cost) counts.old counts.new) }
{
    add_amount(counts, "bytes", url, cost.bytes)?;
    add_amount(counts, "confirmed", url, cost.confirmed)?;
    add_amount(counts, "unknown", url, cost.unknown)?;
    Ok(())
}

fn add_sums(counts: &mut Counts, url: &str, row: &Row<'_>, cost: Cost) -> Result<(), AllocError>
    ensures { OnOk result (CountsAlso (sums url.now (row_seen row.now) cost)
        counts.old counts.new) }
{
    add_amounts(counts, url, cost)?;
    counts.add_if(is_again(row, cost), "again", url, 1)?;
    Ok(())
}

fn add_repeat(
    counts: &mut Counts,
    recorded: &[Recorded],
    row: &Row<'_>,
    repeat: &Repeat,
) -> Result<(), AllocError>
    ensures { OnOk result (CountsAlso (repeat_additions (map recorded_seen recorded.now)
        (row_seen row.now) repeat.now) counts.old counts.new) }
{
    let cost = cost_of(recorded, &repeat.known, row);
    add_sums(counts, text_at(recorded, repeat.entry), row, cost)
}

// Returns the repeated request whose copy is at an index. `begin` is the index of the first copy.
fn repeat_in(repeats: &[Repeat], begin: usize, index: usize) -> Option<Repeat>
    ensures { result ≡ repeat_in repeats.now begin index }
{
    if index < begin {
        None
    } else {
        repeats.get(index - begin).copied()
    }
}

#[tactic(auto, using(crate::proofs::CountsLemmas::also_none))]
fn add_row(
    counts: &mut Counts,
    recorded: &[Recorded],
    repeats: &[Repeat],
    begin: usize,
    row: &Row<'_>,
) -> Result<(), AllocError>
    ensures { OnOk result (CountsAlso (row_additions (map recorded_seen recorded.now) repeats.now
        begin (row_seen row.now)) counts.old counts.new) }
{
    match repeat_in(repeats, begin, row.index) {
        Some(repeat) => add_repeat(counts, recorded, row, &repeat),
        None => Ok(()),
    }
}

fn counts_of(
    alloc: Global,
    recorded: &[Recorded],
    repeats: &[Repeat],
    begin: usize,
    rows: &[Row<'_>],
) -> Result<Counts, AllocError>
    ensures { IfOk result (HoldsCounts (flat_map (row_additions (map recorded_seen recorded.now)
        repeats.now begin) (map row_seen rows.now))) }
{
    let mut counts = Counts::new(alloc);
    for row in rows {
        add_row(&mut counts, recorded, repeats, begin, row)?;
    }
    Ok(counts)
}

// Returns the costs of the requests whose copies begin at an index.
fn visit_counts(
    alloc: Global,
    recorded: &[Recorded],
    repeats: &[Repeat],
    begin: usize,
    target: &Uri,
    options: CacheOptions,
) -> Result<Counts, AllocError>
    ensures { IfOk result (AreVisitCounts (map recorded_seen recorded.now) repeats.now begin
        (options_of options) target.now) }
{
    let rows = rows_of(alloc, recorded, target, options)?;
    counts_of(alloc, recorded, repeats, begin, rows.as_slice())
}

/// Returns the costs of a later visit that repeats these requests, moved by so many nanoseconds.
///
/// For each recorded url, `bytes/`, `confirmed/` and `unknown/` have the sums of its costs, and
/// `again/` has how often its full response is sent again. `visit/` has the sums of all. The
/// recording is the same afterwards, even after an error.
pub fn visit(
    alloc: Global,
    recorded: &mut Vec<Recorded>,
    repeats: &[Repeat],
    shift: i128,
    target: &Uri,
    options: CacheOptions,
) -> Result<Counts, AllocError>
    ensures counts { IfOk result (IsVisit (map recorded_seen recorded.old.items) repeats.now shift
        (options_of options) target.now) }
    ensures kept { recorded.new.items ≡ recorded.old.items }
{
    let begin = recorded.len();
    let mut copies = copies_of(alloc, recorded.as_slice(), repeats, shift)?;
    recorded.append(&mut copies)?;
    let counts = visit_counts(alloc, recorded.as_slice(), repeats, begin, target, options);
    recorded.truncate(begin);
    counts
}

//! The facts that a report has about a recording, and what the recording costs with what is
//! advised.
ghost use Rattle.std.specs.Prelude.{◌≡◌, map, IfOk, option_map, length};
ghost use Rattle.http_cache_semantics.specs.Options.{options_of};
ghost use Rattle.http_cache_recording.specs.Entry.{recorded_seen};
ghost use Rattle.http_cache_walk.specs.Row.{row_seen};
ghost use Rattle.http_cache_findings.specs.Plain.{changing_seen};
ghost use Rattle.http_cache_findings.specs.Remedy.{remedy_seen, remedied};
ghost use Rattle.http_cache_findings.specs.Visit.{span_seen};
ghost use Rattle.http_cache_findings.specs.Facts.{AreFacts, AreAlone, AreUrlCosts, known_repeat, repeats_after};
ghost use Rattle.http_cache_findings.specs.Facts.{AreCostsWith, ArePlainCosts, IsAfter, AreRepeats, AreFactsBy};

use crate::cost::{Known, known_of, text_at};
use crate::counts::Counts;
use crate::findings::Loads;
use crate::later::{Visits, visits_of};
use crate::loads::all_loads;
use crate::picks::{known_after, url_costs};
use crate::plain::{Changing, changing_in, plain_all, with_queries};
use crate::queries::{bases_of, changing_of};
use crate::remedy::{Remedy, is_still_in_full, remedied_all, restored_all};
use crate::urls::{Url, sums_of, urls_in};
use crate::visit::{Repeat, Span, repeats_of, span_of};
use http::Uri;
use http_cache_recording::Recorded;
use http_cache_semantics::CacheOptions;
use http_cache_walk::row::Row;
use http_cache_walk::walk::rows_of;
use std::alloc::{AllocError, Global};

/// The facts about a recording.
#[derive(Drop)]
pub struct Facts {
    /// Whether the cache serves many users.
    pub is_shared: bool,
    /// Its loads.
    pub loads: Loads,
    /// The facts about each row of its walk.
    pub known: Vec<Known>,
    /// The sums of its loads.
    pub sums: Counts,
    /// The costs of the requests for each url.
    pub costs: Counts,
    /// Its urls.
    pub urls: Vec<Url>,
    /// The urls whose query changes while their response doesn't.
    pub changing: Vec<Changing>,
    /// The requests that a later visit repeats.
    pub repeats: Vec<Repeat>,
    /// The beginning of the first load, and the end of the recording.
    pub span: Option<Span>,
}

/// The costs of a recording if urls follow their advice.
#[derive(Drop)]
pub struct After {
    /// The costs of each url's requests if urls only answer a 304 where that is advised.
    pub alone: Counts,
    /// The costs of each url's requests if urls follow their whole advice.
    pub costs: Counts,
    /// These costs without the queries that change, if there are any.
    pub plain: Counts,
    /// The costs of later visits then.
    pub visits: Visits,
}

// Returns the seconds that a recording took, rounded.
fn took(span: &Option<Span>) -> u128 {
    let Some(span) = span else {
        return 0;
    };
    let took = span.ended.as_nanosecond() - span.begun.as_nanosecond();
    (took.unsigned_abs() + 500_000_000) / 1_000_000_000
}

// Returns the requests that a later visit repeats, and the number of urls with each base.
fn repeats_by(
    alloc: Global,
    recorded: &[Recorded],
    rows: &[Row<'_>],
    known: &[Known],
    urls: &[Url],
) -> Result<(Vec<Repeat>, Counts), AllocError>
    ensures { IfOk result (AreRepeats (map recorded_seen recorded.now) (map row_seen rows.now)
        known.now urls.now) }
{
    let bases = bases_of(alloc, recorded, urls)?;
    let changing = changing_of(alloc, &bases, recorded, rows)?;
    let repeats = repeats_of(alloc, recorded, rows, known, changing.as_slice())?;
    Ok((repeats, bases))
}

fn facts_by(
    alloc: Global,
    recorded: &[Recorded],
    rows: &[Row<'_>],
    is_shared: bool,
) -> Result<Facts, AllocError>
    ensures { IfOk result (AreFactsBy (map recorded_seen recorded.now) (map row_seen rows.now)) }
{
    let known = known_of(alloc, recorded, rows)?;
    let sums = sums_of(alloc, rows, known.as_slice())?;
    let costs = url_costs(alloc, recorded, rows, known.as_slice())?;
    let urls = urls_in(alloc, recorded, rows, known.as_slice())?;
    let (repeats, bases) = repeats_by(alloc, recorded, rows, known.as_slice(), urls.as_slice())?;
    let changing = changing_in(alloc, &bases)?;
    let span = span_of(recorded, rows);
    let loads = all_loads(alloc, rows, took(&span))?;
    Ok(Facts {
        is_shared,
        loads,
        known,
        sums,
        costs,
        urls,
        changing,
        repeats,
        span,
    })
}

/// Returns the facts about a recording.
pub fn facts_of<'a>(
    alloc: Global,
    recorded: &'a [Recorded],
    target: &'a Uri,
    options: CacheOptions,
) -> Result<Facts, AllocError>
    ensures { IfOk result (AreFacts (map recorded_seen recorded.now) (options_of options)
        target.now) }
{
    let is_shared = options.shared;
    let rows = rows_of(alloc, recorded, target, options)?;
    facts_by(alloc, recorded, rows.as_slice(), is_shared)
}

// Returns the facts about each row if urls follow their advice, and the costs if they only answer a
// 304.
fn alone_of(
    alloc: Global,
    recorded: &[Recorded],
    target: &Uri,
    options: &CacheOptions,
    known: &[Known],
    remedies: &[Remedy],
) -> Result<(Vec<Known>, Counts), AllocError>
    ensures { IfOk result (λ made. AreAlone (map recorded_seen recorded.now) (options_of options.now)
        target.now (map remedy_seen remedies.now) known.now made.0.items made.1) }
{
    let rows = rows_of(alloc, recorded, target, *options)?;
    let after = known_after(alloc, rows.as_slice(), known, remedies)?;
    let costs = url_costs(alloc, recorded, rows.as_slice(), after.as_slice())?;
    Ok((after, costs))
}

fn costs_of(
    alloc: Global,
    recorded: &[Recorded],
    target: &Uri,
    options: &CacheOptions,
    known: &[Known],
) -> Result<Counts, AllocError>
    ensures { IfOk result (AreUrlCosts (map recorded_seen recorded.now) (options_of options.now)
        target.now known.now) }
{
    let rows = rows_of(alloc, recorded, target, *options)?;
    url_costs(alloc, recorded, rows.as_slice(), known)
}

fn known_repeat(recorded: &[Recorded], remedies: &[Remedy], repeat: &Repeat) -> Repeat
    ensures { result ≡ known_repeat (map recorded_seen recorded.now) (map remedy_seen remedies.now)
        repeat.now }
{
    let url = text_at(recorded, repeat.entry);
    let in_full = is_still_in_full(remedies, url, repeat.known.in_full);
    Repeat {
        known: Known {
            in_full,
            ..repeat.known
        },
        ..*repeat
    }
}

// Returns the repeated requests if urls follow their advice.
fn repeats_after(
    alloc: Global,
    recorded: &[Recorded],
    remedies: &[Remedy],
    repeats: &[Repeat],
) -> Result<Vec<Repeat>, AllocError>
    ensures { IfOk result (λ all. all.items ≡ repeats_after (map recorded_seen recorded.now)
        (map remedy_seen remedies.now) repeats.now) }
{
    let mut all = Vec::with_capacity(alloc, repeats.len())?;
    for repeat in repeats {
        all.push(known_repeat(recorded, remedies, repeat))?;
    }
    Ok(all)
}

// Returns the costs of a recording without the queries that change, if there are any, and the
// recording.
fn plain_costs(
    alloc: Global,
    recorded: Vec<Recorded>,
    target: &Uri,
    options: &CacheOptions,
    known: &[Known],
    changing: &[Changing],
) -> Result<(Counts, Vec<Recorded>), AllocError>
    ensures { IfOk result (λ made. ArePlainCosts (map recorded_seen recorded.items)
        (options_of options.now) target.now known.now (map changing_seen changing.now) made.0) }
{
    if changing.is_empty() {
        return Ok((Counts::new(alloc), recorded));
    }
    let (recorded, own) = plain_all(alloc, recorded, changing)?;
    let costs = costs_of(alloc, recorded.as_slice(), target, options, known)?;
    let recorded = with_queries(alloc, recorded, own)?;
    Ok((costs, recorded))
}

// Returns the costs of a recording with what is advised.
fn costs_with(
    alloc: Global,
    recorded: Vec<Recorded>,
    target: &Uri,
    options: &CacheOptions,
    known: &[Known],
    changing: &[Changing],
    repeats: &[Repeat],
    span: &Span,
) -> Result<((Counts, Counts, Visits), Vec<Recorded>), AllocError>
    ensures { IfOk result (λ made. AreCostsWith (map recorded_seen recorded.items)
        (options_of options.now) target.now known.now (map changing_seen changing.now) repeats.now
        (span_seen span.now) made.0) }
{
    let mut recorded = recorded;
    let costs = costs_of(alloc, recorded.as_slice(), target, options, known)?;
    let visits = visits_of(alloc, &mut recorded, repeats, *span, target, *options)?;
    let (plain, recorded) = plain_costs(alloc, recorded, target, options, known, changing)?;
    Ok(((costs, plain, visits), recorded))
}

/// Returns the costs of a recording if urls follow their advice, and the recording as it was.
pub fn after_of(
    alloc: Global,
    recorded: Vec<Recorded>,
    target: &Uri,
    options: &CacheOptions,
    remedies: &[Remedy],
    facts: &Facts,
    span: &Span,
) -> Result<(After, Vec<Recorded>), AllocError>
    ensures { IfOk result (λ made. IsAfter (map recorded_seen recorded.items)
        (options_of options.now) target.now (map remedy_seen remedies.now) facts.now.known.items
        (map changing_seen facts.now.changing.items) facts.now.repeats.items (span_seen span.now)
        made.0) }
{
    let known = facts.known.as_slice();
    let repeats = facts.repeats.as_slice();
    let (known, alone) = alone_of(alloc, recorded.as_slice(), target, options, known, remedies)?;
    let repeats = repeats_after(alloc, recorded.as_slice(), remedies, repeats)?;
    let (recorded, own) = remedied_all(alloc, recorded, remedies)?;
    let ((costs, plain, visits), recorded) = costs_with(
        alloc,
        recorded,
        target,
        options,
        known.as_slice(),
        facts.changing.as_slice(),
        repeats.as_slice(),
        span,
    )?;
    let recorded = restored_all(alloc, recorded, own)?;
    let after = After {
        alone,
        costs,
        plain,
        visits,
    };
    Ok((after, recorded))
}

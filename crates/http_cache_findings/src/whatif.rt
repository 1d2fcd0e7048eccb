//! Compares what recorded requests cost as they are, and with changed headers.
ghost use Rattle.std.specs.Prelude.{map, IfOk};
ghost use Rattle.http_cache_semantics.specs.Options.{options_of};
ghost use Rattle.http_cache_recording.specs.Entry.{recorded_seen};
ghost use Rattle.http_cache_findings.specs.Change.{change_seen};
ghost use Rattle.http_cache_findings.specs.WhatIf.{AreCosts, AreOtherCosts, AreCostsIf};

use crate::change::{Change, changed_all};
use crate::cost::{Known, all_costs, known_of};
use crate::counts::Counts;
use http::Uri;
use http_cache_recording::Recorded;
use http_cache_semantics::CacheOptions;
use http_cache_walk::settings::no_target;
use http_cache_walk::walk::rows_of;
use std::alloc::{AllocError, Global};

fn costs_now(
    alloc: Global,
    recorded: &[Recorded],
    target: &Uri,
    options: CacheOptions,
) -> Result<(Vec<Known>, Counts), AllocError>
    ensures { IfOk result (λ made. AreCosts (map recorded_seen recorded.now) (options_of options)
        target.now made.0.items made.1) }
{
    let rows = rows_of(alloc, recorded, target, options)?;
    let known = known_of(alloc, recorded, rows.as_slice())?;
    let costs = all_costs(alloc, recorded, known.as_slice(), rows.as_slice())?;
    Ok((known, costs))
}

fn costs_then(
    alloc: Global,
    recorded: &[Recorded],
    known: &[Known],
    target: &Uri,
    options: CacheOptions,
) -> Result<Counts, AllocError>
    ensures { IfOk result (λ costs. AreOtherCosts (map recorded_seen recorded.now) known.now
        (options_of options) target.now costs) }
{
    let rows = rows_of(alloc, recorded, target, options)?;
    all_costs(alloc, recorded, known, rows.as_slice())
}

/// Returns the costs of a recording as it is, and with the changes: `first_load/` and `later_loads/`
/// have the sums of each.
pub fn costs_if(
    alloc: Global,
    recorded: Vec<Recorded>,
    changes: &[Change],
    options: &CacheOptions,
) -> Result<(Counts, Counts), AllocError>
    ensures { IfOk result (λ made. AreCostsIf (map recorded_seen recorded.items)
        (map change_seen changes.now) (options_of options.now) made.0 made.1) }
{
    let target = no_target(alloc)?;
    let (known, now) = costs_now(alloc, recorded.as_slice(), &target, *options)?;
    let recorded = changed_all(alloc, recorded, changes)?;
    let then = costs_then(
        alloc,
        recorded.as_slice(),
        known.as_slice(),
        &target,
        *options,
    )?;
    Ok((now, then))
}

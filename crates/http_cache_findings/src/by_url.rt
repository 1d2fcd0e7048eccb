//! The urls that a store could have answered for, with the sums of their requests.
ghost use Rattle.std.specs.Prelude.{◌≡◌, ◌++◌, map, IfOk, OnOk};
ghost use Rattle.std.specs.List.{flat_map};
ghost use Rattle.http_cache_walk.specs.Row.{row_seen};
ghost use Rattle.http_cache_findings.specs.Counts.{CountsAlso, HoldsCounts, total_in};
ghost use Rattle.http_cache_findings.specs.ByUrl.{is_hit, url_sums, is_asked_row, url_additions, first_by, firsts};

use crate::cost::is_asked_reading;
use crate::counts::Counts;
use http_cache_walk::order::target_of;
use http_cache_walk::row::{Outcome, Row};
use std::alloc::{AllocError, Global};

/// Returns whether a store could have answered the request of a row.
pub fn is_asked_row(row: &Row<'_>) -> bool
    ensures { result ≡ is_asked_row (row_seen row.now) }
{
    is_asked_reading(&row.recorded.reading)
}

/// Returns whether a stored response answers the request of a row.
pub fn is_hit(row: &Row<'_>) -> bool
    ensures { result ≡ is_hit (row_seen row.now) }
{
    match &row.verdict {
        Some(verdict) => matches!(verdict.outcome, Outcome::Fresh),
        None => false,
    }
}

fn add_sums(counts: &mut Counts, url: &str, row: &Row<'_>) -> Result<(), AllocError>
    ensures { OnOk result (CountsAlso (url_sums url.now (row_seen row.now)) counts.old counts.new) }
{
    counts.add("requests", url, 1)?;
    counts.add("sent", url, row.recorded.printed.sent)?;
    counts.add_if(row.repeated, "repeated", url, 1)?;
    counts.add_if(is_hit(row), "fresh", url, 1)?;
    Ok(())
}

#[tactic(auto, using(crate::proofs::CountsLemmas::also_none))]
fn add_row(counts: &mut Counts, row: &Row<'_>) -> Result<(), AllocError>
    ensures { OnOk result (CountsAlso (url_additions (row_seen row.now)) counts.old counts.new) }
{
    if is_asked_row(row) {
        add_sums(counts, target_of(row.recorded), row)
    } else {
        Ok(())
    }
}

fn push_first(
    all: &mut Vec<usize>,
    counts: &Counts,
    index: usize,
    row: &Row<'_>,
) -> Result<(), AllocError>
    ensures { OnOk result (all.new.items
        ≡ all.old.items ++ first_by (total_in counts.now) (index, row_seen row.now)) }
{
    let count = counts.total_of("requests", target_of(row.recorded))?;
    if is_asked_row(row) && count == 0 {
        all.push(index)?;
    }
    Ok(())
}

/// Returns the sums for each url, and the index of the first row of each.
pub fn urls_of(alloc: Global, rows: &[Row<'_>]) -> Result<(Counts, Vec<usize>), AllocError>
    ensures sums { IfOk result (λ urls.
        HoldsCounts (flat_map url_additions (map row_seen rows.now)) urls.0) }
    ensures firsts { IfOk result (λ urls. urls.1.items ≡ firsts (map row_seen rows.now)) }
{
    let mut counts = Counts::new(alloc);
    let mut firsts = Vec::new(alloc);
    for index in 0..rows.len() {
        push_first(&mut firsts, &counts, index, &rows[index])?;
        add_row(&mut counts, &rows[index])?;
    }
    Ok((counts, firsts))
}

//! Queries that change while the response doesn't: finds them, and removes them from a recording.
ghost use Rattle.std.specs.Prelude.{◌≡◌, ◌++◌, map, IfOk, OnOk, option_map, string_bytes};
ghost use Rattle.http_cache_recording.specs.Entry.{recorded_seen, text_seen};
ghost use Rattle.std.specs.List.{flat_map};
ghost use Rattle.http_cache_findings.specs.Counts.{CountsAlso, HoldsCounts, total_in};
ghost use Rattle.http_cache_findings.specs.Plain.{changing_seen, front_of, changing_if, changing_at, changing_in};
ghost use Rattle.http_cache_findings.specs.Plain.{base_addition, is_counted, plain_by, plain_recorded_by, plain_recorded};

use crate::counts::Counts;
use crate::queries::base_of;
use http_cache_recording::{Printed, Recorded};
use std::alloc::{AllocError, Global};

/// Urls that differ only in their query, and have one response.
#[derive(Drop)]
pub struct Changing {
    /// The part before the query, which they share.
    pub base: String,
    /// The number of these urls.
    pub urls: u64,
}

// Returns the base before a mark.
fn front_of(marked: &str) -> &str
    ensures { result.now ≡ front_of marked.now }
{
    match marked.split_once('\n') {
        Some((base, _)) => base,
        None => marked,
    }
}

// Adds a base if several urls have it with one mark, and none with another one.
fn push_marked(
    alloc: Global,
    all: &mut Vec<Changing>,
    bases: &Counts,
    marked: &str,
    count: u64,
) -> Result<(), AllocError>
    ensures { OnOk result (map changing_seen all.new.items ≡ map changing_seen all.old.items
        ++ changing_if (total_in bases.now) (front_of marked.now) count) }
{
    let base = front_of(marked);
    if count > 1 && bases.total_of("base", base)? == count {
        all.push(Changing {
            base: String::from_str(alloc, base)?,
            urls: count,
        })?;
    }
    Ok(())
}

fn push_changing(
    alloc: Global,
    all: &mut Vec<Changing>,
    bases: &Counts,
    label: &str,
    count: u64,
) -> Result<(), AllocError>
    ensures { OnOk result (map changing_seen all.new.items ≡ map changing_seen all.old.items
        ++ changing_at (total_in bases.now) (label.now, count)) }
{
    match label.strip_prefix("marked/") {
        Some(marked) => push_marked(alloc, all, bases, marked, count),
        None => Ok(()),
    }
}

/// Returns the urls whose query changes while their response doesn't, by their bases.
pub fn changing_in(alloc: Global, bases: &Counts) -> Result<Vec<Changing>, AllocError>
    ensures { IfOk result (λ all. map changing_seen all.items ≡ changing_in bases.now) }
{
    let mut all = Vec::new(alloc);
    for (label, count) in bases.by_label.iter() {
        push_changing(alloc, &mut all, bases, label.as_str(), *count)?;
    }
    Ok(all)
}

fn add_base(bases: &mut Counts, one: &Changing) -> Result<(), AllocError>
    ensures { OnOk result (CountsAlso (base_addition (changing_seen one.now)) bases.old bases.new) }
{
    bases.add("changing", one.base.as_str(), 1)
}

// Counts the bases, to look them up.
fn counted(alloc: Global, changing: &[Changing]) -> Result<Counts, AllocError>
    ensures { IfOk result (HoldsCounts (flat_map base_addition (map changing_seen changing.now))) }
{
    let mut bases = Counts::new(alloc);
    for one in changing {
        add_base(&mut bases, one)?;
    }
    Ok(bases)
}

fn is_counted(bases: &Counts, base: &str) -> Result<bool, AllocError>
    ensures { IfOk result (λ holds. holds ≡ is_counted (total_in bases.now) base.now) }
{
    Ok(bases.total_of("changing", base)? > 0)
}

// Returns a url without its query if that changes, and then also as it was.
fn plain(alloc: Global, bases: &Counts, url: String) -> Result<(String, Option<String>), AllocError>
    ensures { IfOk result (λ made. string_bytes made.0
        ≡ plain_by (is_counted (total_in bases.now)) (string_bytes url)) }
{
    let base = base_of(url.as_str());
    if is_counted(bases, base)? {
        Ok((String::from_str(alloc, base)?, Some(url)))
    } else {
        Ok((url, None))
    }
}

fn plain_url(
    alloc: Global,
    bases: &Counts,
    url: Option<String>,
) -> Result<(Option<String>, Option<String>), AllocError>
    ensures { IfOk result (λ made. text_seen made.0
        ≡ option_map (plain_by (is_counted (total_in bases.now))) (text_seen url)) }
{
    match url {
        Some(url) => {
            let (url, own) = plain(alloc, bases, url)?;
            Ok((Some(url), own))
        }
        None => Ok((None, None)),
    }
}

fn plain_recorded(
    alloc: Global,
    recorded: Recorded,
    bases: &Counts,
) -> Result<(Recorded, Option<String>), AllocError>
    ensures { IfOk result (λ made. recorded_seen made.0
        ≡ plain_recorded_by (is_counted (total_in bases.now)) (recorded_seen recorded)) }
{
    let printed = recorded.printed;
    let (url, own) = plain_url(alloc, bases, printed.url)?;
    let recorded = Recorded {
        printed: Printed { url, ..printed },
        reading: recorded.reading,
    };
    Ok((recorded, own))
}

fn plain_by(
    alloc: Global,
    recorded: Vec<Recorded>,
    bases: &Counts,
) -> Result<(Vec<Recorded>, Vec<Option<String>>), AllocError>
    ensures { IfOk result (λ made. map recorded_seen made.0.items
        ≡ map (plain_recorded_by (is_counted (total_in bases.now))) (map recorded_seen recorded.items)) }
{
    let mut all = Vec::with_capacity(alloc, recorded.len())?;
    let mut own = Vec::with_capacity(alloc, recorded.len())?;
    for one in recorded {
        let (one, url) = plain_recorded(alloc, one, bases)?;
        all.push(one)?;
        own.push(url)?;
    }
    Ok((all, own))
}

/// Returns a recording without the queries that change, and for each entry the url that it had, if
/// that was replaced.
pub fn plain_all(
    alloc: Global,
    recorded: Vec<Recorded>,
    changing: &[Changing],
) -> Result<(Vec<Recorded>, Vec<Option<String>>), AllocError>
    ensures { IfOk result (λ made. map recorded_seen made.0.items
        ≡ map (plain_recorded (map changing_seen changing.now)) (map recorded_seen recorded.items)) }
{
    let bases = counted(alloc, changing)?;
    let made = plain_by(alloc, recorded, &bases)?;
    Ok(made)
}

fn with_query(recorded: Recorded, own: Option<String>) -> Recorded {
    match own {
        Some(own) => {
            let printed = recorded.printed;
            Recorded {
                printed: Printed {
                    url: Some(own),
                    ..printed
                },
                reading: recorded.reading,
            }
        }
        None => recorded,
    }
}

/// Returns a recording in which entries have the urls again that they had.
pub fn with_queries(
    alloc: Global,
    recorded: Vec<Recorded>,
    own: Vec<Option<String>>,
) -> Result<Vec<Recorded>, AllocError> {
    let mut all = Vec::with_capacity(alloc, recorded.len())?;
    for (one, own) in recorded.into_iter().zip(own) {
        all.push(with_query(one, own))?;
    }
    Ok(all)
}

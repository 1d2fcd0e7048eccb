//! Sorts the entries of a recording for the walk.
ghost use Rattle.std.specs.Prelude.{◌≡◌, ◌++◌, ℤ, map, option_map, IfOk, OnOk};
ghost use Rattle.std.specs.Option.{option_to_list};
ghost use Rattle.http_cache_recording.specs.Entry.{recorded_seen};
ghost use Rattle.http_cache_walk.specs.Order.{moment_at, shown_url, IsOrder, sent_seen, target_of, sent_at};
ghost use Rattle.http_cache_walk.specs.Order.{IsWalk};

use http_cache_recording::{Entry, Reading, Recorded};
use std::alloc::{AllocError, Global};

/// An entry, and its index in the recording.
#[derive(Clone, Copy)]
pub(crate) struct Sent<'a> {
    /// The index in the recording.
    pub index: usize,
    /// The recorded row.
    pub recorded: &'a Recorded,
    /// The entry.
    pub entry: &'a Entry,
}

/// Returns the target of a recorded row, by which it is compared with others.
pub fn target_of(recorded: &Recorded) -> &str
    ensures { result.now ≡ target_of (recorded_seen recorded.now) }
{
    match &recorded.printed.url {
        Some(url) => url.as_str(),
        None => "",
    }
}

/// Returns the url, without its query if that isn't printed.
pub fn shown_url(url: &str, hides_query: bool) -> &str
    ensures { result.now ≡ shown_url hides_query url.now }
{
    match url.split_once('?') {
        Some((front, _)) if hides_query => front,
        _ => url,
    }
}

impl<'a> Sent<'a> {
    /// Returns the target of the entry.
    pub(crate) fn target(&self) -> &'a str
        ensures { result.now ≡ target_of (sent_seen self.now).recorded }
    {
        target_of(self.recorded)
    }
}

fn moment_at(index: usize, recorded: &Recorded) -> Option<(i128, usize)>
    ensures { result ≡ moment_at (index, recorded_seen recorded.now) }
{
    match &recorded.reading {
        Reading::Entry(entry) => Some((entry.started.as_nanosecond(), index)),
        Reading::Skipped(_) => None,
    }
}

fn push_some(all: &mut Vec<(i128, usize)>, moment: Option<(i128, usize)>) -> Result<(), AllocError>
    ensures { OnOk result (all.new.items ≡ all.old.items ++ option_to_list moment) }
{
    match moment {
        Some(moment) => Ok(all.push(moment)?),
        None => Ok(()),
    }
}

// No two times and indices are equal, so the sort needn't be stable.
fn order(alloc: Global, recorded: &[Recorded]) -> Result<Vec<(i128, usize)>, AllocError>
    ensures { IfOk result (λ all. IsOrder (map recorded_seen recorded.now) all.items) }
{
    let mut all = Vec::new(alloc);
    for index in 0..recorded.len() {
        push_some(&mut all, moment_at(index, &recorded[index]))?;
    }
    all.sort_unstable();
    Ok(all)
}

fn sent_at(recorded: &[Recorded], index: usize) -> Option<Sent<'_>>
    ensures { (at : ℤ) → option_map sent_seen result
        ≡ sent_at (map recorded_seen recorded.now) (at, index) }
{
    let one = recorded.get(index)?;
    match &one.reading {
        Reading::Entry(entry) => Some(Sent {
            index,
            recorded: one,
            entry,
        }),
        Reading::Skipped(_) => None,
    }
}

/// Returns the entries in the order of the walk: by the time of the request, and by index for equal
/// times.
pub(crate) fn walk_of(alloc: Global, recorded: &[Recorded]) -> Result<Vec<Sent<'_>>, AllocError>
    ensures { IfOk result (λ sent.
        IsWalk (map recorded_seen recorded.now) (map sent_seen sent.items)) }
{
    let order = order(alloc, recorded)?;
    let mut all = Vec::with_capacity(alloc, order.len())?;
    for index in 0..order.len() {
        if let Some(sent) = sent_at(recorded, order[index].1) {
            all.push(sent)?;
        }
    }
    Ok(all)
}

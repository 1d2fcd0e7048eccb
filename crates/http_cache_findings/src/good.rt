//! The urls of the first load that need no change.
use crate::by_size::order_of;
use crate::cost::text_at;
use crate::counts::Counts;
use crate::faults::faults_of;
use crate::findings::GoodUrl;
use crate::later::{any_asks, is_changed, is_given, is_only_confirmed};
use crate::outlook::Outlook;
use crate::queries::url_at;
use crate::urls::{Life, Url};
use http_cache_recording::Recorded;
use std::alloc::{AllocError, Global};

// Returns whether a url of the first load isn't to be changed first and has no faults.
fn needs_nothing(
    alloc: Global,
    recorded: &[Recorded],
    outlook: &Outlook,
    url: &Url,
) -> Result<bool, AllocError> {
    Ok(
        url.known.is_first
            && !is_changed(outlook.changes.as_slice(), url)
            && faults_of(alloc, recorded, url)?.is_empty(),
    )
}

// Returns whether a url states a lifetime, no visit requests it, and it needs nothing.
fn is_kept(
    alloc: Global,
    recorded: &[Recorded],
    outlook: &Outlook,
    url: &Url,
) -> Result<bool, AllocError> {
    Ok(
        is_given(url.life)
            && !any_asks(&outlook.visits, text_at(recorded, url.entry))?
            && needs_nothing(alloc, recorded, outlook, url)?,
    )
}

// Returns whether a url says `no-cache`, a 304 confirms it a day later, and it needs nothing.
fn is_checked(
    alloc: Global,
    recorded: &[Recorded],
    outlook: &Outlook,
    url: &Url,
) -> Result<bool, AllocError> {
    Ok(
        matches!(url.life, Life::NoCache)
            && is_only_confirmed(&outlook.visits.day, text_at(recorded, url.entry))?
            && needs_nothing(alloc, recorded, outlook, url)?,
    )
}

// Returns the mean bytes of a url's requests in a later load, rounded down.
fn each_bytes(sums: &Counts, url: &str) -> Result<u64, AllocError> {
    let requests = sums.total_of("later_requests", url)?;
    if requests == 0 {
        return Ok(0);
    }
    Ok(sums.total_of("later_bytes", url)? / requests)
}

// Returns the listed urls, most bytes first.
fn good_of(
    alloc: Global,
    recorded: &[Recorded],
    hides_queries: bool,
    sums: &Counts,
    urls: &[Url],
    listed: &[bool],
) -> Result<Vec<GoodUrl>, AllocError> {
    let order = order_of(alloc, recorded, urls, listed)?;
    let mut all = Vec::with_capacity(alloc, order.len())?;
    for key in order.as_slice() {
        if let Some(url) = urls.get(key.1) {
            all.push(GoodUrl {
                url: url_at(alloc, recorded, url.entry, hides_queries)?,
                bytes: each_bytes(sums, text_at(recorded, url.entry))?,
            })?;
        }
    }
    Ok(all)
}

/// Returns the urls of the first load that state a lifetime, and that no later visit requests.
pub fn kept_of(
    alloc: Global,
    recorded: &[Recorded],
    hides_queries: bool,
    sums: &Counts,
    outlook: &Outlook,
    urls: &[Url],
) -> Result<Vec<GoodUrl>, AllocError> {
    let mut listed = Vec::with_capacity(alloc, urls.len())?;
    for url in urls {
        listed.push(is_kept(alloc, recorded, outlook, url)?)?;
    }
    good_of(
        alloc,
        recorded,
        hides_queries,
        sums,
        urls,
        listed.as_slice(),
    )
}

/// Returns the urls of the first load that say `no-cache`, and that a 304 confirms a day later.
pub fn checked_of(
    alloc: Global,
    recorded: &[Recorded],
    hides_queries: bool,
    sums: &Counts,
    outlook: &Outlook,
    urls: &[Url],
) -> Result<Vec<GoodUrl>, AllocError> {
    let mut listed = Vec::with_capacity(alloc, urls.len())?;
    for url in urls {
        listed.push(is_checked(alloc, recorded, outlook, url)?)?;
    }
    good_of(
        alloc,
        recorded,
        hides_queries,
        sums,
        urls,
        listed.as_slice(),
    )
}

//! Finds what looks wrong in the response of a url: in its headers, in its lifetime, and in how its
//! server answers a condition.
use crate::advice::{is_page, is_part};
use crate::by_size::order_of;
use crate::cost::response_at;
use crate::findings::{Fault, FaultyUrl};
use crate::lint::{Flaw, flaws_of};
use crate::queries::url_at;
use crate::says::said_at;
use crate::urls::{Life, Url};
use http_cache_fields::reading::says;
use http_cache_recording::{Reading, Recorded};
use std::alloc::{AllocError, Global};

fn flaws_at(alloc: Global, recorded: &[Recorded], index: usize) -> Result<Vec<Flaw>, AllocError> {
    match recorded.get(index) {
        Some(one) => match &one.reading {
            Reading::Entry(entry) => flaws_of(alloc, entry),
            Reading::Skipped(_) => Ok(Vec::new(alloc)),
        },
        None => Ok(Vec::new(alloc)),
    }
}

fn is_unstored_part(recorded: &[Recorded], url: &Url) -> bool {
    match response_at(recorded, url.full) {
        Some(response) => is_part(&response.headers) && says(&response.headers, "no-store"),
        None => false,
    }
}

fn is_guessed_page(recorded: &[Recorded], url: &Url) -> bool {
    match response_at(recorded, url.full) {
        Some(response) => is_page(&response.headers) && matches!(url.life, Life::Guessed(1..)),
        None => false,
    }
}

/// Returns the faults of a url.
pub fn faults_of(
    alloc: Global,
    recorded: &[Recorded],
    url: &Url,
) -> Result<Vec<Fault>, AllocError> {
    let mut all = Vec::new(alloc);
    for flaw in flaws_at(alloc, recorded, url.full)?.as_slice() {
        all.push(Fault::Flaw(*flaw))?;
    }
    if is_unstored_part(recorded, url) {
        all.push(Fault::UnstoredPart)?;
    }
    if is_guessed_page(recorded, url) {
        all.push(Fault::GuessedPage)?;
    }
    if url.known.in_full {
        all.push(Fault::InFull)?;
    }
    Ok(all)
}

fn faulty_url(
    alloc: Global,
    recorded: &[Recorded],
    hides_queries: bool,
    url: &Url,
) -> Result<FaultyUrl, AllocError> {
    Ok(FaultyUrl {
        url: url_at(alloc, recorded, url.entry, hides_queries)?,
        says: said_at(alloc, recorded, url.full)?,
        faults: faults_of(alloc, recorded, url)?,
    })
}

/// Returns the urls that have faults, most bytes first.
pub fn faulty_of(
    alloc: Global,
    recorded: &[Recorded],
    hides_queries: bool,
    urls: &[Url],
) -> Result<Vec<FaultyUrl>, AllocError> {
    let mut listed = Vec::with_capacity(alloc, urls.len())?;
    for url in urls {
        listed.push(!faults_of(alloc, recorded, url)?.is_empty())?;
    }
    let order = order_of(alloc, recorded, urls, listed.as_slice())?;
    let mut all = Vec::with_capacity(alloc, order.len())?;
    for key in order.as_slice() {
        if let Some(url) = urls.get(key.1) {
            all.push(faulty_url(alloc, recorded, hides_queries, url)?)?;
        }
    }
    Ok(all)
}

//! The urls of the first load that state no lifetime, so that each cache guesses one.

use crate::cost::text_at;
use crate::counts::Counts;
use crate::findings::Guesses;
use crate::later::{Visits, is_only_confirmed, size_at, status_at};
use crate::urls::{Life, Url};
use http_cache_recording::Recorded;
use std::alloc::{AllocError, Global};

/// Returns the guessed lifetime of a url of the first load that is no failure.
pub fn guess_of(recorded: &[Recorded], url: &Url) -> Option<u64> {
    match url.life {
        Life::Guessed(seconds) if url.known.is_first && status_at(recorded, url.full) < 400 => {
            Some(seconds)
        }
        _ => None,
    }
}

// Returns how many urls whose lifetime is guessed a 304 confirms at a visit.
fn confirmed_of(recorded: &[Recorded], visit: &Counts, urls: &[Url]) -> Result<u64, AllocError> {
    let mut count = 0u64;
    for url in urls {
        let is_confirmed = is_only_confirmed(visit, text_at(recorded, url.entry))?;
        if guess_of(recorded, url).is_some() && is_confirmed {
            count = count.saturating_add(1);
        }
    }
    Ok(count)
}

fn all_confirmed(
    alloc: Global,
    recorded: &[Recorded],
    visits: &Visits,
    urls: &[Url],
) -> Result<Vec<u64>, AllocError> {
    let mut all = Vec::with_capacity(alloc, 4)?;
    all.push(confirmed_of(recorded, &visits.hour, urls)?)?;
    all.push(confirmed_of(recorded, &visits.day, urls)?)?;
    all.push(confirmed_of(recorded, &visits.week, urls)?)?;
    all.push(confirmed_of(recorded, &visits.month, urls)?)?;
    Ok(all)
}

/// Returns no guesses.
pub fn no_guesses(alloc: Global) -> Guesses {
    Guesses {
        urls: 0,
        bytes: 0,
        least: u64::MAX,
        most: 0,
        confirmed: Vec::new(alloc),
    }
}

/// Returns the sums of the urls whose lifetime is guessed.
pub fn guesses_of(
    alloc: Global,
    recorded: &[Recorded],
    visits: &Visits,
    urls: &[Url],
) -> Result<Guesses, AllocError> {
    let mut all = no_guesses(alloc);
    for url in urls {
        if let Some(seconds) = guess_of(recorded, url) {
            all.urls = all.urls.saturating_add(1);
            all.bytes = all.bytes.saturating_add(size_at(recorded, url.full));
            all.least = all.least.min(seconds);
            all.most = all.most.max(seconds);
        }
    }
    all.confirmed = all_confirmed(alloc, recorded, visits, urls)?;
    Ok(all)
}

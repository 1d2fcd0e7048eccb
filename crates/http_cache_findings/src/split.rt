//! The urls that a browser's cache and a CDN's treat differently.

use crate::by_size::order_of;
use crate::cost::response_of;
use crate::findings::{Held, Refused, SplitUrl, Storing};
use crate::queries::url_at;
use crate::urls::Url;
use http::Uri;
use http_cache_recording::{Printed, Recorded};
use http_cache_rules::lifetime::received_age;
use http_cache_semantics::CacheOptions;
use http_cache_semantics::explain::Obstacles;
use http_cache_walk::row::{Kept, Received, Row};
use http_cache_walk::walk::rows_of;
use std::alloc::{AllocError, Global};

// Returns the age with which a response was received.
fn age_of(recorded: &Recorded) -> u64 {
    match response_of(recorded) {
        Some(response) => received_age(&response.headers),
        None => 0,
    }
}

fn held_by(recorded: &Recorded, kept: &Kept) -> Result<Held, AllocError> {
    Ok(Held {
        seconds: kept.lifetime.seconds,
        by: kept.lifetime.by,
        source: kept.lifetime.source.clone()?,
        age: age_of(recorded),
        left: kept.time_to_live,
    })
}

fn refused_by(
    alloc: Global,
    printed: &Printed,
    obstacles: &Obstacles,
) -> Result<Refused, AllocError> {
    Ok(Refused {
        method: String::from_str(alloc, printed.method.as_deref().unwrap_or(""))?,
        status: printed.status,
        obstacles: *obstacles,
    })
}

/// Returns what a cache does with the response of a row.
pub fn storing_of(alloc: Global, row: &Row<'_>) -> Result<Storing, AllocError> {
    let Some(verdict) = &row.verdict else {
        return Ok(Storing::Nothing);
    };
    Ok(match &verdict.received {
        Received::Stored(kept) | Received::Updated(kept) | Received::UpdatedOther(kept) => {
            Storing::Held(held_by(row.recorded, kept)?)
        }
        Received::NotStorable(obstacles) => {
            Storing::Refused(refused_by(alloc, &row.recorded.printed, obstacles)?)
        }
        _ => Storing::Nothing,
    })
}

/// Returns what a cache does with the response of the row at an index.
pub fn storing_at(alloc: Global, rows: &[Row<'_>], index: usize) -> Result<Storing, AllocError> {
    match rows.get(index) {
        Some(row) => storing_of(alloc, row),
        None => Ok(Storing::Nothing),
    }
}

// Returns why a response isn't stored. A status that caches don't store needs no permission.
fn decisive(refused: &Refused) -> Obstacles {
    Obstacles {
        no_permission: refused.obstacles.no_permission && !refused.obstacles.status,
        ..refused.obstacles
    }
}

// Returns whether both caches do something, and not the same.
fn do_differ(x: &Storing, y: &Storing) -> bool {
    match (x, y) {
        (Storing::Nothing, _) | (_, Storing::Nothing) => false,
        (Storing::Held(x), Storing::Held(y)) => x.seconds != y.seconds || x.by != y.by,
        (Storing::Refused(x), Storing::Refused(y)) => decisive(x) != decisive(y),
        _ => true,
    }
}

// Returns for each url whether the caches differ.
fn differing(
    alloc: Global,
    browser: &[Row<'_>],
    cdn: &[Row<'_>],
    urls: &[Url],
) -> Result<Vec<bool>, AllocError> {
    let mut all = Vec::with_capacity(alloc, urls.len())?;
    for url in urls {
        let (x, y) = (
            storing_at(alloc, browser, url.row)?,
            storing_at(alloc, cdn, url.row)?,
        );
        all.push(do_differ(&x, &y))?;
    }
    Ok(all)
}

/// Returns the options of a private or a shared cache.
pub fn cache_of(options: &CacheOptions, is_shared: bool) -> CacheOptions {
    let mut cache = *options;
    cache.shared = is_shared;
    cache
}

fn split_by(
    alloc: Global,
    recorded: &[Recorded],
    hides_queries: bool,
    browser: &[Row<'_>],
    cdn: &[Row<'_>],
    urls: &[Url],
) -> Result<Vec<SplitUrl>, AllocError> {
    let listed = differing(alloc, browser, cdn, urls)?;
    let order = order_of(alloc, recorded, urls, listed.as_slice())?;
    let mut all = Vec::with_capacity(alloc, order.len())?;
    for key in order.as_slice() {
        if let Some(url) = urls.get(key.1) {
            all.push(SplitUrl {
                url: url_at(alloc, recorded, url.entry, hides_queries)?,
                browser: storing_at(alloc, browser, url.row)?,
                cdn: storing_at(alloc, cdn, url.row)?,
            })?;
        }
    }
    Ok(all)
}

/// Returns the urls that a browser's cache and a CDN's treat differently, most bytes first.
pub fn split_of<'a>(
    alloc: Global,
    recorded: &'a [Recorded],
    target: &'a Uri,
    hides_queries: bool,
    options: &CacheOptions,
    urls: &[Url],
) -> Result<Vec<SplitUrl>, AllocError> {
    let browser = rows_of(alloc, recorded, target, cache_of(options, false))?;
    let cdn = rows_of(alloc, recorded, target, cache_of(options, true))?;
    let (browser, cdn) = (browser.as_slice(), cdn.as_slice());
    split_by(alloc, recorded, hides_queries, browser, cdn, urls)
}

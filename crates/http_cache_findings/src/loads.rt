//! The loads of a recording.
use crate::counts::Counts;
use crate::findings::Loads;
use http_cache_walk::order::{shown_url, target_of};
use http_cache_walk::row::Row;
use std::alloc::{AllocError, Global};

// Returns the index of the first row of each page.
fn loads_of(alloc: Global, rows: &[Row<'_>]) -> Result<Vec<usize>, AllocError> {
    let mut pages = Counts::new(alloc);
    let mut loads = Vec::new(alloc);
    for (index, row) in rows.iter().enumerate() {
        if let Some(page) = &row.recorded.printed.page {
            if pages.total_of("page", page.as_str())? == 0 {
                loads.push(index)?;
            }
            pages.add("page", page.as_str(), 1)?;
        }
    }
    Ok(loads)
}

fn url_at<'a>(rows: &'a [Row<'_>], index: usize) -> &'a str {
    match rows.get(index) {
        Some(row) => target_of(row.recorded),
        None => "",
    }
}

fn load_counts(alloc: Global, rows: &[Row<'_>], loads: &[usize]) -> Result<Counts, AllocError> {
    let mut counts = Counts::new(alloc);
    for index in loads {
        counts.add("load", url_at(rows, *index), 1)?;
    }
    Ok(counts)
}

// Returns the url of the loads that aren't of a page, without its query, if they have one.
fn other_url(
    alloc: Global,
    rows: &[Row<'_>],
    loads: &[usize],
    counts: &Counts,
    page: &str,
    others: u64,
) -> Result<Option<String>, AllocError> {
    let Some(index) = loads.iter().find(|index| url_at(rows, **index) != page) else {
        return Ok(None);
    };
    let url = url_at(rows, *index);
    if counts.total_of("load", url)? != others {
        return Ok(None);
    }
    Ok(Some(String::from_str(alloc, shown_url(url, true))?))
}

/// Returns the loads of a recording, which took so many seconds. Their urls have no queries. The url
/// of the first load is its page's, else that of the first request.
pub fn all_loads(alloc: Global, rows: &[Row<'_>], seconds: u128) -> Result<Loads, AllocError> {
    let loads = loads_of(alloc, rows)?;
    let loads = loads.as_slice();
    let counts = load_counts(alloc, rows, loads)?;
    let page = url_at(rows, loads.first().copied().unwrap_or(0));
    let of_page = counts.total_of("load", page)?;
    let of_others = (loads.len() as u64).saturating_sub(of_page);
    Ok(Loads {
        page: String::from_str(alloc, shown_url(page, true))?,
        of_page: of_page.max(1),
        of_others,
        other: other_url(alloc, rows, loads, &counts, page, of_others)?,
        seconds,
    })
}

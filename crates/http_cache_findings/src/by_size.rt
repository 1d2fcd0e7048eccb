//! Orders urls by the bytes of their full responses.
use crate::later::size_at;
use crate::urls::Url;
use http_cache_recording::Recorded;
use std::alloc::{AllocError, Global};

/// Returns the listed urls, most bytes first. The second number of each pair is the url's index.
pub fn order_of(
    alloc: Global,
    recorded: &[Recorded],
    urls: &[Url],
    listed: &[bool],
) -> Result<Vec<(u64, usize)>, AllocError> {
    let mut order = Vec::new(alloc);
    for (index, (url, is_listed)) in urls.iter().zip(listed.iter()).enumerate() {
        if *is_listed {
            order.push((u64::MAX - size_at(recorded, url.full), index))?;
        }
    }
    order.sort_unstable();
    Ok(order)
}

//! Requests for stored pages, in no order.
use crate::hits::pages::{request_for, start};
use bytes::Bytes;
use http::Request;
use http_cache_client::{Client, Decision};
use http_cache_memory_store::Store;
use std::alloc::Global;

// A prime near the golden ratio of 2^32, so that successive requests are for pages far apart.
const STEP: u64 = 2_654_435_761;

/// Returns requests for pages with numbers below `count`.
pub fn requests(alloc: Global, count: u64, hits: u64) -> anyhow::Result<Vec<Request<Bytes>>> {
    let mut requests = Vec::new(alloc);
    for number in 0..hits {
        let page = number.wrapping_mul(STEP).checked_rem(count).unwrap_or(0);
        requests.push(request_for(alloc, page)?)?;
    }
    Ok(requests)
}

fn is_answer(decision: Decision) -> bool {
    matches!(decision, Decision::Answer(_))
}

/// Sends each request, and returns how many were answered from the store.
pub fn answered<S: Store + Drop>(
    alloc: Global,
    client: &mut Client<S>,
    requests: &[Request<Bytes>],
) -> anyhow::Result<u64> {
    let now = start()?;
    let mut count = 0u64;
    for request in requests {
        if is_answer(client.ask(alloc, request, now)?) {
            count = count.saturating_add(1);
        }
    }
    Ok(count)
}

//! Pages of 1 kB, each with its own target, and requests for them.
use bytes::Bytes;
use http::header::{
    CACHE_CONTROL, CONTENT_TYPE, DATE, ETAG, HeaderName, HeaderValue, LAST_MODIFIED, SERVER, VARY,
};
use http::{HeaderMap, Method, Request, StatusCode, Uri, Version, request, response};
use http_cache_memory_store::{Store, Target};
use http_cache_semantics::CachePolicy;
use jiff::Timestamp;
use std::alloc::Global;

const FIELDS: [(HeaderName, &str); 7] = [
    (CACHE_CONTROL, "public, max-age=31536000"),
    (CONTENT_TYPE, "text/html; charset=utf-8"),
    (DATE, "Mon, 01 Jan 2024 00:00:00 GMT"),
    (ETAG, "\"0123456789abcdef\""),
    (LAST_MODIFIED, "Sun, 31 Dec 2023 00:00:00 GMT"),
    (SERVER, "bench"),
    (VARY, "accept-encoding"),
];

const PAGE: [u8; 1000] = [b'x'; 1000];

/// Returns the time at which all pages are received and requested: 2024-01-01T00:00:00Z.
pub fn start() -> anyhow::Result<Timestamp> {
    Ok(Timestamp::from_second(1_704_067_200)?)
}

fn uri_of(alloc: Global, number: u64) -> anyhow::Result<Uri> {
    let text = format!(in alloc; "http://example.org/page/{number}")?;
    Ok(Uri::from_str(alloc, text.as_str())?)
}

fn asking(alloc: Global, number: u64) -> anyhow::Result<request::Parts> {
    Ok(request::Parts {
        method: Method::GET,
        uri: uri_of(alloc, number)?,
        version: Version::HTTP_11,
        headers: HeaderMap::new(alloc),
    })
}

/// Returns the request for a page.
pub fn request_for(alloc: Global, number: u64) -> anyhow::Result<Request<Bytes>> {
    Ok(Request::from_parts(asking(alloc, number)?, Bytes::new()))
}

fn head(alloc: Global) -> anyhow::Result<response::Parts> {
    let mut headers = HeaderMap::new(alloc);
    for (name, value) in &FIELDS {
        headers.append(name, HeaderValue::from_static(value))?;
    }
    Ok(response::Parts {
        status: StatusCode::OK,
        version: Version::HTTP_11,
        headers,
    })
}

fn policy_for(alloc: Global, asking: &request::Parts) -> anyhow::Result<CachePolicy> {
    let head = head(alloc)?;
    Ok(CachePolicy::new(alloc, asking, &head, start()?)?)
}

fn put_page<S: Store>(
    alloc: Global,
    store: &mut S,
    asking: &request::Parts,
) -> anyhow::Result<bool> {
    let target = Target::of(alloc, &asking.uri, &asking.headers)?;
    let policy = policy_for(alloc, asking)?;
    let body = Bytes::copy_from_slice(alloc, &PAGE)?;
    Ok(store.put(&target, &[], policy, body)?.is_some())
}

fn store_page<S: Store>(alloc: Global, store: &mut S, number: u64) -> anyhow::Result<bool> {
    let asking = asking(alloc, number)?;
    put_page(alloc, store, &asking)
}

/// Stores pages, and returns how many were stored.
pub fn fill<S: Store>(alloc: Global, store: &mut S, count: u64) -> anyhow::Result<u64> {
    let mut stored = 0u64;
    for number in 0..count {
        if store_page(alloc, store, number)? {
            stored = stored.saturating_add(1);
        }
    }
    Ok(stored)
}

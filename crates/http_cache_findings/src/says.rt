//! What a response says of caching: its Cache-Control, else its Expires or Pragma, and its validator.
use crate::cost::response_at;
use http::HeaderMap;
use http::header::{CACHE_CONTROL, ETAG, EXPIRES, LAST_MODIFIED, PRAGMA};
use http_cache_fields::headers::{contains_key, first_text};
use http_cache_recording::Recorded;
use std::alloc::{AllocError, Global};
use std::fmt::Write;

// Adds a header with its name, if there is no text yet.
fn push_named(out: &mut String, name: &str, value: Option<&str>) -> Result<(), AllocError> {
    match value {
        Some(value) if out.is_empty() => write!(out, "{name} {value}"),
        _ => Ok(()),
    }
}

// Returns the Cache-Control of a response, else its Expires, else its Pragma.
fn lifetime_text(alloc: Global, headers: &HeaderMap) -> Result<String, AllocError> {
    let control = first_text(headers, CACHE_CONTROL).unwrap_or("");
    let mut out = String::from_str(alloc, control)?;
    push_named(&mut out, "Expires", first_text(headers, EXPIRES))?;
    push_named(&mut out, "Pragma", first_text(headers, PRAGMA))?;
    Ok(out)
}

fn validator_text(headers: &HeaderMap) -> &'static str {
    if contains_key(headers, ETAG) {
        "ETag"
    } else if contains_key(headers, LAST_MODIFIED) {
        "Last-Modified"
    } else {
        "no ETag"
    }
}

/// Returns what the response of an entry says of caching: Cache-Control, else Expires or Pragma,
/// and its validator.
pub fn said_at(alloc: Global, recorded: &[Recorded], index: usize) -> Result<String, AllocError> {
    let Some(response) = response_at(recorded, index) else {
        return Ok(String::new(alloc));
    };
    let mut out = lifetime_text(alloc, &response.headers)?;
    if !out.is_empty() {
        out.push_str(", ")?;
    }
    out.push_str(validator_text(&response.headers))?;
    Ok(out)
}

//! Calls on headers, and the text of headers and directives.
use crate::make::{Make, make_with};
use http::HeaderMap;
use http_cache_semantics::CacheError;
use http_cache_semantics::directives::{CacheControl, format_cache_control, parse_cache_control};
use http_cache_semantics::forwarding::{joined_headers, read_date, updated_headers};
use std::alloc::Global;
use std::fmt::Write;
use std::test::Fail;
use test_cases::fixtures::{field, headers};

/// A call on headers.
#[derive(Clone, Copy)]
pub struct OfHeaders;

/// Returns the lines of headers in their order, with `?` for a value that isn't text.
pub fn lines(alloc: Global, headers: &HeaderMap) -> Result<String, Fail> {
    let mut text = String::new(alloc);
    for (name, value) in headers.iter() {
        if !text.as_str().is_empty() {
            text.push_str(" ~ ")?;
        }
        text.push_str(name.as_str())?;
        text.push_str(": ")?;
        text.push_str(value.to_str().unwrap_or("?"))?;
    }
    Ok(text)
}

// Returns the lines of headers, or why there are none.
fn lines_or_error(alloc: Global, headers: Result<HeaderMap, CacheError>) -> Result<String, Fail> {
    match headers {
        Ok(headers) => lines(alloc, &headers),
        Err(e) => Ok(format!(in alloc; "{e}")?),
    }
}

// Returns directives in their order, each with its value if it has one, or `empty`.
fn directives(alloc: Global, read: &CacheControl) -> Result<String, Fail> {
    if read.is_empty() {
        return Ok(String::from_str(alloc, "empty")?);
    }
    let mut text = String::new(alloc);
    for (name, value) in read.iter() {
        match value {
            Some(value) => write!(text, "[{name}][{value}]")?,
            None => write!(text, "[{name}]")?,
        }
    }
    Ok(text)
}

fn listed(alloc: Global, read: Result<CacheControl, CacheError>) -> Result<String, Fail> {
    match read {
        Ok(read) => directives(alloc, &read),
        Err(e) => Err(e)?,
    }
}

/// Returns the directives as one line.
pub fn formatted(alloc: Global, read: Result<CacheControl, CacheError>) -> Result<String, Fail> {
    match read {
        Ok(read) => Ok(format_cache_control(alloc, &read)?),
        Err(e) => Err(e)?,
    }
}

// Returns the second of a date, or none.
fn second(alloc: Global, headers: &HeaderMap) -> Result<String, Fail> {
    let value = headers.get("date").ok_or("no date")?;
    match read_date(alloc, value)? {
        Some(date) => Ok(format!(in alloc; "{}", date.as_second())?),
        None => Ok(String::from_str(alloc, "none")?),
    }
}

impl Make<OfHeaders> for HeaderMap {
    type Made = String;

    fn make(&self, alloc: Global, _by: OfHeaders, case: &str) -> Result<String, Fail> {
        match field(case, 0)? {
            "directives" => {
                let values = self.get_all("cache-control");
                listed(alloc, parse_cache_control(alloc, values))
            }
            "format_cache_control" => {
                let values = self.get_all("cache-control");
                formatted(alloc, parse_cache_control(alloc, values))
            }
            "joined_headers" => lines_or_error(alloc, joined_headers(alloc, self)),
            "read_date" => second(alloc, self),
            _ => make_with(alloc, headers(alloc, field(case, 2)?), self, case),
        }
    }
}

// Returns the stored headers after a 304 with these.
impl Make<&HeaderMap> for HeaderMap {
    type Made = String;

    fn make(&self, alloc: Global, stored: &HeaderMap, _case: &str) -> Result<String, Fail> {
        lines_or_error(alloc, updated_headers(alloc, stored, self))
    }
}

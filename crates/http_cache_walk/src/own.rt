//! Infers the responses that a browser had stored before the recording began, from its requests and
//! its own answers.
ghost use Rattle.std.specs.Prelude.{◌≡◌, ◌≤ℤ◌, pos, option_map, IfOk, OnOk};
ghost use Rattle.http_cache_fields.specs.Headers.{headers_of};
ghost use Rattle.http_cache_semantics.specs.Messages.{response_seen};
ghost use Rattle.http_cache_recording.specs.Entry.{entry_seen};
ghost use Rattle.http_cache_walk.specs.Own.{date_in, age_of, dated, lies_before, received_of};
ghost use Rattle.http_cache_walk.specs.Own.{has_own_condition};
ghost use Rattle.http_cache_walk.specs.Own.{is_only_tag, tag_of, with_missing, shown_by};

use crate::assume::{first_value, put_value};
use http::header::{AGE, DATE, ETAG, IF_MODIFIED_SINCE, IF_NONE_MATCH, LAST_MODIFIED};
use http::{HeaderMap, StatusCode, Version, response};
use http_cache_fields::headers::{contains_key, copy_of_map, first_text};
use http_cache_fields::text::number;
use http_cache_recording::Entry;
use http_cache_rules::dates::read_date;
use http_header::{HeaderName, HeaderValue};
use jiff::Timestamp;
use std::alloc::{AllocError, Global};

/// Returns the time in Date, if it is one (RFC 7231, section 7.1.1.2).
pub fn date_of(alloc: Global, headers: &HeaderMap) -> Result<Option<Timestamp>, AllocError>
    ensures { IfOk result (λ date. option_map (λ d. d.nanosecond) date
        ≡ date_in (headers_of headers.now)) }
{
    match first_text(headers, DATE) {
        Some(text) => read_date(alloc, text),
        None => Ok(None),
    }
}

// In seconds.
fn age_of(headers: &HeaderMap) -> u64
    ensures { result ≡ age_of (headers_of headers.now) }
{
    match first_text(headers, AGE) {
        Some(text) => number(text).unwrap_or(0),
        None => 0,
    }
}

// Date plus Age.
fn dated(alloc: Global, headers: &HeaderMap) -> Result<Option<i128>, AllocError>
    ensures { IfOk result (λ time. time ≡ dated (headers_of headers.now)) }
{
    let Some(date) = date_of(alloc, headers)? else {
        return Ok(None);
    };
    Ok(Some(date.as_nanosecond() + age_of(headers) as i128 * 1_000_000_000))
}

fn lies_before(started: Timestamp, time: i128) -> bool
    ensures { result ≡ lies_before started.nanosecond time }
{
    0 <= time && time <= started.as_nanosecond()
}

/// Returns when the browser received a response that it answered with.
///
/// That is Date plus Age if it is between 1970 and the request, otherwise the time of the request.
#[tactic(auto, unfolding(crate::specs::Own::received_of))]
pub(crate) fn received_of(
    alloc: Global,
    headers: &HeaderMap,
    started: Timestamp,
) -> Result<Timestamp, AllocError>
    ensures { IfOk result (λ time. time.nanosecond
        ≡ received_of (headers_of headers.now) started.nanosecond) }
{
    let Some(time) = dated(alloc, headers)? else {
        return Ok(started);
    };
    if !lies_before(started, time) {
        return Ok(started);
    }
    match Timestamp::from_nanosecond(time) {
        Ok(time) => Ok(time),
        Err(_) => unreachable!(),
    }
}

/// Returns whether a request has a condition of its own, since its sender had stored a response.
#[tactic(auto, unfolding(crate::specs::Own::has_own_condition))]
pub(crate) fn has_own_condition(entry: &Entry) -> bool
    ensures { result ≡ has_own_condition (entry_seen entry.now) }
{
    let headers = &entry.headers;
    match first_text(headers, IF_NONE_MATCH) {
        Some(text) => text != "*" || contains_key(headers, IF_MODIFIED_SINCE),
        None => contains_key(headers, IF_MODIFIED_SINCE),
    }
}

fn is_only_tag(text: &str) -> bool
    ensures { result ≡ is_only_tag text.now }
{
    text != "*" && !text.as_bytes().contains(&b',')
}

#[tactic(auto, unfolding(crate::specs::Own::tag_of))]
fn tag_of(request: &HeaderMap) -> Option<&HeaderValue>
    ensures { option_map (λ v. v.now.bytes) result ≡ tag_of (headers_of request.now) }
{
    if !is_only_tag(first_text(request, IF_NONE_MATCH)?) {
        return None;
    }
    first_value(request, &IF_NONE_MATCH)
}

fn add_value(
    headers: &mut HeaderMap,
    name: &HeaderName,
    value: Option<&HeaderValue>,
) -> Result<(), AllocError>
    ensures { OnOk result (headers_of headers.new ≡ with_missing (headers_of headers.old) name.now
        (option_map (λ v. v.now.bytes) value.entry)) }
{
    let Some(value) = value else {
        return Ok(());
    };
    if contains_key(headers, name) {
        return Ok(());
    }
    put_value(headers, name, value)
}

/// Returns the response that a 304 to the client's own condition shows, with the validators of the
/// condition.
#[tactic(auto, unfolding(crate::specs::Own::shown_by))]
pub(crate) fn shown_by(
    entry: &Entry,
    response: &response::Parts,
) -> Result<response::Parts, AllocError>
    ensures { IfOk result (λ shown.
        response_seen shown ≡ shown_by (entry_seen entry.now) (response_seen response.now)) }
{
    let mut headers = copy_of_map(&response.headers)?;
    let request = &entry.headers;
    add_value(&mut headers, &ETAG, tag_of(request))?;
    add_value(
        &mut headers,
        &LAST_MODIFIED,
        first_value(request, &IF_MODIFIED_SINCE),
    )?;
    Ok(response::Parts {
        status: StatusCode::OK,
        version: Version::HTTP_11,
        headers,
    })
}

//! Reads the elements of the list of entries.
ghost use Rattle.std.specs.Prelude.{◌≡◌, option_map, string_bytes, IfOk};
ghost use Rattle.http_cache_fields.specs.Headers.{headers_of};
ghost use Rattle.serde_json.specs.View.{view};
ghost use Rattle.http_cache_recording.specs.Entry.{text_seen, answer_seen, body_seen, entry_seen, recorded_seen};
ghost use Rattle.http_cache_recording.specs.Element.{method_in, other_reason, reason_of, target_in, started_of};
ghost use Rattle.http_cache_recording.specs.Element.{request_headers, answer_of, body_of, is_internal, is_preflight};
ghost use Rattle.http_cache_recording.specs.Element.{is_answered_by_store, is_range, kind_of, entry_of, IsSkipped, IsRecordedBy};
ghost use Rattle.http_cache_recording.specs.Element.{IsRecorded};

use crate::entry::{Answer, Body, Entry, Kind, Reading, Recorded};
use crate::fields::{headers_in, remove_no_cache};
use crate::moment::{moment_of_text, received_at};
use crate::number::whole;
use crate::printed::{
    browser_of, copied, error_of, is_by_worker, member, printed_of, request_text, shown,
    skipped_url, some_text_in, status_of, text_in,
};
use crate::target::{has_user, other_scheme, target_text, url_parts};
use http::method::MethodError;
use http::{HeaderMap, Method, Version, response};
use http_cache_fields::headers::contains_key;
use http_cache_json::texts::status_from_number;
use jiff::Timestamp;
use serde_json::Value;
use std::alloc::{AllocError, Global};

/// How the elements of a recording are read.
#[derive(Clone, Copy)]
pub(crate) struct Reader {
    /// Whether Firefox wrote the recording.
    pub is_firefox: bool,
    /// Whether requests are read without their `no-cache`.
    pub ignores_no_cache: bool,
    /// Whether the recording lists pages, to which entries may belong.
    pub has_pages: bool,
}

// RFC 9110, section 9.1.
#[tactic(auto, unfolding(crate::specs::Element::method_in))]
fn method_in(alloc: Global, value: &Value) -> Result<Option<Method>, AllocError>
    ensures { IfOk result (λ method. method ≡ method_in (view value.now)) }
{
    let Some(text) = request_text(value, "method") else {
        return Ok(None);
    };
    match Method::from_bytes(alloc, text.as_bytes()) {
        Ok(method) => Ok(Some(method)),
        Err(MethodError::OutOfMemory) => Err(AllocError),
        Err(MethodError::Invalid) => Ok(None),
    }
}

// It holds whatever the target is.
#[tactic(auto, unfolding(crate::specs::Element::other_reason))]
fn other_reason(value: &Value, method: &str) -> Option<&'static str>
    ensures { option_map (λ t. t.now) result ≡ other_reason method.now (view value.now) }
{
    if method == "CONNECT" {
        return Some("connect");
    }
    if status_of(value) == 101 {
        return Some("upgrade");
    }
    if is_by_worker(value) {
        Some("service worker")
    } else {
        None
    }
}

// The method and the time are checked elsewhere.
#[tactic(auto, unfolding(crate::specs::Element::reason_of))]
fn reason_of(alloc: Global, value: &Value, method: &str) -> Result<Option<String>, AllocError>
    ensures { IfOk result (λ reason. text_seen reason ≡ reason_of method.now (view value.now)) }
{
    let Some(url) = request_text(value, "url") else {
        return Ok(Some(String::from_str(alloc, "no request")?));
    };
    if has_user(url) {
        return Ok(Some(String::from_str(alloc, "no target")?));
    }
    if let Some(scheme) = other_scheme(url) {
        return Ok(Some(format!(in alloc; "scheme {scheme}")?));
    }
    if url_parts(url).is_none() {
        return Ok(Some(String::from_str(alloc, "no target")?));
    }
    copied(alloc, other_reason(value, method))
}

#[tactic(auto, unfolding(crate::specs::Element::target_in))]
fn target_in(alloc: Global, value: &Value) -> Result<Option<String>, AllocError>
    ensures { IfOk result (λ target. text_seen target ≡ target_in (view value.now)) }
{
    let Some(url) = request_text(value, "url") else {
        return Ok(None);
    };
    match url_parts(url) {
        Some(parts) => Ok(Some(target_text(alloc, &parts)?)),
        None => Ok(None),
    }
}

#[tactic(auto, unfolding(crate::specs::Element::started_of))]
fn started_of(alloc: Global, value: &Value) -> Result<Option<Timestamp>, AllocError>
    ensures { IfOk result (λ started. option_map (λ t. t.nanosecond) started
        ≡ started_of (view value.now)) }
{
    match text_in(value, "startedDateTime") {
        Some(text) => moment_of_text(alloc, text),
        None => Ok(None),
    }
}

#[tactic(auto, unfolding(crate::specs::Element::request_headers))]
fn request_headers(alloc: Global, value: &Value, reader: Reader) -> Result<HeaderMap, AllocError>
    ensures { IfOk result (λ headers. headers_of headers
        ≡ request_headers reader.ignores_no_cache (view value.now)) }
{
    let mut headers = headers_in(alloc, member(value, "request", "headers"))?;
    if reader.ignores_no_cache {
        remove_no_cache(&mut headers);
    }
    Ok(headers)
}

// There is no answer after an error, or without a status.
#[tactic(auto, unfolding(crate::specs::Element::answer_of))]
fn answer_of(alloc: Global, value: &Value) -> Result<Answer, AllocError>
    ensures { IfOk result (λ a. answer_seen a ≡ answer_of (view value.now)) }
{
    if error_of(value).is_some() {
        return Ok(Answer::Failed);
    }
    let Some(status) = status_from_number(status_of(value)) else {
        return Ok(Answer::Failed);
    };
    let response = response::Parts {
        status,
        version: Version::HTTP_11,
        headers: headers_in(alloc, member(value, "response", "headers"))?,
    };
    match browser_of(value) {
        Some(_) => Ok(Answer::Cached(response)),
        None => Ok(Answer::Received(response)),
    }
}

// A 304 has no body.
#[tactic(auto, unfolding(crate::specs::Element::body_of))]
fn body_of(alloc: Global, value: &Value) -> Result<Option<Body>, AllocError>
    ensures { IfOk result (λ body. option_map body_seen body ≡ body_of (view value.now)) }
{
    let Some(content) = member(value, "response", "content") else {
        return Ok(None);
    };
    let Some(text) = some_text_in(content, "text") else {
        return Ok(None);
    };
    if status_of(value) == 304 {
        return Ok(None);
    }
    let text = String::from_str(alloc, text)?;
    let encoding = copied(alloc, some_text_in(content, "encoding"))?;
    Ok(Some(Body { text, encoding }))
}

fn is_internal(answer: &Answer) -> bool
    ensures { result ≡ is_internal (answer_seen answer.now) }
{
    match answer {
        Answer::Failed => false,
        Answer::Cached(response) | Answer::Received(response) => {
            contains_key(&response.headers, "non-authoritative-reason")
        }
    }
}

// A CORS preflight.
fn is_preflight(value: &Value, method: &Method, headers: &HeaderMap) -> bool
    ensures { result ≡ is_preflight (view value.now) method.now (headers_of headers.now) }
{
    method.as_str() == "OPTIONS"
        && (contains_key(headers, "access-control-request-method")
            || some_text_in(value, "_resourceType") == Some("preflight"))
}

fn is_answered_by_store(method: &Method) -> bool
    ensures { result ≡ is_answered_by_store method.now }
{
    method.as_str() == "GET" || method.as_str() == "HEAD"
}

fn is_range(value: &Value, headers: &HeaderMap) -> bool
    ensures { result ≡ is_range (view value.now) (headers_of headers.now) }
{
    status_of(value) == 206 || contains_key(headers, "range")
}

#[tactic(auto, unfolding(crate::specs::Element::kind_of))]
fn kind_of(value: &Value, method: &Method, headers: &HeaderMap, answer: &Answer) -> Kind
    ensures { result ≡ kind_of (view value.now) method.now (headers_of headers.now)
        (answer_seen answer.now) }
{
    if is_internal(answer) {
        Kind::Internal
    } else if is_preflight(value, method, headers) {
        Kind::Preflight
    } else if !is_answered_by_store(method) {
        Kind::Passed
    } else if is_range(value, headers) {
        Kind::Range
    } else if matches!(answer, Answer::Failed) {
        Kind::Failed
    } else {
        Kind::Asked
    }
}

#[tactic(auto, unfolding(crate::specs::Element::entry_of))]
fn entry_of(
    alloc: Global,
    value: &Value,
    method: Method,
    started: Timestamp,
    reader: Reader,
) -> Result<Entry, AllocError>
    ensures { IfOk result (λ e. entry_seen e ≡ entry_of reader.ignores_no_cache method
        started.nanosecond (view value.now)) }
{
    let headers = request_headers(alloc, value, reader)?;
    let answer = answer_of(alloc, value)?;
    let body = body_of(alloc, value)?;
    Ok(Entry {
        kind: kind_of(value, &method, &headers, &answer),
        started,
        received: received_at(started, whole(value.get("time")).unwrap_or(0)),
        method,
        headers,
        answer,
        body,
    })
}

fn skipped(
    alloc: Global,
    value: &Value,
    reason: String,
    reader: Reader,
) -> Result<Recorded, AllocError>
    ensures { IfOk result (λ r. IsSkipped reader (view value.now) (string_bytes reason)
        (recorded_seen r)) }
{
    let url = shown(alloc, skipped_url(value))?;
    Ok(Recorded {
        printed: printed_of(alloc, value, url, reader)?,
        reading: Reading::Skipped(reason),
    })
}

fn recorded_by(
    alloc: Global,
    value: &Value,
    method: Method,
    reader: Reader,
) -> Result<Recorded, AllocError>
    ensures { IfOk result (λ r. IsRecordedBy reader (view value.now) method (recorded_seen r)) }
{
    if let Some(reason) = reason_of(alloc, value, method.as_str())? {
        return skipped(alloc, value, reason, reader);
    }
    let Some(started) = started_of(alloc, value)? else {
        return skipped(alloc, value, String::from_str(alloc, "no moment")?, reader);
    };
    let target = target_in(alloc, value)?;
    let entry = entry_of(alloc, value, method, started, reader)?;
    Ok(Recorded {
        printed: printed_of(alloc, value, target, reader)?,
        reading: Reading::Entry(entry),
    })
}

/// Returns what may be printed of an element, and its entry or why it isn't audited.
pub(crate) fn recorded(alloc: Global, value: &Value, reader: Reader) -> Result<Recorded, AllocError>
    ensures { IfOk result (λ r. IsRecorded reader (view value.now) (recorded_seen r)) }
{
    match method_in(alloc, value)? {
        Some(method) => recorded_by(alloc, value, method, reader),
        None => skipped(alloc, value, String::from_str(alloc, "no request")?, reader),
    }
}

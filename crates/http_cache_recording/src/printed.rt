//! Reads what may be printed of an entry, and what it says of its response.
ghost use Rattle.std.specs.Prelude.{◌≡◌, ◌<◌, ◌≤◌, ◌^◌, length, option_map, string_bytes, IfOk, IfSome};
ghost use Rattle.serde_json.specs.View.{view};
ghost use Rattle.http_cache_recording.specs.Entry.{text_seen, printed_seen};
ghost use Rattle.http_cache_recording.specs.Printed.{member_of, text_in, some_text, some_text_in, without_credentials};
ghost use Rattle.http_cache_recording.specs.Printed.{request_text, method_of, IsSkippedUrl, status_of, size_of_headers, has_no_size};
ghost use Rattle.http_cache_recording.specs.Printed.{is_by_firefox, browser_of, error_of};
ghost use Rattle.http_cache_recording.specs.Printed.{response_size, content_size, body_size, sent_by, sent_of};
ghost use Rattle.http_cache_recording.specs.Printed.{printed_of, safari_cache, is_by_state, page_of, shown_text, worker_flag, is_by_worker, cache_of};

use crate::element::Reader;
use crate::entry::Printed;
use crate::number::whole;
use crate::target::user_len;
use percent_encoding::{CONTROLS, percent_encode};
use serde_json::Value;
use std::alloc::{AllocError, Global};

/// Returns the member of a member.
pub(crate) fn member<'a>(value: &'a Value, outer: &str, inner: &str) -> Option<&'a Value>
    ensures { option_map (λ v. view v.now) result ≡ member_of outer.now inner.now (view value.now) }
{
    value.get(outer)?.get(inner)
}

/// Returns the text under a name.
pub(crate) fn text_in<'a>(value: &'a Value, name: &str) -> Option<&'a str>
    ensures { option_map (λ t. t.now) result ≡ text_in name.now (view value.now) }
{
    value.get(name)?.as_str()
}

fn some_text(text: &str) -> Option<&str>
    ensures { option_map (λ t. t.now) result ≡ some_text text.now }
{
    if text.is_empty() { None } else { Some(text) }
}

/// Returns the text under a name, if it isn't empty.
pub(crate) fn some_text_in<'a>(value: &'a Value, name: &str) -> Option<&'a str>
    ensures { option_map (λ t. t.now) result ≡ some_text_in name.now (view value.now) }
{
    some_text(text_in(value, name)?)
}

/// Returns a copy of a text.
pub(crate) fn copied(alloc: Global, text: Option<&str>) -> Result<Option<String>, AllocError>
    ensures { IfOk result (λ copy. text_seen copy ≡ option_map (λ t. t.now) text.entry) }
{
    match text {
        Some(text) => Ok(Some(String::from_str(alloc, text)?)),
        None => Ok(None),
    }
}

/// Returns a copy of a text in which each byte is percent-encoded that isn't printable ASCII.
///
/// Such bytes would move the cursor of a terminal, or turn the direction of what follows.
#[tactic(auto, unfolding(crate::specs::Printed::shown_text))]
pub(crate) fn shown(alloc: Global, text: Option<&str>) -> Result<Option<String>, AllocError>
    ensures { IfOk result (λ copy. text_seen copy
        ≡ option_map shown_text (option_map (λ t. t.now) text.entry)) }
{
    let Some(text) = text else {
        return Ok(None);
    };
    let mut out = String::new(alloc);
    percent_encode(text.as_bytes(), CONTROLS).append_to(&mut out)?;
    Ok(Some(out))
}

/// Returns the text of the request under a name.
#[tactic(auto, unfolding(crate::specs::Printed::request_text))]
pub(crate) fn request_text<'a>(value: &'a Value, name: &str) -> Option<&'a str>
    ensures { option_map (λ t. t.now) result ≡ request_text name.now (view value.now) }
{
    text_in(value.get("request")?, name)
}

#[tactic(auto, unfolding(crate::specs::Printed::method_of))]
fn method_of(value: &Value) -> Option<&str>
    ensures { option_map (λ t. t.now) result ≡ method_of (view value.now) }
{
    some_text(request_text(value, "method")?)
}

// Credentials end at the last `@` before the first `?` or `#`.
#[tactic(auto, unfolding(crate::specs::Printed::without_credentials))]
fn without_credentials(text: &str) -> &str
    ensures { result.now ≡ without_credentials text.now }
{
    &text[user_len(text.as_bytes(), b'?', b'#')..]
}

/// Returns what may be printed of the url of an entry that isn't audited.
pub(crate) fn skipped_url(value: &Value) -> Option<&str>
    ensures { IsSkippedUrl (view value.now) (option_map (λ t. t.now) result) }
{
    let url = without_credentials(request_text(value, "url")?);
    Some(&url[..url.floor_char_boundary(200)])
}

/// Returns the status of the response, or 0.
#[tactic(auto, unfolding(crate::specs::Printed::status_of))]
pub(crate) fn status_of(value: &Value) -> u64
    ensures { result ≡ status_of (view value.now) }
{
    whole(member(value, "response", "status")).unwrap_or(0)
}

fn size_of_headers(value: &Value, message: &str) -> Option<u64>
    ensures { result ≡ size_of_headers message.now (view value.now) }
{
    member(value, message, "headersSize")?.as_u64()
}

#[tactic(auto, unfolding(crate::specs::Printed::has_no_size))]
fn has_no_size(value: &Value, message: &str) -> bool
    ensures { result ≡ has_no_size message.now (view value.now) }
{
    match size_of_headers(value, message) {
        Some(size) => size == 0,
        None => false,
    }
}

// Firefox answered from its cache: messages without a size, of a server without an address.
#[tactic(auto, unfolding(crate::specs::Printed::is_by_firefox))]
fn is_by_firefox(value: &Value) -> bool
    ensures { result ≡ is_by_firefox (view value.now) }
{
    status_of(value) > 0
        && has_no_size(value, "request")
        && has_no_size(value, "response")
        && some_text_in(value, "serverIPAddress").is_none()
}

#[tactic(auto, unfolding(crate::specs::Printed::safari_cache))]
fn safari_cache(value: &Value) -> Option<&'static str>
    ensures { option_map (λ t. t.now) result ≡ safari_cache (view value.now) }
{
    match text_in(value, "_fetchType")? {
        "Memory Cache" => Some("memory"),
        "Disk Cache" => Some("disk"),
        _ => None,
    }
}

// The response was stored before the request (`cache.beforeRequest`), and no byte of its body was
// sent.
#[tactic(auto, unfolding(crate::specs::Printed::is_by_state))]
fn is_by_state(value: &Value) -> bool
    ensures { result ≡ is_by_state (view value.now) }
{
    let Some(state) = member(value, "cache", "beforeRequest") else {
        return false;
    };
    state.is_object()
        && status_of(value) > 0
        && status_of(value) != 304
        && response_size(value, "bodySize") == Some(0)
        && response_size(value, "_transferSize").unwrap_or(0) == 0
}

// Chromium's mark of an answer from a service worker.
fn worker_flag(value: &Value) -> Option<bool>
    ensures { result ≡ worker_flag (view value.now) }
{
    member(value, "response", "_fetchedViaServiceWorker")?.as_bool()
}

/// Returns whether a service worker answered, as Chromium or Safari records.
#[tactic(auto, unfolding(crate::specs::Printed::is_by_worker))]
pub(crate) fn is_by_worker(value: &Value) -> bool
    ensures { result ≡ is_by_worker (view value.now) }
{
    worker_flag(value).unwrap_or(false) || text_in(value, "_fetchType") == Some("Service Worker")
}

// Returns the recording's mark of the browser's own cache.
#[tactic(auto, unfolding(crate::specs::Printed::cache_of))]
fn cache_of(value: &Value) -> Option<&str>
    ensures { option_map (λ t. t.now) result ≡ cache_of (view value.now) }
{
    if let Some(name) = some_text_in(value, "_fromCache") {
        return Some(name);
    }
    if let Some(name) = safari_cache(value) {
        return Some(name);
    }
    if is_by_firefox(value) {
        Some("firefox")
    } else if is_by_state(value) {
        Some("cache")
    } else {
        None
    }
}

/// Returns the browser's name for its own cache, if that answered. It didn't if a service worker did,
/// whose store is another one.
#[tactic(auto, unfolding(crate::specs::Printed::browser_of))]
pub(crate) fn browser_of(value: &Value) -> Option<&str>
    ensures { option_map (λ t. t.now) result ≡ browser_of (view value.now) }
{
    if is_by_worker(value) {
        None
    } else {
        cache_of(value)
    }
}

/// Returns the browser's error, or Playwright's, if it is a text that isn't empty.
#[tactic(auto, unfolding(crate::specs::Printed::error_of))]
pub(crate) fn error_of(value: &Value) -> Option<&str>
    ensures { option_map (λ t. t.now) result ≡ error_of (view value.now) }
{
    let response = value.get("response")?;
    match some_text_in(response, "_error") {
        Some(error) => Some(error),
        None => some_text_in(response, "_failureText"),
    }
}

fn response_size(value: &Value, name: &str) -> Option<u64>
    ensures value { result ≡ response_size name.now (view value.now) }
    ensures small { IfSome result (λ n. n < 2 ^ 53) }
{
    whole(member(value, "response", name))
}

// As it was sent.
#[tactic(auto, unfolding(crate::specs::Printed::content_size))]
fn content_size(value: &Value) -> u64
    ensures value { result ≡ content_size (view value.now) }
    ensures small { result < 2 ^ 53 }
{
    let Some(content) = member(value, "response", "content") else {
        return 0;
    };
    let size = whole(content.get("size")).unwrap_or(0);
    size.saturating_sub(whole(content.get("compression")).unwrap_or(0))
}

// A response to HEAD and a 304 have no body (RFC 9110, sections 9.3.2 and 15.4.5).
#[tactic(auto, unfolding(crate::specs::Printed::body_size))]
fn body_size(value: &Value) -> u64
    ensures value { result ≡ body_size (view value.now) }
    ensures small { result < 2 ^ 53 }
{
    if status_of(value) == 304 || method_of(value) == Some("HEAD") {
        return 0;
    }
    match response_size(value, "bodySize") {
        Some(size) => size,
        None => content_size(value),
    }
}

// Firefox includes the headers in the size of a body.
#[tactic(auto, unfolding(crate::specs::Printed::sent_by))]
fn sent_by(value: &Value, is_firefox: bool) -> u64
    ensures { result ≡ sent_by is_firefox (view value.now) }
{
    let headers = response_size(value, "headersSize").unwrap_or(0);
    if !is_firefox {
        return headers + body_size(value);
    }
    if status_of(value) == 304 {
        headers
    } else {
        response_size(value, "bodySize").unwrap_or(0)
    }
}

#[tactic(auto, unfolding(crate::specs::Printed::sent_of))]
fn sent_of(value: &Value, is_firefox: bool) -> u64
    ensures { result ≡ sent_of is_firefox (view value.now) }
{
    if browser_of(value).is_some() || is_by_worker(value) {
        return 0;
    }
    match response_size(value, "_transferSize") {
        Some(size) => size,
        None => sent_by(value, is_firefox),
    }
}

// Only in a recording that lists pages.
#[tactic(auto, unfolding(crate::specs::Printed::page_of))]
fn page_of(value: &Value, has_pages: bool) -> Option<&str>
    ensures { option_map (λ t. t.now) result ≡ page_of has_pages (view value.now) }
{
    if has_pages {
        some_text_in(value, "pageref")
    } else {
        None
    }
}

/// Returns what may be printed of an entry with the given url.
#[tactic(auto, unfolding(crate::specs::Printed::printed_of))]
pub(crate) fn printed_of(
    alloc: Global,
    value: &Value,
    url: Option<String>,
    reader: Reader,
) -> Result<Printed, AllocError>
    ensures { IfOk result (λ printed. printed_seen printed
        ≡ printed_of reader (text_seen url) (view value.now)) }
{
    let page = shown(alloc, page_of(value, reader.has_pages))?;
    let method = shown(alloc, method_of(value))?;
    let browser = shown(alloc, browser_of(value))?;
    let error = shown(alloc, error_of(value))?;
    Ok(Printed {
        method,
        url,
        status: status_of(value),
        browser,
        error,
        sent: sent_of(value, reader.is_firefox),
        head: response_size(value, "headersSize").unwrap_or(0),
        page,
    })
}

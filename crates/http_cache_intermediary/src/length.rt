//! The length of a body, by its fields and in fact (RFC 9110, section 8.6; RFC 9112, section 6).
ghost use Rattle.std.specs.Prelude.{◌≡◌, codes, OnOk};
ghost use Rattle.std.specs.List.{list_all};
ghost use Rattle.http_cache_fields.specs.Pieces.{pieces_under};
ghost use Rattle.http_cache_fields.specs.Headers.{headers_of};
ghost use Rattle.http_cache_intermediary.specs.Field.{HasLines};
ghost use Rattle.http_cache_intermediary.specs.Length.{length_number, says_length, first_length, said_length, has_content, length_lines};
ghost use Rattle.http_cache_intermediary.specs.Length.{request_length, response_length};

use crate::field::{clear, set};
use http::header::{CONTENT_LENGTH, TRANSFER_ENCODING};
use http::{HeaderMap, HeaderValue, Method, StatusCode, response};
use http_cache_fields::CacheError;
use http_cache_fields::headers::contains_key;
use http_cache_fields::pieces::pieces_under;
use http_cache_fields::text::number;
use std::alloc::Global;

/// The body of a message.
#[derive(Clone, Copy, Debug, PartialEq, Eq)]
pub enum Content {
    /// A body of this many bytes.
    Known(u64),
    /// A body of unknown length, which is sent in chunks.
    Unknown,
}

/// The length that Content-Length states.
#[derive(Clone, Copy, Debug, PartialEq, Eq)]
pub enum SaidLength {
    /// There is no Content-Length.
    Absent,
    /// One number of bytes, on all its lines.
    One(u64),
    /// Different numbers, or something that is no number.
    Unclear,
}

// Reads a number of bytes: digits without a sign.
fn length_number(text: &str) -> Option<u64>
    ensures { result ≡ length_number text.now }
{
    if text.starts_with("+") {
        None
    } else {
        number(text)
    }
}

fn says_length(length: u64, text: &str) -> bool
    ensures { result ≡ says_length length text.now }
{
    length_number(text) == Some(length)
}

fn first_length(headers: &HeaderMap) -> Option<u64>
    ensures { result ≡ first_length (pieces_under (headers_of headers.now) (codes "content-length")) }
{
    length_number(pieces_under(headers, CONTENT_LENGTH).next()?)
}

fn all_say_length(headers: &HeaderMap, length: u64) -> bool
    ensures { result ≡ list_all (says_length length)
        (pieces_under (headers_of headers.now) (codes "content-length")) }
{
    pieces_under(headers, CONTENT_LENGTH).all(|piece| says_length(length, piece))
}

/// Returns what all lines of Content-Length together state (RFC 9112, section 6.3).
pub fn said_length(headers: &HeaderMap) -> SaidLength
    ensures { result ≡ said_length (headers_of headers.now) }
{
    if !contains_key(headers, CONTENT_LENGTH) {
        return SaidLength::Absent;
    }
    match first_length(headers) {
        Some(length) if all_say_length(headers, length) => SaidLength::One(length),
        _ => SaidLength::Unclear,
    }
}

/// Returns whether a response may have a body. None has one to HEAD, or with a status of 100 to
/// 199, 204, 205 or 304 (RFC 9110, sections 6.4.1 and 15.3.6).
pub fn has_content(method: &Method, status: StatusCode) -> bool
    ensures { result ≡ has_content method.now status }
{
    *method != Method::HEAD
        && status.as_u16() >= 200
        && status != StatusCode::NO_CONTENT
        && status != StatusCode::RESET_CONTENT
        && status != StatusCode::NOT_MODIFIED
}

// Replaces all lines of Content-Length by one, or removes them.
fn put_length(alloc: Global, headers: &mut HeaderMap, length: Option<u64>) -> Result<(), CacheError>
    ensures { OnOk result (HasLines (codes "content-length") (length_lines length)
        (headers_of headers.old) (headers_of headers.new)) }
{
    match length {
        Some(length) => set(
            headers,
            CONTENT_LENGTH,
            HeaderValue::from_u64(alloc, length)?,
        ),
        None => {
            clear(headers, CONTENT_LENGTH);
            Ok(())
        }
    }
}

// Returns the body's own length. A request without a body and without fields of one has none.
fn request_length(received: &HeaderMap, content: Content) -> Option<u64>
    ensures { result ≡ request_length (headers_of received.now) content }
{
    match content {
        Content::Known(0)
            if !contains_key(received, CONTENT_LENGTH)
                && !contains_key(received, TRANSFER_ENCODING) => { None }
        Content::Known(length) => Some(length),
        Content::Unknown => None,
    }
}

// Returns the body's own length. To HEAD and with a 304, no body is sent, so the received length
// stays.
fn response_length(
    method: &Method,
    status: StatusCode,
    received: &HeaderMap,
    content: Content,
) -> Option<u64>
    ensures { result ≡ response_length method.now status (headers_of received.now) content }
{
    if status.as_u16() < 200 || status == StatusCode::NO_CONTENT {
        return None;
    }
    if status == StatusCode::RESET_CONTENT {
        return Some(0);
    }
    if !has_content(method, status) {
        return match said_length(received) {
            SaidLength::One(length) => Some(length),
            SaidLength::Absent | SaidLength::Unclear => None,
        };
    }
    match content {
        Content::Known(length) => Some(length),
        Content::Unknown => None,
    }
}

pub(crate) fn set_request_length(
    alloc: Global,
    headers: &mut HeaderMap,
    received: &HeaderMap,
    content: Content,
) -> Result<(), CacheError>
    ensures { OnOk result (HasLines (codes "content-length")
        (length_lines (request_length (headers_of received.now) content))
        (headers_of headers.old) (headers_of headers.new)) }
{
    put_length(alloc, headers, request_length(received, content))
}

pub(crate) fn set_response_length(
    alloc: Global,
    headers: &mut HeaderMap,
    method: &Method,
    head: &response::Parts,
    content: Content,
) -> Result<(), CacheError>
    ensures { OnOk result (HasLines (codes "content-length")
        (length_lines (response_length method.now head.now.status
        (headers_of head.now.headers) content))
        (headers_of headers.old) (headers_of headers.new)) }
{
    let length = response_length(method, head.status, &head.headers, content);
    put_length(alloc, headers, length)
}

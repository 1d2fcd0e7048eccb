//! Decides whether a response was received whole.
ghost use Rattle.std.specs.Prelude.{◌≡◌};
ghost use Rattle.http_cache_fields.specs.Headers.{headers_of};
ghost use Rattle.http_cache_decisions.specs.Complete.{is_length, has_length, is_complete};

use http::header::{CONTENT_LENGTH, TRANSFER_ENCODING};
use http::{HeaderMap, Method, StatusCode};
use http_cache_fields::headers::contains_key;
use http_cache_fields::pieces::pieces_under;
use http_cache_fields::text::number;

fn is_length(length: u64, text: &str) -> bool
    ensures { result ≡ is_length length text.now }
{
    number(text) == Some(length)
}

fn has_length(headers: &HeaderMap, length: u64) -> bool
    ensures { result ≡ has_length length (headers_of headers.now) }
{
    pieces_under(headers, CONTENT_LENGTH).all(|piece| is_length(length, piece))
}

/// Returns whether a body of `length` bytes is complete: each Content-Length is that number (RFC
/// 9110, section 8.6; RFC 9111, section 3.3).
///
/// Content-Length is ignored where it isn't the length of this body: in a response to HEAD, with
/// status 204 or 304, or with Transfer-Encoding.
pub fn is_complete(method: &Method, status: StatusCode, headers: &HeaderMap, length: u64) -> bool
    ensures { result ≡ is_complete method.now status (headers_of headers.now) length }
{
    *method == Method::HEAD
        || status == StatusCode::NO_CONTENT
        || status == StatusCode::NOT_MODIFIED
        || contains_key(headers, TRANSFER_ENCODING)
        || has_length(headers, length)
}

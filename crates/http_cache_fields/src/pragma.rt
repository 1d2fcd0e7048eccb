//! Reads Pragma, which replaces a missing Cache-Control (RFC 7234, section 5.4).
ghost use Rattle.std.specs.Prelude.{◌≡◌};
ghost use Rattle.http_cache_fields.specs.Headers.{headers_of};
ghost use Rattle.http_cache_fields.specs.Pragma.{pragma_forbids, pragma_stands_in};

use crate::headers::{contains_key, first_text};
use http_header::{CACHE_CONTROL, HeaderMap, PRAGMA};

/// Returns whether the first Pragma asks for validation (RFC 7234, section 5.4).
pub fn pragma_forbids(headers: &HeaderMap) -> bool
    ensures { result ≡ pragma_forbids (headers_of headers.now) }
{
    match first_text(headers, PRAGMA) {
        Some(text) => text.contains("no-cache"),
        None => false,
    }
}

/// Returns whether there is no Cache-Control, and Pragma asks for validation instead (RFC 7234,
/// section 5.4).
pub fn pragma_stands_in(res: &HeaderMap) -> bool
    ensures { result ≡ pragma_stands_in (headers_of res.now) }
{
    // Few responses have a Pragma.
    pragma_forbids(res) && !contains_key(res, CACHE_CONTROL)
}

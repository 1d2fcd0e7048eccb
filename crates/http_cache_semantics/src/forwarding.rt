//! What a proxy needs to forward messages (RFC 7230, section 5.7).
ghost use Rattle.std.specs.Prelude.{◌≡◌, ◌⊎◌, ℕ, true, false, List, option_map, option_and_then};
ghost use Rattle.std.specs.Prelude.{IfOk, IfErr, IsErrOf, IsOkUnless};
ghost use Rattle.http_cache_fields.specs.Text.{text_of};
ghost use Rattle.http_cache_fields.specs.Headers.{headers_of, first};
ghost use Rattle.http_cache_fields.specs.Pieces.{pieces_under};
ghost use Rattle.http_cache_fields.specs.Directives.{cache_control};
ghost use Rattle.http_cache_rules.specs.Dates.{when, second_start};
ghost use Rattle.http_cache_rules.specs.Forwarding.{forwarded_headers};
ghost use Rattle.http_cache_rules.specs.Joined.{is_singleton, joined_headers};
ghost use Rattle.http_cache_rules.specs.Updated.{updating_fields, updated_values, AreUpdated, HasNoRoom};

use http::HeaderMap;
use http::header::HeaderValue;
use http_cache_fields::CacheError;
pub use http_cache_fields::headers::append;
use http_cache_fields::headers::reveal_header_map;
pub use http_cache_rules::dates::{http_date, print_date};
use http_cache_rules::{dates, forwarding, joined, updated};
use jiff::Timestamp;
use std::alloc::Global;

/// Returns the header fields that a proxy forwards, with all values of each name.
///
/// Connection-specific fields and those that Connection lists are removed (RFC 7230, section 6.1).
/// The only error is `Memory`.
pub fn forwarded_headers(_alloc: Global, headers: &HeaderMap) -> Result<HeaderMap, CacheError>
    ensures value { IfOk result (λ out.
        headers_of out ≡ forwarded_headers (headers_of headers.now)) }
    ensures only_memory { IsOkUnless result CacheError.Memory }
{
    Ok(forwarding::forwarded_headers(headers)?)
}

/// Returns the time of a field value that is a date, as the rules of lifetimes read it.
///
/// A date is what jiff reads as RFC 2822, with a final `GMT` read as `+0000`. RFC 850 and asctime
/// dates, and values that aren't text, return `None`. The only error is `Memory`; a date of up to
/// 62 bytes takes none.
pub fn read_date(alloc: Global, value: &HeaderValue) -> Result<Option<Timestamp>, CacheError>
    ensures value { IfOk result (λ date. option_map (λ d. d.nanosecond) date
        ≡ option_map second_start (option_and_then when (text_of value.now.bytes))) }
    ensures only_memory { IsOkUnless result CacheError.Memory }
{
    match value.to_str() {
        Ok(text) => Ok(dates::read_date(alloc, text)?),
        Err(_) => Ok(None),
    }
}

/// Returns the headers with one line for each name: its lines in order, with `, ` between them (RFC
/// 9110, section 5.3).
///
/// A policy sends only the last line of each name, as the Rust crate does. Join the lines first to
/// keep them all. Set-Cookie keeps its lines, as does a name with a line that isn't text. Age,
/// Date, ETag, Expires and Last-Modified are no lists, and keep their first line, which the rules
/// read. The only error is `Memory`.
pub fn joined_headers(alloc: Global, headers: &HeaderMap) -> Result<HeaderMap, CacheError>
    ensures value { IfOk result (λ out. headers_of out ≡ joined_headers (headers_of headers.now)) }
    ensures pieces { IfOk result (λ out. (name : List ℕ) → is_singleton name ≡ false
        → pieces_under (headers_of out) name ≡ pieces_under (headers_of headers.now) name) }
    ensures first { IfOk result (λ out. (name : List ℕ) → is_singleton name ≡ true
        → first (headers_of out) name ≡ first (headers_of headers.now) name) }
    ensures directives { IfOk result (λ out.
        cache_control (headers_of out) ≡ cache_control (headers_of headers.now)) }
    ensures only_memory { IsOkUnless result CacheError.Memory }
{
    reveal_header_map(headers);
    let out = joined::joined_headers(alloc, headers)?;
    Ok(out)
}

/// Returns the stored fields with those of a 304 in place of theirs, new names too (RFC 9111,
/// section 3.2).
///
/// Connection-specific fields, those that Connection lists, and those that describe the body keep
/// their stored values. A policy adds no name after a 304, as the Rust crate doesn't. To follow RFC
/// 9111, make the next policy from these.
///
/// # Errors
///
/// `HeaderMapFull` if there is no room for the fields of both, and `Memory`.
pub fn updated_headers(
    _alloc: Global,
    stored: &HeaderMap,
    received: &HeaderMap,
) -> Result<HeaderMap, CacheError>
    ensures value { IfOk result (λ out.
        AreUpdated (headers_of stored.now) (headers_of received.now) (headers_of out)) }
    ensures full { IsErrOf result CacheError.HeaderMapFull
        → HasNoRoom (updated_values (headers_of stored.now)
        (updating_fields (headers_of received.now))) }
    ensures known { IfErr result (λ e. (e ≡ CacheError.HeaderMapFull) ⊎ (e ≡ CacheError.Memory)) }
{
    updated::updated_headers(stored, received)
}

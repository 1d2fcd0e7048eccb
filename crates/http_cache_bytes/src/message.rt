//! Makes heads of responses from others.
ghost use Rattle.std.specs.Prelude.{◌≡◌, ◌≢◌, ◌⊎◌, Err, IfOk, IsErrOf, IsOkUnless};
ghost use Rattle.http_heads.specs.Heads.{IsNoResponse, OverfillsResponse};
ghost use Rattle.http_cache_semantics.specs.Headers.{headers_of};
ghost use Rattle.http_cache_semantics.specs.Messages.{response_seen};
ghost use Rattle.http_cache_semantics.specs.ResponseAt.{RefusesAge};
ghost use Rattle.http_cache_semantics.specs.Updated.{updating_fields, updated_values, HasNoRoom};
ghost use Rattle.http_cache_bytes.specs.Cause.{ForPolicy, ForResponse, ForBoth};
ghost use Rattle.http_cache_bytes.specs.Form.{IsNoForm};
ghost use Rattle.http_cache_bytes.specs.Message.{IsHeadAt, IsHeadWith, IsJoined, IsUpdated};

use crate::form::policy_in;
use crate::heads::response_in;
use http::{HeaderMap, StatusCode, Version, response};
use http_cache_semantics::forwarding::{joined_headers, updated_headers};
use http_cache_semantics::{CacheError, CachePolicy};
use http_heads::bytes_of_response;
use jiff::Timestamp;
use std::alloc::Global;
use std::hash::RandomState;

fn head_at(alloc: Global, policy: &CachePolicy, now: Timestamp) -> Result<Vec<u8>, CacheError>
    ensures head { IfOk result (λ bytes. IsHeadAt policy.now now.nanosecond bytes.items) }
    ensures full { IsErrOf result CacheError.HeaderMapFull → RefusesAge policy.now }
    ensures readable { result ≢ Err CacheError.Malformed }
    ensures printable { result ≢ Err CacheError.DateNotPrintable }
{
    let parts = policy.response_at(alloc, now)?;
    Ok(bytes_of_response(alloc, &parts)?)
}

/// Returns the head of the stored response as it may be sent at `now`, fresh or not. It has the
/// stored status, all field lines but connection-specific ones, and Age (RFC 9111, sections 4.2.4
/// and 5.1).
///
/// # Errors
///
/// `Malformed` if `stored` is no stored form, `HeaderMapFull` if there is no room for Age, and
/// `Memory` if there is not enough memory.
pub fn response_at(alloc: Global, stored: &[u8], now: Timestamp) -> Result<Vec<u8>, CacheError>
    ensures head { IfOk result (λ bytes. ForPolicy stored.now
        (λ e. IsHeadAt e now.nanosecond bytes.items)) }
    ensures malformed { IsErrOf result CacheError.Malformed → IsNoForm stored.now }
    ensures full { IsErrOf result CacheError.HeaderMapFull → ForPolicy stored.now RefusesAge }
    ensures printable { result ≢ Err CacheError.DateNotPrintable }
{
    let policy = policy_in(alloc, stored)?;
    head_at(alloc, &policy, now)
}

fn join(alloc: Global, parts: &response::Parts) -> Result<Vec<u8>, CacheError>
    ensures head { IfOk result (λ bytes. IsJoined (response_seen parts.now) bytes.items) }
    ensures only_memory { IsOkUnless result CacheError.Memory }
{
    let joined = response::Parts {
        status: parts.status,
        version: Version::HTTP_11,
        headers: joined_headers(alloc, &parts.headers)?,
    };
    Ok(bytes_of_response(alloc, &joined)?)
}

/// Returns the head of a response with one field line for each name, as a cache stores it before
/// `new` (RFC 9110, section 5.3).
///
/// Set-Cookie, and a name with a line that isn't text, keep their lines. Age, Date, ETag, Expires
/// and Last-Modified keep the first line.
///
/// # Errors
///
/// `Malformed` if `response` is no head of a response, `HeaderMapFull` if a header map can't hold
/// its fields, and `Memory` if there is not enough memory.
pub fn joined(alloc: Global, keys: RandomState, response: &[u8]) -> Result<Vec<u8>, CacheError>
    ensures head { IfOk result (λ bytes. ForResponse response.now (λ r. IsJoined r bytes.items)) }
    ensures malformed { IsErrOf result CacheError.Malformed → IsNoResponse response.now }
    ensures full { IsErrOf result CacheError.HeaderMapFull → OverfillsResponse response.now }
    ensures printable { result ≢ Err CacheError.DateNotPrintable }
{
    let parts = response_in(alloc, keys, response)?;
    join(alloc, &parts)
}

fn head_of(alloc: Global, status: StatusCode, headers: HeaderMap) -> Result<Vec<u8>, CacheError>
    ensures head { IfOk result (λ bytes. IsHeadWith status (λ h. h ≡ headers_of headers) bytes.items) }
    ensures only_memory { IsOkUnless result CacheError.Memory }
{
    let parts = response::Parts {
        status,
        version: Version::HTTP_11,
        headers,
    };
    Ok(bytes_of_response(alloc, &parts)?)
}

fn update(
    alloc: Global,
    stored: &response::Parts,
    received: &response::Parts,
) -> Result<Vec<u8>, CacheError>
    ensures head { IfOk result (λ bytes.
        IsUpdated (response_seen stored.now) (response_seen received.now) bytes.items) }
    ensures full { IsErrOf result CacheError.HeaderMapFull
        → HasNoRoom (updated_values (headers_of stored.now.headers)
        (updating_fields (headers_of received.now.headers))) }
    ensures readable { result ≢ Err CacheError.Malformed }
    ensures printable { result ≢ Err CacheError.DateNotPrintable }
{
    match updated_headers(alloc, &stored.headers, &received.headers) {
        Ok(headers) => head_of(alloc, stored.status, headers),
        Err(e) => Err(e),
    }
}

fn update_with(
    alloc: Global,
    keys: RandomState,
    stored: &response::Parts,
    received: &[u8],
) -> Result<Vec<u8>, CacheError>
    ensures head { IfOk result (λ bytes. ForResponse received.now
        (λ s. IsUpdated (response_seen stored.now) s bytes.items)) }
    ensures malformed { IsErrOf result CacheError.Malformed → IsNoResponse received.now }
    ensures full { IsErrOf result CacheError.HeaderMapFull → OverfillsResponse received.now
        ⊎ ForResponse received.now (λ s. HasNoRoom
        (updated_values (headers_of stored.now.headers) (updating_fields s.headers))) }
    ensures printable { result ≢ Err CacheError.DateNotPrintable }
{
    let received = response_in(alloc, keys, received)?;
    update(alloc, stored, &received)
}

/// Returns the head of a stored response with the fields of a 304, which replace stored fields with
/// their names (RFC 9111, section 3.2).
///
/// # Errors
///
/// - `Malformed` if one of the two is no head of a response.
/// - `HeaderMapFull` if a header map can't hold the fields of one or of both.
/// - `Memory` if there is not enough memory.
pub fn updated(
    alloc: Global,
    keys: RandomState,
    stored: &[u8],
    received: &[u8],
) -> Result<Vec<u8>, CacheError>
    ensures head { IfOk result (λ bytes. ForBoth stored.now received.now
        (λ r s. IsUpdated r s bytes.items)) }
    ensures malformed { IsErrOf result CacheError.Malformed
        → IsNoResponse stored.now ⊎ IsNoResponse received.now }
    ensures full { IsErrOf result CacheError.HeaderMapFull
        → OverfillsResponse stored.now ⊎ (OverfillsResponse received.now
        ⊎ ForBoth stored.now received.now
        (λ r s. HasNoRoom (updated_values r.headers (updating_fields s.headers)))) }
    ensures printable { result ≢ Err CacheError.DateNotPrintable }
{
    let stored = response_in(alloc, keys, stored)?;
    update_with(alloc, keys, &stored, received)
}

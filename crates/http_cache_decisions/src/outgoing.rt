//! The request that validates a stored response (RFC 9111, section 4.3.1).
ghost use Rattle.std.specs.Prelude.{◌≡◌, ◌⊎◌, map, option_map, IfOk, IfErr, OnOk, IsErrOf};
ghost use Rattle.http.specs.Request.{head_of};
ghost use Rattle.http_cache_rules.specs.Forwarding.{forwarded_headers, without_named};
ghost use Rattle.http_cache_fields.specs.Headers.{headers_of, first};
ghost use Rattle.http_cache_decisions.specs.Outgoing.{set_if_some, with_validators, validating, IsClean};
ghost use Rattle.http_cache_decisions.specs.Outgoing.{RefusesIfSome, RefusesEither, RefusesValidators};
ghost use Rattle.http_cache_decisions.specs.Outgoing.{removed_fields};

use bytes::Bytes;
use http::header::{ETAG, IF_MODIFIED_SINCE, IF_NONE_MATCH, LAST_MODIFIED};
use http::{HeaderMap, HeaderName, HeaderValue, Request, Uri, Version, request};
use http_cache_fields::CacheError;
use http_cache_fields::headers::{insert, remove};
use http_cache_policy::policy::CachePolicy;
use http_cache_rules::forwarding::forwarded_headers;
use std::alloc::{AllocError, Global};

// The fields of a body (which isn't sent), of ranges, and of the client's own conditions.
const REMOVED: [&str; 10] = [
    "content-encoding",
    "content-length",
    "content-type",
    "expect",
    "if-match",
    "if-modified-since",
    "if-none-match",
    "if-range",
    "if-unmodified-since",
    "range",
];

fn remove_all(headers: &mut HeaderMap, names: &[&str])
    ensures { headers_of headers.new
        ≡ without_named (map (λ name. name.now) names.now) (headers_of headers.old) }
{
    for name in names {
        remove(headers, *name);
    }
}

fn set_if_some(
    headers: &mut HeaderMap,
    name: HeaderName,
    value: Option<&HeaderValue>,
) -> Result<(), CacheError>
    ensures ok { OnOk result (headers_of headers.new
        ≡ set_if_some (headers_of headers.old) name (option_map (λ v. v.now.bytes) value.entry)) }
    ensures full { IsErrOf result CacheError.HeaderMapFull → RefusesIfSome
        (headers_of headers.old) name (option_map (λ v. v.now.bytes) value.entry) }
    ensures known { IfErr result (λ e.
        (e ≡ CacheError.HeaderMapFull) ⊎ (e ≡ CacheError.Memory)) }
{
    match value {
        Some(value) => insert(headers, name, value.clone()?),
        None => Ok(()),
    }
}

fn first_value(map: &HeaderMap, name: HeaderName) -> Option<&HeaderValue>
    ensures { option_map (λ v. v.now.bytes) result ≡ first (headers_of map.now) name }
{
    map.get(name)
}

// Adds the stored validators as conditions (RFC 9111, section 4.3.1).
fn add_validators(headers: &mut HeaderMap, stored: &HeaderMap) -> Result<(), CacheError>
    ensures ok { OnOk result (headers_of headers.new
        ≡ with_validators (headers_of stored.now) (headers_of headers.old)) }
    ensures full { IsErrOf result CacheError.HeaderMapFull
        → RefusesEither (headers_of stored.now) (headers_of headers.old) }
    ensures known { IfErr result (λ e.
        (e ≡ CacheError.HeaderMapFull) ⊎ (e ≡ CacheError.Memory)) }
{
    set_if_some(headers, IF_NONE_MATCH, first_value(stored, ETAG))?;
    set_if_some(
        headers,
        IF_MODIFIED_SINCE,
        first_value(stored, LAST_MODIFIED),
    )?;
    Ok(())
}

// Returns the forwarded fields without the removed ones.
fn stripped(headers: &HeaderMap) -> Result<HeaderMap, AllocError>
    ensures { IfOk result (λ out. headers_of out
        ≡ without_named removed_fields (forwarded_headers (headers_of headers.now))) }
{
    let mut out = forwarded_headers(headers)?;
    remove_all(&mut out, &REMOVED);
    Ok(out)
}

fn copy_of_target(target: &Uri) -> Result<Uri, AllocError>
    ensures { IfOk result (λ copy. copy ≡ target.now) }
{
    target.clone()
}

/// Returns the request that asks the origin server whether a stored response is still valid (RFC
/// 9111, section 4.3.1).
///
/// It is the client's own request without conditions, Range, fields of a body and
/// connection-specific fields. If-None-Match is the stored ETag, and If-Modified-Since the stored
/// Last-Modified.
///
/// # Errors
///
/// `HeaderMapFull` if there is no room for the validators, and `Memory` if there is not enough
/// memory.
#[tactic(auto, unfolding(crate::specs::Outgoing::validating, crate::specs::Outgoing::RefusesValidators))]
pub fn validation_request(
    alloc: Global,
    request: &Request<Bytes>,
    policy: &CachePolicy,
) -> Result<request::Parts, CacheError>
    ensures value { IfOk result (λ parts. headers_of parts.headers
        ≡ validating policy.now.response_headers (headers_of (head_of request.now).headers)) }
    ensures method { IfOk result (λ parts. parts.method ≡ (head_of request.now).method) }
    ensures target { IfOk result (λ parts. parts.uri ≡ (head_of request.now).uri) }
    ensures clean { IfOk result (λ parts.
        IsClean policy.now.response_headers (headers_of parts.headers)) }
    ensures full { IsErrOf result CacheError.HeaderMapFull → RefusesValidators
        policy.now.response_headers (headers_of (head_of request.now).headers) }
    ensures known { IfErr result (λ e.
        (e ≡ CacheError.HeaderMapFull) ⊎ (e ≡ CacheError.Memory)) }
{
    let mut headers = stripped(request.headers())?;
    add_validators(&mut headers, policy.stored_headers())?;
    Ok(request::Parts {
        method: request.method().clone()?,
        uri: copy_of_target(request.uri())?,
        version: Version::HTTP_11,
        headers,
    })
}

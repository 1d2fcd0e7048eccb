//! The head of a request as it is forwarded.
ghost use Rattle.std.specs.Prelude.{◌≡◌, [], codes, unwrap_or, IfOk, OnOk};
ghost use Rattle.http.specs.Request.{head_of};
ghost use Rattle.http_cache_fields.specs.Headers.{headers_of, first};
ghost use Rattle.http_cache_intermediary.specs.Field.{HasLines};
ghost use Rattle.http_cache_intermediary.specs.Request.{host_of, forwards_lines, IsOriginForm, IsForwarded};

use crate::field::{clear, set};
use crate::intermediary::Intermediary;
use crate::length::{Content, set_request_length};
use crate::refusal::{counts_forwards, forwards_left};
use bytes::Bytes;
use http::header::{EXPECT, HOST, MAX_FORWARDS};
use http::{HeaderMap, HeaderValue, Request, Uri, Version, request};
use http_cache_fields::CacheError;
use http_cache_rules::forwarding::forwarded_headers;
use http_header::HeaderValueError;
use http_uri::{Parts, PathAndQuery};
use std::alloc::{AllocError, Global};

fn slash() -> Result<PathAndQuery, CacheError>
    ensures { IfOk result (λ path. path ≡ codes "/") }
{
    PathAndQuery::from_static("/").map_err(|_| CacheError::Malformed)
}

// Returns the target for the origin server: without scheme and host.
fn origin_form(target: &Uri) -> Result<Uri, CacheError>
    ensures { IfOk result (IsOriginForm target.now) }
{
    let path = match target.path_and_query() {
        Some(path) if path.as_str() != "/" => path.clone()?,
        _ => slash()?,
    };
    let parts = Parts {
        scheme: None,
        authority: None,
        path_and_query: Some(path),
    };
    match Uri::from_parts(parts) {
        Ok(uri) => Ok(uri),
        Err(_) => Err(CacheError::Malformed),
    }
}

fn received_host(headers: &HeaderMap) -> Result<HeaderValue, AllocError>
    ensures { IfOk result (λ host. host.bytes
        ≡ unwrap_or (first (headers_of headers.now) (codes "host")) []) }
{
    match headers.get(HOST) {
        Some(host) => host.clone(),
        None => Ok(HeaderValue::from_static("")),
    }
}

// Returns the Host to send: the host of the target if it has one, else the received Host.
fn host_of(alloc: Global, request: &Request<Bytes>) -> Result<HeaderValue, CacheError>
    ensures { IfOk result (λ host. host.bytes ≡ host_of request.now) }
{
    let Some(authority) = request.uri().authority() else {
        return Ok(received_host(request.headers())?);
    };
    match HeaderValue::from_str(alloc, authority.as_str()) {
        Ok(host) => Ok(host),
        Err(HeaderValueError::OutOfMemory) => Err(CacheError::Memory),
        Err(HeaderValueError::Invalid) => Err(CacheError::Malformed),
    }
}

// Lowers Max-Forwards by one if the method makes it count (RFC 9110, section 7.6.2).
fn count_forwards(
    alloc: Global,
    headers: &mut HeaderMap,
    request: &Request<Bytes>,
) -> Result<(), CacheError>
    ensures { OnOk result (HasLines (codes "max-forwards")
        (forwards_lines request.now (headers_of headers.old))
        (headers_of headers.old) (headers_of headers.new)) }
{
    if !counts_forwards(request.method()) {
        return Ok(());
    }
    match forwards_left(request.headers()) {
        Some(left) => set(
            headers,
            MAX_FORWARDS,
            HeaderValue::from_u64(alloc, left.saturating_sub(1))?,
        ),
        None => Ok(()),
    }
}

impl Intermediary {
    /// Returns the head of a request as it is forwarded (RFC 9110, section 7.6; RFC 9112, section
    /// 3.2).
    ///
    /// - Connection-specific fields and those that Connection names are removed, but Host, Via and
    ///   Max-Forwards stay. Expect is removed. The version is HTTP/1.1.
    /// - The target is the path and query of an absolute URI, and `/` if it has none.
    /// - Host is the target's host, if it has one. Via has the intermediary's member last, on one
    ///   line.
    /// - Content-Length is the body's own, even if the body was received in chunks.
    /// - Max-Forwards of OPTIONS and TRACE is lowered by one.
    ///
    /// # Errors
    ///
    /// `Memory` if there is not enough memory, `HeaderMapFull` if there is no room for these
    /// fields, and `Malformed` if the host of the target can't be a field value.
    pub fn forwarded(
        &self,
        alloc: Global,
        request: &Request<Bytes>,
        content: Content,
    ) -> Result<request::Parts, CacheError>
        ensures { IfOk result (IsForwarded self.now request.now content) }
    {
        let received = request.headers();
        let mut headers = forwarded_headers(received)?;
        set(&mut headers, HOST, host_of(alloc, request)?)?;
        clear(&mut headers, EXPECT);
        set_request_length(alloc, &mut headers, received, content)?;
        count_forwards(alloc, &mut headers, request)?;
        self.add_via(alloc, &mut headers, received, request.version())?;
        Ok(request::Parts {
            method: request.method().clone()?,
            uri: origin_form(request.uri())?,
            version: Version::HTTP_11,
            headers,
        })
    }
}

//! A request in the form in which it is compared with stored responses. Nothing here knows a store.
ghost use Rattle.std.specs.Prelude.{◌≡◌, ◌||◌, IfOk, codes, bytes_eq};
ghost use Rattle.http.specs.Request.{head_of};
ghost use Rattle.http_cache_fields.specs.Directives.{cache_control, has};
ghost use Rattle.http_cache_fields.specs.Headers.{headers_of};
ghost use Rattle.http_cache_decisions.specs.Asking.{is_get_or_head, is_looked_up, headers_seen};
ghost use Rattle.http_cache_decisions.specs.Asking.{asking_seen, incoming_seen, looked_up};
ghost use Rattle.http_cache_policy.specs.Lookup.{method_for};

use crate::memory::or_out_of_memory;
use bytes::Bytes;
use http::{HeaderMap, Method, Request, Uri};
use http_cache_fields::CacheError;
use http_cache_fields::reading::says;
use http_cache_policy::policy::RequestLike;
use http_cache_rules::joined::{has_single_lines, joined_headers};
use std::alloc::{AllocError, Global};

/// A client's request with joined field lines, so that all lines of a field count for Vary (RFC
/// 9111, section 4.1).
#[derive(Drop)]
pub struct Incoming<'a> {
    request: &'a Request<Bytes>,
    joined: Option<HeaderMap>,
}

/// A request with the method that counts: a HEAD counts as a GET for a response stored for GET.
#[derive(Clone, Copy)]
pub struct Asking<'a> {
    incoming: &'a Incoming<'a>,
    method: &'a Method,
}

fn is_get_or_head(method: &Method) -> bool
    ensures { result ≡ is_get_or_head method.now }
{
    *method == Method::GET || *method == Method::HEAD
}

/// Returns whether a request is looked up and its response may be stored. Only a GET or HEAD
/// without a body is (RFC 9111, sections 2 and 4).
pub fn is_looked_up(request: &Request<Bytes>) -> bool
    ensures { result ≡ is_looked_up request.now }
{
    is_get_or_head(request.method()) && request.body().is_empty()
}

impl<'a> Incoming<'a> {
    /// Returns the request with joined field lines.
    ///
    /// # Errors
    ///
    /// `AllocError` if there is not enough memory for the joined lines.
    pub fn new(alloc: Global, request: &'a Request<Bytes>) -> Result<Incoming<'a>, AllocError>
        ensures request { IfOk result (λ incoming. incoming.request.now ≡ request.now) }
        ensures looked_up { IfOk result (λ incoming. incoming_seen incoming
            ≡ looked_up request.now) }
    {
        let headers = request.headers();
        if has_single_lines(headers) {
            return Ok(Incoming {
                request,
                joined: None,
            });
        }
        let joined = joined_headers(alloc, headers)?;
        Ok(Incoming {
            request,
            joined: Some(joined),
        })
    }

    /// Returns the request as received.
    pub fn request(&self) -> &'a Request<Bytes>
        ensures { result.now ≡ self.now.request.now }
    {
        self.request
    }

    /// Returns the fields with joined lines.
    pub fn headers(&self) -> &HeaderMap
        ensures { headers_of result.now ≡ headers_seen self.now }
    {
        match &self.joined {
            Some(joined) => joined,
            None => self.request.headers(),
        }
    }

    /// Returns whether the method is HEAD.
    pub fn is_head(&self) -> bool
        ensures { result ≡ bytes_eq (head_of self.now.request.now).method (codes "HEAD") }
    {
        *self.request.method() == Method::HEAD
    }

    /// Returns whether the request says `only-if-cached` (RFC 9111, section 5.2.1.7).
    pub fn is_only_if_cached(&self) -> bool
        ensures { result ≡ has (cache_control (headers_of (head_of self.now.request.now).headers))
            (codes "only-if-cached") }
    {
        says(self.request.headers(), "only-if-cached")
    }

    /// Returns the request with its own method.
    pub fn as_received(&self) -> Asking<'_>
        ensures { asking_seen result.incoming.now result.method.now ≡ incoming_seen self.now }
    {
        self.by(self.request.method())
    }

    /// Returns the request as compared with a response that is stored for a method. A HEAD counts
    /// as a GET for what is stored for GET; any other request keeps its own method.
    pub fn asking<'b>(&'b self, stored: &'b Method) -> Asking<'b>
        ensures { asking_seen result.incoming.now result.method.now ≡ asking_seen self.now
            (method_for stored.now (head_of self.now.request.now).method) }
    {
        if self.is_head() && *stored == Method::GET {
            self.by(stored)
        } else {
            self.as_received()
        }
    }

    fn by<'b>(&'b self, method: &'b Method) -> Asking<'b>
        ensures { asking_seen result.incoming.now result.method.now
            ≡ asking_seen self.now method.now }
    {
        Asking {
            incoming: self,
            method,
        }
    }
}

impl RequestLike for Asking<'_> {
    ghost use Rattle.http_cache_decisions.specs.Asking.{asking_seen};

    ghost seen = { λ a. asking_seen a.incoming.now a.method.now };

    fn uri(&self, _alloc: Global) -> Result<Uri, CacheError> {
        self.incoming
            .request
            .uri()
            .clone()
            .map_err(|_| CacheError::Memory)
    }

    fn is_same_uri(&self, other: &Uri) -> bool {
        self.incoming.request.uri() == other
    }

    fn method(&self) -> &Method {
        self.method
    }

    fn headers(&self) -> &HeaderMap {
        self.incoming.headers()
    }
}

//! What a cache reads of requests and responses.
ghost use Rattle.std.specs.Prelude.{◌≡◌, IfOk, IsOkUnless};
ghost use Rattle.http_cache_fields.specs.Headers.{headers_of};
ghost use Rattle.http_cache_rules.specs.Messages.{RequestSeen, ResponseSeen, request_seen, response_seen};

use http::{HeaderMap, Method, Request, Response, StatusCode, Uri, request, response};
use http_cache_fields::CacheError;
use std::alloc::Global;

/// A request, as a cache reads it. Each function returns one value, on every call.
pub trait RequestLike {
    ghost seen: { Self → RequestSeen };

    /// Returns a copy of the target URI. The only error is `Memory`.
    fn uri(&self, alloc: Global) -> Result<Uri, CacheError>
        ensures value { IfOk result (λ target. target ≡ (seen self.now).target) }
        ensures only_memory { IsOkUnless result CacheError.Memory };

    /// Returns whether the target equals another, as this kind of request compares them. It needn't
    /// agree with `uri`.
    fn is_same_uri(&self, other: &Uri) -> bool
        ensures { result ≡ (seen self.now).is_same_target other.now };

    /// Returns the method.
    fn method(&self) -> &Method
        ensures { result.now ≡ (seen self.now).method };

    /// Returns the headers.
    fn headers(&self) -> &HeaderMap
        ensures { headers_of result.now ≡ (seen self.now).headers };
}

/// A response, as a cache reads it. Each function returns one value, on every call.
pub trait ResponseLike {
    ghost seen: { Self → ResponseSeen };

    /// Returns the status.
    fn status(&self) -> StatusCode
        ensures { result ≡ (seen self.now).status };

    /// Returns the headers.
    fn headers(&self) -> &HeaderMap
        ensures { headers_of result.now ≡ (seen self.now).headers };
}

impl<Body> RequestLike for Request<Body> {
    ghost use Rattle.http.specs.Request.{head_of};

    ghost seen = { λ r. request_seen (head_of r) };

    fn uri(&self, _alloc: Global) -> Result<Uri, CacheError> {
        self.uri().clone().map_err(|_| CacheError::Memory)
    }

    fn is_same_uri(&self, other: &Uri) -> bool {
        self.uri() == other
    }

    fn method(&self) -> &Method {
        self.method()
    }

    fn headers(&self) -> &HeaderMap {
        self.headers()
    }
}

impl RequestLike for request::Parts {
    ghost seen = { request_seen };

    fn uri(&self, _alloc: Global) -> Result<Uri, CacheError> {
        self.uri.clone().map_err(|_| CacheError::Memory)
    }

    fn is_same_uri(&self, other: &Uri) -> bool {
        self.uri == *other
    }

    fn method(&self) -> &Method {
        &self.method
    }

    fn headers(&self) -> &HeaderMap {
        &self.headers
    }
}

impl<Body> ResponseLike for Response<Body> {
    ghost use Rattle.http.specs.Response.{head_of};

    ghost seen = { λ r. response_seen (head_of r) };

    fn status(&self) -> StatusCode {
        self.status()
    }

    fn headers(&self) -> &HeaderMap {
        self.headers()
    }
}

impl ResponseLike for response::Parts {
    ghost seen = { response_seen };

    fn status(&self) -> StatusCode {
        self.status
    }

    fn headers(&self) -> &HeaderMap {
        &self.headers
    }
}

//! Looks a request up: whether a stored response is for it (RFC 9111, sections 4 and 4.1).
ghost use Rattle.std.specs.Prelude.{◌≡◌, true, false, codes, IfOk, IsOkUnless};
ghost use Rattle.http_cache_fields.specs.Directives.{has};
ghost use Rattle.http_cache_fields.specs.Headers.{headers_of};
ghost use Rattle.http_cache_rules.specs.Storability.{is_storable};
ghost use Rattle.http_cache_policy.specs.Exchange.{stored_directives};
ghost use Rattle.http_cache_policy.specs.StaleUse.{forbids_stale};
ghost use Rattle.http_cache_policy.specs.Age.{is_stale_at};
ghost use Rattle.http_cache_policy.specs.Lookup.{method_for};

use crate::policy::{CachePolicy, RequestLike};
use http::{HeaderMap, Method, Uri};
use http_cache_fields::CacheError;
use http_cache_rules::joined::{has_single_lines, joined_headers};
use jiff::Timestamp;
use std::alloc::Global;

/// A request whose field lines are joined, so that all lines of a field count for Vary (RFC 9111,
/// section 4.1).
#[derive(Drop)]
pub struct JoinedRequest<'a, Req> {
    request: &'a Req,
    joined: Option<HeaderMap>,
}

impl<'a, Req: RequestLike> JoinedRequest<'a, Req> {
    ghost use Rattle.http_cache_policy.specs.Lookup.{joined_request_seen, joined_request};

    /// Returns the request with joined field lines. A request with one line for each name isn't
    /// copied.
    ///
    /// The only error is `Memory`.
    pub fn new(alloc: Global, request: &'a Req) -> Result<JoinedRequest<'a, Req>, CacheError>
        ensures value { IfOk result (λ found. joined_request_seen Req.seen found
            ≡ joined_request (Req.seen request.now)) }
        ensures only_memory { IsOkUnless result CacheError.Memory }
    {
        let headers = request.headers();
        if has_single_lines(headers) {
            return Ok(JoinedRequest {
                request,
                joined: None,
            });
        }
        let joined = joined_headers(alloc, headers)?;
        Ok(JoinedRequest {
            request,
            joined: Some(joined),
        })
    }
}

impl<Req: RequestLike> RequestLike for JoinedRequest<'_, Req> {
    ghost use Rattle.http_cache_policy.specs.Lookup.{joined_request_seen};

    ghost seen = { joined_request_seen Req.seen };

    fn uri(&self, alloc: Global) -> Result<Uri, CacheError> {
        self.request.uri(alloc)
    }

    fn is_same_uri(&self, other: &Uri) -> bool {
        self.request.is_same_uri(other)
    }

    fn method(&self) -> &Method {
        self.request.method()
    }

    fn headers(&self) -> &HeaderMap {
        match &self.joined {
            Some(joined) => joined,
            None => self.request.headers(),
        }
    }
}

// A request with another method.
#[derive(Drop)]
struct WithMethod<'a, Req> {
    request: &'a Req,
    method: &'a Method,
}

impl<Req: RequestLike> RequestLike for WithMethod<'_, Req> {
    ghost seen = { λ r. record (Req.seen r.request.now) { method = r.method.now } };

    fn uri(&self, alloc: Global) -> Result<Uri, CacheError> {
        self.request.uri(alloc)
    }

    fn is_same_uri(&self, other: &Uri) -> bool {
        self.request.is_same_uri(other)
    }

    fn method(&self) -> &Method {
        self.method
    }

    fn headers(&self) -> &HeaderMap {
        self.request.headers()
    }
}

// A HEAD counts as a GET for what is stored for GET (RFC 9110, section 9.3.2).
fn method_for<'a>(stored: &'a Method, asked: &'a Method) -> &'a Method
    ensures { result.now ≡ method_for stored.now asked.now }
{
    if *asked == Method::HEAD && *stored == Method::GET {
        stored
    } else {
        asked
    }
}

impl CachePolicy {
    ghost use Rattle.http_cache_policy.specs.Lookup.{answers_once_validated, may_be_used};

    /// Returns whether the stored response answers a request once it is validated (RFC 9111,
    /// section 4).
    ///
    /// It is `matches_request`, except that a HEAD is answered by what is stored for GET. Nothing
    /// is allocated. `JoinedRequest` joins the field lines of a request.
    #[tactic(auto, unfolding(crate::specs::Lookup::answers_once_validated))]
    pub fn answers_once_validated<Req: RequestLike>(&self, req: &Req) -> bool
        ensures { result ≡ answers_once_validated self.now (Req.seen req.now) }
    {
        self.matches_request(&WithMethod {
            request: req,
            method: method_for(self.stored_method(), req.method()),
        })
    }

    /// Returns whether the stored response may be used for a request at `now` without validation
    /// (RFC 9111, sections 4 and 4.2.4).
    ///
    /// It is `fresh_at`, except that a HEAD is answered by what is stored for GET, and that a stale
    /// response isn't used if `forbids_stale`, whatever `max-stale` says. Nothing is allocated.
    /// `JoinedRequest` joins the field lines of a request.
    #[tactic(auto, unfolding(crate::specs::Lookup::may_be_used, crate::specs::Lookup::answers_once_validated))]
    pub fn may_be_used<Req: RequestLike>(&self, req: &Req, now: Timestamp) -> bool
        ensures value { result ≡ may_be_used self.now (Req.seen req.now) now.nanosecond }
        ensures answers { result ≡ true
            → answers_once_validated self.now (Req.seen req.now) ≡ true }
        ensures storable { result ≡ true → (is_storable self.now ≡ true)
            × (has (stored_directives self.now) (codes "no-cache") ≡ false) }
        ensures allowed { result ≡ true → is_stale_at self.now now.nanosecond ≡ true
            → forbids_stale self.now ≡ false }
    {
        let asked = WithMethod {
            request: req,
            method: method_for(self.stored_method(), req.method()),
        };
        self.fresh_at(&asked, now) && !(self.is_stale(now) && self.forbids_stale())
    }
}

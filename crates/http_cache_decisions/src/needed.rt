//! The fields of a request that are stored with its response: those that decide about the stored
//! response, and no others.
ghost use Rattle.std.specs.Prelude.{◌≡◌, IfOk, bytes_eq, codes};
ghost use Rattle.http_cache_fields.specs.Headers.{headers_of, ChangesUnder};
ghost use Rattle.http_cache_decisions.specs.Needed.{is_same_name, is_named_by_vary, is_read_by_rules, is_needed};
ghost use Rattle.http_cache_decisions.specs.Needed.{needed_under, needed_fields};

use http::header::{AUTHORIZATION, CACHE_CONTROL, HOST, PRAGMA, VARY};
use http::{HeaderMap, HeaderName, HeaderValue, Method, Uri};
use http_cache_fields::CacheError;
use http_cache_fields::headers::{contains_key, copy_of_map, remove, replace, reveal_header_map};
use http_cache_fields::pieces::pieces_under;
use http_cache_policy::policy::RequestLike;
use std::alloc::{AllocError, Global};

/// A request with the fields that are stored with its response.
///
/// They are Host, Cache-Control, Pragma, and what Vary names. That there is an Authorization counts
/// too (RFC 9111, section 3.5), but not its value.
#[derive(Drop)]
pub struct NeededRequest<'a, Req> {
    request: &'a Req,
    headers: HeaderMap,
}

pub(crate) fn is_same_name(text: &str, name: &str) -> bool
    ensures { result ≡ is_same_name text.now name.now }
{
    text.eq_ignore_ascii_case(name)
}

fn is_named_by_vary(response: &HeaderMap, name: &HeaderName) -> bool
    ensures { result ≡ is_named_by_vary (headers_of response.now) name.now }
{
    let name = name.as_str();
    pieces_under(response, VARY).any(|piece| is_same_name(piece, name))
}

fn is_read_by_rules(name: &HeaderName) -> bool
    ensures { result ≡ is_read_by_rules name.now }
{
    *name == HOST || *name == CACHE_CONTROL || *name == PRAGMA
}

#[tactic(auto, unfolding(crate::specs::Needed::is_needed))]
fn is_needed(response: &HeaderMap, name: &HeaderName) -> bool
    ensures { result ≡ is_needed (headers_of response.now) name.now }
{
    is_read_by_rules(name) || is_named_by_vary(response, name)
}

fn is_authorization(name: &HeaderName) -> bool
    ensures { result ≡ bytes_eq name.now (codes "authorization") }
{
    *name == AUTHORIZATION
}

// Removes the values of a field that isn't needed.
fn retain_needed(map: &mut HeaderMap, name: &HeaderName, response: &HeaderMap)
    ensures { ChangesUnder name.now (needed_under (headers_of response.now) name.now)
        (headers_of map.old) (headers_of map.new) }
{
    if is_needed(response, name) {
        return;
    }
    reveal_header_map(map);
    if is_authorization(name) && contains_key(map, name) {
        replace(map, name, HeaderValue::from_static(""));
        return;
    }
    remove(map, name);
}

// Returns the fields of a request that are stored with a response.
fn needed_fields(request: &HeaderMap, response: &HeaderMap) -> Result<HeaderMap, AllocError>
    ensures { IfOk result (λ needed. headers_of needed
        ≡ needed_fields (headers_of request.now) (headers_of response.now)) }
{
    reveal_header_map(request);
    let mut needed = copy_of_map(request)?;
    for name in request.keys() {
        retain_needed(&mut needed, name, response);
    }
    Ok(needed)
}

impl<'a, Req: RequestLike> NeededRequest<'a, Req> {
    ghost use Rattle.http_cache_decisions.specs.Needed.{needed_request_seen, needed_request, MakesSamePolicies};

    /// Returns a request with the fields that are stored with a response that has these headers.
    ///
    /// No decision about the stored response depends on the other fields: its policy, made of this
    /// request, decides as one that is made of the whole request.
    ///
    /// # Errors
    ///
    /// `AllocError` if there is not enough memory.
    pub fn new(request: &'a Req, response: &HeaderMap) -> Result<NeededRequest<'a, Req>, AllocError>
        ensures value { IfOk result (λ needed. needed_request_seen Req.seen needed
            ≡ needed_request (Req.seen request.now) (headers_of response.now)) }
        ensures decides { IfOk result (λ needed. MakesSamePolicies
            (needed_request_seen Req.seen needed) (Req.seen request.now)
            (headers_of response.now)) }
    {
        let received = request.headers();
        reveal_header_map(received);
        let headers = needed_fields(received, response)?;
        Ok(NeededRequest { request, headers })
    }
}

impl<Req: RequestLike> RequestLike for NeededRequest<'_, Req> {
    ghost use Rattle.http_cache_decisions.specs.Needed.{needed_request_seen};

    ghost seen = { needed_request_seen Req.seen };

    fn uri(&self, alloc: Global) -> Result<Uri, CacheError> {
        self.request.uri(alloc)
    }

    fn is_same_uri(&self, other: &Uri) -> bool {
        self.request.is_same_uri(other)
    }

    fn method(&self) -> &Method {
        self.request.method()
    }

    fn headers(&self) -> &HeaderMap {
        &self.headers
    }
}

//! Decides which requests an intermediary answers itself.
ghost use Rattle.std.specs.Prelude.{◌≡◌, ◌&&◌, ◌==◌, length, bytes_eq, codes};
ghost use Rattle.http.specs.Request.{head_of};
ghost use Rattle.http_cache_fields.specs.Headers.{headers_of, values};
ghost use Rattle.http_cache_intermediary.specs.Refusal.{status_of, detail_of, has_userinfo, has_wrong_host, has_wrong_length};
ghost use Rattle.http_cache_intermediary.specs.Refusal.{is_target, is_named_wrong};
ghost use Rattle.http_cache_intermediary.specs.Refusal.{forwards_left, counts_forwards, is_last_hop, refusal_of};

use crate::host::is_host;
use crate::intermediary::Intermediary;
use crate::length::{SaidLength, said_length};
use bytes::Bytes;
use http::header::{HOST, MAX_FORWARDS, TRANSFER_ENCODING};
use http::{HeaderMap, Method, Request, StatusCode, Uri, Version};
use http_cache_fields::headers::{contains_key, first_text};
use http_cache_fields::text::number;

/// The reason why an intermediary answers a request itself and doesn't forward it.
#[derive(Clone, Copy, Debug, PartialEq, Eq)]
pub enum Refusal {
    /// The method is CONNECT: 501 (RFC 9110, section 9.3.6).
    Connect,
    /// The target has a fragment: 400 (RFC 9112, section 3.2).
    Fragment,
    /// The target has a user or a password: 400 (RFC 9110, section 4.2.4).
    Userinfo,
    /// The target is neither a path nor an absolute URI of http or https, nor `*` of OPTIONS: 400
    /// (RFC 9112, section 3.2).
    Target,
    /// There are several Host fields, or none in HTTP/1.1, or Host or the host of the target isn't
    /// a host with or without a port: 400 (RFC 9112, section 3.2).
    Host,
    /// Content-Length isn't one number, or is combined with Transfer-Encoding: 400 (RFC 9112,
    /// section 6.3).
    Length,
    /// Via has the intermediary's own name: 508 (RFC 9110, section 7.6.3).
    Loop,
    /// Max-Forwards of OPTIONS or TRACE is 0: 200, without a body (RFC 9110, section 7.6.2).
    LastHop,
}

impl Refusal {
    /// Returns the status of the answer.
    pub fn status(self) -> StatusCode
        ensures { result ≡ status_of self }
    {
        match self {
            Refusal::Connect => StatusCode::NOT_IMPLEMENTED,
            Refusal::Fragment
            | Refusal::Userinfo
            | Refusal::Target
            | Refusal::Host
            | Refusal::Length => StatusCode::BAD_REQUEST,
            Refusal::Loop => StatusCode::LOOP_DETECTED,
            Refusal::LastHop => StatusCode::OK,
        }
    }

    /// Returns the detail of Cache-Status in the answer (RFC 9211, section 2.8).
    pub fn detail(self) -> &'static str
        ensures { result.now ≡ detail_of self }
    {
        match self {
            Refusal::Connect => "connect",
            Refusal::Fragment => "fragment",
            Refusal::Userinfo => "userinfo",
            Refusal::Target => "target",
            Refusal::Host => "host",
            Refusal::Length => "length",
            Refusal::Loop => "loop",
            Refusal::LastHop => "max-forwards",
        }
    }
}

fn has_userinfo(target: &Uri) -> bool
    ensures { result ≡ has_userinfo target.now }
{
    match target.authority() {
        Some(authority) => authority.as_str().as_bytes().contains(&b'@'),
        None => false,
    }
}

// Returns whether a target is in one of the forms of its method (RFC 9112, section 3.2).
fn is_target(method: &Method, target: &Uri) -> bool
    ensures { result ≡ is_target method.now target.now }
{
    match target.scheme_str() {
        Some(scheme) => {
            scheme.eq_ignore_ascii_case("http") || scheme.eq_ignore_ascii_case("https")
        }
        None if target.authority().is_some() => false,
        None => target.path() != "*" || *method == Method::OPTIONS,
    }
}

fn host_count(headers: &HeaderMap) -> usize
    ensures { result ≡ length (values (headers_of headers.now) (codes "host")) }
{
    headers.get_all(HOST).iter().count()
}

fn has_wrong_host(headers: &HeaderMap, version: Version) -> bool
    ensures { result ≡ has_wrong_host version (headers_of headers.now) }
{
    match host_count(headers) {
        0 => version == Version::HTTP_11,
        1 => match first_text(headers, HOST) {
            Some(host) => !is_host(host),
            None => true,
        },
        _ => true,
    }
}

// Returns whether the target has a host that isn't one.
fn is_named_wrong(target: &Uri) -> bool
    ensures { result ≡ is_named_wrong target.now }
{
    match target.authority() {
        Some(authority) => !is_host(authority.as_str()),
        None => false,
    }
}

fn has_wrong_length(headers: &HeaderMap) -> bool
    ensures { result ≡ has_wrong_length (headers_of headers.now) }
{
    match said_length(headers) {
        SaidLength::Absent => false,
        SaidLength::One(_) => contains_key(headers, TRANSFER_ENCODING),
        SaidLength::Unclear => true,
    }
}

// Reads the number in Max-Forwards.
pub(crate) fn forwards_left(headers: &HeaderMap) -> Option<u64>
    ensures { result ≡ forwards_left (headers_of headers.now) }
{
    number(first_text(headers, MAX_FORWARDS)?)
}

pub(crate) fn counts_forwards(method: &Method) -> bool
    ensures { result ≡ counts_forwards method.now }
{
    *method == Method::OPTIONS || *method == Method::TRACE
}

// Returns whether Max-Forwards forbids to forward the request (RFC 9110, section 7.6.2).
fn is_last_hop(request: &Request<Bytes>) -> bool
    ensures { result ≡ is_last_hop (head_of request.now).method (headers_of (head_of request.now).headers) }
{
    counts_forwards(request.method()) && forwards_left(request.headers()) == Some(0)
}

impl Intermediary {
    /// Returns why the intermediary answers a request itself, or `None` if it forwards it.
    ///
    /// `has_fragment` says whether the target had a fragment, which a `Uri` doesn't keep.
    pub fn refusal(&self, request: &Request<Bytes>, has_fragment: bool) -> Option<Refusal>
        ensures { result ≡ refusal_of self.now request.now has_fragment }
    {
        let headers = request.headers();
        if *request.method() == Method::CONNECT {
            return Some(Refusal::Connect);
        }
        if has_fragment {
            return Some(Refusal::Fragment);
        }
        if has_userinfo(request.uri()) {
            return Some(Refusal::Userinfo);
        }
        if !is_target(request.method(), request.uri()) {
            return Some(Refusal::Target);
        }
        if has_wrong_host(headers, request.version()) || is_named_wrong(request.uri()) {
            return Some(Refusal::Host);
        }
        if has_wrong_length(headers) {
            return Some(Refusal::Length);
        }
        if self.has_passed(headers) {
            return Some(Refusal::Loop);
        }
        is_last_hop(request).then_some(Refusal::LastHop)
    }
}

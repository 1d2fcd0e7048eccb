//! Writes messages for replies.
ghost use Rattle.std.specs.Prelude.{◌≡◌, Some, None, true};
ghost use Rattle.http_cache_wire.specs.Wire.{IsPlain, IsReplyFor, asks_for_body, given_token};
ghost use Rattle.http_cache_wire.specs.Wire.{later_check, waits_for};

use bytes::Bytes;
use http::{Method, Request, Response, StatusCode, request, response};
use http_cache_decisions::Body;
use http_cache_fields::CacheError;
use http_cache_frames::{Notice, Reply};
use http_cache_intermediary::length::has_content;
use http_cache_intermediary::{Content, Intermediary};
use http_heads::{bytes_of_request, bytes_of_response};
use jiff::Timestamp;
use std::alloc::{AllocError, Global};

/// A written message: its head, and its body unless the caller has it.
#[derive(Drop)]
pub struct Written {
    pub head: Vec<u8>,
    pub body: Option<Bytes>,
}

impl Written {
    /// Returns the reply that answers a request.
    pub fn answer(self, id: u64) -> Reply
        ensures none { given_token result ≡ None }
        ensures reply { IsReplyFor id result }
        ensures plain { IsPlain result }
    {
        let Written { head, body } = self;
        Reply::Answer { id, head, body }
    }

    /// Returns the reply that answers a request, while the caller collects the body.
    pub fn collect(self, id: u64, token: u64, most: u64) -> Reply
        ensures none { given_token result ≡ None }
        ensures reply { asks_for_body result ≡ true }
    {
        let Written { head, body } = self;
        Reply::Collect {
            id,
            token,
            most,
            head,
            body,
        }
    }

    /// Returns the reply that answers with a stale response, and asks for its validation.
    pub fn stale(self, id: u64, token: u64, check: Written) -> Reply
        ensures given { given_token result ≡ Some token }
        ensures reply { IsReplyFor id result }
        ensures no_wait { waits_for result ≡ None }
        ensures later { later_check result ≡ Some token }
    {
        let Written { head, body } = self;
        Reply::Stale {
            id,
            token,
            head,
            body: body.unwrap_or(Bytes::new()),
            request: check.head,
        }
    }

    /// Returns the reply that asks the caller to send a request.
    pub fn send(self, id: u64, token: u64) -> Reply
        ensures given { given_token result ≡ Some token }
        ensures reply { IsReplyFor id result }
        ensures plain { IsPlain result }
    {
        let Written { head, body } = self;
        Reply::Send {
            id,
            token,
            head,
            body,
        }
    }
}

fn content_of(body: Body) -> (Option<Bytes>, Content) {
    match body {
        Body::Here(bytes) => {
            let content = Content::Known(bytes.len() as u64);
            (Some(bytes), content)
        }
        Body::Elsewhere(Some(length)) => (None, Content::Known(length)),
        Body::Elsewhere(None) => (None, Content::Unknown),
    }
}

/// Writes a response to a request with the method, as the intermediary sends it if there is one. The
/// intermediary sends no body where a response has none, such as a 205.
pub fn written_response(
    alloc: Global,
    intermediary: Option<&Intermediary>,
    method: &Method,
    response: Response<Body>,
) -> Result<Written, CacheError> {
    let (head, body) = response.into_parts();
    let (body, content) = content_of(body);
    let Some(intermediary) = intermediary else {
        let head = bytes_of_response(alloc, &head)?;
        return Ok(Written { head, body });
    };
    let sent = intermediary.sent(alloc, method, &head, content)?;
    let body = if has_content(method, head.status) {
        body
    } else {
        Some(Bytes::new())
    };
    let head = bytes_of_response(alloc, &sent)?;
    Ok(Written { head, body })
}

/// Writes a response of the intermediary's own.
pub fn written_own(
    alloc: Global,
    intermediary: &Intermediary,
    method: &Method,
    status: StatusCode,
    detail: &str,
    time: Timestamp,
) -> Result<Written, CacheError> {
    let head: response::Parts = intermediary.generated(alloc, status, detail, Some(time))?;
    let sent = intermediary.sent(alloc, method, &head, Content::Known(0))?;
    Ok(Written {
        head: bytes_of_response(alloc, &sent)?,
        body: Some(Bytes::new()),
    })
}

/// Writes a request. Without a body, the caller has it.
pub fn written_request(
    alloc: Global,
    parts: &request::Parts,
    body: Option<Bytes>,
) -> Result<Written, AllocError> {
    Ok(Written {
        head: bytes_of_request(alloc, parts)?,
        body,
    })
}

/// Writes a validation request.
pub fn written_check(alloc: Global, parts: request::Parts) -> Result<Written, AllocError> {
    written_request(alloc, &parts, Some(Bytes::new()))
}

/// Writes the client's own request, and returns the request too.
pub fn written_own_request(
    alloc: Global,
    request: Request<Bytes>,
    is_body_with_caller: bool,
) -> Result<(Written, Request<Bytes>), AllocError> {
    let (parts, body) = request.into_parts();
    let sent = if is_body_with_caller {
        None
    } else {
        Some(body.clone()?)
    };
    let written = written_request(alloc, &parts, sent)?;
    Ok((written, Request::from_parts(parts, body)))
}

/// Returns a response whose body is here.
pub fn with_body(response: Response<Bytes>) -> Response<Body> {
    let (head, body) = response.into_parts();
    Response::from_parts(head, Body::Here(body))
}

/// Returns the reply to a request that is over without an answer.
pub fn done(id: u64) -> Reply
    ensures none { given_token result ≡ None }
    ensures reply { IsReplyFor id result }
{
    Reply::Notice(Notice::Done { id })
}

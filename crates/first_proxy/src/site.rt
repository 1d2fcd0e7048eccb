//! The site that the proxy serves.
use crate::clock::StepClock;
use bytes::Bytes;
use http::header::{ETAG, HeaderName, HeaderValue, IF_NONE_MATCH};
use http::{HeaderMap, Method, Request, Response, StatusCode, Version, response};
use http_cache_client::Origin;
use jiff::Timestamp;
use std::alloc::{AllocError, Global};

/// The reason why the site has no response.
#[derive(Clone, Copy, Debug, PartialEq, Eq)]
pub enum NoPage {
    /// There is no page for the target.
    Unknown,
    /// There is not enough memory.
    Memory,
    /// The clock can't be read.
    Clock,
}

impl From<AllocError> for NoPage {
    fn from(_e: AllocError) -> NoPage {
        NoPage::Memory
    }
}

/// A site with three pages, of which one is cut off. It counts the requests.
#[derive(Drop)]
pub struct Site<'a> {
    alloc: Global,
    clock: &'a StepClock,
    asked: u64,
}

// Returns the header fields of a page, one in each line.
fn lines_of(target: &str) -> Option<&'static str> {
    match target {
        "/news" => Some("Cache-Control: max-age=10\nETag: \"1\"\nVary: Accept"),
        "/account" => Some(
            "Cache-Control: no-store\nSet-Cookie: a=1\nSet-Cookie: b=2\n\
             Date: Mon, 01 Jan 2024 00:00:00 GMT\nConnection: X-Hop\nX-Hop: 1\nKeep-Alive: timeout=5",
        ),
        // This response looks as if the connection had ended within the body.
        "/cut" => Some("Cache-Control: max-age=10\nContent-Length: 99"),
        _ => None,
    }
}

// The lines are valid, so adding one fails only without memory.
fn is_added(alloc: Global, headers: &mut HeaderMap, line: &str) -> bool {
    let Some((name, value)) = line.split_once(": ") else {
        return false;
    };
    let Ok(name) = HeaderName::from_bytes(alloc, name.as_bytes()) else {
        return false;
    };
    let Ok(value) = HeaderValue::from_bytes(alloc, value.as_bytes()) else {
        return false;
    };
    headers.append(name, value).is_ok()
}

fn headers_of(alloc: Global, lines: &str) -> Result<HeaderMap, AllocError> {
    let mut headers = HeaderMap::new(alloc);
    for line in lines.lines() {
        if !is_added(alloc, &mut headers, line) {
            return Err(AllocError);
        }
    }
    Ok(headers)
}

// Returns whether the request has the ETag of the page.
fn is_known(request: &Request<Bytes>, headers: &HeaderMap) -> bool {
    let tag = headers.get(ETAG);
    tag.is_some() && request.headers().get(IF_NONE_MATCH) == tag
}

impl<'a> Site<'a> {
    /// Returns a site that has received no request.
    pub fn new(alloc: Global, clock: &'a StepClock) -> Site<'a> {
        Site {
            alloc,
            clock,
            asked: 0,
        }
    }

    fn text(&self, request: &Request<Bytes>) -> Result<Bytes, AllocError> {
        let target = request.uri().path();
        let count = self.asked;
        let text = format!(in self.alloc; "{target}, asked {count}\n")?;
        Bytes::copy_from_slice(self.alloc, text.as_bytes())
    }

    // Returns the page, or a 304 if the client has it.
    fn page(
        &self,
        request: &Request<Bytes>,
        headers: HeaderMap,
    ) -> Result<Response<Bytes>, AllocError> {
        let is_known = is_known(request, &headers);
        let body = if is_known || *request.method() == Method::HEAD {
            Bytes::new()
        } else {
            self.text(request)?
        };
        let parts = response::Parts {
            status: if is_known {
                StatusCode::NOT_MODIFIED
            } else {
                StatusCode::OK
            },
            version: Version::HTTP_11,
            headers,
        };
        Ok(Response::from_parts(parts, body))
    }
}

impl Origin for Site<'_> {
    type Error = NoPage;

    ghost use Rattle.std.specs.Prelude.{⊤};

    ghost sent = { λ before request response after. ⊤ };

    fn send(&mut self, request: &Request<Bytes>) -> Result<(Response<Bytes>, Timestamp), NoPage> {
        self.asked = self.asked.saturating_add(1);
        let lines = lines_of(request.uri().path()).ok_or(NoPage::Unknown)?;
        let page = self.page(request, headers_of(self.alloc, lines)?)?;
        match Timestamp::now(self.clock) {
            Ok(now) => Ok((page, now)),
            Err(_) => Err(NoPage::Clock),
        }
    }
}

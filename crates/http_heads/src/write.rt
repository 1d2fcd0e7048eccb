//! Writes heads. Names are in lower case, as a header map holds them, and a status has no reason
//! phrase.
ghost use Rattle.std.specs.Prelude.{◌≡◌, ◌++◌, IfOk, OnOk};
ghost use Rattle.http_heads.specs.Texts.{lines_of, line_of, request_text, response_text};

use http::{HeaderMap, HeaderName, HeaderValue, request, response};
use itoa::Buffer;
use std::alloc::{AllocError, Global};

// Most heads fit.
const USUAL_LENGTH: usize = 1024;

fn push_line(out: &mut Vec<u8>, name: &HeaderName, value: &HeaderValue) -> Result<(), AllocError>
    ensures { OnOk result (out.new.items ≡ out.old.items ++ line_of (name.now, value.now)) }
{
    out.extend_from_slice(name.as_str().as_bytes())?;
    out.extend_from_slice(b": ")?;
    out.extend_from_slice(value.as_bytes())?;
    out.extend_from_slice(b"\r\n")
}

fn push_lines(out: &mut Vec<u8>, headers: &HeaderMap) -> Result<(), AllocError>
    ensures { OnOk result (out.new.items ≡ out.old.items ++ lines_of headers.now) }
{
    for (name, value) in headers.iter() {
        push_line(out, name, value)?;
    }
    out.extend_from_slice(b"\r\n")
}

/// Returns the head of a response, without a reason phrase (RFC 9112, section 4).
#[tactic(auto, unfolding(crate::specs::Texts::response_text))]
pub fn bytes_of_response(alloc: Global, parts: &response::Parts) -> Result<Vec<u8>, AllocError>
    ensures text { IfOk result (λ bytes. bytes.items ≡ response_text parts.now) }
{
    let mut out = Vec::with_capacity(alloc, USUAL_LENGTH)?;
    let mut digits = Buffer::new();
    let status = digits.format(parts.status.as_u16());
    out.extend_from_slice(b"HTTP/1.1 ")?;
    out.extend_from_slice(status.as_bytes())?;
    out.extend_from_slice(b" \r\n")?;
    push_lines(&mut out, &parts.headers)?;
    Ok(out)
}

/// Returns the head of a request (RFC 9112, section 3).
#[tactic(auto, unfolding(crate::specs::Texts::request_text))]
pub fn bytes_of_request(alloc: Global, parts: &request::Parts) -> Result<Vec<u8>, AllocError>
    ensures text { IfOk result (λ bytes. bytes.items ≡ request_text parts.now) }
{
    let mut out = Vec::with_capacity(alloc, USUAL_LENGTH)?;
    let target = &parts.uri;
    let target = format!(in alloc; "{target}")?;
    out.extend_from_slice(parts.method.as_str().as_bytes())?;
    out.extend_from_slice(b" ")?;
    out.extend_from_slice(target.as_bytes())?;
    out.extend_from_slice(b" HTTP/1.1\r\n")?;
    push_lines(&mut out, &parts.headers)?;
    Ok(out)
}

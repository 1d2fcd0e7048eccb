//! Reads heads from bytes. The kit's parser finds the spans of a head, of which a message is made.
ghost use Rattle.std.specs.Prelude.{◌≡◌, ◌==◌, ℕ, IfOk, IsErrOf, length, count_by};
ghost use Rattle.httparse.specs.Spans.{IsRequestWithin, IsRequestOf, IsResponseWithin, IsResponseOf};
ghost use Rattle.http_heads.specs.Failure.{head_error};
ghost use Rattle.http_heads.specs.Heads.{IsRequest, IsNoRequest, OverfillsRequest, IsResponse, IsNoResponse, OverfillsResponse};

use crate::error::HeadError;
use bytes::Bytes;
use http::{request, response};
use http1_typed::{request_parts, response_parts};
use httparse::Status;
use httparse::spans::{
    EMPTY_HEADER_SPAN, HeaderSpan, RequestSpans, ResponseSpans, parse_request, parse_response,
};
use std::alloc::{AllocError, Global};
use std::hash::RandomState;

// Each field has a line.
fn room(alloc: Global, bytes: &[u8]) -> Result<Vec<HeaderSpan>, AllocError>
    ensures { IfOk result (λ fields. length fields.items ≡ count_by (λ b. b == 10) bytes.now) }
{
    let lines = bytes.iter().filter(|byte| **byte == b'\n').count();
    Vec::from_elem(alloc, EMPTY_HEADER_SPAN, lines)
}

fn error_of(e: http::Error) -> HeadError
    ensures { result ≡ head_error e }
{
    match e {
        http::Error::OutOfMemory => HeadError::Memory,
        http::Error::MaxSizeReached => HeadError::HeaderMapFull,
        _ => HeadError::Malformed,
    }
}

fn parts_of_request(
    alloc: Global,
    keys: RandomState,
    bytes: &[u8],
    head: &RequestSpans,
    fields: &[HeaderSpan],
) -> Result<request::Parts, HeadError>
    requires within { IsRequestWithin bytes.now fields.now head.now }
    requires complete { IsRequestOf bytes.now fields.now head.now }
    requires whole { head.now.len ≡ length bytes.now }
    ensures found { IfOk result (IsRequest bytes.now) }
    ensures malformed { IsErrOf result HeadError.Malformed → IsNoRequest bytes.now }
    ensures full { IsErrOf result HeadError.HeaderMapFull → OverfillsRequest bytes.now }
{
    let shared = Bytes::copy_from_slice(alloc, bytes)?;
    match request_parts(alloc, keys, &shared, head, fields) {
        Ok(parts) => Ok(parts),
        Err(e) => Err(error_of(e)),
    }
}

fn parts_of_response(
    alloc: Global,
    keys: RandomState,
    bytes: &[u8],
    head: &ResponseSpans,
    fields: &[HeaderSpan],
) -> Result<response::Parts, HeadError>
    requires within { IsResponseWithin bytes.now fields.now head.now }
    requires complete { IsResponseOf bytes.now fields.now head.now }
    requires whole { head.now.len ≡ length bytes.now }
    ensures found { IfOk result (IsResponse bytes.now) }
    ensures malformed { IsErrOf result HeadError.Malformed → IsNoResponse bytes.now }
    ensures full { IsErrOf result HeadError.HeaderMapFull → OverfillsResponse bytes.now }
{
    let shared = Bytes::copy_from_slice(alloc, bytes)?;
    match response_parts(alloc, keys, &shared, head, fields) {
        Ok(parts) => Ok(parts),
        Err(e) => Err(error_of(e)),
    }
}

/// Returns the parts of a request whose head is exactly the bytes (RFC 9112, section 3).
///
/// Another party chose the names, so the header map has secret keys against collisions.
///
/// # Errors
///
/// `Malformed` if the bytes aren't the head of a request, the target isn't a URI, or a name is
/// longer than 65,535 bytes; `HeaderMapFull` if a header map can't hold all fields; `Memory`.
#[tactic(auto, unfolding(crate::specs::Heads::IsNoRequest))]
pub fn request_from_bytes(
    alloc: Global,
    keys: RandomState,
    bytes: &[u8],
) -> Result<request::Parts, HeadError>
    ensures found { IfOk result (IsRequest bytes.now) }
    ensures malformed { IsErrOf result HeadError.Malformed → IsNoRequest bytes.now }
    ensures full { IsErrOf result HeadError.HeaderMapFull → OverfillsRequest bytes.now }
{
    let mut fields = room(alloc, bytes)?;
    match parse_request(bytes, &mut fields) {
        Ok(Status::Complete(head)) if head.len == bytes.len() => {
            parts_of_request(alloc, keys, bytes, &head, fields.as_slice())
        }
        Ok(Status::Complete(_)) => Err(HeadError::Malformed),
        Ok(Status::Partial) => Err(HeadError::Malformed),
        Err(_) => Err(HeadError::Malformed),
    }
}

/// Returns the parts of a response whose head is exactly the bytes (RFC 9112, section 4).
///
/// # Errors
///
/// `Malformed` if the bytes aren't the head of a response, the status is below 100, or a name is
/// longer than 65,535 bytes; `HeaderMapFull` if a header map can't hold all fields; `Memory`.
#[tactic(auto, unfolding(crate::specs::Heads::IsNoResponse))]
pub fn response_from_bytes(
    alloc: Global,
    keys: RandomState,
    bytes: &[u8],
) -> Result<response::Parts, HeadError>
    ensures found { IfOk result (IsResponse bytes.now) }
    ensures malformed { IsErrOf result HeadError.Malformed → IsNoResponse bytes.now }
    ensures full { IsErrOf result HeadError.HeaderMapFull → OverfillsResponse bytes.now }
{
    let mut fields = room(alloc, bytes)?;
    match parse_response(bytes, &mut fields) {
        Ok(Status::Complete(head)) if head.len == bytes.len() => {
            parts_of_response(alloc, keys, bytes, &head, fields.as_slice())
        }
        Ok(Status::Complete(_)) => Err(HeadError::Malformed),
        Ok(Status::Partial) => Err(HeadError::Malformed),
        Err(_) => Err(HeadError::Malformed),
    }
}

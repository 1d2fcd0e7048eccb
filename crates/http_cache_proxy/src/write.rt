//! Writes a response out.
ghost use Rattle.std.specs.Prelude.{◌≡◌, [], option_map, IfOk, OnOk};
ghost use Rattle.http_server.specs.Response.{IsBlank, fields_of, IsResponse};
ghost use Rattle.http.specs.Request.{head_of};
ghost use Rattle.http_cache_proxy.specs.Write.{written_fields, written_body, IsWritten, IsOwn, IsWrittenOwn};
ghost use Rattle.http_cache_proxy.specs.Write.{IsFailure, IsOutcome};

use crate::failure::Failure;
use bytes::Bytes;
use http::{HeaderMap, Method, Request, Response as Answer, StatusCode};
use http_cache_intermediary::length::has_content;
use http_cache_intermediary::response::trimmed;
use http_cache_intermediary::{Content, Intermediary};
use http_cache_semantics::CacheError;
use http_server::Response;
use jiff::Timestamp;
use std::alloc::{AllocError, Global};

// Adds the fields of a head, without blanks at the ends of their values.
fn add_fields(alloc: Global, response: &mut Response, headers: &HeaderMap) -> Result<(), AllocError>
    requires { fields_of response.old ≡ [] }
    ensures fields { OnOk result (fields_of response.new ≡ written_fields headers.now) }
    ensures status { response.new.status ≡ response.old.status }
    ensures body { response.new.body ≡ response.old.body }
{
    for (name, value) in headers.iter() {
        response.add_header(name.clone()?, trimmed(alloc, value)?)?;
    }
    Ok(())
}

// Adds the body, if a response to the method has one.
fn add_body(response: &mut Response, method: &Method, body: Bytes) -> Result<(), AllocError>
    requires { response.old.body.items ≡ [] }
    ensures body { OnOk result
        (response.new.body.items ≡ written_body method.now response.old.status body) }
    ensures status { response.new.status ≡ response.old.status }
    ensures fields { fields_of response.new ≡ fields_of response.old }
{
    if has_content(method, response.status) {
        response.body.push(body)?;
    }
    Ok(())
}

fn write(
    alloc: Global,
    intermediary: &Intermediary,
    response: &mut Response,
    method: &Method,
    answer: Answer<Bytes>,
) -> Result<(), CacheError>
    requires { IsBlank response.old }
    ensures { OnOk result (IsWritten intermediary.now method.now answer response.new) }
{
    let (head, body) = answer.into_parts();
    let content = Content::Known(body.len() as u64);
    let sent = intermediary.sent(alloc, method, &head, content)?;
    response.status = sent.status;
    add_fields(alloc, response, &sent.headers)?;
    add_body(response, method, body)?;
    Ok(())
}

// Returns an answer of the proxy's own.
fn own(
    alloc: Global,
    intermediary: &Intermediary,
    cause: Failure,
    time: Option<Timestamp>,
) -> Result<Answer<Bytes>, CacheError>
    ensures { IfOk result (IsOwn intermediary.now cause (option_map (λ t. t.nanosecond) time)) }
{
    let head = intermediary.generated(alloc, cause.status(), cause.detail(), time)?;
    Ok(Answer::from_parts(head, Bytes::new()))
}

// Writes an answer of the proxy's own, or returns an error if there is no memory for it.
fn write_whole(
    alloc: Global,
    intermediary: &Intermediary,
    response: &mut Response,
    method: &Method,
    cause: Failure,
    time: Option<Timestamp>,
) -> Result<(), CacheError>
    requires { IsBlank response.old }
    ensures { OnOk result (IsWrittenOwn intermediary.now method.now cause
        (option_map (λ t. t.nanosecond) time) response.new) }
{
    let answer = own(alloc, intermediary, cause, time)?;
    write(alloc, intermediary, response, method, answer)
}

// Writes an answer of the proxy's own, or only its status if there is no memory for more.
fn write_own(
    alloc: Global,
    intermediary: &Intermediary,
    response: &mut Response,
    method: &Method,
    cause: Failure,
    time: Option<Timestamp>,
)
    requires { IsBlank response.old }
    ensures { IsFailure intermediary.now method.now cause
        (option_map (λ t. t.nanosecond) time) response.new }
{
    if write_whole(alloc, intermediary, response, method, cause, time).is_err() {
        write_status(response, cause.status());
    }
}

fn write_status(response: &mut Response, status: StatusCode)
    ensures { IsResponse status [] [] response.new }
{
    response.clear();
    response.status = status;
}

/// Writes the answer to a request, or one of the proxy's own instead.
pub(crate) fn write_outcome(
    alloc: Global,
    intermediary: &Intermediary,
    response: &mut Response,
    request: &Request<Bytes>,
    outcome: Result<Answer<Bytes>, Failure>,
    time: Option<Timestamp>,
)
    requires { IsBlank response.old }
    ensures { IsOutcome intermediary.now (head_of request.now).method outcome
        (option_map (λ t. t.nanosecond) time) response.new }
{
    let method = request.method();
    match outcome {
        Ok(answer) => {
            if write(alloc, intermediary, response, method, answer).is_err() {
                write_status(response, Failure::Lost.status());
            }
        }
        Err(cause) => write_own(alloc, intermediary, response, method, cause, time),
    }
}

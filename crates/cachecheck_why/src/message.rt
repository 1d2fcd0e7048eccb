//! Finds the first fault of a request or a response.
use crate::fault::{Cause, Fault, Position};
use crate::part::Part;
use http_cache_json::UnreadValue;
use http_cache_json::form::pair;
use http_cache_json::texts::{method_from_text, status_from_number, target_from_text};
use http_header::{HeaderName, HeaderNameError, HeaderValue, HeaderValueError};
use serde_json::Value;
use std::alloc::Global;

fn unread<'a>(part: Part<'a>, cause: UnreadValue, wanted: &'static str) -> Fault<'a> {
    match cause {
        UnreadValue::Memory => part.fault(Cause::Memory),
        UnreadValue::Malformed => part.is_not(wanted),
    }
}

fn name_fault<'a>(alloc: Global, header: Part<'a>, name: &str) -> Result<(), Fault<'a>> {
    match HeaderName::from_bytes(alloc, name.as_bytes()) {
        Ok(_) => Ok(()),
        Err(HeaderNameError::OutOfMemory) => Err(header.fault(Cause::Memory)),
        Err(HeaderNameError::Invalid) => Err(header.is_not("a field name first")),
    }
}

fn value_fault<'a>(alloc: Global, header: Part<'a>, value: &str) -> Result<(), Fault<'a>> {
    match HeaderValue::from_bytes(alloc, value.as_bytes()) {
        Ok(_) => Ok(()),
        Err(HeaderValueError::OutOfMemory) => Err(header.fault(Cause::Memory)),
        Err(HeaderValueError::Invalid) => Err(header.is_not("a field value second")),
    }
}

fn texts_of(value: &Value) -> Option<(&str, &str)> {
    let (name, text) = pair(value)?;
    Some((name.as_str()?, text.as_str()?))
}

fn header_fault<'a>(alloc: Global, header: Part<'a>) -> Result<(), Fault<'a>> {
    let Some((name, value)) = texts_of(header.value) else {
        return Err(header.is_not("[name, value], two texts"));
    };
    name_fault(alloc, header, name)?;
    value_fault(alloc, header, value)
}

fn headers_fault<'a>(alloc: Global, headers: Part<'a>) -> Result<(), Fault<'a>> {
    let Some(values) = headers.value.as_array() else {
        return Err(headers.is_not("a list"));
    };
    for (index, value) in values.iter().enumerate() {
        let position = Position {
            header: Some(index),
            ..headers.position
        };
        header_fault(alloc, Part { value, position })?;
    }
    Ok(())
}

/// Returns the first fault of a request.
pub fn request_fault<'a>(alloc: Global, request: Part<'a>) -> Result<(), Fault<'a>> {
    request.has_only(&["uri", "method", "headers"])?;
    let uri = request.text("uri")?;
    if let Err(cause) = target_from_text(alloc, uri) {
        return Err(unread(request.member("uri")?, cause, "a target URI"));
    }
    let method = request.text("method")?;
    if let Err(cause) = method_from_text(alloc, method) {
        return Err(unread(request.member("method")?, cause, "a method"));
    }
    headers_fault(alloc, request.member("headers")?)
}

/// Returns the first fault of a response.
pub fn response_fault<'a>(alloc: Global, response: Part<'a>) -> Result<(), Fault<'a>> {
    response.has_only(&["status", "headers"])?;
    let status = response.member("status")?;
    let number = status.value.as_u64().and_then(status_from_number);
    if number.is_none() {
        return Err(status.is_not("a whole number from 100 to 999"));
    }
    headers_fault(alloc, response.member("headers")?)
}

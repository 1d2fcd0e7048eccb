//! Makes the requests, responses, policies and times of cases. Headers are written `Name: value`,
//! with `~` between them.
//!
//! Each function makes at most one policy or message and returns it, since the prover examines each
//! point where one is dropped.
use http::header::{HeaderName, HeaderValue};
use http::{HeaderMap, Method, StatusCode, Uri, Version, request, response};
use http_cache_semantics::CachePolicy;
use jiff::Timestamp;
use std::alloc::Global;
use std::fmt::Write;
use std::test::Fail;

/// 2024-01-01T00:00:00Z, from which the times of cases count.
pub const START: i64 = 1704067200;

/// Returns a field of a case, trimmed.
pub fn field(case: &str, index: usize) -> Result<&str, Fail> {
    Ok(case.split('|').nth(index).ok_or("no such field")?.trim())
}

// No character is above 255.
fn bytes(alloc: Global, text: &str) -> Result<Vec<u8>, Fail> {
    let mut bytes = Vec::new(alloc);
    for character in text.chars() {
        bytes.push(u8::try_from(u32::from(character))?)?;
    }
    Ok(bytes)
}

/// Returns the headers of a field, added in order, with a byte for each character of a value.
pub fn headers(alloc: Global, text: &str) -> Result<HeaderMap, Fail> {
    let mut map = HeaderMap::new(alloc);
    for line in text.split('~') {
        if let Some((name, text)) = line.split_once(':') {
            let name = HeaderName::from_bytes(alloc, name.trim().as_bytes())?;
            let value = bytes(alloc, text.trim())?;
            map.append(name, HeaderValue::from_bytes(alloc, &value)?)?;
        }
    }
    Ok(map)
}

/// Returns a request for `/a`.
pub fn request(alloc: Global, method: &str, lines: &str) -> Result<request::Parts, Fail> {
    Ok(request::Parts {
        method: Method::from_bytes(alloc, method.as_bytes())?,
        uri: Uri::from_str(alloc, "/a")?,
        version: Version::HTTP_11,
        headers: headers(alloc, lines)?,
    })
}

/// Returns a response.
pub fn response(alloc: Global, status: &str, lines: &str) -> Result<response::Parts, Fail> {
    Ok(response::Parts {
        status: StatusCode::from_bytes(status.as_bytes())?,
        version: Version::HTTP_11,
        headers: headers(alloc, lines)?,
    })
}

/// Returns the time so many nanoseconds after the start.
pub fn after(nanos: i64) -> Result<Timestamp, Fail> {
    let start = START as i128 * 1_000_000_000;
    Ok(Timestamp::from_nanosecond(start + nanos as i128)?)
}

fn policy_of(alloc: Global, request: &request::Parts, lines: &str) -> Result<CachePolicy, Fail> {
    let received = after(0)?;
    let response = response(alloc, "200", lines)?;
    Ok(CachePolicy::new(alloc, request, &response, received)?)
}

/// Returns the policy of a shared cache for a GET of `/a` without headers, and a 200 with these
/// headers at the start.
pub fn policy(alloc: Global, lines: &str) -> Result<CachePolicy, Fail> {
    let request = request(alloc, "GET", "")?;
    policy_of(alloc, &request, lines)
}

/// Returns the headers, and so many more.
pub fn with_further(alloc: Global, lines: &str, count: u32) -> Result<String, Fail> {
    let mut text = String::from_str(alloc, lines)?;
    for i in 0..count {
        write!(text, " ~ x{i}: 1")?;
    }
    Ok(text)
}

/// Returns the result of a function for a value, if that was made.
///
/// Only this function owns values of large types, which keeps the proofs of its callers short.
pub fn with<T: Drop, R: Drop, F: FnOnce(&T) -> Result<R, Fail>>(
    made: Result<T, Fail>,
    ask: F,
) -> Result<R, Fail>
    requires { F.IsAlwaysCallable ask }
{
    match made {
        Ok(value) => ask(&value),
        Err(e) => Err(e),
    }
}

/// Returns the result of a function that may change a value, if that was made, and owns it as
/// `with` does.
pub fn with_mut<T: Drop, R: Drop, F: FnOnce(&mut T) -> Result<R, Fail>>(
    made: Result<T, Fail>,
    ask: F,
) -> Result<R, Fail>
    requires { F.IsAlwaysCallable ask }
{
    match made {
        Ok(mut value) => ask(&mut value),
        Err(e) => Err(e),
    }
}

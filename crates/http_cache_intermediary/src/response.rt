//! The head of a response as it is sent to the client.
ghost use Rattle.std.specs.Prelude.{◌≡◌, option_copied, IfOk};
ghost use Rattle.http_cache_fields.specs.Text.{text_of};
ghost use Rattle.http_cache_intermediary.specs.Response.{IsSent, trimmed_value};

use crate::intermediary::Intermediary;
use crate::length::{Content, set_response_length};
use http::{HeaderValue, Method, Version, response};
use http_cache_fields::CacheError;
use http_cache_fields::text::trim;
use http_cache_rules::forwarding::forwarded_headers;
use std::alloc::{AllocError, Global};

impl Intermediary {
    /// Returns the head of a response as it is sent to the client (RFC 9110, sections 6.6 and 7.6).
    ///
    /// It keeps all field lines except connection-specific fields and those that Connection names.
    /// Via has the intermediary's member last, on one line. Content-Length is the body's own; to
    /// HEAD and in a 304 it is the received one.
    ///
    /// # Errors
    ///
    /// `Memory` if there is not enough memory, and `HeaderMapFull` if there is no room for these
    /// fields.
    pub fn sent(
        &self,
        alloc: Global,
        method: &Method,
        head: &response::Parts,
        content: Content,
    ) -> Result<response::Parts, CacheError>
        ensures { IfOk result (IsSent self.now method.now head.now content) }
    {
        let mut headers = forwarded_headers(&head.headers)?;
        set_response_length(alloc, &mut headers, method, head, content)?;
        self.add_via(alloc, &mut headers, &head.headers, head.version)?;
        Ok(response::Parts {
            status: head.status,
            version: Version::HTTP_11,
            headers,
        })
    }
}

fn text_of(value: &HeaderValue) -> Option<&str>
    ensures { option_copied result ≡ text_of value.now.bytes }
{
    value.to_str().ok()
}

/// Returns a value without blanks at its ends (RFC 9110, section 5.5). A value with bytes beyond
/// ASCII stays as it is.
///
/// # Errors
///
/// `AllocError` if there is not enough memory.
pub fn trimmed(alloc: Global, value: &HeaderValue) -> Result<HeaderValue, AllocError>
    ensures { IfOk result (λ sent. sent.bytes ≡ trimmed_value value.now.bytes) }
{
    let Some(text) = text_of(value) else {
        return value.clone();
    };
    let trimmed = trim(text);
    if trimmed == text {
        return value.clone();
    }
    match HeaderValue::from_str(alloc, trimmed) {
        Ok(value) => Ok(value),
        Err(_) => Err(AllocError),
    }
}

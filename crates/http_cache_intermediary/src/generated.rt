//! Responses that an intermediary makes itself.
ghost use Rattle.std.specs.Prelude.{◌≡◌, [], codes, option_map, IfOk, OnOk};
ghost use Rattle.http_cache_fields.specs.Headers.{headers_of, values};
ghost use Rattle.http_cache_intermediary.specs.Generated.{IsDateValue, IsDated, IsGenerated};

use crate::field::{set, value_of};
use crate::intermediary::Intermediary;
use http::header::{CACHE_STATUS, DATE};
use http::{HeaderMap, HeaderValue, StatusCode, Version, response};
use http_cache_fields::CacheError;
use http_cache_reasons::member::{CacheOutcome, Member};
use http_cache_rules::dates::http_date;
use jiff::Timestamp;
use std::alloc::Global;

// Writes a time as a date. Returns None before 1900.
fn date_of(alloc: Global, time: Timestamp) -> Result<Option<HeaderValue>, CacheError>
    ensures { IfOk result (IsDateValue time.nanosecond) }
{
    let Some(date) = http_date(time) else {
        return Ok(None);
    };
    match HeaderValue::from_bytes(alloc, &date) {
        Ok(value) => Ok(Some(value)),
        Err(_) => Err(CacheError::Memory),
    }
}

fn add_date(
    alloc: Global,
    headers: &mut HeaderMap,
    time: Option<Timestamp>,
) -> Result<(), CacheError>
    requires { values (headers_of headers.old) (codes "date") ≡ [] }
    ensures { OnOk result (IsDated (option_map (λ t. t.nanosecond) time)
        (headers_of headers.old) (headers_of headers.new)) }
{
    let Some(time) = time else {
        return Ok(());
    };
    match date_of(alloc, time)? {
        Some(date) => set(headers, DATE, date),
        None => Ok(()),
    }
}

impl Intermediary {
    /// Returns the head of a response that the intermediary makes itself.
    ///
    /// Its only fields are Cache-Status, with a detail (RFC 9211, section 2.8), and `time` as Date,
    /// unless that is `None` or before 1900. `sent` adds its length and Via.
    ///
    /// # Errors
    ///
    /// `Memory` if there is not enough memory.
    pub fn generated(
        &self,
        alloc: Global,
        status: StatusCode,
        detail: &str,
        time: Option<Timestamp>,
    ) -> Result<response::Parts, CacheError>
        ensures { IfOk result (IsGenerated self.now status detail.now
            (option_map (λ t. t.nanosecond) time)) }
    {
        let member = Member {
            cache: self.name(),
            outcome: CacheOutcome::Generated,
            forward_status: None,
            stored: false,
            left: None,
            detail: Some(detail),
        };
        let text = member.text(alloc)?;
        let mut headers = HeaderMap::new(alloc);
        set(&mut headers, CACHE_STATUS, value_of(text)?)?;
        add_date(alloc, &mut headers, time)?;
        Ok(response::Parts {
            status,
            version: Version::HTTP_11,
            headers,
        })
    }
}

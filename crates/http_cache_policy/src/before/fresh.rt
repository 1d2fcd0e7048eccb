//! Makes the headers of a fresh answer.
ghost use Rattle.std.specs.Prelude.{◌≡◌, ◌≢◌, ◌⊎◌, ◌≤◌, ℤ, true, false, codes, decimal, length};
ghost use Rattle.std.specs.Prelude.{IfOk, IfErr, IsErrOf};
ghost use Rattle.std.specs.FinMap as fin;
ghost use Rattle.std.specs.Duration.{as_nanos};
ghost use Rattle.http_header.specs.FieldValue.{IsFieldValue, plain_value};
ghost use Rattle.http_cache_fields.specs.Headers.{headers_of, values, value_count, IsAbsent};
ghost use Rattle.http_cache_rules.specs.Dates.{IsPrintable};
ghost use Rattle.http_cache_rules.specs.Filter.{filtered_headers};
ghost use Rattle.http_cache_policy.specs.Age.{age_at};
ghost use Rattle.http_cache_policy.specs.Fresh.{is_guessed_past_a_day, warned_headers, RefusesWarning, IsFreshParts};
ghost use Rattle.http_cache_policy.specs.Fresh.{RefusesFreshHeaders, HasNoDate};

use crate::policy::CachePolicy;
use bytes::Bytes;
use http::header::{AGE, DATE, HeaderValue, WARNING};
use http::{HeaderMap, Version, response};
use http_cache_fields::CacheError;
use http_cache_fields::headers::{append, insert, reveal_header_map};
use http_cache_rules::dates::print_date;
use http_cache_rules::filter::{filter, filter_beside_date};
use itoa::Buffer;
use jiff::Timestamp;
use std::alloc::{AllocError, Global};
use std::time::Duration;

// In nanoseconds.
const DAY: u128 = 86_400_000_000_000;

// Both values share one allocation.
fn age_and_date(
    alloc: Global,
    seconds: u64,
    date: &[u8; 31],
) -> Result<(HeaderValue, HeaderValue), AllocError>
    requires { IsFieldValue date.now }
    ensures age { IfOk result (λ both. both.0 ≡ plain_value (decimal seconds)) }
    ensures date { IfOk result (λ both. both.1 ≡ plain_value date.now) }
{
    let mut digits = Buffer::new();
    let age = digits.format(seconds).as_bytes();
    let mut both = Vec::with_capacity(alloc, age.len() + date.len())?;
    both.extend_from_slice(age)?;
    both.extend_from_slice(date)?;
    let mut date = Bytes::from_vec(both)?;
    let age = date.split_to(age.len())?;
    Ok((
        HeaderValue::from_known_valid(age),
        HeaderValue::from_known_valid(date),
    ))
}

impl CachePolicy {
    // A heuristically fresh response of more than a day gets a warning (RFC 7234, section 5.5.4).
    #[tactic(auto, unfolding(crate::specs::Fresh::is_guessed_past_a_day))]
    fn is_guessed_past_a_day(&self, age: Duration) -> bool
        ensures { (now : ℤ) → as_nanos age ≡ age_at self.now now
            → result ≡ is_guessed_past_a_day self.now now }
    {
        age.as_nanos() > DAY && self.lifetime().as_nanos() > DAY && !self.has_explicit_expiration()
    }

    // A Date is kept if one is to be sent, since it keeps its index.
    fn handed_on(&self, alloc: Global, dated: bool) -> Result<HeaderMap, AllocError>
        ensures beside { IfOk result (λ out. fin.remove (headers_of out) (codes "date")
            ≡ filtered_headers self.now.response_headers) }
        ensures undated { dated ≡ false → IfOk result (λ out.
            IsAbsent (headers_of out) (codes "date")) }
        ensures one_date { IfOk result (λ out. length (values (headers_of out) (codes "date")) ≤ 1) }
        ensures few { IfOk result (λ out. value_count (headers_of out) ≤ 24576) }
    {
        if dated {
            filter_beside_date(alloc, self.stored_headers())
        } else {
            filter(alloc, self.stored_headers())
        }
    }

    fn warned_headers(
        &self,
        alloc: Global,
        age: Duration,
        dated: bool,
    ) -> Result<HeaderMap, CacheError>
        ensures ok { IfOk result (λ out. (now : ℤ) → as_nanos age ≡ age_at self.now now
            → fin.remove (headers_of out) (codes "date") ≡ warned_headers self.now now) }
        ensures undated { dated ≡ false → IfOk result (λ out.
            IsAbsent (headers_of out) (codes "date")) }
        ensures one_date { IfOk result (λ out. length (values (headers_of out) (codes "date")) ≤ 1) }
        ensures room { IfOk result (λ _. (now : ℤ) → as_nanos age ≡ age_at self.now now
            → ¬ (RefusesWarning self.now now)) }
        ensures full { IsErrOf result CacheError.HeaderMapFull
            → (now : ℤ) → as_nanos age ≡ age_at self.now now → (dated ≡ true → IsPrintable now)
            → RefusesFreshHeaders self.now now }
        ensures known { IfErr result (λ e.
            (e ≡ CacheError.HeaderMapFull) ⊎ (e ≡ CacheError.Memory)) }
    {
        let mut out = self.handed_on(alloc, dated)?;
        if !self.is_guessed_past_a_day(age) {
            return Ok(out);
        }
        let warning = HeaderValue::from_static("113 - \"rfc7234 5.5.4\"");
        append(&mut out, WARNING, warning)?;
        Ok(out)
    }

    /// Returns the fresh answer at `now`, when the response has the age.
    ///
    /// # Errors
    ///
    /// `HeaderMapFull` if `warning`, `age` or `date` has no room, `DateNotPrintable` before 1900,
    /// and `Memory`.
    #[tactic(auto, unfolding(crate::specs::Fresh::RefusesFreshHeaders, crate::specs::Fresh::HasNoDate))]
    pub(crate) fn cached_response(
        &self,
        alloc: Global,
        now: Timestamp,
        age: Duration,
    ) -> Result<response::Parts, CacheError>
        requires { as_nanos age ≡ age_at self.now now.nanosecond }
        ensures fresh { IfOk result (IsFreshParts self.now now.nanosecond) }
        ensures full { IsErrOf result CacheError.HeaderMapFull
            → RefusesFreshHeaders self.now now.nanosecond }
        ensures unprintable { IsErrOf result CacheError.DateNotPrintable
            → HasNoDate self.now now.nanosecond }
        ensures no_other { result ≢ Err CacheError.Malformed }
    {
        let date = print_date(now);
        let mut headers = self.warned_headers(alloc, age, date.is_some())?;
        let Some(date) = date else {
            // Age is set first, and may have no room.
            insert(
                &mut headers,
                AGE,
                HeaderValue::from_u64(alloc, age.as_secs())?,
            )?;
            return Err(CacheError::DateNotPrintable);
        };
        let (age, date) = age_and_date(alloc, age.as_secs(), &date)?;
        insert(&mut headers, AGE, age)?;
        reveal_header_map(&headers);
        insert(&mut headers, DATE, date)?;
        Ok(response::Parts {
            status: self.stored_status(),
            version: Version::HTTP_11,
            headers,
        })
    }
}

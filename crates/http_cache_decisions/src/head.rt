//! The head of a response as it is stored. What is removed from a received head or added to it is
//! decided only here.
ghost use Rattle.std.specs.Prelude.{◌≡◌, ◌⊎◌, true, codes, decimal, option_map};
ghost use Rattle.std.specs.Prelude.{IfOk, IfErr, IfSome, IsSome, OnOk, IsErrOf, IsOkUnless};
ghost use Rattle.std.specs.FinMap as fin;
ghost use Rattle.http_cache_fields.specs.Headers.{headers_of, contains_key, set, RefusesName};
ghost use Rattle.http_cache_rules.specs.Dates.{IsPrintable};
ghost use Rattle.http_cache_decisions.specs.StoredHead.{KeepsOthers, is_digits, age_in, received_age};
ghost use Rattle.http_cache_decisions.specs.StoredHead.{time_of, time_under, seconds_between};
ghost use Rattle.http_cache_decisions.specs.StoredHead.{apparent_age, stored_age};
ghost use Rattle.http_cache_decisions.specs.StoredHead.{IsDateValue, IsDated, LacksDate};
ghost use Rattle.http_cache_decisions.specs.StoredHead.{obsolete_date, IsFixedUnder, IsStoredDate};
ghost use Rattle.http_cache_decisions.specs.StoredHead.{ends_in_gmt, is_date_text, has_date};
ghost use Rattle.http_cache_decisions.specs.StoredHead.{IsStoredExpires, repeated_length, length_lines};
ghost use Rattle.http_cache_decisions.specs.StoredHead.{is_rule_field, names_rules};
ghost use Rattle.http_cache_decisions.specs.StoredHead.{IsStoredHead, IsUnfit, with_cache_status};

use crate::needed::is_same_name;
use http::header::{
    AGE, CACHE_STATUS, CONNECTION, CONTENT_LENGTH, DATE, EXPIRES, TRANSFER_ENCODING,
};
use http::{HeaderMap, HeaderName, HeaderValue};
use http_cache_fields::CacheError;
use http_cache_fields::headers::{contains_key, first_text, insert, remove, replace};
use http_cache_fields::pieces::pieces_under;
use http_cache_fields::text::number;
use http_cache_rules::dates::http_date;
use http_cache_rules::forwarding::forwarded_headers;
use http_cache_rules::joined::joined_headers;
use http_cache_rules::lifetime::elapsed_time;
use httpdate::HttpDate;
use jiff::Timestamp;
use std::alloc::{AllocError, Global};

// A head with more names isn't stored, so that an answer from the store has room for its own
// fields.
const MOST_NAMES: usize = 24_000;

// The length of an IMF-fixdate.
const FIXED_DATE: usize = 29;

// The fields that the rules of storing, freshness and validation read.
const RULE_FIELDS: [&str; 9] = [
    "age",
    "cache-control",
    "date",
    "etag",
    "expires",
    "last-modified",
    "pragma",
    "set-cookie",
    "vary",
];

// The value of an Age that is too great to be read (RFC 9111, section 1.2.2).
const GREATEST_AGE: u64 = 2_147_483_648;

fn is_digits(text: &str) -> bool
    ensures { result ≡ is_digits text.now }
{
    !text.is_empty() && text.as_bytes().iter().all(|b| b.is_ascii_digit())
}

// Returns the seconds of an Age, or 0 if it is no number (RFC 9111, section 1.2.2).
#[tactic(auto, unfolding(crate::specs::StoredHead::age_in))]
fn age_in(text: &str) -> u64
    ensures { result ≡ age_in text.now }
{
    if !is_digits(text) {
        return 0;
    }
    number(text).unwrap_or(GREATEST_AGE).min(GREATEST_AGE)
}

// Returns the seconds of the first Age (RFC 9111, section 5.1).
fn received_age(headers: &HeaderMap) -> u64
    ensures { result ≡ received_age (headers_of headers.now) }
{
    match pieces_under(headers, AGE).next() {
        Some(text) => age_in(text),
        None => 0,
    }
}

// Reads a date in any of the three forms of HTTP (RFC 9110, section 5.6.7).
#[tactic(auto, unfolding(crate::specs::StoredHead::time_of))]
fn time_of(text: &str) -> Option<Timestamp>
    ensures time { option_map (λ t. t.nanosecond) result ≡ time_of text.now }
    ensures printable { IfSome result (λ t. IsPrintable t.nanosecond) }
{
    match HttpDate::parse_ascii(text.as_bytes()) {
        Ok(date) => Timestamp::from_second(date.unix_secs() as i64).ok(),
        Err(_) => None,
    }
}

fn time_under(headers: &HeaderMap, name: HeaderName) -> Option<Timestamp>
    ensures { option_map (λ t. t.nanosecond) result ≡ time_under (headers_of headers.now) name }
{
    let text = first_text(headers, name)?;
    time_of(text)
}

fn seconds_between(from: Timestamp, to: Timestamp) -> u64
    ensures { result ≡ seconds_between from.nanosecond to.nanosecond }
{
    elapsed_time(from, to).as_secs()
}

// Returns the whole seconds from Date to a time, or 0 (RFC 9111, section 4.2.3).
fn apparent_age(headers: &HeaderMap, now: Timestamp) -> u64
    ensures { result ≡ apparent_age (headers_of headers.now) now.nanosecond }
{
    match time_under(headers, DATE) {
        Some(date) => seconds_between(date, now),
        None => 0,
    }
}

fn stored_age(headers: &HeaderMap, sent: Timestamp) -> u64
    ensures { result ≡ stored_age (headers_of headers.now) sent.nanosecond }
{
    received_age(headers).max(apparent_age(headers, sent))
}

// Writes a time as a date. Returns None before 1900.
fn date_value(alloc: Global, time: Timestamp) -> Result<Option<HeaderValue>, AllocError>
    ensures { IfOk result (IsDateValue time.nanosecond) }
{
    let Some(date) = http_date(time) else {
        return Ok(None);
    };
    match HeaderValue::from_bytes(alloc, &date) {
        Ok(value) => Ok(Some(value)),
        Err(_) => Err(AllocError),
    }
}

/// Adds the time of receipt as Date to a response that has none (RFC 9110, section 6.6.1). Before
/// 1900, or in a full map, the response stays as it is.
///
/// # Errors
///
/// `Memory` if there is not enough memory.
pub fn add_date(
    alloc: Global,
    headers: &mut HeaderMap,
    received: Timestamp,
) -> Result<(), CacheError>
    ensures dated { OnOk result (IsDated received.nanosecond
        (headers_of headers.old) (headers_of headers.new)) }
    ensures only_memory { IsOkUnless result CacheError.Memory }
{
    if contains_key(headers, DATE) {
        return Ok(());
    }
    let Some(date) = date_value(alloc, received)? else {
        return Ok(());
    };
    match insert(headers, DATE, date) {
        Ok(()) => Ok(()),
        Err(CacheError::HeaderMapFull) => Ok(()),
        Err(_) => Err(CacheError::Memory),
    }
}

// Returns the time of a first date that isn't an IMF-fixdate.
fn obsolete_date(headers: &HeaderMap, name: &HeaderName) -> Option<Timestamp>
    ensures time { option_map (λ t. t.nanosecond) result
        ≡ obsolete_date (headers_of headers.now) name.now }
    ensures there { IsSome result → contains_key (headers_of headers.now) name.now ≡ true }
    ensures printable { IfSome result (λ t. IsPrintable t.nanosecond) }
{
    let text = first_text(headers, name)?;
    if text.len() == FIXED_DATE {
        return None;
    }
    time_of(text)
}

// Writes a date of an obsolete form as an IMF-fixdate, which the library reads (RFC 9110, section
// 5.6.7).
fn fix_date(alloc: Global, headers: &mut HeaderMap, name: HeaderName) -> Result<(), AllocError>
    ensures date { OnOk result (IsFixedUnder name
        (headers_of headers.old) (headers_of headers.new)) }
    ensures others { OnOk result (KeepsOthers name
        (headers_of headers.old) (headers_of headers.new)) }
{
    let Some(time) = obsolete_date(headers, &name) else {
        return Ok(());
    };
    // No date that is read is before 1970.
    let Some(date) = date_value(alloc, time)? else {
        unreachable!()
    };
    replace(headers, name, date);
    Ok(())
}

// Leaves a Date in the form that the library reads, and adds the time of receipt as Date to a head
// that has none (RFC 9110, section 6.6.1).
fn store_date(alloc: Global, headers: &mut HeaderMap, received: Timestamp) -> Result<(), CacheError>
    ensures date { OnOk result (IsStoredDate received.nanosecond
        (headers_of headers.old) (headers_of headers.new)) }
    ensures others { OnOk result (KeepsOthers (codes "date")
        (headers_of headers.old) (headers_of headers.new)) }
    ensures undated { IsErrOf result CacheError.DateNotPrintable
        → LacksDate received.nanosecond (headers_of headers.old) }
    ensures known { IfErr result (λ e.
        (e ≡ CacheError.DateNotPrintable) ⊎ (e ≡ CacheError.Memory)) }
{
    if contains_key(headers, DATE) {
        fix_date(alloc, headers, DATE)?;
        return Ok(());
    }
    add_date(alloc, headers, received)?;
    if !contains_key(headers, DATE) {
        return Err(CacheError::DateNotPrintable);
    }
    Ok(())
}

// Returns whether a text ends with GMT, the only zone of dates, in any case (RFC 9111, section
// 4.2).
fn ends_in_gmt(text: &str) -> bool
    ensures { result ≡ ends_in_gmt text.now }
{
    let bytes = text.as_bytes();
    let start = bytes.len().saturating_sub(4);
    bytes[start..].eq_ignore_ascii_case(b" GMT")
}

// Returns whether a text is a date of HTTP. The library reads other zones than GMT too (RFC 9111,
// section 4.2).
fn is_date_text(text: &str) -> bool
    ensures { result ≡ is_date_text text.now }
{
    ends_in_gmt(text) || time_of(text).is_some()
}

fn has_date(headers: &HeaderMap, name: HeaderName) -> bool
    ensures { result ≡ has_date (headers_of headers.now) name }
{
    match first_text(headers, name) {
        Some(text) => is_date_text(text),
        None => false,
    }
}

// Writes Expires as an IMF-fixdate, or as `0` if it is no date (RFC 9111, section 5.3).
fn fix_expires(alloc: Global, headers: &mut HeaderMap) -> Result<(), AllocError>
    ensures expires { OnOk result
        (IsStoredExpires (headers_of headers.old) (headers_of headers.new)) }
    ensures others { OnOk result (KeepsOthers (codes "expires")
        (headers_of headers.old) (headers_of headers.new)) }
{
    if !contains_key(headers, EXPIRES) {
        return Ok(());
    }
    if has_date(headers, EXPIRES) {
        return fix_date(alloc, headers, EXPIRES);
    }
    replace(headers, EXPIRES, HeaderValue::from_static("0"));
    Ok(())
}

// Returns the number that a repeated Content-Length begins with.
fn repeated_length(headers: &HeaderMap) -> Option<u64>
    ensures { result ≡ repeated_length (headers_of headers.now) }
{
    let mut lengths = pieces_under(headers, CONTENT_LENGTH);
    let first = lengths.next()?;
    let _other = lengths.next()?;
    number(first)
}

// Leaves one of several equal Content-Lengths, and none if Transfer-Encoding was received (RFC
// 9110, section 8.6; RFC 9112, section 6.3).
fn fix_length(
    alloc: Global,
    headers: &mut HeaderMap,
    received: &HeaderMap,
) -> Result<(), CacheError>
    ensures length { OnOk result (fin.get (headers_of headers.new) (codes "content-length")
        ≡ length_lines (headers_of received.now)
        (fin.get (headers_of headers.old) (codes "content-length"))) }
    ensures others { OnOk result (KeepsOthers (codes "content-length")
        (headers_of headers.old) (headers_of headers.new)) }
    ensures full { IsErrOf result CacheError.HeaderMapFull
        → RefusesName (headers_of headers.old) (codes "content-length") }
    ensures known { IfErr result (λ e.
        (e ≡ CacheError.HeaderMapFull) ⊎ (e ≡ CacheError.Memory)) }
{
    if contains_key(received, TRANSFER_ENCODING) {
        remove(headers, CONTENT_LENGTH);
        return Ok(());
    }
    match repeated_length(received) {
        Some(length) => {
            let value = HeaderValue::from_u64(alloc, length)?;
            insert(headers, CONTENT_LENGTH, value)?;
            Ok(())
        }
        None => Ok(()),
    }
}

#[tactic(auto, unfolding(crate::specs::StoredHead::is_rule_field))]
fn is_rule_field(name: &str) -> bool
    ensures { result ≡ is_rule_field name.now }
{
    RULE_FIELDS.iter().any(|read| is_same_name(read, name))
}

// Returns whether Connection names a field that the rules read. Such a field would be removed,
// although it decides (RFC 9110, section 7.6.1).
fn names_rules(headers: &HeaderMap) -> bool
    ensures { result ≡ names_rules (headers_of headers.now) }
{
    pieces_under(headers, CONNECTION).any(|name| is_rule_field(name))
}

/// Adds an empty Cache-Status to a head that has none. An answer then replaces its value, and the
/// copy of the head doesn't grow.
///
/// # Errors
///
/// `HeaderMapFull` if there is no room for it, and `Memory` if there is not enough memory.
pub fn add_cache_status(headers: &mut HeaderMap) -> Result<(), CacheError>
    ensures ok { OnOk result (headers_of headers.new
        ≡ with_cache_status (headers_of headers.old)) }
    ensures full { IsErrOf result CacheError.HeaderMapFull
        → RefusesName (headers_of headers.old) (codes "cache-status") }
    ensures known { IfErr result (λ e.
        (e ≡ CacheError.HeaderMapFull) ⊎ (e ≡ CacheError.Memory)) }
{
    if contains_key(headers, CACHE_STATUS) {
        return Ok(());
    }
    insert(headers, CACHE_STATUS, HeaderValue::from_static(""))
}

fn set_age(alloc: Global, headers: &mut HeaderMap, age: u64) -> Result<(), CacheError>
    ensures ok { OnOk result (headers_of headers.new
        ≡ set (headers_of headers.old) (codes "age") (decimal age)) }
    ensures full { IsErrOf result CacheError.HeaderMapFull
        → RefusesName (headers_of headers.old) (codes "age") }
    ensures known { IfErr result (λ e.
        (e ≡ CacheError.HeaderMapFull) ⊎ (e ≡ CacheError.Memory)) }
{
    let value = HeaderValue::from_u64(alloc, age)?;
    insert(headers, AGE, value)
}

/// Returns the head of a response as it is stored.
///
/// Connection-specific fields are removed (RFC 9111, section 3.1). Each field has one line. There
/// is one Content-Length at most, a Date, dates in the form that the library reads, and the Age at
/// `sent`.
///
/// `sent` is the time at which the request was sent, and becomes the policy's response time. The
/// Age is the received one or the whole seconds from Date to `sent`, whichever is greater. The age
/// at a later time is then the current age of RFC 9111, section 4.2.3, which counts the network
/// delay once.
///
/// # Errors
///
/// - `Malformed` if Connection names a field that the rules of caching read.
/// - `HeaderMapFull` if there are more than 24,000 names, or no room for a field.
/// - `DateNotPrintable` if Date is absent, and `received` is before 1900 or there is no room for it.
/// - `Memory` if there is not enough memory.
pub fn stored_head(
    alloc: Global,
    headers: &HeaderMap,
    sent: Timestamp,
    received: Timestamp,
) -> Result<HeaderMap, CacheError>
    ensures stored { IfOk result (λ head. IsStoredHead sent.nanosecond received.nanosecond
        (headers_of headers.now) (headers_of head)) }
    ensures unfit { IfErr result (λ e. (e ≡ CacheError.Memory)
        ⊎ IsUnfit received.nanosecond (headers_of headers.now) e) }
{
    if headers.keys_len() > MOST_NAMES {
        return Err(CacheError::HeaderMapFull);
    }
    if names_rules(headers) {
        return Err(CacheError::Malformed);
    }
    let forwarded = forwarded_headers(headers)?;
    let mut head = joined_headers(alloc, &forwarded)?;
    store_date(alloc, &mut head, received)?;
    fix_length(alloc, &mut head, headers)?;
    fix_expires(alloc, &mut head)?;
    set_age(alloc, &mut head, stored_age(headers, sent))?;
    Ok(head)
}

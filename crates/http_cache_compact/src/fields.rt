//! Field lines of the compact form.
ghost use Rattle.std.specs.Prelude.{◌≡◌, ◌≢◌, ◌≤◌, ◌+◌, ◌++◌, ℕ, Err, Some, None, IfOk, IfSome, IfNone, OnOk, IsErrOf, List, length};
ghost use Rattle.http_header.specs.FieldName.{IsFieldName};
ghost use Rattle.http_header.specs.FieldValue.{IsFieldValue, plain_value};
ghost use Rattle.http_header.specs.Token.{lowercase};
ghost use Rattle.http_cache_fields.specs.Headers.{Headers, headers_of};
ghost use Rattle.http_cache_json.specs.Pairs.{Pair, Fits, with_pair};
ghost use Rattle.http_cache_compact.specs.Compact.{cut, field_of, fields_of, IsField, AreHeaders};

use crate::numbers::{number_2, number_4};
use bytes::Bytes;
use http_cache_fields::CacheError;
use http_header::{HeaderMap, HeaderMapError, HeaderName, HeaderNameError, HeaderValue};
use std::alloc::Global;

/// Room is reserved for at most this many names. More names get room as they are read.
const MOST_RESERVED: usize = 64;

/// The first bytes, and the rest.
#[derive(Clone, Copy)]
pub(crate) struct Halves<'a> {
    pub(crate) front: &'a [u8],
    pub(crate) rest: &'a [u8],
}

/// Returns the first `length` bytes and the rest, if there are as many.
#[tactic(auto, unfolding(crate::specs::Compact::cut))]
pub(crate) fn cut(bytes: &[u8], length: u32) -> Option<Halves<'_>>
    ensures some { IfSome result (λ c. cut length bytes.now ≡ Some (c.front.now, c.rest.now)) }
    ensures none { IfNone result (cut length bytes.now ≡ None) }
{
    let (front, rest) = bytes.split_at_checked(length as usize)?;
    Some(Halves { front, rest })
}

/// A field line, and the rest.
#[derive(Clone, Copy)]
pub(crate) struct Field<'a> {
    name: &'a [u8],
    value: &'a [u8],
    rest: &'a [u8],
}

#[tactic(auto, unfolding(crate::specs::Compact::field_of, crate::specs::Compact::cut))]
fn field_of(bytes: &[u8]) -> Option<Field<'_>>
    ensures some { IfSome result (λ f.
        field_of bytes.now ≡ Some ((f.name.now, f.value.now), f.rest.now)) }
    ensures parts { IfSome result (λ f. (front : List ℕ)
        × (bytes.now ≡ front ++ (f.value.now ++ f.rest.now))) }
    ensures within { IfSome result (λ f.
        length f.value.now + length f.rest.now ≤ length bytes.now) }
    ensures none { IfNone result (field_of bytes.now ≡ None) }
{
    if bytes.len() < 6 {
        return None;
    }
    let (name, others) = bytes[6..].split_at_checked(number_2(bytes, 0) as usize)?;
    let (value, rest) = others.split_at_checked(number_4(bytes, 2) as usize)?;
    Some(Field { name, value, rest })
}

/// Returns the rest after `count` field lines.
pub(crate) fn after_fields(count: u32, bytes: &[u8]) -> Option<&[u8]>
    ensures some { IfSome result (λ rest. (fields : List Pair)
        × (fields_of count bytes.now ≡ Some (fields, rest.now))) }
    ensures none { IfNone result (fields_of count bytes.now ≡ None) }
{
    let mut rest = bytes;
    let mut left = count;
    while left > 0 {
        rest = field_of(rest)?.rest;
        left -= 1;
    }
    Some(rest)
}

fn name_of(alloc: Global, bytes: &[u8]) -> Result<HeaderName, CacheError>
    ensures ok { IfOk result (λ name. name ≡ lowercase bytes.now) }
    ensures valid { OnOk result (IsFieldName bytes.now) }
    ensures malformed { IsErrOf result CacheError.Malformed → ¬ (IsFieldName bytes.now) }
    ensures never_full { result ≢ Err CacheError.HeaderMapFull }
    ensures printable { result ≢ Err CacheError.DateNotPrintable }
{
    match HeaderName::from_bytes(alloc, bytes) {
        Ok(name) => Ok(name),
        Err(HeaderNameError::OutOfMemory) => Err(CacheError::Memory),
        Err(HeaderNameError::Invalid) => Err(CacheError::Malformed),
    }
}

fn value_of(bytes: Bytes) -> Result<HeaderValue, CacheError>
    ensures ok { IfOk result (λ value. value ≡ plain_value bytes) }
    ensures valid { OnOk result (IsFieldValue bytes) }
    ensures malformed { IsErrOf result CacheError.Malformed → ¬ (IsFieldValue bytes) }
    ensures never_full { result ≢ Err CacheError.HeaderMapFull }
    ensures printable { result ≢ Err CacheError.DateNotPrintable }
{
    match HeaderValue::from_shared(bytes) {
        Ok(value) => Ok(value),
        Err(_) => Err(CacheError::Malformed),
    }
}

// Adds a field line to headers, if it is valid and they have room.
fn add(alloc: Global, headers: &mut HeaderMap, name: &[u8], value: Bytes) -> Result<(), CacheError>
    requires { Fits headers.now }
    ensures added { OnOk result (headers.new ≡ with_pair headers.old (name.now, value)) }
    ensures fits { OnOk result (Fits headers.new) }
    ensures valid { OnOk result (IsField (name.now, value)) }
    ensures malformed { IsErrOf result CacheError.Malformed → IsField (name.now, value)
        → Fits (with_pair headers.old (name.now, value)) → ⊥ }
    ensures never_full { result ≢ Err CacheError.HeaderMapFull }
    ensures printable { result ≢ Err CacheError.DateNotPrintable }
{
    let name = name_of(alloc, name)?;
    let value = value_of(value)?;
    match headers.append(name, value) {
        Ok(_) => Ok(()),
        Err(HeaderMapError::MaxSizeReached) => Err(CacheError::Malformed),
        Err(HeaderMapError::OutOfMemory) => Err(CacheError::Memory),
    }
}

/// Returns the headers of the first `count` field lines. Their values share one copy of the bytes.
pub(crate) fn headers_in(alloc: Global, count: u32, bytes: &[u8]) -> Result<HeaderMap, CacheError>
    ensures found { IfOk result (λ headers. IfSome (fields_of count bytes.now)
        (λ p. AreHeaders p.0 (headers_of headers))) }
    ensures malformed { IsErrOf result CacheError.Malformed → IfSome (fields_of count bytes.now)
        (λ p. (h : Headers) → AreHeaders p.0 h → ⊥) }
    ensures never_full { result ≢ Err CacheError.HeaderMapFull }
    ensures printable { result ≢ Err CacheError.DateNotPrintable }
{
    let Ok(mut headers) = HeaderMap::with_capacity(alloc, (count as usize).min(MOST_RESERVED))
    else {
        return Err(CacheError::Memory);
    };
    let mut rest = Bytes::copy_from_slice(alloc, bytes)?;
    let mut left = count;
    while left > 0 {
        let Some(field) = field_of(rest.as_slice()) else {
            return Err(CacheError::Malformed);
        };
        let end = rest.len() - field.rest.len();
        let value = rest.slice(end - field.value.len()..end)?;
        add(alloc, &mut headers, field.name, value)?;
        rest.advance(end);
        left -= 1;
    }
    Ok(headers)
}

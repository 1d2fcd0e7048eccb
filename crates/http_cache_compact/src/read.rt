//! Reads what a policy keeps from its compact form.
ghost use Rattle.std.specs.Prelude.{◌≡◌, ◌≢◌, ◌≤◌, ◌+◌, true, false, Err, Some, None, IfOk, OnOk, OnSome, IsSome, IfSome, IfNone, IsErrOf, length};
ghost use Rattle.http.specs.StatusCode.{IsStatusCode};
ghost use Rattle.http_header.specs.Token.{IsToken};
ghost use Rattle.http_uri.specs.Uri.{Spells, SpellsNone};
ghost use Rattle.http_cache_fields.specs.Headers.{headers_of};
ghost use Rattle.http_cache_rules.specs.Exchange.{Exchange, exchange_in};
ghost use Rattle.http_cache_rules.specs.Options.{options_of};
ghost use Rattle.http_cache_compact.specs.Compact.{number_4, fields_of, texts_of, has_numbers, number_2, options_at, time_of, AreTextsIn, IsCompactOf};

use crate::VERSION;
use crate::fields::{after_fields, cut, headers_in};
use crate::numbers::{number_2, number_4, options_in, time_in};
use http::method::MethodError;
use http::{Method, StatusCode, Uri};
use http_cache_fields::CacheError;
use http_cache_rules::options::CacheOptions;
use http_cache_rules::parts::StoredParts;
use http_uri::UriError;
use jiff::Timestamp;
use std::alloc::Global;

/// The texts of a form, each from its beginning. The texts of field lines extend to the end of the
/// form.
#[derive(Clone, Copy)]
pub(crate) struct Texts<'a> {
    method: &'a [u8],
    target: &'a [u8],
    request: &'a [u8],
    response: &'a [u8],
}

fn texts_in(bytes: &[u8]) -> Option<Texts<'_>>
    requires { 52 ≤ length bytes.now }
    ensures some { IfSome result (λ t.
        AreTextsIn bytes.now t.method.now t.target.now t.request.now t.response.now) }
    ensures none { IfNone result (texts_of bytes.now ≡ None) }
{
    let (_, texts) = bytes.split_at(52);
    let method = cut(texts, number_4(bytes, 36))?;
    let target = cut(method.rest, number_4(bytes, 40))?;
    let response = after_fields(number_4(bytes, 44), target.rest)?;
    let end = after_fields(number_4(bytes, 48), response)?;
    if !end.is_empty() {
        return None;
    }
    Some(Texts {
        method: method.front,
        target: target.front,
        request: target.rest,
        response,
    })
}

fn method_of(alloc: Global, bytes: &[u8]) -> Result<Method, CacheError>
    ensures value { IfOk result (λ method. method ≡ bytes.now) }
    ensures token { OnOk result (IsToken bytes.now) }
    ensures malformed { IsErrOf result CacheError.Malformed → ¬ (IsToken bytes.now) }
    ensures never_full { result ≢ Err CacheError.HeaderMapFull }
    ensures printable { result ≢ Err CacheError.DateNotPrintable }
{
    match Method::from_bytes(alloc, bytes) {
        Ok(method) => Ok(method),
        Err(MethodError::OutOfMemory) => Err(CacheError::Memory),
        Err(MethodError::Invalid) => Err(CacheError::Malformed),
    }
}

fn target_of(alloc: Global, bytes: &[u8]) -> Result<Uri, CacheError>
    ensures value { IfOk result (Spells bytes.now) }
    ensures malformed { IsErrOf result CacheError.Malformed → SpellsNone bytes.now }
    ensures never_full { result ≢ Err CacheError.HeaderMapFull }
    ensures printable { result ≢ Err CacheError.DateNotPrintable }
{
    match Uri::from_bytes(alloc, bytes) {
        Ok(target) => Ok(target),
        Err(UriError::OutOfMemory) => Err(CacheError::Memory),
        Err(UriError::Invalid(_)) => Err(CacheError::Malformed),
    }
}

#[derive(Clone, Copy)]
struct Numbers {
    options: CacheOptions,
    response_time: Timestamp,
    status: StatusCode,
}

// Returns the numbers of a form, if they are in range.
#[tactic(auto, unfolding(crate::specs::Compact::has_numbers))]
fn numbers_in(bytes: &[u8]) -> Option<Numbers>
    ensures valid { OnSome result (has_numbers bytes.now ≡ true) }
    ensures length { OnSome result (52 ≤ length bytes.now) }
    ensures options { IfSome result (λ n. options_of n.options ≡ options_at bytes.now) }
    ensures time { IfSome result (λ n. time_of bytes.now ≡ Some n.response_time.nanosecond) }
    ensures status { IfSome result (λ n. n.status ≡ number_2 bytes.now 34) }
    ensures code { IfSome result (λ n. IsStatusCode n.status) }
    ensures none { IfNone result (has_numbers bytes.now ≡ true → IsSome (time_of bytes.now)
        → IsStatusCode (number_2 bytes.now 34) → ⊥) }
{
    if bytes.len() < 52 || bytes[0] != VERSION {
        return None;
    }
    let options = options_in(bytes)?;
    let response_time = time_in(bytes)?;
    let status = StatusCode::from_u16(number_2(bytes, 34)).ok()?;
    Some(Numbers {
        options,
        response_time,
        status,
    })
}

/// Returns what a policy keeps, from a compact form.
///
/// # Errors
///
/// `Malformed` if the bytes are no compact form, and `Memory` if there is not enough memory.
pub fn parts_from_compact(alloc: Global, bytes: &[u8]) -> Result<StoredParts, CacheError>
    ensures found { IfOk result (λ parts. IsCompactOf bytes.now (exchange_in parts)) }
    ensures malformed { IsErrOf result CacheError.Malformed
        → (e : Exchange) → IsCompactOf bytes.now e → ⊥ }
    ensures never_full { result ≢ Err CacheError.HeaderMapFull }
    ensures printable { result ≢ Err CacheError.DateNotPrintable }
{
    let Some(numbers) = numbers_in(bytes) else {
        return Err(CacheError::Malformed);
    };
    let Some(texts) = texts_in(bytes) else {
        return Err(CacheError::Malformed);
    };
    Ok(StoredParts {
        target: target_of(alloc, texts.target)?,
        method: method_of(alloc, texts.method)?,
        status: numbers.status,
        request_headers: headers_in(alloc, number_4(bytes, 44), texts.request)?,
        response_headers: headers_in(alloc, number_4(bytes, 48), texts.response)?,
        options: numbers.options,
        response_time: numbers.response_time,
    })
}

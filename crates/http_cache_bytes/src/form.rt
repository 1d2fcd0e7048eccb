//! Reads policies from stored forms, and writes them.
ghost use Rattle.std.specs.Prelude.{◌≡◌, ◌≢◌, ◌↔◌, false, Err, IfOk, IsErrOf, IsOkUnless, string_bytes, slice_index};
ghost use Rattle.serde_json.specs.View.{view};
ghost use Rattle.http_cache_semantics.specs.Options.{options_of};
ghost use Rattle.http_cache_semantics.specs.Exchange.{Exchange, exchange_of};
ghost use Rattle.http_cache_semantics.specs.Messages.{request_seen};
ghost use Rattle.http_heads.specs.Heads.{IsNoResponse, OverfillsResponse};
ghost use Rattle.http_cache_semantics.specs.Kept.{kept_exchange};
ghost use Rattle.http_cache_semantics.specs.Stored.{Reads, ReadsBack};
ghost use Rattle.http_cache_compact.specs.Compact.{IsCompactOf};
ghost use Rattle.http_cache_bytes.specs.Cause.{ForResponse, IsNoExchange, OverfillsExchange};
ghost use Rattle.http_cache_bytes.specs.Form.{is_compact, IsTextFor, IsJsonOf, IsNoJson, IsNoCompact, IsNoForm, IsPolicyIn, IsPolicyOf, IsWrittenFor, IsStoredFor};

use crate::heads::{request_in, response_in};
use http::request;
use http_cache_compact::{Kept, VERSION, compact_of, parts_from_compact};
use http_cache_semantics::{CacheError, CacheOptions, CachePolicy};
use jiff::Timestamp;
use serde_json::Value;
use std::alloc::Global;
use std::hash::RandomState;

/// The form in which a policy is written.
#[derive(Clone, Copy, Debug, PartialEq, Eq)]
pub enum Form {
    /// The compact form, which is read the fastest.
    Compact,
    /// JSON.
    Json,
}

/// A policy to store with a response.
#[derive(Drop)]
pub struct Stored {
    /// The stored form of the policy.
    pub form: Vec<u8>,
    /// Whether the response may be stored.
    pub storable: bool,
}

fn json_of(alloc: Global, policy: &CachePolicy) -> Result<String, CacheError>
    ensures text { IfOk result (λ text. IsTextFor policy.now (string_bytes text)) }
    ensures json { IfOk result (λ text. is_compact (string_bytes text) ≡ false) }
    ensures only_memory { IsOkUnless result CacheError.Memory }
{
    let value = policy.to_value(alloc)?;
    Ok(value.to_string(alloc)?)
}

fn compact_of_policy(alloc: Global, policy: &CachePolicy) -> Result<Vec<u8>, CacheError>
    ensures back { IfOk result (λ bytes. (f : Exchange)
        → IsCompactOf bytes.items f ↔ ReadsBack policy.now f) }
    ensures compact { IfOk result (λ bytes. slice_index bytes.items 0 ≡ 1) }
    ensures only_memory { IsOkUnless result CacheError.Memory }
{
    let kept = Kept {
        target: policy.stored_target(),
        method: policy.stored_method(),
        status: policy.stored_status(),
        request_headers: policy.stored_request_headers(),
        response_headers: policy.stored_headers(),
        options: policy.stored_options(),
        response_time: policy.stored_response_time(),
    };
    match compact_of(alloc, &kept) {
        Ok(bytes) => Ok(bytes),
        Err(_) => Err(CacheError::Memory),
    }
}

fn form_of(alloc: Global, form: Form, policy: &CachePolicy) -> Result<Vec<u8>, CacheError>
    requires { kept_exchange policy.now ≡ policy.now }
    ensures form { IfOk result (λ bytes. IsWrittenFor policy.now bytes.items) }
    ensures only_memory { IsOkUnless result CacheError.Memory }
{
    match form {
        Form::Compact => compact_of_policy(alloc, policy),
        Form::Json => Ok(json_of(alloc, policy)?.into_bytes()),
    }
}

pub(crate) fn stored_of(
    alloc: Global,
    form: Form,
    policy: &CachePolicy,
) -> Result<Stored, CacheError>
    requires { kept_exchange policy.now ≡ policy.now }
    ensures stored { IfOk result (IsStoredFor policy.now) }
    ensures only_memory { IsOkUnless result CacheError.Memory }
{
    Ok(Stored {
        form: form_of(alloc, form, policy)?,
        storable: policy.is_storable(),
    })
}

fn policy_of_value(alloc: Global, value: &Value) -> Result<CachePolicy, CacheError>
    ensures found { IfOk result (λ policy. (e : Exchange) × Reads (view value.now) e
        × (policy ≡ kept_exchange e)) }
    ensures malformed { IsErrOf result CacheError.Malformed
        → (e : Exchange) → Reads (view value.now) e → ⊥ }
    ensures never_full { result ≢ Err CacheError.HeaderMapFull }
    ensures printable { result ≢ Err CacheError.DateNotPrintable }
{
    CachePolicy::from_value(alloc, value)
}

#[tactic(auto, unfolding(crate::specs::Form::IsNoJson))]
fn policy_in_json(alloc: Global, stored: &[u8]) -> Result<CachePolicy, CacheError>
    ensures found { IfOk result (λ policy. (e : Exchange) × IsJsonOf stored.now e
        × (policy ≡ kept_exchange e)) }
    ensures malformed { IsErrOf result CacheError.Malformed → IsNoJson stored.now }
    ensures never_full { result ≢ Err CacheError.HeaderMapFull }
    ensures printable { result ≢ Err CacheError.DateNotPrintable }
{
    match Value::from_slice(alloc, stored) {
        Ok(value) => policy_of_value(alloc, &value),
        Err(e) if e.is_memory() => Err(CacheError::Memory),
        Err(_) => Err(CacheError::Malformed),
    }
}

fn policy_in_compact(alloc: Global, stored: &[u8]) -> Result<CachePolicy, CacheError>
    ensures found { IfOk result (λ policy. (e : Exchange) × IsCompactOf stored.now e
        × (policy ≡ kept_exchange e)) }
    ensures malformed { IsErrOf result CacheError.Malformed → IsNoCompact stored.now }
    ensures never_full { result ≢ Err CacheError.HeaderMapFull }
    ensures printable { result ≢ Err CacheError.DateNotPrintable }
{
    match parts_from_compact(alloc, stored) {
        Ok(parts) => CachePolicy::from_details(alloc, parts),
        Err(e) => Err(e),
    }
}

// Returns whether the first byte is the version of the compact form.
fn is_compact(bytes: &[u8]) -> bool
    ensures { result ≡ is_compact bytes.now }
{
    !bytes.is_empty() && bytes[0] == VERSION
}

#[tactic(auto, unfolding(crate::specs::Form::IsNoForm))]
pub(crate) fn policy_in(alloc: Global, stored: &[u8]) -> Result<CachePolicy, CacheError>
    ensures found { IfOk result (IsPolicyIn stored.now) }
    ensures malformed { IsErrOf result CacheError.Malformed → IsNoForm stored.now }
    ensures never_full { result ≢ Err CacheError.HeaderMapFull }
    ensures printable { result ≢ Err CacheError.DateNotPrintable }
{
    if is_compact(stored) {
        policy_in_compact(alloc, stored)
    } else {
        policy_in_json(alloc, stored)
    }
}

fn policy_with(
    alloc: Global,
    keys: RandomState,
    request: &request::Parts,
    response: &[u8],
    options: CacheOptions,
    received: Timestamp,
) -> Result<CachePolicy, CacheError>
    ensures policy { IfOk result (λ policy. ForResponse response.now (λ answered. policy
        ≡ kept_exchange (exchange_of (request_seen request.now) answered (options_of options)
        received.nanosecond))) }
    ensures settled { IfOk result (λ policy. kept_exchange policy ≡ policy) }
    ensures malformed { IsErrOf result CacheError.Malformed → IsNoResponse response.now }
    ensures full { IsErrOf result CacheError.HeaderMapFull → OverfillsResponse response.now }
    ensures printable { result ≢ Err CacheError.DateNotPrintable }
{
    let response = response_in(alloc, keys, response)?;
    CachePolicy::new_options(alloc, request, &response, received, options)
}

fn policy_of(
    alloc: Global,
    keys: RandomState,
    request: &[u8],
    response: &[u8],
    options: CacheOptions,
    received: Timestamp,
) -> Result<CachePolicy, CacheError>
    ensures policy { IfOk result
        (IsPolicyOf request.now response.now (options_of options) received.nanosecond) }
    ensures settled { IfOk result (λ policy. kept_exchange policy ≡ policy) }
    ensures malformed { IsErrOf result CacheError.Malformed
        → IsNoExchange request.now response.now }
    ensures full { IsErrOf result CacheError.HeaderMapFull
        → OverfillsExchange request.now response.now }
    ensures printable { result ≢ Err CacheError.DateNotPrintable }
{
    let request = request_in(alloc, keys, request)?;
    policy_with(alloc, keys, &request, response, options, received)
}

/// Returns the stored form of the policy for a request and its response, and whether the response
/// may be stored (RFC 7234, section 3). `received` is the time at which the response was received.
///
/// # Errors
///
/// - `Malformed` if `request` is no head of a request or `response` no head of a response.
/// - `HeaderMapFull` if one has more fields than a header map holds.
/// - `Memory` if there is not enough memory.
pub fn new(
    alloc: Global,
    keys: RandomState,
    form: Form,
    request: &[u8],
    response: &[u8],
    options: CacheOptions,
    received: Timestamp,
) -> Result<Stored, CacheError>
    ensures stored { IfOk result (λ stored. (e : Exchange)
        × IsPolicyOf request.now response.now (options_of options) received.nanosecond e
        × IsStoredFor e stored) }
    ensures malformed { IsErrOf result CacheError.Malformed
        → IsNoExchange request.now response.now }
    ensures full { IsErrOf result CacheError.HeaderMapFull
        → OverfillsExchange request.now response.now }
    ensures printable { result ≢ Err CacheError.DateNotPrintable }
{
    let policy = policy_of(alloc, keys, request, response, options, received)?;
    stored_of(alloc, form, &policy)
}

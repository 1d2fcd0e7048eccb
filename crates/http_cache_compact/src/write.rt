//! Writes what a policy keeps in its compact form.
ghost use Rattle.std.specs.Prelude.{◌≡◌, ◌↔◌, ◌++◌, ◌<◌, ◌^◌, ◌/◌, slice_index, length, flat_map, IfOk, OnOk};
ghost use Rattle.http_cache_rules.specs.Options.{options_of};
ghost use Rattle.http_cache_compact.specs.Written.{flags_of, text_2, text_4, text_8, options_text, time_text, numbers_text, compact_text, field_text, fields_in};
ghost use Rattle.http_cache_compact.specs.Written.{IsWritableField, AreWritable, IsWritable, texts_kept, exchange_kept};
ghost use Rattle.http_cache_compact.specs.Compact.{IsCompactOf};
ghost use Rattle.http_cache_rules.specs.Exchange.{Exchange};
ghost use Rattle.http_cache_json.specs.ReadBack.{IsReadBack};
ghost use Rattle.http_uri.specs.Uri.{uri_text};
ghost use Rattle.std.specs.List.{AllByRecursion};
ghost use Rattle.http.specs.StatusCode.{IsStatusCode};
ghost use Rattle.http_header.specs.HeaderMap.{IsHeaderMap};
ghost use Rattle.jiff_core.specs.Timestamp.{IsTimestampNanos};
ghost use Rattle.http_cache_json.specs.FormData.{AreInRange};

use crate::VERSION;
use http::{HeaderMap, Method, StatusCode, Uri};
use http_cache_rules::options::CacheOptions;
use http_header::{HeaderName, HeaderValue};
use jiff::Timestamp;
use std::alloc::{AllocError, Global};

/// What a policy keeps, by reference.
#[derive(Clone, Copy)]
pub struct Kept<'a> {
    /// The target of the request.
    pub target: &'a Uri,
    /// The method of the request.
    pub method: &'a Method,
    /// The status of the response.
    pub status: StatusCode,
    /// The headers of the request.
    pub request_headers: &'a HeaderMap,
    /// The headers of the response.
    pub response_headers: &'a HeaderMap,
    /// The options of the policy.
    pub options: CacheOptions,
    /// The time at which the response was received.
    pub response_time: Timestamp,
}

// Returns a length of 4 bytes. A longer text than 4 GB counts as out of memory.
fn length_4(bytes: &[u8]) -> Result<u32, AllocError>
    ensures { IfOk result (λ n. n ≡ length bytes.now) }
{
    u32::try_from(bytes.len()).map_err(|_| AllocError)
}

fn length_2(bytes: &[u8]) -> Result<u16, AllocError>
    ensures { IfOk result (λ n. n ≡ length bytes.now) }
{
    u16::try_from(bytes.len()).map_err(|_| AllocError)
}

fn count_of(headers: &HeaderMap) -> Result<u32, AllocError>
    ensures count { IfOk result (λ n. n ≡ length (fields_in headers.now)) }
    ensures map { IsHeaderMap headers.now }
{
    match u32::try_from(headers.len()) {
        Ok(count) => Ok(count),
        Err(_) => Err(AllocError),
    }
}

#[tactic(auto, unfolding(crate::specs::Written::text_2))]
fn push_2(out: &mut Vec<u8>, number: u16) -> Result<(), AllocError>
    ensures { OnOk result (out.new.items ≡ out.old.items ++ text_2 number) }
{
    out.extend_from_slice(&number.to_be_bytes())
}

#[tactic(auto, unfolding(crate::specs::Written::text_4))]
fn push_4(out: &mut Vec<u8>, number: u32) -> Result<(), AllocError>
    ensures { OnOk result (out.new.items ≡ out.old.items ++ text_4 number) }
{
    out.extend_from_slice(&number.to_be_bytes())
}

#[tactic(auto, unfolding(crate::specs::Written::text_8))]
fn push_8(out: &mut Vec<u8>, number: u64) -> Result<(), AllocError>
    ensures { OnOk result (out.new.items ≡ out.old.items ++ text_8 number) }
{
    out.extend_from_slice(&number.to_be_bytes())
}

fn flags_of(options: &CacheOptions) -> u8
    ensures { result ≡ flags_of (options_of options.now) }
{
    let shared = if options.shared { 1 } else { 0 };
    if options.ignore_cargo_cult {
        shared + 2
    } else {
        shared
    }
}

#[tactic(auto, unfolding(crate::specs::Written::options_text))]
fn push_options(out: &mut Vec<u8>, options: &CacheOptions) -> Result<(), AllocError>
    ensures text { OnOk result (out.new.items
        ≡ out.old.items ++ options_text (options_of options.now)) }
    ensures range { OnOk result (AreInRange (options_of options.now)) }
    ensures immutable { OnOk result
        ((options_of options.now).immutable_nanos / 1_000_000_000 < 2 ^ 64) }
{
    let fraction = &options.cache_heuristic;
    let least = options.immutable_min_time_to_live;
    out.push(flags_of(options))?;
    push_4(out, fraction.numerator())?;
    push_4(out, fraction.denominator())?;
    push_8(out, least.as_secs())?;
    push_4(out, least.subsec_nanos())
}

#[tactic(auto, unfolding(crate::specs::Written::time_text))]
fn push_time(out: &mut Vec<u8>, time: Timestamp) -> Result<(), AllocError>
    ensures text { OnOk result (out.new.items ≡ out.old.items ++ time_text time.nanosecond) }
    ensures range { OnOk result (IsTimestampNanos time.nanosecond) }
{
    let second = time.to_plain().floor_second();
    let nanoseconds = time.as_nanosecond().rem_euclid(1_000_000_000) as u32;
    push_8(out, second.cast_unsigned())?;
    push_4(out, nanoseconds)
}

fn push_field(out: &mut Vec<u8>, name: &HeaderName, value: &HeaderValue) -> Result<(), AllocError>
    ensures text { OnOk result (out.new.items
        ≡ out.old.items ++ field_text (name.now, value.now.bytes)) }
    ensures writable { OnOk result (IsWritableField (name.now, value.now.bytes)) }
{
    let name = name.as_str().as_bytes();
    let value = value.as_bytes();
    let name_length = length_2(name)?;
    let value_length = length_4(value)?;
    push_2(out, name_length)?;
    push_4(out, value_length)?;
    out.extend_from_slice(name)?;
    out.extend_from_slice(value)
}

fn push_fields(out: &mut Vec<u8>, headers: &HeaderMap) -> Result<(), AllocError>
    ensures text { OnOk result (out.new.items
        ≡ out.old.items ++ flat_map field_text (fields_in headers.now)) }
    ensures writable { OnOk result (AllByRecursion IsWritableField (fields_in headers.now)) }
{
    for (name, value) in headers.iter() {
        push_field(out, name, value)?;
    }
    Ok(())
}

#[tactic(auto, unfolding(crate::specs::Written::numbers_text))]
fn push_numbers(
    out: &mut Vec<u8>,
    kept: &Kept<'_>,
    method: &[u8],
    target: &[u8],
) -> Result<(), AllocError>
    ensures text { OnOk result (out.new.items ≡ out.old.items
        ++ numbers_text (exchange_kept kept.now) (length method.now) (length target.now)
        (length (fields_in kept.now.request_headers.now))
        (length (fields_in kept.now.response_headers.now))) }
    ensures method { OnOk result (length method.now < 2 ^ 32) }
    ensures target { OnOk result (length target.now < 2 ^ 32) }
    ensures request { OnOk result (length (fields_in kept.now.request_headers.now) < 2 ^ 32) }
    ensures response { OnOk result (length (fields_in kept.now.response_headers.now) < 2 ^ 32) }
    ensures maps { OnOk result (IsHeaderMap kept.now.request_headers.now
        × IsHeaderMap kept.now.response_headers.now) }
    ensures numbers { OnOk result (AreInRange (options_of kept.now.options)
        × ((options_of kept.now.options).immutable_nanos / 1_000_000_000 < 2 ^ 64)
        × IsTimestampNanos kept.now.response_time.nanosecond × IsStatusCode kept.now.status) }
{
    out.push(VERSION)?;
    push_options(out, &kept.options)?;
    push_time(out, kept.response_time)?;
    push_2(out, kept.status.as_u16())?;
    push_4(out, length_4(method)?)?;
    push_4(out, length_4(target)?)?;
    push_4(out, count_of(kept.request_headers)?)?;
    push_4(out, count_of(kept.response_headers)?)
}

// Writes the compact form, and shows what holds of all its parts.
fn write(alloc: Global, kept: &Kept<'_>) -> Result<Vec<u8>, AllocError>
    ensures text { IfOk result (λ out.
        out.items ≡ compact_text (exchange_kept kept.now) (texts_kept kept.now)) }
    ensures writable { OnOk result (IsWritable (exchange_kept kept.now) (texts_kept kept.now)) }
    ensures maps { OnOk result (IsHeaderMap kept.now.request_headers.now
        × IsHeaderMap kept.now.response_headers.now) }
{
    let target = kept.target;
    let target = format!(in alloc; "{target}")?;
    let method = kept.method.as_str().as_bytes();
    let mut out = Vec::with_capacity(alloc, 1024)?;
    push_numbers(&mut out, kept, method, target.as_bytes())?;
    out.extend_from_slice(method)?;
    out.extend_from_slice(target.as_bytes())?;
    push_fields(&mut out, kept.request_headers)?;
    push_fields(&mut out, kept.response_headers)?;
    Ok(out)
}

/// Returns the compact form of what a policy keeps.
///
/// # Errors
///
/// `AllocError` if there is not enough memory, or a text is longer than 4 GB.
pub fn compact_of(alloc: Global, kept: &Kept<'_>) -> Result<Vec<u8>, AllocError>
    ensures reads_back { IfOk result (λ out. (e : Exchange)
        → IsCompactOf out.items e ↔ IsReadBack (exchange_kept kept.now) e) }
    ensures version { IfOk result (λ out. slice_index out.items 0 ≡ 1) }
{
    write(alloc, kept)
}

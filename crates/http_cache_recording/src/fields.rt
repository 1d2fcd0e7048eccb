//! Reads the header fields of a recording.
ghost use Rattle.std.specs.Prelude.{◌≡◌, ◌≤◌, ◌-◌, true, length, fold, option_map, string_bytes, IfOk, IfSome, OnOk};
ghost use Rattle.std.specs.List.{prefix_len, suffix_len};
ghost use Rattle.http_header.specs.FieldName.{IsHeaderName};
ghost use Rattle.serde_json.specs.View.{view};
ghost use Rattle.http_cache_fields.specs.Headers.{headers_of, IsFull};
ghost use Rattle.http_cache_recording.specs.Fields.{is_blank, trimmed, value_of_line, field_name, header_name, has_room};
ghost use Rattle.http_cache_recording.specs.Fields.{with_value, with_line, with_lines, with_header, value_text};
ghost use Rattle.http_cache_recording.specs.Fields.{headers_in, without_no_cache};

use crate::printed::text_in;
use http_cache_fields::headers::{append, remove};
use http_cache_fields::pragma::pragma_forbids;
use http_cache_fields::reading::says;
use http_header::{
    CACHE_CONTROL, HeaderMap, HeaderName, HeaderNameError, HeaderValue, HeaderValueError, MAX_KEYS,
    PRAGMA,
};
use serde_json::Value;
use std::alloc::{AllocError, Global};

/// Returns whether one more field fits, whatever its name.
pub fn has_room(headers: &HeaderMap) -> bool
    ensures value { result ≡ has_room (headers_of headers.now) }
    ensures room { result ≡ true → ¬ (IsFull (headers_of headers.now)) }
{
    headers.len() < MAX_KEYS
}

fn is_blank(b: u8) -> bool
    ensures { result ≡ is_blank b }
{
    b == b' ' || b == b'\t' || b == b'\r'
}

fn blanks_len(bytes: &[u8]) -> usize
    ensures value { result ≡ prefix_len is_blank bytes.now }
    ensures within { result ≤ length bytes.now }
{
    bytes.iter().take_while(|b| is_blank(**b)).count()
}

fn len_without_blanks(bytes: &[u8]) -> usize
    ensures value { result ≡ length bytes.now - suffix_len is_blank bytes.now }
    ensures within { result ≤ length bytes.now }
{
    let mut len = bytes.len();
    while len > 0 && is_blank(bytes[len - 1]) {
        len -= 1;
    }
    len
}

#[tactic(auto, unfolding(crate::specs::Fields::trimmed))]
fn trimmed(line: &[u8]) -> &[u8]
    ensures { result.now ≡ trimmed line.now }
{
    let rest = &line[blanks_len(line)..];
    &rest[..len_without_blanks(rest)]
}

/// Returns the content of a line without blanks at both ends, if it is a value (RFC 9110, section
/// 5.5).
#[tactic(auto, unfolding(crate::specs::Fields::value_of_line))]
pub fn value_of_line(alloc: Global, line: &[u8]) -> Result<Option<HeaderValue>, AllocError>
    ensures { IfOk result (λ v. option_map (λ w. w.bytes) v ≡ value_of_line line.now) }
{
    match HeaderValue::from_bytes(alloc, trimmed(line)) {
        Ok(value) => Ok(Some(value)),
        Err(HeaderValueError::OutOfMemory) => Err(AllocError),
        Err(HeaderValueError::Invalid) => Ok(None),
    }
}

/// Returns a text as a field name, in lower case, if it is one (RFC 9110, section 5.1).
#[tactic(auto, unfolding(crate::specs::Fields::field_name))]
pub fn field_name(alloc: Global, text: &str) -> Result<Option<HeaderName>, AllocError>
    ensures value { IfOk result (λ name. name ≡ field_name text.now) }
    ensures valid { IfOk result (λ name. IfSome name IsHeaderName) }
{
    match HeaderName::from_bytes(alloc, text.as_bytes()) {
        Ok(name) => Ok(Some(name)),
        Err(HeaderNameError::OutOfMemory) => Err(AllocError),
        Err(HeaderNameError::Invalid) => Ok(None),
    }
}

// Host isn't read, since each target has its own.
#[tactic(auto, unfolding(crate::specs::Fields::header_name))]
fn header_name(alloc: Global, header: &Value) -> Result<Option<HeaderName>, AllocError>
    ensures value { IfOk result (λ name. name ≡ header_name (view header.now)) }
    ensures valid { IfOk result (λ name. IfSome name IsHeaderName) }
{
    let Some(text) = text_in(header, "name") else {
        return Ok(None);
    };
    match field_name(alloc, text)? {
        Some(name) => if name.as_str() == "host" {
            Ok(None)
        } else {
            Ok(Some(name))
        },
        None => Ok(None),
    }
}

// A value without room is left out.
fn add_value(
    headers: &mut HeaderMap,
    name: &HeaderName,
    value: HeaderValue,
) -> Result<(), AllocError>
    requires { IsHeaderName name.now }
    ensures { OnOk result (headers_of headers.new
        ≡ with_value name.now (headers_of headers.old) value.bytes) }
{
    if !has_room(headers) {
        return Ok(());
    }
    // Since there is room, the only error is out of memory.
    match append(headers, name, value) {
        Ok(()) => Ok(()),
        Err(_) => Err(AllocError),
    }
}

fn add_line(
    alloc: Global,
    headers: &mut HeaderMap,
    name: &HeaderName,
    line: &str,
) -> Result<(), AllocError>
    requires { IsHeaderName name.now }
    ensures { OnOk result (headers_of headers.new
        ≡ with_line name.now (headers_of headers.old) line.now) }
{
    match value_of_line(alloc, line.as_bytes())? {
        Some(value) => add_value(headers, name, value),
        None => Ok(()),
    }
}

#[tactic(auto, unfolding(crate::specs::Fields::with_lines))]
fn add_lines(
    alloc: Global,
    headers: &mut HeaderMap,
    name: &HeaderName,
    text: &str,
) -> Result<(), AllocError>
    requires { IsHeaderName name.now }
    ensures { OnOk result (headers_of headers.new
        ≡ with_lines name.now (headers_of headers.old) text.now) }
{
    for line in text.split('\n') {
        add_line(alloc, headers, name, line)?;
    }
    Ok(())
}

// A text, or a whole number.
fn value_text(alloc: Global, value: &Value) -> Result<Option<String>, AllocError>
    ensures { IfOk result (λ text. option_map string_bytes text ≡ value_text (view value.now)) }
{
    if let Some(text) = value.as_str() {
        return Ok(Some(String::from_str(alloc, text)?));
    }
    if let Some(n) = value.as_u64() {
        return Ok(Some(format!(in alloc; "{n}")?));
    }
    if let Some(n) = value.as_i64() {
        return Ok(Some(format!(in alloc; "{n}")?));
    }
    Ok(None)
}

#[tactic(auto, unfolding(crate::specs::Fields::with_header))]
fn add_header(alloc: Global, headers: &mut HeaderMap, header: &Value) -> Result<(), AllocError>
    ensures { OnOk result (headers_of headers.new
        ≡ with_header (headers_of headers.old) (view header.now)) }
{
    let Some(name) = header_name(alloc, header)? else {
        return Ok(());
    };
    let Some(value) = header.get("value") else {
        return Ok(());
    };
    let Some(text) = value_text(alloc, value)? else {
        return Ok(());
    };
    add_lines(alloc, headers, &name, text.as_str())
}

fn add_headers(alloc: Global, headers: &mut HeaderMap, list: &[Value]) -> Result<(), AllocError>
    ensures { OnOk result (headers_of headers.new
        ≡ fold (λ h v. with_header h (view v)) (headers_of headers.old) list.now) }
{
    for header in list {
        add_header(alloc, headers, header)?;
    }
    Ok(())
}

/// Returns the headers of a list, without Host. Fields without room are left out, and a value that
/// is no list has none.
#[tactic(auto, unfolding(crate::specs::Fields::headers_in))]
pub(crate) fn headers_in(alloc: Global, list: Option<&Value>) -> Result<HeaderMap, AllocError>
    ensures { IfOk result (λ headers. headers_of headers
        ≡ headers_in (option_map (λ v. view v.now) list.entry)) }
{
    let mut headers = HeaderMap::new(alloc);
    let Some(list) = list else {
        return Ok(headers);
    };
    let Some(values) = list.as_array() else {
        return Ok(headers);
    };
    add_headers(alloc, &mut headers, values.as_slice())?;
    Ok(headers)
}

/// Removes Cache-Control and Pragma, if they have `no-cache` (RFC 7234, sections 5.2.1.4 and 5.4).
#[tactic(auto, unfolding(crate::specs::Fields::without_no_cache))]
pub(crate) fn remove_no_cache(headers: &mut HeaderMap)
    ensures { headers_of headers.new ≡ without_no_cache (headers_of headers.old) }
{
    let says = says(headers, "no-cache");
    let forbids = pragma_forbids(headers);
    if says {
        remove(headers, CACHE_CONTROL);
    }
    if forbids {
        remove(headers, PRAGMA);
    }
}

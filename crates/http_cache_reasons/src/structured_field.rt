//! Writes items of structured fields (RFC 8941).
ghost use Rattle.std.specs.Prelude.{◌≡◌, ◌++◌, false, slice_get, string_bytes, OnOk};
ghost use Rattle.std.specs.Option.{option_map_or};
ghost use Rattle.std.specs.List.{list_all};
ghost use Rattle.http_cache_reasons.specs.StructuredField.{is_in_token, is_bare_token, escaped, printable, string_item};
ghost use Rattle.http_cache_reasons.specs.StructuredField.{begins_token, name_item};

use http_header::is_token_char;
use std::alloc::AllocError;

fn is_in_token(b: u8) -> bool
    ensures { result ≡ is_in_token b }
{
    is_token_char(b) || b == b':' || b == b'/'
}

fn begins_as_token(text: &str) -> bool
    ensures { result ≡ option_map_or begins_token (slice_get text.now 0) false }
{
    match text.as_bytes().first() {
        Some(first) => first.is_ascii_alphabetic() || *first == b'*',
        None => false,
    }
}

fn is_all_in_token(text: &str) -> bool
    ensures { result ≡ list_all is_in_token text.now }
{
    text.as_bytes().iter().all(|b| is_in_token(*b))
}

// RFC 8941, section 3.3.4.
fn is_bare_token(text: &str) -> bool
    ensures { result ≡ is_bare_token text.now }
{
    begins_as_token(text) && is_all_in_token(text)
}

fn push_byte(text: &mut String, byte: u8) -> Result<(), AllocError>
    ensures { OnOk result
        (string_bytes text.new ≡ string_bytes text.old ++ escaped (printable byte)) }
{
    if byte < b' ' || byte > b'~' {
        return text.push('?');
    }
    if byte == b'"' || byte == b'\\' {
        text.push('\\')?;
    }
    text.push(char::from(byte))
}

/// Writes a text as a string, with `?` for each byte that a string can't have (RFC 8941, section
/// 3.3.3).
pub(crate) fn push_string(text: &mut String, value: &str) -> Result<(), AllocError>
    ensures { OnOk result
        (string_bytes text.new ≡ string_bytes text.old ++ string_item value.now) }
{
    text.push('"')?;
    for byte in value.as_bytes() {
        push_byte(text, *byte)?;
    }
    text.push('"')
}

/// Writes a text as a token if it is one, otherwise as a string.
pub(crate) fn push_name(text: &mut String, name: &str) -> Result<(), AllocError>
    ensures { OnOk result (string_bytes text.new ≡ string_bytes text.old ++ name_item name.now) }
{
    if is_bare_token(name) {
        text.push_str(name)
    } else {
        push_string(text, name)
    }
}

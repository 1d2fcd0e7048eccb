//! The member of Via that an intermediary adds (RFC 9110, section 7.6.3).
ghost use Rattle.std.specs.Prelude.{◌≡◌, ◌∷◌, ◌++◌, [], string_bytes, IfOk, OnOk};
ghost use Rattle.http_cache_intermediary.specs.Via.{via_byte, via_name, protocol, member_of, received_by};

use http::Version;
use http_cache_fields::text::trim;
use http_header::is_token_char;
use std::alloc::{AllocError, Global};

// Writes a byte, or `-` if a token can't have it.
fn push_byte(text: &mut String, byte: u8) -> Result<(), AllocError>
    ensures { OnOk result
        (string_bytes text.new ≡ string_bytes text.old ++ via_byte byte ∷ []) }
{
    if byte < 128 && is_token_char(byte) {
        return text.push(char::from(byte));
    }
    text.push('-')
}

/// Returns the name of an intermediary in Via, which is a token.
pub(crate) fn via_name(alloc: Global, name: &str) -> Result<String, AllocError>
    ensures { IfOk result (λ text. string_bytes text ≡ via_name name.now) }
{
    if name.is_empty() {
        return String::from_str(alloc, "-");
    }
    let mut text = String::with_capacity(alloc, name.len())?;
    for byte in name.as_bytes() {
        push_byte(&mut text, *byte)?;
    }
    Ok(text)
}

fn protocol(version: Version) -> &'static str
    ensures { result.now ≡ protocol version }
{
    if version == Version::HTTP_10 {
        "1.0 "
    } else {
        "1.1 "
    }
}

// Returns the member for a message that was received with a version.
pub(crate) fn member_of(alloc: Global, version: Version, name: &str) -> Result<String, AllocError>
    ensures { IfOk result (λ text. string_bytes text ≡ member_of version name.now) }
{
    let protocol = protocol(version);
    let mut text = String::with_capacity(alloc, protocol.len().saturating_add(name.len()))?;
    text.push_str(protocol)?;
    text.push_str(name)?;
    Ok(text)
}

// Returns the name in a member: the text after the protocol, up to a comment.
pub(crate) fn received_by(member: &str) -> &str
    ensures { result.now ≡ received_by member.now }
{
    let Some((_, rest)) = member.split_once(' ') else {
        return "";
    };
    let rest = trim(rest);
    match rest.split_once(' ') {
        Some((name, _)) => name,
        None => rest,
    }
}

//! Makes the targets of requests from urls.
ghost use Rattle.std.specs.Prelude.{◌≡◌, ◌<◌, ◌≤◌, ◌-◌, ◌++◌, length, slice_index, option_map, string_bytes, IfOk, OnOk};
ghost use Rattle.std.specs.List.{position_or_len, prefix_len};
ghost use Rattle.http_cache_recording.specs.Target.{without_fragment, is_end, user_len, has_user, without_user, is_web};
ghost use Rattle.http_cache_recording.specs.Target.{is_scheme_byte, scheme_shown, other_scheme, host_of, path_of, parts_after, url_parts, target_text};

use percent_encoding::{AsciiSet, CONTROLS, ascii_set, percent_encode};
use std::alloc::{AllocError, Global};

// No request can have these bytes, nor those outside ASCII, unescaped (RFC 3986, section 2).
const ESCAPED: AsciiSet = ascii_set!(CONTROLS.add(b' ').add(b'"').add(b'<').add(b'>').add(b'`'));

fn without_fragment(url: &str) -> &str
    ensures { result.now ≡ without_fragment url.now }
{
    match url.split_once('#') {
        Some((front, _)) => front,
        None => url,
    }
}

fn end_of(text: &[u8], end: u8, other_end: u8) -> usize
    ensures value { result ≡ position_or_len (is_end end other_end) text.now }
    ensures within { result ≤ length text.now }
{
    text.iter()
        .take_while(|b| !(**b == end || **b == other_end))
        .count()
}

/// Returns how many bytes user, password and the `@` after them take at the begin of a text, before
/// the first byte that ends an authority.
#[tactic(auto, unfolding(crate::specs::Target::user_len))]
pub(crate) fn user_len(text: &[u8], end: u8, other_end: u8) -> usize
    ensures value { result ≡ user_len end other_end text.now }
    ensures within { result ≤ length text.now }
    ensures cut { 0 < result → slice_index text.now (result - 1) ≡ 64 }
{
    let front = &text[..end_of(text, end, other_end)];
    let mut len = front.len();
    while len > 0 && front[len - 1] != b'@' {
        len -= 1;
    }
    len
}

/// Returns whether a url begins with a user instead of a scheme.
pub(crate) fn has_user(url: &str) -> bool
    ensures { result ≡ has_user url.now }
{
    user_len(url.as_bytes(), b'/', b'?') > 0
}

// In any letter case.
fn is_web(scheme: &str) -> bool
    ensures { result ≡ is_web scheme.now }
{
    scheme.eq_ignore_ascii_case("http") || scheme.eq_ignore_ascii_case("https")
}

fn is_scheme_byte(b: u8) -> bool
    ensures { result ≡ is_scheme_byte b }
{
    b.is_ascii_alphanumeric() || b == b'+' || b == b'-' || b == b'.'
}

fn scheme_len(bytes: &[u8]) -> usize
    ensures { result ≡ prefix_len is_scheme_byte bytes.now }
{
    bytes.iter().take_while(|b| is_scheme_byte(**b)).count()
}

// The text is printed, and might be secret if it is no scheme (RFC 3986, section 3.1).
#[tactic(auto, unfolding(crate::specs::Target::scheme_shown))]
fn scheme_shown(text: &str) -> &str
    ensures { result.now ≡ scheme_shown text.now }
{
    let len = scheme_len(text.as_bytes());
    if len > 0 && len == text.len() {
        text
    } else {
        "none"
    }
}

/// Returns the scheme of a url, if it is neither http nor https; `none` if it has none.
#[tactic(auto, unfolding(crate::specs::Target::other_scheme))]
pub(crate) fn other_scheme(url: &str) -> Option<&str>
    ensures { option_map (λ s. s.now) result ≡ other_scheme url.now }
{
    match url.split_once(':') {
        Some((scheme, _)) => if is_web(scheme) {
            None
        } else {
            Some(scheme_shown(scheme))
        },
        None => Some("none"),
    }
}

/// The parts of a url, as they are written.
#[derive(Clone, Copy)]
pub(crate) struct UrlParts<'a> {
    pub scheme: &'a str,
    pub authority: &'a [u8],
    pub path: &'a [u8],
}

fn without_user(text: &[u8]) -> &[u8]
    ensures { result.now ≡ without_user text.now }
{
    &text[user_len(text, b'/', b'?')..]
}

fn parts_after<'a>(scheme: &'a str, rest: &'a [u8]) -> Option<UrlParts<'a>>
    ensures { option_map (λ p. record {
      scheme = p.scheme.now;
      authority = p.authority.now;
      path = p.path.now;
    }) result ≡ parts_after scheme.now rest.now }
{
    if rest.len() < 2 || rest[0] != b'/' || rest[1] != b'/' {
        return None;
    }
    let text = without_user(&rest[2..]);
    let (authority, path) = text.split_at(end_of(text, b'/', b'?'));
    if authority.is_empty() {
        return None;
    }
    Some(UrlParts {
        scheme,
        authority,
        path,
    })
}

/// Returns the parts of a url, without fragment, user and password, if `//` and an authority follow
/// its scheme.
#[tactic(auto, unfolding(crate::specs::Target::url_parts))]
pub(crate) fn url_parts(url: &str) -> Option<UrlParts<'_>>
    ensures { option_map (λ p. record {
      scheme = p.scheme.now;
      authority = p.authority.now;
      path = p.path.now;
    }) result ≡ url_parts url.now }
{
    let (scheme, rest) = without_fragment(url).split_once(':')?;
    parts_after(scheme, rest.as_bytes())
}

// It is in lower case, and escaped.
#[tactic(auto, unfolding(crate::specs::Target::host_of))]
fn push_host(alloc: Global, out: &mut String, authority: &[u8]) -> Result<(), AllocError>
    ensures { OnOk result (string_bytes out.new ≡ string_bytes out.old ++ host_of authority.now) }
{
    let mut bytes = Vec::from_slice(alloc, authority)?;
    bytes.as_mut_slice().make_ascii_lowercase();
    percent_encode(bytes.as_slice(), ESCAPED).append_to(out)
}

// An empty path is `/`.
#[tactic(auto, unfolding(crate::specs::Target::path_of))]
fn push_path(out: &mut String, path: &[u8]) -> Result<(), AllocError>
    ensures { OnOk result (string_bytes out.new ≡ string_bytes out.old ++ path_of path.now) }
{
    if path.is_empty() || path[0] != b'/' {
        out.push_str("/")?;
    }
    percent_encode(path, ESCAPED).append_to(out)
}

/// Returns the text of a target.
#[tactic(auto, unfolding(crate::specs::Target::target_text))]
pub(crate) fn target_text(alloc: Global, parts: &UrlParts<'_>) -> Result<String, AllocError>
    ensures { IfOk result (λ text. string_bytes text ≡ target_text (record {
      scheme = parts.now.scheme.now;
      authority = parts.now.authority.now;
      path = parts.now.path.now;
    })) }
{
    let mut text = String::from_str(alloc, parts.scheme)?;
    text.make_ascii_lowercase();
    text.push_str("://")?;
    push_host(alloc, &mut text, parts.authority)?;
    push_path(&mut text, parts.path)?;
    Ok(text)
}

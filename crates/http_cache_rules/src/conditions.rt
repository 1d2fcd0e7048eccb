//! Evaluates If-None-Match and If-Modified-Since against a stored response (RFC 9110, sections 13.1
//! and 13.2.2). Nothing here allocates.
ghost use Rattle.std.specs.Prelude.{◌≡◌, ◌∷◌, ◌<◌, [], ℕ, List, length, bytes_eq, option_copied, MatchOption};
ghost use Rattle.std.specs.Prelude.{option_map, unwrap_or, false, codes};
ghost use Rattle.std.specs.List.{list_any};
ghost use Rattle.http_cache_fields.specs.Headers.{headers_of, values, first_text};
ghost use Rattle.http_cache_fields.specs.Pieces.{text_lines};
ghost use Rattle.http_cache_rules.specs.Conditions.{opaque_tags, has_tag, names_stored, only_text, asked_since};
ghost use Rattle.http_cache_rules.specs.Conditions.{last_change, is_unchanged, has_stored_already};

use crate::dates::read_any_date;
use http::header::{DATE, ETAG, IF_MODIFIED_SINCE, IF_NONE_MATCH, LAST_MODIFIED};
use http::{HeaderMap, HeaderValue};
use http_cache_fields::headers::{contains_key, first_text};
use http_cache_fields::text::trim;
use jiff::Timestamp;

// Returns the first opaque tag of a text, and the text after its second quote.
fn first_tag(text: &str) -> Option<(&str, &str)>
    ensures { MatchOption result (opaque_tags text.now ≡ [])
        (λ cut. (opaque_tags text.now ≡ cut.0.now ∷ opaque_tags cut.1.now)
        × (length cut.1.now < length text.now)) }
{
    match text.split_once('"') {
        Some((_, after)) => after.split_once('"'),
        None => None,
    }
}

fn has_opaque(line: &str, opaque: &str) -> bool
    ensures { result ≡ list_any (bytes_eq opaque.now) (opaque_tags line.now) }
{
    let mut rest = line;
    while let Some((found, after)) = first_tag(rest) {
        if opaque == found {
            return true;
        }
        rest = after;
    }
    false
}

// Compares weakly (RFC 9110, section 8.8.3.2).
fn has_tag(line: &str, tag: &str) -> bool
    ensures { result ≡ has_tag line.now tag.now }
{
    match first_tag(tag) {
        Some((opaque, _)) => has_opaque(line, opaque),
        None => trim(line) == trim(tag),
    }
}

// RFC 9110, section 13.1.2.
fn names_stored(tag: Option<&str>, line: &str) -> bool
    ensures { result ≡ names_stored (option_copied tag.entry) line.now }
{
    if trim(line) == "*" {
        return true;
    }
    match tag {
        Some(tag) => has_tag(line, tag),
        None => false,
    }
}

fn is_named_by(value: &HeaderValue, tag: Option<&str>) -> bool
    ensures { result ≡ list_any (names_stored (option_copied tag.entry))
        (text_lines (value.now.bytes ∷ [])) }
{
    match value.to_str() {
        Ok(line) => names_stored(tag, line),
        Err(_) => false,
    }
}

fn is_named(request: &HeaderMap, tag: Option<&str>) -> bool
    ensures { result ≡ list_any (names_stored (option_copied tag.entry))
        (text_lines (values (headers_of request.now) (codes "if-none-match"))) }
{
    let mut lines = request.get_all(IF_NONE_MATCH).iter();
    while let Some(value) = lines.next() {
        if is_named_by(value, tag) {
            return true;
        }
    }
    false
}

// Several values make the field unreadable (RFC 9110, section 13.1.3).
fn only_date(request: &HeaderMap) -> Option<&str>
    ensures { option_copied result
        ≡ only_text (headers_of request.now) (codes "if-modified-since") }
{
    let mut lines = request.get_all(IF_MODIFIED_SINCE).iter();
    let Some(only) = lines.next() else {
        return None;
    };
    match lines.next() {
        Some(_) => None,
        None => only.to_str().ok(),
    }
}

fn asked_since(request: &HeaderMap) -> Option<i128>
    ensures { result ≡ asked_since (headers_of request.now) }
{
    read_any_date(only_date(request)?)
}

// Date stands in for a missing Last-Modified, and the time of receipt for both (RFC 9111, section
// 4.3.2).
fn last_change(stored: &HeaderMap, received: Timestamp) -> Option<i128>
    ensures { result ≡ last_change (headers_of stored.now) received.nanosecond }
{
    if let Some(modified) = first_text(stored, LAST_MODIFIED) {
        return read_any_date(modified);
    }
    match first_text(stored, DATE) {
        Some(date) => read_any_date(date),
        None => Some(received.as_nanosecond()),
    }
}

fn is_unchanged(changed: Option<i128>, since: Option<i128>) -> bool
    ensures { result ≡ is_unchanged changed since }
{
    match (changed, since) {
        (Some(changed), Some(since)) => changed <= since,
        _ => false,
    }
}

/// Returns whether a request's conditions say that the client has the stored response already.
///
/// If-None-Match decides, or If-Modified-Since if there is none (RFC 9110, section 13.2.2). The
/// latter is compared with Last-Modified, with Date if that is missing, or with the time of receipt
/// if both are (RFC 9111, section 4.3.2). The method and the status aren't examined.
#[tactic(auto, unfolding(crate::specs::Conditions::has_stored_already))]
pub fn has_stored_already(stored: &HeaderMap, received: Timestamp, request: &HeaderMap) -> bool
    ensures { result ≡ has_stored_already (headers_of stored.now) received.nanosecond
        (headers_of request.now) }
{
    if contains_key(request, IF_NONE_MATCH) {
        return is_named(request, first_text(stored, ETAG));
    }
    is_unchanged(last_change(stored, received), asked_since(request))
}

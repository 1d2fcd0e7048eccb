//! Combines the field lines of each name (RFC 9110, section 5.3).
ghost use Rattle.std.specs.Prelude.{◌≡◌, true, Some, None, string_bytes, option_map, IfOk, OnOk, if◌then◌else◌};
ghost use Rattle.std.specs.List.{list_all};
ghost use Rattle.http_cache_fields.specs.Text.{is_text};
ghost use Rattle.http_cache_fields.specs.Headers.{headers_of, bytes_of, ChangesUnder};
ghost use Rattle.http_cache_rules.specs.Joined.{is_singleton, joined_text, joined_values, joined_headers};

use http::HeaderMap;
use http::header::{GetAll, HeaderName, HeaderValue};
use http_cache_fields::headers::{contains_key, copy_of_map, replace, reveal_header_map, value_of};
use std::alloc::{AllocError, Global};

#[tactic(auto, unfolding(crate::specs::Joined::is_singleton))]
fn is_singleton(name: &HeaderName) -> bool
    ensures { result ≡ is_singleton name.now }
{
    matches!(
        name.as_str(),
        "age" | "date" | "etag" | "expires" | "last-modified"
    )
}

fn joined_text(alloc: Global, lines: GetAll<'_, HeaderValue>) -> Result<Option<String>, AllocError>
    ensures { IfOk result (λ line. option_map string_bytes line
        ≡ (if list_all is_text (bytes_of lines.entry)
        then Some (joined_text (bytes_of lines.entry)) else None)) }
{
    let mut joined = String::new(alloc);
    let mut separator = "";
    for line in lines.iter() {
        let Ok(text) = line.to_str() else {
            return Ok(None);
        };
        joined.push_str(separator)?;
        joined.push_str(text)?;
        separator = ", ";
    }
    Ok(Some(joined))
}

fn retain_first(map: &mut HeaderMap, name: &HeaderName) -> Result<(), AllocError>
    requires { is_singleton name.now ≡ true }
    ensures { OnOk result (ChangesUnder name.now (option_map (joined_values name.now))
        (headers_of map.old) (headers_of map.new)) }
{
    reveal_header_map(map);
    let Some(first) = map.get(name) else {
        return Ok(());
    };
    let first = first.clone()?;
    replace(map, name, first);
    Ok(())
}

fn join_lines(alloc: Global, map: &mut HeaderMap, name: &HeaderName) -> Result<(), AllocError>
    ensures { OnOk result (ChangesUnder name.now (option_map (joined_values name.now))
        (headers_of map.old) (headers_of map.new)) }
{
    if is_singleton(name) {
        return retain_first(map, name);
    }
    reveal_header_map(map);
    if name.as_str() == "set-cookie" || !contains_key(map, name) {
        return Ok(());
    }
    let Some(line) = joined_text(alloc, map.get_all(name))? else {
        return Ok(());
    };
    replace(map, name, value_of(line.into_bytes())?);
    Ok(())
}

/// Returns whether each name has one line, as in most headers. Then none is to be joined.
pub fn has_single_lines(headers: &HeaderMap) -> bool
    ensures { result ≡ true
        → joined_headers (headers_of headers.now) ≡ headers_of headers.now }
{
    headers.len() == headers.keys_len()
}

/// Returns the headers with one line for each name: its lines in order, with `, ` between them (RFC
/// 9110, section 5.3).
///
/// Set-Cookie keeps its lines, as does a name with a line that isn't text. Age, Date, ETag, Expires
/// and Last-Modified are no lists, and keep their first line.
pub fn joined_headers(alloc: Global, headers: &HeaderMap) -> Result<HeaderMap, AllocError>
    ensures { IfOk result (λ out. headers_of out ≡ joined_headers (headers_of headers.now)) }
{
    reveal_header_map(headers);
    let mut out = copy_of_map(headers)?;
    if has_single_lines(headers) {
        return Ok(out);
    }
    for name in headers.keys() {
        join_lines(alloc, &mut out, name)?;
    }
    Ok(out)
}

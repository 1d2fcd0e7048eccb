//! Resolves URI references (RFC 3986, section 5.2). A reference that names a host is left to
//! `http_uri`.
ghost use Rattle.std.specs.Prelude.{◌≡◌, IfOk, map, option_copied, string_bytes};
ghost use Rattle.std.specs.List.{before_last};
ghost use Rattle.http_cache_store.specs.Reference.{without_fragment, path_of, query_of, is_scheme_byte, has_scheme};
ghost use Rattle.http_cache_store.specs.Reference.{is_without_scheme, names_host, with_scheme, after_root, is_dot_segment, kept_segments};
ghost use Rattle.http_cache_store.specs.Reference.{without_dots, merged, is_slash};

use http_cache_fields::text::trim;
use std::alloc::{AllocError, Global};

/// Returns a reference without its fragment, which names no other response.
pub(crate) fn without_fragment(reference: &str) -> &str
    ensures { result.now ≡ without_fragment reference.now }
{
    match reference.split_once('#') {
        Some((before, _)) => trim(before),
        None => trim(reference),
    }
}

/// Returns the path and the query of a reference without a host.
pub(crate) fn split_query(reference: &str) -> (&str, Option<&str>)
    ensures path { result.0.now ≡ path_of reference.now }
    ensures query { option_copied result.1 ≡ query_of reference.now }
{
    match reference.split_once('?') {
        Some((path, query)) => (path, Some(query)),
        None => (reference, None),
    }
}

fn is_scheme_byte(byte: u8) -> bool
    ensures { result ≡ is_scheme_byte byte }
{
    byte.is_ascii_alphanumeric() || byte == b'+' || byte == b'-' || byte == b'.'
}

// Returns whether a reference begins with a scheme (RFC 3986, section 4.2).
fn has_scheme(reference: &str) -> bool
    ensures { result ≡ has_scheme reference.now }
{
    match reference.split_once(':') {
        Some((scheme, _)) => scheme.as_bytes().iter().all(|byte| is_scheme_byte(*byte)),
        None => false,
    }
}

// Returns whether a reference names a host, but not its scheme.
fn is_without_scheme(reference: &str) -> bool
    ensures { result ≡ is_without_scheme reference.now }
{
    reference.starts_with("//")
}

/// Returns whether a reference names a host, and so its own origin.
pub(crate) fn names_host(reference: &str) -> bool
    ensures { result ≡ names_host reference.now }
{
    is_without_scheme(reference) || has_scheme(reference)
}

/// Returns a reference that names a host, with the scheme of the request, or `http` if that has
/// none.
pub(crate) fn with_scheme(
    alloc: Global,
    scheme: &str,
    reference: &str,
) -> Result<String, AllocError>
    ensures { IfOk result (λ text. string_bytes text ≡ with_scheme scheme.now reference.now) }
{
    let mut text = String::new(alloc);
    if is_without_scheme(reference) {
        text.push_str(if scheme.is_empty() { "http" } else { scheme })?;
        text.push(':')?;
    }
    text.push_str(reference)?;
    Ok(text)
}

fn directory_of(path: &str) -> &str
    ensures { result.now ≡ before_last is_slash path.now }
{
    match path.rsplit_once('/') {
        Some((directory, _)) => directory,
        None => "",
    }
}

/// Returns a relative path after the directory of the request's path (RFC 3986, section 5.2.3).
pub(crate) fn merged(alloc: Global, base: &str, path: &str) -> Result<String, AllocError>
    ensures { IfOk result (λ text. string_bytes text ≡ merged base.now path.now) }
{
    let mut text = String::from_str(alloc, directory_of(base))?;
    text.push('/')?;
    text.push_str(path)?;
    Ok(text)
}

fn after_root(path: &str) -> &str
    ensures { result.now ≡ after_root path.now }
{
    match path.strip_prefix('/') {
        Some(rest) => rest,
        None => path,
    }
}

fn is_dot_segment(segment: &str) -> bool
    ensures { result ≡ is_dot_segment segment.now }
{
    segment == "." || segment == ".."
}

// Returns the segments that are left of a path after the root.
fn kept_segments(alloc: Global, path: &str) -> Result<Vec<&str>, AllocError>
    ensures { IfOk result (λ kept. map (λ s. s.now) kept.items ≡ kept_segments path.now) }
{
    let mut kept: Vec<&str> = Vec::new(alloc);
    let mut is_directory = false;
    for segment in path.split('/') {
        is_directory = is_dot_segment(segment);
        if segment == ".." {
            let _parent = kept.pop();
        } else if segment != "." {
            kept.push(segment)?;
        }
    }
    if is_directory {
        kept.push("")?;
    }
    Ok(kept)
}

/// Returns a path without its dot segments (RFC 3986, section 5.2.4).
pub(crate) fn without_dots(alloc: Global, path: &str) -> Result<String, AllocError>
    ensures { IfOk result (λ text. string_bytes text ≡ without_dots path.now) }
{
    let kept = kept_segments(alloc, after_root(path))?;
    let mut text = String::new(alloc);
    for segment in kept.iter() {
        text.push('/')?;
        text.push_str(segment)?;
    }
    Ok(text)
}

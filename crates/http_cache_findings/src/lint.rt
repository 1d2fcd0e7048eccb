//! Finds what looks wrong in a response, though the rules of caching give it a meaning.
use http::header::{AGE, CACHE_CONTROL, ETAG, EXPIRES, SET_COOKIE, VARY};
use http::{HeaderMap, response};
use http_cache_fields::directives::split_piece;
use http_cache_fields::headers::{contains_key, first_text};
use http_cache_fields::names::is_same_name;
use http_cache_fields::pieces::pieces_under;
use http_cache_fields::pragma::pragma_forbids;
use http_cache_fields::reading::says;
use http_cache_fields::text::{number, unquote};
use http_cache_recording::{Answer, Entry};
use http_cache_rules::dates::read_date;
use http_cache_walk::again::opaque;
use http_cache_walk::lifetime::{first_named, is_named};
use http_cache_walk::own::date_of;
use jiff::Timestamp;
use std::alloc::{AllocError, Global};

/// A suspicious part of a response, whose meaning by the rules may not be the intended one.
#[derive(Clone, Copy, Debug, PartialEq, Eq)]
pub enum Flaw {
    /// Two `max-age` or two `s-maxage` have different values (RFC 9111, section 4.2.1).
    Conflict,
    /// A Cache-Control line has a `;`, though commas separate directives.
    Semicolon,
    /// A directive contains a blank, but no quotes and no `;`, as if a comma were missing.
    NoComma,
    /// The seconds of `max-age` or `s-maxage` are in quotes (RFC 9111, section 5.2).
    Quoted,
    /// `max-age` or `s-maxage` has no number of seconds, so the lifetime is zero (RFC 9111, section
    /// 1.2.2).
    NotSeconds,
    /// `no-store` is present with a lifetime in `max-age` or `s-maxage`, which then has no effect.
    NoStoreBeside,
    /// `public` is present with `private`.
    PublicPrivate,
    /// Set-Cookie is present with `public` or `s-maxage`, and without `private` (RFC 9111, section
    /// 7.3).
    SharedCookie,
    /// CDN-Cache-Control is present, which a CDN obeys before Cache-Control (RFC 9213).
    CdnControl,
    /// Surrogate-Control is present, which some CDNs obey before Cache-Control.
    SurrogateControl,
    /// A permanent redirection states no lifetime, so that browsers keep it for long.
    KeptRedirect,
    /// Pragma has `no-cache`, and there is no Cache-Control.
    PragmaAlone,
    /// Expires is present without Cache-Control.
    ExpiresAlone,
    /// Expires is no readable date, and not `0` or `-1`, which mean the past (RFC 9111, section
    /// 5.3).
    NotExpires,
    /// The ETag isn't in quotes (RFC 9110, section 8.8.3).
    BareTag,
    /// Date is more than 60 s after the receipt.
    FutureDate,
    /// Date is more than 60 s before the receipt, and no Age explains it.
    OldDate,
    /// Vary has `*`.
    VaryAny,
    /// Vary has Cookie, and shared caches may store the response.
    VaryCookie,
    /// Vary has User-Agent.
    VaryUserAgent,
}

// In the order of the output.
const FLAWS: [Flaw; 20] = [
    Flaw::Conflict,
    Flaw::Semicolon,
    Flaw::NoComma,
    Flaw::Quoted,
    Flaw::NotSeconds,
    Flaw::NoStoreBeside,
    Flaw::PublicPrivate,
    Flaw::SharedCookie,
    Flaw::CdnControl,
    Flaw::SurrogateControl,
    Flaw::KeptRedirect,
    Flaw::PragmaAlone,
    Flaw::ExpiresAlone,
    Flaw::NotExpires,
    Flaw::BareTag,
    Flaw::FutureDate,
    Flaw::OldDate,
    Flaw::VaryAny,
    Flaw::VaryCookie,
    Flaw::VaryUserAgent,
];

// The name is in lower case.
fn is_in_conflict(headers: &HeaderMap, name: &str) -> bool {
    match first_named(headers, name) {
        Some(one) => pieces_under(headers, CACHE_CONTROL).any(|piece| is_named(name, piece)
            && split_piece(one).1 != split_piece(piece).1),
        None => false,
    }
}

fn is_lifetime(piece: &str) -> bool {
    is_named("max-age", piece) || is_named("s-maxage", piece)
}

fn lacks_comma(piece: &str) -> bool {
    let bytes = piece.as_bytes();
    bytes.contains(&b' ') && !bytes.contains(&b'"') && !bytes.contains(&b';')
}

// Returns whether a directive of Cache-Control has a flaw. One that another flaw explains has no
// missing seconds.
fn has_flaw(flaw: Flaw, piece: &str) -> bool {
    let has_semicolon = piece.as_bytes().contains(&b';');
    match (flaw, split_piece(piece).1) {
        (Flaw::Semicolon, _) => has_semicolon,
        (Flaw::NoComma, _) => lacks_comma(piece),
        (Flaw::Quoted, Some(value)) => is_lifetime(piece) && value.as_bytes().starts_with(b"\""),
        (Flaw::NotSeconds, _) => {
            let is_read = seconds_in(piece).is_some();
            is_lifetime(piece) && !is_read && !has_semicolon && !lacks_comma(piece)
        }
        _ => false,
    }
}

fn any_flaw(headers: &HeaderMap, flaw: Flaw) -> bool {
    pieces_under(headers, CACHE_CONTROL).any(|piece| has_flaw(flaw, piece))
}

// Returns whether the later time is more than a minute after the other.
fn is_minute_before(date: Option<Timestamp>, later: Timestamp) -> bool {
    match date {
        Some(date) => later.as_nanosecond() - date.as_nanosecond() > 60_000_000_000,
        None => false,
    }
}

fn is_minute_after(date: Option<Timestamp>, earlier: Timestamp) -> bool {
    match date {
        Some(date) => is_minute_before(Some(earlier), date),
        None => false,
    }
}

/// Returns the seconds of a directive, if they can be read.
pub(crate) fn seconds_in(piece: &str) -> Option<u64> {
    number(unquote(split_piece(piece).1?))
}

// The name is in lower case.
fn has_lifetime(headers: &HeaderMap, name: &str) -> bool {
    match first_named(headers, name) {
        Some(piece) => seconds_in(piece).unwrap_or(0) > 0,
        None => false,
    }
}

// `0` and `-1` mean a past time, on purpose.
fn is_unread(alloc: Global, headers: &HeaderMap) -> Result<bool, AllocError> {
    match first_text(headers, EXPIRES) {
        None | Some("0" | "-1") => Ok(false),
        Some(text) => Ok(read_date(alloc, text)?.is_none()),
    }
}

fn is_bare(headers: &HeaderMap) -> bool {
    match first_text(headers, ETAG) {
        Some(tag) => {
            let bytes = opaque(tag);
            bytes.len() < 2 || !bytes.starts_with(b"\"") || !bytes.ends_with(b"\"")
        }
        None => false,
    }
}

// The name is in lower case.
fn varies_by(headers: &HeaderMap, name: &str) -> bool {
    pieces_under(headers, VARY).any(|piece| is_same_name(piece, name))
}

fn is_shared_with_cookie(headers: &HeaderMap) -> bool {
    contains_key(headers, SET_COOKIE)
        && !says(headers, "private")
        && (says(headers, "public") || says(headers, "s-maxage"))
}

fn is_kept_redirect(response: &response::Parts) -> bool {
    let (status, headers) = (response.status.as_u16(), &response.headers);
    (status == 301 || status == 308)
        && !says(headers, "max-age")
        && !says(headers, "s-maxage")
        && !says(headers, "no-cache")
        && !says(headers, "no-store")
        && !contains_key(headers, EXPIRES)
}

fn holds(
    alloc: Global,
    flaw: Flaw,
    response: &response::Parts,
    received: Timestamp,
) -> Result<bool, AllocError> {
    let headers = &response.headers;
    let lacks_control = !contains_key(headers, CACHE_CONTROL);
    Ok(match flaw {
        Flaw::Conflict => {
            is_in_conflict(headers, "max-age") || is_in_conflict(headers, "s-maxage")
        }
        Flaw::Semicolon | Flaw::NoComma | Flaw::Quoted | Flaw::NotSeconds => {
            any_flaw(headers, flaw)
        }
        Flaw::NoStoreBeside => {
            says(headers, "no-store")
                && (has_lifetime(headers, "max-age") || has_lifetime(headers, "s-maxage"))
        }
        Flaw::PublicPrivate => says(headers, "public") && says(headers, "private"),
        Flaw::SharedCookie => is_shared_with_cookie(headers),
        Flaw::CdnControl => contains_key(headers, "cdn-cache-control"),
        Flaw::SurrogateControl => contains_key(headers, "surrogate-control"),
        Flaw::KeptRedirect => is_kept_redirect(response),
        Flaw::PragmaAlone => pragma_forbids(headers) && lacks_control,
        Flaw::ExpiresAlone => contains_key(headers, EXPIRES) && lacks_control,
        Flaw::NotExpires => is_unread(alloc, headers)?,
        Flaw::BareTag => is_bare(headers),
        Flaw::FutureDate => is_minute_after(date_of(alloc, headers)?, received),
        Flaw::OldDate => {
            is_minute_before(date_of(alloc, headers)?, received) && !contains_key(headers, AGE)
        }
        Flaw::VaryAny => varies_by(headers, "*"),
        Flaw::VaryCookie => {
            varies_by(headers, "cookie") && !says(headers, "private") && !says(headers, "no-store")
        }
        Flaw::VaryUserAgent => varies_by(headers, "user-agent"),
    })
}

/// Returns what looks wrong in the response that an entry received.
///
/// A response from the browser's own cache has no flaws.
pub fn flaws_of(alloc: Global, entry: &Entry) -> Result<Vec<Flaw>, AllocError> {
    let mut all = Vec::new(alloc);
    let Answer::Received(response) = &entry.answer else {
        return Ok(all);
    };
    for flaw in FLAWS {
        if holds(alloc, flaw, response, entry.received)? {
            all.push(flaw)?;
        }
    }
    Ok(all)
}

//! Decides what to send instead of a response's headers.
//!
//! The parts of pages get a lifetime; pages and their data may get an ETag. No advice says `public`, a
//! response for one user stays private, and a stated lifetime never gets shorter.
ghost use Rattle.std.specs.Prelude.{◌≡◌, IfSome, true, false};
ghost use Rattle.http_cache_fields.specs.Headers.{headers_of};
ghost use Rattle.http_cache_findings.specs.Advice.{seconds_of, is_longer, is_same, IsFit, is_own, is_for_shared, term_text, private_text, control_of};

use http::HeaderMap;
use http::header::{CONTENT_TYPE, ETAG, LAST_MODIFIED, SET_COOKIE, VARY};
use http_cache_fields::headers::{contains_key, first_text};
use http_cache_fields::pieces::pieces_under;
use http_cache_fields::reading::says;
use http_cache_walk::order::shown_url;

/// How long the advised response stays fresh.
#[derive(Clone, Copy, PartialEq, Eq)]
pub enum Term {
    /// As its headers say now.
    Same,
    /// A day.
    Day,
    /// A week.
    Week,
    /// A year, since its name changes with its content.
    Year,
}

/// What to send instead of a response's headers.
#[derive(Clone, Copy)]
pub struct Advice {
    /// How long the response stays fresh.
    pub term: Term,
    /// Whether shared caches may not store it.
    pub is_private: bool,
    /// Whether it gets an ETag.
    pub adds_tag: bool,
    /// Whether the server answers a 304 to the response's own validator.
    pub answers_304: bool,
}

/// What a recording shows of the requests for a url, and of its lifetime.
#[derive(Clone, Copy)]
pub struct Shown {
    /// Whether the cache serves many users, so that nothing helps it that is private.
    pub is_shared: bool,
    /// Whether a request for it had Cookie or Authorization.
    pub with_credentials: bool,
    /// Whether a request for it was made by a service worker's registration.
    pub by_worker: bool,
    /// Whether the server answers the response's own validator in full.
    pub in_full: bool,
    /// The greatest lifetime that the response states, in seconds.
    pub stated: Option<u64>,
}

// What a response is, by its Content-Type.
#[derive(Clone, Copy)]
enum Content {
    // A page or its data.
    Page,
    // An image, a font, a sound, a film, a style or a script.
    Part,
    // A document or a download.
    File,
    // Events, which are sent as they happen.
    Events,
}

// The beginnings of the types of parts of pages, also of fonts and scripts under older types.
const PARTS: [&str; 18] = [
    "image/",
    "font/",
    "audio/",
    "video/",
    "text/css",
    "text/javascript",
    "text/ecmascript",
    "text/x-javascript",
    "text/x-ecmascript",
    "application/javascript",
    "application/ecmascript",
    "application/x-javascript",
    "application/x-ecmascript",
    "application/wasm",
    "application/font-",
    "application/x-font-",
    "application/vnd.ms-fontobject",
    "application/vnd.ms-opentype",
];

const FILES: [&str; 2] = ["application/pdf", "application/octet-stream"];

fn term_text(term: Term) -> &'static str
    ensures { result.now ≡ term_text term }
{
    match term {
        Term::Same => "",
        Term::Day => "max-age=86400",
        Term::Week => "max-age=604800",
        Term::Year => "max-age=31536000, immutable",
    }
}

fn private_text(term: Term) -> &'static str
    ensures { result.now ≡ private_text term }
{
    match term {
        Term::Same => "",
        Term::Day => "private, max-age=86400",
        Term::Week => "private, max-age=604800",
        Term::Year => "private, max-age=31536000, immutable",
    }
}

/// Returns the Cache-Control of an advice, which never says `public`. It is empty if that stays the
/// same.
pub fn control_of(advice: Advice) -> &'static str
    ensures { result.now ≡ control_of advice }
{
    if advice.is_private {
        private_text(advice.term)
    } else {
        term_text(advice.term)
    }
}

// Returns whether a media type begins so, in any letter case (RFC 9110, section 8.3.1).
fn is_type(media_type: &str, begin: &str) -> bool {
    match media_type.as_bytes().get(..begin.len()) {
        Some(front) => front.eq_ignore_ascii_case(begin.as_bytes()),
        None => false,
    }
}

fn content_by(media_type: &str) -> Content {
    if PARTS.iter().any(|begin| is_type(media_type, begin)) {
        Content::Part
    } else if FILES.iter().any(|begin| is_type(media_type, begin)) {
        Content::File
    } else if is_type(media_type, "text/event-stream") {
        Content::Events
    } else {
        Content::Page
    }
}

fn content_of(headers: &HeaderMap) -> Content {
    match first_text(headers, CONTENT_TYPE) {
        Some(media_type) => content_by(media_type),
        None => Content::Page,
    }
}

/// Returns whether a response is a part of pages by its Content-Type.
pub fn is_part(headers: &HeaderMap) -> bool {
    matches!(content_of(headers), Content::Part)
}

/// Returns whether a response is a page by its Content-Type.
pub fn is_page(headers: &HeaderMap) -> bool {
    match first_text(headers, CONTENT_TYPE) {
        Some(media_type) => is_type(media_type, "text/html"),
        None => false,
    }
}

fn has_validator(headers: &HeaderMap) -> bool {
    contains_key(headers, ETAG) || contains_key(headers, LAST_MODIFIED)
}

fn is_hex_digit(b: u8) -> bool {
    b.is_ascii_digit() || (b'a' <= b && b <= b'f')
}

// Returns whether a piece of a name has eight or more digits of base 16, some of them letters.
fn is_hex_hash(piece: &[u8]) -> bool {
    piece.iter().all(|b| is_hex_digit(*b))
        && piece.iter().any(|b| b.is_ascii_digit())
        && piece.iter().any(|b| b.is_ascii_lowercase())
}

fn is_same_class(a: u8, b: u8) -> bool {
    a.is_ascii_digit() == b.is_ascii_digit() && a.is_ascii_lowercase() == b.is_ascii_lowercase()
}

// Returns whether digits, small and capital letters follow one another as if at random. A word with
// a number after it doesn't.
fn is_mixed(piece: &[u8]) -> bool {
    piece.iter().all(|b| b.is_ascii_alphanumeric())
        && piece.iter().any(|b| b.is_ascii_digit())
        && piece
            .array_windows::<2>()
            .filter(|[a, b]| !is_same_class(*a, *b))
            .count()
            >= piece.len() / 2
}

// Returns whether a piece of a name is a hash of the content, as bundlers write it.
fn is_hash(piece: &[u8]) -> bool {
    piece.len() >= 8 && (is_hex_hash(piece) || is_mixed(piece))
}

fn is_separator(b: u8) -> bool {
    b == b'.' || b == b'-' || b == b'_'
}

// Returns whether a text of 36 bytes is a UUID (RFC 9562, section 4).
fn is_uuid(text: &[u8]) -> bool {
    text.iter().enumerate().all(|(index, b)| match index {
        8 | 13 | 18 | 23 => *b == b'-',
        _ => b.is_ascii_hexdigit(),
    })
}

// Returns the last segment of a url's path.
fn last_segment(url: &str) -> &str {
    let path = shown_url(url, true);
    match path.rsplit_once('/') {
        Some((_, segment)) => segment,
        None => path,
    }
}

/// Returns whether the last segment of a url's path has a hash, so that its name changes with its
/// content. A UUID is none: it names what may change.
pub fn is_hashed(url: &str) -> bool {
    let segment = last_segment(url).as_bytes();
    !segment.array_windows::<36>().any(|text| is_uuid(text))
        && segment
            .split(|b| is_separator(*b))
            .any(|piece| is_hash(piece))
}

/// Returns whether a response is for one user: it says so, sets a cookie, or was asked for with
/// Cookie or Authorization.
pub fn is_own(headers: &HeaderMap, with_credentials: bool) -> bool
    ensures { result ≡ is_own (headers_of headers.now) with_credentials }
{
    with_credentials || says(headers, "private") || contains_key(headers, SET_COOKIE)
}

// Returns whether a response may be the script of a service worker, which browsers validate.
fn is_worker(headers: &HeaderMap, shown: Shown) -> bool {
    shown.by_worker || contains_key(headers, "service-worker-allowed")
}

// Returns the term for a response that states no lifetime.
fn wanted_term(headers: &HeaderMap, url: &str, shown: Shown) -> Term {
    let content = content_of(headers);
    if is_worker(headers, shown) || matches!(content, Content::Page | Content::Events) {
        Term::Same
    } else if is_hashed(url) {
        Term::Year
    } else if matches!(content, Content::File) {
        Term::Day
    } else {
        Term::Week
    }
}

fn seconds_of(term: Term) -> u64
    ensures { result ≡ seconds_of term }
{
    match term {
        Term::Same => 0,
        Term::Day => 86_400,
        Term::Week => 604_800,
        Term::Year => 31_536_000,
    }
}

fn is_longer(term: Term, stated: Option<u64>) -> bool
    ensures { result ≡ is_longer term stated }
{
    match stated {
        Some(seconds) => seconds < seconds_of(term),
        None => true,
    }
}

fn term_for(wanted: Term, stated: Option<u64>) -> Term
    ensures { is_same result ≡ false → is_longer result stated ≡ true }
{
    if is_longer(wanted, stated) {
        wanted
    } else {
        Term::Same
    }
}

// Returns whether a response says what only shared caches need.
fn is_for_shared(headers: &HeaderMap) -> bool
    ensures { result ≡ is_for_shared (headers_of headers.now) }
{
    says(headers, "public") || says(headers, "s-maxage")
}

// Returns the advised term. What is stated for shared caches isn't taken from them.
fn advised_term(headers: &HeaderMap, url: &str, shown: Shown) -> Term
    ensures longer { is_same result ≡ false → is_longer result shown.stated ≡ true }
    ensures shared { is_same result ≡ false
        → is_own (headers_of headers.now) shown.with_credentials ≡ true
        → is_for_shared (headers_of headers.now) ≡ false }
{
    if is_own(headers, shown.with_credentials) && (shown.is_shared || is_for_shared(headers)) {
        Term::Same
    } else {
        term_for(wanted_term(headers, url, shown), shown.stated)
    }
}

fn is_nothing(advice: Advice) -> bool {
    advice.term == Term::Same && !advice.adds_tag && !advice.answers_304
}

fn varies_by_all(headers: &HeaderMap) -> bool {
    pieces_under(headers, VARY).any(|piece| piece == "*")
}

fn is_stream(headers: &HeaderMap) -> bool {
    matches!(content_of(headers), Content::Events)
}

fn advice_by(headers: &HeaderMap, url: &str, shown: Shown) -> Advice
    ensures own { result.is_private ≡ is_own (headers_of headers.now) shown.with_credentials }
    ensures longer { is_same result.term ≡ false → is_longer result.term shown.stated ≡ true }
    ensures shared { is_same result.term ≡ false
        → is_own (headers_of headers.now) shown.with_credentials ≡ true
        → is_for_shared (headers_of headers.now) ≡ false }
{
    Advice {
        term: advised_term(headers, url, shown),
        is_private: is_own(headers, shown.with_credentials),
        adds_tag: !has_validator(headers),
        answers_304: shown.in_full,
    }
}

/// Returns what to send instead of a response's headers, if anything.
///
/// A `no-store` stays, nothing is advised for a stream of events, and nothing helps a response that
/// varies by `*`.
pub fn advice_of(headers: &HeaderMap, url: &str, shown: Shown) -> Option<Advice>
    ensures { IfSome result (IsFit (headers_of headers.now) shown) }
{
    if says(headers, "no-store") || varies_by_all(headers) || is_stream(headers) {
        return None;
    }
    let advice = advice_by(headers, url, shown);
    if is_nothing(advice) {
        None
    } else {
        Some(advice)
    }
}

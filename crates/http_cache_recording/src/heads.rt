//! Reads heads of responses, as `curl -sI`, `curl -sIL` and `curl -si` print them, as a recording.
//! It turns each head into one of HTTP/1.1 for http_heads, and knows nothing of caching.
ghost use Rattle.std.specs.Prelude.{◌≡◌, ◌<◌, ◌≤◌, ◌++◌, map, length, option_map, option_copied, codes, IfOk, IfErr, OnOk, IsErrOf};
ghost use Rattle.std.specs.List.{prefix_len, list_all};
ghost use Rattle.std.specs.Char.{is_ascii_digit};
ghost use Rattle.http_heads.specs.Heads.{IsResponse, IsNoResponse, OverfillsResponse};
ghost use Rattle.http_cache_fields.specs.Headers.{headers_of};
ghost use Rattle.http_cache_rules.specs.Conditions.{only_text};
ghost use Rattle.http_cache_rules.specs.Dates.{first_date};
ghost use Rattle.http_cache_rules.specs.Lifetimes.{server_date};
ghost use Rattle.http_cache_recording.specs.Entry.{printed_seen, entry_seen, recorded_seen};
ghost use Rattle.http_cache_recording.specs.Heads.{is_heads, is_end, front_of, is_last, text_len, text_of, end_len, head_len, next_of};
ghost use Rattle.http_cache_recording.specs.Heads.{after_version, as_http1, closing, whole, IsHead, line_of, IsFault, IsCause};
ghost use Rattle.http_cache_recording.specs.Heads.{is_of_proxy, is_skipped, is_digits, size_of, content_length};
ghost use Rattle.http_cache_recording.specs.Heads.{printed_of, entry_of, recorded_of, with_head, IsHeads};
ghost use Rattle.http_cache_recording.specs.declared.heads.HeadsError.TheVariants.{Memory};

use crate::entry::{Answer, Entry, Kind, Printed, Reading, Recorded};
use crate::fields::{field_name, value_of_line};
use http::header::{CONTENT_LENGTH, DATE};
use http::{HeaderMap, Method, response};
use http_cache_fields::headers::first_text;
use http_cache_fields::text::number;
use http_cache_rules::dates::read_date;
use http_heads::{HeadError, response_from_bytes};
use jiff::Timestamp;
use std::alloc::{AllocError, Global};
use std::hash::RandomState;
use thiserror::Error;

/// The reason why bytes are no heads of responses.
#[derive(Debug, Drop, Error)]
pub enum HeadsError {
    /// Something that begins like a head isn't the head of a response (RFC 9112, section 4).
    #[error("not a response head at line {line}")]
    NotAHead {
        /// The line at which it begins, from 1.
        line: usize,
    },
    /// A head has a line that is no field line (RFC 9112, section 5).
    #[error("not a field at line {line}: '{name}'")]
    NotAField {
        /// The line, from 1.
        line: usize,
        /// The front of the line up to a colon, with at most 40 bytes and `?` for what isn't printable.
        name: String,
    },
    /// A head has more fields than a header map holds.
    #[error("too many fields in the response head at line {line}")]
    TooLong {
        /// The line at which it begins, from 1.
        line: usize,
    },
    /// There is no head, or all are skipped.
    #[error("no response head")]
    NoHead,
    /// There is not enough memory.
    #[error("out of memory")]
    Memory,
}

impl From<AllocError> for HeadsError {
    ghost from_gives = { λ _ e. e ≡ Memory };

    fn from(_e: AllocError) -> HeadsError {
        HeadsError::Memory
    }
}

// A head of the input.
#[derive(Drop)]
struct Head {
    parts: response::Parts,
    // Its length in bytes, with the empty line.
    length: u64,
    // Whether another head follows it.
    followed: bool,
}

// The head at the front of the input, before it is read.
#[derive(Clone, Copy)]
struct Cut<'a> {
    // Its status line and field lines.
    text: &'a [u8],
    // Its length in bytes, with the empty line.
    length: usize,
    // The position at which the next head would begin.
    next: &'a [u8],
}

/// Returns whether bytes begin like the head of a response.
pub fn is_heads(bytes: &[u8]) -> bool
    ensures { result ≡ is_heads bytes.now }
{
    bytes.starts_with(b"HTTP/")
}

// Returns the number of CR and LF bytes at the front.
fn ends_len(bytes: &[u8]) -> usize
    ensures value { result ≡ prefix_len is_end bytes.now }
    ensures within { result ≤ length bytes.now }
{
    bytes
        .iter()
        .take_while(|b| **b == b'\r' || **b == b'\n')
        .count()
}

fn front_of(bytes: &[u8]) -> &[u8]
    ensures { result.now ≡ front_of bytes.now }
{
    &bytes[ends_len(bytes)..]
}

// Returns whether the bytes begin with the LF of a line that an empty line follows.
fn is_last(bytes: &[u8]) -> bool
    ensures { result ≡ is_last bytes.now }
{
    bytes.starts_with(b"\n\n") || bytes.starts_with(b"\n\r\n")
}

// Returns the length of the lines of the head at the front.
fn text_len(front: &[u8]) -> usize
    ensures value { result ≡ text_len front.now }
    ensures within { result ≤ length front.now }
{
    for index in 0..front.len() {
        if is_last(&front[index..]) {
            return index + 1;
        }
    }
    front.len()
}

// Returns the length of the line end at the front.
fn end_len(bytes: &[u8]) -> usize
    ensures value { result ≡ end_len bytes.now }
    ensures within { result ≤ length bytes.now }
{
    if bytes.starts_with(b"\r\n") {
        2
    } else if bytes.starts_with(b"\n") {
        1
    } else {
        0
    }
}

fn cut_of(front: &[u8]) -> Cut<'_>
    ensures text { result.text.now ≡ text_of front.now }
    ensures length { result.length ≡ head_len front.now }
    ensures next { result.next.now ≡ next_of front.now }
{
    let (text, rest) = front.split_at(text_len(front));
    let end = end_len(rest);
    Cut {
        text,
        length: text.len() + end,
        next: front_of(&rest[end..]),
    }
}

// Returns what follows the version, if that is HTTP/2 or HTTP/3.
fn after_version(text: &[u8]) -> Option<&[u8]>
    ensures { option_map (λ t. t.now) result ≡ after_version text.now }
{
    if let Some(rest) = text.strip_prefix(b"HTTP/2.0") {
        return Some(rest);
    }
    if let Some(rest) = text.strip_prefix(b"HTTP/2") {
        return Some(rest);
    }
    text.strip_prefix(b"HTTP/3")
}

// Adds the text, and replaces HTTP/2 or HTTP/3 by HTTP/1.1.
#[tactic(auto, unfolding(crate::specs::Heads::as_http1))]
fn push_as_http1(out: &mut Vec<u8>, text: &[u8]) -> Result<(), AllocError>
    ensures { OnOk result (out.new.items ≡ out.old.items ++ as_http1 text.now) }
{
    let Some(rest) = after_version(text) else {
        return out.extend_from_slice(text);
    };
    out.extend_from_slice(b"HTTP/1.1")?;
    out.extend_from_slice(rest)
}

// Returns what ends a head after its lines. The input may end within a line, or between CR and LF.
#[tactic(auto, unfolding(crate::specs::Heads::closing))]
fn closing(text: &[u8]) -> &'static str
    ensures { result.now ≡ closing text.now }
{
    if text.ends_with(b"\n") || text.ends_with(b"\n\r") {
        "\n"
    } else {
        "\n\n"
    }
}

// Returns the head of HTTP/1.1 for the lines of a head.
fn whole(alloc: Global, text: &[u8]) -> Result<Vec<u8>, AllocError>
    ensures { IfOk result (λ bytes. bytes.items ≡ whole text.now) }
{
    let mut out = Vec::new(alloc);
    push_as_http1(&mut out, text)?;
    out.extend_from_slice(closing(text).as_bytes())?;
    Ok(out)
}

fn response_of(alloc: Global, keys: RandomState, text: &[u8]) -> Result<response::Parts, HeadError>
    ensures found { IfOk result (IsResponse (whole text.now)) }
    ensures malformed { IsErrOf result HeadError.Malformed → IsNoResponse (whole text.now) }
    ensures full { IsErrOf result HeadError.HeaderMapFull → OverfillsResponse (whole text.now) }
{
    let bytes = whole(alloc, text)?;
    response_from_bytes(alloc, keys, bytes.as_slice())
}

// Returns the line at which the last bytes begin.
fn line_of(bytes: &[u8], front: &[u8]) -> usize
    requires { length front.now ≤ length bytes.now }
    ensures { result ≡ line_of bytes.now front.now }
{
    let before = &bytes[..bytes.len() - front.len()];
    before.iter().filter(|b| **b == b'\n').count() + 1
}

// The greatest length of the name in an error.
const SHOWN: usize = 40;

fn is_end_of_name(b: u8) -> bool {
    b == b':' || b == b'\r'
}

// Returns the front of a line up to a colon.
fn name_in(alloc: Global, line: &[u8]) -> Result<String, AllocError> {
    let mut name = String::new(alloc);
    for b in line.iter().take(SHOWN).take_while(|b| !is_end_of_name(**b)) {
        let is_printable = b' ' <= *b && *b <= b'~';
        name.push(if is_printable { char::from(*b) } else { '?' })?;
    }
    Ok(name)
}

// Returns whether a line has a name, a colon and a value.
fn is_field(alloc: Global, line: &[u8]) -> Result<bool, AllocError> {
    let mut parts = line.splitn(2, |b| *b == b':');
    let (Some(name), Some(value)) = (parts.next(), parts.next()) else {
        return Ok(false);
    };
    Ok(match str::from_utf8(name) {
        Ok(name) => field_name(alloc, name)?.is_some() && value_of_line(alloc, value)?.is_some(),
        Err(_) => false,
    })
}

// Returns how many lines after the status line of a head is the first one that is no field line, and
// its name.
fn faulty_field(alloc: Global, text: &[u8]) -> Result<Option<(usize, String)>, AllocError> {
    for (index, line) in text.split(|b| *b == b'\n').enumerate().skip(1) {
        if !line.is_empty() && line != b"\r".as_slice() && !is_field(alloc, line)? {
            return Ok(Some((index, name_in(alloc, line)?)));
        }
    }
    Ok(None)
}

// Returns why a head can't be read.
fn fault_of(alloc: Global, bytes: &[u8], front: &[u8], text: &[u8]) -> HeadsError
    requires within { length front.now ≤ length bytes.now }
    requires malformed { IsNoResponse (whole (text_of front.now)) }
    ensures { IsFault bytes.now front.now result }
{
    let line = line_of(bytes, front);
    match faulty_field(alloc, text) {
        Ok(Some((index, name))) => HeadsError::NotAField {
            line: line.saturating_add(index),
            name,
        },
        Ok(None) => HeadsError::NotAHead { line },
        Err(_) => HeadsError::Memory,
    }
}

// Returns the head at the front of the remaining bytes.
fn head_of(
    alloc: Global,
    keys: RandomState,
    bytes: &[u8],
    front: &[u8],
    cut: Cut<'_>,
) -> Result<Head, HeadsError>
    requires within { length front.now ≤ length bytes.now }
    requires text { cut.text.now ≡ text_of front.now }
    requires length { cut.length ≡ head_len front.now }
    requires next { cut.next.now ≡ next_of front.now }
    ensures found { IfOk result (IsHead front.now) }
    ensures fault { IfErr result (IsFault bytes.now front.now) }
{
    match response_of(alloc, keys, cut.text) {
        Ok(parts) => Ok(Head {
            parts,
            length: cut.length as u64,
            followed: is_heads(cut.next),
        }),
        Err(HeadError::Malformed) => Err(fault_of(alloc, bytes, front, cut.text)),
        Err(HeadError::HeaderMapFull) => Err(HeadsError::TooLong {
            line: line_of(bytes, front),
        }),
        Err(HeadError::Memory) => Err(HeadsError::Memory),
    }
}

// Returns whether a head is a proxy's `200 Connection established` (RFC 9110, section 9.3.6).
fn is_of_proxy(head: &Head) -> bool
    ensures { result ≡ is_of_proxy head.now }
{
    head.parts.status.as_u16() == 200 && head.followed && head.parts.headers.is_empty()
}

// Returns whether a head isn't a final response of the origin server (RFC 9110, section 15.2).
#[tactic(auto, unfolding(crate::specs::Heads::is_skipped))]
fn is_skipped(head: &Head) -> bool
    ensures { result ≡ is_skipped head.now }
{
    head.parts.status.as_u16() < 200 || is_of_proxy(head)
}

fn are_digits(text: &[u8]) -> bool
    ensures { result ≡ list_all is_ascii_digit text.now }
{
    text.iter().all(|b| b.is_ascii_digit())
}

fn is_digits(text: &str) -> bool
    ensures { result ≡ is_digits text.now }
{
    !text.is_empty() && are_digits(text.as_bytes())
}

// Reads digits, up to the greatest 64-bit number. Returns 0 for any other text.
fn size_of(text: &str) -> u64
    ensures { result ≡ size_of text.now }
{
    if is_digits(text) {
        number(text).unwrap_or(u64::MAX)
    } else {
        0
    }
}

fn only_length(headers: &HeaderMap) -> Option<&str>
    ensures { option_copied result ≡ only_text (headers_of headers.now) (codes "content-length") }
{
    let mut lines = headers.get_all(CONTENT_LENGTH).iter();
    let Some(only) = lines.next() else {
        return None;
    };
    match lines.next() {
        Some(_) => None,
        None => only.to_str().ok(),
    }
}

// Returns the number in Content-Length if there is only one value.
fn content_length(headers: &HeaderMap) -> u64
    ensures { result ≡ content_length (headers_of headers.now) }
{
    match only_length(headers) {
        Some(text) => size_of(text),
        None => 0,
    }
}

fn first_date(alloc: Global, headers: &HeaderMap) -> Result<Option<Timestamp>, AllocError>
    ensures { IfOk result (λ date. option_map (λ d. d.nanosecond) date
        ≡ first_date (headers_of headers.now) (codes "date")) }
{
    match first_text(headers, DATE) {
        Some(text) => read_date(alloc, text),
        None => Ok(None),
    }
}

// Returns the time in Date if that isn't before 1970, else `now`.
fn sent_at(alloc: Global, headers: &HeaderMap, now: Timestamp) -> Result<Timestamp, AllocError>
    ensures { IfOk result (λ date. date.nanosecond
        ≡ server_date (headers_of headers.now) now.nanosecond) }
{
    match first_date(alloc, headers)? {
        Some(date) if date.as_nanosecond() >= 0 => Ok(date),
        _ => Ok(now),
    }
}

// Returns what is printed of a head.
#[tactic(auto, unfolding(crate::specs::Heads::printed_of))]
fn printed_of(alloc: Global, number: usize, head: &Head) -> Result<Printed, AllocError>
    ensures { IfOk result (λ p. printed_seen p ≡ printed_of number head.now) }
{
    Ok(Printed {
        method: Some(String::from_str(alloc, "GET")?),
        url: Some(format!(in alloc; "head {number}")?),
        status: head.parts.status.as_u16() as u64,
        browser: None,
        error: None,
        sent: head
            .length
            .saturating_add(content_length(&head.parts.headers)),
        head: head.length,
        page: None,
    })
}

// Returns a request without headers, with the head as its response.
#[tactic(auto, unfolding(crate::specs::Heads::entry_of))]
fn entry_of(alloc: Global, now: Timestamp, head: Head) -> Result<Entry, AllocError>
    ensures { IfOk result (λ e. entry_seen e ≡ entry_of now.nanosecond head) }
{
    let date = sent_at(alloc, &head.parts.headers, now)?;
    Ok(Entry {
        kind: Kind::Asked,
        started: date,
        received: date,
        method: Method::GET,
        headers: HeaderMap::new(alloc),
        answer: Answer::Received(head.parts),
        body: None,
    })
}

fn recorded_of(
    alloc: Global,
    now: Timestamp,
    number: usize,
    head: Head,
) -> Result<Recorded, AllocError>
    ensures { IfOk result (λ r. recorded_seen r ≡ recorded_of now.nanosecond (number, head)) }
{
    let printed = printed_of(alloc, number, &head)?;
    let entry = entry_of(alloc, now, head)?;
    Ok(Recorded {
        printed,
        reading: Reading::Entry(entry),
    })
}

fn add_head(
    alloc: Global,
    rows: &mut Vec<Recorded>,
    now: Timestamp,
    head: Head,
) -> Result<(), AllocError>
    ensures { OnOk result (map recorded_seen rows.new.items
        ≡ with_head now.nanosecond (map recorded_seen rows.old.items) head) }
{
    if is_skipped(&head) {
        return Ok(());
    }
    let row = recorded_of(alloc, now, rows.len() + 1, head)?;
    rows.push(row)?;
    Ok(())
}

fn recorded_all(
    alloc: Global,
    keys: RandomState,
    bytes: &[u8],
    now: Timestamp,
) -> Result<Vec<Recorded>, HeadsError>
    ensures found { IfOk result (λ rs. IsHeads now.nanosecond bytes.now
        (map recorded_seen rs.items)) }
    ensures cause { IfErr result (IsCause bytes.now) }
{
    let mut rows = Vec::new(alloc);
    let mut front = front_of(bytes);
    while is_heads(front) {
        let cut = cut_of(front);
        let head = head_of(alloc, keys, bytes, front, cut)?;
        add_head(alloc, &mut rows, now, head)?;
        front = cut.next;
    }
    Ok(rows)
}

/// Returns the recording that consecutive heads of responses make. Each is the response to a
/// request for its own target, `head 1` and so on. Its time is its Date, or else `now`.
///
/// - A head is a status line of HTTP/1, HTTP/2 or HTTP/3, field lines, and an empty line, which may
///   be missing or cut off at the end of the input. Lines end in CRLF or LF. A head with any other
///   CR isn't read (RFC 9112, section 2.2).
/// - CRs and LFs after a head are skipped. Anything then that doesn't begin with `HTTP/` is a body,
///   and ends the heads.
/// - Heads of status 1xx are skipped, and so are heads of status 200 without fields before another
///   head, with which proxies answer CONNECT. A Date before 1970 counts as none.
///
/// The header maps take secret keys, since someone else chose the names, which might collide.
///
/// # Errors
///
/// `NotAHead`, `NotAField` or `TooLong` if a head can't be read, `NoHead` if there is none or all are
/// skipped, and `Memory` if there is not enough memory.
pub fn heads_from_bytes(
    alloc: Global,
    keys: RandomState,
    bytes: &[u8],
    now: Timestamp,
) -> Result<Vec<Recorded>, HeadsError>
    ensures found { IfOk result (λ rs. IsHeads now.nanosecond bytes.now
        (map recorded_seen rs.items)) }
    ensures some { IfOk result (λ rs. 0 < length rs.items) }
    ensures cause { IfErr result (IsCause bytes.now) }
{
    let rows = recorded_all(alloc, keys, bytes, now)?;
    if rows.is_empty() {
        return Err(HeadsError::NoHead);
    }
    Ok(rows)
}

//! Reads recorded sessions from bytes.
ghost use Rattle.std.specs.Prelude.{◌≡◌, ◌≤◌, map, option_map, IsTrue, IfOk, IfErr, IfSome};
ghost use Rattle.std.specs.List.{AllZip};
ghost use Rattle.serde_json.specs.View.{view, items_view};
ghost use Rattle.http_cache_recording.specs.Entry.{recorded_seen};
ghost use Rattle.http_cache_recording.specs.Element.{IsRecorded};
ghost use Rattle.http_cache_recording.specs.Recording.{list_of_log, list_in_log, entries_of, creator_of};
ghost use Rattle.http_cache_recording.specs.Recording.{log_of, pages_of, has_pages, reader_of};
ghost use Rattle.http_cache_recording.specs.Recording.{is_by_firefox, IsJson, IsRecording, nesting_after, IsTooDeep};
ghost use Rattle.http_cache_recording.specs.Recording.{is_compressed, is_utf16, other_form, IsFault, IsCause};

use crate::element::{Reader, recorded};
use crate::entry::Recorded;
use crate::error::ReadingError;
use crate::mend::{mend, without_mark};
use serde_json::{Error, Value};
use std::alloc::{AllocError, Global};

/// The length of the longest recording, in bytes. The caller who reads the bytes has to check it.
pub const LONGEST: usize = 1_073_741_824;

fn list_of_log(log: &Value) -> Option<&Vec<Value>>
    ensures { option_map (λ vs. items_view vs.now.items) result ≡ list_of_log (view log.now) }
{
    log.get("entries")?.as_array()
}

fn list_in_log(value: &Value) -> Option<&Vec<Value>>
    ensures { option_map (λ vs. items_view vs.now.items) result ≡ list_in_log (view value.now) }
{
    list_of_log(value.get("log")?)
}

// The log's list, the list of a log by itself, or the value as a list.
#[tactic(auto, unfolding(crate::specs::Recording::entries_of))]
fn entries_of(value: &Value) -> Option<&Vec<Value>>
    ensures { option_map (λ vs. items_view vs.now.items) result ≡ entries_of (view value.now) }
{
    if let Some(list) = list_in_log(value) {
        return Some(list);
    }
    match list_of_log(value) {
        Some(list) => Some(list),
        None => value.as_array(),
    }
}

fn log_of(value: &Value) -> &Value
    ensures { view result.now ≡ log_of (view value.now) }
{
    value.get("log").unwrap_or(value)
}

#[tactic(auto, unfolding(crate::specs::Recording::creator_of))]
fn creator_of(value: &Value) -> Option<&str>
    ensures { option_map (λ t. t.now) result ≡ creator_of (view value.now) }
{
    log_of(value).get("creator")?.get("name")?.as_str()
}

fn pages_of(value: &Value) -> Option<&Vec<Value>>
    ensures { option_map (λ vs. items_view vs.now.items) result ≡ pages_of (view value.now) }
{
    log_of(value).get("pages")?.as_array()
}

fn has_pages(value: &Value) -> bool
    ensures { result ≡ has_pages (view value.now) }
{
    match pages_of(value) {
        Some(pages) => !pages.as_slice().is_empty(),
        None => false,
    }
}

fn is_by_firefox(value: &Value) -> bool
    ensures { result ≡ is_by_firefox (view value.now) }
{
    creator_of(value) == Some("Firefox")
}

fn reader_of(value: &Value, ignores_no_cache: bool) -> Reader
    ensures { result ≡ reader_of ignores_no_cache (view value.now) }
{
    Reader {
        is_firefox: is_by_firefox(value),
        ignores_no_cache,
        has_pages: has_pages(value),
    }
}

fn recorded_all(
    alloc: Global,
    values: &[Value],
    reader: Reader,
) -> Result<Vec<Recorded>, AllocError>
    ensures { IfOk result (λ rs.
        AllZip (IsRecorded reader) (map view values.now) (map recorded_seen rs.items)) }
{
    let mut all = Vec::with_capacity(alloc, values.len())?;
    for value in values {
        all.push(recorded(alloc, value, reader)?)?;
    }
    Ok(all)
}

// RFC 1952, section 2.3.1, and RFC 1950, section 2.2.
fn is_compressed(bytes: &[u8]) -> bool
    ensures { result ≡ is_compressed bytes.now }
{
    bytes.starts_with(b"\x1f\x8b")
        || bytes.starts_with(b"\x78\x01")
        || bytes.starts_with(b"\x78\x5e")
        || bytes.starts_with(b"\x78\x9c")
        || bytes.starts_with(b"\x78\xda")
}

fn is_utf16(bytes: &[u8]) -> bool
    ensures { result ≡ is_utf16 bytes.now }
{
    bytes.starts_with(b"\xff\xfe")
        || bytes.starts_with(b"\xfe\xff")
        || bytes.starts_with(b"{\x00")
        || bytes.starts_with(b"\x00{")
}

#[tactic(auto, unfolding(crate::specs::Recording::other_form))]
fn other_form(bytes: &[u8]) -> Option<ReadingError>
    ensures value { result ≡ other_form bytes.now }
    ensures cause { IfSome result (IsCause bytes.now) }
{
    if bytes.is_empty() {
        Some(ReadingError::Empty)
    } else if is_compressed(bytes) {
        Some(ReadingError::Compressed)
    } else if is_utf16(bytes) {
        Some(ReadingError::Utf16)
    } else {
        None
    }
}

// The reader of JSON opens no more lists and objects within each other.
const DEPTH: usize = 127;

#[derive(Clone, Copy)]
struct Nesting {
    depth: usize,
    in_string: bool,
    is_escaped: bool,
}

impl Nesting {
    fn after(self, b: u8) -> Nesting
        requires { self.depth ≤ 127 }
        ensures { result ≡ nesting_after self b }
    {
        let is_mark = b == b'"' && !self.is_escaped;
        Nesting {
            depth: match b {
                b'[' | b'{' if !self.in_string => self.depth + 1,
                b']' | b'}' if !self.in_string => self.depth.saturating_sub(1),
                _ => self.depth,
            },
            in_string: if is_mark {
                !self.in_string
            } else {
                self.in_string
            },
            is_escaped: self.in_string && !self.is_escaped && b == b'\\',
        }
    }
}

// Only bytes up to the line and column are counted.
fn is_too_deep(text: &[u8], line: usize, column: usize) -> bool
    ensures { IsTrue result → IsTooDeep text.now }
{
    let mut nesting = Nesting {
        depth: 0,
        in_string: false,
        is_escaped: false,
    };
    let mut lines = 1usize;
    let mut columns = 0usize;
    for b in text {
        if nesting.depth > DEPTH {
            return true;
        }
        if lines > line || (lines == line && columns >= column) {
            return false;
        }
        nesting = nesting.after(*b);
        columns = if *b == b'\n' {
            0
        } else {
            columns.saturating_add(1)
        };
        lines = lines.saturating_add((*b == b'\n') as usize);
    }
    nesting.depth > DEPTH
}

// Only the message of the JSON reader shows that a number was out of range.
fn fault_of(alloc: Global, text: &[u8], e: &Error) -> Result<ReadingError, AllocError>
    ensures { IfOk result (IsFault text.now) }
{
    let words = format!(in alloc; "{e}")?;
    let (line, column) = (e.line(), e.column());
    if is_too_deep(text, line, column) {
        return Ok(ReadingError::TooDeep { line, column });
    }
    if words.as_str().contains("number out of range") {
        return Ok(ReadingError::NumberOutOfRange { line, column });
    }
    Ok(ReadingError::NotJson { line, column })
}

fn value_of(alloc: Global, bytes: Vec<u8>) -> Result<Value, ReadingError>
    ensures found { IfOk result (λ v. IsJson bytes.items (view v)) }
    ensures cause { IfErr result (IsCause bytes.items) }
{
    let mut bytes = bytes;
    mend(bytes.as_mut_slice());
    let text = without_mark(bytes.as_slice());
    match Value::from_slice(alloc, text) {
        Ok(value) => Ok(value),
        Err(e) => if e.is_memory() {
            Err(ReadingError::Memory)
        } else {
            Err(fault_of(alloc, text, &e)?)
        },
    }
}

/// Returns the entries of a recorded session (HAR 1.2), in the order of the file.
///
/// The bytes are `{"log": {"entries": [..]}}`, the log or the list. A byte order mark is skipped,
/// and a surrogate without its other half is read as U+FFFD. A part that can't be read only affects
/// its own entry. If `no-cache` is ignored, requests are read without the Cache-Control and Pragma
/// that have it, as after a reload.
///
/// # Errors
///
/// `Empty`, `Compressed` or `Utf16` if the bytes are such; `NotJson`, `TooDeep` or
/// `NumberOutOfRange` if they can't be read as JSON in UTF-8; `NoEntries` without a list of
/// entries; and `Memory`.
pub fn recording_from_bytes(
    alloc: Global,
    bytes: Vec<u8>,
    ignores_no_cache: bool,
) -> Result<Vec<Recorded>, ReadingError>
    ensures found { IfOk result (λ rs. IsRecording ignores_no_cache bytes.items
        (map recorded_seen rs.items)) }
    ensures cause { IfErr result (IsCause bytes.items) }
{
    if let Some(form) = other_form(bytes.as_slice()) {
        return Err(form);
    }
    let value = value_of(alloc, bytes)?;
    let reader = reader_of(&value, ignores_no_cache);
    match entries_of(&value) {
        Some(values) => Ok(recorded_all(alloc, values.as_slice(), reader)?),
        None => Err(ReadingError::NoEntries),
    }
}

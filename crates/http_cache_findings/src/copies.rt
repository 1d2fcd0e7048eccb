//! Copies recorded entries, and moves all their times: a later visit makes the same requests. Each
//! copy has the full response to its request, whatever was recorded for it.
ghost use Rattle.std.specs.Prelude.{◌≡◌, map, option_map, string_bytes, IfOk, OnOk};
ghost use Rattle.std.specs.List.{AllZip};
ghost use Rattle.http_cache_fields.specs.Headers.{headers_of};
ghost use Rattle.http_cache_rules.specs.Messages.{response_seen};
ghost use Rattle.http_cache_rules.specs.Dates.{first_date};
ghost use Rattle.http_cache_recording.specs.Entry.{recorded_seen, printed_seen, entry_seen, reading_seen, answer_seen, text_seen};
ghost use Rattle.http_cache_walk.specs.Order.{entry_in};
ghost use Rattle.http_cache_findings.specs.Copies.{moved, IsDateValue, IsMovedUnder, AreMovedHeaders, IsMovedResponse};
ghost use Rattle.http_cache_findings.specs.Copies.{IsMovedAnswer, unconditional, IsCopiedEntry, IsCopiedReading};
ghost use Rattle.http_cache_findings.specs.Copies.{marked, copied_url, copied_printed, nothing_printed, printed_at, entry_at, IsCopy};

use crate::visit::Repeat;
use http::header::{DATE, EXPIRES, IF_MODIFIED_SINCE, IF_NONE_MATCH};
use http::{HeaderMap, response};
use http_cache_fields::headers::{copy_of_map, first_text, remove, replace};
use http_cache_recording::{Answer, Entry, Kind, Printed, Reading, Recorded};
use http_cache_rules::dates::{http_date, read_date};
use http_header::{HeaderName, HeaderValue};
use jiff::Timestamp;
use std::alloc::{AllocError, Global};

// Returns a time moved by so many nanoseconds, or the time itself if the result is out of range.
#[tactic(auto, unfolding(crate::specs::Copies::moved))]
fn moved(at: Timestamp, shift: i128) -> Timestamp
    ensures { result.nanosecond ≡ moved shift at.nanosecond }
{
    let Some(nanosecond) = at.as_nanosecond().checked_add(shift) else {
        return at;
    };
    match Timestamp::from_nanosecond(nanosecond) {
        Ok(moved) => moved,
        Err(_) => at,
    }
}

// Writes a time as a date. Returns None before 1900.
fn date_value(alloc: Global, at: Timestamp) -> Result<Option<HeaderValue>, AllocError>
    ensures { IfOk result (IsDateValue at.nanosecond) }
{
    let Some(date) = http_date(at) else {
        return Ok(None);
    };
    match HeaderValue::from_bytes(alloc, &date) {
        Ok(value) => Ok(Some(value)),
        Err(_) => Err(AllocError),
    }
}

// Returns the time of the first value under a name, if that is a date.
fn date_under(
    alloc: Global,
    headers: &HeaderMap,
    name: &HeaderName,
) -> Result<Option<Timestamp>, AllocError>
    ensures { IfOk result (λ date. option_map (λ d. d.nanosecond) date
        ≡ first_date (headers_of headers.now) name.now) }
{
    match first_text(headers, name) {
        Some(text) => read_date(alloc, text),
        None => Ok(None),
    }
}

fn move_date(
    alloc: Global,
    headers: &mut HeaderMap,
    name: &HeaderName,
    shift: i128,
) -> Result<(), AllocError>
    ensures { OnOk result (IsMovedUnder shift name.now (headers_of headers.old)
        (headers_of headers.new)) }
{
    let Some(at) = date_under(alloc, headers, name)? else {
        return Ok(());
    };
    if let Some(date) = date_value(alloc, moved(at, shift))? {
        replace(headers, name, date);
    }
    Ok(())
}

fn moved_headers(alloc: Global, headers: &HeaderMap, shift: i128) -> Result<HeaderMap, AllocError>
    ensures { IfOk result (λ copy. AreMovedHeaders shift (headers_of headers.now) (headers_of copy)) }
{
    let mut copy = copy_of_map(headers)?;
    move_date(alloc, &mut copy, &DATE, shift)?;
    move_date(alloc, &mut copy, &EXPIRES, shift)?;
    Ok(copy)
}

fn moved_response(
    alloc: Global,
    response: &response::Parts,
    shift: i128,
) -> Result<response::Parts, AllocError>
    ensures { IfOk result (λ copy.
        IsMovedResponse shift (response_seen response.now) (response_seen copy)) }
{
    Ok(response::Parts {
        status: response.status,
        version: response.version,
        headers: moved_headers(alloc, &response.headers, shift)?,
    })
}

fn moved_answer(alloc: Global, answer: &Answer, shift: i128) -> Result<Answer, AllocError>
    ensures { IfOk result (λ copy. IsMovedAnswer shift (answer_seen answer.now) (answer_seen copy)) }
{
    Ok(match answer {
        Answer::Failed => Answer::Failed,
        Answer::Cached(response) => Answer::Cached(moved_response(alloc, response, shift)?),
        Answer::Received(response) => Answer::Received(moved_response(alloc, response, shift)?),
    })
}

// Returns the headers of a request without conditions, which are for what was stored before.
fn unconditional(headers: &HeaderMap) -> Result<HeaderMap, AllocError>
    ensures { IfOk result (λ copy. headers_of copy ≡ unconditional (headers_of headers.now)) }
{
    let mut copy = copy_of_map(headers)?;
    remove(&mut copy, IF_NONE_MATCH);
    remove(&mut copy, IF_MODIFIED_SINCE);
    Ok(copy)
}

// Returns the copy of a request, with the request headers and the answer of another entry.
fn copied_entry(alloc: Global, own: &Entry, full: &Entry, shift: i128) -> Result<Entry, AllocError>
    ensures { IfOk result (λ copy.
        IsCopiedEntry shift (entry_seen own.now) (entry_seen full.now) (entry_seen copy)) }
{
    Ok(Entry {
        kind: Kind::Asked,
        started: moved(own.started, shift),
        received: moved(own.received, shift),
        method: own.method.clone()?,
        headers: unconditional(&full.headers)?,
        answer: moved_answer(alloc, &full.answer, shift)?,
        body: None,
    })
}

// Returns the copy of a request, or an entry that isn't audited if either entry isn't.
fn copied_reading(
    alloc: Global,
    own: Option<&Entry>,
    full: Option<&Entry>,
    shift: i128,
) -> Result<Reading, AllocError>
    ensures { IfOk result (λ copy. IsCopiedReading shift (option_map (λ e. entry_seen e.now) own.entry)
        (option_map (λ e. entry_seen e.now) full.entry) (reading_seen copy)) }
{
    let (Some(own), Some(full)) = (own, full) else {
        return Ok(Reading::Skipped(String::new(alloc)));
    };
    Ok(Reading::Entry(copied_entry(alloc, own, full, shift)?))
}

fn copied_text(text: &Option<String>) -> Result<Option<String>, AllocError>
    ensures { IfOk result (λ copy. text_seen copy ≡ text_seen text.now) }
{
    match text {
        Some(text) => Ok(Some(text.clone()?)),
        None => Ok(None),
    }
}

// Adds a parameter to the query of a url.
fn marked(alloc: Global, url: &str) -> Result<String, AllocError>
    ensures { IfOk result (λ copy. string_bytes copy ≡ marked url.now) }
{
    if url.as_bytes().contains(&b'?') {
        format!(in alloc; "{url}&visit")
    } else {
        format!(in alloc; "{url}?visit")
    }
}

fn copied_url(
    alloc: Global,
    url: &Option<String>,
    other_query: bool,
) -> Result<Option<String>, AllocError>
    ensures { IfOk result (λ copy. text_seen copy ≡ copied_url other_query (text_seen url.now)) }
{
    match url {
        Some(url) if other_query => Ok(Some(marked(alloc, url.as_str())?)),
        _ => copied_text(url),
    }
}

fn copied_printed(
    alloc: Global,
    printed: &Printed,
    other_query: bool,
) -> Result<Printed, AllocError>
    ensures { IfOk result (λ copy. printed_seen copy
        ≡ copied_printed other_query (printed_seen printed.now)) }
{
    Ok(Printed {
        method: copied_text(&printed.method)?,
        url: copied_url(alloc, &printed.url, other_query)?,
        status: printed.status,
        browser: copied_text(&printed.browser)?,
        error: copied_text(&printed.error)?,
        sent: printed.sent,
        head: printed.head,
        page: None,
    })
}

fn nothing_printed() -> Printed
    ensures { printed_seen result ≡ nothing_printed }
{
    Printed {
        method: None,
        url: None,
        status: 0,
        browser: None,
        error: None,
        sent: 0,
        head: 0,
        page: None,
    }
}

fn printed_at(
    alloc: Global,
    recorded: &[Recorded],
    index: usize,
    other_query: bool,
) -> Result<Printed, AllocError>
    ensures { IfOk result (λ copy. printed_seen copy
        ≡ printed_at (map recorded_seen recorded.now) index other_query) }
{
    match recorded.get(index) {
        Some(one) => copied_printed(alloc, &one.printed, other_query),
        None => Ok(nothing_printed()),
    }
}

/// Returns what was recorded of a request, if it is audited.
pub(crate) fn entry_of(recorded: &Recorded) -> Option<&Entry>
    ensures { option_map (λ e. entry_seen e.now) result
        ≡ entry_in (reading_seen recorded.now.reading) }
{
    match &recorded.reading {
        Reading::Entry(entry) => Some(entry),
        Reading::Skipped(_) => None,
    }
}

fn entry_at(recorded: &[Recorded], index: usize) -> Option<&Entry>
    ensures { option_map (λ e. entry_seen e.now) result
        ≡ entry_at (map recorded_seen recorded.now) index }
{
    match recorded.get(index) {
        Some(one) => entry_of(one),
        None => None,
    }
}

fn copy_of(
    alloc: Global,
    recorded: &[Recorded],
    repeat: &Repeat,
    shift: i128,
) -> Result<Recorded, AllocError>
    ensures { IfOk result (λ copy.
        IsCopy (map recorded_seen recorded.now) shift repeat.now (recorded_seen copy)) }
{
    let own = entry_at(recorded, repeat.entry);
    let full = entry_at(recorded, repeat.full);
    Ok(Recorded {
        printed: printed_at(alloc, recorded, repeat.entry, repeat.other_query)?,
        reading: copied_reading(alloc, own, full, shift)?,
    })
}

/// Returns the copies of the repeated requests, with all times moved by so many nanoseconds.
pub(crate) fn copies_of(
    alloc: Global,
    recorded: &[Recorded],
    repeats: &[Repeat],
    shift: i128,
) -> Result<Vec<Recorded>, AllocError>
    ensures { IfOk result (λ copies. AllZip (IsCopy (map recorded_seen recorded.now) shift)
        repeats.now (map recorded_seen copies.items)) }
{
    let mut copies = Vec::with_capacity(alloc, repeats.len())?;
    for repeat in repeats {
        copies.push(copy_of(alloc, recorded, repeat, shift)?)?;
    }
    Ok(copies)
}

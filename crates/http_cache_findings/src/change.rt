//! Changes a header of recorded responses, to see what a cache would have done then.
ghost use Rattle.std.specs.Prelude.{◌≡◌, map, fold, option_map, string_bytes, IfOk, IfErr};
ghost use Rattle.http_cache_semantics.specs.Messages.{response_seen};
ghost use Rattle.http_cache_recording.specs.Entry.{recorded_seen, entry_seen, reading_seen, answer_seen};
ghost use Rattle.http_cache_recording.specs.Printed.{some_text};
ghost use Rattle.http_cache_findings.specs.Change.{change_seen, after_first, after, line_of, is_line_of, is_of, changed_response};
ghost use Rattle.http_cache_findings.specs.Change.{changed_answer, changed_reading, changed_by, changed, IsChange, IsNoChange};
ghost use Rattle.http_cache_findings.specs.declared.change.ChangeError.TheVariants.{Memory};

use http::response;
use http_cache_fields::headers::remove;
use http_cache_recording::{Answer, Entry, Reading, Recorded, field_name, value_of_line};
use http_cache_walk::assume::put_value;
use http_cache_walk::order::target_of;
use http_header::{HeaderName, HeaderValue};
use std::alloc::{AllocError, Global};
use thiserror::Error;

/// A change of a header in each recorded response whose url matches a pattern.
#[derive(Drop)]
pub struct Change {
    /// The pattern of urls, in which `*` stands for any text.
    pub pattern: String,
    /// The name of the header.
    pub name: HeaderName,
    /// The new value, or `None` to remove the header.
    pub value: Option<HeaderValue>,
}

/// Why a text is no change.
#[derive(Clone, Copy, Debug, PartialEq, Eq, Error)]
pub enum ChangeError {
    /// The text isn't `PATTERN: HEADER: VALUE`.
    #[error("not `PATTERN: HEADER: VALUE`")]
    NoParts,
    /// The second part is no field name (RFC 9110, section 5.1).
    #[error("not a header name")]
    NoName,
    /// The last part is no field value (RFC 9110, section 5.5).
    #[error("not a header value")]
    NoValue,
    /// The allocator is out of memory.
    #[error("out of memory")]
    Memory,
}

impl From<AllocError> for ChangeError {
    ghost from_gives = { λ _ e. e ≡ Memory };

    fn from(_e: AllocError) -> ChangeError {
        ChangeError::Memory
    }
}

fn unless_empty(value: HeaderValue) -> Option<HeaderValue>
    ensures { option_map (λ v. v.bytes) result ≡ some_text value.bytes }
{
    if value.is_empty() { None } else { Some(value) }
}

/// Returns the change in a text such as `*.js: Cache-Control: max-age=3600`.
///
/// The text is split at its first two `: `, and an empty value removes the header.
///
/// # Errors
///
/// `NoParts`, `NoName` or `NoValue` if the text is no change, and `Memory`.
pub fn change_from_text(alloc: Global, text: &str) -> Result<Change, ChangeError>
    ensures change { IfOk result (λ c. IsChange text.now (change_seen c)) }
    ensures cause { IfErr result (IsNoChange text.now) }
{
    let Some((pattern, rest)) = text.split_once(": ") else {
        return Err(ChangeError::NoParts);
    };
    let Some((name, value)) = rest.split_once(": ") else {
        return Err(ChangeError::NoParts);
    };
    let Some(name) = field_name(alloc, name)? else {
        return Err(ChangeError::NoName);
    };
    let Some(value) = value_of_line(alloc, value.as_bytes())? else {
        return Err(ChangeError::NoValue);
    };
    Ok(Change {
        pattern: String::from_str(alloc, pattern)?,
        name,
        value: unless_empty(value),
    })
}

// No url contains a line feed.
fn line_of(alloc: Global, text: &str) -> Result<String, AllocError>
    ensures { IfOk result (λ line. string_bytes line ≡ line_of text.now) }
{
    format!(in alloc; "\n{text}\n")
}

fn after_first<'a>(text: &'a str, piece: &str) -> Option<&'a str>
    ensures { option_map (λ t. t.now) result ≡ after_first piece.now text.now }
{
    match text.split_once(piece) {
        Some((_, rest)) => Some(rest),
        None => None,
    }
}

fn after<'a>(left: Option<&'a str>, piece: &str) -> Option<&'a str>
    ensures { option_map (λ t. t.now) result ≡ after (option_map (λ t. t.now) left.entry) piece.now }
{
    match left {
        Some(text) => after_first(text, piece),
        None => None,
    }
}

fn is_line_of(line: &str, pattern: &str) -> bool
    ensures { result ≡ is_line_of pattern.now line.now }
{
    let mut left = Some(line);
    for piece in pattern.split('*') {
        left = after(left, piece);
    }
    left.is_some()
}

/// Returns whether a url matches a pattern, in which `*` stands for any text.
pub(crate) fn is_of(alloc: Global, url: &str, pattern: &str) -> Result<bool, AllocError>
    ensures { IfOk result (λ holds. holds ≡ is_of pattern.now url.now) }
{
    let (line, pattern) = (line_of(alloc, url)?, line_of(alloc, pattern)?);
    Ok(is_line_of(line.as_str(), pattern.as_str()))
}

fn changed_response(
    response: response::Parts,
    change: &Change,
) -> Result<response::Parts, AllocError>
    ensures { IfOk result (λ r. response_seen r
        ≡ changed_response (change_seen change.now) (response_seen response)) }
{
    let mut response = response;
    remove(&mut response.headers, &change.name);
    if let Some(value) = &change.value {
        put_value(&mut response.headers, &change.name, value)?;
    }
    Ok(response)
}

fn changed_answer(answer: Answer, change: &Change) -> Result<Answer, AllocError>
    ensures { IfOk result (λ a. answer_seen a
        ≡ changed_answer (change_seen change.now) (answer_seen answer)) }
{
    Ok(match answer {
        Answer::Failed => Answer::Failed,
        Answer::Cached(response) => Answer::Cached(changed_response(response, change)?),
        Answer::Received(response) => Answer::Received(changed_response(response, change)?),
    })
}

/// Returns an entry with the change in its response.
fn changed_reading(reading: Reading, change: &Change) -> Result<Reading, AllocError>
    ensures { IfOk result (λ r. reading_seen r
        ≡ changed_reading (change_seen change.now) (reading_seen reading)) }
{
    let Reading::Entry(entry) = reading else {
        return Ok(reading);
    };
    let answer = changed_answer(entry.answer, change)?;
    Ok(Reading::Entry(Entry { answer, ..entry }))
}

fn changed_by(alloc: Global, recorded: Recorded, change: &Change) -> Result<Recorded, AllocError>
    ensures { IfOk result (λ r. recorded_seen r
        ≡ changed_by (recorded_seen recorded) (change_seen change.now)) }
{
    if !is_of(alloc, target_of(&recorded), change.pattern.as_str())? {
        return Ok(recorded);
    }
    let reading = changed_reading(recorded.reading, change)?;
    Ok(Recorded {
        printed: recorded.printed,
        reading,
    })
}

fn changed(alloc: Global, recorded: Recorded, changes: &[Change]) -> Result<Recorded, AllocError>
    ensures { IfOk result (λ r. recorded_seen r
        ≡ changed (map change_seen changes.now) (recorded_seen recorded)) }
{
    let mut recorded = recorded;
    for change in changes {
        recorded = changed_by(alloc, recorded, change)?;
    }
    Ok(recorded)
}

/// Returns a recording with all changes made, in order.
pub(crate) fn changed_all(
    alloc: Global,
    recorded: Vec<Recorded>,
    changes: &[Change],
) -> Result<Vec<Recorded>, AllocError>
    ensures { IfOk result (λ all. map recorded_seen all.items
        ≡ map (changed (map change_seen changes.now)) (map recorded_seen recorded.items)) }
{
    let mut all = Vec::with_capacity(alloc, recorded.len())?;
    for one in recorded {
        all.push(changed(alloc, one, changes)?)?;
    }
    Ok(all)
}

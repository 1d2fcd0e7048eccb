//! Reads the bytes of a recording or of heads of responses, and writes the text of the audit.
ghost use Rattle.std.specs.Prelude.{◌≡◌, ◌≢◌, List, ℕ, Some, Err, map, IfOk, IfErr, OnErr, IfSome, string_bytes};
ghost use Rattle.std.specs.Io.KnownBytes.{Appends};
ghost use Rattle.http_cache_recording.specs.Entry.{recorded_seen};
ghost use Rattle.http_cache_walk.specs.Settings.{settings_seen};
ghost use Rattle.http_cache_findings.specs.Change.{change_seen};
ghost use Rattle.http_cache_show.specs.Output.{front_of, any_audited, hits_of, AreHits, IsOfForm, IsPrinted, IsAudited, IsRefusal, IsInput};
ghost use Rattle.http_cache_show.specs.Printable.{IsPlain};
ghost use Rattle.http_cache_show.specs.Tags.{is_between_tags};

use crate::error::{AuditError, Fallible};
use crate::heads_report::heads_report;
use crate::lines::{by_url, lines, savings};
use crate::object::object;
use crate::page::page;
use crate::printable::printable;
use crate::report::report;
use http_cache_findings::change::Change;
use http_cache_findings::findings::Findings;
use http_cache_findings::gather::findings_of;
use http_cache_findings::responses::head_findings_of;
use http_cache_recording::heads::{heads_from_bytes, is_heads};
use http_cache_recording::recording::{LONGEST, recording_from_bytes};
use http_cache_recording::{Reading, Recorded};
use http_cache_walk::settings::{Settings, no_target};
use http_cache_walk::walk::rows_of;
use jiff::Timestamp;
use std::alloc::Global;
use std::hash::RandomState;
use std::io::{ErrorKind, Read, Write};

// Returns what a reader has left, up to one byte more than the longest recording.
fn front_of<R: Read>(alloc: Global, reader: &mut R) -> Result<Vec<u8>, AuditError>
    ensures front { IfOk result (λ all.
        IfSome (front_of (R.remaining reader.old)) (λ bytes. all.items ≡ bytes)) }
    ensures refused { IfErr result (IsRefusal (R.remaining reader.old)) }
    ensures no_writer { result ≢ Err AuditError.NotWritten }
{
    let mut all = Vec::new(alloc);
    let mut front = Read::take(reader, LONGEST as u64 + 1);
    match front.read_to_end(&mut all) {
        Ok(_) => Ok(all),
        Err(e) => if e.kind() == ErrorKind::OutOfMemory {
            Err(AuditError::Memory)
        } else {
            Err(AuditError::NotReadable)
        },
    }
}

// Returns all that a reader has left, if a recording may have as much.
fn bytes_of<R: Read>(alloc: Global, reader: &mut R) -> Result<Vec<u8>, AuditError>
    ensures all { IfOk result (λ all.
        IfSome (R.remaining reader.old) (λ bytes. all.items ≡ bytes)) }
    ensures refused { IfErr result (IsRefusal (R.remaining reader.old)) }
    ensures no_writer { result ≢ Err AuditError.NotWritten }
{
    let all = front_of(alloc, reader)?;
    if all.len() > LONGEST {
        return Err(AuditError::TooLong);
    }
    Ok(all)
}

// Returns what bytes record, and whether they are heads of responses.
fn recorded_of(
    alloc: Global,
    keys: RandomState,
    now: Timestamp,
    bytes: Vec<u8>,
    ignores_no_cache: bool,
) -> Result<(Vec<Recorded>, bool), AuditError>
    ensures read { IfOk result (λ made. IsInput now.nanosecond ignores_no_cache bytes.items made.1
        (map recorded_seen made.0.items)) }
    ensures refused { IfErr result (IsRefusal (Some bytes.items)) }
    ensures no_writer { result ≢ Err AuditError.NotWritten }
{
    if is_heads(bytes.as_slice()) {
        return match heads_from_bytes(alloc, keys, bytes.as_slice(), now) {
            Ok(recorded) => Ok((recorded, true)),
            Err(cause) => Err(AuditError::Heads(cause)),
        };
    }
    match recording_from_bytes(alloc, bytes, ignores_no_cache) {
        Ok(recorded) => Ok((recorded, false)),
        Err(cause) => Err(AuditError::Recording(cause)),
    }
}

fn any_audited(recorded: &[Recorded]) -> bool
    ensures { result ≡ any_audited (map recorded_seen recorded.now) }
{
    recorded
        .iter()
        .any(|one| matches!(&one.reading, Reading::Entry(_)))
}

/// The result of an audit whose text was written.
#[derive(Clone, Copy, Debug, PartialEq, Eq)]
pub struct Ended {
    /// Whether an entry was audited.
    pub audited: bool,
    /// How many repeated requests a stored response answers. There are none if headers were
    /// changed, or for a report by url.
    pub hits: Hits,
}

/// What is written of a recording.
#[derive(Clone, Copy, PartialEq, Eq)]
pub enum Form {
    /// A report of one screen.
    Report,
    /// The report as a page of HTML.
    Html,
    /// What the report finds, as one JSON object.
    Object,
    /// A line for each request.
    Lines,
    /// A JSON object for each request.
    JsonLines,
    /// A JSON object for each url.
    ByUrl,
}

/// The number of repeated requests, and of those that a stored response answers.
#[derive(Clone, Copy, Debug, PartialEq, Eq)]
pub struct Hits {
    /// Those that a stored response answers.
    pub fresh: u64,
    /// All repeated requests.
    pub repeated: u64,
}

impl Hits {
    /// Returns whether a stored response answers fewer than `percent` in a hundred.
    pub fn are_under(self, percent: u64) -> bool {
        (self.fresh as u128 * 100) < percent as u128 * self.repeated as u128
    }
}

// A text, and the hits that it is about.
type Written = Fallible<(String, Hits)>;

const NO_HITS: Hits = Hits {
    fresh: 0,
    repeated: 0,
};

// Returns a line or an object for each request.
fn lines_of(alloc: Global, recorded: &[Recorded], as_json: bool, settings: &Settings) -> Written {
    let (text, counts) = lines(alloc, recorded, as_json, settings)?;
    let fresh = counts.total("verdicts/fresh");
    let repeated = counts.total("counts/repeated");
    Ok((text, Hits { fresh, repeated }))
}

fn hits_of(found: &Findings) -> Hits
    ensures { result ≡ hits_of found.now }
{
    Hits {
        fresh: found.repeated.fresh,
        repeated: found.repeated.requests,
    }
}

fn report_of(alloc: Global, recorded: Vec<Recorded>, settings: &Settings) -> Written
    ensures hits { IfOk result (λ made. AreHits (settings_seen settings.now)
        (map recorded_seen recorded.items) made.1) }
    ensures plain { IfOk result (λ made. IsPlain (string_bytes made.0)) }
{
    let (found, _) = findings_of(alloc, recorded, settings)?;
    let text = printable(alloc, report(alloc, &found)?.as_str())?;
    Ok((text, hits_of(&found)))
}

fn page_of(alloc: Global, recorded: Vec<Recorded>, settings: &Settings) -> Written
    ensures hits { IfOk result (λ made. AreHits (settings_seen settings.now)
        (map recorded_seen recorded.items) made.1) }
    ensures between { IfOk result (λ made. is_between_tags (string_bytes made.0)) }
{
    let (found, recorded) = findings_of(alloc, recorded, settings)?;
    let target = no_target(alloc)?;
    let rows = rows_of(alloc, recorded.as_slice(), &target, settings.options)?;
    let text = page(alloc, &found, rows.as_slice(), settings.hides_queries)?;
    Ok((text, hits_of(&found)))
}

fn object_of(alloc: Global, recorded: Vec<Recorded>, settings: &Settings) -> Written
    ensures { IfOk result (λ made. AreHits (settings_seen settings.now)
        (map recorded_seen recorded.items) made.1) }
{
    let (found, _) = findings_of(alloc, recorded, settings)?;
    Ok((object(alloc, &found)?, hits_of(&found)))
}

// Returns the report of heads.
fn heads_of(alloc: Global, recorded: Vec<Recorded>, settings: &Settings) -> Written
    ensures { IfOk result (λ made. IsPlain (string_bytes made.0)) }
{
    let heads = head_findings_of(alloc, recorded, &settings.options)?;
    let text = heads_report(alloc, heads.as_slice(), settings.options.shared)?;
    Ok((printable(alloc, text.as_str())?, NO_HITS))
}

// Returns a line for each request.
fn plain_lines_of(alloc: Global, recorded: &[Recorded], settings: &Settings) -> Written
    ensures { IfOk result (λ made. IsPlain (string_bytes made.0)) }
{
    let (text, hits) = lines_of(alloc, recorded, false, settings)?;
    Ok((printable(alloc, text.as_str())?, hits))
}

fn of_form(
    alloc: Global,
    recorded: Vec<Recorded>,
    are_heads: bool,
    form: Form,
    settings: &Settings,
) -> Written
    ensures { IfOk result (λ made. IsOfForm form are_heads (settings_seen settings.now)
        (map recorded_seen recorded.items) made.1 (string_bytes made.0)) }
{
    match form {
        Form::Report => if are_heads {
            heads_of(alloc, recorded, settings)
        } else {
            report_of(alloc, recorded, settings)
        },
        Form::Html => page_of(alloc, recorded, settings),
        Form::Object => object_of(alloc, recorded, settings),
        Form::Lines => plain_lines_of(alloc, recorded.as_slice(), settings),
        Form::JsonLines => lines_of(alloc, recorded.as_slice(), true, settings),
        Form::ByUrl => Ok((by_url(alloc, recorded.as_slice(), settings)?, NO_HITS)),
    }
}

// Returns what changes save.
fn savings_of(
    alloc: Global,
    recorded: Vec<Recorded>,
    form: Form,
    changes: &[Change],
    settings: &Settings,
) -> Written {
    let as_json = matches!(form, Form::Object | Form::JsonLines);
    let text = savings(alloc, recorded, changes, as_json, settings)?;
    if as_json {
        return Ok((text, NO_HITS));
    }
    Ok((printable(alloc, text.as_str())?, NO_HITS))
}

// Returns the text of a recording, or of what changes save.
fn printed(
    alloc: Global,
    recorded: Vec<Recorded>,
    are_heads: bool,
    form: Form,
    changes: &[Change],
    settings: &Settings,
) -> Written
    ensures { IfOk result (λ made. IsPrinted form are_heads (settings_seen settings.now)
        (map change_seen changes.now) (map recorded_seen recorded.items) made.1
        (string_bytes made.0)) }
{
    if changes.is_empty() {
        of_form(alloc, recorded, are_heads, form, settings)
    } else {
        savings_of(alloc, recorded, form, changes, settings)
    }
}

// Returns the text for what a reader has left, and the result of the audit.
fn text_of<R: Read>(
    alloc: Global,
    keys: RandomState,
    now: Timestamp,
    reader: &mut R,
    form: Form,
    changes: &[Change],
    settings: Settings,
) -> Result<(String, Ended), AuditError>
    ensures audited { IfOk result (λ made. IfSome (R.remaining reader.old)
        (λ bytes. IsAudited form now.nanosecond (settings_seen settings)
        (map change_seen changes.now) settings.ignores_no_cache bytes made.1
        (string_bytes made.0))) }
    ensures refused { IfErr result (IsRefusal (R.remaining reader.old)) }
    ensures no_writer { result ≢ Err AuditError.NotWritten }
{
    let bytes = bytes_of(alloc, reader)?;
    let ignores = settings.ignores_no_cache;
    let (recorded, are_heads) = recorded_of(alloc, keys, now, bytes, ignores)?;
    let audited = any_audited(recorded.as_slice());
    match printed(alloc, recorded, are_heads, form, changes, &settings) {
        Ok((text, hits)) => Ok((text, Ended { audited, hits })),
        Err(_) => Err(AuditError::Memory),
    }
}

/// Reads a recording to its end, writes the text of its audit, and returns the result. With changes
/// of headers, the text is about their savings.
///
/// Bytes that begin with `HTTP/` are heads of responses instead. Each is received at its Date, else
/// at `now`. `keys` are secret, since someone else chose the field names.
///
/// # Errors
///
/// - `NotReadable` or `TooLong` if the bytes can't be read, and `Recording` or `Heads` if they are
///   neither. Nothing was written then.
/// - `Memory` if there is not enough memory. Nothing was written then.
/// - `NotWritten` if the writer fails. A beginning of the text may have been written.
pub fn run<R: Read, W: Write>(
    alloc: Global,
    keys: RandomState,
    now: Timestamp,
    reader: &mut R,
    writer: &mut W,
    form: Form,
    changes: &[Change],
    settings: Settings,
) -> Result<Ended, AuditError>
    ensures done { IfOk result (λ ended. IfSome (R.remaining reader.old) (λ bytes.
        (text : List ℕ) × IsAudited form now.nanosecond (settings_seen settings)
        (map change_seen changes.now) settings.ignores_no_cache bytes ended text
        × Appends (W.contents writer.old) (W.contents writer.new) text)) }
    ensures refused { IfErr result (IsRefusal (R.remaining reader.old)) }
    ensures nothing { result ≢ Err AuditError.NotWritten → OnErr result (writer.new ≡ writer.old) }
{
    let (text, ended) = text_of(alloc, keys, now, reader, form, changes, settings)?;
    match writer.write_all(text.as_bytes()) {
        Ok(()) => Ok(ended),
        Err(_) => Err(AuditError::NotWritten),
    }
}

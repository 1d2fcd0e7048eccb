//! A recording in which some urls follow their advice.
ghost use Rattle.std.specs.Prelude.{◌≡◌, map, option_map, IfOk, OnOk};
ghost use Rattle.std.specs.List.{find};
ghost use Rattle.http_cache_fields.specs.Headers.{headers_of};
ghost use Rattle.http_cache_semantics.specs.Messages.{response_seen};
ghost use Rattle.http_cache_recording.specs.Entry.{recorded_seen, reading_seen, answer_seen};
ghost use Rattle.http_cache_findings.specs.Remedy.{remedy_seen, put_text, with_control, with_tag, remedied_headers, with_headers};
ghost use Rattle.http_cache_findings.specs.Remedy.{remedied_response, remedied_answer, remedied_reading, is_for, advice_in};
ghost use Rattle.http_cache_findings.specs.Remedy.{remedied, is_still_in_full};

use crate::advice::{Advice, Term, control_of};
use crate::picks::Pick;
use http::header::{CACHE_CONTROL, ETAG};
use http::{HeaderMap, response};
use http_cache_fields::headers::{copy_of_map, remove};
use http_cache_recording::{Answer, Entry, Reading, Recorded, value_of_line};
use http_cache_walk::assume::put_value;
use http_cache_walk::order::target_of;
use http_header::HeaderName;
use std::alloc::{AllocError, Global};

/// What a url is advised to send.
#[derive(Drop)]
pub struct Remedy {
    /// The url.
    pub url: String,
    /// Its requests, and what to send.
    pub pick: Pick,
}

// Replaces the value of a name by a text, if that is a valid value and there is room for it.
fn put_text(
    alloc: Global,
    headers: &mut HeaderMap,
    name: &HeaderName,
    text: &str,
) -> Result<(), AllocError>
    ensures { OnOk result (headers_of headers.new
        ≡ put_text (headers_of headers.old) name.now text.now) }
{
    match value_of_line(alloc, text.as_bytes())? {
        Some(value) => put_value(headers, name, &value),
        None => Ok(()),
    }
}

fn put_control(alloc: Global, headers: &mut HeaderMap, advice: Advice) -> Result<(), AllocError>
    ensures { OnOk result (headers_of headers.new ≡ with_control advice (headers_of headers.old)) }
{
    if matches!(advice.term, Term::Same) {
        return Ok(());
    }
    remove(headers, &CACHE_CONTROL);
    put_text(alloc, headers, &CACHE_CONTROL, control_of(advice))
}

fn put_tag(alloc: Global, headers: &mut HeaderMap, advice: Advice) -> Result<(), AllocError>
    ensures { OnOk result (headers_of headers.new ≡ with_tag advice (headers_of headers.old)) }
{
    if advice.adds_tag {
        put_text(alloc, headers, &ETAG, "\"1\"")
    } else {
        Ok(())
    }
}

fn remedied_headers(
    alloc: Global,
    headers: &HeaderMap,
    advice: Advice,
) -> Result<HeaderMap, AllocError>
    ensures { IfOk result (λ h. headers_of h ≡ remedied_headers advice (headers_of headers.now)) }
{
    let mut copy = copy_of_map(headers)?;
    put_control(alloc, &mut copy, advice)?;
    put_tag(alloc, &mut copy, advice)?;
    Ok(copy)
}

// Returns a response with other headers, and its own.
fn with_headers(response: response::Parts, headers: HeaderMap) -> (response::Parts, HeaderMap)
    ensures { response_seen result.0
        ≡ record { status = (response_seen response).status; headers = headers_of headers } }
{
    let other = response::Parts {
        status: response.status,
        version: response.version,
        headers,
    };
    (other, response.headers)
}

// Returns an answer whose response has other headers, and its own headers, if it has a response.
fn swapped(answer: Answer, headers: HeaderMap) -> (Answer, HeaderMap)
    ensures { answer_seen result.0 ≡ with_headers (headers_of headers) (answer_seen answer) }
{
    match answer {
        Answer::Failed => (Answer::Failed, headers),
        Answer::Cached(response) => {
            let (response, own) = with_headers(response, headers);
            (Answer::Cached(response), own)
        }
        Answer::Received(response) => {
            let (response, own) = with_headers(response, headers);
            (Answer::Received(response), own)
        }
    }
}

fn remedied_response(
    alloc: Global,
    response: response::Parts,
    advice: Advice,
) -> Result<(response::Parts, HeaderMap), AllocError>
    ensures { IfOk result (λ made. response_seen made.0
        ≡ remedied_response advice (response_seen response)) }
{
    let headers = remedied_headers(alloc, &response.headers, advice)?;
    Ok(with_headers(response, headers))
}

// Returns what an answer becomes if its url follows its advice, and the headers that it had.
fn remedied_answer(
    alloc: Global,
    answer: Answer,
    advice: Advice,
) -> Result<(Answer, Option<HeaderMap>), AllocError>
    ensures { IfOk result (λ made. answer_seen made.0
        ≡ remedied_answer advice (answer_seen answer)) }
{
    Ok(match answer {
        Answer::Failed => (Answer::Failed, None),
        Answer::Cached(response) => {
            let (response, own) = remedied_response(alloc, response, advice)?;
            (Answer::Cached(response), Some(own))
        }
        Answer::Received(response) => {
            let (response, own) = remedied_response(alloc, response, advice)?;
            (Answer::Received(response), Some(own))
        }
    })
}

fn remedied_reading(
    alloc: Global,
    reading: Reading,
    advice: Advice,
) -> Result<(Reading, Option<HeaderMap>), AllocError>
    ensures { IfOk result (λ made. reading_seen made.0
        ≡ remedied_reading advice (reading_seen reading)) }
{
    let Reading::Entry(entry) = reading else {
        return Ok((reading, None));
    };
    let (answer, own) = remedied_answer(alloc, entry.answer, advice)?;
    Ok((Reading::Entry(Entry { answer, ..entry }), own))
}

fn find_for<'a>(remedies: &'a [Remedy], url: &str) -> Option<&'a Remedy>
    ensures { option_map (λ r. remedy_seen r.now) result
        ≡ find (is_for url.now) (map remedy_seen remedies.now) }
{
    remedies.iter().find(|one| one.url.as_str() == url)
}

fn advice_in(remedies: &[Remedy], url: &str) -> Option<Advice>
    ensures { result ≡ advice_in (map remedy_seen remedies.now) url.now }
{
    match find_for(remedies, url) {
        Some(one) => Some(one.pick.advice),
        None => None,
    }
}

fn remedied(
    alloc: Global,
    recorded: Recorded,
    remedies: &[Remedy],
) -> Result<(Recorded, Option<HeaderMap>), AllocError>
    ensures { IfOk result (λ made. recorded_seen made.0
        ≡ remedied (map remedy_seen remedies.now) (recorded_seen recorded)) }
{
    let Some(advice) = advice_in(remedies, target_of(&recorded)) else {
        return Ok((recorded, None));
    };
    let (reading, own) = remedied_reading(alloc, recorded.reading, advice)?;
    let recorded = Recorded {
        printed: recorded.printed,
        reading,
    };
    Ok((recorded, own))
}

/// Returns a recording in which the responses of some urls have the advised headers, and for each
/// entry the headers that its response had, if they were replaced.
pub fn remedied_all(
    alloc: Global,
    recorded: Vec<Recorded>,
    remedies: &[Remedy],
) -> Result<(Vec<Recorded>, Vec<Option<HeaderMap>>), AllocError>
    ensures { IfOk result (λ made. map recorded_seen made.0.items
        ≡ map (remedied (map remedy_seen remedies.now)) (map recorded_seen recorded.items)) }
{
    let mut all = Vec::with_capacity(alloc, recorded.len())?;
    let mut own = Vec::with_capacity(alloc, recorded.len())?;
    for one in recorded {
        let (one, headers) = remedied(alloc, one, remedies)?;
        all.push(one)?;
        own.push(headers)?;
    }
    Ok((all, own))
}

fn restored_reading(reading: Reading, own: HeaderMap) -> Reading {
    match reading {
        Reading::Entry(entry) => {
            let (answer, _) = swapped(entry.answer, own);
            Reading::Entry(Entry { answer, ..entry })
        }
        Reading::Skipped(reason) => Reading::Skipped(reason),
    }
}

fn restored(recorded: Recorded, own: Option<HeaderMap>) -> Recorded {
    match own {
        Some(own) => Recorded {
            printed: recorded.printed,
            reading: restored_reading(recorded.reading, own),
        },
        None => recorded,
    }
}

/// Returns a recording in which responses have the headers again that they had.
pub fn restored_all(
    alloc: Global,
    recorded: Vec<Recorded>,
    own: Vec<Option<HeaderMap>>,
) -> Result<Vec<Recorded>, AllocError> {
    let mut all = Vec::with_capacity(alloc, recorded.len())?;
    for (one, own) in recorded.into_iter().zip(own) {
        all.push(restored(one, own))?;
    }
    Ok(all)
}

/// Returns whether a server still answers a url's own validator in full: it did, and no advice
/// changes that.
pub fn is_still_in_full(remedies: &[Remedy], url: &str, in_full: bool) -> bool
    ensures { result ≡ is_still_in_full (map remedy_seen remedies.now) url.now in_full }
{
    match advice_in(remedies, url) {
        Some(advice) => in_full && !advice.answers_304,
        None => in_full,
    }
}

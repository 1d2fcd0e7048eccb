//! Names what is printed of a row. The members are a JSON object, the words of a line, and what is
//! counted.
ghost use Rattle.std.specs.Prelude.{◌≡◌};
ghost use Rattle.http_header.specs.Token.{lowercase};

use crate::error::Fallible;
use crate::item::Item;
use crate::words::{fault_words, reasons};
use http::HeaderMap;
use http_cache_fields::headers::first_text;
use http_cache_findings::findings::Fault;
use http_cache_findings::lint::flaws_of;
use http_cache_recording::{Answer, Entry, Kind, Printed, Reading};
use http_cache_walk::order::shown_url;
use http_cache_walk::row::{Again, AuditVerdict, Demand, Lifetime, Outcome, Received, Row, Used};
use serde_json::{Map, Value, put};
use std::alloc::Global;

/// A value without parts.
#[derive(Clone, Copy)]
pub(crate) enum Leaf<'a> {
    Text(&'a str),
    Number(u64),
    Is(bool),
    Null,
}

/// Members by name, in the order of a line: texts, numbers, lists of texts, and flags that are set.
/// In a JSON object they may be any value.
#[derive(Drop)]
pub struct Members {
    alloc: Global,
    /// The members.
    pub all: Vec<(&'static str, Value)>,
}

impl Members {
    pub(crate) fn new(alloc: Global) -> Members {
        Members {
            alloc,
            all: Vec::new(alloc),
        }
    }

    pub(crate) fn add(&mut self, name: &'static str, value: Value) -> Fallible<()> {
        Ok(self.all.push((name, value))?)
    }

    pub(crate) fn text(&mut self, name: &'static str, text: &str) -> Fallible<()> {
        self.add(name, Value::try_from_str(self.alloc, text)?)
    }

    fn some_text(&mut self, name: &'static str, text: Option<&str>) -> Fallible<()> {
        match text {
            Some(text) => self.text(name, text),
            None => Ok(()),
        }
    }

    pub(crate) fn count(&mut self, name: &'static str, count: u64) -> Fallible<()> {
        self.add(name, Value::from(count))
    }

    pub(crate) fn leaves(&mut self, all: &[(&'static str, Leaf<'_>)]) -> Fallible<()> {
        for (name, leaf) in all {
            let value = match *leaf {
                Leaf::Text(text) => Value::try_from_str(self.alloc, text)?,
                Leaf::Number(number) => Value::from(number),
                Leaf::Is(holds) => Value::Bool(holds),
                Leaf::Null => Value::Null,
            };
            self.add(*name, value)?;
        }
        Ok(())
    }

    /// Adds the numbers that aren't 0.
    pub(crate) fn some_counts(&mut self, counts: &[(&'static str, u64)]) -> Fallible<()> {
        for (name, count) in counts {
            if *count > 0 {
                self.count(*name, *count)?;
            }
        }
        Ok(())
    }

    pub(crate) fn texts(&mut self, name: &'static str, texts: &[String]) -> Fallible<()> {
        if texts.is_empty() {
            return Ok(());
        }
        let mut all = Vec::with_capacity(self.alloc, texts.len())?;
        for text in texts {
            all.push(Value::try_from_str(self.alloc, text.as_str())?)?;
        }
        self.add(name, Value::Array(all))
    }

    fn yes(&mut self, name: &'static str, holds: bool) -> Fallible<()> {
        if !holds {
            return Ok(());
        }
        self.add(name, Value::Bool(true))
    }

    /// Returns the members as a JSON object.
    pub(crate) fn into_object(self) -> Fallible<Value> {
        let alloc = self.alloc;
        let mut object = Map::new(alloc);
        for (name, value) in self.all {
            put(&mut object, alloc, name, value)?;
        }
        Ok(Value::Object(object))
    }
}

/// Returns the word for how an entry is counted.
pub(crate) fn kind_word(reading: &Reading) -> &'static str {
    let Reading::Entry(entry) = reading else {
        return "skipped";
    };
    match entry.kind {
        Kind::Internal => "internal",
        Kind::Preflight => "preflight",
        Kind::Passed => "passed",
        Kind::Range => "range",
        Kind::Failed => "failed",
        Kind::Asked => "asked",
    }
}

/// Returns the word for what a cache would have answered, or for the kind of an entry that is
/// counted apart.
pub fn verdict_word(row: &Row<'_>) -> &'static str {
    let outcome = match &row.verdict {
        Some(verdict) => verdict.outcome,
        None => Outcome::Apart,
    };
    match outcome {
        Outcome::Apart => kind_word(&row.recorded.reading),
        Outcome::Fresh => "fresh",
        Outcome::Validate => "validate",
        Outcome::Refetch => "refetch",
        Outcome::Miss => "miss",
        Outcome::MissVary => "miss-vary",
    }
}

fn received_word(received: &Received) -> &'static str {
    match received {
        Received::Nothing => "none",
        Received::Stored(_) => "stored",
        Received::Updated(_) => "updated",
        Received::UpdatedOther(_) => "updated other",
        Received::NotStorable(_) => "not storable",
        Received::Browser => "browser",
        Received::Failed => "failed",
        Received::NothingStored => "304 for nothing stored",
        Received::NotSelected => "304 not selected",
        Received::Passed => "passed",
    }
}

fn end_word(verdict: &AuditVerdict) -> Option<&'static str> {
    Some(match (verdict.outcome, verdict.again) {
        (Outcome::Validate | Outcome::Refetch, None) => match &verdict.received {
            Received::Updated(_) => "304",
            received => received_word(received),
        },
        (_, Some(Again::Changed)) => "changed",
        (_, Some(Again::InFull)) => "unchanged in full",
        (_, Some(Again::Unasked)) => "asked without a condition",
        (_, Some(Again::Unknown)) => "no way to tell",
        _ => return None,
    })
}

fn demand_word(demand: Option<Demand>, used: Option<&Used>) -> Option<&'static str> {
    match (demand?, used) {
        (Demand::Limit, Some(used)) if used.is_stale => None,
        (Demand::Limit, _) => Some("request max-age or min-fresh"),
        (Demand::NoCache, _) => Some("request no-cache"),
        (Demand::Condition, _) => Some("a condition of its own"),
    }
}

fn add_lifetime(to: &mut Members, lifetime: &Lifetime) -> Fallible<()> {
    to.text("by", lifetime.by)?;
    to.some_text("source", lifetime.source.as_deref())
}

// Adds the stored response that answers, or that is asked about.
fn add_used(to: &mut Members, verdict: &AuditVerdict) -> Fallible<()> {
    let demand = demand_word(verdict.demand, verdict.used.as_ref());
    to.some_text("asks_for", demand)?;
    let Some(used) = &verdict.used else {
        return Ok(());
    };
    let lifetime = &used.lifetime;
    to.count("age", used.age)?;
    to.count("from_entry", used.from as u64)?;
    if verdict.outcome == Outcome::Fresh {
        to.count("ttl", used.time_to_live)?;
        to.yes("stale_allowed", used.is_stale)?;
        if let (Some(saved), Received::Nothing) = (used.saved, &verdict.received) {
            to.count("saved", saved)?;
        }
        return add_lifetime(to, lifetime);
    }
    to.count("lifetime", lifetime.seconds)?;
    if used.is_stale {
        to.text("stale_by", lifetime.by)?;
        to.some_text("stale_source", lifetime.source.as_deref())?;
    }
    Ok(())
}

/// Adds what became of a response.
pub(crate) fn add_received(
    to: &mut Members,
    printed: &Printed,
    received: &Received,
) -> Fallible<()> {
    to.text("received", received_word(received))?;
    match received {
        Received::NotStorable(obstacles) => {
            let method = printed.method.as_deref().unwrap_or("");
            let reasons = reasons(to.alloc, method, printed.status, obstacles)?;
            to.texts("reasons", reasons.as_slice())
        }
        Received::Stored(kept) | Received::Updated(kept) | Received::UpdatedOther(kept) => {
            let lifetime = &kept.lifetime;
            to.count("new_lifetime", lifetime.seconds)?;
            to.count("new_ttl", kept.time_to_live)?;
            if lifetime.seconds == 0 {
                to.text("zero_by", lifetime.by)?;
            }
            add_lifetime(to, lifetime)
        }
        _ => Ok(()),
    }
}

fn add_verdict(to: &mut Members, row: &Row<'_>, verdict: &AuditVerdict) -> Fallible<()> {
    add_used(to, verdict)?;
    to.some_text("validator", verdict.validator)?;
    to.texts("missed_by", verdict.missed_by.as_slice())?;
    add_received(to, &row.recorded.printed, &verdict.received)?;
    to.some_text("end", end_word(verdict))?;
    to.yes("repeated", row.repeated)?;
    to.yes("seeded", verdict.seeded)?;
    to.yes("no_cache", row.no_cache)?;
    to.some_counts(&[("invalidated", row.invalidated as u64)])?;
    to.count("sent", row.recorded.printed.sent)
}

fn hints_of(alloc: Global, entry: &Entry) -> Fallible<Vec<String>> {
    let mut all = Vec::new(alloc);
    for flaw in flaws_of(alloc, entry)?.as_slice() {
        all.push(String::from_str(alloc, fault_words(Fault::Flaw(*flaw)).0)?)?;
    }
    Ok(all)
}

fn push_said(alloc: Global, all: &mut Vec<String>, headers: &HeaderMap, name: &str) -> Fallible<()>
    requires { lowercase name.now ≡ name.now }
{
    match first_text(headers, name) {
        Some(text) => Ok(all.push(filled!(alloc; "$: $"; Item::Text(name), Item::Text(text))?)?),
        None => Ok(()),
    }
}

// Returns what caches on the way report of a response from the network: Cache-Status (RFC 9211),
// X-Cache, CF-Cache-Status and Age.
fn others_of(alloc: Global, entry: &Entry) -> Fallible<Vec<String>> {
    let mut all = Vec::new(alloc);
    if let Answer::Received(response) = &entry.answer {
        let headers = &response.headers;
        push_said(alloc, &mut all, headers, "cache-status")?;
        push_said(alloc, &mut all, headers, "x-cache")?;
        push_said(alloc, &mut all, headers, "cf-cache-status")?;
        push_said(alloc, &mut all, headers, "age")?;
    }
    Ok(all)
}

/// Adds what looks wrong in the response and what other caches report of it, or why the entry isn't
/// audited.
pub(crate) fn add_reading(to: &mut Members, reading: &Reading) -> Fallible<()> {
    match reading {
        Reading::Entry(entry) => {
            to.texts("hints", hints_of(to.alloc, entry)?.as_slice())?;
            to.texts("others", others_of(to.alloc, entry)?.as_slice())
        }
        Reading::Skipped(reason) => to.text("reason", reason.as_str()),
    }
}

/// Returns the members of a row, in the order of a line.
pub fn members_of(alloc: Global, row: &Row<'_>, hides_query: bool) -> Fallible<Members> {
    let mut to = Members::new(alloc);
    let printed = &row.recorded.printed;
    to.text("verdict", verdict_word(row))?;
    to.some_text("method", printed.method.as_deref())?;
    if let Some(url) = &printed.url {
        to.text("url", shown_url(url.as_str(), hides_query))?;
    }
    to.count("i", row.index as u64)?;
    to.count("status", printed.status)?;
    if let Some(verdict) = &row.verdict {
        add_verdict(&mut to, row, verdict)?;
    }
    to.texts("assumed", row.assumed.as_slice())?;
    to.some_text("error", printed.error.as_deref())?;
    to.some_text("browser", printed.browser.as_deref())?;
    add_reading(&mut to, &row.recorded.reading)?;
    Ok(to)
}

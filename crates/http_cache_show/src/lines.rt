//! Writes lines or JSON objects: one for each request and then the counts, one for each url, or one
//! for each load with what changes of headers save.
use crate::error::Fallible;
use crate::item::Item;
use crate::members::{Members, add_reading, add_received, kind_word, members_of};
use crate::printable::push_printed;
use crate::words::push_notes;
use http_cache_findings::by_url::{is_asked_row, is_hit, urls_of};
use http_cache_findings::change::Change;
use http_cache_findings::counts::Counts;
use http_cache_findings::whatif::costs_if;
use http_cache_recording::Recorded;
use http_cache_walk::order::{shown_url, target_of};
use http_cache_walk::row::{Again, AuditVerdict, Row};
use http_cache_walk::settings::{Settings, any_credentials, no_target};
use http_cache_walk::walk::rows_of;
use serde_json::{Map, Value, put};
use std::alloc::Global;

fn push_member(alloc: Global, out: &mut String, name: &str, value: &Value) -> Fallible<()> {
    let name = Item::Text(name);
    match value {
        Value::Bool(_) => fill!(alloc, out; ", $"; name),
        Value::Array(texts) => {
            for text in texts.as_slice() {
                let text = Item::Text(text.as_str().unwrap_or(""));
                fill!(alloc, out; ", $ $"; name, text)?;
            }
            Ok(())
        }
        _ => match value.as_str() {
            Some(text) => fill!(alloc, out; ", $ $"; name, Item::Text(text)),
            None => fill!(alloc, out; ", $ $"; name, Item::Number(value.as_u64().unwrap_or(0))),
        },
    }
}

fn push_line(alloc: Global, out: &mut String, members: &Members) -> Fallible<()> {
    let mut line = String::new(alloc);
    for (name, value) in members.all.as_slice() {
        let text = Item::Text(value.as_str().unwrap_or(""));
        match *name {
            "verdict" | "load" => fill!(alloc, &mut line; "$"; text)?,
            "method" | "url" => fill!(alloc, &mut line; " $"; text)?,
            _ => push_member(alloc, &mut line, *name, value)?,
        }
    }
    push_printed(out, line.as_str())
}

/// Adds a value as a line of JSON.
pub(crate) fn push_value(alloc: Global, out: &mut String, value: &Value) -> Fallible<()> {
    out.push_str(value.to_string(alloc)?.as_str())?;
    out.push_str("\n")
}

fn push_members(alloc: Global, out: &mut String, members: Members, as_json: bool) -> Fallible<()> {
    if as_json {
        push_value(alloc, out, &members.into_object()?)
    } else {
        push_line(alloc, out, &members)
    }
}

// Returns the group in which the words of a member are counted.
fn group_of(name: &str) -> Option<&'static str> {
    match name {
        "verdict" => Some("verdicts"),
        "received" => Some("received"),
        "end" => Some("ends"),
        "reasons" => Some("not_storable"),
        "missed_by" => Some("missed_by_vary"),
        "zero_by" => Some("lifetime_zero"),
        _ => None,
    }
}

fn count_member(counts: &mut Counts, name: &str, value: &Value) -> Fallible<()> {
    match (value, group_of(name)) {
        (Value::Bool(_) | Value::Array(_), None) => counts.add("counts", name, 1),
        (Value::Array(texts), Some(group)) => {
            for text in texts.as_slice() {
                counts.add(group, text.as_str().unwrap_or(""), 1)?;
            }
            Ok(())
        }
        (value, Some(group)) => counts.add(group, value.as_str().unwrap_or(""), 1),
        _ => Ok(()),
    }
}

fn count_bytes(counts: &mut Counts, row: &Row<'_>, verdict: &AuditVerdict) -> Fallible<()> {
    let (sent, is_fresh) = (row.recorded.printed.sent, is_hit(row));
    let in_full = matches!(verdict.again, Some(Again::InFull));
    let unasked = matches!(verdict.again, Some(Again::Unasked));
    counts.add("bytes", "sent_asked", sent)?;
    counts.add_if(row.repeated, "bytes", "sent_repeated", sent)?;
    counts.add_if(is_fresh, "bytes", "sent_fresh", sent)?;
    counts.add_if(in_full, "bytes", "unchanged_in_full", sent)?;
    counts.add_if(unasked, "bytes", "without_condition", sent)?;
    match &verdict.used {
        Some(used) if is_fresh => match used.saved {
            Some(saved) => counts.add("bytes", "saved", saved),
            None => counts.add("counts", "saved_unknown", 1),
        },
        _ => Ok(()),
    }
}

fn count_row(counts: &mut Counts, row: &Row<'_>, members: &Members) -> Fallible<()> {
    counts.add("kinds", kind_word(&row.recorded.reading), 1)?;
    let Some(verdict) = &row.verdict else {
        return Ok(());
    };
    let sent = row.recorded.printed.sent;
    counts.add("bytes", "sent", sent)?;
    counts.add("counts", "invalidated", row.invalidated as u64)?;
    if !is_asked_row(row) {
        return counts.add("bytes", "sent_apart", sent);
    }
    for (name, value) in members.all.as_slice() {
        count_member(counts, *name, value)?;
    }
    let is_forced = row.no_cache && row.repeated;
    counts.add_if(is_forced, "counts", "no_cache_repeated", 1)?;
    count_bytes(counts, row, verdict)
}

fn push_counts(alloc: Global, out: &mut String, counts: &Counts) -> Fallible<()> {
    for (label, count) in counts.by_label.iter() {
        if *count > 0 {
            fill!(alloc, out; "$ $\n"; Item::Text(label.as_str()), Item::Number(*count))?;
        }
    }
    Ok(())
}

fn summary_of(alloc: Global, counts: &Counts, no_credentials: bool) -> Fallible<Value> {
    let mut all = Map::new(alloc);
    for (label, count) in counts.by_label.iter() {
        if *count > 0 {
            put(&mut all, alloc, label.as_str(), Value::from(*count))?;
        }
    }
    put(
        &mut all,
        alloc,
        "cache_off",
        Value::Bool(counts.is_noticed()),
    )?;
    put(
        &mut all,
        alloc,
        "no_credentials",
        Value::Bool(no_credentials),
    )?;
    let mut to = Members::new(alloc);
    to.add("summary", Value::Object(all))?;
    to.into_object()
}

/// Returns a line or an object for each entry in the order of the walk, then for the entries that
/// aren't audited, and then the counts that aren't 0 and what may mislead. It also returns the
/// counts, by `group/name`.
pub fn lines(
    alloc: Global,
    recorded: &[Recorded],
    as_json: bool,
    settings: &Settings,
) -> Fallible<(String, Counts)> {
    let target = no_target(alloc)?;
    let rows = rows_of(alloc, recorded, &target, settings.options)?;
    let (mut counts, mut out) = (Counts::new(alloc), String::new(alloc));
    for row in rows.as_slice() {
        let members = members_of(alloc, row, settings.hides_queries)?;
        count_row(&mut counts, row, &members)?;
        push_members(alloc, &mut out, members, as_json)?;
    }
    let no_credentials = !any_credentials(recorded);
    if as_json {
        push_value(
            alloc,
            &mut out,
            &summary_of(alloc, &counts, no_credentials)?,
        )?;
    } else {
        push_counts(alloc, &mut out, &counts)?;
        push_notes(&mut out, counts.is_noticed(), no_credentials, '\n')?;
    }
    Ok((out, counts))
}

// Returns the sums of a url, and what became of its first response.
fn url_members(
    alloc: Global,
    sums: &Counts,
    first: &Row<'_>,
    hides_query: bool,
) -> Fallible<Members> {
    let mut to = Members::new(alloc);
    let (url, printed) = (target_of(first.recorded), &first.recorded.printed);
    to.text("url", shown_url(url, hides_query))?;
    to.count("status", printed.status)?;
    to.some_counts(&[
        ("requests", sums.total_of("requests", url)?),
        ("repeated", sums.total_of("repeated", url)?),
        ("fresh", sums.total_of("fresh", url)?),
        ("sent", sums.total_of("sent", url)?),
    ])?;
    if let Some(verdict) = &first.verdict {
        add_received(&mut to, printed, &verdict.received)?;
    }
    add_reading(&mut to, &first.recorded.reading)?;
    Ok(to)
}

/// Returns an object for each url, in the order of the first requests, with how often it was
/// requested and what was sent.
pub fn by_url(alloc: Global, recorded: &[Recorded], settings: &Settings) -> Fallible<String> {
    let target = no_target(alloc)?;
    let rows = rows_of(alloc, recorded, &target, settings.options)?;
    let (sums, firsts) = urls_of(alloc, rows.as_slice())?;
    let mut out = String::new(alloc);
    for index in firsts.as_slice() {
        if let Some(row) = rows.get(*index) {
            let members = url_members(alloc, &sums, row, settings.hides_queries)?;
            push_members(alloc, &mut out, members, true)?;
        }
    }
    Ok(out)
}

fn load_members(alloc: Global, load: &str, now: &Counts, then: &Counts) -> Fallible<Members> {
    let mut to = Members::new(alloc);
    let (before, after) = (now.total_of(load, "bytes")?, then.total_of(load, "bytes")?);
    to.text("load", load)?;
    to.count("bytes", before)?;
    to.count("bytes_changed", after)?;
    to.some_counts(&[
        ("saved", before.saturating_sub(after)),
        ("more", after.saturating_sub(before)),
        ("answers_304", now.total_of(load, "confirmed")?),
        ("answers_304_changed", then.total_of(load, "confirmed")?),
        ("unknown", now.total_of(load, "unknown")?),
        ("unknown_changed", then.total_of(load, "unknown")?),
    ])?;
    Ok(to)
}

/// Returns the costs of a recording as it is and with changes of headers: a line or an object for
/// the first load, and one for the later loads.
pub fn savings(
    alloc: Global,
    recorded: Vec<Recorded>,
    changes: &[Change],
    as_json: bool,
    settings: &Settings,
) -> Fallible<String> {
    let (now, then) = costs_if(alloc, recorded, changes, &settings.options)?;
    let (first, later) = (
        load_members(alloc, "first_load", &now, &then)?,
        load_members(alloc, "later_loads", &now, &then)?,
    );
    let mut out = String::new(alloc);
    push_members(alloc, &mut out, first, as_json)?;
    push_members(alloc, &mut out, later, as_json)?;
    Ok(out)
}

//! All requests, as sections of a page: the timeline, which has a letter for what became of each, and
//! a table with the reason of each and what `--lines` prints.
use crate::error::Fallible;
use crate::html::Page;
use crate::item::Item::{Number, Size, Text, Time, Value as Attribute, Word};
use crate::members::{members_of, verdict_word};
use crate::words::{short, storing_text};
use http_cache_findings::counts::Counts;
use http_cache_findings::findings::{Apart, Storing};
use http_cache_findings::split::storing_of;
use http_cache_findings::urls::{apart_text, saved_by};
use http_cache_recording::{Kind, Reading};
use http_cache_walk::order::{shown_url, target_of};
use http_cache_walk::row::{Again, AuditVerdict, Outcome, Received, Row};
use serde_json::Value;
use std::alloc::Global;

const TIMELINE: &str = r#"<section aria-labelledby="s5" id="timeline"><h2 id="s5">Timeline</h2>
<p class="lead">Each request in the order in which it started; a letter says what became of it. Above it the
bytes sent, as the square root; hatched where they could have been spared. Each leads to its row below.
<span id="hint" hidden>Point at one, tap it or go along with the arrow keys for its reason.</span></p>
<ul class="key" aria-label="letters">
"#;

const TABLE: &str = r#"<section aria-labelledby="s6"><h2 id="s6">All requests</h2>
<p class="lead">With the reason of each, and after it what --lines prints. No cookie and no credential is
shown.</p>
<div class="tools" id="tools" role="search" hidden>
<label>find <input id="find" type="search" autocomplete="off"></label>
<label>what became of it <select id="mark"><option value="">all</option></select></label>
<label>load <select id="load"><option value="">all</option></select></label>
<label class="narrow">sort by <select id="by"></select></label>
<output id="count" aria-live="polite"></output></div>
<table class="all" id="all"><thead><tr><th scope="col">No.</th>
<th scope="col">Load</th>
<th scope="col">URL</th>
<th scope="col">Status</th>
<th scope="col">What became of it</th>
<th scope="col">Why</th>
<th scope="col" class="n down">Sent</th>
<th scope="col" class="n down">Spared</th></tr></thead>
<tbody>
"#;

// The rows of a page, and how their urls are shown.
#[derive(Clone, Copy)]
struct Rows<'a> {
    all: &'a [Row<'a>],
    host: &'a str,
    hides_queries: bool,
}

// The requests of a load.
#[derive(Drop)]
struct Load {
    // The indices of their rows, in the order of the walk.
    rows: Vec<usize>,
    // The bytes that were sent for them.
    sent: u64,
}

// What became of a request.
#[derive(Clone, Copy, PartialEq, Eq)]
enum Mark {
    Fresh,
    Confirmed,
    Browser,
    Unstored,
    Same,
    Varies,
    Changed,
    Unknown,
    Removed,
    First,
    Failed,
    Apart,
}

// All marks, in the order of their explanation.
const ALL: [Mark; 12] = [
    Mark::Fresh,
    Mark::Confirmed,
    Mark::Browser,
    Mark::Unstored,
    Mark::Same,
    Mark::Varies,
    Mark::Changed,
    Mark::Unknown,
    Mark::Removed,
    Mark::First,
    Mark::Failed,
    Mark::Apart,
];

// Returns the letter of a mark, which is readable without colours, and its words.
fn letter_of(mark: Mark) -> (&'static str, &'static str) {
    match mark {
        Mark::Fresh => ("F", "fresh: nothing sent"),
        Mark::Confirmed => ("V", "asked, 304: only headers"),
        Mark::Browser => ("B", "to be asked, yet the browser didn't"),
        Mark::Unstored => ("N", "not stored, so sent again"),
        Mark::Same => ("S", "the same sent again"),
        Mark::Varies => ("Y", "stored for other headers"),
        Mark::Changed => ("C", "changed, sent anew"),
        Mark::Unknown => ("U", "sent again, changed or not"),
        Mark::Removed => ("R", "no longer stored, sent anew"),
        Mark::First => ("M", "first request"),
        Mark::Failed => ("E", "failed or aborted"),
        Mark::Apart => ("A", "not judged"),
    }
}

// Returns the mark of a request that a cache could answer.
fn mark_by(row: &Row<'_>, verdict: &AuditVerdict) -> Mark {
    match (verdict.outcome, &verdict.received, verdict.again) {
        (Outcome::Fresh, _, _) => Mark::Fresh,
        (_, Received::Browser, _) => Mark::Browser,
        (_, Received::Failed, _) => Mark::Failed,
        (Outcome::Validate | Outcome::Refetch, received, again) => match (received, again) {
            (_, Some(Again::Changed)) => Mark::Changed,
            (_, Some(Again::InFull | Again::Unasked)) => Mark::Same,
            (Received::Updated(_), None) => Mark::Confirmed,
            _ => Mark::Unknown,
        },
        _ if !row.repeated => Mark::First,
        (_, Received::NotStorable(_), _) => Mark::Unstored,
        (Outcome::MissVary, _, _) => Mark::Varies,
        _ => Mark::Removed,
    }
}

fn mark_of(row: &Row<'_>) -> Mark {
    let Reading::Entry(entry) = &row.recorded.reading else {
        return Mark::Apart;
    };
    match &row.verdict {
        Some(verdict) if entry.kind == Kind::Asked => mark_by(row, verdict),
        _ if entry.kind == Kind::Failed => Mark::Failed,
        _ => Mark::Apart,
    }
}

// Returns the number of a request's load, from 1, and counts the loads. Without a page it is the last
// load that began.
fn number_of(loads: &mut Counts, row: &Row<'_>, last: usize) -> Fallible<u64> {
    let Some(page) = &row.recorded.printed.page else {
        return Ok(last.max(1) as u64);
    };
    if loads.total_of("load", page.as_str())? == 0 {
        loads.add("all", "loads", 1)?;
        let number = loads.total_of("all", "loads")?;
        loads.add("load", page.as_str(), number)?;
    }
    loads.total_of("load", page.as_str())
}

// Returns the loads of a recording.
fn loads_in(alloc: Global, rows: &[Row<'_>]) -> Fallible<Vec<Load>> {
    let mut numbers = Counts::new(alloc);
    let mut loads = Vec::new(alloc);
    for index in 0..rows.len() {
        let number = number_of(&mut numbers, &rows[index], loads.len())?;
        if number > loads.len() as u64 {
            loads.push(Load {
                rows: Vec::new(alloc),
                sent: 0,
            })?;
        }
        let at = number.saturating_sub(1) as usize;
        if let Some(load) = loads.get_mut(at) {
            load.rows.push(index)?;
            load.sent = load.sent.saturating_add(rows[index].recorded.printed.sent);
        }
    }
    Ok(loads)
}

// Returns the height of a bar, by the square root of what is sent. The greatest is 72.
fn height(sent: u64, most: u64) -> u64 {
    if most == 0 {
        return 0;
    }
    let square = (sent as u128 * 5_184 / most as u128).min(5_184) as u64;
    square.isqrt().max(1)
}

impl Rows<'_> {
    // Returns the shortened url of a row.
    fn url<'a>(&self, row: &'a Row<'_>) -> &'a str {
        short(
            self.host,
            shown_url(target_of(row.recorded), self.hides_queries),
        )
    }
}

// Adds the letter of a mark with its words.
fn put_mark(page: &mut Page, mark: Mark) -> Fallible<()> {
    let (letter, words) = letter_of(mark);
    fill!(page; r#"<span class="@"><b>$</b> $</span>"#; Word(letter), Text(letter), Text(words))
}

// Adds the meaning of each letter that a request has, and the number of these requests.
fn put_key(page: &mut Page, rows: &[Row<'_>]) -> Fallible<()> {
    for mark in ALL.as_slice() {
        let count = rows.iter().filter(|row| mark_of(row) == *mark).count();
        if count > 0 {
            page.tag("<li>")?;
            put_mark(page, *mark)?;
            fill!(page; " <i>$</i></li>\n"; Number(count as u64))?;
        }
    }
    Ok(())
}

fn put_item(page: &mut Page, row: &Row<'_>, most: u64) -> Fallible<()> {
    let (letter, _) = letter_of(mark_of(row));
    let sent = row.recorded.printed.sent;
    fill!(page; "<li class=\"@\"><a href=\"#r@\">"; Word(letter), Attribute(row.index as u64))?;
    if sent > 0 {
        fill!(page; r#"<svg height="@"></svg>"#; Attribute(height(sent, most)))?;
    }
    fill!(page; "<b>$</b></a></li>\n"; Text(letter))
}

// Adds a load, under the url of its first request.
fn put_load(page: &mut Page, rows: Rows<'_>, load: &Load, number: u64, most: u64) -> Fallible<()> {
    let first = rows.all.get(load.rows.first().copied().unwrap_or(0));
    let url = first.map_or("", |row| rows.url(row));
    fill!(page; r#"<h3 data-v="@">load $: <bdi>$</bdi> <small>$ requests, $ sent</small></h3>
<ol class="lane">
"#;
        Attribute(number), Number(number), Text(url), Number(load.rows.len() as u64),
        Size(load.sent))?;
    for index in load.rows.as_slice() {
        if let Some(row) = rows.all.get(*index) {
            put_item(page, row, most)?;
        }
    }
    page.tag("</ol>\n")
}

// Adds the timeline.
fn put_timeline(page: &mut Page, rows: Rows<'_>, loads: &[Load]) -> Fallible<()> {
    page.tag(TIMELINE)?;
    put_key(page, rows.all)?;
    page.tag("</ul>\n")?;
    let most = rows.all.iter();
    let most = most.fold(0, |most, row| row.recorded.printed.sent.max(most));
    let mut number = 0u64;
    for load in loads {
        number = number.saturating_add(1);
        put_load(page, rows, load, number, most)?;
    }
    page.tag("</section>\n")
}

// Returns the reason of a row: how long it stays fresh, why it isn't stored, or its kind.
fn reason_of(alloc: Global, row: &Row<'_>) -> Fallible<String> {
    if let Some(verdict) = &row.verdict {
        if let (Outcome::Fresh, Some(used)) = (verdict.outcome, &verdict.used) {
            return filled!(alloc; "fresh for another $ by $";
                Time(used.time_to_live), Text(used.lifetime.by));
        }
    }
    let storing = storing_of(alloc, row)?;
    let text = storing_text(alloc, &storing)?;
    let apart = apart_text(row.recorded);
    match storing {
        Storing::Held(_) => filled!(alloc; "stored for $"; Text(text.as_str())),
        Storing::Refused(_) => Ok(text),
        Storing::Nothing if apart.is_empty() => String::from_str(alloc, verdict_word(row)),
        Storing::Nothing => String::from_str(alloc, apart),
    }
}

// Adds a number. The number of an entry is a link to its row, if it has one.
fn put_count(page: &mut Page, name: &str, count: u64, len: usize) -> Fallible<()> {
    if name == "from_entry" && count < len as u64 {
        fill!(page; "$ <a href=\"#r@\">$</a>\n"; Text(name), Attribute(count), Number(count))
    } else {
        fill!(page; "$ $\n"; Text(name), Number(count))
    }
}

fn put_member(page: &mut Page, name: &str, value: &Value, len: usize) -> Fallible<()> {
    match value {
        Value::Bool(_) => fill!(page; "$\n"; Text(name)),
        Value::Array(texts) => {
            for text in texts.as_slice() {
                fill!(page; "$ $\n"; Text(name), Text(text.as_str().unwrap_or("")))?;
            }
            Ok(())
        }
        _ => match value.as_str() {
            Some(text) => fill!(page; "$ $\n"; Text(name), Text(text)),
            None => put_count(page, name, value.as_u64().unwrap_or(0), len),
        },
    }
}

// Adds the members that have no cell of their own.
fn put_members(page: &mut Page, row: &Row<'_>, rows: Rows<'_>) -> Fallible<()> {
    let members = members_of(page.alloc(), row, rows.hides_queries)?;
    for (name, value) in members.all.as_slice() {
        match *name {
            "verdict" | "method" | "url" | "i" | "status" | "sent" => {}
            _ => put_member(page, *name, value, rows.all.len())?,
        }
    }
    Ok(())
}

// Adds a cell of bytes, which is empty for 0.
fn put_bytes(page: &mut Page, bytes: u64) -> Fallible<()> {
    fill!(page; "<td data-v=\"@\">"; Attribute(bytes))?;
    page.fill_size("$", bytes)?;
    page.tag("</td>")
}

// Adds the method of a request, unless it is GET.
fn put_method(page: &mut Page, row: &Row<'_>) -> Fallible<()> {
    match row.recorded.printed.method.as_deref() {
        Some(method) if method != "GET" => fill!(page; "<bdi>$</bdi> "; Text(method)),
        _ => Ok(()),
    }
}

fn put_name(page: &mut Page, url: &str, status: u64) -> Fallible<()> {
    fill!(page; "<code>$</code></th><td>$</td><td>"; Text(url), Number(status))
}

fn put_reason(page: &mut Page, row: &Row<'_>) -> Fallible<()> {
    let reason = reason_of(page.alloc(), row)?;
    fill!(page; "</td><td><details><summary>$</summary><pre>"; Text(reason.as_str()))
}

// Adds the row of a request: its number, load, url, status, what became of it, and why.
fn put_row(page: &mut Page, row: &Row<'_>, load: u64, rows: Rows<'_>) -> Fallible<()> {
    let (index, printed) = (row.index as u64, &row.recorded.printed);
    fill!(page; r#"<tr id="r@"><td>$</td><td>$</td><th scope="row">"#;
        Attribute(index), Number(index), Number(load))?;
    put_method(page, row)?;
    put_name(page, rows.url(row), printed.status)?;
    put_mark(page, mark_of(row))?;
    put_reason(page, row)?;
    put_members(page, row, rows)?;
    page.tag("</pre></details></td>")?;
    put_bytes(page, printed.sent)?;
    put_bytes(page, saved_by(row))?;
    page.tag("</tr>\n")
}

fn put_rows(page: &mut Page, rows: Rows<'_>, load: &Load, number: u64) -> Fallible<()> {
    for index in load.rows.as_slice() {
        if let Some(row) = rows.all.get(*index) {
            put_row(page, row, number, rows)?;
        }
    }
    Ok(())
}

// Adds what isn't judged, if there is any.
fn put_apart(page: &mut Page, all: &[Apart]) -> Fallible<()> {
    let alloc = page.alloc();
    let mut words = String::new(alloc);
    for one in all {
        let before = if words.is_empty() { "" } else { ", " };
        fill!(alloc, &mut words; "$$ $";
            Text(before), Number(one.requests), Text(one.name.as_str()))?;
        if one.bytes > 0 {
            fill!(alloc, &mut words; " ($)"; Size(one.bytes))?;
        }
    }
    if words.is_empty() {
        return Ok(());
    }
    fill!(page; "<p class=\"plain\"><b>Not judged:</b> $</p>\n"; Text(words.as_str()))
}

// Adds the table of all requests.
fn put_requests(page: &mut Page, rows: Rows<'_>, loads: &[Load]) -> Fallible<()> {
    page.tag(TABLE)?;
    let mut number = 0u64;
    for load in loads {
        number = number.saturating_add(1);
        put_rows(page, rows, load, number)?;
    }
    page.tag("</tbody></table>\n")
}

/// Adds the timeline, and the table of all requests.
pub fn put_all_requests(
    page: &mut Page,
    apart: &[Apart],
    rows: &[Row<'_>],
    host: &str,
    hides_queries: bool,
) -> Fallible<()> {
    let loads = loads_in(page.alloc(), rows)?;
    let rows = Rows {
        all: rows,
        host,
        hides_queries,
    };
    put_timeline(page, rows, loads.as_slice())?;
    put_requests(page, rows, loads.as_slice())?;
    put_apart(page, apart)?;
    page.tag("</section>\n")
}

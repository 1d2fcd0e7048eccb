//! The report as one page of HTML: its frame and the three numbers. `page_findings` has the sections
//! of what is found, and `page_requests` those of all requests.
//!
//! The policy of the page has the hashes of the style and the script.
ghost use Rattle.std.specs.Prelude.{IfOk, string_bytes};
ghost use Rattle.http_cache_show.specs.Tags.{is_between_tags};

use crate::error::Fallible;
use crate::html::Page;
use crate::item::Item::{Number, Text, Value};
use crate::numbers::{part_of, thousands};
use crate::page_findings::put_findings;
use crate::page_requests::put_all_requests;
use crate::script::SCRIPT;
use crate::style::STYLE;
use crate::words::{host_of, loads_text, push_notes, saved_by_all, three_bytes};
use http_cache_findings::findings::Findings;
use http_cache_findings::picks::Base;
use http_cache_walk::row::Row;
use std::alloc::Global;

const HEAD: &str = r##"<!DOCTYPE html>
<html lang="en"><head><meta charset="utf-8">
<meta http-equiv="Content-Security-Policy" content="default-src 'none'; img-src data:;
style-src 'sha256-Mal1TnTGeFmMC+KVPCuRmQlobINJ1QQLyh4H9V0YD94=';
script-src 'sha256-OuhFVIRvkE6FlXzqOOJcn73XFeuPvjYjM6cS/xA9QA0=';
base-uri 'none'; form-action 'none'">
<meta name="viewport" content="width=device-width"><meta name="referrer" content="no-referrer">
<link rel="icon" href="data:,">
"##;

const BODY: &str = r##"<title>cacheaudit: $</title></head>
<body>
<svg class="defs" aria-hidden="true"><defs>
<pattern id="hatch" width="5" height="5" patternUnits="userSpaceOnUse" patternTransform="rotate(45)">
<rect class="hb" width="5" height="5"/><path class="hl" d="M0 0V5"/></pattern></defs></svg>
<a class="skip" href="#main">to the report</a>
<header><p class="from"><b>cacheaudit</b></p>
<h1><bdi>$</bdi> in a $'s cache</h1>
<p class="from">$</p>
</header>
<main id="main">
"##;

const SENT: &str = r#"<ul class="three" aria-label="the three numbers">
<li><strong>$<i> kB</i></strong><svg class="bar" aria-hidden="true">
<rect class="p" height="100%" width="100%"/><rect class="q" height="100%" width="@%"/></svg><p>"#;

const SENT_WORDS: &str =
    "sent by $. The first load sent $ kB. What a cache could answer took $ kB of \
the first load, and $ kB of the later ones.";

const SPARED: &str = r#"</p></li>
<li><strong>$<i> kB</i></strong><svg class="bar" aria-hidden="true">
<rect class="p" height="100%" width="100%"/><rect class="w" height="100%" width="@%"/></svg><p>"#;

const SPARED_WORDS: &str = "of them for $ URLs only: $ % of what $. $ changed headers spare $ kB.";

const HITS: &str = r#"</p></li>
<li><strong>$<i> %</i></strong><svg class="bar" aria-hidden="true">
<rect class="p" height="100%" width="100%"/><rect class="g" height="100%" width="@%"/></svg><p>"#;

const HITS_WORDS: &str =
    "$ of $ repeated requests need nothing. That spares $ kB.</p></li>\n</ul>\n";

const NAVIGATION: &str = r##"<nav aria-label="sections"><a href="#s1">Change first</a>
<a href="#s2">Will cost on a later visit</a>
<a href="#s3">Looks wrong</a>
<a href="#s4">Browser and CDN</a>
<a href="#s5">Timeline</a>
<a href="#s6">All requests</a></nav>
"##;

const FOOTER: &str = r##"</main>
<footer><p>kB is 1000 bytes. A request costs nothing while what is stored is fresh, its headers where a 304
answers, else all of it. This page asks for nothing and runs nothing but its own script; texts of the
recording are only text in it, and [U+202E] and the like stand for characters that aren't seen.</p>
<p>Each request as a line: <code>--lines</code>. What a changed header gives:
<code>--with 'PATTERN: HEADER: VALUE'</code>. For tools: <code>--json</code>.
As a CDN's cache: <code>--shared</code>.</p></footer>
<div id="tip" role="status" hidden></div>
"##;

// Adds everything before the sections.
fn put_head(page: &mut Page, found: &Findings, host: &str) -> Fallible<()> {
    let alloc = page.alloc();
    let loads = loads_text(alloc, found)?;
    let kind = if found.is_shared { "CDN" } else { "browser" };
    page.tag(HEAD)?;
    page.tag(STYLE)?;
    fill!(page; BODY; Text(host), Text(host), Text(kind), Text(loads.as_str()))?;
    let mut notes = String::new(alloc);
    push_notes(&mut notes, found.cache_off, found.no_credentials, ' ')?;
    if notes.is_empty() {
        return Ok(());
    }
    fill!(page; "<p class=\"warn\">$</p>\n"; Text(notes.as_str()))
}

// Adds the first number: what is sent again, and what was sent besides.
fn put_sent(page: &mut Page, found: &Findings) -> Fallible<()> {
    let sent = found.sent;
    let (again, by) = match found.base {
        Base::Later => (sent.later_loads, "the later loads"),
        Base::Visit => (found.all, "a visit a day later"),
    };
    let part = part_of(again, sent.first_load);
    fill!(page; SENT; Number(thousands(again)), Value(part))?;
    fill!(page; SENT_WORDS;
        Text(by), Number(thousands(sent.first_load)), Number(thousands(sent.asked_first_load)),
        Number(thousands(sent.asked_later_loads)))
}

// Adds the second number: how much of it a few urls take, and what all changes save.
fn put_spared(page: &mut Page, found: &Findings) -> Fallible<()> {
    let changes = found.changes.as_slice();
    let (count, three) = (changes.len(), three_bytes(changes));
    let part = part_of(three, found.all);
    fill!(page; SPARED; Number(thousands(three)), Value(part))?;
    let sent = match found.base {
        Base::Later => "the later loads sent that a cache could answer",
        Base::Visit => "a visit a day later sends",
    };
    fill!(page; SPARED_WORDS;
        Number(count.min(3) as u64), Number(part), Text(sent), Number(count as u64),
        Number(thousands(saved_by_all(changes))))
}

// Adds the third number: how many requests need nothing.
fn put_hits(page: &mut Page, found: &Findings) -> Fallible<()> {
    let repeated = found.repeated;
    let part = part_of(repeated.fresh, repeated.requests);
    fill!(page; HITS; Number(part), Value(part))?;
    fill!(page; HITS_WORDS;
        Number(repeated.fresh), Number(repeated.requests), Number(thousands(repeated.saved)))
}

/// Returns what is found, and all requests, as a page. The only error is out of memory.
pub fn page(
    alloc: Global,
    found: &Findings,
    rows: &[Row<'_>],
    hides_queries: bool,
) -> Fallible<String>
    ensures { IfOk result (λ text. is_between_tags (string_bytes text)) }
{
    let mut page = Page::new(alloc);
    let host = host_of(found.loads.page.as_str());
    put_head(&mut page, found, host)?;
    if !found.visits.is_empty() {
        put_sent(&mut page, found)?;
        put_spared(&mut page, found)?;
        put_hits(&mut page, found)?;
        page.tag(NAVIGATION)?;
        put_findings(&mut page, found, host)?;
    }
    put_all_requests(&mut page, found.apart.as_slice(), rows, host, hides_queries)?;
    page.tag(FOOTER)?;
    page.tag(SCRIPT)?;
    page.tag("\n</body></html>\n")?;
    Ok(page.into_text())
}

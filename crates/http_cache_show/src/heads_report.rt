//! The report of heads of responses: what caches do with each, what later visits request, and what
//! to send instead.
use crate::error::Fallible;
use crate::item::Item;
use crate::words::{act_word, cache_text, fault_words, refused_text, send_words};
use http_cache_findings::advice::Advice;
use http_cache_findings::findings::{HeadFindings, Held, Storing};
use std::alloc::Global;

// Adds what sets a lifetime: the directive as written, or words, with the text if there is one.
fn push_source(alloc: Global, out: &mut String, held: &Held) -> Fallible<()> {
    let by = held.by;
    match held.source.as_deref() {
        Some(source) if by == "max-age" || by == "s-maxage" => out.push_str(source),
        Some(source) => {
            out.push_str(by)?;
            fill!(alloc, out; " ($)"; Item::Text(source))
        }
        None => out.push_str(by),
    }
}

// Returns how long a response is stored and what sets that.
fn held_text(alloc: Global, held: &Held) -> Fallible<String> {
    let mut out = filled!(alloc; "$ by "; Item::Time(held.seconds))?;
    push_source(alloc, &mut out, held)?;
    if held.age > 0 {
        fill!(alloc, &mut out; ", age $, $ left"; Item::Time(held.age), Item::Time(held.left))?;
    }
    Ok(out)
}

// Returns what a cache does with a response. A 304 is never stored.
fn storing_text(alloc: Global, storing: &Storing, status: u64) -> Fallible<String> {
    match storing {
        Storing::Held(held) => held_text(alloc, held),
        Storing::Refused(refused) => refused_text(alloc, refused),
        Storing::Nothing => filled!(alloc; "not stored: status $"; Item::Number(status)),
    }
}

// Adds what both caches do with a response.
fn push_stored(alloc: Global, out: &mut String, head: &HeadFindings) -> Fallible<()> {
    let browser = storing_text(alloc, &head.browser, head.status)?;
    let cdn = storing_text(alloc, &head.cdn, head.status)?;
    fill!(alloc, out; "  browser:  $\n  CDN:      $\n";
        Item::Text(browser.as_str()), Item::Text(cdn.as_str()))
}

fn push_advice(alloc: Global, out: &mut String, advice: Advice) -> Fallible<()> {
    let send = send_words(alloc, "Cache-Control: ", advice)?;
    fill!(alloc, out; "  send:     $\n"; Item::Text(send.as_str()))
}

fn push_words(alloc: Global, out: &mut String, head: &HeadFindings) -> Fallible<()> {
    if let [hour, day, week, ..] = head.acts.as_slice() {
        fill!(alloc, out; "  a visit:  $ in an hour, $ in a day, $ in a week\n";
            Item::Text(act_word(*hour)), Item::Text(act_word(*day)), Item::Text(act_word(*week)))?;
    }
    for fault in head.faults.as_slice() {
        let (words, send) = fault_words(*fault);
        fill!(alloc, out; "  wrong:    $ -> $\n"; Item::Text(words), Item::Text(send))?;
    }
    Ok(())
}

fn push_head(alloc: Global, out: &mut String, head: &HeadFindings) -> Fallible<()> {
    fill!(alloc, out; "\n$, status $, $\n";
        Item::Text(head.url.as_str()), Item::Number(head.status), Item::Size(head.bytes))?;
    push_stored(alloc, out, head)?;
    push_words(alloc, out, head)?;
    match head.advice {
        Some(advice) => push_advice(alloc, out, advice),
        None => Ok(()),
    }
}

/// Returns the report of heads: what a browser's cache and a CDN's do with each, what visits an
/// hour, a day and a week later request, what looks wrong, and what to send.
pub fn heads_report(alloc: Global, heads: &[HeadFindings], is_shared: bool) -> Fallible<String> {
    let word = if heads.len() == 1 { "head" } else { "heads" };
    let count = Item::Number(heads.len() as u64);
    let cache = Item::Text(cache_text(is_shared));
    let mut out = filled!(alloc; "$ $$\n"; count, Item::Text(word), cache)?;
    for head in heads {
        push_head(alloc, &mut out, head)?;
    }
    Ok(out)
}

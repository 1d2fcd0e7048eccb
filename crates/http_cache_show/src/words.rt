//! Words that several forms use: urls, lifetimes, and what caches do with a response.
use crate::error::Fallible;
use crate::item::Item;
use crate::numbers::duration;
use http_cache_findings::advice::{Advice, Term, control_of};
use http_cache_findings::findings::{Act, ChangedUrl, Fault, Findings, Refused, Storing};
use http_cache_findings::lint::Flaw;
use http_cache_findings::urls::Life;
use http_cache_semantics::explain::Obstacles;
use std::alloc::Global;

fn stripped<'a>(front: &str, text: &'a str) -> &'a str {
    match text.strip_prefix(front) {
        Some(rest) => rest,
        None => text,
    }
}

fn without_scheme(url: &str) -> &str {
    stripped("https://", stripped("http://", url))
}

/// Returns the host of a url.
pub fn host_of(url: &str) -> &str {
    let rest = without_scheme(url);
    match rest.split_once('/') {
        Some((host, _)) => host,
        None => rest,
    }
}

/// Returns a url without its scheme, and without its host if that is the page's.
pub fn short<'a>(host: &str, url: &'a str) -> &'a str {
    if host_of(url) == host {
        stripped(host, without_scheme(url))
    } else {
        without_scheme(url)
    }
}

/// The width of the column of urls, with a blank after it.
pub const COLUMN: usize = 33;

/// The greatest length of a text outside the columns.
pub const LONGEST: usize = 80;

/// Returns a text of at most so many bytes: the front and the end of a longer one.
pub fn cut(alloc: Global, text: &str, most: usize) -> Fallible<String> {
    if text.len() <= most {
        return String::from_str(alloc, text);
    }
    let half = most / 2;
    let front = &text[..text.floor_char_boundary(most.saturating_sub(half + 2))];
    let end = &text[text.floor_char_boundary(text.len().saturating_sub(half))..];
    filled!(alloc; "$..$"; Item::Text(front), Item::Text(end))
}

/// Returns how long a response stays fresh, in words.
pub fn life_text(alloc: Global, life: Life) -> Fallible<String> {
    match life {
        Life::Unknown => String::from_str(alloc, "unknown"),
        Life::NotStored => String::from_str(alloc, "not stored"),
        Life::NoCache => String::from_str(alloc, "no-cache"),
        Life::Guessed(seconds) | Life::Given(seconds) => duration(alloc, seconds),
    }
}

fn flaw_text(flaw: Flaw) -> &'static str {
    match flaw {
        Flaw::Conflict => "conflicting directives -> one value",
        Flaw::Semicolon => "; in Cache-Control -> `,` between directives",
        Flaw::NoComma => "no comma between directives -> `,` between directives",
        Flaw::Quoted => "seconds in quotes -> seconds without quotes",
        Flaw::NotSeconds => "a max-age that can't be read -> a number of seconds",
        Flaw::NoStoreBeside => "no-store beside max-age -> only no-store, or only the lifetime",
        Flaw::PublicPrivate => "public beside private -> private if it is one user's, else public",
        Flaw::SharedCookie =>
            "Set-Cookie on what is shared -> private, or the cookie in a response of its own",
        Flaw::CdnControl =>
            "CDN-Cache-Control -> nothing: a CDN obeys it first, and it isn't read here",
        Flaw::SurrogateControl =>
            "Surrogate-Control -> nothing: some CDNs obey it first, and it isn't read here",
        Flaw::KeptRedirect =>
            "a permanent redirect without a lifetime -> Cache-Control: max-age=N, or no-cache",
        Flaw::PragmaAlone => "Pragma without Cache-Control -> Cache-Control: no-cache",
        Flaw::ExpiresAlone => "Expires without Cache-Control -> Cache-Control: max-age=N",
        Flaw::NotExpires => "an Expires that can't be read -> Cache-Control: max-age=N",
        Flaw::BareTag => "an ETag without quotes -> the ETag in quotes",
        Flaw::FutureDate => "a Date in the future -> the right time",
        Flaw::OldDate => "an old Date without Age -> Age, from the cache on the way",
        Flaw::VaryAny => "Vary: * -> no Vary",
        Flaw::VaryCookie => "Vary: Cookie -> private if it is one user's, else no Vary",
        Flaw::VaryUserAgent => "Vary: User-Agent -> no Vary",
    }
}

fn fault_text(fault: Fault) -> &'static str {
    match fault {
        Fault::Flaw(flaw) => flaw_text(flaw),
        Fault::UnstoredPart => "no-store on a part of pages -> a lifetime, if it may lie on a disk",
        Fault::GuessedPage =>
            "a page whose lifetime is guessed -> Cache-Control: no-cache, or max-age=N",
        Fault::InFull => "sent in full to its own validator -> a 304 to If-None-Match",
    }
}

/// Returns what looks wrong, in words, and what to send instead.
pub fn fault_words(fault: Fault) -> (&'static str, &'static str) {
    fault_text(fault).split_once(" -> ").unwrap_or(("", ""))
}

/// Adds a text, with a comma before it unless it is the first.
pub fn push_piece(out: &mut String, piece: &str) -> Fallible<()> {
    if !out.is_empty() {
        out.push_str(", ")?;
    }
    out.push_str(piece)
}

/// Returns why a response may not be stored, in words (RFC 7234, section 3).
pub fn reasons(alloc: Global, method: &str, status: u64, why: &Obstacles) -> Fallible<Vec<String>> {
    let (method, status) = (Item::Text(method), Item::Number(status));
    let lacks_lifetime = !why.status && why.no_permission;
    let table = [
        (why.request_no_store, "request no-store", status),
        (why.method, "method $", method),
        (why.status, "status $", status),
        (lacks_lifetime, "status $ without a lifetime", status),
        (why.response_no_store, "no-store", status),
        (why.private, "private", status),
        (why.authorization, "authorization", status),
    ];
    let mut all = Vec::new(alloc);
    for (holds, template, item) in table.as_slice() {
        if *holds {
            all.push(filled!(alloc; *template; *item)?)?;
        }
    }
    Ok(all)
}

/// Returns why a response isn't stored.
pub fn refused_text(alloc: Global, refused: &Refused) -> Fallible<String> {
    let (method, why) = (refused.method.as_str(), &refused.obstacles);
    let mut words = String::new(alloc);
    for reason in reasons(alloc, method, refused.status, why)?.as_slice() {
        push_piece(&mut words, reason.as_str())?;
    }
    filled!(alloc; "not stored: $"; Item::Text(words.as_str()))
}

/// Returns what a cache does with a response, or an empty text if there is none.
pub fn storing_text(alloc: Global, storing: &Storing) -> Fallible<String> {
    match storing {
        Storing::Held(held) => {
            filled!(alloc; "$ by $"; Item::Time(held.seconds), Item::Text(held.by))
        }
        Storing::Refused(refused) => refused_text(alloc, refused),
        Storing::Nothing => Ok(String::new(alloc)),
    }
}

// Adds a part of what to send, after `, and ` unless it is the first.
fn push_and(out: &mut String, holds: bool, words: &str) -> Fallible<()> {
    if !holds {
        return Ok(());
    }
    if !out.is_empty() {
        out.push_str(", and ")?;
    }
    out.push_str(words)
}

/// Returns what to send, in words: a Cache-Control after `before`, an ETag, and a 304.
pub fn send_words(alloc: Global, before: &str, advice: Advice) -> Fallible<String> {
    let control = control_of(advice);
    let mut out = String::new(alloc);
    if !control.is_empty() {
        out.push_str(before)?;
        out.push_str(control)?;
    }
    push_and(&mut out, advice.adds_tag, "an ETag")?;
    push_and(&mut out, advice.answers_304, "answer 304 to its ETag")?;
    Ok(out)
}

// Returns whether an advised lifetime is for private caches only.
fn is_for_private(advice: Advice) -> bool {
    advice.is_private && !matches!(advice.term, Term::Same)
}

/// Returns why something is advised, and why it is for private caches only, if it is.
pub fn why_of(advice: Advice) -> (&'static str, &'static str) {
    let why = match advice.term {
        Term::Year => "its name has a hash, so it changes with the content",
        Term::Week => "it is a part of pages, and its lifetime is short or guessed",
        Term::Day => "it is a file, and its lifetime is short or guessed",
        Term::Same if advice.adds_tag => "it has no validator, so all of it is sent again",
        Term::Same => "its server sends all of it to its own validator",
    };
    if is_for_private(advice) {
        (
            why,
            "; private, since it says so, or a cookie or Authorization goes with it",
        )
    } else {
        (why, "")
    }
}

/// Returns when something advised is wrong, and when it may be for all caches, if it isn't.
pub fn unless_of(advice: Advice) -> (&'static str, &'static str) {
    let unless = match advice.term {
        Term::Year => "its content changes under the same name",
        Term::Week => "it may not be a week old: then put a hash in its name",
        Term::Day => "it may not be a day old",
        Term::Same => "it is never the same twice",
    };
    if is_for_private(advice) {
        (unless, "; without private if all users get the same")
    } else {
        (unless, "")
    }
}

/// Returns what a later visit does with a url.
pub fn act_word(act: Act) -> &'static str {
    match act {
        Act::Again => "again",
        Act::Confirmed => "304",
        Act::Nothing => "nothing",
    }
}

/// Returns the words for the kind of cache.
pub fn cache_text(is_shared: bool) -> &'static str {
    if is_shared {
        ", as a CDN's cache (--private: a browser's)"
    } else {
        ", as a browser's cache (--shared: a CDN's)"
    }
}

/// Returns the loads, how long they took, and the kind of cache.
pub fn loads_text(alloc: Global, found: &Findings) -> Fallible<String> {
    let (loads, page) = (&found.loads, found.loads.page.as_str());
    let name = cut(alloc, short("", page), LONGEST)?;
    let word = if loads.of_page == 1 { "load" } else { "loads" };
    let mut out = filled!(alloc; "$ $ of $";
        Item::Number(loads.of_page), Item::Text(word), Item::Text(name.as_str()))?;
    if loads.of_others > 0 {
        let other = loads
            .other
            .as_deref()
            .map_or("other pages", |url| short(host_of(page), url));
        let other = cut(alloc, other, LONGEST)?;
        fill!(alloc, &mut out; ", $ of $";
            Item::Number(loads.of_others), Item::Text(other.as_str()))?;
    }
    let seconds = loads.seconds.min(u64::MAX as u128) as u64;
    fill!(alloc, &mut out; ", in $ s$";
        Item::Number(seconds), Item::Text(cache_text(found.is_shared)))?;
    Ok(out)
}

/// Returns the sum of what changes save.
pub fn saved_by_all(changes: &[ChangedUrl]) -> u64 {
    changes.iter().fold(0u64, |sum, change| sum.saturating_add(change.cost.saved()))
}

/// Returns the bytes of the first three changes.
pub fn three_bytes(changes: &[ChangedUrl]) -> u64 {
    changes
        .iter()
        .take(3)
        .fold(0u64, |sum, change| sum.saturating_add(change.bytes))
}

const CACHE_OFF: &str =
    "noticed: at least half of the requests say no-cache, so the session was recorded with the \
cache off or by a hard reload; record it with the cache on, or walk it with --ignore-request-no-cache";

const NO_CREDENTIALS: &str =
    "noticed: no entry has Cookie, Set-Cookie or Authorization; either the site sets none, or \
the browser left them out of the export, and hits may be wrong: export it with sensitive data";

/// Adds what may mislead, with an end after each.
pub fn push_notes(
    out: &mut String,
    cache_off: bool,
    no_credentials: bool,
    end: char,
) -> Fallible<()> {
    if cache_off {
        out.push_str(CACHE_OFF)?;
        out.push(end)?;
    }
    if no_credentials {
        out.push_str(NO_CREDENTIALS)?;
        out.push(end)?;
    }
    Ok(())
}

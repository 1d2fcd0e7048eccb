//! The report of one screen: what to change first, what later visits cost, what looks wrong, and
//! what isn't judged.
use crate::error::Fallible;
use crate::item::Item::{self, Left, Number, Right, Size, Text, Time};
use crate::item::fill;
use crate::numbers::{kilobytes, number_text, percent, thousands};
use crate::words::{
    COLUMN, LONGEST, act_word, cut, fault_words, host_of, life_text, loads_text, push_notes,
    send_words, short, storing_text, three_bytes, unless_of, why_of,
};
use http_cache_findings::advice::Advice;
use http_cache_findings::findings::{
    Act, Apart, ChangedUrl, ChangingQuery, FaultyUrl, Findings, GoodUrl, Guesses, LaterVisit,
    Repeated, Sent, SplitUrl, VisitedUrl,
};
use http_cache_findings::picks::Base;
use std::alloc::Global;

// The greatest number of urls in a section.
const MOST: usize = 12;

// The greatest number of changes.
const MOST_CHANGES: usize = 5;

// The width of the column of urls, with a blank after it.
const WIDTH: usize = COLUMN + 1;

// A report, as far as it is written.
#[derive(Drop)]
struct Screen<'a> {
    alloc: Global,
    // The host of the page, which urls are printed without.
    host: &'a str,
    out: String,
}

impl Screen<'_> {
    fn fill(&mut self, template: &str, items: &[Item<'_>]) -> Fallible<()> {
        fill(self.alloc, &mut self.out, template, items)
    }

    // Returns a url for a column.
    fn column(&self, url: &str) -> Fallible<String> {
        cut(self.alloc, short(self.host, url), COLUMN)
    }

    // Adds a template with an amount of bytes in its hole, unless that is 0.
    fn fill_size(&mut self, template: &str, bytes: u64) -> Fallible<()> {
        if bytes == 0 {
            return Ok(());
        }
        self.fill(template, &[Size(bytes)])
    }

    // Adds how many urls aren't listed, if there are any.
    fn push_rest(&mut self, urls: usize) -> Fallible<()> {
        if urls <= MOST {
            return Ok(());
        }
        fill!(self; "  and $ more: --lines has all\n"; Number((urls - MOST) as u64))
    }

    // Adds what was sent for the loads, and what a cache saves.
    fn push_wire(&mut self, sent: Sent, repeated: Repeated) -> Fallible<()> {
        fill!(self; "\nON THE WIRE\n  first load $ kB, later loads $ kB; \
of requests that a cache could answer $ and $ kB\n";
            Number(thousands(sent.first_load)), Number(thousands(sent.later_loads)),
            Number(thousands(sent.asked_first_load)), Number(thousands(sent.asked_later_loads)))?;
        fill!(self; "  $ of $ repeated requests need nothing ($ %), which saves $ kB\n";
            Number(repeated.fresh), Number(repeated.requests),
            Number(percent(repeated.fresh, repeated.requests)), Number(thousands(repeated.saved)))
    }

    // Adds the line of a change: its url, requests, bytes, and what it says.
    fn push_said(&mut self, change: &ChangedUrl) -> Fallible<()> {
        let url = self.column(change.url.as_str())?;
        let requests = number_text(self.alloc, change.requests)?;
        fill!(self; "  $$ req "; Left(url.as_str(), WIDTH), Right(requests.as_str(), 5))?;
        self.push_says(change)
    }

    fn push_says(&mut self, change: &ChangedUrl) -> Fallible<()> {
        let size = kilobytes(self.alloc, change.bytes)?;
        let says = cut(self.alloc, change.says.as_str(), LONGEST)?;
        fill!(self; "$  $\n"; Right(size.as_str(), 10), Text(says.as_str()))
    }

    fn push_change(&mut self, change: &ChangedUrl) -> Fallible<()> {
        self.push_said(change)?;
        let send = send_words(self.alloc, "Cache-Control: ", change.advice)?;
        fill!(self; "      -> $\n         saves $";
            Text(send.as_str()), Size(change.cost.saved()))?;
        self.fill_size(", and $ in the first load", change.first_load.saved())?;
        self.fill_size(" ($ by the 304s alone)", change.by_304.saved())?;
        self.push_why(change.advice)
    }

    fn push_why(&mut self, advice: Advice) -> Fallible<()> {
        let ((why, private), (unless, all)) = (why_of(advice), unless_of(advice));
        fill!(self; "\n         why: $$\n         not if: $$\n";
            Text(why), Text(private), Text(unless), Text(all))
    }

    // Adds what to change first, at most five urls.
    fn push_changes(&mut self, found: &Findings) -> Fallible<()> {
        let changes = found.changes.as_slice();
        let base = Text(match found.base {
            Base::Later => "later loads send",
            Base::Visit => "a visit a day later costs",
        });
        if changes.is_empty() {
            return fill!(self; "\nCHANGE FIRST: no advice saves of what $\n"; base);
        }
        let bytes = three_bytes(changes);
        fill!(self; "\nCHANGE FIRST, by what is saved of what $: the first three are $ kB ($ %)\n";
            base, Number(thousands(bytes)), Number(percent(bytes, found.all)))?;
        for change in changes.iter().take(MOST_CHANGES) {
            self.push_change(change)?;
        }
        let rest = changes.len().saturating_sub(MOST_CHANGES);
        if rest == 0 {
            return Ok(());
        }
        fill!(self; "  and $ more: --html has all\n"; Number(rest as u64))
    }

    fn push_visited(&mut self, url: &VisitedUrl) -> Fallible<()> {
        let alloc = self.alloc;
        let (name, size) = (self.column(url.url.as_str())?, kilobytes(alloc, url.bytes)?);
        let life = life_text(alloc, url.life)?;
        fill!(self; "  $$  $";
            Left(name.as_str(), WIDTH), Right(size.as_str(), 9), Left(life.as_str(), 11))?;
        for act in url.acts.as_slice() {
            let word = if *act == Act::Nothing {
                "-"
            } else {
                act_word(*act)
            };
            fill!(self; "$"; Left(word, 6))?;
        }
        match url.advice {
            _ if url.status >= 400 => self.out.push_str("fix the link")?,
            Some(advice) => self.out.push_str(send_words(alloc, "", advice)?.as_str())?,
            None => {}
        }
        self.out.push_str("\n")
    }

    fn push_count(&mut self, count: u64) -> Fallible<()> {
        let count = number_text(self.alloc, count)?;
        fill!(self; "$"; Left(count.as_str(), 6))
    }

    // Adds the line of the urls that state no lifetime, if there are any.
    fn push_guesses(&mut self, guesses: &Guesses) -> Fallible<()> {
        if guesses.urls == 0 {
            return Ok(());
        }
        fill!(self; "  $ that say no lifetime, $, guessed as $ to $; by a 304: ";
            Number(guesses.urls), Size(guesses.bytes), Time(guesses.least), Time(guesses.most))?;
        for count in guesses.confirmed.as_slice() {
            self.push_count(*count)?;
        }
        self.out.push_str("say max-age\n")
    }

    // Adds the costs of the whole page at each visit: kilobytes, 304s, and responses of unknown
    // size.
    fn push_totals(&mut self, visits: &[LaterVisit], is_advised: bool) -> Fallible<()> {
        for visit in visits {
            let cost = if is_advised { visit.advised } else { visit.now };
            fill!(self; "  $ kB + $ x 304"; Number(thousands(cost.bytes)), Number(cost.confirmed))?;
            if cost.unknown > 0 {
                fill!(self; " + $ unknown"; Number(cost.unknown))?;
            }
        }
        self.out.push_str("\n")
    }

    // Adds what later visits cost, and at most twelve urls that they request.
    fn push_later(&mut self, found: &Findings) -> Fallible<()> {
        let (visited, visits) = (found.visited.as_slice(), found.visits.as_slice());
        self.out.push_str(
            "\nWILL COST ON A LATER VISIT, in an hour, a day, a week, thirty days\n",
        )?;
        for url in visited.iter().filter(|one| one.is_listed).take(MOST) {
            self.push_visited(url)?;
        }
        self.push_rest(visited.iter().filter(|one| one.is_listed).count())?;
        self.push_guesses(&found.guesses)?;
        self.out.push_str("  the whole page: ")?;
        self.push_totals(visits, false)?;
        self.out.push_str("  with what is advised: ")?;
        self.push_totals(visits, true)
    }

    fn push_faults(&mut self, url: &FaultyUrl) -> Fallible<()> {
        let name = self.column(url.url.as_str())?;
        for fault in url.faults.as_slice() {
            let (words, send) = fault_words(*fault);
            fill!(self; "  $$ -> $\n"; Left(name.as_str(), WIDTH), Text(words), Text(send))?;
        }
        Ok(())
    }

    fn push_queries(&mut self, queries: &[ChangingQuery]) -> Fallible<()> {
        for query in queries.iter().take(MOST) {
            let name = self.column(query.base.as_str())?;
            fill!(self; "  $$ urls, one response -> leave the query out";
                Left(name.as_str(), WIDTH), Number(query.urls))?;
            self.fill_size(" (saves $)", query.cost.saved())?;
            self.out.push_str("\n")?;
        }
        self.push_rest(queries.len())
    }

    // Adds what looks wrong, if anything does: first in urls, then in queries.
    fn push_wrong(&mut self, found: &Findings) -> Fallible<()> {
        let (faults, queries) = (found.faults.as_slice(), found.queries.as_slice());
        if faults.is_empty() && queries.is_empty() {
            return Ok(());
        }
        self.out.push_str("\nLOOKS WRONG\n")?;
        for url in faults.iter().take(MOST) {
            self.push_faults(url)?;
        }
        self.push_rest(faults.len())?;
        self.push_queries(queries)
    }

    // Adds the differences between the two kinds of cache, if there are any.
    fn push_split(&mut self, is_shared: bool, split: &[SplitUrl]) -> Fallible<()> {
        if split.is_empty() {
            return Ok(());
        }
        self.out.push_str(if is_shared {
            "\nCDN AND BROWSER\n"
        } else {
            "\nBROWSER AND CDN\n"
        })?;
        for url in split.iter().take(MOST) {
            let name = self.column(url.url.as_str())?;
            let browser = storing_text(self.alloc, &url.browser)?;
            let cdn = storing_text(self.alloc, &url.cdn)?;
            let (own, other) = if is_shared {
                (cdn, browser)
            } else {
                (browser, cdn)
            };
            fill!(self; "  $$ $\n";
                Left(name.as_str(), WIDTH), Left(own.as_str(), 25), Text(other.as_str()))?;
        }
        self.push_rest(split.len())
    }

    // Adds the line of urls that need no change, if there are any.
    fn push_good(&mut self, head: &str, urls: &[GoodUrl]) -> Fallible<()> {
        for (index, url) in urls.iter().take(MOST).enumerate() {
            let name = self.column(url.url.as_str())?;
            self.out.push_str(if index == 0 { head } else { ", " })?;
            self.out.push_str(name.as_str())?;
            self.fill_size(" ($)", url.bytes)?;
        }
        if urls.len() > MOST {
            fill!(self; ", and $ more"; Number((urls.len() - MOST) as u64))?;
        }
        self.out.push_str(if urls.is_empty() { "" } else { "\n" })
    }

    // Adds the urls that need no change, if there are any.
    fn push_in_order(&mut self, found: &Findings) -> Fallible<()> {
        let (kept, checked) = (found.kept.as_slice(), found.checked.as_slice());
        if kept.is_empty() && checked.is_empty() {
            return Ok(());
        }
        self.out.push_str("\nIN ORDER\n")?;
        self.push_good("  nothing is asked for thirty days: ", kept)?;
        self.push_good("  no-cache, and answered by a 304: ", checked)
    }

    // Adds the requests that aren't judged, if there are any.
    fn push_apart(&mut self, apart: &[Apart]) -> Fallible<()> {
        if !apart.is_empty() {
            self.out.push_str("\nNOT JUDGED\n")?;
        }
        for kind in apart {
            fill!(self; "  $ $"; Number(kind.requests), Text(kind.name.as_str()))?;
            self.fill_size(" ($)", kind.bytes)?;
            self.out.push_str("\n")?;
        }
        Ok(())
    }
}

/// Returns the report of what was found: the loads, what to change first, the costs of later
/// visits, what looks wrong, the differences between the caches, what is in order, and what isn't
/// judged.
pub fn report(alloc: Global, found: &Findings) -> Fallible<String> {
    let mut to = Screen {
        alloc,
        host: host_of(found.loads.page.as_str()),
        out: loads_text(alloc, found)?,
    };
    to.out.push_str("\n")?;
    to.push_wire(found.sent, found.repeated)?;
    if !found.visits.is_empty() {
        to.push_changes(found)?;
        to.push_later(found)?;
    }
    to.push_wrong(found)?;
    to.push_split(found.is_shared, found.split.as_slice())?;
    to.push_in_order(found)?;
    to.push_apart(found.apart.as_slice())?;
    push_notes(&mut to.out, found.cache_off, found.no_credentials, '\n')?;
    Ok(to.out)
}

//! What is found, as sections of a page: what to change first, later visits and what is in order, what
//! looks wrong, and where a browser's cache and a CDN's differ.
use crate::error::Fallible;
use crate::html::Page;
use crate::item::Item::{Number, Size, Text, Time, Value};
use crate::numbers::{part_of, thousands};
use crate::words::{
    COLUMN, cut, fault_words, life_text, push_piece, saved_by_all, send_words, short, storing_text,
    unless_of, why_of,
};
use http_cache_findings::advice::{Advice, control_of};
use http_cache_findings::findings::{
    Act, ChangedUrl, ChangingQuery, Fault, FaultyUrl, Findings, GoodUrl, Guesses, LaterVisit,
    SplitUrl, VisitCost, VisitedUrl,
};
use http_cache_findings::lint::Flaw;
use http_cache_findings::picks::Base;
use http_cache_findings::urls::Life;
use std::alloc::AllocError;

// The greatest number of urls in a section.
const MOST_ROWS: usize = 60;

// The greatest number of urls in a list of what is in order.
const MOST_GOOD: usize = 12;

const CHANGES: &str = r#"$ A click on a header selects it.</p>
<table class="first"><thead><tr><th scope="col">URL</th>
<th scope="col" class="n">Requests</th>
<th scope="col">Sent</th>
<th scope="col">Sent now</th>
<th scope="col">Send instead</th>
<th scope="col" class="n">Saves</th></tr></thead>
<tbody>
"#;

const CHANGED: &str = r#"<tr><th scope="row" class="u"><code>$</code></th><td class="n r">$</td>"#;

const CHANGED_BAR: &str =
    r#"<td class="b"><span class="big">$</span><svg class="bar" aria-hidden="true">
<rect class="p" height="100%" width="100%"/>"#;

const CHANGED_PARTS: &str = r#"<rect class="q" height="100%" width="@%"/>"#;

const CHANGED_TO: &str = r#"<rect class="w" height="100%" width="@%"/></svg></td>"#;

const TOTAL: &str = r#"</tbody>
<tfoot><tr><th scope="row" class="u">all of them</th><td class="n r"></td>
<td class="b"><span class="big">$</span><small>of $ that a cache could answer</small></td><td class="now"></td>
<td class="new"></td><td class="n s"><span class="big">$</span></td></tr></tfoot></table>
</section>
"#;

const VISITS: &str = r#"<section aria-labelledby="s2"><h2 id="s2">Will cost on a later visit</h2>
<p class="lead">The first load, asked again by the same cache: what is still fresh costs nothing, a 304 its
headers. Now: as it is; then: with the headers above changed.</p>
<ul class="mult" aria-label="the whole page, asked again">
"#;

const VISITED: &str = r#"<table class="when"><thead><tr><th scope="col">URL</th>
<th scope="col" class="n">Size</th>
<th scope="col">Fresh for</th>
<th scope="col">in 1 h</th>
<th scope="col">in 1 d</th>
<th scope="col">in 1 w</th>
<th scope="col">in 30 d</th>
<th scope="col">Send instead</th></tr></thead>
<tbody>
"#;

const SPLIT: &str = r#"Where the two store something else, or for another time.</p>
<table class="two"><thead><tr><th scope="col">URL</th>
<th scope="col">Browser</th>
<th scope="col">CDN</th></tr></thead>
<tbody>
"#;

// Adds how many of so many urls aren't listed, if there are any.
fn put_more(page: &mut Page, count: usize) -> Fallible<()> {
    let more = count.saturating_sub(MOST_ROWS) as u64;
    if more == 0 {
        return Ok(());
    }
    fill!(page; "<p class=\"plain\">$ more: see all requests</p>\n"; Number(more))
}

// Adds what to send instead, why, and when it is wrong.
fn put_advice(page: &mut Page, advice: Advice) -> Fallible<()> {
    let control = control_of(advice);
    if !control.is_empty() {
        fill!(page; r#"<code class="set">Cache-Control: $</code>"#; Text(control))?;
    }
    if advice.adds_tag {
        page.tag("<small>an ETag, a text that changes with the content</small>")?;
    }
    if advice.answers_304 {
        page.tag("<small>answer 304 to its ETag</small>")?;
    }
    let ((why, private), (unless, all)) = (why_of(advice), unless_of(advice));
    fill!(page; r#"<small class="why">Why: $$</small><small class="why">Not if: $$</small>"#;
        Text(why), Text(private), Text(unless), Text(all))
}

fn put_changed(page: &mut Page, url: &str, requests: u64) -> Fallible<()> {
    fill!(page; CHANGED; Text(url), Number(requests))
}

// Adds a bar: the bytes of a url in proportion to the most, and the part of it that is saved.
fn put_bar(page: &mut Page, change: &ChangedUrl, most: u64) -> Fallible<()> {
    fill!(page; CHANGED_BAR; Size(change.bytes))?;
    fill!(page; CHANGED_PARTS; Value(part_of(change.bytes, most)))?;
    fill!(page; CHANGED_TO; Value(part_of(change.cost.saved(), most)))
}

// Adds what a change saves: of what is sent again, in the first load, and by the 304s alone.
fn put_saved(page: &mut Page, change: &ChangedUrl) -> Fallible<()> {
    let (first, by_304) = (change.first_load.saved(), change.by_304.saved());
    fill!(page; r#"</td><td class="n s"><span class="big">$</span>"#; Size(change.cost.saved()))?;
    page.fill_size("<small> + $ in the first load</small>", first)?;
    page.fill_size("<small> $ by the 304s alone</small>", by_304)?;
    page.tag("</td></tr>\n")
}

// Adds the row of a change.
fn put_change(page: &mut Page, change: &ChangedUrl, host: &str, most: u64) -> Fallible<()> {
    put_changed(page, short(host, change.url.as_str()), change.requests)?;
    put_bar(page, change, most)?;
    fill!(page; r#"<td class="now"><code class="set">$</code></td><td class="new">"#;
        Text(change.says.as_str()))?;
    put_advice(page, change.advice)?;
    put_saved(page, change)
}

// Adds the section about what to change first.
fn put_changes(page: &mut Page, found: &Findings, host: &str) -> Fallible<()> {
    let changes = found.changes.as_slice();
    page.tag(
        "<section aria-labelledby=\"s1\"><h2 id=\"s1\">Change first</h2>\n<p class=\"lead\">",
    )?;
    if changes.is_empty() {
        return page.tag(
            "Nothing: no advice saves bytes of a URL that takes 1 % of what is sent.</p>\n</section>\n",
        );
    }
    let words = match found.base {
        Base::Later =>
            "The URLs of which later loads sent most that can be spared. The bar is what \
they sent; hatched, what the headers spare of it.",
        Base::Visit =>
            "The URLs of which a visit a day later sends most that can be spared. The bar \
is what it sends; hatched, what the headers spare of it.",
    };
    fill!(page; CHANGES; Text(words))?;
    let most = changes.iter().fold(0u64, |most, one| one.bytes.max(most));
    let bytes = changes
        .iter()
        .fold(0u64, |sum, one| sum.saturating_add(one.bytes));
    for change in changes.iter().take(MOST_ROWS) {
        put_change(page, change, host, most)?;
    }
    fill!(page; TOTAL; Size(bytes), Size(found.all), Size(saved_by_all(changes)))
}

// Adds what a visit costs: kilobytes, responses with 304, and responses of unknown size.
fn put_cost(page: &mut Page, cost: VisitCost) -> Fallible<()> {
    fill!(page; "<b>$ kB</b> + $ &#215; 304";
        Number(thousands(cost.bytes)), Number(cost.confirmed))?;
    if cost.unknown == 0 {
        return Ok(());
    }
    fill!(page; " + $ of unknown size"; Number(cost.unknown))
}

fn put_visit(page: &mut Page, visit: &LaterVisit, most: u64) -> Fallible<()> {
    let title = match visit.after {
        3_600 => "1 hour later",
        86_400 => "1 day later",
        604_800 => "1 week later",
        _ => "30 days later",
    };
    fill!(page; r#"<li><h3>$</h3><svg class="bar" aria-hidden="true"><rect class="q" height="100%" width="@%"/></svg><p>now "#;
        Text(title), Value(part_of(visit.now.bytes, most)))?;
    put_cost(page, visit.now)?;
    fill!(page; r#"</p><svg class="bar" aria-hidden="true"><rect class="g" height="100%" width="@%"/></svg><p>then "#;
        Value(part_of(visit.advised.bytes, most)))?;
    put_cost(page, visit.advised)?;
    page.tag("</p></li>\n")
}

// Adds the costs of the whole page at each visit.
fn put_sums(page: &mut Page, visits: &[LaterVisit]) -> Fallible<()> {
    let most = visits.iter();
    let most = most.fold(
        0u64,
        |most, one| most.max(one.now.bytes).max(one.advised.bytes),
    );
    page.tag(VISITS)?;
    for visit in visits {
        put_visit(page, visit, most)?;
    }
    page.tag("</ul>\n")
}

// Adds what each visit does with a url, in cells of the classes `c1`, `c2` and so on.
fn put_acts(page: &mut Page, acts: &[Act]) -> Fallible<()> {
    let mut number = 0u64;
    for act in acts {
        number = number.saturating_add(1);
        fill!(page; r#"</td><td class="c c@">"#; Value(number))?;
        match act {
            Act::Again => page.tag(r#"<span class="dot full"></span><b>again</b>"#)?,
            Act::Confirmed => page.tag(r#"<span class="dot half"></span>304"#)?,
            Act::Nothing => page.tag(r#"<span class="dot"></span>nothing"#)?,
        }
    }
    Ok(())
}

// Adds the row of a url: its size, its lifetime, what visits do with it, and what to send instead.
fn put_url(page: &mut Page, url: &VisitedUrl, host: &str) -> Fallible<()> {
    let alloc = page.alloc();
    let is_guessed = matches!(url.life, Life::Guessed(_));
    let life = life_text(alloc, url.life)?;
    fill!(page; r#"<tr><th scope="row" class="u"><code>$</code></th><td class="n size">$</td><td class="live">$"#;
        Text(short(host, url.url.as_str())), Size(url.bytes), Text(life.as_str()))?;
    if is_guessed {
        page.tag(" <small>guessed</small>")?;
    }
    put_acts(page, url.acts.as_slice())?;
    page.tag(r#"</td><td class="do">"#)?;
    match url.advice {
        _ if url.status >= 400 => page.tag("fix the link")?,
        Some(advice) => {
            let send = send_words(alloc, "", advice)?;
            fill!(page; "<code>$</code>"; Text(send.as_str()))?;
        }
        None if is_guessed => page.tag("say <code>max-age</code>: each cache guesses otherwise")?,
        None => {}
    }
    page.tag("</td></tr>\n")
}

// Adds the sums of the urls that state no lifetime, if there are any.
fn put_guesses(page: &mut Page, guesses: &Guesses) -> Fallible<()> {
    if guesses.urls == 0 {
        return Ok(());
    }
    fill!(page; r#"<p class="plain">$ that say no lifetime, $, guessed as $ to $; by a 304:"#;
        Number(guesses.urls), Size(guesses.bytes), Time(guesses.least), Time(guesses.most))?;
    for count in guesses.confirmed.as_slice() {
        fill!(page; " $"; Number(*count))?;
    }
    page.tag(" of them, in 1 h, 1 d, 1 w and 30 d</p>\n")
}

// Adds the first urls that are in order, and the number of the others, if there are any.
fn put_good(page: &mut Page, words: &str, urls: &[GoodUrl], host: &str) -> Fallible<()> {
    if urls.is_empty() {
        return Ok(());
    }
    let alloc = page.alloc();
    let mut list = String::new(alloc);
    for url in urls.iter().take(MOST_GOOD) {
        let name = cut(alloc, short(host, url.url.as_str()), COLUMN)?;
        push_piece(&mut list, name.as_str())?;
        if url.bytes > 0 {
            fill!(alloc, &mut list; " ($)"; Size(url.bytes))?;
        }
    }
    let more = urls.len().saturating_sub(MOST_GOOD) as u64;
    if more > 0 {
        fill!(alloc, &mut list; ", and $ more"; Number(more))?;
    }
    fill!(page; "<p class=\"plain\"><b>In order:</b> $: $</p>\n"; Text(words), Text(list.as_str()))
}

// Adds the section about later visits.
fn put_visits(page: &mut Page, found: &Findings, host: &str) -> Fallible<()> {
    put_sums(page, found.visits.as_slice())?;
    page.tag(VISITED)?;
    for url in found.visited.iter().take(MOST_ROWS) {
        put_url(page, url, host)?;
    }
    page.tag("</tbody></table>\n")?;
    put_more(page, found.visited.len())?;
    put_guesses(page, &found.guesses)?;
    let (kept, checked) = (found.kept.as_slice(), found.checked.as_slice());
    put_good(page, "nothing is asked for thirty days", kept, host)?;
    put_good(page, "no-cache, and answered by a 304", checked, host)?;
    page.tag("</section>\n")
}

// Returns whether the words for a fault say what was sent.
fn says_what_was_sent(fault: Fault) -> bool {
    matches!(
        fault,
        Fault::InFull
            | Fault::Flaw(
                Flaw::VaryAny
                    | Flaw::VaryCookie
                    | Flaw::VaryUserAgent
                    | Flaw::BareTag
                    | Flaw::FutureDate
                    | Flaw::OldDate
            )
    )
}

// Adds the faults of a url: what was sent, what it should be, and what looks wrong.
fn put_faults(page: &mut Page, one: &FaultyUrl, host: &str) -> Fallible<()> {
    let url = short(host, one.url.as_str());
    for fault in one.faults.as_slice() {
        let (words, send) = fault_words(*fault);
        let is_plain = says_what_was_sent(*fault);
        let says = if is_plain { words } else { one.says.as_str() };
        fill!(page; r#"<li><p><code>$</code></p>
<dl class="d"><dt>as sent</dt><dd class="was"><code>$</code></dd><dt class="to">should be</dt>"#;
            Text(url), Text(says))?;
        fill!(page; r#"<dd class="be"><code>$</code></dd></dl>"#; Text(send))?;
        if !is_plain {
            fill!(page; r#"<p class="why">$</p>"#; Text(words))?;
        }
        page.tag("</li>\n")?;
    }
    Ok(())
}

// Adds urls that differ only in their query, and have one response.
fn put_query(page: &mut Page, one: &ChangingQuery, host: &str) -> Fallible<()> {
    fill!(page; r#"<li><p><code>$</code></p>
<dl class="d"><dt>as sent</dt><dd class="was"><code>$ URLs, one response</code></dd>"#;
        Text(short(host, one.base.as_str())), Number(one.urls))?;
    page.tag(
        r#"<dt class="to">should be</dt><dd class="be">one URL, without the query</dd></dl>"#,
    )?;
    page.fill_size(r#"<p class="why">saves $</p>"#, one.cost.saved())?;
    page.tag("</li>\n")
}

// Adds the section about what looks wrong.
fn put_wrong(page: &mut Page, found: &Findings, host: &str) -> Fallible<()> {
    page.tag("<section aria-labelledby=\"s3\"><h2 id=\"s3\">Looks wrong</h2>\n<p class=\"lead\">")?;
    if found.faults.is_empty() && found.queries.is_empty() {
        return page.tag("Nothing.</p>\n</section>\n");
    }
    page.tag(
        "Headers that say something else than they seem to, or nothing.</p>\n<ul class=\"wrong\">\n",
    )?;
    for one in found.faults.iter().take(MOST_ROWS) {
        put_faults(page, one, host)?;
    }
    for one in found.queries.iter().take(MOST_ROWS) {
        put_query(page, one, host)?;
    }
    page.tag("</ul>\n")?;
    put_more(page, found.faults.len())?;
    page.tag("</section>\n")
}

fn put_split_url(page: &mut Page, one: &SplitUrl, host: &str) -> Fallible<()> {
    let browser = storing_text(page.alloc(), &one.browser)?;
    let cdn = storing_text(page.alloc(), &one.cdn)?;
    fill!(page; "<tr><th scope=\"row\" class=\"u\"><code>$</code></th><td class=\"c1\">$</td><td class=\"c2\">$</td></tr>\n";
        Text(short(host, one.url.as_str())), Text(browser.as_str()), Text(cdn.as_str()))
}

// Adds the section about the differences between a browser's cache and a CDN's.
fn put_split(page: &mut Page, found: &Findings, host: &str) -> Fallible<()> {
    page.tag(
        "<section aria-labelledby=\"s4\"><h2 id=\"s4\">Browser and CDN</h2>\n<p class=\"lead\">",
    )?;
    if found.split.is_empty() {
        return page.tag("Both do the same.</p>\n</section>\n");
    }
    page.tag(SPLIT)?;
    for one in found.split.iter().take(MOST_ROWS) {
        put_split_url(page, one, host)?;
    }
    page.tag("</tbody></table>\n")?;
    put_more(page, found.split.len())?;
    page.tag("</section>\n")
}

/// Adds the sections of what is found.
pub fn put_findings(page: &mut Page, found: &Findings, host: &str) -> Fallible<()> {
    put_changes(page, found, host)?;
    put_visits(page, found, host)?;
    put_wrong(page, found, host)?;
    put_split(page, found, host)
}

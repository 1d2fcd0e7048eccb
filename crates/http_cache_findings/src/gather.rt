//! Gathers what a report finds in a recording.
ghost use Rattle.std.specs.Prelude.{◌≡◌, map, IfOk};
ghost use Rattle.http_cache_recording.specs.Entry.{recorded_seen};
ghost use Rattle.http_cache_semantics.specs.Options.{options_of};
ghost use Rattle.http_cache_walk.specs.Settings.{settings_seen};
ghost use Rattle.http_cache_findings.specs.Findings.{sent_in, repeated_in, price_in, url_in, changed_seen, changed_by};
ghost use Rattle.http_cache_findings.specs.Findings.{cost_in, visit_in, visits_in, query_seen, query_by, AreFindings};
ghost use Rattle.http_cache_findings.specs.Findings.{ArePlainFindings, AreAllFindings};
ghost use Rattle.http_cache_findings.specs.Outlook.{AreOutlook};
ghost use Rattle.http_cache_findings.specs.declared.outlook.Outlook.{Outlook};
ghost use Rattle.http_cache_findings.specs.Plain.{changing_seen};

use crate::by_size::order_of;
use crate::changes::Change;
use crate::cost::text_at;
use crate::counts::Counts;
use crate::facts::{Facts, facts_of};
use crate::faults::faulty_of;
use crate::findings::{
    Act, Apart, ChangedUrl, ChangingQuery, Findings, LaterVisit, Price, Repeated, Sent, VisitCost,
    VisitedUrl,
};
use crate::good::{checked_of, kept_of};
use crate::guesses::{guess_of, guesses_of, no_guesses};
use crate::later::{
    Visits, is_again, is_confirmed, listed_of, saving_advice, size_at, status_at, sum_in,
};
use crate::outlook::{Outlook, outlook_of};
use crate::picks::base_of;
use crate::queries::url_at;
use crate::remedy::Remedy;
use crate::says::said_at;
use crate::split::split_of;
use crate::urls::Url;
use crate::visit::Span;
use http::Uri;
use http_cache_recording::Recorded;
use http_cache_walk::order::shown_url;
use http_cache_walk::settings::{Settings, any_credentials, no_target};
use std::alloc::{AllocError, Global};

fn sent_of(sums: &Counts) -> Result<Sent, AllocError>
    ensures { IfOk result (λ sent. sent ≡ sent_in sums.now) }
{
    Ok(Sent {
        first_load: sums.total_of("sent", "first_load")?,
        later_loads: sums.total_of("sent", "later_loads")?,
        asked_first_load: sums.total_of("asked", "first_load")?,
        asked_later_loads: sums.total_of("asked", "later_loads")?,
    })
}

fn repeated_of(sums: &Counts) -> Repeated
    ensures { result ≡ repeated_in sums.now }
{
    Repeated {
        requests: sums.total("counts/repeated"),
        fresh: sums.total("verdicts/fresh"),
        saved: sums.total("bytes/saved"),
    }
}

// Returns the sums under a name for a url now and with what is advised.
fn price_of(now: &Counts, then: &Counts, name: &str, url: &str) -> Result<Price, AllocError>
    ensures { IfOk result (λ p. p ≡ price_in now.now then.now name.now url.now) }
{
    Ok(Price {
        now: now.total_of(name, url)?,
        then: then.total_of(name, url)?,
    })
}

fn url_in(remedies: &[Remedy], index: usize) -> &str
    ensures { result.now ≡ url_in remedies.now index }
{
    match remedies.get(index) {
        Some(remedy) => remedy.url.as_str(),
        None => "",
    }
}

fn changed_url(
    alloc: Global,
    recorded: &[Recorded],
    hides_queries: bool,
    facts: &Facts,
    outlook: &Outlook,
    change: &Change,
) -> Result<ChangedUrl, AllocError>
    ensures { IfOk result (λ changed. changed_seen changed
        ≡ changed_by hides_queries facts.now outlook.now change.now) }
{
    let (pick, after) = (&change.pick, &outlook.after);
    let url = url_in(outlook.remedies.as_slice(), change.remedy);
    Ok(ChangedUrl {
        url: String::from_str(alloc, shown_url(url, hides_queries))?,
        says: said_at(alloc, recorded, pick.full)?,
        advice: pick.advice,
        requests: pick.requests,
        bytes: pick.bytes,
        cost: Price {
            now: change.cost_now,
            then: change.cost_then,
        },
        first_load: price_of(&facts.costs, &after.costs, "first_cost", url)?,
        by_304: price_of(&facts.costs, &after.alone, "later_cost", url)?,
    })
}

fn changed_of(
    alloc: Global,
    recorded: &[Recorded],
    hides_queries: bool,
    facts: &Facts,
    outlook: &Outlook,
) -> Result<Vec<ChangedUrl>, AllocError>
    ensures { IfOk result (λ all. map changed_seen all.items
        ≡ map (changed_by hides_queries facts.now outlook.now) outlook.now.changes.items) }
{
    let mut all = Vec::with_capacity(alloc, outlook.changes.len())?;
    for change in outlook.changes.as_slice() {
        let changed = changed_url(alloc, recorded, hides_queries, facts, outlook, change)?;
        all.push(changed)?;
    }
    Ok(all)
}

fn cost_of(visit: &Counts) -> Result<VisitCost, AllocError>
    ensures { IfOk result (λ cost. cost ≡ cost_in visit.now) }
{
    Ok(VisitCost {
        bytes: sum_in(visit, "bytes")?,
        confirmed: sum_in(visit, "confirmed")?,
        unknown: sum_in(visit, "unknown")?,
    })
}

fn later_visit(after: u64, now: &Counts, advised: &Counts) -> Result<LaterVisit, AllocError>
    ensures { IfOk result (λ visit. visit ≡ visit_in after now.now advised.now) }
{
    Ok(LaterVisit {
        after,
        now: cost_of(now)?,
        advised: cost_of(advised)?,
    })
}

fn visits_of(alloc: Global, now: &Visits, then: &Visits) -> Result<Vec<LaterVisit>, AllocError>
    ensures { IfOk result (λ all. all.items ≡ visits_in now.now then.now) }
{
    let mut all = Vec::with_capacity(alloc, 4)?;
    all.push(later_visit(3_600, &now.hour, &then.hour)?)?;
    all.push(later_visit(86_400, &now.day, &then.day)?)?;
    all.push(later_visit(604_800, &now.week, &then.week)?)?;
    all.push(later_visit(2_592_000, &now.month, &then.month)?)?;
    Ok(all)
}

fn act_of(visit: &Counts, url: &str) -> Result<Act, AllocError> {
    Ok(if is_again(visit, url)? {
        Act::Again
    } else if is_confirmed(visit, url)? {
        Act::Confirmed
    } else {
        Act::Nothing
    })
}

/// Returns what visits an hour, a day, a week and thirty days later do with a url.
pub fn acts_of(alloc: Global, visits: &Visits, url: &str) -> Result<Vec<Act>, AllocError> {
    let mut acts = Vec::with_capacity(alloc, 4)?;
    acts.push(act_of(&visits.hour, url)?)?;
    acts.push(act_of(&visits.day, url)?)?;
    acts.push(act_of(&visits.week, url)?)?;
    acts.push(act_of(&visits.month, url)?)?;
    Ok(acts)
}

fn visited_url(
    alloc: Global,
    recorded: &[Recorded],
    hides_queries: bool,
    facts: &Facts,
    outlook: &Outlook,
    url: &Url,
    is_listed: bool,
) -> Result<VisitedUrl, AllocError> {
    let (now, then) = (&outlook.visits, &outlook.after.visits);
    Ok(VisitedUrl {
        url: url_at(alloc, recorded, url.entry, hides_queries)?,
        status: status_at(recorded, url.full),
        bytes: size_at(recorded, url.full),
        life: url.life,
        acts: acts_of(alloc, now, text_at(recorded, url.entry))?,
        advice: saving_advice(recorded, now, then, facts, url)?,
        is_listed,
    })
}

// Returns for each url whether it has a row: it is listed, or its lifetime is guessed.
fn shown_of(
    alloc: Global,
    recorded: &[Recorded],
    urls: &[Url],
    listed: &[bool],
) -> Result<Vec<bool>, AllocError> {
    let mut all = Vec::with_capacity(alloc, urls.len())?;
    for (url, is_listed) in urls.iter().zip(listed.iter()) {
        all.push(*is_listed || guess_of(recorded, url).is_some())?;
    }
    Ok(all)
}

fn visited_of(
    alloc: Global,
    recorded: &[Recorded],
    hides_queries: bool,
    facts: &Facts,
    outlook: &Outlook,
) -> Result<Vec<VisitedUrl>, AllocError> {
    let (urls, changes) = (facts.urls.as_slice(), outlook.changes.as_slice());
    let (now, then) = (&outlook.visits, &outlook.after.visits);
    let listed = listed_of(alloc, recorded, now, then, changes, &facts.sums, urls)?;
    let shown = shown_of(alloc, recorded, urls, listed.as_slice())?;
    let order = order_of(alloc, recorded, urls, shown.as_slice())?;
    let mut all = Vec::with_capacity(alloc, order.len())?;
    for key in order.as_slice() {
        if let (Some(url), Some(is_listed)) = (urls.get(key.1), listed.get(key.1)) {
            all.push(visited_url(
                alloc,
                recorded,
                hides_queries,
                facts,
                outlook,
                url,
                *is_listed,
            )?)?;
        }
    }
    Ok(all)
}

fn queries_of(
    alloc: Global,
    facts: &Facts,
    outlook: &Outlook,
) -> Result<Vec<ChangingQuery>, AllocError>
    ensures { IfOk result (λ all. map query_seen all.items
        ≡ map (query_by outlook.now) (map changing_seen facts.now.changing.items)) }
{
    let mut all = Vec::with_capacity(alloc, facts.changing.len())?;
    let (costs, plain) = (&outlook.after.costs, &outlook.after.plain);
    for one in facts.changing.as_slice() {
        let base = one.base.as_str();
        all.push(ChangingQuery {
            base: String::from_str(alloc, base)?,
            urls: one.urls,
            cost: price_of(costs, plain, "later_base", base)?,
        })?;
    }
    Ok(all)
}

fn apart_of(alloc: Global, sums: &Counts) -> Result<Vec<Apart>, AllocError> {
    let mut all = Vec::new(alloc);
    for (label, requests) in sums.by_label.iter() {
        if let Some(name) = label.as_str().strip_prefix("apart/") {
            all.push(Apart {
                name: String::from_str(alloc, name)?,
                requests: *requests,
                bytes: sums.total_of("apart_bytes", name)?,
            })?;
        }
    }
    Ok(all)
}

// Returns what is found without visits.
fn plain_findings(alloc: Global, facts: Facts, no_credentials: bool) -> Result<Findings, AllocError>
    ensures { IfOk result (ArePlainFindings facts no_credentials) }
{
    let sums = &facts.sums;
    Ok(Findings {
        is_shared: facts.is_shared,
        sent: sent_of(sums)?,
        repeated: repeated_of(sums),
        base: base_of(sums)?,
        all: 0,
        changes: Vec::new(alloc),
        visits: Vec::new(alloc),
        visited: Vec::new(alloc),
        guesses: no_guesses(alloc),
        faults: Vec::new(alloc),
        queries: Vec::new(alloc),
        split: Vec::new(alloc),
        kept: Vec::new(alloc),
        checked: Vec::new(alloc),
        apart: apart_of(alloc, sums)?,
        cache_off: sums.is_noticed(),
        no_credentials,
        loads: facts.loads,
    })
}

fn all_findings(
    alloc: Global,
    recorded: &[Recorded],
    target: &Uri,
    settings: &Settings,
    facts: Facts,
    outlook: &Outlook,
    no_credentials: bool,
) -> Result<Findings, AllocError>
    ensures { IfOk result (AreAllFindings settings.now.hides_queries facts no_credentials
        outlook.now) }
{
    let (hides, sums, urls) = (settings.hides_queries, &facts.sums, facts.urls.as_slice());
    Ok(Findings {
        base: outlook.base,
        all: outlook.all,
        changes: changed_of(alloc, recorded, hides, &facts, outlook)?,
        visits: visits_of(alloc, &outlook.visits, &outlook.after.visits)?,
        visited: visited_of(alloc, recorded, hides, &facts, outlook)?,
        guesses: guesses_of(alloc, recorded, &outlook.visits, urls)?,
        faults: faulty_of(alloc, recorded, hides, urls)?,
        queries: queries_of(alloc, &facts, outlook)?,
        split: split_of(alloc, recorded, target, hides, &settings.options, urls)?,
        kept: kept_of(alloc, recorded, hides, sums, outlook, urls)?,
        checked: checked_of(alloc, recorded, hides, sums, outlook, urls)?,
        ..plain_findings(alloc, facts, no_credentials)?
    })
}

// Returns what is found in a recording that has a first load.
fn found_with(
    alloc: Global,
    recorded: Vec<Recorded>,
    target: &Uri,
    settings: &Settings,
    facts: Facts,
    span: Span,
    no_credentials: bool,
) -> Result<(Findings, Vec<Recorded>), AllocError>
    ensures { IfOk result (λ made. (o : Outlook) × AreOutlook (map recorded_seen recorded.items)
        (options_of settings.now.options) target.now facts span o
        × AreAllFindings settings.now.hides_queries facts no_credentials o made.0) }
{
    let (outlook, recorded) = outlook_of(alloc, recorded, target, &settings.options, &facts, span)?;
    let all = recorded.as_slice();
    let found = all_findings(
        alloc,
        all,
        target,
        settings,
        facts,
        &outlook,
        no_credentials,
    )?;
    Ok((found, recorded))
}

fn findings_by(
    alloc: Global,
    recorded: Vec<Recorded>,
    target: &Uri,
    settings: &Settings,
) -> Result<(Findings, Vec<Recorded>), AllocError>
    ensures { IfOk result (λ made. AreFindings (settings_seen settings.now)
        (map recorded_seen recorded.items) made.0) }
{
    let facts = facts_of(alloc, recorded.as_slice(), target, settings.options)?;
    let bare = !any_credentials(recorded.as_slice());
    let span = facts.span;
    match span {
        Some(span) => found_with(alloc, recorded, target, settings, facts, span, bare),
        None => Ok((plain_findings(alloc, facts, bare)?, recorded)),
    }
}

/// Returns what a report finds in a recording, and the recording as it was.
pub fn findings_of(
    alloc: Global,
    recorded: Vec<Recorded>,
    settings: &Settings,
) -> Result<(Findings, Vec<Recorded>), AllocError>
    ensures { IfOk result (λ made. AreFindings (settings_seen settings.now)
        (map recorded_seen recorded.items) made.0) }
{
    let target = no_target(alloc)?;
    findings_by(alloc, recorded, &target, settings)
}

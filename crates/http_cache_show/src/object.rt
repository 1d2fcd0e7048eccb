//! What is found as one JSON object. Its numbers are integers.
use crate::error::Fallible;
use crate::lines::push_value;
use crate::members::Leaf::{self, Is, Null, Number, Text};
use crate::members::Members;
use crate::words::{act_word, fault_words, reasons, unless_of, why_of};
use http_cache_findings::advice::{Advice, control_of};
use http_cache_findings::findings::{
    Act, Apart, ChangedUrl, ChangingQuery, FaultyUrl, Findings, GoodUrl, Guesses, LaterVisit,
    Loads, SplitUrl, Storing, VisitCost, VisitedUrl,
};
use http_cache_findings::picks::Base;
use http_cache_findings::urls::Life;
use serde_json::Value;
use std::alloc::Global;

// Returns the members of an object.
macro_rules! members {
    ($alloc:expr; $($name:literal: $leaf:expr),+) => {
        leaves($alloc, &[$(($name, $leaf)),+])
    };
}

// Returns an object.
macro_rules! object {
    ($alloc:expr; $($name:literal: $leaf:expr),+) => {
        leaves($alloc, &[$(($name, $leaf)),+])?.into_object()
    };
}

// What has a JSON value.
trait ToJson {
    fn to_json(&self, alloc: Global) -> Fallible<Value>;
}

fn list<T: ToJson>(alloc: Global, items: &[T]) -> Fallible<Value> {
    let mut all = Vec::with_capacity(alloc, items.len())?;
    for item in items {
        all.push(item.to_json(alloc)?)?;
    }
    Ok(Value::Array(all))
}

fn leaves(alloc: Global, all: &[(&'static str, Leaf<'_>)]) -> Fallible<Members> {
    let mut to = Members::new(alloc);
    to.leaves(all)?;
    Ok(to)
}

impl ToJson for u64 {
    fn to_json(&self, _alloc: Global) -> Fallible<Value> {
        Ok(Value::from(*self))
    }
}

impl ToJson for String {
    fn to_json(&self, alloc: Global) -> Fallible<Value> {
        Ok(Value::try_from_str(alloc, self.as_str())?)
    }
}

impl ToJson for Loads {
    fn to_json(&self, alloc: Global) -> Fallible<Value> {
        object!(alloc;
            "page": Text(self.page.as_str()), "of_page": Number(self.of_page),
            "of_others": Number(self.of_others),
            "other": self.other.as_deref().map_or(Null, Text),
            "seconds": Number(self.seconds.min(u64::MAX as u128) as u64))
    }
}

fn joined(alloc: Global, words: (&str, &str)) -> Fallible<String> {
    let mut out = String::from_str(alloc, words.0)?;
    out.push_str(words.1)?;
    Ok(out)
}

// What to send, why, and when not. A Cache-Control that stays the same is null.
impl ToJson for Advice {
    fn to_json(&self, alloc: Global) -> Fallible<Value> {
        let (why, unless) = (
            joined(alloc, why_of(*self))?,
            joined(alloc, unless_of(*self))?,
        );
        let mut to = members!(alloc;
            "etag": Is(self.adds_tag), "answer_304": Is(self.answers_304),
            "why": Text(why.as_str()), "not_if": Text(unless.as_str()))?;
        match control_of(*self) {
            "" => to.add("cache_control", Value::Null)?,
            control => to.text("cache_control", control)?,
        }
        to.into_object()
    }
}

fn advice_value(alloc: Global, advice: Option<Advice>) -> Fallible<Value> {
    match advice {
        Some(advice) => advice.to_json(alloc),
        None => Ok(Value::Null),
    }
}

impl ToJson for ChangedUrl {
    fn to_json(&self, alloc: Global) -> Fallible<Value> {
        let mut to = members!(alloc;
            "url": Text(self.url.as_str()), "says": Text(self.says.as_str()),
            "requests": Number(self.requests), "bytes": Number(self.bytes),
            "cost_now": Number(self.cost.now), "cost_then": Number(self.cost.then),
            "first_load_now": Number(self.first_load.now),
            "first_load_then": Number(self.first_load.then),
            "by_304_now": Number(self.by_304.now), "by_304_then": Number(self.by_304.then))?;
        to.add("send", self.advice.to_json(alloc)?)?;
        to.into_object()
    }
}

impl ToJson for VisitCost {
    fn to_json(&self, alloc: Global) -> Fallible<Value> {
        object!(alloc;
            "bytes": Number(self.bytes), "answers_304": Number(self.confirmed),
            "unknown": Number(self.unknown))
    }
}

impl ToJson for LaterVisit {
    fn to_json(&self, alloc: Global) -> Fallible<Value> {
        let mut to = members!(alloc; "after_seconds": Number(self.after))?;
        to.add("now", self.now.to_json(alloc)?)?;
        to.add("then", self.advised.to_json(alloc)?)?;
        to.into_object()
    }
}

impl ToJson for Act {
    fn to_json(&self, alloc: Global) -> Fallible<Value> {
        Ok(Value::try_from_str(alloc, act_word(*self))?)
    }
}

impl ToJson for VisitedUrl {
    fn to_json(&self, alloc: Global) -> Fallible<Value> {
        let lifetime = match self.life {
            Life::Unknown | Life::NotStored => Null,
            Life::NoCache => Number(0),
            Life::Guessed(seconds) | Life::Given(seconds) => Number(seconds),
        };
        let mut to = members!(alloc;
            "url": Text(self.url.as_str()), "status": Number(self.status as u64),
            "bytes": Number(self.bytes), "lifetime": lifetime,
            "is_guessed": Is(matches!(self.life, Life::Guessed(_))),
            "is_listed": Is(self.is_listed))?;
        to.add("visits", list(alloc, self.acts.as_slice())?)?;
        to.add("send", advice_value(alloc, self.advice)?)?;
        to.into_object()
    }
}

impl ToJson for Guesses {
    fn to_json(&self, alloc: Global) -> Fallible<Value> {
        if self.urls == 0 {
            return Ok(Value::Null);
        }
        let mut to = members!(alloc;
            "urls": Number(self.urls), "bytes": Number(self.bytes),
            "least": Number(self.least), "most": Number(self.most))?;
        to.add("answers_304", list(alloc, self.confirmed.as_slice())?)?;
        to.into_object()
    }
}

// Adds an object for each fault of a url.
fn push_faults(alloc: Global, all: &mut Vec<Value>, url: &FaultyUrl) -> Fallible<()> {
    for fault in url.faults.as_slice() {
        let (words, send) = fault_words(*fault);
        let value = object!(alloc;
            "url": Text(url.url.as_str()), "says": Text(url.says.as_str()),
            "fault": Text(words), "send": Text(send))?;
        all.push(value)?;
    }
    Ok(())
}

fn faults_value(alloc: Global, urls: &[FaultyUrl]) -> Fallible<Value> {
    let mut all = Vec::new(alloc);
    for url in urls {
        push_faults(alloc, &mut all, url)?;
    }
    Ok(Value::Array(all))
}

impl ToJson for ChangingQuery {
    fn to_json(&self, alloc: Global) -> Fallible<Value> {
        object!(alloc;
            "url": Text(self.base.as_str()), "urls": Number(self.urls),
            "cost_now": Number(self.cost.now), "cost_then": Number(self.cost.then))
    }
}

impl ToJson for Storing {
    fn to_json(&self, alloc: Global) -> Fallible<Value> {
        match self {
            Storing::Held(held) => object!(alloc;
                "is_stored": Is(true), "lifetime": Number(held.seconds), "by": Text(held.by),
                "source": held.source.as_deref().map_or(Null, Text), "age": Number(held.age),
                "ttl": Number(held.left)),
            Storing::Refused(refused) => {
                let (method, why) = (refused.method.as_str(), &refused.obstacles);
                let reasons = reasons(alloc, method, refused.status, why)?;
                let mut to = members!(alloc; "is_stored": Is(false))?;
                to.add("reasons", list(alloc, reasons.as_slice())?)?;
                to.into_object()
            }
            Storing::Nothing => Ok(Value::Null),
        }
    }
}

impl ToJson for SplitUrl {
    fn to_json(&self, alloc: Global) -> Fallible<Value> {
        let mut to = members!(alloc; "url": Text(self.url.as_str()))?;
        to.add("browser", self.browser.to_json(alloc)?)?;
        to.add("cdn", self.cdn.to_json(alloc)?)?;
        to.into_object()
    }
}

impl ToJson for GoodUrl {
    fn to_json(&self, alloc: Global) -> Fallible<Value> {
        object!(alloc; "url": Text(self.url.as_str()), "bytes": Number(self.bytes))
    }
}

impl ToJson for Apart {
    fn to_json(&self, alloc: Global) -> Fallible<Value> {
        object!(alloc;
            "what": Text(self.name.as_str()), "requests": Number(self.requests),
            "bytes": Number(self.bytes))
    }
}

// Adds the sums of what was sent, and of what repeated requests save.
fn add_sums(to: &mut Members, alloc: Global, found: &Findings) -> Fallible<()> {
    let (sent, repeated) = (found.sent, found.repeated);
    let sent = object!(alloc;
        "first_load": Number(sent.first_load), "later_loads": Number(sent.later_loads),
        "asked_first_load": Number(sent.asked_first_load),
        "asked_later_loads": Number(sent.asked_later_loads))?;
    let repeated = object!(alloc;
        "requests": Number(repeated.requests), "fresh": Number(repeated.fresh),
        "saved": Number(repeated.saved))?;
    to.add("sent", sent)?;
    to.add("repeated", repeated)
}

// Adds the lists of urls.
fn add_lists(to: &mut Members, alloc: Global, found: &Findings) -> Fallible<()> {
    to.add("changes", list(alloc, found.changes.as_slice())?)?;
    to.add("visits", list(alloc, found.visits.as_slice())?)?;
    to.add("visited", list(alloc, found.visited.as_slice())?)?;
    to.add("wrong", faults_value(alloc, found.faults.as_slice())?)?;
    to.add("queries", list(alloc, found.queries.as_slice())?)?;
    to.add("split", list(alloc, found.split.as_slice())?)?;
    to.add("kept", list(alloc, found.kept.as_slice())?)?;
    to.add("checked", list(alloc, found.checked.as_slice())?)?;
    to.add("not_judged", list(alloc, found.apart.as_slice())?)
}

/// Returns what is found as one JSON object, on a line.
pub fn object(alloc: Global, found: &Findings) -> Fallible<String> {
    let base = match found.base {
        Base::Later => "later_loads",
        Base::Visit => "visit",
    };
    let mut to = members!(alloc;
        "cache": Text(if found.is_shared { "shared" } else { "private" }), "base": Text(base),
        "base_bytes": Number(found.all), "cache_off": Is(found.cache_off),
        "no_credentials": Is(found.no_credentials))?;
    to.add("loads", found.loads.to_json(alloc)?)?;
    add_sums(&mut to, alloc, found)?;
    add_lists(&mut to, alloc, found)?;
    to.add("guesses", found.guesses.to_json(alloc)?)?;
    let mut out = String::new(alloc);
    push_value(alloc, &mut out, &to.into_object()?)?;
    Ok(out)
}

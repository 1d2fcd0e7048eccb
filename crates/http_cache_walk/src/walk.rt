//! Walks the entries of a recording in order, with what a cache would have done with each.
ghost use Rattle.std.specs.Prelude.{◌≡◌, ◌<◌, ◌++◌, [], length, map, option_map, is_some, slice_get, string_bytes, true, false};
ghost use Rattle.std.specs.Prelude.{IfOk, IfSome, OnOk, nat_lt, cond, bytes_eq, List, ℕ, Some, None, ◌&&◌};
ghost use Rattle.http_cache_fields.specs.Headers.{headers_of, value_count};
ghost use Rattle.http_cache_semantics.specs.Messages.{response_seen};
ghost use Rattle.http_cache_semantics.specs.Options.{options_of};
ghost use Rattle.http_cache_recording.specs.Entry.{recorded_seen, entry_seen, answer_seen, body_seen, received as from_network};
ghost use Rattle.http_cache_walk.specs.Row.{row_seen, audit_verdict_seen, received_seen, updated};
ghost use Rattle.http_cache_walk.specs.Lifetime.{kept_of};
ghost use Rattle.http_cache_walk.specs.Order.{sent_seen, target_of};
ghost use Rattle.http_cache_walk.specs.Sources.{sources_seen, is_asked};
ghost use Rattle.http_cache_walk.specs.Assume.{assumed_seen};
ghost use Rattle.http_cache_walk.specs.Stored.{stored_seen, forbidden_by, put_first};
ghost use Rattle.http_cache_walk.specs.Walk.{walk_seen, received_apart, invalidates, verdict_with, assumed_by_own, asked_of, body_at};
ghost use Rattle.http_cache_walk.specs.Walk.{receipt_of, used_fresh, asked_about, missed, judged, seed_of, judged_cached};
ghost use Rattle.http_cache_walk.specs.Walk.{confirmed_own, judged_own, shows, judged_all, key_of, key_in, walked_in};
ghost use Rattle.http_cache_walk.specs.Walk.{asked_row, asked_row_on, passed_row, row_on, left_under, shelf_at, on_shelf, is_of_target, judgement_of, asks_store};
ghost use Rattle.http_cache_walk.specs.Walk.{rows_of, skipped_rows, skipped_rows_at, AreRows, left_by_passed, left_by_asked, refused};

use crate::again::{again_by_own, again_of};
use crate::assume::AssumedRequest;
use crate::lifetime::kept_of;
use crate::order::{Sent, walk_of};
use crate::own::{has_own_condition, received_of, shown_by};
use crate::row::{AuditVerdict, Demand, Outcome, Received, Row};
use crate::sources::Sources;
use crate::stored::{
    Chosen, Stored, choose, policy_of, receive_304, receive_full, receive_own_304, store,
    stored_at, validator_of, varies_by_all,
};
use crate::texts::{put, take};
use http::{HeaderMap, Uri, response};
use http_cache_fields::pragma::pragma_forbids;
use http_cache_fields::reading::says;
use http_cache_recording::{Answer, Body, Entry, Kind, Reading, Recorded};
use http_cache_semantics::CacheOptions;
use http_header::HeaderName;
use jiff::Timestamp;
use std::alloc::{AllocError, Global};
use std::collections::BTreeMap;

/// How a recording is walked.
#[derive(Clone, Copy)]
struct Walk<'a> {
    alloc: Global,
    recorded: &'a [Recorded],
    options: CacheOptions,
    // One target for all requests, since each list of stored responses has one.
    target: &'a Uri,
}

/// By method and target.
type Shelves = BTreeMap<String, Vec<Stored>>;

fn received_apart(entry: &Entry) -> Received
    ensures { received_seen result ≡ received_apart (answer_seen entry.now.answer) }
{
    match &entry.answer {
        Answer::Failed => Received::Failed,
        Answer::Cached(_) => Received::Browser,
        Answer::Received(_) => Received::Passed,
    }
}

// RFC 7234, section 4.4.
#[tactic(auto, unfolding(crate::specs::Walk::invalidates))]
fn invalidates(entry: &Entry) -> bool
    ensures { result ≡ invalidates (entry_seen entry.now) }
{
    let Answer::Received(response) = &entry.answer else {
        return false;
    };
    let method = entry.method.as_str();
    let status = response.status.as_u16();
    matches!(entry.kind, Kind::Passed)
        && method != "OPTIONS"
        && method != "TRACE"
        && status >= 200
        && status < 400
}

fn key_of(alloc: Global, method: &str, target: &str) -> Result<String, AllocError>
    ensures { IfOk result (λ key. string_bytes key ≡ key_of method.now target.now) }
{
    let mut key = String::from_str(alloc, method)?;
    key.push_str(" ")?;
    key.push_str(target)?;
    Ok(key)
}

// It returns the number of removed responses.
fn clear(
    alloc: Global,
    shelves: &mut Shelves,
    method: &str,
    target: &str,
) -> Result<usize, AllocError>
    ensures count { IfOk result (λ n. n
        ≡ length (on_shelf (shelf_at shelves.old (key_of method.now target.now)))) }
    ensures cleared { OnOk result ((key : List ℕ) → shelf_at shelves.new key
        ≡ cond (bytes_eq (key_of method.now target.now) key)
        (option_map (λ _. []) (shelf_at shelves.old key)) (shelf_at shelves.old key)) }
{
    let key = key_of(alloc, method, target)?;
    let Some(list) = take(shelves, key.as_str()) else {
        return Ok(0);
    };
    put(shelves, key, Vec::new(alloc))?;
    Ok(list.len())
}

fn is_asked(entry: &Entry) -> bool
    ensures { result ≡ is_asked (entry_seen entry.now).kind }
{
    matches!(entry.kind, Kind::Asked)
}

// It is asked for requests that it could answer, and for those without a whole response.
fn asks_store(entry: &Entry) -> bool
    ensures { result ≡ asks_store (entry_seen entry.now).kind }
{
    matches!(entry.kind, Kind::Asked | Kind::Failed)
}

// It also returns whether an earlier request had the key.
fn take_stored(alloc: Global, shelves: &mut Shelves, key: &str) -> (Vec<Stored>, bool)
    ensures stored { map stored_seen result.0.items ≡ on_shelf (shelf_at shelves.old key.now) }
    ensures is_known { result.1 ≡ is_some (shelf_at shelves.old key.now) }
    ensures left { (at : List ℕ) → shelf_at shelves.new at
        ≡ cond (bytes_eq key.now at) None (shelf_at shelves.old at) }
{
    match take(shelves, key) {
        Some(stored) => (stored, true),
        None => (Vec::new(alloc), false),
    }
}

fn put_stored(
    shelves: &mut Shelves,
    key: String,
    stored: Vec<Stored>,
    keeps: bool,
) -> Result<(), AllocError>
    ensures { OnOk result ((at : List ℕ) → shelf_at shelves.new at
        ≡ cond (keeps && bytes_eq (string_bytes key) at) (Some (map stored_seen stored.items))
        (shelf_at shelves.old at)) }
{
    if keeps {
        put(shelves, key, stored)?;
    }
    Ok(())
}

fn verdict_with(alloc: Global, outcome: Outcome, received: Received) -> AuditVerdict
    ensures { audit_verdict_seen result ≡ verdict_with outcome (received_seen received) }
{
    AuditVerdict {
        outcome,
        used: None,
        demand: None,
        validator: None,
        missed_by: Vec::new(alloc),
        received,
        again: None,
        seeded: false,
    }
}

fn copy_of_names(alloc: Global, names: &[HeaderName]) -> Result<Vec<HeaderName>, AllocError>
    ensures { IfOk result (λ copy. copy.items ≡ names.now) }
{
    let mut copy = Vec::with_capacity(alloc, names.len())?;
    for name in names {
        copy.push(name.clone()?)?;
    }
    Ok(copy)
}

fn texts_of(alloc: Global, names: &[HeaderName]) -> Result<Vec<String>, AllocError>
    ensures { IfOk result (λ texts. map string_bytes texts.items ≡ names.now) }
{
    let mut texts = Vec::with_capacity(alloc, names.len())?;
    for name in names {
        texts.push(String::from_str(alloc, name.as_str())?)?;
    }
    Ok(texts)
}

fn has_values(headers: &HeaderMap) -> bool
    ensures { result ≡ nat_lt 0 (value_count (headers_of headers.now)) }
{
    headers.len() > 0
}

fn shows(response: &response::Parts) -> bool
    ensures { result ≡ shows (response_seen response.now) }
{
    response.status.as_u16() != 304 && has_values(&response.headers)
}

// A 304 confirmed the newest stored response.
fn confirmed(alloc: Global, stored: &[Stored], now: Timestamp) -> Result<Received, AllocError>
    ensures { IfOk result (λ received. IfSome (slice_get (map stored_seen stored.now) 0)
        (λ s. received_seen received ≡ updated (kept_of s.exchange now.nanosecond))) }
{
    match stored.first() {
        Some(one) => Ok(Received::Updated(kept_of(alloc, &one.policy, now)?)),
        None => Ok(Received::NothingStored),
    }
}

impl<'a> Walk<'a> {
    fn assume_own(
        &self,
        asked: &mut AssumedRequest<'a>,
        stored: &[Stored],
        sent: &Sent<'a>,
        sources: &Sources<'a>,
    ) -> Result<(), AllocError>
        ensures { OnOk result (assumed_seen asked.new ≡ assumed_by_own
            (walked_in (sources_seen sources.now) (sent_seen sent.now)) (assumed_seen asked.old)
            (map stored_seen stored.now) (answer_seen sent.now.entry.now.answer)) }
    {
        match &sent.entry.answer {
            Answer::Cached(response) if stored.is_empty() => {
                asked.assume(self.alloc, sources, sent.target(), &response.headers)
            }
            _ => Ok(()),
        }
    }

    // A recording may lack headers of requests that didn't use the network.
    #[tactic(auto, unfolding(crate::specs::Walk::asked_of))]
    fn asked(
        &self,
        stored: &[Stored],
        sent: &Sent<'a>,
        sources: &Sources<'a>,
    ) -> Result<AssumedRequest<'a>, AllocError>
        ensures { IfOk result (λ a. assumed_seen a ≡ asked_of (walk_seen self.now)
            (walked_in (sources_seen sources.now) (sent_seen sent.now)) (map stored_seen stored.now)) }
    {
        let (alloc, entry) = (self.alloc, sent.entry);
        let mut asked = AssumedRequest::new(alloc, self.target, &entry.method, &entry.headers)?;
        if let Answer::Received(_) = &entry.answer {
            return Ok(asked);
        }
        for one in stored {
            asked.assume(alloc, sources, sent.target(), one.policy.stored_headers())?;
        }
        self.assume_own(&mut asked, stored, sent, sources)?;
        Ok(asked)
    }

    #[tactic(auto, unfolding(crate::specs::Walk::body_at))]
    fn body_at(&self, index: usize) -> Option<&'a Body>
        ensures { option_map (λ b. body_seen b.now) result ≡ body_at (walk_seen self.now) index }
    {
        match &self.recorded.get(index)?.reading {
            Reading::Entry(entry) => entry.body.as_ref(),
            Reading::Skipped(_) => None,
        }
    }

    // A stored response wasn't used without validation.
    #[tactic(auto, unfolding(crate::specs::Walk::receipt_of))]
    fn receive(
        &self,
        stored: &mut Vec<Stored>,
        sent: &Sent<'_>,
        asked: &AssumedRequest<'_>,
        index: Option<usize>,
    ) -> Result<Received, AllocError>
        requires { IfSome index (λ at. at < length stored.old.items) }
        ensures { IfOk result (λ received. (map stored_seen stored.new.items, received_seen received)
            ≡ receipt_of (walk_seen self.now) (sent_seen sent.now) (assumed_seen asked.now)
            (answer_seen sent.now.entry.now.answer) index (map stored_seen stored.old.items)) }
    {
        let (alloc, now) = (self.alloc, sent.entry.received);
        let response = match &sent.entry.answer {
            Answer::Failed => return Ok(Received::Failed),
            Answer::Cached(_) => return Ok(Received::Browser),
            Answer::Received(response) => response,
        };
        if response.status.as_u16() != 304 {
            return receive_full(alloc, stored, sent, asked, response, self.options);
        }
        match index {
            Some(index) => receive_304(alloc, stored, index, asked, response, now),
            None => receive_own_304(alloc, stored, asked, response, now),
        }
    }

    #[tactic(auto, unfolding(crate::specs::Walk::used_fresh))]
    fn use_fresh(&self, one: &Stored, entry: &Entry) -> Result<AuditVerdict, AllocError>
        ensures { IfOk result (λ verdict. audit_verdict_seen verdict
            ≡ used_fresh (stored_seen one.now) (entry_seen entry.now)) }
    {
        let received = match &entry.answer {
            Answer::Failed => Received::Failed,
            _ => Received::Nothing,
        };
        Ok(AuditVerdict {
            used: Some(one.used(self.alloc, entry.started)?),
            ..verdict_with(self.alloc, Outcome::Fresh, received)
        })
    }

    #[tactic(auto, unfolding(crate::specs::Walk::asked_about))]
    fn ask_about(
        &self,
        stored: &mut Vec<Stored>,
        sent: &Sent<'_>,
        asked: &AssumedRequest<'_>,
        chosen: Chosen,
    ) -> Result<AuditVerdict, AllocError>
        requires { chosen.index < length stored.old.items }
        ensures { IfOk result (λ verdict. IfSome
            (slice_get (map stored_seen stored.old.items) chosen.index) (λ s.
            (audit_verdict_seen verdict, map stored_seen stored.new.items)
            ≡ asked_about (walk_seen self.now) (sent_seen sent.now)
            (assumed_seen asked.now) chosen s
            (map stored_seen stored.old.items))) }
    {
        let one = stored_at(stored.as_slice(), chosen.index);
        let used = one.used(self.alloc, sent.entry.started)?;
        let validator = validator_of(one.policy.stored_headers());
        let again = match &sent.entry.answer {
            Answer::Received(response) if response.status.as_u16() != 304 => Some(again_of(
                &one.policy,
                self.body_at(one.from),
                sent.entry,
                response,
            )),
            _ => None,
        };
        let received = self.receive(stored, sent, asked, Some(chosen.index))?;
        let outcome = match validator {
            Some(_) => Outcome::Validate,
            None => Outcome::Refetch,
        };
        Ok(AuditVerdict {
            used: Some(used),
            demand: chosen.demand,
            validator,
            again,
            ..verdict_with(self.alloc, outcome, received)
        })
    }

    #[tactic(auto, unfolding(crate::specs::Walk::missed))]
    fn miss(
        &self,
        stored: &mut Vec<Stored>,
        sent: &Sent<'_>,
        asked: &AssumedRequest<'_>,
    ) -> Result<AuditVerdict, AllocError>
        ensures { IfOk result
            (λ verdict. (audit_verdict_seen verdict, map stored_seen stored.new.items)
            ≡ missed (walk_seen self.now) (sent_seen sent.now) (assumed_seen asked.now)
            (map stored_seen stored.old.items)) }
    {
        let (outcome, missed_by) = match stored.first() {
            Some(newest) => (Outcome::MissVary, newest.differing(self.alloc, asked)?),
            None => (Outcome::Miss, Vec::new(self.alloc)),
        };
        let received = self.receive(stored, sent, asked, None)?;
        Ok(AuditVerdict {
            missed_by,
            ..verdict_with(self.alloc, outcome, received)
        })
    }

    #[tactic(auto, unfolding(crate::specs::Walk::judged))]
    fn judge(
        &self,
        stored: &mut Vec<Stored>,
        sent: &Sent<'_>,
        asked: &AssumedRequest<'_>,
    ) -> Result<AuditVerdict, AllocError>
        ensures { IfOk result
            (λ verdict. (audit_verdict_seen verdict, map stored_seen stored.new.items)
            ≡ judged (walk_seen self.now) (sent_seen sent.now) (assumed_seen asked.now)
            (map stored_seen stored.old.items)) }
    {
        match choose(self.alloc, stored.as_slice(), asked, sent.entry.started)? {
            Some(chosen) => if chosen.is_fresh {
                self.use_fresh(&stored[chosen.index], sent.entry)
            } else {
                self.ask_about(stored, sent, asked, chosen)
            },
            None => self.miss(stored, sent, asked),
        }
    }

    // Stores a response that was stored before the recording began, or returns the verdict if it
    // may not be stored.
    #[tactic(auto, unfolding(crate::specs::Walk::refused))]
    fn seed(
        &self,
        stored: &mut Vec<Stored>,
        sent: &Sent<'_>,
        asked: &AssumedRequest<'_>,
        response: &response::Parts,
        received: Timestamp,
    ) -> Result<Option<AuditVerdict>, AllocError>
        ensures verdict { IfOk result (λ found. option_map audit_verdict_seen found
            ≡ refused (seed_of (walk_seen self.now) (sent_seen sent.now) (assumed_seen asked.now)
            (response_seen response.now) received.nanosecond).exchange) }
        ensures stored { IfOk result (λ found. map stored_seen stored.new.items ≡ cond (is_some found)
            (map stored_seen stored.old.items) (put_first (seed_of (walk_seen self.now)
            (sent_seen sent.now) (assumed_seen asked.now) (response_seen response.now)
            received.nanosecond) (map stored_seen stored.old.items))) }
    {
        let one = Stored {
            policy: policy_of(self.alloc, asked, response, received, self.options)?,
            unknown: copy_of_names(self.alloc, asked.unknown.as_slice())?,
            from: sent.index,
            sent: None,
        };
        match store(stored, one)? {
            Some(obstacles) => {
                let received = Received::NotStorable(obstacles);
                Ok(Some(verdict_with(self.alloc, Outcome::Miss, received)))
            }
            None => Ok(None),
        }
    }

    // Nothing is stored, so the browser had the response before.
    #[tactic(auto, unfolding(crate::specs::Walk::judged_cached))]
    fn judge_cached(
        &self,
        stored: &mut Vec<Stored>,
        sent: &Sent<'_>,
        asked: &AssumedRequest<'_>,
        response: &response::Parts,
    ) -> Result<AuditVerdict, AllocError>
        requires { stored.old.items ≡ [] }
        ensures { IfOk result
            (λ verdict. (audit_verdict_seen verdict, map stored_seen stored.new.items)
            ≡ judged_cached (walk_seen self.now) (sent_seen sent.now) (assumed_seen asked.now)
            (response_seen response.now)) }
    {
        let received = received_of(self.alloc, &response.headers, sent.entry.started)?;
        if let Some(verdict) = self.seed(stored, sent, asked, response, received)? {
            return Ok(verdict);
        }
        Ok(AuditVerdict {
            seeded: true,
            ..self.judge(stored, sent, asked)?
        })
    }

    #[tactic(auto, unfolding(crate::specs::Walk::confirmed_own))]
    fn confirm_own(
        &self,
        stored: &mut Vec<Stored>,
        sent: &Sent<'_>,
        asked: &AssumedRequest<'_>,
        response: &response::Parts,
    ) -> Result<AuditVerdict, AllocError>
        requires { stored.old.items ≡ [] }
        ensures { IfOk result
            (λ verdict. (audit_verdict_seen verdict, map stored_seen stored.new.items)
            ≡ confirmed_own (walk_seen self.now) (sent_seen sent.now) (assumed_seen asked.now)
            (response_seen response.now)) }
    {
        let shown = shown_by(sent.entry, response)?;
        let now = sent.entry.received;
        if let Some(verdict) = self.seed(stored, sent, asked, &shown, now)? {
            return Ok(verdict);
        }
        let received = confirmed(self.alloc, stored.as_slice(), now)?;
        Ok(AuditVerdict {
            demand: Some(Demand::Condition),
            validator: validator_of(&shown.headers),
            seeded: true,
            ..verdict_with(self.alloc, Outcome::Validate, received)
        })
    }

    #[tactic(auto, unfolding(crate::specs::Walk::judged_own))]
    fn judge_own(
        &self,
        stored: &mut Vec<Stored>,
        sent: &Sent<'_>,
        asked: &AssumedRequest<'_>,
        response: &response::Parts,
    ) -> Result<AuditVerdict, AllocError>
        requires empty { stored.old.items ≡ [] }
        requires response { answer_seen sent.now.entry.now.answer
            ≡ from_network (response_seen response.now) }
        ensures { IfOk result
            (λ verdict. (audit_verdict_seen verdict, map stored_seen stored.new.items)
            ≡ judged_own (walk_seen self.now) (sent_seen sent.now) (assumed_seen asked.now)
            (response_seen response.now)) }
    {
        if response.status.as_u16() == 304 {
            return if varies_by_all(&response.headers) {
                self.judge(stored, sent, asked)
            } else {
                self.confirm_own(stored, sent, asked, response)
            };
        }
        let received = self.receive(stored, sent, asked, None)?;
        Ok(AuditVerdict {
            demand: Some(Demand::Condition),
            again: Some(again_by_own(&sent.entry.headers, response, sent.entry.received)),
            seeded: true,
            ..verdict_with(self.alloc, Outcome::Validate, received)
        })
    }

    #[tactic(auto, unfolding(crate::specs::Walk::judged_all))]
    fn judge_all(
        &self,
        stored: &mut Vec<Stored>,
        sent: &Sent<'_>,
        asked: &AssumedRequest<'_>,
    ) -> Result<AuditVerdict, AllocError>
        ensures { IfOk result
            (λ verdict. (audit_verdict_seen verdict, map stored_seen stored.new.items)
            ≡ judged_all (walk_seen self.now) (sent_seen sent.now) (assumed_seen asked.now)
            (map stored_seen stored.old.items)) }
    {
        match &sent.entry.answer {
            Answer::Cached(response) if stored.is_empty() && shows(response) => {
                self.judge_cached(stored, sent, asked, response)
            }
            Answer::Received(response) if stored.is_empty() && has_own_condition(sent.entry) => {
                self.judge_own(stored, sent, asked, response)
            }
            _ => self.judge(stored, sent, asked),
        }
    }

    fn asked_row(
        &self,
        stored: &mut Vec<Stored>,
        is_known: bool,
        sources: &Sources<'a>,
        sent: &Sent<'a>,
    ) -> Result<Row<'a>, AllocError>
        ensures row { IfOk result (λ row. row_seen row
            ≡ asked_row (walk_seen self.now) is_known (map stored_seen stored.old.items)
            (walked_in (sources_seen sources.now) (sent_seen sent.now))) }
        ensures left { OnOk result (map stored_seen stored.new.items
            ≡ (judgement_of (walk_seen self.now) (walked_in (sources_seen sources.now)
            (sent_seen sent.now)) (map stored_seen stored.old.items)).1) }
    {
        let (alloc, entry) = (self.alloc, sent.entry);
        let asked = self.asked(stored.as_slice(), sent, sources)?;
        let verdict = self.judge_all(stored, sent, &asked)?;
        Ok(Row {
            index: sent.index,
            recorded: sent.recorded,
            assumed: texts_of(alloc, asked.assumed.as_slice())?,
            repeated: is_asked(entry) && (is_known || verdict.seeded),
            no_cache: says(&entry.headers, "no-cache") || pragma_forbids(&entry.headers),
            invalidated: 0,
            verdict: Some(verdict),
        })
    }

    fn ask(
        &self,
        shelves: &mut Shelves,
        sources: &Sources<'a>,
        sent: &Sent<'a>,
    ) -> Result<Row<'a>, AllocError>
        ensures row { IfOk result (λ row. row_seen row ≡ asked_row_on (walk_seen self.now)
            (shelf_at shelves.old (key_in (sent_seen sent.now)))
            (walked_in (sources_seen sources.now) (sent_seen sent.now))) }
        ensures left { OnOk result ((key : List ℕ) → shelf_at shelves.new key
            ≡ cond (bytes_eq (key_in (sent_seen sent.now)) key) (left_by_asked
            (walk_seen self.now) (walked_in (sources_seen sources.now) (sent_seen sent.now))
            (shelf_at shelves.old (key_in (sent_seen sent.now)))) (shelf_at shelves.old key)) }
    {
        let key = key_of(self.alloc, sent.entry.method.as_str(), sent.target())?;
        let (mut stored, is_known) = take_stored(self.alloc, shelves, key.as_str());
        let row = self.asked_row(&mut stored, is_known, sources, sent)?;
        let keeps = is_asked(sent.entry) || is_known;
        put_stored(shelves, key, stored, keeps)?;
        Ok(row)
    }

    fn pass(&self, shelves: &mut Shelves, sent: &Sent<'a>) -> Result<Row<'a>, AllocError>
        ensures row { IfOk result (λ row. row_seen row
            ≡ passed_row (shelf_at shelves.old) (sent_seen sent.now)) }
        ensures left { OnOk result ((key : List ℕ) → shelf_at shelves.new key
            ≡ left_by_passed key (sent_seen sent.now) (shelf_at shelves.old key)) }
    {
        let alloc = self.alloc;
        let mut invalidated = 0;
        if invalidates(sent.entry) {
            invalidated = clear(alloc, shelves, "GET", sent.target())?.saturating_add(clear(
                alloc,
                shelves,
                "HEAD",
                sent.target(),
            )?);
        }
        Ok(Row {
            index: sent.index,
            recorded: sent.recorded,
            assumed: Vec::new(alloc),
            verdict: Some(verdict_with(alloc, Outcome::Apart, received_apart(sent.entry))),
            repeated: false,
            no_cache: false,
            invalidated,
        })
    }

    fn row(
        &self,
        shelves: &mut Shelves,
        sources: &Sources<'a>,
        sent: &Sent<'a>,
    ) -> Result<Row<'a>, AllocError>
        ensures row { IfOk result (λ row. row_seen row ≡ row_on (walk_seen self.now)
            (shelf_at shelves.old) (walked_in (sources_seen sources.now) (sent_seen sent.now))) }
        ensures left { OnOk result ((key : List ℕ) → shelf_at shelves.new key
            ≡ left_under (walk_seen self.now) key (shelf_at shelves.old key)
            (walked_in (sources_seen sources.now) (sent_seen sent.now))) }
    {
        if asks_store(sent.entry) {
            self.ask(shelves, sources, sent)
        } else {
            self.pass(shelves, sent)
        }
    }

    fn rows(&self, sent: &[Sent<'a>]) -> Result<Vec<Row<'a>>, AllocError>
        ensures { IfOk result (λ rows. map row_seen rows.items
            ≡ rows_of (walk_seen self.now) (map sent_seen sent.now)) }
    {
        let mut shelves = BTreeMap::new(self.alloc);
        let mut sources = Sources::new(self.alloc);
        let mut rows = Vec::with_capacity(self.alloc, sent.len())?;
        for one in sent {
            rows.push(self.row(&mut shelves, &sources, one)?)?;
            sources.add(self.alloc, one)?;
        }
        Ok(rows)
    }
}

fn push_if_skipped<'a>(
    alloc: Global,
    rows: &mut Vec<Row<'a>>,
    index: usize,
    recorded: &'a Recorded,
) -> Result<(), AllocError>
    ensures { OnOk result (map row_seen rows.new.items ≡ map row_seen rows.old.items
        ++ skipped_rows_at (index, recorded_seen recorded.now)
        (recorded_seen recorded.now).reading) }
{
    match &recorded.reading {
        Reading::Entry(_) => Ok(()),
        Reading::Skipped(_) => Ok(rows.push(Row {
            index,
            recorded,
            assumed: Vec::new(alloc),
            verdict: None,
            repeated: false,
            no_cache: false,
            invalidated: 0,
        })?),
    }
}

fn push_skipped<'a>(
    alloc: Global,
    rows: &mut Vec<Row<'a>>,
    recorded: &'a [Recorded],
) -> Result<(), AllocError>
    ensures { OnOk result (map row_seen rows.new.items
        ≡ map row_seen rows.old.items ++ skipped_rows (map recorded_seen recorded.now)) }
{
    for index in 0..recorded.len() {
        push_if_skipped(alloc, rows, index, &recorded[index])?;
    }
    Ok(())
}

/// Returns the rows of a recording: its entries in the order of the walk, then those that aren't
/// audited.
///
/// The only error is out of memory.
pub fn rows_of<'a>(
    alloc: Global,
    recorded: &'a [Recorded],
    target: &'a Uri,
    options: CacheOptions,
) -> Result<Vec<Row<'a>>, AllocError>
    ensures { IfOk result (λ rows. AreRows (record {
      recorded = map recorded_seen recorded.now;
      options = options_of options;
      target = target.now;
    }) (map row_seen rows.items)) }
{
    let walk = Walk {
        alloc,
        recorded,
        options,
        target,
    };
    let sent = walk_of(alloc, recorded)?;
    let mut rows = walk.rows(sent.as_slice())?;
    push_skipped(alloc, &mut rows, recorded)?;
    Ok(rows)
}

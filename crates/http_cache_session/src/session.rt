//! The state between frames, and the reply to each frame.
ghost use Rattle.std.specs.Prelude.{◌≡◌, ◌⊎◌, ℕ, true, false, Some, None, codes, IfOk, IfErr, OnErr};
ghost use Rattle.serde_json.specs.View.{view};
ghost use Rattle.http_cache_frames.specs.Line.{number_under};
ghost use Rattle.http_cache_store.specs.Store.{KeepsAll};
ghost use Rattle.http_cache_wire.specs.Wire.{IsRefused, IsRefusal, IsReplyFor, given_token, reply_id};
ghost use Rattle.http_cache_wire.specs.Wire.{HandsOver, HasRest, IsPlain, asks_for_body};
ghost use Rattle.http_cache_session.specs.Session.{GivesNext, KeepsUnderWay, Ends};
ghost use Rattle.http_cache_session.specs.Session.{IsOnlyCheck, NamesUnderWay};
ghost use Rattle.http_cache_errands.specs.UnderWay.{id_at, are_validating, validated_at};
ghost use Rattle.http_cache_errands.specs.Void.{is_void};
ghost use Rattle.http_cache_session.specs.State.{store_of, next_token, id_under_way};
ghost use Rattle.http_cache_session.specs.State.{is_being_validated, is_outdated, validated_under_way};

use http::{Method, Response};
use http_cache_client::{Body, Client};
use http_cache_errands::{Invalidations, UnderWays};
use http_cache_frames::{Counts, Frame, Lost, Notice, Reason, Reply, text_under};
use http_cache_intermediary::Intermediary;
use http_cache_store::Store;
use http_cache_wire::fault::Fault;
use http_cache_wire::message::time_of;
use http_cache_wire::operation::{Operation, id_of, token_of};
use http_cache_wire::parts::{Written, written_response};
use http_cache_wire::target::targets_of;
use serde_json::Value;
use std::alloc::Global;
use std::hash::RandomState;

/// The settings of a session.
#[derive(Drop)]
pub struct Settings {
    /// The keys of the header maps of requests and responses.
    pub keys: RandomState,
    /// The intermediary, if the caller is one.
    pub intermediary: Option<Intermediary>,
    /// The greatest number of requests under way.
    pub requests: usize,
    /// The length of the longest body that is collected to be stored.
    pub stored_body: u64,
}

/// The amount that a store stores.
#[derive(Clone, Copy, Debug, PartialEq, Eq)]
pub struct Stored {
    /// The number of responses.
    pub responses: u64,
    /// What they count for the limit of bytes.
    pub bytes: u64,
    /// The number of removed responses whose files couldn't be removed, if the store is failing.
    pub failing: Option<u64>,
}

/// A caching client over a store, and the requests under way.
#[derive(Drop)]
pub struct Session<S: Drop> {
    pub(crate) client: Client<S>,
    pub(crate) settings: Settings,
    pub(crate) under_way: UnderWays,
    pub(crate) invalidations: Invalidations,
    pub(crate) counts: Counts,
}

pub(crate) fn more(count: &mut u64) {
    *count = count.saturating_add(1);
}

impl<S: Store + Drop> Session<S> {
    /// Returns a session with nothing under way.
    pub fn new(alloc: Global, client: Client<S>, settings: Settings) -> Session<S>
        ensures store { store_of result ≡ client.store }
        ensures next { next_token result ≡ 1 }
        ensures none { (token : ℕ) → id_under_way result token ≡ None }
    {
        Session {
            client,
            under_way: UnderWays::new(alloc),
            invalidations: Invalidations::new(alloc),
            settings,
            counts: Counts::default(),
        }
    }

    /// Returns the store, and drops the session.
    pub fn into_store(self) -> S
        ensures { result ≡ store_of self }
    {
        let Session { client, .. } = self;
        client.into_store()
    }

    pub(crate) fn written(
        &self,
        alloc: Global,
        method: &Method,
        response: Response<Body>,
    ) -> Result<Written, Fault> {
        let intermediary = self.settings.intermediary.as_ref();
        Ok(written_response(alloc, intermediary, method, response)?)
    }

    fn remove(&mut self, alloc: Global, id: u64, line: &Value) -> Result<Reply, Fault>
        ensures reply { IfOk result (IsReplyFor id) }
        ensures none { IfOk result (λ reply. given_token reply ≡ None) }
        ensures kept { OnErr result (KeepsAll (S.stored self.old.client.store)
            (S.next_id self.old.client.store)
            (S.stored self.new.client.store) (S.next_id self.new.client.store)) }
        ensures next_id { S.next_id self.new.client.store ≡ S.next_id self.old.client.store }
        ensures under_way { self.new.under_way ≡ self.old.under_way }
    {
        let Some(text) = text_under(line, "target") else {
            return Err(Fault::Refused(Reason::NoTarget));
        };
        let targets = targets_of(alloc, text)?;
        let responses = self.client.remove(&targets) as u64;
        self.invalidate(alloc, &targets);
        Ok(Reply::Notice(Notice::Removed { id, responses }))
    }

    fn sweep(&mut self, id: u64, line: &Value) -> Result<Reply, Fault>
        ensures reply { IfOk result (IsReplyFor id) }
        ensures none { IfOk result (λ reply. given_token reply ≡ None) }
        ensures kept { OnErr result (KeepsAll (S.stored self.old.client.store)
            (S.next_id self.old.client.store)
            (S.stored self.new.client.store) (S.next_id self.new.client.store)) }
        ensures next_id { S.next_id self.new.client.store ≡ S.next_id self.old.client.store }
        ensures under_way { self.new.under_way ≡ self.old.under_way }
    {
        let removed = self.client.sweep(time_of(line)?) as u64;
        Ok(Reply::Notice(Notice::Swept { id, removed }))
    }

    fn counts(&self, stored: Stored) -> Counts {
        Counts {
            responses: stored.responses,
            bytes: stored.bytes,
            failing: stored.failing,
            under_way: self.under_way.len() as u64,
            ..self.counts
        }
    }

    fn reply_to(
        &mut self,
        alloc: Global,
        operation: Operation,
        frame: Frame,
        stored: Stored,
    ) -> Result<Reply, Fault>
        ensures kept { IfErr result (λ fault. IsRefused fault
            → KeepsAll (S.stored self.old.client.store) (S.next_id self.old.client.store)
            (S.stored self.new.client.store) (S.next_id self.new.client.store)) }
        ensures rest { HasRest (view frame.line)
            → S.next_id self.new.client.store ≡ S.next_id self.old.client.store }
        ensures under_way { IfErr result (λ fault. IsRefused fault
            → KeepsUnderWay self.old.under_way self.new.under_way) }
        ensures next { IfOk result (λ reply. GivesNext (given_token reply)
            self.old.under_way.next_token self.new.under_way.next_token) }
        ensures reply { IfOk result (λ reply. ¬ (IsRefusal reply)) }
        ensures id { (id : ℕ) → operation ≡ Operation.Ask id
            → IfOk result (λ reply. reply_id reply ≡ Some id) }
        ensures waits { (id : ℕ) → operation ≡ Operation.Ask id
            → IfOk result (λ reply. NamesUnderWay reply (id_at self.old.under_way.by_token)) }
        ensures only { (id : ℕ) → operation ≡ Operation.Ask id
            → IfOk result (λ reply. IsOnlyCheck reply
            (λ one. are_validating one self.old.under_way.by_token)
            (validated_at self.new.under_way.by_token)) }
        ensures outdated { (token : ℕ)
            → (operation ≡ Operation.Received (Some token))
            ⊎ (operation ≡ Operation.Failed (Some token))
            ⊎ (operation ≡ Operation.Complete (Some token))
            → is_void self.old.invalidations self.old.under_way.by_token token ≡ true
            → S.next_id self.new.client.store ≡ S.next_id self.old.client.store }
        ensures over { (token : ℕ)
            → (operation ≡ Operation.Received (Some token))
            ⊎ (operation ≡ Operation.Failed (Some token))
            ⊎ (operation ≡ Operation.Complete (Some token))
            → IfOk result (λ reply. asks_for_body reply ≡ false → Ends token reply
            (id_at self.old.under_way.by_token) (id_at self.new.under_way.by_token)) }
        ensures stays { (token : ℕ) → operation ≡ Operation.Received (Some token)
            → IfOk result (λ reply. asks_for_body reply ≡ true
            → KeepsUnderWay self.old.under_way self.new.under_way) }
    {
        match operation {
            Operation::Ask(id) => self.ask(alloc, id, frame),
            Operation::Received(Some(token)) => self.received(alloc, token, frame),
            Operation::Failed(Some(token)) => self.failed(alloc, token, &frame.line),
            Operation::Complete(Some(token)) => self.complete(alloc, token, frame),
            Operation::Part(Some(token)) => self.part(token, frame),
            Operation::Next(Some(token)) => self.next(token),
            Operation::Received(None)
            | Operation::Failed(None)
            | Operation::Complete(None)
            | Operation::Part(None)
            | Operation::Next(None) => Err(Fault::Refused(Reason::NoToken)),
            Operation::Remove(id) => self.remove(alloc, id, &frame.line),
            Operation::Sweep(id) => self.sweep(id, &frame.line),
            Operation::Stats(id) => Ok(Reply::Notice(Notice::Stats {
                id,
                counts: self.counts(stored),
            })),
            Operation::Quit(id) => Ok(Reply::Notice(Notice::Quit { id })),
        }
    }

    fn error(&mut self, reason: Reason, id: Option<u64>, token: Option<u64>) -> Reply
        ensures client { self.new.client ≡ self.old.client }
        ensures under_way { self.new.under_way ≡ self.old.under_way }
        ensures none { given_token result ≡ None }
        ensures id { reply_id result ≡ id }
        ensures plain { IsPlain result }
        ensures refusal { IsRefusal result }
    {
        more(&mut self.counts.errors);
        Reply::Notice(Notice::Error { reason, id, token })
    }

    /// Returns the store.
    pub fn store(&self) -> &S
        ensures { result.now ≡ store_of self.now }
    {
        self.client.store()
    }

    /// Returns the reply to a frame. `stored` is what the store stores now, for `stats`.
    ///
    /// A reply that refuses the frame (any `error` but "no response") leaves what is stored and
    /// under way as it was. Any other reply to `received`, `failed` or `complete` ends the request
    /// with the token, unless it asks for the body of the response.
    ///
    /// # Errors
    ///
    /// `Lost` if something was changed and there is no memory for a reply that reports it. The
    /// session is then unusable, since its caller doesn't know what is under way.
    pub fn answer(&mut self, alloc: Global, frame: Frame, stored: Stored) -> Result<Reply, Lost>
        ensures given { IfOk result (λ reply. GivesNext (given_token reply)
            (next_token self.old) (next_token self.new)) }
        ensures kept { IfOk result (λ reply. IsRefusal reply
            → KeepsAll (S.stored (store_of self.old)) (S.next_id (store_of self.old))
            (S.stored (store_of self.new)) (S.next_id (store_of self.new))) }
        ensures under_way { IfOk result (λ reply. IsRefusal reply → (token : ℕ)
            → id_under_way self.new token ≡ id_under_way self.old token) }
        ensures over { IfOk result (λ reply. ¬ (IsRefusal reply) → (token : ℕ)
            → HandsOver (view frame.line) token → asks_for_body reply ≡ false
            → Ends token reply (id_under_way self.old) (id_under_way self.new)) }
        ensures id { IfOk result (λ reply. (id : ℕ)
            → number_under (codes "ask") (view frame.line) ≡ Some id
            → reply_id reply ≡ Some id) }
        ensures waits { IfOk result (λ reply. (id : ℕ)
            → number_under (codes "ask") (view frame.line) ≡ Some id
            → NamesUnderWay reply (id_under_way self.old)) }
        ensures only { IfOk result (λ reply. (id : ℕ)
            → number_under (codes "ask") (view frame.line) ≡ Some id
            → IsOnlyCheck reply (is_being_validated self.old)
            (validated_under_way self.new)) }
        ensures rest { HasRest (view frame.line)
            → S.next_id (store_of self.new) ≡ S.next_id (store_of self.old) }
        ensures outdated { (token : ℕ) → HandsOver (view frame.line) token
            → is_outdated self.old token ≡ true
            → S.next_id (store_of self.new) ≡ S.next_id (store_of self.old) }
    {
        more(&mut self.counts.frames);
        let id = id_of(&frame.line);
        let token = token_of(&frame.line);
        if frame.is_too_long {
            return Ok(self.error(Reason::TooLong, id, token));
        }
        let Some(operation) = Operation::of(&frame.line) else {
            return Ok(self.error(Reason::NoSuchFrame, id, token));
        };
        match self.reply_to(alloc, operation, frame, stored) {
            Ok(reply) => Ok(reply),
            Err(Fault::Refused(reason)) => Ok(self.error(reason, id, token)),
            Err(Fault::Lost) => Err(Lost),
        }
    }
}

//! What is replied to the outcome of a request that the caller has sent.
ghost use Rattle.std.specs.Prelude.{◌≡◌, ◌≤◌, true, false, None, All, IfOk, IfErr, IfSome, OnErr};
ghost use Rattle.http.specs.Response.{body_of};
ghost use Rattle.serde_json.specs.View.{view};
ghost use Rattle.http_cache_decisions.specs.Plan.{IsElsewhere};
ghost use Rattle.http_cache_store.specs.Store.{KeepsAll};
ghost use Rattle.http_cache_store.specs.Target.{text_of};
ghost use Rattle.http_cache_wire.specs.Wire.{IsRefused, IsRefusal, IsReplyFor, asks_for_body, given_token, HasRest};
ghost use Rattle.http_cache_errands.specs.UnderWay.{id_at};
ghost use Rattle.http_cache_errands.specs.Void.{is_void, last_invalidation, IsUnstorableAt};
ghost use Rattle.http_cache_session.specs.Session.{AddsGiven, Ends, GivesNext, KeepsUnderWay};

use crate::session::Session;
use bytes::Bytes;
use http::{Response, StatusCode, response};
use http_cache_client::{Body, Received, Times};
use http_cache_decisions::complete::is_complete;
use http_cache_decisions::invalidate::invalidated;
use http_cache_decisions::plan::Change;
use http_cache_errands::{Errand, UnderWay};
use http_cache_frames::{Frame, Notice, Reason, Reply, is_true_under, number_under, text_under};
use http_cache_store::{Store, Target};
use http_cache_wire::fault::Fault;
use http_cache_wire::message::{response_in, time_of, time_under};
use http_cache_wire::parts::{done, with_body, written_own};
use jiff::Timestamp;
use serde_json::Value;
use std::alloc::Global;
use std::mem;

impl<S: Store + Drop> Session<S> {
    // Forbids to store the response to a request that is older than an invalidation of its target
    // (RFC 9111, section 4.4).
    pub(crate) fn forbid_if_invalidated(&mut self, token: u64)
        ensures outdated { is_void self.old.invalidations self.old.under_way.by_token token ≡ true
            → IsUnstorableAt self.new.under_way.by_token token }
        ensures as_outdated { is_void self.new.invalidations self.new.under_way.by_token token
            ≡ is_void self.old.invalidations self.old.under_way.by_token token }
        ensures under_way { KeepsUnderWay self.old.under_way self.new.under_way }
        ensures client { self.new.client ≡ self.old.client }
    {
        let Some(under_way) = self.under_way.by_token.get_mut(&token) else {
            return;
        };
        if let Some(target) = under_way.target.as_ref()
            && token < self.invalidations.last(target)
            && let Some(errand) = under_way.errand.as_mut()
        {
            errand.forbid_storing();
        }
    }

    // Passes a response to the client.
    fn hand_over(
        &mut self,
        alloc: Global,
        token: u64,
        response: Response<Body>,
        times: Times,
    ) -> Result<Received, Fault>
        ensures kept { OnErr result (KeepsAll (S.stored self.old.client.store)
            (S.next_id self.old.client.store)
            (S.stored self.new.client.store) (S.next_id self.new.client.store)) }
        ensures rest { IsElsewhere (body_of response)
            → S.next_id self.new.client.store ≡ S.next_id self.old.client.store }
        ensures outdated { IsUnstorableAt self.old.under_way.by_token token
            → S.next_id self.new.client.store ≡ S.next_id self.old.client.store }
        ensures under_way { KeepsUnderWay self.old.under_way self.new.under_way }
    {
        let Some(under_way) = self.under_way.by_token.get_mut(&token) else {
            return Err(Fault::Refused(Reason::UnknownToken));
        };
        let request = &under_way.request;
        match under_way.errand.as_mut() {
            Some(Errand::Own(forwarded)) => {
                let answer = self
                    .client
                    .accept(alloc, forwarded, request, response, times)?;
                Ok(Received::Answer(answer))
            }
            Some(Errand::Check(check)) => {
                Ok(self.client.receive(alloc, check, request, response, times)?)
            }
            _ => Err(Fault::Refused(Reason::UnknownToken)),
        }
    }

    // Returns the targets that a response invalidates.
    fn invalidated(
        &self,
        alloc: Global,
        token: u64,
        head: &response::Parts,
    ) -> Result<Vec<Target>, Fault> {
        let Some(under_way) = self.under_way.by_token.get(&token) else {
            return Err(Fault::Refused(Reason::UnknownToken));
        };
        match invalidated(alloc, &under_way.request, head)? {
            Change::RemoveTargets(targets) => Ok(targets),
            _ => Ok(Vec::new(alloc)),
        }
    }

    // Records the invalidation of targets. What was asked for before isn't stored any more.
    pub(crate) fn invalidate(&mut self, alloc: Global, targets: &[Target])
        ensures recorded { All (λ target. self.old.under_way.next_token
            ≤ last_invalidation self.new.invalidations (text_of target)) targets.now }
        ensures client { self.new.client ≡ self.old.client }
        ensures under_way { self.new.under_way ≡ self.old.under_way }
    {
        let next_token = self.under_way.next_token;
        self.invalidations.add_all(alloc, targets, next_token);
    }

    // Returns the times of a response. The request may not have been answered by another one, whose
    // body is on its way.
    fn times_of(
        &self,
        token: u64,
        sent: Option<Timestamp>,
        received: Timestamp,
    ) -> Result<Times, Fault> {
        match self.under_way.by_token.get(&token) {
            Some(under_way) if !under_way.has_answer_coming() => Ok(Times {
                sent: sent.unwrap_or(under_way.sent),
                received,
            }),
            _ => Err(Fault::Refused(Reason::UnknownToken)),
        }
    }

    // Returns the reply after the client has taken a response.
    fn taken(
        &mut self,
        alloc: Global,
        under_way: UnderWay,
        outcome: Received,
        now: Timestamp,
        pieces: Option<u64>,
    ) -> Result<Reply, Fault>
        ensures reply { IfOk result (IsReplyFor under_way.id) }
        ensures kept { self.new.client.store ≡ self.old.client.store }
        ensures given { IfOk result (λ reply. AddsGiven (given_token reply) under_way.id
            self.old.under_way self.new.under_way) }
        ensures ungiven { OnErr result (KeepsUnderWay self.old.under_way self.new.under_way) }
    {
        let UnderWay {
            id,
            request,
            is_body_with_caller,
            is_answered,
            ..
        } = under_way;
        if is_answered {
            return Ok(done(id));
        }
        match outcome {
            Received::Answer(answer) => {
                let written = self.written(alloc, request.method(), answer)?;
                self.answer_in_pieces(alloc, id, request, written, pieces, now)
            }
            Received::Again(forwarded) => {
                self.forward(alloc, id, request, is_body_with_caller, forwarded, now)
            }
        }
    }

    // Returns whether a response is cut off, so that an intermediary doesn't send it.
    fn is_cut_off(&self, token: u64, response: &Response<Body>) -> bool {
        if self.settings.intermediary.is_none() {
            return false;
        }
        let Body::Here(body) = response.body() else {
            return false;
        };
        let length = body.len() as u64;
        match self.under_way.by_token.get(&token) {
            Some(under_way) => !is_complete(
                under_way.request.method(),
                response.status(),
                response.headers(),
                length,
            ),
            None => false,
        }
    }

    // Takes a response, and returns the reply.
    pub(crate) fn settle(
        &mut self,
        alloc: Global,
        token: u64,
        response: Response<Body>,
        times: Times,
        pieces: Option<u64>,
    ) -> Result<Reply, Fault>
        ensures kept { IfErr result (λ fault. IsRefused fault
            → KeepsAll (S.stored self.old.client.store) (S.next_id self.old.client.store)
            (S.stored self.new.client.store) (S.next_id self.new.client.store)) }
        ensures rest { IsElsewhere (body_of response)
            → S.next_id self.new.client.store ≡ S.next_id self.old.client.store }
        ensures outdated { is_void self.old.invalidations self.old.under_way.by_token token ≡ true
            → S.next_id self.new.client.store ≡ S.next_id self.old.client.store }
        ensures under_way { IfErr result (λ fault. IsRefused fault
            → KeepsUnderWay self.old.under_way self.new.under_way) }
        ensures next { IfOk result (λ reply. GivesNext (given_token reply)
            self.old.under_way.next_token self.new.under_way.next_token) }
        ensures reply { IfOk result (λ reply. ¬ (IsRefusal reply)) }
        ensures ends { IfOk result (λ reply. asks_for_body reply ≡ false) }
        ensures over { IfOk result (λ reply. Ends token reply
            (id_at self.old.under_way.by_token) (id_at self.new.under_way.by_token)) }
    {
        let now = times.received;
        if self.is_cut_off(token, &response) {
            return self.give_up(alloc, token, true, now);
        }
        self.forbid_if_invalidated(token);
        let (head, body) = response.into_parts();
        let removed = self.invalidated(alloc, token, &head)?;
        let response = Response::from_parts(head, body);
        let outcome = self.hand_over(alloc, token, response, times)?;
        self.invalidate(alloc, removed.as_slice());
        let Some(under_way) = self.under_way.remove(token) else {
            return Err(Fault::Lost);
        };
        // After a change an error can't be undone.
        match self.taken(alloc, under_way, outcome, now, pieces) {
            Ok(reply) => Ok(reply),
            Err(_) => Err(Fault::Lost),
        }
    }

    // Replies to the response to a request under way.
    pub(crate) fn received(
        &mut self,
        alloc: Global,
        token: u64,
        frame: Frame,
    ) -> Result<Reply, Fault>
        ensures kept { IfErr result (λ fault. IsRefused fault
            → KeepsAll (S.stored self.old.client.store) (S.next_id self.old.client.store)
            (S.stored self.new.client.store) (S.next_id self.new.client.store)) }
        ensures rest { HasRest (view frame.line)
            → S.next_id self.new.client.store ≡ S.next_id self.old.client.store }
        ensures outdated { is_void self.old.invalidations self.old.under_way.by_token token ≡ true
            → S.next_id self.new.client.store ≡ S.next_id self.old.client.store }
        ensures under_way { IfErr result (λ fault. IsRefused fault
            → KeepsUnderWay self.old.under_way self.new.under_way) }
        ensures next { IfOk result (λ reply. GivesNext (given_token reply)
            self.old.under_way.next_token self.new.under_way.next_token) }
        ensures reply { IfOk result (λ reply. ¬ (IsRefusal reply)) }
        ensures over { IfOk result (λ reply. asks_for_body reply ≡ false → Ends token reply
            (id_at self.old.under_way.by_token) (id_at self.new.under_way.by_token)) }
        ensures stays { IfOk result (λ reply. asks_for_body reply ≡ true
            → KeepsUnderWay self.old.under_way self.new.under_way) }
    {
        let received = time_of(&frame.line)?;
        let sent = time_under(&frame.line, "sent");
        let pieces = number_under(&frame.line, "pieces");
        let collects = is_true_under(&frame.line, "collect");
        let response = response_in(alloc, self.settings.keys, frame)?;
        let times = self.times_of(token, sent, received)?;
        let reply = if collects {
            self.collect(alloc, token, &response, &times)?
        } else {
            None
        };
        match reply {
            Some(reply) => Ok(reply),
            None => self.settle(alloc, token, response, times, pieces),
        }
    }

    // Returns the stored response that may be used although the origin server gave no response.
    fn instead(
        &mut self,
        alloc: Global,
        token: u64,
        now: Timestamp,
    ) -> Result<Option<Response<Bytes>>, Fault>
        ensures kept { KeepsAll (S.stored self.old.client.store) (S.next_id self.old.client.store)
            (S.stored self.new.client.store) (S.next_id self.new.client.store) }
        ensures under_way { KeepsUnderWay self.old.under_way self.new.under_way }
    {
        let Some(under_way) = self.under_way.by_token.get_mut(&token) else {
            return Err(Fault::Refused(Reason::UnknownToken));
        };
        let forwarded = match mem::replace(&mut under_way.errand, None) {
            Some(Errand::Own(forwarded) | Errand::Failed(forwarded)) => forwarded,
            Some(Errand::Check(check)) => check.into_forwarded(),
            Some(Errand::Rest(rest)) => {
                under_way.errand = Some(Errand::Rest(rest));
                return Ok(None);
            }
            None => return Err(Fault::Lost),
        };
        let mut forwarded = forwarded;
        let answer = if under_way.is_answered {
            Ok(None)
        } else {
            let request = &under_way.request;
            self.client
                .without_response(alloc, &mut forwarded, request, now)
        };
        under_way.errand = Some(Errand::Failed(forwarded));
        Ok(answer?)
    }

    // Returns the reply if the origin server gave no response.
    fn unanswered(
        &self,
        alloc: Global,
        token: u64,
        under_way: &UnderWay,
        answer: Option<Response<Bytes>>,
        is_invalid: bool,
        now: Timestamp,
    ) -> Result<Reply, Fault>
        ensures none { IfOk result (λ reply. given_token reply ≡ None) }
        ensures reply { IfOk result (IsReplyFor under_way.now.id) }
    {
        let (id, method) = (under_way.id, under_way.request.method());
        if under_way.is_answered {
            return Ok(done(id));
        }
        if let Some(answer) = answer {
            return Ok(self.written(alloc, method, with_body(answer))?.answer(id));
        }
        let Some(intermediary) = self.settings.intermediary.as_ref() else {
            return Ok(Reply::Notice(Notice::NoResponse { id, token }));
        };
        let (status, detail) = if is_invalid {
            (StatusCode::BAD_GATEWAY, "response cut off")
        } else {
            (StatusCode::GATEWAY_TIMEOUT, "no response")
        };
        Ok(written_own(alloc, intermediary, method, status, detail, now)?.answer(id))
    }

    // Ends a request without a response.
    pub(crate) fn give_up(
        &mut self,
        alloc: Global,
        token: u64,
        is_invalid: bool,
        now: Timestamp,
    ) -> Result<Reply, Fault>
        ensures kept { KeepsAll (S.stored self.old.client.store) (S.next_id self.old.client.store)
            (S.stored self.new.client.store) (S.next_id self.new.client.store) }
        ensures under_way { IfErr result (λ fault. IsRefused fault
            → KeepsUnderWay self.old.under_way self.new.under_way) }
        ensures next { IfOk result (λ reply. GivesNext (given_token reply)
            self.old.under_way.next_token self.new.under_way.next_token) }
        ensures reply { IfOk result (λ reply. ¬ (IsRefusal reply)) }
        ensures ends { IfOk result (λ reply. asks_for_body reply ≡ false) }
        ensures over { IfOk result (λ reply. Ends token reply
            (id_at self.old.under_way.by_token) (id_at self.new.under_way.by_token)) }
    {
        let answer = self.instead(alloc, token, now)?;
        let Some(ended) = self.under_way.remove(token) else {
            return Err(Fault::Lost);
        };
        match self.unanswered(alloc, token, &ended, answer, is_invalid, now) {
            Ok(reply) => Ok(reply),
            Err(_) => Err(Fault::Lost),
        }
    }

    // Replies to the failure of a request under way.
    pub(crate) fn failed(&mut self, alloc: Global, token: u64, line: &Value) -> Result<Reply, Fault>
        ensures kept { KeepsAll (S.stored self.old.client.store) (S.next_id self.old.client.store)
            (S.stored self.new.client.store) (S.next_id self.new.client.store) }
        ensures under_way { IfErr result (λ fault. IsRefused fault
            → KeepsUnderWay self.old.under_way self.new.under_way) }
        ensures next { IfOk result (λ reply. GivesNext (given_token reply)
            self.old.under_way.next_token self.new.under_way.next_token) }
        ensures reply { IfOk result (λ reply. ¬ (IsRefusal reply)) }
        ensures ends { IfOk result (λ reply. asks_for_body reply ≡ false) }
        ensures over { IfOk result (λ reply. Ends token reply
            (id_at self.old.under_way.by_token) (id_at self.new.under_way.by_token)) }
    {
        let now = time_of(line)?;
        let is_invalid = text_under(line, "why") == Some("invalid");
        self.give_up(alloc, token, is_invalid, now)
    }
}

//! What is replied to a request: an answer, or a request to send.
ghost use Rattle.std.specs.Prelude.{◌≡◌, true, Some, None, option_map, is_some, IfOk, IfSome, OnErr};
ghost use Rattle.http_cache_store.specs.Store.{KeepsAll};
ghost use Rattle.http_cache_wire.specs.Wire.{IsPlain, IsReplyFor, given_token, waits_for};
ghost use Rattle.http_cache_errands.specs.UnderWay.{id_at, are_validating, validated_at};
ghost use Rattle.http_cache_session.specs.Session.{AddsGiven, KeepsUnderWay, IsOnlyCheck};
ghost use Rattle.http_cache_session.specs.Session.{NamesUnderWay, is_validated};

use crate::session::{Session, more};
use bytes::Bytes;
use http::{Request, Response, StatusCode};
use http_cache_client::{Decision, Forwarded, Validation};
use http_cache_decisions::asking::is_looked_up;
use http_cache_errands::{Errand, UnderWay};
use http_cache_frames::{Frame, Notice, Reason, Reply, is_true_under, number_under};
use http_cache_store::{Store, Target};
use http_cache_wire::fault::Fault;
use http_cache_wire::message::{BodyLocation, request_in, time_of};
use http_cache_wire::parts::{Written, with_body, written_check, written_own, written_own_request};
use jiff::Timestamp;
use std::alloc::{AllocError, Global};

// What a frame says of the request that it asks for.
#[derive(Clone, Copy)]
pub(crate) struct Asked {
    location: BodyLocation,
    // The length of a piece of the answer.
    pieces: Option<u64>,
    may_wait: bool,
    now: Timestamp,
}

impl Asked {
    fn of(frame: &Frame) -> Result<Asked, Fault> {
        Ok(Asked {
            location: BodyLocation::of(frame)?,
            pieces: number_under(&frame.line, "pieces"),
            may_wait: is_true_under(&frame.line, "wait"),
            now: time_of(&frame.line)?,
        })
    }
}

// Returns the target for which the response to a request may be stored.
fn target_of(alloc: Global, request: &Request<Bytes>) -> Result<Option<Target>, AllocError> {
    if !is_looked_up(request) {
        return Ok(None);
    }
    let target = Target::of(alloc, request.uri(), request.headers())?;
    Ok(Some(target))
}

fn wait(id: u64, token: u64) -> Reply
    ensures none { given_token result ≡ None }
    ensures reply { IsReplyFor id result }
    ensures waits { waits_for result ≡ Some token }
{
    Reply::Notice(Notice::Wait { id, token })
}

impl<S: Store + Drop> Session<S> {
    // Returns the request for the client, as the intermediary forwards it.
    fn asked_request(
        &self,
        alloc: Global,
        request: Request<Bytes>,
        location: BodyLocation,
    ) -> Result<Request<Bytes>, Fault> {
        let Some(intermediary) = self.settings.intermediary.as_ref() else {
            return Ok(request);
        };
        let content = location.content(request.body().len());
        let parts = intermediary.forwarded(alloc, &request, content)?;
        let (_, body) = request.into_parts();
        Ok(Request::from_parts(parts, body))
    }

    // Returns the reply to a request that the intermediary refuses.
    fn refused_request(
        &self,
        alloc: Global,
        id: u64,
        request: &Request<Bytes>,
        has_fragment: bool,
        now: Timestamp,
    ) -> Result<Option<Reply>, Fault>
        ensures none { IfOk result (λ reply. IfSome reply (λ one. given_token one ≡ None)) }
        ensures reply { IfOk result (λ reply. IfSome reply (IsReplyFor id)) }
        ensures plain { IfOk result (λ reply. IfSome reply IsPlain) }
    {
        let Some(intermediary) = self.settings.intermediary.as_ref() else {
            return Ok(None);
        };
        let Some(refusal) = intermediary.refusal(request, has_fragment) else {
            return Ok(None);
        };
        let method = request.method();
        let (status, detail) = (refusal.status(), refusal.detail());
        let written = written_own(alloc, intermediary, method, status, detail, now)?;
        Ok(Some(written.answer(id)))
    }

    pub(crate) fn is_full(&self) -> bool {
        self.under_way.len() >= self.settings.requests
    }

    // Returns whether a request under way validates the same stored response.
    fn is_validated(&self, check: &Validation) -> bool
        ensures { result ≡ is_validated check.now self.now.under_way.by_token }
    {
        match check.id() {
            Some(id) => self.under_way.are_validating(id),
            None => false,
        }
    }

    // Returns the token of a request that validates the same stored response.
    fn validation_of(&self, check: &Validation) -> Option<u64>
        ensures { IfSome result (λ token.
            is_some (id_at self.now.under_way.by_token token) ≡ true) }
    {
        self.under_way.validation_of(check.id()?)
    }

    // Returns the token of a request under way for the same page.
    fn page_for(&self, alloc: Global, request: &Request<Bytes>) -> Result<Option<u64>, AllocError>
        ensures { IfOk result (λ page. IfSome page (λ token.
            is_some (id_at self.now.under_way.by_token token) ≡ true)) }
    {
        Ok(match target_of(alloc, request)? {
            Some(target) => self.under_way.page_for(&target),
            None => None,
        })
    }

    // Asks the caller to send a validation. Returns its token and the written request.
    fn send_check(
        &mut self,
        alloc: Global,
        id: u64,
        request: Request<Bytes>,
        mut check: Validation,
        now: Timestamp,
        is_answered: bool,
    ) -> Result<(u64, Written), Fault>
        ensures kept { self.new.client.store ≡ self.old.client.store }
        ensures checks { IfOk result (λ sent.
            validated_at self.new.under_way.by_token sent.0 ≡ option_map (λ one. one.0) check.id) }
        ensures given { IfOk result (λ sent. AddsGiven (Some sent.0) id
            self.old.under_way self.new.under_way) }
        ensures ungiven { OnErr result (KeepsUnderWay self.old.under_way self.new.under_way) }
    {
        let target = target_of(alloc, &request)?;
        let parts = check.take_request(alloc);
        let written = written_check(alloc, parts)?;
        let token = self.under_way.add(UnderWay {
            id,
            request,
            errand: Some(Errand::Check(check)),
            target,
            coming: None,
            sent: now,
            is_body_with_caller: false,
            is_answered,
        })?;
        more(&mut self.counts.validations);
        Ok((token, written))
    }

    // Asks the caller to send a validation before the request is answered.
    fn validate(
        &mut self,
        alloc: Global,
        id: u64,
        request: Request<Bytes>,
        check: Validation,
        now: Timestamp,
    ) -> Result<Reply, Fault>
        ensures reply { IfOk result (IsReplyFor id) }
        ensures plain { IfOk result IsPlain }
        ensures kept { self.new.client.store ≡ self.old.client.store }
        ensures given { IfOk result (λ reply. AddsGiven (given_token reply) id
            self.old.under_way self.new.under_way) }
        ensures ungiven { OnErr result (KeepsUnderWay self.old.under_way self.new.under_way) }
    {
        if self.is_full() {
            return Err(Fault::Refused(Reason::TooMany));
        }
        let (token, written) = self.send_check(alloc, id, request, check, now, false)?;
        Ok(written.send(id, token))
    }

    // Asks the caller to send the client's own request.
    pub(crate) fn forward(
        &mut self,
        alloc: Global,
        id: u64,
        request: Request<Bytes>,
        is_body_with_caller: bool,
        forwarded: Forwarded,
        now: Timestamp,
    ) -> Result<Reply, Fault>
        ensures reply { IfOk result (IsReplyFor id) }
        ensures plain { IfOk result IsPlain }
        ensures kept { self.new.client.store ≡ self.old.client.store }
        ensures given { IfOk result (λ reply. AddsGiven (given_token reply) id
            self.old.under_way self.new.under_way) }
        ensures ungiven { OnErr result (KeepsUnderWay self.old.under_way self.new.under_way) }
    {
        if self.is_full() {
            return Err(Fault::Refused(Reason::TooMany));
        }
        let target = target_of(alloc, &request)?;
        let (written, request) = written_own_request(alloc, request, is_body_with_caller)?;
        let token = self.under_way.add(UnderWay {
            id,
            request,
            errand: Some(Errand::Own(forwarded)),
            target,
            coming: None,
            sent: now,
            is_body_with_caller,
            is_answered: false,
        })?;
        Ok(written.send(id, token))
    }

    // Answers with a stale response. Asks for its validation, unless one is under way, or no more
    // requests may be.
    fn answer_stale(
        &mut self,
        alloc: Global,
        id: u64,
        request: Request<Bytes>,
        answer: Response<Bytes>,
        due: Validation,
        now: Timestamp,
    ) -> Result<Reply, Fault>
        ensures reply { IfOk result (IsReplyFor id) }
        ensures kept { self.new.client.store ≡ self.old.client.store }
        ensures no_wait { IfOk result (λ reply. waits_for reply ≡ None) }
        ensures only { IfOk result (λ reply. IsOnlyCheck reply
            (λ id. are_validating id self.old.under_way.by_token)
            (validated_at self.new.under_way.by_token)) }
        ensures given { IfOk result (λ reply. AddsGiven (given_token reply) id
            self.old.under_way self.new.under_way) }
        ensures ungiven { OnErr result (KeepsUnderWay self.old.under_way self.new.under_way) }
    {
        let written = self.written(alloc, request.method(), with_body(answer))?;
        if self.is_validated(&due) || self.is_full() {
            more(&mut self.counts.hits);
            return Ok(written.answer(id));
        }
        let (token, check) = self.send_check(alloc, id, request, due, now, true)?;
        Ok(written.stale(id, token, check))
    }

    // Answers without the origin server.
    fn answer_now(
        &mut self,
        alloc: Global,
        id: u64,
        request: Request<Bytes>,
        answer: Response<Bytes>,
        asked: &Asked,
    ) -> Result<Reply, Fault>
        ensures reply { IfOk result (IsReplyFor id) }
        ensures plain { IfOk result IsPlain }
        ensures kept { self.new.client.store ≡ self.old.client.store }
        ensures given { IfOk result (λ reply. AddsGiven (given_token reply) id
            self.old.under_way self.new.under_way) }
        ensures ungiven { OnErr result (KeepsUnderWay self.old.under_way self.new.under_way) }
    {
        let is_hit = answer.status() != StatusCode::GATEWAY_TIMEOUT;
        let written = self.written(alloc, request.method(), with_body(answer))?;
        let reply = self.answer_in_pieces(alloc, id, request, written, asked.pieces, asked.now)?;
        if is_hit {
            more(&mut self.counts.hits);
        }
        Ok(reply)
    }

    fn decide(
        &mut self,
        alloc: Global,
        id: u64,
        request: Request<Bytes>,
        asked: &Asked,
    ) -> Result<Reply, Fault>
        ensures reply { IfOk result (IsReplyFor id) }
        ensures waits { IfOk result (λ reply.
            NamesUnderWay reply (id_at self.old.under_way.by_token)) }
        ensures only { IfOk result (λ reply. IsOnlyCheck reply
            (λ id. are_validating id self.old.under_way.by_token)
            (validated_at self.new.under_way.by_token)) }
        ensures kept { KeepsAll (S.stored self.old.client.store) (S.next_id self.old.client.store)
            (S.stored self.new.client.store) (S.next_id self.new.client.store) }
        ensures given { IfOk result (λ reply. AddsGiven (given_token reply) id
            self.old.under_way self.new.under_way) }
        ensures ungiven { OnErr result (KeepsUnderWay self.old.under_way self.new.under_way) }
    {
        let now = asked.now;
        match self.client.ask(alloc, &request, now)? {
            Decision::Answer(answer) => self.answer_now(alloc, id, request, answer, asked),
            Decision::Stale { answer, due } => {
                self.answer_stale(alloc, id, request, answer, due, now)
            }
            Decision::Validate(check) => {
                if asked.may_wait
                    && let Some(token) = self.validation_of(&check)
                {
                    return Ok(wait(id, token));
                }
                self.validate(alloc, id, request, check, now)
            }
            Decision::Forward(forwarded) => {
                if asked.may_wait
                    && let Some(token) = self.page_for(alloc, &request)?
                {
                    return Ok(wait(id, token));
                }
                let is_with_caller = asked.location != BodyLocation::Here;
                let reply = self.forward(alloc, id, request, is_with_caller, forwarded, now)?;
                more(&mut self.counts.misses);
                Ok(reply)
            }
        }
    }

    pub(crate) fn ask(&mut self, alloc: Global, id: u64, frame: Frame) -> Result<Reply, Fault>
        ensures reply { IfOk result (IsReplyFor id) }
        ensures waits { IfOk result (λ reply.
            NamesUnderWay reply (id_at self.old.under_way.by_token)) }
        ensures only { IfOk result (λ reply. IsOnlyCheck reply
            (λ id. are_validating id self.old.under_way.by_token)
            (validated_at self.new.under_way.by_token)) }
        ensures kept { KeepsAll (S.stored self.old.client.store) (S.next_id self.old.client.store)
            (S.stored self.new.client.store) (S.next_id self.new.client.store) }
        ensures given { IfOk result (λ reply. AddsGiven (given_token reply) id
            self.old.under_way self.new.under_way) }
        ensures ungiven { OnErr result (KeepsUnderWay self.old.under_way self.new.under_way) }
    {
        let asked = Asked::of(&frame)?;
        let (now, location) = (asked.now, asked.location);
        let (request, is_cut) = request_in(alloc, self.settings.keys, frame, location)?;
        if let Some(reply) = self.refused_request(alloc, id, &request, is_cut, now)? {
            return Ok(reply);
        }
        let request = self.asked_request(alloc, request, location)?;
        self.decide(alloc, id, request, &asked)
    }
}

//! Bodies in pieces: of responses that are stored once they are whole, and of stored responses.
ghost use Rattle.std.specs.Prelude.{◌≡◌, true, false, None, IfOk, IfErr, IfSome, OnErr};
ghost use Rattle.serde_json.specs.View.{view};
ghost use Rattle.http_cache_store.specs.Store.{KeepsAll};
ghost use Rattle.http_cache_wire.specs.Wire.{IsRefused, IsRefusal, IsReplyFor, IsPlain, HasRest, asks_for_body, given_token};
ghost use Rattle.http_cache_errands.specs.UnderWay.{id_at};
ghost use Rattle.http_cache_errands.specs.Void.{is_void};
ghost use Rattle.http_cache_session.specs.Session.{AddsGiven, Ends, GivesNext, KeepsUnderWay};

use crate::session::Session;
use bytes::Bytes;
use http::{Request, Response, response};
use http_cache_client::{Body, Coming as Announced, Times};
use http_cache_errands::{Coming, Errand, Rest, UnderWay};
use http_cache_fields::headers::copy_of_map;
use http_cache_frames::{Frame, Notice, Reason, Reply, number_under};
use http_cache_store::Store;
use http_cache_wire::fault::Fault;
use http_cache_wire::message::BodyLocation;
use http_cache_wire::parts::{Written, with_body};
use jiff::Timestamp;
use std::alloc::{AllocError, Global};

fn copy_of(response: &Response<Body>) -> Result<response::Parts, AllocError> {
    Ok(response::Parts {
        status: response.status(),
        version: response.version(),
        headers: copy_of_map(response.headers())?,
    })
}

impl<S: Store + Drop> Session<S> {
    // Returns the answer to a response whose body is on its way, if it is stored once that is
    // whole.
    fn announced(
        &mut self,
        alloc: Global,
        token: u64,
        head: &response::Parts,
        length: Option<u64>,
        times: &Times,
    ) -> Result<Option<Announced>, Fault>
        ensures kept { KeepsAll (S.stored self.old.client.store) (S.next_id self.old.client.store)
            (S.stored self.new.client.store) (S.next_id self.new.client.store) }
        ensures under_way { self.new.under_way ≡ self.old.under_way }
        ensures invalidations { self.new.invalidations ≡ self.old.invalidations }
    {
        let (client, under_ways) = (&mut self.client, &self.under_way);
        let Some(under_way) = under_ways.by_token.get(&token) else {
            return Err(Fault::Refused(Reason::UnknownToken));
        };
        let request = &under_way.request;
        match under_way.errand.as_ref() {
            Some(Errand::Own(forwarded)) => {
                Ok(client.accept_head(alloc, forwarded, request, head, length, times)?)
            }
            Some(Errand::Check(check)) => {
                Ok(client.receive_head(alloc, check, request, head, length, times)?)
            }
            _ => Err(Fault::Refused(Reason::UnknownToken)),
        }
    }

    // Returns the reply that asks for a body, and whether it answers the request.
    fn asking_for_body(
        &self,
        alloc: Global,
        token: u64,
        announced: Announced,
    ) -> Result<(Reply, bool), Fault>
        ensures none { IfOk result (λ reply. given_token reply.0 ≡ None) }
        ensures reply { IfOk result (λ reply. ¬ (IsRefusal reply.0)) }
        ensures asks { IfOk result (λ reply. asks_for_body reply.0 ≡ true) }
    {
        let Some(under_way) = self.under_way.by_token.get(&token) else {
            return Err(Fault::Refused(Reason::UnknownToken));
        };
        let (id, most) = (under_way.id, self.settings.stored_body);
        if announced.is_replaceable || under_way.is_answered {
            drop(announced);
            return Ok((Reply::Notice(Notice::More { id, token, most }), false));
        }
        let written = self.written(alloc, under_way.request.method(), announced.answer)?;
        Ok((written.collect(id, token, most), true))
    }

    // Returns the reply to a response whose body is on its way, or `None` if it isn't stored.
    pub(crate) fn collect(
        &mut self,
        alloc: Global,
        token: u64,
        response: &Response<Body>,
        times: &Times,
    ) -> Result<Option<Reply>, Fault>
        ensures kept { KeepsAll (S.stored self.old.client.store) (S.next_id self.old.client.store)
            (S.stored self.new.client.store) (S.next_id self.new.client.store) }
        ensures as_outdated { is_void self.new.invalidations self.new.under_way.by_token token
            ≡ is_void self.old.invalidations self.old.under_way.by_token token }
        ensures under_way { KeepsUnderWay self.old.under_way self.new.under_way }
        ensures none { IfOk result (λ reply. IfSome reply (λ r. given_token r ≡ None)) }
        ensures reply { IfOk result (λ reply. IfSome reply (λ r. ¬ (IsRefusal r))) }
        ensures asks { IfOk result (λ reply. IfSome reply (λ r. asks_for_body r ≡ true)) }
    {
        let Body::Elsewhere(length) = response.body() else {
            return Ok(None);
        };
        let length = *length;
        if length.is_some_and(|length| length > self.settings.stored_body) {
            return Ok(None);
        }
        self.forbid_if_invalidated(token);
        let head = copy_of(response)?;
        let Some(announced) = self.announced(alloc, token, &head, length, times)? else {
            return Ok(None);
        };
        let (reply, is_answer) = self.asking_for_body(alloc, token, announced)?;
        let Some(under_way) = self.under_way.by_token.get_mut(&token) else {
            return Err(Fault::Refused(Reason::UnknownToken));
        };
        under_way.is_answered = under_way.is_answered || is_answer;
        under_way.coming = Some(Coming {
            head,
            times: *times,
            body: Vec::new(alloc),
            is_answer,
        });
        Ok(Some(reply))
    }

    // Takes a piece of a body.
    pub(crate) fn part(&mut self, token: u64, frame: Frame) -> Result<Reply, Fault>
        ensures client { self.new.client ≡ self.old.client }
        ensures under_way { KeepsUnderWay self.old.under_way self.new.under_way }
        ensures none { IfOk result (λ reply. given_token reply ≡ None) }
        ensures reply { IfOk result (λ reply. ¬ (IsRefusal reply)) }
    {
        let most = self.settings.stored_body;
        let Some(under_way) = self.under_way.by_token.get_mut(&token) else {
            return Err(Fault::Refused(Reason::UnknownToken));
        };
        let Some(coming) = under_way.coming.as_mut() else {
            return Err(Fault::Refused(Reason::UnknownToken));
        };
        if coming.length_with(&frame.body) > most {
            return Err(Fault::Refused(Reason::TooLong));
        }
        coming.body.extend_from_slice(frame.body.as_slice())?;
        Ok(Reply::Notice(Notice::Part { token }))
    }

    // Takes what was collected, unless it is too long with the last piece.
    fn take_coming(&mut self, token: u64, last: &Bytes) -> Result<Coming, Fault>
        ensures as_outdated { is_void self.new.invalidations self.new.under_way.by_token token
            ≡ is_void self.old.invalidations self.old.under_way.by_token token }
        ensures under_way { KeepsUnderWay self.old.under_way self.new.under_way }
        ensures client { self.new.client ≡ self.old.client }
    {
        let most = self.settings.stored_body;
        let Some(under_way) = self.under_way.by_token.get_mut(&token) else {
            return Err(Fault::Refused(Reason::UnknownToken));
        };
        match under_way.coming.take() {
            Some(coming) if coming.length_with(last) <= most => Ok(coming),
            Some(coming) => {
                under_way.coming = Some(coming);
                Err(Fault::Refused(Reason::TooLong))
            }
            None => Err(Fault::Refused(Reason::UnknownToken)),
        }
    }

    // Takes the last piece of a body, and stores the response if that is allowed.
    pub(crate) fn complete(
        &mut self,
        alloc: Global,
        token: u64,
        frame: Frame,
    ) -> Result<Reply, Fault>
        ensures kept { IfErr result (λ fault. IsRefused fault
            → KeepsAll (S.stored self.old.client.store) (S.next_id self.old.client.store)
            (S.stored self.new.client.store) (S.next_id self.new.client.store)) }
        ensures under_way { IfErr result (λ fault. IsRefused fault
            → KeepsUnderWay self.old.under_way self.new.under_way) }
        ensures next { IfOk result (λ reply. GivesNext (given_token reply)
            self.old.under_way.next_token self.new.under_way.next_token) }
        ensures rest { HasRest (view frame.line)
            → S.next_id self.new.client.store ≡ S.next_id self.old.client.store }
        ensures outdated { is_void self.old.invalidations self.old.under_way.by_token token ≡ true
            → S.next_id self.new.client.store ≡ S.next_id self.old.client.store }
        ensures reply { IfOk result (λ reply. ¬ (IsRefusal reply)) }
        ensures ends { IfOk result (λ reply. asks_for_body reply ≡ false) }
        ensures over { IfOk result (λ reply. Ends token reply
            (id_at self.old.under_way.by_token) (id_at self.new.under_way.by_token)) }
    {
        let pieces = number_under(&frame.line, "pieces");
        if BodyLocation::of(&frame)? != BodyLocation::Here {
            return Err(Fault::Refused(Reason::NoRest));
        }
        let Frame { body, .. } = frame;
        let coming = self.take_coming(token, &body)?;
        let times = coming.times;
        let Ok(response) = coming.whole(body) else {
            return self.give_up(alloc, token, true, times.received);
        };
        match self.settle(alloc, token, with_body(response), times, pieces) {
            Err(Fault::Refused(_)) => self.give_up(alloc, token, true, times.received),
            settled => settled,
        }
    }

    // Answers a request, with the first piece of a body that is longer than `pieces`.
    pub(crate) fn answer_in_pieces(
        &mut self,
        alloc: Global,
        id: u64,
        request: Request<Bytes>,
        written: Written,
        pieces: Option<u64>,
        now: Timestamp,
    ) -> Result<Reply, Fault>
        ensures reply { IfOk result (IsReplyFor id) }
        ensures plain { IfOk result IsPlain }
        ensures kept { self.new.client ≡ self.old.client }
        ensures given { IfOk result (λ reply. AddsGiven (given_token reply) id
            self.old.under_way self.new.under_way) }
        ensures ungiven { OnErr result (KeepsUnderWay self.old.under_way self.new.under_way) }
    {
        let Some(mut rest) = Rest::of(written.body.as_ref(), pieces)? else {
            return Ok(written.answer(id));
        };
        if self.is_full() {
            return Ok(written.answer(id));
        }
        let body = rest.take()?;
        let left = rest.body.len() as u64;
        let token = self.under_way.add(UnderWay {
            id,
            request,
            errand: Some(Errand::Rest(rest)),
            target: None,
            coming: None,
            sent: now,
            is_body_with_caller: false,
            is_answered: true,
        })?;
        Ok(Reply::Begun {
            id,
            token,
            left,
            head: written.head,
            body,
        })
    }

    // Returns the next piece of an answer. The last one ends it.
    pub(crate) fn next(&mut self, token: u64) -> Result<Reply, Fault>
        ensures client { self.new.client ≡ self.old.client }
        ensures under_way { OnErr result (KeepsUnderWay self.old.under_way self.new.under_way) }
        ensures next { self.new.under_way.next_token ≡ self.old.under_way.next_token }
        ensures none { IfOk result (λ reply. given_token reply ≡ None) }
        ensures reply { IfOk result (λ reply. ¬ (IsRefusal reply)) }
    {
        let Some(under_way) = self.under_way.by_token.get_mut(&token) else {
            return Err(Fault::Refused(Reason::UnknownToken));
        };
        let Some(Errand::Rest(rest)) = under_way.errand.as_mut() else {
            return Err(Fault::Refused(Reason::UnknownToken));
        };
        let body = rest.take()?;
        let left = rest.body.len() as u64;
        if left == 0 {
            self.under_way.remove(token);
        }
        Ok(Reply::Piece { token, left, body })
    }
}

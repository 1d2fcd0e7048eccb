//! Answers by a response whose body is on its way, before anything is stored.
ghost use Rattle.std.specs.Prelude.{◌≡◌, ◌⊎◌, true, IfOk, IfSome};
ghost use Rattle.http.specs.Response.{head_of, body_of};
ghost use Rattle.http_cache_store.specs.Store.{KeepsAll};
ghost use Rattle.http_cache_decisions.specs.Plan.{IsElsewhere, HasCondition};

use crate::client::Client;
use crate::receive::Pending;
use crate::tokens::{Coming, Forwarded, Validation};
use bytes::Bytes;
use http::{Request, Response, StatusCode, response};
use http_cache_decisions::asking::{Incoming, is_looked_up};
use http_cache_decisions::failure::is_usable_on_error;
use http_cache_decisions::plan::Arrived;
use http_cache_decisions::receipt::prepared;
use http_cache_decisions::renewal::of_id;
use http_cache_decisions::report::forwarded;
use http_cache_decisions::{Body, Times};
use http_cache_fields::headers::copy_of_map;
use http_cache_policy::explain::{Member, TimeLeft};
use http_cache_store::{Store, Target};
use jiff::Timestamp;
use std::alloc::{AllocError, Global};

fn copy_of(head: &response::Parts) -> Result<response::Parts, AllocError>
    ensures { IfOk result (λ copy. copy.status ≡ head.now.status) }
{
    Ok(response::Parts {
        status: head.status,
        version: head.version,
        headers: copy_of_map(&head.headers)?,
    })
}

impl<S: Store + Drop> Client<S> {
    // Returns whether a stale response may be used if the origin server fails.
    fn has_replacement(
        &mut self,
        alloc: Global,
        target: &Target,
        pending: &Pending<'_>,
        incoming: &Incoming<'_>,
        now: Timestamp,
    ) -> Result<bool, AllocError>
        ensures kept { KeepsAll (S.stored self.old.store) (S.next_id self.old.store)
            (S.stored self.new.store) (S.next_id self.new.store) }
        ensures lasting { S.lasting self.new.store ≡ S.lasting self.old.store }
    {
        let Some(id) = pending.id else {
            return Ok(false);
        };
        if !self.read(alloc, target)? {
            return Ok(false);
        }
        Ok(match of_id(self.store.found(target), id) {
            Some(one) => is_usable_on_error(one, incoming, now),
            None => false,
        })
    }

    // Returns the answer that the head makes.
    fn answer_by(
        &self,
        alloc: Global,
        pending: &Pending<'_>,
        arrived: &Arrived<'_>,
        left: TimeLeft,
        is_known: bool,
    ) -> Result<Response<Body>, AllocError>
        ensures { IfOk result (λ answer. (head_of answer).status ≡ 304
            → (is_known ≡ true) ⊎ (arrived.now.head.now.status ≡ 304)) }
    {
        let member = Member {
            stored: true,
            left: Some(left),
            ..forwarded(self.name(), pending.why, Some(arrived.head.status))
        };
        let body = match arrived.body {
            Body::Elsewhere(length) => Body::Elsewhere(*length),
            Body::Here(_) => Body::Elsewhere(None),
        };
        let response = Response::from_parts(copy_of(arrived.head)?, body);
        let received = arrived.times.received;
        let (answer, _) = prepared(alloc, response, &member, is_known, received)?;
        Ok(answer)
    }

    // Returns the answer to a response that is stored once its body is whole.
    fn coming(
        &mut self,
        alloc: Global,
        pending: &Pending<'_>,
        request: &Request<Bytes>,
        head: &response::Parts,
        length: Option<u64>,
        times: &Times,
    ) -> Result<Option<Coming>, AllocError>
        ensures kept { KeepsAll (S.stored self.old.store) (S.next_id self.old.store)
            (S.stored self.new.store) (S.next_id self.new.store) }
        ensures lasting { S.lasting self.new.store ≡ S.lasting self.old.store }
        ensures conditional { IfOk result (λ coming. IfSome coming (λ c.
            (head_of c.answer).status ≡ 304 → HasCondition request.now)) }
    {
        let status = head.status;
        if pending.is_left(status) || status == StatusCode::NOT_MODIFIED || !is_looked_up(request) {
            return Ok(None);
        }
        let incoming = Incoming::new(alloc, request)?;
        let target = Target::of(alloc, request.uri(), request.headers())?;
        let now = times.received;
        let is_replaceable = self.has_replacement(alloc, &target, pending, &incoming, now)?;
        let body = Body::Elsewhere(length);
        let arrived = Arrived {
            incoming: &incoming,
            head,
            body: &body,
            id: pending.id,
            times,
        };
        let plan = self.planned(alloc, target, &arrived)?;
        let (left, is_known) = (plan.left_if_whole, plan.is_known && !pending.is_own);
        drop(plan);
        let Some(left) = left else {
            return Ok(None);
        };
        Ok(Some(Coming {
            answer: self.answer_by(alloc, pending, &arrived, left, is_known)?,
            is_replaceable,
        }))
    }

    /// Returns the answer to a validation, by the head of a response whose body is on its way, if
    /// the response is stored once that is whole. Stores and removes nothing.
    ///
    /// After it, `receive` takes the whole response. For `None`, `receive` takes the response with
    /// its body elsewhere. `length` is the length of the body, if that is known.
    ///
    /// # Errors
    ///
    /// `AllocError` if there is not enough memory.
    pub fn receive_head(
        &mut self,
        alloc: Global,
        validation: &Validation,
        request: &Request<Bytes>,
        head: &response::Parts,
        length: Option<u64>,
        times: &Times,
    ) -> Result<Option<Coming>, AllocError>
        ensures kept { KeepsAll (S.stored self.old.store) (S.next_id self.old.store)
            (S.stored self.new.store) (S.next_id self.new.store) }
        ensures lasting { S.lasting self.new.store ≡ S.lasting self.old.store }
        ensures conditional { IfOk result (λ coming. IfSome coming (λ c.
            (head_of c.answer).status ≡ 304 → HasCondition request.now)) }
    {
        self.coming(alloc, &validation.pending(), request, head, length, times)
    }

    /// Returns the answer to the client's own request, as `receive_head` does for a validation.
    /// After it, `accept` takes the whole response.
    ///
    /// # Errors
    ///
    /// `AllocError` if there is not enough memory.
    pub fn accept_head(
        &mut self,
        alloc: Global,
        token: &Forwarded,
        request: &Request<Bytes>,
        head: &response::Parts,
        length: Option<u64>,
        times: &Times,
    ) -> Result<Option<Coming>, AllocError>
        ensures kept { KeepsAll (S.stored self.old.store) (S.next_id self.old.store)
            (S.stored self.new.store) (S.next_id self.new.store) }
        ensures lasting { S.lasting self.new.store ≡ S.lasting self.old.store }
        ensures conditional { IfOk result (λ coming. IfSome coming (λ c.
            (head_of c.answer).status ≡ 304 → HasCondition request.now)) }
    {
        self.coming(alloc, &token.pending(), request, head, length, times)
    }
}

//! Handles the outcome of a request that was sent: stores, renews or removes responses, and
//! answers.
ghost use Rattle.std.specs.Prelude.{◌≡◌, ◌≢◌, ◌⊎◌, ℕ, List, true, false, None, IfOk, IfSome, OnErr};
ghost use Rattle.http.specs.Response.{head_of, body_of};
ghost use Rattle.http_cache_store.specs.Store.{KeepsAll, KeepsMost, KeepsAllOthers};
ghost use Rattle.http_cache_store.specs.Target.{text_of};
ghost use Rattle.http_cache_decisions.specs.Plan.{Stores, IsChangeOf, IsElsewhere, IsWhole, IsKnownPlan};
ghost use Rattle.http_cache_decisions.specs.Plan.{HasCondition, is_failure};
ghost use Rattle.http_cache_client.specs.Receive.{IsWholeResponse, MayBeStored, IsConditionalReceipt};
ghost use Rattle.http_cache_client.specs.Receive.{own_text, KeepsBodyLocation};
ghost use Rattle.http_cache_client.specs.Receive.{IsAfterA304, IsAgain};
ghost use Rattle.http_cache_client.specs.Keep.{KeepsLasting};
ghost use Rattle.http_cache_decisions.specs.Asking.{incoming_seen, looked_up};
ghost use Rattle.http_cache_client.specs.Contact.{IsLost, MayFail};
ghost use Rattle.http_cache_client.specs.StandIn.{IsStandInAnswer, number_of, stand_in};
ghost use Rattle.std.specs.Prelude.{[], OnOk};
ghost use Rattle.http_cache_decisions.specs.Asking.{is_looked_up};
ghost use Rattle.http_cache_decisions.specs.Invalidate.{invalidates};
ghost use Rattle.http_cache_client.specs.Keep.{LosesOne};
ghost use Rattle.http_cache_client.specs.Taken.{is_left, stands_for, IsCommitted, IsPlannedOver, IsReceivedAs, IsTaken};
ghost use Rattle.http_cache_client.specs.Taken.{IsOutcome};
ghost use Rattle.http_cache_decisions.specs.Receipt.{IsAnswerWith};
ghost use Rattle.http_cache_decisions.specs.declared.body.Body.{Body};
ghost use Rattle.http.specs.declared.request.Request.{Request};
ghost use Rattle.http.specs.declared.response.Response.{Response};
ghost use Rattle.http_cache_rules.specs.Options.{options_of};
ghost use Rattle.std.specs.Prelude.{Bool, ℤ, ◌&&◌, not};
ghost use Rattle.http_cache_client.specs.Receive.{HasInvalidated};

use crate::client::Client;
use crate::tokens::{Forwarded, Received, Validation};
use bytes::Bytes;
use http::{Request, Response, StatusCode};
use http_cache_decisions::asking::{Incoming, is_looked_up};
use http_cache_decisions::failure::{is_failure, is_server_error, stale_reply};
use http_cache_decisions::freshen::freshened;
use http_cache_decisions::invalidate::invalidated;
use http_cache_decisions::plan::{Arrived, Change, Plan, plan_of};
use http_cache_decisions::receipt::{CacheStatuses, prepared, settled_answer};
use http_cache_decisions::report::{answer_of, forwarded};
use http_cache_decisions::{Body, Times, Why};
use http_cache_policy::explain::Member;
use http_cache_store::{ResponseId, Store, Target};
use jiff::Timestamp;
use std::alloc::{AllocError, Global};

// What Cache-Status reports of a received response.
#[derive(Clone, Copy)]
pub(crate) struct Receipt<'a> {
    pub(crate) why: &'a Why,
    pub(crate) status: StatusCode,
    pub(crate) received: Timestamp,
}

// A request that was sent: the client's own one or a validation.
#[derive(Clone, Copy)]
pub(crate) struct Pending<'a> {
    pub(crate) id: Option<ResponseId>,
    pub(crate) why: &'a Why,
    pub(crate) is_past_store: bool,
    pub(crate) is_own: bool,
}

impl Forwarded {
    pub(crate) fn pending(&self) -> Pending<'_>
        ensures id { result.id ≡ self.now.id }
        ensures unstored { result.is_past_store ≡ self.now.is_past_store }
        ensures own { result.is_own ≡ true }
    {
        Pending {
            id: self.id,
            why: &self.why,
            is_past_store: self.is_past_store,
            is_own: true,
        }
    }
}

impl Validation {
    pub(crate) fn pending(&self) -> Pending<'_>
        ensures id { result.id ≡ self.now.id }
        ensures unstored { result.is_past_store ≡ self.now.is_past_store }
        ensures own { result.is_own ≡ false }
    {
        Pending {
            id: self.id,
            why: &self.why,
            is_past_store: self.is_past_store,
            is_own: false,
        }
    }
}

// Returns the plan for the response to the client's own request, which is never answered with a 304
// instead, or to a validation.
fn for_request(plan: Plan, is_own: bool) -> Plan
    ensures change { result.change ≡ plan.change }
    ensures known { result.is_known ≡ (plan.is_known && not is_own) }
{
    Plan {
        is_known: plan.is_known && !is_own,
        ..plan
    }
}

impl Pending<'_> {
    // Returns whether a response with the status leaves what is stored (RFC 9111, section 4.3.3).
    pub(crate) fn is_left(&self, status: StatusCode) -> bool
        ensures { result ≡ is_left status self.now.is_past_store (number_of self.now.id) }
    {
        self.is_past_store || (is_server_error(status) && self.id.is_some())
    }
}

impl<S: Store + Drop> Client<S> {
    // Makes the change of the plan as the last step, and returns the answer with its Cache-Status.
    fn settle(
        &mut self,
        answer: Response<Body>,
        cache_statuses: CacheStatuses,
        plan: Plan,
    ) -> Result<Response<Body>, AllocError>
        ensures options { self.new.options ≡ self.old.options }
        ensures made { OnOk result (IsCommitted S.mark (MayFail S.can_fail)
            (S.stored self.old.store) (S.next_id self.old.store) (S.stored self.new.store)
            (S.next_id self.new.store) (S.lasting self.old.store) plan.change) }
        ensures kept { OnErr result (KeepsAll (S.stored self.old.store) (S.next_id self.old.store)
            (S.stored self.new.store) (S.next_id self.new.store)) }
        ensures stored { Stores plan.change ⊎ (S.next_id self.new.store ≡ S.next_id self.old.store) }
        ensures others { (own : List ℕ) → IsChangeOf own plan.change
            → KeepsMost (S.stored self.old.store) (S.lasting self.old.store)
            (S.stored self.new.store) own }
        ensures unchanged { plan.change ≡ Change.Nothing
            → KeepsAll (S.stored self.old.store) (S.next_id self.old.store)
            (S.stored self.new.store) (S.next_id self.new.store) }
        ensures answer { (is_known : Bool) (received : ℤ) (response : Response Body)
            → IsAnswerWith is_known received response answer
            → IfOk result (IsAnswerWith is_known received response) }
    {
        let Plan {
            change,
            says_stored,
            ..
        } = plan;
        let settled = self.commit(change)?;
        Ok(settled_answer(answer, cache_statuses, settled, says_stored))
    }

    // Returns a received response as the answer, and makes the change of the plan.
    pub(crate) fn finish(
        &mut self,
        alloc: Global,
        response: Response<Body>,
        receipt: &Receipt<'_>,
        plan: Plan,
    ) -> Result<Response<Body>, AllocError>
        ensures options { self.new.options ≡ self.old.options }
        ensures made { OnOk result (IsCommitted S.mark (MayFail S.can_fail)
            (S.stored self.old.store) (S.next_id self.old.store) (S.stored self.new.store)
            (S.next_id self.new.store) (S.lasting self.old.store) plan.change) }
        ensures kept { OnErr result (KeepsAll (S.stored self.old.store) (S.next_id self.old.store)
            (S.stored self.new.store) (S.next_id self.new.store)) }
        ensures stored { Stores plan.change ⊎ (S.next_id self.new.store ≡ S.next_id self.old.store) }
        ensures others { (own : List ℕ) → IsChangeOf own plan.change
            → KeepsMost (S.stored self.old.store) (S.lasting self.old.store)
            (S.stored self.new.store) own }
        ensures unchanged { plan.change ≡ Change.Nothing
            → KeepsAll (S.stored self.old.store) (S.next_id self.old.store)
            (S.stored self.new.store) (S.next_id self.new.store) }
        ensures answer { IfOk result
            (IsAnswerWith plan.is_known receipt.now.received.nanosecond response) }
        ensures status { IfOk result (λ sent. (head_of sent).status ≡ 304
            → (plan.is_known ≡ true) ⊎ ((head_of response).status ≡ 304)) }
        ensures body { IfOk result (λ sent. IsElsewhere (body_of sent) → IsElsewhere (body_of response)) }
    {
        let said = forwarded(self.name.as_str(), receipt.why, Some(receipt.status));
        let member = Member {
            left: plan.left,
            detail: plan.detail.or(said.detail),
            ..said
        };
        match prepared(alloc, response, &member, plan.is_known, receipt.received) {
            Ok((answer, cache_statuses)) => self.settle(answer, cache_statuses, plan),
            Err(cause) => {
                drop(plan);
                Err(cause)
            }
        }
    }

    // Returns a stale response if the origin failed and that is allowed (RFC 5861, section 4).
    fn stale_answer(
        &mut self,
        alloc: Global,
        target: &Target,
        pending: &Pending<'_>,
        incoming: &Incoming<'_>,
        status: Option<StatusCode>,
        now: Timestamp,
    ) -> Result<Option<Response<Bytes>>, AllocError>
        ensures options { self.new.options ≡ self.old.options }
        ensures kept { KeepsAll (S.stored self.old.store) (S.next_id self.old.store)
            (S.stored self.new.store) (S.next_id self.new.store) }
        ensures lasting { KeepsAllOthers (S.lasting self.old.store) (S.lasting self.new.store)
            (text_of target.now) }
        ensures loses { LosesOne (text_of target.now)
            (S.lasting self.old.store) (S.lasting self.new.store) }
        ensures conditional { IfOk result (λ answer. IfSome answer (λ sent. (head_of sent).status ≡ 304
            → HasCondition incoming.now.request.now)) }
        ensures stands_in { IfOk result (IsStandInAnswer S.mark (IsLost (MayFail S.can_fail)
            (S.lasting self.new.store (text_of target.now))) incoming.now.request.now now.nanosecond
            (stand_in (S.stored self.old.store (text_of target.now)) (incoming_seen incoming.now)
            now.nanosecond (number_of pending.now.id))) }
    {
        let Some(id) = pending.id else {
            return Ok(None);
        };
        if !self.read(alloc, target)? {
            return Ok(None);
        }
        let stored = self.store.found(target);
        let Some(mut reply) = stale_reply(alloc, stored, id, incoming, now)? else {
            return Ok(None);
        };
        let Some(body) = self.body_of(alloc, target, &mut reply)? else {
            return Ok(None);
        };
        let member = Member {
            left: Some(reply.left),
            detail: Some("stale-if-error"),
            ..forwarded(self.name.as_str(), pending.why, status)
        };
        Ok(Some(answer_of(alloc, reply.head, body, &member)?))
    }

    // Plans what to do with the response to a request that is looked up.
    pub(crate) fn planned(
        &mut self,
        alloc: Global,
        target: Target,
        arrived: &Arrived<'_>,
    ) -> Result<Plan, AllocError>
        ensures options { self.new.options ≡ self.old.options }
        ensures kept { KeepsAll (S.stored self.old.store) (S.next_id self.old.store)
            (S.stored self.new.store) (S.next_id self.new.store) }
        ensures lasting { S.lasting self.new.store ≡ S.lasting self.old.store }
        ensures planned { IfOk result (λ plan. IsPlannedOver S.mark arrived.now
            (options_of self.old.options) (S.stored self.old.store (text_of target)) plan
            ⊎ (MayFail S.can_fail × (plan.change ≡ Change.Nothing) × (plan.is_known ≡ false))) }
        ensures whole { IfOk result (λ plan. Stores plan.change → IsWhole arrived.now) }
        ensures known { IfOk result (IsKnownPlan arrived.now) }
        ensures target { IfOk result (λ plan. IsChangeOf (text_of target) plan.change) }
    {
        if !self.read(alloc, &target)? {
            return Ok(Plan::nothing(Some("store failed")));
        }
        let stored = self.store.found(&target);
        if let Some(change) = freshened(alloc, &target, stored, arrived, &self.options)? {
            return Ok(Plan::of(change));
        }
        let plan = plan_of(alloc, target, stored, arrived, &self.options)?;
        Ok(plan)
    }

    // Stores the response if that is allowed (RFC 9111, section 3), and answers with it.
    fn stored(
        &mut self,
        alloc: Global,
        target: Target,
        pending: &Pending<'_>,
        incoming: &Incoming<'_>,
        response: Response<Body>,
        times: &Times,
    ) -> Result<Response<Body>, AllocError>
        ensures options { self.new.options ≡ self.old.options }
        ensures kept { OnErr result (KeepsAll (S.stored self.old.store) (S.next_id self.old.store)
            (S.stored self.new.store) (S.next_id self.new.store)) }
        ensures others { KeepsMost (S.stored self.old.store) (S.lasting self.old.store)
            (S.stored self.new.store) (text_of target) }
        ensures received { incoming_seen incoming.now ≡ looked_up incoming.now.request.now
            → text_of target ≡ own_text incoming.now.request.now
            → IfOk result (IsReceivedAs S.mark (MayFail S.can_fail) (options_of self.old.options)
            incoming.now.request.now times.now pending.now.id (S.stored self.old.store)
            (S.next_id self.old.store) (S.stored self.new.store) (S.next_id self.new.store)
            false pending.now.is_own (S.lasting self.old.store) response) }
        ensures complete { IsWholeResponse incoming.now.request.now response
            ⊎ (S.next_id self.new.store ≡ S.next_id self.old.store) }
        ensures status { IfOk result (λ sent. (head_of sent).status ≡ 304
            → HasCondition incoming.now.request.now
            ⊎ ((head_of response).status ≡ 304)) }
        ensures body { IfOk result (λ sent. IsElsewhere (body_of sent) → IsElsewhere (body_of response)) }
    {
        let (head, body) = response.into_parts();
        let arrived = Arrived {
            incoming,
            head: &head,
            body: &body,
            id: pending.id,
            times,
        };
        let plan = self.planned(alloc, target, &arrived)?;
        let plan = for_request(plan, pending.is_own);
        let receipt = Receipt {
            why: pending.why,
            status: head.status,
            received: times.received,
        };
        let answer = self.finish(alloc, Response::from_parts(head, body), &receipt, plan)?;
        Ok(answer)
    }

    // Returns the stale response that stands in if the status is that of a failed origin server (RFC
    // 5861, section 4).
    fn stood_in(
        &mut self,
        alloc: Global,
        target: &Target,
        pending: &Pending<'_>,
        incoming: &Incoming<'_>,
        status: StatusCode,
        now: Timestamp,
    ) -> Result<Option<Response<Bytes>>, AllocError>
        ensures options { self.new.options ≡ self.old.options }
        ensures kept { KeepsAll (S.stored self.old.store) (S.next_id self.old.store)
            (S.stored self.new.store) (S.next_id self.new.store) }
        ensures lasting { KeepsAllOthers (S.lasting self.old.store) (S.lasting self.new.store)
            (text_of target.now) }
        ensures loses { LosesOne (text_of target.now)
            (S.lasting self.old.store) (S.lasting self.new.store) }
        ensures conditional { IfOk result (λ answer. IfSome answer (λ sent. (head_of sent).status ≡ 304
            → HasCondition incoming.now.request.now)) }
        ensures stands_in { IfOk result (IsStandInAnswer S.mark (IsLost (MayFail S.can_fail)
            (S.lasting self.new.store (text_of target.now))) incoming.now.request.now now.nanosecond
            (stands_for (incoming_seen incoming.now) now.nanosecond status
            (number_of pending.now.id) (S.stored self.old.store (text_of target.now)))) }
    {
        if !is_failure(status) {
            return Ok(None);
        }
        let answer = self.stale_answer(alloc, target, pending, incoming, Some(status), now)?;
        Ok(answer)
    }

    // Answers with the response. What is stored is kept if the origin server failed (RFC 9111,
    // section 4.3.3).
    fn received(
        &mut self,
        alloc: Global,
        target: Target,
        pending: &Pending<'_>,
        incoming: &Incoming<'_>,
        response: Response<Body>,
        times: &Times,
    ) -> Result<Response<Body>, AllocError>
        ensures options { self.new.options ≡ self.old.options }
        ensures kept { OnErr result (KeepsAll (S.stored self.old.store) (S.next_id self.old.store)
            (S.stored self.new.store) (S.next_id self.new.store)) }
        ensures others { KeepsMost (S.stored self.old.store) (S.lasting self.old.store)
            (S.stored self.new.store) (text_of target) }
        ensures received { incoming_seen incoming.now ≡ looked_up incoming.now.request.now
            → text_of target ≡ own_text incoming.now.request.now
            → IfOk result (IsReceivedAs S.mark (MayFail S.can_fail) (options_of self.old.options)
            incoming.now.request.now times.now pending.now.id (S.stored self.old.store)
            (S.next_id self.old.store) (S.stored self.new.store) (S.next_id self.new.store)
            (is_left (head_of response).status pending.now.is_past_store
            (number_of pending.now.id)) pending.now.is_own (S.lasting self.old.store) response) }
        ensures complete { IsWholeResponse incoming.now.request.now response
            ⊎ (S.next_id self.new.store ≡ S.next_id self.old.store) }
        ensures left { is_left (head_of response).status pending.now.is_past_store
            (number_of pending.now.id) ≡ true
            → KeepsAll (S.stored self.old.store) (S.next_id self.old.store)
            (S.stored self.new.store) (S.next_id self.new.store) }
        ensures status { IfOk result (λ sent. (head_of sent).status ≡ 304
            → HasCondition incoming.now.request.now
            ⊎ ((head_of response).status ≡ 304)) }
        ensures body { IfOk result (λ sent. IsElsewhere (body_of sent) → IsElsewhere (body_of response)) }
    {
        let status = response.status();
        if pending.is_left(status) {
            let receipt = Receipt {
                why: pending.why,
                status,
                received: times.received,
            };
            let answer = self.finish(alloc, response, &receipt, Plan::nothing(None))?;
            return Ok(answer);
        }
        let answer = self.stored(alloc, target, pending, incoming, response, times)?;
        Ok(answer)
    }

    // Answers a request that is looked up, by the response or by a stored one that stands in.
    fn taken(
        &mut self,
        alloc: Global,
        pending: &Pending<'_>,
        incoming: &Incoming<'_>,
        response: Response<Body>,
        times: &Times,
    ) -> Result<Response<Body>, AllocError>
        ensures options { self.new.options ≡ self.old.options }
        ensures kept { OnErr result (KeepsAll (S.stored self.old.store) (S.next_id self.old.store)
            (S.stored self.new.store) (S.next_id self.new.store)) }
        ensures others { KeepsMost (S.stored self.old.store) (S.lasting self.old.store)
            (S.stored self.new.store) (own_text incoming.now.request.now) }
        ensures taken { incoming_seen incoming.now ≡ looked_up incoming.now.request.now
            → IfOk result (IsTaken S.mark (MayFail S.can_fail) (options_of self.old.options)
            incoming.now.request.now times.now pending.now.id (S.stored self.old.store)
            (S.next_id self.old.store) (S.stored self.new.store) (S.next_id self.new.store)
            (S.lasting self.old.store) pending.now.is_past_store pending.now.is_own response) }
        ensures complete { IsWholeResponse incoming.now.request.now response
            ⊎ (S.next_id self.new.store ≡ S.next_id self.old.store) }
        ensures unstored { pending.now.is_past_store ≡ true
            → S.next_id self.new.store ≡ S.next_id self.old.store }
        ensures failure { is_failure (head_of response).status ≡ true → pending.now.id ≢ None
            → KeepsAll (S.stored self.old.store) (S.next_id self.old.store)
            (S.stored self.new.store) (S.next_id self.new.store) }
        ensures status { IfOk result (λ sent. (head_of sent).status ≡ 304
            → HasCondition incoming.now.request.now
            ⊎ ((head_of response).status ≡ 304)) }
        ensures body { IfOk result (λ sent. IsElsewhere (body_of sent) → IsElsewhere (body_of response)) }
    {
        let request = incoming.request();
        let target = Target::of(alloc, request.uri(), request.headers())?;
        let now = times.received;
        let stale = self.stood_in(alloc, &target, pending, incoming, response.status(), now)?;
        if let Some(answer) = stale {
            let (head, body) = answer.into_parts();
            return Ok(Response::from_parts(head, Body::Here(body)));
        }
        let answer = self.received(alloc, target, pending, incoming, response, times)?;
        Ok(answer)
    }

    /// Takes the response to a validation, and returns the answer to the client's request, or the
    /// client's own request to send (RFC 9111, section 4.3.3).
    ///
    /// - A 304 that confirms the stored response renews it. Any other 304 removes it. A 304
    ///   confirms nothing if the stored response was removed or replaced meanwhile.
    /// - A 5xx leaves what is stored. A 500, 502, 503 or 504 is replaced by the stale response if
    ///   `stale_use` allows that (RFC 5861, section 4).
    /// - Any other response is the answer, and is stored if that is allowed (RFC 9111, section 3).
    ///
    /// `request` is the request that was passed to `ask`. The token is spent only on success.
    ///
    /// # Errors
    ///
    /// `AllocError` if there is not enough memory. What is stored is then as it was.
    pub fn receive(
        &mut self,
        alloc: Global,
        validation: &mut Validation,
        request: &Request<Bytes>,
        response: Response<Body>,
        times: Times,
    ) -> Result<Received, AllocError>
        ensures options { self.new.options ≡ self.old.options }
        ensures kept { OnErr result (KeepsAll (S.stored self.old.store) (S.next_id self.old.store)
            (S.stored self.new.store) (S.next_id self.new.store)) }
        ensures others { KeepsMost (S.stored self.old.store) (S.lasting self.old.store)
            (S.stored self.new.store) (own_text request.now) }
        ensures lasting { IfOk result (λ received. IsAgain received
            → KeepsLasting (S.stored self.old.store) (S.lasting self.old.store)
            (S.stored self.new.store) (S.lasting self.new.store) (own_text request.now)) }
        ensures complete { IsWholeResponse request.now response
            ⊎ (S.next_id self.new.store ≡ S.next_id self.old.store) }
        ensures unstored { validation.old.is_past_store ≡ true
            → S.next_id self.new.store ≡ S.next_id self.old.store }
        ensures failure { is_failure (head_of response).status ≡ true → validation.old.id ≢ None
            → KeepsAll (S.stored self.old.store) (S.next_id self.old.store)
            (S.stored self.new.store) (S.next_id self.new.store) }
        ensures conditional { IfOk result (IsConditionalReceipt request.now) }
        ensures whose_body { IfOk result (KeepsBodyLocation response) }
        ensures outcome { IfOk result (IsOutcome S.mark (MayFail S.can_fail)
            (options_of self.old.options) request.now times validation.old.id
            (S.stored self.old.store) (S.next_id self.old.store) (S.stored self.new.store)
            (S.next_id self.new.store) (S.lasting self.old.store) validation.old.is_past_store
            response) }
        ensures again { IfOk result (IsAfterA304 response) }
        ensures unspent { OnErr result (validation.new.id ≡ validation.old.id) }
    {
        let incoming = Incoming::new(alloc, request)?;
        if response.status() == StatusCode::NOT_MODIFIED {
            return self.validated(alloc, validation, &incoming, response, &times);
        }
        let answer = self.taken(alloc, &validation.pending(), &incoming, response, &times)?;
        validation.id = None;
        Ok(Received::Answer(answer))
    }

    /// Takes the response to the client's own request, and returns the answer. A stale response
    /// replaces it if the origin failed and `stale_use` allows that (RFC 5861, section 4).
    ///
    /// The response is stored if the request is looked up and storing is allowed (RFC 9111, section
    /// 3). A response without an error to an unsafe request removes what is stored for its targets:
    /// its own, and those at the same origin in Location and Content-Location (RFC 9111, section
    /// 4.4). If the store fails, nothing is stored, and Cache-Status says so. The token is spent
    /// only on success.
    ///
    /// # Errors
    ///
    /// `AllocError` if there is not enough memory. What is stored is then as it was.
    pub fn accept(
        &mut self,
        alloc: Global,
        token: &mut Forwarded,
        request: &Request<Bytes>,
        response: Response<Body>,
        times: Times,
    ) -> Result<Response<Body>, AllocError>
        ensures options { self.new.options ≡ self.old.options }
        ensures invalidated { invalidates request.now (head_of response).status ≡ true
            → OnOk result (S.stored self.new.store (own_text request.now) ≡ []) }
        ensures removed { invalidates request.now (head_of response).status ≡ true
            → OnOk result (HasInvalidated request.now (head_of response)
            (S.lasting self.old.store) (S.stored self.new.store)) }
        ensures taken { is_looked_up request.now ≡ true
            → IfOk result (IsTaken S.mark (MayFail S.can_fail) (options_of self.old.options)
            request.now times token.old.id (S.stored self.old.store) (S.next_id self.old.store)
            (S.stored self.new.store) (S.next_id self.new.store) (S.lasting self.old.store)
            token.old.is_past_store true response) }
        ensures passed { is_looked_up request.now ≡ false
            → IfOk result (IsAnswerWith false times.received.nanosecond response) }
        ensures unchanged { is_looked_up request.now ≡ false
            → invalidates request.now (head_of response).status ≡ false
            → KeepsAll (S.stored self.old.store) (S.next_id self.old.store)
            (S.stored self.new.store) (S.next_id self.new.store) }
        ensures kept { OnErr result (KeepsAll (S.stored self.old.store) (S.next_id self.old.store)
            (S.stored self.new.store) (S.next_id self.new.store)) }
        ensures others { KeepsMost (S.stored self.old.store) (S.lasting self.old.store)
            (S.stored self.new.store) (own_text request.now) }
        ensures complete { MayBeStored request.now response
            ⊎ (S.next_id self.new.store ≡ S.next_id self.old.store) }
        ensures unstored { token.old.is_past_store ≡ true
            → S.next_id self.new.store ≡ S.next_id self.old.store }
        ensures failure { is_failure (head_of response).status ≡ true → token.old.id ≢ None
            → KeepsAll (S.stored self.old.store) (S.next_id self.old.store)
            (S.stored self.new.store) (S.next_id self.new.store) }
        ensures conditional { IfOk result (λ answer. (head_of answer).status ≡ 304
            → HasCondition request.now ⊎ ((head_of response).status ≡ 304)) }
        ensures whose_body { IfOk result (λ answer. IsElsewhere (body_of answer)
            → IsElsewhere (body_of response)) }
        ensures unspent { OnErr result (token.new ≡ token.old) }
    {
        if !is_looked_up(request) {
            return self.passed(alloc, token, request, response, times.received);
        }
        let incoming = Incoming::new(alloc, request)?;
        let answer = self.taken(alloc, &token.pending(), &incoming, response, &times)?;
        token.id = None;
        Ok(answer)
    }

    // Answers a request that isn't looked up or bypasses the store.
    pub(crate) fn passed(
        &mut self,
        alloc: Global,
        token: &Forwarded,
        request: &Request<Bytes>,
        response: Response<Body>,
        received: Timestamp,
    ) -> Result<Response<Body>, AllocError>
        ensures options { self.new.options ≡ self.old.options }
        ensures invalidated { invalidates request.now (head_of response).status ≡ true
            → OnOk result (S.stored self.new.store (own_text request.now) ≡ []) }
        ensures removed { invalidates request.now (head_of response).status ≡ true
            → OnOk result (HasInvalidated request.now (head_of response)
            (S.lasting self.old.store) (S.stored self.new.store)) }
        ensures answer { IfOk result (IsAnswerWith false received.nanosecond response) }
        ensures unchanged { invalidates request.now (head_of response).status ≡ false
            → KeepsAll (S.stored self.old.store) (S.next_id self.old.store)
            (S.stored self.new.store) (S.next_id self.new.store) }
        ensures kept { OnErr result (KeepsAll (S.stored self.old.store) (S.next_id self.old.store)
            (S.stored self.new.store) (S.next_id self.new.store)) }
        ensures others { KeepsMost (S.stored self.old.store) (S.lasting self.old.store)
            (S.stored self.new.store) (own_text request.now) }
        ensures stored { S.next_id self.new.store ≡ S.next_id self.old.store }
        ensures failure { is_failure (head_of response).status ≡ true
            → KeepsAll (S.stored self.old.store) (S.next_id self.old.store)
            (S.stored self.new.store) (S.next_id self.new.store) }
        ensures status { IfOk result (λ sent. (head_of sent).status ≡ 304
            → (head_of response).status ≡ 304) }
        ensures body { IfOk result (λ sent. IsElsewhere (body_of sent) → IsElsewhere (body_of response)) }
    {
        let (head, body) = response.into_parts();
        let plan = Plan::of(invalidated(alloc, request, &head)?);
        let receipt = Receipt {
            why: &token.why,
            status: head.status,
            received,
        };
        self.finish(alloc, Response::from_parts(head, body), &receipt, plan)
    }

    /// Returns the stale response to a request that got no response from the origin server, if
    /// `stale_use` allows that (RFC 5861, section 4).
    ///
    /// For a validation, first call `into_forwarded` on its token. The token is spent only on
    /// success.
    ///
    /// # Errors
    ///
    /// `AllocError` if there is not enough memory.
    pub fn without_response(
        &mut self,
        alloc: Global,
        token: &mut Forwarded,
        request: &Request<Bytes>,
        now: Timestamp,
    ) -> Result<Option<Response<Bytes>>, AllocError>
        ensures options { self.new.options ≡ self.old.options }
        ensures kept { KeepsAll (S.stored self.old.store) (S.next_id self.old.store)
            (S.stored self.new.store) (S.next_id self.new.store) }
        ensures lasting { KeepsAllOthers (S.lasting self.old.store) (S.lasting self.new.store)
            (own_text request.now) }
        ensures conditional { IfOk result (λ answer. IfSome answer (λ sent.
            (head_of sent).status ≡ 304 → HasCondition request.now)) }
        ensures stands_in { IfOk result (IsStandInAnswer S.mark (IsLost (MayFail S.can_fail)
            (S.lasting self.new.store (own_text request.now))) request.now now.nanosecond
            (stand_in (S.stored self.old.store (own_text request.now)) (looked_up request.now)
            now.nanosecond (number_of token.old.id))) }
        ensures unspent { OnErr result (token.new ≡ token.old) }
    {
        let incoming = Incoming::new(alloc, request)?;
        let target = Target::of(alloc, request.uri(), request.headers())?;
        let pending = token.pending();
        let answer = self.stale_answer(alloc, &target, &pending, &incoming, None, now)?;
        token.id = None;
        Ok(answer)
    }
}

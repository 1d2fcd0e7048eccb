//! Handles a 304 to a validation: renews the stored response that it confirms, or removes it (RFC
//! 9111, sections 4.3.3 and 4.3.4).
ghost use Rattle.std.specs.Prelude.{◌≡◌, ℕ, List, false, None, IfOk, IfSome, OnErr};
ghost use Rattle.http.specs.Response.{head_of, body_of};
ghost use Rattle.http_cache_store.specs.Store.{KeepsAll, KeepsMost, KeepsAllOthers};
ghost use Rattle.http_cache_store.specs.Target.{text_of};
ghost use Rattle.http_cache_decisions.specs.Plan.{Stores, IsChangeOf, IsElsewhere};
ghost use Rattle.http_cache_decisions.specs.Plan.{HasCondition};
ghost use Rattle.http_cache_client.specs.Receive.{IsConditionalReceipt};
ghost use Rattle.http_cache_client.specs.Receive.{own_text};
ghost use Rattle.http_cache_client.specs.Receive.{HasBodyHere, IsAgain};
ghost use Rattle.http_cache_client.specs.Keep.{KeepsLasting};
ghost use Rattle.http_cache_decisions.specs.Asking.{incoming_seen, looked_up};
ghost use Rattle.http_cache_client.specs.Contact.{IsLost, MayFail};
ghost use Rattle.http_cache_client.specs.Keep.{LosesOne};
ghost use Rattle.http_cache_client.specs.Course.{IsForwardOf};
ghost use Rattle.http_cache_client.specs.Taken.{IsArrival, IsByRenewal, IsConfirmed, IsRemovedIfAny};
ghost use Rattle.http_cache_client.specs.Taken.{IsUnconfirmedFor, IsValidated};
ghost use Rattle.http_cache_decisions.specs.declared.body.Body.{Body};
ghost use Rattle.http.specs.declared.request.Request.{Request};
ghost use Rattle.http.specs.declared.response.Response.{Response};
ghost use Rattle.http_cache_rules.specs.Options.{options_of};

use crate::client::Client;
use crate::receive::Receipt;
use crate::tokens::{Forwarded, Received, Validation};
use http::{Response, StatusCode};
use http_cache_decisions::asking::Incoming;
use http_cache_decisions::plan::Arrived;
use http_cache_decisions::renewal::{Renewal, renewal_of};
use http_cache_decisions::{Body, Times, Why};
use http_cache_policy::explain::Forward;
use http_cache_store::{Store, Target};
use std::alloc::{AllocError, Global};
use std::mem;

impl<S: Store + Drop> Client<S> {
    // Removes a stored response that a 304 didn't confirm.
    fn unconfirmed(&mut self, target: &Target, validation: &mut Validation) -> Forwarded
        ensures options { self.new.options ≡ self.old.options }
        ensures lasting { KeepsLasting (S.stored self.old.store) (S.lasting self.old.store)
            (S.stored self.new.store) (S.lasting self.new.store) (text_of target.now) }
        ensures own { IsForwardOf None false result }
        ensures removed { (request : Request (List ℕ)) → text_of target.now ≡ own_text request
            → IsRemovedIfAny request (S.stored self.old.store) (S.next_id self.old.store)
            (S.stored self.new.store) (S.next_id self.new.store) validation.old.id
            (S.lasting self.old.store) }
        ensures stored { S.next_id self.new.store ≡ S.next_id self.old.store }
    {
        if let Some(id) = validation.id {
            let ids = [id];
            self.store.remove(target, &ids);
        }
        validation.id = None;
        let why = mem::replace(&mut validation.why, Why::of(Forward::Miss));
        Forwarded::of(None, why)
    }

    // Returns the answer by a stored response that a 304 confirmed (RFC 9111, section 4.3.4), or None
    // if the store has lost its body.
    fn confirmed(
        &mut self,
        alloc: Global,
        target: &Target,
        receipt: &Receipt<'_>,
        renewal: Renewal,
    ) -> Result<Option<Response<Body>>, AllocError>
        requires stored { ¬ (Stores renewal.plan.change) }
        requires known { renewal.plan.is_known ≡ false }
        requires target { IsChangeOf (text_of target.now) renewal.plan.change }
        ensures options { self.new.options ≡ self.old.options }
        ensures kept { OnErr result (KeepsAll (S.stored self.old.store) (S.next_id self.old.store)
            (S.stored self.new.store) (S.next_id self.new.store)) }
        ensures lost { IfOk result (λ answer. answer ≡ None
            → KeepsAll (S.stored self.old.store) (S.next_id self.old.store)
            (S.stored self.new.store) (S.next_id self.new.store)) }
        ensures lasting { IfOk result (λ answer. answer ≡ None
            → KeepsAllOthers (S.lasting self.old.store) (S.lasting self.new.store)
            (text_of target.now)) }
        ensures others { KeepsMost (S.stored self.old.store) (S.lasting self.old.store)
            (S.stored self.new.store) (text_of target.now) }
        ensures stored { S.next_id self.new.store ≡ S.next_id self.old.store }
        ensures answer { IfOk result (λ answer. IfSome answer (IsByRenewal S.mark
            (MayFail S.can_fail) receipt.now.received.nanosecond (text_of target.now)
            (S.stored self.old.store) (S.next_id self.old.store) (S.stored self.new.store)
            (S.next_id self.new.store) (S.lasting self.old.store) renewal)) }
        ensures loses { IfOk result (λ answer. answer ≡ None → LosesOne (text_of target.now)
            (S.lasting self.old.store) (S.lasting self.new.store)) }
        ensures unavailable { IfOk result (λ answer. answer ≡ None → IsLost (MayFail S.can_fail)
            (S.lasting self.new.store (text_of target.now)) renewal.reply.id.0) }
        ensures status { IfOk result (λ answer. IfSome answer (λ sent. (head_of sent).status ≡ 304
            → renewal.reply.head.status ≡ 304)) }
        ensures here { IfOk result (λ answer. IfSome answer (λ sent. ¬ (IsElsewhere (body_of sent)))) }
    {
        let Renewal {
            mut reply,
            mut plan,
        } = renewal;
        match self.body_of(alloc, target, &mut reply) {
            Ok(Some(body)) => {
                plan.left = Some(reply.left);
                let response = Response::from_parts(reply.head, Body::Here(body));
                match self.finish(alloc, response, receipt, plan) {
                    Ok(answer) => Ok(Some(answer)),
                    Err(cause) => Err(cause),
                }
            }
            Ok(None) => {
                drop(plan);
                Ok(None)
            }
            Err(cause) => {
                drop(plan);
                Err(cause)
            }
        }
    }

    // Returns the answer by the stored response that a 304 confirms, or None if there is none, the
    // store failed, or it has lost the body.
    fn renewed(
        &mut self,
        alloc: Global,
        target: &Target,
        validation: &Validation,
        arrived: &Arrived<'_>,
        receipt: &Receipt<'_>,
    ) -> Result<Option<Response<Body>>, AllocError>
        ensures options { self.new.options ≡ self.old.options }
        ensures kept { OnErr result (KeepsAll (S.stored self.old.store) (S.next_id self.old.store)
            (S.stored self.new.store) (S.next_id self.new.store)) }
        ensures none { IfOk result (λ answer. answer ≡ None
            → KeepsAll (S.stored self.old.store) (S.next_id self.old.store)
            (S.stored self.new.store) (S.next_id self.new.store)) }
        ensures lasting { IfOk result (λ answer. answer ≡ None
            → KeepsAllOthers (S.lasting self.old.store) (S.lasting self.new.store)
            (text_of target.now)) }
        ensures loses { IfOk result (λ answer. answer ≡ None → LosesOne (text_of target.now)
            (S.lasting self.old.store) (S.lasting self.new.store)) }
        ensures others { KeepsMost (S.stored self.old.store) (S.lasting self.old.store)
            (S.stored self.new.store) (text_of target.now) }
        ensures confirmed { (request : Request (List ℕ)) (response : Response Body)
            → IsArrival request response validation.now.id arrived.now.times.now arrived.now
            → receipt.now.received.nanosecond ≡ arrived.now.times.now.received.nanosecond
            → text_of target.now ≡ own_text request
            → IfOk result (λ answer. IfSome answer (IsConfirmed S.mark (MayFail S.can_fail)
            (options_of self.old.options) request arrived.now.times.now validation.now.id
            (S.stored self.old.store) (S.next_id self.old.store) (S.stored self.new.store)
            (S.next_id self.new.store) (S.lasting self.old.store) response)) }
        ensures unconfirmed { (request : Request (List ℕ)) (response : Response Body)
            → IsArrival request response validation.now.id arrived.now.times.now arrived.now
            → text_of target.now ≡ own_text request
            → IfOk result (λ answer. answer ≡ None → IsUnconfirmedFor (MayFail S.can_fail)
            (options_of self.old.options) request arrived.now.times.now validation.now.id
            validation.now.is_past_store (S.stored self.old.store) (S.lasting self.new.store) response) }
        ensures stored { S.next_id self.new.store ≡ S.next_id self.old.store }
        ensures status { IfOk result (λ answer. IfSome answer (λ sent. (head_of sent).status ≡ 304
            → HasCondition arrived.now.incoming.now.request.now)) }
        ensures here { IfOk result (λ answer. IfSome answer (λ sent. ¬ (IsElsewhere (body_of sent)))) }
    {
        let Some(id) = validation.id else {
            return Ok(None);
        };
        if validation.is_past_store {
            return Ok(None);
        }
        if !self.read(alloc, target)? {
            return Ok(None);
        }
        let stored = self.store.found(target);
        let renewal = renewal_of(alloc, target, stored, id, arrived, &self.options)?;
        let Some(renewal) = renewal else {
            return Ok(None);
        };
        let answer = self.confirmed(alloc, target, receipt, renewal)?;
        Ok(answer)
    }

    // Handles a 304 to a validation (RFC 9111, section 4.3.3).
    pub(crate) fn validated(
        &mut self,
        alloc: Global,
        validation: &mut Validation,
        incoming: &Incoming<'_>,
        response: Response<Body>,
        times: &Times,
    ) -> Result<Received, AllocError>
        ensures options { self.new.options ≡ self.old.options }
        ensures kept { OnErr result (KeepsAll (S.stored self.old.store) (S.next_id self.old.store)
            (S.stored self.new.store) (S.next_id self.new.store)) }
        ensures others { KeepsMost (S.stored self.old.store) (S.lasting self.old.store)
            (S.stored self.new.store) (own_text incoming.now.request.now) }
        ensures lasting { IfOk result (λ received. IsAgain received
            → KeepsLasting (S.stored self.old.store) (S.lasting self.old.store)
            (S.stored self.new.store) (S.lasting self.new.store) (own_text incoming.now.request.now)) }
        ensures outcome { incoming_seen incoming.now ≡ looked_up incoming.now.request.now
            → IfOk result (IsValidated S.mark (MayFail S.can_fail) (options_of self.old.options)
            incoming.now.request.now times.now validation.old.id (S.stored self.old.store)
            (S.next_id self.old.store) (S.stored self.new.store) (S.next_id self.new.store)
            (S.lasting self.old.store) validation.old.is_past_store response) }
        ensures stored { S.next_id self.new.store ≡ S.next_id self.old.store }
        ensures conditional { IfOk result (IsConditionalReceipt incoming.now.request.now) }
        ensures here { IfOk result HasBodyHere }
        ensures unspent { OnErr result (validation.new.id ≡ validation.old.id) }
    {
        let request = incoming.request();
        let target = Target::of(alloc, request.uri(), request.headers())?;
        let (head, body) = response.into_parts();
        let arrived = Arrived {
            incoming,
            head: &head,
            body: &body,
            id: validation.id,
            times,
        };
        let receipt = Receipt {
            why: &validation.why,
            status: StatusCode::NOT_MODIFIED,
            received: times.received,
        };
        let renewed = self.renewed(alloc, &target, validation, &arrived, &receipt)?;
        if let Some(answer) = renewed {
            validation.id = None;
            return Ok(Received::Answer(answer));
        }
        Ok(Received::Again(self.unconfirmed(&target, validation)))
    }
}

//! Decides what to do with a request: answer it, validate a stored response, or forward it.
ghost use Rattle.std.specs.Prelude.{◌≡◌, ℕ, List, [], true, None, IfOk, IfSome};
ghost use Rattle.http.specs.Response.{head_of as head_of_response, body_of as body_of_response};
ghost use Rattle.http_cache_decisions.specs.Asking.{incoming_seen, is_looked_up, looked_up};
ghost use Rattle.http_cache_store.specs.Store.{KeepsAll, KeepsAllOthers};
ghost use Rattle.http_cache_store.specs.Target.{text_of};
ghost use Rattle.http_cache_client.specs.Ask.{fields_of, IsOfStore, IsCleanValidation, IsCleanDecision};
ghost use Rattle.http_cache_client.specs.Ask.{IsConditionalDecision, IsCleanContact};
ghost use Rattle.http_cache_client.specs.Ask.{IsConditionalContact, IsAnswer, IsOnlyIfCached};
ghost use Rattle.http_cache_client.specs.Ask.{is_only_if_cached};
ghost use Rattle.http_cache_client.specs.Contact.{IsPlainContact, IsContactBy, IsContactAfter};
ghost use Rattle.http_cache_client.specs.Contact.{IsByReply, IsForwarding, IsLost, IsUsedWhile};
ghost use Rattle.http_cache_client.specs.Contact.{IsCarriedOut, IsFreshReply, MayFail};
ghost use Rattle.http_cache_decisions.specs.Reply.{IsConditionalReply};
ghost use Rattle.http_cache_client.specs.Course.{IsDecisionFor, IsForwardOf, course, course_among};
ghost use Rattle.http_cache_client.specs.Hit.{IsHitIfAnswer};
ghost use Rattle.http_cache_client.specs.Receive.{own_text};

use crate::client::Client;
use crate::tokens::{Decision, Forwarded, Validation};
use bytes::Bytes;
use http::{HeaderMap, Method, Request, Response, StatusCode, Version, response};
use http_cache_decisions::Why;
use http_cache_decisions::asking::{Incoming, is_looked_up};
use http_cache_decisions::judge::{Selected, select};
use http_cache_decisions::outgoing::validation_request;
use http_cache_decisions::reply::Reply;
use http_cache_decisions::report::{answer_of, generated, hit, store_failed, why_of};
use http_cache_fields::CacheError;
use http_cache_policy::explain::Forward;
use http_cache_store::worth::has_validator;
use http_cache_store::{Store, StoredResponse, Target};
use jiff::Timestamp;
use std::alloc::{AllocError, Global};

// What to do with a request that no stored response may answer without validation.
#[derive(Drop)]
enum OriginContact {
    // The stale response may answer the request while it is validated.
    UseWhile(Reply, Validation),
    Validate(Validation),
    Forward(Forwarded),
}

// Returns the request that validates `stored`. It is the client's own request if `stored` has no
// validator (RFC 9111, section 4.3.1) or no validation request can be made.
fn validation_of(
    alloc: Global,
    stored: &StoredResponse,
    incoming: &Incoming<'_>,
    said: Why,
) -> Result<OriginContact, AllocError>
    ensures clean { IfOk result IsCleanContact }
    ensures conditional { IfOk result
        (IsConditionalContact (fields_of incoming.now.request.now)) }
    ensures plain { IfOk result (IsPlainContact incoming.now.request.now stored.now) }
{
    if !has_validator(stored.policy.stored_headers()) {
        return Ok(OriginContact::Forward(Forwarded::of(Some(stored.id), said)));
    }
    match validation_request(alloc, incoming.request(), &stored.policy) {
        Ok(request) => Ok(OriginContact::Validate(Validation {
            id: Some(stored.id),
            why: said,
            is_past_store: false,
            request: Box::new(alloc, request)?,
        })),
        Err(CacheError::Memory) => Err(AllocError),
        Err(_) => Ok(OriginContact::Forward(Forwarded::of(Some(stored.id), said))),
    }
}

// Handles a stored response that matches the request and has to be validated. It may answer while
// it is validated if `stale_use` allows that (RFC 5861, section 3).
fn matching(
    alloc: Global,
    stored: &StoredResponse,
    incoming: &Incoming<'_>,
    why: Why,
    now: Timestamp,
) -> Result<OriginContact, AllocError>
    ensures clean { IfOk result IsCleanContact }
    ensures conditional { IfOk result
        (IsConditionalContact (fields_of incoming.now.request.now)) }
    ensures by { IfOk result (IsContactBy incoming.now.request.now (incoming_seen incoming.now)
        now.nanosecond stored.now) }
{
    let contact = validation_of(alloc, stored, incoming, why)?;
    let asking = incoming.asking(stored.policy.stored_method());
    if !stored.policy.stale_use(&asking, now).while_revalidate {
        return Ok(contact);
    }
    let Some(reply) = Reply::of(alloc, stored, incoming, now)? else {
        return Ok(contact);
    };
    match contact {
        OriginContact::Validate(due) => Ok(OriginContact::UseWhile(reply, due)),
        other => {
            drop(reply);
            Ok(other)
        }
    }
}

// Returns the answer by a response that may be used without validation, if it can be sent.
fn fresh_reply(
    alloc: Global,
    selected: Selected<'_>,
    incoming: &Incoming<'_>,
    now: Timestamp,
) -> Result<Option<Reply>, AllocError>
    ensures conditional { IfOk result (IsConditionalReply (fields_of incoming.now.request.now)) }
    ensures reply { IfOk result (IsFreshReply incoming.now.request.now now.nanosecond selected.entry) }
{
    match selected {
        Selected::Fresh(one) => Reply::of(alloc, one, incoming, now),
        Selected::Matching(..) | Selected::Other(_) | Selected::Nothing => Ok(None),
    }
}

// Handles a request that no stored response may answer without validation. It isn't inlined, so
// that a hit reserves no stack for its values.
#[inline(never)]
fn otherwise(
    alloc: Global,
    selected: Selected<'_>,
    incoming: &Incoming<'_>,
    now: Timestamp,
) -> Result<OriginContact, AllocError>
    ensures clean { IfOk result IsCleanContact }
    ensures conditional { IfOk result
        (IsConditionalContact (fields_of incoming.now.request.now)) }
    ensures after { IfOk result (IsContactAfter incoming.now.request.now
        (incoming_seen incoming.now) now.nanosecond selected.entry) }
{
    let forwarded = match selected {
        Selected::Matching(one, said) => {
            return matching(alloc, one, incoming, why_of(alloc, &said)?, now);
        }
        Selected::Other(said) => Forwarded::of(None, why_of(alloc, &said)?),
        Selected::Nothing => Forwarded::of(None, Why::of(Forward::UriMiss)),
        // A fresh response is still here only if its head can't be sent.
        Selected::Fresh(_) => Forwarded::of(None, Why::of(Forward::Miss)),
    };
    Ok(OriginContact::Forward(forwarded))
}

// Returns why a request that isn't looked up is forwarded (RFC 9211, section 2.2).
fn why_not_looked_up(method: &Method) -> Why {
    Why::of(if *method == Method::GET || *method == Method::HEAD {
        Forward::Bypass
    } else {
        Forward::Method
    })
}

// Forwards the client's own request after the store failed.
fn past_store(alloc: Global) -> Result<Forwarded, AllocError>
    ensures { IfOk result (IsForwardOf None true) }
{
    Ok(Forwarded {
        id: None,
        why: store_failed(alloc)?,
        is_past_store: true,
    })
}

impl<S: Store + Drop> Client<S> {
    // Answers with a stored response. Returns None if the store has lost its body.
    fn used(
        &mut self,
        alloc: Global,
        target: &Target,
        mut reply: Reply,
    ) -> Result<Option<Response<Bytes>>, AllocError>
        ensures options { self.new.options ≡ self.old.options }
        ensures kept { KeepsAll (S.stored self.old.store) (S.next_id self.old.store)
            (S.stored self.new.store) (S.next_id self.new.store) }
        ensures lasting { KeepsAllOthers (S.lasting self.old.store) (S.lasting self.new.store)
            (text_of target.now) }
        ensures answer { IfOk result (λ answer. IfSome answer
            (IsByReply S.mark (S.stored self.old.store (text_of target.now)) reply)) }
        ensures lost { IfOk result (λ answer. answer ≡ None → IsLost (MayFail S.can_fail)
            (S.lasting self.new.store (text_of target.now)) reply.id.0) }
    {
        let Some(body) = self.body_of(alloc, target, &mut reply)? else {
            return Ok(None);
        };
        let member = hit(self.name.as_str(), reply.left, None);
        Ok(Some(answer_of(alloc, reply.head, body, &member)?))
    }

    // Answers with a stale response while it is validated (RFC 5861, section 3).
    fn used_while(
        &mut self,
        alloc: Global,
        target: &Target,
        mut reply: Reply,
        due: Validation,
    ) -> Result<Decision, AllocError>
        requires { IsCleanValidation due }
        ensures options { self.new.options ≡ self.old.options }
        ensures kept { KeepsAll (S.stored self.old.store) (S.next_id self.old.store)
            (S.stored self.new.store) (S.next_id self.new.store) }
        ensures lasting { KeepsAllOthers (S.lasting self.old.store) (S.lasting self.new.store)
            (text_of target.now) }
        ensures clean { IfOk result IsCleanDecision }
        ensures used { IfOk result (IsUsedWhile S.mark
            (S.stored self.old.store (text_of target.now)) (IsLost (MayFail S.can_fail)
            (S.lasting self.new.store (text_of target.now))) reply due) }
    {
        let Some(body) = self.body_of(alloc, target, &mut reply)? else {
            return Ok(Decision::Validate(due));
        };
        let member = hit(
            self.name.as_str(),
            reply.left,
            Some("stale-while-revalidate"),
        );
        let answer = answer_of(alloc, reply.head, body, &member)?;
        Ok(Decision::Stale { answer, due })
    }

    // Returns the 504 for a request that says `only-if-cached` (RFC 9111, section 5.2.1.7).
    pub(crate) fn not_cached(&self, alloc: Global) -> Result<Response<Bytes>, AllocError>
        ensures status { IfOk result (λ answer. (head_of_response answer).status ≡ 504) }
        ensures body { IfOk result (λ answer. body_of_response answer ≡ []) }
    {
        let member = generated(self.name.as_str(), "only-if-cached");
        let head = response::Parts {
            status: StatusCode::GATEWAY_TIMEOUT,
            version: Version::HTTP_11,
            headers: HeaderMap::new(alloc),
        };
        answer_of(alloc, head, Bytes::new(), &member)
    }

    #[inline(never)]
    fn not_fresh(
        &mut self,
        alloc: Global,
        target: &Target,
        incoming: &Incoming<'_>,
        contact: OriginContact,
    ) -> Result<Decision, AllocError>
        requires { IsCleanContact contact }
        ensures options { self.new.options ≡ self.old.options }
        ensures kept { KeepsAll (S.stored self.old.store) (S.next_id self.old.store)
            (S.stored self.new.store) (S.next_id self.new.store) }
        ensures lasting { KeepsAllOthers (S.lasting self.old.store) (S.lasting self.new.store)
            (text_of target.now) }
        ensures clean { IfOk result IsCleanDecision }
        ensures conditional { IsConditionalContact (fields_of incoming.now.request.now) contact
            → IfOk result (IsConditionalDecision (fields_of incoming.now.request.now)) }
        ensures only_if_cached { IsOnlyIfCached (fields_of incoming.now.request.now)
            → IfOk result IsAnswer }
        ensures idle { IsForwarding contact → self.new.store ≡ self.old.store }
        ensures done { IfOk result (IsCarriedOut S.mark
            (S.stored self.old.store (text_of target.now)) (IsLost (MayFail S.can_fail)
            (S.lasting self.new.store (text_of target.now)))
            (is_only_if_cached (fields_of incoming.now.request.now)) contact) }
    {
        // Nothing is sent for such a request (RFC 9111, section 5.2.1.7).
        if incoming.is_only_if_cached() {
            drop(contact);
            return Ok(Decision::Answer(self.not_cached(alloc)?));
        }
        match contact {
            OriginContact::UseWhile(reply, due) => self.used_while(alloc, target, reply, due),
            OriginContact::Validate(validation) => Ok(Decision::Validate(validation)),
            OriginContact::Forward(forwarded) => Ok(Decision::Forward(forwarded)),
        }
    }

    // Decides about a request that is looked up.
    fn asked(
        &mut self,
        alloc: Global,
        incoming: &Incoming<'_>,
        now: Timestamp,
    ) -> Result<Decision, AllocError>
        ensures options { self.new.options ≡ self.old.options }
        ensures kept { KeepsAll (S.stored self.old.store) (S.next_id self.old.store)
            (S.stored self.new.store) (S.next_id self.new.store) }
        ensures lasting { KeepsAllOthers (S.lasting self.old.store) (S.lasting self.new.store)
            (own_text incoming.now.request.now) }
        ensures clean { IfOk result IsCleanDecision }
        ensures conditional { IfOk result
            (IsConditionalDecision (fields_of incoming.now.request.now)) }
        ensures only_if_cached { IsOnlyIfCached (fields_of incoming.now.request.now)
            → IfOk result IsAnswer }
        ensures decision { IfOk result (IsDecisionFor S.mark (IsLost (MayFail S.can_fail)
            (S.lasting self.new.store (own_text incoming.now.request.now)))
            incoming.now.request.now now.nanosecond (MayFail S.can_fail)
            (course_among (S.stored self.old.store (own_text incoming.now.request.now))
            (incoming_seen incoming.now) now.nanosecond
            (is_only_if_cached (fields_of incoming.now.request.now)))) }
    {
        let request = incoming.request();
        let target = Target::of(alloc, request.uri(), request.headers())?;
        if !self.read(alloc, &target)? {
            let contact = OriginContact::Forward(past_store(alloc)?);
            return self.not_fresh(alloc, &target, incoming, contact);
        }
        let selected = select(self.store.found(&target), incoming, now);
        if let Some(reply) = fresh_reply(alloc, selected, incoming, now)? {
            if let Some(answer) = self.used(alloc, &target, reply)? {
                return Ok(Decision::Answer(answer));
            }
            let contact = OriginContact::Forward(past_store(alloc)?);
            return self.not_fresh(alloc, &target, incoming, contact);
        }
        let contact = otherwise(alloc, selected, incoming, now)?;
        self.not_fresh(alloc, &target, incoming, contact)
    }

    /// Returns what to do with a request that was received at `now`: an answer from the store, or a
    /// request to send to the origin server (RFC 9111, section 4).
    ///
    /// If the store fails, the request is forwarded, unless it says `only-if-cached`. In an answer,
    /// the client's member of Cache-Status is after the members of earlier caches.
    ///
    /// # Errors
    ///
    /// `AllocError` if there is not enough memory.
    pub fn ask(
        &mut self,
        alloc: Global,
        request: &Request<Bytes>,
        now: Timestamp,
    ) -> Result<Decision, AllocError>
        ensures options { self.new.options ≡ self.old.options }
        ensures safe { IfOk result (λ decision. IsOfStore decision → is_looked_up request.now ≡ true) }
        ensures clean { IfOk result IsCleanDecision }
        ensures conditional { IfOk result
            (IsConditionalDecision (fields_of request.now)) }
        ensures decision { IfOk result (IsDecisionFor S.mark (IsLost (MayFail S.can_fail)
            (S.lasting self.new.store (own_text request.now)))
            request.now now.nanosecond (MayFail S.can_fail)
            (course request.now now.nanosecond (S.stored self.old.store (own_text request.now)))) }
        ensures only_if_cached { is_looked_up request.now ≡ true
            → IsOnlyIfCached (fields_of request.now) → IfOk result IsAnswer }
        ensures hit { IfOk result (IsHitIfAnswer S.mark
            (S.stored self.old.store (own_text request.now)) request.now
            (looked_up request.now) now.nanosecond) }
        ensures kept { KeepsAll (S.stored self.old.store) (S.next_id self.old.store)
            (S.stored self.new.store) (S.next_id self.new.store) }
        ensures lasting { KeepsAllOthers (S.lasting self.old.store) (S.lasting self.new.store)
            (own_text request.now) }
    {
        if !is_looked_up(request) {
            let why = why_not_looked_up(request.method());
            return Ok(Decision::Forward(Forwarded::of(None, why)));
        }
        let incoming = Incoming::new(alloc, request)?;
        self.asked(alloc, &incoming, now)
    }
}

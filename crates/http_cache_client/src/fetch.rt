//! Answers a request with at most two requests to an origin.
ghost use Rattle.std.specs.Prelude.{◌≡◌, ◌⊎◌, true, false, Some, None, IsSome, IfOk, IfErr, OnOk, OnErr};
ghost use Rattle.http.specs.Response.{head_of, body_of};
ghost use Rattle.http_cache_decisions.specs.Asking.{is_looked_up};
ghost use Rattle.http_cache_store.specs.Store.{KeepsAll, KeepsMost};
ghost use Rattle.http_cache_client.specs.Receive.{own_text};
ghost use Rattle.http_cache_client.specs.Ask.{fields_of, IsOfStore, IsCleanValidation, IsCleanDecision};
ghost use Rattle.http_cache_client.specs.Ask.{IsConditionalDecision, IsAnswer, IsOnlyIfCached};
ghost use Rattle.http_cache_decisions.specs.Plan.{IsElsewhere, HasCondition};
ghost use Rattle.http_cache_client.specs.Fetch.{Outcome, HasSentOwn, HasSentValidation, HasSentBoth, HasSent};
ghost use Rattle.http_cache_client.specs.Fetch.{HasSentTwiceAtMost, HasSentFor304, HasNoResponse, IsUnsent};
ghost use Rattle.http_cache_client.specs.Fetch.{HasPassedOn};
ghost use Rattle.http_cache_client.specs.Fetched.{HasSentHead, IsByStandIn, IsCarriedOutBy, IsFetched};
ghost use Rattle.http_cache_client.specs.Fetched.{IsForwarded, IsHere, IsPassed, IsValidatedTo, store_seen};
ghost use Rattle.http_cache_client.specs.Contact.{MayFail};
ghost use Rattle.http_cache_client.specs.Course.{IsRefusal};
ghost use Rattle.std.specs.Prelude.{IfSome};
ghost use Rattle.http_cache_rules.specs.Options.{options_of};

use crate::client::Client;
use crate::origin::{FetchError, Origin};
use crate::tokens::{Decision, Forwarded, Received, Validation};
use bytes::Bytes;
use http::{Request, Response};
use http_cache_decisions::asking::is_looked_up;
use http_cache_decisions::{Body, Times, Why};
use http_cache_fields::reading::says;
use http_cache_policy::explain::Forward;
use http_cache_store::Store;
use jiff::Timestamp;
use std::alloc::{AllocError, Global};

fn with_bytes(response: Response<Body>) -> Response<Bytes>
    requires { ¬ (IsElsewhere (body_of response)) }
    ensures { IsHere result response }
{
    let (head, body) = response.into_parts();
    match body {
        Body::Here(bytes) => Response::from_parts(head, bytes),
        Body::Elsewhere(_) => unreachable!(),
    }
}

fn with_body(response: Response<Bytes>) -> Response<Body>
    ensures bytes { IsHere response result }
    ensures here { ¬ (IsElsewhere (body_of result)) }
{
    let (head, bytes) = response.into_parts();
    Response::from_parts(head, Body::Here(bytes))
}

// Returns a token for a request that bypasses the store.
fn bypass(alloc: Global, detail: &str) -> Result<Forwarded, AllocError> {
    let why = Why {
        forward: Forward::Bypass,
        detail: Some(String::from_str(alloc, detail)?),
    };
    Ok(Forwarded::of(None, why))
}

// Sends the validation request. It is a separate function, since the prover looks into each request
// that is dropped.
fn send_validation<O: Origin>(
    alloc: Global,
    origin: &mut O,
    token: &mut Validation,
) -> Result<(Response<Bytes>, Timestamp), O::Error>
    requires { IsCleanValidation token.old }
    ensures response { IfOk result (λ received. HasSentValidation O.sent origin.old origin.new
        (Some (received.0, received.1.nanosecond))) }
    ensures no_response { OnErr result (HasSentValidation O.sent origin.old origin.new None) }
    ensures head { IfOk result (λ received. HasSentHead O.sent origin.old origin.new
        token.old.request.value (Some (received.0, received.1.nanosecond))) }
    ensures head_of_none { OnErr result
        (HasSentHead O.sent origin.old origin.new token.old.request.value None) }
    ensures kept { token.new.id ≡ token.old.id }
    ensures past { token.new.is_past_store ≡ token.old.is_past_store }
{
    let asking = Request::from_parts(token.take_request(alloc), Bytes::new());
    origin.send(&asking)
}

impl<S: Store + Drop> Client<S> {
    // Handles a request that got no response from the origin (RFC 5861, section 4).
    fn unanswered<E: Drop>(
        &mut self,
        alloc: Global,
        mut token: Forwarded,
        request: &Request<Bytes>,
        cause: E,
        now: Timestamp,
    ) -> Result<Response<Bytes>, FetchError<E>>
        ensures kept { KeepsAll (S.stored self.old.store) (S.next_id self.old.store)
            (S.stored self.new.store) (S.next_id self.new.store) }
        ensures conditional { IfOk result (λ answer. (head_of answer).status ≡ 304
            → HasCondition request.now) }
        ensures stands_in { IfOk result (IsByStandIn S.mark request.now token.id now.nanosecond
            (store_seen S.stored S.lasting S.next_id self.old.store)
            (store_seen S.stored S.lasting S.next_id self.new.store)) }
        ensures lost { IfErr result (IsUnsent ⊥) }
    {
        match self.without_response(alloc, &mut token, request, now) {
            Ok(Some(answer)) => Ok(answer),
            Ok(None) => Err(FetchError::Origin(cause)),
            Err(_) => Err(FetchError::Lost),
        }
    }

    // Sends the client's own request.
    fn forward<O: Origin>(
        &mut self,
        alloc: Global,
        origin: &mut O,
        request: &Request<Bytes>,
        mut token: Forwarded,
        sent: Timestamp,
    ) -> Result<Response<Bytes>, FetchError<O::Error>>
    where
        O::Error: Drop,
        ensures answer { IfOk result (IsForwarded O.sent S.mark (MayFail S.can_fail)
            (options_of self.old.options) request.now token sent.nanosecond origin.old origin.new
            (store_seen S.stored S.lasting S.next_id self.old.store)
            (store_seen S.stored S.lasting S.next_id self.new.store)) }
        ensures sent { (outcome : Outcome)
            × HasSentOwn O.sent origin.old origin.new request.now outcome }
        ensures no_response { IfErr result
            (HasNoResponse (HasSentOwn O.sent origin.old origin.new request.now None)) }
        ensures lost { IfErr result (IsUnsent ⊥) }
        ensures conditional { IfOk result (λ answer. (head_of answer).status ≡ 304
            → HasCondition request.now ⊎ HasSentFor304 O.sent origin.old origin.new request.now) }
        ensures invalidated { is_looked_up request.now ≡ false
            → OnOk result (HasPassedOn O.sent origin.old origin.new request.now
            (S.stored self.old.store) (S.stored self.new.store)) }
        ensures others { KeepsMost (S.stored self.old.store) (S.lasting self.old.store)
            (S.stored self.new.store) (own_text request.now) }
        ensures kept { OnErr result (KeepsAll (S.stored self.old.store) (S.next_id self.old.store)
            (S.stored self.new.store) (S.next_id self.new.store)) }
    {
        match origin.send(request) {
            Ok((response, received)) => {
                let times = Times { sent, received };
                match self.accept(alloc, &mut token, request, with_body(response), times) {
                    Ok(answer) => Ok(with_bytes(answer)),
                    Err(_) => Err(FetchError::Lost),
                }
            }
            Err(cause) => self.unanswered(alloc, token, request, cause, sent),
        }
    }

    // Sends the validation request. After a 304 that doesn't confirm the stored response, sends the
    // client's own request.
    fn validate<O: Origin>(
        &mut self,
        alloc: Global,
        origin: &mut O,
        request: &Request<Bytes>,
        mut token: Validation,
        sent: Timestamp,
    ) -> Result<Response<Bytes>, FetchError<O::Error>>
    where
        O::Error: Drop,
        requires { IsCleanValidation token }
        ensures answer { IfOk result (IsValidatedTo O.sent S.mark (MayFail S.can_fail)
            (options_of self.old.options) request.now token sent.nanosecond origin.old origin.new
            (store_seen S.stored S.lasting S.next_id self.old.store)
            (store_seen S.stored S.lasting S.next_id self.new.store)) }
        ensures sent { (outcome : Outcome)
            × (HasSentValidation O.sent origin.old origin.new outcome
            ⊎ HasSentBoth O.sent origin.old origin.new request.now outcome) }
        ensures no_response { IfErr result
            (HasNoResponse (HasSent O.sent origin.old origin.new request.now None)) }
        ensures lost { IfErr result (IsUnsent ⊥) }
        ensures conditional { IfOk result (λ answer. (head_of answer).status ≡ 304
            → HasCondition request.now ⊎ HasSentFor304 O.sent origin.old origin.new request.now) }
        ensures others { KeepsMost (S.stored self.old.store) (S.lasting self.old.store)
            (S.stored self.new.store) (own_text request.now) }
        ensures kept { OnErr result (KeepsAll (S.stored self.old.store) (S.next_id self.old.store)
            (S.stored self.new.store) (S.next_id self.new.store)
            ⊎ ((outcome : Outcome)
            × HasSentBoth O.sent origin.old origin.new request.now outcome)) }
    {
        let (response, received) = match send_validation(alloc, origin, &mut token) {
            Ok(received) => received,
            Err(cause) => {
                return self.unanswered(alloc, token.into_forwarded(), request, cause, sent);
            }
        };
        let times = Times { sent, received };
        match self.receive(alloc, &mut token, request, with_body(response), times) {
            Ok(Received::Answer(answer)) => Ok(with_bytes(answer)),
            Ok(Received::Again(again)) => self.forward(alloc, origin, request, again, received),
            Err(_) => Err(FetchError::Lost),
        }
    }

    // Sends what the decision asks for. It isn't inlined, so that a hit reserves no stack for its
    // values.
    #[inline(never)]
    fn sent<O: Origin>(
        &mut self,
        alloc: Global,
        origin: &mut O,
        request: &Request<Bytes>,
        decision: Decision,
        now: Timestamp,
    ) -> Result<Response<Bytes>, FetchError<O::Error>>
    where
        O::Error: Drop,
        requires { IsCleanDecision decision }
        ensures answer { IfOk result (IsCarriedOutBy O.sent S.mark (MayFail S.can_fail)
            (options_of self.old.options) request.now decision now.nanosecond origin.old origin.new
            (store_seen S.stored S.lasting S.next_id self.old.store)
            (store_seen S.stored S.lasting S.next_id self.new.store)) }
        ensures twice { HasSentTwiceAtMost O.sent origin.old origin.new request.now }
        ensures safe { (IsOfStore decision → is_looked_up request.now ≡ true)
            → is_looked_up request.now ≡ false → OnOk result ((outcome : Outcome)
            × HasSentOwn O.sent origin.old origin.new request.now outcome) }
        ensures no_response { IfErr result
            (HasNoResponse (HasSent O.sent origin.old origin.new request.now None)) }
        ensures lost { IfErr result (IsUnsent ⊥) }
        ensures unsent { IsAnswer decision → origin.new ≡ origin.old }
        ensures conditional { IsConditionalDecision (fields_of request.now) decision
            → IfOk result (λ answer. (head_of answer).status ≡ 304
            → HasCondition request.now ⊎ HasSentFor304 O.sent origin.old origin.new request.now) }
        ensures invalidated { (IsOfStore decision → is_looked_up request.now ≡ true)
            → is_looked_up request.now ≡ false
            → OnOk result (HasPassedOn O.sent origin.old origin.new request.now
            (S.stored self.old.store) (S.stored self.new.store)) }
        ensures others { KeepsMost (S.stored self.old.store) (S.lasting self.old.store)
            (S.stored self.new.store) (own_text request.now) }
        ensures kept { OnErr result (KeepsAll (S.stored self.old.store) (S.next_id self.old.store)
            (S.stored self.new.store) (S.next_id self.new.store)
            ⊎ ((outcome : Outcome)
            × HasSentBoth O.sent origin.old origin.new request.now outcome)) }
    {
        match decision {
            Decision::Answer(answer) => Ok(answer),
            Decision::Stale { due, .. } => self.validate(alloc, origin, request, due, now),
            Decision::Validate(token) => self.validate(alloc, origin, request, token, now),
            Decision::Forward(token) => self.forward(alloc, origin, request, token, now),
        }
    }

    /// Returns the response to a request that was received at `now`: from the store if a stored
    /// response may be used, else from the origin (RFC 9111, section 4).
    ///
    /// At most one request is sent, or two if the first is a validation that ends in a 304 which
    /// doesn't confirm the stored response. `fetch` waits for a validation, even where a stale
    /// response could answer meanwhile.
    ///
    /// # Errors
    ///
    /// - `Origin` if the last request got no response and no stored response may be used instead.
    /// - `Memory` if there is not enough memory and nothing was sent.
    /// - `Lost` if there is not enough memory after a request was sent.
    ///
    /// What is stored is then as it was, but a response that a 304 didn't confirm may be removed.
    pub fn fetch<O: Origin>(
        &mut self,
        alloc: Global,
        origin: &mut O,
        request: &Request<Bytes>,
        now: Timestamp,
    ) -> Result<Response<Bytes>, FetchError<O::Error>>
    where
        O::Error: Drop,
        ensures fetched { IfOk result (IsFetched O.sent S.mark (MayFail S.can_fail)
            (options_of self.old.options) request.now now.nanosecond origin.old origin.new
            (store_seen S.stored S.lasting S.next_id self.old.store)
            (store_seen S.stored S.lasting S.next_id self.new.store)) }
        ensures twice { HasSentTwiceAtMost O.sent origin.old origin.new request.now }
        ensures safe { is_looked_up request.now ≡ false → OnOk result ((outcome : Outcome)
            × HasSentOwn O.sent origin.old origin.new request.now outcome) }
        ensures no_response { IfErr result
            (HasNoResponse (HasSent O.sent origin.old origin.new request.now None)) }
        ensures unsent { IfErr result (IsUnsent (origin.new ≡ origin.old)) }
        ensures only_if_cached { is_looked_up request.now ≡ true
            → IsOnlyIfCached (fields_of request.now) → origin.new ≡ origin.old }
        ensures conditional { IfOk result (λ answer. (head_of answer).status ≡ 304
            → HasCondition request.now ⊎ HasSentFor304 O.sent origin.old origin.new request.now) }
        ensures invalidated { is_looked_up request.now ≡ false
            → OnOk result (HasPassedOn O.sent origin.old origin.new request.now
            (S.stored self.old.store) (S.stored self.new.store)) }
        ensures others { KeepsMost (S.stored self.old.store) (S.lasting self.old.store)
            (S.stored self.new.store) (own_text request.now) }
        ensures kept { OnErr result (KeepsAll (S.stored self.old.store) (S.next_id self.old.store)
            (S.stored self.new.store) (S.next_id self.new.store)
            ⊎ ((outcome : Outcome)
            × HasSentBoth O.sent origin.old origin.new request.now outcome)) }
    {
        match self.ask(alloc, request, now) {
            Ok(Decision::Answer(answer)) => Ok(answer),
            Ok(other) => self.sent(alloc, origin, request, other, now),
            Err(_) => Err(FetchError::Memory),
        }
    }

    // Returns the answer to a request that says `only-if-cached` (RFC 9111, section 5.2.1.7).
    // Returns None for a request that is sent.
    fn unasked(
        &self,
        alloc: Global,
        request: &Request<Bytes>,
    ) -> Result<Option<Response<Bytes>>, AllocError>
        ensures only_if_cached { IfOk result (λ answer. is_looked_up request.now ≡ true
            → IsOnlyIfCached (fields_of request.now) → IsSome answer) }
        ensures looked_up { IfOk result (λ answer. IsSome answer → is_looked_up request.now ≡ true) }
        ensures refused { IfOk result (λ answer. IfSome answer (λ refusal.
            IsOnlyIfCached (fields_of request.now) × IsRefusal refusal)) }
    {
        if is_looked_up(request) && says(request.headers(), "only-if-cached") {
            return Ok(Some(self.not_cached(alloc)?));
        }
        Ok(None)
    }

    // Sends the client's own request, and stores nothing.
    fn pass_on<O: Origin>(
        &mut self,
        alloc: Global,
        origin: &mut O,
        request: &Request<Bytes>,
        token: &Forwarded,
    ) -> Result<Response<Bytes>, FetchError<O::Error>>
        ensures answer { IfOk result (IsPassed O.sent origin.old origin.new request.now) }
        ensures sent { (outcome : Outcome)
            × HasSentOwn O.sent origin.old origin.new request.now outcome }
        ensures no_response { IfErr result
            (HasNoResponse (HasSentOwn O.sent origin.old origin.new request.now None)) }
        ensures lost { IfErr result (IsUnsent ⊥) }
        ensures invalidated { is_looked_up request.now ≡ false
            → OnOk result (HasPassedOn O.sent origin.old origin.new request.now
            (S.stored self.old.store) (S.stored self.new.store)) }
        ensures others { KeepsMost (S.stored self.old.store) (S.lasting self.old.store)
            (S.stored self.new.store) (own_text request.now) }
        ensures stored { S.next_id self.new.store ≡ S.next_id self.old.store }
        ensures kept { OnErr result (KeepsAll (S.stored self.old.store) (S.next_id self.old.store)
            (S.stored self.new.store) (S.next_id self.new.store)) }
    {
        match origin.send(request) {
            Ok((response, received)) => {
                match self.passed(alloc, token, request, with_body(response), received) {
                    Ok(answer) => Ok(with_bytes(answer)),
                    Err(_) => Err(FetchError::Lost),
                }
            }
            Err(cause) => Err(FetchError::Origin(cause)),
        }
    }

    /// Returns the origin's response to a request that bypasses the store, for instance if the time
    /// is unknown. Nothing is stored. Cache-Status has `fwd=bypass` with the detail (RFC 9211,
    /// section 2.2).
    ///
    /// A response without an error to an unsafe request still removes what is stored for its
    /// targets (RFC 9111, section 4.4). A GET or HEAD that says `only-if-cached` is answered with a
    /// 504.
    ///
    /// # Errors
    ///
    /// As for `fetch`. What is stored is then as it was.
    pub fn pass<O: Origin>(
        &mut self,
        alloc: Global,
        origin: &mut O,
        request: &Request<Bytes>,
        detail: &str,
    ) -> Result<Response<Bytes>, FetchError<O::Error>>
    where
        O::Error: Drop,
        ensures answer { IfOk result (λ answer. IsPassed O.sent origin.old origin.new request.now answer
            ⊎ ((is_looked_up request.now ≡ true) × IsOnlyIfCached (fields_of request.now)
            × IsRefusal answer × (origin.new ≡ origin.old))) }
        ensures sent { (origin.new ≡ origin.old) ⊎ ((outcome : Outcome)
            × HasSentOwn O.sent origin.old origin.new request.now outcome) }
        ensures no_response { IfErr result
            (HasNoResponse (HasSentOwn O.sent origin.old origin.new request.now None)) }
        ensures unsent { IfErr result (IsUnsent (origin.new ≡ origin.old)) }
        ensures only_if_cached { is_looked_up request.now ≡ true
            → IsOnlyIfCached (fields_of request.now) → origin.new ≡ origin.old }
        ensures invalidated { is_looked_up request.now ≡ false
            → OnOk result (HasPassedOn O.sent origin.old origin.new request.now
            (S.stored self.old.store) (S.stored self.new.store)) }
        ensures others { KeepsMost (S.stored self.old.store) (S.lasting self.old.store)
            (S.stored self.new.store) (own_text request.now) }
        ensures stored { S.next_id self.new.store ≡ S.next_id self.old.store }
        ensures kept { OnErr result (KeepsAll (S.stored self.old.store) (S.next_id self.old.store)
            (S.stored self.new.store) (S.next_id self.new.store)) }
    {
        match self.unasked(alloc, request) {
            Ok(None) => {}
            Ok(Some(answer)) => return Ok(answer),
            Err(_) => return Err(FetchError::Memory),
        }
        match bypass(alloc, detail) {
            Ok(token) => self.pass_on(alloc, origin, request, &token),
            Err(_) => Err(FetchError::Memory),
        }
    }
}

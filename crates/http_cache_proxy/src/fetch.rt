//! Answers a request with the client's help, or says why there is no answer.
ghost use Rattle.std.specs.Prelude.{◌≡◌, ◌⊎◌, true, false, Some, None, IfOk, IfErr, IsErrOf, OnErr};
ghost use Rattle.http_cache_store.specs.Store.{KeepsAll};
ghost use Rattle.http_cache_client.specs.Ask.{fields_of, IsOnlyIfCached};
ghost use Rattle.http_cache_client.specs.Fetch.{Outcome, HasSentBoth, HasSentTwiceAtMost};
ghost use Rattle.http_cache_decisions.specs.Asking.{is_looked_up};
ghost use Rattle.http_cache_intermediary.specs.Refusal.{refusal_of};
ghost use Rattle.http_cache_proxy.specs.Proxy.{IsSentOnAs, IsFetchFailure, IsSentAtMost, IsCause, HasKept};

use crate::failure::{Failure, failure_of};
use crate::origin::WholeOrigin;
use bytes::Bytes;
use http::{Request, Response as Answer};
use http_cache_client::{Client, Origin};
use http_cache_intermediary::{Content, Intermediary, Refusal};
use http_cache_memory_store::Store;
use http_cache_semantics::CacheError;
use jiff::Timestamp;
use std::alloc::Global;

// The detail of Cache-Status if the clock can't be read.
const NO_CLOCK: &str = "no clock";

// Returns the request as it is forwarded.
fn forwarded(
    alloc: Global,
    intermediary: &Intermediary,
    request: &Request<Bytes>,
) -> Result<Request<Bytes>, Failure>
    ensures forwarded { IfOk result (IsSentOnAs intermediary.now request.now) }
    ensures unsent { IfErr result (λ cause. (cause ≡ Failure.Memory) ⊎ (cause ≡ Failure.Unsendable)) }
{
    let content = Content::Known(request.body().len() as u64);
    let head = match intermediary.forwarded(alloc, request, content) {
        Ok(head) => head,
        Err(CacheError::Memory) => return Err(Failure::Memory),
        Err(_) => return Err(Failure::Unsendable),
    };
    match request.body().clone() {
        Ok(body) => Ok(Request::from_parts(head, body)),
        Err(_) => Err(Failure::Memory),
    }
}

// Returns the client's answer at a time.
fn fetched_at<S: Store + Drop, O: Origin>(
    alloc: Global,
    client: &mut Client<S>,
    origin: &mut WholeOrigin<O>,
    forwarded: &Request<Bytes>,
    now: Timestamp,
) -> Result<Answer<Bytes>, Failure>
where
    O::Error: Drop,
    ensures twice { HasSentTwiceAtMost ⟦<WholeOrigin<O> as Origin>⟧.sent
        origin.old origin.new forwarded.now }
    ensures only_if_cached { is_looked_up forwarded.now ≡ true
        → IsOnlyIfCached (fields_of forwarded.now) → origin.new ≡ origin.old }
    ensures failure { IfErr result
        (IsFetchFailure ⟦<WholeOrigin<O> as Origin>⟧.sent origin.old origin.new forwarded.now) }
    ensures kept { OnErr result (KeepsAll (S.stored client.old.store) (S.next_id client.old.store)
        (S.stored client.new.store) (S.next_id client.new.store)
        ⊎ ((outcome : Outcome)
        × HasSentBoth ⟦<WholeOrigin<O> as Origin>⟧.sent origin.old origin.new forwarded.now outcome)) }
{
    match client.fetch(alloc, origin, forwarded, now) {
        Ok(answer) => Ok(answer),
        Err(cause) => Err(failure_of(cause)),
    }
}

// Returns the origin server's answer to a request that bypasses the store.
fn fetched_past<S: Store + Drop, O: Origin>(
    alloc: Global,
    client: &mut Client<S>,
    origin: &mut WholeOrigin<O>,
    forwarded: &Request<Bytes>,
) -> Result<Answer<Bytes>, Failure>
where
    O::Error: Drop,
    ensures twice { HasSentTwiceAtMost ⟦<WholeOrigin<O> as Origin>⟧.sent
        origin.old origin.new forwarded.now }
    ensures only_if_cached { is_looked_up forwarded.now ≡ true
        → IsOnlyIfCached (fields_of forwarded.now) → origin.new ≡ origin.old }
    ensures failure { IfErr result
        (IsFetchFailure ⟦<WholeOrigin<O> as Origin>⟧.sent origin.old origin.new forwarded.now) }
    ensures kept { OnErr result (KeepsAll (S.stored client.old.store) (S.next_id client.old.store)
        (S.stored client.new.store) (S.next_id client.new.store)) }
    ensures unstored { S.next_id client.new.store ≡ S.next_id client.old.store }
{
    match client.pass(alloc, origin, forwarded, NO_CLOCK) {
        Ok(answer) => Ok(answer),
        Err(cause) => Err(failure_of(cause)),
    }
}

// Returns the answer to a request that is forwarded.
fn fetched<S: Store + Drop, O: Origin>(
    alloc: Global,
    client: &mut Client<S>,
    origin: &mut WholeOrigin<O>,
    forwarded: &Request<Bytes>,
    time: &Option<Timestamp>,
) -> Result<Answer<Bytes>, Failure>
where
    O::Error: Drop,
    ensures twice { HasSentTwiceAtMost ⟦<WholeOrigin<O> as Origin>⟧.sent
        origin.old origin.new forwarded.now }
    ensures only_if_cached { is_looked_up forwarded.now ≡ true
        → IsOnlyIfCached (fields_of forwarded.now) → origin.new ≡ origin.old }
    ensures failure { IfErr result
        (IsFetchFailure ⟦<WholeOrigin<O> as Origin>⟧.sent origin.old origin.new forwarded.now) }
    ensures kept { OnErr result (KeepsAll (S.stored client.old.store) (S.next_id client.old.store)
        (S.stored client.new.store) (S.next_id client.new.store)
        ⊎ ((outcome : Outcome)
        × HasSentBoth ⟦<WholeOrigin<O> as Origin>⟧.sent origin.old origin.new forwarded.now outcome)) }
    ensures unstored { time.now ≡ None → S.next_id client.new.store ≡ S.next_id client.old.store }
{
    match time {
        Some(now) => fetched_at(alloc, client, origin, forwarded, *now),
        None => fetched_past(alloc, client, origin, forwarded),
    }
}

/// Returns the answer to a request. If the time is unknown, nothing is looked up or stored.
pub(crate) fn answer_to<S: Store + Drop, O: Origin>(
    alloc: Global,
    intermediary: &Intermediary,
    client: &mut Client<S>,
    origin: &mut WholeOrigin<O>,
    request: &Request<Bytes>,
    time: &Option<Timestamp>,
) -> Result<Answer<Bytes>, Failure>
where
    O::Error: Drop,
    ensures sent { IsSentAtMost ⟦<WholeOrigin<O> as Origin>⟧.sent origin.old origin.new
        intermediary.now request.now }
    ensures refused { (refusal : Refusal) → refusal_of intermediary.now request.now false ≡ Some refusal
        → IsErrOf result (Failure.Refused refusal) × (origin.new ≡ origin.old) }
    ensures cause { IfErr result (IsCause ⟦<WholeOrigin<O> as Origin>⟧.sent origin.old origin.new
        intermediary.now request.now) }
    ensures kept { OnErr result (HasKept ⟦<WholeOrigin<O> as Origin>⟧.sent origin.old origin.new
        intermediary.now (S.stored client.old.store) (S.next_id client.old.store)
        (S.stored client.new.store) (S.next_id client.new.store) request.now) }
    ensures unstored { time.now ≡ None → S.next_id client.new.store ≡ S.next_id client.old.store }
{
    if let Some(refusal) = intermediary.refusal(request, false) {
        return Err(Failure::Refused(refusal));
    }
    let forwarded = match forwarded(alloc, intermediary, request) {
        Ok(forwarded) => forwarded,
        Err(cause) => return Err(cause),
    };
    fetched(alloc, client, origin, &forwarded, time)
}

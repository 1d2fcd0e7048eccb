//! Chooses one of several stored responses under one key (RFC 7234, section 4.1).
ghost use Rattle.std.specs.Prelude.{◌≡◌, ◌≢◌, ◌∷◌, ◌≤◌, ◌<◌, ◌↔◌, List, [], Ok, Err, Some, None, true, length, remove};
ghost use Rattle.std.specs.Prelude.{slice_get, slice_set, option_copied, IsTrue, IsErr, IfOk, IfErr, IfSome, OnOk, OnErr, OnSome, IfNone};
ghost use Rattle.std.specs.Prelude.{IsErrOf, IsNone, false, is_some, is_none, option_map, position};
ghost use Rattle.std.specs.Option.{option_map_or};
ghost use Rattle.http_cache_reasons.specs.Reason.{reason_seen, is_mismatch, explanation_seen};
ghost use Rattle.http_cache_policy.specs.Exchange.{Exchange};
ghost use Rattle.http_cache_policy.specs.Match.{request_matches};
ghost use Rattle.http_cache_policy.specs.Bound.{is_fresh_by_bound};
ghost use Rattle.http_cache_policy.specs.Refused.{RefusesAnswer, HasUndatedAnswer};
ghost use Rattle.http_cache_policy.specs.declared.before.BeforeRequest.{BeforeRequest};
ghost use Rattle.http_cache_policy.specs.Run.{IsAnswer};
ghost use Rattle.http_cache_semantics.specs.Variants.{is_for_stored};

use http::{request, response};
use http_cache_fields::CacheError;
use http_cache_policy::before::BeforeRequest;
use http_cache_policy::explain::{Explanation, Freshness, LifetimeSource, Reason};
use http_cache_policy::policy::{CachePolicy, RequestLike};
use jiff::Timestamp;
use std::alloc::Global;
use std::marker::Model;
use std::mem;
use std::time::Duration;

/// The policies of several responses that are stored under one key, the newest first. Indices begin
/// at 0.
#[derive(Debug, Drop)]
pub struct Variants {
    policies: Vec<CachePolicy>,
}

impl Model for Variants {
    ghost use Rattle.std.specs.Prelude.{List};
    ghost use Rattle.std.specs.Coded.{coded_list};
    ghost use Rattle.http_cache_rules.specs.Exchange.{Exchange, exchange_code};

    ghost Value = { List Exchange };

    ghost coded = { coded_list exchange_code };

    ghost view = { λ v. v.policies.items };
}

/// The policy that answers a request, and its answer.
#[derive(Debug, Drop)]
pub enum Choice {
    /// The stored response of a policy may be used without validation.
    Fresh {
        /// The policy's index.
        place: usize,
        /// The stored status, and the headers for the client.
        parts: response::Parts,
    },
    /// The stored response of a policy answers the request once it is validated.
    Validate {
        /// The policy's index.
        place: usize,
        /// The request that validates it at the origin server.
        request: request::Parts,
    },
    /// No stored response matches the request: forward it as it is.
    Nothing,
}

fn is_for_stored<Req: RequestLike>(policy: &CachePolicy, req: &Req) -> bool
    ensures { result ≡ is_for_stored (Req.seen req.now) policy.now }
{
    *policy.stored_method() == *req.method() && req.is_same_uri(policy.stored_target())
}

impl Variants {
    ghost use Rattle.http_cache_semantics.specs.Variants.{fresh_index, matching_index};
    ghost use Rattle.http_cache_semantics.specs.Variants.{chosen_index, IsChoice};
    ghost use Rattle.http_cache_semantics.specs.Variants.{IsOfChosen, IsOfFresh, IsOfValidate, IsPassedOver, choice_of};
    ghost use Rattle.http_cache_semantics.specs.Variants.{matching, IsSameChoice};
    ghost use Rattle.http_cache_semantics.specs.Variants.{target_index, explained_index};
    ghost use Rattle.http_cache_semantics.specs.Variants.{explanation_among};

    /// Returns a list without policies. It allocates nothing; `add` uses the allocator.
    pub fn new(alloc: Global) -> Variants
        ensures { result ≡ [] }
    {
        Variants {
            policies: Vec::new(alloc),
        }
    }

    /// Returns the number of policies.
    pub fn len(&self) -> usize
        ensures { result ≡ length self.now }
    {
        self.policies.len()
    }

    /// Returns whether there is no policy.
    pub fn is_empty(&self) -> bool
        ensures { IsTrue result ↔ (self.now ≡ []) }
    {
        self.policies.is_empty()
    }

    /// Returns the policy at an index, if there is one.
    pub fn policy_at(&self, index: usize) -> Option<&CachePolicy>
        ensures { option_copied result ≡ slice_get self.now index }
    {
        self.policies.get(index)
    }

    /// Adds a policy before the others.
    ///
    /// For requests that it doesn't match, the choice stays, one index further. The only error is
    /// `Memory`, which returns the policy.
    pub fn add(&mut self, policy: CachePolicy) -> Result<(), (CachePolicy, CacheError)>
        ensures added { OnOk result (self.new ≡ policy ∷ self.old) }
        ensures passed_over { OnOk result (IsPassedOver policy self.old self.new) }
        ensures kept { OnErr result (self.new ≡ self.old) }
        ensures handed_back { IfErr result (λ back. back ≡ (policy, CacheError.Memory)) }
    {
        match self.policies.insert(0, policy) {
            Ok(()) => Ok(()),
            Err(failed) => Err((failed.value, CacheError::Memory)),
        }
    }

    /// Removes and returns the policy at an index, if there is one. Later ones move up.
    pub fn remove(&mut self, index: usize) -> Option<CachePolicy>
        ensures value { result ≡ slice_get self.old index }
        ensures closes_up { OnSome result (self.new ≡ remove self.old index) }
        ensures kept { IfNone result (self.new ≡ self.old) }
        ensures none { IsNone result ↔ (length self.old ≤ index) }
    {
        if index < self.policies.len() {
            Some(self.policies.remove(index))
        } else {
            None
        }
    }

    /// Replaces the policy at an index, as after a renewal, and returns the old one. If there is no
    /// such index, the error returns the policy. Nothing is allocated.
    pub fn replace(&mut self, index: usize, policy: CachePolicy) -> Result<CachePolicy, CachePolicy>
        ensures replaced { OnOk result (self.new ≡ slice_set self.old index policy) }
        ensures value { IfOk result (λ old. slice_get self.old index ≡ Some old) }
        ensures kept { OnErr result (self.new ≡ self.old) }
        ensures handed_back { IfErr result (λ back. back ≡ policy) }
        ensures none { IsErr result ↔ (length self.old ≤ index) }
    {
        if index < self.policies.len() {
            Ok(mem::replace(&mut self.policies[index], policy))
        } else {
            Err(policy)
        }
    }

    fn stored_at(&self, index: usize) -> &CachePolicy
        requires { index < length self.now }
        ensures { slice_get self.now index ≡ Some result.now }
    {
        &self.policies[index]
    }

    /// Returns the index of the first policy that may be used for a request at `now` without
    /// validation (RFC 7234, section 4). Nothing is allocated.
    pub fn fresh_index<Req: RequestLike>(&self, req: &Req, now: Timestamp) -> Option<usize>
        ensures value { result ≡ fresh_index (Req.seen req.now) now.nanosecond self.now }
        ensures within { IfSome result (λ index. index < length self.now) }
    {
        self.policies
            .iter()
            .position(|policy| policy.fresh_at(req, now))
    }

    /// Returns the index of the first policy that matches a request, fresh or not (RFC 7234,
    /// section 4.1). Nothing is allocated.
    pub fn matching_index<Req: RequestLike>(&self, req: &Req) -> Option<usize>
        ensures value { result ≡ matching_index (Req.seen req.now) self.now }
        ensures within { IfSome result (λ index. index < length self.now) }
    {
        self.policies
            .iter()
            .position(|policy| policy.matches_request(req))
    }

    fn chosen_index<Req: RequestLike>(&self, req: &Req, now: Timestamp) -> Option<usize>
        ensures value { result ≡ chosen_index (Req.seen req.now) now.nanosecond self.now }
        ensures within { IfSome result (λ index. index < length self.now) }
    {
        match self.fresh_index(req, now) {
            Some(index) => Some(index),
            None => self.matching_index(req),
        }
    }

    /// Returns the answer of the first policy that may be used at `now`, or else of the first that
    /// matches.
    ///
    /// The latter is to be validated (RFC 7234, sections 4 and 4.1). The order counts only among
    /// policies that match. If none does, nothing is allocated.
    ///
    /// # Errors
    ///
    /// `HeaderMapFull` and `DateNotPrintable` if `before_request` returns them for the chosen
    /// policy, and `Memory`.
    pub fn choose<Req: RequestLike>(
        &self,
        alloc: Global,
        req: &Req,
        now: Timestamp,
    ) -> Result<Choice, CacheError>
        ensures choice { IfOk result (IsChoice self.now (Req.seen req.now) now.nanosecond) }
        ensures usable { IfOk result (IsOfFresh self.now (λ e.
            (request_matches e (Req.seen req.now) ≡ true)
            × (is_fresh_by_bound e (Req.seen req.now) now.nanosecond ≡ true))) }
        ensures validates { IfOk result (IsOfValidate self.now (λ e.
            request_matches e (Req.seen req.now) ≡ true)) }
        ensures order { IfOk result (λ choice. (others : List Exchange)
            → matching (Req.seen req.now) others ≡ matching (Req.seen req.now) self.now
            → (other : Choice) → IsChoice others (Req.seen req.now) now.nanosecond other
            → IsSameChoice self.now choice others other) }
        ensures single { (e : Exchange) → self.now ≡ e ∷ []
            → (answer : BeforeRequest) → IsAnswer e (Req.seen req.now) now.nanosecond answer
            → IsChoice self.now (Req.seen req.now) now.nanosecond (choice_of answer) }
        ensures nothing { matching_index (Req.seen req.now) self.now ≡ None
            → result ≡ Ok Choice.Nothing }
        ensures empty { self.now ≡ [] → result ≡ Ok Choice.Nothing }
        ensures full { IsErrOf result CacheError.HeaderMapFull
            → IsOfChosen self.now (Req.seen req.now) now.nanosecond
            (λ e. RefusesAnswer e (Req.seen req.now) now.nanosecond) }
        ensures unprintable { IsErrOf result CacheError.DateNotPrintable
            → IsOfChosen self.now (Req.seen req.now) now.nanosecond
            (λ e. HasUndatedAnswer e (Req.seen req.now) now.nanosecond) }
        ensures no_other { result ≢ Err CacheError.Malformed }
    {
        let Some(index) = self.chosen_index(req, now) else {
            return Ok(Choice::Nothing);
        };
        match self.stored_at(index).before_request(alloc, req, now)? {
            BeforeRequest::Fresh(parts) => Ok(Choice::Fresh {
                place: index,
                parts,
            }),
            BeforeRequest::Stale { request, .. } => Ok(Choice::Validate {
                place: index,
                request,
            }),
        }
    }

    fn index_for_stored<Req: RequestLike>(&self, req: &Req) -> Option<usize>
        ensures value { result ≡ position (is_for_stored (Req.seen req.now)) self.now }
        ensures within { IfSome result (λ index. index < length self.now) }
    {
        self.policies
            .iter()
            .position(|policy| is_for_stored(policy, req))
    }

    fn index_by_any_method<Req: RequestLike>(&self, req: &Req) -> Option<usize>
        ensures value { result
            ≡ position (λ e. (Req.seen req.now).is_same_target e.target) self.now }
        ensures within { IfSome result (λ index. index < length self.now) }
    {
        self.policies
            .iter()
            .position(|policy| req.is_same_uri(policy.stored_target()))
    }

    fn target_index<Req: RequestLike>(&self, req: &Req) -> Option<usize>
        ensures value { result ≡ target_index (Req.seen req.now) self.now }
        ensures within { IfSome result (λ index. index < length self.now) }
    {
        match self.index_for_stored(req) {
            Some(index) => Some(index),
            None => self.index_by_any_method(req),
        }
    }

    fn explained_index<Req: RequestLike>(&self, req: &Req, now: Timestamp) -> Option<usize>
        ensures value { result ≡ explained_index (Req.seen req.now) now.nanosecond self.now }
        ensures within { IfSome result (λ index. index < length self.now) }
    {
        match self.chosen_index(req, now) {
            Some(index) => Some(index),
            None => self.target_index(req),
        }
    }

    /// Returns why no stored response is used for a request at `now` without validation, or that
    /// one is.
    ///
    /// It explains the policy that `choose` chooses. If there is none, it explains the first for
    /// the request's target, by its method if there is one. Otherwise the target is missed (RFC
    /// 9211, section 2.2). Nothing is allocated.
    #[tactic(auto, unfolding(crate::specs::Variants::explanation_among))]
    pub fn explain<Req: RequestLike>(&self, req: &Req, now: Timestamp) -> Explanation<'_>
        ensures value { explanation_seen result
            ≡ explanation_among self.now (Req.seen req.now) now.nanosecond }
        ensures hit { is_none result.reason
            ≡ is_some (fresh_index (Req.seen req.now) now.nanosecond self.now) }
        ensures mismatch { option_map_or is_mismatch (option_map reason_seen result.reason) false
            ≡ is_none (chosen_index (Req.seen req.now) now.nanosecond self.now) }
    {
        let Some(index) = self.explained_index(req, now) else {
            return Explanation {
                reason: Some(Reason::Target),
                age: Duration::ZERO,
                freshness: Freshness {
                    source: LifetimeSource::Nothing,
                    lifetime: Duration::ZERO,
                },
            };
        };
        self.stored_at(index).explain(req, now)
    }
}

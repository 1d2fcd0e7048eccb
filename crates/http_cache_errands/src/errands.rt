//! Requests whose outcome the caller has to report.
ghost use Rattle.std.specs.Prelude.{◌≡◌, ◌≤◌, ◌+◌, ◌++◌, ◌⊎◌, ℕ, length, true, Some, None, option_map, is_some, IfOk, IfSome, OnErr};
ghost use Rattle.http.specs.Response.{head_of, body_of};
ghost use Rattle.std.specs.BTreeMap.{get};
ghost use Rattle.std.specs.Ordering.{nat_cmp};
ghost use Rattle.http_cache_store.specs.Target.{text_of};
ghost use Rattle.http_cache_errands.specs.UnderWay.{Changes, KeepsIds, id_at, validates, are_validating};
ghost use Rattle.http_cache_errands.specs.UnderWay.{target_of, target_at, validated_at};
ghost use Rattle.http_cache_errands.specs.Bodies.{IsUnstorable};

use bytes::Bytes;
use http::{Method, Request, Response, response};
use http_cache_client::{Forwarded, Times, Validation};
use http_cache_store::{ResponseId, Target};
use jiff::Timestamp;
use std::alloc::{AllocError, Global};
use std::collections::BTreeMap;

/// What is under way for a request.
#[derive(Debug, Drop)]
pub enum Errand {
    /// The client's own request.
    Own(Forwarded),
    /// A validation.
    Check(Validation),
    /// A request that has failed.
    Failed(Forwarded),
    /// The rest of an answer, in pieces.
    Rest(Rest),
}

/// The rest of an answer.
#[derive(Debug, Drop)]
pub struct Rest {
    /// The bytes that the caller hasn't asked for yet.
    pub body: Bytes,
    /// The length of a piece.
    pub piece: usize,
}

impl Rest {
    /// Returns a body in pieces of a length, if it is longer than that.
    pub fn of(body: Option<&Bytes>, piece: Option<u64>) -> Result<Option<Rest>, AllocError>
        ensures { IfOk result (λ rest. IfSome rest (λ r.
            option_map (λ b. b.now) body.entry ≡ Some r.body)) }
    {
        let (Some(body), Some(piece)) = (body, piece) else {
            return Ok(None);
        };
        if piece == 0 || body.len() as u64 <= piece {
            return Ok(None);
        }
        Ok(Some(Rest {
            body: body.clone()?,
            piece: piece as usize,
        }))
    }

    /// Takes the next piece.
    pub fn take(&mut self) -> Result<Bytes, AllocError>
        ensures piece { IfOk result (λ piece. self.old.body ≡ piece ++ self.new.body) }
        ensures kept { OnErr result (self.new.body ≡ self.old.body) }
    {
        let length = self.piece.min(self.body.len());
        self.body.split_to(length)
    }
}

impl Errand {
    /// Forbids to store the response.
    pub fn forbid_storing(&mut self)
        ensures { IsUnstorable self.new }
    {
        match self {
            Errand::Own(forwarded) => forwarded.forbid_storing(),
            Errand::Failed(forwarded) => forwarded.forbid_storing(),
            Errand::Check(check) => check.forbid_storing(),
            Errand::Rest(_) => {}
        }
    }
}

/// A response whose body is on its way.
#[derive(Debug, Drop)]
pub struct Coming {
    /// The head.
    pub head: response::Parts,
    /// The times of the request and the response.
    pub times: Times,
    /// The body so far.
    pub body: Vec<u8>,
    /// Whether the head has answered the request, so that no other response can.
    pub is_answer: bool,
}

impl Coming {
    /// Returns the length of the body with one more piece.
    pub fn length_with(&self, piece: &Bytes) -> u64
        ensures { length (self.now.body.items ++ piece.now) ≤ result
            ⊎ (result ≡ 18446744073709551615) }
    {
        (self.body.len() as u64).saturating_add(piece.len() as u64)
    }

    /// Returns the response with the last piece of its body.
    pub fn whole(self, last: Bytes) -> Result<Response<Bytes>, AllocError>
        ensures body { IfOk result (λ response.
            body_of response ≡ self.body.items ++ last) }
        ensures head { IfOk result (λ response. head_of response ≡ self.head) }
    {
        let Coming { head, mut body, .. } = self;
        if body.is_empty() {
            return Ok(Response::from_parts(head, last));
        }
        body.extend_from_slice(last.as_slice())?;
        Ok(Response::from_parts(head, Bytes::from_vec(body)?))
    }
}

/// A request whose outcome the caller has to report.
#[derive(Debug, Drop)]
pub struct UnderWay {
    /// The caller's id.
    pub id: u64,
    /// The client's own request.
    pub request: Request<Bytes>,
    /// What was sent. It is `Some` between two frames.
    pub errand: Option<Errand>,
    /// The target whose responses may be stored.
    pub target: Option<Target>,
    /// The response, if its body is on its way.
    pub coming: Option<Coming>,
    /// The time at which it was sent, unless the caller reports another one.
    pub sent: Timestamp,
    /// Whether the caller has the body of the request.
    pub is_body_with_caller: bool,
    /// Whether a stale response has answered the request.
    pub is_answered: bool,
}

impl UnderWay {
    /// Returns whether the request has been answered by a head whose body is on its way.
    pub fn has_answer_coming(&self) -> bool {
        match &self.coming {
            Some(coming) => coming.is_answer,
            None => false,
        }
    }

    /// Returns whether a stored response is validated.
    pub fn validates(&self, id: ResponseId) -> bool
        ensures { result ≡ validates id.0 self.now }
    {
        match &self.errand {
            Some(Errand::Check(check)) => check.id() == Some(id),
            _ => false,
        }
    }

    /// Returns whether a page is requested for a target, so that it may be stored there.
    pub fn is_page_for(&self, target: &Target) -> bool
        ensures { result ≡ true → target_of self.now ≡ Some (text_of target.now) }
    {
        let is_own = matches!(&self.errand, Some(Errand::Own(_)));
        is_own && *self.request.method() == Method::GET && self.target.as_ref() == Some(target)
    }
}

/// The requests under way, by token.
#[derive(Debug, Drop)]
pub struct UnderWays {
    /// The requests.
    pub by_token: BTreeMap<u64, UnderWay>,
    /// The next token to assign.
    pub next_token: u64,
    // A token that isn't assigned yet has no request under way.
    ghost are_given: { (token : ℕ) → next_token ≤ token → get nat_cmp by_token token ≡ None },
}

impl UnderWays {
    /// Returns a collection without requests. The first token will be 1.
    pub fn new(alloc: Global) -> UnderWays
        ensures next { result.next_token ≡ 1 }
        ensures none { (token : ℕ) → id_at result.by_token token ≡ None }
    {
        UnderWays {
            by_token: BTreeMap::new(alloc),
            next_token: 1,
        }
    }

    /// Returns the number of requests.
    pub fn len(&self) -> usize {
        self.by_token.len()
    }

    /// Returns whether a request validates a stored response.
    pub fn are_validating(&self, id: ResponseId) -> bool
        ensures { result ≡ are_validating id.0 self.now.by_token }
    {
        self.by_token.values().any(|one| one.validates(id))
    }

    /// Returns the token of a request that validates a stored response.
    pub fn validation_of(&self, id: ResponseId) -> Option<u64>
        ensures response { IfSome result (λ token.
            validated_at self.now.by_token token ≡ Some id.0) }
        ensures under_way { IfSome result (λ token.
            is_some (id_at self.now.by_token token) ≡ true) }
    {
        for (token, one) in self.by_token.iter() {
            if one.validates(id) {
                return Some(*token);
            }
        }
        None
    }

    /// Returns the token of a request for a page that may be stored for a target.
    pub fn page_for(&self, target: &Target) -> Option<u64>
        ensures target { IfSome result (λ token.
            target_at self.now.by_token token ≡ Some (text_of target.now)) }
        ensures under_way { IfSome result (λ token.
            is_some (id_at self.now.by_token token) ≡ true) }
    {
        for (token, one) in self.by_token.iter() {
            if one.is_page_for(target) {
                return Some(*token);
            }
        }
        None
    }

    /// Adds a request, and returns its token, which no request had before.
    pub fn add(&mut self, under_way: UnderWay) -> Result<u64, AllocError>
        ensures given { IfOk result (λ token. (token ≡ self.old.next_token)
            × (self.new.next_token ≡ token + 1)) }
        ensures ungiven { OnErr result (self.new.next_token ≡ self.old.next_token) }
        ensures there { IfOk result (λ token.
            get nat_cmp self.new.by_token token ≡ Some under_way) }
        ensures added { IfOk result (λ token.
            Changes self.old.by_token token (Some under_way.id) self.new.by_token) }
        ensures kept { OnErr result (KeepsIds self.old.by_token self.new.by_token) }
    {
        let token = self.next_token;
        let Some(next) = token.checked_add(1) else {
            return Err(AllocError);
        };
        if self.by_token.insert(token, under_way).is_err() {
            return Err(AllocError);
        }
        self.next_token = next;
        Ok(token)
    }

    /// Removes the request with a token, and returns it.
    pub fn remove(&mut self, token: u64) -> Option<UnderWay>
        ensures removed { Changes self.old.by_token token None self.new.by_token }
        ensures id { option_map (λ one. one.id) result ≡ id_at self.old.by_token token }
        ensures next { self.new.next_token ≡ self.old.next_token }
    {
        self.by_token.remove(&token)
    }
}

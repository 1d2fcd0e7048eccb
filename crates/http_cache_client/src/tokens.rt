//! What a client returns for a request to send, and takes back with its outcome. A token holds what
//! Cache-Status reports of the request so far.
ghost use Rattle.std.specs.Prelude.{◌≡◌, false, true};

use bytes::Bytes;
use http::{Response, request};
use http_cache_decisions::{Body, Why};
use http_cache_store::ResponseId;
use std::alloc::Global;
use std::mem;

/// The client's own request, which is to be sent as it is. Pass its response to `accept`, or call
/// `without_response` if there is none.
#[derive(Debug, Drop)]
pub struct Forwarded {
    // The stored response to use if the origin fails. A new response replaces it.
    pub(crate) id: Option<ResponseId>,
    pub(crate) why: Why,
    // Whether the response isn't stored.
    pub(crate) is_past_store: bool,
}

/// The validation of a stored response. Send `request`, and pass the response to `receive`.
#[derive(Debug, Drop)]
pub struct Validation {
    // The stored response; None once the token is spent.
    pub(crate) id: Option<ResponseId>,
    pub(crate) why: Why,
    // Whether the response isn't stored, and a 304 renews nothing.
    pub(crate) is_past_store: bool,
    // It is boxed, since tokens are moved for other requests too.
    pub(crate) request: Box<request::Parts>,
}

impl Forwarded {
    /// Forbids to store the response, such as one that may be older than the invalidation of its
    /// target.
    pub fn forbid_storing(&mut self)
        ensures unstored { self.new.is_past_store ≡ true }
        ensures kept { self.new.id ≡ self.old.id }
    {
        self.is_past_store = true;
    }

    pub(crate) fn of(id: Option<ResponseId>, why: Why) -> Forwarded
        ensures id { result.id ≡ id }
        ensures stored { result.is_past_store ≡ false }
    {
        Forwarded {
            id,
            why,
            is_past_store: false,
        }
    }
}

impl Validation {
    /// Forbids to store the response, such as one that may be older than the invalidation of its
    /// target. A 304 then confirms nothing.
    pub fn forbid_storing(&mut self)
        ensures unstored { self.new.is_past_store ≡ true }
        ensures kept { self.new.id ≡ self.old.id }
    {
        self.is_past_store = true;
    }

    /// Returns the id of the stored response, or `None` once the token is spent.
    pub fn id(&self) -> Option<ResponseId>
        ensures { result ≡ self.now.id }
    {
        self.id
    }

    /// Returns the head of the request to send. Its body is empty.
    pub fn request(&self) -> &request::Parts
        ensures { result.now ≡ self.now.request.value }
    {
        &*self.request
    }

    /// Takes the head of the request to send out of the token.
    pub fn take_request(&mut self, alloc: Global) -> request::Parts
        ensures taken { result ≡ self.old.request.value }
        ensures kept { self.new.id ≡ self.old.id }
        ensures past { self.new.is_past_store ≡ self.old.is_past_store }
    {
        mem::replace(&mut *self.request, request::Parts::new(alloc))
    }

    /// Returns the token for the client's own request, for a validation that got no response.
    pub fn into_forwarded(self) -> Forwarded
        ensures id { result.id ≡ self.id }
        ensures unstored { result.is_past_store ≡ self.is_past_store }
    {
        let Validation {
            id,
            why,
            is_past_store,
            ..
        } = self;
        Forwarded {
            id,
            why,
            is_past_store,
        }
    }
}

/// The answer to a response whose body is on its way, and which is stored once that is whole.
#[derive(Drop)]
pub struct Coming {
    /// The answer. Its Cache-Status says that the response is stored.
    pub answer: Response<Body>,
    /// Whether a stale response may be used instead if the body is cut off (RFC 5861, section 4).
    pub is_replaceable: bool,
}

/// What to do with a request.
#[derive(Drop)]
pub enum Decision {
    /// The answer. Nothing is to be sent.
    Answer(Response<Bytes>),
    /// A stale response as the answer, which is to be validated meanwhile (RFC 5861, section 3).
    Stale {
        /// The answer.
        answer: Response<Bytes>,
        /// The validation to send.
        due: Validation,
    },
    /// A validation to send. The stored response may answer only after it.
    Validate(Validation),
    /// The client's own request to forward.
    Forward(Forwarded),
}

/// The outcome of a validation.
#[derive(Drop)]
pub enum Received {
    /// The answer to the client's request.
    Answer(Response<Body>),
    /// The client's own request to send. The 304 didn't confirm the stored response, which is
    /// removed.
    Again(Forwarded),
}

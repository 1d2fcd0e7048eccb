//! The rows of an audit. The modules of the walk decide what a row says, and `members` how it is
//! printed and counted.
use http_cache_recording::Recorded;
use http_cache_semantics::explain::Obstacles;

/// One entry of a recording, with what a cache would have done.
#[derive(Drop)]
pub struct Row<'a> {
    /// The index in the recording, from 0.
    pub index: usize,
    /// The entry.
    pub recorded: &'a Recorded,
    /// The names of headers that were assumed of its request.
    pub assumed: Vec<String>,
    /// What a cache would have done, if the entry is audited.
    pub verdict: Option<AuditVerdict>,
    /// Whether an earlier request had its target and method, or its response was stored before.
    pub repeated: bool,
    /// Whether its request has `no-cache`.
    pub no_cache: bool,
    /// The number of stored responses that it invalidated.
    pub invalidated: usize,
}

/// What a cache would have done with a request and its response.
#[derive(Drop)]
pub struct AuditVerdict {
    /// What the cache would have answered.
    pub outcome: Outcome,
    /// The stored response that answers, or that is validated.
    pub used: Option<Used>,
    /// What the request asks for besides its target.
    pub demand: Option<Demand>,
    /// The validator of that response: `etag` or `last-modified`.
    pub validator: Option<&'static str>,
    /// The names in the newest stored response's Vary whose values differ.
    pub missed_by: Vec<String>,
    /// What became of the response.
    pub received: Received,
    /// What a full response means when a stored one was to be validated.
    pub again: Option<Again>,
    /// Whether its response was stored before the recording began.
    pub seeded: bool,
}

/// What a cache would have answered.
#[derive(Clone, Copy, PartialEq, Eq)]
pub enum Outcome {
    /// Nothing, since no cache would have been asked: the entry is counted apart, by its kind.
    Apart,
    /// The stored response, without validation.
    Fresh,
    /// The stored response, after validation.
    Validate,
    /// Nothing: the stored response may not be used, and has no validator.
    Refetch,
    /// Nothing: no response was stored.
    Miss,
    /// Nothing: the stored responses are for other values of the fields in Vary.
    MissVary,
}

/// What a request asks for besides its target.
#[derive(Clone, Copy, PartialEq, Eq)]
pub enum Demand {
    /// `no-cache` (RFC 7234, sections 5.2.1.4 and 5.4).
    NoCache,
    /// `max-age` or `min-fresh` (RFC 7234, sections 5.2.1.1 and 5.2.1.3).
    Limit,
    /// A condition of its own (RFC 9110, section 13.1), for a response that was stored before.
    Condition,
}

/// The freshness lifetime of a stored response.
#[derive(Drop)]
pub struct Lifetime {
    /// The whole seconds.
    pub seconds: u64,
    /// Words for the source.
    pub by: &'static str,
    /// The text of the source, as it was written.
    pub source: Option<String>,
}

/// A stored response that answers a request, or that is validated.
#[derive(Drop)]
pub struct Used {
    /// The index of the entry with its full response, or of the one that showed it.
    pub from: usize,
    /// The bytes that were sent for that full response, if it was sent in the recording.
    pub saved: Option<u64>,
    /// The age in whole seconds.
    pub age: u64,
    /// The remaining lifetime, in whole seconds.
    pub time_to_live: u64,
    /// The lifetime.
    pub lifetime: Lifetime,
    /// Whether the age is at least the lifetime.
    pub is_stale: bool,
}

/// A response that was stored, or that updated a stored one.
#[derive(Drop)]
pub struct Kept {
    /// The lifetime.
    pub lifetime: Lifetime,
    /// The remaining lifetime at the receipt, in whole seconds.
    pub time_to_live: u64,
}

/// What became of the response.
#[derive(Drop)]
pub enum Received {
    /// There was no response: a stored one answered.
    Nothing,
    /// The response was stored.
    Stored(Kept),
    /// A 304 updated the stored response that was validated.
    Updated(Kept),
    /// A 304 updated another stored response.
    UpdatedOther(Kept),
    /// The response may not be stored.
    NotStorable(Obstacles),
    /// The browser answered from its own cache.
    Browser,
    /// No whole response was received.
    Failed,
    /// A 304 was received, and nothing is stored for it.
    NothingStored,
    /// A 304 didn't confirm the response that was validated.
    NotSelected,
    /// A cache doesn't store such responses.
    Passed,
}

/// What a full response means when a stored one was to be validated.
#[derive(Clone, Copy, PartialEq, Eq)]
pub enum Again {
    /// The response has changed.
    Changed,
    /// The response is the same, though the request had a condition for it.
    InFull,
    /// The response is the same, and the request had no condition for it.
    Unasked,
    /// Neither bodies nor validators show whether it is the same.
    Unknown,
}

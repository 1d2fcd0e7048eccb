//! The calls, and the exchange on which each is made.
use crate::exchange::{EXAMPLE, Exchange, MAIN, PRIVATE, VARIANTS, VARIED};

/// The number of calls that may allocate. They come first.
const TAKING_MEMORY: usize = 30;

/// A call.
#[derive(Clone, Copy, Debug)]
pub enum Call {
    New,
    NewOptions,
    TryClone,
    StoredDirectives,
    Parse,
    Format,
    /// `before_request` with a fresh answer.
    Fresh,
    /// `before_request` if the stored response has to be validated.
    Validated,
    /// `before_request` if the request doesn't match.
    Unmatched,
    /// `before_request` for a HEAD that doesn't match, whose request validates.
    UnmatchedHead,
    /// `before_request` if the response may not be stored.
    Unstorable,
    NotModified,
    Modified,
    /// `next_policy` with a 304.
    NextPolicy,
    /// `response_at`.
    ResponseAt,
    ToValue,
    FromValue,
    /// Three caches after the first one.
    Chain,
    /// Steps of each kind.
    Replay,
    /// The steps of the longest example.
    ReplayExample,
    /// `add` of a copy to variants.
    Add,
    /// `choose` with a fresh choice.
    ChooseFresh,
    /// `choose` with a choice that has to be validated.
    ChooseValidated,
    /// The headers of the response, as a proxy forwards them.
    Forward,
    /// One line for each name of the response.
    Join,
    /// The headers of the response after a 304.
    Update,
    /// `append` to empty headers.
    Append,
    /// `cache_status`, with a name and a detail that are strings.
    CacheStatus,
    /// `detail` of an explanation.
    Detail,
    /// `text` of a member with everything that a cache can learn.
    Member,
    IsStorable,
    Age,
    TimeToLive,
    IsStale,
    Storability,
    Freshness,
    StoredTarget,
    StoredMethod,
    StoredStatus,
    StoredHeaders,
    StoredRequestHeaders,
    StoredOptions,
    StoredResponseTime,
    /// For a request that matches, and for one that doesn't.
    MatchesRequest,
    /// For a request that matches, and for one that doesn't.
    FreshAt,
    /// For a request that matches, and for one that doesn't.
    MayBeUsed,
    /// For a request that matches, and for one that doesn't.
    AnswersOnceValidated,
    /// For a request that matches, and for one that doesn't.
    Explain,
    /// `outcome` of both explanations.
    Outcome,
    /// `time_left` of the first explanation.
    TimeLeft,
    /// For a request that has to be validated, if no stale use is allowed.
    StaleUse,
    /// For a response that allows it.
    ForbidsStale,
    /// For a request whose If-None-Match has another tag.
    IsNotModifiedFor,
    SatisfiesWithoutRevalidation,
    GetStr,
    /// Each step to the end.
    GetAllComma,
    Len,
    ContainsKey,
    Get,
    EntryAt,
    Fraction,
    DefaultOptions,
    OptionsFromValue,
    MomentFromValue,
    IsSameUri,
    Method,
    /// For a request and for a response.
    Headers,
    Status,
    /// `new`, `len` and `is_empty` of variants.
    NewVariants,
    PolicyAt,
    Replace,
    Remove,
    /// `choose` if none of the variants matches.
    ChooseNothing,
    FreshPlace,
    MatchingPlace,
    /// `explain` of variants, for a request that one answers, and if none matches.
    ExplainVariants,
    /// From 1900 on, and before.
    PrintDate,
    /// From 1900 on, and before.
    HttpDate,
    /// For a text of the usual length.
    ReadDate,
    IsConfirmedBy,
    IsEmpty,
    /// `iter`, and each step to the end.
    Iter,
}

/// Each call once.
pub const CALLS: [Call; 82] = [
    Call::New,
    Call::NewOptions,
    Call::TryClone,
    Call::StoredDirectives,
    Call::Parse,
    Call::Format,
    Call::Fresh,
    Call::Validated,
    Call::Unmatched,
    Call::UnmatchedHead,
    Call::Unstorable,
    Call::NotModified,
    Call::Modified,
    Call::NextPolicy,
    Call::ResponseAt,
    Call::ToValue,
    Call::FromValue,
    Call::Chain,
    Call::Replay,
    Call::ReplayExample,
    Call::Add,
    Call::ChooseFresh,
    Call::ChooseValidated,
    Call::Forward,
    Call::Join,
    Call::Update,
    Call::Append,
    Call::CacheStatus,
    Call::Detail,
    Call::Member,
    Call::IsStorable,
    Call::Age,
    Call::TimeToLive,
    Call::IsStale,
    Call::Storability,
    Call::Freshness,
    Call::StoredTarget,
    Call::StoredMethod,
    Call::StoredStatus,
    Call::StoredHeaders,
    Call::StoredRequestHeaders,
    Call::StoredOptions,
    Call::StoredResponseTime,
    Call::MatchesRequest,
    Call::FreshAt,
    Call::MayBeUsed,
    Call::AnswersOnceValidated,
    Call::Explain,
    Call::Outcome,
    Call::TimeLeft,
    Call::StaleUse,
    Call::ForbidsStale,
    Call::IsNotModifiedFor,
    Call::SatisfiesWithoutRevalidation,
    Call::GetStr,
    Call::GetAllComma,
    Call::Len,
    Call::ContainsKey,
    Call::Get,
    Call::EntryAt,
    Call::Fraction,
    Call::DefaultOptions,
    Call::OptionsFromValue,
    Call::MomentFromValue,
    Call::IsSameUri,
    Call::Method,
    Call::Headers,
    Call::Status,
    Call::NewVariants,
    Call::PolicyAt,
    Call::Replace,
    Call::Remove,
    Call::ChooseNothing,
    Call::FreshPlace,
    Call::MatchingPlace,
    Call::ExplainVariants,
    Call::PrintDate,
    Call::HttpDate,
    Call::ReadDate,
    Call::IsConfirmedBy,
    Call::IsEmpty,
    Call::Iter,
];

/// Returns the exchange on which the call at an index is made.
pub fn exchange_of(call: Call, at: usize) -> Exchange {
    match call {
        Call::Unstorable => PRIVATE,
        Call::ReplayExample => EXAMPLE,
        Call::ChooseFresh
        | Call::ChooseValidated
        | Call::ChooseNothing
        | Call::PolicyAt
        | Call::Replace
        | Call::Remove
        | Call::FreshPlace
        | Call::MatchingPlace
        | Call::ExplainVariants => VARIANTS,
        _ if at < TAKING_MEMORY => MAIN,
        _ => VARIED,
    }
}

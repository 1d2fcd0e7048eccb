//! Makes the calls that don't allocate.
use crate::answer::after;
use crate::call::Call;
use crate::case::Case;
use cache_script::{Script, Step};
use http::HeaderMap;
use http_cache_semantics::directives::{CacheControl, GetHeaderStr, get_all_comma};
use http_cache_semantics::explain::{
    CacheOutcome, Forward, LifetimeSource, Permission, Storability, TimeLeft,
};
use http_cache_semantics::forwarding::{http_date, print_date, read_date};
use http_cache_semantics::policy::Fraction;
use http_cache_semantics::stored::{moment_from_value, options_from_value};
use http_cache_semantics::{CacheError, CacheOptions, RequestLike, ResponseLike, Variants};
use jiff::Timestamp;
use serde_json::Value;
use std::alloc::Global;
use std::time::Duration;

// A lifetime of ten seconds, after five and a half.
fn is_right_of_policy(case: Case<'_>, call: Call) -> bool {
    let policy = case.policy;
    let now = after(5_500_000_000);
    match call {
        Call::IsStorable => policy.is_storable(),
        Call::Age => policy.age(now) == Duration::from_nanos(5_500_000_000),
        Call::TimeToLive => policy.time_to_live(now) == Duration::from_nanos(4_500_000_000),
        Call::IsStale => !policy.is_stale(now),
        Call::Storability => policy.storability() == Storability::Allowed(Permission::MaxAge),
        Call::Freshness => policy.freshness().source == LifetimeSource::MaxAge,
        Call::StoredTarget => *policy.stored_target() == case.script.request.uri,
        Call::StoredMethod => policy.stored_method().as_str() == "GET",
        Call::StoredStatus => policy.stored_status().as_u16() == 200,
        Call::StoredHeaders => {
            policy.stored_headers().get_str("cache-control")
                == Some("max-age=10, a=\"b c\", public")
        }
        Call::StoredRequestHeaders => policy.stored_request_headers().get_str("accept")
            == Some("a"),
        Call::StoredOptions => policy.stored_options() == case.script.options,
        Call::StoredResponseTime => policy.stored_response_time().as_second() == 1_704_067_200,
        _ => !policy.forbids_stale(),
    }
}

// Whether the request matches, is answered without validation, may be answered by a stale response
// after an error, or by a 304.
fn says_at(case: Case<'_>, at: usize, call: Call) -> Option<bool> {
    match case.script.steps.get(at) {
        Some(Step::Ask { request, moment }) => Some(match call {
            Call::FreshAt => case.policy.fresh_at(request, *moment),
            Call::MayBeUsed => case.policy.may_be_used(request, *moment),
            Call::AnswersOnceValidated => case.policy.answers_once_validated(request),
            Call::Explain => case.policy.explain(request, *moment).reason.is_none(),
            Call::StaleUse => case.policy.stale_use(request, *moment).if_error,
            Call::IsNotModifiedFor => case.policy.is_not_modified_for(request),
            _ => case.policy.matches_request(request),
        }),
        _ => None,
    }
}

// A hit or why not, and the whole seconds that are left.
fn explained_at(case: Case<'_>, at: usize) -> Option<(CacheOutcome, TimeLeft)> {
    match case.script.steps.get(at) {
        Some(Step::Ask { request, moment }) => {
            let explanation = case.policy.explain(request, *moment);
            Some((explanation.outcome(), explanation.time_left()))
        }
        _ => None,
    }
}

// The requests are one that is answered, and one with another Accept.
fn is_right_of_request(case: Case<'_>, call: Call) -> bool {
    match call {
        Call::Outcome => {
            explained_at(case, 0).is_some_and(|it| it.0 == CacheOutcome::Hit)
                && explained_at(case, 6).is_some_and(|it| it.0
                    == CacheOutcome::Forwarded(Forward::VaryMiss))
        }
        Call::TimeLeft => explained_at(case, 0).is_some_and(|it| it.1 == TimeLeft::Left(4)),
        Call::StaleUse | Call::IsNotModifiedFor => says_at(case, 2, call) == Some(false),
        _ => says_at(case, 0, call) == Some(true) && says_at(case, 6, call) == Some(false),
    }
}

fn are_pieces(headers: &HeaderMap) -> bool {
    let mut pieces = get_all_comma(headers.get_all("warning"));
    pieces.next() == Some("110 - \"s\"")
        && pieces.next() == Some("214 - \"x\"")
        && pieces.next().is_none()
}

fn is_right_of_messages(script: &Script, call: Call) -> bool {
    let (request, response) = (&script.request, &script.response);
    match call {
        Call::GetStr => response.headers.get_str("eTAG") == Some("\"c\""),
        Call::GetAllComma => are_pieces(&response.headers),
        Call::IsSameUri => request.is_same_uri(&request.uri),
        Call::Method => request.method().as_str() == "GET",
        Call::Headers => request.headers().len() == 1 && response.headers().len() == 9,
        _ => response.status().as_u16() == 200,
    }
}

fn is_right_of_fraction() -> bool {
    Fraction::new(1, 0).is_none()
        && Fraction::new(2, 4).is_some_and(|it| it.numerator() == 2 && it.denominator() == 4)
}

fn is_right_of_new(alloc: Global) -> bool {
    let variants = Variants::new(alloc);
    variants.is_empty() && variants.len() == 0
}

// The last second of 1899.
fn early() -> Timestamp {
    Timestamp::from_second(-2_208_988_801).unwrap_or(Timestamp::UNIX_EPOCH)
}

fn is_right_of_date(call: Call) -> bool {
    let now = after(5_500_000_000);
    match call {
        Call::PrintDate => {
            print_date(now) == Some(*b"Mon, 01 Jan 2024 00:00:05 +0000")
                && print_date(early()).is_none()
        }
        _ => {
            http_date(now) == Some(*b"Mon, 01 Jan 2024 00:00:05 GMT")
                && http_date(early()).is_none()
        }
    }
}

fn reads_date(alloc: Global, headers: &HeaderMap) -> Result<bool, CacheError> {
    match headers.get("last-modified") {
        Some(value) => {
            let date = read_date(alloc, value)?;
            Ok(date.is_some_and(|date| date.as_second() == 1_695_427_200))
        }
        None => Ok(false),
    }
}

fn is_confirmed_at(case: Case<'_>, at: usize) -> Option<bool> {
    match case.script.steps.get(at) {
        Some(Step::Receive { response, .. }) => Some(case.policy.is_confirmed_by(response)),
        _ => None,
    }
}

/// Makes a call on the exchange, or on nothing, and returns whether its result is right.
pub fn is_right(alloc: Global, case: Case<'_>, call: Call) -> Result<bool, CacheError> {
    Ok(match call {
        Call::MatchesRequest
        | Call::FreshAt
        | Call::MayBeUsed
        | Call::AnswersOnceValidated
        | Call::Explain
        | Call::Outcome
        | Call::TimeLeft
        | Call::StaleUse
        | Call::IsNotModifiedFor => is_right_of_request(case, call),
        Call::GetStr
        | Call::GetAllComma
        | Call::IsSameUri
        | Call::Method
        | Call::Headers
        | Call::Status => is_right_of_messages(case.script, call),
        Call::Fraction => is_right_of_fraction(),
        Call::DefaultOptions => CacheOptions::default().shared,
        Call::NewVariants => is_right_of_new(alloc),
        Call::PrintDate | Call::HttpDate => is_right_of_date(call),
        Call::ReadDate => reads_date(alloc, &case.script.response.headers)?,
        Call::IsConfirmedBy => {
            is_confirmed_at(case, 3) == Some(true) && is_confirmed_at(case, 5) == Some(false)
        }
        _ => is_right_of_policy(case, call),
    })
}

fn is_pair(entry: Option<(&str, Option<&str>)>, name: &str, value: &str) -> bool {
    match entry {
        Some((found, Some(its_value))) => found == name && its_value == value,
        _ => false,
    }
}

fn are_in_order(read: &CacheControl) -> bool {
    let mut directives = read.iter();
    if !is_pair(directives.next(), "max-age", "10") {
        return false;
    }
    for _ in 0..4 {
        if directives.next().is_none() {
            return false;
        }
    }
    directives.next().is_none()
}

/// Makes a call on the directives of the response, and returns whether its result is right.
pub fn is_right_of_directives(read: &CacheControl, call: Call) -> bool {
    match call {
        Call::Len => read.len() == 5,
        Call::ContainsKey => read.contains_key("public") && !read.contains_key("private"),
        Call::Get => read.get("public") == Some(None),
        Call::IsEmpty => !read.is_empty(),
        Call::Iter => are_in_order(read),
        _ => is_pair(read.entry_at(0), "max-age", "10") && read.entry_at(5).is_none(),
    }
}

fn ignores_cargo_cult(options: &Value) -> bool {
    match options_from_value(options) {
        Some(options) => options.ignore_cargo_cult,
        None => false,
    }
}

fn is_moment_of_response(value: &Value) -> bool {
    match moment_from_value(value) {
        Some(moment) => moment.as_second() == 1_704_067_200,
        None => false,
    }
}

/// Makes a call on the stored form, and returns whether its result is right.
pub fn is_right_of_form(form: &Value, call: Call) -> bool {
    match (call, form.get("opts"), form.get("response_time")) {
        (Call::OptionsFromValue, Some(options), _) => ignores_cargo_cult(options),
        (Call::MomentFromValue, _, Some(moment)) => is_moment_of_response(moment),
        _ => false,
    }
}

fn is_ok<T: Drop, E: Drop>(made: Result<T, E>) -> bool {
    made.is_ok()
}

fn is_some<T: Drop>(option: Option<T>) -> bool {
    option.is_some()
}

// The last of three replaces the first, and then there are two.
fn replaces(variants: &mut Variants) -> bool {
    match variants.remove(2) {
        Some(policy) => is_ok(variants.replace(0, policy)) && variants.len() == 2,
        None => false,
    }
}

// The middle one of three is removed, and then there are two.
fn removes(variants: &mut Variants) -> bool {
    !is_some(variants.remove(3)) && is_some(variants.remove(1)) && variants.len() == 2
}

// Which variant is fresh, which matches, and whether one answers.
fn says_among(
    variants: &Variants,
    script: &Script,
    at: usize,
) -> (Option<usize>, Option<usize>, bool) {
    match script.steps.get(at) {
        Some(Step::Ask { request, moment }) => (
            variants.fresh_index(request, *moment),
            variants.matching_index(request),
            variants.explain(request, *moment).reason.is_none(),
        ),
        _ => (None, None, false),
    }
}

/// Makes a call on variants, and returns whether its result is right.
///
/// The newest of three matches and is stale; the oldest is fresh. None matches a HEAD.
pub fn is_right_of_variants(variants: &mut Variants, script: &Script, call: Call) -> bool {
    let (of_get, of_head) = (
        says_among(variants, script, 0),
        says_among(variants, script, 2),
    );
    match call {
        Call::PolicyAt => variants.policy_at(2).is_some() && variants.policy_at(3).is_none(),
        Call::Replace => replaces(variants),
        Call::Remove => removes(variants),
        Call::FreshPlace => of_get.0 == Some(2) && of_head.0.is_none(),
        Call::MatchingPlace => of_get.1 == Some(0) && of_head.1.is_none(),
        _ => of_get.2 && !of_head.2,
    }
}

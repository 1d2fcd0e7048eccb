//! Members of Cache-Status.
use http::StatusCode;
use http_cache_semantics::explain::{CacheOutcome, Forward, Member, TimeLeft};
use std::alloc::Global;
use std::test::Fail;
use test_cases::fixtures::field;

// Returns the outcome that a word names: a hit, an own response, or a reason to forward.
fn outcome(word: &str) -> Option<CacheOutcome> {
    let why = match word {
        "hit" => return Some(CacheOutcome::Hit),
        "generated" => return Some(CacheOutcome::Generated),
        "bypass" => Forward::Bypass,
        "method" => Forward::Method,
        "uri-miss" => Forward::UriMiss,
        "vary-miss" => Forward::VaryMiss,
        "miss" => Forward::Miss,
        "request" => Forward::Request,
        "stale" => Forward::Stale,
        _ => return None,
    };
    Some(CacheOutcome::Forwarded(why))
}

fn status(text: &str) -> Result<Option<StatusCode>, Fail> {
    if text.is_empty() {
        return Ok(None);
    }
    Ok(Some(StatusCode::from_bytes(text.as_bytes())?))
}

// Returns the seconds that are left, or the seconds past after a `-`.
fn left(text: &str) -> Result<Option<TimeLeft>, Fail> {
    if text.is_empty() {
        return Ok(None);
    }
    match text.strip_prefix("-") {
        Some(past) => Ok(Some(TimeLeft::Past(past.parse::<u128>()?))),
        None => Ok(Some(TimeLeft::Left(text.parse::<u128>()?))),
    }
}

/// Returns the text of a member: the name of the cache, what it did, the status of the origin's
/// response, `stored` if it was stored, the remaining lifetime, and a detail.
pub fn member(alloc: Global, case: &str) -> Result<String, Fail> {
    let detail = field(case, 6)?;
    let member = Member {
        cache: field(case, 1)?,
        outcome: outcome(field(case, 2)?).ok_or("no such outcome")?,
        forward_status: status(field(case, 3)?)?,
        stored: field(case, 4)? == "stored",
        left: left(field(case, 5)?)?,
        detail: if detail.is_empty() {
            None
        } else {
            Some(detail)
        },
    };
    Ok(member.text(alloc)?)
}

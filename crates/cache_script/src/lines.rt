//! Writes the lines of a script's output, each with its line feed.
ghost use Rattle.std.specs.Prelude.{◌≡◌, Some, IsSome, IfOk, OnOk, ◌++◌, codes, map, string_bytes};
ghost use Rattle.std.specs.Duration.{as_nanos};
ghost use Rattle.std.specs.List.{AllByRecursion};
ghost use Rattle.http_cache_policy.specs.Headers.{headers_of, first_text};
ghost use Rattle.http_cache_policy.specs.Steps.{answer_seen, outcome_seen};
ghost use Rattle.cache_script.specs.Lines.{storable_line, age_line, stale_line, updated_line, restarted_line};
ghost use Rattle.cache_script.specs.Lines.{first_line, HasLineAfter, AreLinesAfter, HasAge};

use http::{StatusCode, response};
use http_cache_fields::directives::GetHeaderStr;
use http_cache_policy::before::BeforeRequest;
use http_cache_policy::policy::CachePolicy;
use http_cache_policy::steps::Outcome;
use jiff::Timestamp;
use std::alloc::{AllocError, Global};
use std::fmt::Write;
use std::time::Duration;

/// Writes whether a response may be stored, and its remaining lifetime.
pub fn push_storable_line(
    text: &mut String,
    storable: bool,
    left: Duration,
) -> Result<(), AllocError>
    ensures { OnOk result (string_bytes text.new
        ≡ string_bytes text.old ++ storable_line storable (as_nanos left)) }
{
    let seconds = left.as_secs();
    let nanos = left.subsec_nanos();
    writeln!(text, "storable {storable} ttl {seconds}.{nanos:09}")
}

/// Writes the line of a fresh answer, with the text of its age.
#[tactic(auto, unfolding(crate::specs::Lines::age_line))]
pub fn push_age_line(text: &mut String, age: &str) -> Result<(), AllocError>
    ensures { OnOk result
        (string_bytes text.new ≡ string_bytes text.old ++ age_line age.now) }
{
    writeln!(text, "fresh age {age}")
}

/// Writes the line of a stale answer, with whether the stored response matches.
#[tactic(auto, unfolding(crate::specs::Lines::stale_line))]
pub fn push_stale_line(text: &mut String, matches: bool) -> Result<(), AllocError>
    ensures { OnOk result
        (string_bytes text.new ≡ string_bytes text.old ++ stale_line matches) }
{
    writeln!(text, "stale matches {matches}")
}

/// Writes the line of an answer to a response: whether the stored body is still valid, and the
/// status.
#[tactic(auto, unfolding(crate::specs::Lines::updated_line))]
pub fn push_updated_line(
    text: &mut String,
    not_modified: bool,
    status: StatusCode,
) -> Result<(), AllocError>
    ensures { OnOk result
        (string_bytes text.new ≡ string_bytes text.old ++ updated_line not_modified status) }
{
    let status = status.as_u16();
    if not_modified {
        writeln!(text, "not-modified status {status}")
    } else {
        writeln!(text, "modified status {status}")
    }
}

/// Writes the line of a restart.
pub fn push_restarted_line(text: &mut String) -> Result<(), AllocError>
    ensures { OnOk result (string_bytes text.new ≡ string_bytes text.old ++ restarted_line) }
{
    text.push_str("restarted\n")
}

/// Writes the line of a policy at a time.
pub fn push_first_line(
    text: &mut String,
    policy: &CachePolicy,
    now: Timestamp,
) -> Result<(), AllocError>
    ensures { OnOk result (string_bytes text.new
        ≡ string_bytes text.old ++ first_line policy.now now.nanosecond) }
{
    push_storable_line(text, policy.is_storable(), policy.time_to_live(now))
}

fn age_of(parts: &response::Parts) -> &str
    requires { IsSome (first_text (headers_of parts.now.headers) (codes "age")) }
    ensures { first_text (headers_of parts.now.headers) (codes "age") ≡ Some result.now }
{
    match parts.headers.get_str("age") {
        Some(age) => age,
        None => unreachable!(),
    }
}

fn push_line_of_answer(text: &mut String, answer: &BeforeRequest) -> Result<(), AllocError>
    requires { HasAge (answer_seen answer.now) }
    ensures { OnOk result
        (HasLineAfter (answer_seen answer.now) (string_bytes text.old) (string_bytes text.new)) }
{
    match answer {
        BeforeRequest::Fresh(parts) => push_age_line(text, age_of(parts)),
        BeforeRequest::Stale { matches, .. } => push_stale_line(text, *matches),
    }
}

fn push_line_of_outcome(text: &mut String, outcome: &Outcome) -> Result<(), AllocError>
    requires { HasAge (outcome_seen outcome.now) }
    ensures { OnOk result (HasLineAfter
        (outcome_seen outcome.now) (string_bytes text.old) (string_bytes text.new)) }
{
    match outcome {
        Outcome::Asked(answer) => push_line_of_answer(text, answer),
        Outcome::NotModified(parts) => push_updated_line(text, true, parts.status),
        Outcome::Modified(parts) => push_updated_line(text, false, parts.status),
        Outcome::Restarted => push_restarted_line(text),
    }
}

/// Returns the line of a policy at a time, and then those of outcomes in order.
pub(crate) fn lines_of(
    alloc: Global,
    policy: &CachePolicy,
    now: Timestamp,
    outcomes: &[Outcome],
) -> Result<String, AllocError>
    requires { AllByRecursion HasAge (map outcome_seen outcomes.now) }
    ensures { IfOk result (λ text. AreLinesAfter (map outcome_seen outcomes.now)
        (first_line policy.now now.nanosecond) (string_bytes text)) }
{
    let mut text = String::new(alloc);
    push_first_line(&mut text, policy, now)?;
    for outcome in outcomes {
        push_line_of_outcome(&mut text, outcome)?;
    }
    Ok(text)
}

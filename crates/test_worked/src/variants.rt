//! Tests the choice among several variants of a response.
use http::{request, response};
use http_cache_semantics::directives::GetHeaderStr;
use http_cache_semantics::{CachePolicy, Choice, Variants};
use std::alloc::{AllocError, Global};
use std::fmt::Write;
use std::process::Abort;
use std::test::Fail;
use test_cases::fixtures::{after, field, request, response, with, with_further, with_mut};

// A line adds a policy for a request and a response, removes the policy at an index, or makes a
// request so many seconds after the receipt. It ends with the outcome, in which headers show a
// request to the origin server.
fn steps() -> &'static str {
    r#"ask|Accept: a|5|nothing
       add|Accept: a|Cache-Control: max-age=100 ~ ETag: "1" ~ Vary: Accept|1
       add|Accept: b|Cache-Control: max-age=100 ~ ETag: "1" ~ Vary: Accept|2
       ask|Accept: a|5|fresh 1 age 5
       ask|Accept: b|5|fresh 0 age 5
       ask|Accept: c|5|nothing
       add|Accept: a|Cache-Control: max-age=1 ~ ETag: "3" ~ Vary: Accept|3
       ask|Accept: a|5|fresh 2 age 5
       ask|Accept: a|200|validate 0 accept: a if-none-match: "3" of 2
       ask|Accept: b|200|validate 1 accept: b if-none-match: "1" of 2
       remove|0|1|2
       ask|Accept: a|200|validate 1 accept: a if-none-match: "1" of 2
       add|Accept: a|Cache-Control: max-age=100 ~ Vary: Accept|3
       ask|Accept: a|5|fresh 0 age 5
       ask|Accept: a ~ Cache-Control: no-cache|5|validate 0 accept: a if-none-match: none of 2
       remove|3|0|3
       remove|1|100|2
       ask|Accept: b|5|nothing
       ask|Accept: a|200|validate 0 accept: a if-none-match: none of 1
       remove|0|100|1
       remove|0|100|0
       ask|Accept: a|5|nothing"#
}

fn text<'a>(headers: &'a http::HeaderMap, name: &str) -> &'a str {
    headers.get_str(name).unwrap_or("none")
}

fn add_choice(shown: &mut String, choice: &Choice) -> Result<(), AllocError> {
    match choice {
        Choice::Fresh { place, parts } => {
            write!(shown, "fresh {place} age {}", text(&parts.headers, "age"))
        }
        Choice::Validate { place, request } => {
            let accept = text(&request.headers, "accept");
            let tags = text(&request.headers, "if-none-match");
            let count = request.headers.len();
            write!(
                shown,
                "validate {place} accept: {accept} if-none-match: {tags} of {count}"
            )
        }
        Choice::Nothing => shown.push_str("nothing"),
    }
}

fn text_of(alloc: Global, choice: &Choice) -> Result<String, Fail> {
    let mut shown = String::new(alloc);
    add_choice(&mut shown, choice)?;
    Ok(shown)
}

fn asked(
    alloc: Global,
    variants: &Variants,
    asking: &request::Parts,
    seconds: &str,
) -> Result<String, Fail> {
    let now = after(seconds.parse::<i64>()?.saturating_mul(1_000_000_000))?;
    let choice = variants.choose(alloc, asking, now);
    with(choice.map_err(Fail::from), |choice| text_of(alloc, choice))
}

fn policy_of(
    alloc: Global,
    asking: &request::Parts,
    answer: &response::Parts,
) -> Result<CachePolicy, Fail> {
    Ok(CachePolicy::new(alloc, asking, answer, after(0)?)?)
}

fn policy(alloc: Global, asked: &str, answered: &str) -> Result<CachePolicy, Fail> {
    with(request(alloc, "GET", asked), |asking| {
        with(
            response(alloc, "200", answered),
            |answer| policy_of(alloc, asking, answer),
        )
    })
}

fn second<A: Drop, B>(pair: (A, B)) -> B {
    pair.1
}

fn put(variants: &mut Variants, policy: CachePolicy) -> Result<(), Fail> {
    variants
        .add(policy)
        .map_err(|refused| Fail::from(second(refused)))
}

// The seconds that were left of the removed policy's lifetime, or 0 if there was none.
fn taken(variants: &mut Variants, index: usize) -> Result<u64, Fail> {
    let now = after(0)?;
    match variants.remove(index) {
        Some(policy) => with(Ok(policy), |policy| Ok(policy.time_to_live(now).as_secs())),
        None => Ok(0),
    }
}

fn choice_for(
    alloc: Global,
    variants: &Variants,
    lines: &str,
    seconds: &str,
) -> Result<String, Fail> {
    with(
        request(alloc, "GET", lines),
        |asking| asked(alloc, variants, asking, seconds),
    )
}

fn asks(rt: &impl Abort, alloc: Global, variants: &Variants, step: &str) -> Result<(), Fail> {
    let shown = choice_for(alloc, variants, field(step, 1)?, field(step, 2)?)?;
    assert_eq!(rt; shown.as_str(), field(step, 3)?, "at {step}");
    Ok(())
}

fn removes(rt: &impl Abort, variants: &mut Variants, step: &str) -> Result<(), Fail> {
    let left = taken(variants, field(step, 1)?.parse::<usize>()?)?;
    assert_eq!(rt; left, field(step, 2)?.parse::<u64>()?, "at {step}");
    Ok(())
}

fn has_as_many(rt: &impl Abort, variants: &Variants, step: &str) -> Result<(), Fail> {
    let len = field(step, 3)?.parse::<usize>()?;
    assert_eq!(rt; variants.len(), len, "at {step}");
    assert_eq!(rt; variants.is_empty(), len == 0, "at {step}");
    assert_eq!(rt; variants.policy_at(len).is_none(), true, "at {step}");
    Ok(())
}

fn take_step(
    rt: &impl Abort,
    alloc: Global,
    variants: &mut Variants,
    step: &str,
) -> Result<(), Fail> {
    match field(step, 0)?.trim() {
        "ask" => return asks(rt, alloc, variants, step),
        "add" => put(variants, policy(alloc, field(step, 1)?, field(step, 2)?)?)?,
        _ => removes(rt, variants, step)?,
    }
    has_as_many(rt, variants, step)
}

#[test]
fn choices_among_variants(rt: HostRuntime) -> Result<(), Fail> {
    with_mut(Ok(Variants::new(rt.alloc())), |variants| {
        for step in steps().lines() {
            take_step(&rt, rt.alloc(), variants, step)?;
        }
        Ok(())
    })
}

// The choice, or the text of the error.
fn choice_or_refusal(
    alloc: Global,
    variants: &Variants,
    asking: &request::Parts,
    nanos: i64,
) -> Result<String, Fail> {
    match variants.choose(alloc, asking, after(nanos)?) {
        Ok(choice) => with(Ok(choice), |choice| text_of(alloc, choice)),
        Err(e) => Ok(format!(in alloc; "{e}")?),
    }
}

// For a GET without headers, and one policy of a response with headers.
fn choice_of_one(alloc: Global, lines: &str, nanos: i64) -> Result<String, Fail> {
    with_mut(Ok(Variants::new(alloc)), |variants| {
        put(variants, policy(alloc, "", lines)?)?;
        with(
            request(alloc, "GET", ""),
            |asking| choice_or_refusal(alloc, variants, asking, nanos),
        )
    })
}

// A header map has room for 24576 names, and an answer has Age and Date too.
#[test]
fn choices_from_full_maps(rt: HostRuntime) -> Result<(), Fail> {
    let lines = with_further(rt.alloc(), "Cache-Control: max-age=10", 24573)?;
    assert_eq!(rt;
        choice_of_one(rt.alloc(), &lines, 0)?.as_str(),
        "fresh 0 age 0"
    );
    let lines = with_further(rt.alloc(), "Cache-Control: max-age=10", 24574)?;
    assert_eq!(rt;
        choice_of_one(rt.alloc(), &lines, 0)?.as_str(),
        "header map full"
    );
    Ok(())
}

// The Date of an answer is printable from 1900 on, which is 3913056000 seconds before the start.
#[test]
fn choices_before_1900(rt: HostRuntime) -> Result<(), Fail> {
    let lines = "Cache-Control: max-age=10";
    let shown = choice_of_one(rt.alloc(), lines, -3_913_056_000_000_000_000)?;
    assert_eq!(rt; shown.as_str(), "fresh 0 age 0");
    let shown = choice_of_one(rt.alloc(), lines, -3_913_056_000_000_000_001)?;
    assert_eq!(rt; shown.as_str(), "date not printable");
    Ok(())
}

//! Finds the first fault of a script or of its steps.
use crate::fault::{Fault, Position};
use crate::message::{request_fault, response_fault};
use crate::part::Part;
use http_cache_json::form::{moment_from_value, options_from_value, pair};
use serde_json::Value;
use std::alloc::Global;

const TIME: &str = "a time, [seconds, nanoseconds] since 1970, whole numbers";

fn time_fault<'a>(time: Part<'a>) -> Result<(), Fault<'a>> {
    match moment_from_value(time.value) {
        Some(_) => Ok(()),
        None => Err(time.is_not(TIME)),
    }
}

fn flag_fault<'a>(options: Part<'a>, name: &'static str) -> Result<(), Fault<'a>> {
    let flag = options.member(name)?;
    match flag.value.as_bool() {
        Some(_) => Ok(()),
        None => Err(flag.is_not("true or false")),
    }
}

fn is_duration(value: &Value) -> bool {
    match pair(value) {
        Some((seconds, nanoseconds)) => {
            seconds.as_u64().is_some() && nanoseconds.as_u64().is_some_and(|n| n < 1_000_000_000)
        }
        None => false,
    }
}

// If all other members are right, the fraction is wrong.
fn options_fault<'a>(options: Part<'a>) -> Result<(), Fault<'a>> {
    options.has_only(&[
        "shared",
        "cache_heuristic",
        "immutable_min_time_to_live",
        "ignore_cargo_cult",
    ])?;
    flag_fault(options, "shared")?;
    flag_fault(options, "ignore_cargo_cult")?;
    let least = options.member("immutable_min_time_to_live")?;
    if !is_duration(least.value) {
        return Err(least.is_not("a duration, [seconds, nanoseconds], whole numbers"));
    }
    let fraction = options.member("cache_heuristic")?;
    match options_from_value(options.value) {
        Some(_) => Ok(()),
        None => Err(fraction.is_not("a fraction, [numerator, denominator], whole numbers")),
    }
}

fn receive_fault<'a>(alloc: Global, step: Part<'a>) -> Result<(), Fault<'a>> {
    step.has_only(&["receive", "response", "at"])?;
    request_fault(alloc, step.member("receive")?)?;
    response_fault(alloc, step.member("response")?)?;
    time_fault(step.member("at")?)
}

fn ask_fault<'a>(alloc: Global, step: Part<'a>) -> Result<(), Fault<'a>> {
    step.has_only(&["ask", "at"])?;
    request_fault(alloc, step.member("ask")?)?;
    time_fault(step.member("at")?)
}

fn step_fault<'a>(alloc: Global, step: Part<'a>) -> Result<(), Fault<'a>> {
    if step.value.as_str() == Some("restart") {
        Ok(())
    } else if step.value.get("receive").is_some() {
        receive_fault(alloc, step)
    } else if step.value.as_object().is_some() {
        ask_fault(alloc, step)
    } else {
        Err(step.is_not("an object, nor \"restart\""))
    }
}

fn steps_fault<'a>(alloc: Global, steps: Part<'a>) -> Result<(), Fault<'a>> {
    let Some(values) = steps.value.as_array() else {
        return Err(steps.is_not("a list"));
    };
    for (index, value) in values.iter().enumerate() {
        let position = Position {
            step: Some(index),
            ..Position::default()
        };
        step_fault(alloc, Part { value, position })?;
    }
    Ok(())
}

/// Returns the first fault of a value that is read as a script.
///
/// A value without a fault may still have more fields than a header map has room for.
pub fn script_fault(alloc: Global, value: &Value) -> Result<(), Fault<'_>> {
    let script = Part {
        value,
        position: Position::default(),
    };
    script.has_only(&["options", "received", "request", "response", "steps"])?;
    options_fault(script.member("options")?)?;
    time_fault(script.member("received")?)?;
    request_fault(alloc, script.member("request")?)?;
    response_fault(alloc, script.member("response")?)?;
    steps_fault(alloc, script.member("steps")?)
}

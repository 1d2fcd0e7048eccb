//! Measures how long the library's calls take on this machine.
//!
//! `bench_calls COUNT < SCRIPT` makes a policy of the script's exchange, and prints the mean
//! nanoseconds of `COUNT` runs of each call. Then it prints the mean of a choice among 1, 10, 100
//! and 1,000 copies of the policy, of which none matches. The choices test `COUNT` policies, and
//! longer lists are left out. Without a count it prints nothing.
#![tactic(auto)]

mod call;

use cache_script::{Script, ScriptStep, Step, script_from_bytes};
use call::{TimedCall, copies_of, repeat, repeat_choice};
use http::{Method, request};
use http_cache_semantics::{CachePolicy, Variants};
use jiff::Timestamp;
use std::io::Read;
use std::process::ExitCode;
use std::time::Instant;
use std::{env, io};

// The exit status if the input is no script, or a call fails.
const NOTHING_TIMED: u8 = 2;

fn count_of(rt: &HostRuntime) -> io::Result<u64> {
    let mut words = env::args(rt)?;
    let _program = words.next();
    match words.next() {
        Some(word) => Ok(word.as_str().parse::<u64>().unwrap_or(0)),
        None => Ok(0),
    }
}

fn input(rt: &HostRuntime) -> io::Result<Vec<u8>> {
    let mut bytes = Vec::new(rt.alloc());
    rt.stdin().read_to_end(&mut bytes)?;
    Ok(bytes)
}

fn tell(
    rt: &HostRuntime,
    script: &Script,
    policy: &CachePolicy,
    call: &TimedCall<'_>,
    count: u64,
) -> io::Result<bool> {
    let start = Instant::now(rt)?;
    let weight = repeat(rt.alloc(), script, policy, call, count);
    let nanos = start.elapsed(rt)?.as_nanos();
    if weight.is_none() {
        return Ok(false);
    }
    if let Some(mean) = nanos.checked_div(u128::from(count)) {
        println!(rt; "{} {mean}", call.name())?;
    }
    Ok(true)
}

fn tell_step(
    rt: &HostRuntime,
    script: &Script,
    policy: &CachePolicy,
    step: &ScriptStep,
    count: u64,
) -> io::Result<bool> {
    match step {
        Step::Ask { request, moment } => {
            let verdict = TimedCall::FreshAt(request, *moment);
            let answer = TimedCall::BeforeRequest(request, *moment);
            Ok(
                tell(rt, script, policy, &verdict, count)?
                    && tell(rt, script, policy, &answer, count)?,
            )
        }
        Step::Receive {
            request,
            response,
            moment,
        } => {
            let after = TimedCall::AfterResponse(request, response, *moment);
            tell(rt, script, policy, &after, count)
        }
        Step::Restart => Ok(true),
    }
}

fn print_choice(
    rt: &HostRuntime,
    variants: &Variants,
    request: &request::Parts,
    now: Timestamp,
    count: u64,
) -> io::Result<bool> {
    let start = Instant::now(rt)?;
    let weight = repeat_choice(rt.alloc(), variants, request, now, count);
    let nanos = start.elapsed(rt)?.as_nanos();
    if weight.is_none() {
        return Ok(false);
    }
    if let Some(mean) = nanos.checked_div(u128::from(count)) {
        println!(rt; "choose of {} {mean}", variants.len())?;
    }
    Ok(true)
}

fn tell_copies(
    rt: &HostRuntime,
    policy: &CachePolicy,
    request: &request::Parts,
    now: Timestamp,
    count: u64,
) -> io::Result<bool> {
    let mut reported = true;
    for len in [1u64, 10, 100, 1000] {
        if len > count {
            break;
        }
        let variants = copies_of(rt.alloc(), policy, len);
        reported = reported
            && match &variants {
                Ok(variants) => print_choice(rt, variants, request, now, count.div_ceil(len))?,
                Err(_) => false,
            };
    }
    Ok(reported)
}

// The request differs from the stored one only in its method.
fn print_choices(
    rt: &HostRuntime,
    script: &Script,
    policy: &CachePolicy,
    count: u64,
) -> io::Result<bool> {
    let Ok(headers) = script.request.headers.clone() else {
        return Ok(false);
    };
    let Ok(uri) = script.request.uri.clone() else {
        return Ok(false);
    };
    let request = request::Parts {
        method: Method::OPTIONS,
        uri,
        version: script.request.version,
        headers,
    };
    tell_copies(rt, policy, &request, script.received, count)
}

fn tell_all(
    rt: &HostRuntime,
    script: &Script,
    policy: &CachePolicy,
    count: u64,
) -> io::Result<bool> {
    let made = TimedCall::MakeAndAsk(script.received);
    let mut reported = tell(rt, script, policy, &TimedCall::NewOptions, count)?
        && tell(rt, script, policy, &made, count)?
        && tell(rt, script, policy, &TimedCall::TryClone, count)?;
    for step in script.steps.as_slice() {
        reported = reported && tell_step(rt, script, policy, step, count)?;
    }
    Ok(reported && print_choices(rt, script, policy, count)?)
}

fn tell_script(rt: &HostRuntime, script: &Script, count: u64) -> io::Result<bool> {
    match script.policy(rt.alloc()) {
        Ok(policy) => tell_all(rt, script, &policy, count),
        Err(_) => Ok(false),
    }
}

fn run(rt: &HostRuntime) -> io::Result<bool> {
    let count = count_of(rt)?;
    let bytes = input(rt)?;
    match script_from_bytes(rt.alloc(), bytes.as_slice()) {
        Ok(script) => tell_script(rt, &script, count),
        Err(_) => Ok(false),
    }
}

fn main(rt: HostRuntime) -> ExitCode {
    match run(&rt) {
        Ok(true) => ExitCode::SUCCESS,
        _ => {
            // If the text can't be written, the status still reports it.
            let _ = eprintln!(rt; "timing: the input is no script, or a call was refused");
            ExitCode::from(NOTHING_TIMED)
        }
    }
}

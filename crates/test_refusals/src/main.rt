//! Makes and prints each call of the library, or only the one at the given index: those that may
//! allocate, and then the others. A call that fails is reported, and made again after a check that
//! nothing has changed.
//!
//! It is for runs in which requests for memory are refused. Otherwise no call fails.
#![tactic(auto)]

mod answer;
mod call;
mod case;
mod exchange;
mod look;
mod wanted;

use cache_script::Script;
use call::{CALLS, Call, exchange_of};
use case::{Alone, Case, Scene, form, script_of};
use exchange::Exchange;
use http::HeaderMap;
use http_cache_semantics::{CacheError, CachePolicy, Variants};
use std::alloc::Global;
use std::process::ExitCode;
use std::{env, io};

// How a call went: at once, or after an error.
#[derive(Clone, Copy)]
enum End {
    Answered,
    Refused,
    // The value for the call couldn't be made, so there was no call.
    Unmade,
    Wrong,
}

impl End {
    fn exit_status(self) -> u8 {
        match self {
            End::Answered => 0,
            End::Wrong => 1,
            End::Refused => 3,
            End::Unmade => 4,
        }
    }
}

fn unmade(e: CacheError) -> End {
    match e {
        CacheError::Memory => End::Unmade,
        _ => End::Wrong,
    }
}

fn is_as_before<S: Scene>(
    alloc: Global,
    scene: &mut S,
    case: Case<'_>,
    call: Call,
) -> Result<bool, CacheError> {
    Ok(case.is_unchanged() && case.is_written_so(alloc)? && scene.is_right(alloc, case, call)?)
}

fn again<S: Scene>(alloc: Global, scene: &mut S, case: Case<'_>, call: Call, e: CacheError) -> End {
    match (e, is_as_before(alloc, scene, case, call)) {
        (CacheError::Memory, Ok(true)) => End::Refused,
        _ => End::Wrong,
    }
}

// If all requests up to a write are refused, the line that reports a failure ends it.
fn made<S: Scene>(rt: &HostRuntime, scene: &mut S, case: Case<'_>, call: Call) -> End {
    let _ = println!(rt; "{call:?}");
    match scene.is_right(rt.alloc(), case, call) {
        Ok(true) => End::Answered,
        Ok(false) => End::Wrong,
        Err(e) => {
            let _ = println!(rt; "refused");
            again(rt.alloc(), scene, case, call, e)
        }
    }
}

fn in_scene<S: Scene + Drop>(
    rt: &HostRuntime,
    scene: Result<S, CacheError>,
    case: Case<'_>,
    call: Call,
) -> End {
    match scene {
        Ok(mut scene) => made(rt, &mut scene, case, call),
        Err(e) => unmade(e),
    }
}

fn in_case(rt: &HostRuntime, case: Case<'_>, call: Call) -> End {
    let alloc = rt.alloc();
    match call {
        Call::Format
        | Call::Len
        | Call::ContainsKey
        | Call::Get
        | Call::EntryAt
        | Call::IsEmpty
        | Call::Iter => in_scene(rt, case.directives(alloc), case, call),
        Call::ChooseFresh
        | Call::ChooseValidated
        | Call::ChooseNothing
        | Call::PolicyAt
        | Call::Replace
        | Call::Remove
        | Call::FreshPlace
        | Call::MatchingPlace
        | Call::ExplainVariants => in_scene(rt, case.variants(alloc), case, call),
        Call::FromValue | Call::OptionsFromValue | Call::MomentFromValue => {
            in_scene(rt, form(alloc), case, call)
        }
        Call::SatisfiesWithoutRevalidation => in_scene(rt, case.answer_at(alloc, 0), case, call),
        Call::Add => in_scene(rt, Ok(Variants::new(alloc)), case, call),
        Call::Append => in_scene(rt, Ok(HeaderMap::new(alloc)), case, call),
        _ => made(rt, &mut Alone, case, call),
    }
}

fn by_policy(
    rt: &HostRuntime,
    exchange: Exchange,
    script: &Script,
    policy: Result<CachePolicy, CacheError>,
    call: Call,
) -> End {
    match policy {
        Ok(policy) => {
            let case = Case {
                exchange,
                script,
                policy: &policy,
            };
            in_case(rt, case, call)
        }
        Err(e) => unmade(e),
    }
}

fn by_script(
    rt: &HostRuntime,
    exchange: Exchange,
    script: Result<Script, CacheError>,
    call: Call,
) -> End {
    match script {
        Ok(script) => by_policy(rt, exchange, &script, script.policy(rt.alloc()), call),
        Err(e) => unmade(e),
    }
}

fn end_of(rt: &HostRuntime, call: Call, exchange: Exchange) -> End {
    by_script(rt, exchange, script_of(rt.alloc(), &exchange), call)
}

fn end_at(rt: &HostRuntime, at: usize) -> End {
    match CALLS.get(at) {
        Some(call) => end_of(rt, *call, exchange_of(*call, at)),
        None => End::Wrong,
    }
}

// A run in which a request is refused ends with the call that made it.
fn end_of_all(rt: &HostRuntime) -> End {
    for at in 0..CALLS.len() {
        let end = end_at(rt, at);
        if end.exit_status() != 0 {
            return end;
        }
    }
    End::Answered
}

// The word after the program's name, as a number.
fn position(rt: &HostRuntime) -> io::Result<Option<usize>> {
    let mut words = env::args(rt)?;
    let _program = words.next();
    Ok(words.next().and_then(|word| word.as_str().parse().ok()))
}

fn run(rt: &HostRuntime) -> End {
    match position(rt) {
        Ok(None) => end_of_all(rt),
        Ok(Some(at)) => end_at(rt, at),
        Err(_) => End::Unmade,
    }
}

fn main(rt: HostRuntime) -> ExitCode {
    ExitCode::from(run(&rt).exit_status())
}

//! Reads a recorded session (HAR 1.2), and reports what to change first, or what a cache would have
//! answered to each request and why. Reads heads of responses too, and reports what caches do with
//! each.
#![tactic(auto)]

mod arguments;
mod progress;

use arguments::{Invocation, Order, Refusal, invocation_of, shown};
use http_cache_show::error::AuditError;
use http_cache_show::run::{Ended, run};
use jiff::Timestamp;
use progress::Watched;
use std::fs::File;
use std::hash::RandomState;
use std::io::{IsTerminal, Read};
use std::process::ExitCode;
use std::{env, io};

const USAGE: &str =
    "usage: cacheaudit [--private | --shared] [--heuristic N/D] [--html | --json | --lines | --json-lines | --by-url]
                  [--no-query] [--ignore-request-no-cache] [--with 'PATTERN: HEADER: VALUE']..
                  [--fail-under N] [FILE]
reports of a recorded session (HAR 1.2) what to change first, what later visits cost, and what looks wrong;
or of responses (the heads that curl -sI, -sIL or -si prints) what caches do with each, and what to send
    --html                     the report of a recorded session as one page of HTML, which needs nothing else
    --json                     what the report finds in a recorded session as one JSON object
    --lines, --json-lines      a line or an object for each request: what a cache would have answered, and why
    --by-url                   an object for each url
    --private, --shared        a cache of one user, as a browser's (the report's default), or of many, as a
                               CDN's (the default of all else)
    --heuristic N/D            the part of the time since Last-Modified that is a lifetime; 1/10 if not said
    --no-query                 leaves the queries of urls out
    --ignore-request-no-cache  reads requests without their no-cache, as of a hard reload
    --with P: H: V             reports instead what is sent if responses of urls as P (`*` is any text) have
                               the header H as V, or lack it if V is empty
    --fail-under N             ends with 4 if a stored response answers fewer than N % of repeated requests";

const VERSION: &str = "cacheaudit 0.12.0";

// The status if nothing was audited.
const NOTHING: u8 = 1;

// The status if fewer repeated requests are hits than required.
const FEW_HITS: u8 = 4;

// The status if the system has no random bytes or no time.
const NO_SYSTEM: u8 = 3;

// The status of a command line that is refused.
const NO_COMMAND: u8 = 64;

// Returns the exit status, and writes the reason to standard error. It is separate, since `main` is
// then proved faster.
fn exit_status(
    rt: &HostRuntime,
    ended: Result<Ended, AuditError>,
    least_rate: Option<u64>,
) -> ExitCode {
    // If a text can't be written, the status still reports it.
    match ended {
        Ok(ended) if !ended.audited => {
            let _ = eprintln!(rt; "cacheaudit: no entry was audited");
            ExitCode::from(NOTHING)
        }
        Ok(ended) => match least_rate {
            Some(rate) if ended.hits.are_under(rate) => {
                let (fresh, repeated) = (ended.hits.fresh, ended.hits.repeated);
                let _ = eprintln!(rt;
                    "cacheaudit: {fresh} of {repeated} repeated requests are hits, fewer than {rate} %"
                );
                ExitCode::from(FEW_HITS)
            }
            _ => ExitCode::SUCCESS,
        },
        Err(e) => {
            let _ = eprintln!(rt; "cacheaudit: {e}");
            ExitCode::from(e.exit_status())
        }
    }
}

// Returns the secret keys and the time with which heads are read.
fn keys_and_time(rt: &HostRuntime) -> Option<(RandomState, Timestamp)> {
    Some((RandomState::new(rt).ok()?, Timestamp::now(rt).ok()?))
}

fn no_system(rt: &HostRuntime) -> ExitCode {
    let _ = eprintln!(rt; "cacheaudit: the system has no random bytes, or no time");
    ExitCode::from(NO_SYSTEM)
}

fn audit_by<R: Read + Drop>(
    rt: &HostRuntime,
    keys: RandomState,
    now: Timestamp,
    reader: R,
    order: &Order,
) -> ExitCode {
    let ended = run(
        rt.alloc(),
        keys,
        now,
        &mut Watched::new(rt, reader),
        &mut rt.stdout(),
        order.form,
        order.changes.as_slice(),
        order.settings,
    );
    exit_status(rt, ended, order.least_rate)
}

// The parts are separate functions, since each is then proved faster.
fn audit<R: Read + Drop>(rt: &HostRuntime, reader: R, order: &Order) -> ExitCode {
    match keys_and_time(rt) {
        Some((keys, now)) => audit_by(rt, keys, now, reader, order),
        None => no_system(rt),
    }
}

fn audit_file(rt: &HostRuntime, path: &str, order: &Order) -> ExitCode {
    match File::open(rt, path) {
        Ok(file) => audit(rt, file, order),
        Err(e) => {
            if let Ok(path) = shown(rt.alloc(), path) {
                let _ = eprintln!(rt; "cacheaudit: {path}: {e}");
            }
            ExitCode::from(AuditError::NotReadable.exit_status())
        }
    }
}

fn audit_input(rt: &HostRuntime, order: &Order) -> ExitCode {
    let stdin = rt.stdin();
    if stdin.is_terminal() {
        let _ = eprintln!(rt;
            "cacheaudit: reads a recording or heads from the terminal; --help says what else it reads"
        );
    }
    audit(rt, stdin, order)
}

fn refuse(rt: &HostRuntime, refusal: Refusal) -> ExitCode {
    let _ = eprintln!(rt; "cacheaudit: {refusal}");
    ExitCode::from(match refusal {
        Refusal::Memory => AuditError::Memory.exit_status(),
        _ => NO_COMMAND,
    })
}

fn say(rt: &HostRuntime, text: &str) -> ExitCode {
    match println!(rt; "{text}") {
        Ok(()) => ExitCode::SUCCESS,
        Err(_) => ExitCode::from(AuditError::NotWritten.exit_status()),
    }
}

fn main(rt: HostRuntime) -> ExitCode {
    let invocation = match env::args(&rt) {
        Ok(words) => invocation_of(rt.alloc(), words),
        Err(_) => Err(Refusal::NotText),
    };
    match invocation {
        Ok(Invocation::Help) => say(&rt, USAGE),
        Ok(Invocation::Version) => say(&rt, VERSION),
        Ok(Invocation::Audit(order)) => match &order.file {
            Some(path) => audit_file(&rt, path.as_str(), &order),
            None => audit_input(&rt, &order),
        },
        Err(refusal) => refuse(&rt, refusal),
    }
}

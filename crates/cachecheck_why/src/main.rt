//! Reads a text from standard input, and prints whether it is a script, or why it isn't.
#![tactic(auto)]

mod fault;
mod message;
mod part;
mod script;

use cache_script::{LONGEST, UnreadScript, script_from_value};
use fault::Cause;
use script::script_fault;
use serde_json::Value;
use std::io;
use std::io::Read;
use std::process::ExitCode;

// The exit status if the text is no script or can't be read, as for cachecheck.
const NO_SCRIPT: u8 = 2;

// The exit status if memory runs out, or the answer can't be written.
const REFUSED: u8 = 3;

// The only reason left if each part can be in a script.
const CROWDED: &str = "script: more headers than there is room for";

fn after(written: io::Result<()>, status: u8) -> ExitCode {
    match written {
        Ok(()) => ExitCode::from(status),
        Err(_) => ExitCode::from(REFUSED),
    }
}

fn no_memory(rt: &HostRuntime) -> ExitCode {
    // If the text can't be written, the status still reports it.
    let _ = eprintln!(rt; "cachecheck: out of memory");
    ExitCode::from(REFUSED)
}

fn explain(rt: &HostRuntime, value: &Value) -> ExitCode {
    match script_fault(rt.alloc(), value) {
        Ok(()) => after(println!(rt; "{CROWDED}"), NO_SCRIPT),
        Err(fault) if matches!(fault.cause, Cause::Memory) => no_memory(rt),
        Err(fault) => after(println!(rt; "{fault}"), NO_SCRIPT),
    }
}

fn judge(rt: &HostRuntime, value: &Value) -> ExitCode {
    match script_from_value(rt.alloc(), value) {
        Ok(script) => after(println!(rt; "a script, steps: {}", script.steps.len()), 0),
        Err(UnreadScript::Memory) => no_memory(rt),
        Err(UnreadScript::NoScript) => explain(rt, value),
    }
}

fn judge_bytes(rt: &HostRuntime, bytes: &[u8]) -> ExitCode {
    if bytes.len() > LONGEST {
        return after(
            println!(rt; "script: longer than {LONGEST} bytes"),
            NO_SCRIPT,
        );
    }
    match Value::from_slice(rt.alloc(), bytes) {
        Ok(value) => judge(rt, &value),
        Err(e) if e.is_memory() => no_memory(rt),
        Err(e) => after(println!(rt; "script: {e}"), NO_SCRIPT),
    }
}

fn main(rt: HostRuntime) -> ExitCode {
    let mut bytes = Vec::new(rt.alloc());
    let mut front = rt.stdin().take(LONGEST as u64 + 1);
    match front.read_to_end(&mut bytes) {
        Ok(_) => judge_bytes(&rt, bytes.as_slice()),
        Err(_) => after(println!(&rt; "script: can't be read"), NO_SCRIPT),
    }
}

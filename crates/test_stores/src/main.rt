//! Runs tests and measurements of a store in memory or in a directory, by its first argument:
//!
//! | arguments | what is run |
//! |---|---|
//! | `commands PATH [RESPONSES [NUMBER [on]]]` | commands on the store in a directory |
//! | `memory COUNT HITS`, `fill COUNT PATH`, `directory HITS PATH` | hits, which are timed |
#![tactic(auto)]

mod commands;
mod faults;
mod hits;

use std::env;

fn words_of(rt: &HostRuntime) -> anyhow::Result<Vec<String>> {
    let mut words = Vec::new(rt.alloc());
    for word in env::args(rt)? {
        words.push(word)?;
    }
    Ok(words)
}

fn main(rt: HostRuntime) -> anyhow::Result<()> {
    let words = words_of(&rt)?;
    match words.get(1).map(String::as_str) {
        Some("commands") => commands::run(&rt, words.get(2..).unwrap_or(&[])),
        _ => hits::run(&rt, words.get(1..).unwrap_or(&[])),
    }
}

//! Runs commands on a store in a directory, one for each line of input, for tests of what outlives
//! the process and of what failing calls of the system leave.
//!
//! The arguments are the path, the greatest number of stored responses (10,000 if left out), which
//! call fails while the directory is opened, as `fail` has it, and `synced` if each change is to
//! outlive a power failure.
//!
//! | command | what it prints |
//! |---|---|
//! | `put|TARGET|IDS|POLICY|BODY` | `put ID` or `not stored` |
//! | `look|TARGET` | `response ID POLICY BODY`, a line each, then `end` |
//! | `renew|TARGET|IDS|ID|POLICY` | `renewed true` or `renewed false` |
//! | `remove|TARGET|IDS` | `removed` |
//! | `forget|TARGET` | `forgotten COUNT`, after all that is stored for the target is removed |
//! | `sweep|SECOND` | `swept COUNT` |
//! | `fail|NUMBER|once or on|ERROR` | `CALLS calls`; the call with this number fails, and later ones |
//! | `state|` | how many are stored, lost and stuck |
//!
//! A target is a URI, or a URI and a host. A policy is its stored form. IDS are superseded
//! responses, with commas. If the store refuses a command, the line is `refused:` and the reason.
mod command;

use crate::faults::{Plan, Planned};
use anyhow::anyhow;
use command::answer_to;
use http_cache_disk_store::{DiskOptions, DiskStore};
use http_cache_memory_store::Limits;
use std::hash::RandomState;

// Returns the number in an argument, or the default if it is left out.
fn number_at(words: &[String], at: usize, default: u64) -> anyhow::Result<u64> {
    match words.get(at) {
        Some(word) => Ok(word.as_str().parse::<u64>()?),
        None => Ok(default),
    }
}

fn options_in(words: &[String]) -> anyhow::Result<DiskOptions> {
    Ok(DiskOptions {
        limits: Limits {
            responses: number_at(words, 1, 10_000)? as usize,
            ..Limits::default()
        },
        is_synced: words.get(4).map(String::as_str) == Some("synced"),
    })
}

fn run_all(
    rt: &HostRuntime,
    plan: &Plan,
    store: &mut DiskStore<Planned<'_>>,
) -> anyhow::Result<()> {
    println!(rt; "open {}", store.len())?;
    for line in rt.lines(rt.alloc()) {
        let answer = answer_to(rt.alloc(), plan, store, line?.as_str())?;
        println!(rt; "{answer}")?;
    }
    Ok(())
}

/// Runs the commands on standard input, on the store that the words name.
pub fn run(rt: &HostRuntime, words: &[String]) -> anyhow::Result<()> {
    let Some(path) = words.first() else {
        return Err(anyhow!("no path"));
    };
    let plan = Plan::new();
    let is_lasting = words.get(3).map(String::as_str) == Some("on");
    plan.set(number_at(words, 2, 0)?, is_lasting, 5);
    let files = Planned {
        rt: *rt,
        plan: &plan,
    };
    let hasher = RandomState::new(rt)?;
    let options = options_in(words)?;
    let mut store = DiskStore::over(files, rt.alloc(), hasher, path.as_str(), options)?;
    plan.end();
    run_all(rt, &plan, &mut store)?;
    Ok(store.close()?)
}

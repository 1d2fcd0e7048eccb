//! Measures how long a hit takes over a store of many responses with bodies of 1 kB.
//!
//! `memory COUNT HITS` stores COUNT responses in memory, requests some of them, and prints the
//! nanoseconds for each hit. `fill COUNT PATH` stores COUNT in a directory. `directory HITS PATH`
//! opens it and sends requests.
mod pages;
mod requests;

use http_cache_client::Client;
use http_cache_disk_store::{DiskOptions, DiskStore};
use http_cache_memory_store::{Limits, MemoryStore, Store};
use http_cache_semantics::CacheOptions;
use pages::fill;
use requests::{answered, requests};
use std::hash::RandomState;
use std::time::Instant;

fn limits() -> Limits {
    Limits {
        responses: usize::MAX,
        bytes: u64::MAX,
        ..Limits::default()
    }
}

fn options() -> DiskOptions {
    DiskOptions {
        limits: limits(),
        is_synced: false,
    }
}

// Prints the mean nanoseconds of `hits` hits on a store of `count` pages.
fn tell_hits<S: Store + Drop>(
    rt: &HostRuntime,
    store: S,
    count: u64,
    hits: u64,
) -> anyhow::Result<()> {
    let name = String::from_str(rt.alloc(), "bench")?;
    let mut client = Client::new(store, CacheOptions::default(), name);
    let requests = requests(rt.alloc(), count, hits)?;
    let begun = Instant::now(rt)?;
    let answered = answered(rt.alloc(), &mut client, requests.as_slice())?;
    let nanos = begun.elapsed(rt)?.as_nanos();
    let mean = nanos.checked_div(u128::from(hits)).unwrap_or(0);
    println!(rt; "answered {answered} hit_ns {mean}")?;
    Ok(())
}

fn in_memory(rt: &HostRuntime, count: u64, hits: u64) -> anyhow::Result<()> {
    let mut store = MemoryStore::new(rt.alloc(), RandomState::new(rt)?, limits())?;
    let begun = Instant::now(rt)?;
    let stored = fill(rt.alloc(), &mut store, count)?;
    let nanos = begun.elapsed(rt)?.as_nanos();
    println!(rt; "stored {stored} fill_ns {nanos}")?;
    tell_hits(rt, store, count, hits)
}

// Stores pages in a new directory.
fn in_directory(rt: &HostRuntime, count: u64, path: &str) -> anyhow::Result<()> {
    let mut store = DiskStore::open(rt, path, options())?;
    let begun = Instant::now(rt)?;
    let stored = fill(rt.alloc(), &mut store, count)?;
    store.close()?;
    let nanos = begun.elapsed(rt)?.as_nanos();
    println!(rt; "stored {stored} fill_ns {nanos}")?;
    Ok(())
}

fn opened(rt: &HostRuntime, path: &str) -> anyhow::Result<DiskStore<HostRuntime>> {
    let begun = Instant::now(rt)?;
    let store = DiskStore::open(rt, path, options())?;
    let nanos = begun.elapsed(rt)?.as_nanos();
    println!(rt; "open_ns {nanos}")?;
    Ok(store)
}

fn from_directory(rt: &HostRuntime, hits: u64, path: &str) -> anyhow::Result<()> {
    let store = opened(rt, path)?;
    let count = store.len() as u64;
    println!(rt; "stored {count}")?;
    tell_hits(rt, store, count, hits)
}

/// Runs what the words ask for; fewer than three ask for nothing.
pub fn run(rt: &HostRuntime, words: &[String]) -> anyhow::Result<()> {
    let [kind, number, last] = words else {
        return Ok(());
    };
    let number = number.as_str().parse::<u64>()?;
    match kind.as_str() {
        "memory" => in_memory(rt, number, last.as_str().parse::<u64>()?),
        "fill" => in_directory(rt, number, last.as_str()),
        "directory" => from_directory(rt, number, last.as_str()),
        _ => anyhow::bail!("test_stores: no such store"),
    }
}

//! Serves one connection on standard input and output: a caching proxy for a small site, or for an
//! origin server at the other end of two pipes.
//!
//! `first_proxy` serves the site. `first_proxy --origin TO FROM` writes requests to TO and reads
//! responses from FROM. Responses are stored in memory.
#![tactic(auto)]

mod clock;
mod site;
mod wire;

use clock::StepClock;
use http_cache_client::{Client, Origin};
use http_cache_memory_store::{Limits, MemoryStore};
use http_cache_proxy::{ClockTime, Proxy, TimeSource};
use http_cache_semantics::CacheOptions;
use http_server::{Config, Connection, serve};
use site::Site;
use std::hash::RandomState;
use std::{env, fs};
use wire::Wire;

// The proxy's name in Cache-Status and Via.
const NAME: &str = "first_proxy";

// The files of an origin server: requests are written to the first, responses read from the second.
type OriginFiles = (String, String);

fn read_arguments(rt: &HostRuntime) -> anyhow::Result<Option<OriginFiles>> {
    let mut words = env::args(rt)?;
    let _program = words.next();
    match words.next() {
        Some(word) if word.as_str() == "--origin" => match (words.next(), words.next()) {
            (Some(to), Some(from)) => Ok(Some((to, from))),
            _ => anyhow::bail!("first_proxy: --origin takes two files"),
        },
        Some(_) => anyhow::bail!("usage: first_proxy [--origin TO FROM]"),
        None => Ok(None),
    }
}

// Serves one connection, with a store in memory and an origin server.
fn serve_with<O: Origin + Drop, C: TimeSource + Drop>(
    rt: &HostRuntime,
    origin: O,
    clock: C,
) -> anyhow::Result<()>
where
    O::Error: Drop,
{
    let alloc = rt.alloc();
    let store = MemoryStore::new(alloc, RandomState::new(rt)?, Limits::default())?;
    let name = String::from_str(alloc, NAME)?;
    let client = Client::new(store, CacheOptions::default(), name);
    let mut proxy = Proxy::new(alloc, client, origin, clock)?;
    let mut connection = Connection::new(alloc, RandomState::new(rt)?, Config::default());
    let (mut reader, mut writer) = (rt.stdin(), rt.stdout());
    serve(&mut connection, &mut proxy, &mut reader, &mut writer)?;
    Ok(())
}

// Serves one connection for the site.
fn serve_site(rt: &HostRuntime) -> anyhow::Result<()> {
    let clock = StepClock::new();
    let site = Site::new(rt.alloc(), &clock);
    serve_with(rt, site, ClockTime::new(&clock))
}

// Serves one connection for an origin server at the other end of two files.
fn serve_wire(rt: &HostRuntime, to: &str, from: &str) -> anyhow::Result<()> {
    let writer = fs::create(rt, to)?;
    let reader = fs::open(rt, from)?;
    let wire = Wire::new(rt.alloc(), RandomState::new(rt)?, rt, reader, writer);
    serve_with(rt, wire, ClockTime::new(rt))
}

fn main(rt: HostRuntime) -> anyhow::Result<()> {
    match read_arguments(&rt)? {
        Some((to, from)) => serve_wire(&rt, to.as_str(), from.as_str()),
        None => serve_site(&rt),
    }
}

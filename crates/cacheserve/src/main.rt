//! A caching client as a process: frames on standard input, a reply to each on standard output
//! (`docs/PROTOCOL.md`). It opens no sockets and reads no clock.
#![tactic(auto)]

mod arguments;
mod cache;
mod end;

use arguments::{Command, Settings, command_of};
use cache::{Cache, Counted};
use end::End;
use http_cache_client::Client;
use http_cache_disk_store::{DiskOptions, DiskStore};
use http_cache_frames::{Ended, serve};
use http_cache_intermediary::Intermediary;
use http_cache_memory_store::{MemoryStore, Store};
use http_cache_semantics::CacheOptions;
use http_cache_session::Settings as SessionSettings;
use std::env;
use std::hash::RandomState;
use std::io::IsTerminal;
use std::process::ExitCode;

const USAGE: &str = "usage: cacheserve [--dir DIR [--sync]] [--private] [--proxy] [--name NAME]
    [--responses N] [--bytes N] [--stored-body N] [--variants N]   limits of what is stored
    [--requests N] [--head N] [--body N]                           limits of frames
       cacheserve --help | --version
answers frames on standard input, as docs/PROTOCOL.md has them: a caching client for callers in any language";

const VERSION: &str = "cacheserve 0.12.0";

fn options_of(settings: &Settings) -> CacheOptions {
    CacheOptions {
        shared: !settings.is_private,
        ..CacheOptions::default()
    }
}

fn cache_over<S: Store + Drop>(
    rt: &HostRuntime,
    settings: &Settings,
    store: S,
) -> Result<Cache<S>, End> {
    let alloc = rt.alloc();
    let name = String::from_str(alloc, settings.name.as_str())?;
    let intermediary = if settings.is_proxy {
        Some(Intermediary::new(alloc, settings.name.as_str())?)
    } else {
        None
    };
    let Ok(keys) = RandomState::new(rt) else {
        return Err(End::NoKeys);
    };
    let client = Client::new(store, options_of(settings), name);
    Ok(Cache::new(
        rt,
        client,
        SessionSettings {
            keys,
            intermediary,
            requests: settings.requests,
            stored_body: settings.limits.body,
        },
    ))
}

// Serves standard input over a store, and returns the store.
fn serve_over<S: Store + Counted + Drop>(
    rt: &HostRuntime,
    settings: &Settings,
    store: S,
) -> Result<(End, S), End> {
    let mut cache = cache_over(rt, settings, store)?;
    let served = serve(
        rt.alloc(),
        &mut cache,
        rt.stdin(),
        rt.stdout(),
        settings.longest,
    );
    Ok((End::Served(served.ended), cache.into_store()))
}

fn serve_in_memory(rt: &HostRuntime, settings: &Settings) -> Result<End, End> {
    let Ok(hasher) = RandomState::new(rt) else {
        return Err(End::NoKeys);
    };
    let store = MemoryStore::new(rt.alloc(), hasher, settings.limits)?;
    let (end, store) = serve_over(rt, settings, store)?;
    drop(store);
    Ok(end)
}

// Opens the directory, and reports what was wrong with it.
fn opened(
    rt: &HostRuntime,
    settings: &Settings,
    path: &str,
) -> Result<DiskStore<HostRuntime>, End> {
    let options = DiskOptions {
        limits: settings.limits,
        is_synced: settings.is_synced,
    };
    let store = match DiskStore::open(rt, path, options) {
        Ok(store) => store,
        Err(cause) => {
            let _ = eprintln!(rt; "cacheserve: {path}: {cause}");
            return Err(End::NotOpened);
        }
    };
    let found = store.found();
    if found.damaged > 0 {
        let _ = eprintln!(rt;
            "cacheserve: {path}: removed {} damaged responses",
            found.damaged
        );
    }
    if found.distrusted > 0 {
        let _ = eprintln!(rt;
            "cacheserve: {path}: removed {} responses, since it wasn't closed",
            found.distrusted
        );
    }
    Ok(store)
}

fn serve_in_directory(rt: &HostRuntime, settings: &Settings, path: &str) -> Result<End, End> {
    let store = opened(rt, settings, path)?;
    let (end, store) = serve_over(rt, settings, store)?;
    match store.close() {
        Ok(()) => Ok(end),
        Err(cause) => {
            let _ = eprintln!(rt; "cacheserve: {path}: {cause}");
            Ok(End::NotClosed)
        }
    }
}

fn run(rt: &HostRuntime, settings: &Settings) -> Result<End, End> {
    match settings.dir.as_ref() {
        Some(path) => serve_in_directory(rt, settings, path.as_str()),
        None => serve_in_memory(rt, settings),
    }
}

fn serve_by(rt: &HostRuntime, settings: &Settings) -> ExitCode {
    if rt.stdin().is_terminal() {
        let _ = eprintln!(rt; "cacheserve: reads frames from the terminal; --help says which");
    }
    let end = match run(rt, settings) {
        Ok(end) | Err(end) => end,
    };
    if let Some(text) = end.text() {
        let _ = eprintln!(rt; "cacheserve: {text}");
    }
    ExitCode::from(end.exit_status())
}

fn say(rt: &HostRuntime, text: &str) -> ExitCode {
    match println!(rt; "{text}") {
        Ok(()) => ExitCode::SUCCESS,
        Err(_) => ExitCode::from(End::Served(Ended::NotWritten).exit_status()),
    }
}

fn main(rt: HostRuntime) -> ExitCode {
    let command = match env::args(&rt) {
        Ok(words) => command_of(rt.alloc(), words),
        Err(_) => Ok(None),
    };
    match command {
        Ok(Some(Command::Help)) => say(&rt, USAGE),
        Ok(Some(Command::Version)) => say(&rt, VERSION),
        Ok(Some(Command::Serve(settings))) => serve_by(&rt, &settings),
        _ => {
            let _ = eprintln!(&rt; "{USAGE}");
            ExitCode::from(64)
        }
    }
}

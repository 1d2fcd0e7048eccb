//! Runs a command, and returns what it prints.
use crate::faults::{Plan, Planned};
use anyhow::anyhow;
use bytes::Bytes;
use http::header::HOST;
use http::{HeaderMap, HeaderValue, Uri};
use http_cache_disk_store::DiskStore;
use http_cache_memory_store::{ResponseId, Store, StoredResponse, Target};
use http_cache_semantics::CachePolicy;
use jiff::Timestamp;
use serde_json::Value;
use std::alloc::Global;

fn field(line: &str, at: usize) -> anyhow::Result<&str> {
    line.split('|').nth(at).ok_or(anyhow!("no such field"))
}

fn headers_to(alloc: Global, host: &str) -> anyhow::Result<HeaderMap> {
    let mut headers = HeaderMap::new(alloc);
    if !host.is_empty() {
        headers.insert(HOST, HeaderValue::from_str(alloc, host)?)?;
    }
    Ok(headers)
}

// Returns the target of `URI`, or of `URI HOST`.
fn target_of(alloc: Global, text: &str) -> anyhow::Result<Target> {
    let (uri, host) = text.split_once(' ').unwrap_or((text, ""));
    let headers = headers_to(alloc, host)?;
    Ok(Target::of(alloc, &Uri::from_str(alloc, uri)?, &headers)?)
}

fn policy_of(alloc: Global, text: &str) -> anyhow::Result<CachePolicy> {
    Ok(CachePolicy::from_value(alloc, &Value::from_str(alloc, text)?)?)
}

fn id_of(text: &str) -> anyhow::Result<ResponseId> {
    Ok(ResponseId::new(text.parse::<u64>()?))
}

// Returns the ids in a list with commas, which may be empty.
fn ids_of(alloc: Global, text: &str) -> anyhow::Result<Vec<ResponseId>> {
    let mut ids = Vec::new(alloc);
    for word in text.split(',') {
        if !word.is_empty() {
            ids.push(id_of(word)?)?;
        }
    }
    Ok(ids)
}

fn put_under<S: Store>(
    alloc: Global,
    store: &mut S,
    target: &Target,
    line: &str,
) -> anyhow::Result<String> {
    let superseded = ids_of(alloc, field(line, 2)?)?;
    let body = Bytes::copy_from_slice(alloc, field(line, 4)?.as_bytes())?;
    let policy = policy_of(alloc, field(line, 3)?)?;
    match store.put(target, superseded.as_slice(), policy, body)? {
        Some(id) => Ok(format!(in alloc; "put {}", id.number())?),
        None => Ok(String::from_str(alloc, "not stored")?),
    }
}

fn renew_under<S: Store>(
    alloc: Global,
    store: &mut S,
    target: &Target,
    line: &str,
) -> anyhow::Result<String> {
    let superseded = ids_of(alloc, field(line, 2)?)?;
    let id = id_of(field(line, 3)?)?;
    let policy = policy_of(alloc, field(line, 4)?)?;
    let renewed = store.renew(target, superseded.as_slice(), id, policy)?;
    Ok(format!(in alloc; "renewed {renewed}")?)
}

fn remove_under<S: Store>(
    alloc: Global,
    store: &mut S,
    target: &Target,
    line: &str,
) -> anyhow::Result<String> {
    let ids = ids_of(alloc, field(line, 2)?)?;
    store.remove(target, ids.as_slice());
    Ok(String::from_str(alloc, "removed")?)
}

// What a look-up shows of a response.
#[derive(Drop)]
struct Look {
    id: ResponseId,
    policy: String,
}

fn shown(alloc: Global, found: &[StoredResponse]) -> anyhow::Result<Vec<Look>> {
    let mut all = Vec::new(alloc);
    for stored in found {
        all.push(Look {
            id: stored.id,
            policy: stored.policy.to_value(alloc)?.to_string(alloc)?,
        })?;
    }
    Ok(all)
}

fn body_text(alloc: Global, body: Option<Bytes>) -> anyhow::Result<String> {
    match body {
        Some(body) => Ok(String::from_str(alloc, std::str::from_utf8(body.as_slice())?)?),
        None => Ok(String::from_str(alloc, "(lost)")?),
    }
}

fn line_of<S: Store>(
    alloc: Global,
    store: &mut S,
    target: &Target,
    one: &Look,
) -> anyhow::Result<String> {
    let body = match store.body(alloc, target, one.id) {
        Ok(body) => body_text(alloc, body)?,
        Err(e) => format!(in alloc; "({e})")?,
    };
    Ok(format!(in alloc; "response {} {} {body}\n", one.id.number(), one.policy)?)
}

fn look_under<S: Store>(alloc: Global, store: &mut S, target: &Target) -> anyhow::Result<String> {
    store.look_up(alloc, target)?;
    let mut lines = String::new(alloc);
    for one in shown(alloc, store.found(target))?.as_slice() {
        lines.push_str(line_of(alloc, store, target, one)?.as_str())?;
    }
    lines.push_str("end")?;
    Ok(lines)
}

fn forget<S: Store>(alloc: Global, store: &mut S, target: Target) -> anyhow::Result<String> {
    let count = store.remove_targets(&[target]);
    Ok(format!(in alloc; "forgotten {count}")?)
}

// Lets calls of the system fail, as the line says.
fn fail(alloc: Global, plan: &Plan, line: &str) -> anyhow::Result<String> {
    let calls = plan.calls();
    let number = field(line, 1)?.parse::<u64>()?;
    let code = field(line, 3)?.parse::<i32>()?;
    plan.set(number, field(line, 2)? == "on", code);
    Ok(format!(in alloc; "{calls} calls")?)
}

fn state(alloc: Global, store: &DiskStore<Planned<'_>>) -> anyhow::Result<String> {
    let word = if store.is_failing() {
        "failing"
    } else {
        "well"
    };
    Ok(format!(in alloc;
        "{} stored, {} lost, {} stuck, {word}",
        store.len(),
        store.damaged(),
        store.stuck()
    )?)
}

fn sweep<S: Store>(alloc: Global, store: &mut S, second: &str) -> anyhow::Result<String> {
    let now = Timestamp::from_second(second.parse::<i64>()?)?;
    let swept = store.sweep(now);
    Ok(format!(in alloc; "swept {swept}")?)
}

fn run_under<S: Store>(
    alloc: Global,
    store: &mut S,
    target: Target,
    line: &str,
) -> anyhow::Result<String> {
    match field(line, 0)? {
        "put" => put_under(alloc, store, &target, line),
        "look" => look_under(alloc, store, &target),
        "renew" => renew_under(alloc, store, &target, line),
        "remove" => remove_under(alloc, store, &target, line),
        "forget" => forget(alloc, store, target),
        _ => Err(anyhow!("no such command")),
    }
}

fn run(
    alloc: Global,
    plan: &Plan,
    store: &mut DiskStore<Planned<'_>>,
    line: &str,
) -> anyhow::Result<String> {
    let argument = field(line, 1)?;
    match field(line, 0)? {
        "sweep" => sweep(alloc, store, argument),
        "fail" => fail(alloc, plan, line),
        "state" => state(alloc, store),
        _ => run_under(alloc, store, target_of(alloc, argument)?, line),
    }
}

/// Returns what a command prints, without a line feed at its end.
pub fn answer_to(
    alloc: Global,
    plan: &Plan,
    store: &mut DiskStore<Planned<'_>>,
    line: &str,
) -> anyhow::Result<String> {
    match run(alloc, plan, store, line) {
        Ok(answer) => Ok(answer),
        Err(e) => Ok(format!(in alloc; "refused: {e}")?),
    }
}

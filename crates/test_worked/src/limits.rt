//! Tests what a store in memory stores within its limits, which responses it evicts, and what a
//! sweep leaves.
//!
//! A case has a limit in its first line, and a step in each line after it: the call, the path of a
//! target, the headers of a response, its body, and the outcome. For `put` that is the id of the
//! response or `no`, and for `find` the ids found. For `sweep` it is the number of removed
//! responses, for `count` of stored ones, and for `evicted` the ids that the last call evicted.
use bytes::Bytes;
use http::{HeaderMap, Uri};
use http_cache_memory_store::{
    Limits, MemoryStore, ResponseId, Store, StoreError, StoredResponse, Target,
};
use std::alloc::Global;
use std::hash::RandomState;
use std::process::Abort;
use std::test::Fail;
use test_cases::fixtures::{after, field, policy, with, with_mut};

fn cases() -> [&'static str; 8] {
    [
        "responses 2
         put|/1|Cache-Control: max-age=100|x|0
         put|/2|Cache-Control: max-age=100|x|1
         put|/3|Cache-Control: max-age=100|x|2
         count||||2
         put|/1|Cache-Control: max-age=100|x|3
         count||||2
         find|/2|||
         find|/3|||2
         find|/1|||3",
        // The target that was used longest ago is evicted, not the one that was stored first.
        "responses 2
         put|/1|Cache-Control: max-age=100|x|0
         put|/2|Cache-Control: max-age=100|x|1
         find|/1|||0
         put|/3|Cache-Control: max-age=100|x|2
         find|/2|||
         find|/1|||0",
        // A response here counts 3,300: 3,072, its one field line with 24 + 192, the path with 2, and
        // its body.
        "bytes 6599
         put|/1|Cache-Control: max-age=100|0123456789|0
         put|/2|Cache-Control: max-age=100|0123456789|1
         count||||1
         find|/1|||",
        "bytes 6600
         put|/1|Cache-Control: max-age=100|0123456789|0
         put|/2|Cache-Control: max-age=100|0123456789|1
         count||||2
         put|/3|Cache-Control: max-age=100|0123456789|2
         count||||2
         find|/1|||
         find|/3|||2",
        // The oldest variant is evicted.
        "variants 2
         put|/1|Cache-Control: max-age=100|x|0
         put|/1|Cache-Control: max-age=100|x|1
         put|/1|Cache-Control: max-age=100|x|2
         find|/1|||2 1",
        "body 3
         put|/1|Cache-Control: max-age=100|four|no
         count||||0
         put|/1|Cache-Control: max-age=100|two|0",
        // A stale response without a validator that must be revalidated is removed. The order of
        // use stays.
        "responses 3
         put|/1|Cache-Control: max-age=1, must-revalidate ~ ETag: \"1\"|x|0
         put|/2|Cache-Control: max-age=1, must-revalidate|x|1
         put|/3|Cache-Control: max-age=100|x|2
         sweep||||1
         count||||2
         put|/4|Cache-Control: max-age=100|x|3
         put|/5|Cache-Control: max-age=100|x|4
         find|/1|||
         find|/3|||2",
        // Evicted ids are listed, and only by a call that evicts.
        "responses 2
         put|/1|Cache-Control: max-age=100|x|0
         put|/1|Cache-Control: max-age=100|x|1
         evicted||||
         put|/2|Cache-Control: max-age=100|x|2
         evicted||||1 0
         put|/2|Cache-Control: max-age=100|x|3
         evicted||||",
    ]
}

fn limits_of(line: &str) -> Result<Limits, Fail> {
    let (name, number) = line.split_once(' ').ok_or("no limit")?;
    let number = number.trim().parse::<u64>()?;
    let limits = Limits::default();
    Ok(match name {
        "responses" => Limits {
            responses: number as usize,
            ..limits
        },
        "variants" => Limits {
            variants: number as usize,
            ..limits
        },
        "bytes" => Limits {
            bytes: number,
            ..limits
        },
        _ => Limits {
            body: number,
            ..limits
        },
    })
}

fn target_of(alloc: Global, step: &str) -> Result<Target, Fail> {
    let uri = Uri::from_str(alloc, field(step, 1)?)?;
    Ok(Target::of(alloc, &uri, &HeaderMap::new(alloc))?)
}

fn done<T: Drop>(outcome: Result<T, StoreError>) -> Result<T, Fail> {
    match outcome {
        Ok(value) => Ok(value),
        Err(_) => Err("the store failed")?,
    }
}

fn put(
    alloc: Global,
    store: &mut MemoryStore,
    target: &Target,
    step: &str,
) -> Result<String, Fail> {
    let body = Bytes::copy_from_slice(alloc, field(step, 3)?.as_bytes())?;
    let policy = policy(alloc, field(step, 2)?)?;
    match done(store.put(target, &[], policy, body))? {
        Some(id) => Ok(format!(in alloc; "{}", id.number())?),
        None => Ok(String::from_str(alloc, "no")?),
    }
}

fn push_id(text: &mut String, id: ResponseId) -> Result<(), Fail> {
    if !text.as_str().is_empty() {
        text.push(' ')?;
    }
    write!(text, "{}", id.number())?;
    Ok(())
}

fn ids_of(alloc: Global, found: &[StoredResponse]) -> Result<String, Fail> {
    let mut text = String::new(alloc);
    for stored in found {
        push_id(&mut text, stored.id)?;
    }
    Ok(text)
}

fn ids_evicted(alloc: Global, store: &MemoryStore) -> Result<String, Fail> {
    let mut text = String::new(alloc);
    for id in store.evicted() {
        push_id(&mut text, *id)?;
    }
    Ok(text)
}

fn outcome_of(alloc: Global, store: &mut MemoryStore, step: &str) -> Result<String, Fail> {
    match field(step, 0)? {
        "put" => with(
            target_of(alloc, step),
            |target| put(alloc, store, target, step),
        ),
        "evicted" => ids_evicted(alloc, store),
        "find" => with(target_of(alloc, step), |target| {
            done(store.look_up(alloc, target))?;
            ids_of(alloc, store.found(target))
        }),
        "sweep" => {
            let removed = store.sweep(after(10_000_000_000)?);
            Ok(format!(in alloc; "{removed}")?)
        }
        _ => Ok(format!(in alloc; "{}", store.len())?),
    }
}

fn check_step(
    rt: &impl Abort,
    alloc: Global,
    store: &mut MemoryStore,
    step: &str,
) -> Result<(), Fail> {
    let outcome = outcome_of(alloc, store, step)?;
    assert_eq!(rt; outcome.as_str(), field(step, 4)?, "at {step}");
    Ok(())
}

#[test]
fn stores_within_limits(rt: HostRuntime) -> Result<(), Fail> {
    for case in cases() {
        let mut lines = case.lines();
        let limits = limits_of(lines.next().ok_or("no limits")?)?;
        let store = MemoryStore::new(rt.alloc(), RandomState::new(&rt)?, limits);
        with_mut(store.map_err(Fail::from), |store| {
            for step in lines {
                check_step(&rt, rt.alloc(), store, step)?;
            }
            Ok(())
        })?;
    }
    Ok(())
}

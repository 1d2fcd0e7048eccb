//! Chains of caches, and the stored forms of their policies.
use crate::make::{Make, make_with};
use http::{request, response};
use http_cache_semantics::chain::chain;
use http_cache_semantics::{CacheOptions, CachePolicy};
use jiff::Timestamp;
use std::alloc::Global;
use std::fmt::Write;
use std::test::Fail;
use test_cases::fixtures::{after, field, request, response};

// Makes a chain of caches for an exchange.
#[derive(Clone, Copy)]
struct OfChain;

// Makes a chain of caches for a request.
#[derive(Clone, Copy)]
struct ChainFor<'a>(&'a request::Parts);

// Describes a policy at a time.
#[derive(Clone, Copy)]
struct At(Timestamp);

// Reads the times of a field, with blanks between them.
fn times(alloc: Global, text: &str) -> Result<Vec<Timestamp>, Fail> {
    let mut times = Vec::new(alloc);
    for nanos in text.split(' ') {
        if !nanos.is_empty() {
            times.push(after(nanos.parse::<i64>()?)?)?;
        }
    }
    Ok(times)
}

/// Returns the policies of a chain at a time, or why it is refused. The fields are the headers of
/// the request and of the response, the times of the hand-overs, and the time for the policies.
pub fn chained(alloc: Global, case: &str) -> Result<String, Fail> {
    make_with(alloc, request(alloc, "GET", field(case, 1)?), OfChain, case)
}

impl Make<OfChain> for request::Parts {
    type Made = String;

    fn make(&self, alloc: Global, _by: OfChain, case: &str) -> Result<String, Fail> {
        let response = response(alloc, "200", field(case, 2)?);
        make_with(alloc, response, ChainFor(self), case)
    }
}

impl Make<ChainFor<'_>> for response::Parts {
    type Made = String;

    fn make(&self, alloc: Global, by: ChainFor<'_>, case: &str) -> Result<String, Fail> {
        let times = times(alloc, field(case, 3)?)?;
        let now = At(after(field(case, 4)?.parse::<i64>()?)?);
        let opts = CacheOptions::default();
        match chain(alloc, by.0, self, opts, after(0)?, times.as_slice()) {
            Ok(policies) => make_with(alloc, Ok(policies), now, case),
            Err(e) => Ok(format!(in alloc; "{e}")?),
        }
    }
}

impl Make<At> for Vec<CachePolicy> {
    type Made = String;

    fn make(&self, alloc: Global, by: At, case: &str) -> Result<String, Fail> {
        let mut text = String::new(alloc);
        for policy in self.iter() {
            if !text.as_str().is_empty() {
                text.push_str(" ~ ")?;
            }
            text.push_str(policy.make(alloc, by, case)?.as_str())?;
        }
        Ok(text)
    }
}

// Returns whether a policy may be stored, its age, its remaining lifetime and its stored form.
impl Make<At> for CachePolicy {
    type Made = String;

    fn make(&self, alloc: Global, by: At, _case: &str) -> Result<String, Fail> {
        let form = self.to_value(alloc)?.to_string(alloc)?;
        let storable = self.is_storable();
        let age = self.age(by.0).as_nanos();
        let left = self.time_to_live(by.0).as_nanos();
        Ok(format!(in alloc; "{storable} {age} {left} {form}")?)
    }
}

/// Describes the policy in a stored form when its response was received, or why there is none.
pub fn read_back(alloc: Global, text: &str) -> Result<String, Fail> {
    let Ok(value) = serde_json::Value::from_slice(alloc, text.as_bytes()) else {
        return Ok(String::from_str(alloc, "no JSON")?);
    };
    let start = At(after(0)?);
    match CachePolicy::from_value(alloc, &value) {
        Ok(policy) => make_with(alloc, Ok(policy), start, text),
        Err(e) => Ok(format!(in alloc; "{e}")?),
    }
}

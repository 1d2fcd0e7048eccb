//! Makes the call in each line of input, and writes its result, for `tests/cases/calls`.
//!
//! A line has fields with `|` between them. The first field names a call:
//!
//! | fields of a line | call |
//! |---|---|
//! | headers | `directives`, `format_cache_control`, `joined_headers`, `read_date` |
//! | stored headers, received headers | `updated_headers` |
//! | nanoseconds | `http_date` |
//! | as `member` reads them | `member` |
//! | as `chained` reads them | `chain` |
//! | a stored form | `from_value` |
//! | an exchange, and arguments for its policy | all others |
//!
//! An exchange has the method and headers of a request, the status and headers of its response, and
//! options. Then follow a method or a status, headers, nanoseconds and a target.
#![tactic(auto)]

mod chain;
mod headers;
mod make;
mod member;
mod policy;

use chain::{chained, read_back};
use headers::OfHeaders;
use http_cache_semantics::forwarding::http_date;
use make::make_with;
use member::member;
use policy::{OfPolicy, among, policy};
use std::alloc::Global;
use std::test::Fail;
use test_cases::fixtures::{after, field, headers};

// Returns the date so many nanoseconds after the start, or none.
fn dated(alloc: Global, nanos: &str) -> Result<String, Fail> {
    match http_date(after(nanos.parse::<i64>()?)?) {
        Some(date) => Ok(String::from_utf8(Vec::from_slice(alloc, &date)?)?),
        None => Ok(String::from_str(alloc, "none")?),
    }
}

// Makes the call that the first field names.
fn answer_to(alloc: Global, case: &str) -> Result<String, Fail> {
    let first = field(case, 1)?;
    match field(case, 0)? {
        "http_date" => dated(alloc, first),
        "member" => member(alloc, case),
        "chain" => chained(alloc, case),
        "from_value" => read_back(alloc, first),
        "directives"
        | "format_cache_control"
        | "joined_headers"
        | "read_date"
        | "updated_headers" => { make_with(alloc, headers(alloc, first), OfHeaders, case) }
        "cache_status_among" => among(alloc, policy(alloc, case), case),
        _ => make_with(alloc, policy(alloc, case), OfPolicy, case),
    }
}

fn main(rt: HostRuntime) -> Result<(), Fail> {
    for line in rt.lines(rt.alloc()) {
        let answer = answer_to(rt.alloc(), line?.as_str())?;
        println!(rt; "{answer}")?;
    }
    Ok(())
}

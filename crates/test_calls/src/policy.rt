//! Policies of cases, and calls on them.
use crate::headers::{formatted, lines};
use crate::make::{Make, make_with};
use http::{Method, Uri, Version, request, response};
use http_cache_semantics::stale_use::StaleUse;
use http_cache_semantics::{CacheError, CacheOptions, CachePolicy, JoinedRequest, Variants};
use jiff::Timestamp;
use std::alloc::Global;
use std::test::Fail;
use test_cases::fixtures::{after, field, headers, request, response};

/// A call on a policy.
#[derive(Clone, Copy)]
pub struct OfPolicy;

/// Makes the policy of an exchange.
#[derive(Clone, Copy)]
pub struct OfExchange;

// Returns the options of a word: `own` is a private cache, `cargo` ignores cargo-cult directives.
fn options(word: &str) -> CacheOptions {
    CacheOptions {
        shared: word != "own",
        ignore_cargo_cult: word == "cargo",
        ..CacheOptions::default()
    }
}

// Returns the time of the call, so many nanoseconds after the response was received.
fn now(case: &str) -> Result<Timestamp, Fail> {
    after(field(case, 8)?.parse::<i64>()?)
}

/// Returns the policy of the exchange of a case.
pub fn policy(alloc: Global, case: &str) -> Result<CachePolicy, Fail> {
    let request = request(alloc, field(case, 1)?, field(case, 2)?);
    make_with(alloc, request, OfExchange, case)
}

impl Make<OfExchange> for request::Parts {
    type Made = CachePolicy;

    fn make(&self, alloc: Global, _by: OfExchange, case: &str) -> Result<CachePolicy, Fail> {
        let response = response(alloc, field(case, 3)?, field(case, 4)?);
        make_with(alloc, response, self, case)
    }
}

impl Make<&request::Parts> for response::Parts {
    type Made = CachePolicy;

    fn make(
        &self,
        alloc: Global,
        request: &request::Parts,
        case: &str,
    ) -> Result<CachePolicy, Fail> {
        let options = options(field(case, 5)?);
        Ok(CachePolicy::new_options(alloc, request, self, after(0)?, options)?)
    }
}

fn asking(alloc: Global, case: &str) -> Result<request::Parts, Fail> {
    Ok(request::Parts {
        method: Method::from_bytes(alloc, field(case, 6)?.as_bytes())?,
        uri: Uri::from_str(alloc, field(case, 9)?)?,
        version: Version::HTTP_11,
        headers: headers(alloc, field(case, 7)?)?,
    })
}

fn word(alloc: Global, holds: bool) -> Result<String, Fail> {
    Ok(String::from_str(alloc, if holds { "yes" } else { "no" })?)
}

fn use_word(allowed: StaleUse) -> &'static str {
    match (allowed.while_revalidate, allowed.if_error) {
        (true, true) => "both",
        (true, false) => "while revalidate",
        (false, true) => "if error",
        (false, false) => "neither",
    }
}

// Returns what a cache does with the response when it looks the request up.
fn look_up(
    policy: &CachePolicy,
    asked: &JoinedRequest<'_, request::Parts>,
    at: Timestamp,
) -> &'static str {
    if policy.may_be_used(asked, at) {
        return "use";
    }
    if policy.answers_once_validated(asked) {
        "validate"
    } else {
        "no"
    }
}

fn sent(alloc: Global, parts: Result<response::Parts, CacheError>) -> Result<String, Fail> {
    match parts {
        Ok(parts) => lines(alloc, &parts.headers),
        Err(e) => Ok(format!(in alloc; "{e}")?),
    }
}

impl Make<OfPolicy> for CachePolicy {
    type Made = String;

    fn make(&self, alloc: Global, _by: OfPolicy, case: &str) -> Result<String, Fail> {
        match field(case, 0)? {
            "forbids_stale" => word(alloc, self.forbids_stale()),
            "storability" => {
                Ok(format!(in alloc; "{} ~ {}", self.storability(), self.freshness())?)
            }
            "response_at" => sent(alloc, self.response_at(alloc, now(case)?)),
            "stored_directives" => formatted(alloc, self.stored_directives(alloc)),
            "is_confirmed_by" => {
                let response = response(alloc, field(case, 6)?, field(case, 7)?);
                make_with(alloc, response, self, case)
            }
            _ => make_with(alloc, asking(alloc, case), self, case),
        }
    }
}

// Returns whether this response confirms the stored one.
impl Make<&CachePolicy> for response::Parts {
    type Made = String;

    fn make(&self, alloc: Global, policy: &CachePolicy, _case: &str) -> Result<String, Fail> {
        word(alloc, policy.is_confirmed_by(self))
    }
}

// Returns what the policy says of this request.
impl Make<&CachePolicy> for request::Parts {
    type Made = String;

    fn make(&self, alloc: Global, policy: &CachePolicy, case: &str) -> Result<String, Fail> {
        match field(case, 0)? {
            "stale_use" => {
                let text = use_word(policy.stale_use(self, now(case)?));
                Ok(String::from_str(alloc, text)?)
            }
            "is_not_modified_for" => word(alloc, policy.is_not_modified_for(self)),
            "may_be_used" => {
                let text = look_up(policy, &JoinedRequest::new(alloc, self)?, now(case)?);
                Ok(String::from_str(alloc, text)?)
            }
            "explain" => Ok(policy.explain(self, now(case)?).to_string(alloc)?),
            "cache_status" => {
                let said = policy.explain(self, now(case)?);
                Ok(said.cache_status(alloc, "ExampleCache")?)
            }
            _ => Err("no such call")?,
        }
    }
}

fn added<T: Drop>(added: Result<(), (T, CacheError)>) -> Result<(), Fail> {
    match added {
        Ok(()) => Ok(()),
        Err((_, e)) => Err(e)?,
    }
}

fn among_these(
    alloc: Global,
    variants: &mut Variants,
    policy: Result<CachePolicy, Fail>,
    case: &str,
) -> Result<String, Fail> {
    added(variants.add(policy?))?;
    make_with(alloc, asking(alloc, case), &*variants, case)
}

/// Returns the member of Cache-Status by a choice among one policy.
pub fn among(alloc: Global, policy: Result<CachePolicy, Fail>, case: &str) -> Result<String, Fail> {
    let mut variants = Variants::new(alloc);
    among_these(alloc, &mut variants, policy, case)
}

impl Make<&Variants> for request::Parts {
    type Made = String;

    fn make(&self, alloc: Global, variants: &Variants, case: &str) -> Result<String, Fail> {
        let said = variants.explain(self, now(case)?);
        Ok(said.cache_status(alloc, "ExampleCache")?)
    }
}

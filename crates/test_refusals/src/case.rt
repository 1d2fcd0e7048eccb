//! Makes the calls that may allocate, on an exchange and its policy.
use crate::answer::{Ages, Answer, after, judged};
use crate::call::Call;
use crate::exchange::{Exchange, FORM};
use crate::look;
use crate::wanted::{
    CACHE_STATUS, CHOSEN, CHOSEN_STALE, DIRECTIVES, DIRECTIVES_LINE, EXAMPLE_OUTCOMES, FRESH,
    HANDED_ON, JOINED, MEMBER, MODIFIED, NOT_CHOSEN, NOT_MODIFIED, OUTCOMES, PASSED_ON, PLAIN,
    RENEWED, REPLACED, SENT, STORED_DIRECTIVES, UNMATCHED, UNMATCHED_HEAD, UPDATED, VALIDATED,
};
use cache_script::{Script, ScriptStep, Step, UnreadScript, script_from_bytes};
use http::header::{HeaderValue, VIA};
use http::{HeaderMap, StatusCode};
use http_cache_semantics::chain::{chain, replay};
use http_cache_semantics::directives::{CacheControl, format_cache_control, parse_cache_control};
use http_cache_semantics::explain::{CacheOutcome, Forward, Member, TimeLeft};
use http_cache_semantics::forwarding::{
    append, forwarded_headers, joined_headers, updated_headers,
};
use http_cache_semantics::{
    AfterResponse, BeforeRequest, CacheError, CachePolicy, Choice, NextPolicy, Variants,
};
use serde_json::Value;
use std::alloc::{AllocError, Global};

/// An exchange and its policy.
#[derive(Clone, Copy)]
pub struct Case<'a> {
    /// The exchange, and what its policy should be.
    pub exchange: Exchange,
    /// The exchange and its steps, as read.
    pub script: &'a Script,
    /// Its policy.
    pub policy: &'a CachePolicy,
}

/// The values on which a call is made, besides the exchange.
pub trait Scene {
    /// Makes a call, and returns whether its result is right.
    fn is_right(&mut self, alloc: Global, case: Case<'_>, call: Call) -> Result<bool, CacheError>;
}

/// Nothing besides the exchange.
#[derive(Clone, Copy)]
pub struct Alone;

fn read(alloc: Global, text: Result<String, AllocError>) -> Result<Script, CacheError> {
    match script_from_bytes(alloc, text?.as_str().as_bytes()) {
        Ok(script) => Ok(script),
        Err(UnreadScript::Memory) => Err(CacheError::Memory),
        Err(UnreadScript::NoScript) => Err(CacheError::Malformed),
    }
}

/// Returns the script of an exchange.
pub fn script_of(alloc: Global, exchange: &Exchange) -> Result<Script, CacheError> {
    read(
        alloc,
        exchange.script.replace(alloc, "$VARY", exchange.vary),
    )
}

/// Returns the stored form of the usual exchange's policy.
pub fn form(alloc: Global) -> Result<Value, CacheError> {
    match Value::from_str(alloc, FORM) {
        Ok(value) => Ok(value),
        Err(e) if e.is_memory() => Err(CacheError::Memory),
        Err(_) => Err(CacheError::Malformed),
    }
}

fn is_text(
    alloc: Global,
    value: Result<Value, CacheError>,
    wanted: &'static str,
) -> Result<bool, CacheError> {
    match value {
        Ok(value) => Ok(judged(value.to_string(alloc), wanted)?),
        Err(e) => Err(e),
    }
}

// A value that wasn't added is returned unchanged.
fn is_added<T: Answer + Drop>(
    added: Result<(), (T, CacheError)>,
    wanted: T::Wanted,
) -> Result<bool, CacheError> {
    match added {
        Ok(()) => Ok(true),
        Err((back, e)) => { if back.is(wanted) { Err(e) } else { Ok(false) } }
    }
}

fn add(
    variants: &mut Variants,
    policy: Result<CachePolicy, CacheError>,
    ages: Ages,
) -> Result<bool, CacheError> {
    match policy {
        Ok(policy) => is_added(variants.add(policy), ages),
        Err(e) => Err(e),
    }
}

fn add_received(
    case: Case<'_>,
    alloc: Global,
    variants: &mut Variants,
    step: &ScriptStep,
) -> Result<bool, CacheError> {
    match step {
        Step::Receive {
            request,
            response,
            moment,
        } => add(
            variants,
            CachePolicy::new(alloc, request, response, *moment),
            case.exchange.ages,
        ),
        _ => Ok(true),
    }
}

fn is_member(alloc: Global) -> Result<bool, CacheError> {
    let member = Member {
        cache: "a",
        outcome: CacheOutcome::Forwarded(Forward::Stale),
        forward_status: Some(StatusCode::NOT_MODIFIED),
        stored: true,
        left: Some(TimeLeft::Left(60)),
        detail: Some("max-age=5"),
    };
    judged(member.text(alloc), MEMBER)
}

impl Case<'_> {
    /// Returns whether the policy is as it should be.
    pub fn is_unchanged(&self) -> bool {
        self.policy.is(self.exchange.ages)
    }

    /// Returns whether the policy's stored form is as it should be.
    pub fn is_written_so(&self, alloc: Global) -> Result<bool, CacheError> {
        is_text(alloc, self.policy.to_value(alloc), self.exchange.form)
    }

    /// Returns the directives of the response.
    pub fn directives(&self, alloc: Global) -> Result<CacheControl, CacheError> {
        let values = self.script.response.headers.get_all("cache-control");
        parse_cache_control(alloc, values)
    }

    /// Returns the policies of the responses that the steps receive. The last one is the first of
    /// them.
    pub fn variants(&self, alloc: Global) -> Result<Variants, CacheError> {
        let mut variants = Variants::new(alloc);
        for step in self.script.steps.as_slice() {
            add_received(*self, alloc, &mut variants, step)?;
        }
        Ok(variants)
    }

    /// Returns the policy's answer to the request of a step.
    pub fn answer_at(&self, alloc: Global, at: usize) -> Result<BeforeRequest, CacheError> {
        match self.script.steps.get(at) {
            Some(Step::Ask { request, moment }) => {
                self.policy.before_request(alloc, request, *moment)
            }
            _ => Err(CacheError::Malformed),
        }
    }

    fn update_at(&self, alloc: Global, at: usize) -> Result<AfterResponse, CacheError> {
        match self.script.steps.get(at) {
            Some(
                Step::Receive {
                    request,
                    response,
                    moment,
                },
            ) => self
                .policy
                .after_response(alloc, request, response, *moment),
            _ => Err(CacheError::Malformed),
        }
    }

    fn next_at(&self, alloc: Global, at: usize) -> Result<NextPolicy, CacheError> {
        match self.script.steps.get(at) {
            Some(
                Step::Receive {
                    request,
                    response,
                    moment,
                },
            ) => self.policy.next_policy(alloc, request, response, *moment),
            _ => Err(CacheError::Malformed),
        }
    }

    fn updated_at(&self, alloc: Global, at: usize) -> Result<HeaderMap, CacheError> {
        match self.script.steps.get(at) {
            Some(Step::Receive { response, .. }) => {
                updated_headers(alloc, &self.script.response.headers, &response.headers)
            }
            _ => Err(CacheError::Malformed),
        }
    }

    fn choice_at(
        &self,
        alloc: Global,
        variants: &Variants,
        at: usize,
    ) -> Result<Choice, CacheError> {
        match self.script.steps.get(at) {
            Some(Step::Ask { request, moment }) => variants.choose(alloc, request, *moment),
            _ => Err(CacheError::Malformed),
        }
    }

    fn cache_status_at(&self, alloc: Global, at: usize) -> Result<String, CacheError> {
        match self.script.steps.get(at) {
            Some(Step::Ask { request, moment }) => self
                .policy
                .explain(request, *moment)
                .cache_status(alloc, "example cache"),
            _ => Err(CacheError::Malformed),
        }
    }

    fn detail_at(&self, alloc: Global, at: usize) -> Result<Option<String>, CacheError> {
        match self.script.steps.get(at) {
            Some(Step::Ask { request, moment }) => {
                self.policy.explain(request, *moment).detail(alloc)
            }
            _ => Err(CacheError::Malformed),
        }
    }

    // Three caches after the first one.
    fn handed_on(&self, alloc: Global) -> Result<Vec<CachePolicy>, CacheError> {
        let script = self.script;
        let moments = [
            after(1_500_000_000),
            after(2_500_000_000),
            after(3_700_000_000),
        ];
        chain(
            alloc,
            &script.request,
            &script.response,
            script.options,
            script.received,
            &moments,
        )
    }

    // The call makes policies, or writes one.
    fn makes(&self, alloc: Global, call: Call) -> Result<bool, CacheError> {
        let (script, ages) = (self.script, self.exchange.ages);
        match call {
            Call::New => judged(
                CachePolicy::new(alloc, &script.request, &script.response, script.received),
                ages,
            ),
            Call::NewOptions => judged(script.policy(alloc), ages),
            Call::TryClone => judged(self.policy.try_clone(alloc), ages),
            Call::NextPolicy => judged(self.next_at(alloc, 3), RENEWED),
            Call::Chain => judged(self.handed_on(alloc), HANDED_ON),
            _ => self.is_written_so(alloc),
        }
    }

    // The call is on the policy and a request, or a response.
    fn answers(&self, alloc: Global, call: Call) -> Result<bool, CacheError> {
        match call {
            Call::Fresh => judged(self.answer_at(alloc, 0), FRESH),
            Call::Validated => judged(self.answer_at(alloc, 2), VALIDATED),
            Call::Unmatched => judged(self.answer_at(alloc, 6), UNMATCHED),
            Call::UnmatchedHead => judged(self.answer_at(alloc, 7), UNMATCHED_HEAD),
            Call::Unstorable => judged(self.answer_at(alloc, 0), PLAIN),
            Call::NotModified => judged(self.update_at(alloc, 3), (RENEWED, NOT_MODIFIED)),
            Call::Modified => judged(self.update_at(alloc, 5), (REPLACED, MODIFIED)),
            Call::CacheStatus => judged(self.cache_status_at(alloc, 6), CACHE_STATUS),
            Call::Detail => judged(self.detail_at(alloc, 6), "Accept"),
            _ => judged(self.policy.response_at(alloc, after(5_500_000_000)), SENT),
        }
    }

    // The call is on the headers of the response, or on all steps.
    fn hands_on(&self, alloc: Global, call: Call) -> Result<bool, CacheError> {
        let headers = &self.script.response.headers;
        let steps = self.script.steps.as_slice();
        match call {
            Call::Parse => judged(self.directives(alloc), DIRECTIVES),
            Call::StoredDirectives => {
                judged(self.policy.stored_directives(alloc), STORED_DIRECTIVES)
            }
            Call::Forward => judged(forwarded_headers(alloc, headers), PASSED_ON),
            Call::Join => judged(joined_headers(alloc, headers), JOINED),
            Call::Update => judged(self.updated_at(alloc, 3), UPDATED),
            Call::Replay => judged(replay(alloc, self.policy, steps), &OUTCOMES),
            _ => judged(replay(alloc, self.policy, steps), &EXAMPLE_OUTCOMES),
        }
    }
}

impl Scene for Alone {
    fn is_right(&mut self, alloc: Global, case: Case<'_>, call: Call) -> Result<bool, CacheError> {
        match call {
            Call::New
            | Call::NewOptions
            | Call::TryClone
            | Call::NextPolicy
            | Call::Chain
            | Call::ToValue => case.makes(alloc, call),
            Call::Fresh
            | Call::Validated
            | Call::Unmatched
            | Call::UnmatchedHead
            | Call::Unstorable
            | Call::NotModified
            | Call::Modified
            | Call::CacheStatus
            | Call::Detail
            | Call::ResponseAt => case.answers(alloc, call),
            Call::Parse
            | Call::StoredDirectives
            | Call::Forward
            | Call::Join
            | Call::Update
            | Call::Replay
            | Call::ReplayExample => case.hands_on(alloc, call),
            Call::Member => is_member(alloc),
            _ => look::is_right(alloc, case, call),
        }
    }
}

impl Scene for HeaderMap {
    // The headers are empty, and stay so if the call fails.
    fn is_right(
        &mut self,
        _alloc: Global,
        _case: Case<'_>,
        _call: Call,
    ) -> Result<bool, CacheError> {
        append(self, VIA, HeaderValue::from_static("1.1 a"))?;
        Ok(self.is("via: 1.1 a"))
    }
}

impl Scene for CacheControl {
    fn is_right(&mut self, alloc: Global, _case: Case<'_>, call: Call) -> Result<bool, CacheError> {
        match call {
            Call::Format => judged(format_cache_control(alloc, self), DIRECTIVES_LINE),
            _ => Ok(look::is_right_of_directives(self, call)),
        }
    }
}

impl Scene for BeforeRequest {
    fn is_right(
        &mut self,
        _alloc: Global,
        _case: Case<'_>,
        _call: Call,
    ) -> Result<bool, CacheError> {
        Ok(self.satisfies_without_revalidation())
    }
}

impl Scene for Value {
    fn is_right(&mut self, alloc: Global, case: Case<'_>, call: Call) -> Result<bool, CacheError> {
        match call {
            Call::FromValue => judged(CachePolicy::from_value(alloc, self), case.exchange.ages),
            _ => Ok(look::is_right_of_form(self, call)),
        }
    }
}

impl Scene for Variants {
    fn is_right(&mut self, alloc: Global, case: Case<'_>, call: Call) -> Result<bool, CacheError> {
        match call {
            Call::Add => {
                let added = add(self, case.policy.try_clone(alloc), case.exchange.ages)?;
                Ok(added && self.len() == 1)
            }
            Call::ChooseFresh => judged(case.choice_at(alloc, self, 0), CHOSEN),
            Call::ChooseValidated => judged(case.choice_at(alloc, self, 1), CHOSEN_STALE),
            Call::ChooseNothing => judged(case.choice_at(alloc, self, 2), NOT_CHOSEN),
            _ => Ok(look::is_right_of_variants(self, case.script, call)),
        }
    }
}

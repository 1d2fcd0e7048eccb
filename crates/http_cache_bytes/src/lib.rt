//! The library's calls over bytes: a message is a head of HTTP/1.1, and a policy its stored form.
//! No call keeps state.
//!
//! It relies on `http_heads` for heads and on `http_cache_semantics` for every rule of caching.
#![tactic(auto)]

mod answer;
mod choice;
mod facts;
mod form;
mod heads;
mod message;
mod next;

pub use answer::{Answer, Verdict, before, explain};
pub use choice::{Chosen, choose};
pub use facts::{
    age, fresh_at, freshness, is_confirmed_by, is_not_modified_for, may_be_used, stale_use,
    storability, time_to_live,
};
pub use form::{Form, Stored, new};
pub use message::{joined, response_at, updated};
pub use next::{Next, after};

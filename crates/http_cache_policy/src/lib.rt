//! A stored exchange: what it answers to a request, how a response changes it, and its stored form
//! (RFC 7234, sections 3 to 5).
#![tactic(auto)]

pub mod after;
pub mod before;
pub mod explain;
pub mod lookup;
pub mod policy;
pub mod response_at;
pub mod run;
pub mod stale_use;
pub mod steps;
pub mod stored;

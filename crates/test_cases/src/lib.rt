//! Messages and policies from the texts of cases, for tests. Nothing here is for use.
#![tactic(auto)]

pub mod fixtures;

//! Walks over a recorded session, entry by entry, and finds what a cache would have done with each.
#![tactic(auto)]

pub mod again;
pub mod assume;
pub mod lifetime;
pub mod order;
pub mod own;
pub mod row;
pub mod settings;
mod sources;
pub mod stored;
pub mod texts;
pub mod walk;

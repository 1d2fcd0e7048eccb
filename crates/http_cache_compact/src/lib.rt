//! The compact form of what a policy keeps. specs/Compact.antt defines where each number and text
//! is.
//!
//! A number is checked where it is read, a text by the type that is made of it. The crate relies on
//! the rules for what is kept, and on the JSON form for which headers field lines are.
#![tactic(auto)]

mod fields;
mod numbers;
mod read;
mod write;

pub use read::parts_from_compact;
pub use write::{Kept, compact_of};

/// The version of the form, which is its first byte.
pub const VERSION: u8 = 1;

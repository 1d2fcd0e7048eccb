//! The parts of a stored policy, from JSON values and to them: options, times, headers and texts.
#![tactic(auto)]

pub mod form;
pub mod headers;
pub mod members;
pub mod stored;
pub mod texts;
pub mod unread;

pub use unread::UnreadValue;

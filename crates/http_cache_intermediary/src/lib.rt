//! What HTTP demands of an intermediary, for the heads of messages: which requests it answers
//! itself, and how it forwards requests and responses (RFC 9110, sections 7.2 to 7.6; RFC 9112,
//! section 6).
//!
//! It knows no store and no connection, and of a body only the length. `request` decides what is
//! forwarded to the origin server, and `response` what is sent to the client.
#![tactic(auto)]

mod field;
pub mod generated;
mod host;
pub mod intermediary;
pub mod length;
pub mod refusal;
pub mod request;
pub mod response;
mod via;

pub use intermediary::Intermediary;
pub use length::Content;
pub use refusal::Refusal;

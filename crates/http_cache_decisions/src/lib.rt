//! What a caching client decides, without a store: how a request is compared with the stored
//! responses of its target, which of them answers, what is sent to the origin server, and what is
//! stored of a response (RFC 9110, 9111, 5861 and 9211).
#![tactic(auto)]

pub mod asking;
pub mod body;
pub mod complete;
pub mod failure;
pub mod freshen;
pub mod head;
pub mod invalidate;
pub mod judge;
pub mod memory;
pub mod needed;
pub mod outgoing;
pub mod plan;
pub mod quoted;
pub mod receipt;
pub mod renewal;
pub mod reply;
pub mod report;
pub mod storing;

pub use body::Body;
pub use plan::Times;
pub use report::Why;

//! Why a stored response isn't used for a request, as text and as Cache-Status members, and members
//! for how a cache handled a request (RFC 9211).
#![tactic(auto)]

pub mod cache_status;
pub mod member;
pub mod reason;
mod structured_field;

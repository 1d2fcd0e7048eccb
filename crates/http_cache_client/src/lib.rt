//! A caching client over a store of stored responses (RFC 9110, 9111, 5861 and 9211).
#![tactic(auto)]

mod ask;
pub mod client;
mod coming;
mod confirm;
mod fetch;
pub mod origin;
mod receive;
pub mod tokens;

pub use client::Client;
pub use http_cache_decisions::{Body, Times};
pub use origin::{FetchError, Origin};
pub use tokens::{Coming, Decision, Forwarded, Received, Validation};

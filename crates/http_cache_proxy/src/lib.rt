//! A caching proxy: a service of `http_server` over a client of `http_cache_client`.
#![tactic(auto)]

pub mod clock;
pub mod failure;
mod fetch;
pub mod origin;
pub mod proxy;
mod write;

pub use clock::{ClockTime, TimeSource};
pub use failure::Failure;
pub use origin::{NoAnswer, WholeOrigin};
pub use proxy::Proxy;

//! The requests that a cache process asks its caller to send to the origin server, by token. The
//! caller reports their outcome. Nothing here reads a frame.
#![tactic(auto)]

mod errands;
mod invalidations;

pub use errands::{Coming, Errand, Rest, UnderWay, UnderWays};
pub use invalidations::Invalidations;

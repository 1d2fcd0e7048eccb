//! A caching client as a session: what it replies to each frame of a caller, who sends the requests
//! to the origin server (`docs/PROTOCOL.md`).
//!
//! It relies on `http_cache_client` for every decision about caching, on `http_cache_wire` for
//! frames, and on `http_cache_intermediary` for the rules of an intermediary. It reads no input and
//! writes no output.
#![tactic(auto)]

mod ask;
mod bodies;
mod outcome;
mod session;

pub use session::{Session, Settings, Stored};

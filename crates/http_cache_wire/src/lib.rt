//! HTTP messages in frames: what a frame asks for, its request or response, and how the reply is
//! written (`docs/PROTOCOL.md`).
//!
//! It holds no state and decides nothing about caching. It relies on `http_heads` for heads and on
//! `http_cache_intermediary` for what HTTP demands of an intermediary.
#![tactic(auto)]

pub mod fault;
pub mod message;
pub mod operation;
pub mod parts;
pub mod target;

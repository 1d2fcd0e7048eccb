//! [`MemoryStore`]: a store in memory with limits, for the responses of a caching client (RFC 9111,
//! section 2).
//!
//! Its map, lists and limits are an [`index::Index`], which serves a store with bodies elsewhere
//! too. It implements the trait of `http_cache_store`, whose names it re-exports. Only `sweep`
//! knows HTTP: it calls `http_cache_store::worth`.
#![tactic(auto)]

pub mod entry;
pub mod index;
pub mod memory;
pub(crate) mod response;
pub mod told;

pub use http_cache_store::{ResponseId, Store, StoreError, StoredResponse, Target};
pub use index::Limits;
pub use memory::MemoryStore;

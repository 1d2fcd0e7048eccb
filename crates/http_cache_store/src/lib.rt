//! The interface between a caching client and a store of responses: the trait [`Store`], and the
//! [`Target`] under which a response is stored (RFC 9111, section 2).
//!
//! It stores nothing itself: `http_cache_memory_store` keeps responses in memory,
//! `http_cache_disk_store` in a directory.
#![tactic(auto)]

mod reference;
pub mod store;
pub mod target;
pub mod worth;

pub use store::{ResponseId, Store, StoreError, StoredResponse};
pub use target::Target;

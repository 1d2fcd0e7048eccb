//! [`DiskStore`]: a store in a directory with a file for each response, for a caching client (RFC
//! 9111, section 2).
//!
//! Heads are in memory in their compact form, in an index of `http_cache_memory_store`; bodies are
//! in their files. `form` says what a file holds, `folder` calls the system, `disc` removes files
//! and remembers those that it couldn't, and `load` reads the heads when the directory is opened.
#![tactic(auto)]

mod disc;
pub mod error;
mod folder;
mod form;
mod head;
mod load;
pub mod lock;
mod mark;
mod name;
pub mod store;

pub use error::DiskError;
pub use load::Found;
pub use lock::TryLock;
pub use store::{DiskOptions, DiskStore};

//! The head of an HTTP/1.1 message, from its bytes and to them (RFC 9112, sections 2 to 5).
//! It relies on the kit's `httparse` and `http1_typed`, and knows nothing of caching.
#![tactic(auto)]

mod error;
mod read;
mod write;

pub use error::HeadError;
pub use read::{request_from_bytes, response_from_bytes};
pub use write::{bytes_of_request, bytes_of_response};

//! The parts of an exchange that a cache keeps.
use crate::options::CacheOptions;
use http::{HeaderMap, Method, StatusCode, Uri};
use jiff::Timestamp;

/// A request, its response, and when the response was received.
#[derive(Debug, Drop)]
pub struct StoredParts {
    /// The target URI of the request.
    pub target: Uri,
    /// The method of the request.
    pub method: Method,
    /// The status of the response.
    pub status: StatusCode,
    /// The headers of the request.
    pub request_headers: HeaderMap,
    /// The headers of the response.
    pub response_headers: HeaderMap,
    /// The options of the cache.
    pub options: CacheOptions,
    /// The time at which the response was received.
    pub response_time: Timestamp,
}

//! A received frame.
use bytes::Bytes;
use serde_json::Value;

/// A received frame.
#[derive(Debug, Drop)]
pub struct Frame {
    /// Its line.
    pub line: Value,
    /// The head after the line.
    pub head: Bytes,
    /// The body after the head.
    pub body: Bytes,
    /// Whether the head or the body exceeded the limit. Both are then empty, and their bytes were
    /// skipped.
    pub is_too_long: bool,
}

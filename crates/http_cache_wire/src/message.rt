//! Reads times, bodies and messages from frames.
ghost use Rattle.std.specs.Prelude.{IfOk};
ghost use Rattle.http.specs.Response.{body_of};
ghost use Rattle.serde_json.specs.View.{view};
ghost use Rattle.http_cache_decisions.specs.Plan.{IsElsewhere};
ghost use Rattle.http_cache_wire.specs.Wire.{HasRest, IsWithCaller};

use crate::fault::Fault;
use bytes::Bytes;
use http::{Request, Response};
use http_cache_decisions::Body;
use http_cache_frames::{Frame, Reason, has_member, is_true_under, number_under};
use http_cache_intermediary::Content;
use http_heads::{request_from_bytes, response_from_bytes};
use jiff::Timestamp;
use serde_json::Value;
use std::alloc::Global;
use std::hash::RandomState;

const NANOS_A_MILLISECOND: i128 = 1_000_000;

// The replacement for the body of a request that the caller has. It isn't empty, and is never
// written.
const PLACEHOLDER: &[u8] = b"-";

/// The location of a message's body.
#[derive(Clone, Copy, Debug, PartialEq, Eq)]
pub enum BodyLocation {
    /// The frame.
    Here,
    /// The caller, with the length of the body if that is known.
    Caller(Option<u64>),
}

impl BodyLocation {
    /// Returns the location of the body of a frame's message.
    pub fn of(frame: &Frame) -> Result<BodyLocation, Fault>
        ensures rest { HasRest (view frame.now.line) → IfOk result IsWithCaller }
    {
        if !has_member(&frame.line, "rest") {
            return Ok(BodyLocation::Here);
        }
        if frame.body.is_empty() {
            if let Some(length) = number_under(&frame.line, "rest") {
                return Ok(BodyLocation::Caller(Some(length)));
            }
            if is_true_under(&frame.line, "rest") {
                return Ok(BodyLocation::Caller(None));
            }
        }
        Err(Fault::Refused(Reason::NoRest))
    }

    /// Returns the body's content for an intermediary. `length` is the length of the frame's body.
    pub fn content(self, length: usize) -> Content {
        match self {
            BodyLocation::Here => Content::Known(length as u64),
            BodyLocation::Caller(Some(length)) => Content::Known(length),
            BodyLocation::Caller(None) => Content::Unknown,
        }
    }
}

/// Returns the time under a name, in milliseconds since 1970 and up to the year 9999.
pub fn time_under(line: &Value, name: &str) -> Option<Timestamp> {
    let millis = number_under(line, name)?;
    Timestamp::from_nanosecond(i128::from(millis).saturating_mul(NANOS_A_MILLISECOND)).ok()
}

/// Returns the time of a frame.
pub fn time_of(line: &Value) -> Result<Timestamp, Fault> {
    time_under(line, "at").ok_or(Fault::Refused(Reason::NoTime))
}

// Returns whether the target in the first line of a head has a fragment, which a `Uri` drops.
fn has_fragment(head: &[u8]) -> bool {
    for byte in head {
        match *byte {
            b'#' => return true,
            b'\r' | b'\n' => return false,
            _ => {}
        }
    }
    false
}

/// Returns the request of a frame, and whether its target has a fragment. If the caller has the
/// body, one byte replaces it.
pub fn request_in(
    alloc: Global,
    keys: RandomState,
    frame: Frame,
    location: BodyLocation,
) -> Result<(Request<Bytes>, bool), Fault> {
    let Frame { head, body, .. } = frame;
    let parts = request_from_bytes(alloc, keys, head.as_slice())?;
    let body = match location {
        BodyLocation::Here => body,
        BodyLocation::Caller(_) => Bytes::from_static(PLACEHOLDER),
    };
    Ok((
        Request::from_parts(parts, body),
        has_fragment(head.as_slice()),
    ))
}

/// Returns the response of a frame.
pub fn response_in(alloc: Global, keys: RandomState, frame: Frame) -> Result<Response<Body>, Fault>
    ensures rest { HasRest (view frame.line)
        → IfOk result (λ response. IsElsewhere (body_of response)) }
{
    let location = BodyLocation::of(&frame)?;
    let Frame { head, body, .. } = frame;
    let parts = response_from_bytes(alloc, keys, head.as_slice())?;
    if parts.status.is_informational() {
        return Err(Fault::Refused(Reason::NotFinal));
    }
    let body = match location {
        BodyLocation::Here => Body::Here(body),
        BodyLocation::Caller(length) => Body::Elsewhere(length),
    };
    Ok(Response::from_parts(parts, body))
}

//! Recognizes what the bytes of the input begin with.
ghost use Rattle.std.specs.Prelude.{◌≡◌, ◌≤◌, ◌<◌, length, IfOk, IfSome};
ghost use Rattle.serde_json.specs.View.{view};
ghost use Rattle.http_cache_frames.specs.Front.{longest_line, EndsAt, IsFront, IsFrontOfLine};

use crate::line::length_under;
use memchr::memchr;
use serde_json::Value;
use std::alloc::{AllocError, Global};

// The greatest length of a line in bytes, without its line feed.
const LONGEST_LINE: usize = 4096;

/// The reason why bytes aren't a frame. The next frame can't be found then.
#[derive(Clone, Copy, Debug, PartialEq, Eq)]
pub enum NoFrame {
    /// A line is longer than 4,096 bytes.
    LongLine,
    /// A line isn't a JSON object in UTF-8.
    NoObject,
    /// `head` or `body` isn't a length.
    NoLength,
    /// The input ends within a frame.
    Cut,
}

/// The line of a frame, with the lengths of what follows it.
#[derive(Debug, Drop)]
pub struct Announced {
    /// The object.
    pub line: Value,
    /// The length of the line in bytes, including its line feed.
    pub length: usize,
    /// The length in bytes of the head, which follows the line.
    pub head: u64,
    /// The length in bytes of the body, which follows the head.
    pub body: u64,
}

/// What bytes begin with.
#[derive(Debug, Drop)]
pub enum Front {
    /// The line of a frame.
    Line(Announced),
    /// A part of a line.
    Partial,
    /// No frame.
    Broken(NoFrame),
}

// Returns what a line announces. `count` is its length without the line feed.
fn front_of_line(line: Value, count: usize) -> Front
    requires { count ≤ longest_line }
    ensures { IsFrontOfLine (view line) count result }
{
    if !line.is_object() {
        return Front::Broken(NoFrame::NoObject);
    }
    match (length_under(&line, "head"), length_under(&line, "body")) {
        (Some(head), Some(body)) => Front::Line(Announced {
            line,
            length: count + 1,
            head,
            body,
        }),
        _ => Front::Broken(NoFrame::NoLength),
    }
}

// Returns the number of bytes before the first line feed, if that is near enough.
fn line_length(bytes: &[u8]) -> Option<usize>
    ensures position { EndsAt bytes.now result }
    ensures short { IfSome result (λ count. count ≤ longest_line) }
    ensures within { IfSome result (λ count. count < length bytes.now) }
{
    if bytes.len() > LONGEST_LINE {
        memchr(b'\n', &bytes[..LONGEST_LINE + 1])
    } else {
        memchr(b'\n', bytes)
    }
}

/// Returns what bytes begin with: a JSON object as a line of at most 4,096 bytes, a part of one, or
/// no frame. It never returns `Cut`, since more bytes may follow.
///
/// # Errors
///
/// `AllocError` if there is not enough memory.
pub fn front_of(alloc: Global, bytes: &[u8]) -> Result<Front, AllocError>
    ensures { IfOk result (IsFront bytes.now) }
{
    let Some(count) = line_length(bytes) else {
        return Ok(if bytes.len() > LONGEST_LINE {
            Front::Broken(NoFrame::LongLine)
        } else {
            Front::Partial
        });
    };
    match Value::from_slice(alloc, &bytes[..count]) {
        Ok(line) => Ok(front_of_line(line, count)),
        Err(cause) if cause.is_memory() => Err(AllocError),
        Err(_) => Ok(Front::Broken(NoFrame::NoObject)),
    }
}

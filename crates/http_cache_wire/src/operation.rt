//! Reads what a frame asks for, its id and its token.
ghost use Rattle.std.specs.Prelude.{◌≡◌, ℕ, Some, codes};
ghost use Rattle.serde_json.specs.View.{view};
ghost use Rattle.http_cache_frames.specs.Line.{number_under};
ghost use Rattle.http_cache_wire.specs.Wire.{IsOperationOf};

use http_cache_frames::{has_member, number_under};
use serde_json::Value;

/// What a frame asks for, with its id, or for an outcome with its token.
#[derive(Clone, Copy)]
pub enum Operation {
    /// A request to answer.
    Ask(u64),
    /// The outcome of a request under way, with the token if the frame has one.
    Received(Option<u64>),
    /// The failure of a request under way, with the token if the frame has one.
    Failed(Option<u64>),
    /// The last piece of the body of a response, with the token if the frame has one.
    Complete(Option<u64>),
    /// A piece of the body of a response, with the token if the frame has one.
    Part(Option<u64>),
    /// The next piece of an answer, with the token if the frame has one.
    Next(Option<u64>),
    Remove(u64),
    Sweep(u64),
    Stats(u64),
    Quit(u64),
}

impl Operation {
    /// Returns what a line asks for.
    pub fn of(line: &Value) -> Option<Operation>
        ensures { IsOperationOf (view line.now) result }
    {
        if let Some(id) = number_under(line, "ask") {
            return Some(Operation::Ask(id));
        }
        if has_member(line, "received") {
            return Some(Operation::Received(number_under(line, "received")));
        }
        if has_member(line, "failed") {
            return Some(Operation::Failed(number_under(line, "failed")));
        }
        if has_member(line, "complete") {
            return Some(Operation::Complete(number_under(line, "complete")));
        }
        if has_member(line, "part") {
            return Some(Operation::Part(number_under(line, "part")));
        }
        if has_member(line, "next") {
            return Some(Operation::Next(number_under(line, "next")));
        }
        if let Some(id) = number_under(line, "remove") {
            return Some(Operation::Remove(id));
        }
        if let Some(id) = number_under(line, "sweep") {
            return Some(Operation::Sweep(id));
        }
        if let Some(id) = number_under(line, "stats") {
            return Some(Operation::Stats(id));
        }
        number_under(line, "quit").map(Operation::Quit)
    }
}

/// Returns the id of a frame, if it has one.
pub fn id_of(line: &Value) -> Option<u64>
    ensures { (id : ℕ) → number_under (codes "ask") (view line.now) ≡ Some id → result ≡ Some id }
{
    match number_under(line, "ask") {
        Some(id) => Some(id),
        None => ["remove", "sweep", "stats", "quit"]
            .iter()
            .find_map(|name| number_under(line, name)),
    }
}

/// Returns the token of a frame, if it has one.
pub fn token_of(line: &Value) -> Option<u64> {
    ["received", "failed", "part", "complete", "next"]
        .iter()
        .find_map(|name| number_under(line, name))
}

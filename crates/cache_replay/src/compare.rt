//! Compares a text with a recorded answer.
ghost use Rattle.std.specs.Prelude.{◌≡◌, ◌↔◌, map, option_map, Some, IsNone, IsSome, IsTrue};
ghost use Rattle.serde_json.specs.View.{view};
ghost use Rattle.serde_json.specs.Find.{as_str};
ghost use Rattle.cache_replay.specs.Compare.{are_texts, recorded_answer_of, AreLinesOf};

use http_cache_json::form::has_members;
use serde_json::Value;

/// A script, and its recorded lines.
#[derive(Clone, Copy)]
pub struct RecordedAnswer<'a> {
    /// The script.
    pub script: &'a Value,
    /// The lines, each of them a text.
    pub lines: &'a [Value],
}

fn are_texts(values: &[Value]) -> bool
    ensures { result ≡ are_texts (map view values.now) }
{
    values.iter().all(|value| value.is_string())
}

/// Returns the recorded answer of an object with only `script` and a list of texts `answer`.
#[tactic(auto, unfolding(crate::specs::Compare::recorded_answer_of))]
pub fn recorded_answer_from(value: &Value) -> Option<RecordedAnswer<'_>>
    ensures { option_map (λ r. record {
      script = view r.script.now;
      lines = map view r.lines.now;
    }) result ≡ recorded_answer_of (view value.now) }
{
    let script = value.get("script")?;
    let lines = value.get("answer")?.as_array()?.as_slice();
    if has_members(value, 2) && are_texts(lines) {
        Some(RecordedAnswer { script, lines })
    } else {
        None
    }
}

/// The first index at which two answers differ.
#[derive(Clone, Copy)]
pub struct Difference<'a> {
    /// The number of equal lines before it.
    pub position: usize,
    /// The recorded line at the index, if there is one.
    pub wanted: Option<&'a str>,
    /// The other answer's line at the index, if there is one.
    pub got: Option<&'a str>,
}

fn difference_at<'a>(
    recorded: &'a [Value],
    rest: &'a [Value],
    got: Option<&'a str>,
) -> Difference<'a> {
    Difference {
        position: recorded.len().saturating_sub(rest.len()),
        wanted: match rest.first() {
            Some(value) => value.as_str(),
            None => None,
        },
        got,
    }
}

fn is_text(value: &Value, text: &str) -> bool
    ensures { IsTrue result ↔ (as_str (view value.now) ≡ Some text.now) }
{
    match value.as_str() {
        Some(found) => found == text,
        None => false,
    }
}

/// Returns the first index at which a text differs from recorded lines, or None if they are its
/// lines.
pub fn first_difference<'a>(recorded: &'a [Value], text: &'a str) -> Option<Difference<'a>>
    ensures same { IsNone result → AreLinesOf (map view recorded.now) text.now }
    ensures other { IsSome result → AreLinesOf (map view recorded.now) text.now → ⊥ }
{
    let mut rest = recorded;
    for got in text.lines() {
        match rest.split_first() {
            Some((value, others)) if is_text(value, got) => rest = others,
            _ => return Some(difference_at(recorded, rest, Some(got))),
        }
    }
    if rest.is_empty() {
        None
    } else {
        Some(difference_at(recorded, rest, None))
    }
}

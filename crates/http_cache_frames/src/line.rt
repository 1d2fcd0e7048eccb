//! Reads members of a line. If a name occurs twice, the last member counts.
ghost use Rattle.std.specs.Prelude.{◌≡◌, codes, is_some, option_map, string_bytes};
ghost use Rattle.serde_json.specs.View.{view};
ghost use Rattle.serde_json.specs.Find.{get};
ghost use Rattle.http_cache_frames.specs.Line.{number_under, length_under, text_under, is_true_under};

use serde_json::Value;

// The largest integer that every reader of JSON keeps exact: 2^53 - 1.
const LARGEST: u64 = 9_007_199_254_740_991;

/// Returns whether a line has a member with a name.
pub fn has_member(line: &Value, name: &str) -> bool
    ensures { result ≡ is_some (get name.now (view line.now)) }
{
    line.get(name).is_some()
}

/// Returns the number under a name: an integer from 0 to 2^53 - 1.
pub fn number_under(line: &Value, name: &str) -> Option<u64>
    ensures { result ≡ number_under name.now (view line.now) }
{
    let number = line.get(name)?.as_u64()?;
    if number <= LARGEST {
        Some(number)
    } else {
        None
    }
}

/// Returns the length under a name: 0 if there is no such member, and `None` if it is no number.
pub fn length_under(line: &Value, name: &str) -> Option<u64>
    ensures { result ≡ length_under name.now (view line.now) }
{
    if has_member(line, name) {
        number_under(line, name)
    } else {
        Some(0)
    }
}

/// Returns the text under a name.
pub fn text_under<'a>(line: &'a Value, name: &str) -> Option<&'a str>
    ensures { option_map (λ text. text.now) result ≡ text_under name.now (view line.now) }
{
    line.get(name)?.as_str()
}

/// Returns whether the member under a name is `true`.
pub fn is_true_under(line: &Value, name: &str) -> bool
    ensures { result ≡ is_true_under name.now (view line.now) }
{
    line.get(name).and_then(Value::as_bool) == Some(true)
}

//! Reads when a request was sent, and when its response was received.
ghost use Rattle.std.specs.Prelude.{◌≡◌, ◌≤◌, length, ◌*◌, ◌+ℤ◌, pos, option_map, IfOk, OnOk, ◌++◌};
ghost use Rattle.std.specs.List.{list_any, prefix_len, position_or_len};
ghost use Rattle.std.specs.Char.{is_ascii_digit};
ghost use Rattle.http_cache_recording.specs.Moment.{is_mark, is_zone_mark, nine_digits, shortened, has_zone};
ghost use Rattle.http_cache_recording.specs.Moment.{full_text, moment_of_text, moment_of_written, received_at};

use jiff::Timestamp;
use jiff_fmt::temporal::parse_timestamp;
use std::alloc::{AllocError, Global};

// Without a mark, the length.
fn mark_position(text: &[u8]) -> usize
    ensures value { result ≡ position_or_len is_mark text.now }
    ensures within { result ≤ length text.now }
{
    text.iter()
        .take_while(|b| !(**b == b'.' || **b == b','))
        .count()
}

fn digits_len(text: &[u8]) -> usize
    ensures value { result ≡ prefix_len is_ascii_digit text.now }
    ensures within { result ≤ length text.now }
{
    text.iter().take_while(|b| b.is_ascii_digit()).count()
}

fn any_zone_mark(text: &[u8]) -> bool
    ensures { result ≡ list_any is_zone_mark text.now }
{
    for b in text {
        if matches!(*b, b'Z' | b'z' | b'+' | b'-') {
            return true;
        }
    }
    false
}

#[tactic(auto, unfolding(crate::specs::Moment::has_zone))]
fn has_zone(text: &[u8]) -> bool
    ensures { result ≡ has_zone text.now }
{
    any_zone_mark(&text[text.len().min(10)..])
}

fn push_nine_digits(out: &mut Vec<u8>, rest: &[u8]) -> Result<(), AllocError>
    ensures { OnOk result (out.new.items ≡ out.old.items ++ nine_digits rest.now) }
{
    let len = digits_len(rest);
    out.extend_from_slice(&rest[..len.min(9)])?;
    out.extend_from_slice(&rest[len..])
}

#[tactic(auto, unfolding(crate::specs::Moment::shortened))]
fn push_shortened(out: &mut Vec<u8>, text: &[u8]) -> Result<(), AllocError>
    ensures { OnOk result (out.new.items ≡ out.old.items ++ shortened text.now) }
{
    let mark = mark_position(text);
    if mark == text.len() {
        return out.extend_from_slice(text);
    }
    out.extend_from_slice(&text[..mark + 1])?;
    push_nine_digits(out, &text[mark + 1..])
}

// A text without a zone is in UTC.
#[tactic(auto, unfolding(crate::specs::Moment::full_text))]
fn full_text(alloc: Global, text: &[u8]) -> Result<Vec<u8>, AllocError>
    ensures { IfOk result (λ full. full.items ≡ full_text text.now) }
{
    let mut full = Vec::new(alloc);
    push_shortened(&mut full, text)?;
    if !has_zone(text) {
        full.push(b'Z')?;
    }
    Ok(full)
}

#[tactic(auto, unfolding(crate::specs::Moment::moment_of_written))]
fn moment_of_written(text: &[u8]) -> Option<Timestamp>
    ensures { option_map (λ t. t.nanosecond) result ≡ moment_of_written text.now }
{
    let Ok(moment) = parse_timestamp(text) else {
        return None;
    };
    let moment = Timestamp::from_plain(moment);
    if moment.as_nanosecond() >= 0 {
        Some(moment)
    } else {
        None
    }
}

/// Returns the time of a text, if it isn't before 1970.
///
/// A fraction keeps nine digits, and a text without a zone is in UTC.
#[tactic(auto, unfolding(crate::specs::Moment::moment_of_text))]
pub(crate) fn moment_of_text(alloc: Global, text: &str) -> Result<Option<Timestamp>, AllocError>
    ensures { IfOk result (λ moment. option_map (λ t. t.nanosecond) moment
        ≡ moment_of_text text.now) }
{
    let full = full_text(alloc, text.as_bytes())?;
    Ok(moment_of_written(full.as_slice()))
}

fn nanosecond_after(started: Timestamp, millis: u64) -> i128
    ensures { result ≡ started.nanosecond +ℤ pos (millis * 1_000_000) }
{
    started.as_nanosecond() + millis as i128 * 1_000_000
}

/// Returns the time so many milliseconds later, or the time itself if there is none.
#[tactic(auto, unfolding(crate::specs::Moment::received_at))]
pub(crate) fn received_at(started: Timestamp, millis: u64) -> Timestamp
    ensures { result.nanosecond ≡ received_at started.nanosecond millis }
{
    if millis >= 1_000_000_000_000_000 {
        return started;
    }
    match Timestamp::from_nanosecond(nanosecond_after(started, millis)) {
        Ok(received) => received,
        Err(_) => started,
    }
}

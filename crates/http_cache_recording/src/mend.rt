//! Mends lone surrogates of a JSON text in place.
ghost use Rattle.std.specs.Prelude.{◌≡◌, ◌<◌, ◌≤◌, ◌++◌, length, drop, IsTrue};
ghost use Rattle.http_cache_recording.specs.Mend.{is_hex, is_high_digit, is_low_digit, is_escape, is_high, is_low};
ghost use Rattle.http_cache_recording.specs.Mend.{is_pair, is_lone, unit_len, unit, mended, without_mark};

fn is_hex(b: u8) -> bool
    ensures { result ≡ is_hex b }
{
    matches!(b, b'0'..=b'9' | b'A'..=b'F' | b'a'..=b'f')
}

fn is_high_digit(b: u8) -> bool
    ensures { result ≡ is_high_digit b }
{
    matches!(b, b'8'..=b'9' | b'A'..=b'B' | b'a'..=b'b')
}

fn is_low_digit(b: u8) -> bool
    ensures { result ≡ is_low_digit b }
{
    matches!(b, b'C'..=b'F' | b'c'..=b'f')
}

#[tactic(auto, unfolding(crate::specs::Mend::is_escape))]
fn is_escape(text: &[u8]) -> bool
    ensures value { result ≡ is_escape text.now }
    ensures long { IsTrue result → 6 ≤ length text.now }
{
    text.len() >= 6
        && text[0] == b'\\'
        && text[1] == b'u'
        && (text[2] == b'd' || text[2] == b'D')
        && is_hex(text[4])
        && is_hex(text[5])
}

#[tactic(auto, unfolding(crate::specs::Mend::is_high))]
fn is_high(text: &[u8]) -> bool
    ensures value { result ≡ is_high text.now }
    ensures long { IsTrue result → 6 ≤ length text.now }
{
    is_escape(text) && is_high_digit(text[3])
}

#[tactic(auto, unfolding(crate::specs::Mend::is_low))]
fn is_low(text: &[u8]) -> bool
    ensures value { result ≡ is_low text.now }
    ensures long { IsTrue result → 6 ≤ length text.now }
{
    is_escape(text) && is_low_digit(text[3])
}

#[tactic(auto, unfolding(crate::specs::Mend::is_pair))]
fn is_pair(text: &[u8]) -> bool
    ensures { result ≡ is_pair text.now }
{
    is_high(text) && is_low(&text[6..])
}

#[tactic(auto, using(crate::proofs::MendLemmas::lone_long), unfolding(crate::specs::Mend::is_lone))]
fn is_lone(text: &[u8]) -> bool
    ensures value { result ≡ is_lone text.now }
    ensures long { IsTrue result → 6 ≤ length text.now }
{
    !is_pair(text) && (is_high(text) || is_low(text))
}

#[tactic(auto, using(crate::proofs::MendLemmas::pair_long), unfolding(crate::specs::Mend::unit_len))]
fn unit_len(text: &[u8]) -> usize
    requires { 0 < length text.now }
    ensures value { result ≡ unit_len text.now }
    ensures some { 0 < result }
    ensures within { result ≤ length text.now }
{
    if is_pair(text) {
        12
    } else if is_lone(text) {
        6
    } else if text[0] == b'\\' {
        text.len().min(2)
    } else {
        1
    }
}

// It returns the length of the unit; most bytes are units.
fn mend_unit(text: &mut [u8]) -> usize
    requires { 0 < length text.old }
    ensures len { result ≡ unit_len text.old }
    ensures some { 0 < result }
    ensures within { result ≤ length text.old }
    ensures mended { text.new ≡ unit text.old ++ drop result text.old }
{
    if text[0] != b'\\' {
        return 1;
    }
    let len = unit_len(text);
    if is_lone(text) {
        text[..6].copy_from_slice(b"\\ufffd");
    }
    len
}

/// Replaces each lone surrogate by U+FFFD, and changes nothing else.
pub(crate) fn mend(text: &mut [u8])
    ensures { text.new ≡ mended text.old }
{
    let mut position = 0;
    while position < text.len() {
        position += mend_unit(&mut text[position..]);
    }
}

/// Returns the text after a byte order mark.
pub(crate) fn without_mark(text: &[u8]) -> &[u8]
    ensures { result.now ≡ without_mark text.now }
{
    if text.starts_with(b"\xef\xbb\xbf") {
        &text[3..]
    } else {
        text
    }
}

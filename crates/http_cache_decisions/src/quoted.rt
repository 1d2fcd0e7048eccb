//! Finds directives that the library misreads within quotes of Cache-Control, since it cuts a line
//! at each comma.
ghost use Rattle.std.specs.Prelude.{◌≡◌, true};
ghost use Rattle.std.specs.List.{list_any};
ghost use Rattle.http_cache_fields.specs.Headers.{headers_of};
ghost use Rattle.http_cache_fields.specs.Text.{is_quote};
ghost use Rattle.http_cache_decisions.specs.Storing.{has_quote};

use http::header::CACHE_CONTROL;
use http::{HeaderMap, HeaderValue};

// The directives that let a response be used longer, or be stored at all.
const GRANTS: [&str; 7] = [
    "immutable",
    "max-age",
    "must-revalidate",
    "public",
    "s-maxage",
    "stale-if-error",
    "stale-while-revalidate",
];

// The state of a reader within a line.
#[derive(Clone, Copy)]
enum Quoting {
    Bare,
    Quoted,
    // After a backslash within quotes.
    Escaped,
}

impl Quoting {
    fn after(self, byte: u8) -> Quoting {
        match (self, byte) {
            (Quoting::Bare, b'"') | (Quoting::Escaped, _) => Quoting::Quoted,
            (Quoting::Quoted, b'"') => Quoting::Bare,
            (Quoting::Quoted, b'\\') => Quoting::Escaped,
            _ => self,
        }
    }

    fn is_bare(self) -> bool {
        matches!(self, Quoting::Bare)
    }
}

// Returns the state of a reader after some bytes (RFC 9110, section 5.6.4).
fn quoting_after(quoting: Quoting, bytes: &[u8]) -> Quoting {
    let mut quoting = quoting;
    for byte in bytes {
        quoting = quoting.after(*byte);
    }
    quoting
}

fn names_grant(piece: &str) -> bool {
    let name = match piece.split_once('=') {
        Some((name, _)) => name.trim_ascii(),
        None => piece.trim_ascii(),
    };
    GRANTS.iter().any(|grant| grant.eq_ignore_ascii_case(name))
}

fn has_quote(line: &str) -> bool
    ensures { result ≡ list_any is_quote line.now }
{
    line.as_bytes().iter().any(|byte| *byte == b'"')
}

// Returns whether a piece with the name of a grant begins or ends within quotes. Most lines have no
// quotes.
fn has_quoted_grant(line: &str) -> bool
    ensures { result ≡ true → list_any is_quote line.now ≡ true }
{
    if !has_quote(line) {
        return false;
    }
    let mut quoting = Quoting::Bare;
    for piece in line.split(',') {
        let end = quoting_after(quoting, piece.as_bytes());
        if names_grant(piece) && !(quoting.is_bare() && end.is_bare()) {
            return true;
        }
        quoting = end.after(b',');
    }
    false
}

fn is_misread_line(line: &HeaderValue) -> bool
    ensures { result ≡ true → list_any is_quote line.now.bytes ≡ true }
{
    match line.to_str() {
        Ok(line) => has_quoted_grant(line),
        Err(_) => false,
    }
}

/// Returns whether the library would read a granting directive of Cache-Control from within quotes,
/// or cut its quoted value. Allocates nothing.
pub fn is_misread(headers: &HeaderMap) -> bool
    ensures { result ≡ true → has_quote (headers_of headers.now) ≡ true }
{
    for line in headers.get_all(CACHE_CONTROL).iter() {
        if is_misread_line(line) {
            return true;
        }
    }
    false
}

//! Texts as a terminal may print them.
ghost use Rattle.std.specs.Prelude.{◌≡◌, ◌<◌, ◌++◌, map, codes, string_bytes, IfOk, OnOk};
ghost use Rattle.http_cache_show.specs.Printable.{printed_byte, IsPlain};

use crate::error::Fallible;
use std::alloc::Global;

fn printed_byte(b: u8) -> u8
    ensures value { result ≡ printed_byte b }
    ensures ascii { result < 128 }
{
    if b' ' <= b && b <= b'~' { b } else { b'?' }
}

/// Adds a text, with `?` for each byte other than a blank and `!` to `~`.
pub fn push_plain(out: &mut String, text: &str) -> Fallible<()>
    ensures { OnOk result (string_bytes out.new ≡ string_bytes out.old
        ++ map printed_byte text.now) }
{
    let bytes = text.as_bytes();
    for b in bytes {
        out.push(char::from(printed_byte(*b)))?;
    }
    Ok(())
}

/// Adds a line of text, with `?` for each byte other than a blank and `!` to `~`.
pub fn push_printed(out: &mut String, line: &str) -> Fallible<()>
    ensures { OnOk result (string_bytes out.new ≡ string_bytes out.old
        ++ map printed_byte line.now ++ codes "\n") }
{
    push_plain(out, line)?;
    out.push_str("\n")
}

/// Returns a text in which each byte is printable or a line feed.
pub fn printable(alloc: Global, text: &str) -> Fallible<String>
    ensures { IfOk result (λ t. IsPlain (string_bytes t)) }
{
    let mut out = String::new(alloc);
    for line in text.split_terminator('\n') {
        push_printed(&mut out, line)?;
    }
    Ok(out)
}

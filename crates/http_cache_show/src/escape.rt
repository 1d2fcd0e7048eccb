//! Escapes texts for a page. Special characters of HTML become entities, and characters that nobody
//! sees, or that change the direction of others, become numbers.
ghost use Rattle.std.specs.Prelude.{◌≡◌, true, MatchOption, string_bytes};
ghost use Rattle.std.specs.List.{list_all};
ghost use Rattle.http_cache_show.specs.Tags.{is_safe, IsTextAfter};

use crate::error::Fallible;
use std::alloc::AllocError;
use std::fmt::Write;

// Returns whether a character is a control, an invisible letter, one without width, one that changes
// the direction of others or how the one before is drawn, or a tag.
fn is_unseen(c: char) -> bool {
    matches!(
        c,
        '\u{0}'..='\u{1f}'
            | '\u{7f}'..='\u{9f}'
            | '\u{ad}'
            | '\u{34f}'
            | '\u{61c}'
            | '\u{115f}'..='\u{1160}'
            | '\u{17b4}'..='\u{17b5}'
            | '\u{180b}'..='\u{180f}'
            | '\u{200b}'..='\u{200f}'
            | '\u{2028}'..='\u{202e}'
            | '\u{2060}'..='\u{206f}'
            | '\u{3164}'
            | '\u{fe00}'..='\u{fe0f}'
            | '\u{feff}'
            | '\u{ffa0}'
            | '\u{fff9}'..='\u{fffb}'
            | '\u{1bca0}'..='\u{1bca3}'
            | '\u{1d173}'..='\u{1d17a}'
            | '\u{e0000}'..='\u{e0fff}'
    )
}

/// Adds a text, with `[U+202E]` and the like for characters that nobody sees.
pub fn push_seen(out: &mut String, text: &str) -> Fallible<()> {
    for c in text.chars() {
        if is_unseen(c) {
            write!(out, "[U+{:04X}]", c as u32)?;
        } else {
            out.push(c)?;
        }
    }
    Ok(())
}

fn entity_of(c: char) -> Option<&'static str>
    ensures { MatchOption result (is_safe c ≡ true) (λ text. list_all is_safe text.now ≡ true) }
{
    match c {
        '&' => Some("&amp;"),
        '<' => Some("&lt;"),
        '>' => Some("&gt;"),
        '"' => Some("&quot;"),
        '\'' => Some("&#39;"),
        _ => None,
    }
}

fn push_char(html: &mut String, c: char) -> Fallible<()>
    ensures { IsTextAfter (string_bytes html.old) (string_bytes html.new) }
{
    match entity_of(c) {
        Some(entity) => html.push_str(entity),
        None => html.push(c),
    }
}

/// Adds a text with `&`, `<`, `>`, `"` and `'` as entities.
pub fn push_escaped(html: &mut String, text: &str) -> Fallible<()>
    ensures { IsTextAfter (string_bytes html.old) (string_bytes html.new) }
{
    for c in text.chars() {
        push_char(html, c)?;
    }
    Ok(())
}

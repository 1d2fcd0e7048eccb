//! What fills the holes of a template. A template is a text with the mark `$` for each hole, or, in a
//! page, `@` for a hole that may be in the value of an attribute.
use crate::error::Fallible;
use crate::numbers::{duration, kilobytes};
use std::alloc::Global;
use std::fmt::Write;

/// What fills a hole.
#[derive(Clone, Copy)]
pub enum Item<'a> {
    /// A text.
    Text(&'a str),
    /// A text with blanks after it, up to a width.
    Left(&'a str, usize),
    /// A text with blanks before it, up to a width.
    Right(&'a str, usize),
    /// A number.
    Number(u64),
    /// Bytes, in kilobytes with one decimal.
    Size(u64),
    /// Seconds, in words.
    Time(u64),
    /// A number for a hole `@`.
    Value(u64),
    /// A word of this program for a hole `@`.
    Word(&'static str),
}

fn push_blanks(out: &mut String, text: &str, width: usize) -> Fallible<()> {
    for _ in text.len()..width {
        out.push(' ')?;
    }
    Ok(())
}

/// Adds an item.
pub fn push_item(alloc: Global, out: &mut String, item: Item<'_>) -> Fallible<()> {
    match item {
        Item::Text(text) => out.push_str(text),
        Item::Left(text, width) => {
            out.push_str(text)?;
            push_blanks(out, text, width)
        }
        Item::Right(text, width) => {
            push_blanks(out, text, width)?;
            out.push_str(text)
        }
        Item::Number(number) | Item::Value(number) => write!(out, "{number}"),
        Item::Size(bytes) => out.push_str(kilobytes(alloc, bytes)?.as_str()),
        Item::Time(seconds) => out.push_str(duration(alloc, seconds)?.as_str()),
        Item::Word(word) => out.push_str(word),
    }
}

/// Adds a template with items in its holes `$`.
pub fn fill(alloc: Global, out: &mut String, template: &str, items: &[Item<'_>]) -> Fallible<()> {
    let mut pieces = template.split('$');
    out.push_str(pieces.next().unwrap_or(""))?;
    for (item, piece) in items.iter().zip(pieces) {
        push_item(alloc, out, *item)?;
        out.push_str(piece)?;
    }
    Ok(())
}

/// Returns a template with items in its holes `$`.
pub fn filled(alloc: Global, template: &str, items: &[Item<'_>]) -> Fallible<String> {
    let mut out = String::new(alloc);
    fill(alloc, &mut out, template, items)?;
    Ok(out)
}

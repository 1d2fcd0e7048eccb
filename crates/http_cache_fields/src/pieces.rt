//! Splits field lines at their commas.
ghost use Rattle.std.specs.Prelude.{◌≡◌, [], ◌∷◌, MatchOption};
ghost use Rattle.std.specs.Iterator.{YieldsFirstRef, item_count};
ghost use Rattle.http_cache_fields.specs.Headers.{headers_of, bytes_of};
ghost use Rattle.http_cache_fields.specs.Pieces.{text_lines, pieces_of_line, pieces_of_rest, pieces_of_values};
ghost use Rattle.http_cache_fields.specs.Pieces.{pieces_under};

use crate::text::trim;
use http_header::{AsHeaderName, GetAll, HeaderMap, HeaderValue, ValueIter};
use std::iter::FusedIterator;
use std::marker::Model;

/// An iterator over the pieces between the commas of field lines, from `get_all_comma`.
#[derive(Debug, Drop)]
pub struct Commas<'a> {
    values: ValueIter<'a, HeaderValue>,
    // The unread rest of the current line.
    rest: Option<&'a str>,
}

impl<'a> Model for Commas<'a> {
    ghost use Rattle.std.specs.Prelude.{ℕ, List};
    ghost use Rattle.http_cache_fields.specs.Pieces.{pieces_left};

    ghost Value = { List (List ℕ) };

    ghost view = { λ c. pieces_left c.rest c.values };
}

/// Returns the trimmed pieces between the commas of each value that is text.
pub fn pieces_of<'a>(all: &GetAll<'a, HeaderValue>) -> Commas<'a>
    ensures { result ≡ pieces_of_values (bytes_of all.now) }
{
    Commas {
        values: all.iter(),
        rest: None,
    }
}

/// Returns the trimmed pieces between the commas of each value that is text.
pub fn get_all_comma<'a>(all: GetAll<'a, HeaderValue>) -> Commas<'a>
    ensures { result ≡ pieces_of_values (bytes_of all.entry) }
{
    pieces_of(&all)
}

/// Returns the pieces of the values under a name.
pub fn pieces_under<'a, K: AsHeaderName>(headers: &'a HeaderMap, name: K) -> Commas<'a>
    ensures { result ≡ pieces_under (headers_of headers.now) (K.name name) }
{
    get_all_comma(headers.get_all(name))
}

fn next_line<'a>(values: &mut ValueIter<'a, HeaderValue>) -> Option<&'a str>
    ensures { MatchOption result
        ((text_lines (bytes_of values.old) ≡ []) × (text_lines (bytes_of values.new) ≡ []))
        (λ line. text_lines (bytes_of values.old) ≡ line.now ∷ text_lines (bytes_of values.new)) }
{
    while let Some(value) = values.next() {
        if let Ok(line) = value.to_str() {
            return Some(line);
        }
    }
    None
}

fn cut_line(line: &str) -> (&str, Option<&str>)
    ensures { pieces_of_line line.now ≡ result.0.now ∷ pieces_of_rest result.1 }
{
    match line.split_once(',') {
        Some((piece, rest)) => (trim(piece), Some(rest)),
        None => (trim(line), None),
    }
}

impl<'a> Iterator for Commas<'a> {
    type Item = &'a str;

    ghost next_gives = { YieldsFirstRef (λ c. c) };

    ghost remaining = { item_count (λ c. c) };

    #[inline(always)]
    fn next(&mut self) -> Option<&'a str> {
        let line = match self.rest {
            Some(rest) => rest,
            None => next_line(&mut self.values)?,
        };
        let (piece, rest) = cut_line(line);
        self.rest = rest;
        Some(piece)
    }
}

impl<'a> FusedIterator for Commas<'a> {}

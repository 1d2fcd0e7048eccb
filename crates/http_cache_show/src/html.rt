//! A page of HTML that a reader of tags leaves between tags, whatever is added to it. A text is
//! escaped and only between tags, so no recording can add a tag, a style or a script.
ghost use Rattle.std.specs.Prelude.{◌≡◌, true, List, ℕ, [], OnOk, IfOk, string_bytes};
ghost use Rattle.http_cache_show.specs.Tags.{is_between_tags, state_after, between, mark_of, is_template};

use crate::error::Fallible;
use crate::escape::{push_escaped, push_seen};
use crate::item::{Item, push_item};
use std::alloc::Global;
use std::marker::Model;

/// A page of HTML. After an error it may be empty.
#[derive(Drop)]
pub struct Page {
    alloc: Global,
    html: String,
}

impl Model for Page {
    ghost Value = { List ℕ };

    ghost view = { λ p. string_bytes p.html };

    ghost invariant = { λ p. is_between_tags (string_bytes p.html) };
}

// Returns an item as a text that isn't escaped yet.
fn text_of(alloc: Global, item: Item<'_>) -> Fallible<String> {
    let mut out = String::new(alloc);
    match item {
        Item::Text(text) => push_seen(&mut out, text)?,
        item => push_item(alloc, &mut out, item)?,
    }
    Ok(out)
}

// Returns the mark of the hole for an item.
fn mark_of(item: Item<'_>) -> char
    ensures { result ≡ mark_of item.entry }
{
    match item {
        Item::Value(_) | Item::Word(_) => '@',
        Item::Text(_)
        | Item::Left(..)
        | Item::Right(..)
        | Item::Number(_)
        | Item::Size(_)
        | Item::Time(_) => '$',
    }
}

// Adds a template up to the next hole for an item, and the item. Returns what is after the hole.
fn push_next<'a>(
    alloc: Global,
    html: &mut String,
    template: &'a str,
    item: Item<'_>,
) -> Fallible<&'a str>
    ensures { IfOk result (λ rest.
        is_template (state_after between (string_bytes html.old)) template.now ≡ true
        → is_template (state_after between (string_bytes html.new)) rest.now ≡ true) }
{
    let Some((piece, rest)) = template.split_once(mark_of(item)) else {
        return Ok(template);
    };
    html.push_str(piece)?;
    let text = text_of(alloc, item)?;
    push_escaped(html, text.as_str())?;
    Ok(rest)
}

fn push_filled(alloc: Global, html: &mut String, template: &str, items: &[Item<'_>]) -> Fallible<()>
    requires { is_template (state_after between (string_bytes html.old)) template.now ≡ true }
    ensures { OnOk result (is_between_tags (string_bytes html.new)) }
{
    let mut rest = template;
    for item in items {
        rest = push_next(alloc, html, rest, *item)?;
    }
    html.push_str(rest)
}

impl Page {
    /// Returns an empty page.
    pub fn new(alloc: Global) -> Page
        ensures { result ≡ [] }
    {
        Page {
            alloc,
            html: String::new(alloc),
        }
    }

    /// Returns the allocator of the page.
    pub fn alloc(&self) -> Global {
        self.alloc
    }

    /// Adds tags.
    pub fn tag(&mut self, tags: &'static str) -> Fallible<()>
        requires { is_between_tags tags.now }
    {
        self.html.push_str(tags)
    }

    /// Adds a template with items in its holes.
    pub fn fill(&mut self, template: &'static str, items: &[Item<'_>]) -> Fallible<()>
        requires { is_template between template.now ≡ true }
    {
        let added = push_filled(self.alloc, &mut self.html, template, items);
        if added.is_err() {
            self.html.clear();
        }
        added
    }

    /// Adds a template with an amount of bytes in its hole, unless that is 0.
    pub fn fill_size(&mut self, template: &'static str, bytes: u64) -> Fallible<()>
        requires { is_template between template.now ≡ true }
    {
        if bytes == 0 {
            return Ok(());
        }
        self.fill(template, &[Item::Size(bytes)])
    }

    /// Returns the text of the page.
    pub fn into_text(self) -> String
        ensures { is_between_tags (string_bytes result) }
    {
        self.html
    }
}

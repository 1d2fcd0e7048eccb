//! Reads directives without copying them.
ghost use Rattle.std.specs.Prelude.{◌≡◌, ◌<◌, [], false, length, codes, bytes_eq, option_copied, option_map};
ghost use Rattle.std.specs.Prelude.{IfOk};
ghost use Rattle.http_header.specs.Token.{lowercase};
ghost use Rattle.http_cache_fields.specs.Headers.{headers_of, bytes_of};
ghost use Rattle.http_cache_fields.specs.Pieces.{pieces_of_values};
ghost use Rattle.http_cache_fields.specs.Directives.{directives, cache_control, value_under, has, with_conflict};
ghost use Rattle.http_cache_fields.specs.Readable.{IsDirective, AreDirectives};
ghost use Rattle.http_cache_fields.specs.Shown.{sent_entries};
ghost use Rattle.http_cache_fields.specs.Reading.{sent_directives, with_first, says_another, IsFirst};

use crate::directives::split_piece;
use crate::keys::keys_of;
use crate::names::{Name, is_same_name};
use crate::pieces::{pieces_of, pieces_under};
use crate::text::unquote;
use http_header::{CACHE_CONTROL, GetAll, HeaderMap, HeaderValue};
use indexmap::IndexMap;
use indexmap::map::{Entry, Slice};
use std::alloc::{AllocError, Global};
use std::hash::RandomState;
use std::marker::Model;

/// The value of the first directive of a name, if there is one.
pub type Said<'a> = Option<Option<&'a str>>;

type Table<'a> = IndexMap<Name<'a>, Option<&'a str>, RandomState>;

/// The first directive of each name, borrowed from field lines as received (RFC 7234, section 5.2).
///
/// Each takes one look-up, whichever names a sender chooses. The lines are hashed for the key of
/// the table when the first directive is added, so lines without directives cost nothing.
#[derive(Drop)]
pub struct FirstDirectives<'a> {
    alloc: Global,
    lines: GetAll<'a, HeaderValue>,
    // Few responses need one.
    table: Option<Box<Table<'a>>>,
}

impl<'a> Model for FirstDirectives<'a> {
    ghost use Rattle.std.specs.Prelude.{List};
    ghost use Rattle.http_cache_fields.specs.Directives.{Directive};
    ghost use Rattle.http_cache_fields.specs.Readable.{AreDirectives};
    ghost use Rattle.http_cache_fields.specs.Reading.{sent_directives};

    ghost Value = { List Directive };

    ghost view = { λ f. sent_directives f.table };

    ghost invariant = { λ f. AreDirectives (sent_directives f.table) };
}

fn table_or_new<'a>(
    alloc: Global,
    lines: &GetAll<'_, HeaderValue>,
    table: Option<Box<Table<'a>>>,
) -> Result<Box<Table<'a>>, AllocError>
    ensures { IfOk result (λ same. sent_entries same.value.entries ≡ sent_directives table.entry) }
{
    match table {
        Some(table) => Ok(table),
        None => Ok(Box::new(alloc, IndexMap::with_hasher(alloc, keys_of(lines)?))?),
    }
}

// The value that the name has, or `None` once the directive is added.
fn earlier_or_add<'a>(
    table: &mut Table<'a>,
    name: &'a str,
    value: Option<&'a str>,
) -> Result<Said<'a>, AllocError>
    ensures { IfOk result (λ earlier. IsFirst table.old
        (lowercase name.now, option_copied value.entry) (option_map option_copied earlier) table.new) }
{
    match table.entry(Name(name))? {
        Entry::Occupied(entry) => Ok(Some(*entry.into_mut())),
        Entry::Vacant(entry) => {
            entry.insert(value);
            Ok(None)
        }
    }
}

impl<'a> FirstDirectives<'a> {
    fn new(alloc: Global, lines: GetAll<'a, HeaderValue>) -> FirstDirectives<'a>
        ensures { result ≡ [] }
    {
        FirstDirectives {
            alloc,
            lines,
            table: None,
        }
    }

    /// Returns the directives in order.
    pub(crate) fn entries(&self) -> Slice<'_, Name<'a>, Option<&'a str>>
        ensures shown { sent_entries result ≡ self.now }
        ensures valid { AreDirectives self.now }
    {
        let Some(table) = &self.table else {
            return Slice::new();
        };
        table.as_slice()
    }

    /// Returns the keys of a table of the directives.
    pub(crate) fn keys(&self) -> Result<RandomState, AllocError> {
        match &self.table {
            Some(table) => Ok(*table.hasher()),
            None => keys_of(&self.lines),
        }
    }

    // The value that the name has, or `None` once the directive is added.
    fn with(
        self,
        name: &'a str,
        value: Option<&'a str>,
    ) -> Result<(FirstDirectives<'a>, Said<'a>), AllocError>
        requires { IsDirective (lowercase name.now, option_copied value) }
        ensures earlier { IfOk result (λ more. option_map option_copied more.1
            ≡ value_under self.entry (lowercase name.now)) }
        ensures first { IfOk result (λ more. more.0
            ≡ with_first self.entry (lowercase name.now, option_copied value.entry)) }
    {
        let FirstDirectives {
            alloc,
            lines,
            table,
        } = self;
        let mut table = table_or_new(alloc, &lines, table)?;
        let earlier = earlier_or_add(&mut *table, name, value)?;
        let table = Some(table);
        Ok((
            FirstDirectives {
                alloc,
                lines,
                table,
            },
            earlier,
        ))
    }
}

/// The directives of field lines, as read.
#[derive(Drop)]
pub struct ReadDirectives<'a> {
    /// The first directive of each name.
    pub first: FirstDirectives<'a>,
    /// Whether a name was repeated with another value.
    pub conflict: bool,
}

impl<'a> ReadDirectives<'a> {
    ghost use Rattle.http_cache_fields.specs.ReadMore.{nothing_read, read_more, IsDirectiveIfNamed};

    /// Returns no directives, before any of the lines is read.
    pub fn new(alloc: Global, lines: GetAll<'a, HeaderValue>) -> ReadDirectives<'a>
        ensures { result ≡ nothing_read }
    {
        ReadDirectives {
            first: FirstDirectives::new(alloc, lines),
            conflict: false,
        }
    }

    /// Adds a directive by its name and value as received. One without a name doesn't count.
    pub fn with(
        self,
        name: &'a str,
        value: Option<&'a str>,
    ) -> Result<ReadDirectives<'a>, AllocError>
        requires { IsDirectiveIfNamed (lowercase name.now) (option_copied value) }
        ensures { IfOk result (λ more. more
            ≡ read_more self.entry (lowercase name.now) (option_copied value.entry)) }
    {
        let ReadDirectives { first, conflict } = self;
        if name.is_empty() {
            return Ok(ReadDirectives { first, conflict });
        }
        let (first, earlier) = first.with(name, value.map(unquote))?;
        let conflict = conflict || says_another(earlier, value);
        Ok(ReadDirectives { first, conflict })
    }
}

/// Returns whether an earlier directive of the name has another value than the one received.
pub fn says_another(earlier: Said<'_>, value: Option<&str>) -> bool
    ensures { result
        ≡ says_another (option_map option_copied earlier.entry) (option_copied value.entry) }
{
    match earlier {
        Some(first) => first != value,
        None => false,
    }
}

/// Returns the directives of pieces.
pub fn read<'a>(
    alloc: Global,
    all: GetAll<'a, HeaderValue>,
) -> Result<ReadDirectives<'a>, AllocError>
    ensures { IfOk result (λ read. with_conflict read.conflict read.first
        ≡ directives (pieces_of_values (bytes_of all.entry))) }
{
    let pieces = pieces_of(&all);
    let mut read = ReadDirectives::new(alloc, all);
    for piece in pieces {
        let (name, value) = split_piece(piece);
        read = read.with(name, value)?;
    }
    Ok(read)
}

/// Returns the directives of the Cache-Control lines of a map.
pub fn read_cache_control(
    alloc: Global,
    headers: &HeaderMap,
) -> Result<ReadDirectives<'_>, AllocError>
    ensures { IfOk result (λ read. with_conflict read.conflict read.first
        ≡ cache_control (headers_of headers.now)) }
{
    read(alloc, headers.get_all(CACHE_CONTROL))
}

/// Returns whether Cache-Control has the directive, in any case.
///
/// The name isn't must-revalidate, which a conflict sets too.
#[inline(always)]
pub fn says(headers: &HeaderMap, name: &str) -> bool
    requires named { 0 < length name.now }
    requires unset { bytes_eq (lowercase name.now) (codes "must-revalidate") ≡ false }
    ensures { result ≡ has (cache_control (headers_of headers.now)) (lowercase name.now) }
{
    pieces_under(headers, CACHE_CONTROL).any(|piece| is_same_name(name, split_piece(piece).0))
}

//! Reads Cache-Control once. Each directive of the rules has an index, so most responses need no
//! table.
ghost use Rattle.std.specs.Prelude.{◌≡◌, Some, codes, bytes_eq, option_copied, option_map, IfOk};
ghost use Rattle.std.specs.List.{position};
ghost use Rattle.http_header.specs.Token.{lowercase};
ghost use Rattle.http_cache_fields.specs.Headers.{headers_of};
ghost use Rattle.http_cache_fields.specs.Pieces.{pieces_under};
ghost use Rattle.http_cache_rules.specs.KnownDirectives.{asked_names, said_first, AreKnownDirectives};

use http_cache_fields::directives::split_piece;
use http_cache_fields::names::is_same_name;
use http_cache_fields::pieces::pieces_of;
use http_cache_fields::reading::{ReadDirectives, Said, says_another};
use http_cache_fields::text::unquote;
use http_header::{CACHE_CONTROL, HeaderMap};
use std::alloc::{AllocError, Global};

/// A directive of a response that the rules ask for.
#[derive(Clone, Copy)]
pub enum Asked {
    /// `no-store`.
    NoStore,
    /// `no-cache`.
    NoCache,
    /// `private`.
    Private,
    /// `public`.
    Public,
    /// `must-revalidate`.
    MustRevalidate,
    /// `proxy-revalidate`.
    ProxyRevalidate,
    /// `immutable`.
    Immutable,
    /// `s-maxage`.
    SMaxage,
    /// `max-age`.
    MaxAge,
    /// `stale-while-revalidate`.
    StaleWhileRevalidate,
    /// `stale-if-error`.
    StaleIfError,
}

/// The number of directives that the rules ask for.
pub const ASKED: usize = Asked::StaleIfError as usize + 1;

// In the order of `Asked`.
const NAMES: [&str; ASKED] = [
    "no-store",
    "no-cache",
    "private",
    "public",
    "must-revalidate",
    "proxy-revalidate",
    "immutable",
    "s-maxage",
    "max-age",
    "stale-while-revalidate",
    "stale-if-error",
];

fn index_of(name: &str) -> Option<usize>
    ensures { result ≡ position (bytes_eq (lowercase name.now)) asked_names }
{
    NAMES.iter().position(|asked| is_same_name(name, asked))
}

fn said_first<'a>(said: Said<'a>, value: Option<&'a str>) -> Option<&'a str>
    ensures { option_copied result
        ≡ said_first (option_map option_copied said.entry) (option_copied value.entry) }
{
    match said {
        Some(first) => first,
        None => value.map(unquote),
    }
}

/// Returns the directives of the rules in Cache-Control, in the order of `Asked`, and whether there
/// is a conflict.
///
/// A conflict is a name that is repeated with another value.
pub fn read_known(
    alloc: Global,
    headers: &HeaderMap,
) -> Result<([Said<'_>; ASKED], bool), AllocError>
    ensures { IfOk result (λ known.
        AreKnownDirectives
        (pieces_under (headers_of headers.now) (codes "cache-control")) known.0 known.1) }
{
    let mut asked = [None; ASKED];
    let lines = headers.get_all(CACHE_CONTROL);
    let pieces = pieces_of(&lines);
    let mut others = ReadDirectives::new(alloc, lines);
    for piece in pieces {
        let (name, value) = split_piece(piece);
        match index_of(name) {
            Some(index) => {
                let said = asked[index];
                others.conflict = others.conflict || says_another(said, value);
                asked[index] = Some(said_first(said, value));
            }
            None => others = others.with(name, value)?,
        }
    }
    Ok((asked, others.conflict))
}

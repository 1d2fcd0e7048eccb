//! Finds the source of a stored response's lifetime, as it was written.
ghost use Rattle.std.specs.Prelude.{◌≡◌, option_copied, option_map, string_bytes, IfOk};
ghost use Rattle.http_header.specs.Token.{lowercase};
ghost use Rattle.http_cache_fields.specs.Headers.{headers_of};
ghost use Rattle.http_cache_walk.specs.Row.{lifetime_seen, kept_seen};
ghost use Rattle.http_cache_walk.specs.Lifetime.{cache_pieces, is_named, first_named};
ghost use Rattle.http_cache_walk.specs.Lifetime.{is_readable, by_seconds, by_unreadable_expires};
ghost use Rattle.http_cache_walk.specs.Lifetime.{source_of, lifetime_of, kept_of};

use crate::row::{Kept, Lifetime};
use http::HeaderMap;
use http::header::{CACHE_CONTROL, EXPIRES, LAST_MODIFIED};
use http_cache_fields::directives::split_piece;
use http_cache_fields::headers::first_text;
use http_cache_fields::names::is_same_name;
use http_cache_fields::pieces::pieces_under;
use http_cache_fields::reading::says;
use http_cache_fields::text::{number, unquote};
use http_cache_semantics::CachePolicy;
use http_cache_semantics::explain::LifetimeSource;
use jiff::Timestamp;
use std::alloc::{AllocError, Global};

// Words for the source, and its text.
type Source<'a> = (&'static str, Option<&'a str>);

/// Returns whether a piece of Cache-Control has a directive with a name, which is in lower case.
pub fn is_named(name: &str, piece: &str) -> bool
    ensures { lowercase name.now ≡ name.now → result ≡ is_named name.now piece.now }
{
    is_same_name(split_piece(piece).0, name)
}

/// Returns the first piece of Cache-Control whose directive has a name, which is in lower case.
pub fn first_named<'a>(headers: &'a HeaderMap, name: &str) -> Option<&'a str>
    ensures { lowercase name.now ≡ name.now
        → option_copied result ≡ first_named (headers_of headers.now) name.now }
{
    pieces_under(headers, CACHE_CONTROL).find(|piece| is_named(name, piece))
}

fn is_readable(piece: &str) -> bool
    ensures { result ≡ is_readable piece.now }
{
    match split_piece(piece).1 {
        Some(value) => number(unquote(value)).is_some(),
        None => false,
    }
}

fn by_seconds<'a>(
    piece: Option<&'a str>,
    name: &'static str,
    unreadable: &'static str,
) -> Source<'a>
    ensures { (result.0.now, option_copied result.1)
        ≡ by_seconds (option_copied piece.entry) name.now unreadable.now }
{
    match piece {
        Some(text) => (if is_readable(text) { name } else { unreadable }, piece),
        None => (name, None),
    }
}

// `0` and `-1` mean the past.
fn by_unreadable_expires(text: Option<&str>) -> Source<'_>
    ensures { (result.0.now, option_copied result.1)
        ≡ by_unreadable_expires (option_copied text.entry) }
{
    match text {
        Some("0" | "-1") => ("expires past", text),
        _ => ("expires unreadable", text),
    }
}

#[tactic(auto, unfolding(crate::specs::Lifetime::source_of))]
fn source_of(headers: &HeaderMap, source: LifetimeSource) -> Source<'_>
    ensures { (result.0.now, option_copied result.1) ≡ source_of (headers_of headers.now) source }
{
    match source {
        LifetimeSource::SMaxage => {
            by_seconds(
                first_named(headers, "s-maxage"),
                "s-maxage",
                "s-maxage unreadable",
            )
        }
        LifetimeSource::MaxAge => {
            by_seconds(
                first_named(headers, "max-age"),
                "max-age",
                "max-age unreadable",
            )
        }
        LifetimeSource::UnreadableExpires => by_unreadable_expires(first_text(headers, EXPIRES)),
        LifetimeSource::PastExpires => ("expires past", first_text(headers, EXPIRES)),
        LifetimeSource::Expires => ("expires", first_text(headers, EXPIRES)),
        LifetimeSource::LastModified => ("last-modified", first_text(headers, LAST_MODIFIED)),
        LifetimeSource::NoCache => {
            (
                if says(headers, "no-cache") {
                    "no-cache"
                } else {
                    "pragma"
                },
                None,
            )
        }
        LifetimeSource::NotStorable => ("not storable", None),
        LifetimeSource::OwnCookies => ("set-cookie", None),
        LifetimeSource::VaryAny => ("vary *", None),
        LifetimeSource::ProxyRevalidate => ("proxy-revalidate", None),
        LifetimeSource::Immutable => ("immutable", None),
        LifetimeSource::Nothing => ("none given", None),
    }
}

fn copied(alloc: Global, text: Option<&str>) -> Result<Option<String>, AllocError>
    ensures { IfOk result (λ copy. option_map string_bytes copy ≡ option_copied text.entry) }
{
    match text {
        Some(text) => Ok(Some(String::from_str(alloc, text)?)),
        None => Ok(None),
    }
}

/// Returns the lifetime of a stored response and its source.
#[tactic(auto, unfolding(crate::specs::Lifetime::lifetime_of))]
pub(crate) fn lifetime_of(alloc: Global, policy: &CachePolicy) -> Result<Lifetime, AllocError>
    ensures { IfOk result (λ lifetime. lifetime_seen lifetime ≡ lifetime_of policy.now) }
{
    let freshness = policy.freshness();
    let (by, text) = source_of(policy.stored_headers(), freshness.source);
    Ok(Lifetime {
        seconds: freshness.lifetime.as_secs(),
        by,
        source: copied(alloc, text)?,
    })
}

/// Returns the lifetime of a response that is received at a time, and the rest of it.
pub(crate) fn kept_of(
    alloc: Global,
    policy: &CachePolicy,
    received: Timestamp,
) -> Result<Kept, AllocError>
    ensures { IfOk result (λ kept. kept_seen kept ≡ kept_of policy.now received.nanosecond) }
{
    Ok(Kept {
        lifetime: lifetime_of(alloc, policy)?,
        time_to_live: policy.time_to_live(received).as_secs(),
    })
}

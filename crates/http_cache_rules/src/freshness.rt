//! What decides a freshness lifetime, and its text. Adding a source changes `lifetime` too.
ghost use Rattle.std.specs.Prelude.{◌≡◌};
ghost use Rattle.http_cache_rules.specs.DisplayText.{source_words};

use std::fmt;
use std::time::Duration;

/// The rule that decides a freshness lifetime: the first that applies (RFC 7234, section 4.2.1).
#[derive(Clone, Copy, Debug, PartialEq, Eq)]
pub enum LifetimeSource {
    /// The response may not be stored, so the lifetime is zero (RFC 7234, section 3).
    NotStorable,
    /// `no-cache` makes the lifetime zero (RFC 7234, section 5.2.2.2).
    NoCache,
    /// The response sets cookies, and is neither `public` nor `immutable`: zero in a shared cache.
    OwnCookies,
    /// The first Vary is `*`: zero (RFC 7234, section 4.1).
    VaryAny,
    /// `proxy-revalidate` makes the lifetime zero in a shared cache (RFC 7234, section 5.2.2.7).
    ProxyRevalidate,
    /// `s-maxage`, in a shared cache (RFC 7234, section 5.2.2.9).
    SMaxage,
    /// `max-age` (RFC 7234, section 5.2.2.8).
    MaxAge,
    /// An Expires that is no date: zero (RFC 7234, section 5.3).
    UnreadableExpires,
    /// An Expires that isn't after Date: zero.
    PastExpires,
    /// Expires less Date (RFC 7234, section 5.3).
    Expires,
    /// A part of the time since Last-Modified (RFC 7234, section 4.2.2).
    LastModified,
    /// The least lifetime of an `immutable` response, if Expires or Last-Modified yields less or is
    /// missing (RFC 8246, section 2).
    Immutable,
    /// Nothing says how long: zero.
    Nothing,
}

impl LifetimeSource {
    fn words(self) -> &'static str
        ensures { result.now ≡ source_words self }
    {
        match self {
            LifetimeSource::NotStorable => "not storable",
            LifetimeSource::NoCache => "no-cache",
            LifetimeSource::OwnCookies => "Set-Cookie in a shared cache",
            LifetimeSource::VaryAny => "Vary: *",
            LifetimeSource::ProxyRevalidate => "proxy-revalidate",
            LifetimeSource::SMaxage => "s-maxage",
            LifetimeSource::MaxAge => "max-age",
            LifetimeSource::UnreadableExpires => "Expires is no date",
            LifetimeSource::PastExpires => "Expires isn't after Date",
            LifetimeSource::Expires => "Expires",
            LifetimeSource::LastModified => "Last-Modified",
            LifetimeSource::Immutable => "immutable",
            LifetimeSource::Nothing => "nothing says how long",
        }
    }
}

/// A freshness lifetime and its source. Its text has whole seconds, unless its source always means
/// zero.
#[derive(Clone, Copy, Debug, PartialEq, Eq)]
pub struct Freshness {
    /// The rule that decides the lifetime.
    pub source: LifetimeSource,
    /// The whole lifetime, counted from when the origin server made the response.
    pub lifetime: Duration,
}

impl fmt::Display for Freshness {
    ghost use Rattle.std.specs.Prelude.{Some};
    ghost use Rattle.http_cache_rules.specs.Freshness.{freshness_seen};
    ghost use Rattle.http_cache_rules.specs.DisplayText.{freshness_text};

    ghost output = { λ freshness. Some (freshness_text (freshness_seen freshness)) };

    fn fmt<W: fmt::Write>(&self, f: &mut fmt::Formatter<W>) -> fmt::Result {
        let words = self.source.words();
        let seconds = self.lifetime.as_secs();
        match self.source {
            LifetimeSource::SMaxage | LifetimeSource::MaxAge => write!(f, "{words}={seconds}"),
            LifetimeSource::PastExpires
            | LifetimeSource::Expires
            | LifetimeSource::LastModified
            | LifetimeSource::Immutable => write!(f, "{words}, {seconds} s"),
            _ => write!(f, "{words}"),
        }
    }
}

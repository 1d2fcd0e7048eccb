//! Reads the directives of a stored response that the rules use.
ghost use Rattle.std.specs.Prelude.{◌≡◌, ℕ, List, option_map, option_copied, IfOk};
ghost use Rattle.http_cache_fields.specs.Headers.{headers_of};
ghost use Rattle.http_cache_fields.specs.Directives.{directives, cache_control};
ghost use Rattle.http_cache_fields.specs.Pragma.{with_no_cache, with_pragma};
ghost use Rattle.http_cache_rules.specs.DeltaSeconds.{said_by_value};
ghost use Rattle.http_cache_rules.specs.StoredDirectives.{stored_directives_of};
ghost use Rattle.http_cache_rules.specs.KnownDirectives.{AreKnownDirectives};

use crate::delta_seconds::DeltaSeconds;
use crate::known_directives::{ASKED, Asked, read_known};
use http_cache_fields::pragma::pragma_stands_in;
use http_cache_fields::reading::Said;
use http_header::HeaderMap;
use std::alloc::{AllocError, Global};

/// The directives that storability, the lifetime and the use of a stale response depend on.
#[derive(Clone, Copy, Debug)]
pub struct StoredDirectives {
    /// Whether `no-store` is present.
    pub no_store: bool,
    /// Whether `no-cache` is present.
    pub no_cache: bool,
    /// Whether `private` is present.
    pub private: bool,
    /// Whether `public` is present.
    pub public: bool,
    /// Whether `must-revalidate` is present.
    pub must_revalidate: bool,
    /// Whether `proxy-revalidate` is present.
    pub proxy_revalidate: bool,
    /// Whether `immutable` is present.
    pub immutable: bool,
    /// The value of `s-maxage`.
    pub s_maxage: DeltaSeconds,
    /// The value of `max-age`.
    pub max_age: DeltaSeconds,
    /// The value of `stale-while-revalidate` (RFC 5861, section 3).
    pub stale_while_revalidate: DeltaSeconds,
    /// The value of `stale-if-error` (RFC 5861, section 4).
    pub stale_if_error: DeltaSeconds,
}

fn delta_seconds(said: Said<'_>) -> DeltaSeconds
    ensures { result ≡ said_by_value (option_map option_copied said.entry) }
{
    match said {
        Some(value) => DeltaSeconds::of_value(value),
        None => DeltaSeconds::Absent,
    }
}

fn found_in(asked: [Said<'_>; ASKED], conflict: bool, no_cache: bool) -> StoredDirectives
    ensures { (pieces : List (List ℕ)) → AreKnownDirectives pieces asked.entry conflict
        → result ≡ stored_directives_of (with_no_cache no_cache (directives pieces)) }
{
    StoredDirectives {
        no_store: asked[Asked::NoStore as usize].is_some(),
        no_cache: no_cache || asked[Asked::NoCache as usize].is_some(),
        private: asked[Asked::Private as usize].is_some(),
        public: asked[Asked::Public as usize].is_some(),
        must_revalidate: conflict || asked[Asked::MustRevalidate as usize].is_some(),
        proxy_revalidate: asked[Asked::ProxyRevalidate as usize].is_some(),
        immutable: asked[Asked::Immutable as usize].is_some(),
        s_maxage: delta_seconds(asked[Asked::SMaxage as usize]),
        max_age: delta_seconds(asked[Asked::MaxAge as usize]),
        stale_while_revalidate: delta_seconds(asked[Asked::StaleWhileRevalidate as usize]),
        stale_if_error: delta_seconds(asked[Asked::StaleIfError as usize]),
    }
}

impl StoredDirectives {
    /// Returns the directives of a response. Pragma counts if there is no Cache-Control (RFC 7234,
    /// section 5.4).
    #[tactic(auto, unfolding(http_cache_fields::specs::Pragma::with_pragma))]
    pub fn of(alloc: Global, res: &HeaderMap) -> Result<StoredDirectives, AllocError>
        ensures { IfOk result (λ found. found ≡ stored_directives_of
            (with_pragma (headers_of res.now) (cache_control (headers_of res.now)))) }
    {
        let (asked, conflict) = read_known(alloc, res)?;
        Ok(found_in(asked, conflict, pragma_stands_in(res)))
    }
}

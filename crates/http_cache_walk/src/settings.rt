//! How a recording is audited, and whether its export was sanitized.
ghost use Rattle.std.specs.Prelude.{◌≡◌, map};
ghost use Rattle.http_cache_recording.specs.Entry.{reading_seen, recorded_seen};
ghost use Rattle.http_cache_walk.specs.Settings.{has_credentials, any_credentials};

use http::Uri;
use http::header::{AUTHORIZATION, COOKIE, SET_COOKIE};
use http_cache_fields::headers::contains_key;
use http_cache_recording::{Answer, Reading, Recorded};
use http_cache_semantics::CacheOptions;
use std::alloc::{AllocError, Global};

/// How a recording is audited.
#[derive(Clone, Copy, Debug)]
pub struct Settings {
    /// The options of the cache that is asked.
    pub options: CacheOptions,
    /// Whether requests are read without their `no-cache`.
    pub ignores_no_cache: bool,
    /// Whether queries of urls are left out.
    pub hides_queries: bool,
}

// A sanitized export leaves these headers out.
#[tactic(auto, unfolding(crate::specs::Settings::has_credentials))]
fn has_credentials(recorded: &Recorded) -> bool
    ensures { result ≡ has_credentials (reading_seen recorded.now.reading) }
{
    let Reading::Entry(entry) = &recorded.reading else {
        return false;
    };
    contains_key(&entry.headers, COOKIE)
        || contains_key(&entry.headers, AUTHORIZATION)
        || match &entry.answer {
            Answer::Failed => false,
            Answer::Cached(response) | Answer::Received(response) => {
                contains_key(&response.headers, SET_COOKIE)
            }
        }
}

/// Returns whether an entry has a header that a sanitized export leaves out.
pub fn any_credentials(recorded: &[Recorded]) -> bool
    ensures { result ≡ any_credentials (map recorded_seen recorded.now) }
{
    recorded.iter().any(|one| has_credentials(one))
}

/// Returns the target to use if there is no entry.
pub fn no_target(alloc: Global) -> Result<Uri, AllocError> {
    match Uri::from_str(alloc, "/") {
        Ok(target) => Ok(target),
        Err(_) => Err(AllocError),
    }
}

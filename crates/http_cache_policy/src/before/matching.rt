//! Decides which requests a stored response matches (RFC 7234, sections 4 and 4.1).
ghost use Rattle.std.specs.Prelude.{◌≡◌, true};
ghost use Rattle.http_cache_fields.specs.Headers.{headers_of};
ghost use Rattle.http_cache_policy.specs.Match.{varied_values, vary_matches, request_matches, IsForStored};

use crate::policy::{CachePolicy, RequestLike};
use http::HeaderMap;
use http::header::{HOST, VARY};
use http_cache_fields::directives::get_all_comma;
use http_cache_fields::headers::{has_same_first, has_same_first_under};

impl CachePolicy {
    /// Returns whether the stored response answers a request, once it is fresh or validated.
    ///
    /// The target, the method, Host and the fields that Vary names have to match (RFC 7234,
    /// sections 4 and 4.1).
    #[tactic(auto, unfolding(crate::specs::Match::matches))]
    pub fn matches_request<Req: RequestLike>(&self, req: &Req) -> bool
        ensures value { result ≡ request_matches self.now (Req.seen req.now) }
        ensures for_stored { request_matches self.now (Req.seen req.now) ≡ true
            → IsForStored self.now (Req.seen req.now) }
    {
        req.is_same_uri(self.stored_target())
            && has_same_first(self.stored_request_headers(), req.headers(), &HOST)
            && self.vary_matches(req.headers())
            && *self.stored_method() == *req.method()
    }

    // RFC 7234, section 4.1.
    #[tactic(auto, unfolding(crate::specs::Match::vary_matches))]
    fn vary_matches(&self, headers: &HeaderMap) -> bool
        ensures { result ≡ vary_matches self.now (varied_values self.now (headers_of headers.now)) }
    {
        get_all_comma(self.stored_headers().get_all(VARY)).all(|name| {
            name != "*" && has_same_first_under(self.stored_request_headers(), headers, name)
        })
    }
}

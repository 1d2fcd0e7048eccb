//! Answers a request's own conditions (RFC 9110, section 13.2.2).
ghost use Rattle.std.specs.Prelude.{◌≡◌, true};
ghost use Rattle.http_cache_rules.specs.Conditions.{is_conditional};
ghost use Rattle.http_cache_policy.specs.NotModified.{is_not_modified_for};

use crate::policy::{CachePolicy, RequestLike};
use http::{Method, StatusCode};
use http_cache_rules::conditions::has_stored_already;

impl CachePolicy {
    /// Returns whether a 304 answers the request's own conditions.
    ///
    /// It can only be true for GET and HEAD, and a stored 200. If-None-Match is compared weakly. If
    /// there is none, If-Modified-Since is compared with the stored Last-Modified, with Date if that
    /// is missing, or with the time of receipt if both are (RFC 9110, sections 13.1.2, 13.1.3 and
    /// 13.2.2, and RFC 9111, section 4.3.2). Ask only if the response may be used or was validated:
    /// whether the request matches isn't checked.
    #[tactic(auto, unfolding(crate::specs::NotModified::is_not_modified_for))]
    pub fn is_not_modified_for<Req: RequestLike>(&self, req: &Req) -> bool
        ensures value { result ≡ is_not_modified_for self.now (Req.seen req.now) }
        ensures conditional { result ≡ true → is_conditional (Req.seen req.now).headers ≡ true }
        ensures stored_ok { result ≡ true → self.now.status ≡ 200 }
    {
        (*req.method() == Method::GET || *req.method() == Method::HEAD)
            && self.stored_status() == StatusCode::OK
            && has_stored_already(
                self.stored_headers(),
                self.stored_response_time(),
                req.headers(),
            )
    }
}

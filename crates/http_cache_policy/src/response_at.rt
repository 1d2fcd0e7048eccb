//! Makes a stored response to send, fresh or not.
ghost use Rattle.std.specs.Prelude.{◌≡◌, ◌⊎◌, ◌↔◌, IfOk, IfErr, OnOk, IsErrOf};
ghost use Rattle.http_cache_policy.specs.ResponseAt.{RefusesAge, IsResponseAt};

use crate::policy::CachePolicy;
use http::header::{AGE, HeaderValue};
use http::{Version, response};
use http_cache_fields::CacheError;
use http_cache_fields::headers::insert;
use http_cache_rules::forwarding::forwarded_headers;
use jiff::Timestamp;
use std::alloc::Global;

impl CachePolicy {
    /// Returns the stored response as it may be sent at `now`, fresh or not (RFC 9111, sections
    /// 4.2.4 and 5.1).
    ///
    /// It has the status and every line of every stored field, the origin's Date among them, and
    /// Age. Connection-specific fields and those that Connection lists are left out. Ask `fresh_at`
    /// whether it is fresh.
    ///
    /// # Errors
    ///
    /// `HeaderMapFull` if there is no room for Age, and `Memory`.
    #[tactic(auto, unfolding(crate::specs::ResponseAt::headers_at, crate::specs::ResponseAt::RefusesAge))]
    pub fn response_at(&self, alloc: Global, now: Timestamp) -> Result<response::Parts, CacheError>
        ensures value { IfOk result (IsResponseAt self.now now.nanosecond) }
        ensures room { OnOk result (¬ (RefusesAge self.now)) }
        ensures full { IsErrOf result CacheError.HeaderMapFull → RefusesAge self.now }
        ensures known { IfErr result (λ e.
            (e ≡ CacheError.HeaderMapFull) ⊎ (e ≡ CacheError.Memory)) }
    {
        let mut headers = forwarded_headers(self.stored_headers())?;
        let age = HeaderValue::from_u64(alloc, self.age(now).as_secs())?;
        insert(&mut headers, AGE, age)?;
        Ok(response::Parts {
            status: self.stored_status(),
            version: Version::HTTP_11,
            headers,
        })
    }
}

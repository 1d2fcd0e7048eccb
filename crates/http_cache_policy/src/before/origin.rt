//! Makes the request to the origin server (RFC 7234, section 4.3.1).
ghost use Rattle.std.specs.Prelude.{◌≡◌, ◌⊎◌, true, IfOk, IfErr, OnOk, IsErrOf};
ghost use Rattle.http_cache_fields.specs.Headers.{headers_of};
ghost use Rattle.http_cache_policy.specs.Stale.{without_conditions, with_stored_tag, with_stored_date};
ghost use Rattle.http_cache_policy.specs.Stale.{with_strong_alone, forbids_weak, with_validators, revalidation_headers};
ghost use Rattle.http_cache_policy.specs.Stale.{headers_for_origin, RefusesTag, RefusesDate, RefusesValidators};
ghost use Rattle.http_cache_policy.specs.Stale.{RefusesRevalidation, IsForOrigin};

use crate::policy::{CachePolicy, copy_of_target, request_with};
use http::header::{
    ACCEPT_RANGES, ETAG, IF_MATCH, IF_MODIFIED_SINCE, IF_NONE_MATCH, IF_RANGE, IF_UNMODIFIED_SINCE,
    LAST_MODIFIED,
};
use http::{HeaderMap, request};
use http_cache_fields::CacheError;
use http_cache_fields::headers::{
    contains_key, copy_of_map, first_text, insert, remove, replace_line, value_of,
};
use http_cache_fields::join::{join_with, join_without};
use http_cache_fields::pieces::pieces_under;
use http_cache_rules::filter::filter;
use std::alloc::{AllocError, Global};

// A stored response could meet these conditions.
fn take_out_conditions(headers: &mut HeaderMap)
    ensures { headers_of headers.new ≡ without_conditions (headers_of headers.old) }
{
    remove(headers, IF_NONE_MATCH);
    remove(headers, IF_MODIFIED_SINCE);
}

// No name is new.
fn leave_strong(alloc: Global, headers: &mut HeaderMap) -> Result<(), AllocError>
    ensures { OnOk result (headers_of headers.new ≡ with_strong_alone (headers_of headers.old)) }
{
    let tags = join_without(alloc, pieces_under(headers, IF_NONE_MATCH), "W/")?;
    remove(headers, IF_MODIFIED_SINCE);
    replace_line(headers, IF_NONE_MATCH, tags)
}

impl CachePolicy {
    fn add_tag(&self, alloc: Global, headers: &mut HeaderMap) -> Result<(), CacheError>
        ensures ok { OnOk result
            (headers_of headers.new ≡ with_stored_tag self.now (headers_of headers.old)) }
        ensures room { OnOk result (¬ (RefusesTag self.now (headers_of headers.old))) }
        ensures full { IsErrOf result CacheError.HeaderMapFull
            → RefusesTag self.now (headers_of headers.old) }
        ensures known { IfErr result (λ e.
            (e ≡ CacheError.HeaderMapFull) ⊎ (e ≡ CacheError.Memory)) }
    {
        let Some(tag) = first_text(self.stored_headers(), ETAG) else {
            return Ok(());
        };
        let line = join_with(alloc, pieces_under(headers, IF_NONE_MATCH), tag)?;
        insert(headers, IF_NONE_MATCH, value_of(line.into_bytes())?)
    }

    fn add_date(&self, alloc: Global, headers: &mut HeaderMap) -> Result<(), CacheError>
        ensures ok { OnOk result (headers_of headers.new
            ≡ with_stored_date self.now (headers_of headers.old)) }
        ensures room { OnOk result (¬ (RefusesDate self.now (headers_of headers.old))) }
        ensures full { IsErrOf result CacheError.HeaderMapFull
            → RefusesDate self.now (headers_of headers.old) }
        ensures known { IfErr result (λ e.
            (e ≡ CacheError.HeaderMapFull) ⊎ (e ≡ CacheError.Memory)) }
    {
        if contains_key(headers, IF_MODIFIED_SINCE) {
            return Ok(());
        }
        let Some(date) = first_text(self.stored_headers(), LAST_MODIFIED) else {
            return Ok(());
        };
        let value = value_of(Vec::from_slice(alloc, date.as_bytes())?)?;
        insert(headers, IF_MODIFIED_SINCE, value)
    }

    fn forbids_weak(&self, headers: &HeaderMap) -> bool
        ensures { result ≡ forbids_weak self.now (headers_of headers.now) }
    {
        self.stored_method().as_str() != "GET"
            || contains_key(headers, ACCEPT_RANGES)
            || contains_key(headers, IF_MATCH)
            || contains_key(headers, IF_UNMODIFIED_SINCE)
    }

    fn add_validators(&self, alloc: Global, headers: &mut HeaderMap) -> Result<(), CacheError>
        ensures ok { OnOk result
            (headers_of headers.new ≡ with_validators self.now (headers_of headers.old)) }
        ensures room { OnOk result (¬ (RefusesValidators self.now (headers_of headers.old))) }
        ensures full { IsErrOf result CacheError.HeaderMapFull
            → RefusesValidators self.now (headers_of headers.old) }
        ensures known { IfErr result (λ e.
            (e ≡ CacheError.HeaderMapFull) ⊎ (e ≡ CacheError.Memory)) }
    {
        self.add_tag(alloc, headers)?;
        if self.forbids_weak(headers) {
            return Ok(leave_strong(alloc, headers)?);
        }
        self.add_date(alloc, headers)
    }

    #[tactic(auto, unfolding(crate::specs::Stale::revalidation_headers, crate::specs::Stale::RefusesRevalidation))]
    fn revalidation_headers(
        &self,
        alloc: Global,
        incoming: &HeaderMap,
    ) -> Result<HeaderMap, CacheError>
        ensures ok { IfOk result (λ out.
            headers_of out ≡ revalidation_headers self.now (headers_of incoming.now)) }
        ensures room { IfOk result (λ _.
            ¬ (RefusesRevalidation self.now (headers_of incoming.now))) }
        ensures full { IsErrOf result CacheError.HeaderMapFull
            → RefusesRevalidation self.now (headers_of incoming.now) }
        ensures known { IfErr result (λ e.
            (e ≡ CacheError.HeaderMapFull) ⊎ (e ≡ CacheError.Memory)) }
    {
        let mut headers = filter(alloc, incoming)?;
        remove(&mut headers, IF_RANGE);
        if self.is_storable() {
            self.add_validators(alloc, &mut headers)?;
        } else {
            take_out_conditions(&mut headers);
        }
        Ok(headers)
    }

    fn headers_for_origin(
        &self,
        alloc: Global,
        incoming: &HeaderMap,
        validates: bool,
    ) -> Result<HeaderMap, CacheError>
        ensures ok { IfOk result (λ out.
            headers_of out ≡ headers_for_origin self.now validates (headers_of incoming.now)) }
        ensures room { IfOk result (λ _.
            validates ≡ true → ¬ (RefusesRevalidation self.now (headers_of incoming.now))) }
        ensures full { IsErrOf result CacheError.HeaderMapFull
            → (validates ≡ true) × RefusesRevalidation self.now (headers_of incoming.now) }
        ensures known { IfErr result (λ e.
            (e ≡ CacheError.HeaderMapFull) ⊎ (e ≡ CacheError.Memory)) }
    {
        if validates {
            self.revalidation_headers(alloc, incoming)
        } else {
            Ok(copy_of_map(incoming)?)
        }
    }

    /// Returns the request to the origin server.
    pub(crate) fn request_for_origin(
        &self,
        alloc: Global,
        incoming: &HeaderMap,
        validates: bool,
    ) -> Result<request::Parts, CacheError>
        ensures ok { IfOk result (IsForOrigin self.now validates (headers_of incoming.now)) }
        ensures full { IsErrOf result CacheError.HeaderMapFull
            → (validates ≡ true) × RefusesRevalidation self.now (headers_of incoming.now) }
        ensures known { IfErr result (λ e.
            (e ≡ CacheError.HeaderMapFull) ⊎ (e ≡ CacheError.Memory)) }
    {
        let uri = copy_of_target(self.stored_target())?;
        let headers = self.headers_for_origin(alloc, incoming, validates)?;
        let request = request_with(self.stored_method(), uri, headers)?;
        Ok(request)
    }
}

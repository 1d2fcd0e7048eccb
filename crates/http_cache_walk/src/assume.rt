//! Assumes headers of requests that aren't fully recorded, and compares such requests with stored
//! ones.
ghost use Rattle.std.specs.Prelude.{◌≡◌, option_map, IfOk, OnOk};
ghost use Rattle.http_cache_fields.specs.Headers.{headers_of, first};
ghost use Rattle.http_cache_rules.specs.Joined.{joined_headers};
ghost use Rattle.http_cache_recording.specs.Entry.{entry_seen};
ghost use Rattle.http_cache_walk.specs.Sources.{sources_seen, source_in};
ghost use Rattle.http_cache_walk.specs.Assume.{assumed_seen, without_assumptions};
ghost use Rattle.http_cache_walk.specs.Assume.{put_value, copied};
ghost use Rattle.http_cache_walk.specs.Assume.{varied_name, is_among};
ghost use Rattle.http_cache_walk.specs.Assume.{from_source, with_name, with_response};
ghost use Rattle.http_cache_walk.specs.Assume.{all_taken_over, compared};

use crate::sources::Sources;
use http::header::VARY;
use http::{HeaderMap, Method, Uri};
use http_cache_fields::headers::{contains_key, copy_of_map, insert, remove};
use http_cache_fields::pieces::pieces_under;
use http_cache_recording::{Entry, field_name, has_room};
use http_cache_rules::joined::joined_headers;
use http_cache_semantics::{CacheError, RequestLike};
use http_header::{HeaderName, HeaderValue};
use std::alloc::{AllocError, Global};

/// A request as a store is asked, with what is assumed of it.
#[derive(Drop)]
pub(crate) struct AssumedRequest<'a> {
    /// One target for all requests, since each list of stored responses has one.
    pub target: &'a Uri,
    /// The method.
    pub method: &'a Method,
    /// The headers, with the assumed ones.
    pub headers: HeaderMap,
    /// The names whose values are unknown.
    pub unknown: Vec<HeaderName>,
    /// All names of which something is assumed.
    pub assumed: Vec<HeaderName>,
}

impl RequestLike for AssumedRequest<'_> {
    ghost use Rattle.http_cache_walk.specs.Assume.{assumed_seen, request_of};

    ghost seen = { λ r. request_of (assumed_seen r) };

    fn uri(&self, _alloc: Global) -> Result<Uri, CacheError> {
        self.target.clone().map_err(|_| CacheError::Memory)
    }

    fn is_same_uri(&self, _other: &Uri) -> bool {
        true
    }

    fn method(&self) -> &Method {
        self.method
    }

    fn headers(&self) -> &HeaderMap {
        &self.headers
    }
}

/// Returns the first value under a name.
pub fn first_value<'a>(headers: &'a HeaderMap, name: &HeaderName) -> Option<&'a HeaderValue>
    ensures { option_map (λ v. v.now.bytes) result ≡ first (headers_of headers.now) name.now }
{
    headers.get(name)
}

/// Replaces the values under a name, if there is room.
pub fn put_value(
    to: &mut HeaderMap,
    name: &HeaderName,
    value: &HeaderValue,
) -> Result<(), AllocError>
    ensures { OnOk result (headers_of to.new
        ≡ put_value (headers_of to.old) name.now value.now.bytes) }
{
    if !has_room(to) {
        return Ok(());
    }
    match insert(to, name, value.clone()?) {
        Ok(()) => Ok(()),
        Err(CacheError::Memory) => Err(AllocError),
        Err(_) => unreachable!(),
    }
}

fn copy_value(to: &mut HeaderMap, from: &HeaderMap, name: &HeaderName) -> Result<(), AllocError>
    ensures { OnOk result (headers_of to.new
        ≡ copied (headers_of to.old) (headers_of from.now) name.now) }
{
    match first_value(from, name) {
        Some(value) => put_value(to, name, value),
        None => Ok(()),
    }
}

fn take_over(
    headers: &mut HeaderMap,
    stored: &HeaderMap,
    names: &[HeaderName],
) -> Result<(), AllocError>
    ensures { OnOk result (headers_of headers.new
        ≡ all_taken_over (headers_of stored.now) (headers_of headers.old) names.now) }
{
    for name in names {
        remove(headers, name);
        copy_value(headers, stored, name)?;
    }
    Ok(())
}

#[tactic(auto, unfolding(crate::specs::Assume::varied_name))]
fn varied_name(alloc: Global, piece: &str) -> Result<Option<HeaderName>, AllocError>
    ensures { IfOk result (λ name. name ≡ varied_name piece.now) }
{
    if piece == "*" {
        return Ok(None);
    }
    field_name(alloc, piece)
}

fn is_among(names: &[HeaderName], name: &HeaderName) -> bool
    ensures { result ≡ is_among names.now name.now }
{
    names.iter().any(|other| *other == *name)
}

impl<'a> AssumedRequest<'a> {
    /// Returns a request with these headers, one line for each name, of which nothing is assumed.
    pub(crate) fn new(
        alloc: Global,
        target: &'a Uri,
        method: &'a Method,
        headers: &HeaderMap,
    ) -> Result<AssumedRequest<'a>, AllocError>
        ensures { IfOk result (λ asked.
            assumed_seen asked
            ≡ without_assumptions target.now method.now (joined_headers (headers_of headers.now))) }
    {
        Ok(AssumedRequest {
            target,
            method,
            headers: joined_headers(alloc, headers)?,
            unknown: Vec::new(alloc),
            assumed: Vec::new(alloc),
        })
    }

    // Without a source the value is unknown.
    fn take_from(&mut self, source: Option<&Entry>, name: &HeaderName) -> Result<(), AllocError>
        ensures { OnOk result (assumed_seen self.new ≡ from_source (assumed_seen self.old) name.now
            (option_map (λ e. entry_seen e.now) source.entry)) }
    {
        match source {
            Some(entry) => {
                copy_value(&mut self.headers, &entry.headers, name)?;
                Ok(())
            }
            None => Ok(self.unknown.push(name.clone()?)?),
        }
    }

    // The headers lack the name: it gets a value, has none, or is unknown.
    #[tactic(auto, unfolding(crate::specs::Assume::with_name))]
    fn assume_name(
        &mut self,
        sources: &Sources<'_>,
        target: &str,
        name: HeaderName,
    ) -> Result<(), AllocError>
        ensures { OnOk result (assumed_seen self.new ≡ with_name
            (source_in (sources_seen sources.now) target.now) (assumed_seen self.old) name) }
    {
        if contains_key(&self.headers, &name) || is_among(self.assumed.as_slice(), &name) {
            return Ok(());
        }
        self.take_from(sources.of(target, name.as_str()), &name)?;
        Ok(self.assumed.push(name)?)
    }

    /// Assumes the fields that a response's Vary names.
    pub(crate) fn assume(
        &mut self,
        alloc: Global,
        sources: &Sources<'_>,
        target: &str,
        response: &HeaderMap,
    ) -> Result<(), AllocError>
        ensures { OnOk result (assumed_seen self.new ≡ with_response
            (source_in (sources_seen sources.now) target.now) (assumed_seen self.old)
            (headers_of response.now)) }
    {
        for piece in pieces_under(response, VARY) {
            if let Some(name) = varied_name(alloc, piece)? {
                self.assume_name(sources, target, name)?;
            }
        }
        Ok(())
    }

    /// Returns the request for comparison with a stored one: names that are unknown in either have
    /// the stored value.
    #[tactic(auto, unfolding(crate::specs::Assume::compared))]
    pub(crate) fn compared(
        &self,
        alloc: Global,
        stored: &HeaderMap,
        unknown: &[HeaderName],
    ) -> Result<AssumedRequest<'a>, AllocError>
        ensures { IfOk result (λ asked. assumed_seen asked
            ≡ compared (assumed_seen self.now) (headers_of stored.now) unknown.now) }
    {
        let mut headers = copy_of_map(&self.headers)?;
        take_over(&mut headers, stored, self.unknown.as_slice())?;
        take_over(&mut headers, stored, unknown)?;
        Ok(AssumedRequest {
            target: self.target,
            method: self.method,
            headers,
            unknown: Vec::new(alloc),
            assumed: Vec::new(alloc),
        })
    }
}

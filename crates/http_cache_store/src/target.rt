//! The target URI of a request, as the key under which its responses are stored. Two targets are
//! equal exactly if their texts are. Origins are compared only here.
ghost use Rattle.std.specs.Prelude.{◌≡◌, ◌++◌, IfOk, codes, option_copied, option_map, string_bytes};
ghost use Rattle.http_uri.specs.ByteClasses.{lowercase};
ghost use Rattle.http_uri.specs.Uri.{uri_scheme, uri_authority, uri_path, uri_query, Spells, SpellsNone};
ghost use Rattle.std.specs.Option.{MatchOption};
ghost use Rattle.http_cache_fields.specs.Headers.{headers_of};
ghost use Rattle.http_cache_store.specs.Target.{text_of, target_text, without_ending, without_default_port};
ghost use Rattle.http_cache_store.specs.Target.{scheme_of, authority_of, text_after, is_same_origin, named_by, IsNamedByText, IsNamed};
ghost use Rattle.http_cache_store.specs.Reference.{path_of, query_of, resolved_path, resolved_query, with_scheme, without_dots};

use crate::reference::{
    merged, names_host, split_query, with_scheme, without_dots, without_fragment,
};
use http::header::HOST;
use http::{HeaderMap, Uri};
use http_cache_fields::headers::first_text;
use http_uri::UriError;
use std::alloc::{AllocError, Global};

/// The target URI of a request, as the key of its stored responses (RFC 9110, section 7.1; RFC
/// 9111, section 2).
///
/// Its text has the scheme (if the request has one), the host in lower case without default port,
/// and the path and query as received. The host is in the request target, or else in Host.
#[derive(Debug, PartialEq, Eq, Hash, Drop)]
pub struct Target {
    text: String,
}

// The scheme and the authority of a request. Either is empty if the request has none.
#[derive(Clone, Copy)]
struct Origin<'a> {
    scheme: &'a str,
    authority: &'a str,
}

fn without_ending<'a>(text: &'a str, ending: &str) -> &'a str
    ensures { result.now ≡ without_ending ending.now text.now }
{
    text.strip_suffix(ending).unwrap_or(text)
}

// Removes the default port of the scheme, which names the same origin (RFC 9110, section 4.2.3).
fn without_default_port<'a>(scheme: &str, authority: &'a str) -> &'a str
    ensures { result.now ≡ without_default_port scheme.now authority.now }
{
    match scheme {
        "http" => without_ending(authority, ":80"),
        "https" => without_ending(authority, ":443"),
        _ => authority,
    }
}

impl<'a> Origin<'a> {
    fn of(uri: &'a Uri, headers: &'a HeaderMap) -> Origin<'a>
        ensures scheme { result.scheme.now ≡ scheme_of uri.now }
        ensures authority { result.authority.now ≡ authority_of uri.now (headers_of headers.now) }
    {
        let scheme = uri.scheme_str().unwrap_or("");
        let authority = match uri.authority() {
            Some(authority) => authority.as_str(),
            None => first_text(headers, HOST).unwrap_or(""),
        };
        Origin {
            scheme,
            authority: without_default_port(scheme, authority),
        }
    }

    // Returns whether a URI has this origin. A request without a scheme may be of any scheme, so it
    // may invalidate any URI with its host (RFC 9111, section 4.4).
    fn is_of(self, uri: &Uri) -> bool
        ensures { result ≡ is_same_origin self.entry.scheme.now self.entry.authority.now
            (uri_scheme uri.now) (uri_authority uri.now) }
    {
        let Some(scheme) = uri.scheme_str() else {
            return false;
        };
        let Some(authority) = uri.authority() else {
            return false;
        };
        let authority = without_default_port(scheme, authority.as_str());
        (self.scheme.is_empty() || scheme.eq_ignore_ascii_case(self.scheme))
            && authority.eq_ignore_ascii_case(self.authority)
    }

    // Returns the text before a path, with room for `room` more bytes.
    fn prefix(self, alloc: Global, room: usize) -> Result<String, AllocError>
        ensures { IfOk result (λ text. string_bytes text
            ≡ lowercase (self.entry.scheme.now ++ codes "//" ++ self.entry.authority.now)) }
    {
        let length = self.scheme.len().saturating_add(self.authority.len());
        let mut text = String::with_capacity(alloc, length.saturating_add(room).saturating_add(4))?;
        text.push_str(self.scheme)?;
        text.push_str("//")?;
        text.push_str(self.authority)?;
        text.make_ascii_lowercase();
        Ok(text)
    }

    // Returns the target of a path and query. An empty path is `/` (RFC 9110, section 4.2.3).
    fn target(self, alloc: Global, path: &str, query: Option<&str>) -> Result<Target, AllocError>
        ensures { IfOk result (λ target. text_of target ≡ text_after
            (self.entry.scheme.now ++ codes "//" ++ self.entry.authority.now)
            path.now (option_copied query.entry)) }
    {
        let room = path.len().saturating_add(query.map_or(0, str::len));
        let mut text = self.prefix(alloc, room)?;
        text.push_str(if path.is_empty() { "/" } else { path })?;
        if let Some(query) = query {
            text.push('?')?;
            text.push_str(query)?;
        }
        Ok(Target { text })
    }

    // Returns the target of a reference's path, after removing its dot segments.
    fn resolved(self, alloc: Global, path: &str, query: Option<&str>) -> Result<Target, AllocError>
        ensures { IfOk result (λ target. text_of target ≡ text_after
            (self.entry.scheme.now ++ codes "//" ++ self.entry.authority.now)
            (without_dots path.now) (option_copied query.entry)) }
    {
        let path = without_dots(alloc, path)?;
        self.target(alloc, path.as_str(), query)
    }

    // Returns the target of a URI with this origin.
    fn named(self, alloc: Global, uri: &Uri) -> Result<Option<Target>, AllocError>
        ensures { IfOk result (λ named. option_map text_of named
            ≡ named_by self.entry.scheme.now self.entry.authority.now uri.now) }
    {
        if !self.is_of(uri) {
            return Ok(None);
        }
        let target = self.resolved(alloc, uri.path(), uri.query())?;
        Ok(Some(target))
    }
}

// Returns the URI that a text spells, if it spells one.
fn uri_of(alloc: Global, text: &str) -> Result<Option<Uri>, AllocError>
    ensures { IfOk result (λ uri. MatchOption uri (SpellsNone text.now) (Spells text.now)) }
{
    match Uri::from_str(alloc, text) {
        Ok(uri) => Ok(Some(uri)),
        Err(UriError::OutOfMemory) => Err(AllocError),
        Err(_) => Ok(None),
    }
}

impl Target {
    /// Returns the target of a request.
    ///
    /// # Errors
    ///
    /// `AllocError` if there is not enough memory.
    #[tactic(auto, unfolding(crate::specs::Target::target_text))]
    pub fn of(alloc: Global, uri: &Uri, headers: &HeaderMap) -> Result<Target, AllocError>
        ensures text { IfOk result (λ target. text_of target
            ≡ target_text uri.now (headers_of headers.now)) }
    {
        Origin::of(uri, headers).target(alloc, uri.path(), uri.query())
    }

    // Returns the target of a reference that names a host, if it has the origin of the request.
    fn named_by_host(
        alloc: Global,
        origin: Origin<'_>,
        reference: &str,
    ) -> Result<Option<Target>, AllocError>
        ensures { IfOk result (λ named. IsNamedByText origin.entry.scheme.now
            origin.entry.authority.now (with_scheme origin.entry.scheme.now reference.now)
            (option_map text_of named)) }
    {
        let text = with_scheme(alloc, origin.scheme, reference)?;
        let Some(uri) = uri_of(alloc, text.as_str())? else {
            return Ok(None);
        };
        let named = origin.named(alloc, &uri)?;
        Ok(named)
    }

    // Returns the target of a reference without a host.
    fn named_by_path(
        alloc: Global,
        origin: Origin<'_>,
        uri: &Uri,
        reference: &str,
    ) -> Result<Target, AllocError>
        ensures { IfOk result (λ target. text_of target ≡ text_after
            (origin.entry.scheme.now ++ codes "//" ++ origin.entry.authority.now)
            (resolved_path (uri_path uri.now) (path_of reference.now))
            (resolved_query (uri_query uri.now) (path_of reference.now) (query_of reference.now))) }
    {
        let (path, query) = split_query(reference);
        if path.is_empty() {
            return origin.target(alloc, uri.path(), query.or(uri.query()));
        }
        if path.starts_with('/') {
            return origin.resolved(alloc, path, query);
        }
        let merged = merged(alloc, uri.path(), path)?;
        origin.resolved(alloc, merged.as_str(), query)
    }

    /// Returns the target of a URI reference in a response, such as Location (RFC 3986, section
    /// 5.2).
    ///
    /// Returns `None` if the reference has another origin than the request, which it then must not
    /// invalidate (RFC 9111, section 4.4), or if it is no URI reference.
    ///
    /// # Errors
    ///
    /// `AllocError` if there is not enough memory.
    pub fn named(
        alloc: Global,
        uri: &Uri,
        headers: &HeaderMap,
        reference: &str,
    ) -> Result<Option<Target>, AllocError>
        ensures named { IfOk result (λ named.
            IsNamed uri.now (headers_of headers.now) reference.now (option_map text_of named)) }
    {
        let origin = Origin::of(uri, headers);
        let reference = without_fragment(reference);
        if names_host(reference) {
            return Target::named_by_host(alloc, origin, reference);
        }
        let target = Target::named_by_path(alloc, origin, uri, reference)?;
        Ok(Some(target))
    }

    /// Returns a copy of the target.
    ///
    /// # Errors
    ///
    /// `AllocError` if there is not enough memory.
    pub fn try_clone(&self) -> Result<Target, AllocError>
        ensures { IfOk result (λ copy. text_of copy ≡ text_of self.now) }
    {
        Ok(Target {
            text: self.text.clone()?,
        })
    }

    /// Returns the text of the target, under which a store may store its responses.
    pub fn as_str(&self) -> &str
        ensures { result.now ≡ text_of self.now }
    {
        self.text.as_str()
    }
}

//! The targets of which a purge removes the stored responses.
use crate::fault::Fault;
use http::header::{HOST, HeaderValueError};
use http::{HeaderMap, HeaderValue, Uri};
use http_cache_frames::Reason;
use http_cache_store::Target;
use http_uri::UriError;
use std::alloc::Global;

// Returns an authority without the default port of its scheme, as a Host has it (RFC 9110, section
// 4.2.3).
fn host_of<'a>(scheme: &str, authority: &'a str) -> &'a str {
    let port = match scheme {
        "http" => ":80",
        "https" => ":443",
        _ => "",
    };
    authority.strip_suffix(port).unwrap_or(authority)
}

/// Returns the targets of requests for a URI. One has the whole URI as its request target, the
/// other only the path, with the host in Host.
pub fn targets_of(alloc: Global, text: &str) -> Result<[Target; 2], Fault> {
    let uri = uri_from(alloc, text)?;
    let (Some(authority), Some(path)) = (uri.authority(), uri.path_and_query()) else {
        return Err(Fault::Refused(Reason::NoTarget));
    };
    let mut headers = HeaderMap::new(alloc);
    let whole = Target::of(alloc, &uri, &headers)?;
    let host = host_of(uri.scheme_str().unwrap_or(""), authority.as_str());
    if headers.append(HOST, host_from(alloc, host)?).is_err() {
        return Err(Fault::Refused(Reason::Memory));
    }
    let path = uri_from(alloc, path.as_str())?;
    Ok([whole, Target::of(alloc, &path, &headers)?])
}

fn uri_from(alloc: Global, text: &str) -> Result<Uri, Fault> {
    match Uri::from_str(alloc, text) {
        Ok(uri) => Ok(uri),
        Err(UriError::OutOfMemory) => Err(Fault::Refused(Reason::Memory)),
        Err(UriError::Invalid(_)) => Err(Fault::Refused(Reason::NoTarget)),
    }
}

fn host_from(alloc: Global, text: &str) -> Result<HeaderValue, Fault> {
    match HeaderValue::from_bytes(alloc, text.as_bytes()) {
        Ok(host) => Ok(host),
        Err(HeaderValueError::OutOfMemory) => Err(Fault::Refused(Reason::Memory)),
        Err(HeaderValueError::Invalid) => Err(Fault::Refused(Reason::NoTarget)),
    }
}

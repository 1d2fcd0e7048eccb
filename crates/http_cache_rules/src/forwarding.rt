//! Removes the connection-specific fields of a message that is forwarded (RFC 7230, section 6.1).
ghost use Rattle.std.specs.Prelude.{◌≡◌, map, IfOk};
ghost use Rattle.http_cache_fields.specs.Headers.{headers_of, ChangesUnder};
ghost use Rattle.http_cache_rules.specs.Forwarding.{without_named, forwarded_headers};
ghost use Rattle.http_cache_rules.specs.Forwarding.{connection_fields, is_connection_field};
ghost use Rattle.http_cache_rules.specs.Forwarding.{unless_of_connection};

use http::header::CONNECTION;
use http::{HeaderMap, HeaderName};
use http_cache_fields::headers::{copy_of_map, remove};
use http_cache_fields::pieces::{Commas, pieces_under};
use std::alloc::AllocError;

// These are connection-specific whether Connection lists them or not. To compare each name of a map
// with them takes less than to look each of them up.
#[tactic(auto, unfolding(crate::specs::Forwarding::is_connection_field))]
fn is_connection_field(name: &HeaderName) -> bool
    ensures { result ≡ is_connection_field name.now }
{
    matches!(
        name.as_str(),
        "connection"
            | "keep-alive"
            | "proxy-authenticate"
            | "proxy-authentication-info"
            | "proxy-authorization"
            | "proxy-connection"
            | "te"
            | "trailer"
            | "transfer-encoding"
            | "upgrade"
    )
}

fn remove_connection_field(map: &mut HeaderMap, name: &HeaderName)
    ensures { ChangesUnder name.now (unless_of_connection name.now)
        (headers_of map.old) (headers_of map.new) }
{
    if is_connection_field(name) {
        remove(map, name);
    }
}

fn without_connection_fields(headers: &HeaderMap) -> Result<HeaderMap, AllocError>
    ensures { IfOk result (λ out. headers_of out
        ≡ without_named connection_fields (headers_of headers.now)) }
{
    let mut out = copy_of_map(headers)?;
    for name in headers.keys() {
        remove_connection_field(&mut out, name);
    }
    Ok(out)
}

/// Removes these names.
pub(crate) fn remove_all(headers: &mut HeaderMap, names: &[&str])
    ensures { headers_of headers.new
        ≡ without_named (map (λ name. name.now) names.now) (headers_of headers.old) }
{
    for name in names {
        remove(headers, *name);
    }
}

fn remove_listed(headers: &mut HeaderMap, listed: Commas<'_>)
    ensures { headers_of headers.new ≡ without_named listed.entry (headers_of headers.old) }
{
    for name in listed {
        remove(headers, name);
    }
}

/// Returns the header fields that a proxy forwards, with all values of each name.
///
/// Connection-specific fields and those that Connection lists are removed (RFC 7230, section 6.1).
#[tactic(auto, unfolding(crate::specs::Forwarding::forwarded_headers))]
pub fn forwarded_headers(headers: &HeaderMap) -> Result<HeaderMap, AllocError>
    ensures { IfOk result (λ out. headers_of out ≡ forwarded_headers (headers_of headers.now)) }
{
    let mut out = without_connection_fields(headers)?;
    remove_listed(&mut out, pieces_under(headers, CONNECTION));
    Ok(out)
}

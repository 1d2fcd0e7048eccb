//! Updates the stored fields after a 304, new names too (RFC 9111, section 3.2).
ghost use Rattle.std.specs.Prelude.{◌≡◌, ◌⊎◌, IfOk, IfErr, OnOk, IsErrOf};
ghost use Rattle.std.specs.Option.{option_or};
ghost use Rattle.std.specs.FinMap as fin;
ghost use Rattle.http_cache_fields.specs.Headers.{headers_of, ChangesUnder};
ghost use Rattle.http_cache_rules.specs.Updated.{updating_fields, updated_values, AreUpdated, HasNoRoom, StopsAt};

use crate::forwarding::{forwarded_headers, remove_all};
use http::HeaderMap;
use http::header::HeaderName;
use http_cache_fields::CacheError;
use http_cache_fields::headers::{append, contains_key, reveal_header_map};
use std::alloc::AllocError;

const FIELDS_OF_BODY: [&str; 4] = [
    "content-length",
    "content-encoding",
    "transfer-encoding",
    "content-range",
];

fn updating_fields(received: &HeaderMap) -> Result<HeaderMap, AllocError>
    ensures { IfOk result (λ out. headers_of out ≡ updating_fields (headers_of received.now)) }
{
    let mut fields = forwarded_headers(received)?;
    remove_all(&mut fields, &FIELDS_OF_BODY);
    Ok(fields)
}

fn add_missing(out: &mut HeaderMap, name: &HeaderName, stored: &HeaderMap) -> Result<(), CacheError>
    ensures ok { OnOk result (ChangesUnder name.now
        (λ o. option_or o (fin.get (headers_of stored.now) name.now))
        (headers_of out.old) (headers_of out.new)) }
    ensures full { IsErrOf result CacheError.HeaderMapFull
        → StopsAt (headers_of out.old) (headers_of stored.now) name.now }
    ensures known { IfErr result (λ e. (e ≡ CacheError.HeaderMapFull) ⊎ (e ≡ CacheError.Memory)) }
{
    reveal_header_map(out);
    reveal_header_map(stored);
    if contains_key(out, name) {
        return Ok(());
    }
    for value in stored.get_all(name).iter() {
        append(out, name, value.clone()?)?;
    }
    reveal_header_map(out);
    Ok(())
}

/// Returns the stored fields with those of a 304, new names too (RFC 9111, section 3.2).
///
/// Connection-specific fields and those that describe the body aren't updated.
pub fn updated_headers(stored: &HeaderMap, received: &HeaderMap) -> Result<HeaderMap, CacheError>
    ensures value { IfOk result (λ out.
        AreUpdated (headers_of stored.now) (headers_of received.now) (headers_of out)) }
    ensures full { IsErrOf result CacheError.HeaderMapFull
        → HasNoRoom (updated_values (headers_of stored.now)
        (updating_fields (headers_of received.now))) }
    ensures known { IfErr result (λ e. (e ≡ CacheError.HeaderMapFull) ⊎ (e ≡ CacheError.Memory)) }
{
    let mut out = updating_fields(received)?;
    for name in stored.keys() {
        add_missing(&mut out, name, stored)?;
    }
    Ok(out)
}

//! Single changes of a head, each stated by the field lines of one name.
ghost use Rattle.std.specs.Prelude.{◌≡◌, [], ◌∷◌, string_bytes, IfOk, OnOk};
ghost use Rattle.http_cache_fields.specs.Headers.{headers_of};
ghost use Rattle.http_cache_intermediary.specs.Field.{HasLines};

use http::{HeaderMap, HeaderName, HeaderValue};
use http_cache_fields::{CacheError, headers};
use http_header::HeaderValueError;

// Replaces all lines of a name by one.
pub(crate) fn set(
    map: &mut HeaderMap,
    name: HeaderName,
    value: HeaderValue,
) -> Result<(), CacheError>
    ensures { OnOk result
        (HasLines name (value.bytes ∷ []) (headers_of map.old) (headers_of map.new)) }
{
    headers::insert(map, name, value)
}

pub(crate) fn clear(map: &mut HeaderMap, name: HeaderName)
    ensures { HasLines name [] (headers_of map.old) (headers_of map.new) }
{
    headers::remove(map, name);
}

pub(crate) fn value_of(line: String) -> Result<HeaderValue, CacheError>
    ensures { IfOk result (λ value. value.bytes ≡ string_bytes line) }
{
    match HeaderValue::from_string(line) {
        Ok(value) => Ok(value),
        Err(HeaderValueError::OutOfMemory) => Err(CacheError::Memory),
        Err(HeaderValueError::Invalid) => Err(CacheError::Malformed),
    }
}

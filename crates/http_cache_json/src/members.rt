//! Reads the members of an object.
ghost use Rattle.std.specs.Prelude.{◌≡◌, option_map, option_copied, option_and_then};
ghost use Rattle.serde_json.specs.View.{view};
ghost use Rattle.serde_json.specs.Find.{get, as_str};
ghost use Rattle.http_cache_rules.specs.Options.{options_of};
ghost use Rattle.http_cache_json.specs.Form.{whole_of, moment_of, options_of_data};

use crate::form::{moment_from_value, options_from_value};
use http_cache_rules::options::CacheOptions;
use jiff::Timestamp;
use serde_json::Value;

/// Returns the text under a key.
pub fn text_under<'a>(value: &'a Value, key: &str) -> Option<&'a str>
    ensures { option_copied result ≡ option_and_then as_str (get key.now (view value.now)) }
{
    value.get(key)?.as_str()
}

/// Returns the whole number under a key.
pub fn whole_under(value: &Value, key: &str) -> Option<u64>
    ensures { result ≡ option_and_then whole_of (get key.now (view value.now)) }
{
    value.get(key)?.as_u64()
}

/// Returns the options under a key.
pub fn options_under(value: &Value, key: &str) -> Option<CacheOptions>
    ensures { option_map options_of result
        ≡ option_and_then options_of_data (get key.now (view value.now)) }
{
    options_from_value(value.get(key)?)
}

/// Returns the time under a key.
pub fn moment_under(value: &Value, key: &str) -> Option<Timestamp>
    ensures { option_map (λ t. t.nanosecond) result
        ≡ option_and_then moment_of (get key.now (view value.now)) }
{
    moment_from_value(value.get(key)?)
}

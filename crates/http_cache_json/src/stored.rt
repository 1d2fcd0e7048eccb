//! Reads and writes the parts of a stored form.
ghost use Rattle.std.specs.Prelude.{◌≡◌, option_map, IfOk, IsErrOf};
ghost use Rattle.serde_json.specs.View.{view};
ghost use Rattle.serde_json.specs.Data.{string};
ghost use Rattle.http_uri.specs.Uri.{uri_text};
ghost use Rattle.http_cache_rules.specs.Options.{options_of};
ghost use Rattle.http_cache_rules.specs.Exchange.{Exchange, exchange_in};
ghost use Rattle.http_cache_json.specs.Stored.{stored_form, IsStored};
ghost use Rattle.http_cache_json.specs.ReadBack.{IsWrittenFor};

use crate::form::{has_members, value_of_moment, value_of_options};
use crate::headers::{headers_from_value, value_of_headers};
use crate::members::{moment_under, options_under, text_under, whole_under};
use crate::texts::{method_from_text, status_from_number, target_from_text};
use crate::unread::UnreadValue;
use http::Uri;
use http_cache_rules::options::CacheOptions;
use http_cache_rules::parts::StoredParts;
use jiff::Timestamp;
use serde_json::{Value, json};
use std::alloc::{AllocError, Global};

#[derive(Clone, Copy)]
struct StoredMembers<'a> {
    target: &'a str,
    method: &'a str,
    status: u64,
    request: &'a Value,
    response: &'a Value,
    options: CacheOptions,
    response_time: Timestamp,
}

#[tactic(auto, unfolding(crate::specs::Stored::stored_form))]
fn stored_members(value: &Value) -> Option<StoredMembers<'_>>
    ensures { option_map (λ m. record {
      target = m.target.now;
      method = m.method.now;
      status = m.status;
      request = view m.request.now;
      response = view m.response.now;
      options = options_of m.options;
      response_time = m.response_time.nanosecond;
    }) result ≡ stored_form (view value.now) }
{
    if !has_members(value, 7) {
        return None;
    }
    Some(StoredMembers {
        target: text_under(value, "uri")?,
        method: text_under(value, "method")?,
        status: whole_under(value, "status")?,
        request: value.get("req")?,
        response: value.get("res")?,
        options: options_under(value, "opts")?,
        response_time: moment_under(value, "response_time")?,
    })
}

/// Returns the parts of a stored form.
pub fn parts_from_value(alloc: Global, value: &Value) -> Result<StoredParts, UnreadValue>
    ensures found { IfOk result (λ parts. IsStored (view value.now) (exchange_in parts)) }
    ensures none { IsErrOf result UnreadValue.Malformed
        → (e : Exchange) → IsStored (view value.now) e → ⊥ }
{
    let Some(members) = stored_members(value) else {
        return Err(UnreadValue::Malformed);
    };
    let Some(status) = status_from_number(members.status) else {
        return Err(UnreadValue::Malformed);
    };
    let target = target_from_text(alloc, members.target)?;
    let method = method_from_text(alloc, members.method)?;
    let request_headers = headers_from_value(alloc, members.request)?;
    let response_headers = headers_from_value(alloc, members.response)?;
    Ok(StoredParts {
        target,
        method,
        status,
        request_headers,
        response_headers,
        options: members.options,
        response_time: members.response_time,
    })
}

fn text_of_target(alloc: Global, target: &Uri) -> Result<Value, AllocError>
    ensures { IfOk result (λ v. view v ≡ string (uri_text target.now)) }
{
    Ok(Value::String(format!(in alloc; "{target}")?))
}

/// Returns the stored form of a request, its response, the options and the time of receipt.
#[tactic(auto, unfolding(crate::specs::Stored::stored_data))]
pub fn value_of_parts(alloc: Global, parts: &StoredParts) -> Result<Value, AllocError>
    ensures { IfOk result (λ v. IsWrittenFor (view v) (exchange_in parts.now)) }
{
    json!(in alloc; {
        "method": parts.method.as_str(),
        "opts": value_of_options(alloc, &parts.options)?,
        "req": value_of_headers(alloc, &parts.request_headers)?,
        "res": value_of_headers(alloc, &parts.response_headers)?,
        "response_time": value_of_moment(alloc, parts.response_time)?,
        "status": parts.status.as_u16(),
        "uri": text_of_target(alloc, &parts.target)?
    })
}

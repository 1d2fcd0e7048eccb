//! Reads headers from JSON objects, and writes them.
ghost use Rattle.std.specs.Prelude.{◌≡◌, ℕ, List, map, None, Some, IfOk, OnOk, IsErrOf};
ghost use Rattle.std.specs.List.{AllZip, AllByRecursion};
ghost use Rattle.hex.specs.Hex.{IsBytes};
ghost use Rattle.http_header.specs.FieldName.{IsHeaderName};
ghost use Rattle.http_header.specs.FieldValue.{plain_value};
ghost use Rattle.http_header.specs.HeaderMap.{Entry, Entries, entry_pairs, pairs, get_all as all_under};
ghost use Rattle.serde_json.specs.View.{view};
ghost use Rattle.http_cache_fields.specs.Headers.{Headers, headers_of, bytes_of};
ghost use Rattle.http_cache_json.specs.HeaderObject.{member_of, value_of_text};
ghost use Rattle.http_cache_json.specs.HeaderObject.{IsValueText, IsHeaderMember};
ghost use Rattle.http_cache_json.specs.HeaderObject.{IsHeaderObject, text_data};
ghost use Rattle.http_cache_json.specs.HeaderObject.{texts_data, headers_data};
ghost use Rattle.http_cache_json.specs.Pairs.{HoldsPairs, Fits, with_pairs};
ghost use Rattle.http_cache_json.specs.ReadBack.{IsReadableValue, AreReadable};

use crate::unread::UnreadValue;
use hex::FromHexError;
use http_cache_fields::headers::reveal_header_map;
use http_header::{
    HeaderMap, HeaderMapError, HeaderName, HeaderNameError, HeaderValue, HeaderValueError,
};
use serde_json::{Map, Value};
use std::alloc::{AllocError, Global};

#[tactic(auto, unfolding(crate::specs::HeaderObject::value_of_text))]
fn value_from_text(alloc: Global, value: &Value) -> Result<HeaderValue, UnreadValue>
    ensures found { IfOk result (λ v. (bytes : List ℕ)
        × (value_of_text (view value.now) ≡ Some bytes) × (v ≡ plain_value bytes)) }
    ensures none { IsErrOf result UnreadValue.Malformed → value_of_text (view value.now) ≡ None }
{
    let Some(text) = value.as_str() else {
        return Err(UnreadValue::Malformed);
    };
    let bytes = match hex::decode(alloc, text) {
        Ok(bytes) => bytes,
        Err(FromHexError::OutOfMemory) => return Err(UnreadValue::Memory),
        Err(_) => return Err(UnreadValue::Malformed),
    };
    match HeaderValue::from_vec(bytes) {
        Ok(value) => Ok(value),
        Err(HeaderValueError::OutOfMemory) => Err(UnreadValue::Memory),
        Err(HeaderValueError::Invalid) => Err(UnreadValue::Malformed),
    }
}

fn name_from_key(alloc: Global, key: &str) -> Result<HeaderName, UnreadValue>
    ensures found { IfOk result (λ name. (name ≡ key.now) × IsHeaderName key.now) }
    ensures none { IsErrOf result UnreadValue.Malformed → IsHeaderName key.now → ⊥ }
{
    match HeaderName::from_lowercase(alloc, key.as_bytes()) {
        Ok(name) => Ok(name),
        Err(HeaderNameError::OutOfMemory) => Err(UnreadValue::Memory),
        Err(HeaderNameError::Invalid) => Err(UnreadValue::Malformed),
    }
}

// After an `Err` the headers may have some of the values.
fn append_texts(
    alloc: Global,
    headers: &mut HeaderMap,
    name: &HeaderName,
    texts: &[Value],
) -> Result<(), UnreadValue>
    requires name { IsHeaderName name.now }
    requires fits { Fits headers.now }
    ensures found { OnOk result ((values : List (List ℕ))
        × AllZip IsValueText (map view texts.now) values
        × (headers.new ≡ with_pairs headers.old (entry_pairs (name.now, values)))
        × Fits headers.new) }
    ensures none { IsErrOf result UnreadValue.Malformed
        → (values : List (List ℕ)) → AllZip IsValueText (map view texts.now) values
        → Fits (with_pairs headers.old (entry_pairs (name.now, values))) → ⊥ }
{
    for text in texts {
        let value = value_from_text(alloc, text)?;
        match headers.append(name, value) {
            Ok(_) => {}
            Err(HeaderMapError::MaxSizeReached) => return Err(UnreadValue::Malformed),
            Err(HeaderMapError::OutOfMemory) => return Err(UnreadValue::Memory),
        }
    }
    Ok(())
}

// After an `Err` the headers may have some of the values.
fn append_member(
    alloc: Global,
    headers: &mut HeaderMap,
    key: &str,
    value: &Value,
) -> Result<(), UnreadValue>
    requires { Fits headers.now }
    ensures found { OnOk result ((e : Entry (List ℕ))
        × IsHeaderMember (key.now, view value.now) e
        × (headers.new ≡ with_pairs headers.old (entry_pairs e))
        × Fits headers.new) }
    ensures none { IsErrOf result UnreadValue.Malformed
        → (e : Entry (List ℕ)) → IsHeaderMember (key.now, view value.now) e
        → Fits (with_pairs headers.old (entry_pairs e)) → ⊥ }
{
    let Some(texts) = value.as_array() else {
        return Err(UnreadValue::Malformed);
    };
    if texts.is_empty() {
        return Err(UnreadValue::Malformed);
    }
    let name = name_from_key(alloc, key)?;
    append_texts(alloc, headers, &name, texts.as_slice())
}

fn headers_from(alloc: Global, members: &Map<String, Value>) -> Result<HeaderMap, UnreadValue>
    ensures found { IfOk result (λ headers. (entries : Entries (List ℕ))
        × AllZip IsHeaderMember (map member_of members.now.entries) entries
        × HoldsPairs (pairs entries) (headers_of headers)) }
    ensures none { IsErrOf result UnreadValue.Malformed
        → (entries : Entries (List ℕ))
        → AllZip IsHeaderMember (map member_of members.now.entries) entries
        → (h : Headers) → HoldsPairs (pairs entries) h → ⊥ }
{
    let mut headers = HeaderMap::new(alloc);
    for (key, value) in members.iter() {
        append_member(alloc, &mut headers, key.as_str(), value)?;
    }
    Ok(headers)
}

/// Returns the headers of an object that has a list of texts in hexadecimal under each name.
pub fn headers_from_value(alloc: Global, value: &Value) -> Result<HeaderMap, UnreadValue>
    ensures found { IfOk result (λ headers. IsHeaderObject (view value.now) (headers_of headers)) }
    ensures none { IsErrOf result UnreadValue.Malformed
        → (h : Headers) → IsHeaderObject (view value.now) h → ⊥ }
{
    match value.as_object() {
        Some(members) => headers_from(alloc, members),
        None => Err(UnreadValue::Malformed),
    }
}

fn text_of_bytes(alloc: Global, bytes: &[u8]) -> Result<Value, AllocError>
    ensures value { IfOk result (λ v. view v ≡ text_data bytes.now) }
    ensures bytes { IfOk result (λ _. IsBytes bytes.now) }
{
    Ok(Value::String(hex::encode(alloc, bytes)?))
}

fn text_of_value(alloc: Global, value: &HeaderValue) -> Result<Value, AllocError>
    ensures value { IfOk result (λ v. view v ≡ text_data value.now.bytes) }
    ensures readable { IfOk result (λ _. IsReadableValue value.now.bytes) }
{
    text_of_bytes(alloc, value.as_bytes())
}

fn texts_under(alloc: Global, headers: &HeaderMap, name: &HeaderName) -> Result<Value, AllocError>
    ensures value { IfOk result (λ v. view v
        ≡ texts_data (bytes_of (all_under headers.now name.now))) }
    ensures readable { IfOk result (λ _.
        AllByRecursion IsReadableValue (bytes_of (all_under headers.now name.now))) }
{
    let mut texts = Vec::new(alloc);
    for value in headers.get_all(name) {
        texts.push(text_of_value(alloc, value)?)?;
    }
    Ok(Value::Array(texts))
}

/// Returns the object that is written for headers.
pub fn value_of_headers(alloc: Global, headers: &HeaderMap) -> Result<Value, AllocError>
    ensures value { IfOk result (λ v. view v ≡ headers_data (headers_of headers.now)) }
    ensures readable { IfOk result (λ _. AreReadable (headers_of headers.now)) }
{
    reveal_header_map(headers);
    let mut members: Map<String, Value> = Map::new(alloc);
    for name in headers.keys() {
        let key = String::from_str(alloc, name.as_str())?;
        drop(members.insert(key, texts_under(alloc, headers, name)?)?);
    }
    Ok(Value::Object(members))
}

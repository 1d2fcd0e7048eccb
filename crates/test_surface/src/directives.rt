//! The directives of Cache-Control, and the errors of all calls.
use http::HeaderMap;
use http_cache_semantics::directives::{
    CacheControl, Commas, GetHeaderStr, format_cache_control, get_all_comma, parse_cache_control,
};
use http_cache_semantics::{CacheError, directives};
use http_header::{GetAll, HeaderValue};
use std::alloc::Global;
use std::fmt::Debug;

fn is_debug<T: Debug>(_value: &T) {}

fn number_of(e: &directives::CacheError) -> u8 {
    is_debug(e);
    match e {
        CacheError::Memory => 1,
        CacheError::HeaderMapFull => 2,
        CacheError::DateNotPrintable => 3,
        CacheError::Malformed => 4,
    }
}

fn first<'a>(map: &'a HeaderMap, name: &str) -> Option<&'a str> {
    map.get_str(name)
}

fn pieces<'a>(all: GetAll<'a, HeaderValue>) -> Commas<'a> {
    get_all_comma(all)
}

fn next<'a>(pieces: &mut Commas<'a>) -> Option<&'a str> {
    pieces.next()
}

fn read(alloc: Global, all: GetAll<'_, HeaderValue>) -> Result<CacheControl, CacheError> {
    parse_cache_control(alloc, all)
}

fn written(alloc: Global, said: &CacheControl) -> Result<String, CacheError> {
    is_debug(said);
    format_cache_control(alloc, said)
}

fn size(said: &CacheControl) -> usize {
    said.len()
}

fn has(said: &CacheControl, name: &str) -> bool {
    said.contains_key(name)
}

fn value<'a>(said: &'a CacheControl, name: &str) -> Option<Option<&'a str>> {
    said.get(name)
}

fn entry(said: &CacheControl, i: usize) -> Option<(&str, Option<&str>)> {
    said.entry_at(i)
}

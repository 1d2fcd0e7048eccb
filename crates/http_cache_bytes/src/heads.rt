//! Reads heads, with the library's errors.
ghost use Rattle.std.specs.Prelude.{◌≡◌, ◌≢◌, Err, IfOk, IsErrOf};
ghost use Rattle.http_heads.specs.Heads.{IsRequest, IsNoRequest, OverfillsRequest, IsResponse, IsNoResponse, OverfillsResponse};
ghost use Rattle.http_heads.specs.declared.error.HeadError.{HeadError};

use http::{request, response};
use http_cache_semantics::CacheError;
use http_heads::{HeadError, request_from_bytes, response_from_bytes};
use std::alloc::Global;
use std::hash::RandomState;

fn error_of(e: HeadError) -> CacheError
    ensures malformed { result ≡ CacheError.Malformed → e ≡ HeadError.Malformed }
    ensures full { result ≡ CacheError.HeaderMapFull → e ≡ HeadError.HeaderMapFull }
    ensures printable { result ≢ CacheError.DateNotPrintable }
{
    match e {
        HeadError::Memory => CacheError::Memory,
        HeadError::Malformed => CacheError::Malformed,
        HeadError::HeaderMapFull => CacheError::HeaderMapFull,
    }
}

pub(crate) fn request_in(
    alloc: Global,
    keys: RandomState,
    bytes: &[u8],
) -> Result<request::Parts, CacheError>
    ensures found { IfOk result (IsRequest bytes.now) }
    ensures malformed { IsErrOf result CacheError.Malformed → IsNoRequest bytes.now }
    ensures full { IsErrOf result CacheError.HeaderMapFull → OverfillsRequest bytes.now }
    ensures printable { result ≢ Err CacheError.DateNotPrintable }
{
    match request_from_bytes(alloc, keys, bytes) {
        Ok(parts) => Ok(parts),
        Err(e) => Err(error_of(e)),
    }
}

pub(crate) fn response_in(
    alloc: Global,
    keys: RandomState,
    bytes: &[u8],
) -> Result<response::Parts, CacheError>
    ensures found { IfOk result (IsResponse bytes.now) }
    ensures malformed { IsErrOf result CacheError.Malformed → IsNoResponse bytes.now }
    ensures full { IsErrOf result CacheError.HeaderMapFull → OverfillsResponse bytes.now }
    ensures printable { result ≢ Err CacheError.DateNotPrintable }
{
    match response_from_bytes(alloc, keys, bytes) {
        Ok(parts) => Ok(parts),
        Err(e) => Err(error_of(e)),
    }
}

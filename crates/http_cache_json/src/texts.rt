//! Reads targets, methods and statuses from texts and numbers.
ghost use Rattle.std.specs.Prelude.{◌≡◌, IfOk, SomeIff, IsErrOf};
ghost use Rattle.http_header.specs.Token.{IsToken};
ghost use Rattle.http_uri.specs.Uri.{Spells};
ghost use Rattle.http_uri.specs.declared.uri.Uri.{Uri as Target};
ghost use Rattle.http.specs.StatusCode.{IsStatusCode};

use crate::unread::UnreadValue;
use http::method::MethodError;
use http::{Method, StatusCode, Uri};
use http_uri::UriError;
use std::alloc::Global;

/// Returns the target that a text denotes.
pub fn target_from_text(alloc: Global, text: &str) -> Result<Uri, UnreadValue>
    ensures found { IfOk result (λ target. Spells text.now target) }
    ensures none { IsErrOf result UnreadValue.Malformed → (u : Target) → Spells text.now u → ⊥ }
{
    match Uri::from_str(alloc, text) {
        Ok(target) => Ok(target),
        Err(UriError::OutOfMemory) => Err(UnreadValue::Memory),
        Err(UriError::Invalid(_)) => Err(UnreadValue::Malformed),
    }
}

/// Returns the method of a token.
pub fn method_from_text(alloc: Global, text: &str) -> Result<Method, UnreadValue>
    ensures found { IfOk result (λ method. (method ≡ text.now) × IsToken text.now) }
    ensures none { IsErrOf result UnreadValue.Malformed → IsToken text.now → ⊥ }
{
    match Method::from_bytes(alloc, text.as_bytes()) {
        Ok(method) => Ok(method),
        Err(MethodError::OutOfMemory) => Err(UnreadValue::Memory),
        Err(MethodError::Invalid) => Err(UnreadValue::Malformed),
    }
}

/// Returns the status of a number of three digits.
pub fn status_from_number(number: u64) -> Option<StatusCode>
    ensures { SomeIff result (IsStatusCode number) number }
{
    if number > 999 {
        return None;
    }
    StatusCode::from_u16(number as u16).ok()
}

//! Calls whose only error is out of memory.
ghost use Rattle.std.specs.Prelude.{◌≡◌, Ok, IfOk};

use http_cache_fields::CacheError;
use std::alloc::AllocError;

/// Returns the value of a call whose only error is `Memory`.
///
/// # Errors
///
/// `AllocError` if the call returned an error.
pub fn or_out_of_memory<T: Drop>(outcome: Result<T, CacheError>) -> Result<T, AllocError>
    ensures { IfOk result (λ value. outcome ≡ Ok value) }
{
    match outcome {
        Ok(value) => Ok(value),
        Err(_) => Err(AllocError),
    }
}

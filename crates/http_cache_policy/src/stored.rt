//! Writes a policy as a JSON value, and reads it back.
ghost use Rattle.std.specs.Prelude.{◌≡◌, ◌≢◌, ◌≤◌, ◌↔◌, Err, IfOk, IsErrOf, IsOkUnless};
ghost use Rattle.serde_json.specs.Data.{depth};
ghost use Rattle.serde_json.specs.View.{view};
ghost use Rattle.http_cache_policy.specs.Exchange.{Exchange};
ghost use Rattle.http_cache_policy.specs.Kept.{kept_exchange};
ghost use Rattle.http_cache_policy.specs.Stored.{Reads, ReadsBack, with_target, writes};

use crate::policy::CachePolicy;
use http_cache_fields::CacheError;
pub use http_cache_json::form::{moment_from_value, options_from_value};
use http_cache_json::stored::{parts_from_value, value_of_parts};
use serde_json::Value;
use std::alloc::Global;

impl CachePolicy {
    /// Returns the stored form of the policy. The only error is `Memory`.
    pub fn to_value(&self, alloc: Global) -> Result<Value, CacheError>
        ensures value { IfOk result (λ value. view value ≡ writes self.now) }
        ensures reads_back { IfOk result (λ value. (e : Exchange)
            → Reads (view value) e ↔ ReadsBack self.now e) }
        ensures restored { IfOk result (λ value. (e : Exchange) → Reads (view value) e
            → kept_exchange e ≡ with_target self.now e.target) }
        ensures shallow { IfOk result (λ value. depth (view value) ≤ 3) }
        ensures only_memory { IsOkUnless result CacheError.Memory }
    {
        Ok(value_of_parts(alloc, self.parts())?)
    }

    /// Returns the policy of a stored form.
    ///
    /// # Errors
    ///
    /// `Malformed` only if the value isn't a stored form, and `Memory`, which may be returned in
    /// its place.
    pub fn from_value(alloc: Global, value: &Value) -> Result<CachePolicy, CacheError>
        ensures reads { IfOk result (λ _. (e : Exchange) × Reads (view value.now) e) }
        ensures value { IfOk result (λ policy. (e : Exchange) → Reads (view value.now) e
            → policy ≡ kept_exchange e) }
        ensures settled { IfOk result (λ policy. kept_exchange policy ≡ policy) }
        ensures malformed { IsErrOf result CacheError.Malformed
            → (e : Exchange) → Reads (view value.now) e → ⊥ }
        ensures never_full { result ≢ Err CacheError.HeaderMapFull }
        ensures always_printable { result ≢ Err CacheError.DateNotPrintable }
    {
        let parts = parts_from_value(alloc, value)?;
        let policy = CachePolicy::from_details(alloc, parts)?;
        Ok(policy)
    }
}

//! Decides whether a response is worth storing.
ghost use Rattle.std.specs.Prelude.{◌≡◌, true, false};
ghost use Rattle.http_cache_rules.specs.Storability.{is_storable};
ghost use Rattle.http_cache_store.specs.Worth.{can_be_used_again};
ghost use Rattle.http_cache_decisions.specs.Storing.{is_never_stored, is_worth_storing, IsRefused};

use crate::quoted::is_misread;
use http::StatusCode;
use http_cache_policy::policy::CachePolicy;
use http_cache_store::worth::can_be_used_again;
use jiff::Timestamp;

// Returns whether a status is that of an interim response, of a part, or of a confirmation.
fn is_never_stored(status: StatusCode) -> bool
    ensures { result ≡ is_never_stored status }
{
    status.is_informational()
        || status == StatusCode::PARTIAL_CONTENT
        || status == StatusCode::NOT_MODIFIED
}

/// Returns whether a response is worth storing at `now`. Allocates nothing.
///
/// It is if it may be stored, isn't a 1xx, 206 or 304, isn't misread, and can be used again (RFC
/// 9111, sections 3 and 3.3).
#[tactic(auto, unfolding(crate::specs::Storing::is_worth_storing))]
pub fn is_worth_storing(policy: &CachePolicy, now: Timestamp) -> bool
    ensures worth { result ≡ true → is_worth_storing policy.now now.nanosecond ≡ true }
    ensures refused { result ≡ false → IsRefused policy.now now.nanosecond }
    ensures storable { result ≡ true → is_storable policy.now ≡ true }
    ensures used { result ≡ true → can_be_used_again policy.now now.nanosecond ≡ true }
{
    if is_never_stored(policy.stored_status()) || is_misread(policy.stored_headers()) {
        return false;
    }
    policy.is_storable() && can_be_used_again(policy, now)
}

//! Why a value wasn't read.
ghost use Rattle.std.specs.Prelude.{◌≡◌};
ghost use Rattle.http_cache_json.specs.Unread.{error_of};

use http_cache_fields::CacheError;

/// Why a value wasn't read.
#[derive(Clone, Copy, Debug, PartialEq, Eq, Drop)]
pub enum UnreadValue {
    /// The allocator is out of memory, which says nothing about the value.
    Memory,
    /// The value isn't of the form.
    Malformed,
}

impl From<UnreadValue> for CacheError {
    ghost from_gives = { λ unread e. e ≡ error_of unread };

    fn from(unread: UnreadValue) -> CacheError {
        match unread {
            UnreadValue::Memory => CacheError::Memory,
            UnreadValue::Malformed => CacheError::Malformed,
        }
    }
}

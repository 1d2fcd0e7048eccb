//! Why a value wasn't read.
ghost use Rattle.std.specs.Prelude.{◌≡◌};
ghost use Rattle.cache_script.specs.declared.unread.UnreadScript.TheVariants.{Memory};

use std::alloc::AllocFailed;

/// Why a value wasn't read.
#[derive(Clone, Copy, Debug, PartialEq, Eq, Drop)]
pub enum UnreadScript {
    /// The allocator is out of memory, which says nothing about the value.
    Memory,
    /// The value is no script.
    NoScript,
}

impl<T: Drop> From<AllocFailed<T>> for UnreadScript {
    ghost from_gives = { λ _ e. e ≡ Memory };

    fn from(_e: AllocFailed<T>) -> UnreadScript {
        UnreadScript::Memory
    }
}

impl From<http_cache_json::UnreadValue> for UnreadScript {
    ghost use Rattle.cache_script.specs.Unread.{unread_of};

    ghost from_gives = { λ part e. e ≡ unread_of part };

    fn from(part: http_cache_json::UnreadValue) -> UnreadScript {
        match part {
            http_cache_json::UnreadValue::Memory => UnreadScript::Memory,
            http_cache_json::UnreadValue::Malformed => UnreadScript::NoScript,
        }
    }
}

//! Maps by texts of a file. They are ordered, so that no text makes them slow.
ghost use Rattle.std.specs.Prelude.{◌≡◌, ℕ, List, Some, None, bytes_eq, string_bytes, OnOk, if◌then◌else◌};
ghost use Rattle.std.specs.BTreeMap.{get_by_text};

use std::alloc::AllocError;
use std::collections::BTreeMap;

/// Replaces the value under a key.
#[tactic(auto, using(std::proofs::lemmas::Map::Text::text_keys))]
pub fn put<V: Drop>(map: &mut BTreeMap<String, V>, key: String, value: V) -> Result<(), AllocError>
    ensures { OnOk result ((at : List ℕ) → get_by_text map.new at
        ≡ (if bytes_eq (string_bytes key) at then Some value else get_by_text map.old at)) }
{
    match map.insert(key, value) {
        Ok(former) => {
            drop(former);
            Ok(())
        }
        Err(refused) => {
            drop(refused);
            Err(AllocError)
        }
    }
}

/// Removes and returns the value under a text.
#[tactic(auto, using(std::proofs::lemmas::Map::Text::text_keys))]
pub fn take<V: Drop>(map: &mut BTreeMap<String, V>, text: &str) -> Option<V>
    ensures value { result ≡ get_by_text map.old text.now }
    ensures left { (key : List ℕ) → get_by_text map.new key
        ≡ (if bytes_eq text.now key then None else get_by_text map.old key) }
{
    map.remove(text)
}

//! Names of directives, which ignore case (RFC 7234, section 5.2).
ghost use Rattle.std.specs.Prelude.{◌≡◌, true, bytes_eq, IfOk, IfSome};
ghost use Rattle.std.specs.Cow.{cow_str_bytes};
ghost use Rattle.std.specs.Ordering.{on};
ghost use Rattle.std.specs.Cmp.Rules.{comparing, hashing};
ghost use Rattle.std.specs.Cmp.Lexicographic.{pointwise};
ghost use Rattle.std.specs.Hash as fed;
ghost use Rattle.std.specs.List.{flat_map};
ghost use Rattle.std.proofs.Common.{rules, nat_eq};
ghost use Rattle.http_header.specs.Token.{lowercase};

use std::alloc::{AllocError, Global};
use std::borrow::CowStr;
use std::hash::{Hash, Hasher};

// The most common names first (RFC 7234, section 5.2, RFC 5861 and RFC 8246).
const STANDARD: [&'static str; 15] = [
    "max-age",
    "public",
    "no-cache",
    "private",
    "no-store",
    "must-revalidate",
    "s-maxage",
    "immutable",
    "stale-while-revalidate",
    "stale-if-error",
    "no-transform",
    "proxy-revalidate",
    "max-stale",
    "min-fresh",
    "only-if-cached",
];

/// Returns whether two names are equal, ignoring ASCII case.
pub fn is_same_name(a: &str, b: &str) -> bool
    ensures { result ≡ bytes_eq (lowercase a.now) (lowercase b.now) }
{
    a.eq_ignore_ascii_case(b)
}

// Each byte has the bit that capital letters lack, so lower case changes none.
pub(crate) fn is_lower(name: &str) -> bool
    ensures { result ≡ true → lowercase name.now ≡ name.now }
{
    let mut common: u8 = 0x20;
    for b in name.as_bytes() {
        common &= *b;
    }
    common != 0
}

// A standard name needs no copy.
fn standard(name: &str) -> Option<&'static str>
    ensures { IfSome result (λ text. text.now ≡ name.now) }
{
    STANDARD.iter().copied().find(|text| *text == name)
}

/// Returns a name in lower case, borrowed if it is a standard one.
pub(crate) fn lower_name(alloc: Global, name: &str) -> Result<CowStr<'static, Global>, AllocError>
    ensures { IfOk result (λ lower. cow_str_bytes lower ≡ lowercase name.now) }
{
    if !is_lower(name) {
        return Ok(CowStr::Owned(name.to_ascii_lowercase(alloc)?));
    }
    match standard(name) {
        Some(text) => Ok(CowStr::Borrowed(text)),
        None => Ok(CowStr::Owned(String::from_str(alloc, name)?)),
    }
}

/// A name as received, compared and hashed without case.
#[derive(Clone, Copy)]
pub struct Name<'a>(pub &'a str);

impl PartialEq for Name<'_> {
    ghost eq = { on (λ n. lowercase n.0.now) (pointwise nat_eq) };

    ghost laws = { Prim.search (comparing, rules) };

    fn eq(&self, other: &Self) -> bool {
        is_same_name(self.0, other.0)
    }
}

impl Eq for Name<'_> {
    ghost laws = { Prim.search (comparing, rules) };
}

impl Hash for Name<'_> {
    ghost hash_input = { λ n. flat_map fed.u8 (lowercase n.0.now) };

    ghost respects_eq = { Prim.search (hashing, rules) };

    fn hash<H: Hasher>(&self, state: &mut H) {
        for b in self.0.as_bytes() {
            state.write_u8(b.to_ascii_lowercase());
        }
    }
}

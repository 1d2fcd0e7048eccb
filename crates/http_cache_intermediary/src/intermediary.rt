//! An intermediary: its name, and the member that it adds to Via.
ghost use Rattle.std.specs.Prelude.{◌≡◌, ◌∷◌, [], bytes_eq, codes, string_bytes, IfOk, OnOk};
ghost use Rattle.http_cache_fields.specs.Headers.{headers_of};
ghost use Rattle.http_cache_intermediary.specs.Field.{HasLines};
ghost use Rattle.http_cache_intermediary.specs.Via.{has_passed, received_by, via_line, via_name};

use crate::field::{set, value_of};
use crate::via::{member_of, received_by, via_name};
use http::header::VIA;
use http::{HeaderMap, Version};
use http_cache_fields::CacheError;
use http_cache_fields::join::join_with;
use http_cache_fields::pieces::pieces_under;
use std::alloc::{AllocError, Global};
use std::marker::Model;

/// An intermediary of HTTP, such as a proxy, with its name in Cache-Status. Contracts see it as
/// that name.
///
/// Its name in Via has `-` for each byte that a token can't have (RFC 9110, section 7.6.3). Two
/// intermediaries on one path need different names.
#[derive(Debug, Drop)]
pub struct Intermediary {
    name: String,
    // The name in Via.
    pseudonym: String,
}

impl Model for Intermediary {
    ghost use Rattle.std.specs.Prelude.{◌≡◌, ℕ, List, string_bytes};
    ghost use Rattle.http_cache_intermediary.specs.Via.{via_name};

    ghost Value = { List ℕ };

    ghost view = { λ i. string_bytes i.name };

    ghost invariant = { λ i. string_bytes i.pseudonym ≡ via_name (string_bytes i.name) };
}

impl Intermediary {
    /// Returns the intermediary with a name.
    ///
    /// # Errors
    ///
    /// `AllocError` if there is not enough memory.
    pub fn new(alloc: Global, name: &str) -> Result<Intermediary, AllocError>
        ensures { IfOk result (λ intermediary. intermediary ≡ name.now) }
    {
        Ok(Intermediary {
            name: String::from_str(alloc, name)?,
            pseudonym: via_name(alloc, name)?,
        })
    }

    /// Returns the name.
    pub fn name(&self) -> &str
        ensures { result.now ≡ self.now }
    {
        self.name.as_str()
    }

    fn is_own(&self, member: &str) -> bool
        ensures { result ≡ bytes_eq (received_by member.now) (via_name self.now) }
    {
        received_by(member) == self.pseudonym.as_str()
    }

    /// Returns whether a message has passed the intermediary before: its Via has the name (RFC
    /// 9110, section 7.6.3).
    pub fn has_passed(&self, headers: &HeaderMap) -> bool
        ensures { result ≡ has_passed self.now (headers_of headers.now) }
    {
        pieces_under(headers, VIA).any(|member| self.is_own(member))
    }

    // Replaces Via by the received members and the intermediary's own.
    pub(crate) fn add_via(
        &self,
        alloc: Global,
        headers: &mut HeaderMap,
        received: &HeaderMap,
        version: Version,
    ) -> Result<(), CacheError>
        ensures { OnOk result (HasLines (codes "via")
            (via_line self.now version (headers_of received.now) ∷ [])
            (headers_of headers.old) (headers_of headers.new)) }
    {
        let member = member_of(alloc, version, self.pseudonym.as_str())?;
        let line = join_with(alloc, pieces_under(received, VIA), member.as_str())?;
        set(headers, VIA, value_of(line)?)
    }
}

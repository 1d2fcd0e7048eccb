//! Explains why a response may be stored or not (RFC 7234, section 3).
ghost use Rattle.std.specs.Prelude.{◌≡◌, is_none, codes};
ghost use Rattle.http_cache_fields.specs.Directives.{has};
ghost use Rattle.http_cache_rules.specs.Exchange.{exchange_in, stored_directives, request_directives};
ghost use Rattle.http_cache_rules.specs.StoredDirectives.{stored_directives_of};
ghost use Rattle.http_cache_rules.specs.Storability.{permission, obstacles, storability};

use crate::parts::StoredParts;
use crate::storable::{
    allows_authorized, has_explicit_expiration, is_method_cacheable,
    is_status_cacheable_by_default, is_status_understood,
};
use crate::stored_directives::StoredDirectives;
use http::header::{AUTHORIZATION, EXPIRES};
use http_cache_fields::headers::contains_key;
use std::fmt;

/// The first rule that allows to store a response (RFC 7234, section 3).
#[derive(Clone, Copy, Debug, PartialEq, Eq)]
pub enum Permission {
    /// The response has Expires.
    Expires,
    /// The response has `max-age`.
    MaxAge,
    /// The response has `s-maxage`, and the cache is shared.
    SMaxage,
    /// The response has `public`.
    Public,
    /// The status is cacheable by default (RFC 7231, section 6.1).
    Status,
}

impl fmt::Display for Permission {
    ghost use Rattle.std.specs.Prelude.{Some};
    ghost use Rattle.http_cache_rules.specs.DisplayText.{permission_text};

    ghost output = { λ permission. Some (permission_text permission) };

    fn fmt<W: fmt::Write>(&self, f: &mut fmt::Formatter<W>) -> fmt::Result {
        let words = match self {
            Permission::Expires => "Expires",
            Permission::MaxAge => "max-age",
            Permission::SMaxage => "s-maxage",
            Permission::Public => "public",
            Permission::Status => "status",
        };
        write!(f, "{words}")
    }
}

/// The conditions that forbid to store a response, each with whether it holds (RFC 7234, section
/// 3).
#[derive(Clone, Copy, Debug, PartialEq, Eq)]
pub struct Obstacles {
    /// The request has `no-store` (RFC 7234, section 5.2.1.5).
    pub request_no_store: bool,
    /// The method isn't cacheable. GET and HEAD are, and POST with an explicit lifetime (RFC 7231,
    /// section 4.2.3).
    pub method: bool,
    /// The cache doesn't understand the status (RFC 7234, section 3).
    pub status: bool,
    /// The response has `no-store` (RFC 7234, section 5.2.2.3).
    pub response_no_store: bool,
    /// The response has `private`, and the cache is shared (RFC 7234, section 5.2.2.6).
    pub private: bool,
    /// The request has Authorization, and no directive allows a shared cache to store its response
    /// (RFC 7234, section 3.2).
    pub authorization: bool,
    /// No `Permission` applies.
    pub no_permission: bool,
}

impl Obstacles {
    ghost use Rattle.std.specs.Prelude.{map};
    ghost use Rattle.http_cache_rules.specs.Storability.{is_any};
    ghost use Rattle.http_cache_rules.specs.DisplayText.{obstacle_rows};

    /// Returns whether any condition holds.
    pub fn is_any(&self) -> bool
        ensures { result ≡ is_any self.now }
    {
        self.request_no_store
            || self.method
            || self.status
            || self.response_no_store
            || self.private
            || self.authorization
            || self.no_permission
    }

    fn with_words(&self) -> [(bool, &'static str); 7]
        ensures { map (λ row. (row.0, row.1.now)) result ≡ obstacle_rows self.now }
    {
        [
            (self.request_no_store, "no-store of the request"),
            (self.method, "method"),
            (self.status, "status"),
            (self.response_no_store, "no-store"),
            (self.private, "private"),
            (self.authorization, "Authorization"),
            (self.no_permission, "nothing allows it"),
        ]
    }
}

impl fmt::Display for Obstacles {
    ghost use Rattle.std.specs.Prelude.{Some};
    ghost use Rattle.http_cache_rules.specs.DisplayText.{obstacles_text};

    ghost output = { λ obstacles. Some (obstacles_text obstacles) };

    fn fmt<W: fmt::Write>(&self, f: &mut fmt::Formatter<W>) -> fmt::Result {
        let mut separator = "";
        for row in self.with_words() {
            if row.0 {
                let words = row.1;
                write!(f, "{separator}{words}")?;
                separator = ", ";
            }
        }
        Ok(())
    }
}

/// Why a response may be stored or not.
#[derive(Clone, Copy, Debug, PartialEq, Eq)]
pub enum Storability {
    /// The response may be stored, by this rule.
    Allowed(Permission),
    /// The response may not be stored. At least one condition holds.
    Forbidden(Obstacles),
}

impl fmt::Display for Storability {
    ghost use Rattle.std.specs.Prelude.{Some};
    ghost use Rattle.http_cache_rules.specs.DisplayText.{storability_text};

    ghost output = { λ storability. Some (storability_text storability) };

    fn fmt<W: fmt::Write>(&self, f: &mut fmt::Formatter<W>) -> fmt::Result {
        match self {
            Storability::Allowed(permission) => write!(f, "storable: {permission}"),
            Storability::Forbidden(obstacles) => write!(f, "not storable: {obstacles}"),
        }
    }
}

fn permission_of(parts: &StoredParts, directives: &StoredDirectives) -> Option<Permission>
    ensures { directives.now ≡ stored_directives_of (stored_directives (exchange_in parts.now))
        → result ≡ permission (exchange_in parts.now) }
{
    if contains_key(&parts.response_headers, EXPIRES) {
        return Some(Permission::Expires);
    }
    if directives.max_age.is_said() {
        return Some(Permission::MaxAge);
    }
    if parts.options.shared && directives.s_maxage.is_said() {
        return Some(Permission::SMaxage);
    }
    if directives.public {
        return Some(Permission::Public);
    }
    if is_status_cacheable_by_default(parts.status) {
        return Some(Permission::Status);
    }
    None
}

fn obstacles_of(
    parts: &StoredParts,
    request_no_store: bool,
    directives: &StoredDirectives,
    no_permission: bool,
) -> Obstacles
    ensures { no_permission ≡ is_none (permission (exchange_in parts.now))
        → request_no_store
        ≡ has (request_directives (exchange_in parts.now)) (codes "no-store")
        → directives.now ≡ stored_directives_of (stored_directives (exchange_in parts.now))
        → result ≡ obstacles (exchange_in parts.now) }
{
    let shared = parts.options.shared;
    let authorized = contains_key(&parts.request_headers, AUTHORIZATION);
    Obstacles {
        request_no_store,
        method: !is_method_cacheable(&parts.method, has_explicit_expiration(parts, directives)),
        status: !is_status_understood(parts.status),
        response_no_store: directives.no_store,
        private: shared && directives.private,
        authorization: shared && authorized && !allows_authorized(directives),
        no_permission,
    }
}

/// Returns why the response may be stored or not (RFC 7234, section 3).
///
/// The caller passes whether the request has `no-store`, and the directives of the response.
#[tactic(auto, unfolding(crate::specs::Storability::storability))]
pub fn storability_of(
    parts: &StoredParts,
    request_no_store: bool,
    directives: &StoredDirectives,
) -> Storability
    ensures { request_no_store
        ≡ has (request_directives (exchange_in parts.now)) (codes "no-store")
        → directives.now ≡ stored_directives_of (stored_directives (exchange_in parts.now))
        → result ≡ storability (exchange_in parts.now) }
{
    let permission = permission_of(parts, directives);
    let obstacles = obstacles_of(parts, request_no_store, directives, permission.is_none());
    match permission {
        Some(permission) if !obstacles.is_any() => Storability::Allowed(permission),
        _ => Storability::Forbidden(obstacles),
    }
}

//! Writes a Cache-Status member: how a cache handled a request (RFC 9211, section 2).
ghost use Rattle.std.specs.Prelude.{◌≡◌, ◌≤◌, ◌++◌, string_bytes, option_map, IfOk, OnOk, IfSome, IsOkUnless};
ghost use Rattle.http_cache_reasons.specs.StructuredField.{IsItem};
ghost use Rattle.http_cache_reasons.specs.Member.{forward_word, outcome_parameter, status_parameter};
ghost use Rattle.http_cache_reasons.specs.Member.{stored_parameter, seconds_parameter, ttl_parameter};
ghost use Rattle.http_cache_reasons.specs.Member.{detail_parameter, member_seen, member_text};

use crate::structured_field::{push_name, push_string};
use http::StatusCode;
use http_cache_fields::CacheError;
use std::alloc::{AllocError, Global};
use std::fmt::Write;

const GREATEST_INTEGER: u128 = 999_999_999_999_999;

// Most members fit, so the text doesn't grow.
const USUAL_LENGTH: usize = 64;

/// Why a cache forwards a request (RFC 9211, section 2.2).
#[derive(Clone, Copy, Debug, PartialEq, Eq)]
pub enum Forward {
    /// The cache doesn't handle such requests: `bypass`.
    Bypass,
    /// The cache isn't used for the request's method: `method`.
    Method,
    /// Nothing is stored for the target URI: `uri-miss`.
    UriMiss,
    /// No stored variant of the target URI matches Vary: `vary-miss`.
    VaryMiss,
    /// Nothing that is stored can be used, and no other word says why: `miss`.
    Miss,
    /// The stored response is fresh, but the request doesn't allow its use: `request`.
    Request,
    /// The stored response is stale: `stale`.
    Stale,
}

/// How a cache handled a request (RFC 9211, sections 2.1 and 2.2).
#[derive(Clone, Copy, Debug, PartialEq, Eq)]
pub enum CacheOutcome {
    /// The cache answered from its store: `hit`.
    Hit,
    /// The cache forwarded the request: `fwd`.
    Forwarded(Forward),
    /// The cache generated the response, as if the origin server can't be reached: neither `hit`
    /// nor `fwd`.
    Generated,
}

/// The rest of a response's lifetime, in whole seconds, rounded down (RFC 9211, section 2.4).
#[derive(Clone, Copy, Debug, PartialEq, Eq)]
pub enum TimeLeft {
    /// The seconds that are left.
    Left(u128),
    /// The seconds since the lifetime was used up, at least 1.
    Past(u128),
}

/// A member of Cache-Status (RFC 9211, section 2).
#[derive(Clone, Copy, Debug, PartialEq, Eq)]
pub struct Member<'a> {
    /// The name of the cache.
    pub cache: &'a str,
    /// How the cache handled the request: `hit` or `fwd`.
    pub outcome: CacheOutcome,
    /// The status of the response to the forwarded request: `fwd-status` (RFC 9211, section 2.3).
    pub forward_status: Option<StatusCode>,
    /// Whether the cache stored that response: `stored` (RFC 9211, section 2.5).
    pub stored: bool,
    /// The rest of the lifetime of the response that carries the member: `ttl` (RFC 9211, section
    /// 2.4).
    pub left: Option<TimeLeft>,
    /// Further information: `detail` (RFC 9211, section 2.8).
    pub detail: Option<&'a str>,
}

fn forward_word(why: Forward) -> &'static str
    ensures { result.now ≡ forward_word why }
{
    match why {
        Forward::Bypass => "bypass",
        Forward::Method => "method",
        Forward::UriMiss => "uri-miss",
        Forward::VaryMiss => "vary-miss",
        Forward::Miss => "miss",
        Forward::Request => "request",
        Forward::Stale => "stale",
    }
}

fn push_outcome(text: &mut String, outcome: CacheOutcome) -> Result<(), AllocError>
    ensures { OnOk result
        (string_bytes text.new ≡ string_bytes text.old ++ outcome_parameter outcome) }
{
    match outcome {
        CacheOutcome::Hit => text.push_str("; hit"),
        CacheOutcome::Forwarded(why) => {
            text.push_str("; fwd=")?;
            text.push_str(forward_word(why))
        }
        CacheOutcome::Generated => Ok(()),
    }
}

// A status has three digits.
fn push_status(text: &mut String, status: Option<StatusCode>) -> Result<(), AllocError>
    ensures text { OnOk result
        (string_bytes text.new ≡ string_bytes text.old ++ status_parameter status) }
    ensures few { IfSome status (λ n. n ≤ 999) }
{
    let Some(status) = status else {
        return Ok(());
    };
    let code = status.as_u16();
    write!(text, "; fwd-status={code}")
}

fn push_stored(text: &mut String, stored: bool) -> Result<(), AllocError>
    ensures { OnOk result
        (string_bytes text.new ≡ string_bytes text.old ++ stored_parameter stored) }
{
    if stored {
        text.push_str("; stored")
    } else {
        Ok(())
    }
}

// More than 15 digits are no integer (RFC 8941, section 3.3.1).
fn push_seconds(text: &mut String, front: &str, seconds: u128) -> Result<(), AllocError>
    ensures { OnOk result (string_bytes text.new
        ≡ string_bytes text.old ++ seconds_parameter front.now seconds) }
{
    if seconds > GREATEST_INTEGER {
        return Ok(());
    }
    write!(text, "{front}{seconds}")
}

fn push_ttl(text: &mut String, left: Option<TimeLeft>) -> Result<(), AllocError>
    ensures { OnOk result (string_bytes text.new ≡ string_bytes text.old ++ ttl_parameter left) }
{
    match left {
        None => Ok(()),
        Some(TimeLeft::Left(seconds)) => push_seconds(text, "; ttl=", seconds),
        Some(TimeLeft::Past(seconds)) => push_seconds(text, "; ttl=-", seconds),
    }
}

fn push_detail(text: &mut String, detail: Option<&str>) -> Result<(), AllocError>
    ensures { OnOk result (string_bytes text.new
        ≡ string_bytes text.old ++ detail_parameter (option_map (λ t. t.now) detail.entry)) }
{
    let Some(detail) = detail else {
        return Ok(());
    };
    text.push_str("; detail=")?;
    push_string(text, detail)
}

impl Member<'_> {
    /// Returns the text of the member, such as `ExampleCache; fwd=stale; fwd-status=304; stored;
    /// ttl=60`.
    ///
    /// The name is a token if it can be one, otherwise a string with `?` for each byte that a
    /// string can't have (RFC 8941, section 3.3.3). A `ttl` of more than 15 digits is left out. The
    /// only error is `CacheError::Memory`.
    #[tactic(auto, unfolding(crate::specs::Member::member_text))]
    pub fn text(&self, alloc: Global) -> Result<String, CacheError>
        ensures value { IfOk result (λ text. string_bytes text ≡ member_text (member_seen self.now)) }
        ensures grammar { IfOk result (λ text. IsItem (string_bytes text)) }
        ensures only_memory { IsOkUnless result CacheError.Memory }
    {
        let mut text = String::with_capacity(alloc, USUAL_LENGTH)?;
        push_name(&mut text, self.cache)?;
        push_outcome(&mut text, self.outcome)?;
        push_status(&mut text, self.forward_status)?;
        push_stored(&mut text, self.stored)?;
        push_ttl(&mut text, self.left)?;
        push_detail(&mut text, self.detail)?;
        Ok(text)
    }
}

//! Decides which of several stored responses a cache uses for a request.
ghost use Rattle.std.specs.Prelude.{◌≡◌, ◌≢◌, ◌∷◌, ◌⊎◌, Err, IfOk, OnOk, IsErrOf, IsOkUnless};
ghost use Rattle.http_heads.specs.Heads.{IsNoRequest, OverfillsRequest};
ghost use Rattle.http_cache_semantics.specs.Exchange.{Exchange};
ghost use Rattle.http_cache_semantics.specs.Messages.{request_seen};
ghost use Rattle.http_cache_semantics.specs.Refused.{RefusesAnswer, HasUndatedAnswer};
ghost use Rattle.http_cache_semantics.specs.Variants.{IsOfChosen};
ghost use Rattle.http_cache_bytes.specs.Cause.{ForRequest};
ghost use Rattle.http_cache_bytes.specs.Choice.{ArePoliciesIn, AreNoPolicies, ForVariants, IsSentByChoice, IsChosenFor};
ghost use Rattle.http_cache_bytes.specs.Form.{IsPolicyIn, IsNoForm};

use crate::answer::{Answer, Verdict};
use crate::form::policy_in;
use crate::heads::request_in;
use http::request;
use http_cache_semantics::{CacheError, Choice, Variants};
use http_heads::{bytes_of_request, bytes_of_response};
use jiff::Timestamp;
use std::alloc::Global;
use std::hash::RandomState;

/// The stored response that a cache uses for a request, and how.
#[derive(Drop)]
pub struct Chosen {
    /// The index of its stored form, from 0.
    pub index: usize,
    /// Whether it is fresh or is validated, and the head that the cache sends.
    pub answer: Answer,
}

// Puts the policy of a stored form before the others.
fn add_form(alloc: Global, variants: &mut Variants, form: &[u8]) -> Result<(), CacheError>
    ensures added { OnOk result ((e : Exchange) × IsPolicyIn form.now e
        × (variants.new ≡ e ∷ variants.old)) }
    ensures malformed { IsErrOf result CacheError.Malformed → IsNoForm form.now }
    ensures never_full { result ≢ Err CacheError.HeaderMapFull }
    ensures printable { result ≢ Err CacheError.DateNotPrintable }
{
    let policy = policy_in(alloc, form)?;
    if variants.add(policy).is_err() {
        return Err(CacheError::Memory);
    }
    Ok(())
}

// Reads the policies of consecutive stored forms. The last form is read first, since each policy is
// put before the others.
fn variants_in(alloc: Global, forms: &[u8], lengths: &[usize]) -> Result<Variants, CacheError>
    ensures found { IfOk result (ArePoliciesIn forms.now lengths.now) }
    ensures malformed { IsErrOf result CacheError.Malformed → AreNoPolicies forms.now lengths.now }
    ensures never_full { result ≢ Err CacheError.HeaderMapFull }
    ensures printable { result ≢ Err CacheError.DateNotPrintable }
{
    let mut variants = Variants::new(alloc);
    let mut rest = forms;
    let mut left = lengths.len();
    while left > 0 {
        left -= 1;
        if lengths[left] > rest.len() {
            return Err(CacheError::Malformed);
        }
        let (others, form) = rest.split_at(rest.len() - lengths[left]);
        add_form(alloc, &mut variants, form)?;
        rest = others;
    }
    if rest.is_empty() {
        Ok(variants)
    } else {
        Err(CacheError::Malformed)
    }
}

fn chosen_of(alloc: Global, choice: &Choice) -> Result<Option<Chosen>, CacheError>
    ensures sent { IfOk result (IsSentByChoice choice.now) }
    ensures only_memory { IsOkUnless result CacheError.Memory }
{
    Ok(match choice {
        Choice::Fresh { place, parts } => Some(Chosen {
            index: *place,
            answer: Answer {
                verdict: Verdict::Fresh,
                head: bytes_of_response(alloc, parts)?,
            },
        }),
        Choice::Validate { place, request } => Some(Chosen {
            index: *place,
            answer: Answer {
                verdict: Verdict::Validate,
                head: bytes_of_request(alloc, request)?,
            },
        }),
        Choice::Nothing => None,
    })
}

fn choose_among(
    alloc: Global,
    variants: &Variants,
    request: &request::Parts,
    now: Timestamp,
) -> Result<Option<Chosen>, CacheError>
    ensures chosen { IfOk result
        (IsChosenFor variants.now (request_seen request.now) now.nanosecond) }
    ensures full { IsErrOf result CacheError.HeaderMapFull
        → IsOfChosen variants.now (request_seen request.now) now.nanosecond
        (λ e. RefusesAnswer e (request_seen request.now) now.nanosecond) }
    ensures unprintable { IsErrOf result CacheError.DateNotPrintable
        → IsOfChosen variants.now (request_seen request.now) now.nanosecond
        (λ e. HasUndatedAnswer e (request_seen request.now) now.nanosecond) }
    ensures readable { result ≢ Err CacheError.Malformed }
{
    let choice = variants.choose(alloc, request, now)?;
    chosen_of(alloc, &choice)
}

fn choose_for(
    alloc: Global,
    keys: RandomState,
    variants: &Variants,
    request: &[u8],
    now: Timestamp,
) -> Result<Option<Chosen>, CacheError>
    ensures chosen { IfOk result (λ chosen. ForRequest request.now (λ asked.
        IsChosenFor variants.now asked now.nanosecond chosen)) }
    ensures malformed { IsErrOf result CacheError.Malformed → IsNoRequest request.now }
    ensures full { IsErrOf result CacheError.HeaderMapFull → OverfillsRequest request.now
        ⊎ ForRequest request.now (λ asked. IsOfChosen variants.now asked now.nanosecond
        (λ e. RefusesAnswer e asked now.nanosecond)) }
    ensures unprintable { IsErrOf result CacheError.DateNotPrintable
        → ForRequest request.now (λ asked. IsOfChosen variants.now asked now.nanosecond
        (λ e. HasUndatedAnswer e asked now.nanosecond)) }
{
    let request = request_in(alloc, keys, request)?;
    choose_among(alloc, variants, &request, now)
}

/// Returns which of several stored responses a cache uses for a request at `now` (RFC 7234,
/// sections 4 and 4.1). It is the first fresh one, else the first one that matches the request and
/// has to be validated, else none.
///
/// `forms` has the stored forms one after another, and `lengths` the length of each.
///
/// # Errors
///
/// - `Malformed` if the lengths don't add up to the length of `forms`, one of the forms is no
///   stored form, or `request` is no head of a request.
/// - `HeaderMapFull` if a header map can't hold the fields of the request, or of what is sent.
/// - `DateNotPrintable` if the chosen response is fresh and `now` is before 1900.
/// - `Memory` if there is not enough memory.
pub fn choose(
    alloc: Global,
    keys: RandomState,
    forms: &[u8],
    lengths: &[usize],
    request: &[u8],
    now: Timestamp,
) -> Result<Option<Chosen>, CacheError>
    ensures chosen { IfOk result (λ chosen. ForVariants forms.now lengths.now request.now
        (λ es asked. IsChosenFor es asked now.nanosecond chosen)) }
    ensures malformed { IsErrOf result CacheError.Malformed
        → AreNoPolicies forms.now lengths.now ⊎ IsNoRequest request.now }
    ensures full { IsErrOf result CacheError.HeaderMapFull → OverfillsRequest request.now
        ⊎ ForVariants forms.now lengths.now request.now (λ es asked.
        IsOfChosen es asked now.nanosecond (λ e. RefusesAnswer e asked now.nanosecond)) }
    ensures unprintable { IsErrOf result CacheError.DateNotPrintable
        → ForVariants forms.now lengths.now request.now (λ es asked.
        IsOfChosen es asked now.nanosecond (λ e. HasUndatedAnswer e asked now.nanosecond)) }
{
    let variants = variants_in(alloc, forms, lengths)?;
    choose_for(alloc, keys, &variants, request, now)
}

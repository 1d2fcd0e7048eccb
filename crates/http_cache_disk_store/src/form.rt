//! The form of a file. A response is 72 bytes with its lengths and the sum of its body, the text of
//! its target, its policy in its compact form, the ids that it supersedes, the sum of all that, and
//! the body. A new head has the same form without the body.
//!
//!     0 magic   4 id   12 length of the text   16 length of the policy   20 number of ids
//!     24 where the body begins in the file of the response   32 length of the body   40 its sum
//!     72 text, policy, ids of 8 bytes each, sum of all before, body
//!
//! Numbers are big-endian.
ghost use Rattle.std.specs.Prelude.{◌≡◌, ◌+◌, ◌*◌, IfOk, IfSome, length};

use crate::head::{Head, Packed, Place};
use crate::mark::{Mark, SUM, Sum, sum_of};
use http_cache_compact::parts_from_compact;
use http_cache_fields::CacheError;
use http_cache_policy::policy::CachePolicy;
use http_cache_store::ResponseId;
use std::alloc::{AllocError, Global};

const MAGIC: &[u8] = b"HCR1";

/// The length of the part with the lengths.
pub(crate) const PREAMBLE: usize = 72;

// No head is longer.
const MOST: u64 = 64 << 20;

/// The lengths that the beginning of a file says.
#[derive(Clone, Copy)]
pub(crate) struct Lengths {
    id: u64,
    text: usize,
    policy: usize,
    ids: usize,
    /// The length of the head.
    pub(crate) head: usize,
    /// Where the body is.
    pub(crate) place: Place,
}

// The parts of a head that is as it was written.
#[derive(Clone, Copy)]
struct Parts<'a> {
    text: &'a str,
    policy: &'a [u8],
    ids: &'a [u8],
    head: usize,
    place: Place,
}

/// What a head says.
#[derive(Drop)]
pub(crate) struct ReadHead {
    /// The text of the target.
    pub(crate) text: String,
    /// The response.
    pub(crate) head: Head,
    /// The ids of the responses that it supersedes.
    pub(crate) superseded: Vec<ResponseId>,
}

fn number_4(bytes: &[u8], at: usize) -> Option<u32> {
    let chunk = bytes.get(at..)?.first_chunk::<4>()?;
    Some(u32::from_be_bytes(*chunk))
}

fn number_8(bytes: &[u8], at: usize) -> Option<u64> {
    let chunk = bytes.get(at..)?.first_chunk::<8>()?;
    Some(u64::from_be_bytes(*chunk))
}

fn sum_at(bytes: &[u8], at: usize) -> Option<Sum> {
    let chunk = bytes.get(at..)?.first_chunk::<SUM>()?;
    Some(Sum::from_bytes(chunk))
}

fn place_in(bytes: &[u8]) -> Option<Place> {
    Some(Place {
        at: number_8(bytes, 24)?,
        mark: Mark {
            length: number_8(bytes, 32)?,
            sum: sum_at(bytes, 40)?,
        },
    })
}

/// Returns the lengths that the first 72 bytes of a file say, if it is of this form.
pub(crate) fn lengths_in(bytes: &[u8]) -> Option<Lengths>
    ensures { IfSome result (λ l. l.head ≡ l.text + l.policy + l.ids * 8 + 104) }
{
    if !bytes.starts_with(MAGIC) {
        return None;
    }
    let text = number_4(bytes, 12)?;
    let policy = number_4(bytes, 16)?;
    let ids = number_4(bytes, 20)?;
    let head = (PREAMBLE + SUM) as u64 + u64::from(text) + u64::from(policy) + u64::from(ids) * 8;
    if head > MOST {
        return None;
    }
    Some(Lengths {
        id: number_8(bytes, 4)?,
        text: text as usize,
        policy: policy as usize,
        ids: ids as usize,
        head: head as usize,
        place: place_in(bytes)?,
    })
}

fn length_4(length: usize) -> Result<[u8; 4], AllocError> {
    match u32::try_from(length) {
        Ok(length) => Ok(length.to_be_bytes()),
        Err(_) => Err(AllocError),
    }
}

/// Returns where the body of a new response is, after its head.
pub(crate) fn place_after(text: &str, policy: &[u8], superseded: &[ResponseId], mark: Mark) -> Place
    ensures { result.mark ≡ mark }
{
    let ids = (superseded.len() as u64).saturating_mul(8);
    let at = ((PREAMBLE + SUM) as u64)
        .saturating_add(text.len() as u64)
        .saturating_add(policy.len() as u64)
        .saturating_add(ids);
    Place { at, mark }
}

fn push_preamble(
    out: &mut Vec<u8>,
    id: ResponseId,
    lengths: &[usize],
    place: &Place,
) -> Result<(), AllocError> {
    out.extend_from_slice(MAGIC)?;
    out.extend_from_slice(&id.number().to_be_bytes())?;
    for length in lengths {
        out.extend_from_slice(&length_4(*length)?)?;
    }
    out.extend_from_slice(&place.at.to_be_bytes())?;
    out.extend_from_slice(&place.mark.length.to_be_bytes())?;
    out.extend_from_slice(&place.mark.sum.to_bytes())
}

/// Writes a head and the ids that it supersedes into a buffer, in place of what it has.
pub(crate) fn write(
    out: &mut Vec<u8>,
    text: &str,
    superseded: &[ResponseId],
    head: &Head,
) -> Result<(), AllocError> {
    let policy = head.packed.bytes.as_slice();
    out.clear();
    let lengths = [text.len(), policy.len(), superseded.len()];
    push_preamble(out, head.id, &lengths, &head.place)?;
    out.extend_from_slice(text.as_bytes())?;
    out.extend_from_slice(policy)?;
    for one in superseded {
        out.extend_from_slice(&one.number().to_be_bytes())?;
    }
    let sum = sum_of(out.as_slice());
    out.extend_from_slice(&sum.to_bytes())
}

// Returns the part of a head that its sum is of, if the sum is right.
fn summed(bytes: &[u8]) -> Option<&[u8]>
    ensures { IfSome result (λ before. length before.now + 32 ≡ length bytes.now) }
{
    let (before, sum) = bytes.split_last_chunk::<SUM>()?;
    if Sum::from_bytes(sum) == sum_of(before) {
        Some(before)
    } else {
        None
    }
}

fn ids_in(alloc: Global, bytes: &[u8]) -> Result<Vec<ResponseId>, AllocError> {
    let mut ids = Vec::new(alloc);
    for chunk in bytes.chunks_exact(8) {
        if let Some(number) = number_8(chunk, 0) {
            ids.push(ResponseId::new(number))?;
        }
    }
    Ok(ids)
}

fn packed_in(alloc: Global, bytes: &[u8], file: u64) -> Result<Option<Packed>, AllocError> {
    let parts = match parts_from_compact(alloc, bytes) {
        Ok(parts) => parts,
        Err(CacheError::Memory) => return Err(AllocError),
        Err(_) => return Ok(None),
    };
    match CachePolicy::from_details(alloc, parts) {
        Ok(policy) => Ok(Some(Packed::from_policy(alloc, policy, file)?)),
        Err(_) => Err(AllocError),
    }
}

// Returns the parts of a whole head, if it is as it was written, and of the response with the id.
fn parts_in(id: u64, bytes: &[u8]) -> Option<Parts<'_>> {
    let lengths = lengths_in(bytes)?;
    let before = summed(bytes)?;
    if lengths.head != bytes.len() || lengths.id != id {
        return None;
    }
    let (_, after) = before.split_at(PREAMBLE);
    let (text, after) = after.split_at(lengths.text);
    let (policy, ids) = after.split_at(lengths.policy);
    Some(Parts {
        text: std::str::from_utf8(text).ok()?,
        policy,
        ids,
        head: lengths.head,
        place: lengths.place,
    })
}

/// Reads a whole head. Returns `None` if it isn't as it was written, or of another response.
/// `is_apart` says whether it is in a file of its own.
pub(crate) fn read_head(
    alloc: Global,
    id: u64,
    bytes: &[u8],
    is_apart: bool,
) -> Result<Option<ReadHead>, AllocError>
    ensures { IfOk result (λ read. IfSome read (λ r. r.head.id.0 ≡ id)) }
{
    let Some(parts) = parts_in(id, bytes) else {
        return Ok(None);
    };
    let text = String::from_str(alloc, parts.text)?;
    let superseded = ids_in(alloc, parts.ids)?;
    let file = if is_apart { parts.head as u64 } else { 0 };
    match packed_in(alloc, parts.policy, file)? {
        Some(packed) => Ok(Some(ReadHead {
            text,
            head: Head {
                id: ResponseId::new(id),
                packed,
                place: parts.place,
            },
            superseded,
        })),
        None => Ok(None),
    }
}

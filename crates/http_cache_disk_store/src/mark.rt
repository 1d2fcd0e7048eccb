//! The sum of bytes, which guards against accidents: four lanes of 64 bits. It is no protection
//! against somebody who wants two texts of one sum.
//!
//! Each step is a bijection of the lane and of the word, so two texts of one length that differ
//! only within one word have different sums.
ghost use Rattle.std.specs.Prelude.{◌≡◌, ◌+◌, ◌*◌, ◌/◌, ◌≤◌, length, take, drop};
ghost use Rattle.std.specs.List.{fold};
ghost use Rattle.std.specs.Int.{w64, from_le_bytes};
ghost use Rattle.http_cache_disk_store.specs.Sum.{word_at, mixed, with_block, with_blocks};
ghost use Rattle.http_cache_disk_store.specs.Sum.{sum_of, mark_text, mark_seen};
ghost use Rattle.http_cache_disk_store.specs.Disk.{lanes_in};

/// The length of a sum in bytes.
pub(crate) const SUM: usize = 32;

const ODD: u64 = 0x9e37_79b9_7f4a_7c15;

/// The sum of some bytes.
#[derive(Clone, Copy, PartialEq, Eq)]
pub(crate) struct Sum {
    a: u64,
    b: u64,
    c: u64,
    d: u64,
}

fn first_word(bytes: &[u8]) -> u64
    ensures { 8 ≤ length bytes.now → result ≡ from_le_bytes w64 (take 8 bytes.now) }
{
    match bytes.first_chunk::<8>() {
        Some(word) => u64::from_le_bytes(*word),
        None => 0,
    }
}

fn word_at(bytes: &[u8], at: usize) -> u64
    ensures { at + 8 ≤ length bytes.now → result ≡ word_at bytes.now at }
{
    match bytes.get(at..) {
        Some(rest) => first_word(rest),
        None => 0,
    }
}

#[tactic(auto, unfolding(crate::specs::Sum::mixed))]
fn mixed(lane: u64, word: u64) -> u64
    ensures { result ≡ mixed lane word }
{
    (lane.rotate_left(5) ^ word).wrapping_mul(ODD)
}

// Mixes a block of 32 bytes, one word into each lane.
fn with_block(sum: Sum, block: &[u8; 32]) -> Sum
    ensures { lanes_in result ≡ with_block (lanes_in sum) block.now }
{
    let block = block.as_slice();
    Sum {
        a: mixed(sum.a, word_at(block, 0)),
        b: mixed(sum.b, word_at(block, 8)),
        c: mixed(sum.c, word_at(block, 16)),
        d: mixed(sum.d, word_at(block, 24)),
    }
}

// Mixes all whole blocks, and returns the bytes after them too.
fn with_blocks(sum: Sum, bytes: &[u8]) -> (Sum, &[u8])
    ensures sum { lanes_in result.0 ≡ with_blocks (length bytes.now / 32) (lanes_in sum) bytes.now }
    ensures rest { result.1.now ≡ drop (length bytes.now / 32 * 32) bytes.now }
{
    let mut sum = sum;
    let mut rest = bytes;
    while let Some((block, after)) = rest.split_first_chunk::<32>() {
        sum = with_block(sum, block);
        rest = after;
    }
    (sum, rest)
}

fn with_rest(lane: u64, rest: &[u8]) -> u64
    ensures { result ≡ fold mixed lane rest.now }
{
    let mut sum = lane;
    for byte in rest {
        sum = mixed(sum, u64::from(*byte));
    }
    sum
}

/// Returns the sum of some bytes.
pub(crate) fn sum_of(bytes: &[u8]) -> Sum
    ensures { lanes_in result ≡ sum_of bytes.now }
{
    let start = Sum {
        a: 1,
        b: 2,
        c: 3,
        d: 4,
    };
    let (sum, rest) = with_blocks(start, bytes);
    Sum {
        a: mixed(with_rest(sum.a, rest), bytes.len() as u64),
        ..sum
    }
}

impl Sum {
    /// Returns the sum as bytes.
    pub(crate) fn to_bytes(self) -> [u8; SUM] {
        let mut bytes = [0_u8; SUM];
        bytes[..8].copy_from_slice(&self.a.to_le_bytes());
        bytes[8..16].copy_from_slice(&self.b.to_le_bytes());
        bytes[16..24].copy_from_slice(&self.c.to_le_bytes());
        bytes[24..].copy_from_slice(&self.d.to_le_bytes());
        bytes
    }

    /// Returns the sum that some bytes are.
    pub(crate) fn from_bytes(bytes: &[u8; SUM]) -> Sum {
        let bytes = bytes.as_slice();
        Sum {
            a: word_at(bytes, 0),
            b: word_at(bytes, 8),
            c: word_at(bytes, 16),
            d: word_at(bytes, 24),
        }
    }
}

/// What is seen of a body: its length and its sum.
#[derive(Clone, Copy, PartialEq, Eq)]
pub(crate) struct Mark {
    /// The length.
    pub(crate) length: u64,
    /// The sum.
    pub(crate) sum: Sum,
}

/// Returns the mark of a body.
#[tactic(auto, unfolding(crate::specs::Sum::mark_seen))]
pub(crate) fn mark_of(body: &[u8]) -> Mark
    ensures { mark_text result.length (lanes_in result.sum) ≡ mark_seen body.now }
{
    Mark {
        length: body.len() as u64,
        sum: sum_of(body),
    }
}

//! Keys of hashed tables of directives, which the field lines make themselves.
//!
//! Who chooses names that collide under a key changes the lines, and so the key.

use http_header::{GetAll, HeaderValue};
use std::alloc::AllocError;
use std::hash::{DefaultHasher, Hasher, RandomState};
use std::io;
use std::random::RandomSource;

#[derive(Drop)]
struct Digest {
    bytes: [u8; 16],
}

impl RandomSource for Digest {
    fn fill_bytes(&self, buf: &mut [u8]) -> io::Result<()> {
        for (to, from) in buf.iter_mut().zip(self.bytes.iter()) {
            *to = *from;
        }
        Ok(())
    }
}

fn digest_of(all: &GetAll<'_, HeaderValue>) -> Digest {
    let mut hasher = DefaultHasher::new();
    for line in all.iter() {
        hasher.write(line.as_bytes());
    }
    let low = hasher.finish();
    hasher.write_u64(low);
    let high = hasher.finish();
    let both = u128::from(high) << 64 | u128::from(low);
    Digest {
        bytes: both.to_le_bytes(),
    }
}

/// Returns the keys that the lines make. They exist, since a digest always has bytes.
pub(crate) fn keys_of(all: &GetAll<'_, HeaderValue>) -> Result<RandomState, AllocError> {
    RandomState::new(&digest_of(all)).map_err(|_| AllocError)
}

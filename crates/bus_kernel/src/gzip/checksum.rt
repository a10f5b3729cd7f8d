//! The check sum of a gzip file (RFC 1952, section 8).

use std::alloc::{AllocError, Global};

/// The polynomial, its highest power lowest.
const POLYNOMIAL: u32 = 0xedb8_8320;

// A byte's remainder.
fn remainder_of(byte: u8) -> u32 {
    let mut remainder = u32::from(byte);
    for _ in 0..8 {
        let is_odd = remainder & 1 == 1;
        remainder = remainder.wrapping_shr(1);
        if is_odd {
            remainder ^= POLYNOMIAL;
        }
    }
    remainder
}

// The remainder of each byte.
fn remainders(alloc: Global) -> Result<Vec<u32>, AllocError> {
    let mut remainders = Vec::new(alloc);
    for byte in 0..=u8::MAX {
        remainders.push(remainder_of(byte))?;
    }
    Ok(remainders)
}

/// The check sum of bytes.
pub(crate) fn crc32(alloc: Global, bytes: &[u8]) -> Result<u32, AllocError> {
    let remainders = remainders(alloc)?;
    let mut sum = u32::MAX;
    for byte in bytes {
        let [low, ..] = sum.to_le_bytes();
        if let Some(remainder) = remainders.get(usize::from(low ^ *byte)) {
            sum = sum.wrapping_shr(8) ^ *remainder;
        }
    }
    Ok(!sum)
}

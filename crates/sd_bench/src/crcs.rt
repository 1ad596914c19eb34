//! CRCs of long sections.

use sd_section::crc32;

/// As many bytes as the longest section has.
const SIZE: usize = 4096;

/// A number of so many CRCs, each of bytes that begin with the one before.
pub fn summed(count: u32) -> u64 {
    let mut bytes: [u8; SIZE] = std::array::from_fn(|i| ((i % 256) as u8).wrapping_mul(7));
    let mut sum = 0u64;
    for _ in 0..count {
        let crc = crc32(&bytes);
        bytes[..4].copy_from_slice(&crc.to_be_bytes());
        sum = sum.wrapping_mul(31).wrapping_add(u64::from(crc));
    }
    sum
}

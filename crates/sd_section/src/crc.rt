ghost use Rattle.std.specs.Prelude.{◌≡◌};
ghost use Rattle.sd_section.specs.Crc.{crc_of, after_byte, after_bytes};

use crate::table::{of_byte, of_word};

const START: u32 = 0xFFFF_FFFF;

/// CRC_32 of some bytes (ISO/IEC 13818-1, annex A).
#[tactic(auto, using(crate::proofs::Words::bytes_more), unfolding(crate::specs::Crc::crc_of, crate::specs::Crc::after_bytes))]
pub fn crc32(bytes: &[u8]) -> u32
    ensures { result ≡ crc_of bytes.now }
{
    let mut register = START;
    let mut rest = bytes;
    while let Some((eight, after)) = rest.split_first_chunk::<8>() {
        register = after_eight(register, *eight);
        rest = after;
    }
    for byte in rest {
        register = after_one(register, *byte);
    }
    register
}

// The register after eight bytes more.
#[inline]
#[tactic(auto, using(crate::proofs::Words::eight_bytes))]
fn after_eight(register: u32, bytes: [u8; 8]) -> u32
    ensures { result ≡ after_bytes register bytes }
{
    let [a, b, c, d, e, f, g, h] = bytes;
    let first = u32::from_be_bytes([a, b, c, d]);
    let second = u32::from_be_bytes([e, f, g, h]);
    of_word(register ^ first, 4) ^ of_word(second, 0)
}

// The register after a byte more.
#[inline]
#[tactic(auto, using(crate::proofs::Words::byte_out))]
fn after_one(register: u32, byte: u8) -> u32
    ensures { result ≡ after_byte register byte }
{
    let [first, ..] = register.to_be_bytes();
    register << 8 ^ of_byte(first ^ byte, 0)
}

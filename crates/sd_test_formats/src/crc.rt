use crate::known::{CAT, PAT, PMT, REWRITTEN};
use sd_section::crc32;
use std::test::Fail;

// The check value of CRC-32/MPEG-2, and its first bytes, by a program that goes bit by bit.
static CRCS: [(&str, u32); 10] = [
    ("", 0xFFFF_FFFF),
    ("1", 0x9EFB_CF93),
    ("12", 0x3FEC_5E6A),
    ("123", 0xD952_F164),
    ("1234", 0xA695_C4AA),
    ("12345", 0xBD9A_B747),
    ("123456", 0xD8F0_6C8F),
    ("1234567", 0x0D8A_14C4),
    ("12345678", 0x49E3_C2FB),
    ("123456789", 0x0376_E6E7),
];

#[test]
fn crcs_of_known_texts(rt: HostRuntime) -> Result<(), Fail> {
    for (digits, crc) in &CRCS {
        assert!(rt; crc32(digits.as_bytes()) == *crc, "{digits}");
    }
    // A megabyte of zeros, by the same program.
    let zeros = vec![in rt.alloc(); 0; 1 << 20]?;
    assert!(rt; crc32(&zeros) == 0xC7A8_E31A);
    Ok(())
}

#[test]
fn sections_give_0(rt: HostRuntime) {
    let crcs = [crc32(&PAT), crc32(&PMT), crc32(&REWRITTEN), crc32(&CAT)];
    assert!(rt; crcs == [0; 4]);
}

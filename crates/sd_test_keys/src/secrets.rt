use crate::known::master;
use sd_site_cards::{checks, write_file};
use std::test::*;

// The check that Python's hashlib gives of a head of three bytes and two secrets.
const CHECK: [u8; 16] = [
    0x2b, 0xe9, 0xc9, 0x93, 0xfb, 0x31, 0x55, 0x0a, 0x92, 0x92, 0x9e, 0x93, 0x5b, 0x09, 0xcf, 0x5f,
];

#[test]
fn a_file_is_its_head_its_secrets_and_the_check(rt: HostRuntime) -> Result<(), Fail> {
    let bytes = write_file(rt.alloc(), &[0x53, 0x44, 0x01], &[master(), [0xff; 32]])?;
    assert!(rt; bytes.len() == 83 && bytes[34..36] == [0x1f, 0xff]);
    assert!(rt; bytes.starts_with(&[0x53, 0x44, 0x01, 0x00, 0x01]));
    assert!(rt; checks(&bytes) == (CHECK, CHECK));
    Ok(())
}

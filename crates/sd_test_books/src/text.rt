use sd_base::{NumberFault, next_line, number_after};
use std::test::Fail;

// Texts and their lines.
static TEXTS: [(&[u8], &[&[u8]]); 6] = [
    (b"a\nb", &[b"a", b"b"]),
    (b"a\n", &[b"a"]),
    (b"\n\n", &[b"", b""]),
    (b"", &[]),
    (b"a", &[b"a"]),
    (b"a\r\n", &[b"a\r"]),
];

// Whether these are the lines of the text.
fn are_lines(text: &[u8], lines: &[&[u8]]) -> Option<bool> {
    let mut rest = text;
    for line in lines {
        let (first, after) = next_line(rest)?;
        if first != *line {
            return Some(false);
        }
        rest = after;
    }
    Some(next_line(rest).is_none())
}

#[test]
fn a_text_is_its_lines(rt: HostRuntime) -> Result<(), Fail> {
    for (text, lines) in &TEXTS {
        assert!(rt; are_lines(text, lines).ok_or("no line")?);
    }
    Ok(())
}

// Lines, and their number after `revoke `.
static NUMBERS: [(&[u8], Result<u32, NumberFault>); 16] = [
    (b"revoke 5", Ok(5)),
    (b"revoke 0", Ok(0)),
    (b"revoke 4294967295", Ok(4_294_967_295)),
    (b"revoke 4294967296", Err(NumberFault::TooLarge)),
    (b"revoke 99999999999999999999", Err(NumberFault::TooLarge)),
    (
        b"revoke 1000000000000000000000000000000000000000",
        Err(NumberFault::TooLarge),
    ),
    (b"revoke 05", Err(NumberFault::Malformed)),
    (b"revoke 00", Err(NumberFault::Malformed)),
    (b"revoke ", Err(NumberFault::Malformed)),
    (b"revoke", Err(NumberFault::Malformed)),
    (b"revoke  5", Err(NumberFault::Malformed)),
    (b"revoke 5 ", Err(NumberFault::Malformed)),
    (b"revoke +5", Err(NumberFault::Malformed)),
    (b"revoke -1", Err(NumberFault::Malformed)),
    (b"revoke 5\r", Err(NumberFault::Malformed)),
    (b"Revoke 5", Err(NumberFault::Malformed)),
];

#[test]
fn a_number_is_read_after_its_word(rt: HostRuntime) {
    for (line, number) in &NUMBERS {
        assert!(rt; number_after(b"revoke ", line) == *number);
    }
}

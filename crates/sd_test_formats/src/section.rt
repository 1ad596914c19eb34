use crate::known::PAT;
use sd_section::{Assembler, Header, Section, SectionFault, read_one, seal};
use std::alloc::Global;
use std::test::Fail;

// A place of the section, the byte there, and how many bytes are read: what is wrong first.
static FAULTS: [(usize, u8, usize, SectionFault); 8] = [
    (0, 0x00, 2, SectionFault::Short),
    (1, 0x30, 2, SectionFault::Short),
    (1, 0x30, 3, SectionFault::Length),
    (2, 0x08, 3, SectionFault::Length),
    (1, 0xBF, 3, SectionFault::Short),
    (2, 0x09, 11, SectionFault::Short),
    (0, 0x00, 15, SectionFault::Short),
    (
        12,
        0x2B,
        16,
        SectionFault::Crc {
            found: 0x2BB1_04B2,
            due: 0x2AB1_04B2,
        },
    ),
];

// table_id, the extension, version_number, current_next_indicator and the section numbers.
fn header_of(section: &Section<'_>) -> (u8, u16, u8, bool, u8, u8) {
    (
        section.table_id(),
        section.extension(),
        section.version(),
        section.current(),
        section.number(),
        section.last_number(),
    )
}

// What is wrong with the first bytes of the section, one of which is replaced.
fn fault_of(place: usize, byte: u8, count: usize) -> Option<SectionFault> {
    let mut bytes = PAT;
    *bytes.get_mut(place)? = byte;
    read_one(bytes.get(..count)?).err()
}

#[test]
fn sections_are_read(rt: HostRuntime) -> Result<(), Fail> {
    let mut stuffed = [0xFF; 20];
    stuffed[..16].copy_from_slice(&PAT);
    for bytes in [PAT.as_slice(), stuffed.as_slice()] {
        let section = read_one(bytes).ok().ok_or("no section")?;
        assert!(rt; header_of(&section) == (0, 1, 0, true, 0, 0));
        let body = [0x00, 0x01, 0xF0, 0x00];
        assert!(rt; section.body() == body.as_slice() && section.whole() == PAT.as_slice());
    }
    for (place, byte, count, fault) in &FAULTS {
        assert!(rt; fault_of(*place, *byte, *count) == Some(*fault));
    }
    Ok(())
}

#[test]
fn long_sections(rt: HostRuntime) -> Result<(), Fail> {
    // How many bytes the body has, and section_length.
    for (body, length) in [(4084usize, 4093u16), (4085, 4094)] {
        let mut bytes = vec![in rt.alloc(); 0; body + 12]?;
        let [high, low] = length.to_be_bytes();
        bytes[1] = 0xB0 | high;
        bytes[2] = low;
        seal(&mut bytes);
        let fault = read_one(&bytes).err();
        assert!(rt;
            fault
                == if length == 4093 {
                    None
                } else {
                    Some(SectionFault::Length)
                }
        );
    }
    Ok(())
}

#[test]
fn sections_are_written(rt: HostRuntime) {
    let header = Header {
        table_id: 0,
        extension: 1,
        number: 0,
        last_number: 0,
    };
    let mut section = [0; 16];
    section[..8].copy_from_slice(&header.bytes(4));
    section[8..12].copy_from_slice(&[0x00, 0x01, 0xF0, 0x00]);
    seal(&mut section);
    assert!(rt; section == PAT);
    let other = Header {
        table_id: 0x82,
        extension: 0x1234,
        number: 5,
        last_number: 6,
    };
    assert!(rt; other.bytes(147) == [0x82, 0xB0, 0x9C, 0x12, 0x34, 0xC1, 0x05, 0x06]);
}

// A packet: whether a unit starts in it, its counter and its payload.
type Fed = (bool, u8, &'static [u8]);

// How many sections each packet completes, and the bytes of all of them.
fn assembled(alloc: Global, packets: &[Fed]) -> Result<(Vec<usize>, Vec<u8>), Fail> {
    let mut counts = Vec::new(alloc);
    let mut bytes = Vec::new(alloc);
    let mut assembler = Assembler::new(alloc).ok().ok_or("no memory")?;
    for (unit_start, counter, payload) in packets {
        if *counter >= 16 || payload.len() > 184 {
            return Err("no packet".into());
        }
        assembler.feed(*unit_start, *counter, payload);
        let mut count = 0usize;
        while let Some(section) = assembler.next() {
            bytes.extend_from_slice(section)?;
            count = count.saturating_add(1);
        }
        counts.push(count)?;
    }
    Ok((counts, bytes))
}

// Two sections after pointer 0, and stuffing.
const TWO: &[u8] = &[
    0x00, 0x00, 0xB0, 0x0D, 0x00, 0x01, 0xC1, 0x00, 0x00, 0x00, 0x01, 0xF0, 0x00, 0x2A, 0xB1, 0x04,
    0xB2, 0x00, 0xB0, 0x0D, 0x00, 0x01, 0xC1, 0x00, 0x00, 0x00, 0x01, 0xF0, 0x00, 0x2A, 0xB1, 0x04,
    0xB2, 0xFF, 0xFF, 0xFF,
];

// Seven bytes of the section after pointer 0; the other nine; these after a pointer, and stuffing.
const BEFORE: &[u8] = &[0x00, 0x00, 0xB0, 0x0D, 0x00, 0x01, 0xC1, 0x00];

const REST: &[u8] = &[0x00, 0x00, 0x01, 0xF0, 0x00, 0x2A, 0xB1, 0x04, 0xB2];

const TAIL: &[u8] = &[
    0x09, 0x00, 0x00, 0x01, 0xF0, 0x00, 0x2A, 0xB1, 0x04, 0xB2, 0xFF, 0xFF,
];

const PAST: &[u8] = &[3, 0, 0];

const OVERLONG: &[u8] = &[0x00, 0x00, 0xBF, 0xFE, 0x00];

const SECTION: &[u8] = &PAT;

// Packets, and how many sections each completes.
static FED: [(&[Fed], &[usize]); 9] = [
    // Two in one payload; the duplicate is passed over.
    (&[(true, 5, TWO), (true, 5, TWO)], &[2, 0]),
    // In two packets, with no unit start in the second, and with one.
    (&[(true, 15, BEFORE), (false, 0, REST)], &[0, 1]),
    (&[(true, 1, BEFORE), (true, 2, TAIL)], &[0, 1]),
    // A packet without payload and a duplicate between them.
    (
        &[
            (true, 1, BEFORE),
            (false, 7, &[]),
            (true, 1, BEFORE),
            (false, 2, REST),
        ],
        &[0, 0, 0, 1],
    ),
    // A counter is missing.
    (&[(true, 1, BEFORE), (false, 3, REST)], &[0, 0]),
    // A pointer that passes the payload, whose counter is still the last one.
    (
        &[(true, 1, BEFORE), (true, 2, PAST), (false, 3, REST)],
        &[0, 0, 0],
    ),
    // No section is in the making.
    (&[(false, 1, SECTION)], &[0]),
    // Bytes that are left over without unit start are passed over.
    (
        &[(true, 1, BEFORE), (false, 2, REST), (false, 3, SECTION)],
        &[0, 1, 0],
    ),
    // section_length is above 4,093.
    (&[(true, 1, OVERLONG), (false, 2, SECTION)], &[0, 0]),
];

// Whether the sections are this PAT, one after the other.
fn are_pats(sections: &[u8]) -> bool {
    for section in sections.chunks(16) {
        if section != PAT.as_slice() {
            return false;
        }
    }
    true
}

#[test]
fn sections_are_assembled(rt: HostRuntime) -> Result<(), Fail> {
    for (packets, counts) in &FED {
        let (each, bytes) = assembled(rt.alloc(), packets)?;
        assert!(rt; each.as_slice() == *counts);
        assert!(rt; are_pats(&bytes));
    }
    Ok(())
}

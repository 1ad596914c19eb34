use crate::ends::sink;
use sd_engine::{MOST_SAMPLE_PACKETS, sample};
use sd_ports::PortFault;
use sha2::{Digest, Sha256};
use std::alloc::{AllocError, Global};

// A stream in a sink with so much room, which takes so many bytes a write and fails at one write.
fn written(
    alloc: Global,
    (number, packets): (u32, u32),
    (room, most, failing): (usize, usize, u32),
) -> Result<(Result<(), PortFault>, Vec<u8>), AllocError> {
    let mut sink = sink(alloc, room, most, failing)?;
    let result = sample(number, packets.min(MOST_SAMPLE_PACKETS), &mut sink);
    Ok((result, sink.into_bytes()))
}

// Numbers, counts of packets, and the SHA-256 of the streams.
static SUMS: [(u32, u32, [u8; 32]); 5] = [
    (
        0,
        0,
        [
            0xE3, 0xB0, 0xC4, 0x42, 0x98, 0xFC, 0x1C, 0x14, 0x9A, 0xFB, 0xF4, 0xC8, 0x99, 0x6F,
            0xB9, 0x24, 0x27, 0xAE, 0x41, 0xE4, 0x64, 0x9B, 0x93, 0x4C, 0xA4, 0x95, 0x99, 0x1B,
            0x78, 0x52, 0xB8, 0x55,
        ],
    ),
    (
        0,
        4,
        [
            0xFC, 0xC9, 0x46, 0x78, 0x9D, 0x7B, 0xFF, 0xB6, 0x6D, 0x1E, 0x80, 0x0F, 0x0E, 0x51,
            0xA9, 0x67, 0x9B, 0x58, 0x25, 0x52, 0xF3, 0x72, 0x5D, 0x0C, 0xD8, 0xDD, 0x30, 0xB7,
            0xFC, 0x56, 0x5F, 0xFE,
        ],
    ),
    (
        7,
        600,
        [
            0x39, 0xE4, 0x91, 0x1F, 0xDC, 0x85, 0xD3, 0x9B, 0xAD, 0xB8, 0x42, 0x5A, 0x8E, 0x28,
            0x72, 0xBA, 0x38, 0x82, 0x5E, 0xF3, 0x29, 0xE6, 0x19, 0x6A, 0xF2, 0xB2, 0x66, 0xD1,
            0x1F, 0xB3, 0x63, 0x4C,
        ],
    ),
    (
        1,
        10007,
        [
            0xA1, 0xB5, 0xEF, 0x24, 0x78, 0x8D, 0xA0, 0x70, 0x55, 0x31, 0x93, 0x52, 0x1A, 0x34,
            0x9B, 0xFC, 0x67, 0xD0, 0xEB, 0x4D, 0xFF, 0xDF, 0xC9, 0x91, 0x99, 0x6B, 0xA3, 0xB0,
            0x39, 0xB5, 0x9E, 0x23,
        ],
    ),
    (
        4294967295,
        257,
        [
            0xB7, 0x9C, 0xAE, 0xDD, 0x1E, 0xF5, 0x2A, 0xD7, 0x36, 0xBD, 0x71, 0x6F, 0xF9, 0x94,
            0x3F, 0x54, 0x2E, 0x2C, 0x2A, 0x43, 0xC1, 0xCF, 0x9B, 0x7A, 0x5B, 0x05, 0xEE, 0x3B,
            0xBE, 0x6C, 0xD2, 0x55,
        ],
    ),
];

// Whether the stream has this sum.
fn has_sum(alloc: Global, number: u32, packets: u32, sum: &[u8; 32]) -> Result<bool, AllocError> {
    let (result, bytes) = written(alloc, (number, packets), (2000000, 5000, u32::MAX))?;
    Ok(result.is_ok() && Sha256::digest(&bytes) == *sum)
}

#[test]
fn streams_have_their_sums(rt: HostRuntime) -> Result<(), AllocError> {
    for (number, packets, sum) in &SUMS {
        assert!(rt;
            has_sum(rt.alloc(), *number, *packets, sum)?,
            "{number} {packets}"
        );
    }
    let (_, bytes) = written(rt.alloc(), (0, 4), (1000, 1000, 9))?;
    assert!(rt;
        bytes.len() == 752 && &bytes[564..569] == [0x47, 0x01, 0x01, 0x10, 0x14].as_slice()
    );
    Ok(())
}

// Room, bytes a write, the write that fails, and how many bytes are held then.
type Fault = (usize, usize, u32, usize);

static FAULTS: [Fault; 4] = [
    (20000, 40000, 9, 12032),
    (40000, 1000, 20, 19032),
    (40000, 40000, 2, 24064),
    (40000, 40000, 0, 0),
];

// Whether a fault leaves its prefix of the whole stream.
fn is_cut(alloc: Global, whole: &[u8], fault: &Fault) -> Result<bool, AllocError> {
    let (room, most, failing, prefix) = *fault;
    let (result, bytes) = written(alloc, (7, 200), (room, most, failing))?;
    Ok(result.is_err() && Some(bytes.as_slice()) == whole.get(..prefix))
}

#[test]
fn a_prefix_was_written_before_a_fault(rt: HostRuntime) -> Result<(), AllocError> {
    let (result, whole) = written(rt.alloc(), (7, 200), (40000, 40000, 9))?;
    assert!(rt; result.is_ok() && whole.len() == 37600);
    for fault in &FAULTS {
        assert!(rt; is_cut(rt.alloc(), &whole, fault)?, "{}", fault.3);
    }
    Ok(())
}

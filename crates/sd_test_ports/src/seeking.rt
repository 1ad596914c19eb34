use crate::ends::{sink, source};
use crate::engine::packet;
use sd_engine::{Ahead, seek};
use std::alloc::{AllocError, Global};

/// What is put in place of the bytes of a stream from `from` up to, not including, `to`, and what is found then.
struct Damage {
    from: usize,
    to: usize,
    put: &'static [u8],
    numbers: &'static [u8],
    skipped: u64,
}

static DAMAGES: [Damage; 8] = [
    Damage {
        from: 0,
        to: 0,
        put: &[],
        numbers: &[0, 1, 2, 3, 4],
        skipped: 0,
    },
    Damage {
        from: 0,
        to: 940,
        put: &[],
        numbers: &[],
        skipped: 0,
    },
    // The sync byte of packet 2 is another byte.
    Damage {
        from: 376,
        to: 377,
        put: &[0x46],
        numbers: &[0, 3, 4],
        skipped: 376,
    },
    // A byte of packet 2 is missing.
    Damage {
        from: 476,
        to: 477,
        put: &[],
        numbers: &[0, 1, 3, 4],
        skipped: 187,
    },
    // Ten bytes are before packet 2.
    Damage {
        from: 376,
        to: 376,
        put: &[0, 0x47, 0, 0x47, 0, 0, 0, 0, 0, 0],
        numbers: &[0, 2, 3, 4],
        skipped: 198,
    },
    // The stream begins within packet 0.
    Damage {
        from: 0,
        to: 77,
        put: &[],
        numbers: &[1, 2, 3, 4],
        skipped: 111,
    },
    // It ends within packet 4.
    Damage {
        from: 812,
        to: 940,
        put: &[],
        numbers: &[0, 1, 2, 3],
        skipped: 60,
    },
    // All bytes are sync bytes.
    Damage {
        from: 0,
        to: 940,
        put: &[0x47; 1000],
        numbers: &[0x47; 5],
        skipped: 60,
    },
];

// A stream of five packets that is damaged so.
fn damaged(alloc: Global, damage: &Damage) -> Result<Vec<u8>, AllocError> {
    let packets = [packet(0), packet(1), packet(2), packet(3), packet(4)];
    let sent = packets.as_flattened();
    let mut stream = Vec::new(alloc);
    stream.extend_from_slice(sent.get(..damage.from).unwrap_or_default())?;
    stream.extend_from_slice(damage.put)?;
    stream.extend_from_slice(sent.get(damage.to..).unwrap_or_default())?;
    Ok(stream)
}

// The numbers of the packets that are found in a stream of which a read gives so many bytes, and how many bytes are
// skipped.
fn found(alloc: Global, stream: &[u8], most: usize) -> Result<(Vec<u8>, u64), AllocError> {
    let mut source = source(alloc, stream, most, 9999)?;
    let mut sink = sink(alloc, 1, 1, 9999)?;
    let mut piece = [0; 400];
    let mut ahead = Ahead {
        at: 0,
        filled: 0,
        ended: false,
    };
    let mut numbers = Vec::new(alloc);
    let mut skipped = 0;
    for _turn in 0..9 {
        match seek(&mut source, &mut sink, &mut piece, ahead, &mut skipped) {
            Ok((Some(packet), rest)) => {
                numbers.push(packet.bytes()[2])?;
                ahead = rest;
            }
            Ok((None, _)) => break,
            Err(_) => return Err(AllocError),
        }
    }
    Ok((numbers, skipped))
}

#[test]
fn whole_packets_are_found_among_other_bytes(rt: HostRuntime) -> Result<(), AllocError> {
    for damage in &DAMAGES {
        let stream = damaged(rt.alloc(), damage)?;
        for most in [1, 188, 189, 999] {
            let (numbers, skipped) = found(rt.alloc(), &stream, most)?;
            assert!(rt; &numbers[..] == damage.numbers && skipped == damage.skipped);
        }
    }
    Ok(())
}

ghost use Rattle.std.specs.Prelude.{◌<◌, ◌^◌};

use sd_message::Place;
use sd_packet::{Packet, pack_section};
use sd_ports::MemSink;
use sd_receive::{BufferFault, PacketBuffer};
use std::alloc::{AllocError, Global};

// A PID, a system, and the PID of its control messages.
const PID: u16 = 0x0200;

const CA: u16 = 0x1234;

const ECM: u16 = 0x01F1;

// A control word.
static WORD: [u8; 32] = [
    0x46, 0x7D, 0x7D, 0xF6, 0xB5, 0xA2, 0xEC, 0x89, 0xFC, 0x9C, 0x98, 0x0F, 0xAB, 0x43, 0x83, 0x97,
    0xF8, 0x94, 0x85, 0x7F, 0x6E, 0x27, 0x6C, 0x6C, 0xF3, 0xC8, 0xC5, 0x9C, 0x09, 0x43, 0xD6, 0x79,
];

// A packet with one byte of payload and counter 3; scrambled under the word at position 1,000,003.
fn packet(control: u8, byte: u8) -> Packet {
    let mut bytes = [0xFF; 188];
    bytes[..6].copy_from_slice(&[0x47, 0x02, 0x00, control, 0xB6, 0x00]);
    bytes[187] = byte;
    Packet::new(bytes).unwrap()
}

// A PMT with the descriptor of the system, and the PMT without it.
static MARKED: [u8; 32] = [
    0x02, 0xB0, 0x1D, 0x00, 0x01, 0xC1, 0x00, 0x00, 0xE1, 0x00, 0xF0, 0x06, 0x09, 0x04, 0x12, 0x34,
    0xE1, 0xF1, 0x1B, 0xE1, 0x00, 0xF0, 0x00, 0x0F, 0xE1, 0x01, 0xF0, 0x00, 0xB0, 0x6C, 0xC7, 0xBD,
];

static PMT: [u8; 26] = [
    0x02, 0xB0, 0x17, 0x00, 0x01, 0xC1, 0x00, 0x00, 0xE1, 0x00, 0xF0, 0x00, 0x1B, 0xE1, 0x00, 0xF0,
    0x00, 0x0F, 0xE1, 0x01, 0xF0, 0x00, 0x2F, 0x44, 0xB9, 0x9B,
];

// What is answered for a packet that is held so often from a position on, numbered from 7 on, once a PID is at a
// position; and what a sink with so much room takes.
#[tactic(auto, using(crate::proofs::Places::one_place, crate::proofs::Places::one_short))]
fn written(
    alloc: Global,
    held: (&Packet, u64),
    start: (u32, u64),
    next: Place,
    room: usize,
) -> Result<(Result<u64, BufferFault>, Vec<u8>), AllocError>
    requires start { start.1 < 2 ^ 48 }
    requires next { next.position < 2 ^ 48 }
{
    let Ok(mut sink) = MemSink::new(alloc, room, 188, Vec::new(alloc)) else {
        return Err(AllocError);
    };
    let Ok(mut buffer) = PacketBuffer::new(alloc) else {
        return Err(AllocError);
    };
    let first = Place {
        pid: PID,
        position: start.1,
    };
    buffer.open(start.0, WORD, &[first]);
    for k in 0..held.1 {
        buffer.hold(k.saturating_add(7), held.0);
    }
    let result = buffer.write(CA, ECM, &[next], &mut sink);
    Ok((result, sink.into_bytes()))
}

// What is held or written: the packet under the word, the same in the clear, the PMT with the descriptor, that without.
#[derive(Clone, Copy)]
enum Kind {
    Dark,
    Clear,
    Marked,
    Plain,
}

impl Kind {
    // A packet of this kind.
    fn packet(self) -> Packet {
        match self {
            Kind::Dark => packet(0xB3, 0xD6),
            Kind::Clear => packet(0x33, 0xCF),
            Kind::Marked => pack_section(&MARKED, 0x1000, 7),
            Kind::Plain => pack_section(&PMT, 0x1000, 7),
        }
    }
}

// The packet held, the word's number, where its PID starts, where a PID then is, the answer, the packet written.
type Row = (
    Kind,
    u32,
    u64,
    (u16, u64),
    Result<u64, BufferFault>,
    Option<Kind>,
);

static CONFIRMED: [Row; 8] = [
    (
        Kind::Dark,
        8,
        999_987,
        (PID, 1_000_003),
        Ok(1),
        Some(Kind::Clear),
    ),
    (
        Kind::Dark,
        8,
        1_000_002,
        (PID, 1_000_018),
        Ok(1),
        Some(Kind::Clear),
    ),
    (Kind::Dark, 8, 1_000_002, (PID, 1_000_019), Ok(0), None),
    (Kind::Dark, 8, 1_000_002, (PID, 1_000_002), Ok(0), None),
    (Kind::Dark, 8, 1_000_002, (0x0201, 1_000_003), Ok(0), None),
    (
        Kind::Dark,
        9,
        1_000_002,
        (PID, 1_000_003),
        Err(BufferFault::Parity(7)),
        None,
    ),
    (
        Kind::Clear,
        8,
        1_000_002,
        (0x0201, 0),
        Ok(1),
        Some(Kind::Clear),
    ),
    (
        Kind::Marked,
        8,
        1_000_002,
        (0x0201, 0),
        Ok(1),
        Some(Kind::Plain),
    ),
];

// Whether these are the bytes of one such packet, or none.
fn are_of(bytes: &[u8], due: Option<Kind>) -> bool {
    match due {
        Some(kind) => bytes == kind.packet().bytes().as_slice(),
        None => bytes.is_empty(),
    }
}

// Whether the row's packet, held once, is answered and written as the row says.
fn is_written(alloc: Global, row: &Row) -> Result<bool, AllocError> {
    let (held, number, from, (pid, position), answer, due) = *row;
    if from >= 1 << 48 || position >= 1 << 48 {
        return Ok(false);
    }
    let next = Place { pid, position };
    let (result, bytes) = written(alloc, (&held.packet(), 1), (number, from), next, 376)?;
    Ok(result == answer && are_of(&bytes, due))
}

#[test]
fn packets_are_written_as_they_are_confirmed(rt: HostRuntime) -> Result<(), AllocError> {
    for row in &CONFIRMED {
        assert!(rt; is_written(rt.alloc(), row)?);
    }
    Ok(())
}

// How often the packet is held, the packets that there is room for, the answer, how many are written.
static HELD: [(u64, u16, Result<u64, BufferFault>, u16); 3] = [
    (4096, 4096, Ok(4096), 4096),
    (4097, 4097, Ok(0), 0),
    (2, 1, Err(BufferFault::Write), 1),
];

#[test]
fn so_many_packets_are_held(rt: HostRuntime) -> Result<(), AllocError> {
    let clear = Kind::Clear.packet();
    let first = Place {
        pid: PID,
        position: 15,
    };
    for (count, room, answer, taken) in &HELD {
        let room = usize::from(*room) * 188;
        let (result, bytes) = written(rt.alloc(), (&clear, *count), (8, 15), first, room)?;
        assert!(rt; (result, bytes.len()) == (*answer, usize::from(*taken) * 188));
    }
    Ok(())
}

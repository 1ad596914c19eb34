ghost use Rattle.std.specs.Prelude.{◌≡◌, ◌<◌, None, []};

use crate::ends::{sink, source};
use sd_base::Steps;
use sd_engine::{DriveFault, Stage, StageFault, drive};
use sd_packet::{Packet, SIZE};
use sd_ports::{MemSink, PortFault, Sink, read_all, write_all};
use sd_ports_memory::MemSource;
use std::alloc::{AllocError, Global};
use std::marker::Brand;
use std::sync::ledger::{Blank, Ledger};

/// A stage that copies the packets, and refuses the one of the number `bad` by its number.
#[derive(Drop)]
struct Copier {
    number: u64,
    bad: u64,
    refused: Option<u64>,
}

impl<K: Sink, L: Ledger> Stage<K, L> for Copier {
    type Fault = u64;

    ghost live = { λ s. Unit {0} };

    ghost kept = { λ s. s.refused };

    ghost does = { λ s packet t bytes steps. bytes ≡ packet };

    ghost ends = { λ s t bytes steps. bytes ≡ [] };

    ghost refuses = { λ s packet fault t bytes steps. bytes ≡ [] };

    fn offer(
        &mut self,
        packet: &Packet,
        out: &mut K,
        steps: &mut Steps<L>,
    ) -> Result<(), StageFault<u64>> {
        if let Some(fault) = self.refused {
            return Err(StageFault::Refused(fault));
        }
        if self.number == self.bad {
            self.refused = Some(self.number);
            return Err(StageFault::Refused(self.number));
        }
        self.number = self.number.saturating_add(1);
        match write_all(out, packet.bytes()) {
            Ok(()) => Ok(()),
            Err(_) => Err(StageFault::Write),
        }
    }

    fn close(&mut self, out: &mut K, steps: &mut Steps<L>) -> Result<(), StageFault<u64>> {
        match self.refused {
            Some(fault) => Err(StageFault::Refused(fault)),
            None => Ok(()),
        }
    }
}

/// A sink that keeps what it takes until it is handed on, which fails at the call of this number.
#[derive(Drop)]
struct Keeper {
    waiting: u64,
    handed: u64,
    failing: u64,
    faults: u64,
}

impl Sink for Keeper {
    ghost held = { λ s. None };

    ghost faults = { λ s. s.faults };

    ghost room = { λ s. None };

    ghost waits = { λ s. s.waiting };

    fn write(&mut self, piece: &[u8]) -> Result<usize, PortFault> {
        self.waiting = self.waiting.saturating_add(piece.len() as u64);
        Ok(piece.len())
    }

    fn hand_on(&mut self) -> Result<(), PortFault> {
        if self.handed == self.failing {
            self.faults = self.faults.saturating_add(1);
            return Err(PortFault);
        }
        self.handed = self.handed.saturating_add(1);
        self.waiting = 0;
        Ok(())
    }
}

type Answer = Result<u64, DriveFault<u64>>;

// What a drive answers where packet `bad` is refused.
fn driven<L: Ledger, K: Sink>(
    source: &mut MemSource,
    sink: &mut K,
    bad: u64,
    blank: Blank,
) -> Answer
    requires name { blank.name ≡ L.name }
    requires parts { blank.parts ≡ L.parts }
    requires some { 0 < blank.parts }
{
    let mut stage = Copier {
        number: 0,
        bad,
        refused: None,
    };
    let mut steps = Steps::<L>::new(blank);
    drive(source, sink, &mut stage, &mut steps)
}

// A packet with this number in it.
pub(crate) fn packet(number: u8) -> [u8; SIZE] {
    let mut bytes = [0xFF; SIZE];
    bytes[..4].copy_from_slice(&[0x47, 0x01, number, 0x10]);
    bytes
}

// The packet that is refused, the bytes of a read, the read and the write that fail, the answer, how many packets are
// copied, and how many bytes are left to read.
type Drive = (u64, usize, u32, u32, Answer, usize, usize);

static DRIVES: [Drive; 8] = [
    (9, 1, 999, 999, Ok(5), 5, 0),
    (9, 187, 999, 999, Ok(5), 5, 0),
    (9, 189, 999, 999, Ok(5), 5, 0),
    (9, 376, 999, 999, Ok(5), 5, 0),
    (2, 188, 999, 999, Err(DriveFault::Refused(2)), 2, 376),
    (2, 376, 999, 999, Err(DriveFault::Refused(2)), 2, 188),
    (9, 188, 999, 1, Err(DriveFault::WriteFault), 1, 564),
    (9, 188, 3, 999, Err(DriveFault::ReadFault), 3, 376),
];

// Whether the packets before this one were copied, and the last bytes, so many, were left.
fn is_split(stream: &[u8], out: &[u8], copied: usize, left: &[u8], rest: usize) -> bool {
    Some(out) == stream.get(..copied.saturating_mul(SIZE))
        && Some(left) == stream.get(stream.len().saturating_sub(rest)..)
}

// Whether a drive of the stream is answered as the row says, and copies and leaves so many bytes.
fn is_driven(alloc: Global, stream: &[u8], row: &Drive) -> Result<bool, AllocError> {
    let (bad, most, read, write, answer, copied, rest) = *row;
    let mut source = source(alloc, stream, most, read)?;
    let mut sink = sink(alloc, 1000, SIZE, write)?;
    let result = driven::<Brand, MemSink>(&mut source, &mut sink, bad, Blank::new(1));
    let Ok(left) = read_all(alloc, &mut source, stream.len()) else {
        return Err(AllocError);
    };
    Ok(result == answer && is_split(stream, sink.bytes(), copied, &left, rest))
}

#[test]
fn packets_are_offered_up_to_the_first_fault(rt: HostRuntime) -> Result<(), AllocError> {
    let packets = [packet(0), packet(1), packet(2), packet(3), packet(4)];
    for row in &DRIVES {
        assert!(rt; is_driven(rt.alloc(), packets.as_flattened(), row)?);
    }
    Ok(())
}

// The call that fails, the answer, how many calls handed on, and how many bytes wait then. A read gives one packet.
static HANDED: [(u64, Answer, u64, u64); 3] = [
    (0, Err(DriveFault::WriteFault), 0, 0),
    (2, Err(DriveFault::WriteFault), 2, 188),
    (9, Ok(3), 4, 0),
];

// Whether three packets that a sink keeps until it hands them on are answered so.
fn is_handed(alloc: Global, row: &(u64, Answer, u64, u64)) -> Result<bool, AllocError> {
    let (failing, answer, handed, waiting) = *row;
    let packets = [packet(0), packet(1), packet(2)];
    let mut source = source(alloc, packets.as_flattened(), SIZE, 999)?;
    let mut sink = Keeper {
        waiting: 0,
        handed: 0,
        failing,
        faults: 0,
    };
    let result = driven::<Brand, Keeper>(&mut source, &mut sink, 9, Blank::new(1));
    Ok(result == answer && (sink.handed, sink.waiting) == (handed, waiting))
}

#[test]
fn what_waits_is_handed_on_before_a_read(rt: HostRuntime) -> Result<(), AllocError> {
    for row in &HANDED {
        assert!(rt; is_handed(rt.alloc(), row)?);
    }
    Ok(())
}

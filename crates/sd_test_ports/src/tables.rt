ghost use Rattle.std.specs.Prelude.{◌≡◌, ◌<◌};
ghost use Rattle.sd_run_streams.specs.InspectorStaged.{IsInspectorReady, inspector_state};

use crate::ends::{sink, source};
use crate::sections::{PAT, PMT};
use sd_base::{NoMemory, Steps};
use sd_engine::{BreakCause, DriveFault, StreamBreak, drive};
use sd_packet::pack_section;
use sd_ports::MemSink;
use sd_ports_memory::MemSource;
use sd_run_streams::Inspector;
use std::alloc::{AllocError, Global};
use std::marker::Brand;
use std::sync::ledger::{Blank, Ledger};

const LINES: &str =
    "{\"packet\":0,\"pid\":0,\"programs\":[{\"number\":1,\"pid\":4096}],\"stream\":1,\"table\":\"pat\",\"version\":0}
{\"ca\":[],\"packet\":1,\"pcr\":256,\"pid\":4096,\"program\":1,\"streams\":[{\"ca\":[],\"pid\":256,\"type\":27},{\"ca\":[],\"pid\":257,\"type\":15}],\"table\":\"pmt\",\"version\":0}
";

// How many bytes the first line has, and both.
const FIRST: usize = 95;

const ALL: usize = 247;

// The first packets of the sample stream: of a PAT, of a PMT, and a null packet that begins with this byte.
fn sample(sync: u8) -> [[u8; 188]; 3] {
    let mut null = [0xFF; 188];
    null[..4].copy_from_slice(&[sync, 0x1F, 0xFF, 0x10]);
    [
        *pack_section(&PAT, 0, 0).bytes(),
        *pack_section(&PMT, 0x1000, 0).bytes(),
        null,
    ]
}

type Answer = Result<u64, DriveFault<NoMemory>>;

fn driven<L: Ledger>(
    source: &mut MemSource,
    sink: &mut MemSink,
    stage: &mut Inspector,
    blank: Blank,
) -> Answer
    requires name { blank.name ≡ L.name }
    requires parts { blank.parts ≡ L.parts }
    requires some { 0 < blank.parts }
    requires live { IsInspectorReady (inspector_state stage.old) }
{
    let mut steps = Steps::<L>::new(blank);
    drive(source, sink, stage, &mut steps)
}

// What a drive answers, and what is printed, where a read gives at most so many bytes, this read fails, and there is so
// much room for lines.
fn printed(
    alloc: Global,
    bytes: &[u8],
    most: usize,
    failing: u32,
    room: usize,
) -> Result<(Answer, Vec<u8>), AllocError> {
    let Ok(mut stage) = Inspector::new(alloc) else {
        return Err(AllocError);
    };
    let mut source = source(alloc, bytes, most, failing)?;
    let mut sink = sink(alloc, room, 100, u32::MAX)?;
    let result = driven::<Brand>(&mut source, &mut sink, &mut stage, Blank::new(1));
    Ok((result, sink.into_bytes()))
}

const TORN_AT_0: Answer = Err(DriveFault::Broken(StreamBreak {
    packet: 0,
    cause: BreakCause::Torn,
}));

const TORN_AT_2: Answer = Err(DriveFault::Broken(StreamBreak {
    packet: 2,
    cause: BreakCause::Torn,
}));

const NO_SYNC_AT_0: Answer = Err(DriveFault::Broken(StreamBreak {
    packet: 0,
    cause: BreakCause::NoSync,
}));

const NO_SYNC_AT_2: Answer = Err(DriveFault::Broken(StreamBreak {
    packet: 2,
    cause: BreakCause::NoSync,
}));

// The first byte of the third packet, which bytes are gone over, the bytes of a read, the read that fails, the room for
// lines, the answer, and how many bytes of lines are printed.
type Drive = (u8, usize, usize, usize, u32, usize, Answer, usize);

static DRIVES: [Drive; 12] = [
    (0x47, 0, 376, 1, 999, 1000, Ok(2), ALL),
    (0x47, 0, 376, 187, 999, 1000, Ok(2), ALL),
    (0x47, 0, 376, 189, 999, 1000, Ok(2), ALL),
    (0x47, 0, 376, 376, 999, 1000, Ok(2), ALL),
    (0x47, 0, 187, 376, 999, 1000, TORN_AT_0, 0),
    (0x47, 0, 0, 376, 999, 1000, Ok(0), 0),
    (0x47, 188, 564, 376, 999, 1000, Ok(2), 0),
    (0x47, 0, 563, 189, 999, 1000, TORN_AT_2, ALL),
    (0x46, 0, 564, 187, 999, 1000, NO_SYNC_AT_2, ALL),
    (0x47, 1, 564, 376, 999, 1000, NO_SYNC_AT_0, 0),
    (0x47, 0, 564, 300, 2, 1000, Err(DriveFault::ReadFault), ALL),
    (
        0x47,
        0,
        564,
        376,
        999,
        100,
        Err(DriveFault::WriteFault),
        FIRST,
    ),
];

// Whether a drive is answered, and its lines are printed, as the row says.
fn is_printed(alloc: Global, row: &Drive) -> Result<bool, AllocError> {
    let (sync, start, end, most, failing, room, answer, count) = *row;
    let packets = sample(sync);
    let Some(bytes) = packets.as_flattened().get(start..end) else {
        return Ok(false);
    };
    let (result, lines) = printed(alloc, bytes, most, failing, room)?;
    Ok(result == answer && Some(lines.as_slice()) == LINES.as_bytes().get(..count))
}

#[test]
fn sections_are_printed_as_they_are_read(rt: HostRuntime) -> Result<(), AllocError> {
    for row in &DRIVES {
        assert!(rt; is_printed(rt.alloc(), row)?);
    }
    Ok(())
}

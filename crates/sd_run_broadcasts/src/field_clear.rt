ghost use Rattle.std.specs.Prelude.{◌≡◌, ◌*◌, ◌≤◌, ◌++◌, ◌∷◌, [], IfOk, OnOk, length};
ghost use Rattle.sd_command_base.specs.Outside.{depot_state};
ghost use Rattle.sd_command_base.specs.Reads.{JudgedOutcome, FileOutcome};
ghost use Rattle.sd_run_broadcasts.specs.FieldClear.{BeginsWithPacket, broken_status};
ghost use Rattle.sd_run_broadcasts.specs.Field.{clear_of_file, told_clear};

use sd_base::NoMemory;
use sd_command_base::{LimitKind, Status, StreamRefusal, Word, read_bytes};
use sd_engine::{BreakCause, StreamBreak};
use sd_packet::{Packet, SIZE};
use sd_ports::Depot;
use std::alloc::Global;

/// The most bytes of a clear stream: those of 16,384 packets.
pub const MOST_CLEAR_BYTES: usize = 16_384 * SIZE;

/// The packets of the clear stream in the file of this argument.
pub fn read_clear<D: Depot>(
    alloc: Global,
    depot: &mut D,
    word: Word<'_>,
) -> Result<Vec<Packet>, Status>
    ensures value { FileOutcome (λ packets. packets.items) (clear_of_file word.entry.number) word.entry.text.now
        (depot_state D.Depot depot.old) (depot_state D.Depot depot.new) result }
    ensures few { IfOk result (λ packets. length packets.items ≤ 16384) }
{
    let bytes = read_bytes(
        alloc,
        depot,
        word,
        MOST_CLEAR_BYTES,
        LimitKind::FieldPackets,
    )?;
    cut(alloc, &bytes)
}

/// The packets of a clear stream of these bytes, or the status of the first that is torn or has no sync byte.
fn cut(alloc: Global, bytes: &[u8]) -> Result<Vec<Packet>, Status>
    ensures value { JudgedOutcome (λ packets. packets.items) (told_clear bytes.now) result }
    ensures few { IfOk result (λ packets. 188 * length packets.items ≤ length bytes.now) }
{
    let mut packets = Vec::new(alloc);
    let mut rest = bytes;
    while !rest.is_empty() {
        let packet = match first_packet(rest) {
            Ok(packet) => packet,
            Err(cause) => return Err(broken(packets.len(), cause)),
        };
        put(&mut packets, packet)?;
        rest = &rest[SIZE..];
    }
    Ok(packets)
}

/// Puts a packet at the end.
fn put(packets: &mut Vec<Packet>, packet: Packet) -> Result<(), NoMemory>
    ensures { OnOk result (packets.new.items ≡ packets.old.items ++ packet ∷ []) }
{
    match packets.push(packet) {
        Ok(()) => Ok(()),
        Err(_) => Err(NoMemory),
    }
}

/// The packet with which these bytes begin.
fn first_packet(bytes: &[u8]) -> Result<Packet, BreakCause>
    ensures { BeginsWithPacket bytes.now result }
{
    let Some(piece) = bytes.first_chunk::<SIZE>() else {
        return Err(BreakCause::Torn);
    };
    match Packet::new(*piece) {
        Some(packet) => Ok(packet),
        None => Err(BreakCause::NoSync),
    }
}

/// The status of a clear stream that breaks after this number of packets.
fn broken(packets: usize, cause: BreakCause) -> Status
    ensures { result ≡ broken_status packets cause }
{
    Status::BadClear(StreamRefusal::Broken(StreamBreak {
        packet: packets as u64,
        cause,
    }))
}

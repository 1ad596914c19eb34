ghost use Rattle.std.specs.Prelude.{◌≡◌, Err, IsErrOf};
ghost use Rattle.sd_base.specs.Count.{IsCaused};
ghost use Rattle.sd_engine.specs.Stage.{sink_state_of};
ghost use Rattle.sd_engine.specs.Driving.{drive_state_of, DriveOutcome, IsStageEnd, broken_by, overrun_by, stopped_by};

use crate::fault::StreamBreak;
use crate::feed::{FeedFault, Span, next};
use crate::stage::{Stage, StageFault};
use sd_base::Steps;
use sd_packet::SIZE;
use sd_ports::{Sink, Source};
use std::sync::ledger::Ledger;

/// The most packets of a stream.
pub const MOST_PACKETS: u64 = 1 << 48;

/// The bytes that are kept at once. A read has room for at least 64 KiB of them.
pub const ROOM: usize = 352 * SIZE;

/// Why a stream was not driven to its end.
#[derive(Clone, Copy, PartialEq, Eq)]
pub enum DriveFault<F> {
    /// Its bytes are no packets from here on.
    Broken(StreamBreak),
    /// More bytes stand after 2^48 packets.
    TooLong,
    /// A read failed.
    ReadFault,
    /// A write failed.
    WriteFault,
    /// The stage refused a packet, or the end.
    Refused(F),
}

/// Reads a stream to its end and offers its packets to the stage, one after the other, and then its end; answers how
/// many packets they were. Before each read, the sink hands on what waits in it. It takes no memory.
pub fn drive<S: Source, K: Sink, L: Ledger, G: Stage<K, L>>(
    source: &mut S,
    sink: &mut K,
    stage: &mut G,
    steps: &mut Steps<L>,
) -> Result<u64, DriveFault<G::Fault>>
    requires live { G.live stage.old }
    ensures value { DriveOutcome G.does G.ends G.refuses
        (drive_state_of (S.left source.old) (sink_state_of K.Sink sink.old) stage.old steps.old)
        (drive_state_of (S.left source.new) (sink_state_of K.Sink sink.new) stage.new steps.new) result }
    ensures read { IsCaused (S.faults source.old) (S.faults source.new) (IsErrOf result DriveFault.ReadFault) }
    ensures written { IsCaused (K.faults sink.old) (K.faults sink.new) (IsErrOf result DriveFault.WriteFault) }
{
    let mut piece = [0u8; ROOM];
    let mut span = Span { at: 0, filled: 0 };
    for count in 0..MOST_PACKETS {
        match next(source, sink, &mut piece, span) {
            Ok((Some(packet), rest)) => {
                span = rest;
                if let Err(fault) = stage.offer(&packet, sink, steps) {
                    return Err(stopped(fault));
                }
            }
            Ok((None, _)) => return close(sink, stage, steps, count),
            Err(fault) => return Err(broken(fault, count)),
        }
    }
    match next(source, sink, &mut piece, span) {
        Ok((None, _)) => close(sink, stage, steps, MOST_PACKETS),
        Ok((Some(_), _)) => Err(DriveFault::TooLong),
        Err(fault) => Err(overrun(fault)),
    }
}

/// Ends the stage after `count` packets.
fn close<K: Sink, L: Ledger, G: Stage<K, L>>(
    sink: &mut K,
    stage: &mut G,
    steps: &mut Steps<L>,
    count: u64,
) -> Result<u64, DriveFault<G::Fault>>
    requires live { G.live stage.old }
    ensures value { IsStageEnd G.ends G.refuses (sink_state_of K.Sink sink.old) (sink_state_of K.Sink sink.new)
        stage.old stage.new
        steps.old steps.new count result }
    ensures written { IsCaused (K.faults sink.old) (K.faults sink.new) (IsErrOf result DriveFault.WriteFault) }
{
    match stage.close(sink, steps) {
        Ok(()) => Ok(count),
        Err(fault) => Err(stopped(fault)),
    }
}

/// Why no packet came after `count` packets.
fn broken<F>(fault: FeedFault, count: u64) -> DriveFault<F>
    ensures { result ≡ broken_by count fault }
{
    match fault {
        FeedFault::Read => DriveFault::ReadFault,
        FeedFault::Write => DriveFault::WriteFault,
        FeedFault::Break(cause) => DriveFault::Broken(StreamBreak {
            packet: count,
            cause,
        }),
    }
}

/// Why no packet came after the most that a stream has.
fn overrun<F>(fault: FeedFault) -> DriveFault<F>
    ensures { result ≡ overrun_by fault }
{
    match fault {
        FeedFault::Read => DriveFault::ReadFault,
        FeedFault::Write => DriveFault::WriteFault,
        FeedFault::Break(_) => DriveFault::TooLong,
    }
}

/// Why the stage stopped the drive.
fn stopped<F: Copy>(fault: StageFault<F>) -> DriveFault<F>
    ensures { result ≡ stopped_by fault }
{
    match fault {
        StageFault::Write => DriveFault::WriteFault,
        StageFault::Refused(fault) => DriveFault::Refused(fault),
    }
}

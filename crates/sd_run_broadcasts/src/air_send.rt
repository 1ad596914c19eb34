ghost use Rattle.std.specs.Prelude.{◌≡◌, ◌<◌, ◌^◌, List, [], ℕ, length, IfOk, OnOk};
ghost use Rattle.sd_base.specs.Count.{IsCaused};
ghost use Rattle.sd_spec.specs.Plan.{Plan};
ghost use Rattle.sd_head.specs.Live.{IsLiveAfter, IsOnAir};
ghost use Rattle.sd_command_base.specs.Outcome.{status_of};
ghost use Rattle.sd_command_base.specs.Turned.{HasPortCause};
ghost use Rattle.sd_run_broadcasts.specs.OnAir.{fault_status, finished_status, report_after, status_in};
ghost use Rattle.sd_run_broadcasts.specs.OnAir.{Finishes, SendsLive, SendsPacket, Stops};
ghost use Rattle.sd_run_broadcasts.specs.Air.{air_line as line_of_report};
ghost use Rattle.sd_run_broadcasts.specs.Said.{NotesOn};
ghost use Rattle.sd_ports.specs.Bytes.{AppendsPrefix};

use crate::air_line::air_line;
use crate::air_report::AirReport;
use sd_base::Steps;
use sd_command_base::Status;
use sd_engine::{Ahead, MOST_PACKETS, ROOM, SeekFault, seek};
use sd_head::{Live, LiveFault, Taken};
use sd_packet::Packet;
use sd_ports::{Sink, Source, write_all};
use std::alloc::Global;
use std::sync::ledger::Ledger;

/// What came of a live stream that was sent to its end.
#[derive(Clone, Copy)]
pub struct Finished {
    /// What is reported of it.
    pub report: AirReport,
    /// Whether the site is used up: no number or control word is left for the next packet, or no more is read of the
    /// stream.
    pub used_up: bool,
}

impl Finished {
    /// How the command ends.
    pub fn result(self) -> Result<(), Status>
        ensures { status_of result ≡ finished_status self }
    {
        if self.used_up {
            Err(Status::SiteUsedUp(self.report.packets))
        } else {
            Ok(())
        }
    }
}

/// Sends what counts of the packets that are found in the rest of a source, and the closing message. As each period
/// begins, a report is written to `notes`.
pub fn send_live<S: Source, K: Sink, N: Sink, L: Ledger>(
    alloc: Global,
    source: &mut S,
    sink: &mut K,
    notes: &mut N,
    live: &mut Live,
    steps: &mut Steps<L>,
) -> Result<Finished, Status>
    requires { IsOnAir live.old }
    ensures value { (plan : Plan) → IsLiveAfter plan [] live.old →
        SendsLive plan (S.left source.old) (K.held sink.old) (K.held sink.new) result }
    ensures cause { HasPortCause (S.faults source.old) (S.faults source.new) (K.faults sink.old) (K.faults sink.new)
        (status_in result) }
    ensures notes { (plan : Plan) → IsLiveAfter plan [] live.old → NotesOn plan (N.held notes.old) (N.held notes.new) }
{
    let mut piece = [0u8; ROOM];
    let mut ahead = Ahead {
        at: 0,
        filled: 0,
        ended: false,
    };
    let mut skipped = 0;
    for count in 0..MOST_PACKETS {
        match seek(source, sink, &mut piece, ahead, &mut skipped) {
            Ok((Some(packet), rest)) => {
                ahead = rest;
                if !send_packet(alloc, sink, notes, live, &packet, skipped, steps)? {
                    return finish(sink, live, skipped, true, steps);
                }
            }
            Ok((None, _)) => return finish(sink, live, skipped, false, steps),
            Err(fault) => return stop(sink, live, fault, steps),
        }
    }
    match seek(source, sink, &mut piece, ahead, &mut skipped) {
        Ok((found, _)) => finish(sink, live, skipped, found.is_some(), steps),
        Err(fault) => stop(sink, live, fault, steps),
    }
}

/// Sends a packet, before which `skipped` bytes are in none, or leaves it out. Returns whether the broadcast goes on:
/// else it ends before the packet.
fn send_packet<K: Sink, N: Sink, L: Ledger>(
    alloc: Global,
    sink: &mut K,
    notes: &mut N,
    live: &mut Live,
    packet: &Packet,
    skipped: u64,
    steps: &mut Steps<L>,
) -> Result<bool, Status>
    requires { IsOnAir live.old }
    ensures value { (plan : Plan) (past : List (List ℕ)) → IsLiveAfter plan past live.old → length past < 2 ^ 48 →
        SendsPacket plan past packet.now (K.held sink.old) (K.held sink.new) live.old live.new result }
    ensures on { OnOk result (IsOnAir live.new) }
    ensures cause { IsCaused (K.faults sink.old) (K.faults sink.new) (status_in result ≡ Status.DepotFault) }
    ensures notes { (plan : Plan) (past : List (List ℕ)) → IsLiveAfter plan past live.old → length past < 2 ^ 48 →
        NotesOn plan (N.held notes.old) (N.held notes.new) }
{
    match live.take(packet, sink, steps) {
        Ok(Taken::On) => Ok(true),
        Ok(Taken::Begins) => {
            note(alloc, notes, live, skipped);
            Ok(true)
        }
        Ok(Taken::Full) => Ok(false),
        Err(fault) => Err(fault_of(fault)),
    }
}

/// The status of what stopped a head end.
fn fault_of(fault: LiveFault) -> Status
    ensures { result ≡ fault_status fault }
{
    match fault {
        LiveFault::Write => Status::DepotFault,
        LiveFault::NoMemory => Status::NoMemory,
    }
}

/// Sends the closing message. Before it `skipped` bytes are in no packet.
fn finish<K: Sink, L: Ledger>(
    sink: &mut K,
    live: &mut Live,
    skipped: u64,
    used_up: bool,
    steps: &mut Steps<L>,
) -> Result<Finished, Status>
    requires { IsOnAir live.old }
    ensures value { (plan : Plan) (past : List (List ℕ)) → IsLiveAfter plan past live.old →
        Finishes plan past skipped used_up (K.held sink.old) (K.held sink.new) result }
    ensures cause { IsCaused (K.faults sink.old) (K.faults sink.new) (status_in result ≡ Status.DepotFault) }
{
    // `close` may change what is reported, so that it is asked before.
    let report = report(live, skipped);
    match live.close(sink, steps) {
        Ok(()) => Ok(Finished { report, used_up }),
        Err(fault) => Err(fault_of(fault)),
    }
}

/// What comes of a stream in which nothing more is found for this cause.
fn stop<K: Sink, L: Ledger>(
    sink: &mut K,
    live: &mut Live,
    fault: SeekFault,
    steps: &mut Steps<L>,
) -> Result<Finished, Status>
    requires { IsOnAir live.old }
    ensures value { (plan : Plan) (past : List (List ℕ)) → IsLiveAfter plan past live.old →
        Stops plan past fault (K.held sink.old) (K.held sink.new) result }
    ensures cause { fault ≡ SeekFault.TooLong →
        IsCaused (K.faults sink.old) (K.faults sink.new) (status_in result ≡ Status.DepotFault) }
    ensures port { (fault ≡ SeekFault.TooLong → ⊥) →
        (status_in result ≡ Status.DepotFault) × (K.faults sink.new ≡ K.faults sink.old) }
{
    match fault {
        SeekFault::Read | SeekFault::Write => Err(Status::DepotFault),
        SeekFault::TooLong => finish(sink, live, u64::MAX, true, steps),
    }
}

/// Writes to `notes` what is reported if the broadcast ends here. It doesn't matter if this fails.
fn note<N: Sink>(alloc: Global, notes: &mut N, live: &Live, skipped: u64)
    ensures { (plan : Plan) (past : List (List ℕ)) → IsLiveAfter plan past live.now →
        NotesOn plan (N.held notes.old) (N.held notes.new) }
{
    write_noted(alloc, notes, &report(live, skipped));
}

/// Writes the line of a report to `notes`. It doesn't matter if this fails.
fn write_noted<N: Sink>(alloc: Global, notes: &mut N, report: &AirReport)
    ensures { AppendsPrefix (N.held notes.old) (N.held notes.new) (line_of_report report.now) }
{
    if let Ok(line) = air_line(alloc, report) {
        let _ = write_all(notes, &line);
    }
}

/// What is reported if the broadcast ends here, and `skipped` bytes are in no packet.
fn report(live: &Live, skipped: u64) -> AirReport
    ensures { (plan : Plan) (past : List (List ℕ)) → IsLiveAfter plan past live.now →
        result ≡ report_after plan past skipped }
{
    AirReport {
        left_out: live.left_out(),
        packets: live.packets(),
        sent: live.sent(),
        period: live.period(),
        word: live.word(),
        left: live.left(),
        skipped,
    }
}

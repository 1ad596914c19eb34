ghost use Rattle.std.specs.Prelude.{◌≡◌, ◌≢◌, ◌-◌, ◌<◌, ◌≤◌, ◌^◌, [], List, ℕ, true, length, IfErr, IfOk, OnOk};
ghost use Rattle.sd_base.specs.Count.{IsCaused};
ghost use Rattle.sd_spec.specs.Reports.{report_of};
ghost use Rattle.sd_watch.specs.Watching.{watcher_card, IsWatcherReady, IsWatching};
ghost use Rattle.sd_command_base.specs.Outside.{depot_state, page_state, io_state_at};
ghost use Rattle.sd_command_base.specs.Outcome.{Implements, status_of};
ghost use Rattle.sd_command_base.specs.Prints.{PrintsPiece};
ghost use Rattle.sd_command_base.specs.Reads.{FileOutcome, JudgedOutcome};
ghost use Rattle.sd_command_base.specs.Shown.{shown_word};
ghost use Rattle.sd_command_base.specs.Turned.{HasPortCause};
ghost use Rattle.sd_run_broadcasts.specs.Live.{TellsEnd, is_outside};
ghost use Rattle.sd_run_broadcasts.specs.Receive.{card_of_file, card_refusal};
ghost use Rattle.sd_run_broadcasts.specs.Watch.{watch_report_line as line_of_report, watch_meaning, watched_meaning};
ghost use Rattle.sd_run_broadcasts.specs.Watched.{IsWithinTries, WatchedPacketOutcome, WatchesLeft, seek_stop_status};

use crate::ending::ending_result;
use crate::watch_line::report_line;
use sd_base::Steps;
use sd_command_base::{
    Status, StreamRefusal, Word, card_fault, close_both, open_both, print_text, read_card_bytes,
};
use sd_engine::{Ahead, MOST_PACKETS, ROOM, SeekFault, seek};
use sd_packet::Packet;
use sd_ports::{Depot, Sink, Source};
use sd_site_cards::Card;
use sd_spec::Report;
use sd_watch::Watcher;
use std::alloc::Global;
use std::sync::ledger::Ledger;

/// Runs `watch CARD STREAM OUT`: what counts of a stream that may be damaged goes through the receiver of the card into
/// OUT, and a line is printed for each run as it ends [this project, docs/FORMATS.md, Receiver].
#[inline(never)]
pub fn watch<D: Depot, P: Sink, L: Ledger>(
    alloc: Global,
    depot: &mut D,
    print: &mut P,
    card: Word<'_>,
    stream: Word<'_>,
    out: Word<'_>,
    steps: &mut Steps<L>,
) -> Result<(), Status>
    requires { card.number ≢ stream.number }
    ensures { Implements (watch_meaning (shown_word card.entry) (shown_word stream.entry) (shown_word out.entry))
        (io_state_at D.Depot P.Sink depot.old print.old steps.old)
        (io_state_at D.Depot P.Sink depot.new print.new steps.new) (status_of result) }
{
    let watcher = read_watcher(alloc, depot, card)?;
    watch_file(alloc, depot, print, watcher, stream, out, steps)
}

/// The watcher with the card in the file of this argument, before the first packet. All memory that it needs is
/// allocated here.
fn read_watcher<D: Depot>(alloc: Global, depot: &mut D, word: Word<'_>) -> Result<Watcher, Status>
    ensures value { FileOutcome watcher_card (card_of_file word.entry.number) word.entry.text.now
        (depot_state D.Depot depot.old) (depot_state D.Depot depot.new) result }
    ensures new { IfOk result (IsWatching []) }
    ensures ready { IfOk result IsWatcherReady }
{
    let bytes = read_card_bytes(alloc, depot, word)?;
    judge_card(alloc, word.number, &bytes)
}

/// The watcher with the card that the bytes of this word's file say.
fn judge_card(alloc: Global, word: u8, bytes: &[u8]) -> Result<Watcher, Status>
    ensures value { JudgedOutcome watcher_card (card_refusal word bytes.now) result }
    ensures new { IfOk result (IsWatching []) }
    ensures ready { IfOk result IsWatcherReady }
{
    match Card::read(alloc, bytes) {
        Ok(card) => Ok(Watcher::new(alloc, card)?),
        Err(fault) => Err(card_fault(word, fault)),
    }
}

/// Turns the file of a stream into OUT, through the watcher. The last line is printed once OUT is closed.
fn watch_file<D: Depot, P: Sink, L: Ledger>(
    alloc: Global,
    depot: &mut D,
    print: &mut P,
    mut watcher: Watcher,
    stream: Word<'_>,
    out: Word<'_>,
    steps: &mut Steps<L>,
) -> Result<(), Status>
    requires new { IsWatching [] watcher }
    requires ready { IsWatcherReady watcher }
    ensures { Implements (watched_meaning (watcher_card watcher) (shown_word stream.entry) (shown_word out.entry))
        (io_state_at D.Depot P.Sink depot.old print.old steps.old)
        (io_state_at D.Depot P.Sink depot.new print.new steps.new) (status_of result) }
{
    let (mut inlet, mut outlet) = open_both(alloc, depot, stream, out)?;
    let mut skipped = 0;
    let ended = watch_all(
        alloc,
        &mut inlet,
        &mut outlet,
        print,
        &mut watcher,
        &mut skipped,
        steps,
    );
    let closed = close_both(depot, inlet, outlet, out, ended);
    tell_end(alloc, print, &watcher, skipped, closed)
}

/// Prints the last line, unless the outside stopped the command.
fn tell_end<P: Sink>(
    alloc: Global,
    print: &mut P,
    watcher: &Watcher,
    skipped: u64,
    ended: Result<(), Status>,
) -> Result<(), Status>
    ensures untold { (line : List ℕ) → is_outside (status_of ended) ≡ true →
        TellsEnd line (status_of ended) (page_state P.Sink print.old) (page_state P.Sink print.new) (status_of result) }
    ensures told { (s : List (List ℕ)) → IsWatching s watcher.now → length s ≤ 2 ^ 48 →
        TellsEnd (line_of_report (watcher_card watcher.now).leaf skipped (report_of (watcher_card watcher.now) s))
        (status_of ended) (page_state P.Sink print.old) (page_state P.Sink print.new) (status_of result) }
{
    if let Err(Status::DepotFault | Status::PrintFault | Status::NoMemory) = ended {
        return ended;
    }
    print_report(alloc, print, watcher, skipped, &watcher.report())?;
    ended
}

/// Prints the line of a report.
fn print_report<P: Sink>(
    alloc: Global,
    print: &mut P,
    watcher: &Watcher,
    skipped: u64,
    report: &Report,
) -> Result<(), Status>
    ensures value { PrintsPiece (line_of_report (watcher_card watcher.now).leaf skipped report.now)
        (page_state P.Sink print.old) (page_state P.Sink print.new) (status_of result) }
    ensures fault { IfErr result (λ status. is_outside status ≡ true) }
{
    let line = report_line(alloc, watcher.leaf().get(), skipped, report)?;
    print_text(print, &line)
}

/// Writes what the card opens of the packets that are found in the rest of a source, and prints a line before each that
/// turns to another run. The number of bytes that are in no packet is added to `skipped`. Returns how the stream ended.
pub fn watch_all<S: Source, K: Sink, P: Sink, L: Ledger>(
    alloc: Global,
    source: &mut S,
    sink: &mut K,
    print: &mut P,
    watcher: &mut Watcher,
    skipped: &mut u64,
    steps: &mut Steps<L>,
) -> Result<(), Status>
    requires new { IsWatching [] watcher.old }
    requires ready { IsWatcherReady watcher.old }
    requires none { skipped.old ≡ 0 }
    ensures value { WatchesLeft (watcher_card watcher.old) (S.left source.old) (K.held sink.old) (K.held sink.new)
        (page_state P.Sink print.old) (page_state P.Sink print.new) steps.old steps.new watcher.new skipped.new
        (status_of result) }
    ensures cause { HasPortCause (S.faults source.old) (S.faults source.new) (K.faults sink.old) (K.faults sink.new)
        (status_of result) }
{
    let mut piece = [0u8; ROOM];
    let mut ahead = Ahead {
        at: 0,
        filled: 0,
        ended: false,
    };
    for count in 0..MOST_PACKETS {
        match seek(source, sink, &mut piece, ahead, skipped) {
            Ok((Some(packet), rest)) => {
                ahead = rest;
                watch_packet(alloc, sink, print, watcher, &packet, *skipped, steps)?;
            }
            Ok((None, _)) => return ending_result(watcher.leaf().get(), watcher.ending()),
            Err(fault) => return stop(fault, skipped),
        }
    }
    match seek(source, sink, &mut piece, ahead, skipped) {
        Ok((Some(_), _)) => Err(Status::BadStream(StreamRefusal::TooLong)),
        Ok((None, _)) => ending_result(watcher.leaf().get(), watcher.ending()),
        Err(fault) => stop(fault, skipped),
    }
}

/// The result of a stream in which nothing more is found for this cause.
fn stop(fault: SeekFault, skipped: &mut u64) -> Result<(), Status>
    ensures value { status_of result ≡ seek_stop_status fault }
    ensures skipped { fault ≡ SeekFault.TooLong → skipped.new ≡ 2 ^ 64 - 1 }
{
    match fault {
        SeekFault::Read | SeekFault::Write => Err(Status::DepotFault),
        SeekFault::TooLong => {
            *skipped = u64::MAX;
            Err(Status::BadStream(StreamRefusal::TooLong))
        }
    }
}

/// Takes a packet, before which `skipped` bytes are in no packet, and prints the line of the run that it ends, if it
/// turns to another run.
fn watch_packet<K: Sink, P: Sink, L: Ledger>(
    alloc: Global,
    sink: &mut K,
    print: &mut P,
    watcher: &mut Watcher,
    packet: &Packet,
    skipped: u64,
    steps: &mut Steps<L>,
) -> Result<(), Status>
    requires ready { IsWatcherReady watcher.old }
    ensures value { (s : List (List ℕ)) → IsWatching s watcher.old → length s < 2 ^ 48 →
        WatchedPacketOutcome (watcher_card watcher.old) s packet.now skipped (K.held sink.old) (K.held sink.new)
        (page_state P.Sink print.old) (page_state P.Sink print.new) watcher.new (status_of result) }
    ensures steps { (s : List (List ℕ)) → IsWatching s watcher.old → length s < 2 ^ 48 →
        IsWithinTries (watcher_card watcher.old) s packet.now steps.old steps.new }
    ensures fault { IfErr result (λ status. is_outside status ≡ true) }
    ensures ready { OnOk result (IsWatcherReady watcher.new) }
    ensures cause { IsCaused (K.faults sink.old) (K.faults sink.new) (status_of result ≡ Status.DepotFault) }
{
    match watcher.watch(packet, sink, steps) {
        Ok(None) => Ok(()),
        Ok(Some(report)) => print_report(alloc, print, watcher, skipped, &report),
        Err(_) => Err(Status::DepotFault),
    }
}

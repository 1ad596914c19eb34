ghost use Rattle.std.specs.Prelude.{◌≡◌, ◌≢◌, [], List, ℕ, IfOk};
ghost use Rattle.sd_spec.specs.Ending.{ending_of};
ghost use Rattle.sd_receive.specs.Receiving.{HasReceived, receiver_card};
ghost use Rattle.sd_command_base.specs.Outside.{PageState, io_state, depot_state};
ghost use Rattle.sd_command_base.specs.Reads.{JudgedOutcome, FileOutcome};
ghost use Rattle.sd_command_base.specs.Outcome.{Implements, IsEnding, status_of};
ghost use Rattle.sd_command_base.specs.Turned.{HasPortCause};
ghost use Rattle.sd_run_broadcasts.specs.Receive.{ReceivesLeft, card_of_file, card_refusal, receive_meaning};
ghost use Rattle.sd_run_broadcasts.specs.Receive.{receive_stream_meaning};
ghost use Rattle.sd_run_broadcasts.specs.Receive.{ending_status, stopped_status};
ghost use Rattle.sd_command_base.specs.Shown.{shown_word};

use crate::ending::ending_result;
use sd_base::Steps;
use sd_command_base::{
    Status, StreamRefusal, Word, card_fault, close_both, open_both, read_card_bytes,
};
use sd_engine::{DriveFault, drive};
use sd_ports::{Depot, Sink, Source};
use sd_receive::{Receiver, StreamFault};
use sd_site_cards::Card;
use std::alloc::Global;
use std::sync::ledger::Ledger;

/// Runs `receive CARD STREAM OUT`: the stream goes through the receiver of the card into OUT [this project,
/// docs/FORMATS.md, Receiver].
#[inline(never)]
pub fn receive<D: Depot, L: Ledger>(
    alloc: Global,
    depot: &mut D,
    card: Word<'_>,
    stream: Word<'_>,
    out: Word<'_>,
    steps: &mut Steps<L>,
) -> Result<(), Status>
    requires { card.number ≢ stream.number }
    ensures value { (page : PageState) →
        Implements (receive_meaning (shown_word card.entry) (shown_word stream.entry) (shown_word out.entry))
        (io_state (depot_state D.Depot depot.old) page steps.old)
        (io_state (depot_state D.Depot depot.new) page steps.new)
        (status_of result) }
    // Out of memory, OUT isn't made.
    ensures memory { status_of result ≡ Status.NoMemory →
        (depot_state D.Depot depot.new).made ≡ (depot_state D.Depot depot.old).made }
{
    let receiver = read_receiver(alloc, depot, card)?;
    receive_file(alloc, depot, receiver, stream, out, steps)
}

/// The receiver of the card in the file of this argument, before the first packet. All memory that it needs is
/// allocated here.
fn read_receiver<D: Depot>(alloc: Global, depot: &mut D, word: Word<'_>) -> Result<Receiver, Status>
    ensures value { FileOutcome receiver_card (card_of_file word.entry.number) word.entry.text.now
        (depot_state D.Depot depot.old) (depot_state D.Depot depot.new) result }
    ensures new { IfOk result (HasReceived []) }
{
    let bytes = read_card_bytes(alloc, depot, word)?;
    judge_card(alloc, word.number, &bytes)
}

/// The receiver of the card that the bytes of this word's file say.
fn judge_card(alloc: Global, word: u8, bytes: &[u8]) -> Result<Receiver, Status>
    ensures value { JudgedOutcome receiver_card (card_refusal word bytes.now) result }
    ensures new { IfOk result (HasReceived []) }
{
    match Card::read(alloc, bytes) {
        Ok(card) => Ok(Receiver::new(alloc, card)?),
        Err(fault) => Err(card_fault(word, fault)),
    }
}

/// Turns the file of a stream into OUT, through the receiver.
fn receive_file<D: Depot, L: Ledger>(
    alloc: Global,
    depot: &mut D,
    receiver: Receiver,
    stream: Word<'_>,
    out: Word<'_>,
    steps: &mut Steps<L>,
) -> Result<(), Status>
    requires new { HasReceived [] receiver }
    ensures value { (page : PageState) →
        Implements (receive_stream_meaning (receiver_card receiver) (shown_word stream.entry) (shown_word out.entry))
        (io_state (depot_state D.Depot depot.old) page steps.old)
        (io_state (depot_state D.Depot depot.new) page steps.new)
        (status_of result) }
    ensures memory { status_of result ≡ Status.NoMemory →
        (depot_state D.Depot depot.new).made ≡ (depot_state D.Depot depot.old).made }
{
    let (mut inlet, mut outlet) = open_both(alloc, depot, stream, out)?;
    let ended = receive_all(&mut inlet, &mut outlet, receiver, steps);
    close_both(depot, inlet, outlet, out, ended)
}

/// Writes what the receiver opens of the rest of a source's stream, and returns how the stream ended.
pub fn receive_all<S: Source, K: Sink, L: Ledger>(
    source: &mut S,
    sink: &mut K,
    mut receiver: Receiver,
    steps: &mut Steps<L>,
) -> Result<(), Status>
    requires new { HasReceived [] receiver }
    ensures value { ReceivesLeft (receiver_card receiver) (S.left source.old) (K.held sink.old) (K.held sink.new)
        steps.old steps.new (status_of result) }
    ensures cause { HasPortCause (S.faults source.old) (S.faults source.new) (K.faults sink.old) (K.faults sink.new)
        (status_of result) }
    ensures memory { status_of result ≢ Status.NoMemory }
{
    match drive(source, sink, &mut receiver, steps) {
        Ok(_) => ended(&receiver),
        Err(fault) => Err(stopped(fault)),
    }
}

/// The result of a stream that was read to its end, of which no packet was refused.
fn ended(receiver: &Receiver) -> Result<(), Status>
    ensures ending { IsEnding (status_of result) }
    ensures value { (past : List (List ℕ)) → HasReceived past receiver.now → status_of result
        ≡ ending_status receiver.now.card.leaf (ending_of (receiver_card receiver.now) past) }
{
    ending_result(receiver.leaf().get(), receiver.ending())
}

/// The status of a stream that wasn't read to its end.
fn stopped(fault: DriveFault<StreamFault>) -> Status
    ensures { result ≡ stopped_status fault }
{
    match fault {
        DriveFault::Broken(found) => Status::BadStream(StreamRefusal::Broken(found)),
        DriveFault::TooLong => Status::BadStream(StreamRefusal::TooLong),
        DriveFault::ReadFault | DriveFault::WriteFault => Status::DepotFault,
        DriveFault::Refused(fault) => Status::BadStream(StreamRefusal::Packet(fault)),
    }
}

ghost use Rattle.std.specs.Prelude.{◌≡◌, ◌≢◌, []};
ghost use Rattle.sd_head.specs.Staged.{plan_of_head, IsHeadEndAfter};
ghost use Rattle.sd_command_base.specs.Outside.{PageState, io_state, depot_state};
ghost use Rattle.sd_command_base.specs.Outcome.{Implements, status_of};
ghost use Rattle.sd_run_broadcasts.specs.Head.{head_meaning, refusal_in, sent_told, SendsLeft};
ghost use Rattle.sd_run_broadcasts.specs.Said.{HeadSays, IsSaid};
ghost use Rattle.sd_command_base.specs.Turned.{HasPortCause};
ghost use Rattle.sd_command_base.specs.Shown.{shown_word};

use crate::head_plan::read_plan;
use crate::warning::warn;
use sd_base::Steps;
use sd_command_base::{Status, StreamRefusal, Word, close_both, open_both};
use sd_engine::{DriveFault, drive};
use sd_head::{Head, HeadFault};
use sd_ports::{Depot, Sink, Source};
use std::alloc::Global;
use std::sync::ledger::Ledger;

/// Does `head SITE BOOK CLEAR OUT`: the clear stream is read and what is sent for it is written in turn. Before that a
/// warning about the site is written to `notes`, if there is one.
#[inline(never)]
pub fn head<D: Depot, N: Sink, L: Ledger>(
    alloc: Global,
    depot: &mut D,
    notes: &mut N,
    site: Word<'_>,
    book: Word<'_>,
    clear: Word<'_>,
    out: Word<'_>,
    steps: &mut Steps<L>,
) -> Result<(), Status>
    requires { (site.number ≢ book.number) × (site.number ≢ clear.number) × (book.number ≢ clear.number) }
    ensures value { (page : PageState) →
        Implements (head_meaning (shown_word site.entry) (shown_word book.entry) (shown_word clear.entry)
        (shown_word out.entry))
        (io_state (depot_state D.Depot depot.old) page steps.old)
        (io_state (depot_state D.Depot depot.new) page steps.new)
        (status_of result) }
    ensures notes { IsSaid (HeadSays (shown_word site.entry)) (D.Depot.files depot.old) (N.held notes.old)
        (N.held notes.new) }
{
    let name = site.text;
    let (site, book, has_word) = read_plan(alloc, depot, site, book)?;
    let messages = site.messages;
    let mut head = Head::new(alloc, site, book)?;
    warn(alloc, notes, name, has_word, messages);
    let (mut inlet, mut outlet) = open_both(alloc, depot, clear, out)?;
    let sent = send(&mut inlet, &mut outlet, &mut head, steps);
    close_both(depot, inlet, outlet, out, sent)
}

/// Sends what is sent for the clear stream that is left of a source.
pub fn send<S: Source, K: Sink, L: Ledger>(
    source: &mut S,
    sink: &mut K,
    head: &mut Head,
    steps: &mut Steps<L>,
) -> Result<(), Status>
    requires { IsHeadEndAfter (plan_of_head head.old) [] head.old }
    ensures value { SendsLeft (plan_of_head head.old) (S.left source.old) (K.held sink.old) (K.held sink.new)
        (status_of result) }
    ensures cause { HasPortCause (S.faults source.old) (S.faults source.new) (K.faults sink.old) (K.faults sink.new)
        (status_of result) }
{
    told(drive(source, sink, head, steps))
}

/// What is answered once the stream was driven.
fn told(driven: Result<u64, DriveFault<HeadFault>>) -> Result<(), Status>
    ensures { status_of result ≡ sent_told refusal_in driven }
{
    match driven {
        Ok(_) => Ok(()),
        Err(DriveFault::Broken(found)) => Err(Status::BadClear(StreamRefusal::Broken(found))),
        Err(DriveFault::TooLong) => Err(Status::BadClear(StreamRefusal::TooLong)),
        Err(DriveFault::ReadFault | DriveFault::WriteFault) => Err(Status::DepotFault),
        Err(DriveFault::Refused(HeadFault::Clear(fault))) => {
            Err(Status::BadClear(StreamRefusal::Packet(fault)))
        }
        Err(DriveFault::Refused(HeadFault::NoMemory)) => Err(Status::NoMemory),
    }
}

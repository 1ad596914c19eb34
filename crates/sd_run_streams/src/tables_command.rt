//! `tables STREAM`: the tables of a stream, a line each.

ghost use Rattle.std.specs.Prelude.{◌≡◌, ◌<◌, ℕ};
ghost use Rattle.sd_base.specs.Count.{IsCaused};
ghost use Rattle.sd_base.specs.declared.memory.NoMemory.{NoMemory};
ghost use Rattle.sd_command_base.specs.Outside.{page_state, io_state_at};
ghost use Rattle.sd_command_base.specs.Outcome.{Implements, status_of};
ghost use Rattle.sd_run_streams.specs.Tables.{InspectsLeft, drive_status, tables_meaning};
ghost use Rattle.sd_command_base.specs.Shown.{shown_word};

use crate::Inspector;
use sd_base::{NoMemory, Steps};
use sd_command_base::{Status, StreamRefusal, Word, opening_fault};
use sd_engine::{DriveFault, drive};
use sd_ports::{Depot, Sink, Source};
use std::alloc::Global;
use std::marker::Brand;
use std::sync::ledger::{Blank, Ledger};

/// Does `tables STREAM`: the stream is read and its lines are printed in turn.
#[inline(never)]
pub fn tables<D: Depot, P: Sink>(
    alloc: Global,
    depot: &mut D,
    print: &mut P,
    stream: Word<'_>,
) -> Result<(), Status>
    ensures { (steps : ℕ) → Implements (tables_meaning (shown_word stream.entry))
        (io_state_at D.Depot P.Sink depot.old print.old steps)
        (io_state_at D.Depot P.Sink depot.new print.new steps) (status_of result) }
{
    let mut port = match depot.open_in(alloc, stream.text) {
        Ok(port) => port,
        Err(fault) => return Err(opening_fault(stream.number, fault)),
    };
    let printed = print_tables(alloc, &mut port, print);
    depot.close_in(port);
    printed
}

/// Prints the lines of the tables in the stream that is left of a source. It counts no steps.
fn print_tables<S: Source, P: Sink>(
    alloc: Global,
    source: &mut S,
    print: &mut P,
) -> Result<(), Status>
    ensures value { InspectsLeft (S.left source.old) (page_state P.Sink print.old) (page_state P.Sink print.new)
        (status_of result) }
    ensures cause { IsCaused (S.faults source.old) (S.faults source.new) (status_of result ≡ Status.DepotFault) }
{
    inspect::<Brand, S, P>(alloc, source, print, Blank::new(1))
}

/// So it does with a counter over a new ledger.
fn inspect<L: Ledger, S: Source, P: Sink>(
    alloc: Global,
    source: &mut S,
    print: &mut P,
    blank: Blank,
) -> Result<(), Status>
    requires name { blank.name ≡ L.name }
    requires parts { blank.parts ≡ L.parts }
    requires some { 0 < blank.parts }
    ensures value { InspectsLeft (S.left source.old) (page_state P.Sink print.old) (page_state P.Sink print.new)
        (status_of result) }
    ensures cause { IsCaused (S.faults source.old) (S.faults source.new) (status_of result ≡ Status.DepotFault) }
{
    let mut inspector = Inspector::new(alloc)?;
    let mut steps = Steps::<L>::new(blank);
    drive_result(drive(source, print, &mut inspector, &mut steps))
}

/// The result of a command that prints lines of a stream, once the stream was driven.
pub(crate) fn drive_result(driven: Result<u64, DriveFault<NoMemory>>) -> Result<(), Status>
    ensures { status_of result ≡ drive_status driven }
{
    match driven {
        Ok(_) => Ok(()),
        Err(DriveFault::Broken(found)) => Err(Status::BadStream(StreamRefusal::Broken(found))),
        Err(DriveFault::TooLong) => Err(Status::BadStream(StreamRefusal::TooLong)),
        Err(DriveFault::ReadFault) => Err(Status::DepotFault),
        Err(DriveFault::WriteFault) => Err(Status::PrintFault),
        Err(DriveFault::Refused(NoMemory)) => Err(Status::NoMemory),
    }
}

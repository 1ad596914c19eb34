ghost use Rattle.std.specs.Prelude.{◌≡◌, Some, Err, IsErrOf};
ghost use Rattle.sd_base.specs.Count.{HasNotRisen};
ghost use Rattle.sd_ports.specs.Files.{Files};
ghost use Rattle.sd_command_base.specs.Outside.{depot_state, io_state_at};
ghost use Rattle.sd_command_base.specs.Spec.{contents_of};
ghost use Rattle.sd_command_base.specs.Outcome.{Implements, status_of};
ghost use Rattle.sd_command_base.specs.Results.{RunResult, HasAnswerCause, IsMeant, IsToldAs};
ghost use Rattle.sd_command_line.specs.CommandLine.{words_of};
ghost use Rattle.sd_command_line.specs.Words.{order_of};
ghost use Rattle.sd_run_broadcasts.specs.Said.{IsSaid};
ghost use Rattle.sd_run.specs.Meaning.{meaning, order_meaning};
ghost use Rattle.sd_run.specs.Notes.{order_says, says};
ghost use Rattle.sd_command_line.specs.Orders.{order_said, IsSoundOrder};

use crate::work::work;
use sd_base::Steps;
use sd_command_base::Status;
use sd_command_line::{CommandLine, Order, help, tell, version};
use sd_ports::{Depot, Sink};
use std::alloc::Global;
use std::sync::ledger::Ledger;

/// Runs the command that the arguments (`line`) say, and prints the line of the status that it returns. What is said
/// while a command runs goes to `notes`.
pub fn run<D: Depot, P: Sink, N: Sink, L: Ledger>(
    alloc: Global,
    line: &CommandLine<'_>,
    depot: &mut D,
    print: &mut P,
    notes: &mut N,
    steps: &mut Steps<L>,
) -> Status
    // The work that the arguments and files ask for is done: text is printed, a file made, and the status returned.
    ensures value { RunResult (meaning (words_of line.now))
        (io_state_at D.Depot P.Sink depot.old print.old steps.old)
        (io_state_at D.Depot P.Sink depot.new print.new steps.new) result }
    // Nothing is said while a command runs but the warning of `head` and the reports of `air`.
    ensures notes { IsSaid (says (words_of line.now)) (D.files depot.old) (N.held notes.old) (N.held notes.new) }
    // Each port that was opened is closed.
    ensures ports { (depot_state D.Depot depot.new).opened ≡ (depot_state D.Depot depot.old).opened }
    // Each answer on the outside has its cause.
    ensures cause { HasAnswerCause
        (io_state_at D.Depot P.Sink depot.old print.old steps.old)
        (io_state_at D.Depot P.Sink depot.new print.new steps.new) result }
    // Refused arguments are answered at once, and `Usage` is returned for them alone.
    ensures words { (status : Status) → order_of (words_of line.now) ≡ Err status → IsToldAs status result }
    ensures usage { result ≡ Status.Usage → order_of (words_of line.now) ≡ Err Status.Usage }
    // If the model knows the file system's contents and no I/O error occurred, the answer is that of the work, or out
    // of memory.
    ensures complete { (files : Files) → D.files depot.old ≡ Some files →
        HasNotRisen (D.faults depot.old) (D.faults depot.new) → HasNotRisen (P.faults print.old) (P.faults print.new) →
        IsMeant (meaning (words_of line.now) (contents_of files)).result result }
{
    match obey(alloc, line, depot, print, notes, steps) {
        Ok(()) => Status::Done,
        Err(Status::PrintFault) => Status::PrintFault,
        Err(status) => tell(alloc, print, status),
    }
}

/// Runs the command that the arguments say.
fn obey<D: Depot, P: Sink, N: Sink, L: Ledger>(
    alloc: Global,
    line: &CommandLine<'_>,
    depot: &mut D,
    print: &mut P,
    notes: &mut N,
    steps: &mut Steps<L>,
) -> Result<(), Status>
    ensures value { Implements (meaning (words_of line.now))
        (io_state_at D.Depot P.Sink depot.old print.old steps.old)
        (io_state_at D.Depot P.Sink depot.new print.new steps.new) (status_of result) }
    ensures notes { IsSaid (says (words_of line.now)) (D.files depot.old) (N.held notes.old) (N.held notes.new) }
    ensures words { (status : Status) → order_of (words_of line.now) ≡ Err status → IsErrOf result status }
{
    match line.order() {
        Ok(order) => follow(alloc, order, depot, print, notes, steps),
        Err(status) => Err(*status),
    }
}

/// Runs a command, or prints help or the version.
fn follow<D: Depot, P: Sink, N: Sink, L: Ledger>(
    alloc: Global,
    order: &Order<'_>,
    depot: &mut D,
    print: &mut P,
    notes: &mut N,
    steps: &mut Steps<L>,
) -> Result<(), Status>
    requires { IsSoundOrder (order_said order.now) }
    ensures value { Implements (order_meaning (order_said order.now))
        (io_state_at D.Depot P.Sink depot.old print.old steps.old)
        (io_state_at D.Depot P.Sink depot.new print.new steps.new) (status_of result) }
    ensures notes { IsSaid (order_says (order_said order.now)) (D.files depot.old) (N.held notes.old)
        (N.held notes.new) }
{
    match order {
        Order::Command { command, arguments } => {
            work(alloc, *command, arguments, depot, print, notes, steps)
        }
        Order::Help { topic } => help(alloc, print, *topic),
        Order::Version => version(print),
    }
}

//! The work of a command: each command is a row, which picks its arguments by their places.

ghost use Rattle.std.specs.Prelude.{ℕ};
ghost use Rattle.sd_command_base.specs.Outside.{io_state, depot_state, PageState, io_state_at};
ghost use Rattle.sd_command_base.specs.Outcome.{Implements, status_of};
ghost use Rattle.sd_command_line.specs.Commands.{operands_of};
ghost use Rattle.sd_command_line.specs.Orders.{arguments_said, AreOf};
ghost use Rattle.sd_run_broadcasts.specs.Said.{IsSaid};
ghost use Rattle.sd_run.specs.Meaning.{command_meaning};
ghost use Rattle.sd_run.specs.Notes.{says_of};

use sd_base::Steps;
use sd_command_base::Status;
use sd_command_line::{Arguments, Command};
use sd_ports::{Depot, Sink};
use sd_run_books::{
    accounts, apart, book, card, cover, layered, lcard, next, opens, plan, show, status, trace,
    twin,
};
use sd_run_broadcasts::{air, field, head, receive, trial, watch};
use sd_run_streams::{messages, sample, tables};
use std::alloc::Global;
use std::sync::ledger::Ledger;

/// Runs a command with its arguments.
#[tactic(auto, using(crate::proofs::Notes::nothing_said))]
pub(crate) fn work<D: Depot, P: Sink, N: Sink, L: Ledger>(
    alloc: Global,
    command: Command,
    row: &Arguments<'_>,
    depot: &mut D,
    print: &mut P,
    notes: &mut N,
    steps: &mut Steps<L>,
) -> Result<(), Status>
    requires { AreOf 1 (operands_of command) (arguments_said 1 row.now.list.items) }
    ensures value { Implements (command_meaning command (arguments_said 1 row.now.list.items))
        (io_state_at D.Depot P.Sink depot.old print.old steps.old)
        (io_state_at D.Depot P.Sink depot.new print.new steps.new) (status_of result) }
    ensures notes { IsSaid (says_of command (arguments_said 1 row.now.list.items)) (D.files depot.old)
        (N.held notes.old) (N.held notes.new) }
{
    match command {
        Command::Accounts => accounts_row(alloc, row, depot, print),
        Command::Air => air_row(alloc, row, depot, print, notes, steps),
        Command::Apart => apart_row(alloc, row, depot, print),
        Command::Book => book_row(alloc, row, depot),
        Command::Card => card_row(alloc, row, depot, steps),
        Command::Cover => cover_row(alloc, row, depot, print),
        Command::Field => field_row(alloc, row, depot, print, steps),
        Command::Head => head_row(alloc, row, depot, notes, steps),
        Command::Layered => layered_row(alloc, row, depot, print),
        Command::Lcard => lcard_row(alloc, row, depot, steps),
        Command::Messages => messages_row(alloc, row, depot, print),
        Command::Next => next_row(alloc, row, depot, print),
        Command::Opens => opens_row(alloc, row, depot, print),
        Command::Plan => plan_row(alloc, row, depot, print),
        Command::Receive => receive_row(alloc, row, depot, steps),
        Command::Sample => sample_row(alloc, row, depot),
        Command::Show => show_row(alloc, row, depot, print),
        Command::Status => status_row(alloc, row, depot, print),
        Command::Tables => tables_row(alloc, row, depot, print),
        Command::Trace => trace_row(alloc, row, depot, print),
        Command::Trial => trial_row(alloc, row, depot, print, steps),
        Command::Twin => twin_row(alloc, row, depot),
        Command::Watch => watch_row(alloc, row, depot, print, steps),
    }
}

/// `accounts` with the arguments of its row.
#[tactic(auto, using(crate::proofs::Rows::accounts_works))]
fn accounts_row<D: Depot, P: Sink>(
    alloc: Global,
    row: &Arguments<'_>,
    depot: &mut D,
    print: &mut P,
) -> Result<(), Status>
    ensures { (steps : ℕ) → Implements (command_meaning Command.Accounts (arguments_said 1 row.now.list.items))
        (io_state_at D.Depot P.Sink depot.old print.old steps)
        (io_state_at D.Depot P.Sink depot.new print.new steps) (status_of result) }
{
    accounts(alloc, depot, print, row.file(1), row.file(2), row.file(3))
}

/// `air` with the arguments of its row.
#[tactic(auto, using(crate::proofs::Rows::air_works, crate::proofs::Notes::air_says))]
fn air_row<D: Depot, P: Sink, N: Sink, L: Ledger>(
    alloc: Global,
    row: &Arguments<'_>,
    depot: &mut D,
    print: &mut P,
    notes: &mut N,
    steps: &mut Steps<L>,
) -> Result<(), Status>
    ensures value { Implements (command_meaning Command.Air (arguments_said 1 row.now.list.items))
        (io_state_at D.Depot P.Sink depot.old print.old steps.old)
        (io_state_at D.Depot P.Sink depot.new print.new steps.new) (status_of result) }
    ensures notes { IsSaid (says_of Command.Air (arguments_said 1 row.now.list.items)) (D.files depot.old)
        (N.held notes.old) (N.held notes.new) }
{
    air(
        alloc,
        depot,
        print,
        notes,
        row.file(1),
        row.file(2),
        row.file(3),
        row.file(4),
        steps,
    )
}

/// `apart` with the arguments of its row.
#[tactic(auto, using(crate::proofs::Rows::apart_works))]
fn apart_row<D: Depot, P: Sink>(
    alloc: Global,
    row: &Arguments<'_>,
    depot: &mut D,
    print: &mut P,
) -> Result<(), Status>
    ensures { (steps : ℕ) → Implements (command_meaning Command.Apart (arguments_said 1 row.now.list.items))
        (io_state_at D.Depot P.Sink depot.old print.old steps)
        (io_state_at D.Depot P.Sink depot.new print.new steps) (status_of result) }
{
    apart(
        alloc,
        depot,
        print,
        row.file(1),
        row.file(2),
        row.file(3),
        row.file(4),
    )
}

/// `book` with the arguments of its row.
#[tactic(auto, using(crate::proofs::Rows::book_works))]
fn book_row<D: Depot>(alloc: Global, row: &Arguments<'_>, depot: &mut D) -> Result<(), Status>
    ensures { (page : PageState) (steps : ℕ) →
        Implements (command_meaning Command.Book (arguments_said 1 row.now.list.items))
        (io_state (depot_state D.Depot depot.old) page steps)
        (io_state (depot_state D.Depot depot.new) page steps) (status_of result) }
{
    book(
        alloc,
        depot,
        row.file(1),
        row.file(2),
        row.file(3),
        row.file(4),
    )
}

/// `card` with the arguments of its row.
#[tactic(auto, using(crate::proofs::Rows::card_works))]
fn card_row<D: Depot, L: Ledger>(
    alloc: Global,
    row: &Arguments<'_>,
    depot: &mut D,
    steps: &mut Steps<L>,
) -> Result<(), Status>
    ensures { (page : PageState) → Implements (command_meaning Command.Card (arguments_said 1 row.now.list.items))
        (io_state (depot_state D.Depot depot.old) page steps.old)
        (io_state (depot_state D.Depot depot.new) page steps.new) (status_of result) }
{
    card(alloc, depot, row.file(1), row.number(2), row.file(3), steps)
}

/// `cover` with the arguments of its row.
#[tactic(auto, using(crate::proofs::Rows::cover_works))]
fn cover_row<D: Depot, P: Sink>(
    alloc: Global,
    row: &Arguments<'_>,
    depot: &mut D,
    print: &mut P,
) -> Result<(), Status>
    ensures { (steps : ℕ) → Implements (command_meaning Command.Cover (arguments_said 1 row.now.list.items))
        (io_state_at D.Depot P.Sink depot.old print.old steps)
        (io_state_at D.Depot P.Sink depot.new print.new steps) (status_of result) }
{
    cover(alloc, depot, print, row.file(1), row.file(2))
}

/// `field` with the arguments of its row.
fn field_row<D: Depot, P: Sink, L: Ledger>(
    alloc: Global,
    row: &Arguments<'_>,
    depot: &mut D,
    print: &mut P,
    steps: &mut Steps<L>,
) -> Result<(), Status>
    ensures { Implements (command_meaning Command.Field (arguments_said 1 row.now.list.items))
        (io_state_at D.Depot P.Sink depot.old print.old steps.old)
        (io_state_at D.Depot P.Sink depot.new print.new steps.new) (status_of result) }
{
    field(
        alloc,
        depot,
        print,
        row.file(1),
        row.file(2),
        row.file(3),
        steps,
    )
}

/// `head` with the arguments of its row.
#[tactic(auto, using(crate::proofs::Rows::head_works, crate::proofs::Notes::head_says))]
fn head_row<D: Depot, N: Sink, L: Ledger>(
    alloc: Global,
    row: &Arguments<'_>,
    depot: &mut D,
    notes: &mut N,
    steps: &mut Steps<L>,
) -> Result<(), Status>
    ensures value { (page : PageState) →
        Implements (command_meaning Command.Head (arguments_said 1 row.now.list.items))
        (io_state (depot_state D.Depot depot.old) page steps.old)
        (io_state (depot_state D.Depot depot.new) page steps.new) (status_of result) }
    ensures notes { IsSaid (says_of Command.Head (arguments_said 1 row.now.list.items)) (D.files depot.old)
        (N.held notes.old) (N.held notes.new) }
{
    head(
        alloc,
        depot,
        notes,
        row.file(1),
        row.file(2),
        row.file(3),
        row.file(4),
        steps,
    )
}

/// `layered` with the arguments of its row.
#[tactic(auto, using(crate::proofs::Rows::layered_works))]
fn layered_row<D: Depot, P: Sink>(
    alloc: Global,
    row: &Arguments<'_>,
    depot: &mut D,
    print: &mut P,
) -> Result<(), Status>
    ensures { (steps : ℕ) → Implements (command_meaning Command.Layered (arguments_said 1 row.now.list.items))
        (io_state_at D.Depot P.Sink depot.old print.old steps)
        (io_state_at D.Depot P.Sink depot.new print.new steps) (status_of result) }
{
    layered(alloc, depot, print, row.file(1), row.file(2), row.number(3))
}

/// `lcard` with the arguments of its row.
#[tactic(auto, using(crate::proofs::Rows::lcard_works))]
fn lcard_row<D: Depot, L: Ledger>(
    alloc: Global,
    row: &Arguments<'_>,
    depot: &mut D,
    steps: &mut Steps<L>,
) -> Result<(), Status>
    ensures { (page : PageState) → Implements (command_meaning Command.Lcard (arguments_said 1 row.now.list.items))
        (io_state (depot_state D.Depot depot.old) page steps.old)
        (io_state (depot_state D.Depot depot.new) page steps.new) (status_of result) }
{
    lcard(
        alloc,
        depot,
        row.file(1),
        row.number(2),
        row.number(3),
        row.file(4),
        steps,
    )
}

/// `messages` with the arguments of its row.
#[tactic(auto, using(crate::proofs::Rows::messages_works))]
fn messages_row<D: Depot, P: Sink>(
    alloc: Global,
    row: &Arguments<'_>,
    depot: &mut D,
    print: &mut P,
) -> Result<(), Status>
    ensures { (steps : ℕ) → Implements (command_meaning Command.Messages (arguments_said 1 row.now.list.items))
        (io_state_at D.Depot P.Sink depot.old print.old steps)
        (io_state_at D.Depot P.Sink depot.new print.new steps) (status_of result) }
{
    messages(alloc, depot, print, row.file(1), row.file(2))
}

/// `next` with the arguments of its row.
#[tactic(auto, using(crate::proofs::Rows::next_works, crate::proofs::Ordered::next_fits))]
fn next_row<D: Depot, P: Sink>(
    alloc: Global,
    row: &Arguments<'_>,
    depot: &mut D,
    print: &mut P,
) -> Result<(), Status>
    requires { AreOf 1 (operands_of Command.Next) (arguments_said 1 row.now.list.items) }
    ensures { (steps : ℕ) → Implements (command_meaning Command.Next (arguments_said 1 row.now.list.items))
        (io_state_at D.Depot P.Sink depot.old print.old steps)
        (io_state_at D.Depot P.Sink depot.new print.new steps) (status_of result) }
{
    next(
        alloc,
        depot,
        print,
        row.file(1),
        row.file(2),
        row.number(3),
        row.file(4),
    )
}

/// `opens` with the arguments of its row.
#[tactic(auto, using(crate::proofs::Rows::opens_works))]
fn opens_row<D: Depot, P: Sink>(
    alloc: Global,
    row: &Arguments<'_>,
    depot: &mut D,
    print: &mut P,
) -> Result<(), Status>
    ensures { (steps : ℕ) → Implements (command_meaning Command.Opens (arguments_said 1 row.now.list.items))
        (io_state_at D.Depot P.Sink depot.old print.old steps)
        (io_state_at D.Depot P.Sink depot.new print.new steps) (status_of result) }
{
    opens(alloc, depot, print, row.file(1), row.file(2), row.file(3))
}

/// `plan` with the arguments of its row.
#[tactic(auto, using(crate::proofs::Rows::plan_works, crate::proofs::Ordered::plan_fits))]
fn plan_row<D: Depot, P: Sink>(
    alloc: Global,
    row: &Arguments<'_>,
    depot: &mut D,
    print: &mut P,
) -> Result<(), Status>
    requires { AreOf 1 (operands_of Command.Plan) (arguments_said 1 row.now.list.items) }
    ensures { (steps : ℕ) → Implements (command_meaning Command.Plan (arguments_said 1 row.now.list.items))
        (io_state_at D.Depot P.Sink depot.old print.old steps)
        (io_state_at D.Depot P.Sink depot.new print.new steps) (status_of result) }
{
    let pids = row.number(4);
    plan(
        alloc,
        depot,
        print,
        row.file(1),
        row.file(2),
        row.number(3),
        pids.value,
    )
}

/// `receive` with the arguments of its row.
#[tactic(auto, using(crate::proofs::Rows::receive_works))]
fn receive_row<D: Depot, L: Ledger>(
    alloc: Global,
    row: &Arguments<'_>,
    depot: &mut D,
    steps: &mut Steps<L>,
) -> Result<(), Status>
    ensures { (page : PageState) → Implements (command_meaning Command.Receive (arguments_said 1 row.now.list.items))
        (io_state (depot_state D.Depot depot.old) page steps.old)
        (io_state (depot_state D.Depot depot.new) page steps.new) (status_of result) }
{
    receive(alloc, depot, row.file(1), row.file(2), row.file(3), steps)
}

/// `sample` with the arguments of its row.
#[tactic(auto, using(crate::proofs::Rows::sample_works, crate::proofs::Ordered::packets_fit))]
fn sample_row<D: Depot>(alloc: Global, row: &Arguments<'_>, depot: &mut D) -> Result<(), Status>
    requires { AreOf 1 (operands_of Command.Sample) (arguments_said 1 row.now.list.items) }
    ensures { (page : PageState) (steps : ℕ) →
        Implements (command_meaning Command.Sample (arguments_said 1 row.now.list.items))
        (io_state (depot_state D.Depot depot.old) page steps)
        (io_state (depot_state D.Depot depot.new) page steps) (status_of result) }
{
    let seed = row.number(1);
    let packets = row.number(2);
    sample(alloc, depot, seed.value, packets.value, row.file(3))
}

/// `show` with the arguments of its row.
#[tactic(auto, using(crate::proofs::Rows::show_works))]
fn show_row<D: Depot, P: Sink>(
    alloc: Global,
    row: &Arguments<'_>,
    depot: &mut D,
    print: &mut P,
) -> Result<(), Status>
    ensures { (steps : ℕ) → Implements (command_meaning Command.Show (arguments_said 1 row.now.list.items))
        (io_state_at D.Depot P.Sink depot.old print.old steps)
        (io_state_at D.Depot P.Sink depot.new print.new steps) (status_of result) }
{
    show(alloc, depot, print, row.file(1))
}

/// `status` with the arguments of its row.
#[tactic(auto, using(crate::proofs::Rows::status_works))]
fn status_row<D: Depot, P: Sink>(
    alloc: Global,
    row: &Arguments<'_>,
    depot: &mut D,
    print: &mut P,
) -> Result<(), Status>
    ensures { (steps : ℕ) → Implements (command_meaning Command.Status (arguments_said 1 row.now.list.items))
        (io_state_at D.Depot P.Sink depot.old print.old steps)
        (io_state_at D.Depot P.Sink depot.new print.new steps) (status_of result) }
{
    status(alloc, depot, print, row.file(1), row.file(2), row.number(3))
}

/// `tables` with the arguments of its row.
#[tactic(auto, using(crate::proofs::Rows::tables_works))]
fn tables_row<D: Depot, P: Sink>(
    alloc: Global,
    row: &Arguments<'_>,
    depot: &mut D,
    print: &mut P,
) -> Result<(), Status>
    ensures { (steps : ℕ) → Implements (command_meaning Command.Tables (arguments_said 1 row.now.list.items))
        (io_state_at D.Depot P.Sink depot.old print.old steps)
        (io_state_at D.Depot P.Sink depot.new print.new steps) (status_of result) }
{
    tables(alloc, depot, print, row.file(1))
}

/// `trace` with the arguments of its row.
#[tactic(auto, using(crate::proofs::Rows::trace_works))]
fn trace_row<D: Depot, P: Sink>(
    alloc: Global,
    row: &Arguments<'_>,
    depot: &mut D,
    print: &mut P,
) -> Result<(), Status>
    ensures { (steps : ℕ) → Implements (command_meaning Command.Trace (arguments_said 1 row.now.list.items))
        (io_state_at D.Depot P.Sink depot.old print.old steps)
        (io_state_at D.Depot P.Sink depot.new print.new steps) (status_of result) }
{
    trace(alloc, depot, print, row.file(1), row.file(2), row.file(3))
}

/// `trial` with the arguments of its row.
fn trial_row<D: Depot, P: Sink, L: Ledger>(
    alloc: Global,
    row: &Arguments<'_>,
    depot: &mut D,
    print: &mut P,
    steps: &mut Steps<L>,
) -> Result<(), Status>
    ensures { Implements (command_meaning Command.Trial (arguments_said 1 row.now.list.items))
        (io_state_at D.Depot P.Sink depot.old print.old steps.old)
        (io_state_at D.Depot P.Sink depot.new print.new steps.new) (status_of result) }
{
    trial(
        alloc,
        depot,
        print,
        row.file(1),
        row.file(2),
        row.file(3),
        steps,
    )
}

/// `twin` with the arguments of its row.
#[tactic(auto, using(crate::proofs::Rows::twin_works, crate::proofs::Ordered::twin_fits))]
fn twin_row<D: Depot>(alloc: Global, row: &Arguments<'_>, depot: &mut D) -> Result<(), Status>
    requires { AreOf 1 (operands_of Command.Twin) (arguments_said 1 row.now.list.items) }
    ensures { (page : PageState) (steps : ℕ) →
        Implements (command_meaning Command.Twin (arguments_said 1 row.now.list.items))
        (io_state (depot_state D.Depot depot.old) page steps)
        (io_state (depot_state D.Depot depot.new) page steps) (status_of result) }
{
    twin(alloc, depot, row.file(1), row.number(2), row.file(3))
}

/// `watch` with the arguments of its row.
#[tactic(auto, using(crate::proofs::Rows::watch_works))]
fn watch_row<D: Depot, P: Sink, L: Ledger>(
    alloc: Global,
    row: &Arguments<'_>,
    depot: &mut D,
    print: &mut P,
    steps: &mut Steps<L>,
) -> Result<(), Status>
    ensures { Implements (command_meaning Command.Watch (arguments_said 1 row.now.list.items))
        (io_state_at D.Depot P.Sink depot.old print.old steps.old)
        (io_state_at D.Depot P.Sink depot.new print.new steps.new) (status_of result) }
{
    watch(
        alloc,
        depot,
        print,
        row.file(1),
        row.file(2),
        row.file(3),
        steps,
    )
}

//! `trace SITE BOOK LEAVES`: the leaves that a box with some cards still opens for in the last period of a book.

ghost use Rattle.std.specs.Prelude.{◌≡◌, ◌≢◌, ◌^◌, ◌<◌, ℕ, All, string_bytes};
ghost use Rattle.sd_command_base.specs.Outside.{io_state_at};
ghost use Rattle.sd_command_base.specs.Outcome.{Implements, status_of};
ghost use Rattle.sd_command_base.specs.Reads.{JudgedOutcome};
ghost use Rattle.sd_command_base.specs.Shown.{shown_word};
ghost use Rattle.sd_run_books.specs.Trace.{trace_meaning, trace_outcome, unended};

use crate::trace_text::trace_text;
use sd_book::Book;
use sd_command_base::{LimitKind, Status, Word, print_text, read_both, read_leaves};
use sd_cover_tracing::{CoalitionBox, TraceFault, trace_all};
use sd_ports::{Depot, Sink};
use sd_tree_keys::Leaf;
use std::alloc::Global;

/// Does `trace SITE BOOK LEAVES`.
#[inline(never)]
pub fn trace<D: Depot, P: Sink>(
    alloc: Global,
    depot: &mut D,
    print: &mut P,
    site: Word<'_>,
    book: Word<'_>,
    leaves: Word<'_>,
) -> Result<(), Status>
    requires { (site.number ≢ book.number) × (site.number ≢ leaves.number) × (book.number ≢ leaves.number) }
    ensures { (steps : ℕ) →
        Implements (trace_meaning (shown_word site.entry) (shown_word book.entry) (shown_word leaves.entry))
        (io_state_at D.Depot P.Sink depot.old print.old steps)
        (io_state_at D.Depot P.Sink depot.new print.new steps) (status_of result) }
{
    let (site, book) = read_both(alloc, depot, site, book)?;
    let leaves = read_leaves(alloc, depot, leaves, site.height)?;
    let text = found_text(alloc, &book, leaves)?;
    print_text(print, text.as_bytes())
}

/// The text of what a box with the cards of these leaves makes a trace find in the last period of the book.
fn found_text(alloc: Global, book: &Book, leaves: Vec<Leaf>) -> Result<String, Status>
    requires { All (λ u. u < 2 ^ book.now.height) leaves.items }
    ensures { JudgedOutcome string_bytes (trace_outcome book.now.height leaves.items book.now.commands) result }
{
    let h = book.height();
    let revoked = book.revoked(alloc, book.last_period())?;
    let mut target = CoalitionBox::new(h, leaves);
    match trace_all(alloc, h, &revoked, &mut target) {
        Ok(found) => Ok(trace_text(alloc, &found)?),
        Err(fault) => Err(fault_status(fault)),
    }
}

/// The status of a search that didn't end.
fn fault_status(fault: TraceFault) -> Status
    ensures { result ≡ unended fault }
{
    match fault {
        TraceFault::TooMany => Status::Limit(LimitKind::Traced),
        TraceFault::NoMemory => Status::NoMemory,
    }
}

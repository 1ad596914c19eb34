//! `opens SITE BOOK LEAVES`: which sets of each period of a book the pooled cards of some leaves open.

ghost use Rattle.std.specs.Prelude.{◌≢◌, ℕ};
ghost use Rattle.sd_command_base.specs.Outside.{io_state_at};
ghost use Rattle.sd_command_base.specs.Outcome.{Implements, status_of};
ghost use Rattle.sd_command_base.specs.Shown.{shown_word};
ghost use Rattle.sd_run_books.specs.Opens.{opens_meaning};

use crate::opens_pool::Pool;
use sd_command_base::{Status, Word, print_periods, read_both, read_leaves};
use sd_ports::{Depot, Sink};
use std::alloc::Global;

/// Does `opens SITE BOOK LEAVES`.
#[inline(never)]
pub fn opens<D: Depot, P: Sink>(
    alloc: Global,
    depot: &mut D,
    print: &mut P,
    site: Word<'_>,
    book: Word<'_>,
    leaves: Word<'_>,
) -> Result<(), Status>
    requires { (site.number ≢ book.number) × (site.number ≢ leaves.number) × (book.number ≢ leaves.number) }
    ensures { (steps : ℕ) →
        Implements (opens_meaning (shown_word site.entry) (shown_word book.entry) (shown_word leaves.entry))
        (io_state_at D.Depot P.Sink depot.old print.old steps)
        (io_state_at D.Depot P.Sink depot.new print.new steps) (status_of result) }
{
    let (site, book) = read_both(alloc, depot, site, book)?;
    let leaves = read_leaves(alloc, depot, leaves, site.height)?;
    print_periods(alloc, print, &book, &Pool { leaves })
}

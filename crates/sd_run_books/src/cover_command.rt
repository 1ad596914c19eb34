//! `cover SITE BOOK`: the sets of each period of a book.

ghost use Rattle.std.specs.Prelude.{◌≢◌, ℕ};
ghost use Rattle.sd_command_base.specs.Outside.{io_state_at};
ghost use Rattle.sd_command_base.specs.Outcome.{Implements, status_of};
ghost use Rattle.sd_run_books.specs.Cover.{cover_meaning};
ghost use Rattle.sd_command_base.specs.Shown.{shown_word};

use crate::cover_bare::Bare;
use sd_command_base::{Status, Word, print_periods, read_both};
use sd_ports::{Depot, Sink};
use std::alloc::Global;

/// Does `cover SITE BOOK`.
#[inline(never)]
pub fn cover<D: Depot, P: Sink>(
    alloc: Global,
    depot: &mut D,
    print: &mut P,
    site: Word<'_>,
    book: Word<'_>,
) -> Result<(), Status>
    requires { site.number ≢ book.number }
    ensures { (steps : ℕ) → Implements (cover_meaning (shown_word site.entry) (shown_word book.entry))
        (io_state_at D.Depot P.Sink depot.old print.old steps)
        (io_state_at D.Depot P.Sink depot.new print.new steps) (status_of result) }
{
    let (_, book) = read_both(alloc, depot, site, book)?;
    print_periods(alloc, print, &book, &Bare)
}

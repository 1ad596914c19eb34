//! `layered SITE BOOK WIDTH`: the useful sets of each period of a book.

ghost use Rattle.std.specs.Prelude.{◌≢◌, ◌≤◌, ℕ, IfOk};
ghost use Rattle.sd_command_base.specs.Outside.{depot_state, io_state_at};
ghost use Rattle.sd_command_base.specs.Reads.{SureOutcome, FileOutcome};
ghost use Rattle.sd_command_base.specs.Outcome.{Implements, status_of};
ghost use Rattle.sd_command_base.specs.Shown.{shown_number, shown_word};
ghost use Rattle.sd_run_books.specs.Layered.{layered_meaning, layers_of_file, shown_layers, told_layers};

use crate::layered_useful::UsefulSets;
use sd_command_base::{Number, Status, Word, print_periods, read_book, read_site};
use sd_lsd::Width;
use sd_ports::{Depot, Sink};
use sd_tree_keys::{HIGHEST, Height};
use std::alloc::Global;

/// Does `layered SITE BOOK WIDTH`.
#[inline(never)]
pub fn layered<D: Depot, P: Sink>(
    alloc: Global,
    depot: &mut D,
    print: &mut P,
    site: Word<'_>,
    book: Word<'_>,
    width: Number,
) -> Result<(), Status>
    requires { site.number ≢ book.number }
    ensures { (steps : ℕ) → Implements
        (layered_meaning (shown_word site.entry) (shown_word book.entry) (shown_number width))
        (io_state_at D.Depot P.Sink depot.old print.old steps)
        (io_state_at D.Depot P.Sink depot.new print.new steps) (status_of result) }
{
    let layers = layers_of(alloc, depot, site, width)?;
    let book = read_book(alloc, depot, book, layers.0)?;
    print_periods(alloc, print, &book, &UsefulSets { width: layers.1 })
}

/// The height of the site's tree, and the width of its layers.
fn layers_of<D: Depot>(
    alloc: Global,
    depot: &mut D,
    site: Word<'_>,
    width: Number,
) -> Result<(Height, Width), Status>
    ensures value { FileOutcome shown_layers (layers_of_file site.entry.number (shown_number width)) site.entry.text.now
        (depot_state D.Depot depot.old) (depot_state D.Depot depot.new) result }
    ensures bound { IfOk result (λ layers. layers.1 ≤ layers.0) }
{
    let site = read_site(alloc, depot, site)?;
    judge_width(site.height, width)
}

/// The height, and the width of this number, which is to be 1 to the height.
fn judge_width(h: Height, width: Number) -> Result<(Height, Width), Status>
    ensures value { SureOutcome shown_layers (told_layers h (shown_number width)) result }
    ensures bound { IfOk result (λ layers. layers.1 ≤ layers.0) }
{
    prove!(h.get() <= HIGHEST);
    let Ok(levels) = u8::try_from(width.value) else {
        return Err(Status::BadWord(width.word));
    };
    let Some(w) = Width::new(h, levels) else {
        return Err(Status::BadWord(width.word));
    };
    Ok((h, w))
}

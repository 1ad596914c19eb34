ghost use Rattle.std.specs.Prelude.{◌≡◌, ◌≢◌, string_bytes};
ghost use Rattle.sd_head.specs.Kept.{plan_of};
ghost use Rattle.sd_command_base.specs.Outside.{io_state_at};
ghost use Rattle.sd_command_base.specs.Outcome.{Implements, status_of};
ghost use Rattle.sd_command_base.specs.Shown.{shown_word};
ghost use Rattle.sd_command_base.specs.Printed.{MemoryOutcome};
ghost use Rattle.sd_run_broadcasts.specs.Trial.{trial_meaning, trial_text};

use crate::trial_lines::lines;
use crate::trial_plan::read_plan;
use crate::trial_prefix::read_prefix;
use crate::trial_send::sent_for;
use sd_base::Steps;
use sd_book::Book;
use sd_command_base::{Status, Word, print_text};
use sd_packet::SIZE;
use sd_ports::{Depot, Sink, Taken};
use sd_site_cards::Site;
use std::alloc::Global;
use std::sync::ledger::Ledger;

/// The most bytes of a clear stream: those of 65,536 packets.
pub const MOST_CLEAR_BYTES: usize = 65_536 * SIZE;

/// Runs `trial SITE BOOK CLEAR` [this project, docs/FORMATS.md, Trial]. All lines are made before the first is printed.
/// In memory are the book, the room for the broadcast, the clear stream, and one receiver at a time with what it
/// writes. The last two take less than 64 MiB.
#[inline(never)]
pub fn trial<D: Depot, P: Sink, L: Ledger>(
    alloc: Global,
    depot: &mut D,
    print: &mut P,
    site: Word<'_>,
    book: Word<'_>,
    clear: Word<'_>,
    steps: &mut Steps<L>,
) -> Result<(), Status>
    requires { (site.number ≢ book.number) × (site.number ≢ clear.number) × (book.number ≢ clear.number) }
    ensures { Implements (trial_meaning (shown_word site.entry) (shown_word book.entry) (shown_word clear.entry))
        (io_state_at D.Depot P.Sink depot.old print.old steps.old)
        (io_state_at D.Depot P.Sink depot.new print.new steps.new) (status_of result) }
{
    let (site, book) = read_plan(alloc, depot, site, book)?;
    let prefix = read_prefix(alloc, depot, clear, MOST_CLEAR_BYTES)?;
    let text = text_of(alloc, site, book, &prefix, steps)?;
    print_text(print, text.as_bytes())
}

/// The lines of a trial.
fn text_of<L: Ledger>(
    alloc: Global,
    site: Site,
    book: Book,
    prefix: &Taken,
    steps: &mut Steps<L>,
) -> Result<String, Status>
    requires { book.height ≡ site.height }
    ensures { MemoryOutcome (λ text. string_bytes text) (trial_text (plan_of site book) prefix.now) result }
{
    let clear = prefix.bytes().len();
    let sent = sent_for(alloc, site, book, prefix, steps)?;
    lines(alloc, &site, clear, &sent, steps)
}

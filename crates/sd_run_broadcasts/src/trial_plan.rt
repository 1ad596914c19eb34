ghost use Rattle.std.specs.Prelude.{◌≡◌, ◌≢◌, IfOk};
ghost use Rattle.sd_site_cards.specs.SiteFields.{site_fields_of};
ghost use Rattle.sd_command_base.specs.Outside.{depot_state};
ghost use Rattle.sd_command_base.specs.Reads.{FilesOutcome};
ghost use Rattle.sd_command_base.specs.Shown.{shown_word};
ghost use Rattle.sd_run_broadcasts.specs.Trial.{trial_plan_meaning};

use sd_book::Book;
use sd_command_base::{LimitKind, Status, Word, read_book, read_low_site};
use sd_ports::Depot;
use sd_site_cards::Site;
use std::alloc::Global;

/// The greatest height of a trial's tree.
pub const MOST_HEIGHT: u8 = 6;

/// Reads the site, whose tree must be of height at most 6, and then the book for its tree.
pub fn read_plan<D: Depot>(
    alloc: Global,
    depot: &mut D,
    site: Word<'_>,
    book: Word<'_>,
) -> Result<(Site, Book), Status>
    requires { site.number ≢ book.number }
    ensures value { FilesOutcome (λ plan. record { site = site_fields_of plan.0; commands = plan.1.commands })
        (trial_plan_meaning (shown_word site.entry) (shown_word book.entry))
        (depot_state D.Depot depot.old) (depot_state D.Depot depot.new) result }
    ensures height { IfOk result (λ plan. plan.1.height ≡ plan.0.height) }
{
    let site = read_low_site(alloc, depot, site, MOST_HEIGHT, LimitKind::TrialHeight)?;
    let book = read_book(alloc, depot, book, site.height)?;
    Ok((site, book))
}

//! `twin SITE WORDS OUT`: the site of a broadcast that is on air at the same time as that of a site.

ghost use Rattle.std.specs.Prelude.{◌≡◌, ◌≢◌, ◌≤◌, ◌+◌, ℕ, IsSome};
ghost use Rattle.sd_site_cards.specs.SiteFields.{site_fields_of};
ghost use Rattle.sd_site_cards.specs.Chain.{most_word};
ghost use Rattle.sd_command_base.specs.Outside.{PageState, io_state, depot_state};
ghost use Rattle.sd_command_base.specs.Outcome.{Implements, status_of};
ghost use Rattle.sd_command_base.specs.Made.{NewOutcome};
ghost use Rattle.sd_command_base.specs.Shown.{shown_word, shown_number};
ghost use Rattle.sd_run_books.specs.Twin.{twin_made, twin_meaning};

use crate::newest_site::{judge_name, newest_site};
use sd_command_base::{Number, Status, Word, make_new};
use sd_ports::Depot;
use sd_site_cards::{BookLine, MOST_FIRST_PERIOD, Site};
use std::alloc::Global;

/// Does `twin SITE WORDS OUT`.
#[inline(never)]
pub fn twin<D: Depot>(
    alloc: Global,
    depot: &mut D,
    site: Word<'_>,
    words: Number,
    out: Word<'_>,
) -> Result<(), Status>
    requires first { site.number ≡ 1 }
    requires files { site.number ≢ out.number }
    requires some { 1 ≤ words.value }
    ensures { (page : PageState) (steps : ℕ) →
        Implements (twin_meaning (shown_word site.entry) (shown_number words) (shown_word out.entry))
        (io_state (depot_state D.Depot depot.old) page steps) (io_state (depot_state D.Depot depot.new) page steps)
        (status_of result) }
{
    judge_name(site, out)?;
    let (site, line) = newest_site(alloc, depot, site, false, MOST_FIRST_PERIOD, words)?;
    make_twin(alloc, depot, out, &site, line, words.value)
}

/// Makes OUT the site of a broadcast at the same time as that of a site with this line of its book.
fn make_twin<D: Depot>(
    alloc: Global,
    depot: &mut D,
    out: Word<'_>,
    site: &Site,
    line: Option<BookLine>,
    words: u32,
) -> Result<(), Status>
    requires book { IsSome line }
    requires some { 1 ≤ words }
    requires room { site.now.last_word + words ≤ most_word }
    ensures { (page : PageState) (steps : ℕ) →
        NewOutcome (twin_made (site_fields_of site.now) line words) (shown_word out.entry)
        (io_state (depot_state D.Depot depot.old) page steps) (io_state (depot_state D.Depot depot.new) page steps)
        (status_of result) }
{
    let Some(line) = line else {
        unreachable!();
    };
    let bytes = site.twin(words).write(alloc, &line)?;
    make_new(alloc, depot, out, &bytes)
}

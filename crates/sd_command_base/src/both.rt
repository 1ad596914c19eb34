ghost use Rattle.std.specs.Prelude.{◌≡◌, ◌≢◌, IfOk};
ghost use Rattle.sd_site_cards.specs.SiteFields.{site_fields_of};
ghost use Rattle.sd_command_base.specs.Outside.{depot_state};
ghost use Rattle.sd_command_base.specs.Reads.{FilesOutcome};
ghost use Rattle.sd_command_base.specs.Both.{both_meaning};
ghost use Rattle.sd_command_base.specs.Shown.{shown_word};

use crate::Status;
use crate::files::{read_book, read_site};
use crate::word::Word;
use sd_book::Book;
use sd_ports::Depot;
use sd_site_cards::Site;
use std::alloc::Global;

/// The site of the one word's file, and the book of the other's for its tree.
pub fn read_both<D: Depot>(
    alloc: Global,
    depot: &mut D,
    site: Word<'_>,
    book: Word<'_>,
) -> Result<(Site, Book), Status>
    requires { site.number ≢ book.number }
    ensures value { FilesOutcome (λ both. record { site = site_fields_of both.0; commands = both.1.commands })
        (both_meaning (shown_word site.entry) (shown_word book.entry))
        (depot_state D.Depot depot.old) (depot_state D.Depot depot.new) result }
    ensures height { IfOk result (λ both. both.1.height ≡ both.0.height) }
{
    let site = read_site(alloc, depot, site)?;
    let book = read_book(alloc, depot, book, site.height)?;
    Ok((site, book))
}

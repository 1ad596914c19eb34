ghost use Rattle.std.specs.Prelude.{◌≡◌, ◌≢◌, IfOk};
ghost use Rattle.sd_site_cards.specs.SiteFields.{site_fields_of};
ghost use Rattle.sd_site_cards.specs.Written.{site_of_chain, none_fewer};
ghost use Rattle.sd_command_base.specs.Outside.{depot_state};
ghost use Rattle.sd_command_base.specs.Reads.{FileOutcome, FilesOutcome, SureOutcome};
ghost use Rattle.sd_command_base.specs.Shown.{shown_word};
ghost use Rattle.sd_run_broadcasts.specs.Air.{air_plan_meaning, air_site_of_file, told_air_site};

use sd_book::Book;
use sd_command_base::{LimitKind, MOST_SITE_BYTES, Status, Word, read_bytes, read_own, site_fault};
use sd_ports::Depot;
use sd_site_cards::{BookLine, Site, SiteFault, read_newest};
use std::alloc::Global;

// The version of the messages of what goes on air.
const MESSAGES: u8 = 3;

/// Reads a site for `air`, and then its own book.
pub fn read_air_plan<D: Depot>(
    alloc: Global,
    depot: &mut D,
    site: Word<'_>,
    book: Word<'_>,
) -> Result<(Site, Book), Status>
    requires { site.number ≢ book.number }
    ensures value { FilesOutcome (λ plan. record { site = site_fields_of plan.0; commands = plan.1.commands })
        (air_plan_meaning (shown_word site.entry) (shown_word book.entry))
        (depot_state D.Depot depot.old) (depot_state D.Depot depot.new) result }
    ensures height { IfOk result (λ plan. plan.1.height ≡ plan.0.height) }
{
    let (site, line) = read_air_site(alloc, depot, site)?;
    let book = read_own(alloc, depot, book, site.height, line)?;
    Ok((site, book))
}

/// The site of the word's file, and what its line 13 says of its book.
fn read_air_site<D: Depot>(
    alloc: Global,
    depot: &mut D,
    word: Word<'_>,
) -> Result<(Site, Option<BookLine>), Status>
    ensures { FileOutcome (λ said. (site_fields_of said.0, said.1)) (air_site_of_file word.entry.number)
        word.entry.text.now (depot_state D.Depot depot.old) (depot_state D.Depot depot.new) result }
{
    let bytes = read_bytes(alloc, depot, word, MOST_SITE_BYTES, LimitKind::SiteBytes)?;
    judge_air_site(word.number, &bytes)
}

/// The site that the bytes of this word's file say, and what its line 13 says of its book. It must have thirteen lines,
/// messages of version 3 and a control word.
fn judge_air_site(word: u8, bytes: &[u8]) -> Result<(Site, Option<BookLine>), Status>
    ensures { SureOutcome (λ said. (site_fields_of said.0, said.1))
        (told_air_site word bytes.now (site_of_chain none_fewer bytes.now)) result }
{
    let (site, line) = match read_newest(bytes, false) {
        Ok(said) => said,
        Err(fault) => return Err(site_fault(word, bytes, fault)),
    };
    if site.messages != MESSAGES {
        return Err(site_fault(word, bytes, SiteFault::Range(9)));
    }
    if site.last_word < site.first_word {
        return Err(site_fault(word, bytes, SiteFault::Range(11)));
    }
    Ok((site, line))
}

//! The site that another one is made from.

ghost use Rattle.std.specs.Prelude.{◌≡◌, ◌≤◌, ◌+◌, IfOk, IsSome, false};
ghost use Rattle.sd_site_cards.specs.SiteFields.{site_fields_of};
ghost use Rattle.sd_site_cards.specs.Written.{fewer_taken, site_of_chain};
ghost use Rattle.sd_site_cards.specs.Chain.{most_word};
ghost use Rattle.sd_command_base.specs.Outside.{depot_state};
ghost use Rattle.sd_command_base.specs.Reads.{SureOutcome, FileOutcome};
ghost use Rattle.sd_command_base.specs.Shown.{shown_word, shown_number};
ghost use Rattle.sd_run_books.specs.Chain.{newest_of_file, told_name, told_newest};

use crate::site_name::follows;
use sd_command_base::{
    LimitKind, MOST_SITE_BYTES, Number, OutCause, Status, Word, read_bytes, site_fault,
};
use sd_ports::Depot;
use sd_site_cards::{BookLine, MOST_WORD, Site, SiteFault, read_newest};
use std::alloc::Global;

/// Whether the name of OUT follows that of SITE.
pub(crate) fn judge_name(site: Word<'_>, out: Word<'_>) -> Result<(), Status>
    ensures { SureOutcome (λ named. named) (told_name (shown_word site.entry) (shown_word out.entry)) result }
{
    if !follows(site.text.as_bytes(), out.text.as_bytes()) {
        return Err(Status::BadOut {
            word: out.number,
            cause: OutCause::Name,
        });
    }
    Ok(())
}

/// The site of the word's file and its book's line, from which another site is made. The file must have thirteen lines,
/// or may be that of a first site, if `first`. The site's first period must be at most `most`, and it must have this
/// number of control words left.
pub(crate) fn newest_site<D: Depot>(
    alloc: Global,
    depot: &mut D,
    word: Word<'_>,
    first: bool,
    most: u32,
    words: Number,
) -> Result<(Site, Option<BookLine>), Status>
    ensures value { FileOutcome (λ newest. (site_fields_of newest.0, newest.1))
        (newest_of_file (fewer_taken first) word.entry.number most (shown_number words)) word.entry.text.now
        (depot_state D.Depot depot.old) (depot_state D.Depot depot.new) result }
    ensures period { IfOk result (λ newest. newest.0.first_period ≤ most) }
    ensures room { IfOk result (λ newest. newest.0.last_word + words.value ≤ most_word) }
    ensures book { first ≡ false → IfOk result (λ newest. IsSome newest.1) }
{
    let bytes = read_bytes(alloc, depot, word, MOST_SITE_BYTES, LimitKind::SiteBytes)?;
    judge_newest(word.number, &bytes, first, most, words)
}

/// The site that the bytes of this word's file say, and its book's line.
fn judge_newest(
    word: u8,
    bytes: &[u8],
    first: bool,
    most: u32,
    words: Number,
) -> Result<(Site, Option<BookLine>), Status>
    ensures value { SureOutcome (λ newest. (site_fields_of newest.0, newest.1))
        (told_newest word bytes.now most (shown_number words) (site_of_chain (fewer_taken first) bytes.now)) result }
    ensures period { IfOk result (λ newest. newest.0.first_period ≤ most) }
    ensures room { IfOk result (λ newest. newest.0.last_word + words.value ≤ most_word) }
    ensures book { first ≡ false → IfOk result (λ newest. IsSome newest.1) }
{
    let (site, line) = match read_newest(bytes, first) {
        Ok(newest) => newest,
        Err(fault) => return Err(site_fault(word, bytes, fault)),
    };
    if site.first_period > most {
        return Err(site_fault(word, bytes, SiteFault::Range(12)));
    }
    if words.value > MOST_WORD - site.last_word {
        return Err(Status::BadWord(words.word));
    }
    Ok((site, line))
}

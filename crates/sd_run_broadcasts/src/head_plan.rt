ghost use Rattle.std.specs.Prelude.{◌≡◌, ◌≢◌, IfOk};
ghost use Rattle.sd_site_cards.specs.SiteFields.{site_fields_of};
ghost use Rattle.sd_site_cards.specs.Text.{book_line_of, site_of};
ghost use Rattle.sd_command_base.specs.Files.{site_or_status};
ghost use Rattle.sd_command_base.specs.Outside.{depot_state};
ghost use Rattle.sd_command_base.specs.Reads.{FileOutcome, FilesOutcome, SureOutcome};
ghost use Rattle.sd_command_base.specs.Shown.{shown_word};
ghost use Rattle.sd_run_broadcasts.specs.Head.{head_plan_meaning, site_and_line_of_file, with_line};
ghost use Rattle.sd_run_broadcasts.specs.Said.{has_first_word as has_word, HasSite};

use sd_book::Book;
use sd_command_base::{
    LimitKind, MOST_SITE_BYTES, Status, Word, line_numbered, read_bytes, read_own, site_fault,
};
use sd_ports::Depot;
use sd_site_cards::{BookLine, Site, read_with_book};
use std::alloc::Global;

// The number of the line `first-word` of a site.
const FIRST_WORD_LINE: u32 = 10;

/// Reads the site, and then the book for its tree, which must be that of the site's line 13 if it has one. Answers
/// whether the site has a line `first-word`, too.
pub fn read_plan<D: Depot>(
    alloc: Global,
    depot: &mut D,
    site: Word<'_>,
    book: Word<'_>,
) -> Result<(Site, Book, bool), Status>
    requires { site.number ≢ book.number }
    ensures value { FilesOutcome (λ plan. record { site = site_fields_of plan.0; commands = plan.1.commands })
        (head_plan_meaning (shown_word site.entry) (shown_word book.entry))
        (depot_state D.Depot depot.old) (depot_state D.Depot depot.new) result }
    ensures height { IfOk result (λ plan. plan.1.height ≡ plan.0.height) }
    ensures word { IfOk result (λ plan. HasSite (shown_word site.entry) (D.Depot.files depot.old)
        plan.0.messages plan.2) }
{
    let (site, line, has_word) = read_with_line(alloc, depot, site)?;
    let book = read_own(alloc, depot, book, site.height, line)?;
    Ok((site, book, has_word))
}

/// The site of the word's file, what its line 13 says of its book, and whether it has a line `first-word`.
fn read_with_line<D: Depot>(
    alloc: Global,
    depot: &mut D,
    word: Word<'_>,
) -> Result<(Site, Option<BookLine>, bool), Status>
    ensures value { FileOutcome (λ said. (site_fields_of said.0, said.1)) (site_and_line_of_file word.entry.number)
        word.entry.text.now (depot_state D.Depot depot.old) (depot_state D.Depot depot.new) result }
    ensures word { IfOk result (λ said. HasSite (shown_word word.entry) (D.Depot.files depot.old)
        said.0.messages said.2) }
{
    let bytes = read_bytes(alloc, depot, word, MOST_SITE_BYTES, LimitKind::SiteBytes)?;
    let (site, line) = judge_with_line(word.number, &bytes)?;
    Ok((site, line, has_first_word(&bytes)))
}

/// Whether a site of these bytes has a line `first-word`.
#[tactic(auto, unfolding(crate::specs::Said::has_first_word))]
fn has_first_word(bytes: &[u8]) -> bool
    ensures { result ≡ has_word bytes.now }
{
    !line_numbered(FIRST_WORD_LINE, bytes).is_empty()
}

/// The site that the bytes of this word's file say, and what its line 13 says of its book.
fn judge_with_line(word: u8, bytes: &[u8]) -> Result<(Site, Option<BookLine>), Status>
    ensures { SureOutcome (λ said. (site_fields_of said.0, said.1))
        (with_line (book_line_of bytes.now) (site_or_status word bytes.now (site_of bytes.now))) result }
{
    match read_with_book(bytes) {
        Ok(said) => Ok(said),
        Err(fault) => Err(site_fault(word, bytes, fault)),
    }
}

//! What a next site is made from: a site, and a book that begins with the site's own.

ghost use Rattle.std.specs.Prelude.{◌≡◌, ◌≢◌, ◌<◌, ◌≤◌, ◌+◌, ◌==◌, ℕ, true, List, Ok, IfOk};
ghost use Rattle.std.specs.Prelude.{count_by, length, take as first};
ghost use Rattle.sd_book.specs.declared.command.Command.{Command};
ghost use Rattle.sd_book.specs.Text.{book_of};
ghost use Rattle.sd_site_cards.specs.Chain.{most_word};
ghost use Rattle.sd_command_base.specs.Outside.{depot_state};
ghost use Rattle.sd_command_base.specs.Files.{begins_with_book, most_book_bytes};
ghost use Rattle.sd_command_base.specs.Reads.{FilesOutcome};
ghost use Rattle.sd_command_base.specs.Shown.{shown_word, shown_number};
ghost use Rattle.sd_run_books.specs.Next.{origin_of_files, shown_origin};
ghost use Rattle.sd_run_books.specs.Chain.{own_commands};

use crate::newest_site::newest_site;
use sd_command_base::{BookFile, Number, Status, Word, read_longer};
use sd_ports::Depot;
use sd_site_cards::{BookLine, MOST_FIRST_PERIOD, Site};
use std::alloc::Global;

/// What a next site is made from.
#[derive(Drop)]
pub(crate) struct Origin {
    /// The site that it follows.
    pub site: Site,
    /// The file of a book that begins with the site's own.
    pub file: BookFile,
    /// The number of commands in the site's own book.
    pub own: usize,
}

/// What the files of SITE and BOOK give to make a next site from, with this number of control words.
pub(crate) fn read_origin<D: Depot>(
    alloc: Global,
    depot: &mut D,
    site: Word<'_>,
    book: Word<'_>,
    words: Number,
) -> Result<Origin, Status>
    requires { site.number ≢ book.number }
    ensures value { FilesOutcome shown_origin (λ given. origin_of_files site.entry.number book.entry.number
        (shown_number words) (given (shown_word site.entry)) (given (shown_word book.entry)))
        (depot_state D.Depot depot.old) (depot_state D.Depot depot.new) result }
    ensures height { IfOk result (λ origin. origin.file.book.height ≡ origin.site.height) }
    ensures own { IfOk result (λ origin. origin.own ≤ length origin.file.book.commands) }
    ensures size { IfOk result (λ origin. length origin.file.bytes.items ≤ most_book_bytes) }
    ensures period { IfOk result (λ origin. origin.site.first_period < MOST_FIRST_PERIOD) }
    ensures room { IfOk result (λ origin. origin.site.last_word + words.value ≤ most_word) }
{
    let (site, line) = newest_site(alloc, depot, site, true, MOST_FIRST_PERIOD - 1, words)?;
    let file = read_longer(alloc, depot, book, site.height, line)?;
    let own = own_count(line, &file.bytes);
    Ok(Origin { site, file, own })
}

/// The number of commands in the site's book, with which these bytes begin: one on each line.
fn own_count(line: Option<BookLine>, bytes: &[u8]) -> usize
    requires { begins_with_book line bytes.now ≡ true }
    ensures { (d : ℕ) (commands : List Command) → book_of d bytes.now ≡ Ok commands →
        (own_commands line bytes.now ≡ first result commands) × (result ≤ length commands) }
{
    match line {
        Some(line) => feed_count(&bytes[..line.size as usize]),
        None => 0,
    }
}

/// The number of line feeds.
fn feed_count(bytes: &[u8]) -> usize
    ensures { result ≡ count_by (λ byte. byte == 10) bytes.now }
{
    bytes.iter().filter(|byte| **byte == b'\n').count()
}

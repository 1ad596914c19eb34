//! `apart SITE BOOK SITE BOOK`: whether two broadcasts may go out under one set of cards.

ghost use Rattle.std.specs.Prelude.{◌≡◌, ◌≢◌, ℕ, string_bytes};
ghost use Rattle.sd_site_cards.specs.SiteFields.{site_fields_of};
ghost use Rattle.sd_command_base.specs.Outside.{io_state_at};
ghost use Rattle.sd_command_base.specs.Reads.{JudgedOutcome};
ghost use Rattle.sd_command_base.specs.Outcome.{Implements, status_of};
ghost use Rattle.sd_command_base.specs.Shown.{shown_word};
ghost use Rattle.sd_run_books.specs.Apart.{apart_meaning, told_apart};

use crate::apart_books::clash_of_books;
use crate::apart_lines::push_site;
use crate::apart_sites::clash_of_sites;
use sd_book::Book;
use sd_command_base::{Status, Word, print_text, read_both};
use sd_ports::{Depot, Sink};
use sd_site_cards::Site;
use std::alloc::Global;

/// Does `apart SITE BOOK SITE BOOK`.
#[inline(never)]
pub fn apart<D: Depot, P: Sink>(
    alloc: Global,
    depot: &mut D,
    print: &mut P,
    site: Word<'_>,
    book: Word<'_>,
    other: Word<'_>,
    more: Word<'_>,
) -> Result<(), Status>
    requires first { site.number ≢ book.number }
    requires second { other.number ≢ more.number }
    requires sites { (site.number ≢ other.number) × (site.number ≢ more.number) }
    requires books { (book.number ≢ other.number) × (book.number ≢ more.number) }
    ensures { (steps : ℕ) → Implements
        (apart_meaning (shown_word site.entry) (shown_word book.entry) (shown_word other.entry)
        (shown_word more.entry))
        (io_state_at D.Depot P.Sink depot.old print.old steps)
        (io_state_at D.Depot P.Sink depot.new print.new steps) (status_of result) }
{
    let (site, book) = read_both(alloc, depot, site, book)?;
    let (other, more) = read_both(alloc, depot, other, more)?;
    let text = judge(alloc, &site, &book, &other, &more)?;
    print_text(print, text.as_bytes())
}

/// The lines of both sites with their books, if they may go out under one set of cards.
#[tactic(auto, unfolding(crate::specs::Apart::told_apart))]
fn judge(
    alloc: Global,
    site: &Site,
    book: &Book,
    other: &Site,
    more: &Book,
) -> Result<String, Status>
    requires first { book.now.height ≡ site.now.height }
    requires second { more.now.height ≡ other.now.height }
    ensures { JudgedOutcome (λ text. string_bytes text)
        (told_apart (record { site = site_fields_of site.now; commands = book.now.commands })
        (record { site = site_fields_of other.now; commands = more.now.commands })) result }
{
    if let Some(clash) = clash_of_sites(site, other) {
        return Err(Status::Clash(clash));
    }
    if let Some(clash) = clash_of_books(alloc, site, book, other, more)? {
        return Err(Status::Clash(clash));
    }
    let mut text = String::new(alloc);
    push_site(&mut text, 1, site, book.last_period())?;
    push_site(&mut text, 2, other, more.last_period())?;
    Ok(text)
}

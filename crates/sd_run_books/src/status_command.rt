//! `status SITE BOOK LEAF`: whether a receiver is entitled, and when that changes.

ghost use Rattle.std.specs.Prelude.{◌≡◌, ◌≢◌, ℕ, IfOk};
ghost use Rattle.sd_site_cards.specs.SiteFields.{site_fields_of};
ghost use Rattle.sd_command_base.specs.Outside.{depot_state, io_state_at};
ghost use Rattle.sd_command_base.specs.Reads.{SureOutcome, FileOutcome};
ghost use Rattle.sd_command_base.specs.Outcome.{Implements, status_of};
ghost use Rattle.sd_command_base.specs.Shown.{shown_number, shown_word};
ghost use Rattle.sd_run_books.specs.Status.{status_meaning, told_tree, tree_of_file};

use crate::status_lines::status_text;
use sd_command_base::{Number, Status, Word, print_text, read_book, read_site};
use sd_ports::{Depot, Sink};
use sd_site_cards::Site;
use sd_tree_keys::Leaf;
use std::alloc::Global;

/// Does `status SITE BOOK LEAF`. The lines are made before the first is printed.
#[inline(never)]
pub fn status<D: Depot, P: Sink>(
    alloc: Global,
    depot: &mut D,
    print: &mut P,
    site: Word<'_>,
    book: Word<'_>,
    leaf: Number,
) -> Result<(), Status>
    requires { site.number ≢ book.number }
    ensures { (steps : ℕ) → Implements
        (status_meaning (shown_word site.entry) (shown_word book.entry) (shown_number leaf))
        (io_state_at D.Depot P.Sink depot.old print.old steps)
        (io_state_at D.Depot P.Sink depot.new print.new steps) (status_of result) }
{
    let (site, leaf) = read_tree(alloc, depot, site, leaf)?;
    let book = read_book(alloc, depot, book, site.height)?;
    let text = status_text(alloc, &site, &book, leaf)?;
    print_text(print, text.as_bytes())
}

/// The site in the file that the argument names, and the leaf of its tree.
fn read_tree<D: Depot>(
    alloc: Global,
    depot: &mut D,
    word: Word<'_>,
    leaf: Number,
) -> Result<(Site, Leaf), Status>
    ensures value { FileOutcome (λ found. site_fields_of found.0) (tree_of_file word.entry.number (shown_number leaf))
        word.entry.text.now (depot_state D.Depot depot.old) (depot_state D.Depot depot.new) result }
    ensures leaf { IfOk result (λ found. found.1 ≡ leaf.value) }
{
    let site = read_site(alloc, depot, word)?;
    judge_leaf(site, leaf)
}

/// The site and the leaf of this number, which its tree must have.
fn judge_leaf(site: Site, leaf: Number) -> Result<(Site, Leaf), Status>
    ensures value { SureOutcome (λ found. site_fields_of found.0) (told_tree (shown_number leaf) (site_fields_of site))
        result }
    ensures leaf { IfOk result (λ found. found.1 ≡ leaf.value) }
{
    match Leaf::new(site.height, leaf.value) {
        Some(of_tree) => Ok((site, of_tree)),
        None => Err(Status::BadWord(leaf.word)),
    }
}

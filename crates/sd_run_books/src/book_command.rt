//! `book SITE BOOK COMMANDS OUT`: a book with the commands of another file after its own.

ghost use Rattle.std.specs.Prelude.{◌≡◌, ◌≢◌, ℕ};
ghost use Rattle.sd_command_base.specs.Outside.{PageState, io_state, depot_state};
ghost use Rattle.sd_command_base.specs.Reads.{JudgedOutcome};
ghost use Rattle.sd_command_base.specs.Outcome.{Implements, status_of};
ghost use Rattle.sd_command_base.specs.Shown.{shown_word};
ghost use Rattle.sd_run_books.specs.Book.{book_meaning, longer_book};

use sd_book::Book;
use sd_command_base::{Status, Word, book_fault, make_file, read_book, read_both};
use sd_ports::Depot;
use std::alloc::Global;

/// Does `book SITE BOOK COMMANDS OUT`: COMMANDS is a book by itself, and OUT is BOOK with its commands at the end.
#[inline(never)]
pub fn book<D: Depot>(
    alloc: Global,
    depot: &mut D,
    site: Word<'_>,
    book: Word<'_>,
    commands: Word<'_>,
    out: Word<'_>,
) -> Result<(), Status>
    requires { (site.number ≢ book.number) × (site.number ≢ commands.number) × (book.number ≢ commands.number) }
    ensures { (page : PageState) (steps : ℕ) →
        Implements (book_meaning (shown_word site.entry) (shown_word book.entry) (shown_word commands.entry)
        (shown_word out.entry))
        (io_state (depot_state D.Depot depot.old) page steps) (io_state (depot_state D.Depot depot.new) page steps)
        (status_of result) }
{
    let (site, book) = read_both(alloc, depot, site, book)?;
    let added = read_book(alloc, depot, commands, site.height)?;
    let whole = longer(commands.number, book, &added)?;
    let bytes = whole.write(alloc)?;
    make_file(alloc, depot, out, &bytes)
}

/// The book with the commands of another one after its own, which this word's file says.
#[tactic(auto, using(crate::proofs::Longer::longer_refused))]
fn longer(word: u8, mut book: Book, added: &Book) -> Result<Book, Status>
    requires { added.now.height ≡ book.height }
    ensures { JudgedOutcome (λ whole. whole.commands)
        (longer_book word book.height book.commands added.now.commands) result }
{
    let h = book.height();
    let more = added.commands();
    match book.apply(more) {
        Ok(()) => {
            // It is within the limits of a book.
            let _ = book.commands();
            Ok(book)
        }
        // A limit, which names no line.
        Err(fault) => Err(book_fault(word, h, b"", fault)),
    }
}

//! `next SITE BOOK WORDS OUT`: the site of the broadcast after that of a site.

ghost use Rattle.std.specs.Prelude.{◌≡◌, ◌≢◌, ◌<◌, ◌≤◌, ◌+◌, ◌∷◌, [], ℕ, length, IfOk, IfErr, string_bytes};
ghost use Rattle.sd_site_cards.specs.Chain.{most_word};
ghost use Rattle.sd_command_base.specs.Outside.{io_state_at};
ghost use Rattle.sd_command_base.specs.Outcome.{Implements, status_of};
ghost use Rattle.sd_command_base.specs.Files.{most_book_bytes};
ghost use Rattle.sd_command_base.specs.Made.{NewOutcome};
ghost use Rattle.sd_command_base.specs.Shown.{shown_word, shown_number};
ghost use Rattle.sd_run_books.specs.Chain.{line_of_book as line_said};
ghost use Rattle.sd_run_books.specs.Next.{next_made as made_of, next_meaning, shown_origin};

use crate::newest_site::judge_name;
use crate::origin::{Origin, read_origin};
use crate::told::told_next;
use sd_book::last_period;
use sd_command_base::{Number, Status, Word, make_new, print_text};
use sd_ports::{Depot, Sink};
use sd_site_cards::BookLine;
use sha2::{Digest, Sha256};
use std::alloc::Global;

/// Does `next SITE BOOK WORDS OUT`.
#[inline(never)]
pub fn next<D: Depot, P: Sink>(
    alloc: Global,
    depot: &mut D,
    print: &mut P,
    site: Word<'_>,
    book: Word<'_>,
    words: Number,
    out: Word<'_>,
) -> Result<(), Status>
    requires first { site.number ≡ 1 }
    requires files { (site.number ≢ book.number) × (site.number ≢ out.number) × (book.number ≢ out.number) }
    requires some { 1 ≤ words.value }
    ensures { (steps : ℕ) → Implements
        (next_meaning (shown_word site.entry) (shown_word book.entry) (shown_number words) (shown_word out.entry))
        (io_state_at D.Depot P.Sink depot.old print.old steps)
        (io_state_at D.Depot P.Sink depot.new print.new steps) (status_of result) }
{
    judge_name(site, out)?;
    let origin = read_origin(alloc, depot, site, book, words)?;
    make_next(alloc, depot, print, out, &origin, words.value)
}

/// Makes OUT the next site, and prints its lines once OUT is closed. The lines are made before OUT is.
fn make_next<D: Depot, P: Sink>(
    alloc: Global,
    depot: &mut D,
    print: &mut P,
    out: Word<'_>,
    origin: &Origin,
    words: u32,
) -> Result<(), Status>
    requires height { origin.now.file.book.height ≡ origin.now.site.height }
    requires own { origin.now.own ≤ length origin.now.file.book.commands }
    requires size { length origin.now.file.bytes.items ≤ most_book_bytes }
    requires period { origin.now.site.first_period < 4294967295 }
    requires some { 1 ≤ words }
    requires room { origin.now.site.last_word + words ≤ most_word }
    ensures { (steps : ℕ) → NewOutcome (made_of (shown_origin origin.now) words) (shown_word out.entry)
        (io_state_at D.Depot P.Sink depot.old print.old steps)
        (io_state_at D.Depot P.Sink depot.new print.new steps) (status_of result) }
{
    let (bytes, lines) = next_made(alloc, origin, words)?;
    make_new(alloc, depot, out, &bytes)?;
    print_text(print, lines.as_bytes())
}

/// The bytes of the next site, and the lines that are printed of it.
fn next_made(alloc: Global, origin: &Origin, words: u32) -> Result<(Vec<u8>, String), Status>
    requires height { origin.now.file.book.height ≡ origin.now.site.height }
    requires own { origin.now.own ≤ length origin.now.file.book.commands }
    requires size { length origin.now.file.bytes.items ≤ most_book_bytes }
    requires period { origin.now.site.first_period < 4294967295 }
    requires some { 1 ≤ words }
    requires room { origin.now.site.last_word + words ≤ most_word }
    ensures value { IfOk result (λ made. record { bytes = made.0.items; pieces = string_bytes made.1 ∷ [] }
        ≡ made_of (shown_origin origin.now) words) }
    ensures fault { IfErr result (λ status. status ≡ Status.NoMemory) }
{
    let book = &origin.file.book;
    let own = &book.commands()[..origin.own];
    let site = origin.site.next(last_period(own), words);
    let bytes = site.write(alloc, &line_of(&origin.file.bytes))?;
    let lines = told_next(alloc, &site, own, book)?;
    Ok((bytes, lines))
}

/// What line 13 says of a book with these bytes (FIPS 180-4).
fn line_of(bytes: &[u8]) -> BookLine
    requires { length bytes.now ≤ most_book_bytes }
    ensures { result ≡ line_said bytes.now }
{
    BookLine {
        size: bytes.len() as u32,
        digest: Sha256::digest(bytes),
    }
}

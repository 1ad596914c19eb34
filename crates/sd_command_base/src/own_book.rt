//! The book of a site's line 13: the file that must be it, and the longer one from which the next site is made.

ghost use Rattle.std.specs.Prelude.{◌≡◌, IfOk, Ok};
ghost use Rattle.sd_command_base.specs.Outside.{depot_state};
ghost use Rattle.sd_command_base.specs.Reads.{JudgedOutcome, SureOutcome, FileOutcome};
ghost use Rattle.sd_command_base.specs.Files.{ends_lines as are_lines, begins_with_book as begins_with};
ghost use Rattle.sd_command_base.specs.Files.{is_book as is_own};
ghost use Rattle.sd_command_base.specs.Files.{own_book_of_file, longer_book_of_file, own_book_or_status};
ghost use Rattle.sd_command_base.specs.Files.{whole_book_or_status, longer_book_or_status};

use crate::files::{MOST_BOOK_BYTES, judge_book, read_bytes};
use crate::word::Word;
use crate::{LimitKind, LineCause, Status, refused_line};
use sd_book::Book;
use sd_ports::Depot;
use sd_site_cards::BookLine;
use sd_tree_keys::Height;
use sha2::{Digest, Sha256};
use std::alloc::Global;

/// A book's file: its bytes, and the book that they say.
#[derive(Drop)]
pub struct BookFile {
    /// The bytes of the file.
    pub bytes: Vec<u8>,
    /// The book that they say.
    pub book: Book,
}

/// Whether the bytes are whole lines: there is none, or the last one is a line feed.
pub fn ends_lines(bytes: &[u8]) -> bool
    ensures { result ≡ are_lines bytes.now }
{
    match bytes.last() {
        Some(byte) => *byte == b'\n',
        None => true,
    }
}

/// Whether the bytes begin with the book of a site's line 13, which must be whole lines; if the site has no line 13,
/// they may be any.
pub fn begins_with_book(line: Option<BookLine>, bytes: &[u8]) -> bool
    ensures { result ≡ begins_with line bytes.now }
{
    match line {
        Some(line) => match bytes.get(..line.size as usize) {
            Some(book) => ends_lines(book) && Sha256::digest(book) == line.digest,
            None => false,
        },
        None => true,
    }
}

/// Whether the bytes are the book of a site's line 13; if the site has no line 13, they may be any.
pub fn is_book(line: Option<BookLine>, bytes: &[u8]) -> bool
    ensures { result ≡ is_own line bytes.now }
{
    match line {
        Some(line) => bytes.len() == line.size as usize && Sha256::digest(bytes) == line.digest,
        None => true,
    }
}

/// The book of the word's file, which must be that of the site's line 13.
pub fn read_own<D: Depot>(
    alloc: Global,
    depot: &mut D,
    word: Word<'_>,
    h: Height,
    line: Option<BookLine>,
) -> Result<Book, Status>
    ensures value { FileOutcome (λ book. book.commands) (own_book_of_file word.entry.number h line)
        word.entry.text.now (depot_state D.Depot depot.old) (depot_state D.Depot depot.new) result }
    ensures height { IfOk result (λ book. book.height ≡ h) }
{
    let bytes = read_bytes(alloc, depot, word, MOST_BOOK_BYTES, LimitKind::BookBytes)?;
    judge_own(alloc, word.number, &bytes, h, line)
}

/// The book that the bytes of this word's file say, which must be that of the site's line 13.
fn judge_own(
    alloc: Global,
    word: u8,
    bytes: &[u8],
    h: Height,
    line: Option<BookLine>,
) -> Result<Book, Status>
    ensures value { JudgedOutcome (λ book. book.commands) (own_book_or_status word h line bytes.now) result }
    ensures height { IfOk result (λ book. book.height ≡ h) }
{
    if !is_book(line, bytes) {
        return Err(Status::OtherBook);
    }
    judge_book(alloc, word, bytes, h)
}

/// The word's file with its book, which must begin with that of the site's line 13 and be whole lines.
pub fn read_longer<D: Depot>(
    alloc: Global,
    depot: &mut D,
    word: Word<'_>,
    h: Height,
    line: Option<BookLine>,
) -> Result<BookFile, Status>
    ensures value { FileOutcome (λ file. record { bytes = file.bytes.items; commands = file.book.commands })
        (longer_book_of_file word.entry.number h line)
        word.entry.text.now (depot_state D.Depot depot.old) (depot_state D.Depot depot.new) result }
    ensures height { IfOk result (λ file. file.book.height ≡ h) }
{
    let bytes = read_bytes(alloc, depot, word, MOST_BOOK_BYTES, LimitKind::BookBytes)?;
    judge_longer(alloc, word.number, bytes, h, line)
}

/// This word's file of these bytes, which must begin with the book of the site's line 13 and be whole lines.
fn judge_longer(
    alloc: Global,
    word: u8,
    bytes: Vec<u8>,
    h: Height,
    line: Option<BookLine>,
) -> Result<BookFile, Status>
    ensures value { JudgedOutcome (λ file. record { bytes = file.bytes.items; commands = file.book.commands })
        (longer_book_or_status word h line bytes.items) result }
    ensures height { IfOk result (λ file. file.book.height ≡ h) }
{
    if !begins_with_book(line, &bytes) {
        return Err(Status::OtherBook);
    }
    let book = judge_book(alloc, word, &bytes, h)?;
    judge_end(word, bytes, book)
}

/// This word's file of these bytes, if they are whole lines; else the last line is refused.
fn judge_end(word: u8, bytes: Vec<u8>, book: Book) -> Result<BookFile, Status>
    ensures value { SureOutcome (λ file. record { bytes = file.bytes.items; commands = file.book.commands })
        (whole_book_or_status word bytes.items (Ok book.commands)) result }
    ensures height { IfOk result (λ file. file.book.height ≡ book.height) }
{
    if !ends_lines(&bytes) {
        let line = refused_line(LineCause::Unended, book.commands().len() as u32, &bytes);
        return Err(Status::BadBook { word, line });
    }
    Ok(BookFile { bytes, book })
}

ghost use Rattle.std.specs.Prelude.{◌≡◌, ◌≤◌, IfOk};
ghost use Rattle.sd_book.specs.Text.{book_of};
ghost use Rattle.sd_site_cards.specs.SiteFields.{site_fields_of};
ghost use Rattle.sd_site_cards.specs.Text.{site_of};
ghost use Rattle.sd_command_base.specs.Spec.{within};
ghost use Rattle.sd_command_base.specs.Outside.{depot_state};
ghost use Rattle.sd_command_base.specs.Reads.{JudgedOutcome, SureOutcome, FileOutcome};
ghost use Rattle.sd_command_base.specs.Files.{site_of_file, book_of_file, low_site_of_file, book_or_status};
ghost use Rattle.sd_command_base.specs.Files.{low_site_or_status};
ghost use Rattle.sd_command_base.specs.Files.{most_card_bytes, refused_site, refused_book, refused_card};
ghost use Rattle.sd_command_base.specs.Files.{site_or_status};

use crate::word::Word;
use crate::{LimitKind, LineCause, Status, malformed, refused_line, site_excerpt};
use sd_book::{Book, BookFault};
use sd_ports::{Depot, FileFault, read_file};
use sd_site_cards::{CardFault, MOST_BOOK_SIZE, Site, SiteFault};
use sd_tree_keys::Height;
use std::alloc::Global;

/// As many bytes as a site file may have.
pub const MOST_SITE_BYTES: usize = 4_096;

/// As many bytes as a book file may have.
pub const MOST_BOOK_BYTES: usize = MOST_BOOK_SIZE as usize;

/// As many bytes as a card's file may have.
pub const MOST_CARD_BYTES: usize = 8_192;

/// The site of the word's file.
pub fn read_site<D: Depot>(alloc: Global, depot: &mut D, word: Word<'_>) -> Result<Site, Status>
    ensures { FileOutcome site_fields_of (site_of_file word.entry.number) word.entry.text.now
        (depot_state D.Depot depot.old) (depot_state D.Depot depot.new) result }
{
    let bytes = read_bytes(alloc, depot, word, MOST_SITE_BYTES, LimitKind::SiteBytes)?;
    judge_site(word.number, &bytes)
}

/// The site that the bytes of this word's file say.
fn judge_site(word: u8, bytes: &[u8]) -> Result<Site, Status>
    ensures { SureOutcome site_fields_of (site_or_status word bytes.now (site_of bytes.now)) result }
{
    match sd_site_cards::read(bytes) {
        Ok(site) => Ok(site),
        Err(fault) => Err(site_fault(word, bytes, fault)),
    }
}

/// What the program answers to a site that is refused, which this word's file of these bytes says.
pub fn site_fault(word: u8, bytes: &[u8], fault: SiteFault) -> Status
    ensures { result ≡ refused_site word bytes.now fault }
{
    Status::BadSite {
        word,
        fault,
        text: site_excerpt(fault, bytes),
    }
}

/// The site of the word's file, whose tree must be of height at most `most`: a higher one exceeds this limit.
pub fn read_low_site<D: Depot>(
    alloc: Global,
    depot: &mut D,
    word: Word<'_>,
    most: u8,
    kind: LimitKind,
) -> Result<Site, Status>
    ensures value { FileOutcome site_fields_of (low_site_of_file word.entry.number most kind) word.entry.text.now
        (depot_state D.Depot depot.old) (depot_state D.Depot depot.new) result }
    ensures low { IfOk result (λ site. site.height ≤ most) }
{
    let site = read_site(alloc, depot, word)?;
    judge_height(site, most, kind)
}

/// The site, if its tree is of height at most `most`.
fn judge_height(site: Site, most: u8, kind: LimitKind) -> Result<Site, Status>
    ensures value { SureOutcome site_fields_of (low_site_or_status most kind (site_fields_of site)) result }
    ensures low { IfOk result (λ site. site.height ≤ most) }
{
    if site.height.get() > most {
        return Err(Status::Limit(kind));
    }
    Ok(site)
}

/// The book of the word's file.
pub fn read_book<D: Depot>(
    alloc: Global,
    depot: &mut D,
    word: Word<'_>,
    h: Height,
) -> Result<Book, Status>
    ensures value { FileOutcome (λ book. book.commands) (book_of_file word.entry.number h) word.entry.text.now
        (depot_state D.Depot depot.old) (depot_state D.Depot depot.new) result }
    ensures height { IfOk result (λ book. book.height ≡ h) }
{
    let bytes = read_bytes(alloc, depot, word, MOST_BOOK_BYTES, LimitKind::BookBytes)?;
    judge_book(alloc, word.number, &bytes, h)
}

/// The book that the bytes of this word's file say.
pub(crate) fn judge_book(alloc: Global, word: u8, bytes: &[u8], h: Height) -> Result<Book, Status>
    ensures value { JudgedOutcome (λ book. book.commands) (book_or_status word h bytes.now (book_of h bytes.now))
        result }
    ensures height { IfOk result (λ book. book.height ≡ h) }
{
    match Book::read(alloc, bytes, h) {
        Ok(book) => Ok(book),
        Err(fault) => Err(book_fault(word, h, bytes, fault)),
    }
}

/// What the program answers to a book for a tree of this height that is refused, which this word's file says.
pub fn book_fault(word: u8, h: Height, bytes: &[u8], fault: BookFault) -> Status
    ensures { result ≡ refused_book word h bytes.now fault }
{
    let line = match fault {
        BookFault::Line(k) => malformed(k, bytes),
        BookFault::Leaf(k) => refused_line(LineCause::Leaf(h.get()), k, bytes),
        BookFault::Limit(limit) => return Status::Limit(LimitKind::Book(limit)),
        BookFault::NoMemory => return Status::NoMemory,
    };
    Status::BadBook { word, line }
}

/// The bytes of the word's file, a card's.
pub fn read_card_bytes<D: Depot>(
    alloc: Global,
    depot: &mut D,
    word: Word<'_>,
) -> Result<Vec<u8>, Status>
    ensures { FileOutcome (λ bytes. bytes.items) (within word.entry.number most_card_bytes LimitKind.CardBytes)
        word.entry.text.now (depot_state D.Depot depot.old) (depot_state D.Depot depot.new) result }
{
    read_bytes(alloc, depot, word, MOST_CARD_BYTES, LimitKind::CardBytes)
}

/// The status where the bytes of this word's file are no card, or of an allocation that failed.
pub fn card_fault(word: u8, fault: CardFault) -> Status
    ensures { result ≡ refused_card word fault }
{
    match fault {
        CardFault::NoMemory => Status::NoMemory,
        _ => Status::BadCard { word, fault },
    }
}

/// The bytes of the word's file, at most `most`.
pub fn read_bytes<D: Depot>(
    alloc: Global,
    depot: &mut D,
    word: Word<'_>,
    most: usize,
    kind: LimitKind,
) -> Result<Vec<u8>, Status>
    ensures { FileOutcome (λ bytes. bytes.items) (within word.entry.number most kind) word.entry.text.now
        (depot_state D.Depot depot.old) (depot_state D.Depot depot.new) result }
{
    match read_file(alloc, depot, word.text, most) {
        Ok(bytes) => Ok(bytes),
        Err(FileFault::Missing) => Err(Status::Missing(word.number)),
        Err(FileFault::TooBig) => Err(Status::Limit(kind)),
        Err(FileFault::Failed) => Err(Status::DepotFault),
        Err(FileFault::NoMemory) => Err(Status::NoMemory),
    }
}

ghost use Rattle.std.specs.Prelude.{◌≡◌, ◌==◌, ◌||◌, Ok, Err, false, IfOk, IsSome, MatchResult, length};
ghost use Rattle.std.specs.List.{count_by};
ghost use Rattle.sd_base.specs.Lines.{lines_of};
ghost use Rattle.sd_site_cards.specs.SiteFields.{site_fields_of};
ghost use Rattle.sd_site_cards.specs.Written.{fewer_taken, is_first_site, are_lines_whole, site_of_chain};

use crate::book_line::BookLine;
use crate::site::Site;
use crate::site_fault::SiteFault;
use crate::site_read::read_with_book;
use sd_base::next_line;

// The lines of a site file that says its book.
const LINES: usize = 13;

// The lines of a first site.
const FIRST_LINES: usize = 12;

/// The site that a next one is made from, and what line 13 says of its book. Unless all thirteen lines are there, each
/// with its line feed, the site is short; if `first`, a first site is taken too.
#[tactic(auto, using(crate::proofs::Alone::newest_say), unfolding(crate::specs::Written::site_of_chain))]
pub fn read_newest(bytes: &[u8], first: bool) -> Result<(Site, Option<BookLine>), SiteFault>
    // Which site, book and fault it is, as a function of the bytes.
    ensures value { MatchResult result
        (λ said. site_of_chain (fewer_taken first) bytes.now ≡ Ok (site_fields_of said.0, said.1))
        (λ fault. site_of_chain (fewer_taken first) bytes.now ≡ Err fault) }
    // Where no first site is taken, there is a book.
    ensures book { first ≡ false → IfOk result (λ said. IsSome said.1) }
{
    let (site, book) = read_with_book(bytes)?;
    if is_newest(bytes, &site, first) {
        Ok((site, book))
    } else {
        Err(SiteFault::Short)
    }
}

// Whether the file of this site has all thirteen lines, or may have fewer.
fn is_newest(bytes: &[u8], site: &Site, first: bool) -> bool
    ensures { result ≡ (are_lines_whole 13 bytes.now || fewer_taken first bytes.now (site_fields_of site.now)) }
{
    is_whole(LINES, bytes) || first && is_first(bytes, site)
}

// Whether it is a first site: twelve lines and no control word.
fn is_first(bytes: &[u8], site: &Site) -> bool
    ensures { result ≡ is_first_site bytes.now (site_fields_of site.now) }
{
    is_whole(FIRST_LINES, bytes) && site.last_word < site.first_word
}

// Whether the bytes are so many lines, each with its line feed.
fn is_whole(count: usize, bytes: &[u8]) -> bool
    ensures { result ≡ are_lines_whole count bytes.now }
{
    line_count(bytes) == count && feed_count(bytes) == count
}

fn line_count(bytes: &[u8]) -> usize
    ensures { result ≡ length (lines_of bytes.now) }
{
    let mut rest = bytes;
    let mut count = 0;
    while let Some((_, after)) = next_line(rest) {
        rest = after;
        count += 1;
    }
    count
}

fn feed_count(bytes: &[u8]) -> usize
    ensures { result ≡ count_by (λ byte. byte == 10) bytes.now }
{
    bytes.iter().filter(|byte| **byte == b'\n').count()
}

ghost use Rattle.std.specs.Prelude.{◌≡◌, ◌≤◌, ◌↔◌, ℕ, List, Ok, Err, IfOk, IsErrOf, MatchResult};
ghost use Rattle.std.specs.Int.{w16, from_be_bytes};
ghost use Rattle.std.specs.Result.{result_map_both};
ghost use Rattle.sd_base.specs.Lines.{lines_of};
ghost use Rattle.sd_site_cards.specs.SiteFields.{SiteFields, site_fields_of};
ghost use Rattle.sd_site_cards.specs.Forms.{IsWithin, height_line, master_line, ca_line, emm_line, ecm_line};
ghost use Rattle.sd_site_cards.specs.Forms.{every_line, cryptos_line, span_line, messages_line};
ghost use Rattle.sd_site_cards.specs.SiteFaults.{IsSiteFaultOf};
ghost use Rattle.sd_site_cards.specs.Text.{IsSite, site_of, ◌>>=◌ as ◌>>>◌, number_on_line, optional_at, optional_on};
ghost use Rattle.sd_site_cards.specs.Text.{bytes_at};
ghost use Rattle.sd_site_cards.specs.Text.{book_line_at, book_line_of, in_book_range, site_and_book_on};
ghost use Rattle.sd_site_cards.specs.Forms.{book_after};

use crate::book_line::{BookLine, MOST_BOOK_SIZE};
use crate::optional::Optional;
use crate::site::{
    MOST_CRYPTOS, MOST_EVERY, MOST_FIRST_PERIOD, MOST_MESSAGES, MOST_SPAN, MOST_WORD, Site,
};
use crate::site_fault::SiteFault;
use hex::FromHex;
use sd_base::{NumberFault, cut_at_space, next_line, number_after};
use sd_packet::{HIGHEST_POSITIONAL, LOWEST_POSITIONAL};
use sd_tree_keys::{HIGHEST, Height};

// The number of the line that says the site's book, which is the last.
const BOOK_LINE: u32 = 13;

// The number on line k, which is the first of these bytes, and the bytes after the line.
fn number_line<'a>(
    bytes: &'a [u8],
    k: u32,
    word: &[u8],
    low: u32,
    high: u32,
) -> Result<(u32, &'a [u8]), SiteFault>
    ensures fits { IfOk result (λ cut. (low ≤ cut.0) × (cut.0 ≤ high)) }
    ensures value { MatchResult result
        (λ cut. number_on_line k (record { word = word.now; low = low; high = high }) (lines_of bytes.now)
        ≡ Ok (cut.0, lines_of cut.1.now))
        (λ fault. number_on_line k (record { word = word.now; low = low; high = high }) (lines_of bytes.now)
        ≡ Err fault) }
{
    let (line, rest) = next_line(bytes).ok_or(SiteFault::Short)?;
    match number_after(word, line) {
        Ok(number) if (low..=high).contains(&number) => Ok((number, rest)),
        Ok(_) | Err(NumberFault::TooLarge) => Err(SiteFault::Range(k)),
        Err(NumberFault::Malformed) => Err(SiteFault::Line(k)),
    }
}

fn pid_line<'a>(bytes: &'a [u8], k: u32, word: &[u8]) -> Result<(u16, &'a [u8]), SiteFault>
    ensures fits { IfOk result (λ cut. IsWithin emm_line cut.0) }
    ensures value { MatchResult result
        (λ cut. number_on_line k (record emm_line { word = word.now }) (lines_of bytes.now)
        ≡ Ok (cut.0, lines_of cut.1.now))
        (λ fault. number_on_line k (record emm_line { word = word.now }) (lines_of bytes.now) ≡ Err fault) }
{
    let (number, rest) = number_line(
        bytes,
        k,
        word,
        u32::from(LOWEST_POSITIONAL),
        u32::from(HIGHEST_POSITIONAL),
    )?;
    Ok((number as u16, rest))
}

// The PIDs on lines 4 and 5, and the bytes after those lines.
fn pid_lines(bytes: &[u8]) -> Result<(u16, u16, &[u8]), SiteFault>
    ensures fits { IfOk result (λ cut. IsWithin emm_line cut.0 × IsWithin ecm_line cut.1) }
    ensures value { result_map_both {U = ℕ × ℕ × List (List ℕ)}
        (λ cut. (cut.0, cut.1, lines_of cut.2.now)) (λ fault. fault) result
        ≡ (number_on_line 4 emm_line (lines_of bytes.now) >>> λ emm. number_on_line 5 ecm_line emm.1 >>> λ ecm.
        Ok (emm.0, ecm.0, ecm.1)) }
{
    let (emm, rest) = pid_line(bytes, 4, b"emm ")?;
    let (ecm, rest) = pid_line(rest, 5, b"ecm ")?;
    Ok((emm, ecm, rest))
}

// The numbers of the schedule on lines 6 to 8, and the bytes after those lines.
fn schedule_lines(bytes: &[u8]) -> Result<(u32, u32, u32, &[u8]), SiteFault>
    ensures fits { IfOk result
        (λ cut. IsWithin every_line cut.0 × IsWithin cryptos_line cut.1 × IsWithin span_line cut.2) }
    ensures value { result_map_both {U = ℕ × ℕ × ℕ × List (List ℕ)}
        (λ cut. (cut.0, cut.1, cut.2, lines_of cut.3.now)) (λ fault. fault) result
        ≡ (number_on_line 6 every_line (lines_of bytes.now) >>> λ every. number_on_line 7 cryptos_line every.1 >>>
        λ cryptos.
        number_on_line 8 span_line cryptos.1 >>> λ span. Ok (every.0, cryptos.0, span.0, span.1)) }
{
    let (every, rest) = number_line(bytes, 6, b"ecm-every ", 1, MOST_EVERY)?;
    let (cryptos, rest) = number_line(rest, 7, b"crypto-ecms ", 1, MOST_CRYPTOS)?;
    let (span, rest) = number_line(rest, 8, b"period-cryptos ", 1, MOST_SPAN)?;
    Ok((every, cryptos, span, rest))
}

// The number on line k, or what stands for it if no line is left.
fn optional_line<'a>(
    bytes: &'a [u8],
    k: u32,
    word: &[u8],
    low: u32,
    high: u32,
    left_out: u32,
) -> Result<(u32, &'a [u8]), SiteFault>
    requires { (low ≤ left_out) × (left_out ≤ high) }
    ensures fits { IfOk result (λ cut. (low ≤ cut.0) × (cut.0 ≤ high)) }
    ensures value { MatchResult result
        (λ cut. optional_at k (record { word = word.now; low = low; high = high }) left_out (lines_of bytes.now)
        ≡ Ok (cut.0, lines_of cut.1.now))
        (λ fault. optional_at k (record { word = word.now; low = low; high = high }) left_out (lines_of bytes.now)
        ≡ Err fault) }
{
    if next_line(bytes).is_none() {
        return Ok((left_out, bytes));
    }
    number_line(bytes, k, word, low, high)
}

// What the lines after the eighth say, and the bytes after those lines.
#[tactic(auto, unfolding(crate::specs::Text::optional_on))]
fn optional_lines(bytes: &[u8]) -> Result<(Optional, &[u8]), SiteFault>
    ensures fits { IfOk result (λ cut. IsWithin messages_line cut.0.messages) }
    ensures value { MatchResult result
        (λ cut. optional_on (lines_of bytes.now) ≡ Ok (cut.0, lines_of cut.1.now))
        (λ fault. optional_on (lines_of bytes.now) ≡ Err fault) }
{
    let (messages, rest) = optional_line(bytes, 9, b"messages ", 1, u32::from(MOST_MESSAGES), 1)?;
    let (first_word, rest) = optional_line(rest, 10, b"first-word ", 0, MOST_WORD, 0)?;
    let (last_word, rest) = optional_line(rest, 11, b"last-word ", 0, MOST_WORD, MOST_WORD)?;
    let (first_period, rest) = optional_line(rest, 12, b"first-period ", 0, MOST_FIRST_PERIOD, 0)?;
    Ok((
        Optional {
            messages,
            first_word,
            last_word,
            first_period,
        },
        rest,
    ))
}

// The N bytes in hexadecimal digits on line k, and the bytes after the line.
#[tactic(auto, using(crate::proofs::Digits::bytes_of_digits), unfolding(crate::specs::Forms::bytes_after, sd_base::specs::Number::rest_after))]
fn bytes_line<'a, const N: usize>(
    bytes: &'a [u8],
    k: u32,
    word: &[u8],
) -> Result<([u8; N], &'a [u8]), SiteFault>
    ensures { MatchResult result
        (λ cut. bytes_at k (record { word = word.now; count = N }) (lines_of bytes.now)
        ≡ Ok (cut.0, lines_of cut.1.now))
        (λ fault. bytes_at k (record { word = word.now; count = N }) (lines_of bytes.now) ≡ Err fault) }
{
    let (line, rest) = next_line(bytes).ok_or(SiteFault::Short)?;
    let digits = line.strip_prefix(word).ok_or(SiteFault::Line(k))?;
    let value = <[u8; N] as FromHex>::from_hex(digits).map_err(|_| SiteFault::Line(k))?;
    Ok((value, rest))
}

// The height, the master secret and the CA_system_ID on lines 1 to 3, and the bytes after those lines.
fn tree_lines(bytes: &[u8]) -> Result<(u8, [u8; 32], u16, &[u8]), SiteFault>
    ensures fits { IfOk result (λ cut. IsWithin height_line cut.0) }
    ensures value { result_map_both {U = ℕ × List ℕ × ℕ × List (List ℕ)}
        (λ cut. (cut.0, cut.1, cut.2, lines_of cut.3.now)) (λ fault. fault) result
        ≡ (number_on_line 1 height_line (lines_of bytes.now) >>> λ height. bytes_at 2 master_line height.1 >>> λ master.
        bytes_at 3 ca_line master.1 >>> λ ca. Ok (height.0, master.0, from_be_bytes w16 ca.0, ca.1)) }
{
    let (height, rest) = number_line(bytes, 1, b"height ", 1, u32::from(HIGHEST))?;
    let (master, rest) = bytes_line::<32>(rest, 2, b"master ")?;
    let (ca, rest) = bytes_line::<2>(rest, 3, b"ca ")?;
    Ok((height as u8, master, u16::from_be_bytes(ca), rest))
}

// What line 13 says.
#[tactic(auto, using(crate::proofs::Digits::bytes_of_digits), unfolding(crate::specs::Forms::book_after, sd_base::specs::Number::rest_after))]
fn book_line(line: &[u8]) -> Result<BookLine, SiteFault>
    ensures { result ≡ in_book_range (book_after line.now) }
{
    let text = line
        .strip_prefix(b"book ")
        .ok_or(SiteFault::Line(BOOK_LINE))?;
    let (size, digits) = cut_at_space(text).ok_or(SiteFault::Line(BOOK_LINE))?;
    let digest = <[u8; 32] as FromHex>::from_hex(digits).map_err(|_| SiteFault::Line(BOOK_LINE))?;
    match number_after(b"", size) {
        Ok(size) if size <= MOST_BOOK_SIZE => Ok(BookLine { size, digest }),
        Ok(_) | Err(NumberFault::TooLarge) => Err(SiteFault::Range(BOOK_LINE)),
        Err(NumberFault::Malformed) => Err(SiteFault::Line(BOOK_LINE)),
    }
}

// What line 13 says, if it is there, and the bytes after it.
fn optional_book(bytes: &[u8]) -> Result<(Option<BookLine>, &[u8]), SiteFault>
    ensures { MatchResult result
        (λ cut. book_line_at (lines_of bytes.now) ≡ Ok (cut.0, lines_of cut.1.now))
        (λ fault. book_line_at (lines_of bytes.now) ≡ Err fault) }
{
    let Some((line, rest)) = next_line(bytes) else {
        return Ok((None, bytes));
    };
    Ok((Some(book_line(line)?), rest))
}

/// The site that a file's bytes say. Nothing is allocated.
pub fn read(bytes: &[u8]) -> Result<Site, SiteFault>
    // What is read is a site file that says this.
    ensures sound { IfOk result (λ site. IsSite bytes.now (site_fields_of site)) }
    // What is a site file is read.
    ensures complete { (fields : SiteFields) → IsSite bytes.now fields →
        MatchResult result (λ site. site_fields_of site ≡ fields) (λ _. ⊥) }
    // Which site or fault it is, as a function of the bytes.
    ensures value { MatchResult result
        (λ site. site_of bytes.now ≡ Ok (site_fields_of site)) (λ fault. site_of bytes.now ≡ Err fault) }
    // Each fault comes exactly where the lines have it.
    ensures fault { (fault : SiteFault) → IsErrOf result fault ↔ IsSiteFaultOf (lines_of bytes.now) fault }
{
    judge(bytes)
}

// The other clauses of `read` follow from this one.
fn judge(bytes: &[u8]) -> Result<Site, SiteFault>
    ensures { MatchResult result
        (λ site. site_of bytes.now ≡ Ok (site_fields_of site)) (λ fault. site_of bytes.now ≡ Err fault) }
{
    let (site, _) = read_with_book(bytes)?;
    Ok(site)
}

/// The site that a file's bytes say, and what line 13 says of its book, if it is there.
pub fn read_with_book(bytes: &[u8]) -> Result<(Site, Option<BookLine>), SiteFault>
    ensures value { MatchResult result
        (λ said. (site_of bytes.now ≡ Ok (site_fields_of said.0)) × (book_line_of bytes.now ≡ said.1))
        (λ fault. site_of bytes.now ≡ Err fault) }
{
    judge_lines(bytes)
}

// The clause of `read_with_book` follows from this one.
#[tactic(auto, unfolding(crate::specs::Text::site_and_book_on))]
fn judge_lines(bytes: &[u8]) -> Result<(Site, Option<BookLine>), SiteFault>
    ensures { MatchResult result
        (λ said. site_and_book_on (lines_of bytes.now) ≡ Ok (site_fields_of said.0, said.1))
        (λ fault. site_and_book_on (lines_of bytes.now) ≡ Err fault) }
{
    let (height, master, ca, rest) = tree_lines(bytes)?;
    let height = Height::new(height).ok_or(SiteFault::Range(1))?;
    let (emm, ecm, rest) = pid_lines(rest)?;
    let (every, cryptos, span, rest) = schedule_lines(rest)?;
    let (optional, rest) = optional_lines(rest)?;
    let (book, rest) = optional_book(rest)?;
    if next_line(rest).is_some() {
        return Err(SiteFault::Extra(BOOK_LINE + 1));
    }
    if emm == ecm {
        return Err(SiteFault::SamePid);
    }
    let site = Site {
        height,
        master,
        ca,
        emm,
        ecm,
        every,
        cryptos,
        span,
        messages: optional.messages as u8,
        first_word: optional.first_word,
        last_word: optional.last_word,
        first_period: optional.first_period,
    };
    Ok((site, book))
}

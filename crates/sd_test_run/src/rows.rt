ghost use Rattle.std.specs.Prelude.{◌≤◌};

use crate::files::Files;
use crate::leaving::{Fault, Leaving, left};
use sd_engine::sample;
use sd_ports::MemSink;
use sd_test_texts::{SITE, site_start};
use std::alloc::{AllocError, Global};

/// The first line of the tables in a sample stream of three packets, and these lines after it.
macro_rules! first_table {
    ($($lines:literal),* $(,)?) => {
        concat!(
            r#"{"packet":0,"pid":0,"programs":[{"number":1,"pid":4096}],"stream":1,"table":"pat","version":0}
"#,
            $($lines),*
        )
    };
}

/// All lines of these tables, and these after them.
macro_rules! tables {
    ($($lines:literal),* $(,)?) => {
        first_table!(
            r#"{"ca":[],"packet":1,"pcr":256,"pid":4096,"program":1,"streams":["#,
            r#"{"ca":[],"pid":256,"type":27},{"ca":[],"pid":257,"type":15}],"table":"pmt","version":0}
"#,
            $($lines),*
        )
    };
}

pub(crate) const ALL: &str = "period 0 revoked 0 sets 1\nall\n";

const ALL_BUT_FIVE: &str = "period 0 revoked 1 sets 1\n1 13\n";

/// A file by its name.
pub(crate) type File<'a> = (&'a str, &'a [u8]);

/// What the words leave where the file S has these bytes and these files stand beside it.
pub(crate) fn over(
    alloc: Global,
    words: &[&str],
    site: &[u8],
    beside: &[File<'_>],
    most: usize,
    fault: Fault<'_>,
) -> Result<Leaving, AllocError>
    requires { 1 ≤ most }
{
    let mut files = Files::with(alloc, "S", site)?;
    for (name, bytes) in beside {
        files.add(alloc, name, bytes)?;
    }
    left(alloc, &files, words, most, fault)
}

/// Whether a run ended with this exit and printed this text.
pub(crate) fn tells(left: &Leaving, exit: u8, text: &str) -> bool {
    left.status.code() == exit && left.printed.as_slice() == text.as_bytes()
}

/// What `cover` leaves over this site and this book.
fn cover(
    alloc: Global,
    site: &str,
    book: &[u8],
    most: usize,
    fault: Fault<'_>,
) -> Result<Leaving, AllocError>
    requires { 1 ≤ most }
{
    let words = ["cover", "S", "B"];
    let files: [File<'_>; 1] = [("B", book)];
    over(alloc, &words, site.as_bytes(), &files, most, fault)
}

/// Whether `cover` ends with this exit and prints this text over this site and this book.
pub(crate) fn is_covered(
    alloc: Global,
    site: &str,
    book: &[u8],
    most: usize,
    exit: u8,
    text: &str,
) -> Result<bool, AllocError>
    requires { 1 ≤ most }
{
    let left = cover(alloc, site, book, most, Fault::Nowhere)?;
    Ok(tells(&left, exit, text))
}

// Books, the exit of `cover`, and what it prints.
static BOOKS: [(&[u8], u8, &str); 19] = [
    (b"", 0, ALL),
    (b"revoke 5\n", 0, ALL_BUT_FIVE),
    (b"revoke 5", 0, ALL_BUT_FIVE),
    (b"revoke 5\nrevoke 5\nsubscribe 5\n", 0, ALL),
    (b"subscribe 5\nrevoke 5\nrevoke 5\n", 0, ALL_BUT_FIVE),
    (
        b"revoke 0\nrevoke 1\n",
        0,
        "period 0 revoked 2 sets 1\n1 4\n",
    ),
    (
        b"revoke 0\nrevoke 2\n",
        0,
        "period 0 revoked 2 sets 3\n1 2\n4 8\n5 10\n",
    ),
    (
        b"revoke 7\nrevoke 0\n",
        0,
        "period 0 revoked 2 sets 2\n2 8\n3 15\n",
    ),
    (
        b"revoke 5\nperiod\nperiod\nsubscribe 5\n",
        0,
        "period 0 revoked 1 sets 1\n1 13\nperiod 1 revoked 1 sets 1\n1 13\nperiod 2 revoked 0 sets 1\nall\n",
    ),
    (
        b"revoke 5\nperiod\nnonsense\n",
        7,
        "word 2 line 3 is refused\n",
    ),
    (b"nonsense\nperiod\n", 7, "word 2 line 1 is refused\n"),
    (b"revoke 8\n", 7, "word 2 line 1 is refused\n"),
    (b"revoke 1\r\n", 7, "word 2 line 1 is refused\n"),
    (b"revoke 1\n\nrevoke 2\n", 7, "word 2 line 2 is refused\n"),
    (
        b"revoke 1\nrevoke 99999999999999999999\n",
        7,
        "word 2 line 2 is refused\n",
    ),
    (b"revoke 01\n", 7, "word 2 line 1 is refused\n"),
    (b"revoke \xff\n", 7, "word 2 line 1 is refused\n"),
    (b"subscribe 0\nperiod 1\n", 7, "word 2 line 2 is refused\n"),
    (
        b"period\nrevoke 6\n",
        0,
        "period 0 revoked 0 sets 1\nall\nperiod 1 revoked 1 sets 1\n1 14\n",
    ),
];

/// Whether `cover` has this exit and prints this text of a book, if one byte, three or all go through a call of a port.
fn is_answered(alloc: Global, book: &[u8], exit: u8, text: &str) -> Result<bool, AllocError> {
    for most in [1, 3, 1000] {
        if !is_covered(alloc, SITE, book, most, exit, text)? {
            return Ok(false);
        }
    }
    Ok(true)
}

#[test]
fn books_are_covered_or_refused(rt: HostRuntime) -> Result<(), AllocError> {
    for (place, (book, exit, text)) in BOOKS.iter().enumerate() {
        assert!(rt; is_answered(rt.alloc(), book, *exit, text)?, "row {place}");
    }
    Ok(())
}

// Words, which stand in a line each, the site, the exit, and what is printed.
static JUDGED: [(&str, &str, u8, &str); 9] = [
    (
        "cover S\nhead S B C C\ncovers S B\ncard S x S\ntables S B\nsample 7 1",
        SITE,
        1,
        "usage\n",
    ),
    (
        "tables C\ncover C C\ncard C 4294967295 O",
        SITE,
        2,
        "missing file word 1\n",
    ),
    ("cover S C", SITE, 2, "missing file word 2\n"),
    (
        "sample 4294967296 -1 O",
        SITE,
        17,
        "word 1 is out of range\n",
    ),
    (
        "card S 8 O\ncard C 05 O\ncard C 4294967296 O\nsample 7 1000001 O",
        SITE,
        17,
        "word 2 is out of range\n",
    ),
    ("cover S B", "", 6, "site is short\n"),
    (
        "cover S B",
        "height 21\n",
        6,
        "site line 1 is out of range\n",
    ),
    // The site without its last line.
    (
        "cover S B",
        site_start!("ecm-every 200\ncrypto-ecms 2\n"),
        6,
        "site is short\n",
    ),
    ("card S 5 O", "height 3", 6, "site is short\n"),
];

/// Whether the words over this site end with this exit, print this text and make nothing.
fn is_judged(
    alloc: Global,
    words: &[&str],
    site: &str,
    exit: u8,
    text: &str,
) -> Result<bool, AllocError> {
    let files: [File<'_>; 1] = [("B", b"revoke 5\n")];
    let left = over(alloc, words, site.as_bytes(), &files, 7, Fault::Nowhere)?;
    Ok(tells(&left, exit, text) && left.out.is_none())
}

/// Whether this is so with the words of each line.
fn are_judged(
    alloc: Global,
    lines: &str,
    site: &str,
    exit: u8,
    text: &str,
) -> Result<bool, AllocError> {
    for line in lines.lines() {
        let words: Vec<&str> = line.split(' ').collect(alloc)?;
        if !is_judged(alloc, &words, site, exit, text)? {
            return Ok(false);
        }
    }
    Ok(true)
}

/// Whether a site with a byte more than a site has at most is refused.
fn is_too_long(alloc: Global) -> Result<bool, AllocError> {
    let site = " ".repeat(alloc, 4097)?;
    are_judged(alloc, "cover S B", &site, 11, "limit: site bytes\n")
}

#[test]
fn words_and_sites_are_judged(rt: HostRuntime) -> Result<(), AllocError> {
    let alloc = rt.alloc();
    assert!(rt; is_judged(alloc, &[], SITE, 1, "usage\n")?);
    for (lines, site, exit, text) in &JUDGED {
        assert!(rt;
            are_judged(alloc, lines, site, *exit, text)?,
            "{lines} {text}"
        );
    }
    assert!(rt; is_too_long(alloc)?);
    Ok(())
}

/// What the arguments leave if a file that is made has room for so many bytes.
fn left_in(
    alloc: Global,
    room: usize,
    words: &[&str],
    most: usize,
    fault: Fault<'_>,
) -> Result<Leaving, AllocError>
    requires { 1 ≤ most }
{
    let mut files = Files::new(alloc)?;
    files.room = room;
    left(alloc, &files, words, most, fault)
}

/// The words that make the card of leaf 5.
const CARD: &[&str] = &["card", "S", "5", "O"];

/// Whether `card` makes this card without a print.
fn is_card_made(alloc: Global, card: &[u8]) -> Result<bool, AllocError> {
    let made = left_in(alloc, 252, CARD, 100, Fault::Print(0))?;
    let is_whole = match &made.out {
        Some(out) => out.as_slice() == card,
        None => false,
    };
    Ok(tells(&made, 0, "") && is_whole)
}

/// Whether `card` leaves a prefix of this card if the device has less room.
fn is_card_cut(alloc: Global, card: &[u8]) -> Result<bool, AllocError> {
    let cut = left_in(alloc, 251, CARD, 100, Fault::Nowhere)?;
    Ok(tells(&cut, 4, "device fault\n") && is_made_below(&cut, 252) && cut.is_prefix_of(card))
}

/// Whether a file was made of fewer bytes than these.
fn is_made_below(left: &Leaving, length: usize) -> bool {
    match &left.out {
        Some(out) => out.len() < length,
        None => false,
    }
}

/// Whether `card` does both with the card of leaf 5.
fn are_cards_made(alloc: Global) -> Result<bool, AllocError> {
    let card = card_5(alloc)?;
    Ok(is_card_made(alloc, &card)? && is_card_cut(alloc, &card)?)
}

/// Whether a sample stream of so many packets has this length, and its fourth packet, if there is one, begins with
/// these bytes.
fn is_sampled(
    alloc: Global,
    packets: &str,
    length: usize,
    start: &[u8],
) -> Result<bool, AllocError> {
    let words = ["sample", "0", packets, "O"];
    let made = left_in(alloc, 1000, &words, 1000, Fault::Nowhere)?;
    let has_fourth = match &made.out {
        Some(out) => out.len() == length && fourth(out).starts_with(start),
        None => false,
    };
    Ok(made.status.code() == 0 && has_fourth)
}

/// The bytes of a stream from its fourth packet on.
fn fourth(stream: &[u8]) -> &[u8] {
    stream.get(564..).unwrap_or(&[])
}

/// Whether a device's fault is told where there is room for a part of a sample stream alone.
fn is_sample_cut(alloc: Global) -> Result<bool, AllocError> {
    let words = ["sample", "0", "4", "O"];
    let cut = left_in(alloc, 564, &words, 100, Fault::Nowhere)?;
    Ok(cut.status.code() == 4 && is_made_below(&cut, 752))
}

#[test]
fn files_are_made(rt: HostRuntime) -> Result<(), AllocError> {
    let alloc = rt.alloc();
    assert!(rt; are_cards_made(alloc)?);
    assert!(rt; is_sampled(alloc, "0", 0, b"")?);
    assert!(rt; is_sampled(alloc, "4", 752, &[0x47, 1, 1, 0x10, 0x14])?);
    assert!(rt; is_sample_cut(alloc)?);
    Ok(())
}

/// The sample stream of this number and so many packets.
pub(crate) fn sampled(alloc: Global, number: u32, packets: u32) -> Result<Vec<u8>, AllocError>
    requires { packets ≤ 600 }
{
    let Ok(mut sink) = MemSink::new(alloc, 112_800, 112_800, Vec::new(alloc)) else {
        return Err(AllocError);
    };
    match sample(number, packets, &mut sink) {
        Ok(()) => Ok(sink.into_bytes()),
        Err(_) => Err(AllocError),
    }
}

/// Whether `tables` ends with this exit and prints these lines of a stream.
fn is_tabled(alloc: Global, stream: &[u8], exit: u8, lines: &str) -> Result<bool, AllocError> {
    let left = over(alloc, &["tables", "S"], stream, &[], 100, Fault::Nowhere)?;
    Ok(tells(&left, exit, lines))
}

/// Whether a stream is refused with these lines where one byte more is inserted in it.
fn is_longer_told(
    alloc: Global,
    stream: &[u8],
    at: usize,
    byte: u8,
    lines: &str,
) -> Result<bool, AllocError> {
    let mut longer = Vec::from_slice(alloc, stream.get(..at).unwrap_or(stream))?;
    longer.push(byte)?;
    longer.extend_from_slice(stream.get(at..).unwrap_or(&[]))?;
    is_tabled(alloc, &longer, 10, lines)
}

/// Whether the first line alone is printed where the second print fails.
fn is_print_failed(alloc: Global, stream: &[u8]) -> Result<bool, AllocError> {
    let left = over(alloc, &["tables", "S"], stream, &[], 100, Fault::Print(1))?;
    Ok(tells(&left, 5, first_table!()))
}

/// Whether the tables of the sample stream of three packets are printed: of the whole; with a byte more behind it,
/// which is told after all tables, and behind its first packet, which is told after the first; and with a print that
/// fails.
fn are_printed(alloc: Global, whole: &[u8]) -> Result<bool, AllocError> {
    Ok(
        is_tabled(alloc, whole, 0, tables!())?
            && is_longer_told(alloc, whole, 564, 0x47, tables!("stream packet 3: torn\n"))?
            && is_longer_told(
                alloc,
                whole,
                188,
                0xFF,
                first_table!("stream packet 1: no sync\n"),
            )?
            && is_print_failed(alloc, whole)?,
    )
}

#[test]
fn tables_are_printed(rt: HostRuntime) -> Result<(), AllocError> {
    let alloc = rt.alloc();
    assert!(rt; is_tabled(alloc, b"", 0, "")?);
    let whole = sampled(alloc, 0, 3)?;
    assert!(rt; are_printed(alloc, &whole)?);
    Ok(())
}

// Books, the number of the print that fails, and how the text that was printed before it begins.
static FAILED_PRINTS: [(&[u8], u32, &str); 4] = [
    (b"revoke 5\n", 0, ""),
    (b"revoke 5\n", 1, "peri"),
    (b"revoke 5\n", 6, "period 0 revoked 1 sets"),
    (b"revoke 9\n", 1, "word"),
];

/// Whether a print that fails is told, with a text before it that begins so.
fn is_failed_told(
    alloc: Global,
    book: &[u8],
    failing: u32,
    prefix: &str,
) -> Result<bool, AllocError> {
    let left = cover(alloc, SITE, book, 4, Fault::Print(failing))?;
    Ok(left.status.code() == 5 && left.printed.starts_with(prefix.as_bytes()))
}

#[test]
fn a_failed_print_is_told(rt: HostRuntime) -> Result<(), AllocError> {
    for (book, failing, prefix) in &FAILED_PRINTS {
        assert!(rt;
            is_failed_told(rt.alloc(), book, *failing, prefix)?,
            "{prefix}"
        );
    }
    Ok(())
}

/// The card of leaf 5 of this site.
fn card_5(alloc: Global) -> Result<Vec<u8>, AllocError> {
    hex::decode(
        alloc,
        "5344434401030000000512349a9aea255b8e54be50fc2cb5d0b83ebf64120b12e68d82699face4ee860511dc0957476ca37572a1dcc65a3f00d57deed46e69c2e91426478f712417fb92a56bb3b4a9ec141e3e6c5f7f1d34c7932d34ee14f724fd68a98b2f9fdcb508de0f48aa94e29d22fc6666b24e1ad2794a4f1f1519d5126f9de69bdeaf722cfee0075900407c5f5709ab0b475c92082dca33bfd94d089bfb1948a03cae4d5b75ad14e548954a872ea73ecca7c88349a7d5558ea323dfebd65bf59142ace49371da03b064c53490a01b870e7120925ffd7ce8b20d840d83d052c5668db762ab8dbdeede813ac7b7ad90ee38b89d1475ba747af7",
    )
    .or(Err(AllocError))
}

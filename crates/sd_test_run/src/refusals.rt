use crate::files::Files;
use crate::leaving::{Fault, Leaving, left};
use crate::parts::{Part, bytes_of};
use std::alloc::{AllocError, Global};

/// A site with the longest lines.
const LONGEST: Part = Part::Bytes(
    b"height 20
master 000102030405060708090a0b0c0d0e0f101112131415161718191a1b1c1d1e1f
ca 1234
emm 8174
ecm 8175
ecm-every 4096
crypto-ecms 256
period-cryptos 65535
messages 2
first-word 4294967295
last-word 4294967295
first-period 4294967295
book 33554432 000102030405060708090a0b0c0d0e0f101112131415161718191a1b1c1d1e1f
",
);

/// All lines after the eighth up to an empty thirteenth one; with the book of line 13 out of its range; and up to a
/// fourteenth line.
const THIRTEEN: Part = Part::Site(
    9,
    "messages 1\nfirst-word 0\nlast-word 0\nfirst-period 0\n\n",
);

const LARGE_BOOK: Part = Part::Site(
    9,
    "messages 1\nfirst-word 0\nlast-word 0\nfirst-period 0\nbook 33554433 e3b0c44298fc1c149afbf4c8996fb92427ae41e4649b934ca495991b7852b855\n",
);

const FOURTEEN: Part = Part::Site(
    9,
    "messages 1\nfirst-word 0\nlast-word 0\nfirst-period 0\nbook 0 e3b0c44298fc1c149afbf4c8996fb92427ae41e4649b934ca495991b7852b855\n\n",
);

/// The site as it is, and with trees of other heights.
const S: Part = Part::Site(0, "");

const H1: Part = Part::Site(1, "height 1\n");

const H17: Part = Part::Site(1, "height 17\n");

const NONE: &[Part] = &[];

/// Of a tree of height 17, as many leaves as may be revoked, and one more; as many of which no two are siblings.
const HALF: &[Part] = &[Part::Revokes(65_536, 1)];

const OVER_HALF: &[Part] = &[Part::Revokes(65_537, 1)];

const APART: &[Part] = &[Part::Revokes(65_536, 2)];

/// The sample stream of three packets; the same with the second one scrambled.
const SAMPLE: Part = Part::Sample(&[]);

const SCRAMBLED: &[Part] = &[Part::Sample(&[(191, &[0x90])])];

/// The same with a PMT of 178 bytes; with one that has the CA_descriptor that a broadcast would add.
const FULL: &[Part] = &[Part::Sample(&[
    (
        193,
        &[
            0x02, 0xB0, 0xAF, 0x00, 0x01, 0xC1, 0x00, 0x00, 0xE1, 0x00, 0xF0, 0x00, 0x1B, 0xE1,
            0x00, 0xF0, 0x9D, 0x80, 0x9B,
        ],
    ),
    (212, &[0; 155]),
    (367, &[0xA7, 0x6C, 0x3F, 0x2F]),
])];

const FULL_BY_ITS_OWN: &[Part] = &[Part::Sample(&[
    (
        193,
        &[
            0x02, 0xB0, 0xAF, 0x00, 0x01, 0xC1, 0x00, 0x00, 0xE1, 0x00, 0xF0, 0x06, 0x09, 0x04,
            0x12, 0x34, 0xE1, 0xF1, 0x1B, 0xE1, 0x00, 0xF0, 0x97, 0x80, 0x95,
        ],
    ),
    (218, &[0; 149]),
    (367, &[0x82, 0x72, 0x1B, 0x83]),
])];

/// A command over the site S and the files F and G; its exit and its line.
type Refusal = (
    &'static str,
    Part,
    &'static [Part],
    &'static [Part],
    u8,
    &'static str,
);

static REFUSALS: [Refusal; 33] = [
    (
        "cover S F",
        Part::Site(3, "ca 123\n"),
        NONE,
        NONE,
        6,
        "site line 3 is malformed\n",
    ),
    (
        "cover S F",
        Part::Site(5, "ecm 496\n"),
        NONE,
        NONE,
        6,
        "site names one pid twice\n",
    ),
    (
        "cover S F",
        Part::Site(9, "messages 4\n"),
        NONE,
        NONE,
        6,
        "site line 9 is out of range\n",
    ),
    (
        "cover S F",
        THIRTEEN,
        NONE,
        NONE,
        6,
        "site line 13 is malformed\n",
    ),
    (
        "cover S F",
        LARGE_BOOK,
        NONE,
        NONE,
        6,
        "site line 13 is out of range\n",
    ),
    (
        "cover S F",
        FOURTEEN,
        NONE,
        NONE,
        6,
        "site has extra line 14\n",
    ),
    (
        "next S F 0 O",
        S,
        NONE,
        NONE,
        17,
        "word 3 is out of range\n",
    ),
    (
        "next S N 1 O",
        THIRTEEN,
        NONE,
        NONE,
        19,
        "file word 4 does not follow file word 1\n",
    ),
    (
        "twin S 1 O",
        THIRTEEN,
        NONE,
        NONE,
        19,
        "file word 3 does not follow file word 1\n",
    ),
    (
        "accounts S F O",
        S,
        &[Part::Bytes(b"drop bob\n")],
        NONE,
        7,
        "word 2 line 1 is refused\n",
    ),
    (
        "accounts S F O",
        S,
        &[Part::Bytes(b"assign ann 5\nassign ann 6\n")],
        NONE,
        7,
        "word 2 line 2 is refused\n",
    ),
    (
        "accounts S F O",
        S,
        &[Part::Bytes(b"assign ann 5\nassign bob 5\n")],
        NONE,
        7,
        "word 2 line 2 is refused\n",
    ),
    (
        "accounts S F O",
        S,
        &[Part::Bytes(b"assign ann 5\ndrop ann\nassign bob 5\n")],
        NONE,
        7,
        "word 2 line 3 is refused\n",
    ),
    (
        "opens S F G",
        S,
        NONE,
        &[Part::Bytes(b"3\n2\n")],
        7,
        "word 3 line 2 is refused\n",
    ),
    (
        "trial S N G",
        Part::Site(1, "height 6\n"),
        NONE,
        NONE,
        2,
        "missing file word 2\n",
    ),
    (
        "trial S F G",
        S,
        NONE,
        SCRAMBLED,
        9,
        "clear packet 1: already scrambled\n",
    ),
    (
        "trial S F G",
        S,
        NONE,
        &[SAMPLE, Part::Cut(563)],
        9,
        "clear packet 2: torn\n",
    ),
    (
        "trial S F G",
        H1,
        NONE,
        &[Part::Packets(8191, 65_535), Part::Packets(1, 1)],
        9,
        "clear packet 65535: pid 1 is taken\n",
    ),
    (
        "field S F G",
        S,
        &[Part::Bytes(&[0; 188])],
        NONE,
        9,
        "clear packet 0: no sync\n",
    ),
    (
        "field S F G",
        S,
        NONE,
        &[Part::Bytes(b"send 1\nsend 0\n")],
        7,
        "word 3 line 2 is refused\n",
    ),
    (
        "field S F G",
        S,
        NONE,
        &[Part::Bytes(b"send 1\nsend 65537\n")],
        7,
        "word 3 line 2 is refused\n",
    ),
    (
        "field S F G",
        S,
        NONE,
        &[Part::Bytes(b"send 1\noffer 8 1\n")],
        7,
        "word 3 line 2 is refused\n",
    ),
    (
        "field S F G",
        S,
        NONE,
        &[Part::Bytes(b"send 1\nsend 1 1\n")],
        7,
        "word 3 line 2 is refused\n",
    ),
    (
        "field S F G",
        S,
        NONE,
        &[Part::Bytes(b"send 1\nlose 0 01\n")],
        7,
        "word 3 line 2 is refused\n",
    ),
    (
        "field S F G",
        S,
        &[SAMPLE, Part::Packets(1, 1)],
        &[Part::Bytes(b"send 4\n")],
        9,
        "clear packet 3: pid 1 is taken\n",
    ),
    (
        "layered S F 4",
        S,
        NONE,
        NONE,
        17,
        "word 3 is out of range\n",
    ),
    (
        "layered S F 0",
        S,
        NONE,
        NONE,
        17,
        "word 3 is out of range\n",
    ),
    (
        "plan S F 0 257",
        S,
        NONE,
        NONE,
        17,
        "word 3 is out of range\n",
    ),
    (
        "apart S F S F",
        S,
        NONE,
        NONE,
        18,
        "sites share control word 0\n",
    ),
    (
        "lcard S 0 4 O",
        S,
        NONE,
        NONE,
        17,
        "word 3 is out of range\n",
    ),
    (
        "lcard S 0 0 O",
        S,
        NONE,
        NONE,
        17,
        "word 3 is out of range\n",
    ),
    (
        "lcard S 8 4 O",
        S,
        NONE,
        NONE,
        17,
        "word 2 is out of range\n",
    ),
    (
        "receive F G O",
        S,
        &[Part::Times(8192, &[0])],
        NONE,
        8,
        "card: magic\n",
    ),
];

// What is over a limit.
static LIMITS: [Refusal; 11] = [
    (
        "cover S F",
        S,
        &[Part::Times(1024, b"period\n")],
        NONE,
        11,
        "limit: periods\n",
    ),
    (
        "cover S F",
        H17,
        OVER_HALF,
        NONE,
        11,
        "limit: revoked in period 0\n",
    ),
    (
        "accounts S F O",
        H17,
        &[Part::Dropped(65_537)],
        NONE,
        11,
        "limit: revoked in period 0\n",
    ),
    (
        "book S F G O",
        S,
        &[Part::Times(1000, b"period\n")],
        &[Part::Times(24, b"period\n")],
        11,
        "limit: periods\n",
    ),
    (
        "trace S F G",
        H17,
        HALF,
        &[Part::Bytes(b"131071\n")],
        11,
        "limit: traced\n",
    ),
    (
        "trial S N G",
        Part::Site(1, "height 7\n"),
        NONE,
        NONE,
        11,
        "limit: trial height\n",
    ),
    (
        "trial S F G",
        H1,
        NONE,
        &[Part::Packets(8191, 65_536), Part::Bytes(&[0x47])],
        11,
        "limit: trial packets\n",
    ),
    (
        "field S F G",
        Part::Site(1, "height 7\n"),
        NONE,
        NONE,
        11,
        "limit: field height\n",
    ),
    (
        "field S F G",
        S,
        &[Part::Times(16_384, &[0; 188]), Part::Bytes(&[0])],
        NONE,
        11,
        "limit: field packets\n",
    ),
    (
        "field S F G",
        S,
        NONE,
        &[Part::Times(8, b"offer 0 65536\n"), Part::Bytes(b"off 0\n")],
        11,
        "limit: field events\n",
    ),
    (
        "receive F G O",
        S,
        &[Part::Times(8193, &[0])],
        NONE,
        11,
        "limit: card bytes\n",
    ),
];

// Commands at a limit; how what they print begins, and how many lines it has.
static LISTED: [(&str, Part, &[Part], &[Part], &str, usize); 6] = [
    (
        "cover S F",
        LONGEST,
        NONE,
        NONE,
        "period 0 revoked 0 sets 1\nall\n",
        2,
    ),
    (
        "cover S F",
        S,
        &[Part::Times(1023, b"period\n")],
        NONE,
        "period 0 revoked 0 sets 1\nall\n",
        2048,
    ),
    (
        "cover S F",
        H17,
        HALF,
        NONE,
        "period 0 revoked 65536 sets 1\n1 2\n",
        2,
    ),
    (
        "cover S F",
        H17,
        APART,
        NONE,
        "period 0 revoked 65536 sets 65536\n",
        65_537,
    ),
    (
        "trace S F G",
        H17,
        HALF,
        &[Part::Bytes(b"5\n")],
        "silent trials 1\n",
        1,
    ),
    (
        "layered S F 3",
        S,
        NONE,
        NONE,
        "period 0 revoked 0 sets 1\nall\n",
        2,
    ),
];

// Clear streams that `head` refuses, its line, and how many bytes OUT has.
static UNFIT: [(&[Part], &str, usize); 11] = [
    (SCRAMBLED, "clear packet 1: already scrambled\n", 752),
    (
        &[Part::Packets(1, 1), SAMPLE],
        "clear packet 0: pid 1 is taken\n",
        0,
    ),
    (
        &[SAMPLE, Part::Packets(496, 1)],
        "clear packet 3: pid 496 is taken\n",
        1128,
    ),
    (
        &[SAMPLE, Part::Packets(497, 1)],
        "clear packet 3: pid 497 is taken\n",
        1128,
    ),
    (
        &[Part::Sample(&[(4, &[1])])],
        "clear packet 0: pat pointer\n",
        0,
    ),
    (
        &[Part::Sample(&[(5, &[2])])],
        "clear packet 0: pat table\n",
        0,
    ),
    (
        &[Part::Sample(&[(6, &[0xB0, 0])])],
        "clear packet 0: pat length\n",
        0,
    ),
    (
        &[Part::Sample(&[(8, &[0xFF])])],
        "clear packet 0: pat crc 2ab104b2 f881f620\n",
        0,
    ),
    (
        &[Part::Sample(&[(187, &[0])])],
        "clear packet 0: pat trailing\n",
        0,
    ),
    (FULL_BY_ITS_OWN, "clear packet 1: pmt no room\n", 752),
    (
        &[Part::Pids(512, 768)],
        "clear packet 256: too many pids\n",
        51_700,
    ),
];

// Books and clear streams that `head` takes, and how many bytes OUT has.
static FIT: [(Part, &[Part], &[Part], usize); 3] = [
    (S, NONE, FULL, 1316),
    (S, NONE, &[Part::Pids(512, 767)], 55_460),
    (H17, APART, NONE, 4_107_424),
];

/// As many bytes as OUT has room for, and as many as go through a call of a port.
const ROOM: usize = 4_200_000;

const PIECE: usize = 65_536;

/// What the words leave over the site S and the files F and G, if no call fails.
fn after(
    alloc: Global,
    words: &str,
    site: Part,
    f: &[Part],
    g: &[Part],
) -> Result<Leaving, AllocError> {
    after_fault(alloc, words, site, f, g, Fault::Nowhere)
}

/// What the words leave if this call fails.
fn after_fault(
    alloc: Global,
    words: &str,
    site: Part,
    f: &[Part],
    g: &[Part],
    fault: Fault<'_>,
) -> Result<Leaving, AllocError> {
    let mut files = Files::with(alloc, "S", &bytes_of(alloc, &[site])?)?;
    files.add(alloc, "F", &bytes_of(alloc, f)?)?;
    files.add(alloc, "G", &bytes_of(alloc, g)?)?;
    files.room = ROOM;
    let words: Vec<&str> = words.split(' ').collect(alloc)?;
    left(alloc, &files, &words, PIECE, fault)
}

/// How many bytes OUT has, if it was made.
fn length(left: &Leaving) -> Option<usize> {
    left.out.as_ref().map(|out| out.len())
}

/// Whether a command ended with this exit, and printed this line.
fn is_ended(left: &Leaving, exit: u8, line: &str) -> bool {
    left.status.code() == exit && left.printed.as_slice() == line.as_bytes()
}

/// Whether a command is done, and prints so many lines that begin so.
fn is_listed(left: &Leaving, start: &str, lines: usize) -> bool {
    left.status.code() == 0
        && left.printed.starts_with(start.as_bytes())
        && left.printed.iter().filter(|byte| **byte == b'\n').count() == lines
}

/// Whether a command is refused with the row's exit and line, and makes nothing.
fn is_refused(alloc: Global, refusal: &Refusal) -> Result<bool, AllocError> {
    let (words, site, f, g, exit, line) = refusal;
    let left = after(alloc, words, *site, f, g)?;
    Ok(is_ended(&left, *exit, line) && left.out.is_none())
}

#[test]
fn refusals_are_by_name(rt: HostRuntime) -> Result<(), AllocError> {
    for (place, refusal) in REFUSALS.iter().enumerate() {
        assert!(rt; is_refused(rt.alloc(), refusal)?, "row {place}");
    }
    Ok(())
}

#[test]
fn what_is_over_a_limit_is_refused(rt: HostRuntime) -> Result<(), AllocError> {
    for (place, limit) in LIMITS.iter().enumerate() {
        assert!(rt; is_refused(rt.alloc(), limit)?, "row {place}");
    }
    Ok(())
}

#[test]
fn lists_at_a_limit_are_printed(rt: HostRuntime) -> Result<(), AllocError> {
    for (words, site, f, g, start, lines) in &LISTED {
        let left = after(rt.alloc(), words, *site, f, g)?;
        assert!(rt; is_listed(&left, start, *lines), "{words} {start}");
    }
    Ok(())
}

#[test]
fn unfit_streams_are_refused_by_name(rt: HostRuntime) -> Result<(), AllocError> {
    for (clear, line, out) in &UNFIT {
        let left = after(rt.alloc(), "head S F G O", S, NONE, clear)?;
        assert!(rt;
            is_ended(&left, 9, line) && length(&left) == Some(*out),
            "{line}"
        );
    }
    Ok(())
}

/// A refusal that is known is answered though OUT fails to close after it. The calls that may fail are three that open,
/// one that makes OUT and one that closes it.
#[test]
fn a_refusal_is_answered_if_out_fails_to_close(rt: HostRuntime) -> Result<(), AllocError> {
    let left = after_fault(
        rt.alloc(),
        "head S F G O",
        S,
        NONE,
        SCRAMBLED,
        Fault::Call(4),
    )?;
    assert!(rt; left.failed && is_ended(&left, 9, "clear packet 1: already scrambled\n"));
    Ok(())
}

#[test]
fn streams_at_a_limit_are_broadcast(rt: HostRuntime) -> Result<(), AllocError> {
    for (site, book, clear, out) in &FIT {
        let left = after(rt.alloc(), "head S F G O", *site, book, clear)?;
        assert!(rt;
            is_ended(&left, 0, "") && length(&left) == Some(*out),
            "{out}"
        );
    }
    Ok(())
}

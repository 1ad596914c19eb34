ghost use Rattle.std.specs.Prelude.{◌≤◌};

use crate::files::Files;
use crate::leaving::{Fault, Leaving, left};
use sd_test_texts::site;
use std::alloc::{AllocError, Global};

/// The page of `tables`.
const PAGE: &str = "sdca tables STREAM
prints the tables of a stream, one line of JSON each

arguments
  STREAM    a transport stream; /dev/stdin for a pipe

exits
   0  the work is done
   1  usage: unknown command, wrong number of arguments, or text not in UTF-8
   2  the file that argument N names does not exist
   4  an I/O error at a file
   5  an I/O error while printing
  10  a packet of the stream is refused
  12  out of memory

example
  sdca tables broadcast.ts
";

/// The sites of examples/site-1.txt and examples/site-2.txt.
const FIRST_SITE: &str = site!("messages 3\nfirst-word 0\nlast-word 999\n");

const SECOND_SITE: &str = site!("messages 3\nfirst-word 1000\nlast-word 1999\n");

/// What `version` prints.
const VERSION: &str = "sdca 1.0.0
proved in logic dac8208d650f15bf (rattle-kit-13f)
";

/// The lines of `help` that stand at its ends and beside the longest words.
const LISTED: [(usize, &str); 8] = [
    (
        0,
        "sdca: conditional access for transport streams, by Subset Difference",
    ),
    (
        2,
        "  accounts SITE ACCOUNTS OUT   makes the book from the accounts of named subscribers, and reports them",
    ),
    (
        3,
        "  air SITE BOOK CLEAR OUT      makes OUT, the broadcast of a live clear stream, with a new site",
    ),
    (
        5,
        "  book SITE BOOK COMMANDS OUT  makes a longer book: its commands, then those of COMMANDS",
    ),
    (
        13,
        "  next SITE BOOK WORDS OUT     makes the site of the next broadcast: new control words, a new period",
    ),
    (
        19,
        "  status SITE BOOK LEAF        prints whether a receiver is entitled, and when that changes",
    ),
    (
        23,
        "  twin SITE WORDS OUT          makes the site of a broadcast at the same time: new control words, the same periods",
    ),
    (
        24,
        "  watch CARD STREAM OUT        makes OUT, what the card opens of a stream that may be damaged",
    ),
];

// The words of `help`, and lines of what it prints: of the list; and of exits 1 and 2 in the page of a command, with
// inputs and OUT, and with OUT alone. They are lines 10 and 11 of the page of a command with three arguments. Exits 19
// and 21 are the last ones of `next`, and exits 20, 21 and 22 those of `air`.
static PAGES: [(&[&str], &[(usize, &str)]); 5] = [
    (&["help"], &LISTED),
    (
        &["help", "air"],
        &[
            (19, "  20  a run of air used the site"),
            (
                21,
                "  22  no number or control word is left for packet K of CLEAR",
            ),
            (
                24,
                "  sdca air site-1.txt examples/book.txt clear.ts on-air.ts",
            ),
        ],
    ),
    (
        &["help", "receive"],
        &[
            (
                10,
                "   1  usage: unknown command, wrong number of arguments, text not in UTF-8, or OUT is an input",
            ),
            (
                11,
                "   2  the file that argument N names does not exist; for OUT, its folder does not exist",
            ),
        ],
    ),
    (
        &["help", "sample"],
        &[
            (
                10,
                "   1  usage: unknown command, wrong number of arguments, or text not in UTF-8",
            ),
            (11, "   2  the folder of OUT does not exist"),
        ],
    ),
    (
        &["help", "next"],
        &[
            (
                20,
                "  19  OUT is there already, or its name does not follow that of SITE",
            ),
            (
                21,
                "  21  BOOK is not the book of the site's line 13; for next, it does not begin with that book",
            ),
            (
                24,
                "  sdca next site-0.txt examples/book.txt 1000 site-1.txt",
            ),
        ],
    ),
];

/// A book that revokes the leaves 0 and 2.
const REVOKED: &[u8] = b"revoke 0\nrevoke 2\n";

/// A file by its name.
type File<'a> = (&'a str, &'a [u8]);

/// What the words leave where the site is the file S and these stand beside it.
fn after(
    alloc: Global,
    words: &[&str],
    files: &[File<'_>],
    most: usize,
) -> Result<Leaving, AllocError>
    requires { 1 ≤ most }
{
    let mut all = Files::new(alloc)?;
    for (name, bytes) in files {
        all.add(alloc, name, bytes)?;
    }
    left(alloc, &all, words, most, Fault::Nowhere)
}

/// What a run leaves: its exit, what it prints, and OUT.
#[derive(Clone, Copy)]
struct Due<'a> {
    exit: u8,
    printed: &'a str,
    out: Option<&'a [u8]>,
}

impl<'a> Due<'a> {
    /// A run that makes no OUT.
    fn told(exit: u8, printed: &'a str) -> Due<'a> {
        Due {
            exit,
            printed,
            out: None,
        }
    }

    /// A run that makes this OUT.
    fn made(exit: u8, printed: &'a str, out: &'a [u8]) -> Due<'a> {
        Due {
            exit,
            printed,
            out: Some(out),
        }
    }

    /// Whether it is what was left.
    fn is_left(&self, left: &Leaving) -> bool {
        let is_out = match &left.out {
            Some(bytes) => self.out == Some(bytes.as_slice()),
            None => self.out.is_none(),
        };
        left.status.code() == self.exit
            && left.printed.as_slice() == self.printed.as_bytes()
            && is_out
            && left.stayed
    }
}

/// Whether the words leave what is due where the site is the file S and these stand beside it.
fn is_done(
    alloc: Global,
    words: &[&str],
    files: &[File<'_>],
    most: usize,
    due: Due<'_>,
) -> Result<bool, AllocError>
    requires { 1 ≤ most }
{
    let left = after(alloc, words, files, most)?;
    Ok(due.is_left(&left))
}

#[test]
fn accounts_are_refused_by_their_line(rt: HostRuntime) -> Result<(), AllocError> {
    let words = ["accounts", "S", "A", "O"];
    let lines = b"assign ann 5\ndrop bob\ndrop ann\n";
    let due = Due::told(7, "word 2 line 2 is refused\n");
    assert!(rt; is_done(rt.alloc(), &words, &[("A", lines)], 10, due)?);
    Ok(())
}

static HEAD: [&str; 5] = ["head", "S", "B", "C", "O"];

/// Whether `head` makes a broadcast of no packet.
fn is_broadcast(alloc: Global, most: usize) -> Result<bool, AllocError>
    requires { 1 ≤ most }
{
    let left = after(alloc, &HEAD, &[("B", b""), ("C", b"")], most)?;
    let start = [0x47, 0x40, 0x01, 0x10, 0x00];
    let is_whole = match &left.out {
        Some(out) => out.len() == 564 && out.starts_with(&start),
        None => false,
    };
    Ok(left.status.code() == 0 && is_whole)
}

/// Whether `head` refuses a torn packet.
fn is_torn(alloc: Global, most: usize) -> Result<bool, AllocError>
    requires { 1 ≤ most }
{
    let due = Due::made(9, "clear packet 0: torn\n", b"");
    is_done(alloc, &HEAD, &[("B", b""), ("C", b"period\n")], most, due)
}

/// Whether a device's fault is told where there is room for a part of a broadcast alone.
fn is_cut(alloc: Global) -> Result<bool, AllocError> {
    let mut files = Files::new(alloc)?;
    files.add(alloc, "B", b"")?;
    files.add(alloc, "C", b"")?;
    files.room = 200;
    let cut = left(alloc, &files, &HEAD, 100, Fault::Nowhere)?;
    let is_short = match &cut.out {
        Some(out) => out.len() < 564,
        None => false,
    };
    Ok(cut.status.code() == 4 && is_short)
}

#[test]
fn broadcasts_are_made(rt: HostRuntime) -> Result<(), AllocError> {
    let alloc = rt.alloc();
    assert!(rt; is_broadcast(alloc, 1)? && is_torn(alloc, 1)?);
    assert!(rt; is_broadcast(alloc, 1000)? && is_torn(alloc, 1000)?);
    assert!(rt; is_cut(alloc)?);
    Ok(())
}

/// The packets of a broadcast up to their bytes 0xFF: a CAT, the entitlements of all leaves, the first control message,
/// a PAT and a PMT.
const CAT: &str = "474001100001b011ffffc1000009061234e1f0e1f192f94eeb";

const EMM: &str =
    "4741f0100082b04c0000c10000000000000000000100018e7c98755d4f1259303e2c26f84665c7010000000000000000a96fc38d45af14016d8f9f0d1688616d0d70f5ba661218fb326af486ddaa0354cdb2897d";

const ECM: &str =
    "4741f1100080b04b0000c1000000000000000000000000000000000000008229606edb4eb380c6745a1a0ef112fb4f37fd1a5ac322f2eb828187831d8c4016f21bec8b49a29a6bf944da8fbb98bb002a26ffa7";

const PAT: &str = "474000100000b00d0001c100000001f0002ab104b2";

const PMT: &str = "475000100002b0170001c10000e100f0001ce100f0000fe101f0002f44b99b";

// Packets, and the lines that `messages` prints of them.
static MESSAGES: [(&[&str], &str); 4] = [
    (
        &[CAT, EMM, ECM],
        "{\"check\":\"8e7c98755d4f1259303e2c26f84665c7\",\"index\":0,\"names\":[\"all\"],\"packet\":1,\"period\":0,\"pid\":496,\"sections\":1,\"sets\":1,\"table\":\"emm\"}
{\"check\":\"16f21bec8b49a29a6bf944da8fbb98bb\",\"clear\":0,\"closing\":false,\"last\":0,\"number\":0,\"packet\":2,\"part\":0,\"period\":0,\"pid\":497,\"positions\":[],\"since\":0,\"table\":\"ecm\",\"version\":1,\"word\":0}
",
    ),
    (
        &[
            "4741f0100082b04c0000c10000000000000000000100028e7c98755d4f1259303e2c26f84665c7010000000000000000a96fc38d45af14016d8f9f0d1688616d0d70f5ba661218fb326af486ddaa03541809772d",
        ],
        "{\"fault\":\"count\",\"packet\":0,\"pid\":496,\"table\":\"emm\"}\n",
    ),
    (
        &[
            "4741f0100082b04c0000c10000000000000000000100018e7c98755d4f1259303e2c26f84665c7010000000000000001a96fc38d45af14016d8f9f0d1688616d0d70f5ba661218fb326af486ddaa035466f23e63",
        ],
        "{\"fault\":\"node\",\"packet\":0,\"pid\":496,\"table\":\"emm\"}\n",
    ),
    (
        &[
            "4741f1110080b0530000c1000000000001000000000000000000000003018229606edb4eb380c6745a1a0ef112fb4f37fd1a5ac322f2eb828187831d8c4016f21bec8b49a29a6bf944da8fbb98bb01001f000000000010927c7887",
        ],
        "{\"fault\":\"pid\",\"packet\":0,\"pid\":497,\"table\":\"ecm\"}\n",
    ),
];

/// Whether `messages` prints these lines of these packets.
fn are_listed(alloc: Global, packets: &[&str], lines: &str) -> Result<bool, AllocError> {
    let stream = stream_of(alloc, packets)?;
    let words = ["messages", "S", "X"];
    is_done(alloc, &words, &[("X", &stream)], 100, Due::told(0, lines))
}

#[test]
fn messages_are_printed(rt: HostRuntime) -> Result<(), AllocError> {
    for (packets, lines) in &MESSAGES {
        assert!(rt; are_listed(rt.alloc(), packets, lines)?, "{lines}");
    }
    Ok(())
}

/// What `show` prints of a card.
const SHOWN: &str =
    "{\"card\":\"plain\",\"check\":\"058ed3587196e436f13871ca96cfc690\",\"height\":1,\"labels\":1,\"leaf\":0,\"master\":\"a6c3b68cad52c81fce161d9b179c30d4\",\"system\":38646}\n";

/// The card.
fn shown_card(alloc: Global) -> Result<Vec<u8>, AllocError> {
    hex::decode(
        alloc,
        "5344434401010000000096f685e5892971494fcc50e75b868272f7e50f7f27effca8c87c30598ab380d78ee67ab9bfe7bcc2714019729b03ccf923995ff581dd4f2a0798390b367dfa2294ff058ed3587196e436f13871ca96cfc690",
    )
    .or(Err(AllocError))
}

/// Whether `show` has this exit for a card, prints this line and makes nothing.
fn is_shown(alloc: Global, card: &[u8], exit: u8, line: &str) -> Result<bool, AllocError> {
    is_done(
        alloc,
        &["show", "K"],
        &[("K", card)],
        100,
        Due::told(exit, line),
    )
}

/// Whether this card is shown, and refused without its last byte.
fn is_shown_whole(alloc: Global, card: &[u8]) -> Result<bool, AllocError> {
    let cut = card.get(..91).unwrap_or(&[]);
    Ok(is_shown(alloc, card, 0, SHOWN)? && is_shown(alloc, cut, 8, "card: length\n")?)
}

#[test]
fn cards_are_shown(rt: HostRuntime) -> Result<(), AllocError> {
    let card = shown_card(rt.alloc())?;
    assert!(rt; is_shown_whole(rt.alloc(), &card)?);
    Ok(())
}

// The arguments, the exit, and what is printed.
static HELPS: [(&[&str], u8, &str); 3] = [
    (&["help", "tables"], 0, PAGE),
    (&["version"], 0, VERSION),
    (&["help", "Tables"], 1, "usage\n"),
];

/// Whether `help` with these words prints these lines at their places.
fn are_on_page(alloc: Global, words: &[&str], lines: &[(usize, &str)]) -> Result<bool, AllocError> {
    let page = after(alloc, words, &[], 4096)?;
    Ok(have_lines(&page.printed, lines))
}

/// Whether these lines stand at their places.
fn have_lines(page: &[u8], lines: &[(usize, &str)]) -> bool {
    let Ok(text) = str::from_utf8(page) else {
        return false;
    };
    for (place, line) in lines {
        if text.split('\n').nth(*place) != Some(*line) {
            return false;
        }
    }
    true
}

#[test]
fn help_and_version_are_printed(rt: HostRuntime) -> Result<(), AllocError> {
    for (words, exit, text) in &HELPS {
        let due = Due::told(*exit, text);
        assert!(rt; is_done(rt.alloc(), words, &[], 4096, due)?, "{text}");
    }
    for (place, (words, lines)) in PAGES.iter().enumerate() {
        assert!(rt; are_on_page(rt.alloc(), words, lines)?, "page {place}");
    }
    Ok(())
}

#[test]
fn the_example_of_apart_is_done(rt: HostRuntime) -> Result<(), AllocError> {
    let words = ["apart", "1", "B", "2", "B"];
    let files: [File<'static>; 3] = [
        ("1", FIRST_SITE.as_bytes()),
        ("2", SECOND_SITE.as_bytes()),
        ("B", b"revoke 5\nrevoke 2\nsubscribe 2\n"),
    ];
    let lines = "site 1 words 0 to 999 periods 0 to 0\nsite 2 words 1000 to 1999 periods 0 to 0\n";
    assert!(rt; is_done(rt.alloc(), &words, &files, 100, Due::told(0, lines))?);
    Ok(())
}

/// A book, leaves, the exit of a command over them, and what it prints.
type Row = (&'static [u8], &'static [u8], u8, &'static str);

/// Whether the command has the exit of the row and prints its text.
fn is_answered(alloc: Global, command: &str, row: Row) -> Result<bool, AllocError> {
    let (book, leaves, exit, printed) = row;
    let words = [command, "S", "B", "L"];
    is_done(
        alloc,
        &words,
        &[("B", book), ("L", leaves)],
        64,
        Due::told(exit, printed),
    )
}

static OPENED: [Row; 7] = [
    (
        REVOKED,
        b"0\n1\n",
        0,
        "period 0 revoked 2 sets 3\n1 2 shut\n4 8 open\n5 10 shut\n",
    ),
    (
        REVOKED,
        b"0\n2\n",
        0,
        "period 0 revoked 2 sets 3\n1 2 shut\n4 8 shut\n5 10 shut\n",
    ),
    (
        b"period\nrevoke 5\n",
        b"5\n",
        0,
        "period 0 revoked 0 sets 1\nall open\nperiod 1 revoked 1 sets 1\n1 13 shut\n",
    ),
    (b"", b"", 0, "period 0 revoked 0 sets 1\nall shut\n"),
    (b"", b"1\n0\n", 7, "word 3 line 2 is refused\n"),
    (b"", b"8\n", 7, "word 3 line 1 is refused\n"),
    (b"revoke 8\n", b"8\n", 7, "word 2 line 1 is refused\n"),
];

#[test]
fn sets_are_open_or_shut(rt: HostRuntime) -> Result<(), AllocError> {
    for (place, row) in OPENED.iter().enumerate() {
        assert!(rt; is_answered(rt.alloc(), "opens", *row)?, "row {place}");
    }
    Ok(())
}

static TRACED: [Row; 5] = [
    (
        REVOKED,
        b"1\n6\n",
        0,
        "leaf 1 trials 3 splits 0\nleaf 6 trials 4 splits 2\nsilent trials 1\n",
    ),
    (
        b"",
        b"6\n",
        0,
        "leaf 6 trials 4 splits 3\nsilent trials 1\n",
    ),
    (REVOKED, b"0\n", 0, "silent trials 1\n"),
    (b"period\nrevoke 6\n", b"6\n", 0, "silent trials 1\n"),
    (b"", b"6\n6\n", 7, "word 3 line 2 is refused\n"),
];

#[test]
fn coalitions_are_traced(rt: HostRuntime) -> Result<(), AllocError> {
    for (place, row) in TRACED.iter().enumerate() {
        assert!(rt; is_answered(rt.alloc(), "trace", *row)?, "row {place}");
    }
    Ok(())
}

/// The card of leaf 0 of this site.
fn card_0(alloc: Global) -> Result<Vec<u8>, AllocError> {
    hex::decode(
        alloc,
        "5344434401030000000012349a9aea255b8e54be50fc2cb5d0b83ebf64120b12e68d82699face4ee860511dc0938f5db1e2e38332732e7da82f1ad3e4ce6cfe09cd3dfda4ac268d6eabfa59ab342ded9ec0c6429af0728e4d7cc230aa9b240bd7b6685508645c9c756f37c6f0135799ab8c694ef3440af71e7b6efda56a9b412a3317dbcf9a6176da916bf13294ece16c2e41604c23e8fe92448dbb6167694cc2436ee322f6615c94c8e9028fb6a8a9230ac0c7e65288d89f5c32b2bab5fbaf35e3602c60446efa84f2b9563f16ef9480a25e9576d5fc3023e24ba9f562a4a309d483a4724be88217fed2d1c81ab7160c1c8841c3e07b388132bd63b",
    )
    .or(Err(AllocError))
}

/// Adds a packet, with bytes 0xFF up to its end.
fn add_packet(alloc: Global, bytes: &mut Vec<u8>, packet: &str) -> Result<(), AllocError> {
    let head = hex::decode(alloc, packet).or(Err(AllocError))?;
    let end = [0xFF; 188];
    bytes.extend_from_slice(&head)?;
    bytes.extend_from_slice(end.get(head.len()..).unwrap_or(&[]))
}

/// These packets, with bytes 0xFF up to their ends.
fn stream_of(alloc: Global, packets: &[&str]) -> Result<Vec<u8>, AllocError> {
    let mut bytes = Vec::new(alloc);
    for packet in packets {
        add_packet(alloc, &mut bytes, packet)?;
    }
    Ok(bytes)
}

/// A broadcast of a PAT and a PMT to all leaves.
const BROADCAST: &[&str] = &[
    CAT,
    EMM,
    ECM,
    PAT,
    PMT,
    "4741f1110080b0530000c1000000000001000000000000000000000002018229606edb4eb380c6745a1a0ef112fb4f37fd1a5ac322f2eb828187831d8c4016f21bec8b49a29a6bf944da8fbb98bb011000000000000010d5aa8db5",
];

/// One of three packets, of which the first control message has another last byte and is dropped.
const MISSING: &[&str] = &[
    CAT,
    EMM,
    "4741f1100080b04b0000c1000000000000000000000000000000000000008229606edb4eb380c6745a1a0ef112fb4f37fd1a5ac322f2eb828187831d8c4016f21bec8b49a29a6bf944da8fbb98bb002a26ffa6",
    PAT,
    "475000100002b01d0001c10000e100f00609041234e1f11be100f0000fe101f000b06cc7bd",
    "471fff10",
    "4741f1110080b0530000c1000000000001000000000000000000000003018229606edb4eb380c6745a1a0ef112fb4f37fd1a5ac322f2eb828187831d8c4016f21bec8b49a29a6bf944da8fbb98bb011000000000000010428a56a6",
];

/// The packets of a stream, how many bytes of it are left, the exit of `receive` or `watch`, what it prints, and the
/// packets that it writes.
type Reception = (
    &'static [&'static str],
    usize,
    u8,
    &'static str,
    &'static [&'static str],
);

static RECEIVED: [Reception; 5] = [
    (BROADCAST, 1128, 0, "", &[PAT, PMT]),
    (BROADCAST, 940, 14, "stream ends before message 1\n", &[]),
    (MISSING, 1316, 15, "3 clear packets are missing\n", &[]),
    (&[], 0, 16, "no CAT for this card\n", &[]),
    (BROADCAST, 200, 10, "stream packet 1: torn\n", &[]),
];

static WATCHED: [Reception; 3] = [
    (
        BROADCAST,
        1128,
        0,
        "{\"doubled\":0,\"marked\":0,\"odd\":0,\"packets\":6,\"refused\":0,\"skipped\":0,\"written\":2}
",
        &[PAT, PMT],
    ),
    (
        BROADCAST,
        200,
        14,
        "{\"doubled\":0,\"ending\":\"stream ends before message 0\",\"marked\":0,\"odd\":0,\"packets\":1,\"refused\":0,\"skipped\":12,\"written\":0}
stream ends before message 0
",
        &[],
    ),
    (
        &[],
        0,
        16,
        "{\"doubled\":0,\"ending\":\"no CAT for this card\",\"marked\":0,\"odd\":0,\"packets\":0,\"refused\":0,\"skipped\":0,\"written\":0}
no CAT for this card
",
        &[],
    ),
];

/// Whether a command takes a stream so, if a byte, a packet or more is read and written at a time.
fn is_opened<'a>(
    alloc: Global,
    command: &str,
    card: &'a [u8],
    stream: &'a [u8],
    due: Due<'_>,
) -> Result<bool, AllocError> {
    for most in [1, 188, 1000] {
        let files: [File<'a>; 2] = [("K", card), ("X", stream)];
        if !is_done(alloc, &[command, "K", "X", "O"], &files, most, due)? {
            return Ok(false);
        }
    }
    Ok(true)
}

/// Whether a command takes a stream as the row says.
fn is_received(
    alloc: Global,
    command: &str,
    card: &[u8],
    row: &Reception,
) -> Result<bool, AllocError> {
    let (packets, length, exit, line, clear) = *row;
    let mut stream = stream_of(alloc, packets)?;
    stream.truncate(length);
    let clear = stream_of(alloc, clear)?;
    is_opened(alloc, command, card, &stream, Due::made(exit, line, &clear))
}

/// The first row of which a command takes the stream otherwise for a card, by what is printed.
fn wrong_line(
    alloc: Global,
    command: &str,
    card: &[u8],
    rows: &[Reception],
) -> Result<Option<&'static str>, AllocError> {
    for row in rows {
        if !is_received(alloc, command, card, row)? {
            return Ok(Some(row.3));
        }
    }
    Ok(None)
}

#[test]
fn broadcasts_are_received(rt: HostRuntime) -> Result<(), AllocError> {
    let card = card_0(rt.alloc())?;
    let wrong = wrong_line(rt.alloc(), "receive", &card, &RECEIVED)?;
    assert!(rt; wrong.is_none(), "{wrong:?}");
    Ok(())
}

#[test]
fn damaged_streams_are_watched(rt: HostRuntime) -> Result<(), AllocError> {
    let card = card_0(rt.alloc())?;
    let wrong = wrong_line(rt.alloc(), "watch", &card, &WATCHED)?;
    assert!(rt; wrong.is_none(), "{wrong:?}");
    Ok(())
}

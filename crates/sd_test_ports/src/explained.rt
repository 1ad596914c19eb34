use sd_book::BookLimit;
use sd_command_base::{
    Clash, LimitKind, LineCause, OutCause, Status, StreamRefusal, Trouble, malformed, refused_line,
    site_fault,
};
use sd_command_line::{CommandLine, explanation};
use sd_engine::{BreakCause, StreamBreak};
use sd_message::{ClearFault, EcmFault, EmmFault, StreamFault};
use sd_psi::FormFault;
use sd_site_cards::{CardFault, SiteFault};
use std::alloc::{AllocError, Global};

// The arguments, the status, and what a user is told.
static EXPLAINED: [(&str, Status, &str); 52] = [
    (
        "cover S B",
        Status::Missing(2),
        "sdca: BOOK B: no such file\n",
    ),
    (
        "card S 5 K",
        Status::Missing(3),
        "sdca: OUT K: no such folder\n",
    ),
    (
        "receive K X O",
        Status::Revoked { leaf: 5, period: 2 },
        "sdca: CARD K: receiver 5 is revoked in period 2; OUT has what it was entitled to; a later subscribe entitles it again\n",
    ),
    (
        "receive K X O",
        Status::BadCard {
            word: 1,
            fault: CardFault::Magic,
        },
        "sdca: CARD K: it is no card of the command card; a card of lcard (a layer card) can't receive\n",
    ),
    (
        "show K",
        Status::BadCard {
            word: 1,
            fault: CardFault::Check {
                found: [1; 16],
                due: [2; 16],
            },
        },
        "sdca: CARD K: its bytes were changed; make it again (sdca card)\n",
    ),
    (
        "head S B C O",
        Status::BadClear(StreamRefusal::Packet(ClearFault::PidTaken(7, 1))),
        "sdca: CLEAR C: packet 7: its PID is one of the broadcast; it is of one already, or the encoder makes a CAT; air leaves it out\n",
    ),
    (
        "field S C P",
        Status::BadClear(StreamRefusal::Packet(ClearFault::TooLong(1000))),
        "sdca: CLEAR C: packet 1000: no control word of the site is left; make the next site (sdca next)\n",
    ),
    (
        "head S B C O",
        Status::BadClear(StreamRefusal::Packet(ClearFault::TooLong(4_294_967_295))),
        "sdca: CLEAR C: packet 4294967295: a broadcast has at most 4294967295 packets\n",
    ),
    (
        "trial S B C",
        Status::BadClear(StreamRefusal::Packet(ClearFault::PatForm(4, FormFault::Pointer))),
        "sdca: CLEAR C: packet 4: it is no PAT by itself; the PAT is in several packets, or damaged\n",
    ),
    (
        "head S B C O",
        Status::BadClear(StreamRefusal::Broken(StreamBreak {
            packet: 0,
            cause: BreakCause::NoSync,
        })),
        "sdca: CLEAR C: packet 0: there is no whole packet of 188 bytes; packets of 192 or 204 bytes must be cut to 188 first\n",
    ),
    (
        "receive K X O",
        Status::BadStream(StreamRefusal::Packet(StreamFault::WrongKey {
            packet: 3,
            period: 0,
            found: [1; 16],
            due: [2; 16],
        })),
        "sdca: STREAM X: packet 3: card and broadcast are of two masters (see sdca show and sdca status), or the message was changed\n",
    ),
    (
        "receive K X O",
        Status::BadStream(StreamRefusal::Packet(StreamFault::BadEmm(3, EmmFault::Order))),
        "sdca: STREAM X: packet 3: the EMM is damaged, out of order or of another sender; watch reads streams with damage\n",
    ),
    (
        "messages S X",
        Status::BadStream(StreamRefusal::Packet(StreamFault::BadEcm(3, EcmFault::Count))),
        "sdca: STREAM X: packet 3: the ECM is damaged, out of order or of another sender; watch reads streams with damage\n",
    ),
    (
        "receive K X O",
        Status::BadStream(StreamRefusal::Packet(StreamFault::Parity(9))),
        "sdca: STREAM X: packet 9: it is not of this broadcast; watch reads streams with damage\n",
    ),
    (
        "tables X",
        Status::BadStream(StreamRefusal::Broken(StreamBreak {
            packet: 2,
            cause: BreakCause::Torn,
        })),
        "sdca: STREAM X: packet 2: there is no whole packet of 188 bytes; watch reads streams with damage\n",
    ),
    (
        "tables X",
        Status::BadStream(StreamRefusal::TooLong),
        "sdca: STREAM X: packet 281474976710656: a stream has at most 281474976710656 packets\n",
    ),
    (
        "cover S B",
        Status::Limit(LimitKind::SiteBytes),
        "sdca: a site has at most 4096 bytes; is it the right file?\n",
    ),
    (
        "cover S B",
        Status::Limit(LimitKind::Book(BookLimit::Periods)),
        "sdca: a book has at most 1023 lines period\n",
    ),
    (
        "receive K X O",
        Status::Limit(LimitKind::CardBytes),
        "sdca: a card has at most 8192 bytes; is it the right file?\n",
    ),
    (
        "receive K X O",
        Status::Unheard { leaf: 5, period: 2 },
        "sdca: STREAM X: no set of period 2 with receiver 5 arrived; packets were lost, or the stream begins late\n",
    ),
    (
        "watch K X O",
        Status::Unclosed(6),
        "sdca: STREAM X: it broke off before its closing message, or its end was lost\n",
    ),
    (
        "watch K X O",
        Status::Gaps(6),
        "sdca: STREAM X: packets were lost on the way; OUT has all others\n",
    ),
    (
        "watch K X O",
        Status::NoCat,
        "sdca: STREAM X: no CAT names the card's system; it is of another system, or no broadcast (see sdca tables)\n",
    ),
    (
        "card S 9 K",
        Status::BadWord(2),
        "sdca: LEAF 9: out of its range; LEAF is the receiver's number, from 0 to 2^height - 1\n",
    ),
    (
        "card S 4294967296 K",
        Status::BadWord(2),
        "sdca: LEAF 4294967296: out of its range; LEAF is the receiver's number, from 0 to 2^height - 1\n",
    ),
    (
        "status S B three",
        Status::BadWord(3),
        "sdca: LEAF three: not a decimal number; LEAF is the receiver's number, from 0 to 2^height - 1\n",
    ),
    (
        "apart S B T D",
        Status::Clash(Clash::Masters),
        "sdca: SITE T: its master is another one (see sdca status); take sites of one chain (next, twin)\n",
    ),
    (
        "apart S B T D",
        Status::Clash(Clash::NoWords(1)),
        "sdca: SITE S: it has no control word; make the next site (sdca next)\n",
    ),
    (
        "apart S B T D",
        Status::Clash(Clash::Books { leaf: 5, period: 2 }),
        "sdca: BOOK D: it disagrees with the other book there; use one book for both\n",
    ),
    (
        "air S B C O",
        Status::SiteUsedUp(9),
        "sdca: SITE S: no number or control word is left; start again with the next site (sdca next), and more words\n",
    ),
    ("cover S B", Status::Done, ""),
    ("cover S B", Status::PrintFault, ""),
    ("cover S B", Status::NoMemory, ""),
    (
        "next S0 B 9 S1",
        Status::BadOut {
            word: 4,
            cause: OutCause::There,
        },
        "sdca: OUT S1: it is there already; each site is made once\n",
    ),
    (
        "twin S0 9 S2",
        Status::BadOut {
            word: 3,
            cause: OutCause::Name,
        },
        "sdca: OUT S2: its name is not that of SITE with the last number one higher\n",
    ),
    (
        "next S0 B 9 S1",
        Status::OtherBook,
        "sdca: BOOK B: it doesn't begin with the book of the site's line 13; an old book was put back, or a line was changed or lost\n",
    ),
    (
        "head S B C O",
        Status::OtherBook,
        "sdca: BOOK B: it is not the book of the site's line 13; if it only got longer, make the next site\n",
    ),
    (
        "air S B C O",
        Status::OtherBook,
        "sdca: BOOK B: it is not the book of the site's line 13; if it only got longer, make the next site\n",
    ),
    (
        "air S B C O",
        Status::SiteUsed,
        "sdca: SITE S: it was used; make the next one (sdca next)\n",
    ),
    (
        "twin S0 9 no/S1",
        Status::Missing(3),
        "sdca: OUT no/S1: no such folder\n",
    ),
    (
        "cover S",
        Status::Usage,
        "sdca: cover: wrong number of arguments; see sdca help cover\n",
    ),
    (
        "card S 5 S",
        Status::Usage,
        "sdca: OUT S: it is one of the inputs\n",
    ),
    (
        "air S B C S.used",
        Status::Usage,
        "sdca: OUT S.used: it is the mark of SITE\n",
    ),
    (
        "frob",
        Status::Usage,
        "sdca: frob: unknown command; see sdca help\n",
    ),
    (
        "help frob",
        Status::Usage,
        "sdca: frob: unknown command; see sdca help\n",
    ),
    (
        "help version",
        Status::Usage,
        "sdca: version: it has no page of its own; see sdca help\n",
    ),
    (
        "--help cover card",
        Status::Usage,
        "sdca: --help: wrong number of arguments; see sdca help\n",
    ),
    (
        "version S",
        Status::Usage,
        "sdca: version: wrong number of arguments; see sdca help\n",
    ),
    ("cover S B", Status::DepotFault, ""),
    // Control characters are escaped: of C0, DEL and of C1; other characters stay.
    (
        "card S 9\u{1b}[31m K",
        Status::BadWord(2),
        "sdca: LEAF 9\\x1b[31m: not a decimal number; LEAF is the receiver's number, from 0 to 2^height - 1\n",
    ),
    (
        "cover S\n\u{7f}\u{9b}\u{a0}\u{e9}\\ B",
        Status::Missing(1),
        "sdca: SITE S\\x0a\\x7f\\xc2\\x9b\u{a0}\u{e9}\\: no such file\n",
    ),
    (
        "frob\u{7f}",
        Status::Usage,
        "sdca: frob\\x7f: unknown command; see sdca help\n",
    ),
];

// What a line of a site is to a user: the arguments, which of them is the site, its fault and its bytes.
static SITES: [(&str, u8, SiteFault, &[u8], &str); 9] = [
    (
        "apart S B T B",
        3,
        SiteFault::Line(2),
        b"height 3\nfirst-word 5000\n",
        "sdca: SITE T: line 2 is \"first-word 5000\"; it must be master and 64 hexadecimal digits; a site's lines have one order, and none before the last is left out\n",
    ),
    // A line that may hold the master isn't shown.
    (
        "apart S B T B",
        3,
        SiteFault::Line(2),
        b"height 3\nmaster 000102030405060708\n",
        "sdca: SITE T: line 2 is malformed; it must be master and 64 hexadecimal digits; a site's lines have one order, and none before the last is left out\n",
    ),
    (
        "apart S B T B",
        3,
        SiteFault::Range(1),
        b"height 21\n",
        "sdca: SITE T: line 1 is \"height 21\"; it must be height N, N from 1 to 20\n",
    ),
    (
        "air S B C O",
        1,
        SiteFault::Range(9),
        b"\n\n\n\n\n\n\n\nmessages 2\n",
        "sdca: SITE S: line 9 is \"messages 2\"; it must be messages 3, as sites of next and twin have it\n",
    ),
    (
        "twin S 5 T",
        1,
        SiteFault::Range(12),
        b"",
        "sdca: SITE S: line 12 is out of range; it must be first-period N, and a number above N must be left; the chain ends here\n",
    ),
    (
        "apart S B T B",
        3,
        SiteFault::SamePid,
        b"",
        "sdca: SITE T: lines 4 and 5 have one PID; EMMs and ECMs need one each\n",
    ),
    (
        "apart S B T B",
        3,
        SiteFault::Extra(1),
        b"# x",
        "sdca: SITE T: line 1 is \"# x\", which is one too many; a site has at most 13\n",
    ),
    (
        "apart S B T B",
        3,
        SiteFault::Extra(14),
        b"",
        "sdca: SITE T: line 14 is there, which is one too many; a site has at most 13\n",
    ),
    (
        "apart S B T B",
        3,
        SiteFault::Short,
        b"",
        "sdca: SITE T: lines are missing; a site has lines 1 to 8, height to period-cryptos, and one of next or twin has 13\n",
    ),
];

// Lines that are none of a book's, and what is wrong with each.
static MISTAKES: [(&[u8], &str); 13] = [
    (
        b"\xef\xbb\xbfrevoke 5",
        "line 1 is refused: it begins with a byte-order mark; save the file as plain ASCII",
    ),
    (
        b"revoke \x1b[2J",
        "line 1 is refused: it has a byte that is no printable ASCII; is it the right file?",
    ),
    (
        b"revoke 0000000000000000000000000000000000000000005",
        "line 1 is refused: it has more than 48 bytes, and no line of such a file has",
    ),
    (b"", "line 1 is refused: it is empty"),
    (
        b"revoke 5\r",
        "line 1 is \"revoke 5\\x0d\": it ends with a carriage return; lines end with a line feed alone",
    ),
    (
        b"# x",
        "line 1 is \"# x\": it is a comment, and such a file has none",
    ),
    (
        b"revoke\t5",
        "line 1 is \"revoke\\x095\": it has a tab; one space stands between words",
    ),
    (
        b"revoke 5 ",
        "line 1 is \"revoke 5 \": it has a space too many; one stands between words, and none at an end",
    ),
    (
        b"revoke  5",
        "line 1 is \"revoke  5\": it has a space too many; one stands between words, and none at an end",
    ),
    (
        b"Revoke 5",
        "line 1 is \"Revoke 5\": it has a capital letter; commands and names have none",
    ),
    (
        b"revoke 5-9",
        "line 1 is \"revoke 5-9\": it is none of its lines; numbers are plain decimals, without sign, range or leading zero",
    ),
    (
        b"revoke 05",
        "line 1 is \"revoke 05\": it is none of its lines; numbers are plain decimals, without sign, range or leading zero",
    ),
    (
        b"subscribe all",
        "line 1 is \"subscribe all\": it is none of its lines; numbers are plain decimals, without sign, range or leading zero",
    ),
];

// The rules that a line breaks beside those of its layout.
static CAUSES: [(LineCause, &str); 6] = [
    (LineCause::Leaf(10), "receivers of height 10 are 0 to 1023"),
    (
        LineCause::Descends,
        "its receiver is not above that of the line before",
    ),
    (
        LineCause::Unended,
        "its line feed is missing, so it may be cut off",
    ),
    (
        LineCause::Held { leaf: 5, line: 1 },
        "its name has receiver 5 since line 1, for good; drop frees no name",
    ),
    (
        LineCause::Named(1),
        "its receiver has a name since line 1, for good; drop frees no receiver",
    ),
    (LineCause::Unknown, "no line before it assigns its name"),
];

// I/O errors: the arguments, the file, what the machine said, and what a user is told.
static TROUBLES: [(&str, &str, Trouble, &str); 10] = [
    (
        "card S 5 K",
        "K",
        Trouble::NoSpace,
        "sdca: OUT K: no space is left on the device; what is there is a part of it\n",
    ),
    (
        "cover S B",
        "S",
        Trouble::Denied,
        "sdca: SITE S: permission denied\n",
    ),
    (
        "cover S B",
        "B",
        Trouble::Folder,
        "sdca: BOOK B: it is a folder\n",
    ),
    (
        "head S B C O",
        "O",
        Trouble::Input,
        "sdca: OUT O: it is an input and the output, by two names\n",
    ),
    (
        "sample 7 9 /dev/stdout",
        "/dev/stdout",
        Trouble::Gone,
        "sdca: OUT /dev/stdout: its reader is gone\n",
    ),
    (
        "card S 5 K",
        "K",
        Trouble::ReadOnly,
        "sdca: OUT K: its file system is read-only\n",
    ),
    (
        "card S 5 K",
        "K",
        Trouble::TooLarge,
        "sdca: OUT K: it would be larger than is allowed (ulimit -f)\n",
    ),
    (
        "cover S B",
        "B",
        Trouble::Loop,
        "sdca: BOOK B: its path is a loop of links, or too long\n",
    ),
    // A number is no file.
    (
        "card 5 5 K",
        "5",
        Trouble::Other,
        "sdca: SITE 5: the machine answered with an I/O error\n",
    ),
    // The mark is no argument.
    (
        "air S B C O",
        "S.used",
        Trouble::Denied,
        "sdca: S.used: permission denied\n",
    ),
];

// Whether a user who gave these arguments is told this of the status.
fn is_explained(
    alloc: Global,
    text: &str,
    trouble: Option<(&str, Trouble)>,
    status: Status,
    want: &str,
) -> Result<bool, AllocError> {
    let mut words = Vec::new(alloc);
    for word in text.split(' ') {
        words.push(String::from_str(alloc, word)?)?;
    }
    let line = CommandLine::read(&words);
    Ok(explanation(alloc, &line, trouble, status)?.as_str() == want)
}

#[test]
fn refusals_are_explained(rt: HostRuntime) -> Result<(), AllocError> {
    for (text, status, want) in &EXPLAINED {
        assert!(rt; is_explained(rt.alloc(), text, None, *status, want)?);
    }
    Ok(())
}

#[test]
fn lines_of_sites_are_explained(rt: HostRuntime) -> Result<(), AllocError> {
    for (text, word, fault, bytes, want) in &SITES {
        let status = site_fault(*word, bytes, *fault);
        assert!(rt; is_explained(rt.alloc(), text, None, status, want)?);
    }
    Ok(())
}

#[test]
fn mistakes_are_explained(rt: HostRuntime) -> Result<(), AllocError> {
    for (bytes, want) in &MISTAKES {
        let line = malformed(1, bytes);
        let status = Status::BadBook { word: 3, line };
        let want = format!(in rt.alloc();
            "sdca: LEAVES L: {want}; LEAVES is the coalition: one leaf per line, ascending\n"
        )?;
        assert!(rt; is_explained(rt.alloc(), "opens S B L", None, status, want.as_str())?);
    }
    Ok(())
}

#[test]
fn causes_are_explained(rt: HostRuntime) -> Result<(), AllocError> {
    for (cause, want) in &CAUSES {
        let line = refused_line(*cause, 1, b"assign ann 7\n");
        let status = Status::BadBook { word: 3, line };
        let want = format!(in rt.alloc();
            "sdca: LEAVES L: line 1 is \"assign ann 7\": {want}; LEAVES is the coalition: one leaf per line, ascending\n"
        )?;
        assert!(rt; is_explained(rt.alloc(), "opens S B L", None, status, want.as_str())?);
    }
    Ok(())
}

#[test]
fn troubles_are_explained(rt: HostRuntime) -> Result<(), AllocError> {
    for (text, name, trouble, want) in &TROUBLES {
        let said = Some((*name, *trouble));
        assert!(rt; is_explained(rt.alloc(), text, said, Status::DepotFault, want)?);
    }
    Ok(())
}

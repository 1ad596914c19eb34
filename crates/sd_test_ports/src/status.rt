use sd_book::BookLimit;
use sd_command_base::{Clash, LimitKind, OutCause, Status, StreamRefusal, site_fault};
use sd_command_line::tell;
use sd_engine::{BreakCause, StreamBreak};
use sd_message::{ClearFault, EcmFault, EmmFault, StreamFault};
use sd_ports::MemSink;
use sd_psi::FormFault;
use sd_site_cards::{CardFault, SiteFault};
use std::alloc::{AllocError, Global};

// Statuses, their codes, and their lines.
static LINES: [(Status, u8, &str); 41] = [
    (Status::Done, 0, ""),
    (Status::Usage, 1, "usage\n"),
    (Status::Missing(3), 2, "missing file word 3\n"),
    (Status::DepotFault, 4, "device fault\n"),
    (Status::PrintFault, 5, ""),
    (
        Status::Limit(LimitKind::BookBytes),
        11,
        "limit: book bytes\n",
    ),
    (
        Status::Limit(LimitKind::Book(BookLimit::Lines)),
        11,
        "limit: book lines\n",
    ),
    (
        Status::Limit(LimitKind::Book(BookLimit::Periods)),
        11,
        "limit: periods\n",
    ),
    (
        Status::Limit(LimitKind::Book(BookLimit::Revoked(17))),
        11,
        "limit: revoked in period 17\n",
    ),
    (
        Status::BadClear(StreamRefusal::Packet(ClearFault::PatForm(
            4,
            FormFault::Crc {
                found: 0x2AB104B2,
                due: 0x0A,
            },
        ))),
        9,
        "clear packet 4: pat crc 2ab104b2 0000000a\n",
    ),
    (
        Status::BadClear(StreamRefusal::Packet(ClearFault::PidTaken(0, 1))),
        9,
        "clear packet 0: pid 1 is taken\n",
    ),
    (
        Status::BadStream(StreamRefusal::Broken(StreamBreak {
            packet: 7,
            cause: BreakCause::Torn,
        })),
        10,
        "stream packet 7: torn\n",
    ),
    (
        Status::BadStream(StreamRefusal::TooLong),
        10,
        "stream packet 281474976710656: too long\n",
    ),
    (
        Status::Revoked { leaf: 5, period: 1 },
        3,
        "receiver 5 is revoked in period 1\n",
    ),
    (
        Status::BadCard {
            word: 1,
            fault: CardFault::Version,
        },
        8,
        "card: version\n",
    ),
    (
        Status::BadStream(StreamRefusal::Packet(StreamFault::BadEmm(3, EmmFault::Mixed))),
        10,
        "stream packet 3: bad emm mixed\n",
    ),
    (
        Status::BadStream(StreamRefusal::Packet(StreamFault::BadEcm(9, EcmFault::Back))),
        10,
        "stream packet 9: bad ecm back\n",
    ),
    (
        Status::BadStream(StreamRefusal::Packet(StreamFault::Parity(4))),
        10,
        "stream packet 4: parity\n",
    ),
    (
        Status::Limit(LimitKind::CardBytes),
        11,
        "limit: card bytes\n",
    ),
    (
        Status::Limit(LimitKind::TrialHeight),
        11,
        "limit: trial height\n",
    ),
    (
        Status::Limit(LimitKind::TrialPackets),
        11,
        "limit: trial packets\n",
    ),
    (Status::Limit(LimitKind::Traced), 11, "limit: traced\n"),
    (
        Status::Limit(LimitKind::FieldHeight),
        11,
        "limit: field height\n",
    ),
    (
        Status::Limit(LimitKind::FieldPackets),
        11,
        "limit: field packets\n",
    ),
    (
        Status::Limit(LimitKind::FieldEvents),
        11,
        "limit: field events\n",
    ),
    (Status::NoMemory, 12, "no memory\n"),
    (
        Status::Unheard { leaf: 2, period: 1 },
        13,
        "receiver 2 did not hear its entitlement for period 1\n",
    ),
    (Status::Unclosed(3), 14, "stream ends before message 3\n"),
    (Status::Gaps(29), 15, "29 clear packets are missing\n"),
    (Status::NoCat, 16, "no CAT for this card\n"),
    (Status::BadWord(1), 17, "word 1 is out of range\n"),
    (
        Status::Clash(Clash::Heights),
        18,
        "sites have two heights\n",
    ),
    (
        Status::Clash(Clash::Masters),
        18,
        "sites have two masters\n",
    ),
    (
        Status::Clash(Clash::NoWords(1)),
        18,
        "site 1 has no control word\n",
    ),
    (
        Status::Clash(Clash::SharedWord(1_999_999)),
        18,
        "sites share control word 1999999\n",
    ),
    (
        Status::Clash(Clash::Books { leaf: 5, period: 2 }),
        18,
        "books disagree on receiver 5 in period 2\n",
    ),
    (
        Status::BadOut {
            word: 4,
            cause: OutCause::There,
        },
        19,
        "file word 4 is there\n",
    ),
    (
        Status::BadOut {
            word: 3,
            cause: OutCause::Name,
        },
        19,
        "file word 3 does not follow file word 1\n",
    ),
    (Status::SiteUsed, 20, "site is used\n"),
    (Status::OtherBook, 21, "book is not that of the site\n"),
    (Status::SiteUsedUp(12), 22, "site is used up at packet 12\n"),
];

// Faults of a site, and their lines.
static SITES: [(SiteFault, &str); 5] = [
    (SiteFault::Line(4), "site line 4 is malformed\n"),
    (SiteFault::Range(5), "site line 5 is out of range\n"),
    (SiteFault::SamePid, "site names one pid twice\n"),
    (SiteFault::Extra(10), "site has extra line 10\n"),
    (SiteFault::Short, "site is short\n"),
];

// Whether the status has this code, and is told by this line.
fn is_told(alloc: Global, status: Status, code: u8, text: &str) -> Result<bool, AllocError> {
    let mut print = MemSink::new(alloc, 64, 64, Vec::new(alloc)).map_err(|_| AllocError)?;
    let told = tell(alloc, &mut print, status);
    Ok((told.code(), status.code()) == (code, code) && print.bytes() == text.as_bytes())
}

#[test]
fn each_status_has_its_line(rt: HostRuntime) -> Result<(), AllocError> {
    for (status, code, text) in &LINES {
        assert!(rt; is_told(rt.alloc(), *status, *code, text)?, "{text}");
    }
    Ok(())
}

#[test]
fn each_fault_of_a_site_has_its_line(rt: HostRuntime) -> Result<(), AllocError> {
    for (fault, text) in &SITES {
        let status = site_fault(1, b"a\nb\nc\nd\n", *fault);
        assert!(rt; is_told(rt.alloc(), status, 6, text)?, "{text}");
    }
    Ok(())
}

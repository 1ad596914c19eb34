ghost use Rattle.std.specs.Prelude.{◌≡◌, ◌<◌, IfSome};
ghost use Rattle.sd_head.specs.Live.{IsOnAir};

use crate::head::{CAT, CLOSING, FIRST, joined};
use crate::made::{Made, site_of};
use crate::sections::{ALL, PAT, PMT, REWRITTEN};
use sd_base::Steps;
use sd_book::Book;
use sd_head::{ClearFault, Live, Taken};
use sd_ports::MemSink;
use sd_spec::LeftOut;
use sd_test_texts::SITE;
use std::alloc::Global;
use std::marker::Brand;
use std::sync::ledger::{Blank, Ledger};

// A null packet that is marked, and a packet on PID 0 with a payload that is no PAT.
const MARKED: Made = Made::Plain([0x47, 0x9F, 0xFF, 0x10], 0xFF, 0xFF, 0xFF);

const NO_PAT: Made = Made::Plain([0x47, 0x40, 0x00, 0x10], 0xFF, 0xFF, 0xFF);

// The packets of a stream, and what is told of each.
static STREAM: [(Made, Taken); 5] = [
    (MARKED, Taken::On),
    (Made::Section(&CAT, 1, 0), Taken::On),
    (Made::Section(&PAT, 0, 0), Taken::Begins),
    (Made::Section(&PMT, 0x1000, 0), Taken::On),
    (NO_PAT, Taken::On),
];

// The broadcast of those that count.
static SENT: [Made; 7] = [
    Made::Section(&CAT, 1, 0),
    Made::Section(&ALL, 496, 0),
    Made::Section(&FIRST, 497, 0),
    Made::Section(&PAT, 0, 0),
    Made::Section(&REWRITTEN, 0x1000, 0),
    NO_PAT,
    Made::Section(&CLOSING, 497, 1),
];

// The head end of the site with an empty book.
fn live(alloc: Global) -> Option<Live>
    ensures { IfSome result IsOnAir }
{
    let site = site_of(SITE)?;
    match Live::new(alloc, site, Book::new(alloc, site.height)) {
        Ok(live) => Some(live),
        Err(_) => None,
    }
}

// Whether that is told of the packets.
fn is_told<L: Ledger>(
    live: &mut Live,
    rows: &[(Made, Taken)],
    sink: &mut MemSink,
    steps: &mut Steps<L>,
) -> Option<bool>
    requires { IsOnAir live.old }
    ensures { IfSome result (λ _. IsOnAir live.new) }
{
    for row in rows {
        match live.take(&row.0.packet()?, sink, steps) {
            Ok(taken) => {
                if taken != row.1 {
                    return Some(false);
                }
            }
            Err(_) => return None,
        }
    }
    Some(true)
}

// Whether it keeps what it is to keep after the stream.
fn is_kept(live: &Live) -> bool {
    let left_out = LeftOut {
        marked: 1,
        refused: 1,
        pats: 1,
        first: Some(ClearFault::PidTaken(1, 1)),
    };
    live.left_out() == left_out
        && live.packets() == 5
        && live.sent() == 3
        && live.period() == 0
        && live.word() == 0
        && live.left() == u32::MAX
}

// What is written of the stream, if all is told and kept.
fn aired_by<L: Ledger>(alloc: Global, blank: Blank) -> Option<Vec<u8>>
    requires name { blank.name ≡ L.name }
    requires parts { blank.parts ≡ L.parts }
    requires some { 0 < blank.parts }
{
    let mut live = live(alloc)?;
    let mut sink = MemSink::new(alloc, 2000, 1000, Vec::new(alloc)).ok()?;
    let mut steps = Steps::<L>::new(blank);
    if !is_told(&mut live, &STREAM, &mut sink, &mut steps)? || !is_kept(&live) {
        return None;
    }
    match live.close(&mut sink, &mut steps) {
        Ok(()) => Some(sink.into_bytes()),
        Err(_) => None,
    }
}

// The same, counted by a ledger of its own.
fn aired(alloc: Global) -> Option<Vec<u8>> {
    aired_by::<Brand>(alloc, Blank::new(1))
}

#[test]
fn what_counts_is_broadcast(rt: HostRuntime) {
    let due = joined(rt.alloc(), &SENT);
    assert!(rt; due.is_some() && aired(rt.alloc()) == due);
}

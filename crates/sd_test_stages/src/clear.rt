use crate::made::{Ends, Made, NULL, SCRAMBLED, plain, site_of};
use crate::sections::{PAT, PMT, REWRITTEN};
use sd_head::{Clear, PatRule};
use sd_message::{ClearFault, Place};
use sd_packet::{Packet, pack_section};
use sd_psi::FormFault;
use sd_site_cards::Site;
use sd_test_texts::{SITE, site_start};
use sd_tree_keys::control_word;
use std::alloc::Global;
use std::test::*;

// The PMT with another stream_type and its CRC_32 left.
const FAULTY: [u8; 26] = [
    0x02, 0xB0, 0x17, 0x00, 0x01, 0xC1, 0x00, 0x00, 0xE1, 0x00, 0xF0, 0x00, 0x1C, 0xE1, 0x00, 0xF0,
    0x00, 0x0F, 0xE1, 0x01, 0xF0, 0x00, 0x2F, 0x44, 0xB9, 0x9B,
];

// A PMT of 178 bytes, which leave no room.
const FULL: Ends = (
    &[
        0x02, 0xB0, 0xAF, 0x00, 0x01, 0xC1, 0x00, 0x00, 0xE1, 0x00, 0xF0, 0x9D, 0x05, 0x9B,
    ],
    &[0x1B, 0xE1, 0x00, 0xF0, 0x00, 0x1D, 0x05, 0x35, 0xF6],
);

// The same of one that begins with the project's CA_descriptor.
const FULL_OWN: Ends = (
    &[
        0x02, 0xB0, 0xAF, 0x00, 0x01, 0xC1, 0x00, 0x00, 0xE1, 0x00, 0xF0, 0x9D, 0x09, 0x04, 0x12,
        0x34, 0xE1, 0xF1, 0x05, 0x95,
    ],
    &[0x1B, 0xE1, 0x00, 0xF0, 0x00, 0x4F, 0x78, 0xAA, 0xF9],
);

// What becomes of the packet, which is taken, in crypto period 0, or why it is refused.
fn step(clear: &mut Clear, site: &Site, packet: &Packet) -> Result<Packet, ClearFault> {
    match clear.judge(site, packet, PatRule::Asked) {
        Ok(judged) => {
            let mut carried = *packet;
            judged.carry(&mut carried, 0, &control_word(&site.master, 0));
            clear.take(&judged);
            Ok(carried)
        }
        Err(fault) => Err(fault),
    }
}

// Whether the packet, which is taken, is carried.
fn is_carried(clear: &mut Clear, site: &Site, packet: Option<Packet>) -> bool {
    let Some(packet) = packet else {
        return false;
    };
    step(clear, site, &packet).is_ok()
}

// Why the packet is refused.
fn refusal(clear: &Clear, site: &Site, packet: Option<Packet>) -> Option<ClearFault> {
    match clear.judge(site, &packet?, PatRule::Asked) {
        Ok(_) => None,
        Err(fault) => Some(fault),
    }
}

// Clear packets in turn, and what they become.
static CARRIED: [(Made, Made); 7] = [
    (Made::Section(&PAT, 0, 0), Made::Section(&PAT, 0, 0)),
    (
        Made::Section(&PMT, 0x1000, 0),
        Made::Section(&REWRITTEN, 0x1000, 0),
    ),
    (
        Made::Section(&FAULTY, 0x1000, 1),
        Made::Section(&FAULTY, 0x1000, 1),
    ),
    (Made::Full(FULL, 2), Made::Full(FULL, 2)),
    (NULL, NULL),
    (
        Made::Plain([0x47, 0x02, 0x00, 0x30], 0xB6, 0x55, 0x55),
        Made::Plain([0x47, 0x02, 0x00, 0xB0], 0xB6, 0x55, 0x68),
    ),
    (
        Made::Plain([0x47, 0x02, 0x01, 0x35], 0xB7, 0x55, 0x55),
        Made::Plain([0x47, 0x02, 0x01, 0x35], 0xB7, 0x55, 0x55),
    ),
];

// Whether the packets become what is due.
fn are_carried(clear: &mut Clear, site: &Site) -> Option<bool> {
    for (packet, due) in &CARRIED {
        if step(clear, site, &packet.packet()?).ok()? != due.packet()? {
            return Some(false);
        }
    }
    Some(clear.count() == 7)
}

#[test]
fn packets_are_carried(rt: HostRuntime) -> Result<(), Fail> {
    let site = site_of(SITE).ok_or("the text is a site file")?;
    let mut clear = Clear::new(rt.alloc()).expect(&rt, "memory");
    assert!(rt; are_carried(&mut clear, &site) == Some(true));
    Ok(())
}

// The second packet after a PAT, and why it is refused.
static REFUSED: [(Made, ClearFault); 7] = [
    (
        Made::Plain([0x47, 0x00, 0x01, 0x10], 0x01, 0x01, 0x01),
        ClearFault::PidTaken(1, 1),
    ),
    (
        Made::Plain([0x47, 0x01, 0x00, 0x91], 0x01, 0x01, 0x01),
        ClearFault::AlreadyScrambled(1),
    ),
    (
        Made::Plain([0x47, 0x00, 0x01, 0x90], 0x01, 0x01, 0x01),
        ClearFault::AlreadyScrambled(1),
    ),
    (
        Made::Plain([0x47, 0x01, 0xF0, 0x10], 0xF0, 0x01, 0x01),
        ClearFault::PidTaken(1, 496),
    ),
    (
        Made::Plain([0x47, 0x01, 0xF1, 0x10], 0xF0, 0x01, 0x01),
        ClearFault::PidTaken(1, 497),
    ),
    (
        Made::Plain([0x47, 0x00, 0x00, 0x10], 0x00, 0x00, 0x00),
        ClearFault::PatForm(1, FormFault::Pointer),
    ),
    (
        Made::Full(FULL_OWN, 0),
        ClearFault::PmtForm(1, FormFault::NoRoom),
    ),
];

// Whether this packet after a PAT is refused so.
fn is_refused(alloc: Global, site: &Site, packet: &Made, due: ClearFault) -> Option<bool> {
    let mut clear = Clear::new(alloc).ok()?;
    let is_begun = is_carried(&mut clear, site, Some(pack_section(&PAT, 0, 0)));
    Some(is_begun && refusal(&clear, site, packet.packet()) == Some(due))
}

#[test]
fn packets_are_refused(rt: HostRuntime) -> Result<(), Fail> {
    let site = site_of(SITE).ok_or("the text is a site file")?;
    for (packet, due) in &REFUSED {
        assert!(rt; is_refused(rt.alloc(), &site, packet, *due) == Some(true));
    }
    Ok(())
}

// Whether packets of as many PIDs as may move are carried, then none of another PID, unless it has no payload.
fn are_most(clear: &mut Clear, site: &Site) -> bool {
    for pid in 0x0..0x100u16 {
        let packet = plain([0x47, 0x03, 0xFF - pid as u8, 0x13], 0x03, 0x03, 0x03);
        if !is_carried(clear, site, packet) {
            return false;
        }
    }
    let more = plain([0x47, 0x02, 0x00, 0x10], 0x00, 0x00, 0x00);
    let empty = plain([0x47, 0x02, 0x00, 0x30], 0xB7, 0x55, 0x55);
    refusal(clear, site, more) == Some(ClearFault::TooManyPids(256))
        && is_carried(clear, site, empty)
}

// Whether these are the places of those PIDs.
fn are_ends(places: &[Place]) -> bool {
    let first = Place {
        pid: 0x300,
        position: 19,
    };
    let last = Place {
        pid: 0x3FF,
        position: 19,
    };
    places.len() == 256 && places.first() == Some(&first) && places.last() == Some(&last)
}

// Whether as many PIDs move as may.
fn are_moved(alloc: Global, clear: &mut Clear, site: &Site) -> Option<bool> {
    let mut places = Vec::with_capacity(alloc, 256).ok()?;
    clear.write_places(&mut places);
    let is_empty = clear.count() == 0 && places.is_empty();
    let is_full = are_most(clear, site);
    clear.write_places(&mut places);
    Some(is_empty && is_full && are_ends(&places))
}

#[test]
fn as_many_pids_move_as_may(rt: HostRuntime) -> Result<(), Fail> {
    let site = site_of(SITE).ok_or("the text is a site file")?;
    let mut clear = Clear::new(rt.alloc()).expect(&rt, "memory");
    assert!(rt; are_moved(rt.alloc(), &mut clear, &site) == Some(true));
    Ok(())
}

// A site with a control word for each packet, and further lines.
macro_rules! each {
    ($lines:literal) => {
        site_start!("ecm-every 1\ncrypto-ecms 1\nperiod-cryptos 1\nmessages 1\n", $lines)
    };
}

// Sites, and how many packets have a control word of the site's own.
static WORDS: [(&str, u64); 3] = [
    (each!("first-word 4294967295\n"), 1),
    (each!("first-word 7\nlast-word 8\n"), 2),
    (each!("first-word 7\nlast-word 6\n"), 0),
];

// Whether the site has a control word for so many packets.
fn has_words(alloc: Global, text: &str, count: u64) -> Option<bool> {
    let site = site_of(text)?;
    let mut clear = Clear::new(alloc).ok()?;
    for _ in 0..count {
        if !is_carried(&mut clear, &site, NULL.packet()) {
            return Some(false);
        }
    }
    let null = refusal(&clear, &site, NULL.packet());
    let scrambled = refusal(&clear, &site, SCRAMBLED.packet());
    let is_due = null == Some(ClearFault::TooLong(count));
    Some(is_due && scrambled == Some(ClearFault::AlreadyScrambled(count)))
}

#[test]
fn a_site_has_so_many_control_words(rt: HostRuntime) {
    for (text, count) in &WORDS {
        assert!(rt; has_words(rt.alloc(), text, *count) == Some(true));
    }
}

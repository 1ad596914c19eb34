use crate::broadcasts::{
    FIRST, PACKET, SECOND, SECOND_REVOKING, THIRD, answered, has_digest, shelf,
};
use hex::FromHex;
use sd_ports_memory::MemDepot;
use std::alloc::{AllocError, Global};

// How the SHA-256 of each broadcast begins.
static DIGESTS: [(&str, &str); 4] = [
    ("first", "679a59b08113a95cefa8269607bcb6d1"),
    ("second", "45c1ff9a1cae889da935b1f2369f1c08"),
    ("third", "77605856f0824c8273c8d0971e0cdfe2"),
    ("second-revoking", "24035fff67e7acb2da4153a006630422"),
];

/// How the EMM section in packet 1 of the second broadcast begins: its header, part, count of parts, period and number
/// of sets, then the key check value, the run's name and the count of entries.
const EMM: &str = "8ab0500000c1000000000001000000010001\
1dcd30913b9a37b4772694d78c1d7f2f0000000201";

/// A packet of the second broadcast with an ECM: how its section begins, then t, and `since` with the run's name behind
/// it.
type Ecm = (usize, [u8; 3], [u8; 4], [u8; 8]);

static ECMS: [Ecm; 4] = [
    (
        2,
        [0x88, 0xB0, 0x53],
        [0, 0, 0, 2],
        [0, 0, 0, 0, 0, 0, 0, 2],
    ),
    (
        203,
        [0x88, 0xB0, 0x6B],
        [0, 0, 0, 2],
        [0, 0, 0, 0, 0, 0, 0, 2],
    ),
    (
        406,
        [0x89, 0xB0, 0x6B],
        [0, 0, 0, 3],
        [0, 0, 0, 0, 0, 0, 0, 2],
    ),
    (
        607,
        [0x89, 0xB0, 0x6B],
        [0, 0, 0, 3],
        [0, 0, 0, 2, 0, 0, 0, 2],
    ),
];

/// Where a message's section begins in its packet, and t and `since` in the section of an ECM.
const SECTION: usize = 5;

const T: usize = SECTION + 16;

const SINCE: usize = SECTION + 24;

/// The line of the EMM section in packet 1 of the second broadcast.
const EMM_LINE: &str =
    "{\"check\":\"1dcd30913b9a37b4772694d78c1d7f2f\",\"index\":0,\"names\":[\"all\"],\"packet\":1,\
\"period\":1,\"pid\":496,\"run\":2,\"sections\":1,\"sets\":1,\"table\":\"emm\"}\n";

/// Whether a packet has these bytes at this place.
fn has(stream: &[u8], packet: usize, at: usize, due: &[u8]) -> bool {
    let Some(bytes) = stream.chunks(PACKET).nth(packet) else {
        return false;
    };
    match bytes.get(at..) {
        Some(rest) => rest.starts_with(due),
        None => false,
    }
}

/// Whether the EMM section stands in packet 1 of a stream.
fn has_emm(stream: &[u8]) -> bool {
    match <[u8; 39]>::from_hex(EMM) {
        Ok(emm) => has(stream, 1, SECTION, &emm),
        Err(_) => false,
    }
}

/// Whether a stream has an ECM as its row says.
fn has_ecm(stream: &[u8], row: &Ecm) -> bool {
    let (packet, first, t, since) = row;
    has(stream, *packet, SECTION, first)
        && has(stream, *packet, T, t)
        && has(stream, *packet, SINCE, since)
}

/// The first ECM that a stream hasn't as its row says, by its packet.
fn wrong_ecm(stream: &[u8]) -> Option<usize> {
    for row in &ECMS {
        if !has_ecm(stream, row) {
            return Some(row.0);
        }
    }
    None
}

/// The first broadcast that hasn't 608 packets with its digest.
fn wrong_broadcast(depot: &MemDepot) -> Option<&'static str> {
    for (name, digest) in &DIGESTS {
        let bytes = depot.get(name).unwrap_or(&[]);
        if bytes.len() != 608 * PACKET || !has_digest(bytes, digest) {
            return Some(*name);
        }
    }
    None
}

/// The first broadcast and the first ECM of the second one that are wrong, and whether that has the EMM section.
fn sent(alloc: Global) -> Result<(Option<&'static str>, Option<usize>, bool), AllocError> {
    let depot = shelf(alloc, &[FIRST, SECOND, THIRD, SECOND_REVOKING])?;
    let second = depot.get("second").unwrap_or(&[]);
    Ok((wrong_broadcast(&depot), wrong_ecm(second), has_emm(second)))
}

#[test]
fn messages_name_their_run(rt: HostRuntime) -> Result<(), AllocError> {
    let (broadcast, ecm, has_emm) = sent(rt.alloc())?;
    assert!(rt; broadcast.is_none(), "{broadcast:?}");
    assert!(rt; has_emm);
    assert!(rt; ecm.is_none(), "{ecm:?}");
    Ok(())
}

/// Whether `messages` prints the line of the EMM section first.
fn is_listed(alloc: Global, depot: &mut MemDepot) -> Result<bool, AllocError> {
    let (status, printed) = answered(alloc, depot, "messages site-second second")?;
    Ok(status.code() == 0 && printed.starts_with(EMM_LINE.as_bytes()))
}

/// Whether `head` refuses a site of version 4.
fn is_refused(alloc: Global, depot: &mut MemDepot) -> Result<bool, AllocError> {
    let (status, printed) = answered(alloc, depot, "head site-version-4 empty clear-7 O")?;
    Ok(status.code() == 6 && printed.as_slice() == b"site line 9 is out of range\n".as_slice())
}

/// Whether both are so.
fn are_told(alloc: Global) -> Result<(bool, bool), AllocError> {
    let mut depot = shelf(alloc, &[SECOND])?;
    Ok((
        is_listed(alloc, &mut depot)?,
        is_refused(alloc, &mut depot)?,
    ))
}

#[test]
fn lines_of_messages_have_the_run(rt: HostRuntime) -> Result<(), AllocError> {
    let (is_listed, is_refused) = are_told(rt.alloc())?;
    assert!(rt; is_listed);
    assert!(rt; is_refused);
    Ok(())
}

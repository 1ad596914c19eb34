use crate::covers::site_of;
use crate::files::Files;
use crate::leaving::{Fault, Leaving, left};
use crate::parts::{Part, bytes_of};
use crate::session::{first_wrong, shelf};
use crate::sums::has_sum;
use sd_test_texts::BOOK;
use std::alloc::{AllocError, Global};

/// How many bytes a packet has.
const PACKET: usize = 188;

/// As many bytes as OUT and the print have room for, and as many as go through a call of a port.
const ROOM: usize = 13_000_000;

const PIECE: usize = 65_536;

// The last leaf of the highest tree: its card, a broadcast to it, and one in which it alone is revoked.
const LAST_LEAF: &str = "
$ card site 1048575 card | 0 | bfcbc774a9f50e09
$ sample 7 600 clear | 0 | 39e4911fdc85d39b
$ head site book clear sent | 0 | 20624add0b79ab95
$ receive card sent out | 0 | 39e4911fdc85d39b
$ head site last clear sent | 0 | 054197d675747869
$ receive card sent out | 3 | e3b0c44298fc1c14
receiver 1048575 is revoked in period 0
";

#[test]
fn the_highest_tree_has_its_last_leaf(rt: HostRuntime) -> Result<(), AllocError> {
    let alloc = rt.alloc();
    let site = site_of(alloc, 20)?;
    let mut depot = shelf(alloc, &site, BOOK, "$ last\nrevoke 1048575\n", "")?;
    let wrong = first_wrong(alloc, &mut depot, LAST_LEAF)?;
    assert!(rt; wrong.is_empty(), "{wrong}");
    Ok(())
}

/// What the words leave over the site S and the files F and G.
fn after(
    alloc: Global,
    words: &str,
    site: Part,
    f: &[u8],
    g: &[u8],
) -> Result<Leaving, AllocError> {
    let mut files = Files::with(alloc, "S", &bytes_of(alloc, &[site])?)?;
    files.add(alloc, "F", f)?;
    files.add(alloc, "G", g)?;
    files.room = ROOM;
    let words: Vec<&str> = words.split(' ').collect(alloc)?;
    left(alloc, &files, &words, PIECE, Fault::Nowhere)
}

/// A site whose tree is 17 high, and a book that revokes each other leaf of it.
const HIGH: Part = Part::Site(1, "height 17\n");

const EACH_OTHER: &[Part] = &[Part::Revokes(65_536, 2)];

#[test]
fn all_sets_of_a_large_cover_are_printed(rt: HostRuntime) -> Result<(), AllocError> {
    let alloc = rt.alloc();
    let book = bytes_of(alloc, EACH_OTHER)?;
    let left = after(alloc, "cover S F", HIGH, &book, b"")?;
    assert!(rt; left.status.code() == 0 && has_sum(&left.printed, "2e24cfae8395c91d"));
    Ok(())
}

/// A site with a message before each packet, and a book in whose last period three leaves are revoked.
const EACH: Part = Part::Bytes(
    b"height 6
master ef6d5cc4e91f368356860311fa1cef034b158c383a079a228ed7314d75d74c4a
ca 172d
emm 6208
ecm 7822
ecm-every 1
crypto-ecms 1
period-cryptos 1
messages 1
first-word 7
last-word 4294967295
first-period 4
",
);

const CHANGES: &[u8] = b"revoke 30
revoke 30
revoke 30
subscribe 36
subscribe 36
revoke 36
period
period
revoke 8
period
period
revoke 36
revoke 30
subscribe 29
subscribe 29
revoke 8
revoke 36
revoke 8
revoke 57
subscribe 29
subscribe 29
revoke 36
revoke 36
";

/// A broadcast of no packet has four: a CAT, the entitlements in two sections, and a control message.
#[test]
fn a_trial_has_room_for_what_stands_before_a_packet(rt: HostRuntime) -> Result<(), AllocError> {
    let left = after(rt.alloc(), "trial S F G", EACH, CHANGES, b"")?;
    let first = b"clear 0 broadcast 4\n";
    assert!(rt;
        left.status.code() == 0
            && left.printed.starts_with(first)
            && has_sum(&left.printed, "c568975649258ef0")
    );
    Ok(())
}

/// A site whose control words last for more packets than 16 bits can count.
const LONG: Part = Part::Bytes(
    b"height 3
master 000102030405060708090a0b0c0d0e0f101112131415161718191a1b1c1d1e1f
ca 1234
emm 496
ecm 497
ecm-every 4096
crypto-ecms 256
period-cryptos 1
",
);

/// As many null packets as 16 bits can count, and two more.
const NULLS: &[Part] = &[Part::Packets(8191, 65_537)];

/// What is printed if they are all lost.
const MISSING: &str = "65537 clear packets are missing\n";

/// The first two packets of a stream, the CAT and the entitlements, and its last, the closing control message.
fn ends_of(alloc: Global, stream: &[u8]) -> Result<Vec<u8>, AllocError> {
    let last = stream.len().saturating_sub(PACKET);
    let mut ends = Vec::from_slice(alloc, stream.get(..2 * PACKET).unwrap_or(&[]))?;
    ends.extend_from_slice(stream.get(last..).unwrap_or(&[]))?;
    Ok(ends)
}

/// What `receive` leaves of a broadcast of these packets that has lost all but its ends.
fn ends_received(alloc: Global, clear: &[u8]) -> Result<Leaving, AllocError> {
    let card = after(alloc, "card S 0 O", LONG, b"", b"")?;
    let sent = after(alloc, "head S F G O", LONG, b"", clear)?;
    let card = card.out.ok_or(AllocError)?;
    let sent = sent.out.ok_or(AllocError)?;
    let ends = ends_of(alloc, &sent)?;
    after(alloc, "receive F G O", LONG, &card, &ends)
}

#[test]
fn all_missing_packets_are_counted(rt: HostRuntime) -> Result<(), AllocError> {
    let alloc = rt.alloc();
    let clear = bytes_of(alloc, NULLS)?;
    let left = ends_received(alloc, &clear)?;
    assert!(rt; left.status.code() == 15 && left.printed.as_slice() == MISSING.as_bytes());
    Ok(())
}

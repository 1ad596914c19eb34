use crate::ends::{broadcast, received};
use hex::FromHex;
use sd_engine::sample;
use sd_ports::MemSink;
use sd_receive::Ending;
use sd_test_texts::{BOOK, site};
use sha2::{Digest, Sha256};
use std::alloc::{AllocError, Global};
use std::test::Fail;

/// The site with messages of version 1, and of version 2.
const FIRST: &str = site!("messages 1\n");

const SECOND: &str = site!("messages 2\n");

/// How many bytes are sent of 600 clear packets.
const SENT: usize = 608 * 188;

/// The packets of a PID that are left out: from one on, below another.
type Lost = (u16, usize, usize);

/// The PID of a packet.
fn pid_of(packet: &[u8]) -> u16 {
    match (packet.get(1), packet.get(2)) {
        (Some(high), Some(low)) => u16::from_be_bytes([*high & 0x1F, *low]),
        _ => 0,
    }
}

/// The packets of a stream that are left.
fn left(alloc: Global, stream: &[u8], lost: Lost) -> Result<Vec<u8>, AllocError> {
    let (pid, first, end) = lost;
    let mut bytes = Vec::new(alloc);
    let mut met = 0usize;
    for packet in stream.chunks_exact(188) {
        let is_of_pid = pid_of(packet) == pid;
        if is_of_pid {
            met = met.saturating_add(1);
        }
        if !is_of_pid || met <= first || end < met {
            bytes.extend_from_slice(packet)?;
        }
    }
    Ok(bytes)
}

/// The sample stream 7 of 600 packets.
fn clear(alloc: Global) -> Result<Vec<u8>, AllocError> {
    let Ok(mut sink) = MemSink::new(alloc, SENT, SENT, Vec::new(alloc)) else {
        return Err(AllocError);
    };
    match sample(7, 600, &mut sink) {
        Ok(()) => Ok(sink.into_bytes()),
        Err(_) => Err(AllocError),
    }
}

/// What the receiver of leaf 0 makes of a broadcast of that stream without these packets.
fn heard(alloc: Global, site: &str, book: &str, lost: Lost) -> Result<(Ending, Vec<u8>), Fail> {
    let (site, book) = (site.as_bytes(), book.as_bytes());
    let clear = clear(alloc)?;
    let stream = broadcast(alloc, site, book, clear, SENT).ok_or("no broadcast")?;
    let stream = left(alloc, &stream, lost)?;
    Ok(received(alloc, site, 0, stream, SENT).ok_or("refused")?)
}

/// The site, the book, the packets that are lost, the ending, how many packets are written, and their SHA-256.
type Row = (
    &'static str,
    &'static str,
    Lost,
    Ending,
    usize,
    &'static str,
);

static ROWS: [Row; 9] = [
    // The 21st to the 35th packet of a PID, which leaves no gap of more than 16 positions; the 36th too.
    (
        FIRST,
        "",
        (0x0100, 20, 35),
        Ending::Gaps(15),
        585,
        "d14bf539110e8de58b790eb15b5c7e7315e180008f1d6e65472e2b551d63bcd7",
    ),
    (
        FIRST,
        "",
        (0x0100, 20, 36),
        Ending::Gaps(144),
        456,
        "3760588bc07cc7e3df3980e4f8fcee476cd2f3d32d82b4af4b09ce39826137ff",
    ),
    // The closing message; the second message.
    (
        FIRST,
        BOOK,
        (497, 3, 4),
        Ending::Unclosed(3),
        400,
        "65ca572549de292daf9c613e29bc7ad9e780f7b3e494dfc9888ca7755825d598",
    ),
    (
        FIRST,
        BOOK,
        (497, 1, 2),
        Ending::Gaps(400),
        200,
        "0d0a398f714ccae236346543b9c9e5fea592ba6300e2491e83e498933ca2cb66",
    ),
    // The first entitlements, which come again; all of them; the CAT.
    (
        FIRST,
        "",
        (496, 0, 1),
        Ending::Gaps(400),
        200,
        "0d0a398f714ccae236346543b9c9e5fea592ba6300e2491e83e498933ca2cb66",
    ),
    (
        FIRST,
        BOOK,
        (496, 0, 2),
        Ending::Unheard(0),
        0,
        "e3b0c44298fc1c149afbf4c8996fb92427ae41e4649b934ca495991b7852b855",
    ),
    (
        FIRST,
        BOOK,
        (1, 0, 2),
        Ending::NoCat,
        0,
        "e3b0c44298fc1c149afbf4c8996fb92427ae41e4649b934ca495991b7852b855",
    ),
    // The second message, in version 2, under whose control word the packets before it stand too; the third.
    (
        SECOND,
        BOOK,
        (497, 1, 2),
        Ending::Opened,
        600,
        "39e4911fdc85d39badb8425a8e2872ba38825ef329e6196af2b266d11fb3634c",
    ),
    (
        SECOND,
        BOOK,
        (497, 2, 3),
        Ending::Gaps(400),
        200,
        "cc8f355dd52654098b1d7a22ca41550573aec6fd0b5e7637d70aad7b366261d7",
    ),
];

/// Whether the receiver of leaf 0 makes of the broadcast what the row says.
fn is_due(alloc: Global, row: Row) -> Result<bool, Fail> {
    let (site, book, lost, ending, count, digest) = row;
    let (told, out) = heard(alloc, site, book, lost)?;
    let due = <[u8; 32]>::from_hex(digest).or(Err("no hash"))?;
    Ok(told == ending && out.len() == count.saturating_mul(188) && Sha256::digest(&out) == due)
}

#[test]
fn losses_are_answered_as_worked(rt: HostRuntime) -> Result<(), Fail> {
    for (place, row) in ROWS.iter().enumerate() {
        assert!(rt; is_due(rt.alloc(), *row)?, "row {place}");
    }
    Ok(())
}

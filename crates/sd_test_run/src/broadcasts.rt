use crate::leaving::uncounted;
use hex::FromHex;
use sd_command_base::Status;
use sd_ports::MemSink;
use sd_ports_memory::MemDepot;
use sd_test_texts::{BOOK, SITE, site, site_start};
use sha2::{Digest, Sha256};
use std::alloc::{AllocError, Global};

/// The number of bytes of a packet.
pub(crate) const PACKET: usize = 188;

/// The commands of three broadcasts of version 3, of 600 clear packets each, with control words of their own.
pub(crate) const FIRST: &str = "head site-first empty clear-7 first";

pub(crate) const SECOND: &str = "head site-second empty clear-8 second";

pub(crate) const THIRD: &str = "head site-third empty clear-9 third";

/// The command of the second broadcast under a book that revokes leaf 5.
pub(crate) const SECOND_REVOKING: &str = "head site-second book clear-8 second-revoking";

/// The commands of two broadcasts of version 2, with the clear streams and the control words of the first two.
pub(crate) const OLDER_FIRST: &str = "head site-older-first empty clear-7 older-first";

pub(crate) const OLDER_SECOND: &str = "head site-older-second empty clear-8 older-second";

/// The commands of two broadcasts of 4,200 clear packets, whose second ECM is behind 4,096 of them.
pub(crate) static LONG: [&str; 4] = [
    "sample 7 4200 long-clear-7",
    "sample 8 4200 long-clear-8",
    "head site-long-first empty long-clear-7 long-first",
    "head site-long-second empty long-clear-8 long-second",
];

// The sites by their names: that of the cards, one that is refused, those of the broadcasts, and two with a message
// before each 4,096th packet. Then the books.
static TEXTS: [(&str, &str); 11] = [
    ("site", SITE),
    ("site-version-4", site!("messages 4\n")),
    (
        "site-first",
        site!("messages 3\nfirst-word 0\nlast-word 1\nfirst-period 0\n"),
    ),
    (
        "site-second",
        site!("messages 3\nfirst-word 2\nlast-word 3\nfirst-period 1\n"),
    ),
    (
        "site-third",
        site!("messages 3\nfirst-word 4\nlast-word 5\nfirst-period 1\n"),
    ),
    (
        "site-older-first",
        site!("messages 2\nfirst-word 0\nlast-word 1\nfirst-period 0\n"),
    ),
    (
        "site-older-second",
        site!("messages 2\nfirst-word 2\nlast-word 3\nfirst-period 1\n"),
    ),
    (
        "site-long-first",
        site_start!(
            "ecm-every 4096\ncrypto-ecms 1\nperiod-cryptos 1\n",
            "messages 3\nfirst-word 0\nlast-word 9\nfirst-period 0\n"
        ),
    ),
    (
        "site-long-second",
        site_start!(
            "ecm-every 4096\ncrypto-ecms 1\nperiod-cryptos 1\n",
            "messages 3\nfirst-word 10\nlast-word 19\nfirst-period 0\n"
        ),
    ),
    ("empty", ""),
    ("book", BOOK),
];

// The clear streams and the cards of the leaves 0 and 5.
static MADE: [&str; 5] = [
    "sample 7 600 clear-7",
    "sample 8 600 clear-8",
    "sample 9 600 clear-9",
    "card site 0 card-0",
    "card site 5 card-5",
];

/// The room for a file, and how many bytes are read and written at a time.
const ROOM: usize = 900_000;

const PIECE: usize = 65_536;

/// A file system with the sites, the books, the clear streams, the cards and what these commands make.
pub(crate) fn shelf(alloc: Global, heads: &[&str]) -> Result<MemDepot, AllocError> {
    let Ok(mut depot) = MemDepot::new(alloc, ROOM, PIECE) else {
        return Err(AllocError);
    };
    fill(alloc, &mut depot, heads)?;
    Ok(depot)
}

/// Adds all of this to an empty one.
fn fill(alloc: Global, depot: &mut MemDepot, heads: &[&str]) -> Result<(), AllocError> {
    for (name, text) in &TEXTS {
        put(depot, name, Vec::from_slice(alloc, text.as_bytes())?)?;
    }
    for words in &MADE {
        answered(alloc, depot, words)?;
    }
    for words in heads {
        answered(alloc, depot, words)?;
    }
    Ok(())
}

/// Adds a file.
pub(crate) fn put(depot: &mut MemDepot, name: &str, bytes: Vec<u8>) -> Result<(), AllocError> {
    depot.put(name, bytes).or(Err(AllocError))
}

/// The words of a text.
fn list_of(alloc: Global, words: &str) -> Result<Vec<String>, AllocError> {
    let mut list = Vec::new(alloc);
    for word in words.split(' ') {
        list.push(String::from_str(alloc, word)?)?;
    }
    Ok(list)
}

/// The status of these arguments and what is printed.
pub(crate) fn answered(
    alloc: Global,
    depot: &mut MemDepot,
    words: &str,
) -> Result<(Status, Vec<u8>), AllocError> {
    let list = list_of(alloc, words)?;
    let Ok(mut print) = MemSink::new(alloc, PIECE, PIECE, Vec::new(alloc)) else {
        return Err(AllocError);
    };
    let status = uncounted(alloc, &list, depot, &mut print);
    Ok((status, print.into_bytes()))
}

/// Whether the SHA-256 of these bytes begins with these 16.
pub(crate) fn has_digest(bytes: &[u8], digest: &str) -> bool {
    match <[u8; 16]>::from_hex(digest) {
        Ok(due) => Sha256::digest(bytes).starts_with(&due),
        Err(_) => false,
    }
}

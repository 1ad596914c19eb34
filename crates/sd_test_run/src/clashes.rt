use crate::session::{first_wrong, put, shelf};
use sd_ports_memory::MemDepot;
use sd_test_texts::{BOOK, site};
use std::alloc::{AllocError, Global};

/// The site of the first ten control words.
const FIRST_TEN: &str = site!("messages 1\nfirst-word 0\nlast-word 9\nfirst-period 0\n");

// Sites that don't go with it, or with one another.
static SITES: [(&str, &str); 6] = [
    (
        "higher",
        "height 4
master 100102030405060708090a0b0c0d0e0f101112131415161718191a1b1c1d1e1f
ca 1234
emm 496
ecm 497
ecm-every 200
crypto-ecms 2
period-cryptos 1
messages 1
first-word 9
last-word 8
first-period 0
",
    ),
    (
        "foreign",
        "height 3
master ff0102030405060708090a0b0c0d0e0f101112131415161718191a1b1c1d1e1f
ca 1234
emm 496
ecm 497
ecm-every 200
crypto-ecms 2
period-cryptos 1
messages 1
first-word 9
last-word 8
first-period 0
",
    ),
    (
        "wordless",
        site!("messages 1\nfirst-word 9\nlast-word 8\nfirst-period 0\n"),
    ),
    (
        "backward",
        site!("messages 1\nfirst-word 4294967295\nlast-word 0\nfirst-period 0\n"),
    ),
    (
        "first",
        site!("messages 1\nfirst-word 0\nlast-word 999\nfirst-period 0\n"),
    ),
    (
        "second",
        site!("messages 2\nfirst-word 1000\nlast-word 1999\nfirst-period 0\n"),
    ),
];

const BOOKS: &str = "
$ empty
$ forgotten
period
";

// Of two sites with their books, the first thing that keeps them apart.
const CLASHES: &str = "
$ apart site empty higher empty | 18
sites have two heights
$ apart site empty foreign empty | 18
sites have two masters
$ apart wordless empty wordless empty | 18
site 1 has no control word
$ apart site empty backward empty | 18
site 2 has no control word
$ apart first book first book | 18
sites share control word 0
$ apart first book second forgotten | 18
books disagree on receiver 5 in period 1
";

/// The sites and books.
fn pairs(alloc: Global) -> Result<MemDepot, AllocError> {
    let mut depot = shelf(alloc, FIRST_TEN, BOOK, BOOKS, "")?;
    for (name, site) in &SITES {
        put(alloc, &mut depot, name, site)?;
    }
    Ok(depot)
}

#[test]
fn clashes_are_told_by_name(rt: HostRuntime) -> Result<(), AllocError> {
    let mut depot = pairs(rt.alloc())?;
    let wrong = first_wrong(rt.alloc(), &mut depot, CLASHES)?;
    assert!(rt; wrong.is_empty(), "{wrong}");
    Ok(())
}

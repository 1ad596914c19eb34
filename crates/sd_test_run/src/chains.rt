use crate::session::{file, first_wrong, follow, put, shelf};
use sd_ports_memory::MemDepot;
use sd_test_texts::site_start;
use std::alloc::{AllocError, Global};

/// A first site, of which a chain is made: a message before each 20th packet, and no control word.
const FIRST: &str = site_start!(
    "ecm-every 20\ncrypto-ecms 2\nperiod-cryptos 1\n",
    "messages 3\nfirst-word 1\nlast-word 0\nfirst-period 0\n"
);

// The book as it grows.
const BOOKS: &str = "
$ none
$ first
revoke 5
$ planned
revoke 5
period
period
period
period
revoke 2
$ torn
revoke 5
revoke 2";

const STREAMS: &str = "sample 7 130 clear
sample 8 90 more
card site-0.txt 0 card-0
card site-0.txt 2 card-2
card site-0.txt 5 card-5
";

// A chain of six sites: commands, their exits, the SHA-256 of their last argument's file and what they print.
const CHAIN: &str = "
$ next site-0.txt none 1000 site-1.txt | 0 | 75ac9e1d00cda48f
period 1 packet 0 revoked 0
$ next site-0.txt first 1000 site-1.txt | 19 | 75ac9e1d00cda48f
file word 4 is there
$ twin site-1.txt 500 site-3.txt | 19
file word 3 does not follow file word 1
$ next site-1.txt none 4294966296 site-2.txt | 17
word 3 is out of range
$ twin site-1.txt 4294966296 site-2.txt | 17
word 2 is out of range
$ twin site-1.txt 500 site-2.txt | 0 | 9e4a612bcb53447c
$ next site-2.txt torn 1000 site-3.txt | 7
word 2 line 2 is refused
$ next site-2.txt first 1000 site-3.txt | 0 | 524a8f3a0f585e92
period 2 packet 0 revoked 1
revoke 5
$ twin site-3.txt 1 site-4.txt | 0 | d2f906d062e029a4
$ next site-4.txt none 3 site-5.txt | 21
book is not that of the site
$ next site-4.txt first 3 site-5.txt | 0 | f918d5fe80962674
period 3 packet 0 revoked 1
$ next site-5.txt planned 1000 site-6.txt | 0 | 8969a7ee9e785b10
period 4 packet 0 revoked 2
revoke 2
$ twin site-0.txt 500 site-1.txt | 6 | 75ac9e1d00cda48f
site is short
";

// What goes on air with it: a broadcast with the book of its site, none with another one, and nothing with the first
// site, not even a closing message.
const SENT: &str = "
$ head site-0.txt none clear air-0 | 9 | e3b0c44298fc1c14
clear packet 0: too long
$ head site-0.txt none none air-0 | 9 | e3b0c44298fc1c14
clear packet 0: too long
$ head site-1.txt none clear air-1 | 0 | 836421a30d2976d0
$ head site-2.txt none more air-2 | 0 | 8d1a903ac91e0a91
$ head site-3.txt first more air-3 | 0 | bda8cb168a096e22
$ head site-3.txt none more air-4 | 21 | e3b0c44298fc1c14
book is not that of the site
$ head site-3.txt planned more air-4 | 21 | e3b0c44298fc1c14
book is not that of the site
$ head site-6.txt planned clear air-6 | 0 | 8c346014859dfb56
";

// What three receivers write of the first three broadcasts, one after the other.
const RECEIVED: &str = "
$ receive card-0 air seen | 0 | 1738ff2482e7318b
$ receive card-2 air seen | 0 | 1738ff2482e7318b
$ receive card-5 air seen | 3 | 57e5c23ef2d5a93a
receiver 5 is revoked in period 2
";

/// The first site, the books and the streams.
fn begun(alloc: Global) -> Result<MemDepot, AllocError> {
    let mut depot = shelf(alloc, "", "", BOOKS, "")?;
    put(alloc, &mut depot, "site-0.txt", FIRST)?;
    follow(alloc, &mut depot, STREAMS)?;
    Ok(depot)
}

#[test]
fn a_chain_is_made_and_sent(rt: HostRuntime) -> Result<(), AllocError> {
    let alloc = rt.alloc();
    let mut depot = begun(alloc)?;
    assert_eq!(rt; first_wrong(alloc, &mut depot, CHAIN)?, "");
    assert_eq!(rt; first_wrong(alloc, &mut depot, SENT)?, "");
    let mut air = file(alloc, &depot, "air-1")?;
    air.extend_from_slice(&file(alloc, &depot, "air-2")?)?;
    air.extend_from_slice(&file(alloc, &depot, "air-3")?)?;
    depot.put("air", air).map_err(|_| AllocError)?;
    assert_eq!(rt; first_wrong(alloc, &mut depot, RECEIVED)?, "");
    Ok(())
}

/// How many bytes are written at a time into a site that is torn, and how many writes make one of 275 bytes.
const PIECE: usize = 25;

const WRITES: u32 = 11;

/// The site of which so many whole pieces were written before the device failed.
fn torn_site(alloc: Global, pieces: u32) -> Result<Vec<u8>, AllocError> {
    let mut depot = MemDepot::new(alloc, 4096, PIECE).map_err(|_| AllocError)?;
    put(alloc, &mut depot, "site-0.txt", FIRST)?;
    put(alloc, &mut depot, "none", "")?;
    depot.fail_port(String::from_str(alloc, "site-1.txt")?, pieces);
    follow(alloc, &mut depot, "next site-0.txt none 1000 site-1.txt")?;
    file(alloc, &depot, "site-1.txt")
}

/// Whether neither `next` nor `twin` makes a site from this one.
fn is_the_end(alloc: Global, site: Vec<u8>) -> Result<bool, AllocError> {
    let mut depot = begun(alloc)?;
    depot.put("site-1.txt", site).map_err(|_| AllocError)?;
    follow(
        alloc,
        &mut depot,
        "next site-1.txt none 1 site-2.txt\ntwin site-1.txt 1 site-2.txt",
    )?;
    Ok(depot.get("site-2.txt").is_none())
}

#[test]
fn no_site_is_made_from_a_torn_one(rt: HostRuntime) -> Result<(), AllocError> {
    let alloc = rt.alloc();
    for pieces in 0..WRITES {
        let site = torn_site(alloc, pieces)?;
        assert_eq!(rt; site.len(), (pieces as usize).wrapping_mul(PIECE));
        assert!(rt; is_the_end(alloc, site)?, "{pieces}");
    }
    let whole = torn_site(alloc, WRITES)?;
    assert!(rt; !is_the_end(alloc, whole)?);
    Ok(())
}

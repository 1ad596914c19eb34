use crate::session::{first_wrong, put, shelf};
use sd_ports_memory::MemDepot;
use sd_test_texts::site_start;
use std::alloc::{AllocError, Global};

/// A site of a chain, and the sites of one control word, of none, of another version and without its book.
const SITE: &str = site_start!(
    "ecm-every 5\ncrypto-ecms 2\nperiod-cryptos 2\n",
    "messages 3\nfirst-word 1\nlast-word 1000\nfirst-period 1\n",
    "book 9 6f9bcba246f1b1111468612997267f34a301cea06b9a2f774c1a151db30e6cf1\n"
);

const ONE_WORD: &str = site_start!(
    "ecm-every 5\ncrypto-ecms 2\nperiod-cryptos 2\n",
    "messages 3\nfirst-word 7\nlast-word 7\nfirst-period 1\n",
    "book 9 6f9bcba246f1b1111468612997267f34a301cea06b9a2f774c1a151db30e6cf1\n"
);

const NO_WORD: &str = site_start!(
    "ecm-every 5\ncrypto-ecms 2\nperiod-cryptos 2\n",
    "messages 3\nfirst-word 5\nlast-word 4\nfirst-period 1\n",
    "book 9 6f9bcba246f1b1111468612997267f34a301cea06b9a2f774c1a151db30e6cf1\n"
);

const OLDER: &str = site_start!(
    "ecm-every 5\ncrypto-ecms 2\nperiod-cryptos 2\n",
    "messages 2\nfirst-word 1\nlast-word 1000\nfirst-period 1\n",
    "book 9 6f9bcba246f1b1111468612997267f34a301cea06b9a2f774c1a151db30e6cf1\n"
);

const NO_BOOK: &str = site_start!(
    "ecm-every 5\ncrypto-ecms 2\nperiod-cryptos 2\n",
    "messages 3\nfirst-word 1\nlast-word 1000\nfirst-period 1\n"
);

static SITES: [(&str, &str); 9] = [
    ("site-1", SITE),
    ("site-2", SITE),
    ("site-3", SITE),
    ("site-4", SITE),
    ("site-5", SITE),
    ("one-word", ONE_WORD),
    ("no-word", NO_WORD),
    ("older", OLDER),
    ("no-book", NO_BOOK),
];

// A book that is longer than that of the site, and a stream without a byte.
const FILES: &str = "
$ longer
revoke 5
revoke 6
$ nothing
";

// What goes on air: a stream, none, and streams with a marked packet, with one on PID 1 and with a wrong sync byte.
const SENT: &str = r#"
$ air site-1 book clear sent | 0 | 0cc8048176a274ae
{"left":996,"marked":0,"packets":40,"pats":0,"period":1,"refused":0,"sent":40,"skipped":0,"word":4}
$ air site-2 book nothing sent | 0 | 6eb92dfa42810f13
{"left":999,"marked":0,"packets":0,"pats":0,"period":1,"refused":0,"sent":0,"skipped":0,"word":1}
$ air site-3 book marked sent | 0 | 0cc8048176a274ae | marked = clear 5=twice 1129=80
{"left":996,"marked":1,"packets":41,"pats":0,"period":1,"refused":0,"sent":40,"skipped":0,"word":4}
$ air site-4 book cat sent | 0 | 0cc8048176a274ae | cat = clear 0=twice 1=0001
{"first":"clear packet 0: pid 1 is taken","left":996,"marked":0,"packets":41,"pats":0,"period":1,"refused":1,"sent":40,"skipped":0,"word":4}
$ air site-5 book torn sent | 0 | 3346ab313db59eeb | torn = clear 1692=46
{"left":996,"marked":0,"packets":38,"pats":0,"period":1,"refused":0,"sent":38,"skipped":376,"word":4}
$ air one-word book more sent | 22 | a1248e5742875ece | more = clear 9=twice 9=twice 1881=0001 2069=80
{"first":"clear packet 10: pid 1 is taken","left":0,"marked":1,"packets":12,"pats":0,"period":1,"refused":1,"sent":10,"skipped":0,"word":7}
site is used up at packet 12
"#;

// What doesn't: a site that was used, no site of a chain, another book, and no stream.
const REFUSED: &str = "
$ air site-1 book clear none | 20 | e3b0c44298fc1c14
site is used
$ air no-book book clear none | 6 | e3b0c44298fc1c14
site is short
$ air older book clear none | 6 | e3b0c44298fc1c14
site line 9 is out of range
$ air no-word book clear none | 6 | e3b0c44298fc1c14
site line 11 is out of range
$ air spare longer clear none | 21 | e3b0c44298fc1c14 | spare = site-1
book is not that of the site
$ air spare book gone none | 2 | e3b0c44298fc1c14
missing file word 3
";

/// The sites, the books and the streams.
fn begun(alloc: Global) -> Result<MemDepot, AllocError> {
    let mut depot = shelf(alloc, "", "revoke 5\n", FILES, "sample 7 40 clear\n")?;
    for (name, text) in SITES {
        put(alloc, &mut depot, name, text)?;
    }
    Ok(depot)
}

#[test]
fn what_is_good_goes_on_air_with_a_site_that_is_not_used(
    rt: HostRuntime,
) -> Result<(), AllocError> {
    let alloc = rt.alloc();
    let mut depot = begun(alloc)?;
    assert_eq!(rt; first_wrong(alloc, &mut depot, SENT)?, "");
    assert_eq!(rt; first_wrong(alloc, &mut depot, REFUSED)?, "");
    for name in ["site-1.used", "site-5.used", "one-word.used"] {
        assert_eq!(rt; depot.get(name), Some(&[][..]), "{name}");
    }
    for name in ["no-book.used", "older.used", "spare.used", "none"] {
        assert!(rt; depot.get(name).is_none(), "{name}");
    }
    Ok(())
}

use crate::session::{add_changed, first_wrong, shelf};
use sd_ports_memory::MemDepot;
use sd_test_texts::{BOOK, site, site_start};
use std::alloc::{AllocError, Global};

/// The site of the broadcast of which packets are lost.
const LATER: &str = site!("messages 2\nfirst-word 7\nlast-word 8\nfirst-period 1\n");

// A site, and what commands do with it: the arguments, the exit, how the SHA-256 of the last argument's file begins
// after it, unless the command makes none, and what is printed.
static RUNS: [&str; 9] = [
    // Odd words first.
    site!(
        "messages 1
first-word 7
$ head site book clear sent | 0 | 8f0ccbfdd29b13ed
$ receive card-5 sent out | 3 | 65ca572549de292d
receiver 5 is revoked in period 1
$ receive card-0 sent out | 0 | 39e4911fdc85d39b
$ head site book clear-400 sent | 0 | 0871c5f8655010b1
"
    ),
    // The first period is the book's last.
    site!(
        "messages 2
first-word 7
last-word 8
first-period 1
$ head site book clear sent | 0 | 13cbf0c37e88f70f
$ receive card-5 sent out | 3 | e3b0c44298fc1c14
receiver 5 is revoked in period 1
$ receive card-0 sent out | 0 | 39e4911fdc85d39b
$ trial site book clear | 0
clear 600 broadcast 608
receiver 0 wrote 600 done
receiver 1 wrote 600 done
receiver 2 wrote 600 done
receiver 3 wrote 600 done
receiver 4 wrote 600 done
receiver 5 wrote 0 revoked 1
receiver 6 wrote 600 done
receiver 7 wrote 600 done
"
    ),
    // The first period is above the book's last; the greatest one; and with no packet.
    site!(
        "messages 2
first-word 2
last-word 4294967295
first-period 3
$ head site book clear sent | 0 | 1db0585efa1ebcb9
$ receive card-5 sent out | 3 | e3b0c44298fc1c14
receiver 5 is revoked in period 3
"
    ),
    site!(
        "messages 2
first-word 1
last-word 2
first-period 4294967295
$ head site book clear sent | 0 | 256dd0e36c3d162b
$ receive card-5 sent out | 3 | e3b0c44298fc1c14
receiver 5 is revoked in period 4294967295
$ receive card-0 sent out | 0 | 39e4911fdc85d39b
"
    ),
    site!(
        "messages 1
first-word 9
last-word 9
first-period 2
$ head site book empty sent | 0 | 45933b4a36edf7eb
$ receive card-5 sent out | 3 | e3b0c44298fc1c14
receiver 5 is revoked in period 2
$ receive card-0 sent out | 0 | e3b0c44298fc1c14
"
    ),
    // The last two of all words.
    site_start!(
        "ecm-every 1
crypto-ecms 1
period-cryptos 1
messages 1
first-word 4294967294
$ sample 7 2 short | 0 | 7503303d8ed4d577
$ head site empty short sent | 0 | 49d112fb4587ce28
$ receive card-0 sent out | 0 | 7503303d8ed4d577
$ trial site empty short | 0
clear 2 broadcast 9
receiver 0 wrote 2 done
receiver 1 wrote 2 done
receiver 2 wrote 2 done
receiver 3 wrote 2 done
receiver 4 wrote 2 done
receiver 5 wrote 2 done
receiver 6 wrote 2 done
receiver 7 wrote 2 done
$ sample 7 3 short | 0 | 3e68d36a18df2132
$ head site empty short sent | 9 | 357d8190e4548142
clear packet 2: too long
"
    ),
    // A range of one word; of two; of none.
    site!(
        "messages 1
first-word 7
last-word 7
$ head site book clear-400 sent | 0 | 0871c5f8655010b1
$ trial site book clear-400 | 0
clear 400 broadcast 405
receiver 0 wrote 400 done
receiver 1 wrote 400 done
receiver 2 wrote 400 done
receiver 3 wrote 400 done
receiver 4 wrote 400 done
receiver 5 wrote 400 done
receiver 6 wrote 400 done
receiver 7 wrote 400 done
$ head site book clear-401 sent | 9 | e192c50caea08bcd
clear packet 400: too long
$ trial site book clear-401 | 9
clear packet 400: too long
$ head site book scrambled sent | 9 | e192c50caea08bcd
clear packet 400: already scrambled
$ head site book torn sent | 9 | e192c50caea08bcd
clear packet 400: torn
"
    ),
    site!(
        "messages 1
first-word 7
last-word 8
$ head site book clear-401 sent | 0 | 02035c3571081f05
"
    ),
    site!(
        "messages 1
first-word 7
last-word 6
$ head site book clear-401 sent | 9 | e3b0c44298fc1c14
clear packet 0: too long
$ trial site book clear-401 | 9
clear packet 0: too long
$ head site book empty sent | 9 | e3b0c44298fc1c14
clear packet 0: too long
$ trial site book empty | 9
clear packet 0: too long
$ card site 5 card-5 | 0 | 877aa1ba3df1a649
$ cover site empty | 0
period 0 revoked 0 sets 1
all
"
    ),
];

// A broadcast, and what a receiver does with it if packets are lost, and which those are.
const LOSSES: &str = "
$ head site book clear sent | 0 | 13cbf0c37e88f70f
$ receive card-0 lossy out | 15 | 0d0a398f714ccae2 | lossy = sent 1=lost | the first entitlements
400 clear packets are missing
$ receive card-0 lossy out | 13 | e3b0c44298fc1c14 | lossy = sent 405=lost 1=lost | both
receiver 0 did not hear its entitlement for period 1
$ receive card-0 lossy out | 16 | e3b0c44298fc1c14 | lossy = sent 404=lost 0=lost | both CATs
no CAT for this card
$ receive card-0 lossy out | 0 | 39e4911fdc85d39b | lossy = sent 203=lost | the second control message
$ receive card-0 lossy out | 14 | 65ca572549de292d | lossy = sent 607=lost | the closing one
stream ends before message 3
$ receive card-5 lossy out | 3 | e3b0c44298fc1c14 | lossy = sent 1=lost
receiver 5 is revoked in period 1
";

// The clear streams and the cards.
const MADE: &str = "sample 7 600 clear
sample 7 400 clear-400
sample 7 401 clear-401
card site 0 card-0
card site 5 card-5
";

/// A file system with the site, a book, clear streams and cards.
fn stocked(alloc: Global, site: &str) -> Result<MemDepot, AllocError> {
    let mut depot = shelf(alloc, site, BOOK, "$ empty\n", MADE)?;
    add_changed(alloc, &mut depot, "scrambled = clear-401 75203=90")?;
    add_changed(alloc, &mut depot, "torn = clear-401 75201=cut")?;
    Ok(depot)
}

#[test]
fn words_and_periods_are_those_of_the_site(rt: HostRuntime) -> Result<(), AllocError> {
    for run in &RUNS {
        let site = run.split('$').next().unwrap_or("");
        let mut depot = stocked(rt.alloc(), site)?;
        let wrong = first_wrong(rt.alloc(), &mut depot, run)?;
        assert!(rt; wrong.is_empty(), "{wrong}");
    }
    Ok(())
}

#[test]
fn losses_of_a_later_run_are_counted(rt: HostRuntime) -> Result<(), AllocError> {
    let mut depot = stocked(rt.alloc(), LATER)?;
    let wrong = first_wrong(rt.alloc(), &mut depot, LOSSES)?;
    assert!(rt; wrong.is_empty(), "{wrong}");
    Ok(())
}

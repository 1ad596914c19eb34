use crate::session::{first_wrong, follow, put, shelf};
use crate::several::{Run, run_of, two_time_pads};
use sd_ports_memory::MemDepot;
use sd_test_texts::{BOOK, site};
use std::alloc::{AllocError, Global};

// The sites of two multiplexes, on the first day and on the second, which are made by hand.
static SITES: [(&str, &str); 4] = [
    (
        "site-1",
        site!("messages 3\nfirst-word 0\nlast-word 999\nfirst-period 0\n"),
    ),
    (
        "site-2",
        site!("messages 3\nfirst-word 1000\nlast-word 1999\nfirst-period 0\n"),
    ),
    (
        "site-3",
        site!("messages 3\nfirst-word 2000\nlast-word 2999\nfirst-period 2\n"),
    ),
    (
        "site-4",
        site!("messages 3\nfirst-word 3000\nlast-word 3999\nfirst-period 2\n"),
    ),
];

// In the second period of the first day receiver 5 is revoked, and before the second day receiver 2.
const STEPS: &str = "card site-1 5 card-ann
card site-1 2 card-bob
card site-1 0 card-carol
sample 7 600 clear-1
sample 8 600 clear-2
sample 11 600 clear-3
sample 12 600 clear-4
head site-1 book clear-1 sent-1
head site-2 book clear-2 sent-2
book site-1 book today longer
head site-3 longer clear-3 sent-3
head site-4 longer clear-4 sent-4
";

// Commands, their exits, how many of the first packets of a clear stream they write, and what they print.
const RECEIVED: &str = "
$ receive card-ann sent-1 out | 3 | clear-1 400
receiver 5 is revoked in period 1
$ receive card-ann sent-2 out | 3 | clear-2 400
receiver 5 is revoked in period 1
$ receive card-ann sent-3 out | 3 | clear-3 0
receiver 5 is revoked in period 2
$ receive card-ann sent-4 out | 3 | clear-4 0
receiver 5 is revoked in period 2
$ receive card-bob sent-1 out | 0 | clear-1 600
$ receive card-bob sent-2 out | 0 | clear-2 600
$ receive card-bob sent-3 out | 3 | clear-3 0
receiver 2 is revoked in period 2
$ receive card-bob sent-4 out | 3 | clear-4 0
receiver 2 is revoked in period 2
$ receive card-carol sent-1 out | 0 | clear-1 600
$ receive card-carol sent-2 out | 0 | clear-2 600
$ receive card-carol sent-3 out | 0 | clear-3 600
$ receive card-carol sent-4 out | 0 | clear-4 600
";

/// The broadcasts of both days, with all that they are made from.
fn two_days(alloc: Global) -> Result<MemDepot, AllocError> {
    let mut depot = shelf(alloc, "", BOOK, "$ today\nrevoke 2\n", "")?;
    for (name, site) in &SITES {
        put(alloc, &mut depot, name, site)?;
    }
    follow(alloc, &mut depot, STEPS)?;
    Ok(depot)
}

// The clear streams and their broadcasts.
const SENT: &str = "clear-1 sent-1
clear-2 sent-2
clear-3 sent-3
clear-4 sent-4
";

/// The runs of both days.
fn runs(alloc: Global, depot: &MemDepot) -> Result<Vec<Run>, AllocError> {
    let mut runs = Vec::new(alloc);
    for names in SENT.lines() {
        let (clear, sent) = names.split_once(' ').ok_or(AllocError)?;
        runs.push(run_of(alloc, depot, clear, sent)?)?;
    }
    Ok(runs)
}

/// How many packets of two of these broadcasts lie under one keystream.
fn shared(runs: &[Run]) -> Option<usize> {
    let mut count = 0usize;
    for (place, two) in runs.iter().enumerate() {
        for one in runs.iter().take(place) {
            count = count.wrapping_add(two_time_pads(one, two)?);
        }
    }
    Some(count)
}

#[test]
fn two_multiplexes_are_on_air_on_two_days(rt: HostRuntime) -> Result<(), AllocError> {
    let alloc = rt.alloc();
    let mut depot = two_days(alloc)?;
    let wrong = first_wrong(alloc, &mut depot, RECEIVED)?;
    assert!(rt; wrong.is_empty(), "{wrong}");
    assert!(rt; shared(&runs(alloc, &depot)?) == Some(0));
    Ok(())
}

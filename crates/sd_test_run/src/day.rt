use crate::changes::PACKET;
use crate::session::{first_wrong, shelf};
use sd_ports_memory::MemDepot;
use sd_test_texts::SITE;
use std::alloc::{AllocError, Global};

// The files of examples/: accounts.txt, pooled.txt and pair.txt.
const FILES: &str = "
$ accounts
assign ann 5
assign bob 2
period
drop ann
$ pooled
5
$ pair
1
6
";

/// How many packets are clear, and of them of period 0.
const CLEAR: usize = 600;

const FIRST: usize = 400;

// The commands of the day, the exit of each, and what it prints.
const STEPS: &str = r#"
$ accounts site accounts book | 0
{"accounts":[{"active":false,"leaf":5,"name":"ann"},{"active":true,"leaf":2,"name":"bob"}],"height":3,"period":1}
$ cover site book | 0
period 0 revoked 0 sets 1
all
period 1 revoked 1 sets 1
1 13
$ card site 5 card-ann | 0
$ card site 2 card-bob | 0
$ sample 7 600 clear | 0
$ head site book clear broadcast | 0
$ receive card-bob broadcast bob | 0
$ receive card-ann broadcast ann | 3
receiver 5 is revoked in period 1
"#;

#[test]
fn a_day_goes_as_told(rt: HostRuntime) -> Result<(), AllocError> {
    let alloc = rt.alloc();
    let mut depot = shelf(alloc, SITE, "", FILES, "")?;
    let wrong = first_wrong(alloc, &mut depot, STEPS)?;
    assert!(rt; wrong.is_empty(), "{wrong}");
    assert!(rt; are_written(&depot));
    Ok(())
}

/// Whether bob wrote all clear packets, and ann those of period 0.
fn are_written(depot: &MemDepot) -> bool {
    let (Some(clear), Some(bob), Some(ann)) = (
        depot.get("clear"),
        depot.get("bob"),
        depot.get("ann"),
    ) else {
        return false;
    };
    clear.len() == CLEAR * PACKET && bob == clear && clear.get(..FIRST * PACKET) == Some(ann)
}

// The commands up to the broadcast.
const MADE: &str = "accounts site accounts book
card site 2 card-bob
sample 7 600 clear
head site book clear broadcast
";

// The packet of the broadcast that is lost is the one of clear packet 7, after a CAT, a section and a message.
const LOSS: &str = "
$ receive card-bob lossy bob | 15 | | lossy = broadcast 10=lost
1 clear packets are missing
";

#[test]
fn a_lost_packet_is_counted(rt: HostRuntime) -> Result<(), AllocError> {
    let mut depot = shelf(rt.alloc(), SITE, "", FILES, MADE)?;
    let wrong = first_wrong(rt.alloc(), &mut depot, LOSS)?;
    assert!(rt; wrong.is_empty(), "{wrong}");
    Ok(())
}

// The commands against pirates, and what each prints. Card 5 opens the set of all, and not S(1,13), the leaves that
// aren't its own. The last period's cover is S(1,13), and leaf 1 is three cuts below it: S(1,3), S(2,5), S(4,8). Then
// the cover is S(2,9) and S(3,13): of the two the second opens, and leaf 6 is two cuts below it: S(3,6), S(7,15). With
// 600 packets there are four control messages, two CATs and a section for each of the two periods.
const HUNTS: &str = "
$ opens site book pooled | 0
period 0 revoked 0 sets 1
all open
period 1 revoked 1 sets 1
1 13 shut
$ trace site book pair | 0
leaf 1 trials 4 splits 3
leaf 6 trials 4 splits 2
silent trials 1
$ trial site book clear | 0
clear 600 broadcast 608
receiver 0 wrote 600 done
receiver 1 wrote 600 done
receiver 2 wrote 600 done
receiver 3 wrote 600 done
receiver 4 wrote 600 done
receiver 5 wrote 400 revoked 1
receiver 6 wrote 600 done
receiver 7 wrote 600 done
";

#[test]
fn pirates_are_found(rt: HostRuntime) -> Result<(), AllocError> {
    let steps = "accounts site accounts book\nsample 7 600 clear\n";
    let mut depot = shelf(rt.alloc(), SITE, "", FILES, steps)?;
    let wrong = first_wrong(rt.alloc(), &mut depot, HUNTS)?;
    assert!(rt; wrong.is_empty(), "{wrong}");
    Ok(())
}

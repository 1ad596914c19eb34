use crate::broadcasts::{
    FIRST, LONG, OLDER_FIRST, OLDER_SECOND, SECOND, SECOND_REVOKING, THIRD, has_digest, shelf,
};
use crate::receptions::{Row, is_due};
use sd_ports_memory::MemDepot;
use std::alloc::{AllocError, Global};

// Whole broadcasts of version 3 one behind the other.
static WHOLE: [Row; 4] = [
    Row {
        stream: "first second",
        card: "card-0",
        exit: 0,
        line: "",
        packets: 1200,
        clear: "clear-7 clear-8",
        digest: "5990ffa2d2757bdea54bfc9384c19eab",
    },
    Row {
        stream: "first second third",
        card: "card-0",
        exit: 0,
        line: "",
        packets: 1800,
        clear: "",
        digest: "e8b2fbf995ac6ee0dc10bd0c4a34d9ad",
    },
    Row {
        stream: "third first second",
        card: "card-0",
        exit: 0,
        line: "",
        packets: 1800,
        clear: "clear-9 clear-7 clear-8",
        digest: "71c7533cf3e2ccdaa1460cf4c5310ba3",
    },
    Row {
        stream: "first third",
        card: "card-0",
        exit: 0,
        line: "",
        packets: 1200,
        clear: "clear-7 clear-9",
        digest: "",
    },
];

// Broadcasts of version 2 one behind the other, and one of version 3 behind one of version 2.
static OLDER: [Row; 2] = [
    Row {
        stream: "older-first older-second",
        card: "card-0",
        exit: 0,
        line: "",
        packets: 600,
        clear: "clear-7",
        digest: "",
    },
    Row {
        stream: "older-first second",
        card: "card-0",
        exit: 0,
        line: "",
        packets: 1200,
        clear: "clear-7 clear-8",
        digest: "",
    },
];

// A broadcast that broke off, with the next one behind it: of version 3, of version 2, and of version 3 where the
// first packets of the next one are lost too.
static BROKEN: [Row; 4] = [
    Row {
        stream: "first/607-607 second",
        card: "card-0",
        exit: 14,
        line: "stream ends before message 3\n",
        packets: 1000,
        clear: "clear-7/400-599 clear-8",
        digest: "7434050c25bc53ab07f2a1259a1d6af1",
    },
    Row {
        stream: "first/300-607 second",
        card: "card-0",
        exit: 14,
        line: "stream ends before message 2\n",
        packets: 800,
        clear: "clear-7/200-599 clear-8",
        digest: "7c118e9fdc6989774a6dfa34320ed540",
    },
    Row {
        stream: "older-first/300-607 older-second",
        card: "card-0",
        exit: 15,
        line: "185 clear packets are missing\n",
        packets: 415,
        clear: "",
        digest: "",
    },
    Row {
        stream: "first/300-607 second/0-100",
        card: "card-0",
        exit: 14,
        line: "stream ends before message 2\n",
        packets: 400,
        clear: "",
        digest: "70ca7e3b44c6aa2c23f304b30323ab6c",
    },
];

// A receiver that is revoked in the second broadcast or in the first, and one that is revoked in none.
static REVOKED: [Row; 3] = [
    Row {
        stream: "first second-revoking",
        card: "card-5",
        exit: 3,
        line: "receiver 5 is revoked in period 1\n",
        packets: 600,
        clear: "clear-7",
        digest: "",
    },
    Row {
        stream: "first second-revoking",
        card: "card-0",
        exit: 0,
        line: "",
        packets: 1200,
        clear: "clear-7 clear-8",
        digest: "",
    },
    Row {
        stream: "second-revoking third",
        card: "card-5",
        exit: 3,
        line: "receiver 5 is revoked in period 1\n",
        packets: 600,
        clear: "clear-9",
        digest: "",
    },
];

// Entitlements that are lost: the first of a broadcast, and all of a broadcast between two others. Then control
// messages and packets of two broadcasts, whose gaps add up.
static LOSSES: [Row; 3] = [
    Row {
        stream: "first second/1-1",
        card: "card-0",
        exit: 15,
        line: "400 clear packets are missing\n",
        packets: 800,
        clear: "clear-7 clear-8/0-399",
        digest: "1561255740d23714ca38b4e5cc20c549",
    },
    Row {
        stream: "first second/1-1/405-405 third",
        card: "card-0",
        exit: 13,
        line: "receiver 0 did not hear its entitlement for period 1\n",
        packets: 1200,
        clear: "clear-7 clear-9",
        digest: "",
    },
    Row {
        stream: "first/203-223 second/3-23 third",
        card: "card-0",
        exit: 15,
        line: "41 clear packets are missing\n",
        packets: 1759,
        clear: "",
        digest: "18f441844619637c76764966c0022e24",
    },
];

// How the SHA-256 of the two long broadcasts begins.
static SENT: [(&str, &str); 2] = [
    ("long-first", "f27b3d1c8e0af6427d2ede23d8095ac9"),
    ("long-second", "2b88b0270570a8a136dd3095b97feb40"),
];

// A broadcast that broke off shortly before its second control message, with another one behind it: whole, and without
// its CAT, its entitlements and its first control message, so that more packets are held than a receiver keeps.
static HELD: [Row; 2] = [
    Row {
        stream: "long-first/4090-9999 long-second",
        card: "card-0",
        exit: 14,
        line: "stream ends before message 1\n",
        packets: 4200,
        clear: "long-clear-8",
        digest: "",
    },
    Row {
        stream: "long-first/4090-9999 long-second/0-2",
        card: "card-0",
        exit: 14,
        line: "stream ends before message 1\n",
        packets: 104,
        clear: "",
        digest: "",
    },
];

/// The stream of the first row of which a receiver makes something else than it says.
fn wrong_row(
    alloc: Global,
    depot: &mut MemDepot,
    rows: &'static [Row],
) -> Result<Option<&'static str>, AllocError> {
    for row in rows {
        if !is_due(alloc, depot, row)? {
            return Ok(Some(row.stream));
        }
    }
    Ok(None)
}

/// The stream of the first wrong row over the broadcasts of these commands.
fn first_wrong(
    alloc: Global,
    heads: &[&str],
    rows: &'static [Row],
) -> Result<Option<&'static str>, AllocError> {
    let mut depot = shelf(alloc, heads)?;
    wrong_row(alloc, &mut depot, rows)
}

#[test]
fn whole_broadcasts_are_written_in_any_order(rt: HostRuntime) -> Result<(), AllocError> {
    let wrong = first_wrong(rt.alloc(), &[FIRST, SECOND, THIRD], &WHOLE)?;
    assert!(rt; wrong.is_none(), "{wrong:?}");
    Ok(())
}

#[test]
fn only_version_3_names_its_broadcast(rt: HostRuntime) -> Result<(), AllocError> {
    let wrong = first_wrong(rt.alloc(), &[OLDER_FIRST, OLDER_SECOND, SECOND], &OLDER)?;
    assert!(rt; wrong.is_none(), "{wrong:?}");
    Ok(())
}

#[test]
fn broadcasts_that_broke_off_end_at_the_next(rt: HostRuntime) -> Result<(), AllocError> {
    let wrong = first_wrong(
        rt.alloc(),
        &[FIRST, SECOND, OLDER_FIRST, OLDER_SECOND],
        &BROKEN,
    )?;
    assert!(rt; wrong.is_none(), "{wrong:?}");
    Ok(())
}

#[test]
fn revocations_are_those_of_each_broadcast(rt: HostRuntime) -> Result<(), AllocError> {
    let wrong = first_wrong(rt.alloc(), &[FIRST, SECOND_REVOKING, THIRD], &REVOKED)?;
    assert!(rt; wrong.is_none(), "{wrong:?}");
    Ok(())
}

#[test]
fn losses_cost_their_own_broadcast_alone(rt: HostRuntime) -> Result<(), AllocError> {
    let wrong = first_wrong(rt.alloc(), &[FIRST, SECOND, THIRD], &LOSSES)?;
    assert!(rt; wrong.is_none(), "{wrong:?}");
    Ok(())
}

/// The first of the two long broadcasts that has another digest.
fn wrong_sent(depot: &MemDepot) -> Option<&'static str> {
    for (name, digest) in &SENT {
        if !has_digest(depot.get(name).unwrap_or(&[]), digest) {
            return Some(*name);
        }
    }
    None
}

/// The first wrong one of the long broadcasts, or else the stream of the first wrong row over them.
fn wrong_held(alloc: Global) -> Result<Option<&'static str>, AllocError> {
    let mut depot = shelf(alloc, &LONG)?;
    match wrong_sent(&depot) {
        Some(name) => Ok(Some(name)),
        None => wrong_row(alloc, &mut depot, &HELD),
    }
}

#[test]
fn packets_held_at_a_seam_are_dropped(rt: HostRuntime) -> Result<(), AllocError> {
    let wrong = wrong_held(rt.alloc())?;
    assert!(rt; wrong.is_none(), "{wrong:?}");
    Ok(())
}

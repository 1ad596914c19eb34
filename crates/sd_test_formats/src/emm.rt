use crate::packets::{Change, changed, flipped, packet_of};
use hex::FromHex;
use sd_message::{Emm, EmmFault, Entry, MOST_SETS, read_emm, section_count, write_emm};
use sd_packet::Packet;
use sd_tree_keys::{Height, SetName};
use std::alloc::Global;
use std::ops::Range;
use std::test::*;

// Entitlements that an independent implementation wrote, and their packet up to its stuffing.
struct Row {
    height: u8,
    period: u32,
    sets: u32,
    sections: u16,
    index: u16,
    check: &'static str,
    run: Option<u32>,
    entries: &'static [(u32, u32, &'static str)],
    packet: &'static str,
}

static ROWS: [Row; 9] = [
    Row {
        height: 3,
        period: 0,
        sets: 0,
        sections: 1,
        index: 0,
        check: "bfc28b03bf4fdd1795074332e8ca393c",
        run: None,
        entries: &[],
        packet: "4741f0180082b0240000c1000000000000000000000001bfc28b03bf4fdd1795074332e8ca393c0089e822a2",
    },
    Row {
        height: 3,
        period: 1,
        sets: 1,
        sections: 1,
        index: 0,
        check: "5a35db9de2fafb13b54f559d8ea4512e",
        run: None,
        entries: &[(
            0,
            0,
            "a480e8b7bfae03cfe18c64333764eb0aff0e58f98b43809e2b16442e1ce4cea5",
        )],
        packet: "4741f0180082b04c0000c10000000000010000000100015a35db9de2fafb13b54f559d8ea4512e010000000000000000a480\
                e8b7bfae03cfe18c64333764eb0aff0e58f98b43809e2b16442e1ce4cea55f243d7a",
    },
    Row {
        height: 3,
        period: 7,
        sets: 1,
        sections: 1,
        index: 0,
        check: "598f3d3d0c98e0615af0d8a1b9021d9a",
        run: None,
        entries: &[(
            1,
            13,
            "7740eb81c95ed6301ef435b28b925978bef4331b5ea1e39987f5873d7f45c166",
        )],
        packet: "4741f0160082b04c0000c1000000000007000000010001598f3d3d0c98e0615af0d8a1b9021d9a01000000010000000d7740\
                eb81c95ed6301ef435b28b925978bef4331b5ea1e39987f5873d7f45c166dd0c0104",
    },
    Row {
        height: 3,
        period: 2,
        sets: 3,
        sections: 1,
        index: 0,
        check: "975da9be681df46675a86efa0460a299",
        run: None,
        entries: &[
            (
                1,
                2,
                "b8e72ca375ca9864862726250e37345907b8369b65206047825f1c1d44d35e13",
            ),
            (
                4,
                8,
                "4162f47869f72c8f423a1cd57af1af3c7799449e35c65f6d98ec9877a18ff67e",
            ),
            (
                5,
                10,
                "2c946178e7d952a6246335b1b1d862b8bf05ca2cf185be9f2a7a4d062580d141",
            ),
        ],
        packet: "4741f0130082b09c0000c1000000000002000000030001975da9be681df46675a86efa0460a299030000000100000002b8e7\
                2ca375ca9864862726250e37345907b8369b65206047825f1c1d44d35e1300000004000000084162f47869f72c8f423a1cd5\
                7af1af3c7799449e35c65f6d98ec9877a18ff67e000000050000000a2c946178e7d952a6246335b1b1d862b8bf05ca2cf185\
                be9f2a7a4d062580d141a22535b1",
    },
    Row {
        height: 8,
        period: 1023,
        sets: 3,
        sections: 1,
        index: 0,
        check: "1e3a95f051d85b98985115e38810b190",
        run: None,
        entries: &[
            (
                3,
                456,
                "2ac93d65f0a3e5cf08bacd9372bfc5a05a563b06534957bc24918010baf2af96",
            ),
            (
                4,
                259,
                "18b5303d547ab662ee1cf3ffa9ef6be2692fdfbb26f45484fdc856168ebcadcd",
            ),
            (
                5,
                333,
                "807dafa94d2caaa6c658f914e8a8be71310d3bff2dd39a087426456c4007ee0c",
            ),
        ],
        packet: "4741f0190082b09c0000c10000000003ff0000000300011e3a95f051d85b98985115e38810b1900300000003000001c82ac9\
                3d65f0a3e5cf08bacd9372bfc5a05a563b06534957bc24918010baf2af96000000040000010318b5303d547ab662ee1cf3ff\
                a9ef6be2692fdfbb26f45484fdc856168ebcadcd000000050000014d807dafa94d2caaa6c658f914e8a8be71310d3bff2dd3\
                9a087426456c4007ee0c9e360947",
    },
    Row {
        height: 20,
        period: 5,
        sets: 6,
        sections: 2,
        index: 0,
        check: "a5f951e0236d2473a5aae5e9367160e4",
        run: None,
        entries: &[
            (
                3,
                6,
                "e683adf5d9846a69891dee3e9b637b206520c3f870d7556c69bbee2b6761c7c5",
            ),
            (
                5,
                1456471,
                "3992b41e5160cca7890875f3b83a7852250538a8a101e78f34039338d9322a55",
            ),
            (
                8,
                1127564,
                "36a9fe4beaae5e290a11f5b3606e932f89feb4c3fa10ec0802b34d7e96e11c6b",
            ),
        ],
        packet: "475fef190082b09c0000c1000000000005000000060002a5f951e0236d2473a5aae5e9367160e4030000000300000006e683\
                adf5d9846a69891dee3e9b637b206520c3f870d7556c69bbee2b6761c7c500000005001639573992b41e5160cca7890875f3\
                b83a7852250538a8a101e78f34039338d9322a55000000080011348c36a9fe4beaae5e290a11f5b3606e932f89feb4c3fa10\
                ec0802b34d7e96e11c6be5082477",
    },
    Row {
        height: 20,
        period: 5,
        sets: 6,
        sections: 2,
        index: 1,
        check: "a5f951e0236d2473a5aae5e9367160e4",
        run: None,
        entries: &[
            (
                9,
                1277787,
                "0ee96d9272179a3b7c82bfe03cdcad9a3528732bbadd3eff476f414ac4eeecf8",
            ),
            (
                12,
                1618209,
                "46a715fd7d68b2cd27c6871bd10b8852bc0f4d1e09cb50d9fb2aed336a2202fe",
            ),
            (
                13,
                1757246,
                "e55a624d4c8bc2126dd75ee511a99f5a881674eef1a16c0ff45c512c0f5134f3",
            ),
        ],
        packet: "475fef140082b09c0001c1000000000005000000060002a5f951e0236d2473a5aae5e9367160e4030000000900137f5b0ee9\
                6d9272179a3b7c82bfe03cdcad9a3528732bbadd3eff476f414ac4eeecf80000000c0018b12146a715fd7d68b2cd27c6871b\
                d10b8852bc0f4d1e09cb50d9fb2aed336a2202fe0000000d001ad03ee55a624d4c8bc2126dd75ee511a99f5a881674eef1a1\
                6c0ff45c512c0f5134f305c6a84f",
    },
    Row {
        height: 3,
        period: 1,
        sets: 1,
        sections: 1,
        index: 0,
        check: "1dcd30913b9a37b4772694d78c1d7f2f",
        run: Some(2),
        entries: &[(
            0,
            0,
            "ad14ade2c1043f7cebfb04240773f6111f9c9bbced1ac6a47c71e16c50b77dcf",
        )],
        packet: "4741f010008ab0500000c10000000000010000000100011dcd30913b9a37b4772694d78c1d7f2f000000020100000000000000\
                00ad14ade2c1043f7cebfb04240773f6111f9c9bbced1ac6a47c71e16c50b77dcf4600102a",
    },
    Row {
        height: 4,
        period: 5,
        sets: 3,
        sections: 1,
        index: 0,
        check: "9505a2b5a1e5accf4161e9f08863b73f",
        run: Some(4294867295),
        entries: &[
            (
                2,
                11,
                "8d58f102cf27dec217646135d2c65a14a0219c4f7cb77cd1247742f59e8f349e",
            ),
            (
                6,
                27,
                "65f971e26a6cd37ce91712fd6c185e88f49d01bafe884d4f6d4e7e9eb45cfc1c",
            ),
            (
                7,
                29,
                "edb3a0701831a036c9fc09bffb339b0fac14b4828a0ee3d568dbe94b822009b9",
            ),
        ],
        packet: "475b5610008ab0a00000c10000000000050000000300019505a2b5a1e5accf4161e9f08863b73ffffe795f0300000002000000\
                0b8d58f102cf27dec217646135d2c65a14a0219c4f7cb77cd1247742f59e8f349e000000060000001b65f971e26a6cd37ce9171\
                2fd6c185e88f49d01bafe884d4f6d4e7e9eb45cfc1c000000070000001dedb3a0701831a036c9fc09bffb339b0fac14b4828a0e\
                e3d568dbe94b822009b9c6d32a5c",
    },
];

// The rows. Other functions call this one, since a check walks the whole table in each function that names it.
fn rows() -> &'static [Row] {
    &ROWS
}

fn emm_of(row: &Row) -> Option<Emm> {
    let nothing = Entry {
        name: SetName::Whole,
        wrapped: [0; 32],
    };
    let mut entries = [nothing; 3];
    for (k, (i, j, wrapped)) in row.entries.iter().enumerate() {
        let name = if *i == 0 {
            SetName::Whole
        } else {
            SetName::Diff { i: *i, j: *j }
        };
        *entries.get_mut(k)? = Entry {
            name,
            wrapped: <[u8; 32] as FromHex>::from_hex(wrapped).ok()?,
        };
    }
    Some(Emm {
        period: row.period,
        sets: row.sets,
        sections: row.sections,
        index: row.index,
        check: <[u8; 16] as FromHex>::from_hex(row.check).ok()?,
        run: row.run,
        count: u8::try_from(row.entries.len()).ok()?,
        entries,
    })
}

// The packet, read at this height and written again.
fn written_again(h: Height, packet: &Packet) -> Option<Packet> {
    let emm = read_emm(h, packet).ok()??;
    Some(write_emm(&emm, packet.pid(), packet.counter()))
}

// Whether the row's packet is read as its section, and written again as it was.
fn goes_both_ways(row: &Row) -> Option<bool> {
    let packet = packet_of(row.packet)?;
    let h = Height::new(row.height)?;
    let is_read = read_emm(h, &packet) == Ok(Some(emm_of(row)?));
    Some(is_read && written_again(h, &packet)?.bytes() == packet.bytes())
}

#[test]
fn messages_both_ways(rt: HostRuntime) {
    for row in rows() {
        assert!(rt; goes_both_ways(row) == Some(true), "{}", row.packet);
    }
}

// The entries of these rows, one after the other.
fn entries_of(alloc: Global, rows: &[Row]) -> Option<Vec<Entry>> {
    let mut entries = Vec::new(alloc);
    for row in rows {
        let emm = emm_of(row)?;
        let own = emm.entries.get(..usize::from(emm.count))?;
        entries.extend_from_slice(own).ok()?;
    }
    Some(entries)
}

// The section of this row's index of the period that has these entries.
fn section_again(row: &Row, entries: &[Entry]) -> Option<Emm> {
    let due = emm_of(row)?;
    if entries.len() <= MOST_SETS && due.index < section_count(entries.len()) {
        Some(Emm::of_period(row.run, row.period, &due.check, entries, due.index))
    } else {
        None
    }
}

// Whether the period of these rows has a section for each, and each is made again of all entries.
fn are_made_again(alloc: Global, rows: &[Row]) -> Option<bool> {
    let entries = entries_of(alloc, rows)?;
    if entries.len() > MOST_SETS {
        return None;
    }
    let count = usize::from(section_count(entries.len()));
    let are_made = rows
        .iter()
        .all(|row| section_again(row, &entries) == emm_of(row));
    Some(count == rows.len() && are_made)
}

// The first row of each period, and how many rows it has.
static PERIODS: [(usize, usize); 5] = [(0, 1), (1, 1), (3, 1), (5, 2), (8, 1)];

#[test]
fn sections_of_periods(rt: HostRuntime) {
    for (first, count) in &PERIODS {
        let rows = rows().get(*first..first.saturating_add(*count));
        let made = rows.and_then(|rows| are_made_again(rt.alloc(), rows));
        assert!(rt; made == Some(true), "the period of row {first}");
    }
}

// A count of 2 with section_length 76; a length, a number of sections, an index, numbers of sets; a section that names
// its broadcast under the table_id of one that doesn't, and the other way round; one with another count.
static OTHER_COUNTS: [Change; 11] = [
    (1, &[(39, 2)]),
    (3, &[(7, 0x9D)]),
    (3, &[(22, 2)]),
    (3, &[(9, 1)]),
    (3, &[(20, 4)]),
    (3, &[(20, 2)]),
    (6, &[(20, 5)]),
    (5, &[(22, 1)]),
    (8, &[(5, 0x82)]),
    (3, &[(5, 0x8A)]),
    (8, &[(43, 2)]),
];

// S(2,3), the whole set beside others, a node below the leaves.
static OTHER_NODES: [Change; 3] = [
    (2, &[(43, 2), (47, 3)]),
    (3, &[(43, 0), (47, 0)]),
    (3, &[(127, 20)]),
];

// After a greater one, and twice.
static OTHER_ORDERS: [Change; 2] = [(3, &[(43, 5), (47, 11)]), (3, &[(123, 4), (127, 8)])];

// The first rule that is broken counts: a count before an order, and a node before an order.
static COUNT_FIRST: [Change; 1] = [(3, &[(20, 2), (47, 3), (123, 4), (127, 8)])];

static NODE_FIRST: [Change; 1] = [(3, &[(43, 6), (47, 13), (127, 20)])];

// table_id, the bit after the syntax indicator, version, section numbers, pointer, unit start.
static OTHER_KINDS: [Change; 7] = [
    (3, &[(5, 0x80)]),
    (3, &[(6, 0xF0)]),
    (3, &[(10, 0xC3)]),
    (3, &[(11, 1)]),
    (3, &[(12, 1)]),
    (3, &[(4, 1)]),
    (3, &[(1, 0x01)]),
];

// Whether each packet that is changed so is read as this.
fn are_read_as(changes: &[Change], due: Result<Option<Emm>, EmmFault>) -> bool {
    for (row, bytes) in changes {
        if rows().get(*row).and_then(|row| read_changed(row, bytes)) != Some(due) {
            return false;
        }
    }
    true
}

// How the packet of a row is read with these bytes changed.
fn read_changed(row: &Row, bytes: &[(usize, u8)]) -> Option<Result<Option<Emm>, EmmFault>> {
    let packet = changed(row.packet, bytes)?;
    Some(read_emm(Height::new(row.height)?, &packet))
}

#[test]
fn faults_in_order(rt: HostRuntime) {
    assert!(rt; are_read_as(&OTHER_COUNTS, Err(EmmFault::Count)));
    assert!(rt; are_read_as(&OTHER_NODES, Err(EmmFault::Node)));
    assert!(rt; are_read_as(&OTHER_ORDERS, Err(EmmFault::Order)));
    assert!(rt; are_read_as(&COUNT_FIRST, Err(EmmFault::Count)));
    assert!(rt; are_read_as(&NODE_FIRST, Err(EmmFault::Node)));
    assert!(rt; are_read_as(&OTHER_KINDS, Ok(None)));
}

// Whether the packet is read as this whichever of these bytes has a bit flipped.
fn is_still_read_as(h: Height, packet: &Packet, places: Range<usize>, due: Option<Emm>) -> bool {
    for place in places {
        if flipped(packet, place).map(|packet| read_emm(h, &packet)) != Some(Ok(due)) {
            return false;
        }
    }
    true
}

// Whether a flipped bit of the row's packet makes no other section: the header's PID, the counter and what stands after
// the section aren't read.
fn is_spoilt_by_flips(row: &Row) -> Option<bool> {
    let packet = packet_of(row.packet)?;
    let due = Some(emm_of(row)?);
    let h = Height::new(row.height)?;
    Some(
        is_still_read_as(h, &packet, 1..4, due)
            && is_still_read_as(h, &packet, 4..164, None)
            && is_still_read_as(h, &packet, 164..188, due),
    )
}

#[test]
fn no_bit_makes_another_message(rt: HostRuntime) {
    assert!(rt; rows().get(3).and_then(is_spoilt_by_flips) == Some(true));
}

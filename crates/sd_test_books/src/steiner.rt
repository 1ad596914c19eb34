use crate::ascending::covered;
use sd_tree_keys::{Height, Leaf, SetName};
use std::alloc::Global;
use std::test::*;

// The cover where so many leaves are revoked, from leaf 0 on, each so far after the one before it.
fn spaced(alloc: Global, d: u8, step: u32, count: u32) -> Option<Vec<SetName>> {
    let h = Height::new(d)?;
    let mut revoked = Vec::new(alloc);
    for k in 0..count {
        revoked.push(Leaf::new(h, step.checked_mul(k)?)?).ok()?;
    }
    covered(alloc, h, &revoked)
}

// The height, the step from one revoked leaf to the next, their number; how many sets there are, the first, the last.
type Row = (u8, u32, u32, usize, Option<SetName>, Option<SetName>);

static SPACED: [Row; 7] = [
    (1, 1, 0, 1, Some(SetName::Whole), Some(SetName::Whole)),
    (1, 1, 2, 0, None, None),
    (
        3,
        2,
        2,
        3,
        Some(SetName::Diff { i: 1, j: 2 }),
        Some(SetName::Diff { i: 5, j: 10 }),
    ),
    (
        3,
        3,
        3,
        3,
        Some(SetName::Diff { i: 3, j: 14 }),
        Some(SetName::Diff { i: 5, j: 11 }),
    ),
    (
        13,
        1,
        4096,
        1,
        Some(SetName::Diff { i: 1, j: 2 }),
        Some(SetName::Diff { i: 1, j: 2 }),
    ),
    (
        13,
        1,
        4097,
        1,
        Some(SetName::Diff { i: 3, j: 12288 }),
        Some(SetName::Diff { i: 3, j: 12288 }),
    ),
    (
        17,
        2,
        65_536,
        65_536,
        Some(SetName::Diff {
            i: 65_536,
            j: 131_072,
        }),
        Some(SetName::Diff {
            i: 131_071,
            j: 262_142,
        }),
    ),
];

// Whether the row's leaves have its cover.
fn is_covered(alloc: Global, row: &Row) -> Option<bool> {
    let (d, step, revoked, count, first, last) = *row;
    let sets = spaced(alloc, d, step, revoked)?;
    let ends = (sets.first().copied(), sets.last().copied());
    Some(sets.len() == count && ends == (first, last))
}

#[test]
fn covers_of_spaced_leaves(rt: HostRuntime) {
    for (place, row) in SPACED.iter().enumerate() {
        assert!(rt; is_covered(rt.alloc(), row) == Some(true), "row {place}");
    }
}

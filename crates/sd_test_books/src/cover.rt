ghost use Rattle.std.specs.Prelude.{◌≡◌, ◌<◌, ◌≤◌};
ghost use Rattle.sd_cover_tracing.specs.declared.counts.TheConstants.{NODES};

use crate::ascending::covered;
use sd_base::Steps;
use sd_cover_tracing::{Counts, CoverIndex, NODES};
use sd_tree_keys::{Height, Leaf, SetName};
use std::alloc::Global;
use std::marker::Brand;
use std::sync::ledger::{Blank, Ledger};
use std::test::*;

// Revokes the leaf or subscribes it, where that changes something.
fn change<L: Ledger>(
    index: &mut CoverIndex,
    u: u32,
    revokes: bool,
    steps: &mut Steps<L>,
) -> Option<()> {
    let leaf = Leaf::new(index.height, u)?;
    index.reserve(1).ok()?;
    let revoked = index.is_revoked(leaf, steps);
    if revokes && !revoked {
        index.revoke(leaf, steps);
    }
    if !revokes && revoked {
        index.subscribe(leaf, steps);
    }
    Some(())
}

// The sets after some changes, each of a leaf with whether it is revoked.
fn counted_sets<L: Ledger>(
    alloc: Global,
    d: u8,
    changes: &[(u32, bool)],
    blank: Blank,
) -> Option<Vec<SetName>>
    requires name { blank.name ≡ L.name }
    requires parts { blank.parts ≡ L.parts }
    requires some { 0 < blank.parts }
{
    let mut steps = Steps::<L>::new(blank);
    let mut index = CoverIndex::new(alloc, Height::new(d)?);
    for (u, revokes) in changes {
        change(&mut index, *u, *revokes, &mut steps)?;
    }
    index.sets(alloc, &mut steps).ok()
}

fn sets(alloc: Global, d: u8, changes: &[(u32, bool)]) -> Option<Vec<SetName>> {
    counted_sets::<Brand>(alloc, d, changes, Blank::new(1))
}

// A height, changes of its leaves, and the sets after them.
type Row = (u8, &'static [(u32, bool)], &'static [SetName]);

static CHANGED: [Row; 5] = [
    (
        3,
        &[(0, true), (2, true)],
        &[
            SetName::Diff { i: 1, j: 2 },
            SetName::Diff { i: 4, j: 8 },
            SetName::Diff { i: 5, j: 10 },
        ],
    ),
    (
        3,
        &[(0, true), (2, true), (0, false)],
        &[SetName::Diff { i: 1, j: 10 }],
    ),
    (3, &[(0, true), (0, false)], &[SetName::Whole]),
    (1, &[(0, true), (1, true)], &[]),
    (
        20,
        &[(0, true), (1_048_575, true)],
        &[
            SetName::Diff { i: 2, j: 1_048_576 },
            SetName::Diff { i: 3, j: 2_097_151 },
        ],
    ),
];

#[test]
fn sets_after_changes(rt: HostRuntime) {
    for (d, changes, due) in &CHANGED {
        let found = sets(rt.alloc(), *d, changes);
        assert!(rt;
            found.is_some_and(|sets| sets.as_slice() == *due),
            "height {d}"
        );
    }
}

// The cover from scratch of the leaves that are marked.
fn fresh(alloc: Global, h: Height, marks: &[bool; 16]) -> Option<Vec<SetName>> {
    let mut revoked = Vec::new(alloc);
    for u in 0..16u32 {
        if marks[u as usize] {
            revoked.push(Leaf::new(h, u)?).ok()?;
        }
    }
    covered(alloc, h, &revoked)
}

// Whether the sets are those of a cover from scratch of the leaves that are marked.
fn is_fresh<L: Ledger>(
    alloc: Global,
    index: &CoverIndex,
    marks: &[bool; 16],
    steps: &mut Steps<L>,
) -> Option<bool> {
    let sets = index.sets(alloc, steps).ok()?;
    Some(sets.as_slice() == fresh(alloc, index.height, marks)?.as_slice())
}

// Whether the sets are those of a cover from scratch after each of so many changes.
fn stays_fresh<L: Ledger>(
    alloc: Global,
    index: &mut CoverIndex,
    count: u32,
    steps: &mut Steps<L>,
) -> Option<bool> {
    let mut marks = [false; 16];
    let mut state = u64::from(index.height.get());
    for _ in 0..count {
        state = state
            .wrapping_mul(6_364_136_223_846_793_005)
            .wrapping_add(1_442_695_040_888_963_407);
        let u = (state >> 33) as u32 % index.height.leaves() % 16;
        let revokes = state >> 63 == 1;
        change(index, u, revokes, steps)?;
        marks[u as usize] = revokes;
        if !is_fresh(alloc, index, &marks, steps)? {
            return Some(false);
        }
    }
    Some(true)
}

fn counted_same<L: Ledger>(alloc: Global, d: u8, count: u32, blank: Blank) -> Option<bool>
    requires name { blank.name ≡ L.name }
    requires parts { blank.parts ≡ L.parts }
    requires some { 0 < blank.parts }
{
    let mut steps = Steps::<L>::new(blank);
    let mut index = CoverIndex::new(alloc, Height::new(d)?);
    stays_fresh(alloc, &mut index, count, &mut steps)
}

fn same(alloc: Global, d: u8, count: u32) -> Option<bool> {
    counted_same::<Brand>(alloc, d, count, Blank::new(1))
}

#[test]
fn sets_are_those_from_scratch(rt: HostRuntime) {
    for d in 1..=4 {
        assert!(rt; same(rt.alloc(), d, 100) == Some(true), "height {d}");
    }
}

// What the node counts after it is raised.
fn raised<L: Ledger>(counts: &mut Counts, v: u32, steps: &mut Steps<L>) -> Option<u32>
    requires low { 1 ≤ v }
    requires high { v < NODES }
{
    counts.reserve(1).ok()?;
    if counts.get(v, steps) == u32::MAX {
        return None;
    }
    counts.raise(v, steps);
    Some(counts.get(v, steps))
}

// What nodes 5 and 7 count after they are raised, and node 5 after it is raised again and lowered.
fn changed<L: Ledger>(counts: &mut Counts, steps: &mut Steps<L>) -> Option<(u32, u32, u32)> {
    let five = raised(counts, 5, steps)?;
    let seven = raised(counts, 7, steps)?;
    if raised(counts, 5, steps)? == 2 && counts.get(5, steps) > 0 {
        counts.lower(5, steps);
    }
    Some((five, seven, counts.get(5, steps)))
}

fn counted_counts<L: Ledger>(alloc: Global, blank: Blank) -> Option<(u32, u32, u32)>
    requires name { blank.name ≡ L.name }
    requires parts { blank.parts ≡ L.parts }
    requires some { 0 < blank.parts }
{
    changed(&mut Counts::new(alloc), &mut Steps::<L>::new(blank))
}

fn counts(alloc: Global) -> Option<(u32, u32, u32)> {
    counted_counts::<Brand>(alloc, Blank::new(1))
}

#[test]
fn counts_of_nodes(rt: HostRuntime) {
    assert!(rt; counts(rt.alloc()) == Some((1, 1, 1)));
}

#[test]
fn index_has_two_fields(rt: HostRuntime) {
    let h = Height::new(3).expect(&rt, "a height");
    let CoverIndex { height, counts } = CoverIndex::new(rt.alloc(), h);
    assert!(rt; height.get() == 3);
    drop(counts);
}

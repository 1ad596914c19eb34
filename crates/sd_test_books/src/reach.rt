use crate::ascending::{TREES, has_bit};
use crate::names::{closure, names};
use sd_cover_tracing::opens;
use sd_law_covers::{names_of, reaches};
use sd_tree_keys::{Height, Leaf, Name, SetName};
use std::alloc::Global;
use std::test::*;

// Whether the closure has what the key of S(i,j) is made from.
fn has(closure: &[Name], i: u32, j: u32) -> bool {
    1 <= j && closure.contains(&Name::Pair { i, w: j })
}

// What is said of a leaf and a set, by its names, by membership and by the closure; `None` where there is no such set.
fn judged(alloc: Global, d: u8, u: u32, i: u32, j: u32) -> Option<(bool, bool, bool)> {
    let h = Height::new(d)?;
    let leaf = Leaf::new(h, u)?;
    let name = SetName::new(h, i, j)?;
    let held = names_of(alloc, h, leaf).ok()?;
    let all = closure(alloc, &held).ok()?;
    let by_hand = match name {
        SetName::Whole => all.contains(&Name::Whole),
        SetName::Diff { i, j } => has(&all, i, j),
    };
    Some((reaches(&held, name), opens(h, &[leaf], name), by_hand))
}

// The leaves of a set by bits, from those below each node, or `None` where there is no such set.
fn leaves(below: &[u32; 16], i: u32, j: u32) -> Option<u32> {
    if i == 0 && j == 0 {
        return Some(below[1]);
    }
    let upper = *below.get(i as usize)?;
    let lower = *below.get(j as usize)?;
    let is_pair = i < j && lower != 0 && upper & lower == lower;
    is_pair.then_some(upper & !lower)
}

// Whether the first `count` leaves and all pairs of nodes are judged by the leaves below each node.
fn agree(alloc: Global, d: u8, count: u32, below: &[u32; 16]) -> bool {
    for i in 0..16 {
        for j in 0..16 {
            for u in 0..count {
                let due = leaves(below, i, j).map(|set| has_bit(set, u));
                if judged(alloc, d, u, i, j) != due.map(|due| (due, due, due)) {
                    return false;
                }
            }
        }
    }
    true
}

// Whether two leaves of height 3 open S(i,j).
fn pair_opens(a: u32, b: u32, i: u32, j: u32) -> Option<bool> {
    let h = Height::new(3)?;
    let coalition = [Leaf::new(h, a)?, Leaf::new(h, b)?];
    Some(opens(h, &coalition, SetName::new(h, i, j)?))
}

// Two leaves, a set, and whether they open it.
static PAIRS: [(u32, u32, (u32, u32), bool); 5] = [
    (5, 0, (1, 13), true),
    (0, 5, (1, 13), true),
    (4, 5, (3, 6), false),
    (4, 5, (3, 7), true),
    (4, 5, (0, 0), true),
];

#[test]
fn either_leaf_opens(rt: HostRuntime) {
    for (a, b, (i, j), due) in &PAIRS {
        let is_open = pair_opens(*a, *b, *i, *j);
        assert!(rt; is_open == Some(*due), "{a} and {b} at ({i},{j})");
    }
}

static NAMES_OF_5: [Name; 7] = [
    Name::Whole,
    Name::Pair { i: 1, w: 2 },
    Name::Pair { i: 1, w: 7 },
    Name::Pair { i: 1, w: 12 },
    Name::Pair { i: 3, w: 7 },
    Name::Pair { i: 3, w: 12 },
    Name::Pair { i: 6, w: 12 },
];

// Sets, and whether leaf 5 reaches them.
static REACHED: [(SetName, bool); 4] = [
    (SetName::Diff { i: 1, j: 8 }, true),
    (SetName::Diff { i: 1, j: 2 }, true),
    (SetName::Whole, true),
    (SetName::Diff { i: 1, j: 6 }, false),
];

#[test]
fn names_of_leaf_5(rt: HostRuntime) -> Result<(), Fail> {
    let held = names(rt.alloc(), 3, 5).ok_or("names")?;
    assert!(rt; held.as_slice() == NAMES_OF_5.as_slice());
    for (place, (name, reached)) in REACHED.iter().enumerate() {
        assert!(rt; reaches(&held, *name) == *reached, "set {place}");
    }
    Ok(())
}

#[test]
fn leaves_reach_their_sets(rt: HostRuntime) {
    for (d, count, below) in &TREES {
        assert!(rt; agree(rt.alloc(), *d, *count, below), "height {d}");
    }
}

static ODD: [Name; 6] = [
    Name::Whole,
    Name::Pair { i: 1, w: 0 },
    Name::Pair { i: 0, w: 1 },
    Name::Pair { i: 5, w: 2 },
    Name::Pair { i: 2, w: 2 },
    Name::Pair { i: 7, w: 15 },
];

// Whether this name and another reach what the rules give.
fn reaches_by_the_rules(alloc: Global, name: Name) -> Option<bool> {
    let held = [name, Name::Pair { i: 4, w: 9 }];
    let all = closure(alloc, &held).ok()?;
    for i in 0..8 {
        for j in 0..16 {
            if reaches(&held, SetName::Diff { i, j }) != has(&all, i, j) {
                return Some(false);
            }
        }
    }
    Some(true)
}

#[test]
fn odd_names_reach_by_the_rules(rt: HostRuntime) {
    for (place, name) in ODD.iter().enumerate() {
        let reached = reaches_by_the_rules(rt.alloc(), *name);
        assert!(rt; reached == Some(true), "name {place}");
    }
}

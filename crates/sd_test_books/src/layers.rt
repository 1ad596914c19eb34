use crate::ascending::{are_ascending, are_of_height, has_bit, marked};
use sd_lsd::{Width, layered_cover};
use sd_tree_keys::{Height, SetName, depth};
use std::alloc::Global;
use std::test::*;

// The cover of width w where the leaves of these bits are revoked.
fn covered(alloc: Global, d: u8, w: u8, bits: u32) -> Option<Vec<SetName>> {
    let h = Height::new(d)?;
    let width = Width::new(h, w)?;
    let revoked = marked(alloc, h, bits)?;
    if are_of_height(h, &revoked) && are_ascending(&revoked) {
        layered_cover(alloc, h, width, &revoked).ok()
    } else {
        None
    }
}

// Whether node v is i or stands below it, by halvings.
fn stands_below(v: u32, i: u32) -> bool {
    (0..6u32).any(|k| v >> k == i)
}

// Whether leaf u of height d is in the set.
fn has_leaf(d: u8, name: SetName, u: u32) -> bool {
    let node = (1u32 << (d % 8)).wrapping_add(u);
    match name {
        SetName::Whole => true,
        SetName::Diff { i, j } => stands_below(node, i) && !stands_below(node, j),
    }
}

// How far below the root the node stands.
fn level(v: u32) -> u32 {
    if v == 0 { 0 } else { depth(v) }
}

// Whether no layer's end stands properly between the set's nodes, or one at the upper.
fn is_of_a_layer(w: u32, name: SetName) -> bool {
    match name {
        SetName::Whole => true,
        SetName::Diff { i, j } => {
            let ends = |depth: u32| w != 0 && depth % w == 0;
            ends(level(i))
                || !(0..5u32).any(|depth| level(i) < depth && depth < level(j) && ends(depth))
        }
    }
}

// Whether these sets hold each of so many leaves once, unless its bit is set.
fn are_apart(d: u8, leaves: u32, bits: u32, sets: &[SetName]) -> bool {
    for u in 0..leaves {
        let held = sets.iter().filter(|name| has_leaf(d, **name, u)).count();
        if held != usize::from(!has_bit(bits, u)) {
            return false;
        }
    }
    true
}

// Whether these are no more sets than the leaves of these bits need, each of a layer.
fn are_of_layers(w: u8, bits: u32, sets: &[SetName]) -> bool {
    let most = (4 * bits.count_ones() as usize).saturating_sub(2).max(1);
    sets.len() <= most && sets.iter().all(|name| is_of_a_layer(u32::from(w), *name))
}

// Whether the cover of width w where the leaves of these bits are revoked is as it should be.
fn is_right(alloc: Global, d: u8, leaves: u32, w: u8, bits: u32) -> Option<bool> {
    let sets = covered(alloc, d, w, bits)?;
    Some(are_apart(d, leaves, bits, &sets) && are_of_layers(w, bits, &sets))
}

// Heights, and how many leaves each has.
static HEIGHTS: [(u8, u32); 3] = [(1, 2), (2, 4), (3, 8)];

#[test]
fn all_revoked_leaves_of_small_trees(rt: HostRuntime) {
    for (d, leaves) in &HEIGHTS {
        for w in 1..=*d {
            for bits in 0..1u32.wrapping_shl(*leaves) {
                let told = is_right(rt.alloc(), *d, *leaves, w, bits);
                assert!(rt; told == Some(true), "height {d}, width {w}, revoked {bits}");
            }
        }
    }
}

const CUT: &[SetName] = &[
    SetName::Diff { i: 2, j: 4 },
    SetName::Diff { i: 3, j: 7 },
    SetName::Diff { i: 4, j: 8 },
    SetName::Diff { i: 7, j: 15 },
];

const UNCUT: &[SetName] = &[SetName::Diff { i: 2, j: 8 }, SetName::Diff { i: 3, j: 15 }];

// The cover of each width where leaves 0 and 7 of height 3 are revoked.
static COVERS: [(u8, &[SetName]); 3] = [(1, UNCUT), (2, CUT), (3, UNCUT)];

// A height, a width, and whether it is one of the height.
static WIDTHS: [(u8, u8, bool); 5] = [
    (3, 0, false),
    (3, 3, true),
    (3, 4, false),
    (20, 20, true),
    (1, 1, true),
];

#[test]
fn covers_of_two_revoked_leaves(rt: HostRuntime) {
    for (w, due) in &COVERS {
        let sets = covered(rt.alloc(), 3, *w, 0b1000_0001);
        assert!(rt;
            sets.is_some_and(|sets| sets.as_slice() == *due),
            "width {w}"
        );
    }
    for (d, w, known) in &WIDTHS {
        let width = Height::new(*d).and_then(|h| Width::new(h, *w));
        assert!(rt; width.is_some() == *known, "width {w} of {d}");
    }
}

use sd_tree_keys::{
    Height, Leaf, SetName, child_towards, compare_names, contains, depth, is_above, lowest_common,
    path_node, sibling,
};

// The node at this depth on the path to leaf 5 of height 3.
fn on_path(depth: u32) -> Option<u32> {
    let h = Height::new(3)?;
    let u = Leaf::new(h, 5)?;
    if depth <= 3 {
        Some(path_node(h, u, depth))
    } else {
        None
    }
}

// Depths, and the nodes of the path there.
static PATH: [(u32, u32); 4] = [(0, 1), (1, 3), (2, 6), (3, 13)];

static SIBLINGS: [(u32, u32); 3] = [(3, 2), (6, 7), (13, 12)];

#[test]
fn path_of_leaf_5(rt: HostRuntime) {
    for (depth, node) in &PATH {
        assert!(rt; on_path(*depth) == Some(*node), "depth {depth}");
    }
    for (node, due) in &SIBLINGS {
        assert!(rt; 1 <= *node && sibling(*node) == *due, "sibling of {node}");
    }
}

fn holds(i: u32, j: u32, u: u32) -> Option<bool> {
    let h = Height::new(3)?;
    Some(contains(h, SetName::new(h, i, j)?, Leaf::new(h, u)?))
}

// Each set with its leaves, the leaf u by the bit 2^u; no set by 0.
static SETS: [(u32, u32, u32); 10] = [
    (0, 0, 0b1111_1111),
    (1, 13, 0b1101_1111),
    (1, 2, 0b1111_0000),
    (2, 8, 0b0000_1110),
    (4, 8, 0b0000_0010),
    (8, 16, 0),
    (6, 6, 0),
    (2, 13, 0),
    (1, 16, 0),
    (0, 5, 0),
];

// Whether the set holds these of the eight leaves and no ninth, and is no set where they are 0.
fn has_leaves(i: u32, j: u32, leaves: u32) -> bool {
    let known = leaves != 0;
    for u in 0..8u32 {
        if holds(i, j, u) != known.then_some(leaves >> u & 1 == 1) {
            return false;
        }
    }
    holds(i, j, 8) == None
}

#[test]
fn sets_of_eight_leaves(rt: HostRuntime) {
    for (i, j, leaves) in &SETS {
        assert!(rt; has_leaves(*i, *j, *leaves), "({i},{j})");
    }
}

static NAMES: [SetName; 5] = [
    SetName::Whole,
    SetName::Diff { i: 1, j: 4 },
    SetName::Diff { i: 2, j: 8 },
    SetName::Diff { i: 2, j: 9 },
    SetName::Diff { i: 4, j: 8 },
];

// Heights, and whether they are some tree's.
static HEIGHTS: [(u8, bool); 4] = [(0, false), (1, true), (20, true), (21, false)];

#[test]
fn names_in_order(rt: HostRuntime) {
    for (at, name) in NAMES.iter().enumerate() {
        for (other_at, other) in NAMES.iter().enumerate() {
            assert!(rt; compare_names(*name, *other) == at.cmp(&other_at));
        }
    }
    for (d, known) in &HEIGHTS {
        assert!(rt; Height::new(*d).is_some() == *known, "height {d}");
    }
}

fn child(i: u32, j: u32) -> Option<u32> {
    if 1 <= i && i < j && is_above(i, j) {
        Some(child_towards(i, j))
    } else {
        None
    }
}

// Two nodes, whether the first is the second or above it, and the child of the first towards the second.
static ANCESTORS: [(u32, u32, bool, Option<u32>); 7] = [
    (1, 13, true, Some(3)),
    (3, 13, true, Some(6)),
    (6, 13, true, Some(13)),
    (13, 13, true, None),
    (2, 13, false, None),
    (12, 13, false, None),
    (13, 6, false, None),
];

// Nodes and their depths.
static DEPTHS: [(u32, u32); 5] = [(1, 0), (2, 1), (3, 1), (13, 3), (1_048_581, 20)];

// Two nodes, and their lowest common ancestor, where a node is its own.
static COMMON: [(u32, u32, u32); 5] = [(8, 10, 2), (8, 15, 1), (12, 13, 6), (5, 5, 5), (13, 3, 3)];

#[test]
fn nodes_and_ancestors(rt: HostRuntime) {
    for (v, level) in &DEPTHS {
        assert!(rt; 1 <= *v && depth(*v) == *level, "depth of {v}");
    }
    for (i, j, above, towards) in &ANCESTORS {
        let is_due = 1 <= *i && 1 <= *j && is_above(*i, *j) == *above && child(*i, *j) == *towards;
        assert!(rt; is_due, "{i} above {j}");
    }
    for (a, b, common) in &COMMON {
        let is_due = 1 <= *a && 1 <= *b && lowest_common(*a, *b) == *common;
        assert!(rt; is_due, "{a} and {b}");
    }
}

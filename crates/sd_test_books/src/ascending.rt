ghost use Rattle.std.specs.Prelude.{◌^◌, ◌<◌, All, IsTrue};
ghost use Rattle.std.specs.List.Sorted.{IsStrictlyIncreasing};

use sd_cover_tracing::cover;
use sd_tree_keys::{Height, Leaf, SetName};
use std::alloc::Global;

/// Heights, how many leaves a tree of each has, and those below each of its nodes, by bits.
pub(crate) static TREES: [(u8, u32, [u32; 16]); 3] = [
    (1, 2, [0, 3, 1, 2, 0, 0, 0, 0, 0, 0, 0, 0, 0, 0, 0, 0]),
    (2, 4, [0, 15, 3, 12, 1, 2, 4, 8, 0, 0, 0, 0, 0, 0, 0, 0]),
    (
        3,
        8,
        [0, 255, 15, 240, 3, 12, 48, 192, 1, 2, 4, 8, 16, 32, 64, 128],
    ),
];

/// Whether this bit is set.
pub(crate) fn has_bit(bits: u32, u: u32) -> bool {
    bits >> (u % u32::BITS) & 1 == 1
}

/// The leaves of the bits that are set.
pub(crate) fn marked(alloc: Global, h: Height, bits: u32) -> Option<Vec<Leaf>> {
    let mut leaves = Vec::new(alloc);
    for u in 0..u32::BITS {
        if has_bit(bits, u) {
            leaves.push(Leaf::new(h, u)?).ok()?;
        }
    }
    Some(leaves)
}

/// Whether all of these leaves are of the height.
pub(crate) fn are_of_height(h: Height, leaves: &[Leaf]) -> bool
    ensures { IsTrue result → All (λ u. u < 2 ^ h) leaves.now }
{
    leaves.iter().all(|u| u.get() < h.leaves())
}

/// Whether each of these leaves stands after the one before it.
pub(crate) fn are_ascending(leaves: &[Leaf]) -> bool
    ensures { IsTrue result → IsStrictlyIncreasing leaves.now }
{
    for k in 1..leaves.len() {
        if leaves[k - 1].get() >= leaves[k].get() {
            return false;
        }
    }
    true
}

/// The cover where these leaves are revoked.
pub(crate) fn covered(alloc: Global, h: Height, revoked: &[Leaf]) -> Option<Vec<SetName>> {
    if are_of_height(h, revoked) && are_ascending(revoked) {
        cover(alloc, h, revoked).ok()
    } else {
        None
    }
}

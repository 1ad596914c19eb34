ghost use Rattle.std.specs.Prelude.{◌≡◌, ◌≢◌, ◌+◌, ◌/◌, ◌^◌, ◌<◌, ◌≤◌};
ghost use Rattle.sd_tree_keys.specs.Node.{depth as depth_of, IsAbove};
ghost use Rattle.sd_tree_keys.specs.Paths.{leaf_node as node_of_leaf, path_node as path_node_of, sibling_of};

use crate::height::Height;
use crate::leaf::Leaf;

/// The node of a leaf [Naor, Naor, Lotspiech 2001, 3.2].
#[tactic(auto, using(crate::proofs::Paths::leaf_at_depth))]
pub fn leaf_node(h: Height, u: Leaf) -> u32
    requires { u < 2 ^ h }
    ensures value { result ≡ node_of_leaf h u }
    ensures level { depth_of result ≡ h }
{
    h.leaves() + u.get()
}

/// The node at this depth on the path to the leaf: the root at depth 0, the leaf's own node at depth h
/// [Naor, Naor, Lotspiech 2001, 3.2].
#[tactic(auto, using(crate::proofs::Paths::path_is_node, crate::proofs::Paths::path_depth, crate::proofs::Paths::path_over_leaf))]
pub fn path_node(h: Height, u: Leaf, depth: u32) -> u32
    requires leaf { u < 2 ^ h }
    requires depth { depth ≤ h }
    ensures value { result ≡ path_node_of h u depth }
    ensures node { 1 ≤ result }
    ensures level { depth_of result ≡ depth }
    ensures above { IsAbove result (2 ^ h + u) }
{
    leaf_node(h, u) >> (u32::from(h.get()) - depth)
}

/// The other child of the node's parent [Naor, Naor, Lotspiech 2001, 3.2]. The root has none: for it this is 0, which
/// is no node.
#[tactic(auto, using(crate::proofs::Paths::sibling_half, crate::proofs::Paths::sibling_apart))]
pub fn sibling(node: u32) -> u32
    requires { 1 ≤ node }
    ensures value { result ≡ sibling_of node }
    ensures parent { result / 2 ≡ node / 2 }
    ensures other { result ≢ node }
{
    if node % 2 == 0 { node + 1 } else { node - 1 }
}

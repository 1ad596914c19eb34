ghost use Rattle.std.specs.Prelude.{◌≡◌, ◌+◌, ◌^◌, ◌<◌, ◌↔◌, ◌==◌, if◌then◌else◌};
ghost use Rattle.std.specs.Prelude.{IsNone, IfSome, Some};
ghost use Rattle.sd_tree_keys.specs.Leaves.{is_member};
ghost use Rattle.sd_tree_keys.specs.SetNames.{IsPair, IsOfHeight, set_cmp};

use crate::height::Height;
use crate::leaf::Leaf;
use crate::node::is_above;
use std::cmp::Ordering;

/// The name of a set of leaves: all of them, or S(i,j), those below node i that aren't below j
/// (Naor, Naor and Lotspiech, 2001, 3.2). The order is `Whole` first, then by i, then by j.
#[derive(Clone, Copy, PartialEq, Eq, PartialOrd, Ord)]
pub enum SetName {
    /// The set of all leaves.
    Whole,
    /// S(i,j), the leaves below node `i` that are not below node `j`. Nodes are numbered from 1, the root.
    Diff { i: u32, j: u32 },
}

impl SetName {
    ghost use Rattle.sd_tree_keys.specs.declared.set.SetName.TheVariants.{Whole, Diff};

    /// The whole set for (0,0), S(i,j) where i is an inner node and j a node properly below it, else `None`.
    pub fn new(h: Height, i: u32, j: u32) -> Option<SetName>
        ensures whole { i ≡ 0 → j ≡ 0 → result ≡ Some Whole }
        ensures pair { IsPair h i j → result ≡ Some (Diff i j) }
        ensures none { IsNone result ↔ (¬ (i ≡ 0 × j ≡ 0) × ¬ IsPair h i j) }
        ensures value { IfSome result (λ name. name ≡ (if i == 0 then Whole else Diff i j)) }
        ensures of_height { IfSome result (λ name. IsOfHeight h name) }
    {
        if i == 0 && j == 0 {
            return Some(SetName::Whole);
        }
        let is_pair = 1 <= i && i < j && i < h.leaves() && j / 2 < h.leaves() && is_above(i, j);
        if is_pair {
            Some(SetName::Diff { i, j })
        } else {
            None
        }
    }
}

/// How two names stand in the order: `Whole` first, then by i, then by j.
pub fn compare_names(a: SetName, b: SetName) -> Ordering
    ensures { result ≡ set_cmp a b }
{
    a.cmp(&b)
}

/// Whether the leaf is in the set.
pub fn contains(h: Height, name: SetName, u: Leaf) -> bool
    requires name { IsOfHeight h name }
    requires leaf { u < 2 ^ h }
    ensures { result ≡ is_member h name u }
{
    let node = h.leaves() + u.get();
    match name {
        SetName::Whole => true,
        SetName::Diff { i, j } => is_above(i, node) && !is_above(j, node),
    }
}

ghost use Rattle.std.specs.Prelude.{◌≡◌, ◌+◌, ◌-◌, ◌*◌, ◌/◌, ◌<◌, ◌≤◌};

use sd_tree_keys::Height;

/// The index of a pair of nodes among the names that a leaf is given: an ancestor of the leaf at the depth `ancestor`,
/// and the node that hangs off the leaf's path at the depth `hanging`. Pairs begin at index 1.
#[tactic(auto, using(crate::proofs::Places::place_within))]
pub fn place(h: Height, ancestor: u32, hanging: u32) -> usize
    requires above { ancestor < hanging }
    requires within { hanging ≤ h }
    ensures value { result ≡ ancestor * (2 * h - ancestor + 1) / 2 + (hanging - ancestor) }
    ensures fits { result < h * (h + 1) / 2 + 1 }
{
    let before = ancestor * (2 * u32::from(h.get()) - ancestor + 1) / 2;
    (before + hanging - ancestor) as usize
}

ghost use Rattle.std.specs.Prelude.{◌+◌, ◌^◌, ◌<◌, ◌≤◌};
ghost use Rattle.sd_tree_keys.specs.Node.{IsAbove};
ghost use Rattle.sd_site_cards.specs.Hanging.{IsHanging};

use sd_tree_keys::{Height, Leaf, child_towards, lowest_common};

/// The node that is j or above it, and hangs beside the path to the leaf [Naor, Naor, Lotspiech 2001, 3.2].
pub fn hanging_above(h: Height, u: Leaf, j: u32) -> u32
    requires leaf { u < 2 ^ h }
    requires node { (1 ≤ j) × (j < 2 ^ (h + 1)) }
    requires beside { ¬ IsAbove j (2 ^ h + u) }
    ensures { IsHanging h u j result }
{
    let common = lowest_common(h.leaves() + u.get(), j);
    child_towards(common, j)
}

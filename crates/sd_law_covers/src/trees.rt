//! What ancestors, leaves and sets come to, for crates that reason over the tree.

ghost use Rattle.std.specs.Prelude.{◌≡◌, ◌+◌, ◌^◌, ◌<◌, ◌≤◌, ◌↔◌, ℕ, true, if◌then◌else◌};
ghost use Rattle.sd_tree_keys.specs.Node.{IsAbove};
ghost use Rattle.sd_tree_keys.specs.Leaves.{is_below, is_member, HoldsLeavesOf};
ghost use Rattle.sd_tree_keys.specs.Paths.{leaf_node};
ghost use Rattle.sd_tree_keys.specs.SetNames.{IsPair};
ghost use Rattle.sd_tree_keys.specs.declared.set.SetName.TheVariants.{Diff};

/// A node is an ancestor of another, by halvings, exactly where all leaves below that one are below it, by intervals of
/// leaves; and of a leaf's node exactly where the leaf is below it (Naor, Naor and Lotspiech, 2001, 3.2).
#[tactic(auto, using(sd_tree_keys::proofs::Ancestors::above_is_leaves, sd_tree_keys::proofs::Ancestors::below_is_above))]
pub fn ancestors_are_by_leaves()
    ensures nodes { (d i j : ℕ) → d ≤ 20 → 1 ≤ i → 1 ≤ j → i < 2 ^ (d + 1) → j < 2 ^ (d + 1) →
        IsAbove i j ↔ HoldsLeavesOf d i j }
    ensures leaf { (d v u : ℕ) → d ≤ 20 → 1 ≤ v → v < 2 ^ (d + 1) → u < 2 ^ d →
        (is_below d v u ≡ true) ↔ IsAbove v (leaf_node d u) }
{}

/// A set that is cut at a node between its two: each leaf is in S(i,k) and S(k,j) together as often as in S(i,j).
#[tactic(auto, using(sd_tree_keys::proofs::Halves::cut_pair, sd_tree_keys::proofs::Halves::cut_counts))]
pub fn sets_are_cut()
    ensures pair { (d i k j : ℕ) → IsPair d i k → IsPair d k j → IsPair d i j }
    ensures counts { (d i k j u : ℕ) → d ≤ 20 → IsPair d i k → IsPair d k j → u < 2 ^ d →
        (if is_member d (Diff i k) u then 1 else 0) + (if is_member d (Diff k j) u then 1 else 0) ≡
        (if is_member d (Diff i j) u then 1 else 0) }
{}

ghost use Rattle.std.specs.Prelude.{◌≡◌, ℕ, ◌+◌, ◌-◌, ◌/◌, ◌^◌, ◌<◌, ◌≤◌, ◌↔◌, IsTrue};
ghost use Rattle.sd_tree_keys.specs.Node.{depth as depth_of, IsAbove, IsProperlyAbove};
ghost use Rattle.sd_tree_keys.specs.Leaves.{HoldsLeavesOf};

/// How far below the root the node stands.
#[tactic(auto, using(crate::proofs::Levels::depth_of_bounds))]
pub fn depth(v: u32) -> u32
    requires { 1 ≤ v }
    ensures value { result ≡ depth_of v }
    ensures low { 2 ^ result ≤ v }
    ensures high { v < 2 ^ (result + 1) }
    ensures bits { result < 32 }
{
    v.ilog2()
}

/// Whether node i is j or an ancestor of j (Naor, Naor and Lotspiech, 2001, 3.2).
pub fn is_above(i: u32, j: u32) -> bool
    requires i { 1 ≤ i }
    requires j { 1 ≤ j }
    ensures ancestor { IsTrue result ↔ IsAbove i j }
    // In each tree that has both nodes, all leaves below j are below i.
    ensures leaves { (d : ℕ) → d ≤ 20 → i < 2 ^ (d + 1) → j < 2 ^ (d + 1) →
        (IsTrue result ↔ HoldsLeavesOf d i j) }
{
    let below = depth(j).saturating_sub(depth(i));
    j >> below == i
}

/// The child of node i that is j or an ancestor of j.
pub fn child_towards(i: u32, j: u32) -> u32
    requires i { 1 ≤ i }
    requires j { IsProperlyAbove i j }
    ensures child { result / 2 ≡ i }
    ensures above { IsAbove result j }
    ensures halving { result ≡ j / 2 ^ (depth_of j - depth_of i - 1) }
{
    j >> (depth(j) - depth(i) - 1)
}

/// The deepest node that is both nodes or an ancestor of them.
pub fn lowest_common(a: u32, b: u32) -> u32
    requires a { 1 ≤ a }
    requires b { 1 ≤ b }
    ensures node { 1 ≤ result }
    ensures above { IsAbove result a × IsAbove result b }
    ensures deepest { (v : ℕ) → IsAbove v a → IsAbove v b → IsAbove v result }
{
    let (deep, high) = (a.max(b), a.min(b));
    let level = deep >> (depth(deep) - depth(high));
    let apart = u32::BITS - (level ^ high).leading_zeros();
    high >> apart
}

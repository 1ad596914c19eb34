ghost use Rattle.std.specs.Prelude.{◌≡◌, ◌+◌, ◌-◌, ◌*◌, ◌^◌, ◌<◌, ◌≤◌, ◌++◌, ◌↔◌, All};
ghost use Rattle.std.specs.Prelude.{IfOk, OnOk, IsErrOf, length};
ghost use Rattle.std.specs.List.Sorted.{IsStrictlyIncreasing};
ghost use Rattle.sd_tree_keys.specs.declared.height.TheConstants.{HIGHEST};
ghost use Rattle.sd_tree_keys.specs.declared.leaf.TheConstants.{MOST_REVOKED};
ghost use Rattle.sd_cover_tracing.specs.Chains.{IsChainCover};
ghost use Rattle.sd_cover_tracing.specs.Cover.{cover_of};
ghost use Rattle.sd_cover_tracing.specs.Walk.{of_ends, AreBelowNode, AddsChainsBelow};

use sd_tree_keys::{HIGHEST, Height, Leaf, MOST_REVOKED, SetName};
use std::alloc::{AllocError, Global};

/// Why no cover was made.
#[derive(Clone, Copy)]
pub enum CoverFault {
    /// More than [`MOST_REVOKED`] leaves are revoked.
    TooMany,
    /// Memory ran out.
    NoMemory,
}

impl From<AllocError> for CoverFault {
    ghost use Rattle.std.specs.Prelude.{◌≡◌};
    ghost use Rattle.sd_cover_tracing.specs.declared.walk.CoverFault.TheVariants.{NoMemory};

    ghost from_gives = { λ _ e. e ≡ NoMemory };

    fn from(_error: AllocError) -> CoverFault {
        CoverFault::NoMemory
    }
}

/// The chain cover of the leaves that are not revoked, ascending [Naor, Naor, Lotspiech 2001, 3.2].
/// It faults with `TooMany` above [`MOST_REVOKED`] leaves, and with `NoMemory` where memory runs out.
pub fn cover(alloc: Global, h: Height, revoked: &[Leaf]) -> Result<Vec<SetName>, CoverFault>
    requires leaves { All (λ u. u < 2 ^ h) revoked.now }
    requires ascending { IsStrictlyIncreasing revoked.now }
    ensures value { IfOk result (λ sets.
        (sets.items ≡ cover_of h revoked.now) × IsChainCover h revoked.now sets.items) }
    ensures fault { IsErrOf result CoverFault.TooMany ↔ (MOST_REVOKED < length revoked.now) }
{
    if revoked.len() > MOST_REVOKED {
        return Err(CoverFault::TooMany);
    }
    prove!(h.get() <= HIGHEST);
    Ok(chain_sets(alloc, h, revoked)?)
}

// The cover, however many leaves are revoked.
fn chain_sets(alloc: Global, h: Height, revoked: &[Leaf]) -> Result<Vec<SetName>, AllocError>
    requires leaves { All (λ u. u < 2 ^ h) revoked.now }
    requires ascending { IsStrictlyIncreasing revoked.now }
    ensures { IfOk result (λ sets. IsChainCover h revoked.now sets.items) }
{
    let mut sets = Vec::new(alloc);
    if revoked.is_empty() {
        sets.push(SetName::Whole)?;
        return Ok(sets);
    }
    walk(&mut sets, h, 1, 1, u32::from(h.get()), revoked)?;
    sets.sort_unstable();
    Ok(sets)
}

// Adds the sets of the chain that begins at `head` and goes on at node v, and of those that begin below v. Node v
// stands `level` steps above the leaves, and below it these are revoked.
fn walk(
    sets: &mut Vec<SetName>,
    h: Height,
    head: u32,
    v: u32,
    level: u32,
    leaves: &[Leaf],
) -> Result<(), AllocError>
    requires height { h ≤ HIGHEST }
    requires some { 0 < length leaves.now }
    requires below { AreBelowNode h level v leaves.now }
    ensures { OnOk result (AddsChainsBelow h level head v leaves.now sets.old.items sets.new.items) }
{
    if level == 0 {
        return push_chain(sets, head, v);
    }
    let (left, right) = halves(h, v, level, leaves);
    let left_child = 2 * v;
    let right_child = left_child + 1;
    if right.is_empty() {
        walk(sets, h, head, left_child, level - 1, left)
    } else if left.is_empty() {
        walk(sets, h, head, right_child, level - 1, right)
    } else {
        push_chain(sets, head, v)?;
        walk(sets, h, left_child, left_child, level - 1, left)?;
        walk(sets, h, right_child, right_child, level - 1, right)
    }
}

// Adds the set of a chain from its first node to its last.
fn push_chain(sets: &mut Vec<SetName>, head: u32, end: u32) -> Result<(), AllocError>
    ensures { OnOk result (sets.new.items ≡ sets.old.items ++ of_ends head end) }
{
    if head != end {
        sets.push(SetName::Diff { i: head, j: end })?;
    }
    Ok(())
}

// Cuts the leaves below node v, which stands `level` steps above them, into those below its left and its right child.
fn halves<'a>(h: Height, v: u32, level: u32, leaves: &'a [Leaf]) -> (&'a [Leaf], &'a [Leaf])
    requires height { h ≤ HIGHEST }
    requires some { 0 < length leaves.now }
    requires inner { 0 < level }
    requires below { AreBelowNode h level v leaves.now }
    ensures whole { result.0.now ++ result.1.now ≡ leaves.now }
    ensures left { AreBelowNode h (level - 1) (2 * v) result.0.now }
    ensures right { AreBelowNode h (level - 1) (2 * v + 1) result.1.now }
{
    let first = h.leaves();
    let steps = level - 1;
    let right = 2 * v + 1;
    leaves.split_at(leaves.partition_point(|u| (first + u.get()) >> steps < right))
}

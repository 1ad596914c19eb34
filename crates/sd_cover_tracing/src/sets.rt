ghost use Rattle.std.specs.Prelude.{◌≡◌, ◌+◌, ◌-◌, ◌*◌, ◌<◌, ◌≤◌, ◌++◌, IfOk, OnOk, length};
ghost use Rattle.sd_cover_tracing.specs.Chains.{IsChainCover};
ghost use Rattle.sd_cover_tracing.specs.Cover.{cover_of};
ghost use Rattle.sd_tree_keys.specs.declared.height.TheConstants.{HIGHEST};
ghost use Rattle.sd_cover_tracing.specs.Walk.{of_ends, IsOnChain, AddsChains, StandsAt};
ghost use Rattle.sd_cover_tracing.specs.Tally.{tally_at};
ghost use Rattle.sd_cover_tracing.specs.Index.{IsIndex, AreRevocable, indexed_leaves};

use crate::counts::Counts;
use crate::index::CoverIndex;
use sd_base::{NoMemory, Steps};
use sd_tree_keys::{Height, SetName};
use std::alloc::{AllocError, Global};
use std::sync::ledger::Ledger;

impl CoverIndex {
    /// The chain cover of the leaves that are not revoked, ascending [Naor, Naor, Lotspiech 2001, 3.2].
    pub fn sets<L: Ledger>(
        &self,
        alloc: Global,
        steps: &mut Steps<L>,
    ) -> Result<Vec<SetName>, NoMemory>
        ensures leaves { AreRevocable self.now.height self.now.revoked }
        ensures value { IfOk result (λ sets. (sets.items ≡ cover_of self.now.height self.now.revoked)
            × IsChainCover self.now.height self.now.revoked sets.items) }
        ensures steps { steps.new ≤ steps.old + (length self.now.revoked * self.now.height + 1) }
    {
        Ok(chain_sets(alloc, &self.counts, self.height, steps)?)
    }
}

// The sets of all chains, ascending.
fn chain_sets<L: Ledger>(
    alloc: Global,
    counts: &Counts,
    h: Height,
    steps: &mut Steps<L>,
) -> Result<Vec<SetName>, AllocError>
    requires index { IsIndex h counts.now.counts }
    ensures value { IfOk result (λ sets. (sets.items ≡ cover_of h (indexed_leaves h counts.now.counts))
        × IsChainCover h (indexed_leaves h counts.now.counts) sets.items) }
    ensures steps { steps.new ≤ steps.old + (length (indexed_leaves h counts.now.counts) * h + 1) }
{
    let mut sets = Vec::new(alloc);
    let levels = u32::from(h.get());
    let revoked = counts.get(1, steps);
    if revoked == 0 {
        sets.push(SetName::Whole)?;
        return Ok(sets);
    }
    walk(&mut sets, counts, h, 1, 1, levels, revoked, steps)?;
    sets.sort_unstable();
    Ok(sets)
}

// Adds the sets of the chain that begins at `head` and goes on at node v, and of those that begin below v. Node v
// stands `level` steps above the leaves, and so many revoked leaves are at or below it.
fn walk<L: Ledger>(
    sets: &mut Vec<SetName>,
    counts: &Counts,
    h: Height,
    head: u32,
    v: u32,
    level: u32,
    revoked: u32,
    steps: &mut Steps<L>,
) -> Result<(), AllocError>
    requires height { h ≤ HIGHEST }
    requires index { IsIndex h counts.now.counts }
    requires stands { StandsAt h level v }
    requires revoked { revoked ≡ tally_at counts.now.counts v }
    requires chain { IsOnChain h (indexed_leaves h counts.now.counts) head v }
    ensures value { OnOk result (AddsChains h (indexed_leaves h counts.now.counts) head v sets.old.items
        sets.new.items) }
    ensures steps { steps.new ≤ steps.old + revoked * level }
{
    if level == 0 {
        return push_chain(sets, head, v);
    }
    let left_child = 2 * v;
    let right_child = left_child + 1;
    let left = counts.get(left_child, steps);
    let right = revoked - left;
    if right == 0 {
        walk(sets, counts, h, head, left_child, level - 1, left, steps)
    } else if left == 0 {
        walk(sets, counts, h, head, right_child, level - 1, right, steps)
    } else {
        push_chain(sets, head, v)?;
        walk(
            sets,
            counts,
            h,
            left_child,
            left_child,
            level - 1,
            left,
            steps,
        )?;
        walk(
            sets,
            counts,
            h,
            right_child,
            right_child,
            level - 1,
            right,
            steps,
        )
    }
}

// Adds the set of a chain from its first node to its last.
fn push_chain(sets: &mut Vec<SetName>, head: u32, end: u32) -> Result<(), AllocError>
    ensures value { OnOk result (sets.new.items ≡ sets.old.items ++ of_ends head end) }
{
    if head != end {
        sets.push(SetName::Diff { i: head, j: end })?;
    }
    Ok(())
}

ghost use Rattle.std.specs.Prelude.{◌≡◌, ◌+◌, ◌^◌, ◌<◌, ◌≤◌, ◌↔◌, [], Contains, IsTrue, OnOk, OnErr};
ghost use Rattle.sd_tree_keys.specs.Leaves.{with_leaf, without_leaf};
ghost use Rattle.sd_cover_tracing.specs.declared.index.TheConstants.{MOST_SPARE};

use crate::counts::Counts;
use crate::path::{lower_path, lowest_node, raise_path};
use sd_base::{NoMemory, Steps};
use sd_tree_keys::{HIGHEST, Height, Leaf};
use std::alloc::Global;
use std::marker::Model;
use std::sync::ledger::Ledger;

/// The most revocations that can be reserved for: one of each leaf of the highest tree.
pub const MOST_SPARE: u32 = 1 << HIGHEST;

/// The revoked leaves of a tree, by a count for each node: how many are at or below it.
#[derive(Drop)]
pub struct CoverIndex {
    /// The height of the tree.
    pub height: Height,
    /// The number of revoked leaves at or below each node that has one.
    pub counts: Counts,
}

impl Model for CoverIndex {
    ghost use Rattle.std.specs.Prelude.{◌+◌, ◌/◌};
    ghost use Rattle.sd_cover_tracing.specs.Index.{IndexValue, IsIndex, indexed_leaves};

    ghost Value = { IndexValue };

    ghost view = { λ x. record {
      height = x.height;
      revoked = indexed_leaves x.height x.counts.counts;
      spare = x.counts.room / (x.height + 1);
    } };

    ghost invariant = { λ x. IsIndex x.height x.counts.counts };
}

impl CoverIndex {
    /// No leaf is revoked. It takes no memory.
    pub fn new(alloc: Global, h: Height) -> CoverIndex
        ensures value { (result.height ≡ h) × (result.revoked ≡ []) }
        ensures fits { result.spare ≡ 0 }
    {
        CoverIndex {
            height: h,
            counts: Counts::new(alloc),
        }
    }

    /// Reserves room for this number of further revocations, which then allocate nothing.
    pub fn reserve(&mut self, more: u32) -> Result<(), NoMemory>
        requires fits { more ≤ MOST_SPARE }
        ensures value { (self.new.height ≡ self.old.height) × (self.new.revoked ≡ self.old.revoked) }
        ensures ok { OnOk result (more ≤ self.new.spare) }
        ensures fits { self.old.spare ≤ self.new.spare }
        ensures unchanged { OnErr result (self.new ≡ self.old) }
    {
        let nodes = u32::from(self.height.get()) + 1;
        self.counts.reserve(more * nodes)
    }

    /// Whether the leaf is revoked, by one visit. It takes no memory.
    pub fn is_revoked<L: Ledger>(&self, u: Leaf, steps: &mut Steps<L>) -> bool
        requires leaf { u < 2 ^ self.now.height }
        ensures value { IsTrue result ↔ Contains self.now.revoked u }
        ensures steps { steps.new ≡ steps.old + 1 }
    {
        self.counts.get(lowest_node(self.height, u), steps) == 1
    }

    /// Revokes a leaf, by a visit of each node of its path. It takes no memory.
    pub fn revoke<L: Ledger>(&mut self, u: Leaf, steps: &mut Steps<L>)
        requires leaf { u < 2 ^ self.old.height }
        requires other { ¬ Contains self.old.revoked u }
        requires spare { 1 ≤ self.old.spare }
        ensures unchanged { self.new.height ≡ self.old.height }
        ensures value { self.new.revoked ≡ with_leaf self.old.height u self.old.revoked }
        ensures fits { self.old.spare ≤ self.new.spare + 1 }
        ensures steps { steps.new ≡ steps.old + (self.old.height + 1) }
    {
        let node = lowest_node(self.height, u);
        raise_path(&mut self.counts, self.height, node, steps);
    }

    /// Revokes a leaf no more, by a visit of each node of its path. It takes no memory.
    pub fn subscribe<L: Ledger>(&mut self, u: Leaf, steps: &mut Steps<L>)
        requires leaf { u < 2 ^ self.old.height }
        requires revoked { Contains self.old.revoked u }
        ensures unchanged { self.new.height ≡ self.old.height }
        ensures value { self.new.revoked ≡ without_leaf u self.old.revoked }
        ensures fits { self.old.spare ≤ self.new.spare }
        ensures steps { steps.new ≡ steps.old + (self.old.height + 1) }
    {
        let node = lowest_node(self.height, u);
        lower_path(&mut self.counts, self.height, node, steps);
    }
}

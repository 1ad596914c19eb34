ghost use Rattle.std.specs.Prelude.{◌≡◌, ℕ, ◌+◌, ◌^◌, ◌<◌, ◌≤◌};
ghost use Rattle.sd_tree_keys.specs.declared.height.TheConstants.{HIGHEST};
ghost use Rattle.sd_tree_keys.specs.Paths.{leaf_node as leaf_node_of};
ghost use Rattle.sd_cover_tracing.specs.declared.counts.TheConstants.{NODES};
ghost use Rattle.sd_cover_tracing.specs.Tally.{tally_at};
ghost use Rattle.sd_cover_tracing.specs.Path.{path_visit_count};

use crate::counts::Counts;
use sd_base::Steps;
use sd_tree_keys::{HIGHEST, Height, Leaf, leaf_node};
use std::sync::ledger::Ledger;

/// The number of a leaf's node.
pub fn lowest_node(h: Height, u: Leaf) -> u32
    requires leaf { u < 2 ^ h }
    ensures value { result ≡ leaf_node_of h u }
    ensures fits { result < 2 ^ (h + 1) }
    ensures most { result < NODES }
    ensures height { h ≤ HIGHEST }
{
    prove!(h.get() <= HIGHEST);
    leaf_node(h, u)
}

/// Adds one to the count of each node from one of the lowest up to the root.
pub fn raise_path<L: Ledger>(counts: &mut Counts, h: Height, node: u32, steps: &mut Steps<L>)
    requires low { 2 ^ h ≤ node }
    requires high { node < 2 ^ (h + 1) }
    requires most { node < NODES }
    requires fits { (v : ℕ) → 1 ≤ v → v < 2 ^ (h + 1) → tally_at counts.old.counts v ≤ 2 ^ h }
    requires room { h + 1 ≤ counts.old.room }
    ensures value { (v : ℕ) → tally_at counts.new.counts v ≡ tally_at counts.old.counts v + path_visit_count node
        (h + 1) v }
    ensures room { counts.old.room ≤ counts.new.room + (h + 1) }
    ensures steps { steps.new ≡ steps.old + (h + 1) }
{
    for level in 0..u32::from(h.get()) + 1 {
        counts.raise(node >> level, steps);
    }
}

/// Takes one from the count of each node from one of the lowest up to the root.
pub fn lower_path<L: Ledger>(counts: &mut Counts, h: Height, node: u32, steps: &mut Steps<L>)
    requires low { 2 ^ h ≤ node }
    requires high { node < 2 ^ (h + 1) }
    requires most { node < NODES }
    requires some { (v : ℕ) → 1 ≤ v → v < 2 ^ (h + 1) → path_visit_count node (h + 1) v ≤ tally_at counts.old.counts v }
    ensures value { (v : ℕ) → tally_at counts.new.counts v + path_visit_count node (h + 1) v
        ≡ tally_at counts.old.counts v }
    ensures room { counts.old.room ≤ counts.new.room }
    ensures steps { steps.new ≡ steps.old + (h + 1) }
{
    for level in 0..u32::from(h.get()) + 1 {
        counts.lower(node >> level, steps);
    }
}

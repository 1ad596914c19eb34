ghost use Rattle.std.specs.Prelude.{◌≡◌, ◌+◌, ◌-◌, ◌≤◌, ◌++◌, ◌∷◌, []};
ghost use Rattle.sha2.specs.Sha256.{sha256};
ghost use Rattle.sd_tree_keys.specs.Node.{depth as depth_of, IsAbove};
ghost use Rattle.sd_tree_keys.specs.Labels.{label_of_node, third_of, middle_of, side_of, descended};

use crate::depth;
use crate::digest::{numbered, tagged};
use sd_base::Steps;
use std::sync::ledger::Ledger;

/// The label of a pair of nodes, from which the labels of all pairs below it are made
/// (Naor, Naor and Lotspiech, 2001, 3.2).
#[derive(Clone, Copy)]
pub struct Label(pub [u8; 32]);

/// Which child of its parent a node is.
#[derive(Clone, Copy)]
pub enum Side {
    /// The left child, of an even number.
    Left,
    /// The right child, of an odd number.
    Right,
}

impl Side {
    // Which child the node is.
    fn of(node: u32) -> Side
        ensures { result ≡ side_of node }
    {
        if node % 2 == 0 {
            Side::Left
        } else {
            Side::Right
        }
    }
}

/// The label of node i itself.
#[tactic(auto, unfolding(crate::specs::Labels::label_of_node))]
pub fn root_label(master: &[u8; 32], i: u32) -> Label
    ensures { result.0 ≡ label_of_node master.now i }
{
    Label(numbered(master, b'I', i))
}

/// The label of a child, by one step of the generator.
#[tactic(auto, unfolding(crate::specs::Labels::left_of, crate::specs::Labels::right_of))]
pub fn step<L: Ledger>(label: &Label, side: Side, steps: &mut Steps<L>) -> Label
    ensures value { result.0 ≡ third_of side label.now.0 }
    ensures steps { steps.new ≡ steps.old + 1 }
{
    match side {
        Side::Left => Label(generated(label, b'L', steps)),
        Side::Right => Label(generated(label, b'R', steps)),
    }
}

/// The key that belongs to a label, by one step of the generator.
#[tactic(auto, unfolding(crate::specs::Labels::middle_of))]
pub fn middle<L: Ledger>(label: &Label, steps: &mut Steps<L>) -> [u8; 32]
    ensures value { result ≡ middle_of label.now.0 }
    ensures steps { steps.new ≡ steps.old + 1 }
{
    generated(label, b'M', steps)
}

// One step of the generator.
fn generated<L: Ledger>(label: &Label, third: u8, steps: &mut Steps<L>) -> [u8; 32]
    ensures value { result ≡ sha256 (label.now.0 ++ third ∷ []) }
    ensures steps { steps.new ≡ steps.old + 1 }
{
    steps.tick();
    tagged(&label.0, third)
}

/// The label at node `to`, from a label that is held at a node above it or at `to` itself. It takes one step for each
/// level.
pub fn descend<L: Ledger>(label: &Label, from: u32, to: u32, steps: &mut Steps<L>) -> Label
    requires node { 1 ≤ from }
    requires above { IsAbove from to }
    ensures value { result.0 ≡ descended label.now.0 from to }
    ensures steps { steps.new ≡ steps.old + (depth_of to - depth_of from) }
{
    let levels = depth(to) - depth(from);
    let mut held = *label;
    for level in 0..levels {
        let node = to >> (levels - level - 1);
        held = step(&held, Side::of(node), steps);
    }
    held
}

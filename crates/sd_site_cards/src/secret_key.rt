ghost use Rattle.std.specs.Prelude.{◌≡◌, ℕ, ◌+◌, ◌-◌, ◌≤◌, List};
ghost use Rattle.sd_tree_keys.specs.Node.{depth as depth_of, IsAbove};
ghost use Rattle.sd_tree_keys.specs.Labels.{descended, middle_of};
ghost use Rattle.sd_tree_keys.specs.declared.name.Name.{Name};
ghost use Rattle.sd_tree_keys.specs.declared.name.Name.TheVariants.{Pair};
ghost use Rattle.sd_site_cards.specs.Secrets.{HoldsSecret, DerivesPair};

use sd_base::Steps;
use sd_tree_keys::{Label, descend, middle};
use std::sync::ledger::Ledger;

/// The key of S(i,j) from the label of i with a node that is j or above it: the middle third of the label of (i,j). It
/// takes a step for each level between the two nodes, and one for the key [Naor, Naor, Lotspiech 2001, 3.2].
pub fn key_below<L: Ledger>(label: &[u8; 32], node: u32, j: u32, steps: &mut Steps<L>) -> [u8; 32]
    requires node { 1 ≤ node }
    requires above { IsAbove node j }
    ensures value { result ≡ middle_of (descended label.now node j) }
    ensures steps { steps.new ≡ steps.old + (depth_of j - depth_of node + 1) }
    // So it is derived from all secrets that hold the label.
    ensures sound { (names : List Name) (secrets : List (List ℕ)) (i : ℕ) →
        HoldsSecret names secrets (Pair i node) label.now →
        DerivesPair names secrets i j result (steps.new - steps.old) }
{
    middle(&descend(&Label(*label), node, j, steps), steps)
}

//! What the definitions of labels and names come to.

ghost use Rattle.std.specs.Prelude.{◌≡◌, ℕ, ◌+◌, ◌*◌, ◌/◌, ◌^◌, ◌<◌, ◌≤◌, ◌↔◌, List, length, Contains};
ghost use Rattle.sd_tree_keys.specs.Node.{IsAbove};
ghost use Rattle.sd_tree_keys.specs.Labels.{label_of_node, label_of, left_of, right_of, descended};
ghost use Rattle.sd_tree_keys.specs.Names.{names_of_receiver, IsGivenPair};

use sd_tree_keys::Name;

/// A label that is held at w leads to the labels of all nodes below w, whichever node above it is held.
#[tactic(auto, using(sd_tree_keys::proofs::Descents::held_gives_label))]
pub fn held_label()
    ensures { (master : List ℕ) (i w j : ℕ) → 1 ≤ i → j < 2 ^ 32 → IsAbove i w → IsAbove w j →
        descended (label_of master i w) w j ≡ label_of master i j }
{}

/// The labels of one node's pairs by its own label and the generator (Naor, Naor and Lotspiech, 2001, 3.2).
#[tactic(auto, using(sd_tree_keys::proofs::Descents::label_of_itself, sd_tree_keys::proofs::Descents::label_of_left, sd_tree_keys::proofs::Descents::label_of_right))]
pub fn labels_of_pairs()
    ensures node { (master : List ℕ) (i : ℕ) → label_of master i i ≡ label_of_node master i }
    ensures left { (master : List ℕ) (i v : ℕ) → 1 ≤ i → 2 * v < 2 ^ 32 → IsAbove i v →
        label_of master i (2 * v) ≡ left_of (label_of master i v) }
    ensures right { (master : List ℕ) (i v : ℕ) → 1 ≤ i → 2 * v + 1 < 2 ^ 32 → IsAbove i v →
        label_of master i (2 * v + 1) ≡ right_of (label_of master i v) }
{}

/// What a leaf is given: the whole set, the pairs of its ancestors with the siblings of the path below them, and
/// nothing else.
#[tactic(auto, using(sd_tree_keys::proofs::NameCounts::length_given, sd_tree_keys::proofs::Pairs::given_whole))]
pub fn names_given()
    ensures count { (d u : ℕ) → length (names_of_receiver d u) ≡ d * (d + 1) / 2 + 1 }
    ensures whole { (d u : ℕ) → Contains (names_of_receiver d u) Name.Whole }
    ensures pairs { (d u i w : ℕ) → u < 2 ^ d → Contains (names_of_receiver d u) (Name.Pair i w) ↔ IsGivenPair d u i w }
{}

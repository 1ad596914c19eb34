ghost use Rattle.std.specs.Prelude.{◌≡◌, ◌^◌, ◌<◌, All, length};
ghost use Rattle.std.specs.List.{list_any};
ghost use Rattle.sd_tree_keys.specs.SetNames.{IsOfHeight};
ghost use Rattle.sd_tree_keys.specs.Leaves.{is_member};
ghost use Rattle.sd_cover_tracing.specs.Search.{opens_some as some_opens};

use crate::target::TestBox;
use sd_tree_keys::{Height, Leaf, SetName, contains};

/// A box with the cards of some leaves, in memory.
#[derive(Drop)]
pub struct CoalitionBox {
    height: Height,
    leaves: Vec<Leaf>,
    asked: u64,
    pub ghost fits: { All (λ u. u < 2 ^ height) leaves.items },
}

impl CoalitionBox {
    /// The box with the cards of these leaves. It takes no memory.
    pub fn new(h: Height, leaves: Vec<Leaf>) -> CoalitionBox
        requires { All (λ u. u < 2 ^ h) leaves.items }
        ensures height { result.height ≡ h }
        ensures leaves { result.leaves ≡ leaves }
        ensures asked { result.asked ≡ 0 }
    {
        CoalitionBox {
            height: h,
            leaves,
            asked: 0,
        }
    }
}

impl TestBox for CoalitionBox {
    ghost use Rattle.std.specs.Prelude.{Some};

    ghost height = { λ x. x.height };

    ghost coalition = { λ x. Some x.leaves.items };

    ghost asked = { λ x. x.asked };

    fn probe(&mut self, sets: &[SetName], right: &[bool]) -> bool {
        self.asked += 1;
        opens_some(self.height, &self.leaves, sets, right)
    }
}

// Whether a set with a right key has one of the leaves.
#[tactic(auto, using(crate::proofs::Boxes::opens_here, crate::proofs::Boxes::shut_key, crate::proofs::Boxes::shut_set), unfolding(crate::specs::Search::opens_some))]
fn opens_some(h: Height, leaves: &[Leaf], sets: &[SetName], right: &[bool]) -> bool
    requires leaves { All (λ u. u < 2 ^ h) leaves.now }
    requires names { All (IsOfHeight h) sets.now }
    requires lengths { length sets.now ≡ length right.now }
    ensures { result ≡ some_opens h leaves.now sets.now right.now }
{
    for at in 0..sets.len() {
        if right[at] && has_some(h, leaves, sets[at]) {
            return true;
        }
    }
    false
}

// Whether one of the leaves is in the set.
fn has_some(h: Height, leaves: &[Leaf], name: SetName) -> bool
    requires name { IsOfHeight h name }
    requires leaves { All (λ u. u < 2 ^ h) leaves.now }
    ensures { result ≡ list_any (is_member h name) leaves.now }
{
    for leaf in leaves {
        if contains(h, name, *leaf) {
            return true;
        }
    }
    false
}

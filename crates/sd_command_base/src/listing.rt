ghost use Rattle.std.specs.Prelude.{◌≡◌, ◌^◌, ◌<◌, ◌≤◌, ℕ, List, All, length, IfOk};
ghost use Rattle.std.specs.List.Sorted.{IsStrictlyIncreasing};
ghost use Rattle.sd_tree_keys.specs.declared.leaf.TheConstants.{MOST_REVOKED};
ghost use Rattle.sd_tree_keys.specs.declared.set.SetName.{SetName as Name};
ghost use Rattle.sd_tree_keys.specs.SetNames.{IsOfHeight};

use sd_base::NoMemory;
use sd_tree_keys::{Height, Leaf, SetName};
use std::alloc::Global;

/// The list that is printed of each period of a book: some sets, and a text after the name of each.
pub trait Listing {
    /// Whether it can be printed for a tree of this height.
    ghost fits: { Self → ℕ → Type 0 };

    /// The sets that are listed where these leaves are revoked, in a tree of this height.
    ghost sets: { Self → ℕ → List ℕ → List Name };

    /// What stands after a set's name, up to the end of its line, in a tree of this height.
    ghost ends: { Self → ℕ → Name → List ℕ };

    /// The sets, for at most [`sd_tree_keys::MOST_REVOKED`] revoked leaves.
    fn listed(&self, alloc: Global, h: Height, revoked: &[Leaf]) -> Result<Vec<SetName>, NoMemory>
        requires fits { fits self.now h }
        requires leaves { All (λ u. u < 2 ^ h) revoked.now }
        requires ascending { IsStrictlyIncreasing revoked.now }
        requires few { length revoked.now ≤ MOST_REVOKED }
        ensures value { IfOk result (λ listed. listed.items ≡ sets self.now h revoked.now) }
        ensures names { IfOk result (λ listed. All (IsOfHeight h) listed.items) };

    /// The end of a set's line.
    fn end(&self, h: Height, name: SetName) -> &'static str
        requires fits { fits self.now h }
        requires name { IsOfHeight h name }
        ensures { result.now ≡ ends self.now h name };
}

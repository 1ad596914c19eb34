ghost use Rattle.std.specs.Prelude.{◌≡◌, ℕ, ◌+◌, ◌-◌, ◌^◌, ◌<◌, ◌≤◌, List, Some, None, true, if◌then◌else◌};
ghost use Rattle.sd_tree_keys.specs.SetNames.{IsOfHeight};
ghost use Rattle.sd_tree_keys.specs.declared.height.TheConstants.{HIGHEST};
ghost use Rattle.sd_tree_keys.specs.Leaves.{is_member};
ghost use Rattle.sd_cover_tracing.specs.Halves.{halves_of, cuts_left, narrowed_leaf_and_cuts, only_leaf as leaf_alone};

use crate::cut::halves;
use crate::target::TestBox;
use sd_tree_keys::{Height, Leaf, SetName, sibling};

/// Cuts a set down to a leaf by asking which half opens; answers the leaf and how often it was cut
/// [Naor, Naor, Lotspiech 2001, 5].
pub fn narrow<B: TestBox>(h: Height, name: SetName, target: &mut B) -> (Leaf, u32)
    requires name { IsOfHeight h name }
    requires height { B.height target.old ≡ h }
    requires room { B.asked target.old + cuts_left h name < 2 ^ 64 }
    ensures leaf { result.0 < 2 ^ h }
    ensures member { is_member h name result.0 ≡ true }
    ensures cuts { result.1 ≤ cuts_left h name }
    ensures few { result.1 ≤ HIGHEST }
    ensures asked { B.asked target.new ≡ B.asked target.old + result.1 }
    ensures told { (coalition : List ℕ) (most : ℕ) → B.coalition target.old ≡ Some coalition →
        cuts_left h name ≤ most → (result.0, result.1) ≡ narrowed_leaf_and_cuts h coalition most name }
    ensures height { B.height target.new ≡ B.height target.old }
    ensures coalition { B.coalition target.new ≡ B.coalition target.old }
{
    let Some((first, second)) = halves(h, name) else {
        return (only_leaf(h, name), 0);
    };
    let opened = target.probe(&[first, second], &[true, false]);
    let (leaf, cuts) = narrow(h, half_of(h, name, opened, first, second), target);
    (leaf, cuts + 1)
}

// The half that is cut next: the first where the box opens for it.
#[tactic(auto, using(crate::proofs::Narrowed::first_height, crate::proofs::Narrowed::second_height, crate::proofs::Narrowed::first_fewer, crate::proofs::Narrowed::second_fewer, crate::proofs::Narrowed::first_holds, crate::proofs::Narrowed::second_holds))]
fn half_of(h: Height, name: SetName, opened: bool, first: SetName, second: SetName) -> SetName
    requires name { IsOfHeight h name }
    requires halves { halves_of h name ≡ Some (first, second) }
    ensures value { result ≡ (if opened then first else second) }
    ensures height { IsOfHeight h result }
    ensures fewer { cuts_left h result < cuts_left h name }
    ensures member { (u : ℕ) → u < 2 ^ h → is_member h result u ≡ true → is_member h name u ≡ true }
{
    if opened { first } else { second }
}

// The leaf of a set that isn't cut.
#[tactic(auto, using(crate::proofs::Narrowed::is_alone, crate::proofs::Narrowed::whole_is_cut, crate::proofs::Narrowed::alone_is_member), unfolding(crate::specs::Halves::only_leaf))]
fn only_leaf(h: Height, name: SetName) -> Leaf
    requires name { IsOfHeight h name }
    requires uncut { halves_of h name ≡ None }
    ensures value { result ≡ leaf_alone h name }
    ensures leaf { result < 2 ^ h }
    ensures member { is_member h name result ≡ true }
{
    let number = match name {
        SetName::Whole => 0,
        SetName::Diff { j, .. } => sibling(j) - h.leaves(),
    };
    match Leaf::new(h, number) {
        Some(leaf) => leaf,
        None => unreachable!(),
    }
}

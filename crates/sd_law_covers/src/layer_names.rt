ghost use Rattle.std.specs.Prelude.{◌≡◌, ◌^◌, ◌<◌, ◌≤◌, IfOk, All, filter};
ghost use Rattle.sd_tree_keys.specs.SetNames.{IsOfHeight};
ghost use Rattle.sd_lsd.specs.LayerNames.{layer_given, is_useful_name, set_of, ReachesItsUseful};

use crate::names::names_of;
use sd_base::NoMemory;
use sd_lsd::{Width, useful};
use sd_tree_keys::{HIGHEST, Height, Leaf, Name, SetName};
use std::alloc::{AllocError, Global};

/// What the leaf's layer card holds secrets of, in the card's order: the whole set, and then of the pairs of each
/// ancestor those of useful sets [Halevy, Shamir 2002, 3].
#[tactic(auto, using(sd_lsd::proofs::Reaching::reaches_its_useful), unfolding(sd_lsd::specs::LayerNames::layer_given))]
pub fn layered_names(alloc: Global, h: Height, w: Width, u: Leaf) -> Result<Vec<Name>, NoMemory>
    requires width { w ≤ h }
    requires leaf { u < 2 ^ h }
    ensures value { IfOk result (λ names. names.items ≡ layer_given h w u) }
    ensures reach { IfOk result (λ names. ReachesItsUseful h w u names.items) }
{
    prove!(h.get() <= HIGHEST);
    let names = names_of(alloc, h, u)?;
    Ok(useful_names(alloc, h, w, &names)?)
}

// Those of useful sets.
fn useful_names(alloc: Global, h: Height, w: Width, names: &[Name]) -> Result<Vec<Name>, AllocError>
    requires width { w ≤ h }
    requires names { All (λ name. IsOfHeight h (set_of name)) names.now }
    ensures { IfOk result (λ kept. kept.items ≡ filter (is_useful_name w) names.now) }
{
    let mut kept = Vec::new(alloc);
    for name in names {
        if is_of_useful(h, w, *name) {
            kept.push(*name)?;
        }
    }
    Ok(kept)
}

// Whether the name is that of a useful set.
#[tactic(auto, unfolding(sd_lsd::specs::Layers::is_useful))]
fn is_of_useful(h: Height, w: Width, name: Name) -> bool
    requires width { w ≤ h }
    requires name { IsOfHeight h (set_of name) }
    ensures { result ≡ is_useful_name w name }
{
    match name {
        Name::Whole => true,
        Name::Pair { i, w: j } => useful(h, w, SetName::Diff { i, j }),
    }
}

ghost use Rattle.std.specs.Prelude.{◌≡◌, ◌<◌, ◌≤◌};
ghost use Rattle.sd_tree_keys.specs.SetNames.{IsOfHeight};
ghost use Rattle.sd_lsd.specs.Layers.{is_useful, layer_end as end_of_layer};

use crate::width::Width;
use sd_tree_keys::{Height, SetName, depth};

/// Whether the set is useful in layers of this width: it has a key of its own [Halevy, Shamir 2002, 3].
#[tactic(auto, unfolding(crate::specs::Layers::is_useful))]
pub fn useful(h: Height, w: Width, name: SetName) -> bool
    requires width { w ≤ h }
    requires name { IsOfHeight h name }
    ensures { result ≡ is_useful w name }
{
    match name {
        SetName::Whole => true,
        SetName::Diff { i, j } => {
            depth(i) % u32::from(w.get()) == 0 || depth(j) <= layer_end(w, depth(i))
        }
    }
}

/// The first depth greater than this one at which a layer ends, the next multiple of the width
/// [Halevy, Shamir 2002, 3].
#[tactic(auto, using(crate::proofs::Layers::layer_bounds), unfolding(crate::specs::Layers::layer_end))]
pub fn layer_end(w: Width, depth: u32) -> u32
    requires { depth < 32 }
    ensures value { result ≡ end_of_layer w depth }
    ensures deeper { depth < result }
{
    let w = u32::from(w.get());
    (depth / w + 1) * w
}

ghost use Rattle.std.specs.Prelude.{◌≡◌, ◌+◌, ◌-◌, ◌*◌, ◌<◌, ◌≤◌};
ghost use Rattle.sd_tree_keys.specs.declared.height.TheConstants.{HIGHEST};
ghost use Rattle.sd_lsd.specs.LayerNames.{pairs_under as pairs_of, pairs_above as pairs_before};
ghost use Rattle.sd_lsd.specs.LayerNames.{layer_count as count_of};

use crate::{Width, layer_end};
use sd_tree_keys::{HIGHEST, Height};

// How many pairs of its ancestor at this depth a leaf is given.
#[tactic(auto, using(crate::proofs::Pairs::below_both, crate::proofs::Pairs::under_within), unfolding(crate::specs::LayerNames::pairs_under))]
pub(crate) fn pairs_under(h: Height, w: Width, depth: u32) -> u32
    requires { depth < h }
    ensures value { result ≡ pairs_of h w depth }
    ensures within { result ≤ h - depth }
{
    let height = u32::from(h.get());
    if depth % u32::from(w.get()) == 0 {
        height - depth
    } else {
        layer_end(w, depth).min(height) - depth
    }
}

// How many pairs of its ancestors above this depth a leaf is given.
#[tactic(auto, using(crate::proofs::Pairs::above_none, crate::proofs::Pairs::above_more))]
pub(crate) fn pairs_above(h: Height, w: Width, depth: u32) -> u32
    requires { depth ≤ h }
    ensures value { result ≡ pairs_before h w depth }
    ensures within { result ≤ HIGHEST * depth }
{
    prove!(h.get() <= HIGHEST);
    let mut pairs = 0;
    for above in 0..depth {
        pairs += pairs_under(h, w, above);
    }
    pairs
}

// How many pairs a leaf is given.
#[tactic(auto, unfolding(crate::specs::LayerNames::layer_count))]
pub(crate) fn layer_count(h: Height, w: Width) -> usize
    ensures value { result ≡ count_of h w }
    ensures within { result ≤ 400 }
{
    pairs_above(h, w, u32::from(h.get())) as usize
}

ghost use Rattle.std.specs.Prelude.{◌≡◌, ◌+◌, ◌^◌, ◌<◌, ◌≤◌, length};
ghost use Rattle.sd_tree_keys.specs.declared.height.TheConstants.{HIGHEST};
ghost use Rattle.sd_lsd.specs.LayerNames.{layer_count};

use crate::Width;
use sd_tree_keys::{Height, Leaf};

/// What a receiver is given once in layers: the whole set's key and the labels of its leaf's pairs of useful sets, in
/// their order [this project, docs/FORMATS.md, Layer card].
#[derive(Drop)]
pub struct LayerCard {
    pub(crate) height: Height,
    pub(crate) width: Width,
    pub(crate) leaf: Leaf,
    pub(crate) ca: u16,
    pub(crate) secrets: Vec<[u8; 32]>,
    ghost height_in: { (1 ≤ height) × (height ≤ HIGHEST) },
    ghost width_in: { (1 ≤ width) × (width ≤ height) },
    ghost leaf_in: { leaf < 2 ^ height },
    ghost count: { length secrets.items ≡ layer_count height width + 1 },
}

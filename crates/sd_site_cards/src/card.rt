ghost use Rattle.std.specs.Prelude.{◌≡◌, ◌+◌, ◌*◌, ◌/◌, ◌^◌, ◌<◌, ◌≤◌, length};
ghost use Rattle.sd_tree_keys.specs.declared.height.TheConstants.{HIGHEST};

use sd_tree_keys::{Height, Leaf};

/// What a receiver is given once: the whole set's key and the labels of its leaf, in their order [this project,
/// docs/FORMATS.md, Card].
#[derive(Drop)]
pub struct Card {
    pub(crate) height: Height,
    pub(crate) leaf: Leaf,
    pub(crate) ca: u16,
    pub(crate) secrets: Vec<[u8; 32]>,
    ghost height_in: { (1 ≤ height) × (height ≤ HIGHEST) },
    ghost leaf_in: { leaf < 2 ^ height },
    ghost count: { length secrets.items ≡ height * (height + 1) / 2 + 1 },
}

impl Card {
    /// The height of the tree of receivers.
    pub fn height(&self) -> Height
        ensures { result ≡ self.now.height }
    {
        self.height
    }

    /// The receiver's leaf.
    pub fn leaf(&self) -> Leaf
        ensures { result ≡ self.now.leaf }
    {
        self.leaf
    }

    /// The conditional access system that the card belongs to.
    pub fn ca(&self) -> u16
        ensures { result ≡ self.now.ca }
    {
        self.ca
    }
}

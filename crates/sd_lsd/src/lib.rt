//! Layered Subset Difference: the sets that are useful in layers of the tree, the cover by them, and the layer card.
#![tactic(auto)]

mod card;
mod counts;
mod cover;
mod format;
mod layer;
mod make;
mod width;
mod write;

pub use card::LayerCard;
pub use cover::layered_cover;
pub use layer::{layer_end, useful};
pub use width::Width;

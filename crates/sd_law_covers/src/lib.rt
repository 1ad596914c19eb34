//! What trees, labels, covers, tracing and layers come to, and the names that a receiver is given: which keys and
//! labels
//! follow from them by the steps of the generator.
#![tactic(auto)]

pub mod covers;
pub mod labels;
mod layer_names;
pub mod layers;
mod names;
pub mod reach;
mod reaching;
pub mod traces;
pub mod trees;

pub use layer_names::layered_names;
pub use names::names_of;
pub use reaching::reaches;

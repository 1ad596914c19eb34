//! The cover by chains of the Steiner tree, and its incremental index, which keeps the revoked leaves between periods.
//! Tracing: which leaves of an unknown coalition still open what is sent to a box. Which keys follow from the names
//! that
//! receivers are given, by the steps of the generator.
#![tactic(auto)]

mod coalition;
mod counts;
mod cut;
mod found;
mod index;
mod keys;
mod narrow;
mod path;
mod search;
mod sets;
mod target;
mod tracing;
mod walk;

pub use coalition::CoalitionBox;
pub use counts::{Counts, MOST_ROOM, NODES};
pub use cut::halves;
pub use found::{Found, TraceFault};
pub use index::{CoverIndex, MOST_SPARE};
pub use keys::opens;
pub use target::TestBox;
pub use tracing::trace_all;
pub use walk::{CoverFault, cover};

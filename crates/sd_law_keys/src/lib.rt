//! Which key lies under which, what is hashed for each of them, what a period's key costs, and what a receiver writes
//! of
//! any stream.
#![tactic(auto)]

mod costs;
mod inputs;
mod numbers;
mod wraps;
mod written;

pub use costs::a_period_costs_at_most_the_height;
pub use inputs::{inputs_are_hashed, inputs_differ};
pub use numbers::stream_numbers_have_64_bits;
pub use wraps::wraps_are_steps;
pub use written::written_packets_are_named;

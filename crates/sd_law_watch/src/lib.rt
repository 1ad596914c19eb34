//! What counts of a stream that may be damaged, and what a receiver that goes on makes of broadcasts.
#![tactic(auto)]

pub mod broadcasts;
pub mod counting;

//! What losses cost: which of the clear packets that are due to a card are written if parts of a broadcast are lost.
#![tactic(auto)]

pub mod cost;
pub mod progress;
pub mod switches;

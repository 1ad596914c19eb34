//! What a receiver hears of a broadcast, of one of which packets are lost, and of several one after the other.
#![tactic(auto)]

pub mod laws;

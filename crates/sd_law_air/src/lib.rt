//! Laws on which packets are sent by a head end that goes on, whatever comes.
#![tactic(auto)]

pub mod laws;

//! Damage is contained: that of other packets changes nothing of a PID, and changed bits stay in their packets.
#![tactic(auto)]

pub mod laws;

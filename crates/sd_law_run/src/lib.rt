//! What follows from the clauses of the one call: what it does with good arguments and good files.
#![tactic(auto)]

pub mod airing;
pub mod done;
pub mod folders;
pub mod headline;
pub mod helped;
pub mod laws;
pub mod losses;
pub mod told;
pub mod watching;

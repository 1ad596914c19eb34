//! A depot of files in memory and its sources. Calls of them can be made to fail by their numbers: the tests' outside.
#![tactic(auto)]

mod failing;
mod shelf;
mod supply;

pub use shelf::MemDepot;
pub use supply::MemSource;

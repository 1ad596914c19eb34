//! The outside on the machine: its files, and a writer such as the standard output.
#![tactic(auto)]

mod depot;
mod error;
mod identity;
mod inlet;
mod outlet;
mod print;
mod target;

pub use depot::HostDepot;
pub use identity::{
    Identity, Kind, Output, SAME_FILE, add_input, may_make, may_read, spare_inputs,
};
pub use inlet::HostInlet;
pub use outlet::HostOutlet;
pub use print::StdPrint;

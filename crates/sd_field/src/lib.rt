//! The events of a field, run one after the other.
#![tactic(auto)]

mod fault;
mod field;
mod hear;
mod laid;
pub mod laws;
mod line;
mod script;
mod seat;
mod station;

pub use fault::{FieldFault, ScriptFault};
pub use field::Field;
pub use script::{MOST_EVENTS, read_script};

//! The outside as traits: sources, sinks and depots of files; a source of a slice and a sink in memory.
#![tactic(auto)]

mod depot;
mod fault;
mod file;
mod prefix;
mod sink;
mod slice;
mod source;
mod store;
mod whole;

pub use depot::Depot;
pub use fault::{DepotFault, PortFault};
pub use file::{FileFault, New, read_file, write_file, write_new};
pub use prefix::{ReadMostFault, Taken, read_most};
pub use sink::Sink;
pub use slice::SliceSource;
pub use source::Source;
pub use store::{MemSink, is_listed};
pub use whole::{ReadAllFault, read_all, write_all};

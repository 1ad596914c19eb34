//! The watcher: a receiver for a stream that may be damaged. It passes over the packets that don't count, counts them,
//! and reports on each run as it ends.
#![tactic(auto)]

mod copies;
mod recent;
mod renumber;
mod uncounted;
mod watcher;
mod watching;

pub use watcher::Watcher;

//! What a broadcast, a receiver and a field are to be: definitions that the head end, the receiver and the theorems
//! share.
#![tactic(auto)]

mod ending;
mod event;
mod kind;
mod left_out;
mod report;

pub use ending::Ending;
pub use event::Event;
pub use kind::Kind;
pub use left_out::LeftOut;
pub use report::{Report, Tally};

//! Transport packets: their header, their payload, and the positions that their counters give.
#![tactic(auto)]

mod packet;
mod position;
mod section;

pub use packet::{Packet, SIZE};
pub use position::{HIGHEST_POSITIONAL, LOWEST_POSITIONAL, advance, is_positional};
pub use section::pack_section;

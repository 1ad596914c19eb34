//! A stream of transport packets, driven one by one from a source through a stage to a sink, and a clear stream for
//! trials: one program, whose payloads a generator of numbers fills.
#![tactic(auto)]

mod driver;
mod fault;
mod feed;
mod sample_packet;
mod sample_stream;
mod seeking;
mod stage;

pub use driver::{DriveFault, MOST_PACKETS, ROOM, drive};
pub use fault::{BreakCause, StreamBreak};
pub use sample_stream::{MOST_SAMPLE_PACKETS, sample};
pub use seeking::{Ahead, SeekFault, seek};
pub use stage::{Stage, StageFault};

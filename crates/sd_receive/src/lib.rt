//! The receiver: a stage of packets that writes what a card opens of a broadcast, by what it keeps of its messages.
//! What it buffers between two control messages, and which of these packets the second message confirms.
#![tactic(auto)]

mod buffer;
mod ecm;
mod emm;
mod filter;
pub mod laws;
mod receiver;
mod session;

pub use buffer::{BufferFault, MOST_HELD, PacketBuffer};
pub use ecm::{EcmAssembler, EcmProgress};
pub use emm::PeriodKeys;
pub use filter::{Channel, channel_of};
pub use receiver::{EndedRun, Receiver};
pub use sd_message::StreamFault;
pub use sd_spec::Ending;

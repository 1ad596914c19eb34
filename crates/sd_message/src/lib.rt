//! The messages of a broadcast, each one section, alone in its packet after pointer 0. Entitlements: which sets of
//! receivers a period names, each with the period key wrapped for it. Control messages: the control word of a crypto
//! period, wrapped, and the positions of the stream's PIDs. And why a head end refuses a clear
//! packet, and a receiver a packet.
#![tactic(auto)]

mod body;
mod clear_fault;
mod ecm_fault;
mod ecm_format;
mod ecm_message;
mod ecm_order;
mod ecm_part;
mod ecm_read;
mod ecm_write;
mod emm;
mod emm_fault;
mod emm_format;
mod emm_order;
mod emm_period;
mod emm_read;
mod emm_write;
mod frame;
mod stream_fault;

pub use clear_fault::ClearFault;
pub use ecm_fault::EcmFault;
pub use ecm_format::{MOST_PLACES, POSITIONS};
pub use ecm_message::{EcmHead, part_count};
pub use ecm_part::{EcmPart, Place};
pub use ecm_read::read_ecm;
pub use ecm_write::write_ecm;
pub use emm::{Emm, Entry};
pub use emm_fault::EmmFault;
pub use emm_format::{MOST_ENTRIES, MOST_SETS};
pub use emm_order::are_ascending;
pub use emm_period::section_count;
pub use emm_read::read_emm;
pub use emm_write::write_emm;
pub use frame::{pack, section_in};
pub use stream_fault::StreamFault;

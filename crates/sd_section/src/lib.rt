//! Sections: read, written with their CRC_32, and assembled from the packets of a PID.
#![tactic(auto)]

mod assembler;
mod begun;
mod crc;
mod fault;
mod holds;
mod limits;
mod making;
mod read;
mod section;
mod table;
mod write;

pub use assembler::Assembler;
pub use crc::crc32;
pub use fault::SectionFault;
pub use read::read_one;
pub use section::Section;
pub use write::{Header, seal};

//! The keystream, and what is laid under it: keys wrapped under keys, and packets scrambled under control words.
#![tactic(auto)]

mod key;
mod keystream;
mod payload;

pub use key::{unwrap_checked, wrap};
pub use keystream::{fill, first_bytes, lay, payload_stream};
pub use payload::{Parity, descramble, scramble};

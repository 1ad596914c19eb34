//! What nearly all crates share: fields of bits, counts of I/O errors, out of memory, and a counter of generator steps.
//! Text files as this project reads them: lines that end at line feeds, a line cut at a
//! space, and decimals after a word.
#![tactic(auto)]

mod decimals;
mod field;
mod lines;
mod memory;
mod steps;
mod word;

pub use decimals::{NumberFault, number_after};
pub use field::{get, set};
pub use lines::{cut_at_space, next_line};
pub use memory::NoMemory;
pub use steps::Steps;

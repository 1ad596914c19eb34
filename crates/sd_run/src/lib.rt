//! The program's one call, `run`: it takes arguments, reads and makes files, prints text, and returns a status. `start`
//! gives it the machine's files and outputs, and the program its exit.
#![tactic(auto)]

mod edge;
mod lines;
mod program;
mod top;
mod work;

pub use program::start;
pub use top::run;

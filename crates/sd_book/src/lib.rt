//! The book of subscribe, revoke and period commands, which says who is revoked in each period.
#![tactic(auto)]

mod book;
mod command;
mod draft;
mod fault;
mod limits;
mod line;
mod periods;
mod place;
mod reading;
mod replay;
mod tally;
mod writing;

pub use book::Book;
pub use command::Command;
pub use draft::Draft;
pub use fault::{BookFault, BookLimit};
pub use limits::{MOST_COMMANDS, MOST_PERIODS};
pub use periods::last_period;
pub use place::Place;
pub use replay::{Periods, revoked_by};
pub use writing::write_line;

//! The table of commands, the arguments that it reads, what help prints of it, the line of a status, and what a refusal
//! is to a user.
#![tactic(auto)]

mod argument;
mod command;
mod command_line;
mod exit;
mod explain;
mod found;
mod help_command;
mod operand;
mod order;
mod page;
mod reason;
mod spelled;
mod telling;

pub use argument::{Argument, Arguments};
pub use command::{COMMANDS, Command};
pub use command_line::CommandLine;
pub use exit::Exit;
pub use explain::explanation;
pub use help_command::{help, version};
pub use operand::{Files, Kind, Operand};
pub use order::Order;
pub use spelled::spell_out;
pub use telling::tell;

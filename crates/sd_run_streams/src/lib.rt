//! The commands on streams: `sample` makes one; `tables` and `messages` say what is in one, by two stages that write
//! lines of JSON. The inspector has a line for each section on a PID that is watched, the monitor one for each message
//! on a site's PIDs.
#![tactic(auto)]

mod assemblies;
mod ca;
mod cat;
mod ecm;
mod emm;
mod inspector;
pub mod inspector_laws;
mod message_fault;
mod message_line;
mod messages_command;
mod monitor;
pub mod monitor_laws;
mod object;
mod pat;
mod pmt;
mod sample_command;
mod table;
mod table_line;
mod tables_command;
mod watched;

pub use inspector::Inspector;
pub use messages_command::messages;
pub use monitor::Monitor;
pub use sample_command::sample;
pub use table::{Table, TableFault, table_on};
pub use table_line::push_line;
pub use tables_command::tables;

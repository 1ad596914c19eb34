//! The commands on a broadcast: `head` makes one, `air` makes one of a live stream, `receive` opens one, `watch` opens
//! one that may be damaged, and `trial` does both over memory. `field` does both for every receiver of a site, while
//! packets are lost and power is cut.
#![tactic(auto)]

mod air_command;
mod air_line;
mod air_plan;
mod air_report;
mod air_send;
mod ending;
mod field_clear;
mod field_command;
mod field_inputs;
mod field_lines;
mod field_play;
mod field_script;
mod head_command;
mod head_plan;
mod member;
mod open_marked;
mod receive_command;
mod trial_command;
mod trial_hear;
mod trial_lines;
mod trial_plan;
mod trial_prefix;
mod trial_send;
mod warning;
mod watch_command;
mod watch_line;

pub use air_command::air;
pub use field_command::field;
pub use head_command::head;
pub use receive_command::receive;
pub use trial_command::trial;
pub use watch_command::watch;

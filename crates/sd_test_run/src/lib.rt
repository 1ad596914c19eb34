//! Tests of the program's one call over files in memory, of which a call may fail: what each command prints and makes,
//! refusals and limits, the day of examples/day.sh, a chain of sites, hostile input, and receivers that stay on.
#![tactic(auto)]

#[cfg(test)]
mod boxes;
#[cfg(test)]
mod broadcasts;
#[cfg(test)]
mod chains;
#[cfg(test)]
mod changes;
#[cfg(test)]
mod clashes;
#[cfg(test)]
mod commands;
#[cfg(test)]
mod covers;
#[cfg(test)]
mod day;
#[cfg(test)]
mod days;
#[cfg(test)]
mod devices;
#[cfg(test)]
mod fields;
#[cfg(test)]
mod files;
#[cfg(test)]
mod hostile;
#[cfg(test)]
mod large;
#[cfg(test)]
mod leaving;
#[cfg(test)]
mod limits;
#[cfg(test)]
mod messages;
#[cfg(test)]
mod on_air;
#[cfg(test)]
mod parts;
#[cfg(test)]
mod receptions;
#[cfg(test)]
mod refusals;
#[cfg(test)]
mod row;
#[cfg(test)]
mod rows;
#[cfg(test)]
mod runs;
#[cfg(test)]
mod session;
#[cfg(test)]
mod several;
#[cfg(test)]
mod shows;
#[cfg(test)]
mod single;
#[cfg(test)]
mod statuses;
#[cfg(test)]
mod sums;
#[cfg(test)]
mod warnings;

//! Tests of the outside and of what goes through it: ports in memory and on the machine, streams that are driven and
//! streams that are searched, sample streams, the inspector and its lines, the book of a site's line 13, files that
//! must
//! be new, lines that are refused, statuses and what they are to a user.
#![tactic(auto)]

#[cfg(test)]
mod bad_line;
#[cfg(test)]
mod devices;
#[cfg(test)]
mod ends;
#[cfg(test)]
mod engine;
#[cfg(test)]
mod explained;
#[cfg(test)]
mod files;
#[cfg(test)]
mod host;
#[cfg(test)]
mod lines;
#[cfg(test)]
mod machine;
#[cfg(test)]
mod own_book;
#[cfg(test)]
mod ports;
#[cfg(test)]
mod sample;
#[cfg(test)]
mod sections;
#[cfg(test)]
mod seeking;
#[cfg(test)]
mod status;
#[cfg(test)]
mod tables;

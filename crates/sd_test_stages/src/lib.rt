//! Tests of the stages: what a head end sends, and what a receiver hears, collects, is entitled to, holds and opens.
#![tactic(auto)]

#[cfg(test)]
mod assembler;
#[cfg(test)]
mod buffer;
#[cfg(test)]
mod clear;
#[cfg(test)]
mod ending;
#[cfg(test)]
mod entitling;
#[cfg(test)]
mod filter;
#[cfg(test)]
mod head;
#[cfg(test)]
mod live;
#[cfg(test)]
mod made;
#[cfg(test)]
mod packets;
#[cfg(test)]
mod period_keys;
#[cfg(test)]
mod receive;
#[cfg(test)]
mod sections;
#[cfg(test)]
mod watch;

//! Tests of head end and receiver together: what a receiver makes of broadcasts of which packets are lost.
#![tactic(auto)]

#[cfg(test)]
mod choices;
#[cfg(test)]
mod due;
#[cfg(test)]
mod ends;
#[cfg(test)]
mod rows;

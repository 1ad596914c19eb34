//! Rules that tell positions: none that is right whatever is lost tells more than the receiver's.
#![tactic(auto)]

pub mod rules;

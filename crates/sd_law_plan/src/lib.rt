//! Laws of what `plan` and `messages` print, and of what `apart` judges.
#![tactic(auto)]

pub mod messages;
pub mod pairs;
pub mod plans;

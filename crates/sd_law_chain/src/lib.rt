//! Laws of chains of sites: what is sent with sites that `next` and `twin` made one after the other.
#![tactic(auto)]

pub mod books;
pub mod broken;
pub mod chains;
pub mod channels;
pub mod made;
pub mod periods;
pub mod premises;
pub mod revoked;

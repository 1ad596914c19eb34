//! The head end: a stage that makes the scrambled broadcast of a clear stream, packet by packet.
#![tactic(auto)]

mod carry;
mod cat;
mod clear;
mod counter;
mod crypto;
mod entitling;
mod entries;
mod fault;
mod head;
mod inserting;
mod judge;
mod judged;
pub mod laws;
mod left;
mod live;
mod make;
mod message;
mod places;
mod replay;
mod schedule;
mod sections;
mod sender;
mod sending;
mod take;

pub use clear::Clear;
pub use crypto::CryptoPeriod;
pub use entitling::Entitling;
pub use fault::{HeadFault, LiveFault};
pub use head::Head;
pub use judged::{Judged, Move, PatRule};
pub use live::{Live, Taken};
pub use sd_message::ClearFault;

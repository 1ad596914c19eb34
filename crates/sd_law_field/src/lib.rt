//! What the events of a field make, and what its receivers write, in all times that they are on.
//! What the printed lines of `opens`, `trial` and `field` say of a broadcast.
#![tactic(auto)]

pub mod books;
pub mod choices;
pub mod covers;
pub mod laws;
pub mod pools;
pub mod sent;
pub mod time;
pub mod times;
pub mod trials;
pub mod watches;

//! What receivers that pool their cards know of a broadcast that counts its control words and periods from 0.
#![tactic(auto)]

mod laws;

pub use laws::{
    known_by_one, least_known, one_period_alone, periods_known, revoked_know_nothing,
    secrets_known, sets_opened, unrevoked_know_all, words_known,
};

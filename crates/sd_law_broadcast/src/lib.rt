//! What the schedule of a broadcast comes to, what the broadcast sends, and that the packets of its file are those that
//! it was made of.
//! What the broadcasts of one master come to together.
#![tactic(auto)]

mod keystreams;
mod known;
pub mod laws;
mod practice;
pub mod receivers;
pub mod schedules;

pub use keystreams::{
    a_broadcast_repeats_no_keystream, broadcasts_repeat_no_keystream,
    texts_lie_under_their_keystreams,
};
pub use known::{
    known_by_one, least_known, periods_known, secrets_known, the_revoked_know_nothing,
    who_is_entitled_knows, words_known,
};
pub use practice::{
    grown_books_agree, later_periods_are_new, one_book_agrees, what_is_sent_is_used, words_are_own,
    words_suffice,
};

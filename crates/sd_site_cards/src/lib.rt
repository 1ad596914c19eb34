//! The site file: what an operator sets once for a tree of receivers. The card of a receiver: what its leaf is given,
//! the keys that this leads to, and the file that keeps it. A layer card (`sd_lsd`) keeps its secrets by the same code.
#![tactic(auto)]

mod book_line;
mod card;
mod card_fault;
mod card_read;
mod chain;
mod count;
mod file;
mod format;
mod hanging;
mod key;
mod labels;
mod make;
mod newest;
mod optional;
mod place;
mod secret_key;
mod site;
mod site_fault;
mod site_name;
mod site_read;
mod site_write;
mod write;

pub use book_line::{BookLine, MOST_BOOK_SIZE};
pub use card::Card;
pub use card_fault::CardFault;
pub use file::{
    CHECK_BYTES, SECRET_BYTES, byte_at, checks, four_at, secrets_in, two_at, write_file, write_head,
};
pub use hanging::hanging_above;
pub use labels::push_labels;
pub use newest::read_newest;
pub use secret_key::key_below;
pub use site::{
    MOST_CRYPTOS, MOST_EVERY, MOST_FIRST_PERIOD, MOST_MESSAGES, MOST_SPAN, MOST_WORD, Site,
};
pub use site_fault::SiteFault;
pub use site_read::{read, read_with_book};

//! What commands share: what one is to do and how it ends, its status with the text of its line and its exit, the files
//! that are read and made, how it prints, and the lines of a book's periods.
#![tactic(auto)]

mod bad_line;
mod both;
mod escape;
mod files;
mod leaves;
mod line;
mod listing;
mod made;
mod own_book;
mod print;
mod printed_line;
mod printing;
mod reading;
mod replay;
mod sets;
mod status;
mod stream_refusal;
mod text;
mod trouble;
mod turn;
mod word;

pub use bad_line::{
    BadLine, Excerpt, LineCause, MOST_SHOWN, MOST_SITE_SHOWN, line_numbered, malformed,
    refused_line, site_excerpt,
};
pub use both::read_both;
pub use escape::{escaped, quoted};
pub use files::{
    MOST_BOOK_BYTES, MOST_SITE_BYTES, book_fault, card_fault, read_book, read_bytes,
    read_card_bytes, read_low_site, read_site, site_fault,
};
pub use leaves::read_leaves;
pub use line::as_line;
pub use listing::Listing;
pub use made::{make_file, make_new, told};
pub use own_book::{BookFile, begins_with_book, ends_lines, is_book, read_longer, read_own};
pub use print::print_text;
pub use printed_line::{Line, status_line};
pub use printing::print_periods;
pub use reading::{LeavesFault, read};
pub use replay::replay_from;
pub use sets::cover_sets;
pub use status::{Clash, LimitKind, OutCause, Status};
pub use stream_refusal::StreamRefusal;
pub use trouble::Trouble;
pub use turn::{close_both, open_both, opening_fault};
pub use word::{Number, Word};

//! Texts that tests share: the site of examples/site.txt and the book of examples/day.sh. Nothing is claimed of them.
#![tactic(auto)]

mod books;
mod sites;

pub use books::BOOK;
pub use sites::SITE;

//! The commands on books and cards: `accounts` makes a book of the accounts of receivers by name, `book` makes one
//! longer, `plan` and `apart` judge one before it is sent. `cover`, `layered`, `opens` and `trace` are on the cover of
//! each period, `status` on a receiver in it, `card`, `lcard` and `show` on cards. `next` and `twin` make the sites of
//! a chain.
#![tactic(auto)]

mod account_cause;
mod account_fault;
pub mod account_laws;
mod account_line;
mod account_list;
mod account_name;
mod accounts_command;
mod apart_books;
mod apart_command;
mod apart_lines;
mod apart_sites;
mod book_command;
mod card_command;
mod cover_bare;
mod cover_command;
pub mod cover_laws;
mod layered_command;
mod layered_useful;
mod lcard_command;
mod names;
mod newest_site;
mod next_command;
mod opens_command;
mod opens_pool;
mod origin;
mod plan_command;
mod plan_lines;
mod plan_periods;
mod plan_schedule;
mod register;
mod report;
mod show_command;
mod show_line;
mod site_name;
mod status_command;
pub mod status_laws;
mod status_lines;
mod told;
mod told_changes;
mod trace_command;
mod trace_text;
mod twin_command;

pub use account_fault::AccountFault;
pub use account_list::Accounts;
pub use account_name::LONGEST_NAME;
pub use accounts_command::accounts;
pub use apart_command::apart;
pub use book_command::book;
pub use card_command::card;
pub use cover_command::cover;
pub use layered_command::layered;
pub use lcard_command::lcard;
pub use next_command::next;
pub use opens_command::opens;
pub use plan_command::plan;
pub use show_command::show;
pub use status_command::status;
pub use trace_command::trace;
pub use twin_command::twin;

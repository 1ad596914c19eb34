//! What the formats come to, for whoever reads what another wrote: fields, texts, packets, damaged streams, sections,
//! tables, sites, cards, books, messages and keystreams.
#![tactic(auto)]

pub mod books;
pub mod cards;
pub mod cutting;
pub mod ecms;
pub mod emms;
pub mod fields;
pub mod keystreams;
pub mod messages;
pub mod numbers;
pub mod packets;
pub mod sections;
pub mod sites;
pub mod streams;
pub mod tables;
pub mod texts;

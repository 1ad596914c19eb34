//! Tests of books and covers: text files of numbers, the book of commands, accounts by name, the cover itself, layers
//! of it, the kept index, what names reach, tracing and pooled cards.
#![tactic(auto)]

#[cfg(test)]
mod accounts;
#[cfg(test)]
mod ascending;
#[cfg(test)]
mod book;
#[cfg(test)]
mod cover;
#[cfg(test)]
mod heights;
#[cfg(test)]
mod layers;
#[cfg(test)]
mod leaves;
#[cfg(test)]
mod names;
#[cfg(test)]
mod pooled;
#[cfg(test)]
mod reach;
#[cfg(test)]
mod steiner;
#[cfg(test)]
mod text;
#[cfg(test)]
mod trace;

//! Tests of keys: the tree, the keystream, wrapping, labels, scrambling, and the cards that hold labels.
#![tactic(auto)]

#[cfg(test)]
mod card;
#[cfg(test)]
mod keystream;
#[cfg(test)]
mod known;
#[cfg(test)]
mod label;
#[cfg(test)]
mod lsd;
#[cfg(test)]
mod scramble;
#[cfg(test)]
mod secrets;
#[cfg(test)]
mod tree;
#[cfg(test)]
mod wrap;

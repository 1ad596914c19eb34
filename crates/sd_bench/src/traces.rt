//! A trace of a coalition of random leaves, beside random leaves that are revoked.

ghost use Rattle.std.specs.Prelude.{◌≤◌, length};

use crate::covers::{Draws, are_ascending, are_of_height};
use sd_cover_tracing::{CoalitionBox, Found, TraceFault, trace_all};
use sd_tree_keys::{Height, Leaf, MOST_REVOKED};
use std::alloc::{AllocError, Global};

/// The height of the tree.
const HEIGHT: u8 = 20;

/// How many leaves are drawn to be revoked.
const REVOKED: u32 = 1000;

/// A number of what is traced of a coalition of so many draws: each leaf with its trials and its splits, in order.
pub fn traced(alloc: Global, count: u32) -> Result<Option<u64>, AllocError> {
    let Some(h) = Height::new(HEIGHT) else {
        return Ok(None);
    };
    let mut draws = Draws::new();
    let revoked = drawn(alloc, h, &mut draws, REVOKED, &[])?;
    let coalition = drawn(alloc, h, &mut draws, count, &revoked)?;
    if !are_of_height(h, &revoked) || !are_ascending(&revoked) || revoked.len() > MOST_REVOKED {
        return Ok(None);
    }
    if !are_of_height(h, &coalition) {
        return Ok(None);
    }
    let mut target = CoalitionBox::new(h, coalition);
    match trace_all(alloc, h, &revoked, &mut target) {
        Ok(found) => Ok(Some(summed(&found))),
        Err(TraceFault::TooMany) => Ok(None),
        Err(TraceFault::NoMemory) => Err(AllocError),
    }
}

// The leaves of so many draws, ascending, each once and none that is among the others.
fn drawn(
    alloc: Global,
    h: Height,
    draws: &mut Draws,
    count: u32,
    others: &[Leaf],
) -> Result<Vec<Leaf>, AllocError> {
    let mut leaves = Vec::new(alloc);
    for _ in 0..count {
        let number = draws.next(1 << HEIGHT);
        let Some(leaf) = Leaf::new(h, number) else {
            return Ok(leaves);
        };
        let place = place_of(&leaves, number);
        if !has(others, place_of(others, number), number) && !has(&leaves, place, number) {
            leaves.insert(place, leaf)?;
        }
    }
    Ok(leaves)
}

// How many of these leaves are less than the number.
fn place_of(leaves: &[Leaf], number: u32) -> usize
    ensures { result ≤ length leaves.now }
{
    leaves.partition_point(|leaf| leaf.get() < number)
}

// Whether this leaf is at the place.
fn has(leaves: &[Leaf], place: usize, number: u32) -> bool {
    leaves.get(place).is_some_and(|leaf| leaf.get() == number)
}

// A number of all that was found.
fn summed(found: &[Found]) -> u64 {
    let mut sum = 0u64;
    for one in found {
        for number in [one.leaf.get(), one.trials, one.splits] {
            sum = sum.wrapping_mul(31).wrapping_add(u64::from(number));
        }
    }
    sum
}

//! Periods of random commands, taken by an index that is kept, or by a sorted list with a cover from scratch.

ghost use Rattle.std.specs.Prelude.{◌≡◌, ◌^◌, ◌<◌, All, IsTrue};
ghost use Rattle.std.specs.List.Sorted.{IsStrictlyIncreasing};

use sd_base::Steps;
use sd_cover_tracing::{CoverIndex, cover};
use sd_tree_keys::{Height, Leaf, SetName};
use std::alloc::{AllocError, Global};
use std::marker::Brand;
use std::sync::ledger::{Blank, Ledger};

/// The height of the tree.
const HEIGHT: u8 = 20;

/// How many commands a period has, and how many leaves are revoked at first and at most.
#[derive(Clone, Copy)]
struct Shape {
    commands: u32,
    most: usize,
}

/// A number of so many periods of this work, or `None` where the word names none. `changes` and `kept` are taken by an
/// index, and `listed` and `fresh` by a sorted list; `kept` and `fresh` make the sets of each period.
pub fn measured(alloc: Global, work: &str, count: u32) -> Result<Option<u64>, AllocError> {
    let wide = Shape {
        commands: 1000,
        most: 65_536,
    };
    let narrow = Shape {
        commands: 100,
        most: 10_000,
    };
    match work {
        "changes" => by_index(alloc, wide, false, count),
        "kept" => by_index(alloc, wide, true, count),
        "listed" => by_list(alloc, wide, false, count),
        "fresh" => by_list(alloc, wide, true, count),
        "few-changes" => by_index(alloc, narrow, false, count),
        "few-kept" => by_index(alloc, narrow, true, count),
        "few-listed" => by_list(alloc, narrow, false, count),
        "few-fresh" => by_list(alloc, narrow, true, count),
        _ => Ok(None),
    }
}

/// Numbers of a simple generator.
#[derive(Drop)]
pub(crate) struct Draws {
    state: u64,
}

impl Draws {
    /// The generator at its start.
    pub(crate) fn new() -> Draws {
        Draws { state: 1 }
    }

    /// The next number below the bound.
    pub(crate) fn next(&mut self, bound: u32) -> u32
        requires { 0 < bound }
        ensures { result < bound }
    {
        self.state = self
            .state
            .wrapping_mul(6_364_136_223_846_793_005)
            .wrapping_add(1_442_695_040_888_963_407);
        (self.state >> 33) as u32 % bound
    }
}

// What a command does: it revokes a leaf, or subscribes the one that stands at this place of those that are revoked.
#[derive(Drop)]
enum Command {
    Revoke(u32),
    Subscribe(u32),
}

// One draw of four subscribes, where some leaf is revoked, and each where as many are as may be.
fn drawn(draws: &mut Draws, revoked: usize, most: usize) -> Command {
    let subscribes = draws.next(4) == 0;
    match u32::try_from(revoked) {
        Ok(some) if some > 0 && (subscribes || revoked >= most) => Command::Subscribe(draws.next(
            some,
        )),
        _ => Command::Revoke(draws.next(1 << HEIGHT)),
    }
}

// A number of these sets and what went before.
fn summed(before: u64, sets: &[SetName]) -> u64 {
    let mut sum = before;
    for name in sets {
        let (i, j) = match name {
            SetName::Whole => (0, 0),
            SetName::Diff { i, j } => (*i, *j),
        };
        sum = sum
            .wrapping_mul(31)
            .wrapping_add(u64::from(i))
            .wrapping_mul(31)
            .wrapping_add(u64::from(j));
    }
    sum
}

fn by_index(
    alloc: Global,
    shape: Shape,
    sets: bool,
    count: u32,
) -> Result<Option<u64>, AllocError> {
    counted::<Brand>(alloc, shape, sets, count, Blank::new(1))
}

fn counted<L: Ledger>(
    alloc: Global,
    shape: Shape,
    sets: bool,
    count: u32,
    blank: Blank,
) -> Result<Option<u64>, AllocError>
    requires name { blank.name ≡ L.name }
    requires parts { blank.parts ≡ L.parts }
    requires some { 0 < blank.parts }
{
    let Some(h) = Height::new(HEIGHT) else {
        return Ok(None);
    };
    let mut steps = Steps::<L>::new(blank);
    let mut index = CoverIndex::new(alloc, h);
    let mut revoked = Vec::new(alloc);
    let mut draws = Draws::new();
    fill(&mut index, &mut revoked, &mut draws, shape.most, &mut steps)?;
    let mut sum = 0;
    for _ in 0..count {
        change(&mut index, &mut revoked, &mut draws, shape, &mut steps)?;
        sum = if sets {
            let Ok(names) = index.sets(alloc, &mut steps) else {
                return Err(AllocError);
            };
            summed(sum, &names)
        } else {
            sum.wrapping_mul(31).wrapping_add(revoked.len() as u64)
        };
    }
    Ok(Some(sum))
}

// Revokes as many leaves, where they aren't revoked.
fn fill<L: Ledger>(
    index: &mut CoverIndex,
    revoked: &mut Vec<u32>,
    draws: &mut Draws,
    most: usize,
    steps: &mut Steps<L>,
) -> Result<(), AllocError> {
    for _ in 0..most {
        let leaf = draws.next(1 << HEIGHT);
        revoke(index, revoked, leaf, steps)?;
    }
    Ok(())
}

// Takes the commands of a period.
fn change<L: Ledger>(
    index: &mut CoverIndex,
    revoked: &mut Vec<u32>,
    draws: &mut Draws,
    shape: Shape,
    steps: &mut Steps<L>,
) -> Result<(), AllocError> {
    for _ in 0..shape.commands {
        match drawn(draws, revoked.len(), shape.most) {
            Command::Revoke(leaf) => revoke(index, revoked, leaf, steps)?,
            Command::Subscribe(place) => subscribe(index, revoked, place as usize, steps),
        }
    }
    Ok(())
}

// Revokes the leaf in the index, where it isn't revoked.
fn revoke<L: Ledger>(
    index: &mut CoverIndex,
    revoked: &mut Vec<u32>,
    leaf: u32,
    steps: &mut Steps<L>,
) -> Result<(), AllocError> {
    let Some(u) = Leaf::new(index.height, leaf) else {
        return Ok(());
    };
    if index.reserve(1).is_err() {
        return Err(AllocError);
    }
    if !index.is_revoked(u, steps) {
        index.revoke(u, steps);
        revoked.push(leaf)?;
    }
    Ok(())
}

// Subscribes the leaf at this place in the index.
fn subscribe<L: Ledger>(
    index: &mut CoverIndex,
    revoked: &mut Vec<u32>,
    place: usize,
    steps: &mut Steps<L>,
) {
    if place >= revoked.len() {
        return;
    }
    let leaf = revoked.swap_remove(place);
    let Some(u) = Leaf::new(index.height, leaf) else {
        return;
    };
    if index.is_revoked(u, steps) {
        index.subscribe(u, steps);
    }
}

fn by_list(alloc: Global, shape: Shape, sets: bool, count: u32) -> Result<Option<u64>, AllocError> {
    let Some(h) = Height::new(HEIGHT) else {
        return Ok(None);
    };
    let mut sorted = Vec::new(alloc);
    let mut revoked = Vec::new(alloc);
    let mut draws = Draws::new();
    fill_list(h, &mut sorted, &mut revoked, &mut draws, shape.most)?;
    let mut sum = 0;
    for _ in 0..count {
        change_list(h, &mut sorted, &mut revoked, &mut draws, shape)?;
        let are_leaves = are_of_height(h, &sorted) && are_ascending(&sorted);
        sum = if sets && are_leaves {
            let Ok(names) = cover(alloc, h, &sorted) else {
                return Err(AllocError);
            };
            summed(sum, &names)
        } else {
            sum.wrapping_mul(31).wrapping_add(revoked.len() as u64)
        };
    }
    Ok(Some(sum))
}

// Puts as many leaves into the sorted list, where they aren't there.
fn fill_list(
    h: Height,
    sorted: &mut Vec<Leaf>,
    revoked: &mut Vec<u32>,
    draws: &mut Draws,
    most: usize,
) -> Result<(), AllocError> {
    for _ in 0..most {
        let leaf = draws.next(1 << HEIGHT);
        insert(h, sorted, revoked, leaf)?;
    }
    Ok(())
}

// Takes the commands of a period.
fn change_list(
    h: Height,
    sorted: &mut Vec<Leaf>,
    revoked: &mut Vec<u32>,
    draws: &mut Draws,
    shape: Shape,
) -> Result<(), AllocError> {
    for _ in 0..shape.commands {
        match drawn(draws, revoked.len(), shape.most) {
            Command::Revoke(leaf) => insert(h, sorted, revoked, leaf)?,
            Command::Subscribe(place) => remove(sorted, revoked, place as usize),
        }
    }
    Ok(())
}

// Puts the leaf into the sorted list, where it isn't there.
fn insert(
    h: Height,
    sorted: &mut Vec<Leaf>,
    revoked: &mut Vec<u32>,
    leaf: u32,
) -> Result<(), AllocError> {
    let Some(u) = Leaf::new(h, leaf) else {
        return Ok(());
    };
    let place = sorted.partition_point(|w| w.get() < leaf);
    if place < sorted.len() && sorted[place].get() == leaf {
        return Ok(());
    }
    sorted.insert(place, u)?;
    revoked.push(leaf)?;
    Ok(())
}

// Takes the leaf at this place of those that are revoked out of the sorted list.
fn remove(sorted: &mut Vec<Leaf>, revoked: &mut Vec<u32>, place: usize) {
    if place >= revoked.len() {
        return;
    }
    let leaf = revoked.swap_remove(place);
    let place = sorted.partition_point(|w| w.get() < leaf);
    if place < sorted.len() && sorted[place].get() == leaf {
        sorted.remove(place);
    }
}

/// Whether all of these leaves are of the height.
pub(crate) fn are_of_height(h: Height, leaves: &[Leaf]) -> bool
    ensures { IsTrue result → All (λ u. u < 2 ^ h) leaves.now }
{
    leaves.iter().all(|u| u.get() < h.leaves())
}

/// Whether each of these leaves stands after the one before it.
pub(crate) fn are_ascending(leaves: &[Leaf]) -> bool
    ensures { IsTrue result → IsStrictlyIncreasing leaves.now }
{
    for k in 1..leaves.len() {
        if leaves[k - 1].get() >= leaves[k].get() {
            return false;
        }
    }
    true
}

ghost use Rattle.std.specs.Prelude.{◌≡◌, ◌<◌, ◌≤◌, ◌^◌, All, IfSome, IsTrue, length};
ghost use Rattle.std.specs.List.Sorted.{IsStrictlyIncreasing};
ghost use Rattle.sd_tree_keys.specs.declared.leaf.TheConstants.{MOST_REVOKED};

use crate::ascending::{TREES, are_ascending, are_of_height, covered, has_bit, marked};
use sd_cover_tracing::{CoalitionBox, Found, TestBox, trace_all};
use sd_tree_keys::{Height, Leaf, MOST_REVOKED, SetName};
use std::alloc::Global;
use std::test::*;

// The leaves of these numbers.
fn leaves_of(alloc: Global, h: Height, numbers: &[u32]) -> Option<Vec<Leaf>> {
    let mut leaves = Vec::new(alloc);
    for number in numbers {
        leaves.push(Leaf::new(h, *number)?).ok()?;
    }
    Some(leaves)
}

// The box of the coalition with these leaves.
fn box_of(alloc: Global, h: Height, coalition: &[u32]) -> Option<CoalitionBox>
    ensures { IfSome result (λ x. (x.height ≡ h) × (x.asked ≡ 0)) }
{
    let leaves = leaves_of(alloc, h, coalition)?;
    if !are_of_height(h, &leaves) {
        return None;
    }
    Some(CoalitionBox::new(h, leaves))
}

// Whether a box may be traced where these leaves are revoked.
fn may_trace(h: Height, revoked: &[Leaf]) -> bool
    ensures leaves { IsTrue result → All (λ u. u < 2 ^ h) revoked.now }
    ensures ascending { IsTrue result → IsStrictlyIncreasing revoked.now }
    ensures few { IsTrue result → length revoked.now ≤ MOST_REVOKED }
{
    are_of_height(h, revoked) && are_ascending(revoked) && revoked.len() <= MOST_REVOKED
}

// The number, the trials and the splits of each of these leaves.
fn counts_of(alloc: Global, found: &[Found]) -> Option<Vec<(u32, u32, u32)>> {
    let mut counts = Vec::new(alloc);
    for one in found {
        counts.push((one.leaf.get(), one.trials, one.splits)).ok()?;
    }
    Some(counts)
}

// The number, the trials and the splits of each leaf that is traced of a coalition where these leaves are revoked.
fn traced(
    alloc: Global,
    height: u8,
    revoked: &[u32],
    coalition: &[u32],
) -> Option<Vec<(u32, u32, u32)>> {
    let h = Height::new(height)?;
    let revoked = leaves_of(alloc, h, revoked)?;
    if !may_trace(h, &revoked) {
        return None;
    }
    let mut target = box_of(alloc, h, coalition)?;
    let found = trace_all(alloc, h, &revoked, &mut target).ok()?;
    counts_of(alloc, &found)
}

// A height, the revoked leaves, the coalition; of each leaf that is found its number, its trials and its splits.
type Row = (
    u8,
    &'static [u32],
    &'static [u32],
    &'static [(u32, u32, u32)],
);

static COALITIONS: [Row; 4] = [
    (3, &[0, 2], &[1, 6], &[(1, 3, 0), (6, 4, 2)]),
    (3, &[0, 2], &[0], &[]),
    (3, &[], &[6], &[(6, 4, 3)]),
    (1, &[0, 1], &[0, 1], &[]),
];

#[test]
fn coalitions_are_found(rt: HostRuntime) {
    for (height, revoked, coalition, due) in &COALITIONS {
        let found = traced(rt.alloc(), *height, revoked, coalition);
        assert!(rt;
            found.is_some_and(|found| found.as_slice() == *due),
            "{coalition:?} at height {height}"
        );
    }
}

// What is told of a small tree, read plainly off the leaves below each of its nodes.
#[derive(Clone, Copy)]
struct Plain {
    height: Height,
    below: [u32; 16],
    coalition: u32,
}

impl Plain {
    // The leaves below a node.
    fn below(&self, v: u32) -> u32 {
        self.below.get(v as usize).copied().unwrap_or(0)
    }

    // Whether a leaf of the coalition is in the set.
    fn opens(&self, name: SetName) -> bool {
        self.members(name) & self.coalition != 0
    }

    // The leaves of the set.
    fn members(&self, name: SetName) -> u32 {
        match name {
            SetName::Whole => self.below(1),
            SetName::Diff { i, j } => self.below(i) & !self.below(j),
        }
    }

    // The halves of the set, or none where it has one leaf.
    fn halves(&self, name: SetName) -> Option<(SetName, SetName)> {
        let SetName::Diff { i, j } = name else {
            return Some((SetName::Diff { i: 1, j: 2 }, SetName::Diff { i: 1, j: 3 }));
        };
        let mut child = j;
        for _turn in 0..3 {
            if child / 2 != i {
                child /= 2;
            }
        }
        if child != j {
            return Some((SetName::Diff { i, j: child }, SetName::Diff { i: child, j }));
        }
        let x = j ^ 1;
        if x >= 8 || self.below(2 * x) == 0 {
            return None;
        }
        Some((
            SetName::Diff { i: x, j: 2 * x },
            SetName::Diff { i: x, j: 2 * x + 1 },
        ))
    }

    // The leaf to which the set is cut down, and the number of cuts.
    fn narrowed(&self, name: SetName) -> Option<(u32, u32)>
        ensures { IfSome result (λ found. found.1 < 4) }
    {
        let mut part = name;
        for cuts in 0..4 {
            let Some((first, second)) = self.halves(part) else {
                return Some((self.members(part).trailing_zeros(), cuts));
            };
            part = if self.opens(first) { first } else { second };
        }
        None
    }

    // The last of these sets that opens, and how often they are halved until it stands alone.
    fn last_open(&self, sets: &[SetName]) -> Option<(SetName, u32)>
        ensures { IfSome result (λ found. found.1 < 5) }
    {
        let mut part = sets;
        for turns in 0..5 {
            if part.len() == 1 {
                return Some((part[0], turns));
            }
            let (first, second) = part.split_at(part.len() / 2);
            part = if second.iter().any(|name| self.opens(*name)) {
                second
            } else {
                first
            };
        }
        None
    }

    // The number, the trials and the splits of the leaf that is found where these are gone; none if no set opens.
    fn round(&self, alloc: Global, gone: u32) -> Option<Option<(u32, u32, u32)>> {
        let sets = covered(alloc, self.height, &marked(alloc, self.height, gone)?)?;
        if !sets.iter().any(|name| self.opens(*name)) {
            return Some(None);
        }
        let (name, turns) = self.last_open(&sets)?;
        let (leaf, splits) = self.narrowed(name)?;
        Some(Some((leaf, 1 + turns + splits, splits)))
    }

    // The number, the trials and the splits of each leaf that is found where these are revoked.
    fn trace(&self, alloc: Global, revoked: u32) -> Option<Vec<(u32, u32, u32)>> {
        let mut gone = revoked;
        let mut found = Vec::new(alloc);
        for _round in 0..9 {
            let Some(one) = self.round(alloc, gone)? else {
                return Some(found);
            };
            found.push(one).ok()?;
            gone |= 1u32.checked_shl(one.0)?;
        }
        None
    }
}

// The numbers of the bits that are set.
fn bits_of(alloc: Global, bits: u32) -> Option<Vec<u32>> {
    let mut numbers = Vec::new(alloc);
    for u in 0..8 {
        if has_bit(bits, u) {
            numbers.push(u).ok()?;
        }
    }
    Some(numbers)
}

// Whether the coalition is traced as it is read plainly where these leaves are revoked.
fn is_traced(alloc: Global, plain: &Plain, revoked: u32) -> Option<bool> {
    let members = bits_of(alloc, plain.coalition)?;
    let found = traced(
        alloc,
        plain.height.get(),
        &bits_of(alloc, revoked)?,
        &members,
    )?;
    Some(found == plain.trace(alloc, revoked)?)
}

// Whether each coalition is traced as it is read plainly, whichever leaves are revoked.
fn agrees(alloc: Global, height: u8, below: &[u32; 16]) -> Option<bool> {
    let height = Height::new(height)?;
    for coalition in 0..=below[1] {
        let plain = Plain {
            height,
            below: *below,
            coalition,
        };
        for revoked in 0..=below[1] {
            if !is_traced(alloc, &plain, revoked)? {
                return Some(false);
            }
        }
    }
    Some(true)
}

#[test]
fn small_coalitions_are_traced_as_read(rt: HostRuntime) {
    for (height, _, below) in &TREES {
        let agreed = agrees(rt.alloc(), *height, below);
        assert!(rt; agreed == Some(true), "height {height}");
    }
}

// A box that keeps how many sets it was asked for at each probe.
#[derive(Drop)]
struct CountingBox {
    inner: CoalitionBox,
    counts: Vec<usize>,
}

impl TestBox for CountingBox {
    ghost use Rattle.std.specs.Prelude.{Some};

    ghost height = { λ x. x.inner.height };

    ghost coalition = { λ x. Some x.inner.leaves.items };

    ghost asked = { λ x. x.inner.asked };

    fn probe(&mut self, sets: &[SetName], right: &[bool]) -> bool {
        let _kept = self.counts.push(sets.len());
        self.inner.probe(sets, right)
    }
}

// How many sets a box of the coalition is asked for at each probe where these leaves of height 3 are revoked.
fn probed(alloc: Global, revoked: &[u32], coalition: &[u32]) -> Option<Vec<usize>> {
    let h = Height::new(3)?;
    let revoked = leaves_of(alloc, h, revoked)?;
    if !may_trace(h, &revoked) {
        return None;
    }
    let mut target = CountingBox {
        inner: box_of(alloc, h, coalition)?,
        counts: Vec::new(alloc),
    };
    trace_all(alloc, h, &revoked, &mut target).ok()?;
    Some(target.counts)
}

// Three sets and two halvings; two sets, one halving and two cuts; and two sets at the end.
static PROBES: [usize; 8] = [3, 3, 3, 2, 2, 2, 2, 2];

#[test]
fn all_sets_are_probed(rt: HostRuntime) {
    let counts = probed(rt.alloc(), &[0, 2], &[1, 6]);
    assert!(rt; counts.is_some_and(|counts| counts.as_slice() == PROBES.as_slice()));
}

// A box that tells nothing and answers by the bits of a number, whatever it is asked.
#[derive(Drop)]
struct LyingBox {
    height: Height,
    answers: u32,
    asked: u64,
}

impl TestBox for LyingBox {
    ghost use Rattle.std.specs.Prelude.{None};

    ghost height = { λ x. x.height };

    ghost coalition = { λ x. None };

    ghost asked = { λ x. x.asked };

    fn probe(&mut self, _sets: &[SetName], _right: &[bool]) -> bool {
        self.asked += 1;
        self.answers = self.answers.rotate_right(1);
        self.answers & 1 == 1
    }
}

// The trials of these leaves and one more, if they are different leaves of height 3 that aren't revoked.
fn trials_of(found: &[Found], revoked: u32) -> Option<u64> {
    let mut gone = revoked;
    let mut trials = 1u64;
    for one in found {
        let leaf = 1u32.checked_shl(one.leaf.get())?;
        if one.leaf.get() >= 8 || gone & leaf != 0 || one.splits > 3 {
            return None;
        }
        gone |= leaf;
        trials = trials.checked_add(u64::from(one.trials))?;
    }
    Some(trials)
}

// Whether different leaves that aren't revoked are found by a box that lies, by as many probes as are told.
fn bears_lies(alloc: Global, revoked: u32, answers: u32) -> Option<bool> {
    let h = Height::new(3)?;
    let leaves = marked(alloc, h, revoked)?;
    if !may_trace(h, &leaves) {
        return None;
    }
    let mut target = LyingBox {
        height: h,
        answers,
        asked: 0,
    };
    let found = trace_all(alloc, h, &leaves, &mut target).ok()?;
    Some(trials_of(&found, revoked) == Some(target.asked))
}

static LIES: [u32; 8] = [
    0,
    u32::MAX,
    0x5555_5555,
    0xAAAA_AAAA,
    0x0F0F_0F0F,
    0x1234_5678,
    0xDEAD_BEEF,
    7,
];

#[test]
fn boxes_that_lie_are_borne(rt: HostRuntime) {
    for answers in &LIES {
        for revoked in 0..256 {
            let is_borne = bears_lies(rt.alloc(), revoked, *answers) == Some(true);
            assert!(rt; is_borne, "{revoked} {answers}");
        }
    }
}

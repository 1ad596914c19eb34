ghost use Rattle.std.specs.Prelude.{◌≡◌, ℕ, ◌+◌, ◌*◌, ◌^◌, ◌<◌, ◌≤◌, ◌++◌, ◌∷◌, [], List, All, Some, length};
ghost use Rattle.std.specs.Prelude.{IfOk, OnOk, IsErrOf, Contains, sum_by, false, true};
ghost use Rattle.std.specs.List.Sorted.{IsStrictlyIncreasing};
ghost use Rattle.sd_tree_keys.specs.declared.height.TheConstants.{HIGHEST};
ghost use Rattle.sd_tree_keys.specs.declared.leaf.TheConstants.{MOST_REVOKED};
ghost use Rattle.sd_cover_tracing.specs.declared.found.Found.{Found};
ghost use Rattle.sd_cover_tracing.specs.Search.{right_from};
ghost use Rattle.sd_cover_tracing.specs.Trace.{IsTrace, AreAnyRounds, not_among};
ghost use Rattle.sd_tree_keys.specs.SetNames.{IsOfHeight};
ghost use Rattle.sd_cover_tracing.specs.Rounds.{RoundOf, RoundOfCoalition, IsRoundCover, FindsIn, FindsLast, IsJoined};

use crate::found::{Found, TraceFault};
use crate::narrow::narrow;
use crate::search::last_open;
use crate::target::TestBox;
use crate::{CoverFault, cover};
use sd_tree_keys::{Height, Leaf, MOST_REVOKED, SetName};
use std::alloc::{AllocError, Global};

/// The leaves that the box still opens for beside the revoked ones, in the order in which they are found
/// [Naor, Naor, Lotspiech 2001, 5].
///
/// It faults with `TooMany` where a leaf is found while [`MOST_REVOKED`] are revoked or found, and with `NoMemory`
/// where memory runs out.
pub fn trace_all<B: TestBox>(
    alloc: Global,
    h: Height,
    revoked: &[Leaf],
    target: &mut B,
) -> Result<Vec<Found>, TraceFault>
    requires leaves { All (λ u. u < 2 ^ h) revoked.now }
    requires ascending { IsStrictlyIncreasing revoked.now }
    requires few { length revoked.now ≤ MOST_REVOKED }
    requires height { B.height target.old ≡ h }
    requires room { B.asked target.old ≤ 2 ^ 63 }
    ensures traced { (coalition : List ℕ) → B.coalition target.old ≡ Some coalition →
        IfOk result (λ found. IsTrace h coalition revoked.now found.items) }
    ensures rounds { IfOk result (λ found. AreAnyRounds h revoked.now found.items) }
    ensures asked { IfOk result (λ found.
        B.asked target.new ≡ B.asked target.old + sum_by (λ f. f.trials) found.items + 1) }
    ensures few { IfOk result (λ found. length revoked.now + length found.items ≤ MOST_REVOKED) }
    ensures too_many { IsErrOf result TraceFault.TooMany → (found : List Found) × AreAnyRounds h revoked.now found
        × (length revoked.now + length found ≡ MOST_REVOKED + 1)
        × (B.asked target.new ≡ B.asked target.old + sum_by (λ f. f.trials) found) }
    ensures unchanged { (B.height target.new ≡ B.height target.old) ×
        (B.coalition target.new ≡ B.coalition target.old) }
    ensures later { B.asked target.old ≤ B.asked target.new }
    ensures told { (coalition : List ℕ) → B.coalition target.old ≡ Some coalition →
        IfOk result (λ _. length revoked.now + length (not_among h revoked.now coalition) ≤ MOST_REVOKED) }
    ensures told_many { (coalition : List ℕ) → B.coalition target.old ≡ Some coalition →
        IsErrOf result TraceFault.TooMany →
        MOST_REVOKED < length revoked.now + length (not_among h revoked.now coalition) }
{
    let mut gone = Vec::new(alloc);
    gone.extend_from_slice(revoked)?;
    let mut found = Vec::new(alloc);
    while let Some(next) = round(alloc, h, &gone, target)? {
        if gone.len() == MOST_REVOKED {
            return Err(TraceFault::TooMany);
        }
        join(&mut gone, next.leaf)?;
        add(&mut found, next)?;
    }
    Ok(found)
}

// Puts what a round found after what was found before.
fn add(found: &mut Vec<Found>, next: Found) -> Result<(), AllocError>
    ensures { OnOk result (found.new.items ≡ found.old.items ++ next ∷ []) }
{
    Ok(found.push(next)?)
}

// One round: the last set of the cover that opens is cut down to a leaf. `None` where none opens, or there is no set.
fn round<B: TestBox>(
    alloc: Global,
    h: Height,
    gone: &[Leaf],
    target: &mut B,
) -> Result<Option<Found>, AllocError>
    requires leaves { All (λ u. u < 2 ^ h) gone.now }
    requires ascending { IsStrictlyIncreasing gone.now }
    requires few { length gone.now ≤ MOST_REVOKED }
    requires height { B.height target.old ≡ h }
    requires room { B.asked target.old < 2 ^ 63 + 2 ^ 32 }
    ensures value { IfOk result (RoundOf h gone.now (B.asked target.old) (B.asked target.new)) }
    ensures told { (coalition : List ℕ) → B.coalition target.old ≡ Some coalition →
        IfOk result (RoundOfCoalition h coalition gone.now) }
    ensures height { B.height target.new ≡ B.height target.old }
    ensures tree { (1 ≤ h) × (h ≤ HIGHEST) }
    ensures coalition { B.coalition target.new ≡ B.coalition target.old }
    ensures later { B.asked target.old ≤ B.asked target.new }
{
    let sets = sets(alloc, h, gone)?;
    let marks = marks(alloc, sets.len())?;
    Ok(find(h, &sets, &marks, target))
}

// The cover of the leaves that aren't gone.
#[tactic(auto, using(crate::proofs::Rounds::cover_fits))]
fn sets(alloc: Global, h: Height, gone: &[Leaf]) -> Result<Vec<SetName>, AllocError>
    requires leaves { All (λ u. u < 2 ^ h) gone.now }
    requires ascending { IsStrictlyIncreasing gone.now }
    requires few { length gone.now ≤ MOST_REVOKED }
    ensures { IfOk result (λ sets. IsRoundCover h gone.now sets.items) }
{
    match cover(alloc, h, gone) {
        Ok(sets) => Ok(sets),
        Err(CoverFault::NoMemory) => Err(AllocError),
        Err(CoverFault::TooMany) => unreachable!(),
    }
}

// The leaf to which the last of these sets that opens is cut down.
fn find<B: TestBox>(h: Height, sets: &[SetName], marks: &[bool], target: &mut B) -> Option<Found>
    requires height { B.height target.old ≡ h }
    requires names { All (IsOfHeight h) sets.now }
    requires few { length sets.now < 2 ^ 18 }
    requires marks { marks.now ≡ right_from (length sets.now) (length sets.now) }
    requires room { B.asked target.old < 2 ^ 63 + 2 ^ 32 }
    ensures value { FindsIn h sets.now (B.asked target.old) (B.asked target.new) result }
    ensures told { (coalition : List ℕ) → B.coalition target.old ≡ Some coalition →
        FindsLast h coalition sets.now result }
    ensures height { B.height target.new ≡ B.height target.old }
    ensures coalition { B.coalition target.new ≡ B.coalition target.old }
    ensures later { B.asked target.old ≤ B.asked target.new }
{
    let opened = target.probe(sets, &marks[sets.len()..]);
    if !opened || sets.is_empty() {
        return None;
    }
    let (place, turns) = last_open(sets, marks, target);
    let (leaf, splits) = narrow(h, sets[place], target);
    Some(Found {
        leaf,
        trials: 1 + turns + splits,
        splits,
    })
}

// As many wrong keys, and then as many right ones.
fn marks(alloc: Global, count: usize) -> Result<Vec<bool>, AllocError>
    requires { count < 2 ^ 18 }
    ensures { IfOk result (λ marks. marks.items ≡ right_from count count) }
{
    let mut marks = Vec::new(alloc);
    marks.resize(count, false)?;
    marks.resize(2 * count, true)?;
    Ok(marks)
}

// Puts a leaf in its place among ascending ones.
fn join(gone: &mut Vec<Leaf>, leaf: Leaf) -> Result<(), AllocError>
    requires ascending { IsStrictlyIncreasing gone.old.items }
    requires fresh { ¬ Contains gone.old.items leaf }
    ensures { OnOk result (IsJoined leaf gone.old.items gone.new.items) }
{
    gone.push(leaf)?;
    gone.sort_unstable();
    Ok(())
}

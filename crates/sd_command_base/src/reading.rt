ghost use Rattle.std.specs.Prelude.{◌≡◌, ℕ, ◌-◌, ◌^◌, ◌<◌, All, IfOk, IfErr, OnOk, Ok, Err, Some, true, [], ◌∷◌, ◌++◌};
ghost use Rattle.std.specs.Prelude.{◌+◌, length, nat_lt, slice_get};
ghost use Rattle.std.specs.Option.{option_map_or};
ghost use Rattle.std.specs.List.Sorted.{IsStrictlyIncreasing};
ghost use Rattle.sd_base.specs.Number.{decimal_value};
ghost use Rattle.sd_command_base.specs.Text.{leaves_of_text, leaf_after};

use sd_base::{next_line, number_after};
use sd_tree_keys::{HIGHEST, Height, Leaf};
use std::alloc::Global;

/// Why a text is no file of leaves.
#[derive(Clone, Copy)]
pub enum LeavesFault {
    /// The line of this number, counted from 1, is no leaf, or none above that of the line before.
    Line(u32),
    /// Memory ran out.
    NoMemory,
}

/// The leaves of a file: one decimal a line, strictly ascending (docs/FORMATS.md, Leaves).
#[tactic(auto, using(crate::proofs::Lines::read_none))]
pub fn read(alloc: Global, bytes: &[u8], h: Height) -> Result<Vec<Leaf>, LeavesFault>
    ensures value { IfOk result (λ leaves. leaves_of_text h bytes.now ≡ Ok leaves.items) }
    ensures fault { (k : ℕ) → result ≡ Err (LeavesFault.Line k) → leaves_of_text h bytes.now ≡ Err k }
    ensures fits { IfOk result (λ leaves. All (λ u. u < 2 ^ h) leaves.items) }
    ensures ascending { IfOk result (λ leaves. IsStrictlyIncreasing leaves.items) }
{
    let mut leaves = Vec::new(alloc);
    let mut rest = bytes;
    while let Some((line, after)) = next_line(rest) {
        let Some(leaf) = next_leaf(h, line, &leaves) else {
            return Err(line_fault(h, &leaves));
        };
        add(&mut leaves, leaf)?;
        rest = after;
    }
    Ok(leaves)
}

// The fault of the line after those with these leaves.
#[tactic(auto, using(crate::proofs::Lines::few_leaves))]
fn line_fault(h: Height, before: &[Leaf]) -> LeavesFault
    requires ascending { IsStrictlyIncreasing before.now }
    requires leaves { All (λ u. u < 2 ^ h) before.now }
    ensures { result ≡ LeavesFault.Line (length before.now + 1) }
{
    prove!(h.leaves() <= 1 << HIGHEST);
    LeavesFault::Line(before.len() as u32 + 1)
}

// Puts a leaf after those before it.
fn add(leaves: &mut Vec<Leaf>, leaf: Leaf) -> Result<(), LeavesFault>
    ensures value { OnOk result (leaves.new.items ≡ leaves.old.items ++ leaf ∷ []) }
    ensures fault { IfErr result (λ fault. fault ≡ LeavesFault.NoMemory) }
{
    leaves.push(leaf).map_err(|_| LeavesFault::NoMemory)
}

// The leaf on a line after those with these leaves.
#[tactic(auto, using(crate::proofs::Lines::said, crate::proofs::Lines::unsaid))]
fn next_leaf(h: Height, line: &[u8], before: &[Leaf]) -> Option<Leaf>
    ensures { result ≡ leaf_after h before.now (decimal_value line.now) }
{
    match number_after(b"", line) {
        Ok(number) => leaf_numbered(h, number, before),
        Err(_) => None,
    }
}

// The leaf of this number, if it may stand after these.
#[tactic(auto, using(crate::proofs::Lines::taken, crate::proofs::Lines::not_above, crate::proofs::Lines::not_there))]
fn leaf_numbered(h: Height, number: u32, before: &[Leaf]) -> Option<Leaf>
    ensures { result ≡ leaf_after h before.now (Some number) }
{
    match Leaf::new(h, number) {
        Some(leaf) if is_above(leaf, before) => Some(leaf),
        _ => None,
    }
}

// Whether the leaf is above the last of these.
fn is_above(leaf: Leaf, before: &[Leaf]) -> bool
    ensures { result ≡ option_map_or (λ w. nat_lt w leaf) (slice_get before.now (length before.now - 1)) true }
{
    match before.last() {
        Some(last) => *last < leaf,
        None => true,
    }
}

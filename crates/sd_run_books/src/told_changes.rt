//! The lines of the receivers that change from one period to the next.

ghost use Rattle.std.specs.Prelude.{◌≡◌, ◌≢◌, ◌++◌, ◌∷◌, [], ℕ, Bool, List, filter, flat_map, OnOk};
ghost use Rattle.std.specs.Prelude.{IfSome, IsNone, if◌then◌else◌};
ghost use Rattle.std.specs.Prelude.{string_bytes};
ghost use Rattle.std.specs.List.{range_with_len};
ghost use Rattle.sd_book.specs.declared.command.Command.TheVariants.{Subscribe, Revoke};
ghost use Rattle.sd_book.specs.Text.{book_command_line};
ghost use Rattle.sd_run_books.specs.Apart.{differ};
ghost use Rattle.sd_run_books.specs.Told.{least_leaf};

use sd_book::{Command, write_line};
use sd_tree_keys::Leaf;
use std::alloc::AllocError;

/// Puts a line after the text for each leaf that one of two ascending lists has alone: where each list is what a test
/// lets through of the numbers below n, these are the leaves of which one test says yes alone.
pub(crate) fn push_changes(
    text: &mut String,
    before: &[Leaf],
    now: &[Leaf],
) -> Result<(), AllocError>
    ensures { (one other : ℕ → Bool) (n : ℕ) → before.now ≡ filter one (range_with_len 0 n) →
        now.now ≡ filter other (range_with_len 0 n) →
        OnOk result (string_bytes text.new ≡ string_bytes text.old
        ++ flat_map (λ u. book_command_line (if other u then Revoke u else Subscribe u) ++ 10 ∷ [])
        (filter (λ u. differ (one u) (other u)) (range_with_len 0 n))) }
{
    let mut old = before;
    let mut new = now;
    while let Some(leaf) = least(old, new) {
        match (behind(old, leaf), behind(new, leaf)) {
            (Some(us), Some(vs)) => {
                old = us;
                new = vs;
            }
            (Some(us), None) => {
                write_line(text, &Command::Subscribe(leaf))?;
                old = us;
            }
            (None, Some(vs)) => {
                write_line(text, &Command::Revoke(leaf))?;
                new = vs;
            }
            (None, None) => unreachable!(),
        }
    }
    Ok(())
}

/// The least leaf of two ascending lists.
fn least(old: &[Leaf], new: &[Leaf]) -> Option<Leaf>
    ensures { result ≡ least_leaf old.now new.now }
{
    match (old.first(), new.first()) {
        (Some(u), Some(v)) => Some(*u.min(v)),
        (Some(u), None) => Some(*u),
        (None, v) => v.copied(),
    }
}

/// What stands behind the leaf in a list that begins with it.
fn behind(list: &[Leaf], leaf: Leaf) -> Option<&[Leaf]>
    ensures some { IfSome result (λ rest. list.now ≡ leaf ∷ rest.now) }
    ensures none { IsNone result → (rest : List ℕ) → list.now ≢ leaf ∷ rest }
{
    let (first, rest) = list.split_first()?;
    (*first == leaf).then_some(rest)
}

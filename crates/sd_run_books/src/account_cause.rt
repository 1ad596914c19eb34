//! The rule that a refused line of accounts breaks.

ghost use Rattle.std.specs.Prelude.{◌≡◌, ◌+◌, ◌-◌, ◌∷◌, List, Option, Some, IfSome, IsNone, is_some, take};
ghost use Rattle.sd_base.specs.Number.{decimal_value};
ghost use Rattle.sd_command_base.specs.BadLines.{line_numbered as numbered};
ghost use Rattle.sd_run_books.specs.AccountsCause.{assigns_number as assigns, bad_entry as entry_refused};
ghost use Rattle.sd_run_books.specs.AccountsCause.{clash_from, entry_clash as clash, taken_entry as entry_taken};
ghost use Rattle.sd_run_books.specs.Line.{Entry, Assigns, entry_on, said_by_accounts};
ghost use Rattle.sd_run_books.specs.Read.{line_entry};

use crate::account_line::{Line, line_in};
use crate::account_name::{Name, is_name};
use sd_base::{NumberFault, cut_at_space, next_line, number_after};
use sd_command_base::{BadLine, LineCause, line_numbered, malformed, refused_line};
use sd_tree_keys::{Height, Leaf};

/// Line k, which isn't one of the lines of accounts, or whose leaf isn't in the tree.
#[tactic(auto, unfolding(crate::specs::AccountsCause::bad_entry))]
pub(crate) fn bad_entry(h: Height, k: u32, bytes: &[u8]) -> BadLine
    ensures { result ≡ entry_refused h k bytes.now }
{
    if assigns_number(line_numbered(k, bytes)) {
        refused_line(LineCause::Leaf(h.get()), k, bytes)
    } else {
        malformed(k, bytes)
    }
}

/// Line k, whose name or leaf is bound by a line before.
#[tactic(auto, unfolding(crate::specs::AccountsCause::taken_entry))]
pub(crate) fn taken_entry(h: Height, k: u32, bytes: &[u8]) -> BadLine
    ensures { result ≡ entry_taken h k bytes.now }
{
    refused_line(clash_of(h, k, bytes), k, bytes)
}

/// The line before line k with which it clashes.
#[tactic(auto, unfolding(crate::specs::Line::entry_on))]
fn clash_of(h: Height, k: u32, bytes: &[u8]) -> LineCause
    ensures { result ≡ clash (entry_on h (numbered k bytes.now)) (take (k - 1) (said_by_accounts h bytes.now)) }
{
    match line_in(line_numbered(k, bytes), h) {
        Some(line) => clash_before(h, k, bytes, line),
        None => LineCause::Form,
    }
}

/// The line before line k with which one clashes that says this.
fn clash_before(h: Height, k: u32, bytes: &[u8], line: Line) -> LineCause
    ensures { result ≡ clash (Some (line_entry line)) (take (k - 1) (said_by_accounts h bytes.now)) }
{
    match line {
        Line::Assign(name, leaf) => clash_with(h, k, bytes, name, leaf),
        Line::Drop(_) | Line::Restore(_) | Line::Period => LineCause::Form,
    }
}

/// The first line before line k that binds the name or the leaf.
fn clash_with(h: Height, k: u32, bytes: &[u8], name: Name, leaf: Leaf) -> LineCause
    ensures { result ≡ clash_from 1 name.bytes leaf (take (k - 1) (said_by_accounts h bytes.now)) }
{
    let mut rest = bytes;
    for line in 1..k {
        let Some((text, after)) = next_line(rest) else {
            return LineCause::Form;
        };
        if let Some(cause) = clash_on(h, line, text, name, leaf) {
            return cause;
        }
        rest = after;
    }
    LineCause::Form
}

/// Why a line of this number and text clashes with one that binds the name and the leaf, if it does.
fn clash_on(h: Height, k: u32, text: &[u8], name: Name, leaf: Leaf) -> Option<LineCause>
    ensures some { IfSome result (λ cause. (said : List (Option Entry)) →
        clash_from k name.bytes leaf (entry_on h text.now ∷ said) ≡ cause) }
    ensures none { IsNone result → (said : List (Option Entry)) →
        clash_from k name.bytes leaf (entry_on h text.now ∷ said)
        ≡ clash_from (k + 1) name.bytes leaf said }
{
    match line_in(text, h) {
        Some(line) => clash_line(k, line, name, leaf),
        None => None,
    }
}

/// Why a line of this number that says this clashes with one that binds the name and the leaf, if it does.
fn clash_line(k: u32, line: Line, name: Name, leaf: Leaf) -> Option<LineCause>
    ensures some { IfSome result (λ cause. (said : List (Option Entry)) →
        clash_from k name.bytes leaf (Some (line_entry line) ∷ said) ≡ cause) }
    ensures none { IsNone result → (said : List (Option Entry)) →
        clash_from k name.bytes leaf (Some (line_entry line) ∷ said)
        ≡ clash_from (k + 1) name.bytes leaf said }
{
    match line {
        Line::Assign(other, bound) => bound_on(k, name, leaf, other, bound),
        Line::Drop(_) | Line::Restore(_) | Line::Period => None,
    }
}

/// Why a line of this number that binds the other name and leaf clashes with one that binds these, if it does.
fn bound_on(k: u32, name: Name, leaf: Leaf, other: Name, bound: Leaf) -> Option<LineCause>
    ensures some { IfSome result (λ cause. (said : List (Option Entry)) →
        clash_from k name.bytes leaf (Some (Assigns other.bytes bound) ∷ said) ≡ cause) }
    ensures none { IsNone result → (said : List (Option Entry)) →
        clash_from k name.bytes leaf (Some (Assigns other.bytes bound) ∷ said)
        ≡ clash_from (k + 1) name.bytes leaf said }
{
    if name.as_bytes() == other.as_bytes() {
        return Some(LineCause::Held {
            leaf: bound.get(),
            line: k,
        });
    }
    (bound == leaf).then_some(LineCause::Named(k))
}

/// Whether the line assigns a number to a name.
#[tactic(auto, unfolding(crate::specs::AccountsCause::assigns_number, sd_base::specs::Number::rest_after))]
fn assigns_number(line: &[u8]) -> bool
    ensures { result ≡ assigns line.now }
{
    let Some(text) = line.strip_prefix(b"assign ".as_slice()) else {
        return false;
    };
    match cut_at_space(text) {
        Some((name, number)) => is_name(name) && is_decimal(number),
        None => false,
    }
}

#[tactic(auto, using(crate::proofs::Decimals::is_there, crate::proofs::Decimals::is_large, crate::proofs::Decimals::is_none))]
fn is_decimal(text: &[u8]) -> bool
    ensures { result ≡ is_some (decimal_value text.now) }
{
    match number_after(b"", text) {
        Ok(_) | Err(NumberFault::TooLarge) => true,
        Err(NumberFault::Malformed) => false,
    }
}

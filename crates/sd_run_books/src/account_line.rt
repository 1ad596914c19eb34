ghost use Rattle.std.specs.Prelude.{◌≡◌, ◌<◌, ◌^◌, IfSome, option_map};
ghost use Rattle.sd_run_books.specs.Kept.{IsBelow};
ghost use Rattle.sd_run_books.specs.Line.{assigned, entry_on, account_leaf, leaf_numbered};
ghost use Rattle.sd_run_books.specs.Read.{line_entry};

use crate::account_name::{Name, name_in};
use sd_base::{cut_at_space, number_after};
use sd_tree_keys::{Height, Leaf};

/// What a line says.
#[derive(Clone, Copy)]
pub(crate) enum Line {
    /// The name is bound to the leaf, which is subscribed.
    Assign(Name, Leaf),
    /// The name's leaf is revoked.
    Drop(Name),
    /// The name's leaf is subscribed again.
    Restore(Name),
    /// The next period begins.
    Period,
}

/// What a line says for a tree of this height, where it is in the grammar and its leaf in the tree.
#[tactic(auto, unfolding(crate::specs::Line::entry_on, sd_base::specs::Number::rest_after))]
pub(crate) fn line_in(text: &[u8], h: Height) -> Option<Line>
    ensures value { option_map line_entry result ≡ entry_on h text.now }
    ensures leaf { IfSome result (λ line. IsBelow (2 ^ h) (line_entry line)) }
{
    if text == b"period".as_slice() {
        return Some(Line::Period);
    }
    if let Some(rest) = text.strip_prefix(b"assign ".as_slice()) {
        return assign_in(rest, h);
    }
    if let Some(rest) = text.strip_prefix(b"drop ".as_slice()) {
        return Some(Line::Drop(name_in(rest)?));
    }
    let rest = text.strip_prefix(b"restore ".as_slice())?;
    Some(Line::Restore(name_in(rest)?))
}

/// A name, a space and a leaf.
#[tactic(auto, unfolding(crate::specs::Line::assigned))]
fn assign_in(text: &[u8], h: Height) -> Option<Line>
    ensures value { option_map line_entry result ≡ assigned h text.now }
    ensures leaf { IfSome result (λ line. IsBelow (2 ^ h) (line_entry line)) }
{
    let (name, leaf) = cut_at_space(text)?;
    let name = name_in(name)?;
    let leaf = leaf_in(leaf, h)?;
    Some(Line::Assign(name, leaf))
}

/// The decimal of a leaf of the tree.
#[tactic(auto, using(crate::proofs::Leaves::said, crate::proofs::Leaves::unsaid))]
fn leaf_in(text: &[u8], h: Height) -> Option<Leaf>
    ensures value { result ≡ account_leaf h text.now }
    ensures low { IfSome result (λ leaf. leaf < 2 ^ h) }
{
    match number_after(b"", text) {
        Ok(number) => leaf_numbered(number, h),
        Err(_) => None,
    }
}

/// The leaf of this number, where the tree has it.
#[tactic(auto, using(crate::proofs::Leaves::there, crate::proofs::Leaves::not_there))]
fn leaf_numbered(number: u32, h: Height) -> Option<Leaf>
    ensures value { result ≡ leaf_numbered h (Some number) }
    ensures low { IfSome result (λ leaf. leaf < 2 ^ h) }
{
    match Leaf::new(h, number) {
        Some(leaf) => Some(leaf),
        None => None,
    }
}

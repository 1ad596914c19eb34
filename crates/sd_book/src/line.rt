ghost use Rattle.std.specs.Prelude.{◌≡◌};
ghost use Rattle.sd_base.specs.Number.{decimal_after};
ghost use Rattle.sd_book.specs.Line.{book_leaf, command_on_line};
ghost use Rattle.sd_book.specs.Text.{command_of};

use crate::command::Command;
use sd_base::{NumberFault, number_after};
use sd_tree_keys::{Height, Leaf};

/// Why a line is no command for a tree.
#[derive(Clone, Copy)]
pub(crate) enum LineFault {
    /// It is not in the grammar.
    Form,
    /// Its leaf is not in the tree.
    Leaf,
}

/// The command on a line.
#[tactic(auto, unfolding(crate::specs::Text::command_of))]
pub(crate) fn command_on(line: &[u8], h: Height) -> Result<Command, LineFault>
    ensures { result ≡ command_on_line h (command_of line.now) }
{
    if line == b"period".as_slice() {
        return Ok(Command::Period);
    }
    match leaf_after(b"subscribe ", line, h) {
        Ok(leaf) => Ok(Command::Subscribe(leaf)),
        Err(LineFault::Leaf) => Err(LineFault::Leaf),
        Err(LineFault::Form) => Ok(Command::Revoke(leaf_after(b"revoke ", line, h)?)),
    }
}

/// The leaf after a word.
fn leaf_after(word: &[u8], line: &[u8], h: Height) -> Result<Leaf, LineFault>
    ensures { result ≡ book_leaf h (decimal_after word.now line.now) }
{
    match number_after(word, line) {
        Ok(u) => Leaf::new(h, u).ok_or(LineFault::Leaf),
        Err(NumberFault::TooLarge) => Err(LineFault::Leaf),
        Err(NumberFault::Malformed) => Err(LineFault::Form),
    }
}

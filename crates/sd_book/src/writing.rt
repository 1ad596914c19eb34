ghost use Rattle.std.specs.Prelude.{◌≡◌, ◌++◌, [], ◌∷◌, IfOk, OnOk, string_bytes};
ghost use Rattle.std.specs.Fmt.{decimal};
ghost use Rattle.sd_book.specs.Text.{book_command_line, text_of_book};

use crate::command::Command;
use sd_tree_keys::Leaf;
use std::alloc::{AllocError, Global};
use std::fmt::Write;

/// The text of these commands, one a line.
pub(crate) fn text_of(alloc: Global, commands: &[Command]) -> Result<Vec<u8>, AllocError>
    ensures { IfOk result (λ text. text.items ≡ text_of_book commands.now) }
{
    let mut text = String::new(alloc);
    for command in commands {
        write_line(&mut text, command)?;
    }
    Ok(text.into_bytes())
}

/// Writes a command's line and its line feed after the text [this project, docs/FORMATS.md, Book].
#[tactic(auto, unfolding(crate::specs::Text::book_command_line))]
pub fn write_line(text: &mut String, command: &Command) -> Result<(), AllocError>
    ensures { OnOk result (string_bytes text.new ≡ string_bytes text.old ++ (book_command_line command.now
        ++ 10 ∷ [])) }
{
    match *command {
        Command::Subscribe(leaf) => write_leaf(text, "subscribe ", leaf),
        Command::Revoke(leaf) => write_leaf(text, "revoke ", leaf),
        Command::Period => text.push_str("period\n"),
    }
}

/// Writes a word, a leaf's number and a line feed.
fn write_leaf(text: &mut String, word: &str, leaf: Leaf) -> Result<(), AllocError>
    ensures { OnOk result (string_bytes text.new ≡ string_bytes text.old ++ ((word.now ++ decimal leaf) ++ 10 ∷ [])) }
{
    writeln!(text, "{word}{}", leaf.get())
}

ghost use Rattle.std.specs.Prelude.{◌≡◌, length, map, option_map, slice_get, string_bytes, Some};
ghost use Rattle.sd_command_line.specs.CommandLine.{words_of};
ghost use Rattle.sd_command_line.specs.Commands.{operands_of};
ghost use Rattle.sd_command_line.specs.Explained.{argument_at as argument_there, argument_numbered, file_named};
ghost use Rattle.sd_command_line.specs.Explained.{file_with_text as file_there, names_file as names_this};
ghost use Rattle.sd_command_line.specs.Explained.{shown_argument};

use crate::{Command, CommandLine, Operand};

/// An argument of a command.
#[derive(Clone, Copy)]
pub(crate) struct Argument<'a> {
    pub(crate) operand: Operand,
    pub(crate) text: &'a str,
}

/// The argument of this number, if the first word is a command that takes as many. They are numbered from 1.
pub(crate) fn find_argument<'a>(line: &CommandLine<'a>, number: u8) -> Option<Argument<'a>>
    ensures { option_map shown_argument result ≡ argument_numbered (words_of line.now) number }
{
    let place = usize::from(number).checked_sub(1)?;
    let [_, texts @ ..] = line.words else {
        return None;
    };
    argument_at(line.command?, texts, place)
}

/// The argument at this place behind the command's name.
fn argument_at(command: Command, texts: &[String], place: usize) -> Option<Argument<'_>>
    ensures { option_map shown_argument result ≡ argument_there (Some command) (map string_bytes texts.now) place }
{
    match (operand_at(command, place), text_at(texts, place)) {
        (Some(operand), Some(text)) => Some(Argument { operand, text }),
        _ => None,
    }
}

/// What the argument at this place is.
#[tactic(auto, using(crate::proofs::Items::copied_here))]
fn operand_at(command: Command, place: usize) -> Option<Operand>
    ensures { result ≡ slice_get (operands_of command) place }
{
    command.operands().get(place).copied()
}

/// The text at this place.
#[tactic(auto, using(crate::proofs::Items::text_here))]
fn text_at(texts: &[String], place: usize) -> Option<&str>
    ensures { option_map (λ text. text.now) result ≡ slice_get (map string_bytes texts.now) place }
{
    match texts.get(place) {
        Some(text) => Some(text.as_str()),
        None => None,
    }
}

/// The first file among the arguments that has this text, if the first word is a command that takes as many.
pub(crate) fn find_file<'a>(line: &CommandLine<'a>, name: &str) -> Option<Argument<'a>>
    ensures { option_map shown_argument result ≡ file_named (words_of line.now) name.now }
{
    match (line.command, line.words) {
        (Some(command), [_, texts @ ..]) if texts.len() == command.operands().len() => {
            file_among(command.operands(), texts, name)
        }
        _ => None,
    }
}

/// The first file among these arguments that has this text.
fn file_among<'a>(operands: &[Operand], texts: &'a [String], name: &str) -> Option<Argument<'a>>
    requires { length operands.now ≡ length texts.now }
    ensures { option_map shown_argument result ≡ file_there name.now operands.now (map string_bytes texts.now) }
{
    for index in 0..operands.len() {
        let operand = operands[index];
        let text = texts[index].as_str();
        if names_file(operand, text, name) {
            return Some(Argument { operand, text });
        }
    }
    None
}

/// Whether the argument is a file and has this text.
fn names_file(operand: Operand, text: &str, name: &str) -> bool
    ensures { result ≡ names_this operand text.now name.now }
{
    operand.kind().is_file() && text == name
}

ghost use Rattle.std.specs.Prelude.{◌≡◌, ◌-◌, ◌≤◌, IfOk, OnOk, length, map, string_bytes};
ghost use Rattle.sd_command_line.specs.Spelled.{dash_of, operands_in as operands_at, spelled, spelled_texts};

use crate::{Command, Kind, Operand};
use std::alloc::{AllocError, Global};

/// What a word says in whose place the standard input or output is meant.
const DASH: &str = "-";

/// The words after the program's name, with `-` spelled out: the standard input in the place of a file that is read,
/// the
/// standard output in the place of the file that is made.
pub fn spell_out(alloc: Global, words: Vec<String>) -> Result<Vec<String>, AllocError>
    ensures { IfOk result (λ out. map string_bytes out.items ≡ spelled (map string_bytes words.items)) }
{
    if words.is_empty() {
        return Ok(words);
    }
    let mut words = words;
    let operands = operands_in(&words);
    spell_texts(alloc, operands, &mut words[1..])?;
    Ok(words)
}

/// The arguments of the command that the words name, if there are as many.
fn operands_in(words: &[String]) -> &'static [Operand]
    ensures value { result.now ≡ operands_at (map string_bytes words.now) }
    ensures few { length result.now ≤ length words.now - 1 }
{
    match words {
        [name, texts @ ..] => match Command::of(name.as_str()) {
            Some(command) if texts.len() == command.operands().len() => command.operands(),
            _ => &[],
        },
        [] => &[],
    }
}

/// Spells out the texts of arguments.
fn spell_texts(alloc: Global, operands: &[Operand], texts: &mut [String]) -> Result<(), AllocError>
    requires { length operands.now ≤ length texts.old }
    ensures { OnOk result (map string_bytes texts.new ≡ spelled_texts operands.now (map string_bytes texts.old)) }
{
    for index in 0..operands.len() {
        if texts[index].as_str() == DASH {
            texts[index] = String::from_str(alloc, dash(operands[index]))?;
        }
    }
    Ok(())
}

/// What `-` stands for in the place of an argument. A site that is made is a new file, and no pipe.
#[tactic(auto, unfolding(crate::specs::Spelled::dash_of))]
fn dash(operand: Operand) -> &'static str
    ensures { result.now ≡ dash_of operand }
{
    if let Operand::NewSite = operand {
        return DASH;
    }
    match operand.kind() {
        Kind::Input => "/dev/stdin",
        Kind::Output => "/dev/stdout",
        Kind::Number(_) | Kind::Count(_) => DASH,
    }
}

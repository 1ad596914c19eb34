ghost use Rattle.std.specs.Prelude.{◌≡◌, ◌↔◌, ◌≤◌, IfErr, IfOk, length, map, string_bytes, true};
ghost use Rattle.sd_command_line.specs.Orders.{order_said, shown_order, IsSoundOrder, RefusesWords};
ghost use Rattle.sd_command_line.specs.Words.{HoldsSecretsBy, command_in, file_texts, files_named, names_out};
ghost use Rattle.sd_command_line.specs.Words.{order_of};

use crate::operand::has_output;
use crate::order::{holds_secrets, read_words};
use crate::{Command, Operand, Order};
use arrayvec::ArrayVec;
use sd_command_base::Status;

/// The words after the program's name, read once.
#[derive(Drop)]
pub struct CommandLine<'a> {
    pub(crate) words: &'a [String],
    // The command of the table that the first word names.
    pub(crate) command: Option<Command>,
    pub(crate) order: Result<Order<'a>, Status>,
    ghost named: { command ≡ command_in (map string_bytes words.now) },
    ghost read: { shown_order order ≡ order_of (map string_bytes words.now) },
}

impl<'a> CommandLine<'a> {
    ghost use Rattle.sd_command_line.specs.CommandLine.{words_of};

    /// Reads the words after the program's name.
    pub fn read(words: &'a [String]) -> CommandLine<'a>
        ensures { words_of result ≡ map string_bytes words.now }
    {
        let command = command_of(words);
        let order = read_words(words, command);
        CommandLine {
            words,
            command,
            order,
        }
    }

    /// What the words ask for, or the status of their refusal.
    pub fn order(&self) -> &Result<Order<'a>, Status>
        ensures value { shown_order result.now ≡ order_of (words_of self.now) }
        ensures fits { IfOk result.now (λ order. IsSoundOrder (order_said order)) }
        ensures fault { IfErr result.now RefusesWords }
    {
        &self.order
    }

    /// Whether the words make a file that holds secrets: a card, or a site.
    pub fn holds_secrets(&self) -> bool
        ensures { (result ≡ true) ↔ HoldsSecretsBy (order_of (words_of self.now)) }
    {
        match &self.order {
            Ok(order) => holds_secrets(order),
            Err(_) => false,
        }
    }

    /// Whether the first word names a command that has OUT.
    pub fn has_out(&self) -> bool
        ensures { result ≡ names_out (words_of self.now) }
    {
        match self.command {
            Some(command) => has_output(command.operands()),
            None => false,
        }
    }

    /// The texts of the arguments that are files, also if a number or OUT is refused. There are none if the first word
    /// is no command that takes as many arguments.
    pub fn files(&self) -> ArrayVec<&'a str, 4>
        ensures { map (λ text. text.now) result.items ≡ files_named (words_of self.now) }
    {
        match (self.command, self.words) {
            (Some(command), [_, texts @ ..]) if texts.len() == command.operands().len() => {
                files_among(command.operands(), texts)
            }
            _ => ArrayVec::new(),
        }
    }
}

/// The command of the table that the first word names.
fn command_of(words: &[String]) -> Option<Command>
    ensures { result ≡ command_in (map string_bytes words.now) }
{
    match words {
        [name, ..] => Command::of(name.as_str()),
        [] => None,
    }
}

/// The texts of the arguments that are files.
fn files_among<'a>(operands: &[Operand], texts: &'a [String]) -> ArrayVec<&'a str, 4>
    requires one_each { length operands.now ≡ length texts.now }
    requires few { length operands.now ≤ 4 }
    ensures { map (λ text. text.now) result.items ≡ file_texts operands.now (map string_bytes texts.now) }
{
    let mut files = ArrayVec::new();
    for index in 0..operands.len() {
        if operands[index].kind().is_file() {
            files.push(texts[index].as_str());
        }
    }
    files
}

ghost use Rattle.std.specs.Prelude.{[], ◌≡◌, ◌↔◌, bytes_eq, length, map, option_map, string_bytes, true};
ghost use Rattle.std.specs.List.{list_any};
ghost use Rattle.sd_command_base.specs.Made.{used_name};
ghost use Rattle.sd_command_line.specs.Commands.{command_named, operands_of};
ghost use Rattle.sd_command_line.specs.Words.{command_in, command_words, help_words, input_texts, named_words};
ghost use Rattle.sd_command_line.specs.Words.{order_of, HoldsSecretsBy};
ghost use Rattle.sd_command_line.specs.Words.{asks_help as ask_for_help, is_help as names_help};
ghost use Rattle.sd_command_line.specs.Words.{is_help_option as names_help_option};
ghost use Rattle.sd_command_line.specs.Words.{is_version as names_version};
ghost use Rattle.sd_command_line.specs.Words.{out_is_mark as names_mark, out_is_read, out_text, version_words};
ghost use Rattle.sd_command_line.specs.Words.{with_input_text};
ghost use Rattle.sd_command_line.specs.Orders.{order_said, shown_order};

use crate::argument::Arguments;
use crate::{Command, Kind, Operand};
use sd_command_base::Status;

/// What the arguments of the program ask for.
#[derive(Drop)]
pub enum Order<'a> {
    /// A command and its arguments.
    Command {
        command: Command,
        arguments: Arguments<'a>,
    },
    /// `help`, or `help COMMAND`.
    Help {
        topic: Option<Command>,
    },
    /// `version`.
    Version,
}

/// What the arguments ask for, or the status of their refusal. The command is the one that the first of them names.
pub(crate) fn read_words(words: &[String], command: Option<Command>) -> Result<Order<'_>, Status>
    requires { command ≡ command_in (map string_bytes words.now) }
    ensures { shown_order result ≡ order_of (map string_bytes words.now) }
{
    match words {
        [name, texts @ ..] => read_named(name.as_str(), command, texts),
        _ => Err(Status::Usage),
    }
}

/// What the words after this name say, which is that of the command.
#[tactic(auto, unfolding(crate::specs::Words::named_words))]
fn read_named<'a>(
    name: &str,
    command: Option<Command>,
    texts: &'a [String],
) -> Result<Order<'a>, Status>
    requires { command ≡ command_named name.now }
    ensures { shown_order result ≡ named_words name.now (map string_bytes texts.now) }
{
    if is_help(name) {
        return read_help(texts);
    }
    if is_version(name) {
        return read_version(texts);
    }
    match command {
        Some(command) if asks_help(texts) => Ok(Order::Help {
            topic: Some(command),
        }),
        Some(command) => read_command(command, texts),
        None => Err(Status::Usage),
    }
}

/// Whether the words after a name ask for help on it.
fn asks_help(texts: &[String]) -> bool
    ensures { result ≡ ask_for_help (map string_bytes texts.now) }
{
    match texts {
        [word] => is_help_option(word.as_str()),
        _ => false,
    }
}

fn is_help_option(word: &str) -> bool
    ensures { result ≡ names_help_option word.now }
{
    matches!(word, "--help" | "-h")
}

/// Whether a first word asks for help.
pub(crate) fn is_help(name: &str) -> bool
    ensures { result ≡ names_help name.now }
{
    matches!(name, "help" | "--help" | "-h")
}

/// Whether a first word asks for the version.
pub(crate) fn is_version(name: &str) -> bool
    ensures { result ≡ names_version name.now }
{
    matches!(name, "version" | "--version")
}

/// Help on a command, or on all.
fn read_help<'a>(texts: &[String]) -> Result<Order<'a>, Status>
    ensures { shown_order result ≡ help_words (map string_bytes texts.now) }
{
    match texts {
        [] => Ok(Order::Help { topic: None }),
        [name] => match Command::of(name.as_str()) {
            Some(topic) => Ok(Order::Help { topic: Some(topic) }),
            None => Err(Status::Usage),
        },
        _ => Err(Status::Usage),
    }
}

/// `version` takes no arguments.
fn read_version<'a>(texts: &[String]) -> Result<Order<'a>, Status>
    ensures { shown_order result ≡ version_words (map string_bytes texts.now) }
{
    if texts.is_empty() {
        Ok(Order::Version)
    } else {
        Err(Status::Usage)
    }
}

/// The arguments of a command.
fn read_command<'a>(command: Command, texts: &'a [String]) -> Result<Order<'a>, Status>
    ensures { shown_order result ≡ command_words command (operands_of command) (map string_bytes texts.now) }
{
    let operands = command.operands();
    if texts.len() != operands.len()
        || out_is_mark(command, texts)
        || out_is_input(operands, texts)
    {
        return Err(Status::Usage);
    }
    match Arguments::read(operands, texts) {
        Ok(arguments) => Ok(Order::Command { command, arguments }),
        Err(status) => Err(status),
    }
}

/// Whether OUT has the name of the mark of SITE, which the command makes before OUT.
pub(crate) fn out_is_mark(command: Command, texts: &[String]) -> bool
    ensures { result ≡ names_mark command (map string_bytes texts.now) }
{
    match (command, texts) {
        (Command::Air, [site, _, _, out]) => is_mark_of(site.as_str(), out.as_str()),
        _ => false,
    }
}

/// Whether this is the name of the mark of a site.
fn is_mark_of(site: &str, name: &str) -> bool
    ensures { result ≡ bytes_eq name.now (used_name site.now) }
{
    match name.as_bytes().strip_prefix(site.as_bytes()) {
        Some(end) => end == b".used".as_slice(),
        None => false,
    }
}

/// Whether OUT is one of the files that are read.
fn out_is_input(operands: &[Operand], texts: &[String]) -> bool
    requires { length operands.now ≡ length texts.now }
    ensures { result ≡ out_is_read operands.now (map string_bytes texts.now) }
{
    match out_among(operands, texts) {
        Some(out) => is_input(operands, texts, out),
        None => false,
    }
}

/// The text of OUT, if there is one.
fn out_among<'a>(operands: &[Operand], texts: &'a [String]) -> Option<&'a str>
    requires { length operands.now ≡ length texts.now }
    ensures { option_map (λ text. text.now) result ≡ out_text operands.now (map string_bytes texts.now) }
{
    for index in 0..operands.len() {
        if operands[index].kind() == Kind::Output {
            return Some(texts[index].as_str());
        }
    }
    None
}

/// Whether a file that is read has this name.
fn is_input(operands: &[Operand], texts: &[String], name: &str) -> bool
    requires { length operands.now ≡ length texts.now }
    ensures { result
        ≡ list_any (λ text. bytes_eq text name.now) (input_texts operands.now (map string_bytes texts.now)) }
{
    for index in 0..operands.len() {
        if names_input(operands[index].kind(), texts[index].as_str(), name) {
            return true;
        }
    }
    false
}

/// Whether an argument of this kind is a file that is read and has this name.
fn names_input(kind: Kind, text: &str, name: &str) -> bool
    ensures { result ≡ list_any (λ text. bytes_eq text name.now) (with_input_text kind text.now []) }
{
    match kind {
        Kind::Input => text == name,
        Kind::Output | Kind::Number(_) | Kind::Count(_) => false,
    }
}

/// Whether OUT holds secrets: those of a receiver, or the master secret of a site.
pub(crate) fn holds_secrets(order: &Order<'_>) -> bool
    ensures { (result ≡ true) ↔ HoldsSecretsBy (Ok (order_said order.now)) }
{
    match order {
        Order::Command { command, .. } => command.holds_secrets(),
        Order::Help { .. } | Order::Version => false,
    }
}

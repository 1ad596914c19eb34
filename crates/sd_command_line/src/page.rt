ghost use Rattle.std.specs.Prelude.{◌≡◌, ◌++◌, IfOk, OnOk, string_bytes};
ghost use Rattle.std.specs.List.{flat_map};
ghost use Rattle.sd_command_line.specs.Pages.{exit_text, head_text, operand_line, overview as overview_text, page_text};
ghost use Rattle.sd_command_line.specs.Pages.{spaced, tail_text, topic_line, usage_of};

use crate::exit::{EXITS, Exit};
use crate::{COMMANDS, Command, Operand};
use std::alloc::{AllocError, Global};
use std::fmt::Write;

/// All commands, one line each.
#[tactic(auto, unfolding(crate::specs::Pages::overview))]
pub fn overview(alloc: Global) -> Result<String, AllocError>
    ensures { IfOk result (λ text. string_bytes text ≡ overview_text) }
{
    let mut text = String::from_str(
        alloc,
        "sdca: conditional access for transport streams, by Subset Difference\n\n",
    )?;
    push_topics(alloc, &mut text, &COMMANDS)?;
    text.push_str(
        "  help [COMMAND]               prints this list, or a command's arguments, exits and an example\n",
    )?;
    text.push_str(
        "  version                      prints the version, and the toolchain that proved it\n",
    )?;
    Ok(text)
}

/// The page of a command.
#[tactic(auto, unfolding(crate::specs::Pages::page_text))]
pub fn page(alloc: Global, topic: Command) -> Result<String, AllocError>
    ensures { IfOk result (λ text. string_bytes text ≡ page_text topic) }
{
    let mut text = head(alloc, topic)?;
    push_operands(&mut text, topic.operands())?;
    text.push_str("\nexits\n")?;
    push_exits(&mut text, topic, &EXITS)?;
    push_tail(&mut text, topic)?;
    Ok(text)
}

/// The first lines of a command's page.
#[tactic(auto, unfolding(crate::specs::Pages::head_text))]
fn head(alloc: Global, topic: Command) -> Result<String, AllocError>
    ensures { IfOk result (λ text. string_bytes text ≡ head_text topic) }
{
    let usage = usage(alloc, topic)?;
    let work = topic.work();
    format!(in alloc; "sdca {usage}\n{work}\n\narguments\n")
}

/// The name of a command and its arguments.
fn usage(alloc: Global, topic: Command) -> Result<String, AllocError>
    ensures { IfOk result (λ text. string_bytes text ≡ usage_of topic) }
{
    let mut text = String::from_str(alloc, topic.name())?;
    push_words(&mut text, topic.operands())?;
    Ok(text)
}

/// The names of the arguments of a command, each after a space.
fn push_words(text: &mut String, operands: &[Operand]) -> Result<(), AllocError>
    ensures { OnOk result (string_bytes text.new ≡ string_bytes text.old ++ flat_map spaced operands.now) }
{
    for operand in operands {
        push_word(text, *operand)?;
    }
    Ok(())
}

/// The name of an argument, after a space.
#[tactic(auto, unfolding(crate::specs::Pages::spaced))]
fn push_word(text: &mut String, operand: Operand) -> Result<(), AllocError>
    ensures { OnOk result (string_bytes text.new ≡ string_bytes text.old ++ spaced operand) }
{
    let name = operand.name();
    write!(text, " {name}")
}

/// The lines of a command's arguments.
fn push_operands(text: &mut String, operands: &[Operand]) -> Result<(), AllocError>
    ensures { OnOk result (string_bytes text.new ≡ string_bytes text.old ++ flat_map operand_line operands.now) }
{
    for operand in operands {
        push_operand(text, *operand)?;
    }
    Ok(())
}

/// The line of an argument: its name and its meaning.
#[tactic(auto, unfolding(crate::specs::Pages::operand_line))]
fn push_operand(text: &mut String, operand: Operand) -> Result<(), AllocError>
    ensures { OnOk result (string_bytes text.new ≡ string_bytes text.old ++ operand_line operand) }
{
    let name = operand.name();
    let meaning = operand.meaning();
    write!(text, "  {name:<8}  {meaning}\n")
}

/// The lines of those of the exits with which a command may end.
fn push_exits(text: &mut String, topic: Command, exits: &[Exit]) -> Result<(), AllocError>
    ensures { OnOk result (string_bytes text.new ≡ string_bytes text.old ++ flat_map (exit_text topic) exits.now) }
{
    for exit in exits {
        push_exit(text, topic, *exit)?;
    }
    Ok(())
}

/// The line of an exit, if a command may end with it.
#[tactic(auto, unfolding(crate::specs::Pages::exit_text))]
fn push_exit(text: &mut String, topic: Command, exit: Exit) -> Result<(), AllocError>
    ensures { OnOk result (string_bytes text.new ≡ string_bytes text.old ++ exit_text topic exit) }
{
    if topic.may_end(exit) {
        text.push_str(exit.line(topic.files()))?;
    }
    Ok(())
}

/// The last lines of a command's page.
#[tactic(auto, unfolding(crate::specs::Pages::tail_text))]
fn push_tail(text: &mut String, topic: Command) -> Result<(), AllocError>
    ensures { OnOk result (string_bytes text.new ≡ string_bytes text.old ++ tail_text topic) }
{
    let example = topic.example();
    write!(text, "\nexample\n  sdca {example}\n")
}

/// The lines of commands.
fn push_topics(alloc: Global, text: &mut String, topics: &[Command]) -> Result<(), AllocError>
    ensures { OnOk result (string_bytes text.new ≡ string_bytes text.old ++ flat_map topic_line topics.now) }
{
    for topic in topics {
        push_topic(alloc, text, *topic)?;
    }
    Ok(())
}

/// The line of a command in the list of all.
#[tactic(auto, unfolding(crate::specs::Pages::topic_line))]
fn push_topic(alloc: Global, text: &mut String, topic: Command) -> Result<(), AllocError>
    ensures { OnOk result (string_bytes text.new ≡ string_bytes text.old ++ topic_line topic) }
{
    let usage = usage(alloc, topic)?;
    let work = topic.work();
    write!(text, "  {usage:<27}  {work}\n")
}

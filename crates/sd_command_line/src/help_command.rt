ghost use Rattle.std.specs.Prelude.{◌≡◌, ℕ, IfOk, string_bytes};
ghost use Rattle.sd_command_base.specs.Outcome.{Implements, status_of};
ghost use Rattle.sd_command_base.specs.Outside.{DepotState, io_state, page_state};
ghost use Rattle.sd_command_line.specs.Help.{help_meaning, version_meaning};
ghost use Rattle.sd_command_line.specs.Pages.{help_text, version_text};

use crate::Command;
use crate::page::{overview, page as page_of};
use sd_command_base::{Status, print_text};
use sd_ports::Sink;
use std::alloc::{AllocError, Global};

/// Runs `help COMMAND`, or `help` if no command is named: prints the page of the command, or the list of all commands.
pub fn help<P: Sink>(alloc: Global, print: &mut P, topic: Option<Command>) -> Result<(), Status>
    ensures { (place : DepotState) (steps : ℕ) → Implements (help_meaning topic)
        (io_state place (page_state P.Sink print.old) steps) (io_state place (page_state P.Sink print.new) steps)
        (status_of result) }
{
    let text = text_of(alloc, topic)?;
    print_text(print, text.as_bytes())
}

/// The page of a command, or the list of all commands.
#[tactic(auto, unfolding(crate::specs::Pages::help_text))]
fn text_of(alloc: Global, topic: Option<Command>) -> Result<String, AllocError>
    ensures { IfOk result (λ text. string_bytes text ≡ help_text topic) }
{
    match topic {
        Some(topic) => page_of(alloc, topic),
        None => overview(alloc),
    }
}

/// Runs `version`: prints the version, and the toolchains that proved it.
pub fn version<P: Sink>(print: &mut P) -> Result<(), Status>
    ensures { (place : DepotState) (steps : ℕ) → Implements version_meaning
        (io_state place (page_state P.Sink print.old) steps) (io_state place (page_state P.Sink print.new) steps)
        (status_of result) }
{
    print_text(print, version_line())
}

/// The version, the logic of its proofs, and the toolchains with which the gate was seen to pass.
#[tactic(auto, unfolding(crate::specs::Pages::version_text))]
fn version_line() -> &'static [u8]
    ensures { result.now ≡ version_text }
{
    b"sdca 1.0.0\nproved in logic dac8208d650f15bf (rattle-kit-13f)\n"
}

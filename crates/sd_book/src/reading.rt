ghost use Rattle.std.specs.Prelude.{◌≡◌, ◌≤◌, ◌⊎◌, ◌+◌, Ok, Err, IfOk, IfErr, nat_le, if◌then◌else◌};
ghost use Rattle.sd_base.specs.Lines.{lines_of};
ghost use Rattle.sd_book.specs.declared.limits.TheConstants.{MOST_COMMANDS};
ghost use Rattle.sd_book.specs.Faults.{IsBookFaultOf};
ghost use Rattle.sd_book.specs.Limits.{IsDraft};
ghost use Rattle.sd_book.specs.Text.{SpellsBook, command_of, in_tree, said_by_book};

use crate::command::Command;
use crate::draft::Draft;
use crate::fault::{BookFault, BookLimit};
use crate::limits::MOST_COMMANDS;
use crate::line::{LineFault, command_on};
use sd_base::next_line;
use sd_tree_keys::Height;
use std::alloc::Global;

/// The draft with the commands of a book's text.
pub(crate) fn draft_of(alloc: Global, bytes: &[u8], h: Height) -> Result<Draft, BookFault>
    ensures height { IfOk result (λ draft. draft.height ≡ h) }
    ensures fits { IfOk result (λ draft. IsDraft h draft.commands) }
    ensures sound { IfOk result (λ draft. SpellsBook (lines_of bytes.now) draft.commands) }
    ensures fault { IfErr result (λ fault. (fault ≡ BookFault.NoMemory) ⊎ IsBookFaultOf h (said_by_book bytes.now)
        fault) }
{
    let mut draft = Draft::new(alloc, h)?;
    let mut rest = bytes;
    while let Some((line, after)) = next_line(rest) {
        let command = judged_line(line, h, draft.commands().len())?;
        draft.push(command)?;
        rest = after;
    }
    Ok(draft)
}

/// The command on the line after `count` lines.
fn judged_line(line: &[u8], h: Height, count: usize) -> Result<Command, BookFault>
    requires { count ≤ MOST_COMMANDS }
    ensures { result ≡ (if nat_le MOST_COMMANDS count then Err (BookFault.Limit BookLimit.Lines)
        else in_tree h (count + 1) (command_of line.now)) }
{
    if count >= MOST_COMMANDS {
        return Err(BookFault::Limit(BookLimit::Lines));
    }
    in_tree(line, h, count as u32 + 1)
}

/// The command on line k.
fn in_tree(line: &[u8], h: Height, k: u32) -> Result<Command, BookFault>
    ensures { result ≡ in_tree h k (command_of line.now) }
{
    match command_on(line, h) {
        Ok(command) => Ok(command),
        Err(LineFault::Form) => Err(BookFault::Line(k)),
        Err(LineFault::Leaf) => Err(BookFault::Leaf(k)),
    }
}

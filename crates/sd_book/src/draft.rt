ghost use Rattle.std.specs.Prelude.{◌≡◌, ◌⊎◌, ◌≤◌, ◌++◌, ◌∷◌, [], true, Some, Ok, Err, IfOk, IfErr, OnOk, OnErr, IsOk};
ghost use Rattle.std.specs.Prelude.{MatchResult};
ghost use Rattle.sd_book.specs.Commands.{is_within};
ghost use Rattle.sd_book.specs.Faults.{IsBrokenLimit};
ghost use Rattle.sd_book.specs.Limits.{IsDraft, IsWithinLimits};
ghost use Rattle.sd_book.specs.Tally.{IsTally};
ghost use Rattle.sd_book.specs.Text.{command_fits};

use crate::book::Book;
use crate::command::Command;
use crate::fault::{BookFault, BookLimit};
use crate::limits::MOST_COMMANDS;
use crate::tally::Tally;
use sd_base::NoMemory;
use sd_tree_keys::Height;
use std::alloc::Global;
use std::marker::Model;

/// A book under construction, which takes one command at a time.
#[derive(Drop)]
pub struct Draft {
    list: Vec<Command>,
    tally: Tally,
}

impl Model for Draft {
    ghost use Rattle.sd_book.specs.Value.{BookValue};

    ghost Value = { BookValue };

    ghost use Rattle.std.specs.Prelude.{◌≤◌};
    ghost use Rattle.sd_book.specs.Limits.{IsDraft};
    ghost use Rattle.sd_book.specs.Tally.{IsTally};

    ghost view = { λ draft. record { height = draft.tally.height; commands = draft.list.items } };

    ghost invariant = { λ draft. (draft.tally.height ≤ 20) × IsDraft draft.tally.height draft.list.items
        × IsTally draft.tally.height draft.list.items draft.tally.marks.items draft.tally.revoked draft.tally.period };
}

impl Draft {
    /// A draft with no command.
    pub fn new(alloc: Global, h: Height) -> Result<Draft, NoMemory>
        ensures height { IfOk result (λ draft. draft.height ≡ h) }
        ensures value { IfOk result (λ draft. draft.commands ≡ []) }
        ensures fits { IfOk result (λ draft. IsDraft h draft.commands) }
    {
        Ok(Draft {
            list: Vec::new(alloc),
            tally: Tally::new(alloc, h)?,
        })
    }

    /// A draft with these commands of a book.
    pub(crate) fn of(alloc: Global, h: Height, commands: &[Command]) -> Result<Draft, NoMemory>
        requires { IsWithinLimits h commands.now }
        ensures height { IfOk result (λ draft. draft.height ≡ h) }
        ensures value { IfOk result (λ draft. draft.commands ≡ commands.now) }
        ensures fits { IfOk result (λ draft. IsDraft h draft.commands) }
    {
        Ok(Draft {
            list: commands.to_vec(alloc)?,
            tally: Tally::of(alloc, h, commands)?,
        })
    }

    /// Takes one more command of the tree.
    ///
    /// The one fault beside `NoMemory` is the limit that the command breaks. A period's revoked leaves are judged where
    /// it ends, by the next Period or by `finish`.
    pub fn push(&mut self, command: Command) -> Result<(), BookFault>
        requires leaf { is_within self.old.height command ≡ true }
        ensures height { self.new.height ≡ self.old.height }
        ensures value { OnOk result (self.new.commands ≡ self.old.commands ++ command ∷ []) }
        ensures unchanged { OnErr result (self.new ≡ self.old) }
        ensures fits { IsDraft self.new.height self.new.commands }
        ensures complete { IsDraft self.old.height (self.old.commands ++ command ∷ []) →
            IfErr result (λ fault. fault ≡ BookFault.NoMemory) }
        ensures fault { IfErr result (λ fault. (fault ≡ BookFault.NoMemory) ⊎
            IsBrokenLimit self.old.height self.old.commands (Some command ∷ []) fault) }
    {
        fits(&self.list, &self.tally, &command)?;
        self.list.push(command)?;
        self.tally.take(&command);
        Ok(())
    }

    /// The book of these commands. The one fault is that too many leaves are revoked in the last period.
    pub fn finish(self) -> Result<Book, BookFault>
        ensures height { IfOk result (λ book. book.height ≡ self.height) }
        ensures value { IfOk result (λ book. book.commands ≡ self.commands) }
        ensures complete { IsWithinLimits self.height self.commands → IsOk result }
        ensures fault { IfErr result (λ fault. IsBrokenLimit self.height self.commands [] fault) }
    {
        self.tally.may_end()?;
        Ok(Book::of(self.tally.height(), self.list))
    }

    /// The commands so far, in their order.
    pub fn commands(&self) -> &[Command]
        ensures value { result.now ≡ self.now.commands }
        ensures fits { IsDraft self.now.height self.now.commands }
    {
        &self.list
    }

    /// The height of the tree that the book is for.
    pub fn height(&self) -> Height
        ensures { result ≡ self.now.height }
    {
        self.tally.height()
    }
}

/// Whether a command of the tree may come after these, whose tally this is.
fn fits(before: &[Command], tally: &Tally, command: &Command) -> Result<(), BookFault>
    requires { IsTally tally.now.height before.now tally.now.marks.items tally.now.revoked tally.now.period }
    ensures { MatchResult result (λ _. command_fits tally.now.height before.now command.now ≡ Ok command.now)
        (λ fault. command_fits tally.now.height before.now command.now ≡ Err fault) }
{
    if before.len() >= MOST_COMMANDS {
        return Err(BookFault::Limit(BookLimit::Lines));
    }
    if *command != Command::Period {
        return Ok(());
    }
    if tally.is_last() {
        return Err(BookFault::Limit(BookLimit::Periods));
    }
    tally.may_end()
}

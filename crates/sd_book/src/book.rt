ghost use Rattle.std.specs.Prelude.{◌≡◌, ◌⊎◌, ◌<◌, ◌≤◌, ◌^◌, ◌++◌, [], true, List, All, length, Ok, Err, IfOk, IfErr};
ghost use Rattle.std.specs.Prelude.{OnOk, OnErr, MatchResult};
ghost use Rattle.std.specs.List.Sorted.{IsStrictlyIncreasing};
ghost use Rattle.sd_base.specs.Lines.{lines_of};
ghost use Rattle.sd_book.specs.declared.command.Command.{Command as Commands};
ghost use Rattle.sd_book.specs.Commands.{is_within, last_period as last_of, revoked as revoked_in};
ghost use Rattle.sd_tree_keys.specs.declared.leaf.TheConstants.{MOST_REVOKED};
ghost use Rattle.sd_book.specs.declared.limits.TheConstants.{MOST_PERIODS};
ghost use Rattle.sd_book.specs.Limits.{IsWithinLimits};
ghost use Rattle.sd_book.specs.Faults.{IsBookFaultOf, IsFirstLimit};
ghost use Rattle.sd_book.specs.Text.{SpellsBook, book_of, said_by_book, text_of_book};

use crate::command::Command;
use crate::draft::Draft;
use crate::fault::BookFault;
use crate::periods::{last_period, until};
use crate::reading::draft_of;
use crate::replay::Periods;
use crate::tally::revoked_after;
use crate::writing::text_of;
use sd_base::NoMemory;
use sd_tree_keys::{Height, Leaf};
use std::alloc::Global;
use std::marker::Model;

/// A list of commands for one height, within the limits of a book.
#[derive(Drop)]
pub struct Book {
    height: Height,
    list: Vec<Command>,
}

impl Model for Book {
    ghost use Rattle.sd_book.specs.Value.{BookValue};

    ghost Value = { BookValue };

    ghost use Rattle.std.specs.Prelude.{◌≤◌};
    ghost use Rattle.sd_book.specs.Limits.{IsWithinLimits};

    ghost view = { λ book. record { height = book.height; commands = book.list.items } };

    ghost invariant = { λ book. (book.height ≤ 20) × IsWithinLimits book.height book.list.items };
}

impl Book {
    /// A book with no command. Nothing is allocated.
    pub fn new(alloc: Global, h: Height) -> Book
        ensures height { result.height ≡ h }
        ensures value { result.commands ≡ [] }
    {
        Book {
            height: h,
            list: Vec::new(alloc),
        }
    }

    /// The book of these commands.
    pub(crate) fn of(h: Height, list: Vec<Command>) -> Book
        requires height { h ≤ 20 }
        requires fits { IsWithinLimits h list.items }
        ensures height { result.height ≡ h }
        ensures value { result.commands ≡ list.items }
    {
        Book { height: h, list }
    }

    /// The book that a file's bytes say, one command a line.
    ///
    /// Lines are judged in order, and the first bad one decides. On one line the order is `Limit(Lines)`, `Line`,
    /// `Leaf`, `Limit(Periods)`, `Limit(Revoked)`. The last period is judged after the last line
    /// [this project, docs/FORMATS.md, Book].
    pub fn read(alloc: Global, bytes: &[u8], h: Height) -> Result<Book, BookFault>
        ensures height { IfOk result (λ book. book.height ≡ h) }
        ensures fits { IfOk result (λ book. IsWithinLimits h book.commands) }
        ensures sound { IfOk result (λ book. SpellsBook (lines_of bytes.now) book.commands) }
        ensures complete { (commands : List Commands) →
            SpellsBook (lines_of bytes.now) commands → IsWithinLimits h commands →
            MatchResult result (λ book. book.commands ≡ commands) (λ fault. fault ≡ BookFault.NoMemory) }
        ensures fault { IfErr result (λ fault. (fault ≡ BookFault.NoMemory) ⊎ IsBookFaultOf h (said_by_book bytes.now)
            fault) }
        // The whole answer, as one value.
        ensures value { MatchResult result (λ book. book_of h bytes.now ≡ Ok book.commands)
            (λ fault. (fault ≡ BookFault.NoMemory) ⊎ (book_of h bytes.now ≡ Err fault)) }
    {
        draft_of(alloc, bytes, h)?.finish()
    }

    /// Appends these commands, all or none.
    ///
    /// The one fault beside `NoMemory` is the limit that a file of the longer book would break first.
    pub fn apply(&mut self, commands: &[Command]) -> Result<(), BookFault>
        requires leaves { All (λ command. is_within self.old.height command ≡ true) commands.now }
        ensures height { self.new.height ≡ self.old.height }
        ensures value { OnOk result (self.new.commands ≡ self.old.commands ++ commands.now) }
        ensures unchanged { OnErr result (self.new ≡ self.old) }
        ensures complete { IsWithinLimits self.old.height (self.old.commands ++ commands.now) →
            IfErr result (λ fault. fault ≡ BookFault.NoMemory) }
        ensures fault { IfErr result (λ fault. (fault ≡ BookFault.NoMemory) ⊎
            IsFirstLimit self.old.height (self.old.commands ++ commands.now) fault) }
    {
        let alloc = *self.list.allocator();
        *self = longer(alloc, self.height, &self.list, commands)?;
        Ok(())
    }

    /// The commands, in their order.
    pub fn commands(&self) -> &[Command]
        ensures value { result.now ≡ self.now.commands }
        ensures fits { IsWithinLimits self.now.height self.now.commands }
    {
        &self.list
    }

    /// The height of the tree that the book is for.
    pub fn height(&self) -> Height
        ensures { result ≡ self.now.height }
    {
        self.height
    }

    /// The number of the last period, counted from 0.
    pub fn last_period(&self) -> u32
        ensures value { result ≡ last_of self.now.commands }
        ensures fits { result ≤ MOST_PERIODS }
    {
        last_period(&self.list)
    }

    /// The leaves that are revoked in period q, ascending, each once.
    #[tactic(auto, using(crate::proofs::Cuts::periods_until, crate::proofs::Cuts::within_until, crate::proofs::Revocations::below, crate::proofs::Revocations::ascending))]
    pub fn revoked(&self, alloc: Global, q: u32) -> Result<Vec<Leaf>, NoMemory>
        requires { q ≤ last_of self.now.commands }
        ensures value { IfOk result (λ leaves. leaves.items ≡ revoked_in self.now.height self.now.commands q) }
        ensures fits { IfOk result (λ leaves. length leaves.items ≤ MOST_REVOKED) }
        ensures below { IfOk result (λ leaves. All (λ leaf. leaf < 2 ^ self.now.height) leaves.items) }
        ensures ascending { IfOk result (λ leaves. IsStrictlyIncreasing leaves.items) }
    {
        Ok(revoked_after(alloc, self.height, until(&self.list, q))?)
    }

    /// A replay of all periods, which has taken no command. Nothing is allocated.
    pub fn periods(&self, alloc: Global) -> Periods<'_>
        ensures height { result.height ≡ self.now.height }
        ensures commands { result.commands ≡ self.now.commands }
        ensures fits { IsWithinLimits self.now.height self.now.commands }
        ensures next { result.next ≡ 0 }
    {
        Periods::new(alloc, self.height, &self.list)
    }

    /// The file of the book: a line for each command, and a line feed after each.
    #[tactic(auto, using(crate::proofs::Written::read_again))]
    pub fn write(&self, alloc: Global) -> Result<Vec<u8>, NoMemory>
        ensures value { IfOk result (λ text. text.items ≡ text_of_book self.now.commands) }
        // It is read again.
        ensures again { book_of self.now.height (text_of_book self.now.commands) ≡ Ok self.now.commands }
    {
        Ok(text_of(alloc, &self.list)?)
    }
}

/// The book of commands within the limits and of more after them.
fn longer(alloc: Global, h: Height, before: &[Command], more: &[Command]) -> Result<Book, BookFault>
    requires height { h ≤ 20 }
    requires before { IsWithinLimits h before.now }
    requires leaves { All (λ command. is_within h command ≡ true) more.now }
    ensures height { IfOk result (λ book. book.height ≡ h) }
    ensures value { IfOk result (λ book. book.commands ≡ before.now ++ more.now) }
    ensures fault { IfErr result (λ fault. (fault ≡ BookFault.NoMemory) ⊎
        IsFirstLimit h (before.now ++ more.now) fault) }
{
    let mut draft = Draft::of(alloc, h, before)?;
    for command in more {
        draft.push(*command)?;
    }
    draft.finish()
}

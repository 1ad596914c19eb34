ghost use Rattle.std.specs.Prelude.{◌≡◌, ◌⊎◌, ℕ, List, Option, [], ◌∷◌, ◌++◌, IfOk, Ok, Err, MatchResult, length};
ghost use Rattle.sd_book.specs.declared.command.Command.{Command as Commands};
ghost use Rattle.sd_book.specs.Limits.{IsWithinLimits};
ghost use Rattle.sd_book.specs.Text.{period_end_check};
ghost use Rattle.sd_run_books.specs.Accounts.{IsListOf};
ghost use Rattle.sd_run_books.specs.Judged.{allowed, accounts_book, judged_account_line};
ghost use Rattle.sd_run_books.specs.Kept.{AreAccountsKept, kept_accounts, leaf_named};
ghost use Rattle.sd_run_books.specs.Line.{Entry, entry_on, said_by_accounts};

use crate::account_fault::AccountFault;
use crate::account_line::line_in;
use crate::account_name::Name;
use crate::names::Names;
use sd_base::next_line;
use sd_book::{Book, Draft, MOST_COMMANDS};
use sd_tree_keys::{Height, Leaf};
use std::alloc::Global;
use std::collections::BTreeMap;

/// What some lines come to: the commands that they make, and the names.
#[derive(Drop)]
pub(crate) struct Register {
    draft: Draft,
    names: Names,
}

impl Register {
    /// What the lines of a text come to. The period that they end in isn't judged yet.
    pub(crate) fn read(alloc: Global, bytes: &[u8], h: Height) -> Result<Register, AccountFault>
        ensures height { IfOk result (λ register. register.draft.height ≡ h) }
        ensures kept { IfOk result (λ register.
            AreAccountsKept h (said_by_accounts h bytes.now) (leaf_named register.names.leaves)
            register.names.marks.items) }
        ensures value { MatchResult result
            (λ register. accounts_book h bytes.now ≡ allowed
            (period_end_check h register.draft.commands register.draft.commands))
            (λ fault. (fault ≡ AccountFault.NoMemory) ⊎ (accounts_book h bytes.now ≡ Err fault)) }
    {
        let mut register = Register {
            draft: Draft::new(alloc, h)?,
            names: Names::new(alloc, h)?,
        };
        let mut rest = bytes;
        while let Some((line, after)) = next_line(rest) {
            register.take(line, h)?;
            rest = after;
        }
        Ok(register)
    }

    /// Takes one more line.
    #[tactic(auto, using(crate::proofs::Taking::below_all))]
    fn take(&mut self, text: &[u8], h: Height) -> Result<(), AccountFault>
        requires height { self.old.draft.height ≡ h }
        requires kept { (before : List (Option Entry)) ×
            AreAccountsKept h before (leaf_named self.old.names.leaves) self.old.names.marks.items ×
            (length before ≡ length self.old.draft.commands) }
        ensures height { self.new.draft.height ≡ h }
        ensures value { (before : List (Option Entry)) →
            AreAccountsKept h before (leaf_named self.old.names.leaves) self.old.names.marks.items →
            length before ≡ length self.old.draft.commands →
            MatchResult result
            (λ _. AreAccountsKept h (before ++ entry_on h text.now ∷ []) (leaf_named self.new.names.leaves)
            self.new.names.marks.items
            × ((command : Commands) ×
            (judged_account_line h before self.old.draft.commands (entry_on h text.now) ≡ Ok command)
            × (self.new.draft.commands ≡ self.old.draft.commands ++ command ∷ [])))
            (λ fault. (fault ≡ AccountFault.NoMemory) ⊎
            (judged_account_line h before self.old.draft.commands (entry_on h text.now) ≡ Err fault)) }
    {
        let k = self.draft.commands().len() as u32 + 1;
        let Some(line) = line_in(text, h) else {
            return Err(AccountFault::Line(k));
        };
        let command = self.names.command(line, k)?;
        self.draft.push(command)?;
        Ok(())
    }

    /// The book of these lines, and the leaves of their names.
    pub(crate) fn finish(self) -> Result<(Book, BTreeMap<Name, Leaf>), AccountFault>
        ensures height { IfOk result (λ parts. parts.0.height ≡ self.draft.height) }
        ensures fits { IfOk result (λ parts. IsWithinLimits self.draft.height parts.0.commands) }
        ensures leaves { (d : ℕ) (said : List (Option Entry)) →
            AreAccountsKept d said (leaf_named self.names.leaves) self.names.marks.items →
            IfOk result (λ parts. IsListOf said (kept_accounts parts.1.entries)) }
        ensures value { MatchResult result
            (λ parts. allowed (period_end_check self.draft.height self.draft.commands self.draft.commands)
            ≡ Ok parts.0.commands)
            (λ fault. allowed (period_end_check self.draft.height self.draft.commands self.draft.commands)
            ≡ Err fault) }
    {
        prove!(self.draft.commands().len() <= MOST_COMMANDS);
        let leaves = self.names.into_leaves();
        let book = self.draft.finish()?;
        prove!(book.commands().len() <= MOST_COMMANDS);
        Ok((book, leaves))
    }
}

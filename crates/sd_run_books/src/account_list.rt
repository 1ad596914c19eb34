ghost use Rattle.std.specs.Prelude.{◌≡◌, ◌⊎◌, List, IfOk, IfErr, Ok, Err, MatchResult};
ghost use Rattle.serde_json.specs.Written.{compact_text};
ghost use Rattle.sd_book.specs.declared.command.Command.{Command as Commands};
ghost use Rattle.sd_book.specs.Limits.{IsWithinLimits};
ghost use Rattle.sd_run_books.specs.Accounts.{IsListOf};
ghost use Rattle.sd_run_books.specs.Faults.{AreGoodAccountLines, IsAccountFaultOf};
ghost use Rattle.sd_run_books.specs.Judged.{accounts_book};
ghost use Rattle.sd_run_books.specs.Line.{said_by_accounts};
ghost use Rattle.sd_run_books.specs.Report.{accounts_data};

use crate::account_fault::AccountFault;
use crate::account_name::Name;
use crate::register::Register;
use crate::report::report;
use sd_base::NoMemory;
use sd_book::Book;
use sd_tree_keys::{Height, Leaf};
use std::alloc::Global;
use std::collections::BTreeMap;
use std::marker::Model;

/// The book that the lines of an accounts file make, and the names that they bind.
#[derive(Drop)]
pub struct Accounts {
    book: Book,
    leaves: BTreeMap<Name, Leaf>,
}

impl Model for Accounts {
    ghost use Rattle.sd_run_books.specs.Accounts.{AccountsValue};
    ghost use Rattle.sd_run_books.specs.Kept.{kept_accounts};

    ghost Value = { AccountsValue };

    ghost view = { λ inside. record { book = inside.book; accounts = kept_accounts inside.leaves.entries } };
}

impl Accounts {
    /// The accounts that a file's bytes say for a tree of this height, one change a line.
    ///
    /// Lines are judged in order, and the first bad one decides. On one line the order is `Line`, `Unknown`, `Taken`,
    /// `Limit`. The last period is judged after the last line [this project, docs/FORMATS.md, Accounts].
    pub fn read(alloc: Global, bytes: &[u8], h: Height) -> Result<Accounts, AccountFault>
        ensures height { IfOk result (λ accounts. accounts.book.height ≡ h) }
        ensures fits { IfOk result (λ accounts. IsWithinLimits h accounts.book.commands) }
        ensures accounts { IfOk result (λ accounts. IsListOf (said_by_accounts h bytes.now) accounts.accounts) }
        ensures sound { IfOk result (λ accounts. AreGoodAccountLines h (said_by_accounts h bytes.now)
            accounts.book.commands) }
        ensures complete { (commands : List Commands) →
            AreGoodAccountLines h (said_by_accounts h bytes.now) commands → IsWithinLimits h commands →
            MatchResult result (λ accounts. accounts.book.commands ≡ commands)
            (λ fault. fault ≡ AccountFault.NoMemory) }
        ensures fault { IfErr result (λ fault.
            (fault ≡ AccountFault.NoMemory) ⊎ IsAccountFaultOf h (said_by_accounts h bytes.now) fault) }
        // The book, or the first fault.
        ensures value { MatchResult result (λ accounts. accounts_book h bytes.now ≡ Ok accounts.book.commands)
            (λ fault. (fault ≡ AccountFault.NoMemory) ⊎ (accounts_book h bytes.now ≡ Err fault)) }
    {
        let register = Register::read(alloc, bytes, h)?;
        let (book, leaves) = register.finish()?;
        Ok(Accounts { book, leaves })
    }

    /// The book that the lines make.
    pub fn book(&self) -> &Book
        ensures { result.now ≡ self.now.book }
    {
        &self.book
    }

    /// The report as compact JSON: each account by name with its leaf and whether the leaf is active, not revoked, in
    /// the last period; the height of the tree; the number of the last period.
    pub fn report(&self, alloc: Global) -> Result<Vec<u8>, NoMemory>
        ensures { IfOk result (λ text. text.items ≡ compact_text (accounts_data self.now)) }
    {
        Ok(report(alloc, &self.book, &self.leaves)?)
    }
}

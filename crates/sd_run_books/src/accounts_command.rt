//! `accounts SITE ACCOUNTS OUT`: the book that accounts make, and their report.

ghost use Rattle.std.specs.Prelude.{◌≡◌, ◌≢◌, ℕ, IfOk, IfErr};
ghost use Rattle.sd_book.specs.Text.{text_of_book};
ghost use Rattle.sd_run_books.specs.Judged.{accounts_book};
ghost use Rattle.sd_command_base.specs.Spec.{value};
ghost use Rattle.sd_command_base.specs.Outside.{depot_state, io_state_at};
ghost use Rattle.sd_command_base.specs.Reads.{JudgedOutcome, FileOutcome, FilesOutcome};
ghost use Rattle.sd_command_base.specs.Outcome.{Implements, OutcomeWithin, status_of};
ghost use Rattle.sd_command_base.specs.Shown.{shown_word};
ghost use Rattle.sd_run_books.specs.AccountsCommand.{accounts_in, accounts_meaning, accounts_of_file};
ghost use Rattle.sd_run_books.specs.AccountsCommand.{making_then, refused_accounts, accounts_line, accounts_or_status};

use crate::account_cause::{bad_entry, taken_entry};
use crate::{AccountFault, Accounts};
use sd_command_base::{
    LimitKind, LineCause, MOST_BOOK_BYTES, Status, Word, print_text, read_bytes, read_site,
    refused_line, told,
};
use sd_ports::{Depot, Sink, write_file};
use sd_tree_keys::Height;
use std::alloc::Global;

/// Does `accounts SITE ACCOUNTS OUT`.
#[inline(never)]
pub fn accounts<D: Depot, P: Sink>(
    alloc: Global,
    depot: &mut D,
    print: &mut P,
    site: Word<'_>,
    accounts: Word<'_>,
    out: Word<'_>,
) -> Result<(), Status>
    requires { site.number ≢ accounts.number }
    ensures { (steps : ℕ) →
        Implements (accounts_meaning (shown_word site.entry) (shown_word accounts.entry) (shown_word out.entry))
        (io_state_at D.Depot P.Sink depot.old print.old steps)
        (io_state_at D.Depot P.Sink depot.new print.new steps) (status_of result) }
{
    let accounts = accounts_of_site(alloc, depot, site, accounts)?;
    make_book(alloc, depot, print, out, &accounts)
}

/// Makes OUT the book of the accounts, and only then prints their report.
fn make_book<D: Depot, P: Sink>(
    alloc: Global,
    depot: &mut D,
    print: &mut P,
    out: Word<'_>,
    accounts: &Accounts,
) -> Result<(), Status>
    ensures { (steps : ℕ) → OutcomeWithin
        (value (making_then (shown_word out.entry) (text_of_book accounts.now.book.commands)
        (accounts_line accounts.now)))
        (io_state_at D.Depot P.Sink depot.old print.old steps)
        (io_state_at D.Depot P.Sink depot.new print.new steps) (status_of result) }
{
    let book = accounts.book().write(alloc)?;
    let report = report_text(alloc, accounts)?;
    make_and_print(alloc, depot, print, out, &book, &report)
}

/// The accounts for the tree of the site.
fn accounts_of_site<D: Depot>(
    alloc: Global,
    depot: &mut D,
    site: Word<'_>,
    accounts: Word<'_>,
) -> Result<Accounts, Status>
    requires { site.number ≢ accounts.number }
    ensures { FilesOutcome (λ accounts. accounts) (accounts_in (shown_word site.entry) (shown_word accounts.entry))
        (depot_state D.Depot depot.old) (depot_state D.Depot depot.new) result }
{
    let site = read_site(alloc, depot, site)?;
    read_accounts(alloc, depot, accounts, site.height)
}

/// The accounts of the word's file.
fn read_accounts<D: Depot>(
    alloc: Global,
    depot: &mut D,
    word: Word<'_>,
    h: Height,
) -> Result<Accounts, Status>
    ensures { FileOutcome (λ accounts. accounts) (accounts_of_file word.entry.number h) word.entry.text.now
        (depot_state D.Depot depot.old) (depot_state D.Depot depot.new) result }
{
    let bytes = read_bytes(alloc, depot, word, MOST_BOOK_BYTES, LimitKind::BookBytes)?;
    judge_accounts(alloc, word.number, &bytes, h)
}

/// The accounts that the bytes of this word's file say.
#[tactic(auto, using(crate::proofs::ListedAccounts::are_told, crate::proofs::ListedAccounts::are_refused))]
fn judge_accounts(alloc: Global, word: u8, bytes: &[u8], h: Height) -> Result<Accounts, Status>
    ensures { JudgedOutcome (λ accounts. accounts)
        (accounts_or_status word h bytes.now (accounts_book h bytes.now)) result }
{
    match Accounts::read(alloc, bytes, h) {
        Ok(accounts) => Ok(accounts),
        Err(fault) => Err(refused(word, h, bytes, fault)),
    }
}

/// What is answered to accounts that are refused, which this word's file of these bytes says.
fn refused(word: u8, h: Height, bytes: &[u8], fault: AccountFault) -> Status
    ensures { result ≡ refused_accounts word h bytes.now fault }
{
    let line = match fault {
        AccountFault::Line(k) => bad_entry(h, k, bytes),
        AccountFault::Unknown(k) => refused_line(LineCause::Unknown, k, bytes),
        AccountFault::Taken(k) => taken_entry(h, k, bytes),
        AccountFault::Limit(limit) => return Status::Limit(LimitKind::Book(limit)),
        AccountFault::NoMemory => return Status::NoMemory,
    };
    Status::BadBook { word, line }
}

/// The report as a line.
#[tactic(auto, unfolding(crate::specs::AccountsCommand::accounts_line))]
fn report_text(alloc: Global, accounts: &Accounts) -> Result<Vec<u8>, Status>
    ensures value { IfOk result (λ text. text.items ≡ accounts_line accounts.now) }
    ensures fault { IfErr result (λ status. status ≡ Status.NoMemory) }
{
    let mut text = accounts.report(alloc)?;
    text.push(b'\n').map_err(|_| Status::NoMemory)?;
    Ok(text)
}

/// Makes OUT with these bytes and closes it, and only then prints the text.
fn make_and_print<D: Depot, P: Sink>(
    alloc: Global,
    depot: &mut D,
    print: &mut P,
    out: Word<'_>,
    bytes: &[u8],
    text: &[u8],
) -> Result<(), Status>
    ensures { (steps : ℕ) → OutcomeWithin (value (making_then (shown_word out.entry) bytes.now text.now))
        (io_state_at D.Depot P.Sink depot.old print.old steps)
        (io_state_at D.Depot P.Sink depot.new print.new steps) (status_of result) }
{
    told(out.number, write_file(alloc, depot, out.text, bytes))?;
    print_text(print, text)
}

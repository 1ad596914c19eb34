ghost use Rattle.std.specs.Prelude.{◌≡◌, [], ◌∷◌, ◌++◌, IfOk, OnOk, decimal, map};
ghost use Rattle.std.specs.List.Sorted.{IsStrictlyIncreasing};
ghost use Rattle.json.specs.Token.{key, number as shown_number};
ghost use Rattle.json.specs.Tree.{json_tokens};
ghost use Rattle.serde_json.specs.Data.{array};
ghost use Rattle.serde_json.specs.View.{items_of};
ghost use Rattle.serde_json.specs.Written.{compact_text, outline};
ghost use Rattle.sd_book.specs.Commands.{last_period, revoked as revoked_in};
ghost use Rattle.sd_run_books.specs.Kept.{kept_accounts};
ghost use Rattle.sd_run_books.specs.Report.{account_data, is_active, accounts_data};

use crate::account_name::Name;
use json::Writer;
use sd_book::Book;
use sd_tree_keys::Leaf;
use std::alloc::{AllocError, Global};
use std::collections::BTreeMap;

/// The report of a book and the leaves of the names, as compact JSON.
#[tactic(auto, using(crate::proofs::Reports::printed))]
pub(crate) fn report(
    alloc: Global,
    book: &Book,
    leaves: &BTreeMap<Name, Leaf>,
) -> Result<Vec<u8>, AllocError>
    ensures { IfOk result (λ text. text.items ≡ compact_text
        (accounts_data (record { book = book.now; accounts = kept_accounts leaves.now.entries }))) }
{
    let revoked = book
        .revoked(alloc, book.last_period())
        .map_err(|_| AllocError)?;
    let mut out = Writer::new(Vec::new(alloc));
    write_report(&mut out, book, &revoked, leaves)?;
    Ok(out.into_inner())
}

/// Writes the report, where these leaves are revoked in the last period.
fn write_report(
    out: &mut Writer,
    book: &Book,
    revoked: &[Leaf],
    leaves: &BTreeMap<Name, Leaf>,
) -> Result<(), AllocError>
    requires revoked { revoked.now ≡
        revoked_in book.now.height book.now.commands (last_period book.now.commands) }
    requires ascending { IsStrictlyIncreasing revoked.now }
    ensures tokens { OnOk result (out.new.tokens ≡ out.old.tokens ++ json_tokens (outline
        (accounts_data (record { book = book.now; accounts = kept_accounts leaves.now.entries })))) }
    ensures before { out.new.before ≡ out.old.before }
{
    out.begin_object()?;
    out.key("accounts")?;
    write_accounts(out, revoked, leaves)?;
    write_number(out, "height", u64::from(book.height().get()))?;
    write_number(out, "period", u64::from(book.last_period()))?;
    out.end_object()
}

/// Writes a member that is a number.
fn write_number(out: &mut Writer, name: &str, number: u64) -> Result<(), AllocError>
    ensures tokens { OnOk result (out.new.tokens ≡
        out.old.tokens ++ key name.now ∷ shown_number (decimal number) ∷ []) }
    ensures before { out.new.before ≡ out.old.before }
{
    out.key(name)?;
    out.u64(number)
}

/// Writes the accounts by name, where these leaves are revoked.
#[tactic(auto, using(crate::proofs::Reports::accounts_end))]
fn write_accounts(
    out: &mut Writer,
    revoked: &[Leaf],
    leaves: &BTreeMap<Name, Leaf>,
) -> Result<(), AllocError>
    requires { IsStrictlyIncreasing revoked.now }
    ensures tokens { OnOk result (out.new.tokens ≡ out.old.tokens ++ json_tokens (outline
        (array (items_of (map (account_data revoked.now) (kept_accounts leaves.now.entries)))))) }
    ensures before { out.new.before ≡ out.old.before }
{
    out.begin_array()?;
    for (name, leaf) in leaves.iter() {
        write_account(out, revoked, name.as_str(), *leaf)?;
    }
    out.end_array()
}

/// Writes one of them.
#[tactic(auto, using(crate::proofs::Reports::account_joined), unfolding(crate::specs::Report::account_data))]
fn write_account(
    out: &mut Writer,
    revoked: &[Leaf],
    name: &str,
    leaf: Leaf,
) -> Result<(), AllocError>
    requires { IsStrictlyIncreasing revoked.now }
    ensures tokens { OnOk result (out.new.tokens ≡ out.old.tokens
        ++ json_tokens (outline (account_data revoked.now (name.now, leaf)))) }
    ensures before { out.new.before ≡ out.old.before }
{
    out.begin_object()?;
    out.key("active")?;
    out.boolean(is_active(revoked, leaf))?;
    write_number(out, "leaf", u64::from(leaf.get()))?;
    out.key("name")?;
    out.string(name)?;
    out.end_object()
}

/// Whether the leaf isn't among these that are revoked, which ascend.
pub(crate) fn is_active(revoked: &[Leaf], leaf: Leaf) -> bool
    requires { IsStrictlyIncreasing revoked.now }
    ensures { result ≡ is_active revoked.now leaf }
{
    match revoked.binary_search(&leaf) {
        Ok(_) => false,
        Err(_) => true,
    }
}

//! The lines of `status`.

ghost use Rattle.std.specs.Prelude.{◌≡◌, ◌≤◌, ◌+◌, ◌++◌, [], if◌then◌else◌, IfOk, OnOk, string_bytes};
ghost use Rattle.sd_site_cards.specs.SiteFields.{site_fields_of};
ghost use Rattle.sd_run_books.specs.Status.{entitled_line, fingerprint_line, status_text as status_of};
ghost use Rattle.sd_run_books.specs.Same.{is_same_state};

use crate::report::is_active;
use sd_base::NoMemory;
use sd_book::Book;
use sd_command_base::replay_from;
use sd_site_cards::Site;
use sd_tree_keys::{Leaf, check_value, whole_key};
use std::alloc::{AllocError, Global};
use std::fmt::Write;

/// The fingerprint of the site's master, and each period in which it changes whether the leaf is entitled.
#[tactic(auto, unfolding(crate::specs::Status::status_text))]
pub(crate) fn status_text(
    alloc: Global,
    site: &Site,
    book: &Book,
    leaf: Leaf,
) -> Result<String, NoMemory>
    requires { book.now.height ≡ site.now.height }
    ensures { IfOk result (λ text. string_bytes text ≡ status_of (site_fields_of site.now) book.now.commands leaf) }
{
    let last = book.last_period();
    let count = last.saturating_sub(site.first_period) + 1;
    let mut periods = replay_from(alloc, book, site.first_period.min(last))?;
    let mut text = master_text(alloc, &site.master)?;
    let mut before = None;
    for turn in 0..count {
        let Some(revoked) = periods.next(alloc)? else {
            unreachable!();
        };
        let entitled = is_active(&revoked, leaf);
        push_change(&mut text, site, turn, leaf, before, entitled)?;
        before = Some(entitled);
    }
    Ok(text)
}

/// The line of the fingerprint of a master.
#[tactic(auto, unfolding(crate::specs::Status::fingerprint_line))]
fn master_text(alloc: Global, master: &[u8; 32]) -> Result<String, AllocError>
    ensures { IfOk result (λ text. string_bytes text ≡ fingerprint_line master.now) }
{
    let fingerprint = hex::encode(alloc, &check_value(&whole_key(master)))?;
    format!(in alloc; "master {fingerprint}\n")
}

/// Puts the line of a period after the text, which is so many after the site's first one, unless the period before has
/// the same.
fn push_change(
    text: &mut String,
    site: &Site,
    turn: u32,
    leaf: Leaf,
    before: Option<bool>,
    entitled: bool,
) -> Result<(), AllocError>
    requires { turn ≤ 1023 }
    ensures { OnOk result (string_bytes text.new ≡ string_bytes text.old
        ++ (if is_same_state before entitled then [] else entitled_line leaf entitled (site.now.first_period + turn))) }
{
    if before == Some(entitled) {
        return Ok(());
    }
    push_line(
        text,
        u64::from(site.first_period) + u64::from(turn),
        leaf,
        entitled,
    )
}

/// Puts the line of a period after the text.
#[tactic(auto, unfolding(crate::specs::Status::entitled_line))]
fn push_line(text: &mut String, period: u64, leaf: Leaf, entitled: bool) -> Result<(), AllocError>
    ensures { OnOk result (string_bytes text.new ≡ string_bytes text.old ++ entitled_line leaf entitled period) }
{
    let receiver = leaf.get();
    let state = if entitled { "entitled" } else { "revoked" };
    write!(text, "period {period} receiver {receiver} {state}\n")
}

//! What `next` prints of the site that it makes: its periods, and the receivers that change there.

ghost use Rattle.std.specs.Prelude.{◌≡◌, ◌≤◌, ◌+◌, ◌*◌, ◌++◌, true, All, List, IfOk, OnOk, string_bytes};
ghost use Rattle.sd_book.specs.declared.command.Command.{Command as Commands};
ghost use Rattle.sd_book.specs.Commands.{is_within, revoked_after};
ghost use Rattle.sd_site_cards.specs.SiteFields.{site_fields_of};
ghost use Rattle.sd_run_books.specs.Told.{chain_period_text, told_next as next_text, told_of_period};

use crate::told_changes::push_changes;
use sd_base::NoMemory;
use sd_book::{Book, Command, revoked_by};
use sd_command_base::replay_from;
use sd_site_cards::Site;
use sd_tree_keys::Leaf;
use std::alloc::{AllocError, Global};
use std::fmt::Write;

/// The lines of the periods of a site, whose book was this one and is that one now.
pub(crate) fn told_next(
    alloc: Global,
    site: &Site,
    own: &[Command],
    book: &Book,
) -> Result<String, NoMemory>
    requires height { book.now.height ≡ site.now.height }
    requires own { All (λ command. is_within site.now.height command ≡ true) own.now }
    ensures { IfOk result (λ text. string_bytes text ≡ next_text (site_fields_of site.now) own.now book.now.commands) }
{
    let last = book.last_period();
    let count = last.saturating_sub(site.first_period) + 1;
    let mut periods = replay_from(alloc, book, site.first_period.min(last))?;
    let mut before = revoked_by(alloc, own)?;
    let mut text = String::new(alloc);
    for turn in 0..count {
        let Some(now) = periods.next(alloc)? else {
            unreachable!();
        };
        push_period(&mut text, site, turn, &before, &now)?;
        before = now;
    }
    Ok(text)
}

/// Puts the lines of a period after the text, which is so many after the site's first one. Before it these leaves were
/// revoked, and now those are.
fn push_period(
    text: &mut String,
    site: &Site,
    turn: u32,
    before: &[Leaf],
    now: &[Leaf],
) -> Result<(), AllocError>
    requires { turn ≤ 1023 }
    ensures { (was is : List Commands) → before.now ≡ revoked_after site.now.height was →
        now.now ≡ revoked_after site.now.height is →
        OnOk result (string_bytes text.new ≡ string_bytes text.old
        ++ told_of_period (site_fields_of site.now) (site.now.first_period + turn) was is) }
{
    push_head(text, site, turn, now.len())?;
    push_changes(text, before, now)
}

/// Puts the line of a period after the text.
#[tactic(auto, unfolding(crate::specs::Told::chain_period_text))]
fn push_head(text: &mut String, site: &Site, turn: u32, revoked: usize) -> Result<(), AllocError>
    requires { turn ≤ 1023 }
    ensures { OnOk result (string_bytes text.new ≡ string_bytes text.old
        ++ chain_period_text (site.now.first_period + turn) (turn * site.now.span * site.now.cryptos * site.now.every)
        revoked) }
{
    let period = u64::from(site.first_period) + u64::from(turn);
    let packet = u64::from(turn)
        * u64::from(site.span)
        * u64::from(site.cryptos)
        * u64::from(site.every);
    write!(text, "period {period} packet {packet} revoked {revoked}\n")
}

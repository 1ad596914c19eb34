//! The lines that are printed.

ghost use Rattle.std.specs.Prelude.{◌≡◌, ◌≤◌, ◌++◌, List, OnOk, string_bytes};
ghost use Rattle.sd_book.specs.declared.command.Command.{Command};
ghost use Rattle.sd_book.specs.Commands.{last_period as last_of};
ghost use Rattle.sd_site_cards.specs.SiteFields.{site_fields_of};
ghost use Rattle.sd_run_books.specs.Apart.{apart_line};

use crate::apart_sites::last_due;
use sd_site_cards::Site;
use std::alloc::AllocError;
use std::fmt::Write;

/// Puts the line of a site after the text, whose book has this last period.
#[tactic(auto, unfolding(crate::specs::Apart::apart_site_line))]
pub(crate) fn push_site(
    text: &mut String,
    number: u8,
    site: &Site,
    last_period: u32,
) -> Result<(), AllocError>
    requires { last_period ≤ 1023 }
    ensures { (commands : List Command) → last_period ≡ last_of commands →
        OnOk result (string_bytes text.new ≡ string_bytes text.old
        ++ apart_line number (record { site = site_fields_of site.now; commands = commands })) }
{
    let last = last_due(site, last_period);
    let first_word = site.first_word;
    let last_word = site.last_word;
    let first = site.first_period;
    write!(
        text,
        "site {number} words {first_word} to {last_word} periods {first} to {last}\n"
    )
}

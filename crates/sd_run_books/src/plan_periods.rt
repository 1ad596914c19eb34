//! The lines of all periods of a broadcast.

ghost use Rattle.std.specs.Prelude.{◌≡◌, ◌^◌, ◌<◌, ◌≤◌, ◌+◌, ◌*◌, ◌++◌, All, map, length, IfOk, string_bytes};
ghost use Rattle.std.specs.List.{concat, sum_by};
ghost use Rattle.std.specs.List.Sorted.{IsStrictlyIncreasing};
ghost use Rattle.sd_tree_keys.specs.declared.leaf.TheConstants.{MOST_REVOKED};
ghost use Rattle.sd_site_cards.specs.SiteFields.{site_fields_of};
ghost use Rattle.sd_cover_tracing.specs.Cover.{cover_of};
ghost use Rattle.sd_message.specs.EmmForm.{sections_for};
ghost use Rattle.sd_run_books.specs.Air.{line_at, plan_period_line, periods_for, tables_in};

use crate::plan_lines::{PeriodNumbers, push_period};
use crate::plan_schedule::{cryptos_in, period_count};
use sd_base::NoMemory;
use sd_book::Book;
use sd_command_base::{cover_sets, replay_from};
use sd_message::section_count;
use sd_site_cards::Site;
use sd_tree_keys::{HIGHEST, Height, Leaf};
use std::alloc::Global;

/// The lines of the periods of this number of crypto periods, and the number of packets of their CATs and EMMs.
pub(crate) fn periods_text(
    alloc: Global,
    site: &Site,
    book: &Book,
    cryptos: u32,
) -> Result<(String, u64), NoMemory>
    requires height { book.now.height ≡ site.now.height }
    requires some { 1 ≤ cryptos }
    ensures text { IfOk result (λ found. string_bytes found.0 ≡ concat (map
        (line_at (record { site = site_fields_of site.now; commands = book.now.commands }) cryptos)
        (periods_for (record { site = site_fields_of site.now; commands = book.now.commands }) cryptos))) }
    ensures tables { IfOk result (λ found. found.1 ≡ sum_by
        (tables_in (record { site = site_fields_of site.now; commands = book.now.commands }) cryptos)
        (periods_for (record { site = site_fields_of site.now; commands = book.now.commands }) cryptos)) }
    ensures fits { IfOk result (λ found. found.1 ≤ 2 ^ 59) }
{
    let last = book.last_period();
    let count = period_count(site, last, cryptos);
    let mut periods = replay_from(alloc, book, site.first_period.min(last))?;
    let mut text = String::new(alloc);
    let mut tables = 0;
    for before in 0..count {
        let Some(revoked) = periods.next(alloc)? else {
            unreachable!();
        };
        let period = u64::from(site.first_period) + u64::from(before);
        let share = cryptos_in(site, last, cryptos, before);
        tables += push_numbers(alloc, &mut text, site.height, period, share, &revoked)?;
    }
    Ok((text, tables))
}

/// Puts the line of a period with these revoked leaves and so many crypto periods after the text, and gives how many
/// packets its CATs and entitlements are.
#[tactic(auto, using(crate::proofs::Few::sets_few))]
fn push_numbers(
    alloc: Global,
    text: &mut String,
    h: Height,
    period: u64,
    cryptos: u32,
    revoked: &[Leaf],
) -> Result<u64, NoMemory>
    requires leaves { All (λ u. u < 2 ^ h) revoked.now }
    requires ascending { IsStrictlyIncreasing revoked.now }
    requires few { length revoked.now ≤ MOST_REVOKED }
    ensures text { IfOk result (λ tables. string_bytes text.new ≡ string_bytes text.old
        ++ plan_period_line period (length revoked.now) (length (cover_of h revoked.now))
        (sections_for (length (cover_of h revoked.now))) cryptos) }
    ensures tables { IfOk result (λ tables.
        tables ≡ cryptos * (1 + sections_for (length (cover_of h revoked.now)))) }
    ensures fits { IfOk result (λ tables. tables ≤ 2 ^ 48) }
{
    prove!(h.get() <= HIGHEST);
    let sets = cover_sets(alloc, h, revoked)?.len();
    let entitlements = section_count(sets);
    let numbers = PeriodNumbers {
        period,
        revoked: revoked.len(),
        sets,
        entitlements,
        cryptos,
    };
    push_period(text, numbers)?;
    Ok(u64::from(cryptos) * (1 + u64::from(entitlements)))
}

//! The schedule of a broadcast, from the number of its clear packets.

ghost use Rattle.std.specs.Prelude.{◌≡◌, ◌^◌, ◌≤◌, ◌+◌, ◌-◌, ℕ, List};
ghost use Rattle.sd_book.specs.declared.command.Command.{Command};
ghost use Rattle.sd_book.specs.Commands.{last_period as last_of};
ghost use Rattle.sd_spec.specs.Plan.{Plan};
ghost use Rattle.sd_site_cards.specs.SiteFields.{site_fields_of};
ghost use Rattle.sd_run_books.specs.Air.{cryptos_for as cryptos_of, cryptos_in as cryptos_of_period};
ghost use Rattle.sd_run_books.specs.Air.{last_period_for, last_word_for, messages_for as messages_of};
ghost use Rattle.sd_run_books.specs.Air.{period_count as count_of};

use sd_site_cards::Site;

/// The number of crypto periods in this number of packets.
#[tactic(auto, unfolding(sd_spec::specs::Plan::crypto_of))]
pub(crate) fn cryptos_for(site: &Site, packets: u32) -> u32
    requires { 1 ≤ packets }
    ensures value { result ≡ cryptos_of (site_fields_of site.now) packets }
    ensures some { 1 ≤ result }
{
    (packets - 1) / (site.every * site.cryptos) + 1
}

/// The number of the last control word of this number of crypto periods.
pub(crate) fn last_word(site: &Site, cryptos: u32) -> u64
    requires { 1 ≤ cryptos }
    ensures { (m : ℕ) → cryptos ≡ cryptos_of (site_fields_of site.now) m →
        result ≡ last_word_for (site_fields_of site.now) m }
{
    u64::from(site.first_word) + u64::from(cryptos - 1)
}

/// The number of control messages for this number of packets, with the closing one.
pub(crate) fn messages_for(site: &Site, packets: u32) -> u64
    ensures value { result ≡ messages_of (site_fields_of site.now) packets }
    ensures few { result ≤ 2 ^ 32 }
{
    u64::from(packets.div_ceil(site.every)) + 1
}

/// The number of periods in this number of crypto periods, in a book with this last period.
#[tactic(auto, unfolding(sd_spec::specs::Plan::period_in))]
pub(crate) fn period_count(site: &Site, last_period: u32, cryptos: u32) -> u32
    requires some { 1 ≤ cryptos }
    requires last { last_period ≤ 1023 }
    ensures value { (commands : List Command) → last_period ≡ last_of commands →
        result ≡ count_of (record { site = site_fields_of site.now; commands = commands }) cryptos }
    ensures few { result ≤ 1024 }
    ensures some { 1 ≤ result }
    ensures inside { result ≤ (last_period - site.now.first_period) + 1 }
    ensures last { (commands : List Command) → last_period ≡ last_of commands →
        site.now.first_period + result
        ≡ last_period_for (record { site = site_fields_of site.now; commands = commands }) cryptos + 1 }
{
    ((cryptos - 1) / site.span).min(last_period.saturating_sub(site.first_period)) + 1
}

/// The number of crypto periods, of `cryptos` in all, in the period that comes after `before` others of the broadcast,
/// in a book with this last period.
pub(crate) fn cryptos_in(site: &Site, last_period: u32, cryptos: u32, before: u32) -> u32
    requires { before ≤ 1023 }
    ensures { (commands : List Command) → last_period ≡ last_of commands →
        result ≡ cryptos_of_period (record { site = site_fields_of site.now; commands = commands }) cryptos
        (site.now.first_period + before) }
{
    let left = cryptos.saturating_sub(before * site.span);
    if u64::from(last_period) <= u64::from(site.first_period) + u64::from(before) {
        left
    } else {
        site.span.min(left)
    }
}

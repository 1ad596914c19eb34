//! What is judged of the two sites alone.

ghost use Rattle.std.specs.Prelude.{◌≡◌, ◌≤◌, ◌+◌, ◌-◌, List, IsNone};
ghost use Rattle.sd_book.specs.declared.command.Command.{Command};
ghost use Rattle.sd_book.specs.Commands.{last_period as last_of};
ghost use Rattle.sd_site_cards.specs.SiteFields.{site_fields_of};
ghost use Rattle.sd_run_books.specs.Apart.{last_due as due_of, sites_clash};

use sd_command_base::Clash;
use sd_site_cards::Site;

/// Why the sites don't go together.
#[tactic(auto, unfolding(crate::specs::Apart::sites_clash))]
pub(crate) fn clash_of_sites(a: &Site, b: &Site) -> Option<Clash>
    ensures value { result ≡ sites_clash (site_fields_of a.now) (site_fields_of b.now) }
    ensures heights { IsNone result → a.now.height ≡ b.now.height }
{
    let least = a.first_word.max(b.first_word);
    if a.height != b.height {
        Some(Clash::Heights)
    } else if a.master != b.master {
        Some(Clash::Masters)
    } else if a.last_word < a.first_word {
        Some(Clash::NoWords(1))
    } else if b.last_word < b.first_word {
        Some(Clash::NoWords(2))
    } else if least <= a.last_word && least <= b.last_word {
        Some(Clash::SharedWord(least))
    } else {
        None
    }
}

/// The last period that a broadcast of the site may use with a book of this last period.
#[tactic(auto, unfolding(sd_spec::specs::Plan::period_in))]
pub(crate) fn last_due(site: &Site, last_period: u32) -> u64
    requires { last_period ≤ 1023 }
    ensures value { (commands : List Command) → last_period ≡ last_of commands →
        result ≡ due_of (record { site = site_fields_of site.now; commands = commands }) }
    ensures inside { result ≤ site.now.first_period + (last_period - site.now.first_period) }
{
    let cryptos = site.last_word.saturating_sub(site.first_word);
    let more = (cryptos / site.span).min(last_period.saturating_sub(site.first_period));
    u64::from(site.first_period) + u64::from(more)
}

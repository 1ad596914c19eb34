//! `card SITE LEAF OUT`: the card of a site's leaf.

ghost use Rattle.sd_site_cards.specs.SiteFields.{site_fields_of};
ghost use Rattle.sd_command_base.specs.Outside.{PageState, depot_state, io_state};
ghost use Rattle.sd_command_base.specs.Reads.{JudgedOutcome, TakesFor};
ghost use Rattle.sd_command_base.specs.Outcome.{Implements, status_of};
ghost use Rattle.sd_run_books.specs.Card.{card_meaning, made_card};
ghost use Rattle.sd_command_base.specs.Shown.{shown_word, shown_number};

use sd_base::Steps;
use sd_command_base::{Number, Status, Word, make_file, read_site};
use sd_ports::Depot;
use sd_site_cards::{Card, Site};
use sd_tree_keys::Leaf;
use std::alloc::Global;
use std::sync::ledger::Ledger;

/// Does `card SITE LEAF OUT`.
#[inline(never)]
pub fn card<D: Depot, L: Ledger>(
    alloc: Global,
    depot: &mut D,
    site: Word<'_>,
    leaf: Number,
    out: Word<'_>,
    steps: &mut Steps<L>,
) -> Result<(), Status>
    ensures { (page : PageState) →
        Implements (card_meaning (shown_word site.entry) (shown_number leaf) (shown_word out.entry))
        (io_state (depot_state D.Depot depot.old) page steps.old)
        (io_state (depot_state D.Depot depot.new) page steps.new)
        (status_of result) }
{
    let site = read_site(alloc, depot, site)?;
    let bytes = card_of(alloc, &site, leaf, steps)?;
    make_file(alloc, depot, out, &bytes)
}

/// The bytes of the card of a site's leaf, which is to be one of its tree.
fn card_of<L: Ledger>(
    alloc: Global,
    site: &Site,
    leaf: Number,
    steps: &mut Steps<L>,
) -> Result<Vec<u8>, Status>
    ensures value { JudgedOutcome (λ bytes. bytes.items) (made_card (site_fields_of site.now) (shown_number leaf))
        result }
    ensures steps { TakesFor (made_card (site_fields_of site.now) (shown_number leaf)) steps.old steps.new }
{
    let Some(of_tree) = Leaf::new(site.height, leaf.value) else {
        return Err(Status::BadWord(leaf.word));
    };
    let card = Card::make(alloc, site, of_tree, steps)?;
    Ok(card.write(alloc)?)
}

//! `lcard SITE LEAF WIDTH OUT`: the layer card of a site's leaf.

ghost use Rattle.std.specs.Prelude.{◌≡◌, ◌^◌, ◌<◌, ◌≤◌, IfOk, IfErr};
ghost use Rattle.sd_lsd.specs.Fields.{layer_card_of, layer_bytes};
ghost use Rattle.sd_command_base.specs.Outside.{PageState, depot_state, io_state};
ghost use Rattle.sd_command_base.specs.Reads.{SureOutcome};
ghost use Rattle.sd_command_base.specs.Outcome.{Implements, status_of};
ghost use Rattle.sd_command_base.specs.Shown.{shown_word, shown_number};
ghost use Rattle.sd_run_books.specs.Lcard.{lcard_meaning, told_leaf, told_width};

use sd_base::Steps;
use sd_command_base::{Number, Status, Word, make_file, read_site};
use sd_lsd::{LayerCard, Width};
use sd_ports::Depot;
use sd_site_cards::Site;
use sd_tree_keys::{HIGHEST, Height, Leaf};
use std::alloc::Global;
use std::sync::ledger::Ledger;

/// Does `lcard SITE LEAF WIDTH OUT`.
#[inline(never)]
pub fn lcard<D: Depot, L: Ledger>(
    alloc: Global,
    depot: &mut D,
    site: Word<'_>,
    leaf: Number,
    width: Number,
    out: Word<'_>,
    steps: &mut Steps<L>,
) -> Result<(), Status>
    ensures { (page : PageState) → Implements
        (lcard_meaning (shown_word site.entry) (shown_number leaf) (shown_number width) (shown_word out.entry))
        (io_state (depot_state D.Depot depot.old) page steps.old)
        (io_state (depot_state D.Depot depot.new) page steps.new)
        (status_of result) }
{
    let site = read_site(alloc, depot, site)?;
    let u = leaf_of(site.height, leaf)?;
    let w = width_of(site.height, width)?;
    let bytes = card_bytes(alloc, &site, w, u, steps)?;
    make_file(alloc, depot, out, &bytes)
}

/// The leaf of this number, which is to be one of the tree.
fn leaf_of(h: Height, leaf: Number) -> Result<Leaf, Status>
    ensures value { SureOutcome (λ u. u) (told_leaf h (shown_number leaf)) result }
    ensures bound { IfOk result (λ u. u < 2 ^ h) }
{
    let Some(u) = Leaf::new(h, leaf.value) else {
        return Err(Status::BadWord(leaf.word));
    };
    Ok(u)
}

/// The width of this number, which is to be 1 to the tree's height.
fn width_of(h: Height, width: Number) -> Result<Width, Status>
    ensures value { SureOutcome (λ w. w) (told_width h (shown_number width)) result }
    ensures bound { IfOk result (λ w. w ≤ h) }
{
    prove!(h.get() <= HIGHEST);
    let Ok(levels) = u8::try_from(width.value) else {
        return Err(Status::BadWord(width.word));
    };
    let Some(w) = Width::new(h, levels) else {
        return Err(Status::BadWord(width.word));
    };
    Ok(w)
}

/// The bytes of the layer card of a site's leaf.
fn card_bytes<L: Ledger>(
    alloc: Global,
    site: &Site,
    w: Width,
    u: Leaf,
    steps: &mut Steps<L>,
) -> Result<Vec<u8>, Status>
    requires width { w ≤ site.now.height }
    requires leaf { u < 2 ^ site.now.height }
    ensures value { IfOk result (λ bytes.
        bytes.items ≡ layer_bytes (layer_card_of site.now.master site.now.ca site.now.height w u)) }
    ensures fault { IfErr result (λ status. status ≡ Status.NoMemory) }
{
    let card = LayerCard::make(alloc, site, w, u, steps)?;
    Ok(card.write(alloc)?)
}

ghost use Rattle.std.specs.Prelude.{◌≡◌, ◌+◌, ◌^◌, ◌<◌, ◌≤◌, length, IfOk, map};
ghost use Rattle.sd_tree_keys.specs.declared.height.TheConstants.{HIGHEST};
ghost use Rattle.sd_site_cards.specs.Secrets.{secret_of};
ghost use Rattle.sd_lsd.specs.LayerNames.{layer_given, layer_count};
ghost use Rattle.sd_lsd.specs.Fields.{layer_fields_of, layer_card_of};

use crate::Width;
use crate::card::LayerCard;
use crate::counts::{layer_count, pairs_under};
use sd_base::{NoMemory, Steps};
use sd_site_cards::{Site, push_labels};
use sd_tree_keys::{Leaf, whole_key};
use std::alloc::{AllocError, Global};
use std::sync::ledger::Ledger;

impl LayerCard {
    /// The layer card of a site's leaf.
    #[tactic(auto, unfolding(crate::specs::Fields::layer_card_of))]
    pub fn make<L: Ledger>(
        alloc: Global,
        site: &Site,
        w: Width,
        u: Leaf,
        steps: &mut Steps<L>,
    ) -> Result<LayerCard, NoMemory>
        requires width { w ≤ site.now.height }
        requires leaf { u < 2 ^ site.now.height }
        ensures { IfOk result (λ card.
            layer_fields_of card ≡ layer_card_of site.now.master site.now.ca site.now.height w u) }
    {
        let secrets = secrets(alloc, site, w, u, steps)?;
        Ok(LayerCard {
            height: site.height,
            width: w,
            leaf: u,
            ca: site.ca,
            secrets,
        })
    }
}

// The secrets that the leaf is given in layers, in their order.
fn secrets<L: Ledger>(
    alloc: Global,
    site: &Site,
    w: Width,
    u: Leaf,
    steps: &mut Steps<L>,
) -> Result<Vec<[u8; 32]>, AllocError>
    requires width { w ≤ site.now.height }
    requires leaf { u < 2 ^ site.now.height }
    ensures value { IfOk result (λ secrets.
        secrets.items ≡ map (secret_of site.now.master) (layer_given site.now.height w u)) }
    ensures length { IfOk result (λ secrets. length secrets.items ≡ layer_count site.now.height w + 1) }
    ensures fits { IfOk result (λ _. (1 ≤ site.now.height) × (site.now.height ≤ HIGHEST)) }
    ensures some { IfOk result (λ _. 1 ≤ w) }
{
    let mut secrets = Vec::with_capacity(alloc, layer_count(site.height, w) + 1)?;
    secrets.push(whole_key(&site.master))?;
    for depth in 0..u32::from(site.height.get()) {
        let levels = pairs_under(site.height, w, depth);
        push_labels(
            &mut secrets,
            &site.master,
            site.height,
            u,
            depth,
            levels,
            steps,
        )?;
    }
    prove!(1 <= w.get());
    Ok(secrets)
}

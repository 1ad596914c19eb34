ghost use Rattle.std.specs.Prelude.{◌≡◌, ◌+◌, ◌/◌, ◌^◌, ◌<◌, ◌≤◌, ◌*◌, length, IfOk, map};
ghost use Rattle.sd_tree_keys.specs.Names.{names_of_receiver};
ghost use Rattle.sd_site_cards.specs.Secrets.{secret_of};
ghost use Rattle.sd_site_cards.specs.CardFields.{card_fields_of, card_of};

use crate::card::Card;
use crate::count::count_at;
use crate::{Site, push_labels};
use sd_base::{NoMemory, Steps};
use sd_tree_keys::{HIGHEST, Leaf, whole_key};
use std::alloc::{AllocError, Global};
use std::sync::ledger::Ledger;

impl Card {
    /// The card of a site's leaf.
    #[tactic(auto, unfolding(crate::specs::CardFields::card_of))]
    pub fn make<L: Ledger>(
        alloc: Global,
        site: &Site,
        u: Leaf,
        steps: &mut Steps<L>,
    ) -> Result<Card, NoMemory>
        requires { u < 2 ^ site.now.height }
        ensures { IfOk result (λ card. card_fields_of card ≡ card_of site.now.master site.now.ca site.now.height u) }
    {
        let secrets = secrets(alloc, site, u, steps)?;
        Ok(Card {
            height: site.height,
            leaf: u,
            ca: site.ca,
            secrets,
        })
    }
}

// The secrets that the leaf is given, in their order.
fn secrets<L: Ledger>(
    alloc: Global,
    site: &Site,
    u: Leaf,
    steps: &mut Steps<L>,
) -> Result<Vec<[u8; 32]>, AllocError>
    requires { u < 2 ^ site.now.height }
    ensures value { IfOk result (λ secrets. secrets.items ≡ map (secret_of site.now.master)
        (names_of_receiver site.now.height u)) }
    ensures length { IfOk result (λ secrets.
        length secrets.items ≡ site.now.height * (site.now.height + 1) / 2 + 1) }
    ensures fits { IfOk result (λ _. (1 ≤ site.now.height) × (site.now.height ≤ HIGHEST)) }
{
    let mut secrets = Vec::with_capacity(alloc, count_at(site.height))?;
    secrets.push(whole_key(&site.master))?;
    let levels = u32::from(site.height.get());
    for depth in 0..levels {
        push_labels(
            &mut secrets,
            &site.master,
            site.height,
            u,
            depth,
            levels - depth,
            steps,
        )?;
    }
    Ok(secrets)
}

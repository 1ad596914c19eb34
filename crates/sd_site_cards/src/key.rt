ghost use Rattle.std.specs.Prelude.{◌≡◌, ℕ, ◌+◌, ◌-◌, ◌≤◌, ◌↔◌, List, true, false, IsNone, IfSome};
ghost use Rattle.sd_tree_keys.specs.Leaves.{is_member};
ghost use Rattle.sd_tree_keys.specs.SetNames.{IsOfHeight};
ghost use Rattle.sd_tree_keys.specs.declared.set.SetName.TheVariants.{Diff};
ghost use Rattle.sd_tree_keys.specs.Keys.{key_of};
ghost use Rattle.sd_site_cards.specs.CardFields.{card_fields_of, card_of, card_key, CardDerives};

use crate::card::Card;
use crate::place::place;
use crate::{hanging_above, key_below};
use sd_base::Steps;
use sd_tree_keys::{SetName, contains, depth};
use std::sync::ledger::Ledger;

impl Card {
    /// The key of a set, or `None` where the leaf isn't in it. It takes at most as many steps as the tree is high.
    pub fn key_for<L: Ledger>(&self, name: SetName, steps: &mut Steps<L>) -> Option<[u8; 32]>
        requires { IsOfHeight self.now.height name }
        ensures none { IsNone result ↔ (is_member self.now.height name self.now.leaf ≡ false) }
        ensures unchanged { IsNone result → steps.new ≡ steps.old }
        // Which key it is, as a function of what the card says.
        ensures value { IfSome result (λ key. key ≡ card_key (card_fields_of self.now) name) }
        // From which secret, and by how many steps.
        ensures sound { IfSome result (λ key. CardDerives (card_fields_of self.now) name key (steps.new - steps.old)) }
        ensures steps { (steps.old ≤ steps.new) × (steps.new ≤ steps.old + self.now.height) }
        // Of a card that was made for its leaf it is the set's key.
        ensures made { (master : List ℕ) (ca : ℕ) →
            card_fields_of self.now ≡ card_of master ca self.now.height self.now.leaf →
            IfSome result (λ key. key ≡ key_of master name) }
    {
        if !contains(self.height, name, self.leaf) {
            return None;
        }
        match name {
            SetName::Whole => Some(self.secrets[0]),
            SetName::Diff { i, j } => Some(self.pair_key(i, j, steps)),
        }
    }

    // The key of S(i,j), in which the leaf is.
    fn pair_key<L: Ledger>(&self, i: u32, j: u32, steps: &mut Steps<L>) -> [u8; 32]
        requires pair { IsOfHeight self.now.height (SetName.Diff i j) }
        requires member { is_member self.now.height (SetName.Diff i j) self.now.leaf ≡ true }
        ensures sound { CardDerives (card_fields_of self.now) (SetName.Diff i j) result (steps.new - steps.old) }
        ensures steps { (steps.old ≤ steps.new) × (steps.new ≤ steps.old + self.now.height) }
    {
        let held = hanging_above(self.height, self.leaf, j);
        key_below(
            &self.secrets[place(self.height, depth(i), depth(held))],
            held,
            j,
            steps,
        )
    }
}

//! What the definitions of secrets, of a card, its keys and its file come to.

ghost use Rattle.std.specs.Prelude.{◌≡◌, ◌≤◌, ◌<◌, ◌^◌, ℕ, List, None, true, ◌≢◌, AllPairs};
ghost use Rattle.sd_tree_keys.specs.Leaves.{is_member};
ghost use Rattle.sd_tree_keys.specs.Limits.{highest};
ghost use Rattle.sd_tree_keys.specs.SetNames.{IsOfHeight};
ghost use Rattle.sd_tree_keys.specs.Keys.{key_of};
ghost use Rattle.sd_site_cards.specs.CardFields.{CardFields, IsCard, card_of, card_bytes, card_key};
ghost use Rattle.sd_site_cards.specs.CardFaults.{fault_in};
ghost use Rattle.sd_tree_keys.specs.Names.{names_of_receiver};

use sd_tree_keys::SetName;

/// A card's file says that card alone, and nothing is wrong with it. So a card that is written is read again.
#[tactic(auto, using(sd_site_cards::proofs::Spellings::written_once, sd_site_cards::proofs::Spellings::written_is_good))]
pub fn card_files()
    ensures sound { (a b : CardFields) → IsCard a → IsCard b → card_bytes a ≡ card_bytes b → a ≡ b }
    ensures complete { (card : CardFields) → IsCard card → fault_in (card_bytes card) ≡ None }
{}

/// The card of a leaf is a card. So the file that is made for a leaf is read, as this card.
#[tactic(auto, using(sd_site_cards::proofs::Made::made_is_card))]
pub fn made_cards()
    ensures { (master : List ℕ) (ca d u : ℕ) → ca < 2 ^ 16 → 1 ≤ d → d ≤ highest → u < 2 ^ d →
        IsCard (card_of master ca d u) }
{}

/// The card of a leaf gives the key of each set that the leaf is in.
#[tactic(auto, using(sd_site_cards::proofs::Keys::made_gives_key))]
pub fn made_keys()
    ensures { (master : List ℕ) (ca d u : ℕ) (name : SetName) → d ≤ highest → u < 2 ^ d → IsOfHeight d name →
        is_member d name u ≡ true → card_key (card_of master ca d u) name ≡ key_of master name }
{}

/// A leaf is given each name once.
#[tactic(auto, using(sd_site_cards::proofs::Once::given_once))]
pub fn names_once()
    ensures { (d u : ℕ) → u < 2 ^ d → AllPairs (λ a b. a ≢ b) (names_of_receiver d u) }
{}

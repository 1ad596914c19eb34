//! What useful sets and covers by them come to, and the names in layers, layer cards, their keys and their file.

ghost use Rattle.std.specs.Prelude.{◌≡◌, ◌+◌, ◌≤◌, ◌<◌, ◌^◌, ◌↔◌, ◌⊎◌, ℕ, List, All, Any, Contains, true, length};
ghost use Rattle.std.specs.Prelude.{◌%◌};
ghost use Rattle.sd_tree_keys.specs.Leaves.{is_member, unrevoked};
ghost use Rattle.sd_tree_keys.specs.SetNames.{IsOfHeight};
ghost use Rattle.sd_tree_keys.specs.Limits.{highest};
ghost use Rattle.sd_tree_keys.specs.declared.set.SetName.{SetName};
ghost use Rattle.sd_tree_keys.specs.Keys.{key_of};
ghost use Rattle.sd_tree_keys.specs.Names.{names_of_receiver};
ghost use Rattle.sd_cover_tracing.specs.Reach.{Key, IsReached};
ghost use Rattle.sd_lsd.specs.Layers.{is_useful, layer_end};
ghost use Rattle.sd_lsd.specs.Cover.{IsLayerCover, IsDoubleSmall, layer_cover_of};
ghost use Rattle.sd_lsd.specs.LayerNames.{layer_given, layer_count, ReachesItsUseful};
ghost use Rattle.sd_lsd.specs.Fields.{LayerFields, IsLayerCard, layer_card_of, layer_bytes, layer_key};
ghost use Rattle.sd_cover_tracing.specs.Partition.{IsPartition};

/// How many names a leaf is given in layers; and of width 1, and of the tree's height, all that it is given without.
#[tactic(auto, using(sd_lsd::proofs::Given::length_layer_given, sd_lsd::proofs::Given::all_given))]
pub fn names_in_layers()
    ensures count { (d w u : ℕ) → d ≤ highest → 1 ≤ w → u < 2 ^ d →
        length (layer_given d w u) ≡ layer_count d w + 1 }
    ensures all { (d w u : ℕ) → d ≤ highest → u < 2 ^ d → (w ≡ 1) ⊎ (w ≡ d) →
        layer_given d w u ≡ names_of_receiver d u }
{}

/// A leaf's names in layers reach only keys of sets that the leaf is in, and of useful sets all of them
/// [Halevy, Shamir 2002, 3].
#[tactic(auto, using(sd_lsd::proofs::Reaching::reaches_its_useful))]
pub fn members_reach_useful()
    ensures { (d w u : ℕ) → d ≤ highest → u < 2 ^ d → ReachesItsUseful d w u (layer_given d w u) }
{}

/// A leaf's names in layers reach the key of some set of the cover by useful sets exactly where the leaf isn't revoked.
pub fn layer_cover_reached()
    ensures { (d w : ℕ) (revoked : List ℕ) (sets : List SetName) (u : ℕ) → d ≤ highest → 1 ≤ w →
        All (λ v. v < 2 ^ d) revoked → IsLayerCover d w revoked sets → u < 2 ^ d →
        Any (λ name. IsReached (layer_given d w u) (Key name)) sets ↔ ¬ Contains revoked u }
{}

/// A layer card's file says that layer card alone.
#[tactic(auto, using(sd_lsd::proofs::Spellings::written_once))]
pub fn layer_card_files()
    ensures { (a b : LayerFields) → IsLayerCard a → IsLayerCard b → layer_bytes a ≡ layer_bytes b → a ≡ b }
{}

/// The layer card of a leaf is a layer card. So the file that is made for a leaf says this card alone.
#[tactic(auto, using(sd_lsd::proofs::Made::made_is_card))]
pub fn made_layer_cards()
    ensures { (master : List ℕ) (ca d w u : ℕ) → ca < 2 ^ 16 → 1 ≤ d → d ≤ highest → 1 ≤ w → w ≤ d → u < 2 ^ d →
        IsLayerCard (layer_card_of master ca d w u) }
{}

/// The layer card of a leaf gives the key of each useful set that the leaf is in.
#[tactic(auto, using(sd_lsd::proofs::Keys::made_gives_key))]
pub fn made_layer_keys()
    ensures { (master : List ℕ) (ca d w u : ℕ) (name : SetName) → d ≤ highest → u < 2 ^ d → IsOfHeight d name →
        is_useful w name ≡ true → is_member d name u ≡ true →
        layer_key (layer_card_of master ca d w u) name ≡ key_of master name }
{}

/// A layer ends at the next multiple of the width.
#[tactic(auto, using(sd_lsd::proofs::Layers::layer_bounds))]
pub fn layer_ends()
    ensures { (w a : ℕ) → 1 ≤ w →
        (a < layer_end w a) × (layer_end w a ≤ a + w) × (layer_end w a % w ≡ 0) }
{}

/// Of width 1, and of the tree's height, each set of the tree is useful.
pub fn all_useful()
    ensures { (d w : ℕ) (name : SetName) → d ≤ highest → IsOfHeight d name → (w ≡ 1) ⊎ (w ≡ d) →
        is_useful w name ≡ true }
{}

/// Some revoked leaves have at most one cover by useful sets.
pub fn one_layer_cover()
    ensures { (d w : ℕ) (revoked : List ℕ) (a b : List SetName) →
        IsLayerCover d w revoked a → IsLayerCover d w revoked b → a ≡ b }
{}

/// The list of the definition is their one cover by useful sets.
pub fn layer_cover_is_listed()
    ensures { (d w : ℕ) (revoked : List ℕ) (sets : List SetName) → d ≤ highest → 1 ≤ w →
        All (λ u. u < 2 ^ d) revoked → IsLayerCover d w revoked sets ↔ (sets ≡ layer_cover_of d w revoked) }
{}

/// The sets of a cover by useful sets are of the tree's height and useful.
pub fn layer_cover_is_useful()
    ensures { (d w : ℕ) (revoked : List ℕ) (sets : List SetName) → d ≤ highest → 1 ≤ w →
        All (λ u. u < 2 ^ d) revoked → IsLayerCover d w revoked sets →
        All (λ name. IsOfHeight d name × (is_useful w name ≡ true)) sets }
{}

/// They are disjoint and unite to the leaves that are not revoked.
pub fn layer_cover_unites()
    ensures { (d w : ℕ) (revoked : List ℕ) (sets : List SetName) → d ≤ highest → 1 ≤ w →
        All (λ u. u < 2 ^ d) revoked → IsLayerCover d w revoked sets → IsPartition d sets (unrevoked d revoked) }
{}

/// They are at most 4r - 2 where r leaves are revoked.
pub fn layer_cover_is_small()
    ensures { (d w : ℕ) (revoked : List ℕ) (sets : List SetName) → d ≤ highest → 1 ≤ w →
        All (λ u. u < 2 ^ d) revoked → IsLayerCover d w revoked sets → IsDoubleSmall sets (length revoked) }
{}

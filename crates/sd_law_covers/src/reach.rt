//! What the definitions of names and of what they reach come to.

ghost use Rattle.std.specs.Prelude.{◌≡◌, ℕ, ◌^◌, ◌<◌, ◌≤◌, ◌↔◌, Bool, true, List, All, Any, Contains};
ghost use Rattle.std.specs.List.{flat_map};
ghost use Rattle.sd_tree_keys.specs.declared.set.SetName.{SetName};
ghost use Rattle.sd_tree_keys.specs.declared.name.Name.{Name};
ghost use Rattle.sd_tree_keys.specs.Names.{names_of_receiver};
ghost use Rattle.sd_book.specs.declared.command.Command.{Command};
ghost use Rattle.sd_book.specs.Commands.{revoked as revoked_in};
ghost use Rattle.sd_cover_tracing.specs.Chains.{IsChainCover};
ghost use Rattle.sd_cover_tracing.specs.Reach.{Secret, Named, Key, IsGeneratorStep, IsReached, DerivesSecret};
ghost use Rattle.sd_cover_tracing.specs.Reach.{ReachesItsSets};
ghost use Rattle.sd_cover_tracing.specs.Reach.{ReachesNoneOf};

/// What is reached is the least that has what is held and is closed under the rules.
pub fn least_closed()
    ensures held { (held : List Name) (name : Name) → Contains held name → IsReached held (Named name) }
    ensures closed { (held : List Name) (from to : Secret) → IsReached held from → IsGeneratorStep from to →
        IsReached held to }
    ensures least { (held : List Name) (test : Secret → Bool) →
        ((name : Name) → Contains held name → test (Named name) ≡ true) →
        ((from to : Secret) → IsGeneratorStep from to → test from ≡ true → test to ≡ true) →
        (secret : Secret) → IsReached held secret → test secret ≡ true }
{}

/// What is reached is just what one of the held names leads to, by the ancestry of nodes.
#[tactic(auto, using(sd_cover_tracing::proofs::Reached::reached_by_ancestry))]
pub fn reached_by_ancestry()
    ensures { (held : List Name) (secret : Secret) → IsReached held secret ↔ Any (λ name. DerivesSecret name secret)
        held }
{}

/// A leaf's names reach the label or key of a set exactly where the leaf is in the set
/// [Naor, Naor, Lotspiech 2001, 3.2].
#[tactic(auto, using(sd_cover_tracing::proofs::Own::reaches_its_sets))]
pub fn members_reach()
    ensures { (d u : ℕ) → d ≤ 20 → u < 2 ^ d → ReachesItsSets d u (names_of_receiver d u) }
{}

/// What several leaves reach together is what one of them reaches alone.
#[tactic(auto, using(sd_cover_tracing::proofs::Reached::reached_by_one))]
pub fn pooled_reach()
    ensures { (d : ℕ) (coalition : List ℕ) (secret : Secret) →
        IsReached (flat_map (names_of_receiver d) coalition) secret ↔ Any
        (λ u. IsReached (names_of_receiver d u) secret) coalition }
{}

/// A leaf's names reach the key of some set of the cover exactly where the leaf isn't revoked.
pub fn cover_reached()
    ensures leaves { (d : ℕ) (revoked : List ℕ) (sets : List SetName) (u : ℕ) → d ≤ 20 → All (λ w. w < 2 ^ d) revoked →
        IsChainCover d revoked sets → u < 2 ^ d →
        Any (λ name. IsReached (names_of_receiver d u) (Key name)) sets ↔ ¬ Contains revoked u }
    ensures book { (d : ℕ) (commands : List Command) (q : ℕ) (sets : List SetName) (u : ℕ) → d ≤ 20 →
        IsChainCover d (revoked_in d commands q) sets → u < 2 ^ d →
        Any (λ name. IsReached (names_of_receiver d u) (Key name)) sets ↔ ¬ Contains (revoked_in d commands q) u }
{}

/// A revoked leaf's names reach no label or key of a set of the cover.
pub fn revoked_reach_none()
    ensures leaves { (d : ℕ) (revoked : List ℕ) (sets : List SetName) (u : ℕ) → d ≤ 20 → All (λ w. w < 2 ^ d) revoked →
        IsChainCover d revoked sets → Contains revoked u → ReachesNoneOf (names_of_receiver d u) sets }
    ensures book { (d : ℕ) (commands : List Command) (q : ℕ) (sets : List SetName) (u : ℕ) → d ≤ 20 →
        IsChainCover d (revoked_in d commands q) sets → Contains (revoked_in d commands q) u →
        ReachesNoneOf (names_of_receiver d u) sets }
{}

/// The names of revoked leaves together reach none either.
pub fn revoked_pool_reaches_none()
    ensures leaves { (d : ℕ) (revoked : List ℕ) (sets : List SetName) (coalition : List ℕ) → d ≤ 20 →
        All (λ w. w < 2 ^ d) revoked → IsChainCover d revoked sets → All (Contains revoked) coalition →
        ReachesNoneOf (flat_map (names_of_receiver d) coalition) sets }
    ensures book { (d : ℕ) (commands : List Command) (q : ℕ) (sets : List SetName) (coalition : List ℕ) → d ≤ 20 →
        IsChainCover d (revoked_in d commands q) sets → All (Contains (revoked_in d commands q)) coalition →
        ReachesNoneOf (flat_map (names_of_receiver d) coalition) sets }
{}

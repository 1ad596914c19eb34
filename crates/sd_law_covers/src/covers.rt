//! Laws of the cover, for crates that broadcast, count or print it; what the counts of the index tell; that an index
//! that was kept gives what a cover from scratch gives.

ghost use Rattle.std.specs.Prelude.{◌≡◌, ℕ, ◌+◌, ◌^◌, ◌<◌, ◌≤◌, ◌↔◌, [], List, All, Bool, Contains, length};
ghost use Rattle.sd_tree_keys.specs.declared.set.SetName.{SetName};
ghost use Rattle.sd_cover_tracing.specs.Chains.{IsInTree, IsChainCover};
ghost use Rattle.sd_cover_tracing.specs.Index.{count_below};
ghost use Rattle.sd_cover_tracing.specs.Changes.{Change, revoked_with, last_revoked};
ghost use Rattle.sd_tree_keys.specs.Leaves.{unrevoked};
ghost use Rattle.sd_tree_keys.specs.SetNames.{IsOfHeight};
ghost use Rattle.sd_cover_tracing.specs.Partition.{IsPartition, IsSmall};
ghost use Rattle.sd_cover_tracing.specs.Cover.{cover_by, cover_of};

/// The count of the revoked leaves at or below a node is above 0 exactly where the node is in the Steiner tree.
pub fn counts_tell_the_tree()
    ensures { (d : ℕ) (revoked : List ℕ) (v : ℕ) → d < 32 → All (λ u. u < 2 ^ d) revoked → 1 ≤ v → v < 2 ^ (d + 1) →
        (0 < count_below d revoked v) ↔ IsInTree d revoked v }
{}

/// After any changes the revoked leaves are those whose last change is a revocation.
pub fn last_change_decides()
    ensures { (d : ℕ) (changes : List Change) → revoked_with d [] changes ≡ last_revoked d changes }
{}

/// So the sets of an index after any changes are those of a cover from scratch.
pub fn kept_is_as_fresh()
    ensures { (d : ℕ) (changes : List Change) (sets fresh : List SetName) →
        IsChainCover d (revoked_with d [] changes) sets → IsChainCover d (last_revoked d changes) fresh →
        sets ≡ fresh }
{}

/// Some revoked leaves have at most one chain cover.
pub fn one_cover()
    ensures { (d : ℕ) (revoked : List ℕ) (a b : List SetName) →
        IsChainCover d revoked a → IsChainCover d revoked b → a ≡ b }
{}

/// However many leaves of a tree are revoked, and in whatever order they stand, the list of the definition is their one
/// chain cover.
pub fn cover_is_listed()
    ensures { (d : ℕ) (revoked : List ℕ) (sets : List SetName) → d < 32 → All (λ u. u < 2 ^ d) revoked →
        IsChainCover d revoked sets ↔ (sets ≡ cover_of d revoked) }
{}

/// Lists of the same leaves have the same cover.
pub fn same_leaves_same_cover()
    ensures { (d : ℕ) (a b : List ℕ) → d < 32 → ((u : ℕ) → Contains a u ↔ Contains b u) →
        cover_of d a ≡ cover_of d b }
{}

/// Tests that agree at the nodes of a tree, as by counts and by a list of leaves, give the same cover.
pub fn same_nodes_same_cover()
    ensures { (d : ℕ) (f g : ℕ → Bool) → d < 32 → ((v : ℕ) → 1 ≤ v → v < 2 ^ (d + 1) → f v ≡ g v) →
        cover_by d f ≡ cover_by d g }
{}

/// The sets of a chain cover are disjoint and unite to the leaves that are not revoked.
pub fn cover_unites()
    ensures { (d : ℕ) (revoked : List ℕ) (sets : List SetName) → d < 32 → All (λ u. u < 2 ^ d) revoked →
        IsChainCover d revoked sets → IsPartition d sets (unrevoked d revoked) }
{}

/// A chain cover has at most 2r - 1 sets where r leaves are revoked.
pub fn cover_is_small()
    ensures { (d : ℕ) (revoked : List ℕ) (sets : List SetName) → d < 32 → All (λ u. u < 2 ^ d) revoked →
        IsChainCover d revoked sets → IsSmall sets (length revoked) }
{}

/// The sets of a chain cover are of the tree's height.
pub fn sets_are_of_height()
    ensures { (d : ℕ) (revoked : List ℕ) (sets : List SetName) → All (λ u. u < 2 ^ d) revoked →
        IsChainCover d revoked sets → All (IsOfHeight d) sets }
{}

//! Laws of tracing: which leaves it finds.

ghost use Rattle.std.specs.Prelude.{◌≡◌, ◌≢◌, ℕ, ◌+◌, ◌^◌, ◌<◌, ◌≤◌, ◌↔◌, ◌++◌, ◌∷◌, List, All, AllPairs, Contains};
ghost use Rattle.std.specs.Prelude.{length, map};
ghost use Rattle.sd_cover_tracing.specs.Trace.{IsTrace, AreAnyRounds, IsCheap, trace_of};
ghost use Rattle.sd_cover_tracing.specs.declared.found.Found.{Found};

/// What is found of a coalition are its leaves that aren't revoked, each once, and no other leaves.
pub fn a_trace_finds_the_coalition()
    ensures members { (d : ℕ) (coalition revoked : List ℕ) (found : List Found) → 1 ≤ d → d ≤ 20 →
        All (λ u. u < 2 ^ d) revoked → IsTrace d coalition revoked found → (u : ℕ) → u < 2 ^ d →
        Contains (map (λ f. f.leaf) found) u ↔ (Contains coalition u × ¬ Contains revoked u) }
    ensures leaves { (d : ℕ) (coalition revoked : List ℕ) (found : List Found) → 1 ≤ d → d ≤ 20 →
        All (λ u. u < 2 ^ d) revoked → IsTrace d coalition revoked found →
        All (λ f. (f.leaf < 2 ^ d) × ¬ Contains revoked f.leaf) found }
    ensures once { (d : ℕ) (coalition revoked : List ℕ) (found : List Found) → 1 ≤ d → d ≤ 20 →
        All (λ u. u < 2 ^ d) revoked → IsTrace d coalition revoked found →
        AllPairs (λ f g. f.leaf ≢ g.leaf) found }
{}

/// Each coalition has a trace.
pub fn there_is_a_trace()
    ensures { (d : ℕ) (coalition revoked : List ℕ) → 1 ≤ d → d ≤ 20 → All (λ u. u < 2 ^ d) revoked →
        IsTrace d coalition revoked (trace_of d coalition revoked) }
{}

/// A coalition has one trace: what is found, in its order, and by how many trials and splits.
#[tactic(auto, using(sd_cover_tracing::proofs::Anyway::one_trace))]
pub fn one_trace()
    ensures { (d : ℕ) (coalition revoked : List ℕ) (a b : List Found) → 1 ≤ d → d ≤ 20 →
        All (λ u. u < 2 ^ d) revoked → IsTrace d coalition revoked a → IsTrace d coalition revoked b → a ≡ b }
{}

/// Whatever a box answers, what is found are different leaves of the tree, none of them revoked, each by few probes.
pub fn found_leaves_are_new()
    ensures leaves { (d : ℕ) (revoked : List ℕ) (found : List Found) → AreAnyRounds d revoked found →
        All (λ f. (f.leaf < 2 ^ d) × ¬ Contains revoked f.leaf) found }
    ensures once { (d : ℕ) (revoked : List ℕ) (found : List Found) → AreAnyRounds d revoked found →
        AllPairs (λ f g. f.leaf ≢ g.leaf) found }
    ensures cheap { (d : ℕ) (revoked : List ℕ) (before : List Found) (f : Found) (later : List Found) → d ≤ 20 →
        All (λ u. u < 2 ^ d) revoked → AreAnyRounds d revoked (before ++ f ∷ later) →
        IsCheap d (length revoked + length before) f }
{}

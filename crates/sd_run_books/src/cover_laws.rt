//! What the sets come to that `layered` prints, and the leaves that `trace` prints.

ghost use Rattle.std.specs.Prelude.{◌≡◌, ◌≢◌, ℕ, ◌^◌, ◌<◌, ◌≤◌, ◌↔◌, List, Ok, All, AllPairs, Contains};
ghost use Rattle.std.specs.Prelude.{length, map, true};
ghost use Rattle.sd_tree_keys.specs.Limits.{highest};
ghost use Rattle.sd_tree_keys.specs.Leaves.{unrevoked};
ghost use Rattle.sd_tree_keys.specs.SetNames.{IsOfHeight};
ghost use Rattle.sd_book.specs.declared.command.Command.{Command};
ghost use Rattle.sd_book.specs.Commands.{revoked};
ghost use Rattle.sd_cover_tracing.specs.Partition.{IsPartition};
ghost use Rattle.sd_lsd.specs.Layers.{is_useful};
ghost use Rattle.sd_lsd.specs.Cover.{IsDoubleSmall, layer_cover_of};
ghost use Rattle.sd_cover_tracing.specs.Trace.{IsTrace, trace_of};
ghost use Rattle.sd_run_books.specs.Trace.{revoked_last, trace_text, trace_outcome};

/// The sets that `layered` prints of a period are useful and of the tree's height. They are disjoint and unite to the
/// leaves that aren't revoked in it. They are the whole set alone if none is revoked, and at most 4r - 2 if r are.
#[tactic(auto, using(crate::proofs::LayerCovers::all_useful, crate::proofs::LayerCovers::sets_few))]
pub fn printed_useful_sets_unite()
    ensures useful { (d w q : ℕ) (commands : List Command) → d ≤ highest → 1 ≤ w →
        All (λ name. IsOfHeight d name × (is_useful w name ≡ true)) (layer_cover_of d w (revoked d commands q)) }
    ensures unites { (d w q : ℕ) (commands : List Command) → d ≤ highest → 1 ≤ w →
        IsPartition d (layer_cover_of d w (revoked d commands q)) (unrevoked d (revoked d commands q)) }
    ensures small { (d w q : ℕ) (commands : List Command) → d ≤ highest → 1 ≤ w →
        IsDoubleSmall (layer_cover_of d w (revoked d commands q)) (length (revoked d commands q)) }
{}

/// What `trace` prints are the lines of the trace of the coalition. Its leaves are those of the coalition that aren't
/// revoked in the last period of the book, each once.
pub fn printed_leaves_are_the_coalition()
    ensures text { (d : ℕ) (coalition : List ℕ) (commands : List Command) (text : List ℕ) →
        trace_outcome d coalition commands ≡ Ok text → text ≡ trace_text
        (trace_of d coalition (revoked_last d commands)) }
    ensures trace { (d : ℕ) (coalition : List ℕ) (commands : List Command) → 1 ≤ d → d ≤ highest →
        IsTrace d coalition (revoked_last d commands) (trace_of d coalition (revoked_last d commands)) }
    ensures leaves { (d : ℕ) (coalition : List ℕ) (commands : List Command) (u : ℕ) → 1 ≤ d → d ≤ highest →
        Contains (map (λ f. f.leaf) (trace_of d coalition (revoked_last d commands))) u
        ↔ ((u < 2 ^ d) × Contains coalition u × ¬ Contains (revoked_last d commands) u) }
    ensures once { (d : ℕ) (coalition : List ℕ) (commands : List Command) → 1 ≤ d → d ≤ highest →
        AllPairs (λ f g. f.leaf ≢ g.leaf) (trace_of d coalition (revoked_last d commands)) }
{}

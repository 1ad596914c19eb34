//! What the inspector writes of the packets of a stream.

ghost use Rattle.std.specs.Prelude.{◌≡◌, ◌-◌, ◌^◌, ◌≤◌, ℕ, List, [], length, reverse};
ghost use Rattle.sd_engine.specs.Stage.{Chain};
ghost use Rattle.sd_run_streams.specs.Inspected.{lines_in};
ghost use Rattle.sd_run_streams.specs.InspectorStaged.{inspector_does, inspector_state, IsStateAfter};
ghost use Rattle.sd_run_streams.specs.declared.inspector.Inspector.{Inspector};

/// Of packets that it is offered one after the other from its beginning the inspector writes the lines, and takes no
/// step.
#[tactic(auto, using(crate::proofs::InspectorChained::all_written, crate::proofs::InspectorChained::all_after, crate::proofs::InspectorChained::none_counted))]
pub fn chains_write_lines()
    ensures lines { (packets : List (List ℕ)) (s t : Inspector) (bytes : List ℕ) (steps : ℕ) →
        IsStateAfter [] (inspector_state s) →
        length packets ≤ 2 ^ 64 - 1 → Chain inspector_does s packets t bytes steps →
        bytes ≡ lines_in (reverse packets) }
    ensures after { (packets : List (List ℕ)) (s t : Inspector) (bytes : List ℕ) (steps : ℕ) →
        IsStateAfter [] (inspector_state s) →
        length packets ≤ 2 ^ 64 - 1 → Chain inspector_does s packets t bytes steps →
        IsStateAfter (reverse packets) (inspector_state t) }
    ensures steps { (packets : List (List ℕ)) (s t : Inspector) (bytes : List ℕ) (steps : ℕ) →
        IsStateAfter [] (inspector_state s) →
        length packets ≤ 2 ^ 64 - 1 → Chain inspector_does s packets t bytes steps → steps ≡ 0 }
{}

//! What a broadcast wraps is what the rules of knowledge say.

ghost use Rattle.std.specs.Prelude.{◌≡◌, ◌<◌, true, List, Contains, length};
ghost use Rattle.sd_base.specs.Types.{PacketNumber, PeriodNumber, WordNumber};
ghost use Rattle.sd_tree_keys.specs.declared.set.SetName.{SetName};
ghost use Rattle.sd_tree_keys.specs.Keys.{control_word_of, period_key_of};
ghost use Rattle.sd_cover_tracing.specs.Reach.{Key};
ghost use Rattle.sd_law_coalition.specs.Know.{ControlWord, OfTree};
ghost use Rattle.sd_law_coalition.specs.Know as Known;
ghost use Rattle.sd_law_broadcast.specs.Known.{IsStepInRuns};
ghost use Rattle.sd_law_broadcast.specs.Pads.{Pad, PeriodKey, SetKey, Word, pads_of, payload_pad};
ghost use Rattle.sd_law_broadcast.specs.Runs.{Run, is_veiled};

/// Each text of a broadcast that lies under the keystream of a set's key is the key of a period, and is a step of what
/// is known: from the key of one of the period's sets to the period's key. So a period's key lies under the keys of its
/// sets alone. Each that lies under the keystream of a period's key is a control word, which is used in that period.
/// Under a control word lie payloads alone.
pub fn wraps_are_steps()
    ensures keys { (runs : List Run) (run : Run) (pad : Pad) (name : SetName) → Contains runs run →
        Contains (pads_of run) pad → pad.key ≡ SetKey name →
        IsStepInRuns runs (OfTree (Key name)) (Known.PeriodKey pad.number)
        × (pad.text ≡ period_key_of run.plan.site.master pad.number) }
    ensures words { (runs : List Run) (run : Run) (pad : Pad) (q : PeriodNumber) → Contains runs run →
        Contains (pads_of run) pad → pad.key ≡ PeriodKey q →
        IsStepInRuns runs (Known.PeriodKey q) (ControlWord pad.number)
        × (pad.text ≡ control_word_of run.plan.site.master pad.number) }
    ensures payloads { (run : Run) (pad : Pad) (t : WordNumber) → Contains (pads_of run) pad → pad.key ≡ Word t →
        (k : PacketNumber) × (k < length run.clear) × (is_veiled run k ≡ true) × (pad ≡ payload_pad run k) }
{}

//! What pooled cards know from all broadcasts of one master together.

ghost use Rattle.std.specs.Prelude.{◌≡◌, ◌^◌, ◌<◌, ◌≤◌, ◌↔◌, Bool, true, List, [], ◌∷◌, All, Any, Contains};
ghost use Rattle.std.specs.List.{flat_map};
ghost use Rattle.sd_base.specs.Types.{Key, Height, Leaves, PeriodNumber, WordNumber};
ghost use Rattle.sd_tree_keys.specs.Names.{names_of_receiver};
ghost use Rattle.sd_book.specs.Commands.{entitled};
ghost use Rattle.sd_cover_tracing.specs.Reach.{Secret, IsReached};
ghost use Rattle.sd_law_coalition.specs.Know.{Knowable, OfTree, PeriodKey, ControlWord, IsPooled};
ghost use Rattle.sd_law_broadcast.specs.Runs.{Run, IsRun, HaveOwnWords, UsesWord, UsesPeriod, revoked_in, AllAgree};
ghost use Rattle.sd_law_broadcast.specs.Known.{IsStepInRuns, IsKnownInRuns, AreOneTree};

/// What is known is the least that has what the cards hold and is closed under the rules.
pub fn least_known()
    ensures held { (runs : List Run) (h : Height) (coalition : Leaves) (item : Knowable) →
        IsPooled h coalition item → IsKnownInRuns runs h coalition item }
    ensures closed { (runs : List Run) (h : Height) (coalition : Leaves) (from to : Knowable) →
        IsKnownInRuns runs h coalition from → IsStepInRuns runs from to → IsKnownInRuns runs h coalition to }
    ensures least { (runs : List Run) (h : Height) (coalition : Leaves) (test : Knowable → Bool) →
        ((item : Knowable) → IsPooled h coalition item → test item ≡ true) →
        ((from to : Knowable) → IsStepInRuns runs from to → test from ≡ true → test to ≡ true) →
        (item : Knowable) → IsKnownInRuns runs h coalition item → test item ≡ true }
{}

/// Of the tree's secrets just those are known that the coalition's names reach together: no message adds to them.
#[tactic(auto, using(crate::proofs::Knowing::secrets_known))]
pub fn secrets_known()
    ensures { (runs : List Run) (h : Height) (coalition : Leaves) (secret : Secret) →
        IsKnownInRuns runs h coalition (OfTree secret) ↔ IsReached (flat_map (names_of_receiver h) coalition) secret }
{}

/// The key of a period is known exactly if some broadcast uses the period and some leaf of the coalition isn't revoked
/// in it by that broadcast's book [Naor, Naor, Lotspiech 2001, 3.2].
#[tactic(auto, using(crate::proofs::Knowing::periods_known))]
pub fn periods_known()
    ensures { (runs : List Run) (h : Height) (coalition : Leaves) (q : PeriodNumber) → h ≤ 20 → AreOneTree h runs →
        All (λ u. u < 2 ^ h) coalition → IsKnownInRuns runs h coalition (PeriodKey q) ↔
        Any (λ run. UsesPeriod run q × Any (λ u. ¬ Contains (revoked_in run q) u) coalition) runs }
{}

/// A control word is known exactly if some broadcast uses it in a period whose key is known.
#[tactic(auto, using(crate::proofs::Knowing::words_known))]
pub fn words_known()
    ensures { (runs : List Run) (h : Height) (coalition : Leaves) (t : WordNumber) →
        IsKnownInRuns runs h coalition (ControlWord t) ↔
        Any (λ run. (q : PeriodNumber) × UsesWord run t q × IsKnownInRuns runs h coalition (PeriodKey q)) runs }
{}

/// What a coalition knows together is what one of its leaves knows alone.
#[tactic(auto, using(crate::proofs::Knowing::known_by_one))]
pub fn known_by_one()
    ensures { (runs : List Run) (h : Height) (coalition : Leaves) (item : Knowable) →
        IsKnownInRuns runs h coalition item ↔ Any (λ u. IsKnownInRuns runs h (u ∷ []) item) coalition }
{}

/// Leaves that are all revoked in a period, by the book of each broadcast that uses it, don't know its key together. If
/// the sites have no control word in common, they know no control word of the period either.
pub fn the_revoked_know_nothing()
    ensures key { (runs : List Run) (h : Height) (coalition : Leaves) (q : PeriodNumber) → h ≤ 20 → AreOneTree h runs →
        All (λ u. u < 2 ^ h) coalition →
        All (λ run. UsesPeriod run q → All (Contains (revoked_in run q)) coalition) runs →
        ¬ IsKnownInRuns runs h coalition (PeriodKey q) }
    ensures words { (master : Key) (runs : List Run) (h : Height) (coalition : Leaves) (run : Run) (t : WordNumber)
        (q : PeriodNumber) → h ≤ 20 →
        AreOneTree h runs → All (λ u. u < 2 ^ h) coalition → All (IsRun master) runs → HaveOwnWords runs →
        All (λ other. UsesPeriod other q → All (Contains (revoked_in other q)) coalition) runs →
        Contains runs run → UsesWord run t q → ¬ IsKnownInRuns runs h coalition (ControlWord t) }
{}

/// If the books agree on the periods that broadcasts share, a coalition knows the key of a period of a broadcast
/// exactly if one of its leaves is entitled in it by that broadcast's book. If the sites have no control word in
/// common, the same holds for each control word of the period. So leaves that are all revoked there know nothing of it.
pub fn who_is_entitled_knows()
    ensures key { (runs : List Run) (h : Height) (coalition : Leaves) (run : Run) (q : PeriodNumber) → h ≤ 20 →
        AreOneTree h runs → All (λ u. u < 2 ^ h) coalition → AllAgree runs → Contains runs run → UsesPeriod run q →
        IsKnownInRuns runs h coalition (PeriodKey q) ↔ Any (Contains (entitled h run.plan.commands q)) coalition }
    ensures words { (master : Key) (runs : List Run) (h : Height) (coalition : Leaves) (run : Run) (t : WordNumber)
        (q : PeriodNumber) → h ≤ 20 →
        AreOneTree h runs → All (λ u. u < 2 ^ h) coalition → AllAgree runs → All (IsRun master) runs →
        HaveOwnWords runs → Contains runs run → UsesWord run t q →
        IsKnownInRuns runs h coalition (ControlWord t) ↔ Any (Contains (entitled h run.plan.commands q)) coalition }
{}

//! What it means that two sites with their books are taken or refused.

ghost use Rattle.std.specs.Prelude.{◌≡◌, ◌<◌, ◌≤◌, ◌∷◌, ℕ, List, None, Some, length, slice_get};
ghost use Rattle.sd_base.specs.Types.{Key, PeriodNumber};
ghost use Rattle.sd_site_cards.specs.SiteFields.{AreInRange};
ghost use Rattle.sd_spec.specs.Plan.{Plan};
ghost use Rattle.sd_law_broadcast.specs.Runs.{Run, IsRun, HasWords, ShareNoWord, HaveOwnWords};
ghost use Rattle.sd_law_broadcast.specs.Runs.{UsesPeriod, AgreeOnPeriods, AllAgree};
ghost use Rattle.sd_law_broadcast.specs.Known.{AreOneTree};
ghost use Rattle.sd_command_base.specs.declared.status.Clash.{Clash};
ghost use Rattle.sd_run_books.specs.Apart.{plan_clash};
ghost use Rattle.sd_run_books.specs.Air.{cryptos_for, last_period_for, last_word_for};
ghost use Rattle.sd_law_plan.specs.Told.{IsDueIn, IsSo};

/// If two broadcasts don't clash, the premises of the laws on several broadcasts hold for them, whatever their streams
/// are. If each two of a list don't, they hold for the list.
#[tactic(auto, using(crate::proofs::Clashes::two_apart, crate::proofs::Clashes::one_set, crate::proofs::Clashes::next_have_none, crate::proofs::Clashes::swapped_have_none, crate::proofs::Told::told_is_so))]
pub fn checked_broadcasts_are_apart()
    ensures two { (master : Key) (a b : Run) → IsRun master a → IsRun master b → plan_clash a.plan b.plan ≡ None →
        (HasWords a.plan.site × HasWords b.plan.site) × (ShareNoWord a.plan.site b.plan.site × AgreeOnPeriods a b) }
    ensures words { (master : Key) (runs : List Run) →
        ((i : ℕ) (a : Run) → slice_get runs i ≡ Some a → IsRun master a) → 1 < length runs →
        ((i j : ℕ) (a b : Run) → slice_get runs i ≡ Some a → slice_get runs j ≡ Some b → i < j →
        plan_clash a.plan b.plan ≡ None) → HaveOwnWords runs }
    ensures agree { (master : Key) (runs : List Run) →
        ((i : ℕ) (a : Run) → slice_get runs i ≡ Some a → IsRun master a) →
        ((i j : ℕ) (a b : Run) → slice_get runs i ≡ Some a → slice_get runs j ≡ Some b → i < j →
        plan_clash a.plan b.plan ≡ None) → AllAgree runs }
    // Their cards are of one tree and one master.
    ensures set { (a b : Plan) → plan_clash a b ≡ None →
        (a.site.height ≡ b.site.height) × (a.site.master ≡ b.site.master) }
    ensures tree { (run : Run) (runs : List Run) →
        ((i j : ℕ) (a b : Run) → slice_get (run ∷ runs) i ≡ Some a → slice_get (run ∷ runs) j ≡ Some b → i < j →
        plan_clash a.plan b.plan ≡ None) → AreOneTree run.plan.site.height (run ∷ runs) }
    // Each period that a broadcast uses, whatever its stream is, is one for which the books are compared.
    ensures due { (master : Key) (run : Run) (q : PeriodNumber) → IsRun master run → HasWords run.plan.site →
        UsesPeriod run q → IsDueIn run.plan q }
    // What is told where two clash is so.
    ensures told { (a b : Plan) (clash : Clash) → plan_clash a b ≡ Some clash → IsSo a b clash }
    ensures back { (a b : Plan) → plan_clash a b ≡ None → plan_clash b a ≡ None }
    // A site with control words and periods above all that a plan for so many packets tells is taken, whatever its book
    // is, where the plan's own site has no more control words than that.
    ensures next { (plan more : Plan) (m : ℕ) → AreInRange plan.site → plan.site.height ≡ more.site.height →
        plan.site.master ≡ more.site.master → HasWords plan.site → HasWords more.site →
        plan.site.last_word ≤ last_word_for plan.site m → last_word_for plan.site m < more.site.first_word →
        last_period_for plan (cryptos_for plan.site m) < more.site.first_period → plan_clash plan more ≡ None }
{}

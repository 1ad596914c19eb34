//! What an operator has to keep to, so that the laws on several broadcasts hold, and what a broadcast uses.

ghost use Rattle.std.specs.Prelude.{◌≡◌, ◌≢◌, ◌+◌, ◌-◌, ◌*◌, ◌^◌, ◌<◌, ◌≤◌, ◌++◌, ◌↔◌, false, List, Contains};
ghost use Rattle.std.specs.Prelude.{length};
ghost use Rattle.sd_base.specs.Types.{Key, PeriodNumber, WordNumber, PacketNumber};
ghost use Rattle.sd_site_cards.specs.SiteFields.{SiteFields, AreInRange};
ghost use Rattle.sd_book.specs.declared.command.Command.{Command};
ghost use Rattle.sd_book.specs.Commands.{last_period};
ghost use Rattle.sd_message.specs.EmmSpelled.{listed_entries};
ghost use Rattle.sd_message.specs.declared.emm.Emm.{Emm};
ghost use Rattle.sd_message.specs.declared.emm.Entry.{Entry};
ghost use Rattle.sd_message.specs.declared.ecm_part.EcmPart.{EcmPart};
ghost use Rattle.sd_spec.specs.Plan.{crypto_length, period_of, sets_at};
ghost use Rattle.sd_spec.specs.Refused.{is_used_up};
ghost use Rattle.sd_spec.specs.Sent.{Entitles, Controls};
ghost use Rattle.sd_spec.specs.Items.{IsOfBroadcast};
ghost use Rattle.sd_law_broadcast.specs.Runs.{Run, IsRun, HasWords, UsesWord, UsesPeriod, AgreeOnPeriods};

/// A broadcast of which each packet can be sent uses control words of its site's range alone.
pub fn words_are_own()
    ensures { (master : Key) (run : Run) (t : WordNumber) (q : PeriodNumber) → IsRun master run →
        HasWords run.plan.site → UsesWord run t q → (run.plan.site.first_word ≤ t) × (t ≤ run.plan.site.last_word) }
{}

/// The control words of a site suffice for just the packets of as many crypto periods.
#[tactic(auto, using(crate::proofs::Using::words_suffice))]
pub fn words_suffice()
    ensures { (site : SiteFields) (k : PacketNumber) → AreInRange site → HasWords site → (is_used_up site k ≡ false) ↔
        ((k ≢ 2 ^ 32 - 1) × (k < (site.last_word + 1 - site.first_word) * crypto_length site)) }
{}

/// A broadcast whose first period is above all periods of another one shares none with it.
pub fn later_periods_are_new()
    ensures { (a b : Run) (q : PeriodNumber) → period_of a.plan (length a.clear - 1) < b.plan.site.first_period →
        UsesPeriod a q → UsesPeriod b q → ⊥ }
{}

/// Broadcasts with one book for one tree agree.
#[tactic(auto, using(crate::proofs::Using::one_book_agrees))]
pub fn one_book_agrees()
    ensures { (a b : Run) → a.plan.commands ≡ b.plan.commands → a.plan.site.height ≡ b.plan.site.height →
        AgreeOnPeriods a b }
{}

/// A broadcast whose book is that of another one with commands appended agrees with it, if the other one uses no period
/// from the last one of its own book on.
#[tactic(auto, using(crate::proofs::Using::grown_books_agree))]
pub fn grown_books_agree()
    ensures { (a b : Run) (more : List Command) → b.plan.commands ≡ a.plan.commands ++ more →
        a.plan.site.height ≡ b.plan.site.height →
        period_of a.plan (length a.clear - 1) < last_period a.plan.commands → AgreeOnPeriods a b }
{}

/// What a broadcast sends is what it uses: an entry is of a period that it uses, and names one of the period's sets; a
/// part of a control message has a control word that it uses, and is of a period of that word.
pub fn what_is_sent_is_used()
    ensures entries { (run : Run) (emm : Emm) (entry : Entry) → IsOfBroadcast run.plan run.clear (Entitles emm) →
        Contains (listed_entries emm) entry →
        UsesPeriod run emm.period × Contains (sets_at run.plan emm.period) entry.name }
    ensures parts { (run : Run) (part : EcmPart) → IsOfBroadcast run.plan run.clear (Controls part) →
        UsesWord run part.word part.period }
{}

//! What the lines come to that `status` prints.

ghost use Rattle.std.specs.Prelude.{◌≡◌, ◌<◌, ◌≤◌, ℕ, List, Contains};
ghost use Rattle.std.specs.List.Sorted.{IsStrictlyIncreasing};
ghost use Rattle.sd_book.specs.declared.command.Command.{Command};
ghost use Rattle.sd_site_cards.specs.SiteFields.{SiteFields};
ghost use Rattle.sd_run_books.specs.Status.{change_periods, is_entitled};

/// The periods that `status` prints ascend, and the site's first one is among them. From one that is printed on it does
/// not change whether the receiver is entitled until the next that is printed, however many periods the broadcast has.
#[tactic(auto, using(crate::proofs::Changes::ascending, crate::proofs::Changes::first_is_told))]
pub fn printed_changes_are_all()
    ensures ascending { (site : SiteFields) (commands : List Command) (u : ℕ) →
        IsStrictlyIncreasing (change_periods site commands u) }
    ensures first { (site : SiteFields) (commands : List Command) (u : ℕ) →
        Contains (change_periods site commands u) site.first_period }
    ensures between { (site : SiteFields) (commands : List Command) (u p q : ℕ) → site.first_period ≤ p → p ≤ q →
        ((r : ℕ) → p < r → r ≤ q → ¬ Contains (change_periods site commands u) r) →
        is_entitled site.height commands u q ≡ is_entitled site.height commands u p }
{}

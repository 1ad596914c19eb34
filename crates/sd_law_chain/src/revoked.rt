//! Who is revoked by a `next` is cut off from then on.

ghost use Rattle.std.specs.Prelude.{◌≡◌, ◌≤◌, ℕ, List, All, Contains};
ghost use Rattle.sd_base.specs.Types.{Bytes, Leaves, PeriodNumber, WordNumber};
ghost use Rattle.sd_book.specs.Commands.{revoked};
ghost use Rattle.sd_law_coalition.specs.Know.{ControlWord, PeriodKey};
ghost use Rattle.sd_law_broadcast.specs.Runs.{UsesPeriod, UsesWord};
ghost use Rattle.sd_law_broadcast.specs.Known.{IsKnownInRuns};
ghost use Rattle.sd_run_books.specs.Chain.{commands_said};
ghost use Rattle.sd_law_chain.specs.Chain.{IsTrueChain, Call, IsNextAt, KeepsOut, Link, OnAir, chain_run, runs_of};
ghost use Rattle.sd_law_chain.specs.Chain.{site_at};

/// Leaves that the BOOK of a `next` revokes in the first period of the new site know nothing of what is sent from that
/// site on, whatever they keep of the broadcasts before and after: no period key and no control word of a broadcast of
/// the site or a later one. They must not be subscribed again by a later line of the book of such a broadcast.
pub fn cut_off_cards_stay_out()
    ensures keys { (root : Link) (calls : List Call) (airs : List OnAir) (n : ℕ) (bytes : Bytes) (coalition : Leaves)
        (air : OnAir) (q : PeriodNumber) → IsTrueChain root calls airs → IsNextAt calls n bytes →
        All (Contains (revoked root.site.height (commands_said bytes) (site_at root calls n).first_period)) coalition →
        All (λ other. n ≤ other.number →
        KeepsOut coalition (site_at root calls n).first_period (commands_said bytes) other) airs →
        Contains airs air → n ≤ air.number → UsesPeriod (chain_run root calls air) q →
        ¬ IsKnownInRuns (runs_of root calls airs) root.site.height coalition (PeriodKey q) }
    ensures words { (root : Link) (calls : List Call) (airs : List OnAir) (n : ℕ) (bytes : Bytes) (coalition : Leaves)
        (air : OnAir) (t : WordNumber) (q : PeriodNumber) → IsTrueChain root calls airs → IsNextAt calls n bytes →
        All (Contains (revoked root.site.height (commands_said bytes) (site_at root calls n).first_period)) coalition →
        All (λ other. n ≤ other.number →
        KeepsOut coalition (site_at root calls n).first_period (commands_said bytes) other) airs →
        Contains airs air → n ≤ air.number → UsesWord (chain_run root calls air) t q →
        ¬ IsKnownInRuns (runs_of root calls airs) root.site.height coalition (ControlWord t) }
{}

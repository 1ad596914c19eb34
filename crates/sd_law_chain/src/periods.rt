//! The periods of a chain: those of a broadcast are below those of later sites, and what was appended to the book
//! holds.

ghost use Rattle.std.specs.Prelude.{◌≡◌, ◌++◌, ◌-◌, ◌<◌, ◌≤◌, ℕ, List, Contains};
ghost use Rattle.sd_base.specs.Types.{Bytes};
ghost use Rattle.sd_book.specs.Commands.{commands_until, last_period};
ghost use Rattle.sd_run_books.specs.Apart.{last_due};
ghost use Rattle.sd_run_books.specs.Chain.{commands_said};
ghost use Rattle.sd_law_chain.specs.Chain.{IsTrueChain, Call, HaveGrown, IsChain, IsNextAt, Link, OnAir};
ghost use Rattle.sd_law_chain.specs.Chain.{chain_book, plan_at, chain_plan, site_at};

/// The first period of a site that a `next` made is above all periods that a broadcast of a site before can use,
/// whatever its stream is.
pub fn broadcasts_are_followed()
    ensures sites { (root : Link) (calls : List Call) (i n : ℕ) (bytes : Bytes) → IsChain root calls →
        HaveGrown root calls → i < n → IsNextAt calls n bytes →
        last_due (plan_at root calls i) < (site_at root calls n).first_period }
    ensures airs { (root : Link) (calls : List Call) (airs : List OnAir) (air : OnAir) (n : ℕ) (bytes : Bytes) →
        IsTrueChain root calls airs → Contains airs air → air.number < n → IsNextAt calls n bytes →
        last_due (chain_plan root calls air) < (site_at root calls n).first_period }
{}

/// Suppose that BOOK of a `next` is the book of its SITE with more appended. Then all of that book is decided in the
/// first period of the new site, and so is what comes before the (k+1)-th line `period` that was appended, k being at
/// least 1. So what is appended without a line `period`, or with one, holds at once.
pub fn new_sites_hold_what_is_appended()
    ensures decided { (root : Link) (calls : List Call) (n : ℕ) (more : Bytes) →
        IsNextAt calls n (chain_book root calls (n - 1) ++ more) →
        last_period (commands_said (chain_book root calls (n - 1))) < (site_at root calls n).first_period }
    ensures held { (root : Link) (calls : List Call) (n : ℕ) (more : Bytes) → IsChain root calls →
        IsNextAt calls n (chain_book root calls (n - 1) ++ more) →
        commands_until (site_at root calls n).first_period (commands_said (chain_book root calls (n - 1) ++ more))
        ≡ commands_said (chain_book root calls (n - 1))
        ++ commands_until ((site_at root calls n).first_period - last_period
        (commands_said (chain_book root calls (n - 1))))
        (commands_said more) }
    ensures at_once { (root : Link) (calls : List Call) (n : ℕ) (more : Bytes) → IsChain root calls →
        IsNextAt calls n (chain_book root calls (n - 1) ++ more) → last_period (commands_said more) ≤ 1 →
        commands_until (site_at root calls n).first_period (commands_said (chain_book root calls (n - 1) ++ more))
        ≡ commands_said (chain_book root calls (n - 1) ++ more) }
{}

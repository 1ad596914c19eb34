//! Laws on what the lines of `opens` say of a coalition's cards. They are symbolic: they speak of names of labels and
//! keys, and of the messages of one book.

ghost use Rattle.std.specs.Prelude.{◌≡◌, ◌^◌, ◌<◌, ◌≤◌, ◌↔◌, All, Any, Contains};
ghost use Rattle.std.specs.List.{flat_map};
ghost use Rattle.sd_base.specs.Types.{Height, Leaves, PeriodNumber};
ghost use Rattle.sd_tree_keys.specs.Limits.{highest};
ghost use Rattle.sd_tree_keys.specs.declared.set.SetName.{SetName};
ghost use Rattle.sd_tree_keys.specs.SetNames.{IsOfHeight};
ghost use Rattle.sd_tree_keys.specs.Names.{names_of_receiver};
ghost use Rattle.sd_book.specs.Commands.{last_period};
ghost use Rattle.sd_cover_tracing.specs.Reach.{Key, IsReached};
ghost use Rattle.sd_law_coalition.specs.Know.{Service, OfTree, PeriodKey, IsKnown, KnowsNothingOf, revoked_at};
ghost use Rattle.sd_law_coalition.specs.Know.{service_sets};
ghost use Rattle.sd_run_books.specs.Opens.{open_end, pool_end, opened_text, shut_text};

/// The line of a set says `open` if and only if its key is derivable from the names of the listed leaves together
/// [Naor, Naor, Lotspiech 2001, 3.2]. All messages of the book add nothing to that.
#[tactic(auto, using(crate::proofs::Ends::open_is_reached, crate::proofs::Ends::open_is_known))]
pub fn open_sets_are_reached()
    ensures reached { (d : Height) (leaves : Leaves) (name : SetName) → d ≤ highest → All (λ u. u < 2 ^ d) leaves →
        IsOfHeight d name →
        (pool_end d leaves name ≡ open_end) ↔ IsReached (flat_map (names_of_receiver d) leaves) (Key name) }
    ensures known { (service : Service) (leaves : Leaves) (name : SetName) → service.height ≤ highest →
        All (λ u. u < 2 ^ service.height) leaves → IsOfHeight service.height name →
        (pool_end service.height leaves name ≡ open_end) ↔ IsKnown service leaves (OfTree (Key name)) }
{}

/// Some line of a period says `open` if and only if the key of the period is derivable from the listed leaves' cards
/// together.
#[tactic(auto, using(crate::proofs::Ends::open_gives_period))]
pub fn open_lines_give_the_period()
    ensures { (service : Service) (leaves : Leaves) (q : PeriodNumber) → service.height ≤ highest →
        All (λ u. u < 2 ^ service.height) leaves → q ≤ last_period service.commands →
        Any (λ name. pool_end service.height leaves name ≡ open_end) (service_sets service q)
        ↔ IsKnown service leaves (PeriodKey q) }
{}

/// If all listed leaves are revoked in a period, each line of its sets says `shut`. Then neither the key of the period
/// nor a control word of it is derivable from their cards together.
pub fn revoked_leaves_open_none()
    ensures shut { (service : Service) (leaves : Leaves) (q : PeriodNumber) → service.height ≤ highest →
        All (Contains (revoked_at service q)) leaves →
        opened_text service.height leaves service.commands q ≡ shut_text service.height service.commands q }
    ensures nothing { (service : Service) (leaves : Leaves) (q : PeriodNumber) → service.height ≤ highest →
        All (Contains (revoked_at service q)) leaves → KnowsNothingOf service leaves q }
{}

//! Laws of what a coalition can derive from its cards and the messages of one book. The statements are symbolic.

ghost use Rattle.std.specs.Prelude.{◌≡◌, ◌^◌, ◌<◌, ◌≤◌, ◌↔◌, Bool, true, false, [], ◌∷◌, All, Any, Contains};
ghost use Rattle.std.specs.List.{list_any, flat_map};
ghost use Rattle.sd_base.specs.Types.{LeafNumber, Leaves, PeriodNumber, WordNumber};
ghost use Rattle.sd_tree_keys.specs.Leaves.{is_member};
ghost use Rattle.sd_tree_keys.specs.Names.{names_of_receiver};
ghost use Rattle.sd_book.specs.Commands.{entitled, last_period};
ghost use Rattle.sd_cover_tracing.specs.Reach.{Secret, IsReached};
ghost use Rattle.sd_law_coalition.specs.Know.{Service, Knowable, OfTree, PeriodKey, ControlWord, IsKnowledgeStep};
ghost use Rattle.sd_law_coalition.specs.Know.{IsPooled};
ghost use Rattle.sd_law_coalition.specs.Know.{IsKnown};
ghost use Rattle.sd_law_coalition.specs.Know.{HasUnrevoked, KnowsNothingOf, KnowsPeriod, period_of_word, revoked_at};
ghost use Rattle.sd_law_coalition.specs.Know.{service_sets};

/// What is known is the least that has what the cards hold and is closed under the rules.
pub fn least_known()
    ensures held { (service : Service) (coalition : Leaves) (item : Knowable) →
        IsPooled service.height coalition item → IsKnown service coalition item }
    ensures closed { (service : Service) (coalition : Leaves) (from to : Knowable) →
        IsKnown service coalition from → IsKnowledgeStep service from to → IsKnown service coalition to }
    ensures least { (service : Service) (coalition : Leaves) (test : Knowable → Bool) →
        ((item : Knowable) → IsPooled service.height coalition item → test item ≡ true) →
        ((from to : Knowable) → IsKnowledgeStep service from to → test from ≡ true → test to ≡ true) →
        (item : Knowable) → IsKnown service coalition item → test item ≡ true }
{}

/// Of the tree's secrets just those are known that the coalition's names reach together: no message adds to them.
#[tactic(auto, using(crate::proofs::Known::secrets_known))]
pub fn secrets_known()
    ensures { (service : Service) (coalition : Leaves) (secret : Secret) → service.height ≤ 20 →
        All (λ u. u < 2 ^ service.height) coalition →
        IsKnown service coalition (OfTree secret) ↔ IsReached (flat_map (names_of_receiver service.height) coalition)
        secret }
{}

/// The key of a period is known exactly where some leaf of the coalition isn't revoked in it
/// [Naor, Naor, Lotspiech 2001, 3.2].
#[tactic(auto, using(crate::proofs::Known::periods_known))]
pub fn periods_known()
    ensures { (service : Service) (coalition : Leaves) (q : PeriodNumber) → service.height ≤ 20 →
        All (λ u. u < 2 ^ service.height) coalition → q ≤ last_period service.commands →
        IsKnown service coalition (PeriodKey q) ↔ HasUnrevoked service coalition q }
{}

/// The control word of a crypto period is known exactly where some leaf of the coalition isn't revoked in its period.
#[tactic(auto, using(crate::proofs::Known::words_known))]
pub fn words_known()
    ensures { (service : Service) (coalition : Leaves) (t : WordNumber) → service.height ≤ 20 →
        All (λ u. u < 2 ^ service.height) coalition →
        IsKnown service coalition (ControlWord t) ↔ HasUnrevoked service coalition (period_of_word service t) }
{}

/// What a coalition knows together is what one of its leaves knows alone.
#[tactic(auto, using(crate::proofs::Known::known_by_one))]
pub fn known_by_one()
    ensures { (service : Service) (coalition : Leaves) (item : Knowable) → service.height ≤ 20 →
        All (λ u. u < 2 ^ service.height) coalition →
        IsKnown service coalition item ↔ Any (λ u. IsKnown service (u ∷ []) item) coalition }
{}

/// Leaves that are all revoked in a period know together neither its key nor a control word of it, whatever they could
/// open in other periods.
pub fn revoked_know_nothing()
    ensures { (service : Service) (coalition : Leaves) (q : PeriodNumber) → service.height ≤ 20 →
        All (Contains (revoked_at service q)) coalition → KnowsNothingOf service coalition q }
{}

/// A leaf that is entitled in a period knows its key and each control word of it, by itself and with others.
pub fn unrevoked_know_all()
    ensures { (service : Service) (coalition : Leaves) (q : PeriodNumber) (u : LeafNumber) → service.height ≤ 20 →
        q ≤ last_period service.commands → Contains (entitled service.height service.commands q) u →
        All (λ w. w < 2 ^ service.height) coalition → Contains coalition u → KnowsPeriod service coalition q }
{}

/// A leaf that is entitled in one period and revoked in another knows all of the one, nothing of the other.
pub fn one_period_alone()
    ensures { (service : Service) (p q : PeriodNumber) (u : LeafNumber) → service.height ≤ 20 →
        p ≤ last_period service.commands → Contains (entitled service.height service.commands p) u →
        Contains (revoked_at service q) u → KnowsPeriod service (u ∷ []) p × KnowsNothingOf service (u ∷ []) q }
{}

/// Some set of a period has a leaf of the coalition exactly where one of its leaves isn't revoked in the period; where
/// all are revoked, each set is shut to them.
pub fn sets_opened()
    ensures some { (service : Service) (coalition : Leaves) (q : PeriodNumber) → service.height ≤ 20 →
        All (λ u. u < 2 ^ service.height) coalition →
        Any (λ name. list_any (is_member service.height name) coalition ≡ true) (service_sets service q)
        ↔ HasUnrevoked service coalition q }
    ensures shut { (service : Service) (coalition : Leaves) (q : PeriodNumber) → service.height ≤ 20 →
        All (Contains (revoked_at service q)) coalition →
        All (λ name. list_any (is_member service.height name) coalition ≡ false) (service_sets service q) }
{}

//! The sets of a broadcast by the changes that the commands of its book make.

ghost use Rattle.std.specs.Prelude.{◌≡◌, ◌<◌, ◌-◌, ◌++◌, ◌∷◌, [], ℕ, List, length};
ghost use Rattle.sd_base.specs.Types.{Bytes, Packet, Packets, Height, Leaves, PeriodNumber};
ghost use Rattle.sd_book.specs.declared.command.Command.{Command};
ghost use Rattle.sd_book.specs.Commands.{after_commands, commands_until, revoked};
ghost use Rattle.sd_cover_tracing.specs.Changes.{revoked_with, last_revoked};
ghost use Rattle.sd_cover_tracing.specs.Chains.{IsChainCover};
ghost use Rattle.sd_cover_tracing.specs.Cover.{cover_of};
ghost use Rattle.sd_spec.specs.Plan.{Plan, period_of, sets_at};
ghost use Rattle.sd_head.specs.declared.head.Head.{Head};
ghost use Rattle.sd_head.specs.Staged.{IsHeadEndAfter, head_closes};
ghost use Rattle.sd_law_field.specs.Changed.{changes_of};

/// Commands of a book leave the revoked leaves that their changes leave of an index. So the leaves that are revoked in
/// a period are those of an index that was new before the book's first command.
#[tactic(auto, using(crate::proofs::Changed::changes_are, crate::proofs::Changed::revoked_are))]
pub fn commands_are_changes()
    ensures after { (d : Height) (revoked : Leaves) (commands : List Command) →
        after_commands d revoked commands ≡ revoked_with d revoked (changes_of commands) }
    ensures period { (d : Height) (commands : List Command) (q : PeriodNumber) →
        revoked d commands q ≡ revoked_with d [] (changes_of (commands_until q commands)) }
{}

/// The sets of a period are the chain cover of the leaves whose last change up to then is a revocation: what was kept
/// from period to period is what a cover from scratch gives.
#[tactic(auto, using(crate::proofs::Changed::sets_are_last))]
pub fn sets_are_of_the_last_changes()
    ensures { (plan : Plan) (q : PeriodNumber) → plan.site.height < 32 →
        IsChainCover plan.site.height (last_revoked plan.site.height (changes_of (commands_until q plan.commands)))
        (sets_at plan q) }
{}

/// The index that a head end keeps has, after a packet, the sets of that packet's period, and at the end those of the
/// last packet's, or of the first period where there was no packet.
pub fn kept_indexes_have_the_sets()
    ensures after { (plan : Plan) (before : Packets) (packet : Packet) (head : Head) →
        IsHeadEndAfter plan (before ++ packet ∷ []) head →
        cover_of head.entitling.index.height head.entitling.index.revoked
        ≡ sets_at plan (period_of plan (length before)) }
    ensures end { (plan : Plan) (before : Packets) (head closed : Head) (bytes : Bytes) (steps : ℕ) →
        IsHeadEndAfter plan before head → head_closes head closed bytes steps →
        cover_of plan.site.height closed.entitling.index.revoked
        ≡ sets_at plan (period_of plan (length before - 1)) }
{}

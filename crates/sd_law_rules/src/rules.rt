//! No rule tells more between neighbouring messages.

ghost use Rattle.std.specs.Prelude.{◌≡◌, ◌+◌, true, List, Some, None, take, if◌then◌else◌};
ghost use Rattle.sd_base.specs.Types.{Packets, Position, MessageNumber, PacketNumber};
ghost use Rattle.sd_packet.specs.Header.{pid_of};
ghost use Rattle.sd_packet.specs.Positions.{position_of};
ghost use Rattle.sd_spec.specs.Plan.{Plan, IsPlan};
ghost use Rattle.sd_spec.specs.Refused.{IsClear, IsSendable};
ghost use Rattle.sd_spec.specs.Sent.{Item};
ghost use Rattle.sd_law_losses.specs.Confirmed.{packet_at, is_traced};
ghost use Rattle.sd_law_rules.specs.Rules.{Judge, IsBetween, IsSoundRule, rule_told, receivers_judge};

/// A rule that tells positions of the scrambled packets between two neighbouring messages, and that is right whatever
/// is lost, tells one only where the receiver's rule tells it too: where the PID's position at the later message is at
/// most 15 above the tracked one. It may know the site, its master and the book, and it sees all that the two messages
/// say and the headers of the packets that arrived between them. This holds of rules that are right on all clear
/// streams, and of those that are right on all that can be sent.
pub fn no_sound_judge_tells_more()
    ensures clear { (plan : Plan) (judge : Judge) (clear : Packets) (kept : List Item) (a : MessageNumber)
        (j : PacketNumber) (p : Position) → IsPlan plan → IsSoundRule IsClear plan judge →
        IsBetween IsClear plan clear kept a j → rule_told judge plan clear kept a j ≡ Some p →
        is_traced plan clear kept a (a + 1) (pid_of (packet_at clear j)) ≡ true }
    ensures sendable { (plan : Plan) (judge : Judge) (clear : Packets) (kept : List Item) (a : MessageNumber)
        (j : PacketNumber) (p : Position) → IsPlan plan → IsSoundRule IsSendable plan judge →
        IsBetween IsSendable plan clear kept a j → rule_told judge plan clear kept a j ≡ Some p →
        is_traced plan clear kept a (a + 1) (pid_of (packet_at clear j)) ≡ true }
{}

/// The receiver's own rule is right whatever is lost. It tells the position of a scrambled packet exactly where its
/// PID's position at the later message is at most 15 above the tracked one.
pub fn receivers_judge_is_sound()
    ensures tells { (plan : Plan) (clear : Packets) (kept : List Item) (a : MessageNumber) (j : PacketNumber) →
        IsPlan plan → IsBetween IsSendable plan clear kept a j → rule_told receivers_judge plan clear kept a j
        ≡ (if is_traced plan clear kept a (a + 1) (pid_of (packet_at clear j))
        then Some (position_of (pid_of (packet_at clear j)) (take (j + 1) clear)) else None) }
    ensures clear { (plan : Plan) → IsPlan plan → IsSoundRule IsClear plan receivers_judge }
    ensures sendable { (plan : Plan) → IsPlan plan → IsSoundRule IsSendable plan receivers_judge }
{}

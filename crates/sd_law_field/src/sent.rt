//! Laws on what is sent for a clear stream: its order, and how many packets it is.

ghost use Rattle.std.specs.Prelude.{◌≡◌, ◌*◌, ◌<◌, ◌≤◌, ◌++◌, ◌∷◌, [], get_or, length};
ghost use Rattle.std.specs.List.{concat};
ghost use Rattle.sd_base.specs.Types.{Packet, Packets, PacketNumber};
ghost use Rattle.sd_spec.specs.Plan.{Plan, IsPlan};
ghost use Rattle.sd_spec.specs.Refused.{IsClear};
ghost use Rattle.sd_spec.specs.Sent.{Cat, Carries, added, sent, body};
ghost use Rattle.sd_law_broadcast.specs.Packets.{AreWholePackets};
ghost use Rattle.sd_law_broadcast.specs.Synced.{AreSynced};
ghost use Rattle.sd_spec.specs.Watch.{stream};
ghost use Rattle.sd_law_field.specs.Times.{most_added};

/// The packets in the bytes that a head end wrote are those of the broadcast without its closing message.
#[tactic(auto, using(crate::proofs::Streams::stream_is))]
pub fn streams_are_bodies()
    ensures { (plan : Plan) (clear : Packets) → IsPlan plan → IsClear plan.site clear →
        AreWholePackets clear → AreSynced clear → stream plan clear ≡ body plan clear }
{}

/// Of two clear packets the one that is sent first has the smaller number.
#[tactic(auto, using(crate::proofs::Numbers::sent_rises))]
pub fn packets_are_sent_in_order()
    ensures { (plan : Plan) (clear : Packets) (i k j l : PacketNumber) (packet other : Packet) → i < k →
        get_or (sent plan clear) i Cat ≡ Carries j packet → get_or (sent plan clear) k Cat ≡ Carries l other → j < l }
{}

/// For a tree of height at most 6 each clear packet adds at most 67 packets to what is sent. Room for 67 packets of 188
/// bytes for each is enough.
#[tactic(auto, using(crate::proofs::Few::added_is_short, crate::proofs::Few::sent_is_short, crate::proofs::Few::body_is_short))]
pub fn what_is_sent_has_room()
    ensures added { (plan : Plan) (before : Packets) (packet : Packet) → plan.site.height ≤ 6 → IsPlan plan →
        IsClear plan.site (before ++ packet ∷ []) → length (added plan before packet) ≤ most_added }
    ensures sent { (plan : Plan) (clear : Packets) → plan.site.height ≤ 6 → IsPlan plan →
        IsClear plan.site clear → length (sent plan clear) ≤ most_added * length clear }
    ensures room { (plan : Plan) (clear : Packets) → plan.site.height ≤ 6 → IsPlan plan →
        IsClear plan.site clear → AreWholePackets clear → AreSynced clear →
        length (concat (body plan clear)) ≤ 188 * most_added * length clear }
{}

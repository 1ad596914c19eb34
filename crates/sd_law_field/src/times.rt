//! What a receiver writes in all times that it is on. Events are listed with the newest first.

ghost use Rattle.std.specs.Prelude.{◌≡◌, ◌*◌, ◌^◌, ◌<◌, ◌≤◌, [], ℕ, false, List, Some, None, All, length, slice_get};
ghost use Rattle.std.specs.List.{concat};
ghost use Rattle.std.specs.List.Sorted.{IsStrictlyIncreasing};
ghost use Rattle.sd_base.specs.Types.{Packets, LeafNumber, PacketNumber};
ghost use Rattle.sd_spec.specs.Plan.{Plan, IsPlan, period_of};
ghost use Rattle.sd_spec.specs.Refused.{IsClear};
ghost use Rattle.sd_law_broadcast.specs.Packets.{AreWholePackets};
ghost use Rattle.sd_law_broadcast.specs.Synced.{AreSynced};
ghost use Rattle.sd_spec.specs.Offered.{break_from};
ghost use Rattle.sd_law_losses.specs.Confirmed.{packets_at, is_revoked_in};
ghost use Rattle.sd_spec.specs.declared.event.Event.{Event};
ghost use Rattle.sd_spec.specs.Watch.{watch, present, written};
ghost use Rattle.sd_law_field.specs.Times.{plan_card, clear_sent_in, confirmed_to_leaf};

/// By whatever book a head end sends, and however often a receiver is switched off and on and loses packets: what it
/// writes is the clear packets that are confirmed to it. Their numbers rise over all times that it was on, they were
/// sent, and they are of periods in which its leaf isn't revoked.
#[tactic(auto, using(crate::proofs::Written::written_is_confirmed, crate::proofs::Written::places_rise, crate::proofs::Written::places_are_sent, crate::proofs::Written::places_entitled))]
pub fn written_packets_are_confirmed()
    ensures packets { (plan : Plan) (clear : Packets) (u : LeafNumber) (past : List Event) → IsPlan plan →
        IsClear plan.site (clear_sent_in clear past) → AreWholePackets (clear_sent_in clear past) →
        AreSynced (clear_sent_in clear past) →
        u < 2 ^ plan.site.height → written plan (plan_card plan u) (clear_sent_in clear past) (watch plan clear u past)
        ≡ packets_at (clear_sent_in clear past) (confirmed_to_leaf plan u (clear_sent_in clear past)
        (watch plan clear u past)) }
    ensures rising { (plan : Plan) (clear : Packets) (u : LeafNumber) (past : List Event) → IsPlan plan →
        IsClear plan.site (clear_sent_in clear past) → AreWholePackets (clear_sent_in clear past) →
        AreSynced (clear_sent_in clear past) →
        u < 2 ^ plan.site.height →
        IsStrictlyIncreasing (confirmed_to_leaf plan u (clear_sent_in clear past) (watch plan clear u past)) }
    ensures inside { (plan : Plan) (clear : Packets) (u : LeafNumber) (past : List Event) → IsPlan plan →
        IsClear plan.site (clear_sent_in clear past) → AreWholePackets (clear_sent_in clear past) →
        AreSynced (clear_sent_in clear past) →
        u < 2 ^ plan.site.height → All (λ j. j < length (clear_sent_in clear past))
        (confirmed_to_leaf plan u (clear_sent_in clear past) (watch plan clear u past)) }
    ensures entitled { (plan : Plan) (clear : Packets) (u : LeafNumber) (past : List Event) → IsPlan plan →
        IsClear plan.site (clear_sent_in clear past) → AreWholePackets (clear_sent_in clear past) →
        AreSynced (clear_sent_in clear past) →
        u < 2 ^ plan.site.height → All (λ j. is_revoked_in plan u (period_of plan j) ≡ false)
        (confirmed_to_leaf plan u (clear_sent_in clear past) (watch plan clear u past)) }
{}

/// No two receivers ever write different packets for one clear packet, however their events and times interleave, and
/// at whatever moments the two are looked at.
#[tactic(auto, using(crate::proofs::Written::one_packet))]
pub fn one_packet_for_a_place()
    ensures { (plan : Plan) (clear : Packets) (u v : LeafNumber) (i k : ℕ) (j : PacketNumber)
        (past other : List Event) → IsPlan plan →
        IsClear plan.site (clear_sent_in clear past) → AreWholePackets (clear_sent_in clear past) →
        AreSynced (clear_sent_in clear past) →
        IsClear plan.site (clear_sent_in clear other) → AreWholePackets (clear_sent_in clear other) →
        AreSynced (clear_sent_in clear other) →
        u < 2 ^ plan.site.height → v < 2 ^ plan.site.height →
        slice_get (confirmed_to_leaf plan u (clear_sent_in clear past) (watch plan clear u past)) i ≡ Some j →
        slice_get (confirmed_to_leaf plan v (clear_sent_in clear other) (watch plan clear v other)) k ≡ Some j →
        slice_get (written plan (plan_card plan u) (clear_sent_in clear past) (watch plan clear u past)) i
        ≡ slice_get (written plan (plan_card plan v) (clear_sent_in clear other) (watch plan clear v other)) k }
{}

/// No receiver ever refuses a packet.
#[tactic(auto, using(crate::proofs::Written::present_unrefused))]
pub fn receivers_never_refuse()
    ensures { (plan : Plan) (clear : Packets) (u : LeafNumber) (past : List Event) → IsPlan plan →
        IsClear plan.site (clear_sent_in clear past) → AreWholePackets (clear_sent_in clear past) →
        AreSynced (clear_sent_in clear past) →
        u < 2 ^ plan.site.height →
        break_from (plan_card plan u) [] (present plan (clear_sent_in clear past) (watch plan clear u past)) ≡ None }
{}

/// A receiver never writes more packets than were sent clear, so that 188 bytes for each clear packet are enough.
#[tactic(auto, using(crate::proofs::Written::written_few, crate::proofs::Written::written_short, crate::proofs::Written::written_has_room))]
pub fn written_lists_have_room()
    ensures packets { (plan : Plan) (clear : Packets) (u : LeafNumber) (past : List Event) → IsPlan plan →
        IsClear plan.site (clear_sent_in clear past) → AreWholePackets (clear_sent_in clear past) →
        AreSynced (clear_sent_in clear past) →
        u < 2 ^ plan.site.height →
        length (written plan (plan_card plan u) (clear_sent_in clear past) (watch plan clear u past))
        ≤ length (clear_sent_in clear past) }
    ensures bytes { (plan : Plan) (clear : Packets) (u : LeafNumber) (past : List Event) → IsPlan plan →
        IsClear plan.site (clear_sent_in clear past) → AreWholePackets (clear_sent_in clear past) →
        AreSynced (clear_sent_in clear past) →
        u < 2 ^ plan.site.height →
        length (concat (written plan (plan_card plan u) (clear_sent_in clear past) (watch plan clear u past)))
        ≤ 188 * length (clear_sent_in clear past) }
    ensures room { (plan : Plan) (clear : Packets) (u : LeafNumber) (past : List Event) → IsPlan plan →
        IsClear plan.site (clear_sent_in clear past) → AreWholePackets (clear_sent_in clear past) →
        AreSynced (clear_sent_in clear past) →
        u < 2 ^ plan.site.height →
        length (concat (written plan (plan_card plan u) (clear_sent_in clear past) (watch plan clear u past)))
        ≤ 188 * length clear }
{}

//! What a receiver writes in one time that it is on.

ghost use Rattle.std.specs.Prelude.{◌≡◌, ◌^◌, ◌<◌, ◌++◌, [], false, List, None, All, Contains, get_or, length};
ghost use Rattle.std.specs.List.Sorted.{IsStrictlyIncreasing};
ghost use Rattle.sd_base.specs.Types.{Packet, Packets, LeafNumber, PacketNumber};
ghost use Rattle.sd_spec.specs.Plan.{Plan, IsPlan, period_of};
ghost use Rattle.sd_spec.specs.Refused.{IsClear};
ghost use Rattle.sd_spec.specs.Sent.{Item, Cat, Carries, sent};
ghost use Rattle.sd_law_broadcast.specs.Packets.{AreWholePackets};
ghost use Rattle.sd_law_broadcast.specs.Synced.{AreSynced};
ghost use Rattle.sd_spec.specs.Offered.{out_from, break_from};
ghost use Rattle.sd_law_losses.specs.Chosen.{chosen};
ghost use Rattle.sd_law_losses.specs.Confirmed.{packets_at, is_revoked_in};
ghost use Rattle.sd_spec.specs.Watch.{stream, at_places};
ghost use Rattle.sd_law_field.specs.Times.{plan_card, arrived_flags, confirmed_places_in};

/// What is at rising places of a list is a choice of the list, and the same choice of a longer one.
#[tactic(auto, using(crate::proofs::Chosen::packets_chosen, crate::proofs::Chosen::items_chosen, crate::proofs::Chosen::packets_chosen_of_more, crate::proofs::Chosen::items_chosen_of_more))]
pub fn places_are_chosen()
    ensures packets { (xs : Packets) (places : List PacketNumber) → IsStrictlyIncreasing places →
        All (λ i. i < length xs) places → chosen (arrived_flags places (length xs)) xs ≡ at_places [] xs places }
    ensures items { (xs : List Item) (places : List PacketNumber) → IsStrictlyIncreasing places →
        All (λ i. i < length xs) places → chosen (arrived_flags places (length xs)) xs ≡ at_places Cat xs places }
    ensures longer_packets { (xs ys : Packets) (places : List PacketNumber) → IsStrictlyIncreasing places →
        All (λ i. i < length xs) places → chosen (arrived_flags places (length xs)) (xs ++ ys)
        ≡ at_places [] xs places }
    ensures longer_items { (xs ys : List Item) (places : List PacketNumber) → IsStrictlyIncreasing places →
        All (λ i. i < length xs) places → chosen (arrived_flags places (length xs)) (xs ++ ys)
        ≡ at_places Cat xs places }
{}

/// In one time that it is on a receiver refuses nothing, whatever packets it isn't offered, and writes the clear
/// packets that are confirmed to it.
#[tactic(auto, using(crate::proofs::OneTime::none_refused, crate::proofs::OneTime::time_writes))]
pub fn times_are_confirmed()
    ensures none { (plan : Plan) (clear : Packets) (u : LeafNumber) (places : List PacketNumber) → IsPlan plan →
        IsClear plan.site clear → AreWholePackets clear → AreSynced clear → u < 2 ^ plan.site.height →
        IsStrictlyIncreasing places → All (λ i. i < length (sent plan clear)) places →
        break_from (plan_card plan u) [] (at_places [] (stream plan clear) places) ≡ None }
    ensures out { (plan : Plan) (clear : Packets) (u : LeafNumber) (places : List PacketNumber) → IsPlan plan →
        IsClear plan.site clear → AreWholePackets clear → AreSynced clear → u < 2 ^ plan.site.height →
        IsStrictlyIncreasing places → All (λ i. i < length (sent plan clear)) places →
        out_from (plan_card plan u) [] (at_places [] (stream plan clear) places)
        ≡ packets_at clear (confirmed_places_in plan u clear places) }
{}

/// A clear packet that is confirmed was offered.
pub fn confirmed_packets_were_offered()
    ensures { (plan : Plan) (clear : Packets) (u : LeafNumber) (j : PacketNumber) (places : List PacketNumber) →
        Contains (confirmed_places_in plan u clear places) j →
        (i : PacketNumber) × (packet : Packet) × Contains places i ×
        (get_or (sent plan clear) i Cat ≡ Carries j packet) }
{}

/// If a receiver was offered all packets of one time before those of another, it is confirmed later clear packets in
/// the other.
pub fn later_times_have_later_packets()
    ensures { (plan : Plan) (clear : Packets) (u : LeafNumber) (j l : PacketNumber) (places later : List PacketNumber) →
        ((i k : PacketNumber) → Contains places i → Contains later k → i < k) →
        Contains (confirmed_places_in plan u clear places) j → Contains (confirmed_places_in plan u clear later) l →
        j < l }
{}

/// A clear packet that is confirmed is of a period in which the leaf isn't revoked.
#[tactic(auto, using(crate::proofs::Entitled::places_are_entitled))]
pub fn confirmed_packets_are_entitled()
    ensures { (plan : Plan) (clear : Packets) (u : LeafNumber) (places : List PacketNumber) → IsPlan plan →
        u < 2 ^ plan.site.height →
        All (λ j. is_revoked_in plan u (period_of plan j) ≡ false) (confirmed_places_in plan u clear places) }
{}

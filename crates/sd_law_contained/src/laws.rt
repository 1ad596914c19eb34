//! Laws on damage: what it changes in what a receiver writes, and what it leaves as it is.

ghost use Rattle.std.specs.Prelude.{◌≡◌, ◌<◌, ◌^◌, [], ℕ, List, slice_index, None, true, false, reverse};
ghost use Rattle.sd_base.specs.Types.{Bytes, Packet, Packets, Pid, LeafNumber};
ghost use Rattle.sd_site_cards.specs.CardFields.{CardFields};
ghost use Rattle.sd_spec.specs.Offered.{out_from, break_from};
ghost use Rattle.sd_spec.specs.Ending.{ending_of};
ghost use Rattle.sd_spec.specs.Counting.{counting};
ghost use Rattle.sd_law_losses.specs.Channel.{Channel, Arrival, AreRunsOf, arriving, channel_card};
ghost use Rattle.sd_law_losses.specs.Many.{confirmed_from};
ghost use Rattle.sd_law_losses.specs.Ends.{ending_of_all};
ghost use Rattle.sd_law_contained.specs.Alone.{on, packets_alone, few_held_in, without_gaps};
ghost use Rattle.sd_law_contained.specs.Contained.{IsContained};
ghost use Rattle.sd_law_losses.specs.Channel.{channel_card};
ghost use Rattle.sd_law_contained.specs.Changed.{Damaged, AreAllHarmless, runs_sent, runs_changed, arriving_changed};
ghost use Rattle.sd_law_contained.specs.Changed.{confirmed_changed, IsTablePacket, IsHarmless};

/// What a receiver writes of one PID depends on the packets of that PID and on those that tell it something, and on no
/// others. If none of some packets is refused, and never more than 4,096 are buffered, then of these alone none is
/// refused, and what is written of them is what is written of the PID. In `watch` none of the packets that count is
/// refused. The ending is the same in any case, but for the number of missing packets.
#[tactic(auto, using(crate::proofs::Leaving::none_alone, crate::proofs::Leaving::out_alone, crate::proofs::Endings::end_alone, crate::proofs::Calm::out_watched, crate::proofs::Contained::same_alone))]
pub fn others_change_nothing()
    ensures none { (card : CardFields) (pid : Pid) (packets : Packets) → break_from card [] packets ≡ None →
        few_held_in card [] packets ≡ true → break_from card [] (packets_alone card pid [] packets) ≡ None }
    ensures out { (card : CardFields) (pid : Pid) (packets : Packets) → break_from card [] packets ≡ None →
        few_held_in card [] packets ≡ true →
        on pid (out_from card [] packets) ≡ out_from card [] (packets_alone card pid [] packets) }
    ensures same { (card : CardFields) (pid : Pid) (packets others : Packets) → break_from card [] packets ≡ None →
        few_held_in card [] packets ≡ true → break_from card [] others ≡ None → few_held_in card [] others ≡ true →
        packets_alone card pid [] packets ≡ packets_alone card pid [] others →
        on pid (out_from card [] packets) ≡ on pid (out_from card [] others) }
    ensures watched { (card : CardFields) (pid : Pid) (packets : Packets) →
        few_held_in card [] (counting card [] packets) ≡ true →
        on pid (out_from card [] (counting card [] packets))
        ≡ out_from card [] (packets_alone card pid [] (counting card [] packets)) }
    ensures ending { (card : CardFields) (pid : Pid) (packets : Packets) →
        without_gaps (ending_of card (reverse (packets_alone card pid [] packets)))
        ≡ without_gaps (ending_of card (reverse packets)) }
{}

/// Of the packets of a stream that count, take those of one PID and those that tell the receiver something. If these
/// are together, in order, what arrives of broadcasts of the channel, then of the PID `watch` writes exactly the clear
/// packets that are confirmed by what arrives. If some bits of these arrive changed, and this does no harm, exactly
/// these bits are changed in what is written. The ending is that of the broadcasts, but for the number of missing
/// packets.
#[tactic(auto, using(crate::proofs::Contained::out_contained, crate::proofs::Contained::end_contained, crate::proofs::Confirming::changed_contained))]
pub fn damage_is_contained()
    ensures out { (channel : Channel) (runs : List Arrival) (u : LeafNumber) (pid : Pid) (packets : Packets) →
        IsContained channel runs u pid packets →
        on pid (out_from (channel_card channel u) [] (counting (channel_card channel u) [] packets))
        ≡ confirmed_from false u runs }
    ensures ending { (channel : Channel) (runs : List Arrival) (u : LeafNumber) (pid : Pid) (packets : Packets) →
        IsContained channel runs u pid packets →
        without_gaps (ending_of (channel_card channel u) (reverse (counting (channel_card channel u) [] packets)))
        ≡ without_gaps (ending_of_all u runs) }
    ensures changed { (channel : Channel) (damaged : List Damaged) (u : LeafNumber) (pid : Pid) (packets : Packets) →
        AreRunsOf channel (runs_sent damaged) → AreAllHarmless damaged →
        IsContained channel (runs_changed damaged) u pid packets →
        on pid (out_from (channel_card channel u) [] (counting (channel_card channel u) [] packets))
        ≡ confirmed_changed false u damaged }
{}

/// A broadcast of which some bits arrive changed is the broadcast of a changed clear stream, if the changes do no harm:
/// a packet that is carried differs in exactly the bits in which its clear packet does. So whatever is lost besides, a
/// receiver refuses nothing, writes what it would have written, with exactly these bits changed, and ends as it would
/// have ended. Changes behind the first five bytes of a packet do no harm, unless the head end reads all of it.
#[tactic(auto, using(crate::proofs::Running::runs_taken, crate::proofs::Running::arrive_changed, crate::proofs::Confirming::none_changed, crate::proofs::Confirming::out_changed, crate::proofs::ChangedEnds::end_changed))]
pub fn changes_stay_in_their_packets()
    ensures payload { (before : Packets) (packet : Packet) (mask : Bytes) → ((i : ℕ) → slice_index mask i < 256) →
        ((i : ℕ) → i < 5 → slice_index mask i ≡ 0) → (IsTablePacket before packet → ⊥) → IsHarmless before packet mask }
    ensures unchanged { (before : Packets) (packet : Packet) → IsHarmless before packet [] }
    ensures runs { (channel : Channel) (damaged : List Damaged) → AreRunsOf channel (runs_sent damaged) →
        AreAllHarmless damaged → AreRunsOf channel (runs_changed damaged) }
    ensures arriving { (channel : Channel) (damaged : List Damaged) → AreRunsOf channel (runs_sent damaged) →
        AreAllHarmless damaged → arriving (runs_changed damaged) ≡ arriving_changed damaged }
    ensures none { (channel : Channel) (damaged : List Damaged) (u : LeafNumber) →
        AreRunsOf channel (runs_sent damaged) → AreAllHarmless damaged → u < 2 ^ channel.height →
        break_from (channel_card channel u) [] (arriving_changed damaged) ≡ None }
    ensures out { (channel : Channel) (damaged : List Damaged) (u : LeafNumber) →
        AreRunsOf channel (runs_sent damaged) → AreAllHarmless damaged → u < 2 ^ channel.height →
        out_from (channel_card channel u) [] (arriving_changed damaged) ≡ confirmed_changed false u damaged }
    ensures ending { (channel : Channel) (damaged : List Damaged) (u : LeafNumber) →
        AreRunsOf channel (runs_sent damaged) → AreAllHarmless damaged → u < 2 ^ channel.height →
        ending_of (channel_card channel u) (reverse (arriving_changed damaged)) ≡ ending_of_all u (runs_sent damaged) }
{}

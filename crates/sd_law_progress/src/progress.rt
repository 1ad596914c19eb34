//! What is written if little is lost.

ghost use Rattle.std.specs.Prelude.{◌≡◌, ◌+◌, ◌*◌, ◌/◌, ◌%◌, ◌^◌, ◌<◌, ◌≤◌, ◌++◌, [], ℕ, true, false, length, take};
ghost use Rattle.std.specs.List.{list_any};
ghost use Rattle.sd_base.specs.Types.{Packets, Arrived, LeafNumber, MessageNumber, PacketNumber};
ghost use Rattle.sd_site_cards.specs.CardFields.{site_card};
ghost use Rattle.sd_spec.specs.Plan.{Plan, IsPlan, crypto_length};
ghost use Rattle.sd_spec.specs.Refused.{IsSendable};
ghost use Rattle.sd_spec.specs.Sent.{sent, broadcast};
ghost use Rattle.sd_spec.specs.Offered.{out_from};
ghost use Rattle.sd_law_broadcast.specs.Packets.{AreWholePackets};
ghost use Rattle.sd_law_losses.specs.Chosen.{chosen};
ghost use Rattle.sd_law_losses.specs.Kept.{after_cat, has_arrived};
ghost use Rattle.sd_law_losses.specs.Confirmed.{confirmed, is_confirmed_at};
ghost use Rattle.sd_law_progress.specs.Progress.{things, AreMessagesKept, HaveNoGaps, kept_due};
ghost use Rattle.sd_law_progress.specs.Progress.{is_due, AreKeptFrom, packets_before, is_part_of, IsKnownBefore};
ghost use Rattle.sd_law_progress.specs.Progress.{due_in, confirmed_in, AreKeptBefore};

/// If nothing but clear packets is lost, and no PID of scrambled packets loses 16 positions in a row between two
/// neighbouring messages, the receiver of a leaf writes exactly those packets that are kept of the periods in which the
/// leaf isn't revoked.
#[tactic(auto, using(crate::proofs::Given::sent_to, crate::proofs::Arrivals::kept_are_confirmed, crate::proofs::Arrivals::kept_are_written))]
pub fn arrived_packets_are_written()
    ensures confirmed { (plan : Plan) (clear : Packets) (u : LeafNumber) (flags : Arrived) → IsPlan plan →
        IsSendable plan.site clear → AreWholePackets clear → u < 2 ^ plan.site.height →
        AreMessagesKept plan clear (chosen flags (things plan clear)) →
        HaveNoGaps plan clear (chosen flags (things plan clear)) →
        confirmed plan u clear (chosen flags (things plan clear))
        ≡ kept_due plan u clear (chosen flags (things plan clear)) }
    ensures out { (plan : Plan) (clear : Packets) (u : LeafNumber) (flags : Arrived) → IsPlan plan →
        IsSendable plan.site clear → AreWholePackets clear → u < 2 ^ plan.site.height →
        AreMessagesKept plan clear (chosen flags (things plan clear)) →
        HaveNoGaps plan clear (chosen flags (things plan clear)) →
        out_from (site_card plan.site u) [] (chosen flags (broadcast plan clear))
        ≡ kept_due plan u clear (chosen flags (things plan clear)) }
{}

/// If nothing more is lost from some place of a broadcast on, the picture is back. That is so from the first message on
/// that stands behind the place, if the receiver knows its PIDs and the key of its period, or the leaf is revoked in
/// that period: after one stretch at most. It is so in any case from the first crypto period on whose tables stand
/// behind the place: after as many clear packets as a crypto period has at most.
#[tactic(auto, using(crate::proofs::Given::sent_to, crate::proofs::Returns::message_back, crate::proofs::Returns::known_back, crate::proofs::Returns::soon_back))]
pub fn the_picture_is_back()
    ensures message { (plan : Plan) (clear : Packets) (u : LeafNumber) (x : ℕ) (flags : Arrived) (n : MessageNumber)
        (j : PacketNumber) → IsPlan plan → IsSendable plan.site clear → AreWholePackets clear →
        u < 2 ^ plan.site.height → AreKeptFrom plan clear x flags →
        list_any (is_part_of n) (take x (things plan clear)) ≡ false →
        IsKnownBefore plan u n (chosen flags (things plan clear)) → n * plan.site.every ≤ j → j < length clear →
        is_confirmed_at plan u clear (after_cat (chosen flags (things plan clear))) j ≡ is_due plan u j }
    ensures known { (plan : Plan) (clear : Packets) (u : LeafNumber) (x : ℕ) (flags : Arrived) (j : PacketNumber) →
        IsPlan plan → IsSendable plan.site clear → AreWholePackets clear → u < 2 ^ plan.site.height →
        AreKeptFrom plan clear x flags → packets_before plan clear x + plan.site.every ≤ j → j < length clear →
        IsKnownBefore plan u (j / plan.site.every) (chosen flags (things plan clear)) →
        is_confirmed_at plan u clear (after_cat (chosen flags (things plan clear))) j ≡ is_due plan u j }
    ensures crypto { (plan : Plan) (clear : Packets) (u : LeafNumber) (x : ℕ) (flags : Arrived) (k j : PacketNumber) →
        IsPlan plan → IsSendable plan.site clear → AreWholePackets clear → u < 2 ^ plan.site.height →
        AreKeptFrom plan clear x flags → k % crypto_length plan.site ≡ 0 → x ≤ length (sent plan (take k clear)) →
        k ≤ j → j < length clear →
        is_confirmed_at plan u clear (after_cat (chosen flags (things plan clear))) j ≡ is_due plan u j }
    ensures soon { (plan : Plan) (clear : Packets) (u : LeafNumber) (x : ℕ) (flags : Arrived) (j : PacketNumber) →
        IsPlan plan → IsSendable plan.site clear → AreWholePackets clear → u < 2 ^ plan.site.height →
        AreKeptFrom plan clear x flags → packets_before plan clear x + crypto_length plan.site ≤ j →
        j < length clear →
        is_confirmed_at plan u clear (after_cat (chosen flags (things plan clear))) j ≡ is_due plan u j }
    ensures out { (plan : Plan) (clear : Packets) (u : LeafNumber) (x : ℕ) (flags : Arrived) (low : PacketNumber) →
        IsPlan plan → IsSendable plan.site clear → AreWholePackets clear → u < 2 ^ plan.site.height →
        AreKeptFrom plan clear x flags → packets_before plan clear x + crypto_length plan.site ≤ low →
        low ≤ length clear →
        out_from (site_card plan.site u) [] (chosen flags (broadcast plan clear))
        ≡ confirmed_in plan u clear (chosen flags (things plan clear)) 0 low
        ++ due_in plan u clear low (length clear) }
{}

/// If nothing is lost before some place of a broadcast, all that is due is written up to the last message that is whole
/// before the place. So what is lost from there on costs at most one stretch before it.
#[tactic(auto, using(crate::proofs::Given::sent_to, crate::proofs::Damage::message_before, crate::proofs::Damage::packets_back, crate::proofs::Damage::before_written))]
pub fn before_damage()
    ensures message { (plan : Plan) (clear : Packets) (u : LeafNumber) (x : ℕ) (flags : Arrived) (n : MessageNumber)
        (j : PacketNumber) → IsPlan plan → IsSendable plan.site clear → AreWholePackets clear →
        u < 2 ^ plan.site.height → AreKeptBefore plan clear x flags →
        has_arrived (take x (things plan clear)) n ≡ true → j < n * plan.site.every → j < length clear →
        is_confirmed_at plan u clear (after_cat (chosen flags (things plan clear))) j ≡ is_due plan u j }
    ensures packets { (plan : Plan) (clear : Packets) (u : LeafNumber) (x : ℕ) (flags : Arrived) (j : PacketNumber) →
        IsPlan plan → IsSendable plan.site clear → AreWholePackets clear → u < 2 ^ plan.site.height →
        AreKeptBefore plan clear x flags → j + plan.site.every < packets_before plan clear x →
        is_confirmed_at plan u clear (after_cat (chosen flags (things plan clear))) j ≡ is_due plan u j }
    ensures out { (plan : Plan) (clear : Packets) (u : LeafNumber) (x : ℕ) (flags : Arrived) (high : PacketNumber) →
        IsPlan plan → IsSendable plan.site clear → AreWholePackets clear → u < 2 ^ plan.site.height →
        AreKeptBefore plan clear x flags → high + plan.site.every ≤ packets_before plan clear x →
        out_from (site_card plan.site u) [] (chosen flags (broadcast plan clear))
        ≡ due_in plan u clear 0 high
        ++ confirmed_in plan u clear (chosen flags (things plan clear)) high (length clear) }
{}

//! What the loss of one packet of a broadcast costs.

ghost use Rattle.std.specs.Prelude.{◌≡◌, ℕ, ◌+◌, ◌-◌, ◌*◌, ◌%◌, ◌≤◌, ◌≢◌, ◌++◌, [], List, Bool, true, false, length};
ghost use Rattle.std.specs.List.{list_any};
ghost use Rattle.sd_base.specs.Types.{Packet, Packets, LeafNumber, CryptoNumber, PacketNumber};
ghost use Rattle.sd_site_cards.specs.CardFields.{site_card};
ghost use Rattle.sd_message.specs.declared.emm.Emm.{Emm};
ghost use Rattle.sd_message.specs.declared.ecm_part.EcmPart.{EcmPart};
ghost use Rattle.sd_spec.specs.Plan.{Plan, crypto_length};
ghost use Rattle.sd_spec.specs.Offered.{out_from};
ghost use Rattle.sd_spec.specs.Sent.{Item, Cat, Entitles, Controls, Carries, broadcast, is_cat_item};
ghost use Rattle.sd_law_losses.specs.Chosen.{chosen};
ghost use Rattle.sd_law_losses.specs.Kept.{is_section_item};
ghost use Rattle.sd_law_losses.specs.Confirmed.{confirmed, opened_by};
ghost use Rattle.sd_law_progress.specs.Cost.{AreConfirmedBut, AreConfirmedOutside, IsLost, RiseByAtMost};
ghost use Rattle.sd_law_progress.specs.Cost.{RiseNarrowly, cost, without};

/// If one packet of a broadcast is lost, the receiver of a leaf writes a part, in order, of the clear packets that are
/// due to the leaf, and no others. If also `ecm-every` is at most 2,048 and positions rise narrowly, as they do if no
/// packet raises its PID's position by more than 8, the receiver writes all that are due except some of a number of
/// consecutive packets: the cost of the thing that the lost packet carried.
#[tactic(auto, using(crate::proofs::CostLaws::received_told, crate::proofs::CostLaws::stretch_told, crate::proofs::CostLaws::count_told, crate::proofs::CostLaws::eight_are_narrow))]
pub fn one_packet_costs()
    ensures received { (plan : Plan) (clear : Packets) (u : LeafNumber) (before : List Item) (item : Item)
        (after : List Item) → IsLost plan clear u before item after →
        out_from (site_card plan.site u) [] (without (length before)
        (broadcast plan clear)) ≡ confirmed plan u clear (before ++ after) }
    ensures part { (plan : Plan) (clear : Packets) (u : LeafNumber) (before : List Item) (item : Item)
        (after : List Item) → IsLost plan clear u before item after →
        (parts : List Bool) × (confirmed plan u clear (before ++ after) ≡ chosen parts (opened_by plan u clear)) }
    ensures stretch { (plan : Plan) (clear : Packets) (u : LeafNumber) (before : List Item) (item : Item)
        (after : List Item) → IsLost plan clear u before item after → plan.site.every ≤ 2048 → RiseNarrowly clear →
        AreConfirmedBut plan u clear (before ++ after) (cost plan.site before item) }
    ensures count { (plan : Plan) (clear : Packets) (u : LeafNumber) (before : List Item) (item : Item)
        (after : List Item) → IsLost plan clear u before item after → plan.site.every ≤ 2048 → RiseNarrowly clear →
        length (opened_by plan u clear)
        ≤ length (confirmed plan u clear (before ++ after)) + cost plan.site before item }
    ensures narrow { (clear : Packets) → RiseByAtMost 8 clear → RiseNarrowly clear }
{}

/// A lost clear packet costs itself, if positions rise narrowly.
pub fn lost_packets_cost_themselves()
    ensures { (plan : Plan) (clear : Packets) (u : LeafNumber) (before : List Item) (i : PacketNumber)
        (packet : Packet) (after : List Item) → IsLost plan clear u before (Carries i packet) after →
        RiseNarrowly clear → AreConfirmedOutside plan u clear (before ++ after) i 1 }
{}

/// The first CAT costs the first crypto period, and a section that was not sent before costs at most one crypto period.
/// A later CAT costs nothing, nor does a section that was sent before.
#[tactic(auto, using(crate::proofs::CostLaws::cat_told, crate::proofs::CostLaws::cat_again_told, crate::proofs::CostLaws::section_again_told))]
pub fn lost_tables_cost_a_crypto_period()
    ensures cat { (plan : Plan) (clear : Packets) (u : LeafNumber) (before after : List Item) →
        IsLost plan clear u before Cat after → list_any is_cat_item before ≡ false →
        AreConfirmedOutside plan u clear (before ++ after) 0 (crypto_length plan.site) }
    ensures cat_again { (plan : Plan) (clear : Packets) (u : LeafNumber) (before after : List Item) →
        IsLost plan clear u before Cat after → list_any is_cat_item before ≡ true →
        confirmed plan u clear (before ++ after) ≡ opened_by plan u clear }
    ensures section { (plan : Plan) (clear : Packets) (u : LeafNumber) (before : List Item) (emm : Emm)
        (after : List Item) → IsLost plan clear u before (Entitles emm) after → (n : CryptoNumber)
        × AreConfirmedOutside plan u clear (before ++ after) (n * crypto_length plan.site) (crypto_length plan.site) }
    ensures section_again { (plan : Plan) (clear : Packets) (u : LeafNumber) (before : List Item) (emm : Emm)
        (after : List Item) → IsLost plan clear u before (Entitles emm) after →
        list_any (is_section_item emm.period emm.index) before ≡ true →
        confirmed plan u clear (before ++ after) ≡ opened_by plan u clear }
{}

/// A lost part of a control message costs at most the packets between the messages before and after that message. Of
/// message 0 and of the closing message that is half as many. In versions 2 and 3 a message that is not the first of
/// its crypto period, nor the closing one, costs nothing, if `ecm-every` is at most 2,048.
#[tactic(auto, using(crate::proofs::CostLaws::part_told, crate::proofs::CostLaws::first_told, crate::proofs::CostLaws::closing_told, crate::proofs::CostLaws::within_told))]
pub fn lost_messages_cost_what_is_beside_them()
    ensures part { (plan : Plan) (clear : Packets) (u : LeafNumber) (before : List Item) (part : EcmPart)
        (after : List Item) → IsLost plan clear u before (Controls part) after →
        AreConfirmedOutside plan u clear (before ++ after) ((part.number - 1) * plan.site.every)
        (2 * plan.site.every) }
    ensures first { (plan : Plan) (clear : Packets) (u : LeafNumber) (before : List Item) (part : EcmPart)
        (after : List Item) → IsLost plan clear u before (Controls part) after → part.number ≡ 0 →
        AreConfirmedOutside plan u clear (before ++ after) 0 plan.site.every }
    ensures closing { (plan : Plan) (clear : Packets) (u : LeafNumber) (before : List Item) (part : EcmPart)
        (after : List Item) → IsLost plan clear u before (Controls part) after → part.closing ≡ true →
        AreConfirmedOutside plan u clear (before ++ after) ((part.number - 1) * plan.site.every) plan.site.every }
    ensures within { (plan : Plan) (clear : Packets) (u : LeafNumber) (before : List Item) (part : EcmPart)
        (after : List Item) → IsLost plan clear u before (Controls part) after → part.closing ≡ false →
        part.number % plan.site.cryptos ≢ 0 → plan.site.messages ≢ 1 → plan.site.every ≤ 2048 →
        confirmed plan u clear (before ++ after) ≡ opened_by plan u clear }
{}

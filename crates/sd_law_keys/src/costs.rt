//! What the key of one period costs a receiver.

ghost use Rattle.std.specs.Prelude.{◌≡◌, ◌<◌, ◌≤◌, ◌^◌, ◌∷◌, ℕ, [], true};
ghost use Rattle.sd_base.specs.Types.{Arrived, LeafNumber, Packet, Packets, PeriodNumber};
ghost use Rattle.sd_site_cards.specs.CardFields.{CardFields, site_card};
ghost use Rattle.sd_spec.specs.Plan.{Plan, IsPlan};
ghost use Rattle.sd_spec.specs.Refused.{IsSendable};
ghost use Rattle.sd_spec.specs.Sent.{broadcast};
ghost use Rattle.sd_spec.specs.Taken.{takes_key_at};
ghost use Rattle.sd_law_broadcast.specs.Packets.{AreWholePackets};
ghost use Rattle.sd_law_losses.specs.Chosen.{chosen};
ghost use Rattle.sd_law_keys.specs.Costs.{is_one_run, is_section_at, steps_for};

/// The key of one period takes a receiver at most as many steps of the generator as the tree is high. So it is of any
/// packets of one run, whoever sent them, and of a broadcast, whatever is lost of it. Each packet that takes a key is a
/// section of one period.
pub fn a_period_costs_at_most_the_height()
    ensures any { (q : PeriodNumber) (card : CardFields) (past : Packets) (packet : Packet) (packets : Packets) →
        is_one_run card (packet ∷ past) packets ≡ true → steps_for q card past (packet ∷ packets) ≤ card.height }
    ensures lost { (plan : Plan) (clear : Packets) (u : LeafNumber) (flags : Arrived) (q : PeriodNumber) →
        IsPlan plan → IsSendable plan.site clear → AreWholePackets clear → u < 2 ^ plan.site.height →
        steps_for q (site_card plan.site u) []
        (chosen flags (broadcast plan clear)) ≤ plan.site.height }
    ensures each { (card : CardFields) (past : Packets) (packet : Packet) → takes_key_at card past packet ≡ true →
        (q : PeriodNumber) × (is_section_at q card past packet ≡ true)
        × ((p : PeriodNumber) → is_section_at p card past packet ≡ true → p ≡ q) }
{}

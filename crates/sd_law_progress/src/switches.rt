//! What a switch to another broadcast costs.

ghost use Rattle.std.specs.Prelude.{◌≡◌, ◌+◌, ◌^◌, ◌<◌, ◌≤◌, ◌++◌, [], ◌∷◌, ℕ, false, length};
ghost use Rattle.sd_base.specs.Types.{Packets, LeafNumber, PacketNumber};
ghost use Rattle.sd_site_cards.specs.SiteFields.{SiteFields, AreInRange};
ghost use Rattle.sd_spec.specs.Plan.{Plan, crypto_length};
ghost use Rattle.sd_spec.specs.Offered.{out_from};
ghost use Rattle.sd_law_losses.specs.Channel.{Channel, AreRunsOf, arriving, channel_card};
ghost use Rattle.sd_law_losses.specs.Many.{confirmed_from};
ghost use Rattle.sd_law_progress.specs.Progress.{due_in};
ghost use Rattle.sd_law_progress.specs.Switches.{cut_off, joined_behind, last_message_at, next_crypto_at};

/// A broadcast of a channel ends behind one of its clear packets, and the receiver goes on with another of the channel,
/// behind one of the clear packets of that. It writes what is due of the first up to its last message, and of the
/// second from the next crypto period on. So the switch costs up to a stretch of the first, and less than a crypto
/// period of the second; where both carry one stream and go on at the same packet, a stretch at least and a crypto
/// period at most.
#[tactic(auto, using(crate::proofs::Switched::switch_confirmed, crate::proofs::Switched::switch_written, crate::proofs::Switching::last_bounds, crate::proofs::Switching::next_bounds, crate::proofs::Switching::both_bounds))]
pub fn a_switch_costs()
    ensures confirmed { (channel : Channel) (a b : Plan) (before after : Packets) (i j : ℕ) (u : LeafNumber) →
        AreRunsOf channel (cut_off a before i ∷ (joined_behind b after j ∷ [])) → u < 2 ^ channel.height → 0 < i →
        i ≤ length before → j ≤ length after →
        confirmed_from false u (cut_off a before i ∷ (joined_behind b after j ∷ []))
        ≡ due_in a u before 0 (last_message_at a.site i)
        ++ due_in b u after (next_crypto_at b.site j) (length after) }
    ensures out { (channel : Channel) (a b : Plan) (before after : Packets) (i j : ℕ) (u : LeafNumber) →
        AreRunsOf channel (cut_off a before i ∷ (joined_behind b after j ∷ [])) → u < 2 ^ channel.height → 0 < i →
        i ≤ length before → j ≤ length after →
        out_from (channel_card channel u) []
        (arriving (cut_off a before i ∷ (joined_behind b after j ∷ [])))
        ≡ due_in a u before 0 (last_message_at a.site i)
        ++ due_in b u after (next_crypto_at b.site j) (length after) }
    ensures cut { (site : SiteFields) (i : ℕ) → AreInRange site → 0 < i →
        (last_message_at site i < i) × (i ≤ last_message_at site i + site.every) }
    ensures joined { (site : SiteFields) (j : PacketNumber) → AreInRange site →
        (j ≤ next_crypto_at site j) × (next_crypto_at site j < j + crypto_length site) }
    ensures both { (site : SiteFields) (i : ℕ) → AreInRange site → 0 < i →
        (last_message_at site i + site.every ≤ next_crypto_at site i)
        × (next_crypto_at site i ≤ last_message_at site i + crypto_length site) }
{}

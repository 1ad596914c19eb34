//! Laws on what counts of broadcasts that lose packets.

ghost use Rattle.std.specs.Prelude.{◌≡◌, ◌^◌, ◌<◌, Bool, true, false, List, [], ◌∷◌, map, reverse, None};
ghost use Rattle.std.specs.List.{list_any};
ghost use Rattle.sd_base.specs.Types.{LeafNumber, Packets};
ghost use Rattle.sd_site_cards.specs.CardFields.{site_card};
ghost use Rattle.sd_spec.specs.Plan.{Plan, IsPlan};
ghost use Rattle.sd_spec.specs.Refused.{IsSendable};
ghost use Rattle.sd_spec.specs.Sent.{broadcast};
ghost use Rattle.sd_spec.specs.Offered.{out_from};
ghost use Rattle.sd_spec.specs.Ending.{ending_of};
ghost use Rattle.sd_spec.specs.Counting.{is_marked, counting};
ghost use Rattle.sd_spec.specs.Reports.{tally_from, report_of, reports};
ghost use Rattle.sd_law_broadcast.specs.Packets.{AreWholePackets};
ghost use Rattle.sd_law_losses.specs.Chosen.{chosen};
ghost use Rattle.sd_law_losses.specs.Confirmed.{opened_by};
ghost use Rattle.sd_law_losses.specs.Endings.{whole_ending, first_revoked};
ghost use Rattle.sd_spec.specs.declared.ending.Ending.TheVariants.{Opened};
ghost use Rattle.sd_law_losses.specs.Channel.{Arrival, Channel, AreRunsOf, arriving, all_sent, channel_card};
ghost use Rattle.sd_law_losses.specs.Many.{confirmed_from, opened_of_all};
ghost use Rattle.sd_law_losses.specs.Ends.{ending_of_all, whole_ending_of};
ghost use Rattle.sd_law_losses.specs.Together.{joined_to};
ghost use Rattle.sd_law_watch.specs.Fewer.{AreFewerOf};
ghost use Rattle.sd_law_watch.specs.Steady.{are_steady};

/// What doesn't count of broadcasts of one channel that follow one another is as if it had not arrived: what counts is
/// what arrives of fewer packets of them. So only clear packets that the leaf is entitled to are written, in order, and
/// what is written is what the messages that count confirm. If no packet is marked or doubled, exactly as much is
/// written as if all counted, with the same ending. None of the packets is refused.
#[tactic(auto, using(crate::proofs::Losses::counts_as_fewer, crate::proofs::Losses::true_packets, crate::proofs::Losses::written_as_ever, crate::proofs::Losses::ends_as_ever, crate::proofs::Losses::none_is_refused))]
pub fn losses_of_runs_are_watched()
    ensures lost { (channel : Channel) (runs : List Arrival) (u : LeafNumber) → AreRunsOf channel runs →
        u < 2 ^ channel.height →
        (fewer : List Arrival) × AreFewerOf runs fewer
        × (counting (channel_card channel u) [] (arriving runs) ≡ arriving fewer)
        × (out_from (channel_card channel u) []
        (counting (channel_card channel u) [] (arriving runs))
        ≡ confirmed_from false u fewer) }
    ensures part { (channel : Channel) (runs : List Arrival) (u : LeafNumber) → AreRunsOf channel runs →
        u < 2 ^ channel.height →
        (parts : List Bool)
        × (out_from (channel_card channel u) []
        (counting (channel_card channel u) [] (arriving runs))
        ≡ chosen parts (opened_of_all u runs)) }
    ensures same { (channel : Channel) (runs : List Arrival) (u : LeafNumber) → AreRunsOf channel runs →
        u < 2 ^ channel.height →
        (tally_from (channel_card channel u) 0 [] (arriving runs)).marked ≡ 0 →
        (tally_from (channel_card channel u) 0 [] (arriving runs)).doubled ≡ 0 →
        out_from (channel_card channel u) []
        (counting (channel_card channel u) [] (arriving runs))
        ≡ confirmed_from false u runs }
    ensures ending { (channel : Channel) (runs : List Arrival) (u : LeafNumber) → AreRunsOf channel runs →
        u < 2 ^ channel.height →
        (tally_from (channel_card channel u) 0 [] (arriving runs)).marked ≡ 0 →
        (tally_from (channel_card channel u) 0 [] (arriving runs)).doubled ≡ 0 →
        ending_of (channel_card channel u)
        (reverse (counting (channel_card channel u) [] (arriving runs)))
        ≡ ending_of_all u runs }
    ensures refused { (channel : Channel) (runs : List Arrival) (u : LeafNumber) → AreRunsOf channel runs →
        u < 2 ^ channel.height →
        (tally_from (channel_card channel u) 0 [] (arriving runs)).refused ≡ 0 }
{}

/// Of whole broadcasts of one channel of which no packet is marked or doubled, exactly the clear packets are written
/// that the leaf is entitled to. It ends opened, or revoked in the leaf's first revoked period of the first broadcast
/// that has one.
#[tactic(auto, using(crate::proofs::Losses::wholes_written, crate::proofs::Losses::wholes_end))]
pub fn whole_runs_are_watched()
    ensures out { (channel : Channel) (runs : List Arrival) (u : LeafNumber) → AreRunsOf channel runs →
        u < 2 ^ channel.height →
        (tally_from (channel_card channel u) 0 [] (all_sent runs)).marked ≡ 0 →
        (tally_from (channel_card channel u) 0 [] (all_sent runs)).doubled ≡ 0 →
        out_from (channel_card channel u) []
        (counting (channel_card channel u) [] (all_sent runs))
        ≡ opened_of_all u runs }
    ensures ending { (channel : Channel) (run : Arrival) (runs : List Arrival) (u : LeafNumber) →
        AreRunsOf channel (run ∷ runs) → u < 2 ^ channel.height →
        (tally_from (channel_card channel u) 0 [] (all_sent (run ∷ runs))).marked ≡ 0 →
        (tally_from (channel_card channel u) 0 [] (all_sent (run ∷ runs))).doubled ≡ 0 →
        ending_of (channel_card channel u)
        (reverse (counting (channel_card channel u) [] (all_sent (run ∷ runs))))
        ≡ joined_to Opened (map (whole_ending_of u) (run ∷ runs)) }
{}

/// Of a whole broadcast of a steady clear stream of which no packet is marked, all packets count. So exactly the clear
/// packets are written that the leaf is entitled to, and it ends opened, or as revoked in the first period of the
/// broadcast in which the leaf is. One report is made of it, which tells of no packet that doesn't count.
#[tactic(auto, using(crate::proofs::Broadcast::steady_counts, crate::proofs::Broadcast::steady_out, crate::proofs::Broadcast::steady_ending, crate::proofs::Line::steady_tally, crate::proofs::Line::steady_line))]
pub fn steady_broadcasts_are_watched()
    ensures counts { (plan : Plan) (clear : Packets) (u : LeafNumber) → IsPlan plan → IsSendable plan.site clear →
        AreWholePackets clear → u < 2 ^ plan.site.height → are_steady clear ≡ true →
        list_any is_marked clear ≡ false →
        counting (site_card plan.site u) [] (broadcast plan clear)
        ≡ broadcast plan clear }
    ensures out { (plan : Plan) (clear : Packets) (u : LeafNumber) → IsPlan plan → IsSendable plan.site clear →
        AreWholePackets clear → u < 2 ^ plan.site.height → are_steady clear ≡ true →
        list_any is_marked clear ≡ false →
        out_from (site_card plan.site u) []
        (counting (site_card plan.site u) [] (broadcast plan clear))
        ≡ opened_by plan u clear }
    ensures ending { (plan : Plan) (clear : Packets) (u : LeafNumber) → IsPlan plan → IsSendable plan.site clear →
        AreWholePackets clear → u < 2 ^ plan.site.height → are_steady clear ≡ true →
        list_any is_marked clear ≡ false →
        ending_of (site_card plan.site u)
        (reverse (counting (site_card plan.site u) [] (broadcast plan clear)))
        ≡ whole_ending (first_revoked plan u clear) }
    ensures tally { (plan : Plan) (clear : Packets) (u : LeafNumber) → IsPlan plan → IsSendable plan.site clear →
        AreWholePackets clear → u < 2 ^ plan.site.height → are_steady clear ≡ true →
        list_any is_marked clear ≡ false →
        tally_from (site_card plan.site u) 0 [] (broadcast plan clear)
        ≡ record { marked = 0; doubled = 0; odd = 0; refused = 0; first = None } }
    ensures line { (plan : Plan) (clear : Packets) (u : LeafNumber) → IsPlan plan → IsSendable plan.site clear →
        AreWholePackets clear → u < 2 ^ plan.site.height → are_steady clear ≡ true →
        list_any is_marked clear ≡ false →
        reports (site_card plan.site u) (broadcast plan clear)
        ≡ report_of (site_card plan.site u) (broadcast plan clear) ∷ [] }
{}

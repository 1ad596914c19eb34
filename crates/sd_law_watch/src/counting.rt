//! Laws on what counts of any packets.

ghost use Rattle.std.specs.Prelude.{◌≡◌, ◌≢◌, ◌+◌, ◌≤◌, Bool, true, false, [], ◌∷◌, ◌++◌, length, reverse};
ghost use Rattle.std.specs.Prelude.{None, Some, All, Contains};
ghost use Rattle.sd_base.specs.Types.{Packet, Packets, Arrived, PacketNumber};
ghost use Rattle.sd_site_cards.specs.CardFields.{CardFields};
ghost use Rattle.sd_message.specs.declared.stream_fault.StreamFault.TheVariants as Fault;
ghost use Rattle.sd_spec.specs.Offered.{offered, out_from, break_from};
ghost use Rattle.sd_spec.specs.Ending.{ending_of};
ghost use Rattle.sd_spec.specs.Taken.{taken_keys};
ghost use Rattle.sd_spec.specs.Counting.{is_scrambled_packet, is_doubled, counts, counting, tried_keys};
ghost use Rattle.sd_spec.specs.Reports.{tally_from};
ghost use Rattle.sd_law_losses.specs.Chosen.{chosen};
ghost use Rattle.sd_law_watch.specs.LeftOut.{counting_and};
ghost use Rattle.sd_law_watch.specs.Tried.{refused_keys};

/// A receiver refuses nothing that counts. After packets that count it refuses no message for a packet before it: none
/// that is buffered has the wrong parity.
#[tactic(auto, using(crate::proofs::Counted::none_refused, crate::proofs::Odd::no_parity))]
pub fn nothing_that_counts_is_refused()
    ensures none { (card : CardFields) (packets : Packets) → break_from card [] (counting card [] packets) ≡ None }
    ensures parity { (card : CardFields) (packets : Packets) (packet : Packet) (n : PacketNumber) →
        (offered card (reverse (counting card [] packets)) packet).fault ≢ Some (Fault.Parity n) }
{}

/// If a receiver refuses nothing of a stream, and nothing of it is marked, doubled or odd, all of it counts. So `watch`
/// does with it what `receive` does.
#[tactic(auto, using(crate::proofs::Counted::all_count))]
pub fn undamaged_streams_count()
    ensures { (card : CardFields) (packets : Packets) → break_from card [] packets ≡ None →
        (tally_from card 0 [] packets).marked ≡ 0 → (tally_from card 0 [] packets).doubled ≡ 0 →
        (tally_from card 0 [] packets).odd ≡ 0 → counting card [] packets ≡ packets }
{}

/// Odd packets cost nothing. If a receiver refuses nothing of a stream, whatever else of it is lost, and nothing of it
/// is marked or doubled, what counts is written as the whole stream is, with the same ending. Also if some of it is
/// marked or doubled, nothing is refused, and keys are tried only of sections that count.
#[tactic(auto, using(crate::proofs::Going::same_out, crate::proofs::Going::same_ending, crate::proofs::Unrefused::none_refused, crate::proofs::Unrefused::tried_as_taken))]
pub fn odd_packets_cost_nothing()
    ensures out { (card : CardFields) (packets : Packets) →
        ((flags : Arrived) → break_from card [] (chosen flags packets) ≡ None) →
        (tally_from card 0 [] packets).marked ≡ 0 → (tally_from card 0 [] packets).doubled ≡ 0 →
        out_from card [] (counting card [] packets) ≡ out_from card [] packets }
    ensures ending { (card : CardFields) (packets : Packets) →
        ((flags : Arrived) → break_from card [] (chosen flags packets) ≡ None) →
        (tally_from card 0 [] packets).marked ≡ 0 → (tally_from card 0 [] packets).doubled ≡ 0 →
        ending_of card (reverse (counting card [] packets)) ≡ ending_of card (reverse packets) }
    ensures refused { (card : CardFields) (packets : Packets) →
        ((flags : Arrived) → break_from card [] (chosen flags packets) ≡ None) →
        (tally_from card 0 [] packets).refused ≡ 0 }
    ensures keys { (card : CardFields) (packets : Packets) →
        ((flags : Arrived) → break_from card [] (chosen flags packets) ≡ None) →
        tried_keys card [] packets ≡ taken_keys card [] (counting card [] packets) }
{}

/// What doesn't count is lost: if any of it is left out, the same counts. So the packets that count count by
/// themselves.
#[tactic(auto, using(crate::proofs::Counted::same_count, crate::proofs::Counted::count_again))]
pub fn what_is_refused_is_lost()
    ensures again { (card : CardFields) (packets : Packets) →
        counting card [] (counting card [] packets) ≡ counting card [] packets }
    ensures between { (card : CardFields) (packets : Packets) (keep : PacketNumber → Bool) →
        counting card [] (counting_and card keep 0 [] packets) ≡ counting card [] packets }
{}

/// A packet that comes again, as any other that doesn't count, changes nothing of what counts before and behind it. Nor
/// does a group of at most 15 scrambled packets that count if some of them come again behind it, in any order.
pub fn copies_change_nothing()
    ensures uncounted { (card : CardFields) (before after : Packets) (packet : Packet) →
        counts card (reverse (counting card [] before)) packet ≡ false →
        counting card [] (before ++ packet ∷ after) ≡ counting card [] (before ++ after) }
    ensures doubled { (card : CardFields) (before after : Packets) (packet : Packet) →
        is_doubled card (reverse (counting card [] before)) packet ≡ true →
        counting card [] (before ++ packet ∷ after) ≡ counting card [] (before ++ after) }
    ensures groups { (card : CardFields) (before group again after : Packets) → length group ≤ 15 →
        All (λ packet. is_scrambled_packet packet ≡ true) group →
        counting card (reverse (counting card [] before)) group ≡ group → All (Contains group) again →
        counting card [] (before ++ group ++ again ++ after) ≡ counting card [] (before ++ group ++ after) }
{}

/// The packets that have a key tried are those that count and take one, and those that are refused and were to give
/// one. So they are at most as many as take a key of what counts, and the refused ones.
#[tactic(auto, using(crate::proofs::Trying::tried_are, crate::proofs::Trying::few_refused))]
pub fn refused_sections_cost_a_key()
    ensures tried { (card : CardFields) (packets : Packets) →
        tried_keys card [] packets
        ≡ taken_keys card [] (counting card [] packets) + refused_keys card [] packets }
    ensures few { (card : CardFields) (packets : Packets) →
        refused_keys card [] packets ≤ (tally_from card 0 [] packets).refused }
{}

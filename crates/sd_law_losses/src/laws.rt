//! Laws on what a receiver reads of a broadcast, tracks and confirms if packets are lost, and makes of several runs.

ghost use Rattle.std.specs.Prelude.{◌≡◌, ◌+◌, ◌*◌, ◌%◌, ◌^◌, ◌<◌, ◌≤◌, ◌++◌, ◌&&◌, ◌||◌, [], ℕ, List, Bool, true};
ghost use Rattle.std.specs.Prelude.{false, not, nat_le, None, length, reverse, take, ◌-◌, ◌≢◌, ◌∷◌, Some, All};
ghost use Rattle.std.specs.Prelude.{Contains, if◌then◌else◌, map};
ghost use Rattle.sd_packet.specs.Positions.{is_moving, moved, moved_by};
ghost use Rattle.sd_packet.specs.Header.{pid_of};
ghost use Rattle.sd_site_cards.specs.SiteFields.{AreInRange, SiteFields};
ghost use Rattle.sd_site_cards.specs.CardFields.{CardFields, site_card};
ghost use Rattle.sd_spec.specs.Plan.{Plan, IsPlan, closing_number, period_of, word_of};
ghost use Rattle.sd_spec.specs.Kinds.{kind_of, is_scrambled};
ghost use Rattle.sd_spec.specs.Refused.{IsSendable, unsent_at};
ghost use Rattle.sd_spec.specs.Sent.{Item, sent, closing_of, broadcast, Cat, is_alike, item_packet};
ghost use Rattle.sd_law_broadcast.specs.Packets.{AreWholePackets, IsWholePacket, AreLong};
ghost use Rattle.sd_spec.specs.Offered.{out_from, break_from, is_before, is_mixed, says_same, part_fault};
ghost use Rattle.sd_spec.specs.Ending.{ending_of};
ghost use Rattle.sd_spec.specs.declared.ending.Ending.TheVariants.{Revoked, Opened};
ghost use Rattle.sd_law_losses.specs.Chosen.{chosen};
ghost use Rattle.std.specs.List.{list_any};
ghost use Rattle.sd_base.specs.Types.{Packet, Packets, Arrived, Pid, Position, LeafNumber, PeriodNumber, PacketNumber};
ghost use Rattle.sd_base.specs.Types.{MessageNumber};
ghost use Rattle.sd_law_losses.specs.Taken.{taken_keys, how_many};
ghost use Rattle.sd_law_losses.specs.Kept.{is_kept, has_arrived, entitles, after_cat};
ghost use Rattle.sd_law_losses.specs.Confirmed.{packet_at, upto, is_open, is_confirmed_at, confirmed, opened_by};
ghost use Rattle.sd_law_losses.specs.Confirmed.{is_revoked_in};
ghost use Rattle.sd_law_losses.specs.Endings.{ending_told, first_revoked, is_on_air, whole_ending};
ghost use Rattle.sd_law_losses.specs.Gaps.{kept_positions, are_near, has_no_gap};
ghost use Rattle.sd_tree_keys.specs.Leaves.{is_member};
ghost use Rattle.sd_tree_keys.specs.Keys.{period_key_of, control_word_of, check_value_of};
ghost use Rattle.sd_cipher.specs.Scrambling.{descrambled};
ghost use Rattle.sd_cipher.specs.Wrapping.{wrapped as under};
ghost use Rattle.sd_message.specs.EmmSpelled.{listed_entries};
ghost use Rattle.sd_message.specs.Period.{Period, emms_of};
ghost use Rattle.sd_message.specs.declared.emm.Emm.{Emm};
ghost use Rattle.sd_message.specs.EcmParts.{Message, IsMessage, parts_of};
ghost use Rattle.sd_message.specs.declared.ecm_part.EcmPart.{EcmPart};
ghost use Rattle.sd_spec.specs.Carried.{place_after, carried};
ghost use Rattle.sd_spec.specs.Messages.{period_at};
ghost use Rattle.sd_spec.specs.Items.{IsOfBroadcast};
ghost use Rattle.sd_spec.specs.declared.kind.Kind.TheVariants.{Scrambled};
ghost use Rattle.sd_law_broadcast.specs.Numbered.{numbered_message};
ghost use Rattle.sd_psi.specs.OurCat.{cat_tuning};
ghost use Rattle.sd_spec.specs.Heard.{hears};
ghost use Rattle.sd_spec.specs.Stretches.{message_told};
ghost use Rattle.sd_spec.specs.Keys.{key_from};
ghost use Rattle.sd_spec.specs.Confirmed.{Segment, unmarked};
ghost use Rattle.sd_law_losses.specs.Told.{tuning_to, heard_of};
ghost use Rattle.sd_law_losses.specs.Parts.{IsPartBetween};
ghost use Rattle.sd_spec.specs.Taken.{taken_keys};
ghost use Rattle.sd_law_losses.specs.Together.{written_out, run_break_of, run_end_of, joined_to};
ghost use Rattle.sd_law_losses.specs.Channel.{Arrival, Channel, AreRunsOf, arriving, all_sent, channel_card};
ghost use Rattle.sd_law_losses.specs.Many.{confirmed_from, opened_of_all};
ghost use Rattle.sd_law_losses.specs.Ends.{ending_of_all, whole_ending_of};
ghost use Rattle.sd_law_losses.specs.Keys.{count_keys_taken, keys_from, keys_of_all};
ghost use Rattle.sd_law_losses.specs.Switched.{ArePiecesOf};

/// A tracked position is never above the true one. If it is below by a multiple of 16, the difference stays or grows as
/// packets are lost. A position that is at most 15 above the tracked one after some packets shows that the packet
/// before them was tracked exactly.
#[tactic(auto, using(crate::proofs::Residual::shortfall_stays, crate::proofs::Residual::near_shows_exact))]
pub fn positions_are_confirmed()
    ensures stays { (pid : Pid) (near far : Position) (short : ℕ) (flags : Arrived) (packets : Packets) →
        short % 16 ≡ 0 → near + short ≤ far →
        moved_by pid near (chosen flags packets) + short ≤ moved_by pid far packets }
    ensures exact { (pid : Pid) (near far : Position) (packet : Packet) (flags : Arrived) (packets : Packets)
        → is_moving pid packet ≡ true → near ≤ far →
        moved_by pid (moved pid far packet) packets
        ≤ moved_by pid (moved pid near packet) (chosen flags packets) + 15 →
        moved pid near packet ≡ moved pid far packet }
{}

/// The tracked position is at most 15 below the true one if and only if the kept packets leave no wide gap: from the
/// start on no two neighbouring positions are more than 16 apart, and the end is at most 15 above the last of them.
#[tactic(auto, using(crate::proofs::Gaps::near_by_gaps))]
pub fn gaps_are_told()
    ensures { (pid : Pid) (start : Position) (flags : Arrived) (packets : Packets) →
        are_near start (kept_positions pid start flags packets) (moved_by pid start packets)
        ≡ nat_le (moved_by pid start packets) (moved_by pid start (chosen flags packets) + 15) }
{}

/// Whatever is lost of a broadcast, the receiver of a leaf of its site refuses nothing. It writes exactly the clear
/// packets that the messages which arrived confirm to it.
#[tactic(auto, using(crate::proofs::Theorem::none_refused, crate::proofs::Theorem::confirmed_alone))]
pub fn losses_are_confirmed()
    ensures none { (plan : Plan) (clear : Packets) (u : LeafNumber) (flags : Arrived) → IsPlan plan →
        IsSendable plan.site clear → AreWholePackets clear → u < 2 ^ plan.site.height →
        break_from (site_card plan.site u) [] (chosen flags (broadcast plan clear))
        ≡ None }
    ensures out { (plan : Plan) (clear : Packets) (u : LeafNumber) (flags : Arrived) → IsPlan plan →
        IsSendable plan.site clear → AreWholePackets clear → u < 2 ^ plan.site.height →
        out_from (site_card plan.site u) [] (chosen flags (broadcast plan clear))
        ≡ confirmed plan u clear (chosen flags (sent plan clear ++ closing_of plan clear)) }
{}

/// How a broadcast that loses packets ends depends on this: whether the CAT is kept; which messages have arrived; of
/// which of their periods all sections are kept, or one with a set that has the leaf; and how many clear packets are
/// confirmed. If it ends as revoked in a period, the leaf is revoked in it.
#[tactic(auto, using(crate::proofs::Theorem::ends_as_told, crate::proofs::Revoking::revoked_truly))]
pub fn losses_are_told()
    ensures ending { (plan : Plan) (clear : Packets) (u : LeafNumber) (flags : Arrived) → IsPlan plan →
        IsSendable plan.site clear → AreWholePackets clear → u < 2 ^ plan.site.height →
        ending_of (site_card plan.site u)
        (reverse (chosen flags (broadcast plan clear)))
        ≡ ending_told plan u clear (chosen flags (sent plan clear ++ closing_of plan clear)) }
    ensures revoked { (plan : Plan) (clear : Packets) (u : LeafNumber) (q : PeriodNumber) (flags : Arrived) →
        IsPlan plan → u < 2 ^ plan.site.height →
        ending_told plan u clear (chosen flags (sent plan clear ++ closing_of plan clear)) ≡ Revoked q →
        is_revoked_in plan u q ≡ true }
{}

/// Take two neighbouring messages that have arrived, and between which packets may be written. Of the kept packets
/// between them those that aren't scrambled are confirmed. Of the scrambled ones of a PID all are confirmed if its kept
/// packets leave no wide gap, and else none.
#[tactic(auto, using(crate::proofs::Gapless::confirmed_by_gaps))]
pub fn packets_are_confirmed_by_gaps()
    ensures { (plan : Plan) (clear : Packets) (u : LeafNumber) (kept : List Item) (a b : MessageNumber)
        (j : PacketNumber) → AreInRange plan.site →
        a < b → b ≤ closing_number plan.site (length clear) → has_arrived kept a ≡ true → has_arrived kept b ≡ true →
        ((c : MessageNumber) → a < c → c < b → has_arrived kept c ≡ false) → is_open plan u clear kept a b ≡ true →
        is_kept kept j ≡ true → a * plan.site.every ≤ j → j < upto plan clear b →
        is_confirmed_at plan u clear kept j ≡ (not (is_scrambled (kind_of (take j clear) (packet_at clear j)))
        || has_no_gap plan clear kept a b (pid_of (packet_at clear j))) }
{}

/// The confirmed packets are a part of those that the leaf is entitled to, in their order. Of a whole broadcast they
/// are all of them.
#[tactic(auto, using(crate::proofs::Opened::confirmed_are_opened, crate::proofs::AllOpened::all_are_opened))]
pub fn confirmed_packets_are_opened()
    ensures part { (plan : Plan) (clear : Packets) (u : LeafNumber) (flags : Arrived) → IsPlan plan →
        u < 2 ^ plan.site.height → (parts : List Bool)
        × (confirmed plan u clear (chosen flags (sent plan clear ++ closing_of plan clear))
        ≡ chosen parts (opened_by plan u clear)) }
    ensures whole { (plan : Plan) (clear : Packets) (u : LeafNumber) → IsPlan plan → IsSendable plan.site clear →
        AreWholePackets clear → u < 2 ^ plan.site.height →
        confirmed plan u clear (sent plan clear ++ closing_of plan clear) ≡ opened_by plan u clear }
{}

/// Of a whole broadcast the receiver of a leaf refuses nothing, and writes exactly the clear packets of the periods in
/// which the leaf isn't revoked. It ends as opened, or as revoked in the first period of the broadcast in which the
/// leaf is.
#[tactic(auto, using(crate::proofs::Theorem::whole_refused, crate::proofs::Theorem::whole_opened, crate::proofs::Theorem::whole_ended))]
pub fn whole_broadcasts_are_opened()
    ensures none { (plan : Plan) (clear : Packets) (u : LeafNumber) → IsPlan plan → IsSendable plan.site clear →
        AreWholePackets clear → u < 2 ^ plan.site.height →
        break_from (site_card plan.site u) [] (broadcast plan clear) ≡ None }
    ensures out { (plan : Plan) (clear : Packets) (u : LeafNumber) → IsPlan plan → IsSendable plan.site clear →
        AreWholePackets clear → u < 2 ^ plan.site.height →
        out_from (site_card plan.site u) [] (broadcast plan clear)
        ≡ opened_by plan u clear }
    ensures ending { (plan : Plan) (clear : Packets) (u : LeafNumber) → IsPlan plan → IsSendable plan.site clear →
        AreWholePackets clear → u < 2 ^ plan.site.height →
        ending_of (site_card plan.site u) (reverse (broadcast plan clear))
        ≡ whole_ending (first_revoked plan u clear) }
{}

/// A receiver takes a key once for each period of which a section with a set that has its leaf is kept after the CAT.
/// Of a whole broadcast that is once for each of its periods in which the leaf isn't revoked.
#[tactic(auto, using(crate::proofs::Theorem::keys_taken, crate::proofs::Theorem::whole_keys_taken))]
pub fn keys_are_taken_once()
    ensures lost { (plan : Plan) (clear : Packets) (u : LeafNumber) (flags : Arrived) → IsPlan plan →
        IsSendable plan.site clear → AreWholePackets clear → u < 2 ^ plan.site.height →
        taken_keys (site_card plan.site u) [] (chosen flags (broadcast plan clear))
        ≡ how_many (λ q. list_any (entitles plan.site.height u q)
        (after_cat (chosen flags (sent plan clear ++ closing_of plan clear)))) (period_of plan (length clear - 1) + 1) }
    ensures whole { (plan : Plan) (clear : Packets) (u : LeafNumber) → IsPlan plan → IsSendable plan.site clear →
        AreWholePackets clear → u < 2 ^ plan.site.height →
        taken_keys (site_card plan.site u) [] (broadcast plan clear)
        ≡ how_many (λ q. is_on_air plan q && not (is_revoked_in plan u q)) (period_of plan (length clear - 1) + 1) }
{}

/// A later control message of a broadcast never goes back before an earlier one.
pub fn messages_never_back()
    ensures { (plan : Plan) (clear : Packets) (a b : MessageNumber) → IsPlan plan → a < b →
        b ≤ closing_number plan.site (length clear) →
        is_before (numbered_message plan clear b) (numbered_message plan clear a) ≡ false }
{}

/// The parts of a message are numbered in their order. None of them is at fault after those before it, and all of them
/// together give the message.
pub fn parts_are_right()
    ensures some { (message : Message) → 1 ≤ length (parts_of message) }
    ensures order { (message : Message) (before : List EcmPart) (part : EcmPart) (after : List EcmPart) →
        IsMessage message → parts_of message ≡ reverse before ++ (part ∷ after) →
        IsPartBetween message before part after }
    ensures fault { (message : Message) (x : ℕ) → IsMessage message →
        part_fault (reverse (take x (parts_of message))) ≡ None }
    ensures whole { (message : Message) → message_told (reverse (parts_of message)) ≡ Some message }
{}

/// A control message has the control word of its number under the key of its period, and that word's check value.
pub fn words_are_due()
    ensures word { (plan : Plan) (clear : Packets) (a : MessageNumber) →
        under (period_key_of plan.site.master (numbered_message plan clear a).period)
        (numbered_message plan clear a).word
        (numbered_message plan clear a).wrapped ≡ control_word_of plan.site.master
        (numbered_message plan clear a).word }
    ensures check { (plan : Plan) (clear : Packets) (a : MessageNumber) →
        (numbered_message plan clear a).check ≡ check_value_of (control_word_of plan.site.master
        (numbered_message plan clear a).word) }
{}

/// All sections of a period have its number and agree on it.
pub fn sections_say_same()
    ensures period { (plan : Plan) (q : PeriodNumber) (emm : Emm) → Contains (emms_of (period_at plan q)) emm →
        emm.period ≡ q }
    ensures two { (period : Period) (a b : Emm) → Contains (emms_of period) a → Contains (emms_of period) b →
        says_same a b ≡ true }
    ensures mixed { (period : Period) (emm : Emm) (sections : List Emm) → Contains (emms_of period) emm →
        All (Contains (emms_of period)) sections → is_mixed sections emm ≡ false }
{}

/// A section of a period gives the card of a leaf the period's key if one of its sets has the leaf, and else nothing.
/// It has that key's check value.
pub fn keys_are_due()
    ensures key { (plan : Plan) (q : PeriodNumber) (u : LeafNumber) (emm : Emm) → IsPlan plan →
        u < 2 ^ plan.site.height → Contains (emms_of (period_at plan q)) emm →
        key_from (site_card plan.site u) emm ≡
        (if list_any (λ entry. is_member plan.site.height entry.name u) (listed_entries emm)
        then Some (period_key_of plan.site.master q) else None) }
    ensures check { (plan : Plan) (q : PeriodNumber) (emm : Emm) → Contains (emms_of (period_at plan q)) emm →
        emm.check ≡ check_value_of (period_key_of plan.site.master q) }
{}

/// A receiver of the site's system takes the broadcast's CAT, and no other of its packets for one.
pub fn cat_is_taken()
    ensures cat { (plan : Plan) (earlier : List Item) → IsPlan plan →
        cat_tuning plan.site.ca (item_packet plan.site earlier Cat) ≡ Some (tuning_to plan.site) }
    ensures other { (plan : Plan) (clear : Packets) (earlier : List Item) (item : Item) → IsPlan plan →
        IsSendable plan.site clear → AreLong clear → IsOfBroadcast plan clear item → is_alike Cat item ≡ false →
        cat_tuning plan.site.ca (item_packet plan.site earlier item) ≡ None }
{}

/// After the CAT is taken, a receiver hears each thing as what was sent.
pub fn items_are_heard()
    ensures { (plan : Plan) (clear : Packets) (earlier : List Item) (n : PacketNumber) (item : Item) → IsPlan plan →
        IsSendable plan.site clear → AreLong clear → IsOfBroadcast plan clear item →
        hears plan.site.height (tuning_to plan.site) n (item_packet plan.site earlier item) ≡ heard_of n item }
{}

/// A packet that was carried is what it was: a clear one without the project's descriptor, and a scrambled one under
/// its control word at its own position.
pub fn carried_packets_come_back()
    ensures clear { (site : SiteFields) (before : Packets) (packet : Packet) (segment : Segment) →
        IsWholePacket packet → unsent_at site before (length before) packet ≡ None → segment.ca ≡ site.ca →
        segment.ecm ≡ site.ecm →
        kind_of before packet ≢ Scrambled → unmarked segment (carried site before packet) ≡ packet }
    ensures scrambled { (site : SiteFields) (before : Packets) (packet : Packet) → IsWholePacket packet →
        unsent_at site before (length before) packet ≡ None → kind_of before packet ≡ Scrambled →
        descrambled (carried site before packet) (control_word_of site.master (word_of site (length before)))
        (place_after before packet) ≡ packet }
{}

/// What a receiver writes of any stream, why it refuses it, how it ends and how many keys it takes is what comes of the
/// stream's pieces, each behind the CAT by itself: the stream is cut before each message of another run.
#[tactic(auto, using(crate::proofs::Streams::out_is, crate::proofs::Streams::break_is, crate::proofs::Streams::end_is))]
pub fn streams_are_their_pieces()
    ensures out { (card : CardFields) (packets : Packets) → out_from card [] packets ≡ written_out card packets }
    ensures refused { (card : CardFields) (packets : Packets) →
        break_from card [] packets ≡ run_break_of card packets }
    ensures ending { (card : CardFields) (packets : Packets) →
        ending_of card (reverse packets) ≡ run_end_of card packets }
    ensures keys { (card : CardFields) (packets : Packets) →
        taken_keys card [] packets ≡ count_keys_taken card packets }
{}

/// Whatever is lost of broadcasts of one channel that follow one another, the receiver of a leaf refuses nothing and
/// writes exactly the clear packets that are confirmed to it, of each broadcast by itself: a part, in order, of what
/// the leaf is entitled to. It ends as the broadcasts that it is told of do, together.
#[tactic(auto, using(crate::proofs::Finishing::runs_break, crate::proofs::Finishing::runs_out))]
pub fn losses_of_runs_are_confirmed()
    ensures none { (channel : Channel) (runs : List Arrival) (u : LeafNumber) → AreRunsOf channel runs →
        u < 2 ^ channel.height →
        break_from (channel_card channel u) [] (arriving runs) ≡ None }
    ensures out { (channel : Channel) (runs : List Arrival) (u : LeafNumber) → AreRunsOf channel runs →
        u < 2 ^ channel.height →
        out_from (channel_card channel u) [] (arriving runs)
        ≡ confirmed_from false u runs }
    ensures part { (channel : Channel) (runs : List Arrival) (u : LeafNumber) → AreRunsOf channel runs →
        u < 2 ^ channel.height →
        (parts : List Bool) × (confirmed_from false u runs ≡ chosen parts (opened_of_all u runs)) }
    ensures ending { (channel : Channel) (runs : List Arrival) (u : LeafNumber) → AreRunsOf channel runs →
        u < 2 ^ channel.height →
        ending_of (channel_card channel u) (reverse (arriving runs))
        ≡ ending_of_all u runs }
{}

/// Of whole broadcasts it writes the clear packets of the periods in which the leaf is not revoked, and no others. It
/// ends opened, or revoked in the leaf's first revoked period of the first broadcast that has one.
#[tactic(auto, using(crate::proofs::Whole::whole_break, crate::proofs::Whole::whole_out))]
pub fn whole_runs_are_opened()
    ensures none { (channel : Channel) (runs : List Arrival) (u : LeafNumber) → AreRunsOf channel runs →
        u < 2 ^ channel.height →
        break_from (channel_card channel u) [] (all_sent runs) ≡ None }
    ensures out { (channel : Channel) (runs : List Arrival) (u : LeafNumber) → AreRunsOf channel runs →
        u < 2 ^ channel.height →
        out_from (channel_card channel u) [] (all_sent runs) ≡ opened_of_all u runs }
    ensures ending { (channel : Channel) (run : Arrival) (runs : List Arrival) (u : LeafNumber) →
        AreRunsOf channel (run ∷ runs) → u < 2 ^ channel.height →
        ending_of (channel_card channel u) (reverse (all_sent (run ∷ runs)))
        ≡ joined_to Opened (map (whole_ending_of u) (run ∷ runs)) }
{}

/// A switch to a spare head end and back: the same holds of pieces of broadcasts, if no two pieces that the receiver is
/// told of one after the other have one name.
#[tactic(auto, using(crate::proofs::Finishing::pieces_break, crate::proofs::Finishing::pieces_out))]
pub fn switches_are_followed()
    ensures none { (channel : Channel) (pieces : List Arrival) (u : LeafNumber) → ArePiecesOf channel pieces →
        u < 2 ^ channel.height →
        break_from (channel_card channel u) [] (arriving pieces) ≡ None }
    ensures out { (channel : Channel) (pieces : List Arrival) (u : LeafNumber) → ArePiecesOf channel pieces →
        u < 2 ^ channel.height →
        out_from (channel_card channel u) [] (arriving pieces)
        ≡ confirmed_from false u pieces }
    ensures ending { (channel : Channel) (pieces : List Arrival) (u : LeafNumber) → ArePiecesOf channel pieces →
        u < 2 ^ channel.height →
        ending_of (channel_card channel u) (reverse (arriving pieces))
        ≡ ending_of_all u pieces }
{}

/// Of broadcasts of one channel that follow one another a receiver takes a key once for each period of each broadcast
/// of which a section with a set that has its leaf is kept after a CAT, whatever else is lost. So it does of pieces of
/// broadcasts, at a switch to a spare head end and back. Of whole broadcasts that is once for each period of each
/// broadcast in which the leaf is not revoked.
#[tactic(auto, using(crate::proofs::Finishing::runs_taken, crate::proofs::Whole::whole_taken))]
pub fn keys_of_runs_are_taken_once()
    ensures lost { (channel : Channel) (runs : List Arrival) (u : LeafNumber) → AreRunsOf channel runs →
        u < 2 ^ channel.height →
        taken_keys (channel_card channel u) [] (arriving runs) ≡ keys_from false u runs }
    ensures switched { (channel : Channel) (pieces : List Arrival) (u : LeafNumber) → ArePiecesOf channel pieces →
        u < 2 ^ channel.height →
        taken_keys (channel_card channel u) [] (arriving pieces)
        ≡ keys_from false u pieces }
    ensures whole { (channel : Channel) (runs : List Arrival) (u : LeafNumber) → AreRunsOf channel runs →
        u < 2 ^ channel.height →
        taken_keys (channel_card channel u) [] (all_sent runs) ≡ keys_of_all u runs }
{}

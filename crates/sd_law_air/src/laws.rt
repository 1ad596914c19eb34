//! Laws on the packets of a clear stream that are sent by a head end that stays on the air.

ghost use Rattle.std.specs.Prelude.{◌≡◌, ◌+◌, ◌-◌, ◌*◌, ◌^◌, ◌<◌, ◌≤◌, ◌++◌, ◌↔◌, [], true, length, Some, None};
ghost use Rattle.std.specs.Prelude.{IsSome, count_by};
ghost use Rattle.std.specs.List.{concat};
ghost use Rattle.sd_base.specs.Types.{Bytes, Packets, PacketNumber, Arrived};
ghost use Rattle.sd_message.specs.declared.clear_fault.ClearFault.{ClearFault};
ghost use Rattle.sd_site_cards.specs.SiteFields.{AreInRange, SiteFields};
ghost use Rattle.sd_spec.specs.Counting.{is_marked};
ghost use Rattle.sd_spec.specs.Plan.{Plan, crypto_length, word_of};
ghost use Rattle.sd_spec.specs.Refused.{IsClear, IsSendable, is_used_up};
ghost use Rattle.sd_spec.specs.Sent.{body, broadcast};
ghost use Rattle.sd_spec.specs.Aired.{aired, aired_from, ended_from, left_from, none_left};
ghost use Rattle.sd_law_losses.specs.Chosen.{chosen};
ghost use Rattle.sd_law_broadcast.specs.Packets.{AreWholePackets};
ghost use Rattle.sd_law_broadcast.specs.Synced.{AreSynced};
ghost use Rattle.sd_law_broadcast.specs.Runs.{HasWords};
ghost use Rattle.sd_law_air.specs.Sent.{AreAmong, AreUnmarked, sent_flags};
ghost use Rattle.sd_law_air.specs.Ended.{EndsBefore};
ghost use Rattle.sd_law_air.specs.Counted.{IsFirstRefused, is_no_pat};

/// Whatever comes, each packet that is sent can be sent after those before it, and none is marked. They are packets of
/// the stream in its order, so they are whole and begin with the sync byte if all of the stream do.
#[tactic(auto, using(crate::proofs::Sendable::aired_sendable, crate::proofs::Sendable::aired_unmarked, crate::proofs::Sendable::aired_chosen))]
pub fn aired_streams_are_sendable()
    ensures sendable { (site : SiteFields) (packets : Packets) → IsSendable site (aired site packets) }
    ensures unmarked { (site : SiteFields) (packets : Packets) → AreUnmarked (aired site packets) }
    ensures chosen { (site : SiteFields) (packets : Packets) →
        chosen (sent_flags site [] 0 packets) packets ≡ aired site packets }
    ensures whole { (site : SiteFields) (packets : Packets) → AreWholePackets packets →
        AreWholePackets (aired site packets) }
    ensures synced { (site : SiteFields) (packets : Packets) → AreSynced packets → AreSynced (aired site packets) }
{}

/// If each packet of a stream can be sent and none is marked, all of them are sent, and the broadcast ends with the
/// stream. If no packet of it is refused, nothing is counted as left out.
#[tactic(auto, using(crate::proofs::Whole::aired_whole, crate::proofs::Whole::unended, crate::proofs::Whole::none_left_out))]
pub fn clear_streams_are_aired_whole()
    ensures whole { (site : SiteFields) (clear : Packets) → IsSendable site clear → AreUnmarked clear →
        aired site clear ≡ clear }
    ensures unended { (site : SiteFields) (clear : Packets) → IsSendable site clear → AreUnmarked clear →
        ended_from site [] 0 clear ≡ None }
    ensures none_left { (site : SiteFields) (clear : Packets) → IsClear site clear → AreUnmarked clear →
        left_from site [] 0 clear ≡ none_left }
{}

/// What is left out is as if it weren't there: all that is sent is sent if it stands alone, and so it is of any choice
/// of
/// the packets that has it.
pub fn what_is_left_out_is_as_if_not_there()
    ensures again { (site : SiteFields) (packets : Packets) → aired site (aired site packets) ≡ aired site packets }
    ensures between { (site : SiteFields) (flags : Arrived) (packets : Packets) →
        AreAmong (sent_flags site [] 0 packets) flags → aired site (chosen flags packets) ≡ aired site packets }
{}

/// A broadcast ends before the end of its stream exactly at the first packet that would be sent if a number and a
/// control word were left for it. Behind it nothing is sent. What is sent has fewer than 2^32 packets, and no more than
/// the crypto periods of the site's control words have.
#[tactic(auto, using(crate::proofs::Ending::used_up, crate::proofs::Ending::none_behind, crate::proofs::Ending::aired_few, crate::proofs::Ending::aired_words, crate::proofs::Ending::aired_most))]
pub fn the_end_comes_of_a_packet_that_would_be_sent()
    ensures ends { (site : SiteFields) (packets : Packets) (k : PacketNumber) →
        (ended_from site [] 0 packets ≡ Some k) ↔ EndsBefore site packets k }
    ensures used_up { (site : SiteFields) (packets : Packets) (k : PacketNumber) →
        ended_from site [] 0 packets ≡ Some k → is_used_up site (length (aired site packets)) ≡ true }
    ensures behind { (site : SiteFields) (packets more : Packets) (k : PacketNumber) →
        ended_from site [] 0 packets ≡ Some k → aired site (packets ++ more) ≡ aired site packets }
    ensures few { (site : SiteFields) (packets : Packets) → length (aired site packets) < 2 ^ 32 }
    ensures words { (site : SiteFields) (packets : Packets) (k : PacketNumber) → k < length (aired site packets) →
        word_of site k ≤ site.last_word }
    ensures most { (site : SiteFields) (packets : Packets) → AreInRange site → HasWords site →
        length (aired site packets) ≤ (site.last_word + 1 - site.first_word) * crypto_length site }
{}

/// What was read decides what is sent of it. The packets that are sent of the first packets of a stream are the first
/// ones that are sent of it, and the broadcast of the stream begins with their broadcast without its closing message.
#[tactic(auto, using(crate::proofs::Reading::aired_grows, crate::proofs::Reading::body_grows, crate::proofs::Reading::bytes_grow))]
pub fn what_was_read_decides()
    ensures packets { (site : SiteFields) (some more : Packets) →
        (rest : Packets) × (aired site (some ++ more) ≡ aired site some ++ rest) }
    ensures body { (plan : Plan) (some more : Packets) →
        (rest : Packets) × (body plan (aired plan.site (some ++ more)) ≡ body plan (aired plan.site some) ++ rest) }
    ensures bytes { (plan : Plan) (some more : Packets) →
        (rest : Bytes) × (concat (broadcast plan (aired plan.site (some ++ more)))
        ≡ concat (body plan (aired plan.site some)) ++ rest) }
{}

/// Each packet up to the end of the broadcast is marked, refused or sent, and counted so. If a packet is refused, the
/// rule
/// that the first one breaks is told, with its number among all packets, and else none is. Of the packets that are sent
/// those are counted that are no PAT, though they are on PID 0 with a payload.
#[tactic(auto, using(crate::proofs::Counts::counted, crate::proofs::Counts::counted_upto, crate::proofs::Counts::marked_counted, crate::proofs::Counts::first_told, crate::proofs::Refusing::first_refused, crate::proofs::Counts::pats_counted))]
pub fn each_packet_is_counted()
    ensures all { (site : SiteFields) (packets : Packets) → ended_from site [] 0 packets ≡ None →
        (left_from site [] 0 packets).marked + (left_from site [] 0 packets).refused + length (aired site packets)
        ≡ length packets }
    ensures upto { (site : SiteFields) (packets : Packets) (k : PacketNumber) → ended_from site [] 0 packets ≡ Some k →
        (left_from site [] 0 packets).marked + (left_from site [] 0 packets).refused + length (aired site packets)
        ≡ k }
    ensures marked { (site : SiteFields) (packets : Packets) → ended_from site [] 0 packets ≡ None →
        (left_from site [] 0 packets).marked ≡ count_by is_marked packets }
    ensures first { (site : SiteFields) (packets : Packets) →
        IsSome (left_from site [] 0 packets).first ↔ (0 < (left_from site [] 0 packets).refused) }
    ensures told { (site : SiteFields) (packets : Packets) (fault : ClearFault) →
        (left_from site [] 0 packets).first ≡ Some fault → IsFirstRefused site packets fault }
    ensures pats { (site : SiteFields) (packets : Packets) →
        (left_from site [] 0 packets).pats ≡ count_by is_no_pat (aired site packets) }
{}

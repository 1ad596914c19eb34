//! What is known of what a broadcast sends, and what is taken of packets that stand one after the other.

ghost use Rattle.std.specs.Prelude.{◌≡◌, ◌≤◌, None, length, ◌+◌, ◌-◌, ◌*◌, ◌/◌, ◌%◌, ◌^◌, ◌<◌, ◌++◌, ◌∷◌, [], ℕ, Bool};
ghost use Rattle.std.specs.Prelude.{◌≢◌, ◌↔◌, true, false, All, Contains, drop, get_or, take};
ghost use Rattle.std.specs.List.{concat};
ghost use Rattle.sd_base.specs.Types.{Bytes, Packets, Packet, Pid, Position, PeriodNumber, WordNumber, PacketNumber};
ghost use Rattle.sd_base.specs.Types.{MessageNumber};
ghost use Rattle.sd_engine.specs.Stream.{packets_of, break_of};
ghost use Rattle.sd_engine.specs.Driving.{most_packets};
ghost use Rattle.sd_engine.specs.Taken.{Whole, packets_taken, end_of};
ghost use Rattle.sd_spec.specs.Plan.{Plan, IsPlan, word_of, period_of, since_of, closing_number};
ghost use Rattle.sd_spec.specs.Refused.{IsClear, IsSendable, pat_wrong, unsent_at};
ghost use Rattle.sd_spec.specs.Sent.{body, broadcast, Controls, Entitles, sent_from, closing_of};
ghost use Rattle.sd_law_broadcast.specs.Packets.{AreWholePackets, IsWholePacket, AreLong};
ghost use Rattle.sd_law_broadcast.specs.Synced.{AreSynced, AreBytes};
ghost use Rattle.sd_packet.specs.Header.{pid_of, scrambling_of};
ghost use Rattle.sd_packet.specs.Positions.{is_placed, moved};
ghost use Rattle.sd_site_cards.specs.SiteFields.{SiteFields, AreInRange, run_name_of};
ghost use Rattle.sd_message.specs.EmmForm.{AreSets};
ghost use Rattle.sd_message.specs.Period.{IsPeriod};
ghost use Rattle.sd_message.specs.declared.emm.Emm.{Emm};
ghost use Rattle.sd_message.specs.EcmVersions.{most_places};
ghost use Rattle.sd_message.specs.EcmParts.{IsMessage, parts_of};
ghost use Rattle.sd_message.specs.declared.ecm_part.EcmPart.{EcmPart};
ghost use Rattle.sd_spec.specs.Kinds.{kind_of, moved_pids};
ghost use Rattle.sd_spec.specs.Carried.{carried};
ghost use Rattle.sd_spec.specs.Messages.{period_at, message_at};
ghost use Rattle.sd_spec.specs.Items.{IsOfBroadcast};
ghost use Rattle.sd_spec.specs.declared.kind.Kind.TheVariants.{Passed};
ghost use Rattle.sd_law_broadcast.specs.Accepted.{IsAccepted};
ghost use Rattle.sd_law_broadcast.specs.Narrowed.{up_to, plan_up_to};
ghost use Rattle.sd_law_broadcast.specs.Named.{sets_named, NamesPeriod};
ghost use Rattle.sd_law_broadcast.specs.Numbered.{numbered_message};
ghost use Rattle.sd_law_broadcast.specs.Rest.{IsOfRest};
ghost use Rattle.sd_law_broadcast.specs.Headers.{control_in, IsCarriedWith};

/// Packets one after the other are a stream of these and no others, with no break; where they are no more than a
/// stream may have, all of them are taken, and it ends whole.
#[tactic(auto, using(crate::proofs::Joined::packets_again, crate::proofs::Joined::none_broken, crate::proofs::Joined::taken_again, crate::proofs::Joined::joined_whole))]
pub fn joined_packets_are_taken()
    ensures packets { (packets : Packets) → AreSynced packets → packets_of (concat packets) ≡ packets }
    ensures unbroken { (packets : Packets) → AreSynced packets → break_of (concat packets) ≡ None }
    ensures taken { (packets : Packets) → AreSynced packets → length packets ≤ most_packets →
        packets_taken (concat packets) ≡ packets }
    ensures whole { (packets : Packets) → AreSynced packets → length packets ≤ most_packets →
        end_of (concat packets) ≡ Whole }
{}

/// What is taken of any bytes is packets, no more than a stream may have; of a stream that ends whole they are all of
/// its bytes, one after the other.
#[tactic(auto, using(crate::proofs::Cut::taken_synced, crate::proofs::Cut::taken_few, crate::proofs::Cut::taken_joined, crate::proofs::Cut::taken_whole))]
pub fn taken_packets_join()
    ensures packets { (bytes : Bytes) → AreSynced (packets_taken bytes) }
    ensures few { (bytes : Bytes) → length (packets_taken bytes) ≤ most_packets }
    ensures joined { (bytes : Bytes) → end_of bytes ≡ Whole → concat (packets_taken bytes) ≡ bytes }
    ensures bytes { (bytes : Bytes) → AreBytes bytes → AreWholePackets (packets_taken bytes) }
{}

/// The packets of a broadcast are ones that a stream may have, and no more than it may; and so are those of its body.
#[tactic(auto, using(crate::proofs::Synced::broadcast_synced, crate::proofs::Synced::body_synced, crate::proofs::Counted::broadcast_short, crate::proofs::Counted::body_short))]
pub fn broadcasts_fit_streams()
    ensures packets { (plan : Plan) (clear : Packets) → IsPlan plan → IsSendable plan.site clear →
        AreWholePackets clear → AreSynced clear → AreSynced (broadcast plan clear) }
    ensures few { (plan : Plan) (clear : Packets) → IsPlan plan → IsSendable plan.site clear →
        length (broadcast plan clear) ≤ most_packets }
    ensures body_packets { (plan : Plan) (clear : Packets) → IsPlan plan → IsSendable plan.site clear →
        AreWholePackets clear → AreSynced clear → AreSynced (body plan clear) }
    ensures body_few { (plan : Plan) (clear : Packets) → IsPlan plan → IsSendable plan.site clear →
        length (body plan clear) ≤ most_packets }
{}

/// Of the file that is a broadcast's packets one after the other exactly these packets are taken, and it ends whole;
/// and so of a file that is its body.
#[tactic(auto, using(crate::proofs::Taken::broadcast_taken, crate::proofs::Taken::body_taken))]
pub fn broadcasts_are_taken()
    ensures whole { (plan : Plan) (clear : Packets) → IsPlan plan → IsSendable plan.site clear →
        AreWholePackets clear → AreSynced clear →
        (packets_taken (concat (broadcast plan clear)) ≡ broadcast plan clear)
        × (end_of (concat (broadcast plan clear)) ≡ Whole) }
    ensures body { (plan : Plan) (clear : Packets) → IsPlan plan → IsSendable plan.site clear →
        AreWholePackets clear → AreSynced clear →
        (packets_taken (concat (body plan clear)) ≡ body plan clear) × (end_of (concat (body plan clear)) ≡ Whole) }
{}

/// A clear stream is one of which each packet can be sent, and each that is to be a PAT is one by itself.
pub fn clear_streams_are_sendable()
    ensures sendable { (site : SiteFields) (clear : Packets) → IsClear site clear → IsSendable site clear }
    ensures clear { (site : SiteFields) (clear : Packets) →
        IsClear site clear ↔ (IsSendable site clear × All (λ packet. pat_wrong packet ≡ None) clear) }
{}

/// If each packet of a clear stream can be sent, so can its first packets, and the stream goes on as long as the next
/// packet can be sent. Such a packet breaks no rule but that on PATs.
#[tactic(auto, using(crate::proofs::Clear::prefix_clear, crate::proofs::Clear::take_clear, crate::proofs::Clear::next_clear, crate::proofs::Clear::more_clear, crate::proofs::Clear::each_numbered))]
pub fn clear_streams_go_on()
    ensures prefix { (site : SiteFields) (xs ys : Packets) → IsSendable site (xs ++ ys) → IsSendable site xs }
    ensures first { (site : SiteFields) (clear : Packets) (k : PacketNumber) → IsSendable site clear → IsSendable site
        (take k clear) }
    ensures next { (site : SiteFields) (before : Packets) (packet : Packet) →
        IsSendable site (before ++ packet ∷ []) → unsent_at site before (length before) packet ≡ None }
    ensures more { (site : SiteFields) (before : Packets) (packet : Packet) → IsSendable site before →
        unsent_at site before (length before) packet ≡ None → IsSendable site (before ++ packet ∷ []) }
    ensures each { (site : SiteFields) (clear : Packets) (k : PacketNumber) → IsSendable site clear → k < length clear →
        unsent_at site (take k clear) k (get_or clear k []) ≡ None }
    ensures rules { (site : SiteFields) (before : Packets) (packet : Packet) →
        unsent_at site before (length before) packet ≡ None → IsAccepted site before packet }
{}

/// If each packet of a clear stream can be sent, it has fewer than 2^32 packets, no more than 256 PIDs with positions
/// that moved, and no control word above the site's last.
pub fn clear_streams_are_bounded()
    ensures packets { (site : SiteFields) (clear : Packets) → IsSendable site clear → length clear < 2 ^ 32 }
    ensures pids { (site : SiteFields) (clear : Packets) → IsSendable site clear →
        length (moved_pids clear) ≤ most_places }
    ensures words { (site : SiteFields) (clear : Packets) (k : PacketNumber) → IsSendable site clear →
        k < length clear → word_of site k ≤ site.last_word }
{}

/// The entitlements of each period below 2^32 are a period's, and their sets may stand at the site's height; each
/// packet is of such a period.
pub fn periods_fit()
    ensures form { (plan : Plan) (q : PeriodNumber) → IsPlan plan → q < 2 ^ 32 → IsPeriod (period_at plan q) }
    ensures sets { (plan : Plan) (q : PeriodNumber) → IsPlan plan →
        AreSets plan.site.height (length (period_at plan q).entries) (period_at plan q).entries }
    ensures fits { (plan : Plan) (k : PacketNumber) → IsPlan plan → period_of plan k < 2 ^ 32 }
{}

/// The control messages of a clear stream are messages, with at most 256 positions: whatever their numbers and those of
/// their control words below 2^32, and so those before packets and the closing one.
pub fn messages_fit()
    ensures any { (plan : Plan) (before : Packets) (a : MessageNumber) (k : PacketNumber) (closing : Bool) →
        IsPlan plan → IsSendable plan.site before → a < 2 ^ 32 → word_of plan.site k < 2 ^ 32 →
        IsMessage (message_at plan before a k closing) }
    ensures before { (plan : Plan) (before : Packets) → IsPlan plan → IsSendable plan.site before →
        word_of plan.site (length before) < 2 ^ 32 →
        IsMessage (message_at plan before (length before / plan.site.every) (length before) false) }
    ensures closing { (plan : Plan) (clear : Packets) → IsPlan plan → IsSendable plan.site clear →
        IsMessage (message_at plan clear (closing_number plan.site (length clear)) (length clear - 1) true) }
{}

/// A broadcast names, in the sections of entitlements that are read from it, the cover of each period that it reaches:
/// disjoint sets that have just the leaves that are entitled in the period, one set where none is revoked and at most
/// 2r - 1 where r are. No revoked leaf is in one of them, or reaches a label or the key of one.
pub fn covers_are_named()
    ensures { (plan : Plan) (clear : Packets) (q : PeriodNumber) → IsPlan plan → IsSendable plan.site clear →
        AreLong clear → plan.site.first_period ≤ q → q ≤ period_of plan (length clear - 1) →
        NamesPeriod plan q (sets_named plan.site.height plan.site.emm q (broadcast plan clear)) }
{}

/// Each period from the site's first up to that of a packet is the one of a packet up to it.
pub fn periods_are_reached()
    ensures { (plan : Plan) (k : PacketNumber) (q : PeriodNumber) → AreInRange plan.site → plan.site.first_period ≤ q →
        q ≤ period_of plan k → (j : PacketNumber) × (j ≤ k) × (period_of plan j ≡ q) }
{}

/// The control messages of a broadcast by their numbers: the one before each e-th packet, and the closing one; each
/// part that is sent is of one of them. Each tells from which number on its control word holds.
#[tactic(auto, using(crate::proofs::Numbers::message_numbered, crate::proofs::Numbers::numbered_before, crate::proofs::Numbers::numbered_closing, crate::proofs::Numbers::numbered_number, crate::proofs::Numbers::numbered_since, crate::proofs::Numbers::numbered_fits, crate::proofs::Numbers::parts_numbered))]
pub fn messages_are_numbered()
    ensures at { (plan : Plan) (clear : Packets) (k : PacketNumber) → AreInRange plan.site → k < length clear →
        k % plan.site.every ≡ 0 →
        message_at plan (take k clear) (k / plan.site.every) k false ≡ numbered_message plan clear
        (k / plan.site.every) }
    ensures before { (plan : Plan) (clear : Packets) (a : MessageNumber) → a < closing_number plan.site (length clear) →
        numbered_message plan clear a ≡ message_at plan (take (a * plan.site.every) clear) a (a * plan.site.every)
        false }
    ensures closing { (plan : Plan) (clear : Packets) →
        numbered_message plan clear (closing_number plan.site (length clear))
        ≡ message_at plan clear (closing_number plan.site (length clear)) (length clear - 1) true }
    ensures number { (plan : Plan) (clear : Packets) (a : MessageNumber) → (numbered_message plan clear a).number ≡ a }
    ensures since { (plan : Plan) (clear : Packets) (a : MessageNumber) →
        (numbered_message plan clear a).since ≡ since_of plan.site.messages plan.site.cryptos a }
    ensures fits { (plan : Plan) (clear : Packets) (a : MessageNumber) → IsPlan plan → IsSendable plan.site clear →
        a ≤ closing_number plan.site (length clear) → IsMessage (numbered_message plan clear a) }
    ensures parts { (plan : Plan) (clear : Packets) (one : EcmPart) → AreInRange plan.site →
        IsOfBroadcast plan clear (Controls one) →
        (a : MessageNumber) × (a ≤ closing_number plan.site (length clear)) ×
        Contains (parts_of (numbered_message plan clear a)) one }
{}

/// What is sent from a packet on is the CAT, sections of its period or later ones, parts of messages that stand before
/// it or later packets, the closing message, and it and later packets.
pub fn what_is_sent_comes_in_order()
    ensures { (plan : Plan) (clear : Packets) (k : PacketNumber) → k ≤ length clear →
        All (IsOfRest plan clear k) (sent_from plan (take k clear) (drop k clear) ++ closing_of plan clear) }
{}

/// The last word that a site may use is in no packet that is sent. If each packet of a clear stream can be sent, so it
/// can with another last word, if none of the packets has a word above that.
pub fn last_word_is_a_bound()
    ensures sent { (plan : Plan) (clear : Packets) (x : WordNumber) →
        broadcast (plan_up_to x plan) clear ≡ broadcast plan clear }
    ensures fewer_words { (site : SiteFields) (clear : Packets) (x : WordNumber) → IsSendable site clear →
        ((k : PacketNumber) → k < length clear → word_of site k ≤ x) → IsSendable (up_to x site) clear }
{}

/// A clear packet is carried under its own header but for transport_scrambling_control, which tells whether it is
/// scrambled and under which control word. So it moves positions as it did.
pub fn headers_are_carried()
    ensures pid { (site : SiteFields) (before : Packets) (packet : Packet) → length packet ≡ 188 →
        pid_of (carried site before packet) ≡ pid_of packet }
    ensures header { (site : SiteFields) (before : Packets) (packet : Packet) → IsWholePacket packet →
        scrambling_of packet ≡ 0 →
        IsCarriedWith (control_in (kind_of before packet) (word_of site (length before))) packet
        (carried site before packet) }
    ensures moved { (control : ℕ) (pid : Pid) (position : Position) (old new : Packet) → IsCarriedWith control old new →
        moved pid position new ≡ moved pid position old }
    ensures placed { (before : Packets) (packet : Packet) → kind_of before packet ≢ Passed →
        is_placed packet ≡ true }
{}

/// Each section of entitlements and each part of a control message that is sent names its run: by the site's first
/// control word in version 3, and not at all in versions 1 and 2.
#[tactic(auto, using(crate::proofs::Runs::section_names, crate::proofs::Runs::part_names))]
pub fn messages_name_their_run()
    ensures sections { (plan : Plan) (clear : Packets) (emm : Emm) → IsOfBroadcast plan clear (Entitles emm) →
        emm.run ≡ run_name_of plan.site }
    ensures parts { (plan : Plan) (clear : Packets) (part : EcmPart) → IsOfBroadcast plan clear (Controls part) →
        part.run ≡ run_name_of plan.site }
{}

//! What the schedule of a broadcast and the packets before a packet come to.

ghost use Rattle.std.specs.Prelude.{◌≡◌, ◌⊎◌, ◌+◌, ◌-◌, ◌*◌, ◌/◌, ◌%◌, ◌^◌, ◌<◌, ◌≤◌, ◌++◌, ◌∷◌, [], ℕ, List, Some};
ghost use Rattle.std.specs.Prelude.{All, true, false, length, take};
ghost use Rattle.std.specs.Prelude.{if◌then◌else◌};
ghost use Rattle.std.specs.List.{concat};
ghost use Rattle.sd_base.specs.Types.{Packet, Packets, PacketNumber, MessageNumber};
ghost use Rattle.sd_packet.specs.Header.{pid_of};
ghost use Rattle.sd_packet.specs.Positions.{is_placed};
ghost use Rattle.sd_site_cards.specs.SiteFields.{SiteFields, AreInRange};
ghost use Rattle.sd_book.specs.Commands.{last_period};
ghost use Rattle.sd_spec.specs.Sent.{Item, tables_at, added, sent, sent_from, closing_of, body, sent_bytes_from};
ghost use Rattle.sd_spec.specs.Items.{IsOfBroadcast};
ghost use Rattle.sd_spec.specs.Plan.{Plan, IsPlan, crypto_length, crypto_of, word_of, period_of, since_of};
ghost use Rattle.sd_spec.specs.Plan.{closing_number};
ghost use Rattle.sd_spec.specs.Kinds.{is_current_pat, pat_in_force, has_moved, moved_pids, put_in};

/// Crypto periods, the numbers of control words and periods never fall. The crypto period after one is the next, and
/// its period the same or the next. The first packet is of the site's first period, and each packet of that one or of
/// one up to the book's last. Periods have numbers of 4 bytes.
#[tactic(auto, using(crate::proofs::Scheduling::never_fall))]
pub fn periods_never_fall()
    ensures cryptos { (site : SiteFields) (j k : PacketNumber) → AreInRange site → j ≤ k →
        crypto_of site j ≤ crypto_of site k }
    ensures words { (site : SiteFields) (j k : PacketNumber) → AreInRange site → j ≤ k →
        word_of site j ≤ word_of site k }
    ensures periods { (plan : Plan) (j k : PacketNumber) → AreInRange plan.site → j ≤ k →
        period_of plan j ≤ period_of plan k }
    ensures next_crypto { (site : SiteFields) (k : PacketNumber) → AreInRange site →
        crypto_of site (k + crypto_length site) ≡ crypto_of site k + 1 }
    ensures next_period { (plan : Plan) (k : PacketNumber) → AreInRange plan.site →
        period_of plan (k + crypto_length plan.site) ≤ period_of plan k + 1 }
    ensures first { (plan : Plan) → period_of plan 0 ≡ plan.site.first_period }
    ensures last { (plan : Plan) (k : PacketNumber) →
        (period_of plan k ≡ plan.site.first_period) ⊎ (period_of plan k ≤ last_period plan.commands) }
    ensures fits { (plan : Plan) (k : PacketNumber) → IsPlan plan → period_of plan k < 2 ^ 32 }
{}

/// A packet is of the crypto period and of the period with whose first packet its crypto period begins.
#[tactic(auto, using(sd_spec::proofs::Schedule::crypto_begins, sd_spec::proofs::Schedule::period_begins))]
pub fn crypto_periods_begin()
    ensures crypto { (site : SiteFields) (k : PacketNumber) → AreInRange site →
        crypto_of site (k - k % crypto_length site) ≡ crypto_of site k }
    ensures period { (plan : Plan) (k : PacketNumber) → AreInRange plan.site →
        period_of plan (k - k % crypto_length plan.site) ≡ period_of plan k }
{}

/// The number from which on a message's control word holds is below its own, in both versions, and all packets from
/// that message on up to this one are of one crypto period and have one control word.
#[tactic(auto, using(sd_spec::proofs::Schedule::since_is_below, sd_spec::proofs::Schedule::same_crypto, sd_spec::proofs::Schedule::same_word))]
pub fn words_hold_since()
    ensures below { (version cryptos : ℕ) (b : MessageNumber) → 0 < b → since_of version cryptos b < b }
    ensures same { (site : SiteFields) (version : ℕ) (a b : MessageNumber) (j : PacketNumber) → AreInRange site →
        since_of version site.cryptos b ≤ a → a < b → a * site.every ≤ j → j < b * site.every →
        crypto_of site j ≡ crypto_of site (a * site.every) }
    ensures word { (site : SiteFields) (version : ℕ) (a b : MessageNumber) (j : PacketNumber) → AreInRange site →
        since_of version site.cryptos b ≤ a → a < b → a * site.every ≤ j → j < b * site.every →
        word_of site j ≡ word_of site (a * site.every) }
{}

/// The closing message has the number after those that stand before packets.
#[tactic(auto, using(crate::proofs::Scheduling::closing_last))]
pub fn the_closing_is_last()
    ensures all { (site : SiteFields) (m : ℕ) → AreInRange site → m ≤ closing_number site m * site.every }
    ensures above { (site : SiteFields) (m : ℕ) → AreInRange site → 0 < m →
        (m - 1) / site.every < closing_number site m }
    ensures needed { (site : SiteFields) (m : ℕ) (a : MessageNumber) → AreInRange site → a < closing_number site m →
        a * site.every < m }
    ensures none { (site : SiteFields) → AreInRange site → closing_number site 0 ≡ 0 }
{}

/// After a current PAT it is the one in force, and after any other packet the one before is.
#[tactic(auto, using(sd_spec::proofs::Following::pat_next))]
pub fn the_last_current_pat_is_in_force()
    ensures { (before : Packets) (packet : Packet) → pat_in_force (before ++ packet ∷ []) ≡
        (if is_current_pat packet then Some packet else pat_in_force before) }
{}

/// A packet with a position puts its PID among those that have moved, unless it is there.
#[tactic(auto, using(sd_spec::proofs::Following::moved_first, sd_spec::proofs::Following::moved_again, sd_spec::proofs::Following::moved_unplaced))]
pub fn one_pid_moves()
    ensures first { (before : Packets) (packet : Packet) → is_placed packet ≡ true →
        has_moved before (pid_of packet) ≡ false →
        moved_pids (before ++ packet ∷ []) ≡ put_in (pid_of packet) (moved_pids before) }
    ensures again { (before : Packets) (packet : Packet) → has_moved before (pid_of packet) ≡ true →
        moved_pids (before ++ packet ∷ []) ≡ moved_pids before }
    ensures unplaced { (before : Packets) (packet : Packet) → is_placed packet ≡ false →
        moved_pids (before ++ packet ∷ []) ≡ moved_pids before }
{}

/// What is sent for packets after others is what is sent for each in its turn, so what was sent stays as it was.
#[tactic(auto, using(sd_spec::proofs::Sending::sent_more, sd_spec::proofs::Sending::sent_in_turn, sd_spec::proofs::Bodies::body_bytes))]
pub fn packets_are_sent_in_turn()
    ensures more { (plan : Plan) (before : Packets) (packet : Packet) →
        sent plan (before ++ packet ∷ []) ≡ sent plan before ++ added plan before packet }
    ensures turn { (plan : Plan) (before xs ys : Packets) →
        sent_from plan before (xs ++ ys) ≡ sent_from plan before xs ++ sent_from plan (before ++ xs) ys }
    ensures bytes { (plan : Plan) (clear : Packets) → concat (body plan clear) ≡ sent_bytes_from plan [] clear }
{}

/// Each thing that is sent for a clear stream is the CAT, a section of a period's entitlements, a part of a message in
/// its place, or a clear packet as it is carried.
#[tactic(auto, using(sd_spec::proofs::Items::all_are_of_broadcast))]
pub fn all_is_of_the_broadcast()
    ensures { (plan : Plan) (clear : Packets)
        → All (IsOfBroadcast plan clear) (sent plan clear ++ closing_of plan clear) }
{}

/// The CAT and the entitlements of a packet's period stand where its crypto period begins.
#[tactic(auto, using(sd_spec::proofs::Standing::tables_stand))]
pub fn tables_stand_before_packets()
    ensures { (plan : Plan) (clear : Packets) (k : PacketNumber) → k < length clear →
        (later : List Item) × (sent plan (take (k + 1) clear) ≡ sent plan (take (k - k % crypto_length plan.site) clear)
        ++ (tables_at plan (k - k % crypto_length plan.site) ++ later)) }
{}

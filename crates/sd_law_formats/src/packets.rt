//! What positions and packed sections come to, for crates that number, write and read packets.

ghost use Rattle.std.specs.Prelude.{◌≡◌, ◌+◌, ◌*◌, ◌%◌, ◌<◌, ◌≤◌, ◌↔◌, ℕ, true, false, List, [], ◌∷◌, ◌++◌};
ghost use Rattle.std.specs.Prelude.{length, slice_index, slice_index_or, slice_set, take};
ghost use Rattle.std.specs.List.{list_any};
ghost use Rattle.sd_packet.specs.Header.{counter_of, payload_start_of};
ghost use Rattle.sd_packet.specs.Packing.{section_packet, IsSectionPacket};
ghost use Rattle.sd_packet.specs.Positions.{advanced, IsNextPosition, is_moving, moved, moved_by, first_position};
ghost use Rattle.sd_packet.specs.Positions.{position_of};

/// A step rises by 1 to 16, to a number that equals the counter mod 16, and no other number is so.
#[tactic(auto, using(sd_packet::proofs::Positions::advanced_is_next, sd_packet::proofs::Positions::next_is_advanced))]
pub fn a_step_rises()
    ensures next { (position counter : ℕ) → counter < 16 → IsNextPosition position counter (advanced position counter) }
    ensures alone { (position counter next : ℕ) → counter < 16 → IsNextPosition position counter next →
        next ≡ advanced position counter }
{}

/// A position after one packet more is that before it, moved by the packet.
#[tactic(auto, using(sd_packet::proofs::Positions::one_more, sd_packet::proofs::Positions::next_position))]
pub fn one_packet_more()
    ensures after { (pid : ℕ) (packets : List (List ℕ)) (packet : List ℕ) →
        position_of pid (packets ++ packet ∷ []) ≡ moved pid (position_of pid packets) packet }
    ensures at { (pid n : ℕ) (packets : List (List ℕ)) → n < length packets →
        position_of pid (take (n + 1) packets) ≡
        moved pid (position_of pid (take n packets)) (slice_index_or packets n []) }
{}

/// A packet that moves a position raises it by 1 to 16, to a number that equals its counter mod 16.
#[tactic(auto, using(sd_packet::proofs::Positions::moving_rises))]
pub fn a_packet_rises()
    ensures { (pid position : ℕ) (packet : List ℕ) → is_moving pid packet ≡ true →
        IsNextPosition position (counter_of packet) (moved pid position packet) }
{}

/// From any start, the packets of two lists move a position one after the other.
#[tactic(auto, using(sd_packet::proofs::Positions::more_packets))]
pub fn packets_move_in_turn()
    ensures { (pid position : ℕ) (ps qs : List (List ℕ)) →
        moved_by pid position (ps ++ qs) ≡ moved_by pid (moved_by pid position ps) qs }
{}

/// From any start, each packet raises a position by at most 16, and none lowers it.
#[tactic(auto, using(sd_packet::proofs::Positions::moved_by_near))]
pub fn positions_rise()
    ensures low { (pid position : ℕ) (packets : List (List ℕ)) → position ≤ moved_by pid position packets }
    ensures high { (pid position : ℕ) (packets : List (List ℕ)) →
        moved_by pid position packets ≤ position + 16 * length packets }
{}

/// A position stays exactly where no packet moves it, so it is 15 exactly where none has moved it.
#[tactic(auto, using(sd_packet::proofs::Positions::unmoved_is_none))]
pub fn unmoved_positions_stay()
    ensures any { (pid position : ℕ) (packets : List (List ℕ)) →
        (moved_by pid position packets ≡ position) ↔ (list_any (is_moving pid) packets ≡ false) }
    ensures first { (pid : ℕ) (packets : List (List ℕ)) →
        (position_of pid packets ≡ first_position) ↔ (list_any (is_moving pid) packets ≡ false) }
{}

/// The same packets move starts that are equal mod 16 to positions that are, as far apart as they were.
#[tactic(auto, using(sd_packet::proofs::Positions::same_start, sd_packet::proofs::Positions::higher_start))]
pub fn equal_starts_stay_equal()
    ensures same { (pid near far : ℕ) (packets : List (List ℕ)) → near % 16 ≡ far % 16 →
        moved_by pid near packets % 16 ≡ moved_by pid far packets % 16 }
    ensures apart { (pid position more : ℕ) (packets : List (List ℕ)) → more % 16 ≡ 0 →
        moved_by pid (position + more) packets ≡ moved_by pid position packets + more }
{}

/// A payload starts after the header, and at most at the packet's end.
#[tactic(auto, using(sd_packet::proofs::Packets::start_within))]
pub fn payloads_start_within()
    ensures { (packet : List ℕ) → (4 ≤ payload_start_of packet) × (payload_start_of packet ≤ 188) }
{}

/// The packet of a section has 188 bytes from the sync byte on, its fields are read as they were written, and the
/// counter is the low half of its fourth byte.
#[tactic(auto, using(sd_packet::proofs::Packets::packet_length, sd_packet::proofs::Packets::packet_sync, sd_packet::proofs::Packets::packet_counted))]
pub fn packed_sections_are_read()
    ensures fields { (section : List ℕ) (pid counter : ℕ) → pid < 8192 → counter < 16 →
        IsSectionPacket section pid counter (section_packet section pid counter) }
    ensures length { (section : List ℕ) (pid counter : ℕ) → length section ≤ 183 →
        length (section_packet section pid counter) ≡ 188 }
    ensures counter { (section : List ℕ) (pid counter : ℕ) →
        section_packet section pid counter ≡ slice_set (section_packet section pid 0) 3 (0x10 + counter) }
    ensures sync { (section : List ℕ) (pid counter : ℕ) → slice_index (section_packet section pid counter) 0 ≡ 0x47 }
{}

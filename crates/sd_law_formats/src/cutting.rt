//! What is found in bytes that may be damaged.

ghost use Rattle.std.specs.Prelude.{◌≡◌, ◌⊎◌, ◌+◌, ◌*◌, ◌<◌, ◌≤◌, ◌++◌, [], false, ℕ, zero, List, All, Some, drop};
ghost use Rattle.std.specs.Prelude.{length, slice_get, slice_index, take};
ghost use Rattle.sd_engine.specs.Cut.{begins_packet, cut_packets, skipped_before};
ghost use Rattle.sd_engine.specs.Stream.{packets_of, ArePackets};
ghost use Rattle.sd_law_formats.specs.Cuts.{packet_index, HasOneSyncOffset, IsCutAt};

/// Whole packets are found in bytes that may be damaged. Bytes that are packets are cut into these. If other bytes
/// follow them, all but the last are found, and the last one too if the bytes behind it begin with the sync byte. If no
/// packet begins in the bytes before others, the others are cut as if they were alone: nothing behind damage is lost.
/// Whatever bytes are before them, packets are found from packet i + 1 on if it and packet i have 0x47 at no common
/// index but the first.
pub fn packets_are_found()
    ensures whole { (n : ℕ) (bytes : List ℕ) → ArePackets n bytes → cut_packets bytes ≡ packets_of bytes }
    ensures in_step { (n : ℕ) (bytes more : List ℕ) → ArePackets n bytes →
        (more ≡ []) ⊎ (slice_index more 0 ≡ 0x47) → cut_packets (bytes ++ more) ≡ packets_of bytes ++ cut_packets more }
    ensures all_but_the_last { (n k : ℕ) (bytes more : List ℕ) → ArePackets n bytes → k < n →
        cut_packets (bytes ++ more) ≡ take k (packets_of bytes) ++ cut_packets (drop (188 * k) bytes ++ more) }
    ensures behind { (damage bytes : List ℕ) →
        ((i : ℕ) → i < length damage → begins_packet (drop i (damage ++ bytes)) ≡ false) →
        cut_packets (damage ++ bytes) ≡ cut_packets bytes }
    ensures again { (n i : ℕ) (damage bytes more : List ℕ) → ArePackets n bytes → i + 1 < n → HasOneSyncOffset i bytes →
        IsCutAt (length damage + 188 * (i + 1)) (damage ++ (bytes ++ more)) }
{}

/// Each packet that is found has 188 bytes, of which the first is the sync byte, and its place is behind the packets
/// before it and the bytes that are in none. Together these are all bytes. The bytes before its place are cut into the
/// packets before it, and as many of them are in none.
#[tactic(auto, using(crate::proofs::Finds::at_place, crate::proofs::Finds::all_counted, crate::proofs::Finds::before_place, crate::proofs::Finds::skipped_at_place))]
pub fn packets_have_places()
    ensures sound { (bytes : List ℕ) → All (λ p. (length p ≡ 188) × (slice_index p 0 ≡ 0x47)) (cut_packets bytes) }
    ensures at { (k : ℕ) (bytes : List ℕ) → k < length (cut_packets bytes) →
        slice_get (cut_packets bytes) k ≡ Some (take 188 (drop (packet_index k bytes) bytes)) }
    ensures sum { (bytes : List ℕ) → packet_index (length (cut_packets bytes)) bytes ≡ length bytes }
    ensures before { (k : ℕ) (bytes : List ℕ) → k ≤ length (cut_packets bytes) →
        cut_packets (take (packet_index k bytes) bytes) ≡ take k (cut_packets bytes) }
    ensures skipped { (k : ℕ) (bytes : List ℕ) → k ≤ length (cut_packets bytes) →
        skipped_before k zero (take (packet_index k bytes) bytes) ≡ skipped_before k zero bytes }
{}

/// If a packet that is found ends before the bytes do, it and those before it are found at the same places whatever
/// bytes follow: what was read decides what was found in it.
#[tactic(auto, using(crate::proofs::Finds::found_stays, crate::proofs::Finds::place_stays))]
pub fn found_packets_stay()
    ensures packets { (k : ℕ) (bytes more : List ℕ) → k < length (cut_packets bytes) →
        packet_index k bytes + 188 < length bytes → take (k + 1) (cut_packets (bytes ++ more)) ≡ take (k + 1)
        (cut_packets bytes) }
    ensures places { (k : ℕ) (bytes more : List ℕ) → k < length (cut_packets bytes) →
        packet_index k bytes + 188 < length bytes → packet_index k (bytes ++ more) ≡ packet_index k bytes }
{}

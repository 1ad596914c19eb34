//! What the packets of a stream are, and what a drive takes of all its bytes.

ghost use Rattle.std.specs.Prelude.{◌≡◌, ◌≤◌, ◌++◌, ℕ, List, None, Some, length, take};
ghost use Rattle.sd_engine.specs.Stream.{pieces, packets_of, break_of, no_sync, ArePackets};

/// Bytes that are packets, one after the other, are a stream of these and no others, with no break.
#[tactic(auto, using(sd_engine::proofs::Walking::all_taken, sd_engine::proofs::Walking::all_counted))]
pub fn whole_packets_are_taken()
    ensures packets { (n : ℕ) (bytes : List ℕ) → ArePackets n bytes → packets_of bytes ≡ pieces n bytes }
    ensures counted { (n : ℕ) (bytes : List ℕ) → length (pieces n bytes) ≡ n }
    ensures unbroken { (n : ℕ) (bytes : List ℕ) → ArePackets n bytes → break_of bytes ≡ None }
{}

/// The first packets of a stream stay where more bytes come after it, and so does a break at a packet without the
/// sync byte, after which no packet comes.
#[tactic(auto, using(sd_engine::proofs::Longer::first_stay, sd_engine::proofs::Longer::packets_stay, sd_engine::proofs::Longer::break_stays))]
pub fn first_packets_stay()
    ensures first { (k : ℕ) (bytes more : List ℕ) → k ≤ length (packets_of bytes) →
        take k (packets_of (bytes ++ more)) ≡ take k (packets_of bytes) }
    ensures packets { (k : ℕ) (bytes more : List ℕ) → break_of bytes ≡ Some (no_sync k) →
        packets_of (bytes ++ more) ≡ packets_of bytes }
    ensures broken { (k : ℕ) (bytes more : List ℕ) → break_of bytes ≡ Some (no_sync k) →
        break_of (bytes ++ more) ≡ Some (no_sync k) }
{}

ghost use Rattle.std.specs.Prelude.{◌≡◌, ◌+◌, ◌≤◌, ◌<◌, ℕ, OnOk, OnErr, length, map};
ghost use Rattle.std.specs.List.{range_with_len};
ghost use Rattle.std.specs.Io.KnownBytes.{Appends};
ghost use Rattle.sd_base.specs.Count.{HasCause};
ghost use Rattle.sd_ports.specs.Bytes.{AppendsPrefix};
ghost use Rattle.sd_engine.specs.Sample.{state_at, generated_before, sample_packet, sample_of};

use crate::sample_packet::packet;
use sd_packet::SIZE;
use sd_ports::{PortFault, Sink, write_all};

/// As many packets as a sample stream may have.
pub const MOST_SAMPLE_PACKETS: u32 = 1_000_000;

/// The most packets of one write.
const PIECE: usize = 64;

/// Writes the sample stream of this number, of so many packets. After a fault a prefix of it was written. It takes no
/// memory.
#[tactic(auto, using(crate::proofs::SampleStreams::state_begins, crate::proofs::SampleStreams::none_written))]
pub fn sample<K: Sink>(number: u32, packets: u32, out: &mut K) -> Result<(), PortFault>
    requires { packets ≤ MOST_SAMPLE_PACKETS }
    ensures ok { OnOk result (Appends (K.held out.old) (K.held out.new) (sample_of number packets)) }
    ensures prefix { OnErr result (AppendsPrefix (K.held out.old) (K.held out.new) (sample_of number packets)) }
    ensures cause { HasCause (K.faults out.old) (K.faults out.new) result }
{
    let mut state = u64::from(number);
    let mut piece = [[0; SIZE]; PIECE];
    let mut done = 0;
    while done < packets {
        let count = PIECE.min((packets - done) as usize);
        fill(done, &mut state, &mut piece[..count]);
        match write_all(out, piece[..count].as_flattened()) {
            Ok(()) => done += count as u32,
            Err(fault) => return Err(fault),
        }
    }
    Ok(())
}

// Fills the piece with the packets from this one on, and brings the generator after them.
fn fill(first: u32, state: &mut u64, piece: &mut [[u8; SIZE]])
    requires { first + length piece.old ≤ MOST_SAMPLE_PACKETS }
    ensures packets { (number : ℕ) → state.old ≡ state_at number (generated_before first) →
        piece.new ≡ map (sample_packet number) (range_with_len first (length piece.old)) }
    ensures state { (number : ℕ) → state.old ≡ state_at number (generated_before first) →
        state.new ≡ state_at number (generated_before (first + length piece.old)) }
{
    for i in 0..piece.len() {
        piece[i] = packet(first + i as u32, state);
    }
}

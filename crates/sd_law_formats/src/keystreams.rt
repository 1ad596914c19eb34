//! Laws of texts that are XORed with a keystream, of wrapping twice, and of scrambling and descrambling.

ghost use Rattle.std.specs.Prelude.{◌≡◌, ◌≤◌, ℕ, List, length, ◌<◌, slice_index};
ghost use Rattle.sd_cipher.specs.Keystream.{keystream, xored};
ghost use Rattle.sd_cipher.specs.Wrapping.{wrapped};
ghost use Rattle.sd_packet.specs.Header.{scrambling_of};
ghost use Rattle.sd_cipher.specs.Scrambling.{control_of, payload_under, scrambled, descrambled, IsPacketUnderKeystream};
ghost use Rattle.sd_cipher.specs.declared.payload.Parity.{Parity};

use sd_cipher::wrap;

/// A stream laid twice over a text leaves the text.
#[tactic(auto, using(sd_cipher::proofs::Streams::xored_twice))]
pub fn laid_twice()
    ensures { (text stream : List ℕ) → length text ≤ length stream → xored (xored text stream) stream ≡ text }
{}

/// A keystream has as many bytes as are asked for.
#[tactic(auto, using(sd_cipher::proofs::Streams::keystream_length))]
pub fn keystreams_are_long()
    ensures { (key : List ℕ) (number n : ℕ) → length (keystream key number n) ≡ n }
{}

/// A wrapped key that is wrapped again, under the same key and number, is the key.
#[tactic(auto, using(sd_cipher::proofs::Wrappings::twice))]
pub fn wrapped_twice(key: &[u8; 32], number: u64, text: &[u8; 32]) -> [u8; 32]
    ensures result { result ≡ text.now }
    ensures each { (key text : List ℕ) (number : ℕ) → length text ≡ 32
        → wrapped key number (wrapped key number text) ≡ text }
{
    wrap(key, number, &wrap(key, number, text))
}

/// A packet that is scrambled and then descrambled under the same word, at the same position, is the packet.
#[tactic(auto, using(sd_cipher::proofs::Scramblings::undone, sd_cipher::proofs::Scramblings::control_fits))]
pub fn scrambled_and_descrambled()
    ensures { (packet word : List ℕ) (position : ℕ) (parity : Parity) → length packet ≡ 188
        → slice_index packet 3 < 256 →
        scrambling_of packet ≡ 0 → descrambled (scrambled packet word position parity) word position ≡ packet }
{}

/// From a packet after scrambling, and after descrambling, all is read as before but its control and its payload.
pub fn the_rest_is_read_as_before()
    ensures scrambled { (packet word : List ℕ) (position : ℕ) (parity : Parity) → length packet ≡ 188
        → slice_index packet 3 < 256 →
        IsPacketUnderKeystream packet (control_of parity) (payload_under packet word position)
        (scrambled packet word position parity) }
    ensures descrambled { (packet word : List ℕ) (position : ℕ) → length packet ≡ 188 → slice_index packet 3 < 256 →
        IsPacketUnderKeystream packet 0 (payload_under packet word position) (descrambled packet word position) }
{}

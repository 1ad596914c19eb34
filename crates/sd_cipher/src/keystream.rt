ghost use Rattle.std.specs.Prelude.{◌≡◌, ◌%◌, ◌<◌, ◌≤◌, ℕ, List, length};
ghost use Rattle.rand_chacha.specs.ChaCha.{key_of};
ghost use Rattle.sd_cipher.specs.Keystream.{keystream, xored, IsFilled};

use rand_chacha::ChaCha20Rng;
use rand_core::SeedableRng;
use rand_core::utils::fill_bytes_via_u32;

// The generator of this key and stream number, at its first word.
#[inline(always)]
fn generator(key: &[u8; 32], number: u64) -> ChaCha20Rng
    ensures { result ≡ record { key = key_of key.now; stream = number; word_pos = 0 } }
{
    let mut generator = ChaCha20Rng::from_seed(*key);
    generator.set_stream(number);
    generator
}

/// Fills the bytes with the first of the keystream of this key and stream number.
#[tactic(auto, using(crate::proofs::Streams::fill_is, crate::proofs::Streams::keystream_length))]
pub fn fill(key: &[u8; 32], number: u64, bytes: &mut [u8])
    ensures value { bytes.new ≡ keystream key.now number (length bytes.old) }
    ensures length { length bytes.new ≡ length bytes.old }
{
    fill_bytes_via_u32(&mut generator(key, number), bytes);
}

/// The first N bytes of the keystream of this key and stream number.
#[tactic(auto, using(crate::proofs::Streams::keystream_length))]
pub fn first_bytes<const N: usize>(key: &[u8; 32], number: u64) -> [u8; N]
    ensures value { result ≡ keystream key.now number N }
    ensures length { length (keystream key.now number N) ≡ N }
{
    let mut bytes = [0; N];
    fill(key, number, &mut bytes);
    bytes
}

/// The keystream of a payload: the first 184 bytes of that of this key and stream number.
pub fn payload_stream(key: &[u8; 32], number: u64) -> [u8; 184]
    ensures { result ≡ keystream key.now number 184 }
{
    let mut generator = generator(key, number);
    let mut bytes = [0; 184];
    // Not in a loop: so the compiler knows where in its block each word stands, and copies the words at once.
    fill_part(&mut generator, &mut bytes, 0, 32);
    fill_part(&mut generator, &mut bytes, 32, 64);
    fill_part(&mut generator, &mut bytes, 64, 96);
    fill_part(&mut generator, &mut bytes, 96, 128);
    fill_part(&mut generator, &mut bytes, 128, 160);
    fill_part(&mut generator, &mut bytes, 160, 184);
    bytes
}

// Fills the bytes between two places with the generator's next words.
#[inline(always)]
#[tactic(auto, using(crate::proofs::Streams::filled_on))]
fn fill_part(generator: &mut ChaCha20Rng, bytes: &mut [u8], from: usize, to: usize)
    requires ordered { from ≤ to }
    requires within { to ≤ length bytes.old }
    requires words { (from % 4 ≡ 0) × (to % 4 ≡ 0) }
    ensures value { (key : List ℕ) (number : ℕ) → IsFilled key number from bytes.old generator.old →
        IsFilled key number to bytes.new generator.new }
    ensures length { length bytes.new ≡ length bytes.old }
{
    fill_bytes_via_u32(generator, &mut bytes[from..to]);
}

/// Lays a stream over a text of its length: each byte becomes the exclusive-or of both.
#[tactic(auto, using(crate::proofs::Streams::laid_more))]
pub fn lay(text: &mut [u8], stream: &[u8])
    requires { length text.old ≡ length stream.now }
    ensures value { text.new ≡ xored text.old stream.now }
    ensures length { length text.new ≡ length text.old }
{
    for i in 0..text.len() {
        text[i] ^= stream[i];
    }
}

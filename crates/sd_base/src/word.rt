ghost use Rattle.std.specs.Prelude.{◌≡◌, ◌+◌, ◌*◌, ◌^◌, ◌<◌, ◌≤◌, length};
ghost use Rattle.sd_base.specs.Bits.{field, KeepsOthers};

/// The bytes from this one on as one number, the first byte highest.
#[inline]
#[tactic(auto, using(crate::proofs::Words::no_byte, crate::proofs::Words::word_below, crate::proofs::Words::byte_pushed))]
pub fn read(bytes: &[u8], first: usize, count: usize) -> u64
    requires few { count ≤ 5 }
    requires within { first + count ≤ length bytes.now }
    ensures value { result ≡ field bytes.now (8 * first) (8 * count) }
    ensures fits { result < 2 ^ (8 * count) }
{
    let mut word = 0;
    for i in 0..count {
        word = word << 8 | u64::from(bytes[first + i]);
    }
    word
}

/// The bytes from this one on become the number, the first byte its highest.
#[inline]
#[tactic(auto, using(crate::proofs::Fields::none_changes, crate::proofs::Writes::none_written, crate::proofs::Writes::all_written, crate::proofs::Writes::byte_of_word, crate::proofs::Writes::others_of_word))]
pub fn write(bytes: &mut [u8], first: usize, count: usize, word: u64)
    requires few { count ≤ 5 }
    requires within { first + count ≤ length bytes.old }
    requires fits { word < 2 ^ (8 * count) }
    ensures value { field bytes.new (8 * first) (8 * count) ≡ word }
    ensures unchanged { KeepsOthers (8 * first) (8 * count) bytes.old bytes.new }
    ensures length { length bytes.new ≡ length bytes.old }
{
    for i in 0..count {
        bytes[first + i] = (word >> (8 * (count - 1 - i)) & 0xFF) as u8;
    }
}

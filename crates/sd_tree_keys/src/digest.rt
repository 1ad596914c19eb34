ghost use Rattle.std.specs.Prelude.{◌≡◌, ◌++◌, ◌∷◌, []};
ghost use Rattle.std.specs.Int.{w32, to_be_bytes};
ghost use Rattle.sha2.specs.Sha256.{sha256};

use sha2::{Digest, Sha256};

/// SHA-256 of the bytes followed by a tag, one byte that separates the uses of the hash (FIPS 180-4).
pub fn tagged(bytes: &[u8; 32], tag: u8) -> [u8; 32]
    ensures { result ≡ sha256 (bytes.now ++ tag ∷ []) }
{
    let mut hasher = Sha256::new();
    hasher.update(bytes);
    hasher.update(&[tag]);
    hasher.finalize()
}

/// SHA-256 of the bytes followed by a tag and a number of four bytes, the highest first (FIPS 180-4).
pub fn numbered(bytes: &[u8; 32], tag: u8, number: u32) -> [u8; 32]
    ensures { result ≡ sha256 (bytes.now ++ tag ∷ to_be_bytes w32 number) }
{
    let mut hasher = Sha256::new();
    hasher.update(bytes);
    hasher.update(&[tag]);
    hasher.update(&number.to_be_bytes());
    hasher.finalize()
}

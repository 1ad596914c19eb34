ghost use Rattle.std.specs.Prelude.{◌≡◌};
ghost use Rattle.sd_tree_keys.specs.Keys.{whole_key_of, period_key_of, control_word_of, check_value_of};

use crate::digest::{numbered, tagged};

/// The key of the whole set.
#[tactic(auto, unfolding(crate::specs::Keys::whole_key_of))]
pub fn whole_key(master: &[u8; 32]) -> [u8; 32]
    ensures { result ≡ whole_key_of master.now }
{
    tagged(master, b'A')
}

/// The key of period q.
#[tactic(auto, unfolding(crate::specs::Keys::period_key_of))]
pub fn period_key(master: &[u8; 32], q: u32) -> [u8; 32]
    ensures { result ≡ period_key_of master.now q }
{
    numbered(master, b'P', q)
}

/// The control word of crypto period t.
#[tactic(auto, unfolding(crate::specs::Keys::control_word_of))]
pub fn control_word(master: &[u8; 32], t: u32) -> [u8; 32]
    ensures { result ≡ control_word_of master.now t }
{
    numbered(master, b'C', t)
}

/// The key check value of a key, by which a receiver detects a wrong key: sixteen bytes of a hash of the key.
#[tactic(auto, unfolding(crate::specs::Keys::check_value_of))]
pub fn check_value(key: &[u8; 32]) -> [u8; 16]
    ensures { result ≡ check_value_of key.now }
{
    let digest = tagged(key, b'V');
    let mut value = [0; 16];
    value.copy_from_slice(&digest[..16]);
    value
}

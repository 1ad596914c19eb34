ghost use Rattle.std.specs.Prelude.{◌≡◌, ◌≢◌, IfOk, IfErr};
ghost use Rattle.sd_tree_keys.specs.Keys.{check_value_of};
ghost use Rattle.sd_cipher.specs.Wrapping.{wrapped};

use crate::{first_bytes, lay};
use sd_tree_keys::check_value;

/// The text under the first 32 bytes of the keystream of this key and number: a wrapped key, or from a wrapped key
/// the key again.
#[tactic(auto, using(crate::proofs::Wrappings::back), unfolding(crate::specs::Wrapping::wrapped))]
pub fn wrap(key: &[u8; 32], number: u64, text: &[u8; 32]) -> [u8; 32]
    ensures value { result ≡ wrapped key.now number text.now }
    ensures inverse { wrapped key.now number result ≡ text.now }
{
    let stream = first_bytes::<32>(key, number);
    let mut out = *text;
    lay(&mut out, &stream);
    out
}

/// The key that is wrapped in `text` under this key and number, if its check value is `due`; else the check value that
/// it has.
pub fn unwrap_checked(
    key: &[u8; 32],
    number: u64,
    text: &[u8; 32],
    due: &[u8; 16],
) -> Result<[u8; 32], [u8; 16]>
    ensures value { IfOk result (λ own. own ≡ wrapped key.now number text.now) }
    ensures check { IfOk result (λ own. check_value_of own ≡ due.now) }
    ensures found { IfErr result (λ found. found ≡ check_value_of (wrapped key.now number text.now)) }
    ensures other { IfErr result (λ found. found ≢ due.now) }
{
    let own = wrap(key, number, text);
    let found = check_value(&own);
    if found == *due { Ok(own) } else { Err(found) }
}

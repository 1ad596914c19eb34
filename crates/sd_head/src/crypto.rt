ghost use Rattle.std.specs.Prelude.{◌≡◌};
ghost use Rattle.sd_head.specs.Crypto.{crypto_in};

use sd_cipher::wrap;
use sd_tree_keys::{check_value, control_word, period_key};

/// A crypto period, with its control word as control messages have it (this project, docs/FORMATS.md, Messages).
#[derive(Clone, Copy)]
pub struct CryptoPeriod {
    /// The number of its control word.
    pub number: u32,
    /// The period that it is of.
    pub period: u32,
    /// Its control word.
    pub word: [u8; 32],
    /// The control word under the period's key.
    pub wrapped: [u8; 32],
    /// The check value of the control word.
    pub check: [u8; 16],
}

impl CryptoPeriod {
    /// The crypto period of control word t, which is of period q.
    #[tactic(auto, unfolding(crate::specs::Crypto::crypto_in))]
    pub fn new(master: &[u8; 32], q: u32, t: u32) -> CryptoPeriod
        ensures { result ≡ crypto_in master.now q t }
    {
        let word = control_word(master, t);
        CryptoPeriod {
            number: t,
            period: q,
            word,
            wrapped: wrap(&period_key(master, q), u64::from(t), &word),
            check: check_value(&word),
        }
    }
}

//! What is kept of EMMs: the current period, its sections and its key, and the periods without a key.

ghost use Rattle.std.specs.Prelude.{◌≡◌, vec_len};

mod header;
mod period;
mod section;

pub use header::PeriodHeader;
pub use section::good_key_in;

/// What a receiver keeps of the sections of entitlements that it heard, and of the periods of control messages [this
/// project, docs/FORMATS.md, Receiver].
#[derive(Drop)]
pub struct PeriodKeys {
    // The current period.
    pub(crate) period: u32,
    // What each of its sections says, if one was seen.
    pub(crate) header: Option<PeriodHeader>,
    // Which of its sections were seen, by their index.
    pub(crate) marks: Vec<bool>,
    // Whether a complete control message was of it.
    pub(crate) told: bool,
    // Its key, if that is known.
    pub(crate) key: Option<[u8; 32]>,
    // The first earlier period of a complete control message of which all sections were seen and no key is known.
    pub(crate) revoked: Option<u32>,
    // The first earlier period of a complete control message of which no key is known.
    pub(crate) unkeyed: Option<u32>,
    pub ghost long: { vec_len marks ≡ 65536 },
}

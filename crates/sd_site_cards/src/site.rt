ghost use Rattle.std.specs.Prelude.{◌≢◌};
ghost use Rattle.sd_site_cards.specs.Forms.{IsWithin, emm_line, ecm_line, every_line, cryptos_line, span_line};
ghost use Rattle.sd_site_cards.specs.Forms.{messages_line, first_word_line, last_word_line, first_period_line};

use sd_tree_keys::Height;

/// The most clear packets from one ECM to the next.
pub const MOST_EVERY: u32 = 4_096;

/// The most ECMs of a crypto period.
pub const MOST_CRYPTOS: u32 = 256;

/// The most crypto periods of a period.
pub const MOST_SPAN: u32 = 65_535;

/// The greatest version of messages.
pub const MOST_MESSAGES: u8 = 3;

/// The version of messages that name their broadcast.
pub const NAMING_MESSAGES: u8 = 3;

/// The greatest number of a control word.
pub const MOST_WORD: u32 = 4_294_967_295;

/// The greatest number of a first period.
pub const MOST_FIRST_PERIOD: u32 = 4_294_967_295;

/// A site: its tree's height, its master secret, its conditional access system and PIDs, its messages' schedule and
/// version, and the numbers of a run's control words and periods.
#[derive(Clone, Copy)]
pub struct Site {
    /// The height of the tree of receivers.
    pub height: Height,
    /// The secret that all labels and keys come from.
    pub master: [u8; 32],
    /// The CA_system_ID (ISO/IEC 13818-1, 2.6.16).
    pub ca: u16,
    /// The PID of entitlement management messages.
    pub emm: u16,
    /// The PID of entitlement control messages.
    pub ecm: u16,
    /// The number of clear packets from one ECM to the next, from 1 to 4,096.
    pub every: u32,
    /// So many ECMs are one crypto period.
    pub cryptos: u32,
    /// So many crypto periods are one period.
    pub span: u32,
    /// The version of the messages that the head end writes. Those of version 3 name their run.
    pub messages: u8,
    /// The number of the first control word of a run of the head end.
    pub first_word: u32,
    /// The greatest number of a control word that a run may use. A run's first packet is too long if this is below
    /// `first_word`.
    pub last_word: u32,
    /// The number of the first period of a run.
    pub first_period: u32,
    ghost emm_in: { IsWithin emm_line emm },
    ghost ecm_in: { IsWithin ecm_line ecm },
    ghost apart: { emm ≢ ecm },
    ghost every_in: { IsWithin every_line every },
    ghost cryptos_in: { IsWithin cryptos_line cryptos },
    ghost span_in: { IsWithin span_line span },
    ghost messages_in: { IsWithin messages_line messages },
    ghost first_word_in: { IsWithin first_word_line first_word },
    ghost last_word_in: { IsWithin last_word_line last_word },
    ghost first_period_in: { IsWithin first_period_line first_period },
}

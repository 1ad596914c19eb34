//! What is kept of ECMs: the newest complete one, and the parts of the next; and control words.

ghost use Rattle.std.specs.Prelude.{◌≤◌, vec_capacity};
ghost use Rattle.sd_message.specs.declared.ecm_format.TheConstants.{MOST_PLACES};

mod assembler;
mod control_word;
mod partial;

pub use control_word::{ControlWord, control_of, is_foreign, word_of};
pub use partial::PartialEcm;
use sd_message::{EcmHead, Place};

/// What a part of a control message gives, if it isn't refused.
#[derive(Clone, Copy)]
pub enum EcmProgress {
    /// The part completes no message.
    Waits,
    /// The part completes a message, which says this. The message's positions are in `EcmAssembler::coming`.
    Complete(EcmHead),
}

/// The newest complete control message, and the parts of the next one that arrived [this project, docs/FORMATS.md,
/// Receiver].
#[derive(Drop)]
pub struct EcmAssembler {
    // The parts of the next message that arrived.
    pub(crate) partial: PartialEcm,
    // The parts of the message that a part completes, while it is judged. `partial` is as before until it is settled.
    pub(crate) coming: PartialEcm,
    // What the newest complete message says, but for its positions.
    pub(crate) last: Option<EcmHead>,
    // The PIDs and positions of the newest complete message.
    pub(crate) places: Vec<Place>,
    ghost room: { MOST_PLACES ≤ vec_capacity places },
}

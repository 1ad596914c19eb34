//! What a packet is to a receiver, and the broadcast that it names.

ghost use Rattle.std.specs.Prelude.{◌≡◌, ℕ, List};
ghost use Rattle.sd_spec.specs.Runs.{are_two, run_name_heard as name_heard};
ghost use Rattle.sd_receive.specs.Filter.{heard_as};

use sd_message::{EcmFault, EcmPart, Emm, EmmFault};

/// What a packet is to a receiver that took a CAT [this project, docs/FORMATS.md, Receiver].
#[derive(Clone, Copy)]
pub enum PacketKind<'a> {
    /// A packet that is dropped: one on PID 1, or one on a PID of messages that isn't one of them.
    Dropped,
    /// A section of entitlements.
    Entitles(&'a Emm),
    /// A part of a control message.
    Controls(&'a EcmPart),
    /// A faulty section of entitlements, and its fault.
    BadEmm(EmmFault),
    /// A faulty part of a control message, and its fault.
    BadEcm(EcmFault),
    /// Any other packet: one on another PID.
    Other,
}

// Whether both are names of runs, and the runs differ.
#[inline(always)]
pub fn differ(before: Option<Option<u32>>, name: Option<Option<u32>>) -> bool
    ensures { result ≡ are_two before name }
{
    match (before, name) {
        (Some(Some(a)), Some(Some(b))) => a != b,
        (Some(None), Some(None)) => false,
        (Some(_), Some(_)) => true,
        _ => false,
    }
}

// The name of the run to which a message belongs, if the packet is a message without a fault.
#[inline(always)]
pub fn name_of(heard: PacketKind<'_>) -> Option<Option<u32>>
    ensures { (number : ℕ) (packet : List ℕ) → result ≡ name_heard (heard_as number packet heard.entry) }
{
    match heard {
        PacketKind::Entitles(emm) => Some(emm.run),
        PacketKind::Controls(part) => Some(part.run),
        _ => None,
    }
}

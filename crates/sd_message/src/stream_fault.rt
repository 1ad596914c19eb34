ghost use Rattle.std.specs.Prelude.{◌≡◌};
ghost use Rattle.sd_message.specs.StreamFaults.{stream_packet};

use crate::{EcmFault, EmmFault};

/// Why a receiver refuses a packet. Packets are numbered from 0, the first of the stream [this project,
/// docs/FORMATS.md, Receiver].
#[derive(Clone, Copy, PartialEq, Eq)]
pub enum StreamFault {
    /// The check value of the period key that a section of entitlements gives isn't the one in the section.
    WrongKey {
        /// The number of the packet that has the section.
        packet: u64,
        /// The entitlement period of the section.
        period: u32,
        /// The check value of the key.
        found: [u8; 16],
        /// The check value in the section.
        due: [u8; 16],
    },
    /// The check value of the control word that a complete control message gives isn't the one in the message.
    WrongWord {
        /// The number of the packet that completes the message.
        packet: u64,
        /// The number of the control word.
        word: u32,
        /// The check value of the control word.
        found: [u8; 16],
        /// The check value in the message.
        due: [u8; 16],
    },
    /// A section of entitlements is faulty: the number of its packet, and its fault.
    BadEmm(u64, EmmFault),
    /// A part of a control message is faulty, or the message that it completes: the number of its packet, and its
    /// fault.
    BadEcm(u64, EcmFault),
    /// A buffered packet isn't in the clear, and can't be one under its control word: the number of the packet.
    Parity(u64),
}

impl StreamFault {
    /// The number of the packet that is refused.
    pub fn packet(self) -> u64
        ensures { result ≡ stream_packet self }
    {
        match self {
            StreamFault::WrongKey { packet, .. } | StreamFault::WrongWord { packet, .. } => packet,
            StreamFault::BadEmm(packet, _)
            | StreamFault::BadEcm(packet, _)
            | StreamFault::Parity(packet) => packet,
        }
    }
}

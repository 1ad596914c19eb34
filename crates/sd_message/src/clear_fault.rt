ghost use Rattle.std.specs.Prelude.{◌≡◌};
ghost use Rattle.sd_message.specs.ClearFaults.{clear_packet};

use sd_psi::FormFault;

/// Why a clear packet is refused. The first number is the packet's.
#[derive(Clone, Copy, PartialEq, Eq)]
pub enum ClearFault {
    /// It is scrambled.
    AlreadyScrambled(u64),
    /// Its PID is 1 or one of the broadcast's own messages.
    PidTaken(u64, u16),
    /// It is on PID 0 and no PAT by itself.
    PatForm(u64, FormFault),
    /// It is a PMT without room that begins with the project's CA_descriptor.
    PmtForm(u64, FormFault),
    /// It would be the 257th PID with a position.
    TooManyPids(u64),
    /// It would be packet 2^32 - 1, or its control word would be above the site's last.
    TooLong(u64),
}

impl ClearFault {
    /// The number of the packet that is refused.
    pub fn packet(self) -> u64
        ensures { result ≡ clear_packet self }
    {
        match self {
            ClearFault::AlreadyScrambled(packet)
            | ClearFault::TooManyPids(packet)
            | ClearFault::TooLong(packet) => packet,
            ClearFault::PidTaken(packet, _)
            | ClearFault::PatForm(packet, _)
            | ClearFault::PmtForm(packet, _) => packet,
        }
    }
}

use crate::Ending;
use sd_message::StreamFault;

/// How many packets of a stream that may be damaged don't count, each by the first of the four reasons that is true of
/// it, and why the first of the refused ones is refused [this project, docs/FORMATS.md, Receiver].
#[derive(Clone, Copy, PartialEq, Eq)]
pub struct Tally {
    /// The packets that are marked: their transport_error_indicator is 1.
    pub marked: u64,
    /// The packets that came before.
    pub doubled: u64,
    /// The packets that can't be under the control word in force.
    pub odd: u64,
    /// The packets that a strict receiver refuses.
    pub refused: u64,
    /// Why the first of these is refused, with its number among all packets.
    pub first: Option<StreamFault>,
}

/// What is told of a stream that may be damaged, up to some packet [this project, docs/FORMATS.md, Receiver].
#[derive(Clone, Copy, PartialEq, Eq)]
pub struct Report {
    /// The packets that don't count.
    pub tally: Tally,
    /// The number of packets.
    pub packets: u64,
    /// The number of packets that were written, at most 2^64 - 1.
    pub written: u64,
    /// The name of the current run, if a message was heard, and it has one.
    pub run: Option<Option<u32>>,
    /// How the current run would end if it were the only one and ended here.
    pub ending: Ending,
}

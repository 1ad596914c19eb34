use sd_packet::Packet;
use sd_psi::Pat;

/// What was learned of a clear packet that may be the next one (this project, docs/FORMATS.md, Broadcast).
#[derive(Clone, Copy)]
pub enum Judged<'a> {
    /// It has no position and is sent as it is. It may be a current PAT.
    Passed(Option<Pat<'a>>),
    /// It is a PMT: the move of its PID's position, and the packet that is sent.
    Pmt(Move, Packet),
    /// It is scrambled at the position to which it moves its PID.
    Scrambled(Move),
}

/// The move of a PID's position by a packet (this project, docs/FORMATS.md, Positions).
#[derive(Clone, Copy)]
pub struct Move {
    /// The PID.
    pub pid: u16,
    /// The position after the packet.
    pub position: u64,
    /// Whether no packet before has moved the PID's position.
    pub is_first: bool,
}

/// Whether the rule on PATs is asked when a packet is judged (this project, docs/FORMATS.md, Broadcast, On air).
#[derive(Clone, Copy, PartialEq, Eq)]
pub enum PatRule {
    /// A packet on PID 0 must be a PAT by itself.
    Asked,
    /// A packet on PID 0 that is no PAT by itself passes.
    Skipped,
}

use sd_message::ClearFault;

/// What a head end that goes on leaves out of a clear stream [this project, docs/FORMATS.md, On air].
#[derive(Clone, Copy, PartialEq, Eq)]
pub struct LeftOut {
    /// The packets that are marked: their transport_error_indicator is 1.
    pub marked: u64,
    /// The packets that break a rule.
    pub refused: u64,
    /// The packets on PID 0 that are sent, have a payload, and are no PAT by themselves.
    pub pats: u64,
    /// The rule that the first of the refused packets breaks, with its number among all packets.
    pub first: Option<ClearFault>,
}

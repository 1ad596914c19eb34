use sd_spec::LeftOut;

/// What is reported of a live stream [this project, docs/FORMATS.md, On air].
#[derive(Clone, Copy, PartialEq, Eq)]
pub struct AirReport {
    /// The packets that were left out.
    pub left_out: LeftOut,
    /// The number of packets that were found.
    pub packets: u64,
    /// The number of packets that were sent.
    pub sent: u64,
    /// The period of the closing message.
    pub period: u32,
    /// The control word of the closing message.
    pub word: u32,
    /// The number of control words of the site that were not used.
    pub left: u32,
    /// The number of bytes that are in no packet.
    pub skipped: u64,
}

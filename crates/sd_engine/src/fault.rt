/// Why bytes are no stream of packets (ISO/IEC 13818-1, 2.4.3.2).
#[derive(Clone, Copy, PartialEq, Eq)]
pub enum BreakCause {
    /// Fewer than 188 bytes are left over at the end.
    Torn,
    /// The 188 bytes of a packet don't begin with the sync byte.
    NoSync,
}

/// Where and why bytes are no stream of packets.
#[derive(Clone, Copy, PartialEq, Eq)]
pub struct StreamBreak {
    /// The number of the packet at which they break.
    pub packet: u64,
    /// What is wrong at this packet.
    pub cause: BreakCause,
}

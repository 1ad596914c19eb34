use sd_engine::StreamBreak;

/// Why a stream is refused, at the first packet that is. Packets count from 0.
#[derive(Clone, Copy)]
pub enum StreamRefusal<F> {
    /// Its bytes are no packets from here on.
    Broken(StreamBreak),
    /// More bytes stand after 2^48 packets.
    TooLong,
    /// This is wrong with a packet, whose number the fault tells.
    Packet(F),
}

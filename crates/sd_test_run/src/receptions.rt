use crate::broadcasts::{PACKET, answered, has_digest, put};
use sd_command_base::Status;
use sd_ports_memory::MemDepot;
use std::alloc::{AllocError, Global};

/// What a receiver makes of a stream. A stream is written as the files whose packets stand in it one behind the other,
/// with blanks between them; behind a file stand the packets that it lacks, from one number to another: `first/3-23`.
#[derive(Clone, Copy)]
pub(crate) struct Row {
    pub stream: &'static str,
    pub card: &'static str,
    pub exit: u8,
    pub line: &'static str,
    /// How many packets are written.
    pub packets: usize,
    /// The clear packets that are written, or nothing if the digest alone is given.
    pub clear: &'static str,
    /// The first 16 bytes of the SHA-256 of what is written, or nothing if the clear packets alone are given.
    pub digest: &'static str,
}

/// The packets of a stream.
fn joined(alloc: Global, depot: &MemDepot, stream: &str) -> Result<Vec<u8>, AllocError> {
    let mut bytes = Vec::new(alloc);
    for piece in stream.split_whitespace() {
        let (name, lost) = piece.split_once('/').unwrap_or((piece, ""));
        add_packets(&mut bytes, depot.get(name).unwrap_or(&[]), lost)?;
    }
    Ok(bytes)
}

/// Adds the packets of a file without the lost ones.
fn add_packets(bytes: &mut Vec<u8>, file: &[u8], lost: &str) -> Result<(), AllocError> {
    for (number, packet) in file.chunks(PACKET).enumerate() {
        if !is_lost(number, lost) {
            bytes.extend_from_slice(packet)?;
        }
    }
    Ok(())
}

/// Whether a packet is a lost one.
fn is_lost(number: usize, lost: &str) -> bool {
    for span in lost.split('/') {
        let (first, last) = span.split_once('-').unwrap_or(("", ""));
        if let (Ok(first), Ok(last)) = (first.parse::<usize>(), last.parse::<usize>()) {
            if first <= number && number <= last {
                return true;
            }
        }
    }
    false
}

/// What `receive` answers and prints of the stream X for a card.
fn received(
    alloc: Global,
    depot: &mut MemDepot,
    card: &str,
) -> Result<(Status, Vec<u8>), AllocError> {
    let words = format!(in alloc; "receive {card} X O")?;
    answered(alloc, depot, &words)
}

/// Whether the file O is what a row says.
fn is_written(alloc: Global, depot: &MemDepot, row: &Row) -> Result<bool, AllocError> {
    let wrote = depot.get("O").unwrap_or(&[]);
    let clear = joined(alloc, depot, row.clear)?;
    Ok(
        wrote.len() / PACKET == row.packets
            && wrote.len() % PACKET == 0
            && (row.clear.is_empty() || wrote == clear.as_slice())
            && (row.digest.is_empty() || has_digest(wrote, row.digest)),
    )
}

/// Whether a receiver makes of a stream what its row says.
pub(crate) fn is_due(alloc: Global, depot: &mut MemDepot, row: &Row) -> Result<bool, AllocError> {
    let stream = joined(alloc, depot, row.stream)?;
    put(depot, "X", stream)?;
    let (status, printed) = received(alloc, depot, row.card)?;
    let is_told = status.code() == row.exit && printed.as_slice() == row.line.as_bytes();
    Ok(is_told && is_written(alloc, depot, row)?)
}

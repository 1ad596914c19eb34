use crate::files::SITE;
use sd_engine::sample;
use sd_ports::MemSink;
use std::alloc::{AllocError, Global};
use std::fmt::Write;

/// A part of a file.
#[derive(Clone, Copy)]
pub(crate) enum Part {
    /// The site in which this text stands in place of the line of this number, or after all lines, if it is the ninth.
    Site(usize, &'static str),
    /// These bytes.
    Bytes(&'static [u8]),
    /// A piece again and again.
    Times(u32, &'static [u8]),
    /// Lines `revoke`, their number, and from each leaf to the next.
    Revokes(u32, u32),
    /// Lines `assign` and `drop` for each of the first leaves.
    Dropped(u32),
    /// The sample stream of three packets, of which these bytes are others.
    Sample(&'static [(usize, &'static [u8])]),
    /// Packets of a PID, and how many.
    Packets(u16, u32),
    /// A packet for each PID from one to another.
    Pids(u16, u16),
    /// No more than so many bytes of the parts before.
    Cut(usize),
}

/// The bytes of all parts.
pub(crate) fn bytes_of(alloc: Global, parts: &[Part]) -> Result<Vec<u8>, AllocError> {
    let mut bytes = Vec::new(alloc);
    for part in parts {
        match *part {
            Part::Site(line, text) => add_site(&mut bytes, line, text)?,
            Part::Bytes(piece) => bytes.extend_from_slice(piece)?,
            Part::Times(count, piece) => add_times(&mut bytes, count, piece)?,
            Part::Revokes(count, step) => add_revokes(alloc, &mut bytes, count, step)?,
            Part::Dropped(count) => add_dropped(alloc, &mut bytes, count)?,
            Part::Sample(changes) => add_sample(alloc, &mut bytes, changes)?,
            Part::Packets(pid, count) => add_packets(&mut bytes, pid, count)?,
            Part::Pids(first, last) => add_pids(&mut bytes, first, last)?,
            Part::Cut(length) => bytes.truncate(length),
        }
    }
    Ok(bytes)
}

fn add_site(bytes: &mut Vec<u8>, line: usize, text: &str) -> Result<(), AllocError> {
    for (place, piece) in SITE.split(|byte| *byte == b'\n').enumerate() {
        if place.wrapping_add(1) == line {
            bytes.extend_from_slice(text.as_bytes())?;
        } else if !piece.is_empty() {
            bytes.extend_from_slice(piece)?;
            bytes.push(b'\n')?;
        }
    }
    Ok(())
}

fn add_times(bytes: &mut Vec<u8>, count: u32, piece: &[u8]) -> Result<(), AllocError> {
    for _ in 0..count {
        bytes.extend_from_slice(piece)?;
    }
    Ok(())
}

fn add_revokes(
    alloc: Global,
    bytes: &mut Vec<u8>,
    count: u32,
    step: u32,
) -> Result<(), AllocError> {
    let mut text = String::new(alloc);
    for place in 0..count {
        write!(text, "revoke {}\n", place.wrapping_mul(step))?;
    }
    bytes.extend_from_slice(text.as_bytes())
}

fn add_dropped(alloc: Global, bytes: &mut Vec<u8>, count: u32) -> Result<(), AllocError> {
    let mut text = String::new(alloc);
    for leaf in 0..count {
        write!(text, "assign n{leaf} {leaf}\ndrop n{leaf}\n")?;
    }
    bytes.extend_from_slice(text.as_bytes())
}

fn add_sample(
    alloc: Global,
    bytes: &mut Vec<u8>,
    changes: &[(usize, &[u8])],
) -> Result<(), AllocError> {
    let mut sink = MemSink::new(alloc, 564, 564, Vec::new(alloc)).map_err(|_| AllocError)?;
    sample(0, 3, &mut sink).map_err(|_| AllocError)?;
    let mut packets = Vec::from_slice(alloc, sink.bytes())?;
    for (at, piece) in changes {
        for (byte, new) in packets.iter_mut().skip(*at).zip(*piece) {
            *byte = *new;
        }
    }
    bytes.extend_from_slice(&packets)
}

fn add_packet(bytes: &mut Vec<u8>, pid: u16) -> Result<(), AllocError> {
    let [high, low] = pid.to_be_bytes();
    bytes.extend_from_slice(&[0x47, high, low, 0x10])?;
    bytes.extend_from_slice(&[0xFF; 184])
}

fn add_packets(bytes: &mut Vec<u8>, pid: u16, count: u32) -> Result<(), AllocError> {
    for _ in 0..count {
        add_packet(bytes, pid)?;
    }
    Ok(())
}

fn add_pids(bytes: &mut Vec<u8>, first: u16, last: u16) -> Result<(), AllocError> {
    for pid in first..=last {
        add_packet(bytes, pid)?;
    }
    Ok(())
}

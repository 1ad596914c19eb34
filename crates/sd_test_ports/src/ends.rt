use sd_ports::MemSink;
use sd_ports_memory::MemSource;
use std::alloc::{AllocError, Global};

/// A source of these bytes, of which a read gives at most so many, but 1, and this read fails.
pub(crate) fn source(
    alloc: Global,
    bytes: &[u8],
    most: usize,
    failing: u32,
) -> Result<MemSource, AllocError> {
    let fails = Vec::from_slice(alloc, &[failing])?;
    Ok(MemSource::new(Vec::from_slice(alloc, bytes)?, most.max(1), fails))
}

/// A sink with so much room, of which a write takes at most so many bytes, but 1, and this write fails.
pub(crate) fn sink(
    alloc: Global,
    room: usize,
    most: usize,
    failing: u32,
) -> Result<MemSink, AllocError> {
    let fails = Vec::from_slice(alloc, &[failing])?;
    match MemSink::new(alloc, room, most.max(1), fails) {
        Ok(sink) => Ok(sink),
        Err(_) => Err(AllocError),
    }
}

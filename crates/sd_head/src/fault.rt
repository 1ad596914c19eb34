use sd_message::ClearFault;

/// Why the head end stopped.
#[derive(Clone, Copy, PartialEq, Eq)]
pub enum HeadFault {
    /// A clear packet is refused.
    Clear(ClearFault),
    /// Out of memory, where a period begins.
    NoMemory,
}

/// Why nothing more is sent of what goes on air.
#[derive(Clone, Copy, PartialEq, Eq)]
pub enum LiveFault {
    /// A write failed.
    Write,
    /// Out of memory, where a period begins.
    NoMemory,
}

/// A read or a write failed.
#[derive(Clone, Copy, PartialEq, Eq)]
pub struct PortFault;

/// Why a depot gave no port.
#[derive(Clone, Copy, PartialEq, Eq)]
pub enum DepotFault {
    /// There is no such file.
    Missing = 1,
    /// An I/O error.
    Failed = 2,
    /// Out of memory.
    NoMemory = 3,
}

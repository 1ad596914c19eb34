ghost use Rattle.std.specs.Prelude.{◌≡◌};
ghost use Rattle.sd_book.specs.declared.fault.BookFault.TheVariants.{NoMemory};

use std::alloc::{AllocError, AllocFailed};

/// A limit of a book.
#[derive(Clone, Copy, PartialEq, Eq)]
pub enum BookLimit {
    /// It has at most [`MOST_COMMANDS`](crate::MOST_COMMANDS) commands.
    Lines,
    /// It has at most [`MOST_PERIODS`](crate::MOST_PERIODS) Period commands.
    Periods,
    /// At most [`MOST_REVOKED`](sd_tree_keys::MOST_REVOKED) leaves are revoked at the end of this period.
    Revoked(u32),
}

/// Why bytes are no book. Lines are counted from 1 and judged in order; the first bad line decides.
#[derive(Clone, Copy, PartialEq, Eq)]
pub enum BookFault {
    /// The line is no command.
    Line(u32),
    /// The line's leaf is not in the tree.
    Leaf(u32),
    /// The book breaks a limit.
    Limit(BookLimit),
    /// Out of memory.
    NoMemory,
}

impl From<AllocError> for BookFault {
    ghost from_gives = { λ _ e. e ≡ NoMemory };

    fn from(_error: AllocError) -> BookFault {
        BookFault::NoMemory
    }
}

impl<T: Drop> From<AllocFailed<T>> for BookFault {
    ghost from_gives = { λ _ e. e ≡ NoMemory };

    fn from(_error: AllocFailed<T>) -> BookFault {
        BookFault::NoMemory
    }
}

impl From<sd_base::NoMemory> for BookFault {
    ghost from_gives = { λ _ e. e ≡ NoMemory };

    fn from(_error: sd_base::NoMemory) -> BookFault {
        BookFault::NoMemory
    }
}

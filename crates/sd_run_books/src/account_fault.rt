ghost use Rattle.std.specs.Prelude.{◌≡◌};
ghost use Rattle.sd_run_books.specs.declared.account_fault.AccountFault.TheVariants.{NoMemory};
ghost use Rattle.sd_run_books.specs.Fault.{as_fault};

use sd_book::{BookFault, BookLimit};
use std::alloc::{AllocError, AllocFailed};

/// Why bytes are no accounts. Lines are counted from 1 and judged in order; the first bad line decides.
#[derive(Clone, Copy, PartialEq, Eq)]
pub enum AccountFault {
    /// The line is not in the grammar, or its leaf not in the tree.
    Line(u32),
    /// The line drops or restores a name that no earlier line assigned.
    Unknown(u32),
    /// The line assigns a name or a leaf that is assigned already.
    Taken(u32),
    /// The book that the lines make breaks a limit.
    Limit(BookLimit),
    /// Out of memory.
    NoMemory,
}

impl From<AllocError> for AccountFault {
    ghost from_gives = { λ _ e. e ≡ NoMemory };

    fn from(_error: AllocError) -> AccountFault {
        AccountFault::NoMemory
    }
}

impl<T: Drop> From<AllocFailed<T>> for AccountFault {
    ghost from_gives = { λ _ e. e ≡ NoMemory };

    fn from(_error: AllocFailed<T>) -> AccountFault {
        AccountFault::NoMemory
    }
}

impl From<sd_base::NoMemory> for AccountFault {
    ghost from_gives = { λ _ e. e ≡ NoMemory };

    fn from(_error: sd_base::NoMemory) -> AccountFault {
        AccountFault::NoMemory
    }
}

impl From<BookFault> for AccountFault {
    ghost from_gives = { λ fault e. e ≡ as_fault fault };

    /// Of a book that accounts make only limits come; its lines are theirs.
    fn from(fault: BookFault) -> AccountFault {
        match fault {
            BookFault::Line(k) | BookFault::Leaf(k) => AccountFault::Line(k),
            BookFault::Limit(limit) => AccountFault::Limit(limit),
            BookFault::NoMemory => AccountFault::NoMemory,
        }
    }
}

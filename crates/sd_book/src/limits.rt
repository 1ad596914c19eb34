/// The most commands of a book.
pub const MOST_COMMANDS: usize = 1_048_576;

/// The most Period commands of a book, which so has at most one period more.
pub const MOST_PERIODS: u32 = 1_023;

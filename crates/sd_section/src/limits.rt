/// The bytes of a section up to section_length (ISO/IEC 13818-1, 2.4.4).
pub const UP_TO_LENGTH: usize = 3;

/// The fewest bytes that section_length counts in the long form: the other five of the header, and the CRC.
pub const LEAST_LENGTH: u64 = 9;

/// The most that it may count.
pub const MOST_LENGTH: u64 = 4093;

/// The most bytes of a section.
pub const LONGEST: usize = UP_TO_LENGTH + MOST_LENGTH as usize;

/// Why bytes don't begin with a section in the long form (ISO/IEC 13818-1, 2.4.4).
#[derive(Clone, Copy, PartialEq, Eq)]
pub enum SectionFault {
    /// There are fewer than three bytes, or fewer than section_length says.
    Short,
    /// section_syntax_indicator is 0, or section_length is below 9 or above 4,093.
    Length,
    /// The CRC that the section ends with isn't that of the bytes before it.
    Crc { found: u32, due: u32 },
}

/// Why a packet isn't one section of a PAT, a CAT or a PMT by itself, in the order in which it is judged.
#[derive(Clone, Copy, PartialEq, Eq)]
pub enum FormFault {
    /// No unit start, or the pointer isn't 0.
    Pointer,
    /// Another table_id, no section_syntax_indicator, or one of several sections.
    Table,
    /// The section doesn't fit the payload, or is too short for what its table has.
    Length,
    /// The CRC that the section ends with isn't that of the bytes before it.
    Crc { found: u32, due: u32 },
    /// A byte after the section is no stuffing.
    Trailing,
    /// Fewer than six bytes stand after the section.
    NoRoom,
    /// Descriptors or streams don't fill their loops, or the first descriptor isn't the project's.
    Descriptor,
}

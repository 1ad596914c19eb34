ghost use Rattle.std.specs.Prelude.{◌≡◌, ◌+◌, ◌<◌, ◌≤◌, ◌↔◌, IsTrue, length};
ghost use Rattle.sd_section.specs.Header.{least_length, most_length, table_id_of, syntax_of, section_length_of};
ghost use Rattle.sd_section.specs.Header.{extension_of, section_version_number, current_of, section_number_of};
ghost use Rattle.sd_section.specs.Header.{last_number_of};
ghost use Rattle.sd_section.specs.Header.{body_of};
ghost use Rattle.sd_section.specs.Header.{crc_in, crc_due};

use sd_base::fields;

/// A section in the long form whose CRC is right (ISO/IEC 13818-1, 2.4.4).
#[derive(Clone, Copy)]
pub struct Section<'a> {
    pub(crate) bytes: &'a [u8],
    pub ghost long: { syntax_of bytes.now ≡ 1 },
    pub ghost low: { least_length ≤ section_length_of bytes.now },
    pub ghost high: { section_length_of bytes.now ≤ most_length },
    pub ghost whole: { length bytes.now ≡ 3 + section_length_of bytes.now },
    pub ghost sealed: { crc_in bytes.now ≡ crc_due bytes.now },
}

impl<'a> Section<'a> {
    /// table_id.
    pub fn table_id(&self) -> u8
        ensures { result ≡ table_id_of self.now.bytes.now }
    {
        fields! { self.bytes; table_id: 0, 8; }
        table_id as u8
    }

    /// The 16 bits that each table names in its own way, as transport_stream_id or program_number.
    pub fn extension(&self) -> u16
        ensures { result ≡ extension_of self.now.bytes.now }
    {
        fields! { self.bytes; extension: 24, 16; }
        extension as u16
    }

    /// version_number, of five bits.
    pub fn version(&self) -> u8
        ensures value { result ≡ section_version_number self.now.bytes.now }
        ensures fits { result < 32 }
    {
        fields! { self.bytes; version_number: 42, 5; }
        version_number as u8
    }

    /// Whether current_next_indicator is set.
    pub fn current(&self) -> bool
        ensures { IsTrue result ↔ (current_of self.now.bytes.now ≡ 1) }
    {
        fields! { self.bytes; current_next_indicator: 47, 1; }
        current_next_indicator == 1
    }

    /// section_number.
    pub fn number(&self) -> u8
        ensures { result ≡ section_number_of self.now.bytes.now }
    {
        fields! { self.bytes; section_number: 48, 8; }
        section_number as u8
    }

    /// last_section_number.
    pub fn last_number(&self) -> u8
        ensures { result ≡ last_number_of self.now.bytes.now }
    {
        fields! { self.bytes; last_section_number: 56, 8; }
        last_section_number as u8
    }

    /// The bytes between the header and the CRC.
    pub fn body(&self) -> &'a [u8]
        ensures { result.now ≡ body_of self.now.bytes.now }
    {
        &self.bytes[8..self.bytes.len() - 4]
    }

    /// All bytes, from table_id to the CRC.
    pub fn whole(&self) -> &'a [u8]
        ensures { result.now ≡ self.now.bytes.now }
    {
        self.bytes
    }
}

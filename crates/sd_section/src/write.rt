ghost use Rattle.std.specs.Prelude.{◌≡◌, ◌-◌, ◌≤◌, length, take};
ghost use Rattle.sd_section.specs.Header.{longest_body};
ghost use Rattle.sd_section.specs.Written.{header_bytes, with_crc};

use crate::crc32;
use crate::limits::LEAST_LENGTH;
use sd_base::fields;

/// What tells the sections that this project writes from one another. They are current, and their version is 0.
#[derive(Clone, Copy)]
pub struct Header {
    /// table_id.
    pub table_id: u8,
    /// The 16 bits that each table names in its own way.
    pub extension: u16,
    /// section_number.
    pub number: u8,
    /// last_section_number.
    pub last_number: u8,
}

impl Header {
    /// The header before a body of this number of bytes (ISO/IEC 13818-1, 2.4.4).
    pub fn bytes(&self, body: usize) -> [u8; 8]
        requires { body ≤ longest_body }
        ensures { result ≡ header_bytes self.now body }
    {
        let mut bytes = [0; 8];
        self.write(&mut bytes, body);
        bytes
    }

    // Writes the header into eight bytes.
    fn write(&self, bytes: &mut [u8], body: usize)
        requires room { length bytes.old ≡ 8 }
        requires body { body ≤ longest_body }
        ensures { bytes.new ≡ header_bytes self.now body }
    {
        fields! {
            bytes;
            table_id: 0, 8 = u64::from(self.table_id);
            section_syntax_indicator: 8, 1 = 1;
            zero: 9, 1 = 0;
            reserved: 10, 2 = 0b11;
            section_length: 12, 12 = body as u64 + LEAST_LENGTH;
            extension: 24, 16 = u64::from(self.extension);
            reserved: 40, 2 = 0b11;
            version_number: 42, 5 = 0;
            current_next_indicator: 47, 1 = 1;
            section_number: 48, 8 = u64::from(self.number);
            last_section_number: 56, 8 = u64::from(self.last_number);
        }
    }
}

/// Writes the CRC of all bytes but the last four into the last four.
pub fn seal(section: &mut [u8])
    requires { 4 ≤ length section.old }
    ensures value { section.new ≡ with_crc (take (length section.old - 4) section.old) }
    ensures length { length section.new ≡ length section.old }
{
    let end = section.len() - 4;
    let crc = crc32(&section[..end]);
    section[end..].copy_from_slice(&crc.to_be_bytes());
}

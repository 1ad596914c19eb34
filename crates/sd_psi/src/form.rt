ghost use Rattle.std.specs.Prelude.{◌≡◌, ◌+◌, ◌<◌, ◌≤◌, ◌==◌, ◌&&◌, true, Some, None, IfOk, MatchResult, length};
ghost use Rattle.sd_packet.specs.Header.{payload_start_of};
ghost use Rattle.sd_section.specs.Header.{section_number_of, last_number_of, whole_of};
ghost use Rattle.sd_psi.specs.Forms.{id_of, least_section_length, section_in, has_table as has_table_of};
ghost use Rattle.sd_psi.specs.Forms.{has_body as has_body_of};
ghost use Rattle.sd_psi.specs.Forms.{has_length as has_length_of, table_crc_fault, is_stuffing as is_stuffing_of};
ghost use Rattle.sd_psi.specs.Forms.{bytes_fault, outer_fault};

use crate::fault::FormFault;
use sd_base::fields;
use sd_packet::Packet;
use sd_section::{Section, SectionFault, read_one};

const STUFFING: u8 = 0xFF;

/// The tables that have a form.
#[derive(Clone, Copy)]
pub enum Table {
    /// The program association table, table_id 0 (ISO/IEC 13818-1, 2.4.4.3).
    Pat,
    /// The conditional access table, table_id 1 (ISO/IEC 13818-1, 2.4.4.6).
    Cat,
    /// A program map table, table_id 2 (ISO/IEC 13818-1, 2.4.4.8).
    Pmt,
}

impl Table {
    /// table_id.
    pub fn id(self) -> u8
        ensures { result ≡ id_of self }
    {
        match self {
            Table::Pat => 0x00,
            Table::Cat => 0x01,
            Table::Pmt => 0x02,
        }
    }

    /// section_length of an empty table.
    fn least(self) -> u64
        ensures { result ≡ least_section_length self }
    {
        match self {
            Table::Pat | Table::Cat => 9,
            Table::Pmt => 13,
        }
    }
}

/// The section that the packet is by itself, where all but its loops is as it is to be.
#[tactic(auto, unfolding(crate::specs::Forms::outer_fault))]
pub fn read<'a>(table: Table, packet: &'a Packet) -> Result<Section<'a>, FormFault>
    requires { payload_start_of packet.now < 188 }
    ensures value { IfOk result (λ section. section.bytes.now ≡ section_in packet.now) }
    ensures fault { MatchResult result (λ _. outer_fault table packet.now ≡ None)
        (λ fault. outer_fault table packet.now ≡ Some fault) }
{
    let payload = packet.payload();
    if !packet.unit_start() || payload[0] != 0 {
        return Err(FormFault::Pointer);
    }
    read_bytes(table, &payload[1..])
}

// The section with which the bytes after the pointer begin.
fn read_bytes<'a>(table: Table, bytes: &'a [u8]) -> Result<Section<'a>, FormFault>
    requires { length bytes.now ≤ 183 }
    ensures value { IfOk result (λ section. section.bytes.now ≡ whole_of bytes.now) }
    ensures fault { MatchResult result (λ _. bytes_fault table bytes.now ≡ None)
        (λ fault. bytes_fault table bytes.now ≡ Some fault) }
{
    if !has_table(table, bytes) {
        return Err(FormFault::Table);
    }
    if !has_length(table, bytes) {
        return Err(FormFault::Length);
    }
    let section = read_whole(table, bytes)?;
    if !is_stuffing(&bytes[section.whole().len()..]) {
        return Err(FormFault::Trailing);
    }
    Ok(section)
}

// The section that has this table and length, where its CRC is right.
#[tactic(auto, using(crate::proofs::Judging::crc_right, crate::proofs::Judging::crc_wrong, crate::proofs::Judging::never_short, crate::proofs::Judging::never_length))]
fn read_whole<'a>(table: Table, bytes: &'a [u8]) -> Result<Section<'a>, FormFault>
    requires short { length bytes.now ≤ 183 }
    requires table { has_table_of table bytes.now ≡ true }
    requires length { has_length_of table bytes.now ≡ true }
    ensures value { IfOk result (λ section. section.bytes.now ≡ whole_of bytes.now) }
    ensures fault { MatchResult result (λ _. table_crc_fault (whole_of bytes.now) ≡ None)
        (λ fault. table_crc_fault (whole_of bytes.now) ≡ Some fault) }
{
    match read_one(bytes) {
        Ok(section) => Ok(section),
        Err(SectionFault::Crc { found, due }) => Err(FormFault::Crc { found, due }),
        Err(SectionFault::Short | SectionFault::Length) => Err(FormFault::Length),
    }
}

// Whether the bytes begin with the table's id and the long form, and the section is the only one.
fn has_table(table: Table, bytes: &[u8]) -> bool
    ensures { result ≡ has_table_of table bytes.now }
{
    if bytes.len() < 2 {
        return false;
    }
    fields! { bytes; table_id: 0, 8; section_syntax_indicator: 8, 1; }
    table_id == u64::from(table.id()) && section_syntax_indicator == 1 && is_only(bytes)
}

// Whether section_number and last_section_number are 0, if the bytes go so far.
fn is_only(bytes: &[u8]) -> bool
    ensures { result ≡ ((section_number_of bytes.now == 0) && (last_number_of bytes.now == 0)) }
{
    is_first(bytes) && is_last(bytes)
}

// Whether section_number is 0, if the bytes go so far.
#[tactic(auto, using(crate::proofs::Judging::past_is_zero))]
fn is_first(bytes: &[u8]) -> bool
    ensures { result ≡ (section_number_of bytes.now == 0) }
{
    if bytes.len() < 7 {
        return true;
    }
    fields! { bytes; section_number: 48, 8; }
    section_number == 0
}

// Whether last_section_number is 0, if the bytes go so far.
#[tactic(auto, using(crate::proofs::Judging::past_is_zero))]
fn is_last(bytes: &[u8]) -> bool
    ensures { result ≡ (last_number_of bytes.now == 0) }
{
    if bytes.len() < 8 {
        return true;
    }
    fields! { bytes; last_section_number: 56, 8; }
    last_section_number == 0
}

// Whether the bytes begin with a whole section that has the length that its table asks for.
fn has_length(table: Table, bytes: &[u8]) -> bool
    ensures { result ≡ has_length_of table bytes.now }
{
    if bytes.len() < 3 {
        return false;
    }
    fields! { bytes; section_length: 12, 12; }
    let end = 3 + section_length as usize;
    end <= bytes.len() && section_length >= table.least() && has_body(table, &bytes[..end])
}

// Whether the section's body has the length that its table asks for.
#[tactic(auto, using(sd_section::proofs::Cutting::body_long), unfolding(crate::specs::Forms::has_body, crate::specs::Tables::has_info))]
fn has_body(table: Table, section: &[u8]) -> bool
    requires { 12 ≤ length section.now }
    ensures { result ≡ has_body_of table section.now }
{
    match table {
        Table::Pat => (section.len() - 12) % 4 == 0,
        Table::Cat => true,
        Table::Pmt => {
            fields! { section; program_info_length: 84, 12; }
            16 + program_info_length as usize <= section.len()
        }
    }
}

// Whether the bytes are stuffing alone.
fn is_stuffing(bytes: &[u8]) -> bool
    ensures { result ≡ is_stuffing_of bytes.now }
{
    bytes.iter().all(|byte| *byte == STUFFING)
}

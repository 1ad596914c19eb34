ghost use Rattle.std.specs.Prelude.{◌≡◌, ◌+◌, ◌<◌, ◌↔◌, true, false, IsNone};
ghost use Rattle.std.specs.Prelude.{IfSome, IsTrue, length};
ghost use Rattle.sd_section.specs.Header.{extension_of, section_version_number, current_of};
ghost use Rattle.sd_psi.specs.Rewriting.{is_first_descriptor};
ghost use Rattle.sd_psi.specs.Tables.{are_descriptors, pcr_of, has_info, info_of, loop_of, streams_in};
ghost use Rattle.sd_psi.specs.Tables.{streams_of, are_streams as are_streams_of, is_pmt};

use crate::descriptor::Descriptors;
use crate::form::Table;
use crate::items::{Kind, fill, size};
use crate::stream::Streams;
use sd_base::fields;
use sd_section::Section;

/// A section of a program map table (ISO/IEC 13818-1, 2.4.4.8).
#[derive(Clone, Copy)]
pub struct Pmt<'a> {
    section: Section<'a>,
    pub ghost form: { is_pmt section.bytes.now ≡ true },
}

/// The PMT that this section is.
#[tactic(auto, using(crate::proofs::Listing::pmt_by_parts, crate::proofs::Listing::no_pmt))]
pub fn pmt_in<'a>(section: &Section<'a>) -> Option<Pmt<'a>>
    ensures none { IsNone result ↔ (is_pmt section.now.bytes.now ≡ false) }
    ensures value { IfSome result (λ pmt. pmt.section.bytes.now ≡ section.now.bytes.now) }
{
    let (info, streams) = loops(section)?;
    if section.table_id() == Table::Pmt.id()
        && fill(Kind::Descriptor, info)
        && are_streams(streams)
    {
        Some(Pmt { section: *section })
    } else {
        None
    }
}

// The bytes that program_info_length counts, and those after them, where all of them are there.
#[tactic(auto, unfolding(crate::specs::Tables::has_info, crate::specs::Tables::info_of, crate::specs::Tables::loop_of))]
fn loops<'a>(section: &Section<'a>) -> Option<(&'a [u8], &'a [u8])>
    ensures none { IsNone result ↔ (has_info section.now.bytes.now ≡ false) }
    ensures info { IfSome result (λ loops. loops.0.now ≡ info_of section.now.bytes.now) }
    ensures streams { IfSome result (λ loops. loops.1.now ≡ loop_of section.now.bytes.now) }
{
    let body = section.body();
    let bytes = section.whole();
    fields! { bytes; program_info_length: 84, 12; }
    let end = 4 + program_info_length as usize;
    if end <= body.len() {
        Some((&body[4..end], &body[end..]))
    } else {
        None
    }
}

// Whether streams fill the bytes, and descriptors the part of each that ES_info_length counts.
fn are_streams(bytes: &[u8]) -> bool
    ensures { result ≡ are_streams_of bytes.now }
{
    let mut at = 0;
    while at < bytes.len() {
        let Some(size) = size(Kind::Stream, &bytes[at..]) else {
            return false;
        };
        if !fill(Kind::Descriptor, &bytes[at + 5..at + size]) {
            return false;
        }
        at += size;
    }
    true
}

impl<'a> Pmt<'a> {
    /// version_number.
    pub fn version(&self) -> u8
        ensures { result ≡ section_version_number self.now.section.bytes.now }
    {
        self.section.version()
    }

    /// Whether current_next_indicator is set.
    pub fn current(&self) -> bool
        ensures { IsTrue result ↔ (current_of self.now.section.bytes.now ≡ 1) }
    {
        self.section.current()
    }

    /// program_number.
    pub fn program(&self) -> u16
        ensures { result ≡ extension_of self.now.section.bytes.now }
    {
        self.section.extension()
    }

    /// PCR_PID.
    pub fn pcr(&self) -> u16
        ensures { result ≡ pcr_of self.now.section.bytes.now }
    {
        let bytes = self.section.whole();
        fields! { bytes; pcr_pid: 67, 13; }
        pcr_pid as u16
    }

    // The bytes that program_info_length counts.
    #[tactic(auto, using(crate::proofs::Listing::pmt_has, crate::proofs::Listing::pmt_info))]
    fn info_bytes(&self) -> &'a [u8]
        ensures value { result.now ≡ info_of self.now.section.bytes.now }
        ensures whole { are_descriptors result.now ≡ true }
    {
        loops(&self.section).unwrap().0
    }

    /// The program's descriptors.
    pub fn descriptors(&self) -> Descriptors<'a>
        ensures { result.bytes.now ≡ info_of self.now.section.bytes.now }
    {
        Descriptors::of(self.info_bytes())
    }

    // Whether the program's first descriptor is this one.
    #[tactic(auto, using(crate::proofs::Packets::first_is, crate::proofs::Packets::none_is_first))]
    pub(crate) fn begins_with(&self, descriptor: &[u8]) -> bool
        requires { 0 < length descriptor.now }
        ensures { result ≡ is_first_descriptor descriptor.now self.now.section.bytes.now }
    {
        match self.descriptors().next() {
            Some(first) => first.bytes == descriptor,
            None => false,
        }
    }

    // The bytes of the streams.
    #[tactic(auto, using(crate::proofs::Listing::pmt_has, crate::proofs::Listing::pmt_streams))]
    fn stream_bytes(&self) -> &'a [u8]
        ensures value { result.now ≡ loop_of self.now.section.bytes.now }
        ensures whole { are_streams_of result.now ≡ true }
    {
        loops(&self.section).unwrap().1
    }

    /// Its streams.
    #[tactic(auto, unfolding(crate::specs::Tables::streams_of))]
    pub fn streams(&self) -> Streams<'a>
        ensures { streams_in result.bytes.now ≡ streams_of self.now.section.bytes.now }
    {
        Streams::of(self.stream_bytes())
    }
}

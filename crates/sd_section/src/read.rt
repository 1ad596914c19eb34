ghost use Rattle.std.specs.Prelude.{◌≡◌, ◌+◌, ◌-◌, ◌<◌, ◌≤◌, Some, None, IfOk, MatchResult, length};
ghost use Rattle.sd_section.specs.Header.{section_length_of, whole_of, crc_in, crc_due};
ghost use Rattle.sd_section.specs.Judged.{section_fault, head_fault, crc_fault};

use crate::crc32;
use crate::fault::SectionFault;
use crate::limits::{LEAST_LENGTH, MOST_LENGTH, UP_TO_LENGTH};
use crate::section::Section;
use sd_base::fields;

/// The section in the long form with which the bytes begin.
#[tactic(auto, using(crate::proofs::Judging::head_is_first, crate::proofs::Judging::short_first, crate::proofs::Judging::crc_first, crate::proofs::Judging::none_wrong))]
pub fn read_one<'a>(bytes: &'a [u8]) -> Result<Section<'a>, SectionFault>
    ensures value { IfOk result (λ section. section.bytes.now ≡ whole_of bytes.now) }
    ensures fault { MatchResult result (λ _. section_fault bytes.now ≡ None)
        (λ fault. section_fault bytes.now ≡ Some fault) }
{
    let length = length_in(bytes)?;
    if bytes.len() < UP_TO_LENGTH + length {
        return Err(SectionFault::Short);
    }
    let whole = &bytes[..UP_TO_LENGTH + length];
    check(whole)?;
    Ok(Section { bytes: whole })
}

// How many bytes stand after section_length.
fn length_in(bytes: &[u8]) -> Result<usize, SectionFault>
    ensures value { IfOk result (λ length. length ≡ section_length_of bytes.now) }
    ensures fault { MatchResult result (λ _. head_fault bytes.now ≡ None) (λ fault. head_fault bytes.now ≡ Some fault) }
{
    if bytes.len() < UP_TO_LENGTH {
        return Err(SectionFault::Short);
    }
    fields! { bytes; section_syntax_indicator: 8, 1; section_length: 12, 12; }
    if section_syntax_indicator == 0 || !(LEAST_LENGTH..=MOST_LENGTH).contains(&section_length) {
        return Err(SectionFault::Length);
    }
    Ok(section_length as usize)
}

// Whether the section's CRC is right.
#[tactic(auto, unfolding(crate::specs::Header::crc_in, crate::specs::Header::crc_due))]
fn check(section: &[u8]) -> Result<(), SectionFault>
    requires { 4 ≤ length section.now }
    ensures { MatchResult result (λ _. crc_fault section.now ≡ None) (λ fault. crc_fault section.now ≡ Some fault) }
{
    let (head, end) = section.split_at(section.len() - 4);
    fields! { end; crc: 0, 32; }
    let (found, due) = (crc as u32, crc32(head));
    if found != due {
        return Err(SectionFault::Crc { found, due });
    }
    Ok(())
}

ghost use Rattle.std.specs.Prelude.{◌≡◌, ◌<◌, ◌↔◌, true, false, Some, None, IfOk, MatchResult, IsNone, IfSome, IsTrue};
ghost use Rattle.sd_section.specs.Header.{body_of, section_version_number, current_of};
ghost use Rattle.sd_packet.specs.Header.{payload_start_of};
ghost use Rattle.sd_psi.specs.Forms.{section_in, cat_fault};
ghost use Rattle.sd_psi.specs.Tables.{is_cat};

use crate::descriptor::Descriptors;
use crate::fault::FormFault;
use crate::form::{Table, read};
use crate::items::{Kind, fill};
use sd_packet::Packet;
use sd_section::Section;

/// A section of the conditional access table (ISO/IEC 13818-1, 2.4.4.6).
#[derive(Clone, Copy)]
pub struct Cat<'a> {
    section: Section<'a>,
    pub ghost form: { is_cat section.bytes.now ≡ true },
}

/// The CAT that this section is.
pub fn cat_in<'a>(section: &Section<'a>) -> Option<Cat<'a>>
    ensures none { IsNone result ↔ (is_cat section.now.bytes.now ≡ false) }
    ensures value { IfSome result (λ cat. cat.section.bytes.now ≡ section.now.bytes.now) }
{
    if section.table_id() == Table::Cat.id() && fill(Kind::Descriptor, section.body()) {
        Some(Cat { section: *section })
    } else {
        None
    }
}

/// The CAT that the packet is by itself.
#[tactic(auto, using(crate::proofs::Judging::outer_first, crate::proofs::Judging::then_good, crate::proofs::Judging::then_loops))]
pub fn cat_of<'a>(packet: &'a Packet) -> Result<Cat<'a>, FormFault>
    requires { payload_start_of packet.now < 188 }
    ensures value { IfOk result (λ cat. cat.section.bytes.now ≡ section_in packet.now) }
    ensures fault { MatchResult result (λ _. cat_fault packet.now ≡ None) (λ fault. cat_fault packet.now ≡ Some fault) }
{
    let section = read(Table::Cat, packet)?;
    cat_in(&section).ok_or(FormFault::Descriptor)
}

impl<'a> Cat<'a> {
    /// version_number.
    pub fn version(&self) -> u8
        ensures { result ≡ section_version_number self.now.section.bytes.now }
    {
        self.section.version()
    }

    /// Whether current_next_indicator is set.
    pub fn current(&self) -> bool
        ensures { IsTrue result ↔ (current_of self.now.section.bytes.now ≡ 1) }
    {
        self.section.current()
    }

    /// Its descriptors.
    #[tactic(auto, using(crate::proofs::Listing::cat_body))]
    pub fn descriptors(&self) -> Descriptors<'a>
        ensures { result.bytes.now ≡ body_of self.now.section.bytes.now }
    {
        Descriptors::of(self.section.body())
    }
}

ghost use Rattle.std.specs.Prelude.{◌≡◌, ◌<◌, ◌↔◌, true, false, Some, None, IfOk, MatchResult, IsNone, IfSome};
ghost use Rattle.std.specs.Prelude.{IsTrue};
ghost use Rattle.sd_section.specs.Header.{extension_of, section_version_number, current_of};
ghost use Rattle.sd_packet.specs.Header.{payload_start_of};
ghost use Rattle.sd_psi.specs.Forms.{section_in, pat_fault};
ghost use Rattle.sd_psi.specs.Tables.{programs_in, programs_of, pmt_pids_in, pmt_pids_of, is_pat};

use crate::fault::FormFault;
use crate::form::{Table, read};
use crate::items::{Kind, fill};
use crate::program::{PmtPids, Programs};
use sd_packet::Packet;
use sd_section::Section;

/// A section of the program association table (ISO/IEC 13818-1, 2.4.4.3).
#[derive(Clone, Copy)]
pub struct Pat<'a> {
    section: Section<'a>,
    pub ghost form: { is_pat section.bytes.now ≡ true },
}

/// The PAT that this section is.
pub fn pat_in<'a>(section: &Section<'a>) -> Option<Pat<'a>>
    ensures none { IsNone result ↔ (is_pat section.now.bytes.now ≡ false) }
    ensures value { IfSome result (λ pat. pat.section.bytes.now ≡ section.now.bytes.now) }
{
    if section.table_id() == Table::Pat.id() && fill(Kind::Program, section.body()) {
        Some(Pat { section: *section })
    } else {
        None
    }
}

/// The PAT that the packet is by itself.
#[tactic(auto, using(crate::proofs::Judging::outer_first, crate::proofs::Judging::then_good, crate::proofs::Judging::then_loops))]
pub fn pat_of<'a>(packet: &'a Packet) -> Result<Pat<'a>, FormFault>
    requires { payload_start_of packet.now < 188 }
    ensures value { IfOk result (λ pat. pat.section.bytes.now ≡ section_in packet.now) }
    ensures fault { MatchResult result (λ _. pat_fault packet.now ≡ None) (λ fault. pat_fault packet.now ≡ Some fault) }
{
    let section = read(Table::Pat, packet)?;
    pat_in(&section).ok_or(FormFault::Descriptor)
}

impl<'a> Pat<'a> {
    /// version_number.
    pub fn version(&self) -> u8
        ensures { result ≡ section_version_number self.now.section.bytes.now }
    {
        self.section.version()
    }

    /// Whether current_next_indicator is set.
    pub fn current(&self) -> bool
        ensures { IsTrue result ↔ (current_of self.now.section.bytes.now ≡ 1) }
    {
        self.section.current()
    }

    /// transport_stream_id.
    pub fn stream_id(&self) -> u16
        ensures { result ≡ extension_of self.now.section.bytes.now }
    {
        self.section.extension()
    }

    /// Its programs.
    #[tactic(auto, using(crate::proofs::Listing::pat_body), unfolding(crate::specs::Tables::programs_of))]
    pub fn programs(&self) -> Programs<'a>
        ensures { programs_in result.bytes.now ≡ programs_of self.now.section.bytes.now }
    {
        Programs::of(self.section.body())
    }

    /// The PIDs that it gives to the PMTs of its programs: to all programs but 0.
    #[tactic(auto, unfolding(crate::specs::Tables::pmt_pids_of))]
    pub fn pmt_pids(&self) -> PmtPids<'a>
        ensures { pmt_pids_in (programs_in result.programs.bytes.now) ≡ pmt_pids_of self.now.section.bytes.now }
    {
        PmtPids {
            programs: self.programs(),
        }
    }
}

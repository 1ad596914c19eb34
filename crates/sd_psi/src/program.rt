ghost use Rattle.std.specs.Prelude.{◌≡◌, ◌<◌, ◌↔◌, [], ◌∷◌, true, IsNone, IfSome};
ghost use Rattle.sd_psi.specs.Items.{are_whole};
ghost use Rattle.sd_psi.specs.declared.items.Kind.TheVariants.{Program};
ghost use Rattle.sd_psi.specs.Tables.{programs_in, pmt_pids_in};

use crate::items::{Kind, first};
use sd_base::fields;

/// The programs that fill some bytes of a PAT, one after the other (ISO/IEC 13818-1, 2.4.4.3).
#[derive(Clone, Copy)]
pub struct Programs<'a> {
    bytes: &'a [u8],
    pub ghost whole: { are_whole Program bytes.now ≡ true },
}

impl<'a> Programs<'a> {
    // Those that fill these bytes.
    pub(crate) fn of(bytes: &'a [u8]) -> Programs<'a>
        requires { are_whole Program bytes.now ≡ true }
        ensures { result.bytes.now ≡ bytes.now }
    {
        Programs { bytes }
    }

    /// The number of the next program, and the PID of its PMT, or of the network for number 0.
    #[tactic(auto, using(crate::proofs::Listing::program_first, crate::proofs::Listing::no_program), unfolding(crate::specs::Items::item_size))]
    pub fn next(&mut self) -> Option<(u16, u16)>
        ensures none { IsNone result ↔ (programs_in self.old.bytes.now ≡ []) }
        ensures value { IfSome result (λ program.
            programs_in self.old.bytes.now ≡ program ∷ programs_in self.new.bytes.now) }
        ensures fits { IfSome result (λ program. program.1 < 8192) }
        ensures unchanged { IsNone result → self.new.bytes.now ≡ self.old.bytes.now }
    {
        let (program, rest) = first(Kind::Program, self.bytes)?;
        self.bytes = rest;
        fields! { program; program_number: 0, 16; program_map_pid: 19, 13; }
        Some((program_number as u16, program_map_pid as u16))
    }
}

/// The PIDs of the PMTs of some programs, one after the other: those of all programs but 0.
#[derive(Clone, Copy)]
pub struct PmtPids<'a> {
    pub(crate) programs: Programs<'a>,
}

impl<'a> PmtPids<'a> {
    /// The next PID.
    #[tactic(auto, using(crate::proofs::Listing::no_pids, crate::proofs::Listing::pid_passed, crate::proofs::Listing::pid_given, crate::proofs::Listing::some_pid))]
    pub fn next(&mut self) -> Option<u16>
        ensures none { IsNone result ↔ (pmt_pids_in (programs_in self.old.programs.bytes.now) ≡ []) }
        ensures value { IfSome result (λ pid. pmt_pids_in (programs_in self.old.programs.bytes.now)
            ≡ pid ∷ pmt_pids_in (programs_in self.new.programs.bytes.now)) }
        ensures fits { IfSome result (λ pid. pid < 8192) }
        ensures unchanged { IsNone result → pmt_pids_in (programs_in self.new.programs.bytes.now)
            ≡ pmt_pids_in (programs_in self.old.programs.bytes.now) }
    {
        while let Some((number, pid)) = self.programs.next() {
            if number != 0 {
                return Some(pid);
            }
        }
        None
    }
}

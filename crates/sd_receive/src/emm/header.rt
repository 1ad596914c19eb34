//! What all sections of a period say alike, and marks of those that were seen.

ghost use Rattle.std.specs.Prelude.{◌≡◌, ◌<◌, ◌^◌, ◌≤◌, length};
ghost use Rattle.std.specs.List.{list_all};
ghost use Rattle.sd_receive.specs.PeriodKeys.{says_in, all_marked, cleared};

use sd_message::Emm;

/// What all sections of a period say alike [this project, docs/FORMATS.md, Messages].
#[derive(Clone, Copy, PartialEq, Eq)]
pub struct PeriodHeader {
    /// The number of sets of the period.
    pub sets: u32,
    /// The number of sections of the period.
    pub sections: u16,
    /// The check value of the period's key.
    pub check: [u8; 16],
}

impl PeriodHeader {
    /// What a section says of its period.
    pub fn of(emm: &Emm) -> PeriodHeader
        ensures value { result ≡ says_in emm.now }
        ensures fits { result.sections < 2 ^ 16 }
    {
        PeriodHeader {
            sets: emm.sets,
            // The conversion tells the proof that it has 16 bits.
            sections: u16::from(emm.sections),
            check: emm.check,
        }
    }
}

/// The number of indexes that sections may have, of 16 bits.
pub const SECTIONS: usize = 1 << 16;

/// Whether all sections of a period whose sections say this are marked; not if none was seen.
pub fn are_all_marked(marks: &[bool], header: Option<PeriodHeader>) -> bool
    requires { SECTIONS ≤ length marks.now }
    ensures { result ≡ all_marked header marks.now }
{
    let Some(header) = header else {
        return false;
    };
    are_set(&marks[..usize::from(header.sections)])
}

fn are_set(marks: &[bool]) -> bool
    ensures { result ≡ list_all (λ mark. mark) marks.now }
{
    marks.iter().all(|mark| *mark)
}

/// Clears the marks of a period's sections.
pub fn reset_marks(marks: &mut [bool], header: Option<PeriodHeader>)
    requires { SECTIONS ≤ length marks.old }
    ensures value { marks.new ≡ cleared header marks.old }
    ensures length { length marks.new ≡ length marks.old }
{
    if let Some(header) = header {
        marks[..usize::from(header.sections)].fill(false);
    }
}

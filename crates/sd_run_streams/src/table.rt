ghost use Rattle.std.specs.Prelude.{◌≡◌, ◌↔◌, ℕ, false, IfSome, IsNone};
ghost use Rattle.sd_run_streams.specs.TableLines.{section_line};
ghost use Rattle.sd_run_streams.specs.Judged.{is_table, IsTableSection, IsTableOn, line_as};

use sd_psi::{Cat, Pat, Pmt, cat_in, pat_in, pmt_in};
use sd_section::{Section, SectionFault, read_one};

/// The table that a section is on its PID (ISO/IEC 13818-1, 2.4.4).
#[derive(Clone, Copy)]
pub enum Table<'a> {
    /// On PID 0.
    Pat(Pat<'a>),
    /// On PID 1.
    Cat(Cat<'a>),
    /// On each other PID.
    Pmt(Pmt<'a>),
}

/// Why the bytes of a section are no table of their PID (this project, docs/FORMATS.md, Inspector).
#[derive(Clone, Copy)]
pub enum TableFault {
    /// They are fewer than the section has, or it is not in the long form.
    Length,
    /// Its CRC is not the one due.
    Crc,
    /// It is another table, or its loops don't fill it.
    Form,
}

/// The table that the bytes of a section are on this PID. They are read once.
#[tactic(auto, using(crate::proofs::Judging::same_line))]
pub fn table_on<'a>(pid: u16, section: &'a [u8]) -> Result<Table<'a>, TableFault>
    ensures value { IsTableOn pid section.now result }
    ensures lines { (packet : ℕ) → line_as packet pid result ≡ section_line packet pid section.now }
{
    match read_one(section) {
        Ok(section) => table_in(pid, &section).ok_or(TableFault::Form),
        Err(SectionFault::Short | SectionFault::Length) => Err(TableFault::Length),
        Err(SectionFault::Crc { .. }) => Err(TableFault::Crc),
    }
}

// The table that a whole section is: PID 0 has PATs, PID 1 has CATs, and each other PID has PMTs.
fn table_in<'a>(pid: u16, section: &Section<'a>) -> Option<Table<'a>>
    ensures none { IsNone result ↔ (is_table pid section.now.bytes.now ≡ false) }
    ensures value { IfSome result (λ table. IsTableSection pid section.now.bytes.now table) }
{
    match pid {
        0 => pat_in(section).map(Table::Pat),
        1 => cat_in(section).map(Table::Cat),
        _ => pmt_in(section).map(Table::Pmt),
    }
}

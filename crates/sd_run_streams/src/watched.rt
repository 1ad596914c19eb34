ghost use Rattle.std.specs.Prelude.{◌≡◌, ◌<◌, ℕ, List, false, None, IfOk, [], ◌∷◌, get_or, vec_len};
ghost use Rattle.sd_section.specs.Header.{whole_of};
ghost use Rattle.sd_section.specs.Judged.{section_fault};
ghost use Rattle.sd_psi.specs.Tables.{pmt_pids_of};
ghost use Rattle.sd_run_streams.specs.Judged.{IsTableSection, IsTableOn};
ghost use Rattle.sd_run_streams.specs.Watching.{naming, AreWatchedMarks, AreAdded, AreSectionsLearned};

use crate::{Table, TableFault};
use sd_base::NoMemory;
use sd_psi::Pat;
use std::alloc::Global;

/// How many PIDs there are.
pub const PIDS: usize = 8192;

/// The PIDs that are watched (this project, docs/FORMATS.md, Inspector).
#[derive(Drop)]
pub struct Watched {
    pub(crate) marks: Vec<bool>,
    pub ghost long: { vec_len marks ≡ 8192 },
}

impl Watched {
    /// PID 0 with the PAT and PID 1 with the CAT.
    pub fn new(alloc: Global) -> Result<Watched, NoMemory>
        ensures { IfOk result (λ watched. AreWatchedMarks [] watched.marks.items) }
    {
        let Ok(mut marks) = vec![in alloc; false; PIDS] else {
            return Err(NoMemory);
        };
        marks[0] = true;
        marks[1] = true;
        Ok(Watched { marks })
    }

    /// Whether the PID is watched.
    pub fn has(&self, pid: u16) -> bool
        requires { pid < 8192 }
        ensures { result ≡ get_or self.now.marks.items pid false }
    {
        self.marks[usize::from(pid)]
    }

    /// Watches the PIDs of the PMTs that a section names, judged as one of its PID, where it is a PAT.
    #[tactic(auto, using(crate::proofs::Learning::is_sound_table, crate::proofs::Learning::is_table_of))]
    pub fn learn(&mut self, table: &Result<Table, TableFault>)
        ensures { (pid : ℕ) (section : List ℕ) → IsTableOn pid section table.now →
            AreSectionsLearned (naming pid (section ∷ [])) self.old.marks.items self.new.marks.items }
    {
        match table {
            Ok(table) => self.learn_table(table),
            Err(_fault) => {}
        }
    }

    // Watches those that a table of its PID names.
    #[tactic(auto, using(crate::proofs::Learning::pat_learned))]
    fn learn_table(&mut self, table: &Table)
        ensures { (pid : ℕ) (section : List ℕ) → section_fault section ≡ None →
            IsTableSection pid (whole_of section) table.now →
            AreSectionsLearned (naming pid (section ∷ [])) self.old.marks.items self.new.marks.items }
    {
        match table {
            Table::Pat(pat) => self.learn_programs(pat),
            Table::Cat(_cat) => {}
            Table::Pmt(_pmt) => {}
        }
    }

    // Watches the PIDs of the PMTs of its programs.
    #[tactic(auto, using(crate::proofs::Learning::none_added, crate::proofs::Learning::one_added, crate::proofs::Learning::all_added))]
    fn learn_programs(&mut self, pat: &Pat)
        ensures { AreAdded (pmt_pids_of pat.now.section.bytes.now) self.old.marks.items self.new.marks.items }
    {
        let mut pids = pat.pmt_pids();
        while let Some(pid) = pids.next() {
            self.marks[usize::from(pid)] = true;
        }
    }
}

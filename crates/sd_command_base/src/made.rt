ghost use Rattle.std.specs.Prelude.{◌≡◌, ℕ, List, IsErrOf};
ghost use Rattle.sd_command_base.specs.Outside.{PageState, depot_state, io_state};
ghost use Rattle.sd_command_base.specs.Spec.{value};
ghost use Rattle.sd_command_base.specs.Work.{StepBound};
ghost use Rattle.sd_command_base.specs.Outcome.{OutcomeWithin, status_of};
ghost use Rattle.sd_command_base.specs.Made.{NewStep, making, making_told};
ghost use Rattle.sd_command_base.specs.Shown.{shown_word};

use crate::word::Word;
use crate::{OutCause, Status};
use sd_ports::{Depot, FileFault, New, write_file, write_new};
use std::alloc::Global;

/// Makes the file that a word names, with these bytes.
pub fn make_file<D: Depot>(
    alloc: Global,
    depot: &mut D,
    word: Word<'_>,
    bytes: &[u8],
) -> Result<(), Status>
    ensures { (page : PageState) (steps : ℕ) (most : StepBound) →
        OutcomeWithin (value (making most (shown_word word.entry) bytes.now))
        (io_state (depot_state D.Depot depot.old) page steps) (io_state (depot_state D.Depot depot.new) page steps)
        (status_of result) }
{
    told(word.number, write_file(alloc, depot, word.text, bytes))
}

/// What is answered once the file of this word was to be made.
pub fn told(word: u8, written: Result<(), FileFault>) -> Result<(), Status>
    requires { ¬ IsErrOf written FileFault.TooBig }
    ensures { result ≡ making_told word written }
{
    match written {
        Ok(()) => Ok(()),
        Err(FileFault::Missing) => Err(Status::Missing(word)),
        Err(FileFault::Failed) => Err(Status::DepotFault),
        Err(FileFault::NoMemory) => Err(Status::NoMemory),
        Err(FileFault::TooBig) => unreachable!(),
    }
}

/// Makes the file that a word names, with these bytes, if nothing has its name. What is printed after it is the
/// caller's.
pub fn make_new<D: Depot>(
    alloc: Global,
    depot: &mut D,
    word: Word<'_>,
    bytes: &[u8],
) -> Result<(), Status>
    ensures { (pieces : List (List ℕ)) (page : PageState) (steps : ℕ) →
        NewStep (record { bytes = bytes.now; pieces = pieces }) (shown_word word.entry)
        (io_state (depot_state D.Depot depot.old) page steps) (io_state (depot_state D.Depot depot.new) page steps)
        result }
{
    match write_new(alloc, depot, word.text, bytes) {
        Ok(New::Made) => Ok(()),
        Ok(New::There) => Err(Status::BadOut {
            word: word.number,
            cause: OutCause::There,
        }),
        Err(fault) => told(word.number, Err(fault)),
    }
}

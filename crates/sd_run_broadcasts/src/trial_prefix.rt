ghost use Rattle.std.specs.Prelude.{◌≡◌};
ghost use Rattle.sd_command_base.specs.Outside.{depot_state};
ghost use Rattle.sd_command_base.specs.Reads.{FileOutcome};
ghost use Rattle.sd_run_broadcasts.specs.Prefixes.{prefix_of_file, told_prefix};

use sd_command_base::{Status, Word, opening_fault};
use sd_ports::{Depot, ReadMostFault, Taken, read_most};
use std::alloc::Global;

/// Opens, reads and closes the file of this argument, and returns its first bytes, at most `most`.
pub fn read_prefix<D: Depot>(
    alloc: Global,
    depot: &mut D,
    word: Word<'_>,
    most: usize,
) -> Result<Taken, Status>
    ensures { FileOutcome (λ prefix. prefix) (prefix_of_file word.entry.number most) word.entry.text.now
        (depot_state D.Depot depot.old) (depot_state D.Depot depot.new) result }
{
    let mut port = match depot.open_in(alloc, word.text) {
        Ok(port) => port,
        Err(fault) => return Err(opening_fault(word.number, fault)),
    };
    let read = read_most(alloc, &mut port, most);
    depot.close_in(port);
    told(read)
}

/// The result of reading the first bytes of a file.
fn told(read: Result<Taken, ReadMostFault>) -> Result<Taken, Status>
    ensures { result ≡ told_prefix read }
{
    match read {
        Ok(prefix) => Ok(prefix),
        Err(ReadMostFault::Failed) => Err(Status::DepotFault),
        Err(ReadMostFault::NoMemory) => Err(Status::NoMemory),
    }
}

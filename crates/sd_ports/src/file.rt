ghost use Rattle.std.specs.Prelude.{◌≡◌, ◌≤◌, ◌⊎◌, IfOk, IsErrOf, length};
ghost use Rattle.sd_base.specs.Count.{IsCaused, with_added};
ghost use Rattle.sd_ports.specs.Causes.{CountsCalls, CountsNewCalls, HasFileCause};
ghost use Rattle.sd_ports.specs.Files.{IsFile, IsLongFile, IsNotThere, IsThere, WritesFile, WritesNewFile};

use crate::depot::Depot;
use crate::fault::DepotFault;
use crate::whole::{ReadAllFault, read_all, write_all};
use std::alloc::Global;

/// Why a whole file wasn't read or written.
#[derive(Clone, Copy, PartialEq, Eq)]
pub enum FileFault {
    /// There is no such file.
    Missing = 1,
    /// It has more bytes than were allowed.
    TooBig = 2,
    /// An I/O error.
    Failed = 3,
    /// Out of memory.
    NoMemory = 4,
}

/// What came of writing a new file.
#[derive(Clone, Copy, PartialEq, Eq)]
pub enum New {
    /// It was made.
    Made,
    /// The name is there already, and nothing changed.
    There,
}

impl From<DepotFault> for FileFault {
    ghost use Rattle.std.specs.Prelude.{◌≡◌};
    ghost use Rattle.sd_ports.specs.Faults.{file_fault};

    ghost from_gives = { λ fault file. file ≡ file_fault fault };

    fn from(fault: DepotFault) -> FileFault {
        match fault {
            DepotFault::Missing => FileFault::Missing,
            DepotFault::Failed => FileFault::Failed,
            DepotFault::NoMemory => FileFault::NoMemory,
        }
    }
}

impl From<ReadAllFault> for FileFault {
    ghost use Rattle.std.specs.Prelude.{◌≡◌};
    ghost use Rattle.sd_ports.specs.Faults.{whole_fault};

    ghost from_gives = { λ fault file. file ≡ whole_fault fault };

    fn from(fault: ReadAllFault) -> FileFault {
        match fault {
            ReadAllFault::TooBig => FileFault::TooBig,
            ReadAllFault::Failed => FileFault::Failed,
            ReadAllFault::NoMemory => FileFault::NoMemory,
        }
    }
}

/// Reads a whole file of at most `most` bytes: it opens, reads and closes it, and only then answers.
pub fn read_file<D: Depot>(
    alloc: Global,
    depot: &mut D,
    name: &str,
    most: usize,
) -> Result<Vec<u8>, FileFault>
    ensures files { D.files depot.new ≡ D.files depot.old }
    ensures made { D.made depot.new ≡ D.made depot.old }
    ensures read { IfOk result (λ bytes. IsFile (D.files depot.old) name.now bytes.items) }
    ensures within { IfOk result (λ bytes. length bytes.items ≤ most) }
    ensures too_big { IsErrOf result FileFault.TooBig → IsLongFile (D.files depot.old) name.now most }
    ensures missing { IsErrOf result FileFault.Missing → IsNotThere (D.files depot.old) name.now }
    ensures cause { HasFileCause (D.faults depot.old) (D.faults depot.new) (D.misses depot.old) (D.misses depot.new)
        result }
    ensures stops { IsCaused (D.stops depot.old) (D.stops depot.new) (IsErrOf result FileFault.Failed) }
    ensures ports { D.opened depot.new ≡ D.opened depot.old }
    ensures calls { CountsCalls (D.calls depot.old) (D.calls depot.new) result }
    ensures once { (D.calls depot.new ≤ with_added (D.calls depot.old) 1) ⊎ IsThere (D.files depot.old) name.now }
{
    let mut port = depot.open_in(alloc, name)?;
    let read = read_all(alloc, &mut port, most);
    depot.close_in(port);
    Ok(read?)
}

/// Makes a file with these bytes, in place of one that had the name: it makes, writes and closes it, and only then
/// answers. `Failed` may leave a prefix of them.
pub fn write_file<D: Depot>(
    alloc: Global,
    depot: &mut D,
    name: &str,
    bytes: &[u8],
) -> Result<(), FileFault>
    ensures file { WritesFile (D.files depot.old) (D.files depot.new) (D.made depot.old) (D.made depot.new) name.now
        bytes.now result }
    ensures cause { HasFileCause (D.faults depot.old) (D.faults depot.new) (D.misses depot.old) (D.misses depot.new)
        result }
    ensures stops { ¬ IsErrOf result FileFault.Failed → D.stops depot.new ≡ D.stops depot.old }
    ensures later { D.stops depot.old ≤ D.stops depot.new }
    ensures ports { D.opened depot.new ≡ D.opened depot.old }
    ensures calls { CountsCalls (D.calls depot.old) (D.calls depot.new) result }
{
    let mut port = depot.create_out(alloc, name)?;
    let written = write_all(&mut port, bytes);
    let closed = depot.close_out(name, port);
    match written {
        Ok(()) => match closed {
            Ok(()) => Ok(()),
            Err(_) => Err(FileFault::Failed),
        },
        Err(_) => Err(FileFault::Failed),
    }
}

/// Makes a new file with these bytes, unless the name is there: it makes, writes and closes it, and only then answers.
/// `Failed` may leave a prefix of them.
pub fn write_new<D: Depot>(
    alloc: Global,
    depot: &mut D,
    name: &str,
    bytes: &[u8],
) -> Result<New, FileFault>
    ensures file { WritesNewFile (D.files depot.old) (D.files depot.new) (D.made depot.old) (D.made depot.new) name.now
        bytes.now result }
    ensures cause { HasFileCause (D.faults depot.old) (D.faults depot.new) (D.misses depot.old) (D.misses depot.new)
        result }
    ensures stops { ¬ IsErrOf result FileFault.Failed → D.stops depot.new ≡ D.stops depot.old }
    ensures later { D.stops depot.old ≤ D.stops depot.new }
    ensures ports { D.opened depot.new ≡ D.opened depot.old }
    ensures calls { CountsNewCalls (D.calls depot.old) (D.calls depot.new) result }
{
    let Some(mut port) = depot.create_new(alloc, name)? else {
        return Ok(New::There);
    };
    let written = write_all(&mut port, bytes);
    let closed = depot.close_out(name, port);
    match written {
        Ok(()) => match closed {
            Ok(()) => Ok(New::Made),
            Err(_) => Err(FileFault::Failed),
        },
        Err(_) => Err(FileFault::Failed),
    }
}

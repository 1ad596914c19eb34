ghost use Rattle.std.specs.Prelude.{◌≡◌, ◌≤◌, IfOk, OnOk, OnErr, IsErrOf, length};
ghost use Rattle.std.specs.Io.KnownBytes.{Appends};
ghost use Rattle.sd_base.specs.Count.{HasCause, HasRisen};
ghost use Rattle.sd_ports.specs.Rooms.{FillsRoom};
ghost use Rattle.sd_ports.specs.Bytes.{AppendsPrefix, LosesPrefix, GivesAll, IsLonger};

use crate::fault::PortFault;
use crate::prefix::{ReadMostFault, read_most};
use crate::sink::Sink;
use crate::source::Source;
use std::alloc::Global;

/// Why a whole input wasn't read.
#[derive(Clone, Copy, PartialEq, Eq)]
pub enum ReadAllFault {
    /// It has more bytes than were allowed.
    TooBig,
    /// A read failed.
    Failed,
    /// Out of memory.
    NoMemory,
}

/// Reads all that is left, at most `most` bytes, and stops as soon as more were read. After a fault a prefix of what
/// was left is gone.
pub fn read_all<S: Source>(
    alloc: Global,
    source: &mut S,
    most: usize,
) -> Result<Vec<u8>, ReadAllFault>
    ensures all { IfOk result (λ bytes. GivesAll (S.left source.old) (S.left source.new) bytes.items) }
    ensures within { IfOk result (λ bytes. length bytes.items ≤ most) }
    ensures too_big { IsErrOf result ReadAllFault.TooBig → IsLonger (S.left source.old) most }
    ensures failed { IsErrOf result ReadAllFault.Failed → HasRisen (S.faults source.old) (S.faults source.new) }
    ensures later { S.faults source.old ≤ S.faults source.new }
    ensures calm { ¬ IsErrOf result ReadAllFault.Failed → S.faults source.new ≡ S.faults source.old }
    ensures lost { OnErr result (LosesPrefix (S.left source.old) (S.left source.new)) }
{
    match read_most(alloc, source, most) {
        Ok(taken) if taken.more() => Err(ReadAllFault::TooBig),
        Ok(taken) => Ok(taken.into_bytes()),
        Err(ReadMostFault::Failed) => Err(ReadAllFault::Failed),
        Err(ReadMostFault::NoMemory) => Err(ReadAllFault::NoMemory),
    }
}

/// Writes all the bytes. After a fault a prefix of them was written.
#[tactic(auto, using(crate::proofs::Portions::appends_more, crate::proofs::Rooms::none_taken, crate::proofs::Rooms::more_taken, crate::proofs::Rooms::too_long))]
pub fn write_all<K: Sink>(sink: &mut K, bytes: &[u8]) -> Result<(), PortFault>
    ensures all { OnOk result (Appends (K.held sink.old) (K.held sink.new) bytes.now) }
    ensures prefix { OnErr result (AppendsPrefix (K.held sink.old) (K.held sink.new) bytes.now) }
    ensures cause { HasCause (K.faults sink.old) (K.faults sink.new) result }
    ensures room { FillsRoom (K.room sink.old) (K.room sink.new) (length bytes.now) result }
{
    let mut done = 0;
    while done < bytes.len() {
        match sink.write(&bytes[done..]) {
            Ok(count) => done += count,
            Err(fault) => return Err(fault),
        }
    }
    Ok(())
}

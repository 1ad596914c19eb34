ghost use Rattle.std.specs.Prelude.{◌≡◌, ◌≤◌, ◌++◌, nat_lt, true, false, IfOk, IsErrOf, [], length, take};
ghost use Rattle.sd_base.specs.Count.{HasRisen};
ghost use Rattle.sd_ports.specs.Bytes.{GivesAll, IsTakenFrom, LosesPrefix};
ghost use Rattle.sd_ports.specs.Causes.{ReadsFirst};

use crate::source::Source;
use sd_base::NoMemory;
use std::alloc::Global;
use std::marker::Model;

/// The first bytes of an input, and whether there are more.
#[derive(Drop)]
pub struct Taken {
    bytes: Vec<u8>,
    more: bool,
}

impl Model for Taken {
    ghost use Rattle.sd_ports.specs.Bytes.{Prefix};

    ghost Value = { Prefix };

    ghost view = { λ t. record { bytes = t.bytes.items; more = t.more } };
}

impl Taken {
    /// The bytes.
    pub fn bytes(&self) -> &[u8]
        ensures { result.now ≡ self.now.bytes }
    {
        &self.bytes
    }

    /// Whether a further byte was read.
    pub fn more(&self) -> bool
        ensures { result ≡ self.now.more }
    {
        self.more
    }

    /// The bytes, without memory.
    pub fn into_bytes(self) -> Vec<u8>
        ensures { result.items ≡ self.bytes }
    {
        self.bytes
    }
}

/// Why the first bytes of an input weren't read.
#[derive(Clone, Copy, PartialEq, Eq)]
pub enum ReadMostFault {
    /// A read failed.
    Failed,
    /// Out of memory.
    NoMemory,
}

/// The most bytes of one read, which are on the stack.
const BUFFER: usize = 16384;

/// Reads the first `most` bytes of what is left, or all, and stops as soon as more were read. A prefix of what was left
/// is gone then, which may be longer than what was taken.
pub fn read_most<S: Source>(
    alloc: Global,
    source: &mut S,
    most: usize,
) -> Result<Taken, ReadMostFault>
    ensures value { IfOk result (λ taken. IsTakenFrom most (S.left source.old) taken) }
    ensures all { IfOk result (λ taken. taken.more ≡ false
        → GivesAll (S.left source.old) (S.left source.new) taken.bytes) }
    ensures within { IfOk result (λ taken. length taken.bytes ≤ most) }
    ensures full { IfOk result (λ taken. taken.more ≡ true → length taken.bytes ≡ most) }
    ensures failed { IsErrOf result ReadMostFault.Failed → HasRisen (S.faults source.old) (S.faults source.new) }
    ensures later { S.faults source.old ≤ S.faults source.new }
    ensures calm { ¬ IsErrOf result ReadMostFault.Failed → S.faults source.new ≡ S.faults source.old }
    ensures lost { LosesPrefix (S.left source.old) (S.left source.new) }
{
    let mut bytes = Vec::new(alloc);
    let more = fill(&mut bytes, source, most)?;
    Ok(Taken { bytes, more })
}

/// Reads on until all was read that was left, or more than `most` bytes, of which it keeps the first `most`. Answers
/// whether it was more.
fn fill<S: Source>(bytes: &mut Vec<u8>, source: &mut S, most: usize) -> Result<bool, ReadMostFault>
    requires { bytes.old.items ≡ [] }
    ensures { ReadsFirst most (S.left source.old) (S.left source.new) (S.faults source.old) (S.faults source.new)
        bytes.new.items result }
{
    let mut buffer = [0u8; BUFFER];
    for _turn in 0..u64::MAX {
        match source.read(&mut buffer) {
            Ok(0) => return Ok(false),
            Ok(count) => {
                let Ok(over) = keep(bytes, &buffer[..count], most) else {
                    return Err(ReadMostFault::NoMemory);
                };
                if over {
                    return Ok(true);
                }
            }
            Err(_) => return Err(ReadMostFault::Failed),
        }
    }
    unreachable!()
}

/// Puts more bytes after those that were read, as many as there may be, and answers whether some are left over.
fn keep(bytes: &mut Vec<u8>, more: &[u8], most: usize) -> Result<bool, NoMemory>
    requires { length bytes.old.items ≤ most }
    ensures kept { IfOk result (λ over. bytes.new.items ≡ take most (bytes.old.items ++ more.now)) }
    ensures over { IfOk result (λ over. over ≡ nat_lt most (length (bytes.old.items ++ more.now))) }
{
    let count = more.len().min(most - bytes.len());
    match bytes.extend_from_slice(&more[..count]) {
        Ok(()) => Ok(count < more.len()),
        Err(_) => Err(NoMemory),
    }
}

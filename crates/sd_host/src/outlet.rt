ghost use Rattle.std.specs.Prelude.{◌≡◌, ◌-◌, ◌<◌, ◌≤◌, None, [], vec_len, vec_capacity, IfOk, OnOk, OnErr, length};
ghost use Rattle.std.specs.Io.{WritesAtMost};
ghost use Rattle.std.specs.Io.KnownBytes.{Keeps, WriteAppends};
ghost use Rattle.sd_base.specs.Count.{HasCause, with_added};
ghost use Rattle.sd_ports.specs.Rooms.{TakesRoom};
ghost use Rattle.sd_host.specs.Waiting.{given_to};
ghost use Rattle.sd_host.specs.declared.outlet.TheConstants.{BUFFER};

use crate::print::StdPrint;
use sd_ports::{PortFault, Sink};
use std::io::{ErrorKind, Write};

/// How many bytes wait at most before they are written to a file: more transport packets, of 188 bytes, than come of
/// one
/// read. So what comes of one read is one write, and each write of a stream of packets ends with a whole one.
pub(crate) const BUFFER: usize = 1_024 * 188;

/// A file of the machine that is open for writing.
#[derive(Drop)]
pub struct HostOutlet<F> {
    file: StdPrint<F>,
    waiting: Vec<u8>,
    sent: usize,
    ghost begun: { sent ≤ vec_len waiting },
    ghost within: { vec_len waiting ≤ BUFFER },
    ghost room: { BUFFER ≤ vec_capacity waiting },
}

impl<F: Write + Drop> HostOutlet<F> {
    /// A port to an empty file, with an empty buffer.
    pub(crate) fn new(file: F, buffer: Vec<u8>) -> HostOutlet<F>
        requires empty { vec_len buffer ≡ 0 }
        requires room { BUFFER ≤ vec_capacity buffer }
        ensures faults { result.file.faults ≡ 0 }
    {
        HostOutlet {
            file: StdPrint::new(file),
            waiting: buffer,
            sent: 0,
        }
    }

    /// The file.
    pub(crate) fn file(&self) -> &F
        ensures { result.now ≡ self.now.file.writer }
    {
        self.file.writer()
    }

    /// How many writes failed.
    pub(crate) fn faults(&self) -> u64
        ensures { result ≡ self.now.file.faults }
    {
        self.file.faults()
    }

    /// The kind of the last error, if a write failed.
    pub(crate) fn kind(&self) -> Option<ErrorKind>
        ensures { result ≡ self.now.file.kind }
    {
        self.file.kind()
    }

    /// Writes what waits. After a fault, what wasn't written waits still.
    pub(crate) fn send(&mut self) -> Result<(), PortFault>
        ensures passed { Keeps (given_to (F.Write.contents self.old.file.writer) self.old.waiting.items self.old.sent)
            (given_to (F.Write.contents self.new.file.writer) self.new.waiting.items self.new.sent) }
        ensures all { OnOk result (self.new.waiting.items ≡ []) }
        ensures cause { HasCause self.old.file.faults self.new.file.faults result }
        ensures one { OnErr result (self.new.file.faults ≡ with_added self.old.file.faults 1) }
    {
        while self.sent < self.waiting.len() {
            match self.file.write(&self.waiting[self.sent..]) {
                Ok(count) => self.sent += count,
                Err(fault) => return Err(fault),
            }
        }
        self.sent = 0;
        self.waiting.clear();
        Ok(())
    }

    /// Sees to it that the buffer has room for a byte.
    #[tactic(auto, using(crate::proofs::Kept::kept_same))]
    fn make_room(&mut self) -> Result<(), PortFault>
        ensures passed { Keeps (given_to (F.Write.contents self.old.file.writer) self.old.waiting.items self.old.sent)
            (given_to (F.Write.contents self.new.file.writer) self.new.waiting.items self.new.sent) }
        ensures room { OnOk result (vec_len self.new.waiting < BUFFER) }
        ensures cause { HasCause self.old.file.faults self.new.file.faults result }
        ensures one { OnErr result (self.new.file.faults ≡ with_added self.old.file.faults 1) }
    {
        if self.waiting.len() < BUFFER {
            return Ok(());
        }
        self.send()
    }
}

impl<F: Write + Drop> Sink for HostOutlet<F> {
    ghost held = { λ s. None };

    ghost faults = { λ s. s.file.faults };

    ghost room = { λ s. None };

    ghost waits = { λ s. vec_len s.waiting - s.sent };

    /// Once the buffer is full, what waits there is written first. A piece as long as the buffer is written past it,
    /// after what waits. It takes no memory.
    #[tactic(auto, using(crate::proofs::Kept::kept_grown, crate::proofs::Kept::written_past))]
    fn write(&mut self, piece: &[u8]) -> Result<usize, PortFault>
        requires { 0 < length piece.now }
        ensures some { IfOk result (λ k. 0 < k) }
        ensures bound { WritesAtMost result piece.now }
        ensures bytes { WriteAppends None None result piece.now }
        ensures cause { HasCause self.old.file.faults self.new.file.faults result }
        ensures room { TakesRoom None None (length piece.now) result }
        ensures passed { WriteAppends
            (given_to (F.Write.contents self.old.file.writer) self.old.waiting.items self.old.sent)
            (given_to (F.Write.contents self.new.file.writer) self.new.waiting.items self.new.sent) result piece.now }
        ensures one { OnErr result (self.new.file.faults ≡ with_added self.old.file.faults 1) }
    {
        if piece.len() >= BUFFER {
            self.send()?;
            return self.file.write(piece);
        }
        self.make_room()?;
        let count = piece.len().min(BUFFER - self.waiting.len());
        self.waiting.extend_from_slice(&piece[..count]).unwrap();
        Ok(count)
    }

    fn hand_on(&mut self) -> Result<(), PortFault>
        ensures all { OnOk result (vec_len self.new.waiting - self.new.sent ≡ 0) }
        ensures cause { HasCause self.old.file.faults self.new.file.faults result }
        ensures passed { Keeps (given_to (F.Write.contents self.old.file.writer) self.old.waiting.items self.old.sent)
            (given_to (F.Write.contents self.new.file.writer) self.new.waiting.items self.new.sent) }
        ensures one { OnErr result (self.new.file.faults ≡ with_added self.old.file.faults 1) }
    {
        self.send()
    }
}

ghost use Rattle.std.specs.Prelude.{◌≡◌, ◌<◌, None, Ok, IfOk, OnErr, length};
ghost use Rattle.std.specs.Io.{WritesAtMost};
ghost use Rattle.std.specs.Io.KnownBytes.{WriteAppends};
ghost use Rattle.sd_base.specs.Count.{HasCause, with_added};
ghost use Rattle.sd_ports.specs.Rooms.{TakesRoom};

use sd_ports::{PortFault, Sink};
use std::io::{ErrorKind, Write};

/// The standard output, or another writer, with nothing held back.
#[derive(Drop)]
pub struct StdPrint<W> {
    writer: W,
    faults: u64,
    // The kind of the last error.
    kind: Option<ErrorKind>,
}

impl<W: Write + Drop> StdPrint<W> {
    /// A sink over a writer, as `std::io::writer(&rt)`, with a count of 0.
    pub fn new(writer: W) -> StdPrint<W>
        ensures faults { result.faults ≡ 0 }
    {
        StdPrint {
            writer,
            faults: 0,
            kind: None,
        }
    }

    /// The writer.
    pub(crate) fn writer(&self) -> &W
        ensures { result.now ≡ self.now.writer }
    {
        &self.writer
    }

    /// How many writes failed.
    pub(crate) fn faults(&self) -> u64
        ensures { result ≡ self.now.faults }
    {
        self.faults
    }

    /// The kind of the last error, if a write failed.
    pub(crate) fn kind(&self) -> Option<ErrorKind>
        ensures { result ≡ self.now.kind }
    {
        self.kind
    }
}

impl<W: Write + Drop> Sink for StdPrint<W> {
    ghost held = { λ s. None };

    ghost faults = { λ s. s.faults };

    ghost room = { λ s. None };

    /// Nothing is held back.
    ghost waits = { λ s. 0 };

    /// A write that a signal interrupts is tried again, and one that takes nothing is a fault.
    #[tactic(auto, using(crate::proofs::Kept::kept_appends, crate::proofs::Kept::kept_twice, crate::proofs::Kept::kept_none))]
    fn write(&mut self, piece: &[u8]) -> Result<usize, PortFault>
        requires { 0 < length piece.now }
        ensures some { IfOk result (λ k. 0 < k) }
        ensures bound { WritesAtMost result piece.now }
        ensures bytes { WriteAppends None None result piece.now }
        ensures cause { HasCause self.old.faults self.new.faults result }
        ensures room { TakesRoom None None (length piece.now) result }
        ensures passed { WriteAppends (W.Write.contents self.old.writer) (W.Write.contents self.new.writer) result
            piece.now }
        ensures one { OnErr result (self.new.faults ≡ with_added self.old.faults 1) }
    {
        for _turn in 0..u64::MAX {
            match self.writer.write(piece) {
                Ok(0) => {
                    self.kind = Some(ErrorKind::WriteZero);
                    break;
                }
                Ok(count) => return Ok(count),
                Err(error) if error.kind() == ErrorKind::Interrupted => {}
                Err(error) => {
                    self.kind = Some(error.kind());
                    break;
                }
            }
        }
        self.faults = self.faults.saturating_add(1);
        Err(PortFault)
    }

    fn hand_on(&mut self) -> Result<(), PortFault>
        ensures told { result ≡ Ok tt }
        ensures same { self.new ≡ self.old }
        ensures cause { HasCause self.old.faults self.new.faults result }
    {
        Ok(())
    }
}

ghost use Rattle.std.specs.Prelude.{◌≡◌, ◌≢◌, ◌<◌, ℕ, List, Option, None, Ok, length, IfOk, OnOk};
ghost use Rattle.std.specs.Io.{WritesAtMost};
ghost use Rattle.std.specs.Io.KnownBytes.{WriteAppends};
ghost use Rattle.sd_base.specs.Count.{HasCause};
ghost use Rattle.sd_ports.specs.Rooms.{TakesRoom};

use crate::fault::PortFault;

/// Where bytes go.
pub trait Sink: Drop {
    /// The bytes taken so far, where the sink tells them.
    ghost held: { Self → Option (List ℕ) };

    /// How many writes failed.
    ghost faults: { Self → ℕ };

    /// How many more bytes there is room for, where the sink tells it.
    ghost room: { Self → Option ℕ };

    /// The number of bytes taken that were not handed to the machine yet.
    ghost waits: { Self → ℕ };

    /// Takes at least one byte from the beginning of `piece`, and answers how many.
    fn write(&mut self, piece: &[u8]) -> Result<usize, PortFault>
        requires { 0 < length piece.now }
        ensures some { IfOk result (λ k. 0 < k) }
        ensures bound { WritesAtMost result piece.now }
        ensures bytes { WriteAppends (held self.old) (held self.new) result piece.now }
        ensures cause { HasCause (faults self.old) (faults self.new) result }
        ensures room { TakesRoom (room self.old) (room self.new) (length piece.now) result };

    /// Hands on all bytes that wait.
    fn hand_on(&mut self) -> Result<(), PortFault>
        ensures all { OnOk result (waits self.new ≡ 0) }
        ensures same { (held self.new ≡ held self.old) × (room self.new ≡ room self.old) }
        ensures told { (held self.old ≢ None) → result ≡ Ok tt }
        ensures cause { HasCause (faults self.old) (faults self.new) result };
}

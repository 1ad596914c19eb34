ghost use Rattle.std.specs.Prelude.{◌≡◌, ◌<◌, ◌≤◌, ◌↔◌, IfOk, IsErr, Ok, Some, [], length, true};
ghost use Rattle.std.specs.Io.{WritesAtMost};
ghost use Rattle.std.specs.Io.KnownBytes.{WriteAppends};
ghost use Rattle.sd_base.specs.Count.{HasCause};
ghost use Rattle.sd_ports.specs.Memory.{after_write, is_listed, room_in, bytes_taken, write_fails};
ghost use Rattle.sd_ports.specs.Rooms.{TakesRoom};

use crate::fault::PortFault;
use crate::sink::Sink;
use sd_base::NoMemory;
use std::alloc::Global;
use std::marker::Model;

/// A sink in memory. It takes at most `most` bytes a write, and its writes can be made to fail by their numbers.
#[derive(Drop)]
pub struct MemSink {
    bytes: Vec<u8>,
    room: usize,
    most: usize,
    fails: Vec<u32>,
    writes: u64,
    faults: u64,
}

impl Model for MemSink {
    ghost use Rattle.std.specs.Prelude.{◌≤◌, ◌<◌, vec_len, vec_capacity};
    ghost use Rattle.sd_ports.specs.Memory.{Store};

    ghost Value = { Store };

    ghost view = { λ s. record {
      held = s.bytes.items;
      room = s.room;
      most = s.most;
      fails = s.fails.items;
      writes =
          s.writes;
      faults = s.faults;
    } };

    ghost invariant = { λ s. (vec_len s.bytes ≤ s.room) × (s.room ≤ vec_capacity s.bytes) × (0 < s.most) };
}

impl MemSink {
    /// An empty sink with room for `room` bytes, which it takes at once. Writes are numbered from 0, and those whose
    /// numbers stand in `fails` fail.
    pub fn new(
        alloc: Global,
        room: usize,
        most: usize,
        fails: Vec<u32>,
    ) -> Result<MemSink, NoMemory>
        requires { 1 ≤ most }
        ensures { IfOk result (λ s. s ≡ record {
          held = [];
          room = room;
          most = most;
          fails = fails.items;
          writes =
              0;
          faults = 0;
        }) }
    {
        match Vec::with_capacity(alloc, room) {
            Ok(bytes) => Ok(MemSink {
                bytes,
                room,
                most,
                fails,
                writes: 0,
                faults: 0,
            }),
            Err(_) => Err(NoMemory),
        }
    }

    /// The bytes taken so far.
    pub fn bytes(&self) -> &[u8]
        ensures { result.now ≡ self.now.held }
    {
        &self.bytes
    }

    /// The bytes taken so far, without memory.
    pub fn into_bytes(self) -> Vec<u8>
        ensures { result.items ≡ self.held }
    {
        self.bytes
    }

    /// How many writes failed.
    pub fn faults(&self) -> u64
        ensures { result ≡ self.now.faults }
    {
        self.faults
    }
}

impl Sink for MemSink {
    ghost held = { λ s. Some s.held };

    ghost faults = { λ s. s.faults };

    ghost room = { room_in };

    /// All that was taken is in memory.
    ghost waits = { λ s. 0 };

    /// A piece that passes the room fails whole, and nothing of it is held. It takes no memory.
    fn write(&mut self, piece: &[u8]) -> Result<usize, PortFault>
        requires { 0 < length piece.now }
        ensures some { IfOk result (λ k. 0 < k) }
        ensures bound { WritesAtMost result piece.now }
        ensures bytes { WriteAppends (Some self.old.held) (Some self.new.held) result piece.now }
        ensures cause { HasCause self.old.faults self.new.faults result }
        ensures room { TakesRoom (room_in self.old) (room_in self.new) (length piece.now) result }
        ensures fails { IsErr result ↔ (write_fails self.old (length piece.now) ≡ true) }
        ensures count { IfOk result (λ k. k ≡ bytes_taken self.old (length piece.now)) }
        ensures after { self.new ≡ after_write self.old piece.now }
    {
        let number = self.writes;
        self.writes = number.saturating_add(1);
        if is_listed(&self.fails, number) || piece.len() > self.room - self.bytes.len() {
            self.faults = self.faults.saturating_add(1);
            return Err(PortFault);
        }
        let count = self.most.min(piece.len());
        self.bytes.extend_from_slice(&piece[..count]).unwrap();
        Ok(count)
    }

    fn hand_on(&mut self) -> Result<(), PortFault>
        ensures told { result ≡ Ok tt }
        ensures unchanged { self.new ≡ self.old }
        ensures cause { HasCause self.old.faults self.new.faults result }
    {
        Ok(())
    }
}

/// Whether a call's number stands in the list of those that fail.
pub fn is_listed(fails: &[u32], number: u64) -> bool
    ensures { result ≡ is_listed fails.now number }
{
    fails.iter().any(|n| u64::from(*n) == number)
}

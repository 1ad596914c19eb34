ghost use Rattle.std.specs.Prelude.{◌≡◌, ◌<◌, ◌≤◌, ◌↔◌, IfOk, IsErr, Some, length, min, take, true};
ghost use Rattle.std.specs.Io.{ReadsAtMost};
ghost use Rattle.std.specs.Io.KnownBytes.{ReadConsumes};
ghost use Rattle.sd_base.specs.Count.{HasCause};
ghost use Rattle.sd_ports_memory.specs.Memory.{after_read, given_bytes, read_fails};

use sd_ports::{PortFault, Source, is_listed};
use std::marker::Model;

/// A source in memory. It gives at most `most` bytes a read, and its reads can be made to fail by their numbers.
#[derive(Drop)]
pub struct MemSource {
    bytes: Vec<u8>,
    at: usize,
    most: usize,
    fails: Vec<u32>,
    reads: u64,
    faults: u64,
}

impl Model for MemSource {
    ghost use Rattle.std.specs.Prelude.{◌≤◌, ◌<◌, drop, vec_len};
    ghost use Rattle.sd_ports_memory.specs.Memory.{Supply};

    ghost Value = { Supply };

    ghost view = { λ s. record {
      left = drop s.at s.bytes.items;
      most = s.most;
      fails = s.fails.items;
      reads = s.reads;
      faults =
          s.faults;
    } };

    ghost invariant = { λ s. (s.at ≤ vec_len s.bytes) × (0 < s.most) };
}

impl MemSource {
    /// A source of these bytes. Reads are numbered from 0, and those whose numbers stand in `fails` fail.
    pub fn new(bytes: Vec<u8>, most: usize, fails: Vec<u32>) -> MemSource
        requires { 1 ≤ most }
        ensures { result ≡ record { left = bytes.items; most = most; fails = fails.items; reads = 0; faults = 0 } }
    {
        MemSource {
            bytes,
            at: 0,
            most,
            fails,
            reads: 0,
            faults: 0,
        }
    }

    /// How many reads failed.
    pub fn faults(&self) -> u64
        ensures { result ≡ self.now.faults }
    {
        self.faults
    }
}

impl Source for MemSource {
    ghost left = { λ s. Some s.left };

    ghost faults = { λ s. s.faults };

    fn read(&mut self, buf: &mut [u8]) -> Result<usize, PortFault>
        requires { 0 < length buf.old }
        ensures bound { ReadsAtMost result buf.new }
        ensures bytes { ReadConsumes (Some self.old.left) (Some self.new.left) result buf.new }
        ensures cause { HasCause self.old.faults self.new.faults result }
        ensures fails { IsErr result ↔ (read_fails self.old ≡ true) }
        ensures count { IfOk result (λ k. k ≡ given_bytes self.old (length buf.old)) }
        ensures after { self.new ≡ after_read self.old (length buf.old) }
    {
        let number = self.reads;
        self.reads = number.saturating_add(1);
        if is_listed(&self.fails, number) {
            self.faults = self.faults.saturating_add(1);
            return Err(PortFault);
        }
        let count = give(&self.bytes[self.at..], self.most, buf);
        self.at += count;
        Ok(count)
    }
}

/// Copies a prefix of the bytes to the buffer's beginning, and answers its length.
fn give(bytes: &[u8], most: usize, buf: &mut [u8]) -> usize
    ensures count { result ≡ min most (min (length buf.old) (length bytes.now)) }
    ensures bytes { take result buf.new ≡ take result bytes.now }
{
    let count = most.min(buf.len()).min(bytes.len());
    buf[..count].copy_from_slice(&bytes[..count]);
    count
}

ghost use Rattle.std.specs.Prelude.{◌≡◌, ◌≤◌, ◌<◌, ◌^◌, ◌↔◌, IfOk, IsErr, IsSome, OnOk, OnErr, IsErrOf, Ok, Some};
ghost use Rattle.std.specs.Prelude.{None, [], true, false, string_bytes};
ghost use Rattle.std.specs.Option.{option_map};
ghost use Rattle.std.specs.FinMap as map;
ghost use Rattle.sd_base.specs.Count.{HasCause, IsCaused, with_added};
ghost use Rattle.sd_ports.specs.Causes.{CountsClosed, CountsMade, CountsOpen, HasDepotCause};
ghost use Rattle.sd_ports.specs.Files.{ClosesFile, IsFresh, IsNotThere, IsThere, LeavesPrefix, OpensFile};
ghost use Rattle.sd_ports.specs.Files.{port_in, with_bytes};
ghost use Rattle.sd_ports_memory.specs.Memory.{call_fails, empty_shelf, fails_of, told_files, with_call, with_closed};
ghost use Rattle.sd_ports_memory.specs.Memory.{with_fault, with_file, with_inlet, with_outlet, with_port_fault};
ghost use Rattle.sd_ports_memory.specs.Memory.{without_port};

use crate::failing::Failing;
use crate::supply::MemSource;
use sd_base::NoMemory;
use sd_ports::{Depot, DepotFault, MemSink};
use std::alloc::Global;
use std::collections::BTreeMap;
use std::marker::Model;

/// A depot in memory. Calls of it and of its ports can be made to fail by their numbers.
pub struct MemDepot {
    alloc: Global,
    files: BTreeMap<String, Vec<u8>>,
    room: usize,
    most: usize,
    failing: Failing,
    faults: u64,
    stops: u64,
    misses: u64,
    made: u64,
    opened: u64,
    calls: u64,
}

// Written out, so that a test drops a depot by one call.
impl Drop for MemDepot {
    fn drop(self) {
        let MemDepot {
            alloc: _,
            files: _,
            room: _,
            most: _,
            failing: _,
            faults: _,
            stops: _,
            misses: _,
            made: _,
            opened: _,
            calls: _,
        } = self;
    }
}

impl Model for MemDepot {
    ghost use Rattle.std.specs.Prelude.{◌<◌};
    ghost use Rattle.sd_ports_memory.specs.Memory.{Shelf, shelf_code, told_files};

    ghost Value = { Shelf };

    ghost coded = { shelf_code };

    ghost view = { λ d. record {
      files = told_files d.files;
      room = d.room;
      most = d.most;
      failing = d.failing;
      faults = d.faults;
      stops = d.stops;
      misses = d.misses;
      made = d.made;
      opened = d.opened;
      calls = d.calls;
    } };

    ghost invariant = { λ d. 0 < d.most };
}

impl MemDepot {
    /// A depot with no file. Its ports give or take at most `most` bytes a call, and its sinks have room for `room`.
    #[tactic(auto, using(crate::proofs::Shelves::told_none))]
    pub fn new(alloc: Global, room: usize, most: usize) -> Result<MemDepot, NoMemory>
        requires { 1 ≤ most }
        ensures { IfOk result (λ d. d ≡ empty_shelf room most) }
    {
        Ok(MemDepot {
            alloc,
            files: BTreeMap::new(alloc),
            room,
            most,
            failing: Failing::new(alloc)?,
            faults: 0,
            stops: 0,
            misses: 0,
            made: 0,
            opened: 0,
            calls: 0,
        })
    }

    /// Adds a file, or replaces the one of that name.
    pub fn put(&mut self, name: &str, bytes: Vec<u8>) -> Result<(), NoMemory>
        ensures ok { OnOk result (self.new ≡ with_file self.old name.now bytes.items) }
        ensures err { OnErr result (self.new ≡ self.old) }
    {
        set(self.alloc, &mut self.files, name, bytes)
    }

    /// The bytes of a file, and `None` where no file has the name.
    pub fn get(&self, name: &str) -> Option<&[u8]>
        ensures { option_map (λ bytes. bytes.now) result ≡ map.get self.now.files name.now }
    {
        look_up(&self.files, name)
    }

    /// Makes the depot's call of this number fail. Its calls are numbered from 0 over `open_in`, `create_out`,
    /// `create_new` and `close_out`. The newest 16 numbers are kept. It takes no memory.
    pub fn fail_call(&mut self, number: u32)
        ensures { self.new ≡ with_fault self.old number }
    {
        self.failing.add_call(number);
    }

    /// Makes the call of this number fail on each port of this name that is opened from now on. A port's calls, its
    /// reads or its writes, are numbered from 0. The newest 16 pairs are kept. It takes no memory.
    pub fn fail_port(&mut self, name: String, number: u32)
        ensures { self.new ≡ with_port_fault self.old (string_bytes name) number }
    {
        self.failing.add_port(name, number);
    }

    /// The number of I/O errors, in its own calls and in the ports that were closed.
    pub fn faults(&self) -> u64
        ensures { result ≡ self.now.faults }
    {
        self.faults
    }

    /// How often a file was asked for that isn't there.
    pub fn misses(&self) -> u64
        ensures { result ≡ self.now.misses }
    {
        self.misses
    }

    /// How many files were made.
    pub fn made(&self) -> u64
        ensures { result ≡ self.now.made }
    {
        self.made
    }

    /// Counts and numbers one more call, and counts a fault where it is to fail.
    fn begin(&mut self) -> Result<(), DepotFault>
        ensures ok { OnOk result (self.new ≡ with_call self.old self.old.faults self.old.stops) }
        ensures err { OnErr result (self.new ≡ with_call self.old (with_added self.old.faults 1) self.old.stops) }
        ensures fails { IsErr result ↔ (call_fails self.old ≡ true) }
        ensures failed { OnErr result (IsErrOf result DepotFault.Failed) }
        ensures within { self.old.faults < 2 ^ 64 }
    {
        self.calls = self.calls.saturating_add(1);
        if self.failing.next() {
            self.faults = self.faults.saturating_add(1);
            return Err(DepotFault::Failed);
        }
        Ok(())
    }

    /// Counts and numbers one more call that is to open a port.
    fn begin_opening(&mut self) -> Result<(), DepotFault>
        ensures ok { OnOk result (self.new ≡ with_call self.old self.old.faults self.old.stops) }
        ensures err { OnErr result (self.new ≡ with_call self.old (with_added self.old.faults 1)
            (with_added self.old.stops 1)) }
        ensures fails { IsErr result ↔ (call_fails self.old ≡ true) }
        ensures failed { OnErr result (IsErrOf result DepotFault.Failed) }
        ensures within { self.old.faults < 2 ^ 64 }
        ensures below { self.old.stops < 2 ^ 64 }
    {
        let begun = self.begin();
        if begun.is_err() {
            self.stops = self.stops.saturating_add(1);
        }
        begun
    }
}

impl Depot for MemDepot {
    type Inlet = MemSource;

    type Outlet = MemSink;

    ghost files = { λ d. Some d.files };

    ghost faults = { λ d. d.faults };

    ghost stops = { λ d. d.stops };

    ghost misses = { λ d. d.misses };

    ghost made = { λ d. d.made };

    ghost opened = { λ d. d.opened };

    ghost calls = { λ d. d.calls };

    /// Opens a copy of the file's bytes.
    fn open_in(&mut self, alloc: Global, name: &str) -> Result<MemSource, DepotFault>
        ensures files { Some self.new.files ≡ Some self.old.files }
        ensures opened { IfOk result (λ port. OpensFile (Some self.old.files) name.now (Some port.left)) }
        ensures fresh { IfOk result (λ port. port.faults ≡ 0) }
        ensures not_there { IsErrOf result DepotFault.Missing → IsNotThere (Some self.old.files) name.now }
        ensures cause { HasDepotCause self.old.faults self.new.faults self.old.misses self.new.misses result }
        ensures stops { IsCaused self.old.stops self.new.stops (IsErrOf result DepotFault.Failed) }
        ensures made { self.new.made ≡ self.old.made }
        ensures fails { IsErrOf result DepotFault.Failed ↔ (call_fails self.old ≡ true) }
        ensures missing { IsErrOf result DepotFault.Missing ↔ (call_fails self.old ≡ false)
            × (map.get self.old.files name.now ≡ None) }
        ensures ports { CountsOpen self.old.opened self.new.opened result }
        ensures calls { self.new.calls ≡ with_added self.old.calls 1 }
        ensures unchanged { self.new ≡ with_inlet self.old self.new.faults self.new.stops self.new.misses
            self.new.opened }
        ensures miss { IsErrOf result DepotFault.Missing → self.new.misses ≡ with_added self.old.misses 1 }
        ensures fault { IsErrOf result DepotFault.Failed → self.new.faults ≡ with_added self.old.faults 1 }
        ensures port { IfOk result (λ port. port ≡ record {
          left = port.left;
          most = self.old.most;
          fails = fails_of self.old name.now;
          reads =
              0;
          faults = 0;
        }) }
    {
        if let Err(_) = self.begin_opening() {
            return Err(DepotFault::Failed);
        }
        let Some(file) = look_up(&self.files, name) else {
            self.misses = self.misses.saturating_add(1);
            return Err(DepotFault::Missing);
        };
        let Ok(fails) = self.failing.numbers_of(alloc, name) else {
            return Err(DepotFault::NoMemory);
        };
        match Vec::from_slice(alloc, file) {
            Ok(bytes) => {
                self.opened = self.opened.wrapping_add(1);
                Ok(MemSource::new(bytes, self.most, fails))
            }
            Err(_) => Err(DepotFault::NoMemory),
        }
    }

    /// The empty file and the sink's room are taken at once.
    fn create_out(&mut self, alloc: Global, name: &str) -> Result<MemSink, DepotFault>
        ensures files { OnOk result (Some self.new.files ≡ with_bytes (Some self.old.files) name.now []) }
        ensures unchanged { OnErr result (Some self.new.files ≡ Some self.old.files) }
        ensures empty { IfOk result (λ port. IsFresh (Some self.old.files) (Some port.held)) }
        ensures fresh { IfOk result (λ port. port.faults ≡ 0) }
        ensures missing { IsErrOf result DepotFault.Missing → Some self.old.files ≡ None }
        ensures cause { HasDepotCause self.old.faults self.new.faults self.old.misses self.new.misses result }
        ensures stops { IsCaused self.old.stops self.new.stops (IsErrOf result DepotFault.Failed) }
        ensures made { CountsMade self.old.made self.new.made result }
        ensures ports { CountsOpen self.old.opened self.new.opened result }
        ensures calls { self.new.calls ≡ with_added self.old.calls 1 }
        ensures ok { OnOk result (self.new ≡ with_outlet self.old name.now) }
        ensures err { OnErr result (self.new ≡ with_call self.old self.new.faults self.new.stops) }
        ensures fails { IsErrOf result DepotFault.Failed ↔ (call_fails self.old ≡ true) }
        ensures fault { IsErrOf result DepotFault.Failed → self.new.faults ≡ with_added self.old.faults 1 }
        ensures port { IfOk result (λ port. port ≡ record {
          held = [];
          room = self.old.room;
          most = self.old.most;
          fails = fails_of self.old name.now;
          writes = 0;
          faults = 0;
        }) }
    {
        if let Err(_) = self.begin_opening() {
            return Err(DepotFault::Failed);
        }
        let Ok(fails) = self.failing.numbers_of(alloc, name) else {
            return Err(DepotFault::NoMemory);
        };
        let Ok(port) = MemSink::new(alloc, self.room, self.most, fails) else {
            return Err(DepotFault::NoMemory);
        };
        match set(alloc, &mut self.files, name, Vec::new(alloc)) {
            Ok(()) => {
                self.made = self.made.saturating_add(1);
                self.opened = self.opened.wrapping_add(1);
                Ok(port)
            }
            Err(_) => Err(DepotFault::NoMemory),
        }
    }

    /// The empty file and the sink's room are taken at once.
    fn create_new(&mut self, alloc: Global, name: &str) -> Result<Option<MemSink>, DepotFault>
        ensures new { OnOk (port_in result) (IsNotThere (Some self.old.files) name.now) }
        ensures there { result ≡ Ok None → IsThere (Some self.old.files) name.now }
        ensures files { OnOk (port_in result) (Some self.new.files ≡ with_bytes (Some self.old.files) name.now []) }
        ensures unchanged { OnErr (port_in result) (Some self.new.files ≡ Some self.old.files) }
        ensures empty { IfOk (port_in result) (λ port. IsFresh (Some self.old.files) (Some port.held)) }
        ensures fresh { IfOk (port_in result) (λ port. port.faults ≡ 0) }
        ensures missing { IsErrOf result DepotFault.Missing → Some self.old.files ≡ None }
        ensures cause { HasDepotCause self.old.faults self.new.faults self.old.misses self.new.misses result }
        ensures stops { IsCaused self.old.stops self.new.stops (IsErrOf result DepotFault.Failed) }
        ensures made { CountsMade self.old.made self.new.made (port_in result) }
        ensures ports { CountsOpen self.old.opened self.new.opened (port_in result) }
        ensures calls { self.new.calls ≡ with_added self.old.calls 1 }
        ensures ok { OnOk (port_in result) (self.new ≡ with_outlet self.old name.now) }
        ensures err { OnErr (port_in result) (self.new ≡ with_call self.old self.new.faults self.new.stops) }
        ensures fails { IsErrOf result DepotFault.Failed ↔ (call_fails self.old ≡ true) }
        ensures fault { IsErrOf result DepotFault.Failed → self.new.faults ≡ with_added self.old.faults 1 }
        ensures port { IfOk (port_in result) (λ port. port ≡ record {
          held = [];
          room = self.old.room;
          most = self.old.most;
          fails = fails_of self.old name.now;
          writes = 0;
          faults = 0;
        }) }
    {
        if let Err(_) = self.begin_opening() {
            return Err(DepotFault::Failed);
        }
        if look_up(&self.files, name).is_some() {
            return Ok(None);
        }
        let Ok(fails) = self.failing.numbers_of(alloc, name) else {
            return Err(DepotFault::NoMemory);
        };
        let Ok(port) = MemSink::new(alloc, self.room, self.most, fails) else {
            return Err(DepotFault::NoMemory);
        };
        if set(alloc, &mut self.files, name, Vec::new(alloc)).is_err() {
            return Err(DepotFault::NoMemory);
        }
        self.made = self.made.saturating_add(1);
        self.opened = self.opened.wrapping_add(1);
        Ok(Some(port))
    }

    fn close_in(&mut self, port: MemSource)
        ensures files { Some self.new.files ≡ Some self.old.files }
        ensures faults { self.new.faults ≡ with_added self.old.faults port.faults }
        ensures stops { self.new.stops ≡ with_added self.old.stops port.faults }
        ensures misses { self.new.misses ≡ self.old.misses }
        ensures within { self.old.faults < 2 ^ 64 }
        ensures below { self.old.stops < 2 ^ 64 }
        ensures made { self.new.made ≡ self.old.made }
        ensures ports { CountsClosed self.old.opened self.new.opened }
        ensures calls { self.new.calls ≡ with_added self.old.calls 1 }
        ensures unchanged { self.new ≡ without_port self.old port.faults self.new.opened }
    {
        self.calls = self.calls.saturating_add(1);
        self.opened = self.opened.wrapping_sub(1);
        let faults = port.faults();
        self.faults = self.faults.saturating_add(faults);
        self.stops = self.stops.saturating_add(faults);
    }

    /// It takes no memory. Where it fails, the file has the first half of what the port held.
    #[tactic(auto, using(crate::proofs::Closing::closes_prefix, crate::proofs::Closing::half_stays))]
    fn close_out(&mut self, name: &str, port: MemSink) -> Result<(), DepotFault>
        requires { IsThere (Some self.old.files) name.now }
        ensures closed { OnOk result (ClosesFile (Some self.old.files) (Some self.new.files) name.now
            (Some port.held)) }
        ensures prefix { LeavesPrefix (Some self.old.files) (Some self.new.files) name.now (Some port.held) }
        ensures failed { OnErr result (IsErrOf result DepotFault.Failed) }
        ensures cause { HasCause (with_added self.old.faults port.faults) self.new.faults result }
        ensures stops { self.new.stops ≡ with_added self.old.stops port.faults }
        ensures within { self.old.faults < 2 ^ 64 }
        ensures below { self.old.stops < 2 ^ 64 }
        ensures misses { self.new.misses ≡ self.old.misses }
        ensures made { self.new.made ≡ self.old.made }
        ensures ports { CountsClosed self.old.opened self.new.opened }
        ensures calls { self.new.calls ≡ with_added self.old.calls 1 }
        ensures fails { IsErr result ↔ (call_fails self.old ≡ true) }
        ensures after { self.new ≡ with_closed self.old name.now port self.new.opened }
    {
        self.opened = self.opened.wrapping_sub(1);
        let faults = port.faults();
        self.faults = self.faults.saturating_add(faults);
        self.stops = self.stops.saturating_add(faults);
        let begun = self.begin();
        let mut bytes = port.into_bytes();
        if let Err(fault) = begun {
            bytes.truncate(bytes.len() / 2);
            replace(&mut self.files, name, bytes);
            return Err(fault);
        }
        replace(&mut self.files, name, bytes);
        Ok(())
    }
}

/// The bytes that stand under a name.
#[tactic(auto, using(crate::proofs::Shelves::told_at))]
fn look_up<'a>(files: &'a BTreeMap<String, Vec<u8>>, name: &str) -> Option<&'a [u8]>
    ensures { option_map (λ bytes. bytes.now) result ≡ map.get (told_files files.now) name.now }
{
    match files.get(name) {
        Some(bytes) => Some(bytes),
        None => None,
    }
}

/// Puts the bytes under a name, in place of those that stand there.
#[tactic(auto, using(crate::proofs::Shelves::told_after, crate::proofs::Shelves::told_same))]
fn set(
    alloc: Global,
    files: &mut BTreeMap<String, Vec<u8>>,
    name: &str,
    bytes: Vec<u8>,
) -> Result<(), NoMemory>
    ensures files { OnOk result (told_files files.new ≡ map.insert (told_files files.old) name.now bytes.items) }
    ensures unchanged { OnErr result (told_files files.new ≡ told_files files.old) }
{
    let Ok(key) = String::from_str(alloc, name) else {
        return Err(NoMemory);
    };
    match files.insert(key, bytes) {
        Ok(_) => Ok(()),
        Err(_) => Err(NoMemory),
    }
}

/// Puts the bytes in place of those that stand under a name, without memory.
#[tactic(auto, using(crate::proofs::Shelves::told_there, crate::proofs::Shelves::told_written))]
fn replace(files: &mut BTreeMap<String, Vec<u8>>, name: &str, bytes: Vec<u8>)
    requires { IsSome (map.get (told_files files.old) name.now) }
    ensures { told_files files.new ≡ map.insert (told_files files.old) name.now bytes.items }
{
    let file = files.get_mut(name).unwrap();
    *file = bytes;
}

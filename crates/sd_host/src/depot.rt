ghost use Rattle.std.specs.Prelude.{◌≡◌, ◌≢◌, ◌↔◌, ◌<◌, None, Err, IfOk, IfSome, IsErrOf, IsTrue, []};
ghost use Rattle.std.specs.Prelude.{List, ℕ, option_map, string_bytes, vec_capacity, vec_len};
ghost use Rattle.sd_base.specs.Count.{IsCaused};
ghost use Rattle.sd_ports.specs.Causes.{HasDepotCause};
ghost use Rattle.sd_host.specs.Faults.{depot_fault_of, faults_after, misses_after};
ghost use Rattle.sd_host.specs.Kept.{IsOutput, IsThrough};
ghost use Rattle.sd_host.specs.Told.{said_in};

use crate::error::FileError;
use crate::identity;
use crate::identity::{Identity, Kind, Output};
use crate::inlet::HostInlet;
use crate::outlet::{BUFFER, HostOutlet};
use crate::target::Target;
use sd_ports::{Depot, DepotFault};
use std::alloc::{AllocError, Global};
use std::fs::Files;
use std::io;
use std::io::ErrorKind;

/// The files of the machine, by their paths.
#[derive(Drop)]
pub struct HostDepot<'a, R> {
    alloc: Global,
    files: &'a R,
    private: bool,
    // The last error, for the explanation: no count and no result depends on it.
    trouble: Option<FileError>,
    output: Output,
    inputs: Vec<Identity>,
    faults: u64,
    stops: u64,
    misses: u64,
    made: u64,
    opened: u64,
    calls: u64,
}

impl<'a, R: Files + Print> HostDepot<'a, R> {
    /// The files, with counts of 0. A private depot makes files that are their owner's alone.
    pub fn new(alloc: Global, files: &'a R, private: bool) -> HostDepot<'a, R>
        ensures private { result.private ≡ private }
        ensures inputs { result.inputs.items ≡ [] }
        ensures faults { result.faults ≡ 0 }
        ensures stops { result.stops ≡ 0 }
        ensures misses { result.misses ≡ 0 }
        ensures made { result.made ≡ 0 }
        ensures ports { result.opened ≡ 0 }
        ensures calls { result.calls ≡ 0 }
    {
        HostDepot {
            alloc,
            files,
            private,
            trouble: None,
            output: identity::standard_output(files),
            inputs: Vec::new(alloc),
            faults: 0,
            stops: 0,
            misses: 0,
            made: 0,
            opened: 0,
            calls: 0,
        }
    }

    /// Whether the file of that name is the standard output, and that a regular file, a pipe or a socket.
    pub fn is_output(&self, name: &str) -> bool
        ensures { IsTrue result → (file : Identity) × IsOutput self.now.output file }
    {
        identity::is_output(self.files, self.output, name)
    }

    /// Whether the standard output could be looked at. If not, a file that is the standard output isn't recognized.
    pub fn knows_output(&self) -> bool
        ensures { IsTrue result ↔ (self.now.output ≢ Output.Unknown) }
    {
        self.output != Output::Unknown
    }

    /// The file of which the machine told an error last, and the kind of error. There is none without an error, and
    /// none if there was no memory for the name.
    pub fn trouble(&self) -> Option<(&str, ErrorKind)>
        ensures { option_map {U = List ℕ × ErrorKind} (λ told. (told.0.now, told.1)) result
            ≡ option_map said_in self.now.trouble }
    {
        match &self.trouble {
            Some(error) => Some((error.name.as_str(), error.kind)),
            None => None,
        }
    }

    /// Where a file of that name is written, which is the standard output or not.
    fn target(&self, is_output: bool, name: &str) -> io::Result<Target<'a, R>>
        ensures through { IfOk result (λ target. IsTrue is_output ↔ IsThrough target) }
    {
        if is_output {
            return Ok(self.through());
        }
        let (file, kind) = identity::create(self.files, &self.inputs, self.private, name)?;
        match kind {
            Kind::Stream => Ok(Target::Pipe(file)),
            Kind::Regular | Kind::Block | Kind::Other => Ok(Target::File(file)),
        }
    }

    /// The standard output, which is written through its own descriptor.
    fn through(&self) -> Target<'a, R>
        ensures { IsThrough result }
    {
        match self.output {
            Output::Pipe(_) => Target::OutputPipe(self.files),
            Output::File(_) | Output::Other | Output::Unknown => Target::Output(self.files),
        }
    }

    /// Writes what still waits, and brings a file that was made new to the disk. An error's kind is returned.
    fn finish(
        &self,
        name: &str,
        port: &mut HostOutlet<Target<'a, R>>,
    ) -> Result<(), Option<ErrorKind>> {
        match port.send() {
            Ok(()) => match port.file().sync(self.files, name) {
                Ok(()) => Ok(()),
                Err(error) => Err(Some(error.kind())),
            },
            Err(_) => Err(port.kind()),
        }
    }

    /// Counts why the file of that name wasn't opened, and says it.
    fn refuse<T>(&mut self, name: &str, kind: ErrorKind) -> Result<T, DepotFault>
        ensures value { result ≡ Err (depot_fault_of kind) }
        ensures misses { self.new.misses ≡ misses_after self.old.misses (depot_fault_of kind) }
        ensures faults { self.new.faults ≡ faults_after self.old.faults (depot_fault_of kind) }
        ensures cause { HasDepotCause self.old.faults self.new.faults self.old.misses self.new.misses result }
        ensures stops { IsCaused self.old.stops self.new.stops (IsErrOf result DepotFault.Failed) }
        ensures made { self.new.made ≡ self.old.made }
        ensures ports { self.new.opened ≡ self.old.opened }
        ensures calls { self.new.calls ≡ self.old.calls }
        ensures trouble { IsErrOf result DepotFault.Failed → IfSome self.new.trouble
            (λ error. (string_bytes error.name ≡ name.now) × (error.kind ≡ kind)) }
    {
        match kind {
            ErrorKind::NotFound | ErrorKind::NotADirectory => {
                self.misses = self.misses.saturating_add(1);
                Err(DepotFault::Missing)
            }
            ErrorKind::OutOfMemory => Err(DepotFault::NoMemory),
            _ => {
                self.trouble = FileError::of(self.alloc, name, kind);
                self.faults = self.faults.saturating_add(1);
                self.stops = self.stops.saturating_add(1);
                Err(DepotFault::Failed)
            }
        }
    }
}

impl<'a, R: Files + Print> Depot for HostDepot<'a, R> {
    type Inlet = HostInlet<R::File>;

    type Outlet = HostOutlet<Target<'a, R>>;

    ghost files = { λ d. None };

    ghost faults = { λ d. d.faults };

    ghost stops = { λ d. d.stops };

    ghost misses = { λ d. d.misses };

    ghost made = { λ d. d.made };

    ghost opened = { λ d. d.opened };

    ghost calls = { λ d. d.calls };

    fn open_in(&mut self, alloc: Global, name: &str) -> Result<HostInlet<R::File>, DepotFault> {
        self.calls = self.calls.saturating_add(1);
        match identity::open(self.files, &mut self.inputs, self.output, name) {
            Ok(file) => {
                self.opened = self.opened.wrapping_add(1);
                Ok(HostInlet::new(file, String::from_str(alloc, name).ok()))
            }
            Err(error) => self.refuse(name, error.kind()),
        }
    }

    /// The memory is taken before the file is made. The standard output is written through its own descriptor, whatever
    /// path leads to it, and is neither opened anew nor cut off. A file that was opened for reading is never made anew,
    /// whatever path leads to it: it stays as it is, and that is a fault.
    fn create_out(
        &mut self,
        alloc: Global,
        name: &str,
    ) -> Result<HostOutlet<Target<'a, R>>, DepotFault> {
        self.calls = self.calls.saturating_add(1);
        let Ok(buffer) = Vec::with_capacity(alloc, BUFFER) else {
            return Err(DepotFault::NoMemory);
        };
        let target = match self.target(self.is_output(name), name) {
            Ok(target) => target,
            Err(error) => return self.refuse(name, error.kind()),
        };
        self.made = self.made.saturating_add(1);
        self.opened = self.opened.wrapping_add(1);
        Ok(HostOutlet::new(target, buffer))
    }

    /// The memory is taken before the file is made. No link is followed, and the standard output is never written so:
    /// its name is there. The file is among the inputs from then on, so nothing is made over it.
    fn create_new(
        &mut self,
        alloc: Global,
        name: &str,
    ) -> Result<Option<HostOutlet<Target<'a, R>>>, DepotFault> {
        self.calls = self.calls.saturating_add(1);
        let Ok(buffer) = Vec::with_capacity(alloc, BUFFER) else {
            return Err(DepotFault::NoMemory);
        };
        let Ok(mut inputs) = with_room(alloc, &self.inputs) else {
            return Err(DepotFault::NoMemory);
        };
        let file = match identity::create_new(self.files, &mut inputs, self.private, name) {
            Ok(Some(file)) => file,
            Ok(None) => return Ok(None),
            Err(error) => return self.refuse(name, error.kind()),
        };
        self.inputs = inputs;
        self.made = self.made.saturating_add(1);
        self.opened = self.opened.wrapping_add(1);
        Ok(Some(HostOutlet::new(Target::New(file), buffer)))
    }

    fn close_in(&mut self, port: HostInlet<R::File>) {
        self.calls = self.calls.saturating_add(1);
        self.opened = self.opened.wrapping_sub(1);
        let faults = port.faults();
        self.faults = self.faults.saturating_add(faults);
        self.stops = self.stops.saturating_add(faults);
        if let Some(error) = port.into_error() {
            self.trouble = Some(error);
        }
    }

    /// Writes what still waits, and brings a file that was made new to the disk.
    fn close_out(
        &mut self,
        name: &str,
        mut port: HostOutlet<Target<'a, R>>,
    ) -> Result<(), DepotFault> {
        self.calls = self.calls.saturating_add(1);
        self.opened = self.opened.wrapping_sub(1);
        let faults = port.faults();
        self.faults = self.faults.saturating_add(faults);
        self.stops = self.stops.saturating_add(faults);
        let finished = self.finish(name, &mut port);
        let kind = match finished {
            Ok(()) => port.kind(),
            Err(kind) => kind,
        };
        self.trouble = FileError::or_before(self.alloc, name, kind, self.trouble.take());
        if finished.is_ok() {
            return Ok(());
        }
        self.faults = self.faults.saturating_add(1);
        Err(DepotFault::Failed)
    }
}

/// The same inputs, with room for one more.
fn with_room(alloc: Global, inputs: &[Identity]) -> Result<Vec<Identity>, AllocError>
    ensures same { IfOk result (λ more. more.items ≡ inputs.now) }
    ensures room { IfOk result (λ more. vec_len more < vec_capacity more) }
{
    let mut more = Vec::with_capacity(alloc, inputs.len() + 1)?;
    more.extend_from_slice(inputs)?;
    Ok(more)
}

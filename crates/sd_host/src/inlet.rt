ghost use Rattle.std.specs.Prelude.{◌≡◌, ◌<◌, None, OnErr, length};
ghost use Rattle.std.specs.Io.{ReadsAtMost};
ghost use Rattle.std.specs.Io.KnownBytes.{ReadConsumes};
ghost use Rattle.sd_base.specs.Count.{HasCause, with_added};
ghost use Rattle.sd_host.specs.Told.{file_error_of};

use crate::error::FileError;
use sd_ports::{PortFault, Source};
use std::io::{ErrorKind, Read};

/// A file of the machine that is open for reading.
#[derive(Drop)]
pub struct HostInlet<F> {
    file: F,
    faults: u64,
    // The file's name, if there was memory for it.
    name: Option<String>,
    // The kind of the last error.
    kind: Option<ErrorKind>,
}

impl<F: Read + Drop> HostInlet<F> {
    /// A port to a file, with a count of 0.
    pub(crate) fn new(file: F, name: Option<String>) -> HostInlet<F>
        ensures faults { result.faults ≡ 0 }
    {
        HostInlet {
            file,
            faults: 0,
            name,
            kind: None,
        }
    }

    /// How many reads failed.
    pub(crate) fn faults(&self) -> u64
        ensures { result ≡ self.now.faults }
    {
        self.faults
    }

    /// What the machine said of the file, if a read failed and the name is known.
    pub(crate) fn into_error(self) -> Option<FileError>
        ensures { result ≡ file_error_of self.name self.kind }
    {
        match (self.name, self.kind) {
            (Some(name), Some(kind)) => Some(FileError { name, kind }),
            _ => None,
        }
    }
}

impl<F: Read + Drop> Source for HostInlet<F> {
    ghost left = { λ s. None };

    ghost faults = { λ s. s.faults };

    /// A read that a signal interrupts is tried again.
    #[tactic(auto, using(crate::proofs::Kept::kept_consumes, crate::proofs::Kept::kept_twice))]
    fn read(&mut self, buf: &mut [u8]) -> Result<usize, PortFault>
        requires { 0 < length buf.old }
        ensures bound { ReadsAtMost result buf.new }
        ensures bytes { ReadConsumes None None result buf.new }
        ensures cause { HasCause self.old.faults self.new.faults result }
        ensures passed { ReadConsumes (F.Read.remaining self.old.file) (F.Read.remaining self.new.file) result buf.new }
        ensures one { OnErr result (self.new.faults ≡ with_added self.old.faults 1) }
    {
        for _turn in 0..u64::MAX {
            match self.file.read(buf) {
                Ok(count) => return Ok(count),
                Err(error) if error.kind() == ErrorKind::Interrupted => {}
                Err(error) => {
                    self.kind = Some(error.kind());
                    break;
                }
            }
        }
        self.faults = self.faults.saturating_add(1);
        Err(PortFault)
    }
}

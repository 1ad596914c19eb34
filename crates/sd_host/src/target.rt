ghost use Rattle.std.specs.Prelude.{◌≡◌, length, min, take};

use crate::identity;
use std::fs::{Files, OpenFile};
use std::io;
use std::io::Write;

/// How many bytes are written to a pipe at once: as many whole transport packets, of 188 bytes, as a pipe takes whole
/// or
/// not at all, which are 4,096 bytes (PIPE_BUF). So if the program is killed, the last packet in a pipe is a whole one.
const AT_ONCE: usize = 21 * 188;

/// Where an output goes: into a file that was opened or made for it, or to the standard output by its own descriptor.
#[derive(Drop)]
pub enum Target<'a, R: Files> {
    /// A file that was opened for writing.
    File(R::File),
    /// A file that was made new. It is on the disk once it is closed.
    New(R::File),
    /// A pipe or a socket that was opened for writing.
    Pipe(R::File),
    /// The standard output, which is no pipe.
    Output(&'a R),
    /// The standard output, which is a pipe or a socket.
    OutputPipe(&'a R),
}

impl<R: Files> Target<'_, R> {
    /// Brings a file that was made new to the disk, and its name in its folder. Other outputs stay as they are.
    pub(crate) fn sync(&self, files: &R, name: &str) -> io::Result<()> {
        let Target::New(file) = self else {
            return Ok(());
        };
        file.sync_all()?;
        identity::sync_folder(files, identity::folder_of(name))
    }
}

impl<R: Files + Print> Write for Target<'_, R> {
    fn write(&mut self, buf: &[u8]) -> io::Result<usize> {
        match self {
            Target::File(file) | Target::New(file) => file.write(buf),
            Target::Pipe(file) => file.write(at_once(buf)),
            Target::Output(output) => output.write_some(buf),
            Target::OutputPipe(output) => output.write_some(at_once(buf)),
        }
    }

    /// Nothing is held back.
    fn flush(&mut self) -> io::Result<()> {
        Ok(())
    }
}

/// The first of these bytes, as many as are written to a pipe at once.
fn at_once(buf: &[u8]) -> &[u8]
    ensures { result.now ≡ take (min (length buf.now) AT_ONCE) buf.now }
{
    &buf[..buf.len().min(AT_ONCE)]
}

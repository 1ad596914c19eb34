ghost use Rattle.std.specs.Prelude.{if◌then◌else◌};

use std::io;
use std::io::Write;

/// Where lines go: to the standard output, or to the standard error.
#[derive(Drop)]
pub(crate) struct Lines<O, E> {
    pub(crate) output: O,
    pub(crate) error: E,
    pub(crate) to_error: bool,
}

impl<O: Write, E: Write> Write for Lines<O, E> {
    ghost contents = { λ l. if l.to_error then E.Write.contents l.error else O.Write.contents l.output };

    fn write(&mut self, buf: &[u8]) -> io::Result<usize> {
        if self.to_error {
            self.error.write(buf)
        } else {
            self.output.write(buf)
        }
    }

    /// Nothing is held back.
    fn flush(&mut self) -> io::Result<()> {
        Ok(())
    }
}
